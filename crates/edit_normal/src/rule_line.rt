//! A rule with its number, and a line that still knows which rule it came from.
use edit_line::Line;
use edit_model::Rule;

/// A line of the normal form of a rule, with the rule's number, from 0.
#[derive(Drop)]
pub struct RuleLine {
    pub rule: u32,
    pub line: Line,
}

/// A rule, and its number among the survey's rules, from 0, which each of its lines gets.
#[derive(Clone, Copy)]
pub(crate) struct NumberedRule<'a> {
    pub(crate) number: u32,
    pub(crate) rule: &'a Rule,
}
