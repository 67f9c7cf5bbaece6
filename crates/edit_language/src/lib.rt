//! The rule language. A rule text declares the fields of a survey and sets its edits, one statement a
//! line; [`read_rules`] reads one, [`print_rules`] writes one. What a text says is in
//! `specs/Grammar.antt`, what a statement means in `specs/Meaning.antt`, what is wrong with one in
//! `specs/Faults.antt`. An edit that is no rule of a survey is printed by the same parts, which
//! `specs/Printing.antt` states: [`conditions_text`], [`write_term`], [`write_constant`] and
//! [`compare_text`]. [`rule_text`] is one rule's line.
#![tactic(auto)]

mod codes;
mod draft;
mod fault;
mod first_fault;
mod line;
mod meaning;
mod names;
mod numbers;
mod printing;
mod reading;
mod sums;

pub use fault::{RulesFault, RulesKind};
pub use printing::{
    compare_text, conditions_text, print_rules, rule_text, write_constant, write_term,
};
pub use reading::read_rules;
