//! The edits of a survey, from its rules by way of their normal lines.
ghost use Rattle.std.specs.Prelude.{◌≡◌, ◌≤◌, IfOk, length, map};
ghost use Rattle.edit_line.specs.EditSets.{SayTheRules};
ghost use Rattle.edit_normal.specs.RuleEdits.{placed_from, rule_edits};

use crate::normal::normal_lines;
use crate::rule_line::RuleLine;
use edit_line::{Edits, Line};
use edit_model::Survey;
use foundation::OutOfMemory;
use std::alloc::Global;

/// The edits of a survey: the normal lines of its rules, numbered by their places from 0. A point with codes
/// of the survey meets them exactly where it meets all rules.
pub fn rule_edits(alloc: Global, survey: &Survey) -> Result<Edits, OutOfMemory>
    ensures edits { IfOk result (λ edits. edits ≡ rule_edits survey.now) }
    ensures same { IfOk result (λ edits. SayTheRules survey.now edits) }
{
    let _rules = survey.rules(); // read for what it says: they are in form, and at most 500
    let lines = number_lines(alloc, normal_lines(alloc, survey)?)?;
    let edits = Edits::new(alloc, survey, lines)?;
    Ok(edits)
}

// The lines, each numbered by its place, from 0, in the place of its rule's number. They are at most
// 1000: two for each of 500 rules.
fn number_lines(alloc: Global, rule_lines: Vec<RuleLine>) -> Result<Vec<(u32, Line)>, OutOfMemory>
    requires { length rule_lines.items ≤ 1000 }
    ensures { IfOk result (λ lines. lines.items ≡ placed_from 0 (map (λ l. l.line) rule_lines.items)) }
{
    let mut lines = Vec::with_capacity(alloc, rule_lines.len())?;
    let mut number = 0;
    for rule_line in rule_lines {
        lines.push((number, rule_line.line))?;
        number += 1;
    }
    Ok(lines)
}
