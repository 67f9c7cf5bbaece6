//! The normal form of all rules of a survey, as lines.
ghost use Rattle.std.specs.Prelude.{◌≡◌, ◌≤◌, ◌==◌, ◌*◌, ℕ, IfOk, count_by, length, map};
ghost use Rattle.edit_line.specs.Lines.{AreOver};
ghost use Rattle.edit_line.specs.Shapes.{shape_of};
ghost use Rattle.edit_normal.specs.RuleLines.{SayEachRule, normal_lines_of, rule_lines_from};

use crate::rule_line::{NumberedRule, RuleLine};
use crate::rule_lines::push_rule;
use crate::survey_shape::SurveyShape;
use edit_line::Line;
use edit_model::Survey;
use foundation::OutOfMemory;
use std::alloc::Global;

/// The lines of each rule, in order: the normal form of an edit (Fellegi and Holt 1976; De Waal, Pannekoek
/// and Scholtus 2011, on edits that mix codes and numbers). A rule has at most two lines, and they all hold
/// at a point exactly where the rule does. A line with an empty set of codes says nothing and is left out.
pub fn normal_lines(alloc: Global, survey: &Survey) -> Result<Vec<RuleLine>, OutOfMemory>
    ensures exact { IfOk result (λ lines. lines.items ≡ rule_lines_from (shape_of survey.now.fields) 0 survey.now.rules) }
    ensures lines { IfOk result (λ lines. map (λ l. l.line) lines.items ≡ normal_lines_of survey.now) }
    ensures over { IfOk result (λ lines. AreOver (shape_of survey.now.fields) (map (λ l. l.line) lines.items)) }
    ensures few { IfOk result (λ lines. (i : ℕ) → count_by (λ l. l.rule == i) lines.items ≤ 2) }
    ensures most { IfOk result (λ lines. length lines.items ≤ 2 * length survey.now.rules) }
    ensures same { IfOk result (λ lines. SayEachRule survey.now lines.items) }
{
    let fields = SurveyShape::of(alloc, survey)?;
    let mut lines = Vec::new(alloc);
    for (number, rule) in survey.rules().iter().enumerate() {
        let numbered = NumberedRule {
            number: number as u32,
            rule,
        };
        push_rule(alloc, &fields, &numbered, &mut lines)?;
    }
    Ok(lines)
}

/// The normal lines of all rules, in order, for callers that need not know which rule a line came from.
/// They are at most 1000.
pub fn lines_of_rules(alloc: Global, survey: &Survey) -> Result<Vec<Line>, OutOfMemory>
    ensures lines { IfOk result (λ lines. lines.items ≡ normal_lines_of survey.now) }
    ensures over { IfOk result (λ lines. AreOver (shape_of survey.now.fields) lines.items) }
    ensures few { IfOk result (λ lines. length lines.items ≤ 1000) }
{
    let _few = survey.rules(); // read for what it says: there are at most 500
    let numbered = normal_lines(alloc, survey)?;
    let mut lines = Vec::with_capacity(alloc, numbered.len())?;
    for rule_line in numbered {
        lines.push(rule_line.line)?;
    }
    Ok(lines)
}
