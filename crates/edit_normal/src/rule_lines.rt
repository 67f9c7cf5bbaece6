//! The normal lines of one rule. Conditions on codes narrow the sets of a line, and what is left to say of
//! numbers is its linear part. Below, `fields` is the survey's shape, `rule` the rule's number, and `lines`
//! the list that grows.
//!
//! In contracts, `joined_by` has the lines before, and behind them those of the others in which no set is
//! empty. `FitsCodes` says that a test on codes is on a categorical field, and `AreWithin` that no set has
//! a code that its field has not.
ghost use Rattle.std.specs.Prelude.{◌≡◌, [], ◌∷◌, All, OnOk};
ghost use Rattle.edit_line.specs.inner.SetBounds.{AreWithin};
ghost use Rattle.edit_line.specs.Negations.{never};
ghost use Rattle.edit_line.specs.Sets.{none_is_empty};
ghost use Rattle.edit_line.specs.Shapes.{whole_sets};
ghost use Rattle.edit_normal.specs.NormalForm.{all_lines_of, always_lines, compare_always, conclusion_lines, condition_lines, implied_lines, lines_against, lines_for};
ghost use Rattle.edit_normal.specs.inner.Sides.{MayAsk, joined_by, side_line};
ghost use Rattle.edit_normal.specs.inner.Fits.{FitsCodes};

use crate::narrow::{narrow, narrow_where_false};
use crate::rule_line::{NumberedRule, RuleLine};
use crate::side::{Side, side_line};
use crate::survey_shape::SurveyShape;
use edit_line::{Line, Relation};
use edit_model::{Compare, Linear, Test};
use foundation::OutOfMemory;
use std::alloc::Global;

/// A test that compares a sum, and the sets of codes in which it is asked.
#[derive(Clone, Copy)]
struct TestWithin<'a> {
    sets: &'a [u64],
    linear: &'a Linear,
}

/// Appends the lines of a rule, each with the rule's number. A line with an empty set of codes would
/// ask nothing, and is left out, here and below.
pub(crate) fn push_rule(
    alloc: Global,
    fields: &SurveyShape,
    numbered: &NumberedRule,
    lines: &mut Vec<RuleLine>,
) -> Result<(), OutOfMemory>
    requires conditions { All (FitsCodes fields.now) numbered.now.rule.now.conditions }
    requires conclusion { FitsCodes fields.now numbered.now.rule.now.conclusion }
    ensures { OnOk result (lines.new.items
        ≡ joined_by lines.old.items numbered.now.number (all_lines_of fields.now numbered.now.rule.now)) }
{
    if numbered.rule.conditions.as_slice().is_empty() {
        push_always(alloc, fields, numbered, lines)
    } else {
        push_implied(alloc, fields, numbered, lines)
    }
}

// Appends the lines of a rule without conditions: its conclusion has to hold at each record.
fn push_always(
    alloc: Global,
    fields: &SurveyShape,
    numbered: &NumberedRule,
    lines: &mut Vec<RuleLine>,
) -> Result<(), OutOfMemory>
    requires { FitsCodes fields.now numbered.now.rule.now.conclusion }
    ensures { OnOk result (lines.new.items
        ≡ joined_by lines.old.items numbered.now.number (always_lines fields.now numbered.now.rule.now.conclusion)) }
{
    match &numbered.rule.conclusion {
        Test::Number(linear) => push_compare_always(alloc, fields, linear, numbered.number, lines),
        Test::Codes { .. } => {
            let sets = Vec::from_slice(alloc, fields.wholes())?;
            push_conclusion(alloc, fields, sets, numbered, lines)
        }
    }
}

// Appends the lines that say that the test's sum compares with 0 as the test says, whatever the codes are.
// An equation becomes one line here, an equality: only a line for all codes may be one.
fn push_compare_always(
    alloc: Global,
    fields: &SurveyShape,
    linear: &Linear,
    rule: u32,
    lines: &mut Vec<RuleLine>,
) -> Result<(), OutOfMemory>
    ensures { OnOk result (lines.new.items ≡ joined_by lines.old.items rule (compare_always fields.now linear.now linear.now.compare)) }
{
    let wholes = fields.wholes();
    let test = TestWithin {
        sets: wholes,
        linear,
    };
    match linear.compare {
        Compare::Ge | Compare::Gt | Compare::Le | Compare::Lt => {
            push_compare(alloc, fields, &test, rule, lines)
        }
        Compare::Eq => push_side(alloc, fields, &test, Side::Zero, rule, lines),
    }
}

// Appends the lines of a rule with conditions. Each condition on codes narrows the sets; one that compares
// a sum is the only condition of its rule, and its lines are the rule's.
fn push_implied(
    alloc: Global,
    fields: &SurveyShape,
    numbered: &NumberedRule,
    lines: &mut Vec<RuleLine>,
) -> Result<(), OutOfMemory>
    requires conditions { All (FitsCodes fields.now) numbered.now.rule.now.conditions }
    requires conclusion { FitsCodes fields.now numbered.now.rule.now.conclusion }
    ensures { OnOk result (lines.new.items
        ≡ joined_by lines.old.items numbered.now.number
        (implied_lines fields.now (whole_sets fields.now) numbered.now.rule.now.conditions numbered.now.rule.now.conclusion)) }
{
    let mut sets = Vec::from_slice(alloc, fields.wholes())?;
    for condition in numbered.rule.conditions.as_slice() {
        match condition {
            Test::Codes {
                field,
                negated,
                codes,
            } => narrow(fields, &mut sets, *field, *negated, *codes),
            Test::Number(linear) => {
                return push_condition(alloc, fields, sets, linear, numbered, lines);
            }
        }
    }
    push_conclusion(alloc, fields, sets, numbered, lines)
}

// Appends the lines of a conclusion, which are asked where the codes are in the sets. A test that
// compares a sum is asked there. Of a test on codes the line says that no codes in the sets fail it.
fn push_conclusion(
    alloc: Global,
    fields: &SurveyShape,
    mut sets: Vec<u64>,
    numbered: &NumberedRule,
    lines: &mut Vec<RuleLine>,
) -> Result<(), OutOfMemory>
    requires within { AreWithin sets.items (whole_sets fields.now) }
    requires fits { FitsCodes fields.now numbered.now.rule.now.conclusion }
    ensures { OnOk result (lines.new.items
        ≡ joined_by lines.old.items numbered.now.number (conclusion_lines fields.now sets.items numbered.now.rule.now.conclusion)) }
{
    match &numbered.rule.conclusion {
        Test::Number(linear) => {
            let test = TestWithin {
                sets: &sets,
                linear,
            };
            push_compare(alloc, fields, &test, numbered.number, lines)
        }
        Test::Codes {
            field,
            negated,
            codes,
        } => {
            narrow_where_false(fields, &mut sets, *field, *negated, *codes);
            push_never(alloc, fields, sets, numbered.number, lines)
        }
    }
}

// Appends the lines of a rule whose last condition compares a sum. Where the codes are in the sets and
// fail the conclusion, the sum must not compare so. Where the conclusion compares a sum too, none is
// appended; no survey has such a rule.
fn push_condition(
    alloc: Global,
    fields: &SurveyShape,
    mut sets: Vec<u64>,
    linear: &Linear,
    numbered: &NumberedRule,
    lines: &mut Vec<RuleLine>,
) -> Result<(), OutOfMemory>
    requires within { AreWithin sets.items (whole_sets fields.now) }
    requires fits { FitsCodes fields.now numbered.now.rule.now.conclusion }
    ensures { OnOk result (lines.new.items
        ≡ joined_by lines.old.items numbered.now.number
        (condition_lines fields.now sets.items linear.now numbered.now.rule.now.conclusion)) }
{
    match &numbered.rule.conclusion {
        Test::Number(_) => Ok(()),
        Test::Codes {
            field,
            negated,
            codes,
        } => {
            narrow_where_false(fields, &mut sets, *field, *negated, *codes);
            let test = TestWithin {
                sets: &sets,
                linear,
            };
            push_contrary(alloc, fields, &test, numbered.number, lines)
        }
    }
}

// Appends the lines that say that the test's sum compares with 0 as the test says, where the codes are in
// the sets. An equation becomes two lines: at least 0, and at most 0.
fn push_compare(
    alloc: Global,
    fields: &SurveyShape,
    test: &TestWithin,
    rule: u32,
    lines: &mut Vec<RuleLine>,
) -> Result<(), OutOfMemory>
    requires { AreWithin test.now.sets.now (whole_sets fields.now) }
    ensures { OnOk result (lines.new.items ≡ joined_by lines.old.items rule (lines_for fields.now test.now.sets.now test.now.linear.now)) }
{
    match test.linear.compare {
        Compare::Ge => push_side(alloc, fields, test, Side::AtLeast, rule, lines),
        Compare::Gt => push_side(alloc, fields, test, Side::Above, rule, lines),
        Compare::Le => push_side(alloc, fields, test, Side::AtMost, rule, lines),
        Compare::Lt => push_side(alloc, fields, test, Side::Below, rule, lines),
        Compare::Eq => {
            push_side(alloc, fields, test, Side::AtLeast, rule, lines)?;
            push_side(alloc, fields, test, Side::AtMost, rule, lines)
        }
    }
}

// Appends the line that says that the test's sum does not compare with 0 as the test says, where the codes
// are in the sets. No condition is an equation, so none is appended for one.
fn push_contrary(
    alloc: Global,
    fields: &SurveyShape,
    test: &TestWithin,
    rule: u32,
    lines: &mut Vec<RuleLine>,
) -> Result<(), OutOfMemory>
    requires { AreWithin test.now.sets.now (whole_sets fields.now) }
    ensures { OnOk result (lines.new.items
        ≡ joined_by lines.old.items rule (lines_against fields.now test.now.sets.now test.now.linear.now)) }
{
    match test.linear.compare {
        Compare::Ge => push_side(alloc, fields, test, Side::Below, rule, lines),
        Compare::Gt => push_side(alloc, fields, test, Side::AtMost, rule, lines),
        Compare::Le => push_side(alloc, fields, test, Side::Above, rule, lines),
        Compare::Lt => push_side(alloc, fields, test, Side::AtLeast, rule, lines),
        Compare::Eq => Ok(()),
    }
}

// Appends the line that says that the test's sum is on this side of 0 where the codes are in the sets.
// Where a set is empty none is appended. The side `Zero` is asked of whole sets alone, since an
// equality is for all codes.
fn push_side(
    alloc: Global,
    fields: &SurveyShape,
    test: &TestWithin,
    side: Side,
    rule: u32,
    lines: &mut Vec<RuleLine>,
) -> Result<(), OutOfMemory>
    requires within { AreWithin test.now.sets.now (whole_sets fields.now) }
    requires whole { MayAsk fields.now test.now.sets.now side }
    ensures { OnOk result (lines.new.items
        ≡ joined_by lines.old.items rule (side_line fields.now test.now.sets.now test.now.linear.now side ∷ [])) }
{
    if have_codes(test.sets) {
        let line = side_line(alloc, fields, test.sets, test.linear, side)?;
        lines.push(RuleLine { rule, line })?;
    }
    Ok(())
}

// Appends the line that says that the codes are never in all these sets. Where they are, it asks that
// -1 is at least 0. Where a set is empty none is appended.
fn push_never(
    alloc: Global,
    fields: &SurveyShape,
    sets: Vec<u64>,
    rule: u32,
    lines: &mut Vec<RuleLine>,
) -> Result<(), OutOfMemory>
    requires { AreWithin sets.items (whole_sets fields.now) }
    ensures { OnOk result (lines.new.items ≡ joined_by lines.old.items rule (never fields.now sets.items ∷ [])) }
{
    if have_codes(&sets) {
        let factors = vec![in alloc; 0; fields.numbers().len()]?;
        let line = Line::over(fields.shape(), sets, factors, -1, Relation::AtLeast);
        lines.push(RuleLine { rule, line })?;
    }
    Ok(())
}

// Whether no set is empty. Where one is, no codes are in all the sets, and a line with them would ask
// nothing.
fn have_codes(sets: &[u64]) -> bool
    ensures { result ≡ none_is_empty sets.now }
{
    sets.iter().all(|set| *set != 0)
}
