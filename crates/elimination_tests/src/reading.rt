//! The trade survey, and what is made of it for the tests: its edits, sets of its fields, and lines to
//! compare with. In contracts, `AreNumerical` says that each field of a set is numerical.
ghost use Rattle.std.specs.Prelude.{◌≡◌, IfOk, true};
ghost use Rattle.std.specs.Arc.{arc_value};
ghost use Rattle.edit_line.specs.Shapes.{has_field, shape_of};
ghost use Rattle.linear_elim.specs.Systems.{AreNumerical};

use edit_language::read_rules;
use edit_line::{Edits, Line, Relation};
use edit_model::{FieldSet, Survey};
use edit_normal::rule_edits;
use std::alloc::Global;
use std::sync::Arc;
use std::test::Fail;

/// The fields and rules of the trade survey.
pub(crate) const TRADE: &[u8] = b"number Turnover
number Costs
number Profit
Turnover >= 0
Costs >= 0
Turnover - Costs - Profit = 0
10 Profit <= 6 Turnover
";

/// A line that a test expects: its sets, its factors, its constant, and its relation.
pub(crate) type LinePlan = (&'static [u64], &'static [i128], i128, Relation);

/// The survey that the rule file `text` is read as. A text without a reading, or of 2^32 bytes or more, ends
/// the test with a failure.
pub(crate) fn survey_of(alloc: Global, text: &[u8]) -> Result<Survey, Fail> {
    if text.len() >= 1 << 32 {
        return Err("a short text")?;
    }
    Ok(read_rules(alloc, text).ok().ok_or("a survey")?)
}

/// Whether the line is the one that is expected: its sets, factors, constant and relation are the plan's.
pub(crate) fn is_line(line: &Line, plan: &LinePlan) -> bool {
    let (sets, factors, constant, relation) = plan;
    line.sets() == *sets
        && line.factors() == *factors
        && line.constant() == *constant
        && line.relation() == *relation
}

/// The edits of the survey's rules, in an `Arc`, so that a pool and its readers may own them.
pub(crate) fn edits_of(alloc: Global, survey: &Survey) -> Result<Arc<Edits>, Fail>
    ensures { IfOk result (λ edits. (arc_value edits).shape ≡ shape_of survey.now.fields) }
{
    let edits = rule_edits(alloc, survey).ok().ok_or("memory")?;
    Ok(Arc::new(alloc, edits)?)
}

/// The set of these numerical fields, by their numbers from 0. A field that is not numerical ends the test with
/// a failure.
pub(crate) fn number_set(survey: &Survey, fields: &[u32]) -> Result<FieldSet, Fail>
    ensures { IfOk result (λ set. AreNumerical (shape_of survey.now.fields) set) }
{
    let mut set = FieldSet::empty();
    for field in fields {
        set = with_number(survey, set, *field)?;
    }
    Ok(set)
}

/// The set with this field, by its number, added. A field that is not numerical, or has no number below 64,
/// ends the test with a failure.
fn with_number(survey: &Survey, set: FieldSet, field: u32) -> Result<FieldSet, Fail>
    requires { AreNumerical (shape_of survey.now.fields) set }
    ensures { IfOk result (λ more. AreNumerical (shape_of survey.now.fields) more) }
{
    if field >= 64 || !has_field(survey.numbers(), field) {
        return Err("a numerical field")?;
    }
    Ok(set.with(field))
}

// Whether the number `field` is among `fields`.
fn has_field(fields: &[u32], field: u32) -> bool
    ensures { result ≡ true → has_field fields.now field ≡ true }
{
    for i in 0..fields.len() {
        if fields[i] == field {
            return true;
        }
    }
    false
}
