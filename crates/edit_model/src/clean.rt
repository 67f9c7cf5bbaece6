//! Whether a record is clean, so that it is released as it is and may give its values to others. In
//! contracts, `CanTry` says that the record has a value of the right kind at each field that a rule tests.
ghost use Rattle.std.specs.Prelude.{◌≡◌, All};
ghost use Rattle.std.specs.List.{list_all, list_any};
ghost use Rattle.edit_model.specs.CleanRecords.{holds_at, is_clean};
ghost use Rattle.edit_model.specs.Rows.{IsRow, is_bad};
ghost use Rattle.edit_model.specs.Trials.{CanTry};

use crate::row::Row;
use crate::rule::Rule;
use crate::survey::Survey;
use crate::trial::holds;
use crate::value::Value;

/// Whether the record is clean: each field has a value, and every rule holds, with the numbers of its sums
/// in range. No memory.
pub fn is_clean(survey: &Survey, row: &Row) -> bool
    requires { IsRow survey.now.fields row.now }
    ensures { result ≡ is_clean survey.now row.now }
{
    !has_bad(row.values()) && hold_all(survey.rules(), row)
}

// Whether some value is Bad, which is missing or faulty.
fn has_bad(values: &[Value]) -> bool
    ensures { result ≡ list_any is_bad values.now }
{
    values.iter().any(|value| value.is_bad())
}

// Whether every rule holds at the record, which has the values that their tests need, and no sum that is
// tried leaves the range.
fn hold_all(rules: &[Rule], row: &Row) -> bool
    requires { All (CanTry row.now) rules.now }
    ensures { result ≡ list_all (holds_at row.now) rules.now }
{
    rules.iter().all(|rule| holds_at(rule, row))
}

// Whether the rule holds at the record, which has the values that its tests need, and no sum that is tried
// leaves the range. So a record at which a sum does is not clean.
fn holds_at(rule: &Rule, row: &Row) -> bool
    requires { CanTry row.now rule.now }
    ensures { result ≡ holds_at row.now rule.now }
{
    match holds(rule, row) {
        Ok(holds) => holds,
        Err(_) => false,
    }
}
