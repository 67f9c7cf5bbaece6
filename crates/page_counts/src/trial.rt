//! Whether a rule can be tried at a record, and holds there. It can be tried where the record has a value in
//! each field that the rule reads.
ghost use Rattle.std.specs.Prelude.{◌≡◌, ◌↔◌, IsTrue};
ghost use Rattle.std.specs.List.{list_all};
ghost use Rattle.edit_model.specs.Rows.{value_of};
ghost use Rattle.edit_model.specs.Trials.{CanTry};
ghost use Rattle.page_counts.specs.Rules.{answer_at, can_try, has_values, is_number, is_some_code};

use edit_model::{Row, Rule, Term, Test, Value, holds};

/// Whether the record has a value in each field that the rule reads. No memory.
pub fn can_try(rule: &Rule, row: &Row) -> bool
    ensures same { result ≡ can_try row.now rule.now }
    ensures shown { IsTrue result ↔ CanTry row.now rule.now }
{
    have_values(rule.conditions.as_slice(), row) && has_values(&rule.conclusion, row)
}

/// Whether the rule holds at the record. None where the record has no value in a field that the rule
/// reads, or a sum that is tried leaves the range. No memory.
pub fn answer_at(rule: &Rule, row: &Row) -> Option<bool>
    ensures { result ≡ answer_at row.now rule.now }
{
    if !can_try(rule, row) {
        return None;
    }
    match holds(rule, row) {
        Ok(holds) => Some(holds),
        Err(_) => None,
    }
}

// Whether the record has the values that each of the tests reads.
fn have_values(tests: &[Test], row: &Row) -> bool
    ensures { result ≡ list_all (has_values row.now) tests.now }
{
    tests.iter().all(|test| has_values(test, row))
}

// Whether the record has the values that the test reads: a number in the field of each term, or a code.
fn has_values(test: &Test, row: &Row) -> bool
    ensures { result ≡ has_values row.now test.now }
{
    match test {
        Test::Number(linear) => have_numbers(linear.terms.as_slice(), row),
        Test::Codes { field, .. } => has_code(row, *field),
    }
}

// Whether the record has a number in the field of each term.
fn have_numbers(terms: &[Term], row: &Row) -> bool
    ensures { result ≡ list_all (λ t. is_number (value_of row.now t.field)) terms.now }
{
    terms.iter().all(|term| has_number(row, term.field))
}

// Whether the record has a number in the field.
fn has_number(row: &Row, field: u32) -> bool
    ensures { result ≡ is_number (value_of row.now field) }
{
    matches!(row.values().get(field as usize), Some(Value::Number(_)))
}

// Whether the record has a code in the field.
fn has_code(row: &Row, field: u32) -> bool
    ensures { result ≡ is_some_code (value_of row.now field) }
{
    matches!(row.values().get(field as usize), Some(Value::Code(_)))
}
