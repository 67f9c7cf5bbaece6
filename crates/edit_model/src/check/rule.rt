//! Whether a rule fits the fields of a survey, and has a form that the editor takes.
ghost use Rattle.std.specs.Prelude.{◌<◌, ◌^◌, ◌↔◌, All, IsTrue};
ghost use Rattle.edit_model.specs.Surveys.{IsSetOf, HasForm, IsCodeTest, IsOrderTest, IsRule, IsTest};

use crate::check::linear::is_linear;
use crate::field::{Field, Kind};
use crate::rule::{Compare, Rule, Test};

// Whether the set, as bits, has no code but the first `count` ones, and is not empty. No shift by 64 is
// made, which would be out of range for a number of 64 bits.
fn fits_codes(set: u64, count: usize) -> bool
    ensures { IsTrue result ↔ ((0 < set) × (set < 2 ^ count)) }
{
    set != 0 && (count >= 64 || set >> count == 0)
}

// Whether the set of codes, as bits, is inside the field's codes and not empty; never where the field is
// numerical.
fn has_codes(kind: &Kind, set: u64) -> bool
    ensures { IsTrue result ↔ IsSetOf kind.now set }
{
    match kind {
        Kind::Number { .. } => false,
        Kind::Code { codes } => fits_codes(set, codes.len()),
    }
}

// Whether the test fits the fields: its fields are there, of the kind that it needs, and its numbers and
// codes are within their limits.
fn is_test(fields: &[Field], test: &Test) -> bool
    ensures { IsTrue result ↔ IsTest fields.now test.now }
{
    match test {
        Test::Number(linear) => is_linear(fields, linear),
        Test::Codes { field, codes, .. } => match fields.get(*field as usize) {
            Some(of) => has_codes(&of.kind, *codes),
            None => false,
        },
    }
}

// Whether each of the tests fits the fields.
fn are_tests(fields: &[Field], tests: &[Test]) -> bool
    ensures { IsTrue result ↔ All (IsTest fields.now) tests.now }
{
    tests.iter().all(|test| is_test(fields, test))
}

// Whether the test is on codes.
fn is_code_test(test: &Test) -> bool
    ensures { IsTrue result ↔ IsCodeTest test.now }
{
    matches!(test, Test::Codes { .. })
}

// Whether all these tests are on codes.
fn are_code_tests(tests: &[Test]) -> bool
    ensures { IsTrue result ↔ All IsCodeTest tests.now }
{
    tests.iter().all(is_code_test)
}

// Whether the test compares a sum with 0, but not by `=`.
fn is_order_test(test: &Test) -> bool
    ensures { IsTrue result ↔ IsOrderTest test.now }
{
    match test {
        Test::Number(linear) => linear.compare != Compare::Eq,
        Test::Codes { .. } => false,
    }
}

// Whether the rule has one of the two forms that the editor takes: all its conditions are tests on codes,
// or its only condition compares a sum, not by `=`, and its conclusion is a test on codes.
fn has_form(rule: &Rule) -> bool
    ensures { IsTrue result ↔ HasForm rule.now }
{
    let conditions = rule.conditions.as_slice();
    if are_code_tests(conditions) {
        return true;
    }
    match conditions {
        [only] => is_order_test(only) && is_code_test(&rule.conclusion),
        _ => false,
    }
}

/// Whether the rule's tests fit the fields, and it has a form that the editor takes.
pub(crate) fn is_rule(fields: &[Field], rule: &Rule) -> bool
    ensures { IsTrue result ↔ IsRule fields.now rule.now }
{
    are_tests(fields, rule.conditions.as_slice())
        && is_test(fields, &rule.conclusion)
        && has_form(rule)
}
