//! Whether a rule holds at a record, in exact fractions of 128 bits. In contracts, `rule_at`, `test_at`
//! and `trial_sum` have what is computed at a record, None for an overflow. `answered` is the fraction that
//! a call answers, None for an overflow. `AgreesOnRule` says that a point has the record's values where the
//! rule's tests read them.
ghost use Rattle.std.specs.Prelude.{◌≡◌, ◌<◌, All, IfOk, OnErr, length, pos};
ghost use Rattle.fraction128.specs.Formulas.{answered, ratio_of};
ghost use Rattle.edit_model.specs.Points.{Point, compares, has_code, rule_holds};
ghost use Rattle.edit_model.specs.Rows.{value_of};
ghost use Rattle.edit_model.specs.Trials.{AgreesOnRule, CanTry, HasValues, IsNumberValue, rule_at, trial_sum, sum_with, test_at};

use crate::row::Row;
use crate::rule::{Compare, Linear, Rule, Term, Test};
use crate::value::Value;
use fraction128::{Fraction, Overflow};

/// Whether the rule holds at the record, which has the values that the rule's tests need (`CanTry`). The
/// conditions are tried in order up to the first false one, and where none is false the conclusion is.
/// Overflow exactly where a product or a sum on the way overflows, in a test that is tried. No memory.
pub fn holds(rule: &Rule, row: &Row) -> Result<bool, Overflow>
    requires { CanTry row.now rule.now }
    ensures truth { IfOk result (λ b. (p : Point) → AgreesOnRule row.now p rule.now → b ≡ rule_holds rule.now p) }
    ensures in_range { IfOk result (λ b. rule_at rule.now row.now ≡ Some b) }
    ensures overflow { OnErr result (rule_at rule.now row.now ≡ None) }
{
    for condition in rule.conditions.as_slice() {
        if !is_true(condition, row)? {
            return Ok(true);
        }
    }
    is_true(&rule.conclusion, row)
}

// Whether the test is true at the record, or Overflow exactly where a product or a sum on the way
// overflows. A test on codes is that the code is in the set, or is not where the test is negated.
fn is_true(test: &Test, row: &Row) -> Result<bool, Overflow>
    requires { HasValues row.now test.now }
    ensures in_range { IfOk result (λ b. test_at test.now row.now ≡ Some b) }
    ensures overflow { OnErr result (test_at test.now row.now ≡ None) }
{
    match test {
        Test::Number(linear) => {
            let sum = sum_of(linear, row)?;
            Ok(compares_with_zero(linear.compare, sum.numerator()))
        }
        Test::Codes {
            field,
            negated,
            codes,
        } => Ok(is_among(row.value(*field).code_number(), *codes) != *negated),
    }
}

// The sum of the test at the record: its constant, and then factor * value term by term. Overflow exactly
// where one of the products or sums overflows.
fn sum_of(linear: &Linear, row: &Row) -> Result<Fraction, Overflow>
    requires { All (λ t. (t.field < length row.now) × IsNumberValue (value_of row.now t.field)) linear.now.terms }
    ensures { answered result ≡ trial_sum linear.now row.now }
{
    let mut sum = constant_of(linear);
    for term in linear.terms.as_slice() {
        sum = with_term(sum, term, row)?;
    }
    Ok(sum)
}

// The test's constant as a fraction, to which the terms are added.
fn constant_of(linear: &Linear) -> Fraction
    ensures { ratio_of result ≡ record { numerator = linear.now.constant; denominator = pos 1 } }
{
    Fraction::whole(i128::from(linear.constant))
}

// The sum so far, and the term's factor times the record's value at its field. A value that is no number
// adds nothing. Overflow exactly where the product or the new sum overflows.
#[inline(always)]
fn with_term(sum: Fraction, term: &Term, row: &Row) -> Result<Fraction, Overflow>
    requires { term.now.field < length row.now }
    ensures { answered result ≡ sum_with (ratio_of sum) term.now.factor (value_of row.now term.now.field) }
{
    match row.value(term.field) {
        Value::Number(number) => sum.add(number.scale(i128::from(term.factor))?),
        Value::Code(_) | Value::Bad => Ok(sum),
    }
}

// Whether a sum compares with 0 as the test asks. `number` is the sum's numerator, which has its sign.
fn compares_with_zero(compare: Compare, number: i128) -> bool
    ensures { result ≡ compares compare number }
{
    match compare {
        Compare::Ge => number >= 0,
        Compare::Gt => number > 0,
        Compare::Le => number <= 0,
        Compare::Lt => number < 0,
        Compare::Eq => number == 0,
    }
}

// Whether the set of codes, as bits, has the code; no set has one past 63.
fn is_among(code: u8, codes: u64) -> bool
    ensures { result ≡ has_code codes code }
{
    code < 64 && (codes >> code) & 1 == 1
}
