//! What a statement without a fault means: the field that it declares, or the edit that it sets.
ghost use Rattle.std.specs.Prelude.{◌≡◌, ◌≤◌, All, IfOk, false, length, map};
ghost use Rattle.std.specs.List.{list_any};
ghost use Rattle.edit_model.specs.Surveys.{IsField};
ghost use Rattle.edit_language.specs.Faults.{is_large_test, is_outside};
ghost use Rattle.edit_language.specs.inner.FirstFault.{tests_of};
ghost use Rattle.edit_language.specs.Meaning.{field_of, number_or_one, rule_of, test_of};
ghost use Rattle.edit_language.specs.inner.Weights.{weight_of};

use crate::codes::{code_set, listed_codes};
use crate::names::{codes_of, number_named};
use crate::numbers::number_or_one;
use crate::sums::{moved_terms, small_constant};
use edit_model::{Field, Kind, Linear, Rule, Test};
use foundation::{OutOfMemory, Sequence};
use rule_grammar::{Declaration, Numeral, RuleText, TestText};
use std::alloc::Global;

// The test that a test's text means over these fields. The caller has found no number of it out of its
// limits. A name that no field has counts as the first field, but the caller has refused such a test.
fn test_of(alloc: Global, fields: &[Field], test: &TestText) -> Result<Test, OutOfMemory>
    requires few { length fields.now ≤ 64 }
    requires fields { All IsField fields.now }
    requires small { is_large_test fields.now test.now ≡ false }
    ensures { IfOk result (λ made. made ≡ test_of fields.now test.now) }
{
    match test {
        TestText::Codes {
            field,
            negated,
            list,
        } => Ok(Test::Codes {
            field: number_named(fields, field).unwrap_or(0) as u32,
            negated: *negated,
            codes: code_set(codes_of(fields, field), list),
        }),
        TestText::Sums {
            left,
            compare,
            right,
        } => Ok(Test::Number(Linear {
            terms: Sequence::from_vec(moved_terms(alloc, fields, left, right)?),
            constant: small_constant(left, right),
            compare: *compare,
        })),
    }
}

// The tests that these texts mean over the fields, in order, as the conditions of a rule. The caller has
// found no number of them out of its limits.
fn tests_of(alloc: Global, fields: &[Field], tests: &[TestText]) -> Result<Vec<Test>, OutOfMemory>
    requires few { length fields.now ≤ 64 }
    requires fields { All IsField fields.now }
    requires small { list_any (λ t. is_large_test fields.now t) tests.now ≡ false }
    ensures { IfOk result (λ made. made.items ≡ map (λ t. test_of fields.now t) tests.now) }
{
    let mut made = Vec::new(alloc);
    for test in tests {
        made.push(test_of(alloc, fields, test)?)?;
    }
    Ok(made)
}

/// The edit that a rule's text means over these fields. The caller has found no number of it out of its
/// limits.
pub(crate) fn rule_of(alloc: Global, fields: &[Field], rule: &RuleText) -> Result<Rule, OutOfMemory>
    requires few { length fields.now ≤ 64 }
    requires fields { All IsField fields.now }
    requires small { list_any (λ t. is_large_test fields.now t) (tests_of rule.now) ≡ false }
    ensures { IfOk result (λ made. made ≡ rule_of fields.now rule.now) }
{
    let conditions = tests_of(alloc, fields, rule.conditions.as_slice())?;
    Ok(Rule {
        conditions: Sequence::from_vec(conditions),
        conclusion: test_of(alloc, fields, &rule.conclusion)?,
    })
}

// The weight that is written, or 1 where none is. The caller has found it to be at most 1000, so that it
// fits 32 bits.
fn weight_in(weight: Option<Numeral>) -> u32
    requires { is_outside 1000 weight ≡ false }
    ensures { result ≡ number_or_one weight }
{
    number_or_one(weight) as u32
}

/// The field that a declaration declares. A weight or a scale that is not written is 1. The caller has found
/// the weight to be at most 1000.
pub(crate) fn field_of(declaration: Declaration) -> Result<Field, OutOfMemory>
    requires { is_outside 1000 (weight_of declaration) ≡ false }
    ensures { IfOk result (λ field. field ≡ field_of declaration) }
{
    match declaration {
        Declaration::Number {
            name,
            weight,
            scale,
        } => Ok(Field {
            name,
            weight: weight_in(weight),
            kind: Kind::Number {
                scale: number_or_one(scale),
            },
        }),
        Declaration::Code { name, weight, list } => Ok(Field {
            name,
            weight: weight_in(weight),
            kind: Kind::Code {
                codes: Sequence::from_vec(listed_codes(list)?),
            },
        }),
    }
}
