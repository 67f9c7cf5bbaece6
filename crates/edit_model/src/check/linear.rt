//! Whether a linear test fits the fields of a survey.
ghost use Rattle.std.specs.Prelude.{◌↔◌, All, IsTrue, map, unsigned_abs};
ghost use Rattle.std.specs.List.Sorted.{IsStrictlyIncreasing};
ghost use Rattle.edit_model.specs.Surveys.{IsTerm, IsTest};
ghost use Rattle.edit_model.specs.declared.rule.Test.TheVariants.{Number};

use crate::field::{Field, Kind};
use crate::rule::{Linear, Term};

/// The largest factor of a term, in absolute value.
const MOST_FACTOR: u64 = 1_000_000_000;

/// The largest constant of a test, in absolute value.
const MOST_CONSTANT: u64 = 1_000_000_000_000_000;

// Whether the term's field is there and numerical, and its factor is not 0 and within its limit.
fn is_term(fields: &[Field], term: &Term) -> bool
    ensures { IsTrue result ↔ IsTerm fields.now term.now }
{
    let numerical = match fields.get(term.field as usize) {
        Some(field) => matches!(field.kind, Kind::Number { .. }),
        None => false,
    };
    numerical && term.factor != 0 && term.factor.unsigned_abs() <= MOST_FACTOR
}

// Whether each term is of a later field than the term before it.
fn are_rising(terms: &[Term]) -> bool
    ensures { IsTrue result ↔ IsStrictlyIncreasing (map (λ t. t.field) terms.now) }
{
    for i in 1..terms.len() {
        if terms[i].field <= terms[i - 1].field {
            return false;
        }
    }
    true
}

// Whether the terms are in rising field order and within the limits.
fn has_terms(fields: &[Field], linear: &Linear) -> bool
    ensures { IsTrue result ↔ (IsStrictlyIncreasing (map (λ t. t.field) linear.now.terms)
        × All (IsTerm fields.now) linear.now.terms) }
{
    let terms = linear.terms.as_slice();
    are_rising(terms) && terms.iter().all(|term| is_term(fields, term))
}

/// Whether a linear test fits the fields: its terms are in rising field order and within the limits, and so
/// is its constant.
pub(crate) fn is_linear(fields: &[Field], linear: &Linear) -> bool
    ensures { IsTrue result ↔ IsTest fields.now (Number linear.now) }
{
    has_terms(fields, linear) && linear.constant.unsigned_abs() <= MOST_CONSTANT
}
