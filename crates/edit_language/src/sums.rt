//! Linear tests: everything is moved to the left side, and the terms of each field are added up. So
//! `2 A - B >= A + 3` becomes `A - B - 3 >= 0`.
//!
//! In contracts, `is_large_sum .. ≡ false` says that each number that stands in the sum is within its
//! limit, so that they can be added up.
ghost use Rattle.std.specs.Prelude.{◌≡◌, ◌++◌, ◌∷◌, [], ◌+◌, ◌*◌, ◌^◌, ◌≤◌, ◌||◌, false, length, nat_lt, option_map, pos, unsigned_abs};
ghost use Rattle.std.specs.Prelude.{if◌then◌else◌, IfOk, OnOk};
ghost use Rattle.std.specs.List.{list_any};
ghost use Rattle.std.specs.Ordering.{int_eq};
ghost use Rattle.edit_language.specs.Faults.{are_large_sums, has_large_factor, is_large_constant, is_large_factor, is_large_sum};
ghost use Rattle.edit_language.specs.Faults.{is_large_term};
ghost use Rattle.edit_language.specs.Meaning.{constant_in, factor_in, moved_constant, moved_factor, moved_terms, signed, terms_of};
ghost use Rattle.edit_language.specs.inner.Sums.{part_in, parts_added, parts_moved, with_term};

use crate::numbers::{is_above, number_in};
use edit_model::{Field, Name, Term};
use foundation::OutOfMemory;
use rule_grammar::{Sign, SignedTerm, SumText, TermText};
use std::alloc::Global;

/// The largest factor, in absolute value.
const MOST_FACTOR: u64 = 1_000_000_000;

/// The largest constant, in absolute value.
const MOST_CONSTANT: u64 = 1_000_000_000_000_000;

// Whether the number that stands in the term is no whole number, or above its limit: `MOST_FACTOR` for a
// factor, `MOST_CONSTANT` for a constant.
fn is_large_term(term: &TermText) -> bool
    ensures { result ≡ is_large_term term.now }
{
    match term {
        TermText::Product { factor, .. } => is_above(MOST_FACTOR, *factor),
        TermText::Field(_) => false,
        TermText::Constant(number) => is_above(MOST_CONSTANT, *number),
    }
}

// Whether the number of any of these terms is no whole number, or above its limit (`is_large_term`).
fn any_large_term(terms: &[SignedTerm]) -> bool
    ensures { result ≡ list_any (λ t. is_large_term t.term) terms.now }
{
    terms.iter().any(|signed| is_large_term(&signed.term))
}

// Whether the number of any term of the sum is no whole number, or above its limit (`is_large_term`).
fn is_large_sum(sum: &SumText) -> bool
    ensures { result ≡ is_large_sum sum.now }
{
    is_large_term(&sum.first) || any_large_term(sum.rest.as_slice())
}

// What a term, without its sign, adds to the factor of the field with this name: 0 where it is a constant
// or another field's.
fn factor_in(name: &Name, term: &TermText) -> u64
    ensures { result ≡ factor_in name.now term.now }
{
    match term {
        TermText::Product { factor, field, .. } => {
            if field.as_bytes() == name.as_bytes() {
                number_in(*factor)
            } else {
                0
            }
        }
        TermText::Field(field) => {
            if field.as_bytes() == name.as_bytes() {
                1
            } else {
                0
            }
        }
        TermText::Constant(_) => 0,
    }
}

// What a term, without its sign, adds to the constant: 0 where it is a field's.
fn constant_in(term: &TermText) -> u64
    ensures { result ≡ constant_in term.now }
{
    match term {
        TermText::Product { .. } | TermText::Field(_) => 0,
        TermText::Constant(number) => number_in(*number),
    }
}

// What a term, without its sign, adds to the factor of the field with this `name`, or to the constant
// where no name is given. The caller has found it to be within its limit, so it is at most 10^15.
fn part_in(name: Option<&Name>, term: &TermText) -> u64
    requires { is_large_term term.now ≡ false }
    ensures value { result ≡ part_in (option_map (λ n. n.now) name.entry) term.now }
    ensures size { result ≤ 10 ^ 15 }
{
    match name {
        None => constant_in(term),
        Some(name) => factor_in(name, term),
    }
}

// The number as the sign before it says: itself, or its negative.
fn signed_number(sign: Sign, number: u64) -> i128
    ensures value { result ≡ signed sign number }
    ensures size { unsigned_abs result ≡ number }
{
    match sign {
        Sign::Plus => i128::from(number),
        Sign::Minus => -i128::from(number),
    }
}

// What these terms, with their signs, add to the factor of the field with this name, or to the constant
// where no name is given. Each adds at most 10^15.
fn terms_total(name: Option<&Name>, terms: &[SignedTerm]) -> i128
    requires { list_any (λ t. is_large_term t.term) terms.now ≡ false }
    ensures value { result ≡ parts_added (option_map (λ n. n.now) name.entry) terms.now }
    ensures size { unsigned_abs result ≤ 10 ^ 15 * length terms.now }
{
    let mut total = 0;
    for term in terms {
        total += signed_number(term.sign, part_in(name, &term.term));
    }
    total
}

// What all terms of a sum add to the factor of the field with this name, or to the constant where no name
// is given. A sum without a sign in front begins with a plus. It has fewer than 2^64 terms of at most
// 10^15, so the total stays in range.
fn sum_total(name: Option<&Name>, sum: &SumText) -> i128
    requires { is_large_sum sum.now ≡ false }
    ensures value { result ≡ parts_added (option_map (λ n. n.now) name.entry) (terms_of sum.now) }
    ensures size { unsigned_abs result ≤ 10 ^ 15 + 10 ^ 15 * 2 ^ 64 }
{
    let sign = sum.sign.unwrap_or(Sign::Plus);
    let first = signed_number(sign, part_in(name, &sum.first));
    let rest = terms_total(name, sum.rest.as_slice());
    first + rest
}

// What the left side adds to the factor of the field with this `name`, less what the right side adds to
// it. Where no name is given, the same of the constant.
fn moved_total(name: Option<&Name>, left: &SumText, right: &SumText) -> i128
    requires left { is_large_sum left.now ≡ false }
    requires right { is_large_sum right.now ≡ false }
    ensures { result ≡ parts_moved (option_map (λ n. n.now) name.entry) left.now right.now }
{
    let taken = sum_total(name, right);
    sum_total(name, left) - taken
}

// The factor of the field with this `name` on the left side, less that on the right side.
fn moved_factor(left: &SumText, right: &SumText, name: &Name) -> i128
    requires left { is_large_sum left.now ≡ false }
    requires right { is_large_sum right.now ≡ false }
    ensures { result ≡ moved_factor left.now right.now name.now }
{
    moved_total(Some(name), left, right)
}

// The constant of the left side, less that of the right side.
fn moved_constant(left: &SumText, right: &SumText) -> i128
    requires left { is_large_sum left.now ≡ false }
    requires right { is_large_sum right.now ≡ false }
    ensures { result ≡ moved_constant left.now right.now }
{
    moved_total(None, left, right)
}

// Whether the factor of the field with this `name` is above `MOST_FACTOR`, in absolute value, once both sides
// are added up.
fn is_large_factor(left: &SumText, right: &SumText, name: &Name) -> bool
    requires left { is_large_sum left.now ≡ false }
    requires right { is_large_sum right.now ≡ false }
    ensures { result ≡ is_large_factor left.now right.now name.now }
{
    u128::from(MOST_FACTOR) < moved_factor(left, right, name).unsigned_abs()
}

// Whether the factor of any of these fields is above `MOST_FACTOR`, in absolute value, once both sides are
// added up.
fn any_large_factor(fields: &[Field], left: &SumText, right: &SumText) -> bool
    requires left { is_large_sum left.now ≡ false }
    requires right { is_large_sum right.now ≡ false }
    ensures { result ≡ has_large_factor fields.now left.now right.now }
{
    for field in fields {
        if is_large_factor(left, right, &field.name) {
            return true;
        }
    }
    false
}

// Whether the constant is above `MOST_CONSTANT`, in absolute value, once both sides are added up.
fn is_large_constant(left: &SumText, right: &SumText) -> bool
    requires left { is_large_sum left.now ≡ false }
    requires right { is_large_sum right.now ≡ false }
    ensures { result ≡ is_large_constant left.now right.now }
{
    u128::from(MOST_CONSTANT) < moved_constant(left, right).unsigned_abs()
}

/// Whether a number of the test is out of its limits. It may stand in the test, or be a factor or the
/// constant once both sides are added up. The numbers that stand in it are looked at first. Only where
/// none of these is out is the rest small enough to be added up.
pub(crate) fn are_large_sums(fields: &[Field], left: &SumText, right: &SumText) -> bool
    ensures { result ≡ are_large_sums fields.now left.now right.now }
{
    is_large_sum(left)
        || is_large_sum(right)
        || any_large_factor(fields, left, right)
        || is_large_constant(left, right)
}

// Adds the term of the field of number `field`, from 0, behind the others. It adds none where the factor is
// 0: the field then drops out of the test.
fn push_term(terms: &mut Vec<Term>, field: u32, factor: i64) -> Result<(), OutOfMemory>
    ensures { OnOk result (terms.new.items ≡ with_term terms.old.items field factor) }
{
    if factor != 0 {
        terms.push(Term { field, factor })?;
    }
    Ok(())
}

// The factor of the field with this name, once both sides are added up. The caller has found it to be within
// its limit, so that it fits 64 bits.
fn small_factor(left: &SumText, right: &SumText, name: &Name) -> i64
    requires left { is_large_sum left.now ≡ false }
    requires right { is_large_sum right.now ≡ false }
    requires small { is_large_factor left.now right.now name.now ≡ false }
    ensures { result ≡ moved_factor left.now right.now name.now }
{
    moved_factor(left, right, name) as i64
}

/// The constant, once both sides are added up. The caller has found it to be within its limit, so that it
/// fits 64 bits.
pub(crate) fn small_constant(left: &SumText, right: &SumText) -> i64
    requires left { is_large_sum left.now ≡ false }
    requires right { is_large_sum right.now ≡ false }
    requires small { is_large_constant left.now right.now ≡ false }
    ensures { result ≡ moved_constant left.now right.now }
{
    moved_constant(left, right) as i64
}

/// The terms of a linear test, in declared order, once the right side is taken off the left one. Fields
/// whose factor is 0 have none.
pub(crate) fn moved_terms(
    alloc: Global,
    fields: &[Field],
    left: &SumText,
    right: &SumText,
) -> Result<Vec<Term>, OutOfMemory>
    requires few { length fields.now ≤ 64 }
    requires left { is_large_sum left.now ≡ false }
    requires right { is_large_sum right.now ≡ false }
    requires small { has_large_factor fields.now left.now right.now ≡ false }
    ensures { IfOk result (λ terms. terms.items ≡ moved_terms left.now right.now 0 fields.now) }
{
    let mut terms = Vec::new(alloc);
    for (i, field) in fields.iter().enumerate() {
        push_term(&mut terms, i as u32, small_factor(left, right, &field.name))?;
    }
    Ok(terms)
}
