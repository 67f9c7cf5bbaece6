//! The line that says on which side of 0 the sum of a linear test is, or that it is 0. Below, `fields` is
//! the survey's shape, and `linear` the test.
ghost use Rattle.std.specs.Prelude.{◌≡◌, All, IfOk, map};
ghost use Rattle.fraction128.specs.Range.{InRange};
ghost use Rattle.edit_line.specs.Sets.{AreSets};
ghost use Rattle.edit_line.specs.Shapes.{whole_sets};
ghost use Rattle.edit_normal.specs.NormalForm.{term_factor};
ghost use Rattle.edit_normal.specs.inner.Sides.{MayAsk, is_negative, relation_of, side_line, signed};

use crate::survey_shape::SurveyShape;
use edit_line::{Line, Relation};
use edit_model::Linear;
use foundation::OutOfMemory;
use std::alloc::Global;

/// A side of 0, or 0 itself.
#[derive(Clone, Copy)]
pub(crate) enum Side {
    AtLeast,
    Above,
    AtMost,
    Below,
    Zero,
}

impl Side {
    /// Whether the line has the negative of the test's sum. So it has for `AtMost` and `Below`, since a
    /// line only says that something is at least 0, above 0, or 0.
    fn is_negative(self) -> bool
        ensures { result ≡ is_negative self }
    {
        matches!(self, Side::AtMost | Side::Below)
    }

    /// What the line asks: of the test's sum, or of its negative where `is_negative` says so.
    fn relation(self) -> Relation
        ensures { result ≡ relation_of self }
    {
        match self {
            Side::AtLeast | Side::AtMost => Relation::AtLeast,
            Side::Above | Side::Below => Relation::Above,
            Side::Zero => Relation::Equal,
        }
    }
}

/// The line that says that the test's sum is on this side of 0 where the codes are in the sets. Its numbers
/// are divided by their greatest common divisor. For the side `Zero` the sets are whole.
pub(crate) fn side_line(
    alloc: Global,
    fields: &SurveyShape,
    sets: &[u64],
    linear: &Linear,
    side: Side,
) -> Result<Line, OutOfMemory>
    requires fit { AreSets sets.now (whole_sets fields.now) }
    requires whole { MayAsk fields.now sets.now side }
    ensures { IfOk result (λ line. line ≡ side_line fields.now sets.now linear.now side) }
{
    let negative = side.is_negative();
    let sets = Vec::from_slice(alloc, sets)?;
    let factors = factors_of(alloc, fields.numbers(), linear, negative)?;
    let constant = with_sign(linear.constant, negative);
    Ok(Line::divided(fields.shape(), sets, factors, constant, side.relation()))
}

// The factor of each of the fields in the test, in order, or its negative where `negative` is true. A
// field without a term has the factor 0.
fn factors_of(
    alloc: Global,
    fields: &[u32],
    linear: &Linear,
    negative: bool,
) -> Result<Vec<i128>, OutOfMemory>
    ensures factors { IfOk result (λ v. v.items ≡ map (λ f. signed negative (term_factor linear.now.terms f)) fields.now) }
    ensures in_range { IfOk result (λ v. All InRange v.items) }
{
    let mut factors = Vec::new(alloc);
    for field in fields {
        factors.push(factor_at(linear, *field, negative))?;
    }
    Ok(factors)
}

// The factor of the field in the test, or its negative where `negative` is true; 0 where the field has no
// term.
fn factor_at(linear: &Linear, field: u32, negative: bool) -> i128
    ensures factor { result ≡ signed negative (term_factor linear.now.terms field) }
    ensures in_range { InRange result }
{
    for term in linear.terms.as_slice() {
        if term.field == field {
            return with_sign(term.factor, negative);
        }
    }
    0
}

// The number, or its negative where `negative` is true. It is given in 128 bits, where the negative of
// each number of 64 bits fits.
fn with_sign(number: i64, negative: bool) -> i128
    ensures value { result ≡ signed negative number }
    ensures in_range { InRange result }
{
    let wide = i128::from(number);
    if negative { -wide } else { wide }
}
