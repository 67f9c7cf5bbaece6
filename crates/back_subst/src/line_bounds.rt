//! The bounds that the lines of a system give to a numerical field of a record. In contracts, `bounds_told`
//! is what a call answers: both bounds, or the place of a line.
ghost use Rattle.std.specs.Prelude.{◌≡◌, ◌≢◌, ◌<◌, pos, All};
ghost use Rattle.std.specs.Result.{result_ok};
ghost use lib.IntN.{neg_ℤ};
ghost use Rattle.foundation.specs.Options.{◌>>?◌};
ghost use Rattle.fraction128.specs.Formulas.{answered, divided};
ghost use Rattle.fraction128.specs.Range.{InRange};
ghost use Rattle.edit_model.specs.Rows.{IsRow, value_of};
ghost use Rattle.edit_model.specs.declared.value.Value.TheVariants.{Bad};
ghost use Rattle.edit_line.specs.Reductions.{lines_of};
ghost use Rattle.edit_line.specs.Shapes.{IsNumerical, number_fields, place_in, shape_of};
ghost use Rattle.edit_line.specs.Sums.{sum_at};
ghost use Rattle.back_subst.specs.NumberWalk.{bounds_from, no_bounds};
ghost use Rattle.back_subst.specs.inner.Sides.{bounds_told, ends_of, with_line};

use crate::bound::Bounds;
use edit_line::{Derived, Line, place_among, value_at};
use edit_model::{Row, Survey};
use fraction128::{Fraction, Overflow};

/// A numerical field at which a record is Bad, with its place among the numerical ones.
#[derive(Clone, Copy)]
struct BlankNumber<'a> {
    survey: &'a Survey,
    row: &'a Row,
    field: u32,
    place: usize,
    ghost numerical: { IsNumerical (shape_of survey.now.fields) field },
    ghost stands: { place ≡ place_in (number_fields (shape_of survey.now.fields)) field },
    ghost blank: { value_of row.now field ≡ Bad },
}

/// The bounds that the lines, in order, give to the numerical field of the record, which is Bad there. Err
/// has the place of the first line of which a number leaves the range. No memory.
pub fn bounds_of(survey: &Survey, lines: &[Derived], row: &Row, field: u32) -> Result<Bounds, u64>
    requires shape { All (λ d. d.line.shape ≡ shape_of survey.now.fields) lines.now }
    requires row { IsRow survey.now.fields row.now }
    requires numerical { IsNumerical (shape_of survey.now.fields) field }
    requires blank { value_of row.now field ≡ Bad }
    ensures { bounds_told result ≡ bounds_from 0 (lines_of lines.now) row.now field no_bounds }
{
    let place = place_among(survey.numbers(), field);
    let at = BlankNumber {
        survey,
        row,
        field,
        place,
    };
    let mut bounds = Bounds::none();
    for (i, derived) in lines.iter().enumerate() {
        bounds = with_line(&at, &derived.line, i as u64, bounds)?;
    }
    Ok(bounds)
}

// The bounds, narrowed by those that the line at place `i` of the system gives to the field `at`. It gives none
// where the field does not stand in it, or where the record's codes are not in its sets. Err has `i`, where a
// number of the bound leaves the range.
fn with_line(at: &BlankNumber, line: &Line, i: u64, bounds: Bounds) -> Result<Bounds, u64>
    requires shape { line.now.shape ≡ shape_of at.now.survey.now.fields }
    requires row { IsRow at.now.survey.now.fields at.now.row.now }
    ensures { bounds_told result ≡ with_line i line.now at.now.row.now at.now.field (ends_of bounds) }
{
    let factor = line.factors()[at.place];
    if factor == 0 || !line.admits_codes_of(at.survey, at.row) {
        return Ok(bounds);
    }
    match bound_at(at.survey, line, at.row, factor) {
        Ok(end) => Ok(bounds.bounded_by(line.relation(), factor > 0, end, i)),
        Err(Overflow) => Err(i),
    }
}

// Where the line bounds the field that has this factor in it, and at which the record is Bad. That is at
// `rest / -factor`, where `rest` is the line's sum at the record without the field. An overflow where a
// number of these leaves the range.
fn bound_at(survey: &Survey, line: &Line, row: &Row, factor: i128) -> Result<Fraction, Overflow>
    requires shape { line.now.shape ≡ shape_of survey.now.fields }
    requires row { IsRow survey.now.fields row.now }
    requires in_range { InRange factor }
    requires not_zero { factor ≢ pos 0 }
    ensures { answered result ≡ (result_ok (sum_at line.now row.now) >>? (λ rest. divided rest (neg_ℤ factor))) }
{
    match value_at(survey, line, row) {
        Ok(rest) => rest.divide(-factor),
        Err(_) => Err(Overflow),
    }
}
