//! The sum of a line at a record, in exact fractions of 128 bits.
ghost use Rattle.std.specs.Prelude.{◌≡◌, ◌<◌, ◌*ℤ◌, not, Ok, Err, Some, None, All, IfErr, IfOk, length};
ghost use Rattle.fraction128.specs.Formulas.{answered, ratio_of};
ghost use Rattle.fraction128.specs.Range.{InRange};
ghost use Rattle.edit_model.specs.Points.{Point};
ghost use Rattle.edit_model.specs.Rows.{IsRow, value_of};
ghost use Rattle.edit_model.specs.Trials.{sum_with};
ghost use Rattle.edit_line.specs.Lines.{amount};
ghost use Rattle.edit_line.specs.Shapes.{shape_of};
ghost use Rattle.edit_line.specs.Subsumption.{is_enough};
ghost use Rattle.edit_line.specs.Sums.{AgreesOnLine, fails_at, next_sum, sum_at, sum_from, whole};

use crate::line::Line;
use crate::overflow::LineOverflow;
use edit_model::{Row, Survey, Value};
use fraction128::{Fraction, Overflow};

/// The line's sum at the record: the constant, and then factor * value at each numerical field whose
/// factor is not 0, in declared order. Such a field that is Bad adds nothing. Overflow exactly where a
/// number on the way leaves the range; it names the first field at which one does. At a point with the
/// record's values at these fields, the sum is the same (`amount`). No memory.
pub fn value_at(survey: &Survey, line: &Line, row: &Row) -> Result<Fraction, LineOverflow>
    requires shape { line.now.shape ≡ shape_of survey.now.fields }
    requires row { IsRow survey.now.fields row.now }
    ensures value { IfOk result (λ x. sum_at line.now row.now ≡ Ok (ratio_of x)) }
    ensures overflow { IfErr result (λ fault. sum_at line.now row.now ≡ Err fault.field) }
    ensures amount { IfOk result (λ x. (p : Point)
        → AgreesOnLine row.now p line.now
        → x.numerator *ℤ p.denominator ≡ amount line.now p *ℤ x.denominator) }
{
    sum_over(survey.numbers(), line.factors(), line.constant(), row)
}

/// Whether the linear part is false at the record: its sum, as [`value_at`] tells it, is not at least 0,
/// above 0, or 0, as the relation says. The codes are not looked at, so the line may still hold where its
/// linear part fails. The refusal is that of [`value_at`]. No memory.
pub fn fails(survey: &Survey, line: &Line, row: &Row) -> Result<bool, LineOverflow>
    requires shape { line.now.shape ≡ shape_of survey.now.fields }
    requires row { IsRow survey.now.fields row.now }
    ensures answer { IfOk result (λ failed. fails_at line.now row.now ≡ Ok failed) }
    ensures overflow { IfErr result (λ fault. fails_at line.now row.now ≡ Err fault.field) }
    ensures truth { IfOk result (λ failed. (p : Point)
        → AgreesOnLine row.now p line.now
        → failed ≡ not (is_enough line.now.relation (amount line.now p))) }
{
    let sum = value_at(survey, line, row)?;
    Ok(!line.relation().is_enough(sum.numerator()))
}

// The constant, and then factor * value at each of the fields whose factor is not 0, in this order.
// `factors` has one factor for each of `fields`. Overflow names the first field at which a number
// leaves the range. A field without a number adds nothing.
fn sum_over(
    fields: &[u32],
    factors: &[i128],
    constant: i128,
    row: &Row,
) -> Result<Fraction, LineOverflow>
    requires count { length factors.now ≡ length fields.now }
    requires in_range { All InRange factors.now }
    requires constant { InRange constant }
    requires places { All (λ f. f < length row.now) fields.now }
    ensures sum { IfOk result (λ x. sum_from fields.now factors.now row.now (whole constant) ≡ Ok (ratio_of x)) }
    ensures overflow { IfErr result (λ fault. sum_from fields.now factors.now row.now (whole constant) ≡ Err fault.field) }
{
    let mut sum = Fraction::whole(constant);
    for (place, field) in fields.iter().enumerate() {
        sum = with_field(sum, factors[place], *field, row)?;
    }
    Ok(sum)
}

// The sum so far and, added to it, the factor times the record's number at the field. Overflow names
// this field. Where the factor is 0 nothing is added, so nothing can overflow.
#[inline(always)]
fn with_field(sum: Fraction, factor: i128, field: u32, row: &Row) -> Result<Fraction, LineOverflow>
    requires in_range { InRange factor }
    requires place { field < length row.now }
    ensures sum { IfOk result (λ next. next_sum factor (value_of row.now field) (ratio_of sum) ≡ Some (ratio_of next)) }
    ensures overflow { IfErr result (λ fault. (fault.field ≡ field)
        × (next_sum factor (value_of row.now field) (ratio_of sum) ≡ None)) }
{
    if factor == 0 {
        return Ok(sum);
    }
    match with_value(sum, factor, row.value(field)) {
        Ok(next) => Ok(next),
        Err(Overflow) => Err(LineOverflow { field }),
    }
}

// The sum so far and, added to it, the factor times the value. A value that is no number adds nothing.
// Overflow where a number leaves the range.
#[inline(always)]
fn with_value(sum: Fraction, factor: i128, value: &Value) -> Result<Fraction, Overflow>
    requires { InRange factor }
    ensures { answered result ≡ sum_with (ratio_of sum) factor value.now }
{
    match value {
        Value::Number(number) => sum.add(number.scale(factor)?),
        Value::Code(_) | Value::Bad => Ok(sum),
    }
}
