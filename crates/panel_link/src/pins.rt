//! Pins: the lines by which fields keep their values. A pin for a number is an equality. A pin for a code
//! is a line that is never met where the field has another code. In contracts, `placed_from` numbers lines
//! by their places, and `pin_of` is the pin of a value, if it has one.
ghost use Rattle.std.specs.Prelude.{◌≡◌, ◌<◌, ◌^◌, ◌++◌, ◌∷◌, [], IfOk, OnOk, length, map, neg_ℤ, slice_index_or, slice_set, true};
ghost use Rattle.fraction128.specs.Range.{InRange};
ghost use Rattle.edit_model.specs.Rows.{IsRow, value_of};
ghost use Rattle.edit_line.specs.Sets.{none_is_empty};
ghost use Rattle.edit_line.specs.Shapes.{code_fields, has_field, number_fields, shape_of};
ghost use Rattle.edit_normal.specs.RuleEdits.{placed_from};
ghost use Rattle.edit_normal.specs.NormalForm.{rule_lines_of};
ghost use Rattle.panel_link.specs.Pins.{code_kept, number_kept};
ghost use Rattle.panel_link.specs.inner.PinLines.{others_of, own_factor, pin_of};

use edit_line::{Line, Relation, Shape, place_among};
use edit_model::{Row, Survey, Value};
use foundation::OutOfMemory;
use fraction128::Fraction;
use std::alloc::Global;

/// Puts a line behind `lines`, with its place there, from 0, as its number.
pub(crate) fn push_line(lines: &mut Vec<(u32, Line)>, line: Line) -> Result<(), OutOfMemory>
    requires { length lines.old.items < 2 ^ 32 }
    ensures { OnOk result (lines.new.items ≡ lines.old.items ++ (length lines.old.items, line) ∷ []) }
{
    let number = lines.len() as u32;
    lines.push((number, line))?;
    Ok(())
}

/// Puts the pin of the record's value at the field behind `lines`, numbered by its place. A field without a
/// value has no pin, nor has a field with one code only.
pub(crate) fn push_pin(
    alloc: Global,
    survey: &Survey,
    row: &Row,
    field: u32,
    lines: &mut Vec<(u32, Line)>,
) -> Result<(), OutOfMemory>
    requires row { IsRow survey.now.fields row.now }
    requires field { field < length row.now }
    requires few { length lines.old.items < 2 ^ 32 }
    ensures { OnOk result (lines.new.items
        ≡ lines.old.items ++ placed_from (length lines.old.items) (pin_of (shape_of survey.now.fields) field (value_of row.now field))) }
{
    let _fields = survey.fields(); // read for what it says: they are in form
    match row.value(field) {
        Value::Number(x) => push_line(lines, number_pin(alloc, survey, field, *x)?),
        Value::Code(code) => push_code_pin(alloc, survey, field, *code, lines),
        Value::Bad => Ok(()),
    }
}

// The line that the number at the field is `x`, which is p/q, whatever the codes are: q * field - p = 0. The
// numbers of the line are divided by what divides them all.
fn number_pin(alloc: Global, survey: &Survey, field: u32, x: Fraction) -> Result<Line, OutOfMemory>
    ensures { IfOk result (λ line. rule_lines_of (shape_of survey.now.fields) (number_kept field x) ≡ line ∷ []) }
{
    let _fields = survey.fields(); // read for what it says: they are in form
    let shape = Shape::of(survey);
    let sets = shape.whole_sets(alloc)?;
    let factors = factors_at(alloc, survey, field, x)?;
    let constant = negative(x.numerator());
    Ok(Line::divided(shape, sets, factors, constant, Relation::Equal))
}

// The factors, of all numerical fields in declared order, of the pin of the number `x` at `field`. This field
// stands there alone, with the denominator of `x` as its factor; the others have 0.
fn factors_at(
    alloc: Global,
    survey: &Survey,
    field: u32,
    x: Fraction,
) -> Result<Vec<i128>, OutOfMemory>
    ensures { IfOk result (λ factors. factors.items ≡ map (own_factor field x) (number_fields (shape_of survey.now.fields))) }
{
    let mut factors = Vec::with_capacity(alloc, survey.numbers().len())?;
    for other in survey.numbers() {
        factors.push(factor_at(*other, field, x))?;
    }
    Ok(factors)
}

// The factor of the field `other` in the pin of the number `x` at `field`: the denominator of `x` at `field`
// itself, and 0 elsewhere.
fn factor_at(other: u32, field: u32, x: Fraction) -> i128
    ensures { result ≡ own_factor field x other }
{
    if field == other { x.denominator() } else { 0 }
}

// The negative of a number. A number in range is at most 2^127 - 1 in size, so its negative is in range, too.
fn negative(number: i128) -> i128
    requires { InRange number }
    ensures value { result ≡ neg_ℤ number }
    ensures in_range { InRange result }
{
    -number
}

// Puts behind `lines` the pin of the code: the line that the code at the field is never another one, numbered
// by its place. Its set at the field has the other codes, and its sum is -1, which is never at least 0. A field
// with no other code would have an empty set, and has no pin.
fn push_code_pin(
    alloc: Global,
    survey: &Survey,
    field: u32,
    code: u8,
    lines: &mut Vec<(u32, Line)>,
) -> Result<(), OutOfMemory>
    requires field { has_field (code_fields (shape_of survey.now.fields)) field ≡ true }
    requires code { code < 64 }
    requires few { length lines.old.items < 2 ^ 32 }
    ensures { OnOk result (lines.new.items
        ≡ lines.old.items ++ placed_from (length lines.old.items) (rule_lines_of (shape_of survey.now.fields) (code_kept field code))) }
{
    let shape = Shape::of(survey);
    let mut sets = shape.whole_sets(alloc)?;
    remove_code(&mut sets, place_among(survey.codes(), field), code);
    if have_codes(&sets) {
        let factors = vec![in alloc; 0; survey.numbers().len()]?;
        push_line(
            lines,
            Line::over(shape, sets, factors, -1, Relation::AtLeast),
        )?;
    }
    Ok(())
}

// Takes the code out of the set at `place`, so that the other codes are left there. `place` is that of the
// field among the categorical ones, from 0.
fn remove_code(sets: &mut Vec<u64>, place: usize, code: u8)
    requires place { place < length sets.old.items }
    requires code { code < 64 }
    ensures { sets.new.items ≡ slice_set sets.old.items place (others_of (slice_index_or sets.old.items place 0) code) }
{
    sets[place] = others_of(sets[place], code);
}

// The set without this code, whether that was in it or not. Sets have a bit for each code.
fn others_of(set: u64, code: u8) -> u64
    requires { code < 64 }
    ensures { result ≡ others_of set code }
{
    set & (set ^ (1 << code))
}

// Whether each set has some code. A line with an empty set would ask nothing of any record, so it is left out.
fn have_codes(sets: &[u64]) -> bool
    ensures { result ≡ none_is_empty sets.now }
{
    sets.iter().all(|set| *set != 0)
}
