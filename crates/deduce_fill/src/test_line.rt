//! The lines by which a value at a field is tested, and the edits with one of them. A line asks that a sum
//! is at least 0, or above 0, where the record's codes are in its sets.
ghost use Rattle.std.specs.Prelude.{◌≡◌, ◌<◌, ◌≤◌, ◌==◌, ◌++◌, ◌∷◌, [], IfOk, if◌then◌else◌, length, neg_ℤ, pos, true};
ghost use Rattle.std.specs.Arc.{arc_value};
ghost use Rattle.fraction128.specs.Range.{InRange};
ghost use Rattle.edit_model.specs.Rows.{IsRow, value_of};
ghost use Rattle.edit_line.specs.EditSets.{AreEdits};
ghost use Rattle.edit_line.specs.Lines.{IsLine, LineParts, parts_of};
ghost use Rattle.edit_line.specs.Shapes.{has_field, code_fields, shape_of, whole_sets};
ghost use Rattle.edit_line.specs.declared.relation.Relation.TheVariants.{Above};
ghost use Rattle.deduce_fill.specs.Tests.{alone_at, most_edits, other_line, test_lines};

use edit_line::{Edits, Line, Relation, Shape, place_among};
use edit_model::{Row, Survey, Value};
use foundation::OutOfMemory;
use std::alloc::Global;
use std::sync::Arc;

/// The lines by which the record's value at the field is tested. Where a point has another value there one
/// of them holds, and else none. They are two for a number, above it and below it, one for a code, and none
/// where the record has no value there.
pub(crate) fn test_lines_of(
    alloc: Global,
    survey: &Survey,
    row: &Row,
    field: u32,
) -> Result<Vec<Line>, OutOfMemory>
    requires row { IsRow survey.now.fields row.now }
    requires field { field < length row.now }
    ensures { IfOk result (λ lines. lines.items ≡ test_lines (shape_of survey.now.fields) field (value_of row.now field)) }
{
    let _fields = survey.fields(); // read for what it says: they are in form
    let mut lines = Vec::new(alloc);
    match row.value(field) {
        Value::Number(x) => {
            let above = side_line(
                alloc,
                survey,
                field,
                x.denominator(),
                negative(x.numerator()),
            )?;
            lines.push(above)?;
            let below = side_line(
                alloc,
                survey,
                field,
                negative(x.denominator()),
                x.numerator(),
            )?;
            lines.push(below)?;
        }
        Value::Code(code) => lines.push(other_line(alloc, survey, field, *code)?)?,
        Value::Bad => {}
    }
    Ok(lines)
}

// The line `factor * x + constant > 0` for all codes, where x is the number at the field. Such lines say that x
// is above a number, or below it.
fn side_line(
    alloc: Global,
    survey: &Survey,
    field: u32,
    factor: i128,
    constant: i128,
) -> Result<Line, OutOfMemory>
    requires factor { InRange factor }
    requires constant { InRange constant }
    ensures { IfOk result (λ line. line ≡ parts_of (shape_of survey.now.fields)
        (whole_sets (shape_of survey.now.fields)) (alone_at (shape_of survey.now.fields) field factor) constant Above) }
{
    let _fields = survey.fields(); // read for what it says: they are in form
    let sets = Shape::of(survey).whole_sets(alloc)?;
    let mut factors = Vec::new(alloc);
    for other in survey.numbers() {
        factors.push(factor_at(*other, field, factor))?;
    }
    Ok(Line::new(survey, sets, factors, constant, Relation::Above))
}

// The factor of field `other` in a line in which `field` stands alone with this factor: 0 at every other
// field.
fn factor_at(other: u32, field: u32, factor: i128) -> i128
    ensures { result ≡ (if other == field then factor else pos 0) }
{
    if other == field { factor } else { 0 }
}

// The negative of a number. A number in range is at most 2^127 - 1 in size, so its negative is in range, too.
fn negative(number: i128) -> i128
    requires { InRange number }
    ensures value { result ≡ neg_ℤ number }
    ensures in_range { InRange result }
{
    -number
}

// The line that says that the code at the field is another one than `code`. Its set there has `code` alone,
// for which -1 would have to be at least 0.
fn other_line(alloc: Global, survey: &Survey, field: u32, code: u8) -> Result<Line, OutOfMemory>
    requires line { IsLine (other_line (shape_of survey.now.fields) field code) }
    requires field { has_field (code_fields (shape_of survey.now.fields)) field ≡ true }
    requires code { code < 64 }
    ensures { IfOk result (λ line. line ≡ other_line (shape_of survey.now.fields) field code) }
{
    let mut sets = Shape::of(survey).whole_sets(alloc)?;
    let place = place_among(survey.codes(), field);
    sets[place] = 1 << code;
    let factors = vec![in alloc; 0; survey.numbers().len()]?;
    Ok(Line::new(survey, sets, factors, -1, Relation::AtLeast))
}

/// Copies of the edits and of one more line behind them, which has their count as its number, as they are
/// numbered from 0. Over these a walk tests a value.
pub(crate) fn edits_with(
    alloc: Global,
    survey: &Survey,
    edits: &Edits,
    line: &Line,
) -> Result<Arc<Edits>, OutOfMemory>
    requires edits { AreEdits (shape_of survey.now.fields) (edits.now.lines ++ (length edits.now.lines, line.now) ∷ []) }
    requires few { length edits.now.lines ≤ most_edits }
    ensures shape { IfOk result (λ more. (arc_value more).shape ≡ shape_of survey.now.fields) }
    ensures lines { IfOk result (λ more. (arc_value more).lines ≡ edits.now.lines ++ (length edits.now.lines, line.now) ∷ []) }
{
    let mut lines = Vec::with_capacity(alloc, edits.lines().len() + 1)?;
    for (number, edit) in edits.lines() {
        lines.push((*number, edit.copy(alloc)?))?;
    }
    let number = lines.len() as u32;
    lines.push((number, line.copy(alloc)?))?;
    Ok(Arc::new(alloc, Edits::new(alloc, survey, lines)?)?)
}
