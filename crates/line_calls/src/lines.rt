//! Worked calls on the lines of rules: their texts, their negations, and their sums at a record. Lines
//! are numbered from 1 in what is told. In contracts, `IsRow` says that a record has for each field a
//! value of its kind, or none.
ghost use Rattle.std.specs.Prelude.{◌≡◌, IfOk};
ghost use Rattle.edit_line.specs.Shapes.{shape_of};
ghost use Rattle.edit_model.specs.Rows.{IsRow};

use crate::fault::CallFault;
use crate::numbers::from_one;
use crate::texts::{Texts, name_of, told_line};
use edit_line::{Line, LineOverflow, Shape, fails, value_at};
use edit_model::{Row, Survey};
use edit_normal::normal_lines;
use std::alloc::Global;

/// The normal lines of the survey's rules as texts, each behind the number of its rule, from 1. Want of
/// memory is the only fault.
pub fn lines_told(alloc: Global, survey: &Survey) -> Result<Texts, CallFault> {
    let mut texts = Vec::new(alloc);
    for made in &normal_lines(alloc, survey)? {
        let rule = from_one(u64::from(made.rule));
        let head = format!(in alloc; "{rule} ")?;
        texts.push(told_line(alloc, survey, head, &made.line)?)?;
    }
    Ok(texts)
}

/// The lines of the negation of each line of the rules, each behind the number of the line that they
/// negate, from 1. An equality has `none` there. Want of memory is the only fault.
pub fn negations_told(alloc: Global, survey: &Survey) -> Result<Texts, CallFault> {
    let mut texts = Vec::new(alloc);
    for (place, made) in normal_lines(alloc, survey)?.iter().enumerate() {
        push_negation(alloc, survey, place as u64, &made.line, &mut texts)?;
    }
    Ok(texts)
}

// Appends the lines of the negation of a line, each behind the number of that line. Of an equality it
// appends `none`, since its negation is no list of lines. `place` is the line's, from 0.
fn push_negation(
    alloc: Global,
    survey: &Survey,
    place: u64,
    line: &Line,
    texts: &mut Texts,
) -> Result<(), CallFault> {
    let number = from_one(place);
    if line.relation().is_equal() {
        texts.push(format!(in alloc; "{number} none")?.into_bytes())?;
        return Ok(());
    }
    for part in &line.negation(alloc)? {
        let head = format!(in alloc; "{number} ")?;
        texts.push(told_line(alloc, survey, head, part)?)?;
    }
    Ok(())
}

/// For each line of the rules its number, from 1, its sum at the record, and whether its linear part
/// fails there: `2 -3 fails`. Where a number leaves the range, that is told instead. Want of memory is
/// the only fault.
pub fn sums_told(alloc: Global, survey: &Survey, row: &Row) -> Result<Texts, CallFault>
    requires { IsRow survey.now.fields row.now }
{
    let mut texts = Vec::new(alloc);
    for (place, made) in normal_lines(alloc, survey)?.iter().enumerate() {
        texts.push(sum_told(alloc, survey, row, place as u64, &made.line)?)?;
    }
    Ok(texts)
}

// What is told of one line at the record, behind its number: its sum, and whether its linear part fails
// there. Two calls answer these, of which each refuses where a number leaves the range, so that an
// overflow is told twice. `place` is the line's, from 0.
fn sum_told(
    alloc: Global,
    survey: &Survey,
    row: &Row,
    place: u64,
    line: &Line,
) -> Result<Vec<u8>, CallFault>
    requires { IsRow survey.now.fields row.now }
{
    let shape = Shape::of(survey);
    if line.shape() != shape {
        return Err(CallFault::Shape);
    }
    let number = from_one(place);
    let mut text = format!(in alloc; "{number}")?.into_bytes();
    match value_at(survey, line, row) {
        Ok(sum) => {
            text.push(b' ')?;
            text.extend_from_slice(&sum.write_text(alloc)?)?;
        }
        Err(overflow) => push_overflow(survey, overflow, &mut text)?,
    }
    match fails(survey, line, row) {
        Ok(true) => text.extend_from_slice(b" fails")?,
        Ok(false) => text.extend_from_slice(b" holds")?,
        Err(overflow) => push_overflow(survey, overflow, &mut text)?,
    }
    Ok(text)
}

// Appends at which field a line's sum leaves the range, such as ` overflow at Costs`.
// `CallFault::Field` where the survey has no such field.
fn push_overflow(
    survey: &Survey,
    overflow: LineOverflow,
    text: &mut Vec<u8>,
) -> Result<(), CallFault> {
    text.extend_from_slice(b" overflow at ")?;
    text.extend_from_slice(name_of(survey, overflow.field)?)?;
    Ok(())
}
