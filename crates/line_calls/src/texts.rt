//! Parts of what worked calls tell: lines, names of fields, and places of numbers.
ghost use Rattle.std.specs.Prelude.{◌≡◌, IfOk};
ghost use Rattle.edit_line.specs.Shapes.{shape_of};

use crate::fault::CallFault;
use edit_line::{Line, Place, Shape};
use edit_model::Survey;
use rule_report::line_text;
use std::alloc::Global;

/// The lines that a call tells, without their line feeds.
pub type Texts = Vec<Vec<u8>>;

/// What is told of a line over the survey's fields: its text, behind `head`. A line over other fields
/// is refused (`CallFault::Shape`).
pub fn told_line(
    alloc: Global,
    survey: &Survey,
    head: String,
    line: &Line,
) -> Result<Vec<u8>, CallFault> {
    let shape = Shape::of(survey);
    if line.shape() != shape {
        return Err(CallFault::Shape);
    }
    let mut text = head.into_bytes();
    text.extend_from_slice(&line_text(alloc, survey, line)?)?;
    Ok(text)
}

/// The name of the field of this number, from 0. `CallFault::Field` where the survey has no such field.
pub fn name_of(survey: &Survey, field: u32) -> Result<&[u8], CallFault> {
    match survey.fields().get(field as usize) {
        Some(field) => Ok(field.name.as_bytes()),
        None => Err(CallFault::Field),
    }
}

/// Appends the place in a combination of two lines at which a number leaves the range: ` at constant`,
/// or ` at ` and the name of the field whose factor it is. `CallFault::Field` where the survey has no
/// such field.
pub fn push_place(text: &mut Vec<u8>, survey: &Survey, place: Place) -> Result<(), CallFault> {
    text.extend_from_slice(b" at ")?;
    match place {
        Place::Constant => text.extend_from_slice(b"constant")?,
        Place::Field(field) => text.extend_from_slice(name_of(survey, field)?)?,
    }
    Ok(())
}

/// What a call tells that tells this one line of text. Want of memory is the only fault.
pub fn only_line(alloc: Global, text: Vec<u8>) -> Result<Texts, CallFault> {
    let mut texts = Vec::new(alloc);
    texts.push(text)?;
    Ok(texts)
}
