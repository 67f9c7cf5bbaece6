//! Files in memory, and what is made of a rule file for a call: its survey, its edits, and numbers of
//! fields and codes.
ghost use Rattle.std.specs.Prelude.{◌≡◌, IfOk};
ghost use Rattle.std.specs.Arc.{arc_value};
ghost use Rattle.edit_line.specs.EditSets.{SayTheRules};
ghost use Rattle.edit_line.specs.Shapes.{shape_of};

use crate::fault::CallFault;
use case_files::Files;
use edit_language::read_rules;
use edit_line::Edits;
use edit_model::{Field, Kind, Survey};
use edit_normal::rule_edits;
use std::alloc::Global;
use std::sync::Arc;

/// The bytes of the file of this name. `CallFault::NoFile` where there is none.
pub fn bytes_in<'a>(files: &'a Files, name: &str) -> Result<&'a [u8], CallFault> {
    match files.bytes(name) {
        Some(bytes) => Ok(bytes),
        None => Err(CallFault::NoFile),
    }
}

/// The survey that the rule file of this name reads as. `CallFault::Rules` where it has no reading. A
/// file of 2^32 bytes or more is refused as if it were not there, since `read_rules` asks for fewer.
pub fn survey_in(alloc: Global, files: &Files, name: &str) -> Result<Survey, CallFault> {
    let bytes = bytes_in(files, name)?;
    if bytes.len() >= 1 << 32 {
        return Err(CallFault::NoFile);
    }
    Ok(read_rules(alloc, bytes)?)
}

/// The edits of the survey, which hold exactly at the consistent points (`SayTheRules`). They may have
/// several owners. Want of memory is the only fault.
pub fn edits_of(alloc: Global, survey: &Survey) -> Result<Arc<Edits>, CallFault>
    ensures shape { IfOk result (λ edits. (arc_value edits).shape ≡ shape_of survey.now.fields) }
    ensures same { IfOk result (λ edits. SayTheRules survey.now (arc_value edits)) }
{
    match rule_edits(alloc, survey) {
        Ok(edits) => Ok(Arc::new(alloc, edits)?),
        Err(_) => Err(CallFault::OutOfMemory),
    }
}

/// The number of the field of this name, from 0. `CallFault::Field` where the survey has none.
pub fn field_of(survey: &Survey, name: &str) -> Result<u32, CallFault> {
    match survey.find(name.as_bytes()) {
        Some(field) => Ok(field),
        None => Err(CallFault::Field),
    }
}

/// The number of the field's code of this name, from 0. `CallFault::Field` where the field is numerical,
/// or has no such code.
pub fn code_of(field: &Field, name: &str) -> Result<u8, CallFault> {
    let Kind::Code { codes } = &field.kind else {
        return Err(CallFault::Field);
    };
    let place = codes
        .as_slice()
        .iter()
        .position(|code| code.as_bytes() == name.as_bytes());
    match place {
        Some(place) if place < 64 => Ok(place as u8),
        _ => Err(CallFault::Field),
    }
}
