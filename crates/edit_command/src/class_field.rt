//! The class field, by whose codes records are in imputation classes: its name on the command line, found
//! among the survey's fields.
//!
//! In contracts, `IsClassField` says that the field of this number is categorical and has this name, and
//! `HasClass` that there is such a field.
ghost use Rattle.std.specs.Prelude.{IfErr, IfNone, IfOk, IfSome, option_copied};
ghost use Rattle.edit_command.specs.ClassFields.{HasClass, IsClassAsked, IsClassField};
ghost use Rattle.edit_command.specs.inner.EitherRun.{RefusesClass};

use edit_model::Survey;
use run_parts::{AskedName, Fault, Refusal};
use std::alloc::Global;

/// The number of the categorical field that has the name `class`. None where no name is given: records
/// have no classes then. Refused (`Fault::Class`) where no categorical field has the name, and for want of
/// memory.
pub(crate) fn class_field_asked<'a>(
    alloc: Global,
    survey: &Survey,
    class: Option<&'a str>,
) -> Result<Option<u32>, Refusal<'a>>
    ensures found { IfOk result (IsClassAsked survey.now.fields (option_copied class.entry)) }
    ensures cause { IfErr result (RefusesClass survey.now.fields (option_copied class.entry)) }
{
    let Some(name) = class else {
        return Ok(None);
    };
    let Some(number) = categorical_field(survey, name) else {
        let name = AskedName::new(name);
        return Err(Refusal::of(alloc, Fault::Class { name }));
    };
    Ok(Some(number))
}

// The number of the categorical field with this name. None where no field has it, or a numerical one
// does. No memory.
fn categorical_field(survey: &Survey, name: &str) -> Option<u32>
    ensures found { IfSome result (IsClassField survey.now.fields name.now) }
    ensures none { IfNone result (¬ HasClass survey.now.fields name.now) }
{
    let number = survey.find(name.as_bytes())?;
    if survey.fields()[number as usize].kind.is_numerical() {
        return None;
    }
    Some(number)
}
