//! The surveys of the two files, by which these are read: the fields of each, and no rules. A `set` is
//! always that of the survey's last fields. In contracts, `own_fields` and `last_fields` are the fields that
//! stand in the one file and in the other.
ghost use Rattle.std.specs.Prelude.{◌≡◌, ◌++◌, ◌∷◌, [], IfOk, IsTrue, OnOk, if◌then◌else◌};
ghost use Rattle.edit_model.specs.Parts.{survey_of};
ghost use Rattle.edit_model.specs.Surveys.{IsWellFormed};
ghost use Rattle.panel_files.specs.LastFields.{AreLastFields, IsLastField, last_fields, own_fields, under_last_name};

use crate::copies::{copy_of, under_last_name};
use edit_model::{Field, FieldSet, Survey};
use foundation::OutOfMemory;
use std::alloc::Global;

/// The survey of the file of the records: the fields outside of the set, which are those of this period,
/// in declared order.
pub fn own_survey(alloc: Global, survey: &Survey, set: FieldSet) -> Result<Survey, OutOfMemory>
    ensures own { IfOk result (λ own. own ≡ survey_of (own_fields survey.now.fields set) []) }
    ensures well_formed { IfOk result (λ own. IsWellFormed own) }
{
    let mut fields = Vec::new(alloc);
    for (number, field) in survey.fields().iter().enumerate() {
        push_own(alloc, &mut fields, field, set.has(number as u32))?;
    }
    Survey::of(alloc, fields, Vec::new(alloc))
}

/// The survey of the file of the last period. It has the fields of the set, which are the last fields, in
/// declared order, each under the name behind `last_`.
pub fn last_survey(alloc: Global, survey: &Survey, set: FieldSet) -> Result<Survey, OutOfMemory>
    requires { AreLastFields survey.now.fields set }
    ensures last { IfOk result (λ last. last ≡ survey_of (last_fields survey.now.fields set) []) }
    ensures well_formed { IfOk result (λ last. IsWellFormed last) }
{
    let mut fields = Vec::new(alloc);
    for (number, field) in survey.fields().iter().enumerate() {
        push_last(alloc, &mut fields, field, set.has(number as u32))?;
    }
    Survey::of(alloc, fields, Vec::new(alloc))
}

// Appends a copy of the field where it is not a last field, and else nothing.
fn push_own(
    alloc: Global,
    fields: &mut Vec<Field>,
    field: &Field,
    is_last: bool,
) -> Result<(), OutOfMemory>
    ensures { OnOk result (fields.new.items ≡ (if is_last then fields.old.items else fields.old.items ++ field.now ∷ [])) }
{
    if !is_last {
        fields.push(copy_of(alloc, field)?)?;
    }
    Ok(())
}

// Appends a copy of the field, without `last_` in front of its name, where it is a last field, and else
// nothing.
fn push_last(
    alloc: Global,
    fields: &mut Vec<Field>,
    field: &Field,
    is_last: bool,
) -> Result<(), OutOfMemory>
    requires { IsTrue is_last → IsLastField field.now }
    ensures { OnOk result (fields.new.items ≡ (if is_last then fields.old.items ++ under_last_name field.now ∷ [] else fields.old.items)) }
{
    if is_last {
        fields.push(under_last_name(alloc, field)?)?;
    }
    Ok(())
}
