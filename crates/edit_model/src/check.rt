//! Whether a survey is well formed. Each function here and in `check/` asks one question of a part, such
//! as a field, a rule or a name. The definitions in their contracts are those of `specs/Surveys.antt`.
ghost use Rattle.std.specs.Prelude.{◌≢◌, ◌↔◌, All, AllPairs, IfOk, IsTrue};
ghost use Rattle.edit_model.specs.Parts.{survey_of};
ghost use Rattle.edit_model.specs.Surveys.{IsField, IsRule, IsWellFormed};

mod field;
mod kind;
mod linear;
mod name;
mod rule;

use crate::field::Field;
use crate::name_table::NameTable;
use crate::rule::Rule;
use field::is_field;
use foundation::OutOfMemory;
pub use name::is_field_name;
use rule::is_rule;
use std::alloc::Global;

/// How many fields a survey may have.
const MOST_FIELDS: usize = 64;

/// How many rules a survey may have.
const MOST_RULES: usize = 500;

// Whether each field is well formed: its name, its weight, and its scale or codes are within the limits.
fn are_fields(fields: &[Field]) -> bool
    ensures { IsTrue result ↔ All IsField fields.now }
{
    fields.iter().all(is_field)
}

// Whether each rule fits these fields, and has a form that the editor takes.
fn are_rules(fields: &[Field], rules: &[Rule]) -> bool
    ensures { IsTrue result ↔ All (IsRule fields.now) rules.now }
{
    rules.iter().all(|rule| is_rule(fields, rule))
}

// Whether no two of the fields have the same name.
fn have_distinct_names(alloc: Global, fields: &[Field]) -> Result<bool, OutOfMemory>
    ensures { IfOk result (λ distinct. IsTrue distinct ↔ AllPairs (λ f g. f.name ≢ g.name) fields.now) }
{
    let mut names = NameTable::new(alloc);
    for field in fields {
        if !names.insert(alloc, &field.name)? {
            return Ok(false);
        }
    }
    Ok(true)
}

/// Whether the survey of these fields and rules is well formed: few enough of each, distinct names, and
/// each field and rule well formed.
pub(crate) fn is_well_formed(
    alloc: Global,
    fields: &[Field],
    rules: &[Rule],
) -> Result<bool, OutOfMemory>
    ensures { IfOk result (λ formed. IsTrue formed ↔ IsWellFormed (survey_of fields.now rules.now)) }
{
    if fields.len() > MOST_FIELDS || rules.len() > MOST_RULES {
        return Ok(false);
    }
    let distinct = have_distinct_names(alloc, fields)?;
    Ok(distinct && are_fields(fields) && are_rules(fields, rules))
}
