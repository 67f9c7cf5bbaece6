//! The fields that a path changes. A path has a letter for each of the first fields in path order: true for
//! a changed field, false for a kept one.
ghost use Rattle.std.specs.Prelude.{◌≡◌, ◌<◌, ◌≤◌, ◌==◌, ◌&&◌, ◌||◌, ◌++◌, ◌∷◌, [], All, ℕ, IfOk, OnOk, false, if◌then◌else◌, length, slice_index_or};
ghost use Rattle.edit_model.specs.FieldSets.{has_number};
ghost use Rattle.bound_cert.specs.Paths.{changes};
ghost use Rattle.bound_cert.specs.Trees.{all_kept};
ghost use Rattle.edit_report.specs.Ends.{changed_fields, path_found};

use bound_cert::Outcome;
use edit_model::{FieldSet, Survey};
use foundation::OutOfMemory;
use std::alloc::Global;

/// The letters of the path at which a search ended. They are none where the record was found contradictory,
/// as that search ends at no path. No memory.
pub(crate) fn path_found(outcome: &Outcome) -> &[bool]
    ensures { result.now ≡ path_found outcome.now }
{
    match outcome {
        Outcome::Change { path, .. } => path.letters(),
        Outcome::Budget { path, .. } => path.letters(),
        Outcome::Overflow { path, .. } => path.letters(),
        Outcome::Contradictory { .. } => &[],
    }
}

/// Whether the path keeps each field of which it says something, as an empty path does. A record of such a
/// path is clean, if it was given values. No memory.
pub(crate) fn keeps_every_field(path: &[bool]) -> bool
    ensures { result ≡ all_kept path.now }
{
    path.iter().all(|changed| !*changed)
}

/// The set of the fields that the path changes, by their numbers in the survey. Fields of which the path says
/// nothing are not in it. No memory.
pub(crate) fn changed_set(survey: &Survey, path: &[bool]) -> FieldSet
    requires { length path.now ≤ length survey.now.fields }
    ensures { (f : ℕ) → has_number result f ≡ changes survey.now.fields path.now f }
{
    let mut set = FieldSet::empty();
    for place in 0..survey.fields().len() {
        set = with_changed(
            set,
            survey.path_field(place as u32),
            is_changed(path, place),
        );
    }
    set
}

/// The numbers in the survey of the fields that the path changes, in path order: the order of their lines in
/// the reasons file.
pub(crate) fn changed_fields(
    alloc: Global,
    survey: &Survey,
    path: &[bool],
) -> Result<Vec<u32>, OutOfMemory>
    ensures fields { IfOk result (λ changed. changed.items ≡ changed_fields survey.now.fields path.now) }
    ensures within { IfOk result (λ changed. All (λ f. f < length survey.now.fields) changed.items) }
{
    let mut changed = Vec::new(alloc);
    for place in 0..survey.fields().len() {
        push_if(
            is_changed(path, place),
            &mut changed,
            survey.path_field(place as u32),
        )?;
    }
    Ok(changed)
}

// The set with the field of this number more, where `changed` is true; else the set as it is.
fn with_changed(set: FieldSet, field: u32, changed: bool) -> FieldSet
    requires { field < 64 }
    ensures { (f : ℕ) → has_number result f ≡ (has_number set f || ((field == f) && changed)) }
{
    if changed { set.with(field) } else { set }
}

// Appends the number of a field where `changed` is true; else nothing.
fn push_if(changed: bool, fields: &mut Vec<u32>, field: u32) -> Result<(), OutOfMemory>
    ensures { OnOk result (fields.new.items ≡ (if changed then fields.old.items ++ field ∷ [] else fields.old.items)) }
{
    if changed {
        fields.push(field)?;
    }
    Ok(())
}

// Whether the path changes the field at this place in path order, from 0. False where the path is so short
// that it says nothing of it.
fn is_changed(path: &[bool], place: usize) -> bool
    ensures { result ≡ slice_index_or path.now place false }
{
    place < path.len() && path[place]
}
