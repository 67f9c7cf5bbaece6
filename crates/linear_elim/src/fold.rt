//! The derived system of a set of fields, by one step after the other from the reduced edits.
//!
//! In contracts, `Answers` says that a call gives the lines that the definition has, or tells its first
//! overflow; memory may always be refused. `IsMade` says that a system's lines are those of the fold, with
//! all that holds of them. `fold_count` and `pairs_at` are the pairs of lines that a fold combines.
ghost use Rattle.std.specs.Prelude.{◌≡◌, ◌+◌, ◌≤◌, ◌<◌, IfOk, OnOk, IfErr};
ghost use Rattle.std.specs.Arc.{arc_value};
ghost use Rattle.edit_line.specs.Reductions.{AreOwn, lines_of};
ghost use Rattle.linear_elim.specs.Answers.{Answers};
ghost use Rattle.linear_elim.specs.Overflows.{TellsOverflow};
ghost use Rattle.linear_elim.specs.Parts.{AreLifted, IsMade, parts_of_system};
ghost use Rattle.linear_elim.specs.Steps.{OneShape};
ghost use Rattle.linear_elim.specs.Systems.{AreNumerical, chosen_fields, fold_count, fold_result, pairs_at, system_at, system_count};
ghost use Rattle.linear_elim.specs.Told.{told_system};
ghost use Rattle.linear_elim.specs.inner.FoldLines.{next_fields, so_far};

use crate::elimination::reduced_step;
use crate::fault::{SystemFault, at_field};
use crate::system::System;
use edit_line::{Derived, Edits};
use edit_model::FieldSet;
use foundation::{OutOfMemory, Steps};
use std::alloc::Global;
use std::sync::Arc;
use std::sync::ledger::Ledger;

/// A field of a survey's shape: its number, and how many codes it has, 0 where it is numerical.
#[derive(Clone, Copy)]
struct ShapeField {
    number: u32,
    codes: u8,
}

/// The derived system of the edits without the fields, which are all numerical. It is the fold of the step
/// over them in declared order, from the reduced edits. At a point its lines hold exactly where some
/// values at these fields make the edits hold. One step is counted for each pair that is combined. It
/// overflows where a step does, with the field of that step.
pub fn fold_system<L: Ledger>(
    alloc: Global,
    edits: &Arc<Edits>,
    fields: FieldSet,
    steps: &mut Steps<L>,
) -> Result<System, SystemFault>
    requires { AreNumerical (arc_value edits.now).shape fields }
    ensures edits { IfOk result (λ system. system.edits ≡ arc_value edits.now) }
    ensures fields { IfOk result (λ system. system.fields ≡ fields) }
    ensures lifts { IfOk result (λ system. AreLifted (arc_value edits.now) fields system.lines) }
    ensures made { IfOk result (λ system. IsMade system) }
    ensures exact { Answers (λ system. system.lines) told_system result (system_at (arc_value edits.now) fields) }
    ensures overflow { IfErr result (λ fault. TellsOverflow (arc_value edits.now) fields fault) }
    ensures counted { OnOk result (steps.new ≡ steps.old + pairs_at (arc_value edits.now) fields) }
    ensures few { steps.new ≤ steps.old + pairs_at (arc_value edits.now) fields }
    ensures counts { steps.old ≤ steps.new }
{
    let lines = fold_lines(alloc, edits, fields, steps)?;
    Ok(System::of(share(edits)?, fields, lines))
}

// One owner more of the same edits, for the system, which keeps them.
fn share(edits: &Arc<Edits>) -> Result<Arc<Edits>, OutOfMemory>
    ensures { IfOk result (λ other. arc_value other ≡ arc_value edits.now) }
{
    Ok(Arc::try_clone(edits)?)
}

// The lines of the derived system, or the first overflow. Each field of the survey is looked at in declared
// order, and those of the set are eliminated. The system of no field is a copy of the reduced edits.
fn fold_lines<L: Ledger>(
    alloc: Global,
    edits: &Edits,
    fields: FieldSet,
    steps: &mut Steps<L>,
) -> Result<Vec<Derived>, SystemFault>
    requires { AreNumerical edits.now.shape fields }
    ensures exact { Answers (λ v. v.items) told_system result (system_at edits.now fields) }
    ensures made { IfOk result (λ v. IsMade (parts_of_system edits.now fields v.items)) }
    ensures counted { OnOk result (steps.new ≡ steps.old + system_count edits.now.lines (chosen_fields edits.now.shape fields)) }
    ensures few { steps.new ≤ steps.old + system_count edits.now.lines (chosen_fields edits.now.shape fields) }
    ensures counts { steps.old ≤ steps.new }
{
    let shape = edits.shape();
    let base = edits.reduced();
    let mut lines = None;
    for (field, count) in shape.code_counts().iter().enumerate() {
        let next = ShapeField {
            number: field as u32,
            codes: *count,
        };
        lines = next_lines(alloc, base, lines, next, fields, steps)?;
    }
    match lines {
        Some(lines) => Ok(lines),
        None => Ok(copy_all(alloc, base)?),
    }
}

// The lines that the fold has reached: those of the last step. Where no step was taken yet (None), they
// are those that it begins with, `base`.
fn current_lines<'a>(base: &'a [Derived], lines: &'a Option<Vec<Derived>>) -> &'a [Derived]
    ensures { result.now ≡ so_far base.now lines.now }
{
    match lines {
        Some(lines) => lines.as_slice(),
        None => base,
    }
}

// Equal lines with the same origins: the system of no field has copies of the reduced edits.
fn copy_all(alloc: Global, lines: &[Derived]) -> Result<Vec<Derived>, OutOfMemory>
    ensures { IfOk result (λ v. v.items ≡ lines.now) }
{
    let mut copies = Vec::with_capacity(alloc, lines.len())?;
    for line in lines {
        copies.push(line.copy(alloc)?)?;
    }
    Ok(copies)
}

// The lines of the fold after the field is looked at. If it is numerical and in the set, they are those
// of the step at it; else they stay. None stands for the lines that the fold begins with, `base`, which
// are not copied.
fn next_lines<L: Ledger>(
    alloc: Global,
    base: &[Derived],
    lines: Option<Vec<Derived>>,
    field: ShapeField,
    fields: FieldSet,
    steps: &mut Steps<L>,
) -> Result<Option<Vec<Derived>>, SystemFault>
    requires shape { OneShape (so_far base.now lines) }
    requires own { AreOwn (lines_of (so_far base.now lines)) }
    requires field { field.number < 64 }
    ensures exact { Answers (λ next. so_far base.now next) told_system result
        (fold_result (so_far base.now lines) (next_fields fields field.number field.codes)) }
    ensures counted { OnOk result (steps.new
        ≡ steps.old + fold_count (so_far base.now lines) (next_fields fields field.number field.codes)) }
    ensures few { steps.new ≤ steps.old + fold_count (so_far base.now lines) (next_fields fields field.number field.codes) }
    ensures counts { steps.old ≤ steps.new }
{
    if field.codes > 0 || !fields.has(field.number) {
        return Ok(lines);
    }
    match reduced_step(alloc, current_lines(base, &lines), field.number, steps) {
        Ok(next) => Ok(Some(next)),
        Err(fault) => Err(at_field(fault, field.number)),
    }
}
