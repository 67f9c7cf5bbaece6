//! A derived system with one field more eliminated, from the system without it: what spares folding from
//! the edits anew.
//!
//! In contracts, `Answers` says that a call gives the lines that the definition has, or tells its first
//! overflow. `TellsOverflow` says that a fault is that overflow. `IsMade` says that a system's lines are
//! those of the fold, with all that holds of them.
ghost use Rattle.std.specs.Prelude.{◌≡◌, ◌+◌, ◌≤◌, IfErr, IfOk, OnOk, Ok};
ghost use Rattle.edit_model.specs.FieldSets.{with_number};
ghost use Rattle.edit_line.specs.Shapes.{IsNumerical};
ghost use Rattle.linear_elim.specs.Answers.{Answers};
ghost use Rattle.linear_elim.specs.LastFields.{IsPast};
ghost use Rattle.linear_elim.specs.Overflows.{TellsOverflow};
ghost use Rattle.linear_elim.specs.Parts.{IsMade, parts_of_system};
ghost use Rattle.linear_elim.specs.Steps.{pairs_count};
ghost use Rattle.linear_elim.specs.Systems.{pairs_at, system_at};
ghost use Rattle.linear_elim.specs.Told.{told_system};

use crate::elimination::reduced_step;
use crate::fault::{SystemFault, at_field};
use crate::system::System;
use edit_line::Derived;
use foundation::{OutOfMemory, Steps};
use std::alloc::Global;
use std::sync::Arc;
use std::sync::ledger::Ledger;

/// The derived system with one numerical field more, whose number is above those of the system's fields.
/// It takes one step, from the lines of the system. It answers as [`crate::fold_system`] does for all
/// these fields, and counts one step for each pair that this step combines.
pub fn extend<L: Ledger>(
    alloc: Global,
    system: &System,
    field: u32,
    steps: &mut Steps<L>,
) -> Result<System, SystemFault>
    requires numerical { IsNumerical system.now.edits.shape field }
    requires past { IsPast system.now.fields field }
    ensures edits { IfOk result (λ more. more.edits ≡ system.now.edits) }
    ensures fields { IfOk result (λ more. more.fields ≡ with_number system.now.fields field) }
    ensures made { IfOk result (λ more. IsMade more) }
    ensures exact { Answers (λ more. more.lines) told_system result (system_at system.now.edits (with_number system.now.fields field)) }
    ensures overflow { IfErr result (λ fault. TellsOverflow system.now.edits (with_number system.now.fields field) fault) }
    ensures counted { OnOk result (steps.new ≡ steps.old + pairs_count system.now.lines field) }
    ensures few { steps.new ≤ steps.old + pairs_count system.now.lines field }
    ensures counts { steps.old ≤ steps.new }
    ensures pairs { pairs_at system.now.edits (with_number system.now.fields field)
        ≡ pairs_at system.now.edits system.now.fields + pairs_count system.now.lines field }
{
    match reduced_step(alloc, system.lines(), field, steps) {
        Ok(lines) => Ok(system_with(system, field, lines)?),
        Err(fault) => Err(at_field(fault, field)),
    }
}

// The system that is without this field too. `lines` are what the step at the field made of the
// system's lines.
fn system_with(system: &System, field: u32, lines: Vec<Derived>) -> Result<System, OutOfMemory>
    requires numerical { IsNumerical system.now.edits.shape field }
    requires lines { system_at system.now.edits (with_number system.now.fields field) ≡ Ok lines.items }
    ensures system { IfOk result (λ more. more ≡ parts_of_system system.now.edits (with_number system.now.fields field) lines.items) }
    ensures made { IfOk result (λ more. IsMade more) }
{
    let edits = system.edits();
    let _lines = system.lines(); // read for what it says: the fields are numerical
    let _base = edits.reduced(); // and that the edits are over the survey's fields
    Ok(System::of(Arc::try_clone(edits)?, system.fields_with(field), lines))
}
