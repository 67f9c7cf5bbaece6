//! Systems that are found in the pool, or else made and published. In contracts, `WalksThenObtains` says
//! that the reader walks on first. Then the system is shared with the pool, or the caller's own where the
//! reader is full. `Knows` says that the reader has walked the system without these fields. `pairs_at` is
//! how many pairs a fold from the edits combines.
ghost use Rattle.std.specs.Prelude.{◌≡◌, ◌+◌, ◌≤◌, ℕ, IfOk, OnErr};
ghost use Rattle.std.specs.Arc.{arc_value};
ghost use Rattle.edit_model.specs.FieldSets.{with_number};
ghost use Rattle.edit_line.specs.Shapes.{IsNumerical};
ghost use Rattle.linear_elim.specs.Answers.{Answers};
ghost use Rattle.linear_elim.specs.Helds.{system_held};
ghost use Rattle.linear_elim.specs.LastFields.{IsFirstOf, IsPast};
ghost use Rattle.linear_elim.specs.Steps.{pairs_count};
ghost use Rattle.linear_elim.specs.Systems.{AreNumerical, pairs_at, system_at};
ghost use Rattle.linear_elim.specs.Told.{told_system};
ghost use Rattle.shared_edits.specs.Pools.{IsReaderOf, Knows};
ghost use Rattle.shared_edits.specs.Walks.{IsKept, WalksThenObtains, HasWalkedOn};

use crate::pool::Pool;
use crate::publication::{PublishFault, Published};
use crate::reader::Reader;
use edit_model::FieldSet;
use foundation::{OutOfMemory, Steps};
use linear_elim::{Held, System, SystemFault, extend};
use std::alloc::Global;
use std::sync::ledger::Ledger;
use std::sync::{Arc, Wait};

impl Pool {
    /// The system of the pool's edits without these numerical fields. The fault is the first overflow, as
    /// `fold_system` tells it, or want of memory. The reader first walks what others published. A system
    /// that it then knows is shared. Another is made and published; where the reader is full, it is the
    /// caller's own. No step is counted for first fields of the set whose system the reader knew before.
    pub fn obtain<R: Wait, L: Ledger>(
        &self,
        rt: &R,
        alloc: Global,
        reader: &mut Reader,
        fields: FieldSet,
        steps: &mut Steps<L>,
    ) -> Result<Held, SystemFault>
        requires numerical { AreNumerical self.now.edits.shape fields }
        requires reader { IsReaderOf self.now reader.old }
        ensures reader { IsReaderOf self.now reader.new }
        ensures edits { IfOk result (λ held. (system_held held).edits ≡ self.now.edits) }
        ensures fields { IfOk result (λ held. (system_held held).fields ≡ fields) }
        ensures exact { Answers (λ held. (system_held held).lines) told_system result (system_at self.now.edits fields) }
        ensures obtained { IfOk result (λ held. WalksThenObtains self.now fields reader.old held reader.new) }
        ensures refused { OnErr result (HasWalkedOn reader.old reader.new) }
        ensures few { steps.new ≤ steps.old + pairs_at self.now.edits fields }
        ensures onwards { (first : ℕ) → IsFirstOf first fields → Knows self.now first reader.old
            → steps.new + pairs_at self.now.edits first ≤ steps.old + pairs_at self.now.edits fields }
        ensures known { Knows self.now fields reader.old → steps.new ≡ steps.old }
        ensures counts { steps.old ≤ steps.new }
    {
        if let Some(system) = self.find(reader, fields) {
            return Ok(Held::Shared(share(system)?));
        }
        match self.make(alloc, &reader.walked, fields, steps) {
            Ok(system) => Ok(self.publish_or_keep(rt, alloc, reader, system)?),
            Err(fault) => Err(fault),
        }
    }

    /// The system without one numerical field more than `before`; the fault is the overflow, or want of
    /// memory. The field's number is above those of all fields of `before`. The reader first walks what
    /// others published, and a system that it then knows is shared. Another is made from `before` by one
    /// step, and published; where the reader is full, it is the caller's own.
    pub fn obtain_after<R: Wait, L: Ledger>(
        &self,
        rt: &R,
        alloc: Global,
        reader: &mut Reader,
        before: &System,
        field: u32,
        steps: &mut Steps<L>,
    ) -> Result<Held, SystemFault>
        requires edits { before.now.edits ≡ self.now.edits }
        requires numerical { IsNumerical self.now.edits.shape field }
        requires past { IsPast before.now.fields field }
        requires reader { IsReaderOf self.now reader.old }
        ensures reader { IsReaderOf self.now reader.new }
        ensures edits { IfOk result (λ held. (system_held held).edits ≡ self.now.edits) }
        ensures fields { IfOk result (λ held. (system_held held).fields ≡ with_number before.now.fields field) }
        ensures exact { Answers (λ held. (system_held held).lines) told_system result
            (system_at self.now.edits (with_number before.now.fields field)) }
        ensures obtained { IfOk result
            (λ held. WalksThenObtains self.now (with_number before.now.fields field) reader.old held reader.new) }
        ensures refused { OnErr result (HasWalkedOn reader.old reader.new) }
        ensures few { steps.new ≤ steps.old + pairs_count before.now.lines field }
        ensures known { Knows self.now (with_number before.now.fields field) reader.old → steps.new ≡ steps.old }
        ensures counts { steps.old ≤ steps.new }
    {
        if let Some(system) = self.find(reader, before.fields_with(field)) {
            return Ok(Held::Shared(share(system)?));
        }
        match extend(alloc, before, field, steps) {
            Ok(system) => Ok(self.publish_or_keep(rt, alloc, reader, system)?),
            Err(fault) => Err(fault),
        }
    }

    // Publishes a system that was made, and gives the caller a share of it. Where the reader is full, it is
    // not published, and is the caller's own. Refused for want of memory, where the reader is as before.
    fn publish_or_keep<R: Wait>(
        &self,
        rt: &R,
        alloc: Global,
        reader: &mut Reader,
        system: System,
    ) -> Result<Held, OutOfMemory>
        requires reader { IsReaderOf self.now reader.old }
        requires edits { system.edits ≡ self.now.edits }
        ensures reader { IsReaderOf self.now reader.new }
        ensures held { IfOk result (λ held. system_held held ≡ system) }
        ensures kept { IfOk result (λ held. IsKept held reader.old reader.new) }
        ensures refused { OnErr result (reader.new ≡ reader.old) }
    {
        match self.publish(rt, alloc, reader, system) {
            Ok(Published::Stored(shared)) => Ok(Held::Shared(shared)),
            Ok(Published::Full(system)) => Ok(Held::Own(system)),
            Err(PublishFault::OutOfMemory(_)) => Err(OutOfMemory),
        }
    }
}

// The same system with one more owner: its lines are not copied.
fn share(system: &Arc<System>) -> Result<Arc<System>, OutOfMemory>
    ensures { IfOk result (λ other. arc_value other ≡ arc_value system.now) }
{
    Ok(Arc::try_clone(system)?)
}
