//! Systems that a reader does not know. Each is made from the known system of the most first fields of its
//! set. In contracts, `Answers` says that a call gives the lines that the definition has, or tells its first
//! overflow. `Knows` says that the reader has walked the system without these fields, and `IsFirstOf` that
//! one set has the first fields of the other. `pairs_at` is how many pairs a fold from the edits combines.
ghost use Rattle.std.specs.Prelude.{◌≡◌, ◌+◌, ◌≤◌, ℕ, IfOk, map};
ghost use Rattle.edit_model.specs.FieldSets.{without_number};
ghost use Rattle.linear_elim.specs.Answers.{Answers};
ghost use Rattle.linear_elim.specs.LastFields.{IsFirstOf, IsLast};
ghost use Rattle.linear_elim.specs.Systems.{AreNumerical, pairs_at, system_at};
ghost use Rattle.linear_elim.specs.Told.{told_system};
ghost use Rattle.shared_edits.specs.Pools.{IsReaderOf, Knows};
ghost use Rattle.shared_edits.specs.inner.Entries.{walked_of};

use crate::pool::Pool;
use crate::walked_entries::WalkedEntries;
use edit_model::FieldSet;
use foundation::Steps;
use linear_elim::{System, SystemFault, extend, fold_system, last_field};
use std::alloc::Global;
use std::sync::ledger::Ledger;

impl Pool {
    /// The system of the pool's edits without these numerical fields, which the reader does not know. It is
    /// made from the known system of the most first fields of the set, by a step for each field past
    /// these. Where none is known, the edits are the start. The fault is the first overflow of a step, or
    /// want of memory.
    pub(crate) fn make<L: Ledger>(
        &self,
        alloc: Global,
        entries: &WalkedEntries,
        fields: FieldSet,
        steps: &mut Steps<L>,
    ) -> Result<System, SystemFault>
        requires numerical { AreNumerical self.now.edits.shape fields }
        requires entries { IsReaderOf self.now (map walked_of entries.now) }
        requires unknown { ¬ Knows self.now fields (map walked_of entries.now) }
        ensures edits { IfOk result (λ system. system.edits ≡ self.now.edits) }
        ensures fields { IfOk result (λ system. system.fields ≡ fields) }
        ensures exact { Answers (λ system. system.lines) told_system result (system_at self.now.edits fields) }
        ensures few { steps.new ≤ steps.old + pairs_at self.now.edits fields }
        ensures onwards { (first : ℕ) → IsFirstOf first fields → Knows self.now first (map walked_of entries.now)
            → steps.new + pairs_at self.now.edits first ≤ steps.old + pairs_at self.now.edits fields }
        ensures counts { steps.old ≤ steps.new }
    {
        let Some(last) = last_field(self.edits(), fields) else {
            return fold_system(alloc, self.edits(), fields, steps);
        };
        let others = fields.without(last);
        if let Some(system) = self.known_system(entries, others) {
            return with_last(alloc, system, fields, last, steps);
        }
        match self.make(alloc, entries, others, steps) {
            Ok(system) => with_last(alloc, &system, fields, last, steps),
            Err(fault) => Err(fault),
        }
    }
}

// The system without the fields of the set, by one step from `others`, which is without all of them but
// `last`, the greatest. The fault is the overflow of that step, or want of memory.
fn with_last<L: Ledger>(
    alloc: Global,
    others: &System,
    fields: FieldSet,
    last: u32,
    steps: &mut Steps<L>,
) -> Result<System, SystemFault>
    requires numerical { AreNumerical others.now.edits.shape fields }
    requires last { IsLast fields last }
    requires others { others.now.fields ≡ without_number fields last }
    ensures edits { IfOk result (λ system. system.edits ≡ others.now.edits) }
    ensures fields { IfOk result (λ system. system.fields ≡ fields) }
    ensures exact { Answers (λ system. system.lines) told_system result (system_at others.now.edits fields) }
    ensures few { steps.new + pairs_at others.now.edits (without_number fields last) ≤ steps.old + pairs_at others.now.edits fields }
    ensures counts { steps.old ≤ steps.new }
{
    extend(alloc, others, last, steps)
}
