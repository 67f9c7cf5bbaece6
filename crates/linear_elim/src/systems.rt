//! Sources of derived systems, as the search asks for them: a source may keep systems and share them, and
//! `Recompute` keeps none.
//!
//! In contracts, `Answers` says that a call gives the lines that the definition has, or tells its first
//! overflow. `serves` has the edits whose systems a source gives, and `keeps` the sets of fields whose
//! systems it keeps. What a source serves or keeps it goes on serving or keeping.
ghost use Rattle.std.specs.Prelude.{◌≡◌, ◌+◌, ◌≤◌, ℕ, Bool, true, IfOk, OnOk};
ghost use Rattle.std.specs.Arc.{arc_value};
ghost use Rattle.edit_model.specs.FieldSets.{with_number};
ghost use Rattle.edit_line.specs.EditSets.{EditsParts};
ghost use Rattle.edit_line.specs.Shapes.{IsNumerical};
ghost use Rattle.linear_elim.specs.Answers.{Answers};
ghost use Rattle.linear_elim.specs.Helds.{system_held};
ghost use Rattle.linear_elim.specs.LastFields.{IsPast};
ghost use Rattle.linear_elim.specs.Steps.{pairs_count};
ghost use Rattle.linear_elim.specs.Systems.{AreNumerical, pairs_at, system_at};
ghost use Rattle.linear_elim.specs.Told.{told_system};

use crate::extension::extend;
use crate::fault::SystemFault;
use crate::fold::fold_system;
use crate::held::Held;
use crate::system::System;
use edit_line::Edits;
use edit_model::FieldSet;
use foundation::Steps;
use std::alloc::Global;
use std::sync::Arc;
use std::sync::ledger::Ledger;

/// A source of derived systems. It may keep some, and then need not fold them again; what it answers is
/// always what [`fold_system`] answers.
pub trait Systems {
    /// The edits whose systems it gives.
    ghost serves: { Self → EditsParts → Type 0 };

    /// The sets of numerical fields, as bits, whose systems it keeps, so that they are not folded again.
    /// For one that keeps none, as [`Recompute`], these may be all sets.
    ghost keeps: { Self → ℕ → Bool };

    /// The system of the edits without the fields, which are all numerical, or the overflow at which its
    /// fold stops. At most one step is counted for each pair that the fold combines.
    fn system<L: Ledger>(
        &mut self,
        alloc: Global,
        edits: &Arc<Edits>,
        fields: FieldSet,
        steps: &mut Steps<L>,
    ) -> Result<Held, SystemFault>
        requires numerical { AreNumerical (arc_value edits.now).shape fields }
        requires served { serves self.old (arc_value edits.now) }
        ensures edits { IfOk result (λ held. (system_held held).edits ≡ arc_value edits.now) }
        ensures fields { IfOk result (λ held. (system_held held).fields ≡ fields) }
        ensures exact { Answers (λ held. (system_held held).lines) told_system result (system_at (arc_value edits.now) fields) }
        ensures few { steps.new ≤ steps.old + pairs_at (arc_value edits.now) fields }
        ensures counts { steps.old ≤ steps.new }
        ensures serves { (e : EditsParts) → serves self.old e → serves self.new e }
        ensures keeps { (f : ℕ) → keeps self.old f ≡ true → keeps self.new f ≡ true }
        ensures kept { OnOk result (keeps self.new fields ≡ true) };

    /// The system with one numerical field more than `before`, whose number is above those of all its
    /// fields. It is what `system` answers for all these fields. At most one step is counted for each pair
    /// that the step from `before` combines.
    fn system_after<L: Ledger>(
        &mut self,
        alloc: Global,
        before: &System,
        field: u32,
        steps: &mut Steps<L>,
    ) -> Result<Held, SystemFault>
        requires numerical { IsNumerical before.now.edits.shape field }
        requires past { IsPast before.now.fields field }
        requires served { serves self.old before.now.edits }
        ensures edits { IfOk result (λ held. (system_held held).edits ≡ before.now.edits) }
        ensures fields { IfOk result (λ held. (system_held held).fields ≡ with_number before.now.fields field) }
        ensures exact { Answers (λ held. (system_held held).lines) told_system result
            (system_at before.now.edits (with_number before.now.fields field)) }
        ensures few { steps.new ≤ steps.old + pairs_count before.now.lines field }
        ensures counts { steps.old ≤ steps.new }
        ensures serves { (e : EditsParts) → serves self.old e → serves self.new e }
        ensures keeps { (f : ℕ) → keeps self.old f ≡ true → keeps self.new f ≡ true }
        ensures kept { OnOk result (keeps self.new (with_number before.now.fields field) ≡ true) };
}

/// The source that folds each system anew, and counts one step for each pair that its fold combines.
#[derive(Clone, Copy)]
pub struct Recompute;

impl Systems for Recompute {
    ghost use Rattle.std.specs.Prelude.{true};

    ghost serves = { λ _ _. Unit {0} };

    ghost keeps = { λ _ _. true };

    // The system without these fields: they are eliminated one after the other, from the reduced edits on.
    // `steps` rises by the pairs of lines that are combined. The fault is the first overflow, or want of
    // memory. The system is the caller's own, since nothing is kept.
    fn system<L: Ledger>(
        &mut self,
        alloc: Global,
        edits: &Arc<Edits>,
        fields: FieldSet,
        steps: &mut Steps<L>,
    ) -> Result<Held, SystemFault>
        requires { AreNumerical (arc_value edits.now).shape fields }
        ensures edits { IfOk result (λ held. (system_held held).edits ≡ arc_value edits.now) }
        ensures fields { IfOk result (λ held. (system_held held).fields ≡ fields) }
        ensures exact { Answers (λ held. (system_held held).lines) told_system result (system_at (arc_value edits.now) fields) }
        ensures counted { OnOk result (steps.new ≡ steps.old + pairs_at (arc_value edits.now) fields) }
        ensures few { steps.new ≤ steps.old + pairs_at (arc_value edits.now) fields }
        ensures counts { steps.old ≤ steps.new }
    {
        Ok(Held::Own(fold_system(alloc, edits, fields, steps)?))
    }

    // The system behind the one before, without one field more. The steps and the fault are as above, and the
    // system is the caller's own, too.
    fn system_after<L: Ledger>(
        &mut self,
        alloc: Global,
        before: &System,
        field: u32,
        steps: &mut Steps<L>,
    ) -> Result<Held, SystemFault>
        requires numerical { IsNumerical before.now.edits.shape field }
        requires past { IsPast before.now.fields field }
        ensures edits { IfOk result (λ held. (system_held held).edits ≡ before.now.edits) }
        ensures fields { IfOk result (λ held. (system_held held).fields ≡ with_number before.now.fields field) }
        ensures exact { Answers (λ held. (system_held held).lines) told_system result
            (system_at before.now.edits (with_number before.now.fields field)) }
        ensures counted { OnOk result (steps.new ≡ steps.old + pairs_count before.now.lines field) }
        ensures few { steps.new ≤ steps.old + pairs_count before.now.lines field }
        ensures counts { steps.old ≤ steps.new }
    {
        Ok(Held::Own(extend(alloc, before, field, steps)?))
    }
}
