//! The table of a proof of version 2: the steps whose lines are written once, while it is gathered.
//!
//! In contracts `with_step` is the table once a step is put in, and `place_in` the place that the step has
//! there.
ghost use Rattle.std.specs.Prelude.{◌≡◌, [], IfOk, OnOk, map};
ghost use Rattle.derivation.specs.SharedLines.{place_in, with_step};
ghost use Rattle.proof_sharing.specs.inner.Tables.{step_of};

use crate::line_step::{LineStep, steps_of};
use derivation::Step;
use foundation::{OutOfMemory, Sequence};
use indexmap::IndexSet;
use std::alloc::Global;
use std::marker::Model;

/// Steps that each give a line, none twice, in the order in which they were put in. A step's place is found in
/// constant time.
#[derive(Drop)]
pub(crate) struct LineTable {
    steps: IndexSet<LineStep>,
}

impl Model for LineTable {
    ghost use Rattle.std.specs.Prelude.{List, map};
    ghost use Rattle.derivation.specs.declared.step.Step.{Step};
    ghost use Rattle.proof_sharing.specs.inner.Tables.{step_of};

    ghost Value = { List Step };

    ghost view = { λ t. map step_of t.steps.keys };
}

impl LineTable {
    /// The table without steps.
    pub(crate) fn new(alloc: Global) -> LineTable
        ensures { result ≡ [] }
    {
        LineTable {
            steps: IndexSet::new(alloc),
        }
    }

    /// The place, from 0, of this step in the table. A step that the table lacks is put at its end, so its
    /// place is the last.
    pub(crate) fn find_or_put(&mut self, step: LineStep) -> Result<u64, OutOfMemory>
        ensures table { OnOk result (self.new ≡ with_step self.old (step_of step)) }
        ensures place { IfOk result (λ place. place ≡ place_in self.old (step_of step)) }
    {
        let (place, _) = self.steps.insert_full(step)?;
        Ok(place as u64)
    }

    /// A copy of the steps, in the order in which they were put in, as the table of a proof of version 2.
    pub(crate) fn steps(&self, alloc: Global) -> Result<Sequence<Step>, OutOfMemory>
        ensures { IfOk result (λ steps. steps ≡ self.now) }
    {
        steps_of(alloc, self.steps.as_slice())
    }
}
