//! The steps that are written so far for a proof, found by the elements that they prove. An element is
//! named by how many lists were derived before its own, and its place there, both from 0.
ghost use Rattle.std.specs.Prelude.{◌≡◌, ◌++◌, ◌∷◌, [], IfOk, OnOk, false, map};
ghost use Rattle.edit_paths.specs.Histories.{has_step, step_number};

use crate::making::Written;
use derivation::Step;
use foundation::{OutOfMemory, Sequence};
use std::alloc::Global;
use std::collections::BTreeMap;
use std::marker::Model;

/// Steps, each with the element that it proves, in order, and their numbers by element.
#[derive(Drop)]
pub(crate) struct StepList {
    written: Vec<Written>,
    numbers: BTreeMap<(u64, u64), u64>,
}

impl Model for StepList {
    ghost use Rattle.std.specs.Prelude.{List};
    ghost use Rattle.edit_paths.specs.declared.making.Written.{Written as Step};
    ghost use Rattle.edit_paths.specs.inner.Writing.{HasNumbers};

    ghost Value = { List Step };

    ghost view = { λ s. s.written.items };

    ghost invariant = { λ s. HasNumbers s.numbers s.written.items };
}

impl StepList {
    /// No steps: a proof begins with these. No memory.
    pub(crate) fn new(alloc: Global) -> StepList
        ensures { result ≡ [] }
    {
        StepList {
            written: Vec::new(alloc),
            numbers: BTreeMap::new(alloc),
        }
    }

    /// Whether the element has a step, so that none is written again. No memory.
    pub(crate) fn has(&self, element: (u64, u64)) -> bool
        ensures { result ≡ has_step element self.now }
    {
        self.numbers.contains_key(&element)
    }

    /// The number of the element's step, from 0, by which later steps name it. Where it has none, this is the
    /// count of the steps. No memory.
    pub(crate) fn number_of(&self, element: (u64, u64)) -> u64
        ensures { result ≡ step_number self.now element }
    {
        match self.numbers.get(&element) {
            Some(number) => *number,
            None => self.written.len() as u64,
        }
    }

    /// Appends the step of an element that has none; on a refusal of memory the list is as before.
    pub(crate) fn push(&mut self, element: (u64, u64), step: Step) -> Result<(), OutOfMemory>
        requires { has_step element self.old ≡ false }
        ensures { OnOk result (self.new ≡ self.old ++ record { element = element; step = step } ∷ []) }
    {
        let number = self.written.len() as u64;
        self.written.push(Written { element, step })?;
        match self.numbers.insert(element, number) {
            Ok(_) => Ok(()),
            Err(_) => {
                self.written.pop();
                Err(OutOfMemory)
            }
        }
    }

    /// The steps alone, in their order, without the elements that they prove.
    pub(crate) fn into_steps(self, alloc: Global) -> Result<Sequence<Step>, OutOfMemory>
        ensures { IfOk result (λ steps. steps ≡ map (λ w. w.step) self) }
    {
        let steps = self.written.into_iter().map(|one| one.step).collect(alloc)?;
        Ok(Sequence::from_vec(steps))
    }
}
