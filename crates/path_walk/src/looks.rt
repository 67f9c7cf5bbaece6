//! A look into one path: its work, what becomes of it, and the basis from which the paths with one letter
//! more are looked into. A letter says of one field whether it is kept (false) or changed (true).
//!
//! In contracts, `TellsLook` says that a look is the path's, with at most the work that is allowed.
//! `serves` has the edits whose systems the source gives. `KeepsChanged` says that it keeps the system of
//! the numerical fields that a path changes, and `KeepsOpen` that it does where the path is open.
ghost use Rattle.std.specs.Prelude.{◌≡◌, ℕ, ◌<◌, ◌≤◌, ◌+◌, IfOk, IfNone, IfSome, length, true};
ghost use Rattle.edit_line.specs.EditSets.{EditsParts};
ghost use Rattle.edit_paths.specs.Paths.{before_last, field_count};
ghost use Rattle.edit_paths.specs.States.{IsOpen};
ghost use Rattle.edit_paths.specs.Works.{work_of};
ghost use Rattle.path_walk.specs.Bases.{IsBasisBefore, IsSame, SharesBasis, has_basis, size_of};
ghost use Rattle.path_walk.specs.KeptFields.{KeepsChanged};
ghost use Rattle.path_walk.specs.Looks.{KeepsOpen, TellsLook};
ghost use Rattle.path_walk.specs.Problems.{IsProblem, case_in, edits_in};

use crate::code_paths::look_at_codes;
use crate::number_paths::{NumberPath, look_at_numbers};
use crate::problem::Problem;
use bound_cert::Path;
use categ_combine::BoxFrom;
use edit_paths::PathState;
use foundation::{OutOfMemory, Sequence, Steps};
use linear_elim::{Held, Systems};
use std::alloc::Global;
use std::sync::Arc;
use std::sync::ledger::Ledger;

/// What is made of a path, for the looks into the paths with one letter more, and for the steps of a proof.
/// These are the lines of its system, or, where it says something of all numerical fields, its boxes.
#[derive(Drop)]
pub enum Basis {
    /// The lines of the path's system.
    Lines(Arc<Held>),
    /// The path's boxes.
    Boxes(Arc<Sequence<BoxFrom>>),
}

impl Basis {
    /// The basis, owned once more: its lines or boxes are not copied.
    pub fn share(&self) -> Result<Basis, OutOfMemory>
        ensures { IfOk result (λ other. IsSame self.now other) }
    {
        match self {
            Basis::Lines(system) => Ok(Basis::Lines(Arc::try_clone(system)?)),
            Basis::Boxes(boxes) => Ok(Basis::Boxes(Arc::try_clone(boxes)?)),
        }
    }

    // How many lines or boxes it has, which is the room that it takes. No memory.
    fn element_count(&self) -> usize
        ensures { result ≡ size_of self.now }
    {
        match self {
            Basis::Lines(system) => system.system().lines().len(),
            Basis::Boxes(boxes) => boxes.as_slice().len(),
        }
    }
}

/// What a look into a path tells: its work, what becomes of it, and its basis, where one is made.
#[derive(Drop)]
pub struct Look {
    pub work: u64,
    pub state: PathState,
    pub basis: Basis,
}

impl Look {
    /// Its basis, shared, so that it is kept for the certificate. `room` is how many further lines and
    /// boxes may be kept; it is made smaller by those of the basis. None where the look has no basis of
    /// the path's own, or the basis has more than the room; then the room stays.
    pub fn kept_basis(&self, room: &mut usize) -> Result<Option<Basis>, OutOfMemory>
        ensures { IfOk result (λ kept. IfSome kept (SharesBasis self.now room.old room.new)) }
    {
        let size = self.basis.element_count();
        if !has_basis(self.state) || size > *room {
            return Ok(None);
        }
        *room -= size;
        Ok(Some(self.basis.share()?))
    }
}

// Whether a look into a path of this state has the path's own basis. Where a path keeps a field without a
// value, or a number leaves the range, none is made.
fn has_basis(state: PathState) -> bool
    ensures { result ≡ has_basis state }
{
    !matches!(state, PathState::ClosedBad | PathState::Overflows(_))
}

/// Looks into the path: tells its work, its state and its basis. None exactly where its work is more than
/// `most`. `before` is the basis of the path before its last letter; for the empty path, the lines of the
/// edits. The source gives the derived systems, and `steps` counts the pairs of lines combined for them.
pub fn look_into<S: Systems, L: Ledger>(
    alloc: Global,
    source: &mut S,
    problem: &Problem,
    path: &Path,
    before: &Basis,
    most: u64,
    steps: &mut Steps<L>,
) -> Result<Option<Look>, OutOfMemory>
    requires problem { IsProblem problem.now }
    requires served { S.serves source.old (edits_in problem.now) }
    requires fit { length path.now ≤ field_count (case_in problem.now) }
    requires reached { 0 < length path.now → IsOpen (case_in problem.now) (before_last path.now) }
    requires basis { IsBasisBefore (case_in problem.now) path.now before.now }
    requires before { KeepsChanged (S.keeps source.old) (case_in problem.now) (before_last path.now) }
    ensures passed { IfOk result (λ told. IfNone told (most < work_of (case_in problem.now) path.now)) }
    ensures look { IfOk result (TellsLook (case_in problem.now) path.now most) }
    ensures kept { IfOk result (KeepsOpen (S.keeps source.new) (case_in problem.now) path.now) }
    ensures serves { (e : EditsParts) → S.serves source.old e → S.serves source.new e }
    ensures keeps { (f : ℕ) → S.keeps source.old f ≡ true → S.keeps source.new f ≡ true }
    ensures counts { steps.old ≤ steps.new }
{
    if most == 0 {
        return Ok(None);
    }
    match before {
        Basis::Lines(system) => {
            let at = NumberPath {
                path,
                before: system,
            };
            look_at_numbers(alloc, source, problem, at, most, steps)
        }
        Basis::Boxes(boxes) => {
            look_at_codes(alloc, problem, path.letters(), boxes.as_slice(), most)
        }
    }
}
