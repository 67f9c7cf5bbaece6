//! The certificate of an outcome: the leaves of the tree of the paths that were taken. Each has the reason
//! why nothing below it has to be looked at. A letter of a path says of one field whether it is kept
//! (false) or changed (true).
//!
//! Below, `source` gives derived systems, and `steps` counts the pairs of lines that are combined for
//! them. In contracts, `serves` has the edits whose systems it gives, and `keeps` the sets of fields whose
//! systems it keeps. `IsProblem` says that a problem's parts fit, and `IsTaken` that a taken path has its
//! state and a basis that is right. `IsKnown` says that places are those of the taken paths. `IsKnownBasis`
//! says that a basis, if there is one, is the path's, and `HasListsBefore` that lists lead to what the path
//! before the last letter has. `leaves_below` has the leaves of the tree from a path on.
ghost use Rattle.std.specs.Prelude.{◌≡◌, ◌≤◌, ◌++◌, ℕ, IfOk, OnOk, length, true};
ghost use Rattle.std.specs.List.{AllByRecursion};
ghost use Rattle.std.specs.Option.{option_copied};
ghost use Rattle.edit_line.specs.EditSets.{EditsParts};
ghost use Rattle.edit_paths.specs.Certificates.{certificate_of, leaf};
ghost use Rattle.edit_paths.specs.Paths.{before_last, field_count};
ghost use Rattle.path_walk.specs.Bases.{IsKnownBasis};
ghost use Rattle.path_walk.specs.Lists.{HasListsBefore};
ghost use Rattle.path_walk.specs.Problems.{IsProblem, case_in, edits_in};
ghost use Rattle.localise_tree.specs.inner.Knowns.{IsKnown};
ghost use Rattle.localise_tree.specs.inner.Takens.{AddsClosed, IsTaken, leaves_below, taken_paths};

use crate::best_first::Taken;
use crate::known::{Known, places_of, taken_path};
use bound_cert::{Cert, Leaf, LeafWhy, Path};
use edit_paths::{Level, PathState, write_steps};
use foundation::{OutOfMemory, Sequence, Steps};
use linear_elim::Systems;
use path_walk::{Bases, Basis, Problem, field_count, push_lists};
use std::alloc::Global;
use std::sync::ledger::Ledger;

/// What a tree is made of: the problem, and the paths that were taken.
#[derive(Clone, Copy)]
struct Tree<'a> {
    problem: &'a Problem<'a>,
    known: &'a Known<'a>,
}

/// A walk through a tree: the letters of the path that it has come to, the lists that lead there, and the
/// leaves so far.
#[derive(Drop)]
struct TreeWalk {
    letters: Vec<bool>,
    levels: Vec<Level>,
    leaves: Vec<Leaf>,
}

/// The certificate of an outcome before which just these paths were taken: the leaves of their tree, letter
/// by letter, kept before changed.
pub(crate) fn certificate<S: Systems, L: Ledger>(
    alloc: Global,
    source: &mut S,
    problem: &Problem,
    taken: &[Taken],
    steps: &mut Steps<L>,
) -> Result<Cert, OutOfMemory>
    requires problem { IsProblem problem.now }
    requires served { S.serves source.old (edits_in problem.now) }
    requires taken { AllByRecursion (IsTaken (case_in problem.now)) taken.now }
    ensures leaves { IfOk result (λ cert. cert.leaves ≡ certificate_of (case_in problem.now) (taken_paths taken.now)) }
    ensures serves { (e : EditsParts) → S.serves source.old e → S.serves source.new e }
    ensures keeps { (f : ℕ) → S.keeps source.old f ≡ true → S.keeps source.new f ≡ true }
    ensures counts { steps.old ≤ steps.new }
{
    let known = Known {
        taken,
        places: places_of(alloc, taken)?,
    };
    let tree = Tree {
        problem,
        known: &known,
    };
    let mut walk = TreeWalk {
        letters: Vec::new(alloc),
        levels: Vec::new(alloc),
        leaves: Vec::new(alloc),
    };
    push_leaves(alloc, source, &tree, None, &mut walk, steps)?;
    Ok(Cert {
        leaves: Sequence::from_vec(walk.leaves),
    })
}

// Appends to `walk.leaves` the leaves of the tree from the path `walk.letters` on. A path that was not taken
// is a leaf by its weight. From an open one that lacks fields the call goes on with the next field kept, and
// then with it changed. Any other is a leaf where its state closes it. `walk.levels` has the lists that lead
// to the path before its last letter. `parent` is the basis of that path, and is made again where it is None.
// Letters and levels are afterwards as before.
fn push_leaves<S: Systems, L: Ledger>(
    alloc: Global,
    source: &mut S,
    tree: &Tree,
    parent: Option<&Basis>,
    walk: &mut TreeWalk,
    steps: &mut Steps<L>,
) -> Result<(), OutOfMemory>
    requires problem { IsProblem tree.now.problem.now }
    requires served { S.serves source.old (edits_in tree.now.problem.now) }
    requires known { IsKnown tree.now.known.now }
    requires taken { AllByRecursion (IsTaken (case_in tree.now.problem.now)) tree.now.known.now.taken.now }
    requires fit { length walk.old.letters.items ≤ field_count (case_in tree.now.problem.now) }
    requires parent { IsKnownBasis (case_in tree.now.problem.now) (before_last walk.old.letters.items) (option_copied parent) }
    requires before { HasListsBefore (case_in tree.now.problem.now) walk.old.letters.items walk.old.levels.items }
    ensures letters { OnOk result (walk.new.letters.items ≡ walk.old.letters.items) }
    ensures levels { OnOk result (walk.new.levels.items ≡ walk.old.levels.items) }
    ensures leaves { OnOk result
        (walk.new.leaves.items ≡ walk.old.leaves.items ++ leaves_below (case_in tree.now.problem.now)
        (taken_paths tree.now.known.now.taken.now) walk.old.letters.items) }
    ensures serves { (e : EditsParts) → S.serves source.old e → S.serves source.new e }
    ensures keeps { (f : ℕ) → S.keeps source.old f ≡ true → S.keeps source.new f ≡ true }
    ensures counts { steps.old ≤ steps.new }
{
    let Some(taken) = taken_path(tree.known, &walk.letters) else {
        push_leaf(alloc, &walk.letters, LeafWhy::Bound, &mut walk.leaves)?;
        return Ok(());
    };
    let before = walk.levels.len();
    let own = taken.basis.as_ref();
    push_lists(
        alloc,
        source,
        tree.problem,
        &walk.letters,
        Bases { own, parent },
        &mut walk.levels,
        steps,
    )?;
    if taken.state.is_open() && walk.letters.len() < field_count(tree.problem) {
        walk.letters.push(false)?;
        push_leaves(alloc, source, tree, own, walk, steps)?;
        walk.letters.pop();
        walk.letters.push(true)?;
        push_leaves(alloc, source, tree, own, walk, steps)?;
        walk.letters.pop();
        walk.levels.truncate(before);
        return Ok(());
    }
    push_closed(
        alloc,
        taken.state,
        &walk.letters,
        &walk.levels,
        &mut walk.leaves,
    )?;
    walk.levels.truncate(before);
    Ok(())
}

// Appends the leaf of the path of these letters, if this state closes it. `levels` are the lists from which the
// steps of its reason are written. A state that closes nothing, open or an overflow, adds no leaf.
fn push_closed(
    alloc: Global,
    state: PathState,
    letters: &[bool],
    levels: &[Level],
    leaves: &mut Vec<Leaf>,
) -> Result<(), OutOfMemory>
    ensures { OnOk result (AddsClosed letters.now state levels.now leaves.old.items leaves.new.items) }
{
    match state {
        PathState::Open | PathState::Overflows(_) => Ok(()),
        PathState::ClosedBad => push_leaf(alloc, letters, LeafWhy::BadKept, leaves),
        PathState::ClosedLine(place) => {
            let proof = write_steps(alloc, levels, place)?;
            push_leaf(alloc, letters, LeafWhy::Line(proof), leaves)
        }
        PathState::ClosedBox(place) => {
            let proof = write_steps(alloc, levels, place)?;
            push_leaf(alloc, letters, LeafWhy::Box(proof), leaves)
        }
    }
}

// Appends a leaf to the certificate's leaves: the path of these letters, copied, with this reason.
fn push_leaf(
    alloc: Global,
    letters: &[bool],
    why: LeafWhy,
    leaves: &mut Vec<Leaf>,
) -> Result<(), OutOfMemory>
    ensures { OnOk result (leaves.new.items ≡ leaves.old.items ++ leaf letters.now why) }
{
    let path = Path::new(Vec::from_slice(alloc, letters)?);
    leaves.push(Leaf { path, why })?;
    Ok(())
}
