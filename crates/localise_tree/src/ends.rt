//! The ends of a search: the reached paths that are not yet taken. They stand in the order in which they
//! are taken, by weight and then letter by letter. A letter says of one field whether it is kept (false)
//! or changed (true).
//!
//! In contracts, `IsProblem` says that a problem's parts fit, and `IsNode` that a node's path is reached
//! and its weight and basis are right. `AreKept` and `StayKept` say that the source keeps the systems of
//! the paths before the ends. `IsPartitionedBy` says that those of the ends that pass a test stand in
//! front of the others.
ghost use Rattle.std.specs.Prelude.{◌≡◌, ℕ, ◌&&◌, ◌≤◌, ◌<◌, ◌++◌, [], ◌∷◌, IfNone, IfOk, IfSome, OnOk, if◌then◌else◌, length, not, true};
ghost use Rattle.std.specs.List.{AllByRecursion, insert};
ghost use Rattle.std.specs.List.Sorted.{IsPartitionedBy};
ghost use Rattle.edit_line.specs.EditSets.{EditsParts};
ghost use Rattle.edit_model.specs.Corrections.{is_first};
ghost use Rattle.edit_paths.specs.PathStates.{is_open};
ghost use Rattle.edit_paths.specs.Paths.{field_count, is_complete};
ghost use Rattle.edit_paths.specs.ReachedPaths.{AreInOrder, is_before, placed};
ghost use Rattle.edit_paths.specs.States.{state_of};
ghost use Rattle.edit_paths.specs.Walks.{ends_after};
ghost use Rattle.edit_paths.specs.declared.state.PathState.TheVariants.{Open};
ghost use Rattle.path_walk.specs.Bases.{IsBasis};
ghost use Rattle.path_walk.specs.Looks.{IsLook};
ghost use Rattle.path_walk.specs.Problems.{IsProblem, case_in, edits_in};
ghost use Rattle.localise_tree.specs.inner.Nodes.{AreKept, IsFirstEnd, IsNode, StayKept, before, paths_of, weight_in_order};

use bound_cert::Path;
use edit_paths::PathState;
use foundation::{OutOfMemory, Steps};
use linear_elim::{Held, SystemFault, Systems};
use path_walk::{Basis, Look, Problem, field_count, system_along};
use std::alloc::Global;
use std::collections::VecDeque;
use std::sync::Arc;
use std::sync::ledger::Ledger;

/// A reached path that is not yet taken, its weight, and the basis of the path before its last letter.
#[derive(Drop)]
pub(crate) struct Node {
    pub(crate) path: Path,
    pub(crate) weight: u64,
    pub(crate) before: Basis,
}

impl Node {
    /// Its path, moved out of the node, where the rest is needed no more. No memory.
    pub(crate) fn into_path(self) -> Path
        ensures { result ≡ self.path }
    {
        self.path
    }
}

/// The ends from which a search begins: the empty path alone, with the lines of the edits as its basis.
/// The source gives these, as the system of no field.
pub(crate) fn first_end<S: Systems, L: Ledger>(
    alloc: Global,
    source: &mut S,
    problem: &Problem,
    steps: &mut Steps<L>,
) -> Result<VecDeque<Node>, OutOfMemory>
    requires problem { IsProblem problem.now }
    requires served { S.serves source.old (edits_in problem.now) }
    ensures paths { IfOk result (λ ends. paths_of ends.items ≡ [] ∷ []) }
    ensures nodes { IfOk result (λ ends. AllByRecursion (IsNode (case_in problem.now)) ends.items) }
    ensures kept { IfOk result (λ ends. AreKept (S.keeps source.new) (case_in problem.now) ends.items) }
    ensures serves { (e : EditsParts) → S.serves source.old e → S.serves source.new e }
    ensures keeps { (f : ℕ) → S.keeps source.old f ≡ true → S.keeps source.new f ≡ true }
    ensures counts { steps.old ≤ steps.new }
{
    match system_along(alloc, source, problem, &[], steps) {
        Ok(held) => Ok(one_end(alloc, held)?),
        // no field is eliminated, so no number leaves the range
        Err(SystemFault::Overflow { .. } | SystemFault::OutOfMemory) => Err(OutOfMemory),
    }
}

// The list of one end, the empty path. Its basis is `held`, the system in which no field is eliminated.
fn one_end(alloc: Global, held: Held) -> Result<VecDeque<Node>, OutOfMemory>
    ensures { IfOk result (λ ends. IsFirstEnd held ends.items) }
{
    let before = Basis::Lines(Arc::new(alloc, held)?);
    let mut ends = VecDeque::new(alloc);
    ends.push_back(Node {
        path: Path::new(Vec::new(alloc)),
        weight: 0,
        before,
    })?;
    Ok(ends)
}

/// Takes the first end, which is that of least weight, out of the list; None where none is left. No memory.
pub(crate) fn take_first(ends: &mut VecDeque<Node>) -> Option<Node>
    ensures some { IfSome result (λ node. ends.old.items ≡ node ∷ ends.new.items) }
    ensures none { IfNone result (ends.old.items ≡ []) }
{
    ends.pop_front()
}

/// Puts the two paths with one letter more than the node's among the ends, in order; both have the look's
/// basis. Nothing is put there where the look found the node's path not open, or where this path says
/// something of all fields.
pub(crate) fn lead_on(
    alloc: Global,
    problem: &Problem,
    ends: &mut VecDeque<Node>,
    node: &Node,
    look: Look,
) -> Result<(), OutOfMemory>
    requires problem { IsProblem problem.now }
    requires node { IsNode (case_in problem.now) node.now }
    requires look { IsLook (case_in problem.now) node.now.path look }
    requires ends { AllByRecursion (IsNode (case_in problem.now)) ends.old.items }
    requires order { AreInOrder (is_before (case_in problem.now).survey.fields) (paths_of ends.old.items) }
    ensures paths { OnOk result
        (paths_of ends.new.items ≡ ends_after (case_in problem.now) node.now.path (paths_of ends.old.items)) }
    ensures nodes { OnOk result (AllByRecursion (IsNode (case_in problem.now)) ends.new.items) }
    ensures kept { OnOk result
        (StayKept (case_in problem.now) node.now.path look.state ends.old.items ends.new.items) }
{
    if !leads_on(problem, node, look.state) {
        return Ok(());
    }
    let kept = child(alloc, problem, node, false, look.basis.share()?)?;
    let changed = child(alloc, problem, node, true, look.basis)?;
    place_end(ends, kept)?;
    place_end(ends, changed)?;
    Ok(())
}

// Whether the node's path, of this state, leads on to longer ones: it is open, and does not say something
// of all fields.
fn leads_on(problem: &Problem, node: &Node, state: PathState) -> bool
    requires problem { IsProblem problem.now }
    ensures { result ≡ (is_open state && not (is_complete (case_in problem.now) node.now.path)) }
{
    state.is_open() && node.path.letters().len() != field_count(problem)
}

// The node of the path with one letter more than `node`'s, by which its next field is kept (`changed` false) or
// changed (true). `before` is the basis of the path without that letter.
fn child(
    alloc: Global,
    problem: &Problem,
    node: &Node,
    changed: bool,
    before: Basis,
) -> Result<Node, OutOfMemory>
    requires problem { IsProblem problem.now }
    requires node { IsNode (case_in problem.now) node.now }
    requires short { length node.now.path < field_count (case_in problem.now) }
    requires state { state_of (case_in problem.now) node.now.path ≡ Open }
    requires basis { IsBasis (case_in problem.now) node.now.path before }
    ensures path { IfOk result (λ more. more.path ≡ node.now.path ++ changed ∷ []) }
    ensures node { IfOk result (λ more. IsNode (case_in problem.now) more) }
{
    let letters = node.path.letters();
    let weight = node.weight + changed_weight(problem, letters.len(), changed);
    Ok(Node {
        path: Path::new(with_letter(alloc, letters, changed)?),
        weight,
        before,
    })
}

// What a letter at this place of the path order, from 0, adds to a path's weight. That is the field's weight
// where it is changed, and 0 where it is kept.
fn changed_weight(problem: &Problem, place: usize, changed: bool) -> u64
    requires problem { IsProblem problem.now }
    requires place { place < field_count (case_in problem.now) }
    ensures weight { result ≡ (if changed then weight_in_order problem.now.survey.now.fields place else 0) }
    ensures few { result ≤ 1000 }
{
    if !changed {
        return 0;
    }
    let fields = problem.survey.fields();
    u64::from(fields[problem.survey.path_field(place as u32) as usize].weight)
}

// A new list of the letters and one more behind them.
fn with_letter(alloc: Global, letters: &[bool], letter: bool) -> Result<Vec<bool>, OutOfMemory>
    ensures { IfOk result (λ more. more.items ≡ letters.now ++ letter ∷ []) }
{
    let mut more = Vec::with_capacity(alloc, letters.len() + 1)?;
    more.extend_from_slice(letters)?;
    more.push(letter)?;
    Ok(more)
}

// Puts the node among the ends, behind those that come before it by weight and letters. These stand in front of
// all others, so its place is found by halving. The list moves its shorter part.
fn place_end(ends: &mut VecDeque<Node>, node: Node) -> Result<(), OutOfMemory>
    requires { IsPartitionedBy (λ end. before end node) ends.old.items }
    ensures { OnOk result (ends.new.items ≡ placed before ends.old.items node) }
{
    let place = before_count(ends, &node);
    ends.insert(place, node)?;
    Ok(())
}

// How many of the ends come before the node, by weight and letters. They stand in front of all others, so this
// is the node's place.
fn before_count(ends: &VecDeque<Node>, node: &Node) -> usize
    requires { IsPartitionedBy (λ end. before end node.now) ends.now.items }
    ensures place { insert ends.now.items result node.now ≡ placed before ends.now.items node.now }
    ensures fits { result ≤ length ends.now.items }
{
    ends.partition_point(|end| comes_before(end, node))
}

// Whether the first path comes before the second, or is the same: the lighter one first, of equal weights
// letter by letter.
fn comes_before(first: &Node, second: &Node) -> bool
    ensures { result ≡ before first.now second.now }
{
    first.weight < second.weight
        || first.weight == second.weight && is_first(first.path.letters(), second.path.letters())
}

// Whether the first path comes before the second letter by letter, or is the same. Kept comes before
// changed, and a beginning of a path before the path.
fn is_first(first: &[bool], second: &[bool]) -> bool
    ensures { result ≡ is_first first.now second.now }
{
    for (place, letter) in first.iter().enumerate() {
        if second.len() <= place {
            return false;
        }
        if *letter != second[place] {
            return !*letter;
        }
    }
    true
}
