//! The best-first search for one record: the ends are taken by weight, and an open path leads on to two,
//! each with one letter more. A letter of a path says of one field whether it is kept (false) or changed
//! (true).
//!
//! Below, `source` gives derived systems, and `steps` counts the pairs of lines that are combined for
//! them. In contracts, `serves` has the edits whose systems it gives, and `keeps` the sets of fields whose
//! systems it keeps. `KeepsChange` says that at a change it keeps the system of the changed numerical
//! fields. `outcome_of` has the outcome that `edit_paths` defines.
ghost use Rattle.std.specs.Prelude.{◌≡◌, ◌≤◌, ℕ, IfOk, OnOk, true};
ghost use Rattle.std.specs.Arc.{arc_value};
ghost use Rattle.std.specs.List.{AllByRecursion};
ghost use Rattle.edit_line.specs.EditSets.{EditsParts};
ghost use Rattle.edit_line.specs.Shapes.{shape_of};
ghost use Rattle.edit_model.specs.Rows.{IsRow};
ghost use Rattle.edit_paths.specs.Cases.{case_of};
ghost use Rattle.edit_paths.specs.Certificates.{certificate_of};
ghost use Rattle.edit_paths.specs.Outcomes.{end_by, outcome_of};
ghost use Rattle.edit_paths.specs.Answers.{Certifies, ChoosesFirst, ChoosesLeast, FindsChange, IsBudgetEnough};
ghost use Rattle.edit_paths.specs.Answers.{NoneMeets, ShowsContradiction};
ghost use Rattle.edit_paths.specs.ReachedPaths.{AreInOrder, is_before};
ghost use Rattle.edit_paths.specs.Walks.{ends_after};
ghost use Rattle.path_walk.specs.Looks.{IsLook};
ghost use Rattle.path_walk.specs.Problems.{IsProblem, case_in, edits_in};
ghost use Rattle.localise_tree.specs.KeptFields.{KeepsChange};
ghost use Rattle.localise_tree.specs.inner.Nodes.{IsNode, StayKept, paths_of};
ghost use Rattle.localise_tree.specs.inner.Takens.{HasTaken, IsTaken, taken_for, taken_paths};

use crate::all_kept::find_unchanged;
use crate::certificates::certificate;
use crate::ends::{Node, first_end, lead_on, take_first};
use crate::task::Task;
use bound_cert::{Cert, Outcome, Path};
use edit_line::Edits;
use edit_model::{Row, Survey};
use edit_paths::{PathState, case_known};
use foundation::{OutOfMemory, Steps};
use linear_elim::Systems;
use path_walk::{Basis, Look, Problem, field_count, look_into};
use std::alloc::Global;
use std::collections::VecDeque;
use std::sync::Arc;
use std::sync::ledger::Ledger;

/// The most lines and boxes that are kept of the paths that were taken for a record. Those of further paths
/// are made again where the certificate needs them, so that the memory for a record stays bounded.
const MOST_KEPT: usize = 100_000;

/// A path that was taken, what became of it, and its basis, where there was room to keep that.
#[derive(Drop)]
pub(crate) struct Taken {
    pub(crate) path: Path,
    pub(crate) state: PathState,
    pub(crate) basis: Option<Basis>,
}

/// The paths that were taken, in order, and how many more lines and boxes may be kept of them.
#[derive(Drop)]
struct TakenPaths {
    paths: Vec<Taken>,
    room: usize,
}

/// A path that was reached, and its state.
#[derive(Clone, Copy)]
struct Reached<'a> {
    node: &'a Node,
    state: PathState,
}

/// The outcome of the record's search by these edits. The reached paths are taken by weight, and then
/// letter by letter. The first that is open and says something of all fields is the answer, with its
/// certificate. The search ends before a path with which the work would pass `budget`, and at a path for
/// which a number leaves the range. Where all are taken and none is the answer, the record is
/// contradictory. What the clauses `choice` to `found` say of it is said at `edit_paths::outcome_laws`.
pub fn localise<S: Systems, L: Ledger>(
    alloc: Global,
    source: &mut S,
    survey: &Survey,
    edits: &Arc<Edits>,
    row: &Row,
    budget: u64,
    steps: &mut Steps<L>,
) -> Result<Outcome, OutOfMemory>
    requires row { IsRow survey.now.fields row.now }
    requires shape { (arc_value edits.now).shape ≡ shape_of survey.now.fields }
    requires served { S.serves source.old (arc_value edits.now) }
    ensures exact { IfOk result (λ o. o ≡ outcome_of (case_of survey.now (arc_value edits.now) row.now) budget) }
    ensures choice { IfOk result (ChoosesFirst (case_of survey.now (arc_value edits.now) row.now)) }
    ensures least { IfOk result (ChoosesLeast survey.now (arc_value edits.now) row.now) }
    ensures certified { IfOk result (Certifies (case_of survey.now (arc_value edits.now) row.now)) }
    ensures contradictory { IfOk result (NoneMeets (case_of survey.now (arc_value edits.now) row.now)) }
    ensures refuted { IfOk result (ShowsContradiction (case_of survey.now (arc_value edits.now) row.now)) }
    ensures enough { IfOk result (IsBudgetEnough (case_of survey.now (arc_value edits.now) row.now) budget) }
    ensures found { IfOk result (FindsChange (case_of survey.now (arc_value edits.now) row.now) budget) }
    ensures kept { IfOk result (KeepsChange (S.keeps source.new) (case_of survey.now (arc_value edits.now) row.now)) }
    ensures serves { (e : EditsParts) → S.serves source.old e → S.serves source.new e }
    ensures keeps { (f : ℕ) → S.keeps source.old f ≡ true → S.keeps source.new f ≡ true }
    ensures counts { steps.old ≤ steps.new }
{
    case_known(survey, edits, row);
    let task = Task {
        survey,
        edits,
        row,
        budget,
    };
    find_outcome(alloc, source, &task, steps)
}

// The outcome of the task's record: nothing is searched where `find_unchanged` has it, and else it comes from
// the search.
fn find_outcome<S: Systems, L: Ledger>(
    alloc: Global,
    source: &mut S,
    task: &Task,
    steps: &mut Steps<L>,
) -> Result<Outcome, OutOfMemory>
    requires row { IsRow task.now.survey.now.fields task.now.row.now }
    requires shape { (arc_value task.now.edits.now).shape ≡ shape_of task.now.survey.now.fields }
    requires served { S.serves source.old (arc_value task.now.edits.now) }
    ensures exact { IfOk result (λ o. o ≡ outcome_of
        (case_of task.now.survey.now (arc_value task.now.edits.now) task.now.row.now) task.now.budget) }
    ensures kept { IfOk result (KeepsChange (S.keeps source.new)
        (case_of task.now.survey.now (arc_value task.now.edits.now) task.now.row.now)) }
    ensures serves { (e : EditsParts) → S.serves source.old e → S.serves source.new e }
    ensures keeps { (f : ℕ) → S.keeps source.old f ≡ true → S.keeps source.new f ≡ true }
    ensures counts { steps.old ≤ steps.new }
{
    if let Some(outcome) = find_unchanged(alloc, source, task, steps)? {
        return Ok(outcome);
    }
    case_known(task.survey, task.edits, task.row);
    let wholes = task.edits.shape().whole_sets(alloc)?;
    let problem = Problem {
        survey: task.survey,
        edits: task.edits,
        row: task.row,
        wholes: &wholes,
    };
    search(alloc, source, &problem, task.budget, steps)
}

// The outcome of the problem's record. The ends are the reached paths that are not yet taken. The first one is
// taken, again and again, until one ends the search or none is left. Of the taken paths at most `MOST_KEPT`
// lines and boxes are kept.
fn search<S: Systems, L: Ledger>(
    alloc: Global,
    source: &mut S,
    problem: &Problem,
    budget: u64,
    steps: &mut Steps<L>,
) -> Result<Outcome, OutOfMemory>
    requires problem { IsProblem problem.now }
    requires served { S.serves source.old (edits_in problem.now) }
    ensures exact { IfOk result (λ outcome. outcome ≡ outcome_of (case_in problem.now) budget) }
    ensures kept { IfOk result (KeepsChange (S.keeps source.new) (case_in problem.now)) }
    ensures serves { (e : EditsParts) → S.serves source.old e → S.serves source.new e }
    ensures keeps { (f : ℕ) → S.keeps source.old f ≡ true → S.keeps source.new f ≡ true }
    ensures counts { steps.old ≤ steps.new }
{
    let mut taken = TakenPaths {
        paths: Vec::new(alloc),
        room: MOST_KEPT,
    };
    let mut spent = 0;
    let mut ends = first_end(alloc, source, problem, steps)?;
    while let Some(node) = take_first(&mut ends) {
        let Some(look) = look_into(
            alloc,
            source,
            problem,
            &node.path,
            &node.before,
            budget - spent,
            steps,
        )?
        else {
            return Ok(Outcome::Budget {
                path: node.into_path(),
                work: spent,
            });
        };
        spent += look.work;
        let reached = Reached {
            node: &node,
            state: look.state,
        };
        if let Some(outcome) = end_by(alloc, source, problem, &taken.paths, reached, steps)? {
            return Ok(outcome);
        }
        take_up(alloc, problem, &mut ends, &mut taken, node, look)?;
    }
    Ok(Outcome::Contradictory {
        cert: certificate(alloc, source, problem, &taken.paths, steps)?,
    })
}

// Takes the node's path, with which the search goes on: the paths to which it leads are put among the ends, and
// the path stands behind those that were taken, with the look's basis, if there is room for that.
fn take_up(
    alloc: Global,
    problem: &Problem,
    ends: &mut VecDeque<Node>,
    taken: &mut TakenPaths,
    node: Node,
    look: Look,
) -> Result<(), OutOfMemory>
    requires problem { IsProblem problem.now }
    requires node { IsNode (case_in problem.now) node }
    requires look { IsLook (case_in problem.now) node.path look }
    requires ends { AllByRecursion (IsNode (case_in problem.now)) ends.old.items }
    requires order { AreInOrder (is_before (case_in problem.now).survey.fields) (paths_of ends.old.items) }
    ensures paths { OnOk result
        (paths_of ends.new.items ≡ ends_after (case_in problem.now) node.path (paths_of ends.old.items)) }
    ensures nodes { OnOk result (AllByRecursion (IsNode (case_in problem.now)) ends.new.items) }
    ensures kept { OnOk result
        (StayKept (case_in problem.now) node.path look.state ends.old.items ends.new.items) }
    ensures taken { OnOk result
        (HasTaken (case_in problem.now) node.path look.state taken.old.paths.items taken.new.paths.items) }
{
    let state = look.state;
    let basis = look.kept_basis(&mut taken.room)?;
    lead_on(alloc, problem, ends, &node, look)?;
    taken.paths.push(Taken {
        path: node.into_path(),
        state,
        basis,
    })?;
    Ok(())
}

// The outcome by which the path `end` ends the search, as its state says. A number leaves the range there, or
// the path is open and says something of all fields. None where the search goes on. `taken` has the paths that
// were taken before, of which a certificate is made.
fn end_by<S: Systems, L: Ledger>(
    alloc: Global,
    source: &mut S,
    problem: &Problem,
    taken: &[Taken],
    end: Reached,
    steps: &mut Steps<L>,
) -> Result<Option<Outcome>, OutOfMemory>
    requires problem { IsProblem problem.now }
    requires served { S.serves source.old (edits_in problem.now) }
    requires taken { AllByRecursion (IsTaken (case_in problem.now)) taken.now }
    requires node { IsNode (case_in problem.now) end.node.now }
    ensures end { IfOk result (λ told. told
        ≡ end_by (case_in problem.now) (taken_paths taken.now) end.entry.node.now.path end.entry.state) }
    ensures serves { (e : EditsParts) → S.serves source.old e → S.serves source.new e }
    ensures keeps { (f : ℕ) → S.keeps source.old f ≡ true → S.keeps source.new f ≡ true }
    ensures counts { steps.old ≤ steps.new }
{
    let node = end.node;
    match end.state {
        PathState::Overflows(event) => Ok(Some(Outcome::Overflow {
            path: copy_of(alloc, &node.path)?,
            event,
        })),
        PathState::Open if node.path.letters().len() == field_count(problem) => {
            Ok(Some(Outcome::Change {
                path: copy_of(alloc, &node.path)?,
                weight: node.weight,
                cert: change_certificate(alloc, source, problem, taken, node.weight, steps)?,
            }))
        }
        PathState::Open
        | PathState::ClosedBad
        | PathState::ClosedLine(_)
        | PathState::ClosedBox(_) => Ok(None),
    }
}

// A copy of the path for the outcome, since the path itself stays with its node.
fn copy_of(alloc: Global, path: &Path) -> Result<Path, OutOfMemory>
    ensures { IfOk result (λ copy. copy ≡ path.now) }
{
    Ok(Path::new(Vec::from_slice(alloc, path.letters())?))
}

// The certificate of a change of this weight, by the paths that were taken before it. A change that weighs
// nothing needs none of them, since no correction weighs less.
fn change_certificate<S: Systems, L: Ledger>(
    alloc: Global,
    source: &mut S,
    problem: &Problem,
    taken: &[Taken],
    weight: u64,
    steps: &mut Steps<L>,
) -> Result<Cert, OutOfMemory>
    requires problem { IsProblem problem.now }
    requires served { S.serves source.old (edits_in problem.now) }
    requires taken { AllByRecursion (IsTaken (case_in problem.now)) taken.now }
    ensures leaves { IfOk result (λ cert. cert.leaves ≡ certificate_of (case_in problem.now) (taken_for weight (taken_paths taken.now))) }
    ensures serves { (e : EditsParts) → S.serves source.old e → S.serves source.new e }
    ensures keeps { (f : ℕ) → S.keeps source.old f ≡ true → S.keeps source.new f ≡ true }
    ensures counts { steps.old ≤ steps.new }
{
    if weight > 0 {
        certificate(alloc, source, problem, taken, steps)
    } else {
        certificate(alloc, source, problem, &[], steps)
    }
}
