//! Whether one leaf of a proof tree stands where it has to, and whether its reason holds. In contracts,
//! `SaysOf` and `SaysOfPlace` say that the verdict is right. They also say that it names the first step
//! that is not valid, if there is one. `IsTask` says that a task's parts fit. A path has false for a kept
//! field and true for a changed one; steps are numbered from 0.
ghost use Rattle.std.specs.Prelude.{◌≡◌, ◌<◌, ◌≤◌, ◌==◌, IfOk, IsSomeAnd, None, Some, drop, if◌then◌else◌, length, option_map, true};
ghost use Rattle.std.specs.Bool.{Decides};
ghost use Rattle.edit_line.specs.Shapes.{shape_of};
ghost use Rattle.derivation.specs.Premises.{HasKept};
ghost use Rattle.derivation.specs.declared.proved.Proved.{Proved};
ghost use Rattle.bound_cert.specs.Paths.{path_weight};
ghost use Rattle.bound_cert.specs.Trees.{all_changed};
ghost use Rattle.bound_cert.specs.ValidTrees.{Refutes};
ghost use Rattle.bound_cert.specs.inner.Tasks.{IsTask, SaysOf, SaysOfPlace, case, premises_with, stands_right};
ghost use Rattle.bound_cert.specs.declared.cert.LeafWhy.{LeafWhy};
ghost use Rattle.bound_cert.specs.declared.verdict.Verdict.{Verdict};

use crate::cert::{Leaf, LeafWhy};
use crate::order::{changes_all, may_stand, path_before};
use crate::path::Path;
use crate::task::Task;
use crate::verdict::Verdict;
use derivation::{Proved, Step, StepsFault, check_steps, fails_at_kept};
use edit_line::Line;
use edit_model::{FieldSet, Survey};
use foundation::OutOfMemory;
use std::alloc::Global;

/// What is found of the leaf at this place: whether its path is the next of a full tree, and whether its
/// reason holds. Where the path is not the next, no step is named.
pub(crate) fn verdict_at(
    alloc: Global,
    task: &Task,
    leaves: &[Leaf],
    place: usize,
) -> Result<Verdict, OutOfMemory>
    requires task { IsTask task.now }
    requires place { place < length leaves.now }
    ensures { IfOk result (λ says. SaysOfPlace (case task.now) leaves.now place (drop place leaves.now) says) }
{
    let leaf = &leaves[place];
    let last = place + 1 == leaves.len();
    let before = path_before(leaves, place);
    if !is_right(task.survey, before, leaf.path.letters(), last) {
        return Ok(Verdict::Invalid(None));
    }
    leaf_verdict(alloc, task, &leaf.path, &leaf.why)
}

// Whether a leaf of this path stands where it has to. It is the next behind the path `before`, which is None
// for the first leaf, and no longer than there are fields. The `last` one ends the tree: it changes all its
// fields.
fn is_right(survey: &Survey, before: Option<&[bool]>, path: &[bool], last: bool) -> bool
    ensures { result ≡ stands_right (option_map (λ b. b.now) before.entry) path.now last (length survey.now.fields) }
{
    may_stand(before, path) && (may_end(path, last) && path.len() <= survey.fields().len())
}

// Whether the tree may end with this path, if it does: the `last` path of a full tree changes all its
// fields. Of any other path nothing is asked, and the answer is true.
fn may_end(path: &[bool], last: bool) -> bool
    ensures { result ≡ (if last then all_changed path.now else true) }
{
    if last { changes_all(path) } else { true }
}

// What is found of a leaf whose path is right: whether its reason holds. Where steps are its reason and one
// is not valid, the first such step is named.
fn leaf_verdict(
    alloc: Global,
    task: &Task,
    path: &Path,
    why: &LeafWhy,
) -> Result<Verdict, OutOfMemory>
    requires task { IsTask task.now }
    requires short { length path.now ≤ length task.now.survey.now.fields }
    ensures { IfOk result (λ says. SaysOf (case task.now) path.now why.now says) }
{
    match why {
        LeafWhy::Bound => Ok(verdict_of(is_heavy(task, path))),
        LeafWhy::BadKept => Ok(verdict_of(path.keeps_bad(task.survey, task.row))),
        LeafWhy::Line(steps) => line_verdict(alloc, task, path, steps.as_slice()),
        LeafWhy::Box(steps) => box_verdict(alloc, task, path, steps.as_slice()),
    }
}

// Whether the path weighs at least the weight that the tree is to show. Without a weight, where no
// correction is said to exist, no path is heavy enough.
fn is_heavy(task: &Task, path: &Path) -> bool
    requires { length path.now ≤ length task.now.survey.now.fields }
    ensures { Decides result (IsSomeAnd task.now.weight (λ w. w ≤ path_weight task.now.survey.now.fields path.now)) }
{
    match task.weight {
        None => false,
        Some(weight) => weight <= path.weight(task.survey),
    }
}

// Whether the steps are valid and their last proves a line that no point can meet that keeps what the path
// keeps. Invalid names the first step that is not valid; none where all are, or there are none.
fn line_verdict(
    alloc: Global,
    task: &Task,
    path: &Path,
    steps: &[Step],
) -> Result<Verdict, OutOfMemory>
    requires task { IsTask task.now }
    requires short { length path.now ≤ length task.now.survey.now.fields }
    ensures { IfOk result (λ says. SaysOf (case task.now) path.now (LeafWhy.Line steps.now) says) }
{
    let kept = path.kept_set(task.survey, task.row);
    match check_steps(
        alloc,
        task.survey,
        task.given,
        task.usable,
        task.row,
        kept,
        steps,
    ) {
        Ok(Proved::Line(line)) => Ok(verdict_of(line_refutes(task, kept, &line))),
        Ok(Proved::Box(_)) => Ok(Verdict::Invalid(None)),
        Err(StepsFault::Bad { place }) => Ok(Verdict::Invalid(step_at(steps, place))),
        Err(StepsFault::OutOfMemory) => Err(OutOfMemory),
    }
}

// Whether the line is for all codes, and its linear part is false at the record's values at the kept fields.
// Then no point meets it that has these values, so that it closes a path that keeps these fields.
fn line_refutes(task: &Task, kept: FieldSet, line: &Line) -> bool
    requires task { IsTask task.now }
    requires kept { HasKept task.now.row.now kept }
    requires over { line.now.shape ≡ shape_of task.now.survey.now.fields }
    ensures { Decides result (Refutes (premises_with task.now kept) (Proved.Line line.now)) }
{
    line.is_full() && fails_at_kept(task.survey, task.row, kept, line)
}

// Whether the steps are valid and their last proves a box with all codes, so that all codes are forbidden.
// Invalid names the first step that is not valid; none where all are, or there are none.
fn box_verdict(
    alloc: Global,
    task: &Task,
    path: &Path,
    steps: &[Step],
) -> Result<Verdict, OutOfMemory>
    requires task { IsTask task.now }
    requires short { length path.now ≤ length task.now.survey.now.fields }
    ensures { IfOk result (λ says. SaysOf (case task.now) path.now (LeafWhy.Box steps.now) says) }
{
    let kept = path.kept_set(task.survey, task.row);
    match check_steps(
        alloc,
        task.survey,
        task.given,
        task.usable,
        task.row,
        kept,
        steps,
    ) {
        Ok(Proved::Box(code_box)) => Ok(verdict_of(code_box.is_full())),
        Ok(Proved::Line(_)) => Ok(Verdict::Invalid(None)),
        Err(StepsFault::Bad { place }) => Ok(Verdict::Invalid(step_at(steps, place))),
        Err(StepsFault::OutOfMemory) => Err(OutOfMemory),
    }
}

// The place of the step at fault, or None where there are no steps: then the fault names place 0, which no
// step has.
fn step_at(steps: &[Step], place: u64) -> Option<u64>
    ensures { result ≡ (if length steps.now == 0 then None else Some place) }
{
    if steps.is_empty() { None } else { Some(place) }
}

// The verdict on a leaf that is valid or not, where no step is to be named.
fn verdict_of(valid: bool) -> Verdict
    ensures { result ≡ (if valid then Verdict.Valid else Verdict.Invalid None) }
{
    if valid {
        Verdict::Valid
    } else {
        Verdict::Invalid(None)
    }
}
