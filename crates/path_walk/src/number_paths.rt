//! Looks into paths that say something of numerical fields alone. The last field is eliminated where it is
//! changed. The lines that ask something of the kept numbers alone are then tried at the record. A letter
//! of a path says of one field whether it is kept (false) or changed (true).
//!
//! Below, `source` gives derived systems, and `steps` counts the pairs of lines combined for them. In
//! contracts, `serves` has the edits whose systems it gives, and `keeps` the sets of fields whose systems
//! it keeps. `KeepsChanged` says that a path's system is kept, `IsPathSystem` that a system is the path's,
//! and `IsProblem` that a problem's parts fit. `Answers` says that a call gives the lines that the
//! definition has, or tells its first overflow (`told_system`).
ghost use Rattle.std.specs.Prelude.{◌≡◌, ℕ, ◌+◌, ◌≤◌, ◌<◌, IfOk, IfNone, OnOk, Ok, if◌then◌else◌, false, length, true};
ghost use Rattle.std.specs.Arc.{arc_value};
ghost use Rattle.edit_model.specs.FieldSets.{set_of};
ghost use Rattle.edit_line.specs.EditSets.{EditsParts};
ghost use Rattle.edit_line.specs.Lines.{HasShape};
ghost use Rattle.edit_line.specs.Shapes.{shape_of};
ghost use Rattle.linear_elim.specs.Answers.{Answers};
ghost use Rattle.linear_elim.specs.Helds.{system_held};
ghost use Rattle.linear_elim.specs.Steps.{OneShape};
ghost use Rattle.linear_elim.specs.Told.{told_system};
ghost use Rattle.bound_cert.specs.Paths.{keeps_bad, kept_set};
ghost use Rattle.edit_paths.specs.Paths.{before_last, changed_numbers, field_count, last_letter, number_count};
ghost use Rattle.edit_paths.specs.States.{IsOpen, asks_kept, first_failing, state_of, tried_line};
ghost use Rattle.edit_paths.specs.Works.{work_of};
ghost use Rattle.edit_paths.specs.declared.state.PathState.{PathState as State};
ghost use Rattle.edit_paths.specs.declared.state.PathState.TheVariants.{Open};
ghost use Rattle.path_walk.specs.Bases.{IsBasis, IsPathSystem, has_basis, path_system, shared_lines};
ghost use Rattle.path_walk.specs.KeptFields.{KeepsChanged};
ghost use Rattle.path_walk.specs.Looks.{KeepsOpen, TellsLook};
ghost use Rattle.path_walk.specs.Problems.{IsProblem, case_in, edits_in};
ghost use Rattle.path_walk.specs.inner.Tries.{HasPassed, IsAside, or_next};

use crate::looks::{Basis, Look};
use crate::problem::{Problem, changed_numbers, number_count};
use bound_cert::{Event, Path};
use categ_combine::{BoxFault, boxes_of};
use edit_line::{Derived, Line, fails};
use edit_model::FieldSet;
use edit_paths::PathState;
use foundation::{OutOfMemory, Sequence, Steps};
use linear_elim::{Held, System, SystemFault, Systems, pairs};
use std::alloc::Global;
use std::sync::Arc;
use std::sync::ledger::Ledger;

/// A path that says something of numerical fields alone, and the system of the path before its last letter.
#[derive(Clone, Copy)]
pub(crate) struct NumberPath<'a> {
    pub(crate) path: &'a Path,
    pub(crate) before: &'a Arc<Held>,
}

/// Looks into a path that says something of numerical fields alone. None exactly where its work, which is 1 and
/// the pairs of its last step, is more than `most`. `at` has the path, and the system of the path before its
/// last letter; for the empty path, that of the edits.
pub(crate) fn look_at_numbers<S: Systems, L: Ledger>(
    alloc: Global,
    source: &mut S,
    problem: &Problem,
    at: NumberPath,
    most: u64,
    steps: &mut Steps<L>,
) -> Result<Option<Look>, OutOfMemory>
    requires problem { IsProblem problem.now }
    requires served { S.serves source.old (edits_in problem.now) }
    requires fit { length at.path.now ≤ number_count (case_in problem.now) }
    requires reached { 0 < length at.path.now → IsOpen (case_in problem.now) (before_last at.path.now) }
    requires system { IsPathSystem (case_in problem.now) (before_last at.path.now) (arc_value at.before.now) }
    requires before { KeepsChanged (S.keeps source.old) (case_in problem.now) (before_last at.path.now) }
    requires some { 0 < most }
    ensures passed { IfOk result (λ told. IfNone told (most < work_of (case_in problem.now) at.entry.path.now)) }
    ensures look { IfOk result (TellsLook (case_in problem.now) at.entry.path.now most) }
    ensures kept { IfOk result (KeepsOpen (S.keeps source.new) (case_in problem.now) at.entry.path.now) }
    ensures serves { (e : EditsParts) → S.serves source.old e → S.serves source.new e }
    ensures keeps { (f : ℕ) → S.keeps source.old f ≡ true → S.keeps source.new f ≡ true }
    ensures counts { steps.old ≤ steps.new }
{
    let pairs = last_pairs(problem, at.path.letters(), at.before.system().lines());
    if pairs >= u128::from(most) {
        return Ok(None);
    }
    let work = 1 + pairs as u64;
    Ok(Some(look_at_path(alloc, source, problem, at, work, steps)?))
}

/// The system of the edits without the numerical fields that the path changes, as the source gives it.
/// What the letters say of categorical fields does not count. An overflow where a number leaves the range
/// while these are eliminated.
pub fn system_along<S: Systems, L: Ledger>(
    alloc: Global,
    source: &mut S,
    problem: &Problem,
    letters: &[bool],
    steps: &mut Steps<L>,
) -> Result<Held, SystemFault>
    requires problem { IsProblem problem.now }
    requires served { S.serves source.old (edits_in problem.now) }
    ensures exact { Answers (λ held. (system_held held).lines) told_system result (path_system (case_in problem.now) letters.now) }
    ensures system { IfOk result (IsPathSystem (case_in problem.now) letters.now) }
    ensures kept { OnOk result (KeepsChanged (S.keeps source.new) (case_in problem.now) letters.now) }
    ensures serves { (e : EditsParts) → S.serves source.old e → S.serves source.new e }
    ensures keeps { (f : ℕ) → S.keeps source.old f ≡ true → S.keeps source.new f ≡ true }
    ensures counts { steps.old ≤ steps.new }
{
    let fields = changed_numbers(problem, letters);
    source.system(alloc, problem.edits, fields, steps)
}

// How many pairs of lines the elimination of the path's last field combines, 0 where that field is kept.
// `before` has the lines of the system of the path before its last letter.
fn last_pairs(problem: &Problem, letters: &[bool], before: &[Derived]) -> u128
    requires problem { IsProblem problem.now }
    requires fit { length letters.now ≤ number_count (case_in problem.now) }
    requires shape { OneShape before.now }
    requires made { path_system (case_in problem.now) (before_last letters.now) ≡ Ok before.now }
    ensures work { work_of (case_in problem.now) letters.now ≡ 1 + result }
{
    if !ends_changed(letters) {
        return 0;
    }
    let field = problem.survey.path_field((letters.len() - 1) as u32);
    pairs(before, field)
}

// Whether the last letter says changed; false for the empty path.
fn ends_changed(letters: &[bool]) -> bool
    ensures changed { result ≡ last_letter letters.now }
    ensures some { result ≡ true → 0 < length letters.now }
{
    !letters.is_empty() && letters[letters.len() - 1]
}

// The look into the path, whose work is `work`. It is closed at once where it keeps a field without a value,
// and no system is asked for. A number that leaves the range is no fault here, but a state of the path.
fn look_at_path<S: Systems, L: Ledger>(
    alloc: Global,
    source: &mut S,
    problem: &Problem,
    at: NumberPath,
    work: u64,
    steps: &mut Steps<L>,
) -> Result<Look, OutOfMemory>
    requires problem { IsProblem problem.now }
    requires served { S.serves source.old (edits_in problem.now) }
    requires fit { length at.path.now ≤ number_count (case_in problem.now) }
    requires reached { 0 < length at.path.now → IsOpen (case_in problem.now) (before_last at.path.now) }
    requires system { IsPathSystem (case_in problem.now) (before_last at.path.now) (arc_value at.before.now) }
    requires before { KeepsChanged (S.keeps source.old) (case_in problem.now) (before_last at.path.now) }
    ensures work { IfOk result (λ look. look.work ≡ work) }
    ensures state { IfOk result (λ look. look.state ≡ state_of (case_in problem.now) at.entry.path.now) }
    ensures basis { IfOk result (λ look. has_basis look.state ≡ true → IsBasis (case_in problem.now) at.entry.path.now look.basis) }
    ensures kept { IfOk result (λ look. look.state ≡ Open → KeepsChanged (S.keeps source.new) (case_in problem.now) at.entry.path.now) }
    ensures serves { (e : EditsParts) → S.serves source.old e → S.serves source.new e }
    ensures keeps { (f : ℕ) → S.keeps source.old f ≡ true → S.keeps source.new f ≡ true }
    ensures counts { steps.old ≤ steps.new }
{
    if at.path.keeps_bad(problem.survey, problem.row) {
        return look_without_basis(work, PathState::ClosedBad, at.before);
    }
    match next_system(alloc, source, problem, at.path.letters(), at.before, steps) {
        Ok(next) => look_by_system(alloc, problem, at.path, next, work),
        Err(
            SystemFault::Overflow {
                first,
                second,
                place,
                ..
            },
        ) => look_without_basis(
            work,
            PathState::Overflows(Event::Step {
                first,
                second,
                place,
            }),
            at.before,
        ),
        Err(SystemFault::OutOfMemory) => Err(OutOfMemory),
    }
}

// The look into a path that has no basis of its own, with its work and state: the search does not go on from
// it. The `system` at hand stands in the place of a basis, and is not read.
fn look_without_basis(work: u64, state: PathState, system: &Arc<Held>) -> Result<Look, OutOfMemory>
    ensures work { IfOk result (λ look. look.work ≡ work) }
    ensures state { IfOk result (λ look. look.state ≡ state) }
{
    Ok(Look {
        work,
        state,
        basis: Basis::Lines(Arc::try_clone(system)?),
    })
}

// The path's system, to be shared. Where the path keeps its last field, or is empty, that is `before`, the
// system of the path before its last letter. An overflow where the step of its last field leaves the range.
fn next_system<S: Systems, L: Ledger>(
    alloc: Global,
    source: &mut S,
    problem: &Problem,
    letters: &[bool],
    before: &Arc<Held>,
    steps: &mut Steps<L>,
) -> Result<Arc<Held>, SystemFault>
    requires problem { IsProblem problem.now }
    requires served { S.serves source.old (edits_in problem.now) }
    requires fit { length letters.now ≤ number_count (case_in problem.now) }
    requires system { IsPathSystem (case_in problem.now) (before_last letters.now) (arc_value before.now) }
    requires before { KeepsChanged (S.keeps source.old) (case_in problem.now) (before_last letters.now) }
    ensures exact { Answers shared_lines told_system result (path_system (case_in problem.now) letters.now) }
    ensures system { IfOk result (λ next. IsPathSystem (case_in problem.now) letters.now (arc_value next)) }
    ensures kept { OnOk result (KeepsChanged (S.keeps source.new) (case_in problem.now) letters.now) }
    ensures serves { (e : EditsParts) → S.serves source.old e → S.serves source.new e }
    ensures keeps { (f : ℕ) → S.keeps source.old f ≡ true → S.keeps source.new f ≡ true }
    ensures counts { steps.old ≤ steps.new }
{
    if !ends_changed(letters) {
        return Ok(share(before)?);
    }
    match changed_system(alloc, source, problem, letters, before.system(), steps) {
        Ok(held) => Ok(in_arc(alloc, held)?),
        Err(fault) => Err(fault),
    }
}

// The system of a path that changes its last field, by one step of elimination from that of the path
// before. An overflow where that step leaves the range.
fn changed_system<S: Systems, L: Ledger>(
    alloc: Global,
    source: &mut S,
    problem: &Problem,
    letters: &[bool],
    before: &System,
    steps: &mut Steps<L>,
) -> Result<Held, SystemFault>
    requires problem { IsProblem problem.now }
    requires served { S.serves source.old (edits_in problem.now) }
    requires some { 0 < length letters.now }
    requires fit { length letters.now ≤ number_count (case_in problem.now) }
    requires changed { last_letter letters.now ≡ true }
    requires edits { before.now.edits ≡ edits_in problem.now }
    requires fields { before.now.fields ≡ set_of (changed_numbers (case_in problem.now) (before_last letters.now)) }
    ensures exact { Answers (λ held. (system_held held).lines) told_system result (path_system (case_in problem.now) letters.now) }
    ensures system { IfOk result (IsPathSystem (case_in problem.now) letters.now) }
    ensures kept { OnOk result (KeepsChanged (S.keeps source.new) (case_in problem.now) letters.now) }
    ensures serves { (e : EditsParts) → S.serves source.old e → S.serves source.new e }
    ensures keeps { (f : ℕ) → S.keeps source.old f ≡ true → S.keeps source.new f ≡ true }
    ensures counts { steps.old ≤ steps.new }
{
    let field = problem.survey.path_field((letters.len() - 1) as u32);
    source.system_after(alloc, before, field, steps)
}

/// The system, owned once more: its lines are not copied.
pub(crate) fn share(system: &Arc<Held>) -> Result<Arc<Held>, OutOfMemory>
    ensures { IfOk result (λ other. arc_value other ≡ arc_value system.now) }
{
    Ok(Arc::try_clone(system)?)
}

/// The system, put into an `Arc`, so that several can own it.
pub(crate) fn in_arc(alloc: Global, held: Held) -> Result<Arc<Held>, OutOfMemory>
    ensures { IfOk result (λ system. arc_value system ≡ held) }
{
    Ok(Arc::new(alloc, held)?)
}

// The look into a path that keeps no field without a value, by its own `system`. Where the path says
// something of all numerical fields, its boxes are its basis. A line's sum that leaves the range while
// these are made is an overflow.
fn look_by_system(
    alloc: Global,
    problem: &Problem,
    path: &Path,
    system: Arc<Held>,
    work: u64,
) -> Result<Look, OutOfMemory>
    requires problem { IsProblem problem.now }
    requires fit { length path.now ≤ number_count (case_in problem.now) }
    requires reached { 0 < length path.now → IsOpen (case_in problem.now) (before_last path.now) }
    requires held { keeps_bad problem.now.survey.now.fields problem.now.row.now path.now ≡ false }
    requires system { IsPathSystem (case_in problem.now) path.now (arc_value system) }
    ensures work { IfOk result (λ look. look.work ≡ work) }
    ensures state { IfOk result (λ look. look.state ≡ state_of (case_in problem.now) path.now) }
    ensures basis { IfOk result (λ look. has_basis look.state ≡ true → IsBasis (case_in problem.now) path.now look.basis) }
{
    let lines = system.system().lines();
    if path.letters().len() < number_count(problem) {
        let state = first_failing(problem, path, lines);
        return Ok(Look {
            work,
            state,
            basis: Basis::Lines(system),
        });
    }
    match boxes_of(alloc, problem.survey, lines, problem.row) {
        Ok(boxes) => Ok(Look {
            work,
            state: first_failing(problem, path, lines),
            basis: Basis::Boxes(Arc::new(alloc, Sequence::from_vec(boxes))?),
        }),
        Err(BoxFault::Overflow { line, field }) => look_without_basis(
            work,
            PathState::Overflows(Event::Test { line, field }),
            &system,
        ),
        Err(BoxFault::OutOfMemory) => Err(OutOfMemory),
    }
}

// The state that the lines of the path's system make. Only lines that ask something of the kept numbers
// alone are tried, in order. The first of them that fails closes the path; one whose sum leaves the range
// ends it. Without such a line the path is open.
fn first_failing(problem: &Problem, path: &Path, lines: &[Derived]) -> PathState
    requires problem { IsProblem problem.now }
    requires fit { length path.now ≤ number_count (case_in problem.now) }
    requires short { length path.now ≤ field_count (case_in problem.now) }
    requires reached { 0 < length path.now → IsOpen (case_in problem.now) (before_last path.now) }
    requires held { keeps_bad problem.now.survey.now.fields problem.now.row.now path.now ≡ false }
    requires made { path_system (case_in problem.now) path.now ≡ Ok lines.now }
    ensures { result ≡ first_failing (case_in problem.now) path.now 0 lines.now }
{
    let kept = path.kept_set(problem.survey, problem.row);
    for (place, derived) in lines.iter().enumerate() {
        if let Some(state) = tried_line(problem, path, kept, place as u64, &derived.line) {
            return state;
        }
    }
    PathState::Open
}

// What the line at this place of the path's system makes of the path; None where it does not decide, and the
// next lines do. Where the path keeps its last field, a line without that field was tried at the path before,
// and did not fail there. `kept` has the fields that the path keeps.
fn tried_line(
    problem: &Problem,
    path: &Path,
    kept: FieldSet,
    place: u64,
    line: &Line,
) -> Option<PathState>
    requires problem { IsProblem problem.now }
    requires fit { length path.now ≤ number_count (case_in problem.now) }
    requires passed { HasPassed (case_in problem.now) path.now place line.now }
    requires held { keeps_bad problem.now.survey.now.fields problem.now.row.now path.now ≡ false }
    requires kept { kept ≡ kept_set problem.now.survey.now.fields problem.now.row.now path.now }
    requires over { HasShape (shape_of problem.now.survey.now.fields) line.now }
    ensures { (next : State) → or_next result next ≡ tried_line (case_in problem.now) path.now place line.now next }
{
    if was_tried(path.letters(), line.factors()) {
        return None;
    }
    if !asks_kept(problem, path, kept, line) {
        return None;
    }
    match fails(problem.survey, line, problem.row) {
        Ok(true) => Some(PathState::ClosedLine(place)),
        Ok(false) => None,
        Err(overflow) => Some(PathState::Overflows(Event::Test {
            line: place,
            field: overflow.field,
        })),
    }
}

// Whether the path keeps its last field, and the line of these factors does not have it. Such a line was tried
// at the path before. There is a factor for each numerical field, and these stand first in path order.
// So a letter and its factor have one place.
#[inline(always)]
fn was_tried(letters: &[bool], factors: &[i128]) -> bool
    requires { length letters.now ≤ length factors.now }
    ensures { result ≡ true → IsAside letters.now factors.now }
{
    if letters.is_empty() || letters[letters.len() - 1] {
        return false;
    }
    factors[letters.len() - 1] == 0
}

// Whether the line asks something of the kept numbers alone. Only kept fields stand in it, and its sets are
// whole, so that it asks the same for all codes.
fn asks_kept(problem: &Problem, path: &Path, kept: FieldSet, line: &Line) -> bool
    requires problem { IsProblem problem.now }
    requires held { keeps_bad problem.now.survey.now.fields problem.now.row.now path.now ≡ false }
    requires kept { kept ≡ kept_set problem.now.survey.now.fields problem.now.row.now path.now }
    requires over { HasShape (shape_of problem.now.survey.now.fields) line.now }
    ensures { result ≡ asks_kept (case_in problem.now) path.now line.now }
{
    line.stands_only_in(problem.survey, kept) && line.sets() == problem.wholes
}
