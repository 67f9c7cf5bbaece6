//! Looks into paths that say something of all numerical fields and of categorical ones. The boxes are
//! combined at a changed field, and fixed at the record's code at a kept one. A letter of a path says of
//! one field whether it is kept (false) or changed (true).
//!
//! In contracts, `IsProblem` says that a problem's parts fit, `boxes_along` has the boxes of a path, and
//! `cover_work` is the work at a changed field. `TellsLook` says that a look is the path's, and its work
//! at most `most`. `IsChanged` and `IsKept` say what a look tells at a changed and at a kept field.
ghost use Rattle.std.specs.Prelude.{◌≡◌, ◌+◌, ◌≤◌, ◌<◌, IfOk, IfNone, IfSome, length, nat_eq};
ghost use Rattle.std.specs.Cmp.Lexicographic.{pointwise};
ghost use Rattle.std.specs.List.{position};
ghost use Rattle.edit_model.specs.Rows.{value_of};
ghost use Rattle.edit_line.specs.CodeFields.{TakesCodes};
ghost use Rattle.edit_line.specs.Shapes.{shape_of};
ghost use Rattle.categ_combine.specs.Apart.{LieApart};
ghost use Rattle.categ_combine.specs.BoxLists.{AreBoxesOver};
ghost use Rattle.edit_paths.specs.Paths.{before_last, field_count, number_count};
ghost use Rattle.edit_paths.specs.States.{IsOpen, boxes_along, whole_state};
ghost use Rattle.edit_paths.specs.Works.{work_of};
ghost use Rattle.path_walk.specs.Looks.{TellsLook};
ghost use Rattle.path_walk.specs.Problems.{IsProblem, case_in};
ghost use Rattle.path_walk.specs.inner.Tries.{IsChanged, IsKept, cover_work};

use crate::looks::{Basis, Look};
use crate::problem::Problem;
use categ_combine::{BoxFrom, Covered, fix_apart, step_apart};
use edit_model::Value;
use edit_paths::PathState;
use foundation::{OutOfMemory, Sequence};
use std::alloc::Global;
use std::sync::Arc;

/// Looks into a path that says something of categorical fields, where `most` is not 0. None exactly where
/// its work is more than `most`. `before` has the boxes of the path before its last letter, which is open.
pub(crate) fn look_at_codes(
    alloc: Global,
    problem: &Problem,
    letters: &[bool],
    before: &[BoxFrom],
    most: u64,
) -> Result<Option<Look>, OutOfMemory>
    requires problem { IsProblem problem.now }
    requires more { number_count (case_in problem.now) < length letters.now }
    requires fit { length letters.now ≤ field_count (case_in problem.now) }
    requires reached { IsOpen (case_in problem.now) (before_last letters.now) }
    requires boxes { before.now ≡ boxes_along (case_in problem.now) (before_last letters.now) }
    requires some { 0 < most }
    ensures passed { IfOk result (λ told. IfNone told (most < work_of (case_in problem.now) letters.now)) }
    ensures look { IfOk result (TellsLook (case_in problem.now) letters.now most) }
{
    let last = letters.len() - 1;
    let field = problem.survey.path_field(last as u32);
    if letters[last] {
        look_at_changed(alloc, problem, field, before, most)
    } else {
        Ok(Some(look_at_kept(alloc, problem, field, before)?))
    }
}

// The look at a path that changes its last field, the categorical `field`: the boxes `before` are combined at
// it. The path itself is 1 of its work, so that `most - 1` pairs are left; None where there are more.
fn look_at_changed(
    alloc: Global,
    problem: &Problem,
    field: u32,
    before: &[BoxFrom],
    most: u64,
) -> Result<Option<Look>, OutOfMemory>
    requires problem { IsProblem problem.now }
    requires over { AreBoxesOver (shape_of problem.now.survey.now.fields) before.now }
    requires apart { LieApart before.now }
    requires takes { TakesCodes (shape_of problem.now.survey.now.fields) field }
    requires some { 0 < most }
    ensures passed { IfOk result (λ told. IfNone told (most < cover_work (case_in problem.now) before.now field)) }
    ensures look { IfOk result (λ told. IfSome told (λ look. IsChanged (case_in problem.now) before.now field look × (look.work ≤ most))) }
{
    match step_apart(alloc, before, field, most - 1)? {
        Covered::Passed => Ok(None),
        Covered::Done { boxes, pairs } => Ok(Some(Look {
            work: 1 + pairs,
            state: state_by_boxes(problem, boxes.as_slice()),
            basis: Basis::Boxes(Arc::new(alloc, boxes)?),
        })),
    }
}

// The look at a path that keeps its last field, the categorical `field`: the boxes `before` are fixed at the
// record's code there. Where the record has no code, the path is closed, and no boxes are made. The work is
// 1.
fn look_at_kept(
    alloc: Global,
    problem: &Problem,
    field: u32,
    before: &[BoxFrom],
) -> Result<Look, OutOfMemory>
    requires problem { IsProblem problem.now }
    requires over { AreBoxesOver (shape_of problem.now.survey.now.fields) before.now }
    requires apart { LieApart before.now }
    requires within { field < length problem.now.row.now }
    ensures work { IfOk result (λ look. look.work ≡ 1) }
    ensures look { IfOk result (λ look. IsKept (case_in problem.now) before.now field (value_of problem.now.row.now field) look) }
{
    match problem.row.value(field) {
        Value::Code(code) => {
            let boxes = fix_apart(alloc, before, field, *code)?;
            Ok(Look {
                work: 1,
                state: state_by_boxes(problem, boxes.as_slice()),
                basis: Basis::Boxes(Arc::new(alloc, Sequence::from_vec(boxes))?),
            })
        }
        Value::Number(_) | Value::Bad => Ok(Look {
            work: 1,
            state: PathState::ClosedBad,
            basis: Basis::Boxes(Arc::new(alloc, Sequence::from_vec(Vec::new(alloc)))?),
        }),
    }
}

// The state of a path with these boxes. The first box that has all codes of each field closes it, as no codes
// are left. Without such a box it is open.
fn state_by_boxes(problem: &Problem, boxes: &[BoxFrom]) -> PathState
    requires problem { IsProblem problem.now }
    ensures { result ≡ whole_state (case_in problem.now) boxes.now }
{
    match whole_place(problem.wholes, boxes) {
        Some(place) => PathState::ClosedBox(place as u64),
        None => PathState::Open,
    }
}

// The place of the first box that has all codes, if there is one. `wholes` has the set of all codes of each
// categorical field.
fn whole_place(wholes: &[u64], boxes: &[BoxFrom]) -> Option<usize>
    ensures { result ≡ position (λ b. pointwise nat_eq b.code_box.sets wholes.now) boxes.now }
{
    boxes.iter().position(|b| b.sets() == wholes)
}
