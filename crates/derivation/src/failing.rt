//! The step that makes a box of a line. Where the line's linear part is false at the kept values, the
//! codes must not all be in its sets. A step that proves nothing, told as None, is not valid.
//!
//! In contracts, `meant` has what a step proved, and `premises` what it may build on. `IsBasis` says
//! that a basis's parts fit.
ghost use Rattle.std.specs.Prelude.{◌≡◌, IfOk, map};
ghost use Rattle.edit_model.specs.Rows.{IsRow};
ghost use Rattle.edit_line.specs.Shapes.{shape_of};
ghost use Rattle.derivation.specs.inner.Bases.{IsBasis, premises, shape_in};
ghost use Rattle.derivation.specs.inner.Meanings.{AllOver, meaning, meant};
ghost use Rattle.derivation.specs.ValidSteps.{failed_box, fails_at_kept, proved_by};
ghost use Rattle.derivation.specs.declared.step.Step.{Step};

use crate::basis::Basis;
use crate::known::{Known, line_at};
use edit_line::{CodeBox, Line, fails};
use edit_model::{FieldSet, Row, Survey};
use foundation::OutOfMemory;
use std::alloc::Global;

/// What a step `Fail` proves: the box of the sets of the line at the place, whose codes are forbidden.
/// None where no line was proved there, or the line does not fail at the kept fields, as
/// `fails_at_kept` tells.
pub(crate) fn fail_step<'a>(
    alloc: Global,
    basis: &Basis<'a>,
    known: &[Known<'a>],
    place: u64,
) -> Result<Option<Known<'a>>, OutOfMemory>
    requires basis { IsBasis basis.now }
    requires over { AllOver (shape_in basis.now) known.now }
    ensures { IfOk result (λ made. meant made ≡ proved_by (premises basis.now) (map meaning known.now) (Step.Fail place)) }
{
    match line_at(known, place) {
        None => Ok(None),
        Some(line) => failed_box(alloc, basis, line),
    }
}

// The box of the line's sets, or None where the line does not fail at the kept fields.
fn failed_box<'a>(
    alloc: Global,
    basis: &Basis<'a>,
    line: &Line,
) -> Result<Option<Known<'a>>, OutOfMemory>
    requires basis { IsBasis basis.now }
    requires over { line.now.shape ≡ shape_in basis.now }
    ensures { IfOk result (λ known. meant known ≡ failed_box (premises basis.now) line.now) }
{
    if !fails_at_kept(basis.survey, basis.row, basis.kept, line) {
        return Ok(None);
    }
    let sets = Vec::from_slice(alloc, line.sets())?;
    let code_box = CodeBox::over(line.shape(), sets);
    Ok(Some(Known::of_box(alloc, code_box)?))
}

/// Whether only kept fields stand in the line, and its linear part is false at the record. Then it is false
/// at every point that has the record's values at the kept fields. That holds only where each kept field
/// that stands in the line has a value, since a Bad one counts as 0. A sum that leaves the range does not
/// fail. No memory.
pub fn fails_at_kept(survey: &Survey, row: &Row, kept: FieldSet, line: &Line) -> bool
    requires shape { line.now.shape ≡ shape_of survey.now.fields }
    requires row { IsRow survey.now.fields row.now }
    ensures { result ≡ fails_at_kept row.now kept line.now }
{
    if !line.stands_only_in(survey, kept) {
        return false;
    }
    match fails(survey, line, row) {
        Ok(failed) => failed,
        Err(_) => false,
    }
}
