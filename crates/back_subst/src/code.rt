//! The code that is given to a categorical field. In contracts, `AreBoxesOver` says that each box has a set
//! for each categorical field. `CanSettle` says that settling the other fields takes fewer than 2^64 pairs
//! each, and `HasFreeCode` that then some code is in no box. `IsCodeFor` says that the code is the one given.
ghost use Rattle.std.specs.Prelude.{◌≡◌, ◌≢◌, ◌<◌, ◌^◌, Ok, false, true, All, IfNone, IfOk, IfSome, List, ℕ, length};
ghost use Rattle.edit_line.specs.inner.LineFields.{IsCategorical};
ghost use Rattle.edit_model.specs.Points.{has_code};
ghost use Rattle.edit_model.specs.Rows.{IsRow, value_of};
ghost use Rattle.edit_line.specs.CodeFields.{TakesCodes, size_of};
ghost use Rattle.edit_line.specs.Reductions.{lines_of};
ghost use Rattle.edit_line.specs.Shapes.{Domain, code_fields, shape_of};
ghost use Rattle.categ_combine.specs.BoxLists.{AreBoxesOver, sets_of};
ghost use Rattle.categ_combine.specs.Covers.{cover_count};
ghost use Rattle.edit_model.specs.declared.value.Value.TheVariants.{Code};
ghost use Rattle.back_subst.specs.Given.{IsGivenCode};
ghost use Rattle.back_subst.specs.inner.Codes.{IsFirstFree, IsFree, is_free_at, settled_for};
ghost use Rattle.back_subst.specs.inner.UnderWay.{AreSettled, CanSettle, HasFreeCode, IsCodeFor};

use categ_combine::{BoxFault, BoxFrom, Covered, boxes_of, cat_step, fix};
use edit_line::{Derived, Shape, has_code, place_among};
use edit_model::{Row, Survey, Value};
use foundation::OutOfMemory;
use std::alloc::Global;

/// The code that is given to the categorical `field` of the record, which is Bad at the fields that are
/// given codes after it. `lines` is the system without the changed numerical fields, whose sums are in
/// range. The other fields are settled: each is fixed at its code, or eliminated. The code is the target,
/// where no box that is left has it, and else the first code that none has. There is such a code.
pub(crate) fn code_for(
    alloc: Global,
    survey: &Survey,
    lines: &[Derived],
    row: &Row,
    field: u32,
    target: u8,
) -> Result<u8, OutOfMemory>
    requires shape { All (λ d. d.line.shape ≡ shape_of survey.now.fields) lines.now }
    requires row { IsRow survey.now.fields row.now }
    requires field { IsCategorical (shape_of survey.now.fields) field }
    requires codes { (f : ℕ) → IsCategorical (shape_of survey.now.fields) f → TakesCodes (shape_of survey.now.fields) f }
    requires some { HasFreeCode (shape_of survey.now.fields) (lines_of lines.now) row.now field }
    ensures { IfOk result (λ code. IsCodeFor (shape_of survey.now.fields) (lines_of lines.now) row.now field target code) }
{
    let boxes = match boxes_of(alloc, survey, lines, row) {
        Ok(boxes) => boxes,
        Err(BoxFault::OutOfMemory) => return Err(OutOfMemory),
        Err(BoxFault::Overflow { .. }) => unreachable!(),
    };
    let settled = settle_others(alloc, survey, boxes, row, field)?;
    Ok(free_code(survey, &settled, field, target))
}

// The boxes that are left when each categorical field other than `but` is fixed at the record's code, or
// eliminated where it has none. They say which codes of `but` are forbidden.
fn settle_others(
    alloc: Global,
    survey: &Survey,
    boxes: Vec<BoxFrom>,
    row: &Row,
    but: u32,
) -> Result<Vec<BoxFrom>, OutOfMemory>
    requires over { AreBoxesOver (shape_of survey.now.fields) boxes.items }
    requires row { IsRow survey.now.fields row.now }
    requires codes { (f : ℕ) → IsCategorical (shape_of survey.now.fields) f → TakesCodes (shape_of survey.now.fields) f }
    requires few { CanSettle (shape_of survey.now.fields) row.now but (sets_of boxes.items) }
    ensures over { IfOk result (λ kept. AreBoxesOver (shape_of survey.now.fields) kept.items) }
    ensures sets { IfOk result (λ kept.
        AreSettled (shape_of survey.now.fields) row.now but (sets_of boxes.items) (sets_of kept.items)) }
{
    let mut kept = boxes;
    for field in survey.codes() {
        if *field != but {
            kept = settle_field(alloc, survey, &kept, row, *field)?;
        }
    }
    Ok(kept)
}

// The boxes after the categorical `field` is settled: it is eliminated where the record has no code there
// (`Bad`), and else fixed at its code.
fn settle_field(
    alloc: Global,
    survey: &Survey,
    boxes: &[BoxFrom],
    row: &Row,
    field: u32,
) -> Result<Vec<BoxFrom>, OutOfMemory>
    requires over { AreBoxesOver (shape_of survey.now.fields) boxes.now }
    requires row { IsRow survey.now.fields row.now }
    requires field { IsCategorical (shape_of survey.now.fields) field }
    requires codes { TakesCodes (shape_of survey.now.fields) field }
    requires few { ((c : ℕ) → value_of row.now field ≢ Code c)
        → cover_count (shape_of survey.now.fields) (sets_of boxes.now) field < 2 ^ 64 }
    ensures over { IfOk result (λ kept. AreBoxesOver (shape_of survey.now.fields) kept.items) }
    ensures sets { IfOk result (λ kept. sets_of kept.items ≡ settled_for (shape_of survey.now.fields) row.now field (sets_of boxes.now)) }
{
    match row.value(field) {
        Value::Code(code) => fix(alloc, boxes, field, *code),
        Value::Number(_) | Value::Bad => match cat_step(alloc, boxes, field, u64::MAX)? {
            Covered::Done { boxes, .. } => Ok(boxes.into_vec()),
            Covered::Passed => unreachable!(),
        },
    }
}

// The code that is given to the field, whose forbidden codes the boxes have. It is the target, where that is
// one of the field's codes and in no box, and else the first code in none. There is such a code.
fn free_code(survey: &Survey, boxes: &[BoxFrom], field: u32, target: u8) -> u8
    requires over { AreBoxesOver (shape_of survey.now.fields) boxes.now }
    requires field { IsCategorical (shape_of survey.now.fields) field }
    requires some { (code : ℕ) × IsFree (shape_of survey.now.fields) (sets_of boxes.now) field code }
    ensures { IsGivenCode (IsFree (shape_of survey.now.fields) (sets_of boxes.now) field) target result }
{
    let size = Shape::of(survey).size_of(field);
    let place = place_among(survey.codes(), field);
    if target < size && is_free(boxes, place, target) {
        return target;
    }
    match first_free_code(boxes, place, size) {
        Some(code) => code,
        None => unreachable!(),
    }
}

/// The first of the codes below `size`, the field's count of codes, that no box has at this field. None where
/// each is in some box. `place` is the field's place among the categorical ones, from 0.
pub(crate) fn first_free_code(boxes: &[BoxFrom], place: usize, size: u8) -> Option<u8>
    requires { (shape : List Domain) × AreBoxesOver shape boxes.now × (place < length (code_fields shape)) }
    ensures free { IfSome result (λ code. IsFirstFree (sets_of boxes.now) place size code) }
    ensures none { IfNone result ((c : ℕ) → c < size → is_free_at (sets_of boxes.now) place c ≡ false) }
{
    for code in 0..size {
        if is_free(boxes, place, code) {
            return Some(code);
        }
    }
    None
}

/// Whether the code is in no box, so that it is allowed. `place` is that of its field among the categorical
/// ones, from 0.
pub(crate) fn is_free(boxes: &[BoxFrom], place: usize, code: u8) -> bool
    requires { (shape : List Domain) × AreBoxesOver shape boxes.now × (place < length (code_fields shape)) }
    ensures { result ≡ is_free_at (sets_of boxes.now) place code }
{
    for b in boxes {
        if has_code(b.sets()[place], code) {
            return false;
        }
    }
    true
}
