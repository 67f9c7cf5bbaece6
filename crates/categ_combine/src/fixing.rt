//! What a record's boxes forbid of the other fields where a categorical field keeps its code. A box is
//! whole at a field where it has all its codes there. Places are those of the given boxes, from 0.
//!
//! In contracts, `ForShape` speaks of the shape that the boxes are over. `LieApart` says that none lies
//! inside another, and `IsClear` when a kept box need not be compared with a later one.
ghost use Rattle.std.specs.Prelude.{◌≡◌, ◌&&◌, ◌++◌, [], ◌∷◌, All, IfOk, OnOk, if◌then◌else◌, not, slice_set, true};
ghost use Rattle.std.specs.List.{filter, fold, list_any};
ghost use Rattle.edit_line.specs.Boxes.{IsBox, box_of};
ghost use Rattle.edit_line.specs.Domains.{domains};
ghost use Rattle.edit_line.specs.Sets.{are_subsets};
ghost use Rattle.categ_combine.specs.Apart.{LieApart};
ghost use Rattle.categ_combine.specs.BoxLists.{AreBoxesOver, ForShape, HaveCode, SayWithCode, reduce_from, sets_of, with_from};
ghost use Rattle.categ_combine.specs.Covers.{from_of, is_whole_at};
ghost use Rattle.categ_combine.specs.Each.{each_from};
ghost use Rattle.categ_combine.specs.Fixing.{fixed, fixed_from, fixed_one};
ghost use Rattle.categ_combine.specs.Origins.{AllCome, ComesFromFix};
ghost use Rattle.categ_combine.specs.inner.Clear.{IsClear, is_compared};
ghost use Rattle.categ_combine.specs.inner.FitBoxes.{AreBoxes};
ghost use Rattle.categ_combine.specs.declared.box_from.BoxOrigin.TheVariants.{Fixed, Unchanged};

use crate::box_from::{BoxFrom, BoxOrigin};
use crate::code_field::{set_at, spot_of};
use crate::reduction::replace_inside;
use crate::spot::Spot;
use edit_line::{CodeBox, has_code};
use foundation::OutOfMemory;
use std::alloc::Global;

/// A code that a categorical field keeps, and whether the boxes are known to lie apart: none inside another.
#[derive(Clone, Copy)]
struct Fixing {
    spot: Spot,
    code: u8,
    apart: bool,
}

/// The boxes that are left where a categorical field keeps its code. They are those whose set there has
/// the code, made whole there, without those that lie inside another. A box that was whole there is
/// unchanged. Codes avoid these boxes exactly where, with the code at the field, they avoid the given
/// ones. These are over one survey's fields, and the code is one of the field's.
pub fn fix(
    alloc: Global,
    boxes: &[BoxFrom],
    field: u32,
    code: u8,
) -> Result<Vec<BoxFrom>, OutOfMemory>
    requires { HaveCode boxes.now field code }
    ensures exact { IfOk result (λ left. ForShape boxes.now field code (λ shape.
        left.items ≡ fixed_from shape boxes.now field code)) }
    ensures over { IfOk result (λ left. ForShape boxes.now field code (λ shape.
        AreBoxesOver shape left.items)) }
    ensures origins { IfOk result (λ left. ForShape boxes.now field code (λ shape.
        AllCome (ComesFromFix shape boxes.now field code) left.items)) }
    ensures sets { IfOk result (λ left. ForShape boxes.now field code (λ shape.
        sets_of left.items ≡ fixed shape (sets_of boxes.now) field code)) }
    ensures same { IfOk result (λ left. ForShape boxes.now field code (λ shape.
        SayWithCode shape boxes.now field code left.items)) }
    ensures apart { IfOk result (λ left. LieApart left.items) }
{
    match boxes.first() {
        None => Ok(Vec::new(alloc)),
        Some(first) => {
            let spot = spot_of(first.shape(), field);
            fix_at(
                alloc,
                boxes,
                &Fixing {
                    spot,
                    code,
                    apart: false,
                },
            )
        }
    }
}

/// The boxes that are left where a categorical field keeps its code, as [`fix`] tells them, of boxes of
/// which none lies inside another. Those that are whole at the field stay as they were, so they are not
/// compared with one another, for speed.
pub fn fix_apart(
    alloc: Global,
    boxes: &[BoxFrom],
    field: u32,
    code: u8,
) -> Result<Vec<BoxFrom>, OutOfMemory>
    requires code { HaveCode boxes.now field code }
    requires apart { LieApart boxes.now }
    ensures exact { IfOk result (λ left. ForShape boxes.now field code (λ shape.
        left.items ≡ fixed_from shape boxes.now field code)) }
    ensures over { IfOk result (λ left. ForShape boxes.now field code (λ shape.
        AreBoxesOver shape left.items)) }
    ensures apart { IfOk result (λ left. LieApart left.items) }
{
    match boxes.first() {
        None => Ok(Vec::new(alloc)),
        Some(first) => {
            let spot = spot_of(first.shape(), field);
            fix_at(
                alloc,
                boxes,
                &Fixing {
                    spot,
                    code,
                    apart: true,
                },
            )
        }
    }
}

// The boxes that are left where the field keeps its code, as [`fix`] tells them. `by` has the field and
// the code, and says whether the boxes lie apart.
fn fix_at(alloc: Global, boxes: &[BoxFrom], by: &Fixing) -> Result<Vec<BoxFrom>, OutOfMemory>
    requires over { AreBoxesOver (domains by.now.spot.shape) boxes.now }
    requires apart { by.now.apart ≡ true → LieApart boxes.now }
    ensures left { IfOk result (λ left. left.items
        ≡ reduce_from (each_from (fixed_one by.now.spot.place by.now.spot.whole by.now.code) 0 boxes.now)) }
    ensures fit { OnOk result (AreBoxes boxes.now) }
{
    let mut kept = Vec::with_capacity(alloc, boxes.len())?;
    for (i, b) in boxes.iter().enumerate() {
        take_fixed(alloc, &mut kept, by, i as u64, b)?;
    }
    Ok(kept)
}

// Takes the box `b`, at the place `i`, into the kept ones, made whole at the spot's field. A box
// without the code there is left out, since it forbids nothing where the field keeps the code.
fn take_fixed(
    alloc: Global,
    kept: &mut Vec<BoxFrom>,
    by: &Fixing,
    i: u64,
    b: &BoxFrom,
) -> Result<(), OutOfMemory>
    requires shape { b.now.code_box.shape ≡ domains by.now.spot.shape }
    requires clear { by.now.apart ≡ true → All (λ k. IsClear by.now.spot.place by.now.spot.whole k b.now.code_box.sets) kept.old.items }
    ensures kept { OnOk result (kept.new.items ≡ fold with_from kept.old.items
        (fixed_one by.now.spot.place by.now.spot.whole by.now.code i b.now)) }
    ensures fit { IsBox b.now.code_box }
{
    let set = set_at(b, &by.spot);
    if !has_code(set, by.code) {
        return Ok(());
    }
    if set == by.spot.whole {
        take_unchanged(alloc, kept, by, i, b)
    } else {
        take_widened(alloc, kept, by, i, b)
    }
}

// Takes the box `b`, at the place `i` and whole at the spot's field, into the kept ones. Where the boxes
// lie apart, no kept box can lie inside it, and none is looked for.
fn take_unchanged(
    alloc: Global,
    kept: &mut Vec<BoxFrom>,
    by: &Fixing,
    i: u64,
    b: &BoxFrom,
) -> Result<(), OutOfMemory>
    requires shape { b.now.code_box.shape ≡ domains by.now.spot.shape }
    requires whole { is_whole_at by.now.spot.place by.now.spot.whole b.now.code_box.sets ≡ true }
    requires clear { by.now.apart ≡ true → All (λ k. IsClear by.now.spot.place by.now.spot.whole k b.now.code_box.sets) kept.old.items }
    ensures { OnOk result (kept.new.items ≡ with_from kept.old.items (from_of b.now.code_box.shape b.now.code_box.sets (Unchanged i))) }
{
    if lie_in_compared(b.sets(), kept, by.apart) {
        return Ok(());
    }
    let new = BoxFrom {
        code_box: b.code_box.copy(alloc)?,
        origin: BoxOrigin::Unchanged(i),
    };
    if by.apart {
        kept.push(new)?;
        Ok(())
    } else {
        replace_inside(kept, new)
    }
}

// Takes the box `b`, at the place `i`, into the kept ones. It is not whole at the spot's field, and is
// made whole there. Where it then lies inside a kept one, nothing is done.
fn take_widened(
    alloc: Global,
    kept: &mut Vec<BoxFrom>,
    by: &Fixing,
    i: u64,
    b: &BoxFrom,
) -> Result<(), OutOfMemory>
    requires shape { b.now.code_box.shape ≡ domains by.now.spot.shape }
    requires clear { by.now.apart ≡ true → All (λ k. IsClear by.now.spot.place by.now.spot.whole k b.now.code_box.sets) kept.old.items }
    ensures { OnOk result (kept.new.items ≡ with_from kept.old.items
        (from_of b.now.code_box.shape (slice_set b.now.code_box.sets by.now.spot.place by.now.spot.whole) (Fixed i))) }
{
    let _sets = b.sets(); // read for what it says: its sets have no codes but their fields'
    let widened = BoxFrom {
        code_box: made_whole(alloc, &by.spot, b)?,
        origin: BoxOrigin::Fixed(i),
    };
    take_compared(kept, widened, by.apart)
}

// Appends the box and removes the kept ones that lie inside it. Nothing is done where the box lies
// inside a kept one with which it is compared, as `is_compared` tells. `apart` says whether the given
// boxes lie apart.
fn take_compared(kept: &mut Vec<BoxFrom>, new: BoxFrom, apart: bool) -> Result<(), OutOfMemory>
    ensures { OnOk result (kept.new.items ≡
        (if list_any (λ b. is_compared apart b.origin && are_subsets new.code_box.sets b.code_box.sets) kept.old.items
        then kept.old.items
        else filter (λ b. not (are_subsets b.code_box.sets new.code_box.sets)) kept.old.items ++ new ∷ [])) }
{
    if lie_in_compared(new.sets(), kept, apart) {
        return Ok(());
    }
    replace_inside(kept, new)
}

// Whether the sets lie inside those of a kept box with which they are compared, as `is_compared` tells.
fn lie_in_compared(sets: &[u64], kept: &[BoxFrom], apart: bool) -> bool
    ensures { result ≡ list_any (λ b. is_compared apart b.origin && are_subsets sets.now b.code_box.sets) kept.now }
{
    kept.iter().any(|b| is_compared(&b.origin, apart) && b.code_box.has_inside(sets))
}

// Whether a later box is compared with the kept one of this origin. Where `apart` says that the given
// boxes lie apart, it can lie only inside one that was made whole.
fn is_compared(origin: &BoxOrigin, apart: bool) -> bool
    ensures { result ≡ is_compared apart origin.now }
{
    !apart || matches!(origin, BoxOrigin::Fixed(_))
}

// The same box, but with all codes at the spot's field.
fn made_whole(alloc: Global, spot: &Spot, b: &BoxFrom) -> Result<CodeBox, OutOfMemory>
    requires { b.now.code_box.shape ≡ domains spot.now.shape }
    ensures { IfOk result (λ whole. whole ≡ box_of b.now.code_box.shape (slice_set b.now.code_box.sets spot.now.place spot.now.whole)) }
{
    let mut sets = Vec::from_slice(alloc, b.sets())?;
    sets[spot.place] = spot.whole;
    Ok(CodeBox::over(b.shape(), sets))
}
