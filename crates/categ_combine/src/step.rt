//! The elimination of one categorical field from boxes: what they forbid of the other fields, whatever
//! code the field has. A box is whole at a field where it has all its codes there. Places are those of
//! the given boxes, from 0.
//!
//! In contracts, `HaveCodeField` says that the boxes are over one survey's fields, and the field is a
//! categorical one. `ForShape` speaks of that survey's shape, and `IsDone` of the answer `Done`.
//! `cover_count` and `cover_pairs` are the pairs of a cover and a box that are looked at.
ghost use Rattle.std.specs.Prelude.{◌≡◌, ◌<◌, ◌≤◌, ◌*◌, ◌↔◌, ◌++◌, IfNone, IfOk, IfSome, OnOk, length, true};
ghost use Rattle.std.specs.List.{filter, fold};
ghost use Rattle.edit_line.specs.Boxes.{IsBox};
ghost use Rattle.edit_line.specs.Domains.{domains};
ghost use Rattle.categ_combine.specs.Apart.{LieApart};
ghost use Rattle.categ_combine.specs.BoxLists.{AreBoxesOver, ForShape, HaveCodeField, SayWithSomeCode, reduce_from, sets_of, with_from};
ghost use Rattle.categ_combine.specs.inner.FitBoxes.{AreBoxes};
ghost use Rattle.categ_combine.specs.inner.SpotCovers.{cover_pairs, covers_at};
ghost use Rattle.edit_line.specs.CodeFields.{TakesCodes};
ghost use Rattle.categ_combine.specs.Covers.{IsElimination, cover_count, covered, first_cover, takes_part, unchanged_one};
ghost use Rattle.categ_combine.specs.Each.{each_from};
ghost use Rattle.categ_combine.specs.Origins.{AllCome, ComesFromCover};
ghost use Rattle.categ_combine.specs.Steps.{IsDone, IsPassed};

use crate::box_from::{BoxFrom, BoxOrigin};
use crate::code_field::{set_at, spot_of};
use crate::cover::{takes_part, with_code};
use crate::covered::Covered;
use crate::reduction::take_in;
use crate::spot::{CodeAt, Spot};
use edit_line::{CodeBox, Shape};
use foundation::{OutOfMemory, Sequence};
use std::alloc::Global;

// The covers that are made of the boxes, and how many pairs of a cover and a box were looked at for them.
#[derive(Drop)]
struct Covers {
    boxes: Vec<BoxFrom>,
    pairs: u64,
}

/// The boxes without a categorical field (Fellegi and Holt 1976): those that are whole there, and the
/// covers of the others. A cover is made of one box for each code, which has that code; it is what these
/// have in common on the other fields. Its origin names them, in the order of the codes. Codes avoid what
/// is left exactly where, with some code at the field, they avoid the given boxes. At most `most` pairs of
/// a box and a cover of the codes so far are looked at; `Passed` comes exactly where there are more.
pub fn cat_step(
    alloc: Global,
    boxes: &[BoxFrom],
    field: u32,
    most: u64,
) -> Result<Covered, OutOfMemory>
    requires { HaveCodeField boxes.now field }
    ensures exact { IfOk result (λ told. ForShape boxes.now field 0 (λ shape.
        IsDone told (IsElimination shape boxes.now field))) }
    ensures passed { IfOk result (λ told. ForShape boxes.now field 0 (λ shape.
        IsPassed told ↔ (most < cover_count shape (sets_of boxes.now) field))) }
    ensures over { IfOk result (λ told. ForShape boxes.now field 0 (λ shape.
        IsDone told (λ left _. AreBoxesOver shape left))) }
    ensures origins { IfOk result (λ told. ForShape boxes.now field 0 (λ shape.
        IsDone told (λ left _. AllCome (ComesFromCover shape boxes.now field) left))) }
    ensures sets { IfOk result (λ told. ForShape boxes.now field 0 (λ shape.
        IsDone told (λ left _. sets_of left ≡ covered shape (sets_of boxes.now) field))) }
    ensures same { IfOk result (λ told. ForShape boxes.now field 0 (λ shape.
        IsDone told (λ left _. SayWithSomeCode shape boxes.now field left))) }
    ensures apart { IfOk result (λ told. IsDone told (λ left _. LieApart left)) }
{
    match boxes.first() {
        None => Ok(Covered::Done {
            boxes: Sequence::from_vec(Vec::new(alloc)),
            pairs: 0,
        }),
        Some(first) => step_over(alloc, first.shape(), boxes, field, most, false),
    }
}

/// The boxes without a categorical field, as [`cat_step`] tells them, of boxes of which none lies inside
/// another. Those that are whole at the field stay as they were, so they are not compared with one another.
pub fn step_apart(
    alloc: Global,
    boxes: &[BoxFrom],
    field: u32,
    most: u64,
) -> Result<Covered, OutOfMemory>
    requires field { HaveCodeField boxes.now field }
    requires apart { LieApart boxes.now }
    ensures exact { IfOk result (λ told. ForShape boxes.now field 0 (λ shape.
        IsDone told (IsElimination shape boxes.now field))) }
    ensures passed { IfOk result (λ told. ForShape boxes.now field 0 (λ shape.
        IsPassed told ↔ (most < cover_count shape (sets_of boxes.now) field))) }
    ensures over { IfOk result (λ told. ForShape boxes.now field 0 (λ shape.
        IsDone told (λ left _. AreBoxesOver shape left))) }
    ensures apart { IfOk result (λ told. IsDone told (λ left _. LieApart left)) }
{
    match boxes.first() {
        None => cat_step(alloc, boxes, field, most),
        Some(first) => step_over(alloc, first.shape(), boxes, field, most, true),
    }
}

// What [`cat_step`] tells of boxes over this shape: those without the field, or `Passed`. `apart` says
// that none of the boxes lies inside another.
fn step_over(
    alloc: Global,
    shape: Shape,
    boxes: &[BoxFrom],
    field: u32,
    most: u64,
    apart: bool,
) -> Result<Covered, OutOfMemory>
    requires over { AreBoxesOver (domains shape) boxes.now }
    requires apart { apart ≡ true → LieApart boxes.now }
    requires field { TakesCodes (domains shape) field }
    ensures exact { IfOk result (λ told. IsDone told (IsElimination (domains shape) boxes.now field)) }
    ensures passed { IfOk result (λ told. IsPassed told ↔ (most < cover_count (domains shape) (sets_of boxes.now) field)) }
    ensures fit { IfOk result (λ told. IsDone told (λ left pairs. AreBoxes boxes.now)) }
{
    let spot = spot_of(shape, field);
    let size = shape.size_of(field);
    match covers_of(alloc, boxes, &spot, size, most)? {
        None => Ok(Covered::Passed),
        Some(covers) => {
            let kept = with_all(whole_boxes(alloc, boxes, &spot, apart)?, covers.boxes)?;
            Ok(Covered::Done {
                boxes: Sequence::from_vec(kept),
                pairs: covers.pairs,
            })
        }
    }
}

// The covers of all codes of the field, which are those below `size`. None where more pairs than `most`
// would be looked at. The pairs of a code are counted before they are looked at.
fn covers_of(
    alloc: Global,
    boxes: &[BoxFrom],
    spot: &Spot,
    size: u8,
    most: u64,
) -> Result<Option<Covers>, OutOfMemory>
    requires { AreBoxesOver (domains spot.now.shape) boxes.now }
    ensures covers { IfOk result (λ found. IfSome found (λ covers. covers.boxes.items ≡ covers_at spot.now boxes.now size)) }
    ensures pairs { IfOk result (λ found. IfSome found (λ covers.
        (covers.pairs ≤ most) × (covers.pairs ≡ cover_pairs spot.now boxes.now size))) }
    ensures passed { IfOk result (λ found. IfNone found (most < cover_pairs spot.now boxes.now size)) }
{
    let mut covers = Vec::new(alloc);
    covers.push(first_cover(alloc, spot)?)?;
    let mut pairs = 0;
    for code in 0..size {
        let at = CodeAt { spot: *spot, code };
        let more = pairs_for(boxes, covers.len(), &at);
        if more > u128::from(most - pairs) {
            return Ok(None);
        }
        pairs += more as u64;
        covers = with_code(alloc, boxes, &covers, &at)?;
    }
    Ok(Some(Covers {
        boxes: covers,
        pairs,
    }))
}

// The cover of no code yet: the box of all codes, with no parts.
fn first_cover(alloc: Global, spot: &Spot) -> Result<BoxFrom, OutOfMemory>
    ensures { IfOk result (λ cover. cover ≡ first_cover (domains spot.now.shape)) }
{
    let sets = spot.shape.whole_sets(alloc)?;
    Ok(BoxFrom {
        code_box: CodeBox::over(spot.shape, sets),
        origin: BoxOrigin::Cover(Sequence::from_vec(Vec::new(alloc))),
    })
}

// How many pairs of a cover and a box are looked at for one code. It is `covers`, the number of the
// covers so far, times the number of boxes that take part for the code.
fn pairs_for(boxes: &[BoxFrom], covers: usize, at: &CodeAt) -> u128
    requires { AreBoxesOver (domains at.now.spot.shape) boxes.now }
    ensures { result ≡ covers * length (filter (λ b.
        takes_part at.now.spot.place at.now.spot.whole at.now.code b.code_box.sets) boxes.now) }
{
    let parts = parts_for(boxes, at);
    covers as u128 * parts as u128
}

// How many of the boxes take part for the code: they have it at the spot's field, but not all codes. A
// box with all codes stays as it is, and is part of no cover.
fn parts_for(boxes: &[BoxFrom], at: &CodeAt) -> usize
    requires { AreBoxesOver (domains at.now.spot.shape) boxes.now }
    ensures { result ≡ length (filter (λ b.
        takes_part at.now.spot.place at.now.spot.whole at.now.code b.code_box.sets) boxes.now) }
{
    boxes.iter().filter(|b| takes_part(b, at)).count()
}

// The boxes that are whole at the spot's field, as they were, without those that lie inside another.
// Where `apart` says that the boxes lie apart, none does, and none is compared.
fn whole_boxes(
    alloc: Global,
    boxes: &[BoxFrom],
    spot: &Spot,
    apart: bool,
) -> Result<Vec<BoxFrom>, OutOfMemory>
    requires over { AreBoxesOver (domains spot.now.shape) boxes.now }
    requires apart { apart ≡ true → LieApart boxes.now }
    ensures kept { IfOk result (λ kept. kept.items ≡ reduce_from (each_from (unchanged_one spot.now.place spot.now.whole) 0 boxes.now)) }
    ensures fit { OnOk result (AreBoxes boxes.now) }
{
    let whole = whole_copies(alloc, boxes, spot)?;
    if apart {
        Ok(whole)
    } else {
        with_all(Vec::new(alloc), whole)
    }
}

// Copies of the boxes that are whole at the spot's field, each with its place as its origin.
fn whole_copies(alloc: Global, boxes: &[BoxFrom], spot: &Spot) -> Result<Vec<BoxFrom>, OutOfMemory>
    requires { AreBoxesOver (domains spot.now.shape) boxes.now }
    ensures whole { IfOk result (λ whole. whole.items ≡ each_from (unchanged_one spot.now.place spot.now.whole) 0 boxes.now) }
    ensures fit { OnOk result (AreBoxes boxes.now) }
{
    let mut whole = Vec::with_capacity(alloc, boxes.len())?;
    for (i, b) in boxes.iter().enumerate() {
        push_whole(alloc, &mut whole, spot, i as u64, b)?;
    }
    Ok(whole)
}

// Appends a copy of the box `b`, at the place `i`, if it is whole at the spot's field. Its origin says
// that it is unchanged.
fn push_whole(
    alloc: Global,
    whole: &mut Vec<BoxFrom>,
    spot: &Spot,
    i: u64,
    b: &BoxFrom,
) -> Result<(), OutOfMemory>
    requires { b.now.code_box.shape ≡ domains spot.now.shape }
    ensures whole { OnOk result (whole.new.items ≡ whole.old.items ++ unchanged_one spot.now.place spot.now.whole i b.now) }
    ensures fit { IsBox b.now.code_box }
{
    if set_at(b, spot) != spot.whole {
        return Ok(());
    }
    let code_box = b.code_box.copy(alloc)?;
    whole.push(BoxFrom {
        code_box,
        origin: BoxOrigin::Unchanged(i),
    })?;
    Ok(())
}

// The kept boxes, and then these, taken in one after the other. Those that lie inside another are left
// out.
fn with_all(mut kept: Vec<BoxFrom>, boxes: Vec<BoxFrom>) -> Result<Vec<BoxFrom>, OutOfMemory>
    ensures { IfOk result (λ all. all.items ≡ fold with_from kept.items boxes.items) }
{
    for b in boxes {
        take_in(&mut kept, b)?;
    }
    Ok(kept)
}
