//! The covers of a field's codes, made code by code: intersections of one box for each code, whole at
//! the field. Whatever code the field has, one of these boxes forbids what a cover has. Below, `spot`
//! is the field, and `at` the field with one of its codes; `next` are the covers with one code more. A
//! box is whole at a field where it has all its codes there. Places are those of the given boxes, from
//! 0.
ghost use Rattle.std.specs.Prelude.{◌≡◌, ◌++◌, [], ◌∷◌, true, IfOk, OnOk};
ghost use Rattle.std.specs.List.{fold};
ghost use Rattle.edit_line.specs.Sets.{AreSets, none_is_empty};
ghost use Rattle.edit_line.specs.Domains.{domains};
ghost use Rattle.edit_line.specs.Shapes.{whole_sets};
ghost use Rattle.categ_combine.specs.BoxLists.{AreBoxesOver, with_from};
ghost use Rattle.categ_combine.specs.Covers.{cover_parts, joined_for, meets_but, next_cover, row_of, takes_part, with_code_from};

use crate::box_from::{BoxFrom, BoxOrigin};
use crate::code_field::set_at;
use crate::reduction::{lie_inside, replace_inside};
use crate::spot::{CodeAt, Spot};
use edit_line::{CodeBox, has_code, has_codes, narrow};
use foundation::{OutOfMemory, Sequence};
use std::alloc::Global;

/// The covers of one more code that are made so far, none of them inside another, and room for the sets of the next.
#[derive(Drop)]
struct CoverWork {
    next: Vec<BoxFrom>,
    sets: Vec<u64>,
}

/// The covers of one code more than `covers` have. Each is what one of `covers` has in common with a
/// box that takes part for the code. Those that lie inside another are left out.
pub(crate) fn with_code(
    alloc: Global,
    boxes: &[BoxFrom],
    covers: &[BoxFrom],
    at: &CodeAt,
) -> Result<Vec<BoxFrom>, OutOfMemory>
    requires boxes { AreBoxesOver (domains at.now.spot.shape) boxes.now }
    requires covers { AreBoxesOver (domains at.now.spot.shape) covers.now }
    ensures next { IfOk result (λ next. next.items
        ≡ with_code_from at.now.spot.place at.now.spot.whole boxes.now covers.now at.now.code) }
    ensures over { IfOk result (λ next. AreBoxesOver (domains at.now.spot.shape) next.items) }
{
    let mut work = CoverWork {
        next: Vec::new(alloc),
        sets: Vec::new(alloc),
    };
    for cover in covers {
        take_intersections(alloc, &mut work, boxes, cover, at)?;
    }
    Ok(work.next)
}

/// Whether the box may be a cover's part for the code at the spot's field. It has the code there, but
/// not all codes: a box with all stays as it is.
pub(crate) fn takes_part(b: &BoxFrom, at: &CodeAt) -> bool
    requires { b.now.code_box.shape ≡ domains at.now.spot.shape }
    ensures { result ≡ takes_part at.now.spot.place at.now.spot.whole at.now.code b.now.code_box.sets }
{
    let set = set_at(b, &at.spot);
    set != at.spot.whole && has_code(set, at.code)
}

// Takes into the next covers what the cover has in common with each box that takes part for the code.
fn take_intersections(
    alloc: Global,
    work: &mut CoverWork,
    boxes: &[BoxFrom],
    cover: &BoxFrom,
    at: &CodeAt,
) -> Result<(), OutOfMemory>
    requires boxes { AreBoxesOver (domains at.now.spot.shape) boxes.now }
    requires cover { cover.now.code_box.shape ≡ domains at.now.spot.shape }
    ensures { OnOk result (work.new.next.items ≡ fold with_from work.old.next.items
        (row_of at.now.spot.place at.now.spot.whole at.now.code boxes.now cover.now)) }
{
    for (i, b) in boxes.iter().enumerate() {
        take_intersection(alloc, work, cover, at, i as u64, b)?;
    }
    Ok(())
}

// Takes into the next covers what the cover has in common with the box `b`, at the place, which is then
// its next part. Nothing is taken where the box does not take part for the code, or where a set comes
// out empty. No box is made of what is left out.
fn take_intersection(
    alloc: Global,
    work: &mut CoverWork,
    cover: &BoxFrom,
    at: &CodeAt,
    place: u64,
    b: &BoxFrom,
) -> Result<(), OutOfMemory>
    requires cover { cover.now.code_box.shape ≡ domains at.now.spot.shape }
    requires other { b.now.code_box.shape ≡ domains at.now.spot.shape }
    ensures { OnOk result (work.new.next.items ≡ fold with_from work.old.next.items
        (joined_for at.now.spot.place at.now.spot.whole at.now.code cover.now place b.now)) }
{
    if !takes_part(b, at) {
        return Ok(());
    }
    write_intersection(&mut work.sets, cover, &at.spot, b)?;
    if has_codes(&work.sets) {
        take_sets(alloc, &mut work.next, &work.sets, cover, place)
    } else {
        Ok(())
    }
}

// Writes into `sets` what the cover and the box have in common on the other fields, and the whole set at
// the spot's field.
fn write_intersection(
    sets: &mut Vec<u64>,
    cover: &BoxFrom,
    spot: &Spot,
    b: &BoxFrom,
) -> Result<(), OutOfMemory>
    requires cover { cover.now.code_box.shape ≡ domains spot.now.shape }
    requires other { b.now.code_box.shape ≡ domains spot.now.shape }
    ensures joined { OnOk result (sets.new.items ≡ meets_but spot.now.place spot.now.whole cover.now.code_box.sets b.now.code_box.sets) }
    ensures fit { OnOk result (none_is_empty sets.new.items ≡ true → AreSets sets.new.items (whole_sets cover.now.code_box.shape)) }
{
    sets.clear();
    sets.extend_from_slice(cover.sets())?;
    narrow(sets, b.sets());
    sets[spot.place] = spot.whole;
    Ok(())
}

// Takes the cover of these sets into the next covers, unless it lies inside one of them. Its parts are
// those of `cover`, and behind them the box at the place.
fn take_sets(
    alloc: Global,
    next: &mut Vec<BoxFrom>,
    sets: &[u64],
    cover: &BoxFrom,
    place: u64,
) -> Result<(), OutOfMemory>
    requires { AreSets sets.now (whole_sets cover.now.code_box.shape) }
    ensures { OnOk result (next.new.items ≡ with_from next.old.items (next_cover cover.now sets.now place)) }
{
    if lie_inside(sets, next) {
        return Ok(());
    }
    let code_box = CodeBox::over(cover.shape(), Vec::from_slice(alloc, sets)?);
    let parts = with_part(alloc, parts_of(&cover.origin), place)?;
    let origin = BoxOrigin::Cover(Sequence::from_vec(parts));
    replace_inside(next, BoxFrom { code_box, origin })
}

// The places of the boxes that a cover is made of, one for each code so far. A box that is no cover has
// none.
fn parts_of(origin: &BoxOrigin) -> &[u64]
    ensures { result.now ≡ cover_parts origin.now }
{
    match origin {
        BoxOrigin::Cover(parts) => parts.as_slice(),
        BoxOrigin::Failing(_) | BoxOrigin::Unchanged(_) | BoxOrigin::Fixed(_) => &[],
    }
}

// The places of a cover's parts, and behind them one more.
fn with_part(alloc: Global, parts: &[u64], part: u64) -> Result<Vec<u64>, OutOfMemory>
    ensures { IfOk result (λ all. all.items ≡ parts.now ++ part ∷ []) }
{
    let mut all = Vec::with_capacity(alloc, parts.len().saturating_add(1))?;
    all.extend_from_slice(parts)?;
    all.push(part)?;
    Ok(all)
}
