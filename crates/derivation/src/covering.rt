//! The step that makes a box from one box for each code of a field. Whatever code the field has, one of
//! these boxes forbids what they have in common on the other fields. A step that proves nothing, told
//! as None, is not valid. A box is whole at a field where it has all its codes there.
//!
//! In contracts, `meant` has what a step proved, and `premises` what it may build on. `AreWithin` says
//! that no set has a code that its field has not. `IsBasis` says that a basis's parts fit.
ghost use Rattle.std.specs.Prelude.{◌≡◌, ◌≤◌, IfOk, IfSome, List, Some, length, map, option_map};
ghost use Rattle.edit_line.specs.inner.SetBounds.{AreWithin};
ghost use Rattle.edit_line.specs.Sets.{AreSets};
ghost use Rattle.edit_line.specs.Shapes.{Domain, code_fields, whole_sets};
ghost use Rattle.derivation.specs.inner.Bases.{IsBasis, premises, shape_in, wholes_in};
ghost use Rattle.derivation.specs.inner.Meanings.{AllOver, meaning, meant, place_there};
ghost use Rattle.derivation.specs.ValidSteps.{common_from, covered_box, covered_sets, part_with};

use crate::basis::Basis;
use crate::code_field::{place_of, whole_at};
use crate::known::{Known, box_at};
use edit_line::{CodeBox, Shape, has_code, has_codes, narrow};
use foundation::OutOfMemory;
use std::alloc::Global;

/// What a step `Cover` proves: the box of what the boxes of its parts have in common on the other
/// fields, whole at the field. None unless the field is categorical and has one part for each code, in
/// declared order. Each part has to be the place of a box with its code, and no set may come out empty.
pub(crate) fn cover_step<'a>(
    alloc: Global,
    basis: &Basis<'a>,
    known: &[Known<'a>],
    field: u32,
    parts: &[u64],
) -> Result<Option<Known<'a>>, OutOfMemory>
    requires basis { IsBasis basis.now }
    requires over { AllOver (shape_in basis.now) known.now }
    ensures { IfOk result (λ made. meant made ≡ covered_box (premises basis.now) (map meaning known.now) field parts.now) }
{
    let Some(place) = place_of(basis.survey, field) else {
        return Ok(None);
    };
    if parts.len() != Shape::of(basis.survey).size_of(field) as usize {
        return Ok(None);
    }
    match common_sets(alloc, basis, known, place, parts)? {
        None => Ok(None),
        Some(common) => cover_at(alloc, basis, common, field, place),
    }
}

// The box of these sets, made whole at the categorical field, which has this place among the
// categorical ones, from 0. None where another set of it is empty.
fn cover_at<'a>(
    alloc: Global,
    basis: &Basis<'a>,
    mut common: Vec<u64>,
    field: u32,
    place: usize,
) -> Result<Option<Known<'a>>, OutOfMemory>
    requires basis { IsBasis basis.now }
    requires within { AreWithin common.items (wholes_in basis.now) }
    requires place { place_there (code_fields (shape_in basis.now)) field ≡ Some place }
    ensures { IfOk result (λ made. meant made ≡ covered_sets (shape_in basis.now) field common.items) }
{
    let whole = whole_at(alloc, basis.survey, place)?;
    common[place] = whole;
    if has_codes(&common) {
        let code_box = CodeBox::new(basis.survey, common);
        Ok(Some(Known::of_box(alloc, code_box)?))
    } else {
        Ok(None)
    }
}

// What the boxes of the parts have in common, begun with all codes of each field. The first part is for
// code 0, and so on. None where a part is no box, or has not its code at the place, that of the field
// that is covered.
fn common_sets(
    alloc: Global,
    basis: &Basis,
    known: &[Known],
    place: usize,
    parts: &[u64],
) -> Result<Option<Vec<u64>>, OutOfMemory>
    requires basis { IsBasis basis.now }
    requires over { AllOver (shape_in basis.now) known.now }
    requires few { length parts.now ≤ 64 }
    ensures common { IfOk result (λ found. option_map (λ v. v.items) found
        ≡ common_from (map meaning known.now) place 0 parts.now (wholes_in basis.now)) }
    ensures within { IfOk result (λ found. IfSome found (λ sets.
        AreWithin sets.items (wholes_in basis.now))) }
{
    let mut common = Shape::of(basis.survey).whole_sets(alloc)?;
    for (code, part) in parts.iter().enumerate() {
        let Some(sets) = part_with(known, place, code as u8, *part) else {
            return Ok(None);
        };
        narrow(&mut common, sets);
    }
    Ok(Some(common))
}

// The sets of the box that was proved at `part`. None where no box was, or it has not the code at the
// place, that of the field that is covered. No memory.
fn part_with<'k>(known: &'k [Known], place: usize, code: u8, part: u64) -> Option<&'k [u64]>
    ensures part { option_map (λ s. s.now) result ≡ part_with (map meaning known.now) place code part }
    ensures fit { IfSome result (λ s. (shape : List Domain) → AllOver shape known.now → AreSets s.now (whole_sets shape)) }
{
    let sets = box_at(known, part)?.sets();
    match sets.get(place) {
        Some(set) if has_code(*set, code) => Some(sets),
        _ => None,
    }
}
