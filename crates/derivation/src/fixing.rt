//! The step that makes a box whole at a kept field. As the field keeps its code, only the codes of the
//! other fields decide whether the box forbids them. A step that proves nothing, told as None, is not
//! valid. A box is whole at a field where it has all its codes there.
//!
//! In contracts, `meant` has what a step proved, and `premises` what it may build on. `IsBasis` says
//! that a basis's parts fit.
ghost use Rattle.std.specs.Prelude.{◌≡◌, ◌<◌, IfOk, Some, map, true};
ghost use Rattle.edit_model.specs.FieldSets.{has_number};
ghost use Rattle.edit_model.specs.Rows.{value_of};
ghost use Rattle.edit_line.specs.Shapes.{code_fields, has_field};
ghost use Rattle.derivation.specs.inner.Bases.{IsBasis, premises, shape_in};
ghost use Rattle.derivation.specs.inner.Meanings.{AllOver, meaning, meant, place_there};
ghost use Rattle.derivation.specs.ValidSteps.{fixed_box, fixed_sets, has_value};

use crate::basis::Basis;
use crate::code_field::{place_of, whole_at};
use crate::known::{Known, box_at};
use edit_line::{CodeBox, has_code};
use edit_model::Value;
use foundation::OutOfMemory;
use std::alloc::Global;

/// What a step `Fix` proves: the box that was proved at `part`, made whole at the field. None unless
/// the field is categorical and kept, a box was proved at `part`, and it has the record's code there.
pub(crate) fn fix_step<'a>(
    alloc: Global,
    basis: &Basis<'a>,
    known: &[Known<'a>],
    field: u32,
    part: u64,
) -> Result<Option<Known<'a>>, OutOfMemory>
    requires basis { IsBasis basis.now }
    requires over { AllOver (shape_in basis.now) known.now }
    ensures { IfOk result (λ made. meant made ≡ fixed_box (premises basis.now) (map meaning known.now) field part) }
{
    let Some(place) = place_of(basis.survey, field) else {
        return Ok(None);
    };
    if !is_kept(basis, field) {
        return Ok(None);
    }
    match box_at(known, part) {
        None => Ok(None),
        Some(code_box) => fix_at(alloc, basis, code_box, field, place),
    }
}

// Whether the categorical field is one of those that keep the record's value.
fn is_kept(basis: &Basis, field: u32) -> bool
    requires { has_field (code_fields (shape_in basis.now)) field ≡ true }
    ensures { result ≡ has_number basis.now.kept field }
{
    let _fields = basis.survey.fields(); // read for what it says: there are at most 64
    basis.kept.has(field)
}

// The box, made whole at the categorical field, which has this place among the categorical ones, from
// 0. None where the box has not the record's code there.
fn fix_at<'a>(
    alloc: Global,
    basis: &Basis<'a>,
    code_box: &CodeBox,
    field: u32,
    place: usize,
) -> Result<Option<Known<'a>>, OutOfMemory>
    requires basis { IsBasis basis.now }
    requires over { code_box.now.shape ≡ shape_in basis.now }
    requires place { place_there (code_fields (shape_in basis.now)) field ≡ Some place }
    ensures { IfOk result (λ made. meant made
        ≡ fixed_sets (shape_in basis.now) field (value_of basis.now.row.now field) code_box.now.sets) }
{
    let _fields = basis.survey.fields(); // read for what it says: a record has a value for each
    if !has_value(code_box.sets()[place], basis.row.value(field)) {
        return Ok(None);
    }
    let mut sets = Vec::from_slice(alloc, code_box.sets())?;
    let whole = whole_at(alloc, basis.survey, place)?;
    sets[place] = whole;
    let code_box = CodeBox::new(basis.survey, sets);
    Ok(Some(Known::of_box(alloc, code_box)?))
}

// Whether the value is a code of the set, which is kept as bits. It is not where the value is a number
// or missing.
fn has_value(set: u64, value: &Value) -> bool
    ensures { result ≡ has_value set value.now }
{
    match value {
        Value::Code(code) => has_code(set, *code),
        Value::Number(_) | Value::Bad => false,
    }
}
