//! Categorical fields by their places in a box, as steps that make boxes need them.
ghost use Rattle.std.specs.Prelude.{◌≡◌, ◌<◌, ◌==◌, IfOk, length, slice_index_or};
ghost use Rattle.std.specs.List.{position};
ghost use Rattle.edit_line.specs.Shapes.{code_fields, shape_of, whole_sets};
ghost use Rattle.derivation.specs.inner.Meanings.{place_there};

use edit_line::Shape;
use edit_model::Survey;
use foundation::OutOfMemory;
use std::alloc::Global;

/// The field's place among the categorical fields, from 0: that of its set in a box. None where it is
/// none of them. No memory.
pub(crate) fn place_of(survey: &Survey, field: u32) -> Option<usize>
    ensures { result ≡ place_there (code_fields (shape_of survey.now.fields)) field }
{
    place_among(survey.codes(), field)
}

// The field's first place in the list, or None where it is not there.
fn place_among(fields: &[u32], field: u32) -> Option<usize>
    ensures { result ≡ position (λ i. i == field) fields.now }
{
    fields.iter().position(|f| *f == field)
}

/// The set of all codes, as bits, of the categorical field at this place.
pub(crate) fn whole_at(alloc: Global, survey: &Survey, place: usize) -> Result<u64, OutOfMemory>
    requires { place < length (whole_sets (shape_of survey.now.fields)) }
    ensures { IfOk result (λ whole. whole ≡ slice_index_or (whole_sets (shape_of survey.now.fields)) place 0) }
{
    let wholes = Shape::of(survey).whole_sets(alloc)?;
    Ok(wholes[place])
}
