//! Where a categorical field stands in the sets of a box, found once for all boxes.
ghost use Rattle.std.specs.Prelude.{◌≡◌, ◌≤◌, length, nat_lt, slice_index_or, take};
ghost use Rattle.std.specs.List.{filter};
ghost use Rattle.edit_line.specs.Boxes.{IsBox};
ghost use Rattle.edit_line.specs.Domains.{domains};
ghost use Rattle.edit_line.specs.CodeFields.{TakesCodes, place_of, whole_of};

use crate::box_from::BoxFrom;
use crate::spot::Spot;
use edit_line::{Shape, whole_set};

/// The categorical field as boxes are looked at for it: its place among the categorical fields, from 0,
/// and the set of all its codes. No memory.
pub(crate) fn spot_of(shape: Shape, field: u32) -> Spot
    requires { TakesCodes (domains shape) field }
    ensures place { result.place ≡ place_of (domains shape) field }
    ensures whole { result.whole ≡ whole_of (domains shape) field }
    ensures shape { result.shape ≡ shape }
{
    let place = place_of(&shape, field);
    let whole = whole_set(shape.size_of(field));
    Spot {
        shape,
        place,
        whole,
    }
}

// The field's place among the categorical fields, from 0: that of its set in a box. The field is
// categorical.
fn place_of(shape: &Shape, field: u32) -> usize
    requires { TakesCodes (domains shape.now) field }
    ensures { result ≡ place_of (domains shape.now) field }
{
    code_fields_before(shape.code_counts(), field as usize)
}

// How many fields before the field of this number, from 0, are categorical. `counts` has the number of
// codes of each field, which is 0 for a numerical one.
fn code_fields_before(counts: &[u8], field: usize) -> usize
    requires { field ≤ length counts.now }
    ensures { result ≡ length (filter (λ k. nat_lt 0 k) (take field counts.now)) }
{
    let before = &counts[..field];
    before.iter().filter(|k| **k > 0).count()
}

/// The box's set of codes, as bits, at the spot's field: it tells whether the box has a code there, or
/// all of them.
pub(crate) fn set_at(b: &BoxFrom, spot: &Spot) -> u64
    requires { b.now.code_box.shape ≡ domains spot.now.shape }
    ensures set { result ≡ slice_index_or b.now.code_box.sets spot.now.place 0 }
    ensures fit { IsBox b.now.code_box }
{
    b.sets()[spot.place]
}
