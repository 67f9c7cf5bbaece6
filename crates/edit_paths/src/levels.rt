//! Lists of lines or boxes, each derived from the one before it, and how their elements were made. From
//! them the steps of a certificate are written. A place is that of an element in its list, from 0. In
//! contracts, `makings_of` says how the elements of a list were made.
ghost use Rattle.std.specs.Prelude.{◌≡◌, IfOk};
ghost use Rattle.edit_paths.specs.Histories.{box_by, line_by, making_at};
ghost use Rattle.edit_paths.specs.Levels.{makings_of};
ghost use Rattle.edit_paths.specs.inner.Writing.{earlier_of};

use crate::making::Making;
use categ_combine::{BoxFrom, BoxOrigin};
use derivation::Step;
use edit_line::Origin;
use foundation::{OutOfMemory, Sequence};
use linear_elim::Held;
use std::alloc::Global;
use std::sync::Arc;

/// A list of lines or boxes that was derived from the list before it. It is shared with who made it.
#[derive(Drop)]
pub enum Level {
    /// The lines of a system.
    Lines(Arc<Held>),
    /// The boxes after this categorical field was eliminated or fixed. The first boxes come from lines that
    /// fail, and from no field; they stand with field 0, which is then not read.
    Boxes {
        field: u32,
        boxes: Arc<Sequence<BoxFrom>>,
    },
}

/// How the element at this place of the list was made: by a step, or not at all, since it was in the list
/// before. Past the end of the list the answer is `Same(0)`.
pub(crate) fn making_at(alloc: Global, level: &Level, place: u64) -> Result<Making, OutOfMemory>
    ensures { IfOk result (λ making. making ≡ making_at (makings_of level.now) place) }
{
    match level {
        Level::Lines(held) => match held.system().lines().get(place as usize) {
            Some(derived) => Ok(line_by(derived.origin)),
            None => Ok(Making::Same(0)),
        },
        Level::Boxes { field, boxes } => match boxes.as_slice().get(place as usize) {
            Some(from) => Ok(box_by(alloc, *field, &from.origin)?),
            None => Ok(Making::Same(0)),
        },
    }
}

/// The place, in the list before, from which the element at this place was taken over as it was. None where
/// a step made it. Past the end of the list the answer is place 0, as by [`making_at`]. No memory, since no
/// step is copied.
pub(crate) fn earlier_at(level: &Level, place: u64) -> Option<u64>
    ensures { result ≡ earlier_of (making_at (makings_of level.now) place) }
{
    match level {
        Level::Lines(held) => match held.system().lines().get(place as usize) {
            Some(derived) => earlier_line(derived.origin),
            None => Some(0),
        },
        Level::Boxes { field, boxes } => match boxes.as_slice().get(place as usize) {
            Some(from) => earlier_box(*field, &from.origin),
            None => Some(0),
        },
    }
}

/// How a line with this origin was made: an edit is a given line, and a pair is a combination. Any other was
/// taken over from the list before. No memory.
pub fn line_by(origin: Origin) -> Making
    ensures { result ≡ line_by origin }
{
    match origin {
        Origin::Base(number) => Making::By(Step::Given(number)),
        Origin::Same(place) => Making::Same(place),
        Origin::Pair { a, m, b, n, g } => Making::By(Step::Combine { a, m, b, n, g }),
    }
}

/// How a box with this origin was made, in the list that is left when `field` is eliminated from the boxes or
/// fixed in them. The steps that cover or fix a field name it. Memory may be refused for the parts of a cover.
pub fn box_by(alloc: Global, field: u32, origin: &BoxOrigin) -> Result<Making, OutOfMemory>
    ensures { IfOk result (λ making. making ≡ box_by field origin.now) }
{
    match origin {
        BoxOrigin::Failing(place) => Ok(Making::By(Step::Fail(*place))),
        BoxOrigin::Unchanged(place) => Ok(Making::Same(*place)),
        BoxOrigin::Fixed(place) => Ok(Making::By(Step::Fix {
            field,
            part: *place,
        })),
        BoxOrigin::Cover(parts) => Ok(Making::By(Step::Cover {
            field,
            parts: Sequence::from_vec(Vec::from_slice(alloc, parts.as_slice())?),
        })),
    }
}

// The place in the list before from which a line with this origin was taken over. None where it is an edit
// or a combination.
fn earlier_line(origin: Origin) -> Option<u64>
    ensures { result ≡ earlier_of (line_by origin) }
{
    match origin {
        Origin::Same(place) => Some(place),
        Origin::Base(_) | Origin::Pair { .. } => None,
    }
}

// The place in the list before from which a box with this origin was taken over. None where a step made it.
// `field` decides nothing: it is there for the contract, whose definition `box_by` asks for it.
fn earlier_box(field: u32, origin: &BoxOrigin) -> Option<u64>
    ensures { result ≡ earlier_of (box_by field origin.now) }
{
    match origin {
        BoxOrigin::Unchanged(place) => Some(*place),
        BoxOrigin::Failing(_) | BoxOrigin::Fixed(_) | BoxOrigin::Cover(_) => None,
    }
}
