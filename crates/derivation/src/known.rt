//! What the steps so far have proved, found again by their places. In contracts, `meaning` has the line or
//! the box that was proved, however it is kept. `AllOver` says that all that was proved is over one shape.
ghost use Rattle.std.specs.Prelude.{◌≡◌, IfNone, IfOk, IfSome, List, None, Some, map, slice_get};
ghost use Rattle.edit_line.specs.Shapes.{Domain};
ghost use Rattle.derivation.specs.inner.Meanings.{AllOver, meaning};
ghost use Rattle.derivation.specs.Shown.{IsOver};
ghost use Rattle.derivation.specs.ValidSteps.{as_box, as_line};

use crate::proved::Proved;
use edit_line::{CodeBox, Line};
use foundation::OutOfMemory;
use std::alloc::Global;

/// What a step proved. A given line is not copied, and another stands behind a pointer, so that a long list
/// of given lines stays small.
#[derive(Drop)]
pub(crate) enum Known<'a> {
    Given(&'a Line),
    Line(Box<Line>),
    Box(Box<CodeBox>),
}

impl<'a> Known<'a> {
    /// What a step proved that made this line, put behind a pointer.
    pub(crate) fn of_line(alloc: Global, line: Line) -> Result<Known<'a>, OutOfMemory>
        ensures { IfOk result (λ known. meaning known ≡ Proved.Line line) }
    {
        Ok(Known::Line(Box::new(alloc, line)?))
    }

    /// What a step proved that made this box, put behind a pointer.
    pub(crate) fn of_box(alloc: Global, code_box: CodeBox) -> Result<Known<'a>, OutOfMemory>
        ensures { IfOk result (λ known. meaning known ≡ Proved.Box code_box) }
    {
        Ok(Known::Box(Box::new(alloc, code_box)?))
    }

    // The line, or None where a box was proved. No memory.
    fn line(&self) -> Option<&Line>
        ensures some { IfSome result (λ line. meaning self.now ≡ Proved.Line line.now) }
        ensures none { IfNone result (as_line (Some (meaning self.now)) ≡ None) }
    {
        match self {
            Known::Given(line) => Some(*line),
            Known::Line(line) => Some(&**line),
            Known::Box(_) => None,
        }
    }

    // The box, or None where a line was proved. No memory.
    fn code_box(&self) -> Option<&CodeBox>
        ensures some { IfSome result (λ b. meaning self.now ≡ Proved.Box b.now) }
        ensures none { IfNone result (as_box (Some (meaning self.now)) ≡ None) }
    {
        match self {
            Known::Given(_) | Known::Line(_) => None,
            Known::Box(code_box) => Some(&**code_box),
        }
    }

    /// What was proved, as a value of its own: a given line is copied.
    pub(crate) fn into_proved(self, alloc: Global) -> Result<Proved, OutOfMemory>
        ensures { IfOk result (λ proved. proved ≡ meaning self.entry) }
    {
        match self {
            Known::Given(line) => Ok(Proved::Line(line.copy(alloc)?)),
            Known::Line(line) => Ok(Proved::Line(Box::into_inner(line))),
            Known::Box(code_box) => Ok(Proved::Box(Box::into_inner(code_box))),
        }
    }
}

/// The line that the step at a place, from 0, proved. None where no earlier step has the place, or that
/// one proved a box. No memory.
pub(crate) fn line_at<'k, 'a>(known: &'k [Known<'a>], place: u64) -> Option<&'k Line>
    ensures some { IfSome result (λ line. slice_get (map meaning known.now) place ≡ Some (Proved.Line line.now)) }
    ensures none { IfNone result (as_line (slice_get (map meaning known.now) place) ≡ None) }
    ensures over { IfSome result (λ line. (shape : List Domain) → AllOver shape known.now → line.now.shape ≡ shape) }
{
    match known_at(known, place) {
        None => None,
        Some(one) => one.line(),
    }
}

/// The box that the step at a place, from 0, proved. None where no earlier step has the place, or that
/// one proved a line. No memory.
pub(crate) fn box_at<'k, 'a>(known: &'k [Known<'a>], place: u64) -> Option<&'k CodeBox>
    ensures some { IfSome result (λ b. slice_get (map meaning known.now) place ≡ Some (Proved.Box b.now)) }
    ensures none { IfNone result (as_box (slice_get (map meaning known.now) place) ≡ None) }
    ensures over { IfSome result (λ b. (shape : List Domain) → AllOver shape known.now → b.now.shape ≡ shape) }
{
    match known_at(known, place) {
        None => None,
        Some(one) => one.code_box(),
    }
}

// What the step at a place, from 0, proved, a line or a box. None where no earlier step has the place.
// No memory.
fn known_at<'k, 'a>(known: &'k [Known<'a>], place: u64) -> Option<&'k Known<'a>>
    ensures some { IfSome result (λ one. slice_get (map meaning known.now) place ≡ Some (meaning one.now)) }
    ensures none { IfNone result (slice_get (map meaning known.now) place ≡ None) }
    ensures over { IfSome result (λ one. (shape : List Domain) → AllOver shape known.now → IsOver shape (meaning one.now)) }
{
    if place < known.len() as u64 {
        Some(&known[place as usize])
    } else {
        None
    }
}
