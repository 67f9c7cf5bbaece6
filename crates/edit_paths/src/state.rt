//! What becomes of a path of the search: it is open, closed by something that was found, or past the range
//! of numbers.
ghost use Rattle.std.specs.Prelude.{◌≡◌};
ghost use Rattle.edit_paths.specs.PathStates.{is_closed, is_open};

use bound_cert::Event;

/// What becomes of a path. Places are those in its system or its boxes, from 0.
#[derive(Clone, Copy)]
pub enum PathState {
    /// It is neither closed nor past the range.
    Open,
    /// It keeps a field at which the record has no value.
    ClosedBad,
    /// The line at this place of its system fails, whatever the codes are and the fields that are not kept.
    ClosedLine(u64),
    /// The box at this place has all codes.
    ClosedBox(u64),
    /// A number that is computed for it leaves the range.
    Overflows(Event),
}

impl PathState {
    /// Whether the search goes on from the path, or ends with it where it treats all fields. No memory.
    pub fn is_open(self) -> bool
        ensures { result ≡ is_open self }
    {
        matches!(self, PathState::Open)
    }

    /// Whether something was found by which no correction keeps what the path keeps. Where a number left the
    /// range, a path is neither closed nor open. No memory.
    pub fn is_closed(self) -> bool
        ensures { result ≡ is_closed self }
    {
        matches!(
            self,
            PathState::ClosedBad | PathState::ClosedLine(_) | PathState::ClosedBox(_)
        )
    }
}
