//! Where a walk ends, by the state of the path that it took last. In contracts, `TellsStop` and
//! `TellsClosed` say that an end that is answered is the walk's. Where `TellsClosed` has none, the path is
//! open.
ghost use Rattle.std.specs.Prelude.{◌≡◌, IfOk, true};
ghost use Rattle.path_walk.specs.Bases.{has_basis};
ghost use Rattle.prefix_walk.specs.inner.WalkEnds.{TellsClosed, TellsStop};

use crate::walk_end::WalkEnd;
use edit_paths::{Level, PathState, write_steps};
use foundation::{OutOfMemory, Sequence};
use std::alloc::Global;

/// The end of the walk at a path of this state, where no steps have to be written for it. Then a number left
/// the range, or the path keeps a field without a value. `work` is that of the walk with this path. None for
/// any other state, which is open or closed by steps.
pub(crate) fn stop_by(alloc: Global, state: PathState, work: u64) -> Option<WalkEnd>
    ensures { TellsStop state work result }
{
    match state {
        PathState::Overflows(_) => Some(WalkEnd::Overflow),
        PathState::ClosedBad => Some(WalkEnd::Closed {
            steps: Sequence::from_vec(Vec::new(alloc)),
            work,
        }),
        PathState::Open | PathState::ClosedLine(_) | PathState::ClosedBox(_) => None,
    }
}

/// The end of the walk at a path of this state, where steps close it. The levels are the lists that lead to
/// the path, and `work` is that of the walk with it. None where the path is open. A state at which
/// [`stop_by`] ends the walk does not come here (`has_basis`).
pub(crate) fn closed_by(
    alloc: Global,
    state: PathState,
    levels: &[Level],
    work: u64,
) -> Result<Option<WalkEnd>, OutOfMemory>
    requires { has_basis state ≡ true }
    ensures { IfOk result (TellsClosed state levels.now work) }
{
    match state {
        PathState::ClosedLine(place) | PathState::ClosedBox(place) => Ok(Some(WalkEnd::Closed {
            steps: write_steps(alloc, levels, place)?,
            work,
        })),
        PathState::Open | PathState::ClosedBad | PathState::Overflows(_) => Ok(None),
    }
}
