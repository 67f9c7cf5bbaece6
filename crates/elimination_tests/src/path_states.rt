//! The states that a path of the search may be in: a test of which are open, and which are closed.
use bound_cert::Event;
use edit_line::Place;
use edit_paths::{PathState, outcome_laws, path_laws};
use std::test::Fail;

// The place of the first of these states that is not open, or not closed, as the two flags behind it say.
// None where all are.
fn first_wrong(states: &[(PathState, bool, bool)]) -> Option<usize> {
    for (i, (state, open, closed)) in states.iter().enumerate() {
        if state.is_open() != *open || state.is_closed() != *closed {
            return Some(i);
        }
    }
    None
}

// Each state is tried with what is expected: whether it is open, and whether it is closed. The two laws at the
// end compute nothing: that they can be called is tried, too.
#[test]
fn an_overflow_is_neither_open_nor_closed(rt: HostRuntime) -> Result<(), Fail> {
    let step = Event::Step {
        first: 0,
        second: 1,
        place: Place::Constant,
    };
    let states = [
        (PathState::Open, true, false),
        (PathState::ClosedBad, false, true),
        (PathState::ClosedLine(3), false, true),
        (PathState::ClosedBox(0), false, true),
        (PathState::Overflows(step), false, false),
        (
            PathState::Overflows(Event::Test { line: 2, field: 0 }),
            false,
            false,
        ),
    ];
    assert_eq!(rt; first_wrong(&states), None);
    path_laws();
    outcome_laws();
    Ok(())
}
