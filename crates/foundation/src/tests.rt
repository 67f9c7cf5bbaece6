//! A list, and steps that are counted.
ghost use Rattle.std.specs.Prelude.{◌≡◌, ◌+◌, ◌<◌};

use crate::{Sequence, Steps};
use std::marker::Brand;
use std::sync::ledger::{Blank, Ledger};
use std::test::Fail;

// A list of 3, 1 and 2 has these three, in this order, as a slice and as a vector.
#[test]
fn a_list_gives_its_elements(rt: HostRuntime) -> Result<(), Fail> {
    let list = Sequence::from_vec(vec![in rt.alloc(); 3, 1, 2]?);
    assert!(rt; !list.is_empty());
    assert_eq!(rt; list.len(), 3);
    assert_eq!(rt; list.as_slice(), [3, 1, 2].as_slice());
    assert_eq!(rt; list.into_vec().as_slice(), [3, 1, 2].as_slice());
    Ok(())
}

// Counts two steps. Nothing is to be seen of them when the program runs: the contract shows that two calls
// of `tick` count 2.
fn count_two<L: Ledger>(steps: &mut Steps<L>)
    ensures { steps.new ≡ steps.old + 2 }
{
    steps.tick();
    steps.tick();
}

// Starts a counter from a blank of the ledger `L`, as `Steps::start` asks for it, and counts two steps.
fn count_from<L: Ledger>(blank: Blank)
    requires name { blank.name ≡ L.name }
    requires parts { blank.parts ≡ L.parts }
    requires counts { 0 < blank.parts }
{
    let mut steps = Steps::<L>::start(blank);
    count_two(&mut steps);
}

// Counts two steps with a counter of its own, from `Blank::new(1)`, as a caller that has none.
fn count_afresh() {
    count_from::<Brand>(Blank::new(1))
}

// The calls of a counter run, and end.
#[test]
fn steps_are_counted_at_no_cost() {
    count_afresh();
}
