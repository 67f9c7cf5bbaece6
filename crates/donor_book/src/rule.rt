//! What holds of a row of claims between any two steps, and what a step does to what a pass knows.

use crate::claim::{Entry, Won};
use atomic_table::{Join, Play, Split, TableRule};
use std::collections::LinkedList;
use std::marker::{Brand, PhantomData};

/// How often a donor is given at most, how many donors and rows there are, and how many passes.
#[derive(Clone, Copy)]
pub struct Terms {
    pub limit: u32,
    pub donors: u32,
    pub rows: u32,
    pub passes: u32,
}

/// A claim with its place in the history. Contracts alone speak of it: no value of it is made.
pub struct Placed {
    pub place: u64,
    pub entry: Entry,
}

/// What a pass knows: the terms, and for how many passes it stands. Then the beginning of the history that
/// it has seen, its own claims, and what the passes that it took in had seen. Contracts alone speak of it:
/// no value of it is made.
pub struct Known {
    pub terms: Terms,
    pub passes: u64,
    pub seen: LinkedList<Won>,
    pub mine: LinkedList<Placed>,
    pub heard: LinkedList<LinkedList<Won>>,
}

/// The rule of a row of claims: its words are one history, and each claim in it is of one pass.
pub struct HistoryRule;

impl TableRule<(), Known, Terms> for HistoryRule {
    ghost use Rattle.donor_book.specs.inner.Rule.{AreClaims, first_known};

    ghost holds = { AreClaims };

    ghost first = { first_known };
}

/// The entry that a try is to enter, for contracts alone. A step sees a word and not the ranking behind it,
/// so the proof names the entry.
pub trait Tried {
    ghost use Rattle.donor_book.specs.declared.claim.Entry.{Entry};

    ghost entry: { Entry };
}

impl Tried for Brand {
    ghost use Rattle.donor_book.specs.inner.Rule.{no_entry};

    ghost entry = { no_entry };
}

/// A try to enter a claim behind all that its pass has seen.
pub struct Try<A>(PhantomData<A>);

impl<A: Tried> Play<(), Known> for Try<A> {
    ghost use Rattle.donor_book.specs.inner.Rule.{HasTried};

    ghost then = { HasTried A.entry };
}

/// A new pass is split off, which has seen and claimed nothing.
pub struct NewPass;

impl Split<Known> for NewPass {
    ghost use Rattle.donor_book.specs.inner.Rule.{new_known, without_a_pass};

    ghost left = { without_a_pass };

    ghost right = { new_known };
}

/// A pass takes in what another knows, which is then spent.
pub struct TakeIn;

impl Join<Known> for TakeIn {
    ghost use Rattle.donor_book.specs.inner.Rule.{both_known, spent_known};

    ghost both = { both_known };

    ghost spent = { spent_known };
}
