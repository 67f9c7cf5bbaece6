//! What holds of a row of tickets between any two steps, and what a step does to what a seat knows. A seat
//! that draws past the last ticket meets the end: such a draw is counted, but takes no number.

use atomic_table::{Join, Play, Split, TableRule};
use std::collections::LinkedList;

/// What a seat knows: how many tickets there are (`count`), and for how many `seats` it stands. Also the
/// numbers that it drew, and how often it met the end (`ends`), which is a draw past the last ticket.
/// Contracts alone speak of it: no value of it is made. A seat stands for several until these are split
/// off.
pub struct Hand {
    pub count: u64,
    pub seats: u64,
    pub drawn: LinkedList<u64>,
    pub ends: u64,
}

/// How many tickets there are, and how many seats draw them.
#[derive(Clone, Copy)]
pub struct Terms {
    pub count: u32,
    pub seats: u32,
}

/// The rule of a row: its one word is the number of draws, and each number that was drawn is in one hand,
/// once.
pub struct TicketRule;

impl TableRule<(), Hand, Terms> for TicketRule {
    ghost use Rattle.ticket_row.specs.inner.Rule.{AreTickets, first_hand};

    ghost holds = { AreTickets };

    ghost first = { first_hand };
}

/// A draw: the seat takes the number that it found. Where that is past the last ticket, it takes none, and
/// `ends` is one more.
pub struct Draw;

impl Play<(), Hand> for Draw {
    ghost use Rattle.ticket_row.specs.inner.Rule.{HasDrawn};

    ghost then = { HasDrawn };
}

/// A new seat is split off, which has drawn nothing.
pub struct NewSeat;

impl Split<Hand> for NewSeat {
    ghost use Rattle.ticket_row.specs.inner.Rule.{without_a_seat, new_hand};

    ghost left = { without_a_seat };

    ghost right = { new_hand };
}

/// A seat takes in what another knows. The other is then spent: it stands for no seat, and has drawn
/// nothing.
pub struct TakeIn;

impl Join<Hand> for TakeIn {
    ghost use Rattle.ticket_row.specs.inner.Rule.{both_hands, spent_hand};

    ghost both = { both_hands };

    ghost spent = { spent_hand };
}
