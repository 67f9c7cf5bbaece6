//! Tickets: the numbers below a count, which workers draw one after another without a lock, and the seats
//! that they draw from. The row stands on a table of one word, the number of draws; a `Place` is a seat of
//! that table. In contracts, `IsFresh` says that a seat of the row has drawn nothing, and `DrawnBelow` that
//! seats have drawn each number below a count once. A hand is what a seat knows.
ghost use Rattle.std.specs.Prelude.{◌≡◌, ◌+◌, ◌<◌, ◌≤◌, ◌^◌, ◌++◌, [], ◌∷◌, true, false, length, IfOk, IfSome, IfNone};
ghost use Rattle.std.specs.List.{All, Any};
ghost use Rattle.std.specs.List.Sorted.{IsStrictlyIncreasing};
ghost use Rattle.ticket_row.specs.Tickets.{IsFresh, DrawnBelow};
ghost use Rattle.ticket_row.specs.inner.Rule.{new_hand};
ghost use Rattle.ticket_row.specs.inner.Hands.{hand_of, row_of};

use crate::rule::{Draw, Hand, NewSeat, TakeIn, Terms, TicketRule};
use atomic_table::{Seat as Place, Table};
use foundation::OutOfMemory;
use std::alloc::Global;
use std::marker::Model;

/// A row of tickets, which are numbered from 0. Threads share it, and each draws from a [`Seat`] of its
/// own.
#[derive(Drop)]
pub struct Tickets {
    table: Table<(), Hand, Terms, TicketRule, Global>,
    count: u32,
}

impl Model for Tickets {
    ghost use Rattle.ticket_row.specs.Tickets.{Issue};
    ghost use Rattle.ticket_row.specs.inner.Hands.{IssuesTickets};

    ghost Value = { Issue };

    ghost view = { λ t. record { row = record { name = t.table.shared.table_id; count = t.count }; seats = t.table.shared.key.seats } };

    ghost invariant = { λ t. IssuesTickets t.table.shared.table_id t.table.shared.key t.count };
}

/// A place at a row of tickets, from which one worker draws at a time. It may be sent to another thread.
#[derive(Drop)]
pub struct Seat {
    place: Place<(), Hand>,
    ended: bool,
}

impl Model for Seat {
    ghost use Rattle.ticket_row.specs.Tickets.{SeatState};
    ghost use Rattle.ticket_row.specs.inner.Hands.{KeepsSeat, seat_of};

    ghost Value = { SeatState };

    ghost view = { λ s. seat_of s.place.table_id s.place.me.0 s.ended };

    ghost invariant = { λ s. KeepsSeat s.place.me s.ended };
}

impl Seat {
    // A seat at a place of the table from which nothing was drawn. The place stands for this one seat
    // (`new_hand`).
    fn fresh(place: Place<(), Hand>) -> Self
        requires { place.me ≡ (new_hand place.me.0, []) }
        ensures { IsFresh (row_of place.table_id place.me.0) result }
    {
        Seat {
            place,
            ended: false,
        }
    }

    // The seat's place at the table, without the seat. `close` hands it back to the table.
    fn into_place(self) -> Place<(), Hand>
        ensures row { result.table_id ≡ self.row.name }
        ensures hand { result.me ≡ (hand_of self, []) }
    {
        self.place
    }
}

impl Tickets {
    /// A row of `count` tickets, and its seats, from which nothing was drawn yet. Both together are below
    /// 2^32: each seat may draw once past the last ticket, so the word that counts the draws stays in
    /// range. All memory is taken here.
    pub fn new(alloc: Global, count: u32, seats: u32) -> Result<(Tickets, Vec<Seat>), OutOfMemory>
        requires seats { 0 < seats }
        requires room { count + seats < 2 ^ 32 }
        ensures row { IfOk result (λ r. (r.0.row.count ≡ count) × (r.0.seats ≡ seats)) }
        ensures seats { IfOk result (λ r. length r.1.items ≡ seats) }
        ensures fresh { IfOk result (λ r. All (IsFresh r.0.row) r.1.items) }
    {
        let mut row = Vec::with_capacity(alloc, seats as usize)?;
        let (table, mut first) = Table::of_words(alloc, &[0], &Terms { count, seats })?;
        for _ in 1..seats {
            let place = table.shared.split_seat::<NewSeat>(&mut first);
            row.push_reserved(Seat::fresh(place));
        }
        row.push_reserved(Seat::fresh(first));
        Ok((Tickets { table, count }, row))
    }

    /// Draws the next number for `seat`, which is one of this row, or None where no number is left. It is
    /// one atomic step. A seat that was answered None before is answered None again, without a step. No
    /// memory, no waiting.
    pub fn draw(&self, seat: &mut Seat) -> Option<u32>
        requires { seat.old.row ≡ self.now.row }
        ensures row { seat.new.row ≡ seat.old.row }
        ensures some { IfSome result (λ k. (seat.old.ended ≡ false) × (seat.new.ended ≡ false)
            × (seat.new.drawn ≡ seat.old.drawn ++ k ∷ [])) }
        ensures none { IfNone result ((seat.new.ended ≡ true) × (seat.new.drawn ≡ seat.old.drawn)) }
        ensures below { IfSome result (λ k. k < self.now.row.count) }
        ensures rising { IsStrictlyIncreasing seat.new.drawn }
        ensures few { length seat.new.drawn ≤ self.now.row.count }
    {
        if seat.ended {
            return None;
        }
        let found = self.table.shared.fetch_add::<Draw>(&mut seat.place, 0, 1);
        if found < self.count as u64 {
            Some(found as u32)
        } else {
            seat.ended = true;
            None
        }
    }

    /// How many tickets were drawn, once all seats of the row are handed back: these have drawn each number
    /// below the answer once. Where one was answered None, it is the count of tickets: draws past the last
    /// ticket are not in it. There is a seat at least, since `new` asks for one. No memory, no waiting.
    pub fn close(self, seats: Vec<Seat>) -> u32
        requires row { All (λ s. s.row ≡ self.row) seats.items }
        requires all { length seats.items ≡ self.seats }
        ensures drawn { DrawnBelow result seats.items }
        ensures within { result ≤ self.row.count }
        ensures ended { Any (λ s. s.ended ≡ true) seats.items → result ≡ self.row.count }
    {
        let Tickets { table, count } = self;
        let mut rest = seats.into_iter();
        let Some(first) = rest.next() else {
            unreachable!()
        };
        let mut taker = first.into_place();
        for seat in rest {
            table
                .shared
                .join_seat::<TakeIn>(&mut taker, seat.into_place());
        }
        let closed = table.close_with(taker);
        let drawn = closed.word(0);
        closed.free();
        drawn.min(count as u64) as u32
    }
}
