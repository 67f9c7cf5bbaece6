//! One worker, which draws records until none is left. In contracts, `HasWorked` says that its pieces and
//! its claims are right so far. `FoundAll` says that it has a piece for each row that it drew. `MissesLast`
//! says that it lacks the one of the last row, as memory was refused. `ArePlacedIn` says that in each class
//! with donors the claims of a pass are among those that it has seen, in their order.
ghost use Rattle.std.specs.Prelude.{◌≡◌, ◌⊎◌, ◌<◌, OnErr, OnOk, length, true};
ghost use Rattle.record_pieces.specs.Rests.{IsPieceIn, rows_in, rows_of};
ghost use Rattle.record_workers.specs.Workers.{ArePlacedIn, FoundAll, HasWorked, IsReady, IsShared, MissesLast, last_class};
ghost use Rattle.record_workers.specs.inner.Draws.{HasAskedIn, IsDrawnNext};

use crate::gate::Gate;
use crate::shared::Shared;
use crate::source::find_piece;
use class_books::{ClassPass, SharedClasses};
use edit_model::Value;
use foundation::{OutOfMemory, Steps};
use record_pieces::Piece;
use shared_edits::Reader;
use std::alloc::Global;
use std::marker::Brand;
use std::sync::Wait;
use std::sync::ledger::{Blank, Ledger};
use ticket_row::Seat;

/// A worker. It has a number, a seat at the tickets, from which it draws records, and a pass to the books,
/// from which it claims donors. Its reader finds derived systems in the pool. The pieces are what it has
/// found so far.
#[derive(Drop)]
pub struct Worker {
    pub number: u32,
    pub seat: Seat,
    pub pass: ClassPass,
    pub reader: Reader,
    pub pieces: Vec<Piece>,
}

impl Worker {
    /// Draws records until none is left. For each it tells the gate, and searches for the least set of
    /// fields to change. Where some field is changed it claims a donor, before it draws the next.
    pub fn run<R: Wait, F: Fn(u32, &Value, &Value) -> u64, G: Gate>(
        &mut self,
        rt: &R,
        alloc: Global,
        shared: &Shared<F>,
        gate: &G,
    ) -> Result<(), OutOfMemory>
        requires shared { IsShared F.Fn shared.now }
        requires ready { IsReady shared.now self.old }
        ensures worked { HasWorked shared.now self.new }
        ensures ended { OnOk result (self.new.seat.ended ≡ true) }
        ensures found { OnOk result (FoundAll self.new) }
        ensures refused { OnErr result (FoundAll self.new ⊎ MissesLast self.new) }
    {
        self.run_by::<R, F, G, Brand>(rt, alloc, shared, gate, Blank::new(1))
    }

    // Draws records until none is left, as [`Worker::run`] says. `blank` begins a counter of steps, which
    // nobody reads.
    fn run_by<R: Wait, F: Fn(u32, &Value, &Value) -> u64, G: Gate, L: Ledger>(
        &mut self,
        rt: &R,
        alloc: Global,
        shared: &Shared<F>,
        gate: &G,
        blank: Blank,
    ) -> Result<(), OutOfMemory>
        requires name { blank.name ≡ L.name }
        requires parts { blank.parts ≡ L.parts }
        requires counts { 0 < blank.parts }
        requires shared { IsShared F.Fn shared.now }
        requires ready { IsReady shared.now self.old }
        ensures worked { HasWorked shared.now self.new }
        ensures ended { OnOk result (self.new.seat.ended ≡ true) }
        ensures found { OnOk result (FoundAll self.new) }
        ensures refused { OnErr result (FoundAll self.new ⊎ MissesLast self.new) }
    {
        let mut steps = Steps::<L>::start(blank);
        while let Some(row_no) = shared.tickets.draw(&mut self.seat) {
            gate.at(self.number, row_no);
            self.work_on(rt, alloc, shared, row_no, &mut steps)?;
        }
        Ok(())
    }

    // Does what there is to do of the record that was drawn last: it is searched, and claims a donor if it
    // needs one. Room for its piece is taken before all that, so that no claim stands without its piece.
    // Where memory is refused, nothing is kept of the record.
    fn work_on<R: Wait, F: Fn(u32, &Value, &Value) -> u64, L: Ledger>(
        &mut self,
        rt: &R,
        alloc: Global,
        shared: &Shared<F>,
        row_no: u32,
        steps: &mut Steps<L>,
    ) -> Result<(), OutOfMemory>
        requires shared { IsShared F.Fn shared.now }
        requires worked { HasWorked shared.now self.old }
        requires row { row_no < length (rows_in shared.now.rest) }
        requires drawn { IsDrawnNext (rows_of self.old.pieces.items) self.old.seat.drawn row_no }
        ensures worked { HasWorked shared.now self.new }
        ensures seat { self.new.seat ≡ self.old.seat }
        ensures found { OnOk result (FoundAll self.new) }
        ensures refused { OnErr result (MissesLast self.new) }
    {
        self.pieces.reserve(1)?;
        let piece = find_piece(&mut self.reader, rt, alloc, &shared.rest, row_no, steps)?;
        claim_for(shared, &mut self.pass, &piece);
        self.pieces.push_reserved(piece);
        Ok(())
    }
}

// Claims a donor for the record of the piece, if it needs one and is of a class that has donors. The pass
// keeps the answer. It has asked in the book of the record's class alone, or in none (`HasAskedIn`).
fn claim_for<F: Fn(u32, &Value, &Value) -> u64>(
    shared: &Shared<F>,
    pass: &mut ClassPass,
    piece: &Piece,
)
    requires shared { IsShared F.Fn shared.now }
    requires piece { IsPieceIn shared.now.rest piece.now }
    requires classes { pass.old.classes ≡ shared.now.books }
    requires placed { ArePlacedIn (last_class shared.now) pass.old }
    ensures classes { pass.new.classes ≡ pass.old.classes }
    ensures placed { ArePlacedIn (last_class shared.now) pass.new }
    ensures asked { HasAskedIn (last_class shared.now) piece.now pass.old pass.new }
{
    if piece.class == shared.rest.decks.last() {
        return;
    }
    if let Some(ranking) = &piece.ranking {
        shared.books.claim(pass, piece.row_no, ranking.as_slice());
    }
}
