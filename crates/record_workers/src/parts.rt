//! What workers hand back when they have run.
ghost use Rattle.std.specs.Prelude.{◌≡◌, ◌++◌, ◌∷◌, [], IfOk, OnOk};
ghost use Rattle.record_workers.specs.inner.Gatherings.{passes_of, pieces_of, seats_of};

use crate::worker::Worker;
use class_books::ClassPass;
use foundation::OutOfMemory;
use record_pieces::Piece;
use std::alloc::Global;
use ticket_row::Seat;

/// What some workers have, all together: their seats at the tickets, their passes to the books, and the
/// pieces that they found.
#[derive(Drop)]
pub(crate) struct Parts {
    pub(crate) seats: Vec<Seat>,
    pub(crate) passes: Vec<ClassPass>,
    pub(crate) pieces: Vec<Piece>,
}

impl Parts {
    // Takes a worker that has run apart, and puts its seat, pass and pieces behind those that are there.
    fn add(&mut self, worker: Worker) -> Result<(), OutOfMemory>
        ensures seats { OnOk result (self.new.seats.items ≡ self.old.seats.items ++ worker.seat ∷ []) }
        ensures passes { OnOk result (self.new.passes.items ≡ self.old.passes.items ++ worker.pass ∷ []) }
        ensures pieces { OnOk result (self.new.pieces.items ≡ self.old.pieces.items ++ worker.pieces.items) }
    {
        let mut found = worker.pieces;
        self.seats.push(worker.seat)?;
        self.passes.push(worker.pass)?;
        self.pieces.append(&mut found)?;
        Ok(())
    }
}

/// The seats and the passes of these workers in their order, and their pieces, those of one worker after
/// those of another.
pub(crate) fn parts_of(alloc: Global, workers: Vec<Worker>) -> Result<Parts, OutOfMemory>
    ensures seats { IfOk result (λ parts. parts.seats.items ≡ seats_of workers.items) }
    ensures passes { IfOk result (λ parts. parts.passes.items ≡ passes_of workers.items) }
    ensures pieces { IfOk result (λ parts. parts.pieces.items ≡ pieces_of workers.items) }
{
    let mut parts = Parts {
        seats: Vec::new(alloc),
        passes: Vec::new(alloc),
        pieces: Vec::new(alloc),
    };
    for worker in workers {
        parts.add(worker)?;
    }
    Ok(parts)
}
