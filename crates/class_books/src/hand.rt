//! What a class pass has of one class, which is called its hand. It is a pass of the class's book, and
//! the room that closing the book needs.
ghost use Rattle.std.specs.Prelude.{◌≡◌, ◌<◌, ◌≤◌, [], IfOk};
ghost use Rattle.std.specs.List.{All};
ghost use Rattle.donor_book.specs.Passes.{ArePlaced, IsAnswered};
ghost use Rattle.class_books.specs.inner.Hands.{RanksOwn};

use donor_book::{Claim, Pass, SharedBook};
use foundation::OutOfMemory;
use std::alloc::Global;
use std::marker::Model;

/// A pass of one class's book, and room for all passes of that book. They come together in it when the book
/// is closed, so that closing takes no memory.
#[derive(Drop)]
pub struct Hand {
    pass: Pass,
    room: Vec<Pass>,
}

impl Model for Hand {
    ghost use Rattle.donor_book.specs.Passes.{PassState};
    ghost use Rattle.class_books.specs.inner.Hands.{KeepsHand};

    ghost Value = { PassState };

    ghost view = { λ h. h.pass };

    ghost invariant = { λ h. KeepsHand h.pass h.room.items h.room.cap };
}

impl Hand {
    /// The hand of a pass that has claimed nothing, with room for all `passes` passes of its book.
    pub fn of(alloc: Global, pass: Pass, passes: u32) -> Result<Hand, OutOfMemory>
        requires passes { pass.book.terms.passes ≡ passes }
        requires mine { pass.mine ≡ [] }
        ensures { IfOk result (λ hand. hand ≡ pass) }
    {
        let room = Vec::with_capacity(alloc, passes as usize)?;
        Ok(Hand { pass, room })
    }

    /// Claims a donor for a row, as `SharedBook::claim` does. No memory, no waiting.
    pub fn claim(&mut self, book: &SharedBook, row_no: u32, ranking: &[u32]) -> Claim
        requires book { self.old.book ≡ book.now }
        requires row { row_no < book.now.terms.rows }
        requires donors { All (λ donor. donor < book.now.terms.donors) ranking.now }
        ensures book { self.new.book ≡ self.old.book }
        ensures placed { ArePlaced self.new.seen self.new.mine }
        ensures answered { IsAnswered self.old row_no ranking.now result self.new }
    {
        book.claim(&mut self.pass, row_no, ranking)
    }

    /// The pass, and the room, in which no pass stands yet: with both the class's book is closed. No
    /// memory.
    pub fn into_parts(self) -> (Pass, Vec<Pass>)
        ensures pass { result.0 ≡ self }
        ensures ranks { RanksOwn self }
        ensures empty { result.1.items ≡ [] }
        ensures room { self.book.terms.passes ≤ result.1.cap }
    {
        (self.pass, self.room)
    }
}
