//! What all workers share, as one state, and what an event makes of it. In contracts, `IsDue` says that an
//! event may come. Its worker is one of these, its system is of the state's edits, and its claim is one of
//! the book's. `reply_to` and `after` are what an event is answered, and what it leaves. `HasTermsOf` says
//! that how many rows and workers there are, the edits, and the terms of the book are as before.
ghost use Rattle.std.specs.Prelude.{◌≡◌, ◌+◌, ◌-◌, ◌<◌, ◌^◌, ◌++◌, [], ◌∷◌, length, IfOk, IsOk, OnOk, OnErr};
ghost use Rattle.std.specs.Arc.{arc_value};
ghost use Rattle.run_core.specs.States.{start_of};
ghost use Rattle.run_core.specs.Steps.{HasTermsOf, IsClaim, IsDue, after, after_draw, drawn_by, reply_to, with_published};

use crate::event::{CoreEvent, CoreReply};
use crate::worker::{Worker, idle_workers};
use donor_book::Book;
use edit_line::Edits;
use foundation::OutOfMemory;
use linear_elim::System;
use std::alloc::Global;
use std::marker::Model;
use std::sync::Arc;

/// What workers that run side by side share: the count of rows and the next row number, and the numbers
/// that each worker drew. Further the edits, the derived systems that were published of them, and the book
/// of donors.
#[derive(Drop)]
pub struct CoreState {
    rows: u32,
    next: u64,
    workers: Vec<Worker>,
    edits: Arc<Edits>,
    published: Vec<System>,
    book: Book,
}

impl Model for CoreState {
    ghost use Rattle.std.specs.Prelude.{◌<◌, ◌^◌, length};
    ghost use Rattle.std.specs.Arc.{arc_value};
    ghost use Rattle.run_core.specs.States.{CoreParts};
    ghost use Rattle.run_core.specs.inner.Counts.{AreCounted};

    ghost Value = { CoreParts };

    ghost view = { λ c. record {
      rows = c.rows;
      next = c.next;
      workers = c.workers.items;
      edits = arc_value c.edits;
      published = c.published.items;
      book = c.book;
    } };

    ghost invariant = { λ c. AreCounted c.rows c.next c.workers.items × (length c.workers.items < 2 ^ 32) };
}

impl CoreState {
    /// The state at the start: `workers` workers share `rows` rows, and nothing is drawn, published or
    /// claimed yet.
    pub fn start(
        alloc: Global,
        rows: u32,
        workers: u32,
        edits: Arc<Edits>,
        book: Book,
    ) -> Result<CoreState, OutOfMemory>
        requires { book.history ≡ [] }
        ensures { IfOk result (λ state. state ≡ start_of rows workers (arc_value edits) book) }
    {
        Ok(CoreState {
            rows,
            next: 0,
            workers: idle_workers(alloc, workers)?,
            edits,
            published: Vec::new(alloc),
            book,
        })
    }

    /// Takes one event. A draw is answered the next number where it is below the count of rows, and else
    /// None, and None again from then on. A system is put at the end of the list, and answered its place
    /// there. A claim is answered as the book answers it, and takes no memory. On a refusal the state is as
    /// before.
    pub fn step(&mut self, event: CoreEvent) -> Result<CoreReply, OutOfMemory>
        requires { IsDue self.old event }
        ensures reply { IfOk result (λ reply. reply ≡ reply_to self.old event) }
        ensures state { OnOk result (self.new ≡ after self.old event) }
        ensures unchanged { OnErr result (self.new ≡ self.old) }
        ensures claim { IsClaim event → IsOk result }
        ensures terms { HasTermsOf self.old self.new }
    {
        match event {
            CoreEvent::Draw { worker } => Ok(CoreReply::Drew(self.draw(worker)?)),
            CoreEvent::Publish { worker: _, system } => {
                Ok(CoreReply::Published(self.publish(system)?))
            }
            CoreEvent::Claim {
                worker: _,
                row_no,
                ranking,
            } => Ok(CoreReply::Claimed(self.book.claim_on(row_no, ranking.into_vec()))),
        }
    }

    // Draws for the worker of this number: the next row number, or None where none is left. The counter of
    // the next number rises at each draw, at a worker's first None too, as one counter of tickets does. It
    // stays at later ones of this worker.
    fn draw(&mut self, worker: u32) -> Result<Option<u32>, OutOfMemory>
        requires { worker < length self.old.workers }
        ensures number { IfOk result (λ number. number ≡ drawn_by self.old worker) }
        ensures state { OnOk result (self.new ≡ after_draw self.old worker) }
        ensures unchanged { OnErr result (self.new ≡ self.old) }
    {
        let drawer = &mut self.workers[worker as usize];
        let step = u64::from(!drawer.has_ended());
        let number = drawer.draw(self.next, self.rows)?;
        self.next += step;
        Ok(number)
    }

    // Puts the system at the end of the published ones, and answers its place there, from 0.
    fn publish(&mut self, system: System) -> Result<u32, OutOfMemory>
        requires { length self.old.published < 2 ^ 32 - 1 }
        ensures place { IfOk result (λ place. place ≡ length self.old.published) }
        ensures state { OnOk result (self.new ≡ with_published self.old (self.old.published ++ system ∷ [])) }
        ensures unchanged { OnErr result (self.new ≡ self.old) }
    {
        let place = self.published.len() as u32;
        self.published.push(system)?;
        Ok(place)
    }
}
