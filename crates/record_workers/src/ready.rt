//! Workers that have done nothing yet, and what they share. In contracts, `IsRest` says that the parts of
//! `rest` fit one another. `IsShared` says that each record has a ticket and each class a book, and `IsReady`
//! that a worker has a seat and a pass there.
ghost use Rattle.std.specs.Prelude.{◌≡◌, ◌+◌, ◌<◌, ◌≤◌, ◌^◌, IfOk, length};
ghost use Rattle.std.specs.List.{All};
ghost use Rattle.ticket_row.specs.Tickets.{IsFresh, Row};
ghost use Rattle.class_books.specs.ClassPasses.{ClassesName, IsFreshPass};
ghost use Rattle.record_pieces.specs.Rests.{IsRest, rows_in};
ghost use Rattle.record_workers.specs.Workers.{IsReady, IsShared};
ghost use Rattle.record_workers.specs.inner.Gatherings.{IsReadyAt, terms_over};

use crate::shared::Shared;
use crate::worker::Worker;
use class_books::{ClassPass, SharedClasses};
use edit_model::Value;
use foundation::OutOfMemory;
use record_pieces::Rest;
use shared_edits::Pool;
use std::alloc::Global;
use ticket_row::{Seat, Tickets};

/// What workers share, and these workers, which have done nothing yet. `workers` says how many there are,
/// from 1 to 64. A donor is given at most `limit` times. Each row of the sheet has a ticket, and each class a
/// book of claims.
pub fn ready_workers<F: Fn(u32, &Value, &Value) -> u64>(
    alloc: Global,
    rest: Rest<F>,
    limit: u32,
    workers: u32,
) -> Result<(Shared<F>, Vec<Worker>), OutOfMemory>
    requires rest { IsRest F.Fn rest }
    requires workers { (1 ≤ workers) × (workers ≤ 64) }
    ensures rest { IfOk result (λ made. made.0.rest ≡ rest) }
    ensures limit { IfOk result (λ made. made.0.books.terms.limit ≡ limit) }
    ensures shared { IfOk result (λ made. IsShared F.Fn made.0) }
    ensures ready { IfOk result (λ made. All (IsReady made.0) made.1.items) }
    ensures workers { IfOk result (λ made. length made.1.items ≡ workers) }
    ensures seats { IfOk result (λ made. made.0.tickets.seats ≡ workers) }
    ensures passes { IfOk result (λ made. made.0.books.terms.passes ≡ workers) }
{
    let places = places_over(alloc, &rest, limit, workers)?;
    let shared = Shared {
        rest,
        tickets: places.tickets,
        books: places.books,
    };
    Ok((shared, places.workers))
}

// The tickets and the books of some workers, and these workers, which have done nothing yet.
#[derive(Drop)]
struct Places {
    tickets: Tickets,
    books: SharedClasses,
    workers: Vec<Worker>,
}

// `count` workers that have done nothing yet, with a ticket for each row of the sheet and a book for each
// class, in which a donor is given at most `limit` times.
fn places_over<F: Fn(u32, &Value, &Value) -> u64>(
    alloc: Global,
    rest: &Rest<F>,
    limit: u32,
    count: u32,
) -> Result<Places, OutOfMemory>
    requires rest { IsRest F.Fn rest.now }
    requires count { (1 ≤ count) × (count ≤ 64) }
    ensures tickets { IfOk result (λ places. places.tickets.row.count ≡ length (rows_in rest.now)) }
    ensures seats { IfOk result (λ places. places.tickets.seats ≡ count) }
    ensures books { IfOk result (λ places. places.books.terms ≡ terms_over rest.now limit count) }
    ensures as_many { IfOk result (λ places. length places.workers.items ≡ count) }
    ensures ready { IfOk result (λ places. All (IsReadyAt places.tickets.row places.books) places.workers.items) }
{
    let (tickets, seats) = Tickets::new(alloc, rest.sheet.len(), count)?;
    let (books, passes) = books_over(alloc, rest, limit, count)?;
    let workers = workers_at(alloc, &rest.pool, seats, passes, count)?;
    Ok(Places {
        tickets,
        books,
        workers,
    })
}

// A book for each class, in which a donor is given at most `limit` times, and `passes` passes over them.
fn books_over<F: Fn(u32, &Value, &Value) -> u64>(
    alloc: Global,
    rest: &Rest<F>,
    limit: u32,
    passes: u32,
) -> Result<(SharedClasses, Vec<ClassPass>), OutOfMemory>
    requires rest { IsRest F.Fn rest.now }
    requires rows { length (rows_in rest.now) + 1 < 2 ^ 32 }
    requires passes { 0 < passes }
    ensures terms { IfOk result (λ made. made.0.terms ≡ terms_over rest.now limit passes) }
    ensures passes { IfOk result (λ made. length made.1.items ≡ passes) }
    ensures fresh { IfOk result (λ made. All (IsFreshPass made.0) made.1.items) }
{
    let class_of = rest.decks.classes_read(alloc, &rest.sheet)?;
    let classes = rest.decks.last() + 1;
    SharedClasses::share(alloc, class_of, classes, limit, passes)
}

// `count` workers that have done nothing yet, numbered from 0. Each has one of the seats and one of the
// passes, of which there are as many.
fn workers_at(
    alloc: Global,
    pool: &Pool,
    seats: Vec<Seat>,
    passes: Vec<ClassPass>,
    count: u32,
) -> Result<Vec<Worker>, OutOfMemory>
    requires seats { length seats.items ≡ count }
    requires passes { length passes.items ≡ count }
    ensures as_many { IfOk result (λ workers. length workers.items ≡ count) }
    ensures ready { IfOk result (λ workers. (row : Row) (books : ClassesName) → All (IsFresh row) seats.items
        → All (IsFreshPass books) passes.items → All (IsReadyAt row books) workers.items) }
{
    let mut seats = seats;
    let mut passes = passes;
    let mut workers = Vec::new(alloc);
    for number in 0..count {
        let (Some(seat), Some(pass)) = (seats.pop(), passes.pop()) else {
            unreachable!()
        };
        workers.push(worker_at(alloc, pool, number, seat, pass)?)?;
    }
    Ok(workers)
}

// The worker of this number at a seat, with its pass, which has done nothing yet.
fn worker_at(
    alloc: Global,
    pool: &Pool,
    number: u32,
    seat: Seat,
    pass: ClassPass,
) -> Result<Worker, OutOfMemory>
    ensures { IfOk result (λ worker. (row : Row) (books : ClassesName) → IsFresh row seat → IsFreshPass books pass
        → IsReadyAt row books worker) }
{
    Ok(Worker {
        number,
        seat,
        pass,
        reader: pool.reader(alloc)?,
        pieces: Vec::new(alloc),
    })
}
