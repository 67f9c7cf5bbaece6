//! The bench itself: threads draw tickets and claim donors for the rows of these, and what they drew and
//! claimed is brought together. In contracts, `Fits` says that the book has a row for each ticket, and
//! as many donors as `donors_for` tells. `IsReady` says that a worker draws from this row of tickets and
//! claims from this book. `HasRun` says that it also has drawn until none was left.
ghost use Rattle.std.specs.Prelude.{◌≡◌, IfOk, length};
ghost use Rattle.std.specs.List.{All};
ghost use Rattle.claims_bench.specs.inner.Plans.{IsServed};
ghost use Rattle.claims_bench.specs.inner.Tallies.{IsTally};
ghost use Rattle.claims_bench.specs.inner.Workers.{Fits, HasRun, IsReady, passes_of, seats_of};

use crate::worker::{Worker, donors_for};
use donor_book::{Pass, SharedBook, Won};
use foundation::OutOfMemory;
use std::alloc::Global;
use std::thread;
use std::thread::Threads;
use ticket_row::{Seat, Tickets};

/// How often a donor is given at most.
const LIMIT: u32 = 1;

/// How many tickets there are, each the number of a row that claims, and how many threads draw them.
#[derive(Clone, Copy)]
pub struct Plan {
    pub count: u32,
    pub threads: u32,
}

/// How many numbers were drawn, and the claims in order, each with the row and the donor that it was given.
#[derive(Drop)]
pub struct Tally {
    pub drawn: u32,
    pub history: Vec<Won>,
}

/// Draws all tickets and claims a donor for the row of each, with the threads of the plan, and tells what
/// was drawn and claimed. `IsServed` bounds the plan: at most 10^7 tickets, and 1 to 64 threads.
/// `IsTally` says that all tickets were drawn, and that the claims are a legal history.
pub fn carry_out<R: Threads + Sync>(rt: &R, alloc: Global, plan: Plan) -> Result<Tally, OutOfMemory>
    requires { IsServed plan }
    ensures { IfOk result (IsTally plan) }
{
    let (tickets, seats) = Tickets::new(alloc, plan.count, plan.threads)?;
    let (book, passes) = SharedBook::share(
        alloc,
        donors_for(plan.count),
        LIMIT,
        plan.count,
        plan.threads,
    )?;
    let ran = run_all(rt, &tickets, &book, workers_of(alloc, seats, passes)?)?;
    let (seats, passes) = seats_and_passes(alloc, ran)?;
    Ok(Tally {
        drawn: tickets.close(seats),
        history: book.close(passes),
    })
}

// Has each worker draw and claim in a thread of its own, until no ticket is left, and gives the workers
// back.
fn run_all<R: Threads + Sync>(
    rt: &R,
    tickets: &Tickets,
    book: &SharedBook,
    workers: Vec<Worker>,
) -> Result<Vec<Worker>, OutOfMemory>
    requires fits { Fits tickets.now.row book.now }
    requires ready { All (IsReady tickets.now.row book.now) workers.items }
    ensures all { IfOk result (λ ran. length ran.items ≡ length workers.items) }
    ensures ran { IfOk result (λ ran. All (HasRun tickets.now.row book.now) ran.items) }
{
    Ok(thread::map_vec(
        rt,
        workers,
        &|worker: Worker| -> Worker
            requires { Fits tickets.now.row book.now × IsReady tickets.now.row book.now worker }
            ensures { HasRun tickets.entry.now.row book.entry.now result }
        {
            let mut worker = worker;
            worker.draw_and_claim(tickets, book);
            worker
        },
    )?)
}

// One worker for each thread: each seat with the pass at the same place of the other list, which is as
// long.
fn workers_of(
    alloc: Global,
    seats: Vec<Seat>,
    passes: Vec<Pass>,
) -> Result<Vec<Worker>, OutOfMemory>
    requires { length seats.items ≡ length passes.items }
    ensures seats { IfOk result (λ workers. seats_of workers.items ≡ seats.items) }
    ensures passes { IfOk result (λ workers. passes_of workers.items ≡ passes.items) }
{
    let mut workers = Vec::with_capacity(alloc, seats.len())?;
    let mut rest = passes.into_iter();
    for seat in seats {
        let Some(pass) = rest.next() else {
            unreachable!()
        };
        workers.push_reserved(Worker { seat, pass });
    }
    Ok(workers)
}

// The seats of the workers and their passes, in order: the tickets and the book are closed with these.
fn seats_and_passes(
    alloc: Global,
    workers: Vec<Worker>,
) -> Result<(Vec<Seat>, Vec<Pass>), OutOfMemory>
    ensures seats { IfOk result (λ parts. parts.0.items ≡ seats_of workers.items) }
    ensures passes { IfOk result (λ parts. parts.1.items ≡ passes_of workers.items) }
{
    let mut seats = Vec::with_capacity(alloc, workers.len())?;
    let mut passes = Vec::with_capacity(alloc, workers.len())?;
    for worker in workers {
        seats.push_reserved(worker.seat);
        passes.push_reserved(worker.pass);
    }
    Ok((seats, passes))
}
