//! All workers, side by side, and what they found and claimed, gathered. In contracts, `IsReady` says that
//! a worker has done nothing yet, and `HasRun` that it drew until no record was left. `ArePiecesIn` says
//! that there is a right piece for each record. `AnswersNeeds` says that the claims are a legal history of
//! just what these need, and `AnswersInClasses` that each class has one of its own.
ghost use Rattle.std.specs.Prelude.{◌≡◌, ◌<◌, IfOk, length};
ghost use Rattle.std.specs.List.{All};
ghost use Rattle.record_pieces.specs.Needs.{AnswersNeeds};
ghost use Rattle.record_pieces.specs.Rests.{ArePiecesIn};
ghost use Rattle.record_workers.specs.Workers.{AnswersInClasses, IsReady, IsShared, last_class};
ghost use Rattle.record_workers.specs.inner.Gatherings.{HasRun, shared_of};

use crate::gate::Gate;
use crate::history::history_of;
use crate::parts::{Parts, parts_of};
use crate::shared::Shared;
use crate::worker::Worker;
use class_books::{SharedClasses, class_laws};
use donor_book::Entry;
use edit_model::Value;
use foundation::OutOfMemory;
use record_pieces::{Piece, Rest};
use std::alloc::Global;
use std::sync::Wait;
use std::thread;
use std::thread::Threads;
use ticket_row::Tickets;

/// What workers found and claimed, all together. There is a piece for each record, in row order. The claims
/// of donors stand class by class, in each in the order in which they were answered. `rest` is that of the
/// workers, with the survey, the sheet, and the pool that they filled.
#[derive(Drop)]
pub struct Gathered<F> {
    pub pieces: Vec<Piece>,
    pub history: Vec<Entry>,
    pub rest: Rest<F>,
}

/// Lets all workers run, each in a thread of its own, and gathers what they found and claimed. There is at
/// least one worker, and they have all seats and all passes. So the tickets and the books can be closed
/// when they have run. Where memory is refused to one worker, nothing is gathered.
pub fn run_all<R: Threads + Wait + Sync, F: Fn(u32, &Value, &Value) -> u64 + Send + Sync, G: Gate>(
    rt: &R,
    alloc: Global,
    shared: Shared<F>,
    workers: Vec<Worker>,
    gate: &G,
) -> Result<Gathered<F>, OutOfMemory>
    requires shared { IsShared F.Fn shared }
    requires ready { All (IsReady shared) workers.items }
    requires some { 0 < length workers.items }
    requires seats { length workers.items ≡ shared.tickets.seats }
    requires passes { length workers.items ≡ shared.books.terms.passes }
    ensures rest { IfOk result (λ gathered. gathered.rest ≡ shared.rest) }
    ensures pieces { IfOk result (λ gathered. ArePiecesIn shared.rest gathered.pieces.items) }
    ensures history { IfOk result (λ gathered. AnswersNeeds shared.books.terms.limit gathered.pieces.items gathered.history.items) }
    ensures classes { IfOk result (λ gathered. AnswersInClasses shared.books.terms.limit (last_class shared)
        (length workers.items ≡ 1) gathered.pieces.items gathered.history.items) }
{
    let ran = run_each(rt, alloc, &shared, workers, gate);
    let Shared {
        rest,
        tickets,
        books,
    } = shared;
    let (pieces, history) = found_by(alloc, &rest, tickets, books, ran)?;
    Ok(Gathered {
        pieces,
        history,
        rest,
    })
}

// The pieces that workers found, in row order, and what they claimed. `ran` has the workers when they have
// run, so that the tickets and the books can be closed, or says that memory was refused to one of them.
fn found_by<F: Fn(u32, &Value, &Value) -> u64>(
    alloc: Global,
    rest: &Rest<F>,
    tickets: Tickets,
    books: SharedClasses,
    ran: Result<Vec<Worker>, OutOfMemory>,
) -> Result<(Vec<Piece>, Vec<Entry>), OutOfMemory>
    requires shared { IsShared F.Fn (shared_of rest.now tickets books) }
    requires ran { IfOk ran (λ workers. All (HasRun (shared_of rest.now tickets books)) workers.items) }
    requires seats { IfOk ran (λ workers. length workers.items ≡ tickets.seats) }
    requires passes { books.terms.passes ≡ tickets.seats }
    requires some { 0 < tickets.seats }
    ensures pieces { IfOk result (λ found. ArePiecesIn rest.now found.0.items) }
    ensures history { IfOk result (λ found. AnswersNeeds books.terms.limit found.0.items found.1.items) }
    ensures classes { IfOk result (λ found. AnswersInClasses books.terms.limit (length rest.now.decks.of_class.items)
        (tickets.seats ≡ 1) found.0.items found.1.items) }
{
    let workers = ran?;
    let Parts {
        seats,
        passes,
        mut pieces,
    } = parts_of(alloc, workers)?;
    tickets.close(seats);
    let histories = books.close(passes);
    class_laws();
    pieces.sort_unstable_by_key(|piece| piece.row_no);
    let history = history_of(alloc, &pieces, &histories, rest.decks.last())?;
    Ok((pieces, history))
}

// Lets all workers run, and gives them back in their order when each has ended. Where memory was refused to
// some worker, that is the answer, and no worker comes back.
fn run_each<R: Threads + Wait + Sync, F: Fn(u32, &Value, &Value) -> u64 + Send + Sync, G: Gate>(
    rt: &R,
    alloc: Global,
    shared: &Shared<F>,
    workers: Vec<Worker>,
    gate: &G,
) -> Result<Vec<Worker>, OutOfMemory>
    requires shared { IsShared F.Fn shared.now }
    requires ready { All (IsReady shared.now) workers.items }
    ensures as_many { IfOk result (λ ran. length ran.items ≡ length workers.items) }
    ensures ran { IfOk result (λ ran. All (HasRun shared.now) ran.items) }
{
    let results = thread::map_vec(
        rt,
        workers,
        &|worker: Worker| -> Result<Worker, OutOfMemory>
            requires { IsShared F.Fn shared.now × IsReady shared.now worker }
            ensures { IfOk result (HasRun shared.entry.now) }
        {
            let mut worker = worker;
            worker.run(rt, alloc, shared, gate)?;
            Ok(worker)
        },
    )?;
    let mut ran = Vec::new(alloc);
    for worker in results {
        ran.push(worker?)?;
    }
    Ok(ran)
}
