//! Four threads claim a donor for each of 10,000 rows, each thread in an order of its own. A book of one
//! thread, for which the rows claim again in the order of the history, answers the same.
ghost use Rattle.std.specs.Prelude.{◌≡◌, ◌<◌};
ghost use Rattle.std.specs.List.{All};

use donor_book::{Book, Claim, Pass, SharedBook, Won};
use foundation::OutOfMemory;
use std::alloc::Global;
use std::sync::atomic::{AtomicU64, Ordering};
use std::test::Fail;
use std::thread;
use std::thread::Threads;

// How many rows claim.
const ROWS: u32 = 10_000;

// How many donors there are: too few for all rows, even if each is given twice.
const DONORS: u32 = 3_000;

// How often a donor is given at most.
const LIMIT: u32 = 2;

// How many threads claim.
const THREADS: u32 = 4;

/// What the threads count together: how many of them have begun, and how many claims were answered by a
/// donor, and by nobody.
#[derive(Drop)]
struct Told {
    begun: AtomicU64,
    given: AtomicU64,
    nobody: AtomicU64,
}

// The four donors that a row ranks, spread so that rows contend for them.
fn ranking_of(row_no: u32) -> [u32; 4]
    requires { row_no < 10000 }
    ensures { All (λ donor. donor < 3000) result }
{
    [
        row_no * 7 % DONORS,
        row_no * 11 % DONORS,
        row_no * 13 % DONORS,
        row_no * 17 % DONORS,
    ]
}

// Claims a donor for each row, from `pass`, which is one of the book, and counts the answers in `told`. It
// begins at the row `first`, and goes on from row 0 behind the last one. A row that another thread claimed
// for before counts nothing.
fn claim_all(book: &SharedBook, mut pass: Pass, first: u32, told: &Told) -> Pass
    requires book { pass.book ≡ book.now }
    requires terms { (book.now.terms.rows ≡ 10000) × (book.now.terms.donors ≡ 3000) }
    requires first { first < 10000 }
    ensures { result.book ≡ pass.book }
{
    for i in 0..ROWS {
        let row_no = (first + i) % ROWS;
        match book.claim(&mut pass, row_no, &ranking_of(row_no)) {
            Claim::Given(_) => told.given.fetch_add(1, Ordering::SeqCst),
            Claim::Nobody => told.nobody.fetch_add(1, Ordering::SeqCst),
            Claim::Had(_) => 0,
        };
    }
    pass
}

// Waits until all threads have begun, so that they claim side by side; after 10,000 looks it waits no
// longer.
fn wait_for_all(told: &Told) {
    for _ in 0..10_000 {
        if told.begun.load(Ordering::SeqCst) >= THREADS as u64 {
            return;
        }
        thread::yield_now();
    }
}

// The history of a book for which four threads claim, each for all rows. They begin at rows of their own,
// 2500 apart, and count their answers in `told`.
fn claims_by_four<R: Threads + Sync>(
    rt: &R,
    alloc: Global,
    told: &Told,
) -> Result<Vec<Won>, OutOfMemory> {
    let (book, passes) = SharedBook::share(alloc, DONORS, LIMIT, ROWS, THREADS)?;
    let shared = &book;
    let passes = thread::map_vec(
        rt,
        passes,
        &|pass: Pass| -> Pass
            requires { (pass.book ≡ shared.now) × (shared.now.terms.rows ≡ 10000) × (shared.now.terms.donors ≡ 3000) }
            ensures { result.book ≡ shared.entry.now }
        {
            let begun = told.begun.fetch_add(1, Ordering::SeqCst);
            wait_for_all(told);
            claim_all(shared, pass, (begun % 4) as u32 * 2500, told)
        },
    )?;
    Ok(book.close(passes))
}

// The answer that a row has from a book of one thread where its claim in the history had this reply.
fn answer_of(reply: Option<u32>) -> Claim {
    match reply {
        Some(donor) => Claim::Given(donor),
        None => Claim::Nobody,
    }
}

// Whether a book of one thread answers each claim of the history, in its order, as it was answered there.
// False also where a row's number is not below `ROWS`.
fn is_answered_again(alloc: Global, history: &[Won]) -> Result<bool, OutOfMemory> {
    let mut book = Book::start(alloc, DONORS, LIMIT, ROWS)?;
    for won in history {
        if won.row_no >= ROWS {
            return Ok(false);
        }
        let ranking = Vec::from_slice(alloc, &ranking_of(won.row_no))?;
        if book.claim_on(won.row_no, ranking) != answer_of(won.reply) {
            return Ok(false);
        }
    }
    Ok(true)
}

// How often the donor was given that was given most often in the history; 0 where none was given.
fn most_given(alloc: Global, history: &[Won]) -> Result<u32, OutOfMemory> {
    let mut uses = vec![in alloc; 0u32; DONORS as usize]?;
    let mut most = 0;
    for won in history {
        let Some(donor) = won.reply else {
            continue;
        };
        if let Some(count) = uses.get_mut(donor as usize) {
            *count = count.saturating_add(1);
            most = most.max(*count);
        }
    }
    Ok(most)
}

// Each row has claimed once, a book of one thread answers alike, and what the threads were told adds up
// to the history.
#[test]
fn four_threads_are_answered_as_one(rt: HostRuntime) -> Result<(), Fail> {
    let told = Told {
        begun: AtomicU64::new(0),
        given: AtomicU64::new(0),
        nobody: AtomicU64::new(0),
    };
    let history = claims_by_four(&rt, rt.alloc(), &told)?;
    let given = history.iter().filter(|won| won.reply.is_some()).count() as u64;
    assert_eq!(rt; history.len(), 10_000);
    assert!(rt; is_answered_again(rt.alloc(), &history)?);
    assert_eq!(rt; most_given(rt.alloc(), &history)?, LIMIT);
    assert_eq!(rt; told.given.load(Ordering::SeqCst), given);
    assert_eq!(rt;
        told.nobody.load(Ordering::SeqCst),
        10_000u64.saturating_sub(given)
    );
    Ok(())
}
