//! Records that two workers edit, where a gate tells which of them goes first. What is expected was
//! worked out by hand.
ghost use Rattle.std.specs.Prelude.{◌≤◌, ◌<◌, ◌^◌, length};

use donor_book::Entry;
use donor_measure::{Measure, Yardsticks};
use edit_language::read_rules;
use edit_model::{FieldSet, Value};
use edit_report::RowEnd;
use foundation::OutOfMemory;
use pruned_rules::prune_rules;
use record_editing::{Edited, Terms, edit_records};
use record_pieces::Rest;
use record_text::read_records;
use record_workers::{Gate, NoGate};
use shared_edits::Pool;
use std::alloc::Global;
use std::sync::Wait;
use std::sync::atomic::{AtomicU64, Ordering};
use std::test::Fail;
use std::thread;
use std::thread::Threads;

/// How often a worker that is held looks before it gives up.
const TURNS: u32 = 1_000_000_000;

/// How often the worker that drew the other row looks away, so that the one that was held can end first.
const LOOKS: u32 = 200_000;

/// The gate that holds the worker that drew the row `row_no` until the row `until` was drawn. `drawn` and
/// `given_up` are 0 or 1: whether that row was drawn, and whether the held worker gave up.
#[derive(Drop)]
struct Hold {
    row_no: u32,
    until: u32,
    drawn: AtomicU64,
    given_up: AtomicU64,
}

impl Hold {
    // The gate that holds at the row `row_no` until the row `until` is drawn; neither is yet.
    fn new(row_no: u32, until: u32) -> Hold {
        Hold {
            row_no,
            until,
            drawn: AtomicU64::new(0),
            given_up: AtomicU64::new(0),
        }
    }

    // Waits for the other row, and tells whether it was drawn. It looks a limited number of times, so
    // that a worker that is never let go fails the test and doesn't hang it.
    fn waits(&self) -> bool {
        for _ in 0..TURNS {
            if self.drawn.load(Ordering::SeqCst) == 1 {
                return true;
            }
            thread::yield_now();
        }
        false
    }

    // Whether the held worker went on without the other row: then the test shows nothing.
    fn has_given_up(&self) -> bool {
        self.given_up.load(Ordering::SeqCst) == 1
    }
}

impl Gate for Hold {
    // Notes that the other row was drawn, or holds the worker that drew the first.
    fn at(&self, _worker: u32, row_no: u32) {
        if row_no == self.until {
            self.drawn.store(1, Ordering::SeqCst);
        }
        if row_no == self.row_no && !self.waits() {
            self.given_up.store(1, Ordering::SeqCst);
        }
    }
}

/// The gate that holds as `hold` does. It also keeps the worker that drew the other row waiting, while
/// the one that was held goes on.
#[derive(Drop)]
struct Relay {
    hold: Hold,
}

impl Gate for Relay {
    // Holds as the inner gate does, and then keeps the worker that drew the other row waiting.
    fn at(&self, worker: u32, row_no: u32) {
        self.hold.at(worker, row_no);
        if row_no == self.hold.until {
            for _ in 0..LOOKS {
                thread::yield_now();
            }
        }
    }
}

/// What became of the records of a file, who claimed which donor, and the systems that were derived.
#[derive(Drop)]
struct Seen {
    ends: Vec<RowEnd>,
    history: Vec<Entry>,
    pool: Pool,
}

// Edits the records of a file by the rules of another, both given as bytes, with `workers` workers and this
// gate. It gives what became of the records, the history of claims and the pool. Each record ranks one donor,
// and each donor is given once at most. Bytes without a reading are answered as refused memory.
fn edit_bytes<R: Threads + Wait + Sync, G: Gate>(
    rt: &R,
    alloc: Global,
    rules: &[u8],
    records: &[u8],
    workers: u32,
    gate: &G,
) -> Result<Seen, OutOfMemory>
    requires rules { length rules.now < 2 ^ 32 }
    requires workers { (1 ≤ workers) × (workers ≤ 64) }
{
    let Ok(survey) = read_rules(alloc, rules) else {
        return Err(OutOfMemory);
    };
    let Ok(sheet) = read_records(alloc, &survey, records) else {
        return Err(OutOfMemory);
    };
    let edits = prune_rules(alloc, &survey)?.kept_edits(alloc, &survey)?;
    let yardsticks = Yardsticks::of(&survey);
    let measure = Measure::new(&survey, move |field: u32, first: &Value, second: &Value| {
        yardsticks.distance(field, first, second)
    });
    let terms = Terms {
        budget: 1_000_000,
        limit: 1,
        near: 1,
        class_field: None,
    };
    let Edited {
        ends,
        history,
        rest,
    } = edit_records(
        rt, alloc, survey, edits, sheet, measure, terms, workers, gate,
    )?;
    let Rest { pool, .. } = rest;
    Ok(Seen {
        ends,
        history,
        pool,
    })
}

// Whether the claim is of the row `row_no`, from 0, ranks row 0 alone, and was answered this donor, or
// nobody.
fn is_claim(entry: &Entry, row_no: u32, reply: Option<u32>) -> bool {
    entry.row_no == row_no && entry.ranking.as_slice() == [0].as_slice() && entry.reply == reply
}

// Whether the record of this end now has the whole number `number` at the field of that number, from 0. A
// record that was given no values has none; a clean one has its own.
fn has_number(end: &RowEnd, field: u32, number: i128) -> bool {
    let Some(gift) = &end.gift else {
        return false;
    };
    match gift.row.values().get(field as usize) {
        Some(Value::Number(x)) => x.numerator() == number && x.denominator() == 1,
        _ => false,
    }
}

// Two numerical fields that are at least 1, of which the second is at most 9. A record with one value
// lacks the other alone.
const PAIR_RULES: &[u8] = b"number A\nnumber B\nA >= 1\nB >= 1\nB <= 9\n";

// Rows 1 and 2 lack B and rank row 0, which gives once: one of them is given it, and the later claim
// nobody.
#[test]
fn two_workers_give_one_donor_once(rt: HostRuntime) -> Result<(), Fail> {
    let Seen { history, .. } = edit_bytes(
        &rt,
        rt.alloc(),
        PAIR_RULES,
        b"A,B\n5,4\n5,\n6,\n",
        2,
        &NoGate,
    )?;
    assert_eq!(rt; history.len(), 2);
    assert!(rt; history[0].reply == Some(0) && history[1].reply.is_none());
    Ok(())
}

// With one worker row 1 claims first and takes 4. Row 2 is given nobody and takes 1, the nearest to 0.
#[test]
fn one_worker_claims_in_row_order(rt: HostRuntime) -> Result<(), Fail> {
    let Seen { ends, history, .. } = edit_bytes(
        &rt,
        rt.alloc(),
        PAIR_RULES,
        b"A,B\n5,4\n5,\n6,\n",
        1,
        &NoGate,
    )?;
    assert_eq!(rt; history.len(), 2);
    assert!(rt; is_claim(&history[0], 1, Some(0)) && is_claim(&history[1], 2, None));
    assert!(rt; ends.len() == 3 && has_number(&ends[1], 1, 4) && has_number(&ends[2], 1, 1));
    Ok(())
}

// Row 0 is held until row 1 was drawn: so another worker draws while one is held. Both rows are clean.
#[test]
fn a_worker_draws_while_another_is_held(rt: HostRuntime) -> Result<(), Fail> {
    let gate = Hold::new(0, 1);
    let Seen { ends, history, .. } = edit_bytes(
        &rt,
        rt.alloc(),
        b"number A\nA >= 0\n",
        b"A\n1\n2\n",
        2,
        &gate,
    )?;
    assert!(rt; !gate.has_given_up());
    assert!(rt; history.is_empty() && ends.len() == 2);
    assert!(rt; has_number(&ends[0], 0, 1) && has_number(&ends[1], 0, 2));
    Ok(())
}

// Row 1 is held until row 3 was drawn. So the other worker has done with row 2, and has claimed for it,
// before row 1 claims.
#[test]
fn a_worker_claims_before_it_draws_again(rt: HostRuntime) -> Result<(), Fail> {
    let gate = Relay {
        hold: Hold::new(1, 3),
    };
    let Seen { ends, history, .. } = edit_bytes(
        &rt,
        rt.alloc(),
        PAIR_RULES,
        b"A,B\n5,4\n5,\n6,\n7,4\n",
        2,
        &gate,
    )?;
    assert!(rt; !gate.hold.has_given_up());
    assert_eq!(rt; history.len(), 2);
    assert!(rt; is_claim(&history[0], 2, Some(0)) && is_claim(&history[1], 1, None));
    assert!(rt; ends.len() == 4 && has_number(&ends[1], 1, 1) && has_number(&ends[2], 1, 4));
    Ok(())
}

// B is changed to 7, for which the system without B was derived: a reader that comes later finds it in
// the pool.
#[test]
fn a_new_reader_finds_what_a_worker_derived(rt: HostRuntime) -> Result<(), Fail> {
    let Seen { ends, pool, .. } = edit_bytes(
        &rt,
        rt.alloc(),
        b"number A\nnumber B\nA + B = 10\n",
        b"A,B\n3,4\n",
        1,
        &NoGate,
    )?;
    assert!(rt; ends.len() == 1 && has_number(&ends[0], 1, 7));
    let mut reader = pool.reader(rt.alloc())?;
    assert!(rt; pool.find(&mut reader, FieldSet::empty().with(1)).is_some());
    Ok(())
}
