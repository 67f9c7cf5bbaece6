//! Tests of a pool of derived systems, by those of the trade survey. One reader obtains or publishes them,
//! another finds them, and two threads share the pool. A system that is obtained is made, and kept by the
//! pool, where it is not there yet. One that is found was there. A reader is one of a pool (`IsReaderOf`)
//! where it has walked entries of that pool alone.
ghost use Rattle.std.specs.Prelude.{◌≡◌, ◌<◌, [], IfOk};
ghost use Rattle.std.specs.Arc.{arc_value};
ghost use Rattle.linear_elim.specs.Systems.{AreNumerical};
ghost use Rattle.shared_edits.specs.Pools.{IsReaderOf};

use super::reading::{LinePlan, TRADE, edits_of, is_line, number_set, survey_of};
use edit_line::Edits;
use edit_line::Relation::AtLeast;
use edit_model::FieldSet;
use foundation::Steps;
use linear_elim::{Held, System, fold_system};
use shared_edits::{Pool, Published, Reader};
use std::alloc::Global;
use std::marker::Brand;
use std::sync::ledger::{Blank, Ledger};
use std::sync::{Arc, Wait};
use std::test::Fail;
use std::thread;
use std::thread::Threads;

/// The lines that are left of the trade survey without Costs.
const WITHOUT_COSTS: &[LinePlan] = &[
    (&[], &[1, 0, 0], 0, AtLeast),
    (&[], &[3, 0, -5], 0, AtLeast),
    (&[], &[1, 0, -1], 0, AtLeast),
];

/// The one line that is left without Costs and Profit.
const WITHOUT_BOTH: &[LinePlan] = &[(&[], &[1, 0, 0], 0, AtLeast)];

/// The edits of the trade survey, and the set of Costs alone and that of Costs and Profit.
#[derive(Drop)]
struct Trade {
    edits: Arc<Edits>,
    costs: FieldSet,
    both: FieldSet,
    ghost one: { AreNumerical (arc_value edits).shape costs },
    ghost two: { AreNumerical (arc_value edits).shape both },
}

// The edits and the sets of the trade survey, whose fields Costs and Profit have the numbers 1 and 2.
fn read_trade(alloc: Global) -> Result<Trade, Fail> {
    let survey = survey_of(alloc, TRADE)?;
    Ok(Trade {
        edits: edits_of(alloc, &survey)?,
        costs: number_set(&survey, &[1])?,
        both: number_set(&survey, &[1, 2])?,
    })
}

/// Whether the system has just these lines, in this order.
fn has_lines(system: &System, wanted: &[LinePlan]) -> bool {
    let lines = system.lines();
    lines.len() == wanted.len()
        && lines
            .iter()
            .zip(wanted)
            .all(|(derived, plan)| is_line(&derived.line, plan))
}

/// Whether the system is shared with the pool, and not the caller's own, and has these lines.
fn is_shared(held: &Held, wanted: &[LinePlan]) -> bool {
    match held {
        Held::Shared(system) => has_lines(system, wanted),
        Held::Own(_) => false,
    }
}

/// Whether the pool gives the reader the system without these fields, with these lines, and as one that it
/// shares. False also where it refuses.
fn obtains<R: Wait, L: Ledger>(
    rt: &R,
    alloc: Global,
    pool: &Pool,
    reader: &mut Reader,
    fields: FieldSet,
    wanted: &[LinePlan],
    steps: &mut Steps<L>,
) -> bool
    requires numerical { AreNumerical pool.now.edits.shape fields }
    requires reader { IsReaderOf pool.now reader.old }
    ensures { IsReaderOf pool.now reader.new }
{
    match pool.obtain(rt, alloc, reader, fields, steps) {
        Ok(held) => is_shared(&held, wanted),
        Err(_) => false,
    }
}

/// Whether the pool gives the reader the system without Costs, and then the one without Costs and Profit, both
/// shared.
fn obtains_both<R: Wait, L: Ledger>(
    rt: &R,
    alloc: Global,
    pool: &Pool,
    reader: &mut Reader,
    trade: &Trade,
    steps: &mut Steps<L>,
) -> bool
    requires edits { pool.now.edits ≡ arc_value trade.now.edits }
    requires reader { IsReaderOf pool.now reader.old }
    ensures { IsReaderOf pool.now reader.new }
{
    if !obtains(rt, alloc, pool, reader, trade.costs, WITHOUT_COSTS, steps) {
        return false;
    }
    obtains(rt, alloc, pool, reader, trade.both, WITHOUT_BOTH, steps)
}

/// Whether the reader finds the system without these fields in the pool, and it has these lines. False where it
/// is not there; none is made.
fn finds(pool: &Pool, reader: &mut Reader, fields: FieldSet, wanted: &[LinePlan]) -> bool
    requires { IsReaderOf pool.now reader.old }
    ensures { IsReaderOf pool.now reader.new }
{
    match pool.find(reader, fields) {
        Some(system) => has_lines(system, wanted),
        None => false,
    }
}

/// A new pool for systems of these edits, without any. A want of memory ends the test.
fn pool_of(alloc: Global, edits: &Arc<Edits>) -> Result<Pool, Fail>
    ensures { IfOk result (λ pool. pool.edits ≡ arc_value edits.now) }
{
    let edits = Arc::try_clone(edits)?;
    Ok(Pool::new(alloc, edits).ok().ok_or("memory")?)
}

/// A new reader of the pool, which knows no system yet. A want of memory ends the test.
fn reader_of(alloc: Global, pool: &Pool) -> Result<Reader, Fail>
    ensures { IfOk result (λ reader. reader ≡ []) }
{
    Ok(pool.reader(alloc).ok().ok_or("memory")?)
}

/// Whether the pool keeps the systems that one reader obtains, so that another finds them. A new pool has no
/// system. Then the first reader obtains those of both sets, twice, the second time from what it knows. Then
/// the second reader finds the system without Costs. `blank` is one of the ledger `L` (`name`, `parts`), and
/// starts the counter of steps.
fn keeps_systems<R: Wait, L: Ledger>(rt: &R, alloc: Global, blank: Blank) -> Result<bool, Fail>
    requires name { blank.name ≡ L.name }
    requires parts { blank.parts ≡ L.parts }
    requires counts { 0 < blank.parts }
{
    let trade = read_trade(alloc)?;
    let pool = pool_of(alloc, &trade.edits)?;
    let mut first = reader_of(alloc, &pool)?;
    let mut second = reader_of(alloc, &pool)?;
    let mut steps = Steps::<L>::start(blank);
    if pool.find(&mut first, trade.costs).is_some() {
        return Ok(false);
    }
    if !obtains_both(rt, alloc, &pool, &mut first, &trade, &mut steps) {
        return Ok(false);
    }
    if !obtains_both(rt, alloc, &pool, &mut first, &trade, &mut steps) {
        return Ok(false);
    }
    Ok(finds(&pool, &mut second, trade.costs, WITHOUT_COSTS))
}

// One reader obtains both systems of the trade survey, and another finds the first of them.
#[test]
fn systems_are_kept_for_other_readers(rt: HostRuntime) -> Result<(), Fail> {
    assert!(rt; keeps_systems::<HostRuntime, Brand>(&rt, rt.alloc(), Blank::new(1))?);
    Ok(())
}

/// Whether the pool stores a system that was made outside of it and is published there, and its reader finds it.
/// `blank` is one of the ledger `L` (`name`, `parts`), and starts the counter of steps.
fn publishes_system<R: Wait, L: Ledger>(rt: &R, alloc: Global, blank: Blank) -> Result<bool, Fail>
    requires name { blank.name ≡ L.name }
    requires parts { blank.parts ≡ L.parts }
    requires counts { 0 < blank.parts }
{
    let trade = read_trade(alloc)?;
    let pool = pool_of(alloc, &trade.edits)?;
    let mut reader = reader_of(alloc, &pool)?;
    let mut steps = Steps::<L>::start(blank);
    let system = fold_system(alloc, &trade.edits, trade.both, &mut steps)
        .ok()
        .ok_or("a system")?;
    match pool
        .publish(rt, alloc, &mut reader, system)
        .ok()
        .ok_or("memory")?
    {
        Published::Stored(_) => Ok(finds(&pool, &mut reader, trade.both, WITHOUT_BOTH)),
        Published::Full(_) => Ok(false),
    }
}

// A system that was made without the pool is published in it, and found there.
#[test]
fn a_system_is_published(rt: HostRuntime) -> Result<(), Fail> {
    assert!(rt; publishes_system::<HostRuntime, Brand>(&rt, rt.alloc(), Blank::new(1))?);
    Ok(())
}

/// What a thread does in a test: whether this reader, which it owns, obtains both systems from the pool. `blank`
/// is one of the ledger `L` (`name`, `parts`), and starts the thread's own counter of steps.
fn thread_obtains<R: Wait, L: Ledger>(
    rt: &R,
    alloc: Global,
    pool: &Pool,
    mut reader: Reader,
    trade: &Trade,
    blank: Blank,
) -> bool
    requires name { blank.name ≡ L.name }
    requires parts { blank.parts ≡ L.parts }
    requires counts { 0 < blank.parts }
    requires edits { pool.now.edits ≡ arc_value trade.now.edits }
    requires reader { IsReaderOf pool.now reader }
{
    let mut steps = Steps::<L>::start(blank);
    obtains_both(rt, alloc, pool, &mut reader, trade, &mut steps)
}

/// What a thread does in a test, with a blank that it makes for its counter: whether this reader obtains both
/// systems from the pool.
fn thread_obtains_uncounted<R: Wait>(
    rt: &R,
    alloc: Global,
    pool: &Pool,
    reader: Reader,
    trade: &Trade,
) -> bool
    requires edits { pool.now.edits ≡ arc_value trade.now.edits }
    requires reader { IsReaderOf pool.now reader }
{
    thread_obtains::<R, Brand>(rt, alloc, pool, reader, trade, Blank::new(1))
}

/// Whether two threads that share a pool, each with a reader of its own, both obtain both systems.
fn threads_obtain<R: Threads + Wait + Sync>(rt: &R, alloc: Global) -> Result<bool, Fail> {
    let trade = read_trade(alloc)?;
    let pool = pool_of(alloc, &trade.edits)?;
    let first = reader_of(alloc, &pool)?;
    let second = reader_of(alloc, &pool)?;
    let (shared, edits) = (&pool, &trade);
    let (one, other) = thread::join(
        rt,
        move || -> bool
            requires { (shared.now.edits ≡ arc_value edits.now.edits) × IsReaderOf shared.now first }
        { thread_obtains_uncounted(rt, alloc, shared, first, edits) },
        move || -> bool
            requires { (shared.now.edits ≡ arc_value edits.now.edits) × IsReaderOf shared.now second }
        { thread_obtains_uncounted(rt, alloc, shared, second, edits) },
    );
    Ok(one && other)
}

// Two threads, each with a reader of its own, obtain both systems from one pool.
#[test]
fn threads_share_a_pool(rt: HostRuntime) -> Result<(), Fail> {
    assert!(rt; threads_obtain(&rt, rt.alloc())?);
    Ok(())
}
