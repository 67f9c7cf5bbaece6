//! The lines of verdicts: for each line of the rules `keep`, or `drop` with the steps that refute its
//! negation.
//!
//! In contracts `verdict_in` and its like are what the grammar reads off the words of a line, and
//! `verdict_reading` off lines. `ReadsAs` says that the call answers just that, or `Form` where that is
//! nothing. `Reads` says the same of lines, and which are left behind it. Where the grammar reads nothing,
//! the fault is at the first line that can't go on.
ghost use Rattle.proof_grammar.specs.Cuts.{split};
ghost use Rattle.proof_grammar.specs.inner.FileReading.{behind_verdict, verdict_in, verdict_reading};
ghost use Rattle.proof_grammar.specs.inner.Readings.{Reads, read_line};
ghost use Rattle.proof_grammar.specs.Words.{ReadsAs};

use super::parts::{Part, next_parts};
use derivation::Step;
use foundation::Sequence;
use proof_grammar::{Lines, ProofFault, Stop, Words, settle};
use std::alloc::Global;

impl Part for Option<Sequence<Step>> {
    ghost reading = { λ shared. verdict_reading };

    // The verdict whose lines are at the front: its head, and its steps where a line is dropped.
    fn read(
        alloc: Global,
        lines: &mut Lines,
        _shared: Option<u64>,
    ) -> Result<Option<Sequence<Step>>, ProofFault> {
        let head = next_head(lines)?;
        read_behind_head(alloc, lines, head)
    }
}

// The verdict whose `head` was read: None for a line that is kept, which has no steps, or how many steps
// are at the front. They are read here, and their lines are taken. They name no line of a table.
fn read_behind_head(
    alloc: Global,
    lines: &mut Lines,
    head: Option<u64>,
) -> Result<Option<Sequence<Step>>, ProofFault>
    ensures { Reads result lines.old lines.new (behind_verdict head lines.old.left) }
{
    match head {
        None => Ok(None),
        Some(count) => match next_parts(alloc, lines, None, count) {
            Ok(steps) => Ok(Some(steps)),
            Err(fault) => Err(fault),
        },
    }
}

// The head of the next line: how many steps follow, or None for a line that is kept.
fn next_head(lines: &mut Lines) -> Result<Option<u64>, ProofFault>
    ensures { Reads result lines.old lines.new (read_line verdict_in lines.old.left) }
{
    let line = lines.next()?;
    settle(lines, read_head(line))
}

// The head of a verdict: how many steps follow `drop`, or None for `keep`, a line that is kept. `Form` for
// any other line.
fn read_head(line: &[u8]) -> Result<Option<u64>, Stop>
    ensures { ReadsAs result (verdict_in (split 32 line.now)) }
{
    let mut words = Words::new(line);
    let Some(kind) = words.next() else {
        return Err(Stop::Form);
    };
    if kind == b"keep".as_slice() {
        words.end()?;
        Ok(None)
    } else if kind == b"drop".as_slice() {
        let count = words.take_u64()?;
        words.end()?;
        Ok(Some(count))
    } else {
        Err(Stop::Form)
    }
}
