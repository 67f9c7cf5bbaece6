//! The lines of a whole proof file, read from the first to the last: version, limits, verdicts, table,
//! records, claims and end. Each `next_..` call reads a part at the front of the lines that are left, and
//! takes its lines. Each `read_behind_..` call has the parts before and reads all that follows them. But for
//! `read_file`, the other `read_..` calls read the words of one line, and each `take_..` call some first words.
//! `shared` is the number of the lines of the rules, behind which those of a table are numbered, or None
//! without a table.
//!
//! In contracts `limits_in` and its like are what the grammar reads off the words of a line, and
//! `table_reading` off lines. `ReadsAs` says that the call answers just that, or `Form` where that is
//! nothing. `Reads` says the same of lines, and which are left behind it. Where the grammar reads nothing,
//! the fault is at the first line that can't go on.
ghost use Rattle.std.specs.Prelude.{codes};
ghost use Rattle.proof_grammar.specs.Cuts.{split};
ghost use Rattle.proof_grammar.specs.inner.FileReading.{behind_verdicts, behind_version, budget_behind, claims_reading, count_in};
ghost use Rattle.proof_grammar.specs.inner.FileReading.{counted_reading, end_in, file_reading, limits_in, lists_reading, near_behind};
ghost use Rattle.proof_grammar.specs.inner.FileReading.{rows_reading, table_reading, version_in, version_said};
ghost use Rattle.proof_grammar.specs.inner.Readings.{Reads, read_line};
ghost use Rattle.proof_grammar.specs.inner.RowReading.{row_reading};
ghost use Rattle.proof_grammar.specs.Words.{ReadsAs, Takes, word_in};

use super::parts::{Part, next_parts};
use super::places::{RowPlace, next_places};
use super::proof_file::ProofFile;
use super::steps::next_table_steps;
use crate::versions::{has_table, shared_from};
use derivation::Step;
use donor_book::Entry;
use foundation::Sequence;
use proof_grammar::{Lines, ProofFault, RunLimits, Stop, Words, settle};
use std::alloc::Global;

/// What the first two lines of a proof file tell: its version, and the limits of the run that it is of.
#[derive(Drop)]
struct Preamble {
    version: u32,
    limits: RunLimits,
}

/// The proof that the lines spell up to the line `end`. The caller looks whether something stands behind
/// that. The trees of the rows are not held.
pub(super) fn read_file<'a>(
    alloc: Global,
    lines: &mut Lines<'a>,
) -> Result<ProofFile<'a>, ProofFault>
    ensures { Reads result lines.old lines.new (file_reading lines.old.left) }
{
    let version = next_version(lines)?;
    read_behind_version(alloc, lines, version)
}

// Reads the limits and all that follows them. The `version` is read already, and the answer is the proof
// of all parts.
fn read_behind_version<'a>(
    alloc: Global,
    lines: &mut Lines<'a>,
    version: u32,
) -> Result<ProofFile<'a>, ProofFault>
    ensures { Reads result lines.old lines.new (behind_version version lines.old.left) }
{
    let limits = next_limits(lines)?;
    read_behind_limits(alloc, lines, Preamble { version, limits })
}

// Reads the verdicts and all that follows them. The parts before are read already, and the answer is the
// proof of all parts.
fn read_behind_limits<'a>(
    alloc: Global,
    lines: &mut Lines<'a>,
    preamble: Preamble,
) -> Result<ProofFile<'a>, ProofFault>
    ensures { Reads result lines.old lines.new (lists_reading preamble.version preamble.limits lines.old.left) }
{
    let verdicts = next_counted_parts(alloc, lines, None, b"lines")?;
    read_behind_verdicts(alloc, lines, preamble, verdicts)
}

// Reads the table, if the file has one, and all that follows it. The parts before are read already, and
// the answer is the proof of all parts.
fn read_behind_verdicts<'a>(
    alloc: Global,
    lines: &mut Lines<'a>,
    preamble: Preamble,
    verdicts: Sequence<Option<Sequence<Step>>>,
) -> Result<ProofFile<'a>, ProofFault>
    ensures { Reads result lines.old lines.new (behind_verdicts preamble.version preamble.limits verdicts lines.old.left) }
{
    let table = next_table(alloc, lines, has_table(preamble.version))?;
    read_behind_table(alloc, lines, preamble, verdicts, table)
}

// Reads the rows and all that follows them. The parts before are read already, and the answer is the proof
// of all parts.
fn read_behind_table<'a>(
    alloc: Global,
    lines: &mut Lines<'a>,
    preamble: Preamble,
    verdicts: Sequence<Option<Sequence<Step>>>,
    table: Sequence<Step>,
) -> Result<ProofFile<'a>, ProofFault>
    ensures { Reads result lines.old lines.new (rows_reading preamble.version preamble.limits verdicts table lines.old.left) }
{
    let shared = shared_from(has_table(preamble.version), verdicts.as_slice().len());
    let rows = next_counted_rows(alloc, lines, shared)?;
    read_behind_rows(alloc, lines, preamble, verdicts, table, rows)
}

// Reads the claims and the line `end`. The parts before are read already, and the answer is the proof of
// all parts.
fn read_behind_rows<'a>(
    alloc: Global,
    lines: &mut Lines<'a>,
    preamble: Preamble,
    verdicts: Sequence<Option<Sequence<Step>>>,
    table: Sequence<Step>,
    rows: Sequence<RowPlace<'a>>,
) -> Result<ProofFile<'a>, ProofFault>
    ensures { Reads result lines.old lines.new
        (claims_reading preamble.version preamble.limits verdicts table rows.entry lines.old.left) }
{
    let claims = next_counted_parts(alloc, lines, None, b"claims")?;
    next_end(lines)?;
    Ok(ProofFile {
        version: preamble.version,
        limit: preamble.limits.limit,
        near: preamble.limits.near,
        budget: preamble.limits.budget,
        verdicts,
        table,
        rows,
        claims,
    })
}

// The steps of the table, where the file has one (`there`). Else there are none, and no line is taken.
fn next_table(alloc: Global, lines: &mut Lines, there: bool) -> Result<Sequence<Step>, ProofFault>
    ensures { Reads result lines.old lines.new (table_reading there lines.old.left) }
{
    if !there {
        return Ok(Sequence::from_vec(Vec::new(alloc)));
    }
    let count = next_count(lines, b"table")?;
    next_table_steps(alloc, lines, count)
}

// The places of the rows, behind the line that counts the records: as many as it says. That line and those
// of the rows are taken.
fn next_counted_rows<'a>(
    alloc: Global,
    lines: &mut Lines<'a>,
    shared: Option<u64>,
) -> Result<Sequence<RowPlace<'a>>, ProofFault>
    ensures { Reads result lines.old lines.new (counted_reading (count_in (codes "records")) (row_reading shared) lines.old.left) }
{
    let count = next_count(lines, b"records")?;
    next_places(alloc, lines, shared, count)
}

// The parts behind the line that is this `word` and their count: as many as it says. That line and those of
// the parts are taken.
fn next_counted_parts<P: Part>(
    alloc: Global,
    lines: &mut Lines,
    shared: Option<u64>,
    word: &[u8],
) -> Result<Sequence<P>, ProofFault>
    ensures { Reads result lines.old lines.new (counted_reading (count_in word.now) (P.reading shared) lines.old.left) }
{
    let count = next_count(lines, word)?;
    next_parts(alloc, lines, shared, count)
}

// The version that the next line tells, which is the first of the file.
fn next_version(lines: &mut Lines) -> Result<u32, ProofFault>
    ensures { Reads result lines.old lines.new (read_line version_in lines.old.left) }
{
    let line = lines.next()?;
    settle(lines, read_version(line))
}

// The version of a line `fh-proof VERSION`. `Form` for any other line.
fn read_version(line: &[u8]) -> Result<u32, Stop>
    ensures { ReadsAs result (version_in (split 32 line.now)) }
{
    let mut words = Words::new(line);
    words.take_word(b"fh-proof")?;
    let version = take_version(&mut words)?;
    words.end()?;
    Ok(version)
}

// The version that the next word spells, 1 or 2. `Form` for any other word, or where none is left.
fn take_version(words: &mut Words) -> Result<u32, Stop>
    ensures { Takes result words.new (word_in version_said words.old) }
{
    let Some(word) = words.next() else {
        return Err(Stop::Form);
    };
    if word == b"1".as_slice() {
        Ok(1)
    } else if word == b"2".as_slice() {
        Ok(2)
    } else {
        Err(Stop::Form)
    }
}

// The limits that the next line tells, which is the second of the file.
fn next_limits(lines: &mut Lines) -> Result<RunLimits, ProofFault>
    ensures { Reads result lines.old lines.new (read_line limits_in lines.old.left) }
{
    let line = lines.next()?;
    settle(lines, read_limits(line))
}

// The limits of a line `limit L near K budget W`. `Form` for any other line.
fn read_limits(line: &[u8]) -> Result<RunLimits, Stop>
    ensures { ReadsAs result (limits_in (split 32 line.now)) }
{
    let mut words = Words::new(line);
    words.take_word(b"limit")?;
    let limit = words.take_u32()?;
    read_behind_limit(&mut words, limit)
}

// The limits of a line of which `limit` is read. The word `near` and how many donors a row ranks at most
// come next, and then what `read_behind_near` reads. `Form` for any other words.
fn read_behind_limit(words: &mut Words, limit: u32) -> Result<RunLimits, Stop>
    ensures { ReadsAs result (near_behind limit words.old) }
{
    words.take_word(b"near")?;
    let near = words.take_u32()?;
    read_behind_near(words, limit, near)
}

// The limits of a line of which `limit` and `near` are read. The word `budget` and how much work a search
// may take come last. `Form` for any other words.
fn read_behind_near(words: &mut Words, limit: u32, near: u32) -> Result<RunLimits, Stop>
    ensures { ReadsAs result (budget_behind limit near words.old) }
{
    words.take_word(b"budget")?;
    let budget = words.take_u64()?;
    words.end()?;
    Ok(RunLimits {
        limit,
        near,
        budget,
    })
}

// The count that stands behind this `word` on the next line.
fn next_count(lines: &mut Lines, word: &[u8]) -> Result<u64, ProofFault>
    ensures { Reads result lines.old lines.new (read_line (count_in word.now) lines.old.left) }
{
    let line = lines.next()?;
    settle(lines, read_count(line, word))
}

// The count of a line that is this `word` and a number. `Form` for any other line.
fn read_count(line: &[u8], word: &[u8]) -> Result<u64, Stop>
    ensures { ReadsAs result (count_in word.now (split 32 line.now)) }
{
    let mut words = Words::new(line);
    words.take_word(word)?;
    let count = words.take_u64()?;
    words.end()?;
    Ok(count)
}

// Takes the next line, which has to be the last one, `end`.
fn next_end(lines: &mut Lines) -> Result<(), ProofFault>
    ensures { Reads result lines.old lines.new (read_line end_in lines.old.left) }
{
    let line = lines.next()?;
    settle(lines, read_end(line))
}

// Ok where the line is the word `end` alone, and else `Form`.
fn read_end(line: &[u8]) -> Result<(), Stop>
    ensures { ReadsAs result (end_in (split 32 line.now)) }
{
    let mut words = Words::new(line);
    words.take_word(b"end")?;
    words.end()
}
