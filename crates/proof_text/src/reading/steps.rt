//! The lines of steps, of a table and of leaves.
//!
//! `shared` is the number of the lines of the rules, behind which those of a table are numbered. It is
//! None where the file has no table. In contracts `step_in` and its like are what the grammar reads off
//! the words of a line. `ReadsAs` says that the call answers just that, or `Form` where that is nothing.
//! `Reads` says the same of lines, and which are left behind it. Where the grammar reads nothing, the
//! fault is at the first line that can't go on.
ghost use Rattle.proof_grammar.specs.Cuts.{split};
ghost use Rattle.proof_grammar.specs.inner.StepReading.{combine_in, cover_in, fail_in, few_given_in, fix_in, given_in, leaf_step_in};
ghost use Rattle.proof_grammar.specs.inner.StepReading.{shared_in, shared_step_in, step_in, table_step_in};
ghost use Rattle.proof_grammar.specs.inner.Readings.{Reads, read_line, read_many};
ghost use Rattle.proof_grammar.specs.Words.{ReadsAs};

use super::fitted::fit_list;
use super::names::read_names;
use super::parts::Part;
use derivation::Step;
use foundation::Sequence;
use proof_grammar::{Lines, ProofFault, Stop, Words, settle};
use std::alloc::Global;

impl Part for Step {
    ghost reading = { λ shared. read_line (leaf_step_in shared) };

    // The step whose line is at the front.
    fn read(alloc: Global, lines: &mut Lines, shared: Option<u64>) -> Result<Step, ProofFault> {
        let line = lines.next()?;
        settle(lines, read_leaf_step(alloc, line, shared))
    }
}

/// `count` steps of a table, one after another. They are read apart from those of leaves, since each of
/// them gives a line. The first fault ends the call.
pub(super) fn next_table_steps(
    alloc: Global,
    lines: &mut Lines,
    count: u64,
) -> Result<Sequence<Step>, ProofFault>
    ensures { Reads result lines.old lines.new (read_many (read_line table_step_in) count lines.old.left) }
{
    let mut steps = Vec::new(alloc);
    for _ in 0..count {
        let step = match next_table_step(lines) {
            Ok(step) => step,
            Err(fault) => return Err(fault),
        };
        let Ok(()) = steps.push(step) else {
            return Err(ProofFault::OutOfMemory);
        };
    }
    Ok(fit_list(steps))
}

// The step of the next line, which is one of a table; the line is taken.
fn next_table_step(lines: &mut Lines) -> Result<Step, ProofFault>
    ensures { Reads result lines.old lines.new (read_line table_step_in lines.old.left) }
{
    let line = lines.next()?;
    settle(lines, read_table_step(line))
}

// The step of a line of a table: `given` or `combine`. `Form` for any other word.
fn read_table_step(line: &[u8]) -> Result<Step, Stop>
    ensures { ReadsAs result (table_step_in (split 32 line.now)) }
{
    let mut words = Words::new(line);
    let Some(kind) = words.next() else {
        return Err(Stop::Form);
    };
    if kind == b"given".as_slice() {
        read_given(&mut words)
    } else if kind == b"combine".as_slice() {
        read_combine(&mut words)
    } else {
        Err(Stop::Form)
    }
}

// The step of a line behind a leaf or a verdict. The word `shared` may begin it only where there is a
// table, which is where `shared` is Some.
fn read_leaf_step(alloc: Global, line: &[u8], shared: Option<u64>) -> Result<Step, Stop>
    ensures { ReadsAs result (leaf_step_in shared (split 32 line.now)) }
{
    match shared {
        None => read_step(alloc, line),
        Some(count) => read_step_with_table(alloc, line, count),
    }
}

// The step of a line behind a leaf, in a file with a table behind `count` lines of the rules. `Form` for a
// word that begins no step.
fn read_step_with_table(alloc: Global, line: &[u8], count: u64) -> Result<Step, Stop>
    ensures { ReadsAs result (shared_step_in count (split 32 line.now)) }
{
    let mut words = Words::new(line);
    let Some(kind) = words.next() else {
        return Err(Stop::Form);
    };
    if kind == b"given".as_slice() {
        read_given_of_rules(&mut words, count)
    } else if kind == b"shared".as_slice() {
        read_shared(&mut words, count)
    } else if kind == b"combine".as_slice() {
        read_combine(&mut words)
    } else if kind == b"fail".as_slice() {
        read_fail(&mut words)
    } else if kind == b"cover".as_slice() {
        read_cover(alloc, &mut words)
    } else if kind == b"fix".as_slice() {
        read_fix(&mut words)
    } else {
        Err(Stop::Form)
    }
}

// The step behind the word `given`, in a file with a table: the name of one of the `count` lines of the
// rules. `Form` where it is past these, since a line of the table is named by `shared`.
fn read_given_of_rules(words: &mut Words, count: u64) -> Result<Step, Stop>
    ensures { ReadsAs result (few_given_in count words.old) }
{
    let place = words.take_named_u64()?;
    if place >= count {
        return Err(Stop::Form);
    }
    words.end()?;
    Ok(Step::Given(place))
}

// The step behind the word `shared`: a line of the table. It is held as the given line that is numbered
// behind the `count` lines of the rules. `Form` where that number passes 64 bits.
fn read_shared(words: &mut Words, count: u64) -> Result<Step, Stop>
    ensures { ReadsAs result (shared_in count words.old) }
{
    let place = words.take_named_u64()?;
    let Some(name) = count.checked_add(place) else {
        return Err(Stop::Form);
    };
    words.end()?;
    Ok(Step::Given(name))
}

// The step of a line, in a file without a table or behind a verdict. `Form` for a word that begins no step.
fn read_step(alloc: Global, line: &[u8]) -> Result<Step, Stop>
    ensures { ReadsAs result (step_in (split 32 line.now)) }
{
    let mut words = Words::new(line);
    let Some(kind) = words.next() else {
        return Err(Stop::Form);
    };
    if kind == b"given".as_slice() {
        read_given(&mut words)
    } else if kind == b"combine".as_slice() {
        read_combine(&mut words)
    } else if kind == b"fail".as_slice() {
        read_fail(&mut words)
    } else if kind == b"cover".as_slice() {
        read_cover(alloc, &mut words)
    } else if kind == b"fix".as_slice() {
        read_fix(&mut words)
    } else {
        Err(Stop::Form)
    }
}

// The step behind the word `given`: the name of a given line, and nothing more.
fn read_given(words: &mut Words) -> Result<Step, Stop>
    ensures { ReadsAs result (given_in words.old) }
{
    let place = words.take_named_u64()?;
    words.end()?;
    Ok(Step::Given(place))
}

// The step behind the word `combine`, whose words are a, m, b, n and g. It gives m times the line of step
// a and n times that of step b, added and divided by g.
fn read_combine(words: &mut Words) -> Result<Step, Stop>
    ensures { ReadsAs result (combine_in words.old) }
{
    let a = words.take_named_u64()?;
    let m = words.take_whole()?;
    let b = words.take_named_u64()?;
    let n = words.take_whole()?;
    let g = words.take_divisor()?;
    words.end()?;
    Ok(Step::Combine { a, m, b, n, g })
}

// The step behind the word `fail`: the name of a step whose line fails at the record, and becomes a box.
fn read_fail(words: &mut Words) -> Result<Step, Stop>
    ensures { ReadsAs result (fail_in words.old) }
{
    let place = words.take_named_u64()?;
    words.end()?;
    Ok(Step::Fail(place))
}

// The step behind the word `cover`: a field, and the steps whose boxes cover it, to the end of the line.
fn read_cover(alloc: Global, words: &mut Words) -> Result<Step, Stop>
    ensures { ReadsAs result (cover_in words.old) }
{
    let field = words.take_named_u32()?;
    let parts = read_names(alloc, words)?;
    Ok(Step::Cover { field, parts })
}

// The step behind the word `fix`: a kept field, and the step whose box has the record's code there.
fn read_fix(words: &mut Words) -> Result<Step, Stop>
    ensures { ReadsAs result (fix_in words.old) }
{
    let field = words.take_named_u32()?;
    let part = words.take_named_u64()?;
    words.end()?;
    Ok(Step::Fix { field, part })
}
