//! The lines of leaves: a head, which says the path and why it is closed, and steps where it has some.
//!
//! `shared` is the number of the lines of the rules, behind which those of a table are numbered. It is
//! None where the file has no table. In contracts `leaf_in` and its like are what the grammar reads off
//! the words of a line, and `leaf_reading` off lines. `ReadsAs` says that the call answers just that, or
//! `Form` where that is nothing. `Reads` says the same of lines, and which are left behind it. Where the
//! grammar reads nothing, the fault is at the first line that can't go on.
ghost use Rattle.proof_grammar.specs.Cuts.{split};
ghost use Rattle.proof_grammar.specs.inner.LeafReading.{bad_in, behind_leaf, bound_in, box_in, leaf_in, leaf_reading, line_in};
ghost use Rattle.proof_grammar.specs.inner.Readings.{Reads, read_line};
ghost use Rattle.proof_grammar.specs.Words.{ReadsAs};

use super::parts::{Part, next_parts};
use bound_cert::{Leaf, LeafWhy, Path};
use proof_grammar::{LeafHead, Lines, ProofFault, Stop, Words, settle};
use std::alloc::Global;

impl Part for Leaf {
    ghost reading = { leaf_reading };

    // The leaf whose lines are at the front: its head, and its steps where it has some.
    fn read(alloc: Global, lines: &mut Lines, shared: Option<u64>) -> Result<Leaf, ProofFault> {
        let head = next_head(alloc, lines)?;
        read_behind_head(alloc, lines, shared, head)
    }
}

// The leaf whose `head` was read. As many steps as the head says are at the front; they are read here, and
// their lines are taken. A head without a count has none.
fn read_behind_head(
    alloc: Global,
    lines: &mut Lines,
    shared: Option<u64>,
    head: LeafHead,
) -> Result<Leaf, ProofFault>
    ensures { Reads result lines.old lines.new (behind_leaf shared head lines.old.left) }
{
    match head {
        LeafHead::BoundAt(path) => Ok(Leaf {
            path,
            why: LeafWhy::Bound,
        }),
        LeafHead::BadAt(path) => Ok(Leaf {
            path,
            why: LeafWhy::BadKept,
        }),
        LeafHead::LineAt(path, count) => match next_parts(alloc, lines, shared, count) {
            Ok(steps) => Ok(Leaf {
                path,
                why: LeafWhy::Line(steps),
            }),
            Err(fault) => Err(fault),
        },
        LeafHead::BoxAt(path, count) => match next_parts(alloc, lines, shared, count) {
            Ok(steps) => Ok(Leaf {
                path,
                why: LeafWhy::Box(steps),
            }),
            Err(fault) => Err(fault),
        },
    }
}

// The head of a leaf, which the next line is; the line is taken.
fn next_head(alloc: Global, lines: &mut Lines) -> Result<LeafHead, ProofFault>
    ensures { Reads result lines.old lines.new (read_line leaf_in lines.old.left) }
{
    let line = lines.next()?;
    settle(lines, read_head(alloc, line))
}

// The head of a leaf, by the first word of the line. `Form` for a word that begins no head, or where the
// rest is not of its form.
fn read_head(alloc: Global, line: &[u8]) -> Result<LeafHead, Stop>
    ensures { ReadsAs result (leaf_in (split 32 line.now)) }
{
    let mut words = Words::new(line);
    let Some(kind) = words.next() else {
        return Err(Stop::Form);
    };
    if kind == b"bound".as_slice() {
        read_bound_head(alloc, &mut words)
    } else if kind == b"bad".as_slice() {
        read_bad_head(alloc, &mut words)
    } else if kind == b"line".as_slice() {
        read_line_head(alloc, &mut words)
    } else if kind == b"box".as_slice() {
        read_box_head(alloc, &mut words)
    } else {
        Err(Stop::Form)
    }
}

// The head behind the word `bound`: a path, which weighs enough by itself. `Form` where the words are no
// path alone.
fn read_bound_head(alloc: Global, words: &mut Words) -> Result<LeafHead, Stop>
    ensures { ReadsAs result (bound_in words.old) }
{
    let path = words.take_path(alloc)?;
    words.end()?;
    Ok(LeafHead::BoundAt(path))
}

// The head behind the word `bad`: a path, which keeps a field without a value. `Form` where the words are
// no path alone.
fn read_bad_head(alloc: Global, words: &mut Words) -> Result<LeafHead, Stop>
    ensures { ReadsAs result (bad_in words.old) }
{
    let path = words.take_path(alloc)?;
    words.end()?;
    Ok(LeafHead::BadAt(path))
}

// The head behind the word `line`: a path that a line refutes, and how many steps behind the head prove
// the line. `Form` where the words are not these two.
fn read_line_head(alloc: Global, words: &mut Words) -> Result<LeafHead, Stop>
    ensures { ReadsAs result (line_in words.old) }
{
    let path = words.take_path(alloc)?;
    let count = words.take_u64()?;
    words.end()?;
    Ok(LeafHead::LineAt(path, count))
}

// The head behind the word `box`: a path that a box refutes, and how many steps behind the head prove the
// box. `Form` where the words are not these two.
fn read_box_head(alloc: Global, words: &mut Words) -> Result<LeafHead, Stop>
    ensures { ReadsAs result (box_in words.old) }
{
    let path = words.take_path(alloc)?;
    let count = words.take_u64()?;
    words.end()?;
    Ok(LeafHead::BoxAt(path, count))
}
