//! The lines of a record in a proof file: its head, which says what was found of it, and the leaves of its
//! tree.
//!
//! `shared` is the number of the lines of the rules, behind which those of a table are numbered. It is
//! None where the file has no table. In contracts `row_in` and its like are what the grammar reads off the
//! words of a line, and `row_reading` off lines. `ReadsAs` says that the call answers just that, or `Form`
//! where that is nothing. `Reads` says the same of lines, and which are left behind it. Where the grammar
//! reads nothing, the fault is at the first line that can't go on.
ghost use Rattle.std.specs.Prelude.{◌≡◌, IfErr, IfOk};
ghost use Rattle.proof_grammar.specs.Cuts.{split};
ghost use Rattle.proof_grammar.specs.inner.Readings.{Reads, read_line};
ghost use Rattle.proof_grammar.specs.inner.RowReading.{WeighsLong, behind_row, budget_in, change_in, clean_proof, contradictory_in};
ghost use Rattle.proof_grammar.specs.inner.RowReading.{gift_fault_in, gift_in, row_in, row_reading, step_event_in, test_event_in};
ghost use Rattle.proof_grammar.specs.Words.{ReadsAs, Takes};

use super::parts::next_parts;
use bound_cert::{Cert, Event, GiftFault, Leaf, LeafWhy, Outcome, Path, RowProof};
use foundation::Sequence;
use proof_grammar::{Lines, ProofFault, RowHead, Stop, Words, settle};
use std::alloc::Global;

/// The row whose lines are at the front: what was found of a record, with its tree. Its lines are taken.
pub(super) fn next_row(
    alloc: Global,
    lines: &mut Lines,
    shared: Option<u64>,
) -> Result<RowProof, ProofFault>
    ensures { Reads result lines.old lines.new (row_reading shared lines.old.left) }
{
    let head = next_head(alloc, lines)?;
    read_behind_head(alloc, lines, shared, head)
}

// The row whose `head` was read. As many leaves as the head says are at the front, and are read here. A
// change's head holds one less than the weight, and one more than that fits 64 bits (`WeighsLong`).
fn read_behind_head(
    alloc: Global,
    lines: &mut Lines,
    shared: Option<u64>,
    head: RowHead,
) -> Result<RowProof, ProofFault>
    requires { WeighsLong head }
    ensures { Reads result lines.old lines.new (behind_row shared head lines.old.left) }
{
    match head {
        RowHead::CleanAt => clean_row(alloc),
        RowHead::ChangeAt(less, path, count) => match next_parts(alloc, lines, shared, count) {
            Ok(leaves) => Ok(RowProof {
                outcome: Outcome::Change {
                    path,
                    weight: less + 1,
                    cert: Cert { leaves },
                },
                gift: None,
            }),
            Err(fault) => Err(fault),
        },
        RowHead::GiftAt(weight, path, gift, count) => {
            match next_parts(alloc, lines, shared, count) {
                Ok(leaves) => Ok(RowProof {
                    outcome: Outcome::Change {
                        path,
                        weight,
                        cert: Cert { leaves },
                    },
                    gift: Some(gift),
                }),
                Err(fault) => Err(fault),
            }
        }
        RowHead::BudgetAt(path, work) => Ok(RowProof {
            outcome: Outcome::Budget { path, work },
            gift: None,
        }),
        RowHead::EventAt(path, event) => Ok(RowProof {
            outcome: Outcome::Overflow { path, event },
            gift: None,
        }),
        RowHead::ContradictoryAt(count) => match next_parts(alloc, lines, shared, count) {
            Ok(leaves) => Ok(RowProof {
                outcome: Outcome::Contradictory {
                    cert: Cert { leaves },
                },
                gift: None,
            }),
            Err(fault) => Err(fault),
        },
    }
}

// The head of a row, which the next line is; the line is taken.
fn next_head(alloc: Global, lines: &mut Lines) -> Result<RowHead, ProofFault>
    ensures read { Reads result lines.old lines.new (read_line row_in lines.old.left) }
    ensures fits { IfOk result WeighsLong }
{
    let line = lines.next()?;
    settle(lines, read_head(alloc, line))
}

// The head of a row, by the first word of the line. `Form` for a word that begins no head, or where the
// rest is not of its form.
fn read_head(alloc: Global, line: &[u8]) -> Result<RowHead, Stop>
    ensures read { ReadsAs result (row_in (split 32 line.now)) }
    ensures fits { IfOk result WeighsLong }
{
    let mut words = Words::new(line);
    let Some(kind) = words.next() else {
        return Err(Stop::Form);
    };
    if kind == b"clean".as_slice() {
        words.end()?;
        Ok(RowHead::CleanAt)
    } else if kind == b"change".as_slice() {
        read_change_head(alloc, &mut words)
    } else if kind == b"gift".as_slice() {
        read_gift_head(alloc, &mut words)
    } else if kind == b"budget".as_slice() {
        read_budget_head(alloc, &mut words)
    } else if kind == b"step".as_slice() {
        read_step_head(alloc, &mut words)
    } else if kind == b"test".as_slice() {
        read_test_head(alloc, &mut words)
    } else if kind == b"contradictory".as_slice() {
        read_contradictory_head(&mut words)
    } else {
        Err(Stop::Form)
    }
}

// The head behind the word `change`, of a change whose values were all given: the weight, from 1, the
// path, and how many leaves follow. The weight is held as one less. `Form` where the words are not these.
fn read_change_head(alloc: Global, words: &mut Words) -> Result<RowHead, Stop>
    ensures read { ReadsAs result (change_in words.old) }
    ensures fits { IfOk result WeighsLong }
{
    let less = words.take_one_less()?;
    let path = words.take_path(alloc)?;
    let count = words.take_u64()?;
    words.end()?;
    Ok(RowHead::ChangeAt(less, path, count))
}

// The head behind the word `gift`, of a change without values, since a number left the range while they
// were given. The words are the weight, the path, which number that was, and how many leaves follow.
fn read_gift_head(alloc: Global, words: &mut Words) -> Result<RowHead, Stop>
    ensures read { ReadsAs result (gift_in words.old) }
    ensures fits { IfOk result WeighsLong }
{
    let weight = words.take_u64()?;
    let path = words.take_path(alloc)?;
    let fault = take_gift_fault(words)?;
    let count = words.take_u64()?;
    words.end()?;
    Ok(RowHead::GiftAt(weight, path, fault, count))
}

// Which number left the range while values were given. Where the words name a field and a line, it is one
// of the bound of the field by the line. Where they are 0 and a rule's name, it is one of the rule's test.
fn take_gift_fault(words: &mut Words) -> Result<GiftFault, Stop>
    ensures { Takes result words.new (gift_fault_in words.old) }
{
    match words.take_named_u32_or_none()? {
        None => {
            let rule = words.take_named_u32()?;
            Ok(GiftFault::Test { rule })
        }
        Some(field) => {
            let line = words.take_named_u64()?;
            Ok(GiftFault::Bound { field, line })
        }
    }
}

// The head behind the word `budget`, of a search that ended at its budget. The words are the path before
// which it ended, and its work.
fn read_budget_head(alloc: Global, words: &mut Words) -> Result<RowHead, Stop>
    ensures read { ReadsAs result (budget_in words.old) }
    ensures fits { IfOk result WeighsLong }
{
    let path = words.take_path(alloc)?;
    let work = words.take_u64()?;
    words.end()?;
    Ok(RowHead::BudgetAt(path, work))
}

// The head behind the word `step`: a number left the range when two lines were combined. The words are the
// path, the two lines, and the place of the number in the combination.
fn read_step_head(alloc: Global, words: &mut Words) -> Result<RowHead, Stop>
    ensures read { ReadsAs result (step_event_in words.old) }
    ensures fits { IfOk result WeighsLong }
{
    let path = words.take_path(alloc)?;
    let first = words.take_named_u64()?;
    let second = words.take_named_u64()?;
    let place = words.take_place()?;
    words.end()?;
    Ok(RowHead::EventAt(
        path,
        Event::Step {
            first,
            second,
            place,
        },
    ))
}

// The head behind the word `test`: a number left the range when a line was tested at the record. The words
// are the path, the line, and the field.
fn read_test_head(alloc: Global, words: &mut Words) -> Result<RowHead, Stop>
    ensures read { ReadsAs result (test_event_in words.old) }
    ensures fits { IfOk result WeighsLong }
{
    let path = words.take_path(alloc)?;
    let line = words.take_named_u64()?;
    let field = words.take_named_u32()?;
    words.end()?;
    Ok(RowHead::EventAt(path, Event::Test { line, field }))
}

// The head behind the word `contradictory`, of a record that no change corrects: how many leaves follow.
fn read_contradictory_head(words: &mut Words) -> Result<RowHead, Stop>
    ensures read { ReadsAs result (contradictory_in words.old) }
    ensures fits { IfOk result WeighsLong }
{
    let count = words.take_u64()?;
    words.end()?;
    Ok(RowHead::ContradictoryAt(count))
}

// A clean row, held as a change of weight 0, with the empty path and a tree of one leaf. Refused for want
// of memory alone.
fn clean_row(alloc: Global) -> Result<RowProof, ProofFault>
    ensures clean { IfOk result (λ row. row ≡ clean_proof) }
    ensures refused { IfErr result (λ fault. fault ≡ ProofFault.OutOfMemory) }
{
    let leaf = Leaf {
        path: Path::new(Vec::new(alloc)),
        why: LeafWhy::Bound,
    };
    let Ok(mut leaves) = Vec::with_capacity(alloc, 1) else {
        return Err(ProofFault::OutOfMemory);
    };
    let Ok(()) = leaves.push(leaf) else {
        return Err(ProofFault::OutOfMemory);
    };
    Ok(RowProof {
        outcome: Outcome::Change {
            path: Path::new(Vec::new(alloc)),
            weight: 0,
            cert: Cert {
                leaves: Sequence::from_vec(leaves),
            },
        },
        gift: None,
    })
}
