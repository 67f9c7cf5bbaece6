//! Steps and trees from files: their lines are those of a proof file of version 1, without what stands
//! around them there. They are put into such a frame, and read as a proof.

use bound_cert::{Cert, Outcome};
use derivation::Step;
use foundation::Sequence;
use line_calls::CallFault;
use proof_text::{Proof, ProofFault, read_proof};
use std::alloc::Global;

/// The lines of a proof file before its verdicts. The numbers in them say nothing here.
const LIMITS: &str = "fh-proof 1\nlimit 1 near 1 budget 1\n";

/// How many lines of the frame stand before the steps, and before the tree.
const BEFORE_STEPS: u64 = 4;

const BEFORE_TREE: u64 = 4;

/// The steps that the bytes spell, one a line. They are read as those of a dropped line in a proof.
/// `CallFault::Steps` tells the line, from 1, that has no reading; line 0 stands for what is put before
/// the bytes.
pub fn steps_of(alloc: Global, bytes: &[u8]) -> Result<Sequence<Step>, CallFault> {
    let count = bytes.iter().filter(|byte| **byte == b'\n').count();
    let head = format!(in alloc; "{LIMITS}lines 1\ndrop {count}\n")?;
    let proof = read_framed(
        alloc,
        head,
        bytes,
        "records 0\nclaims 0\nend\n",
        BEFORE_STEPS,
    )?;
    match proof.verdicts.into_vec().pop() {
        Some(Some(steps)) => Ok(steps),
        _ => Err(CallFault::Steps { line: 0 }),
    }
}

/// The tree that the bytes spell, with what it is to show: a weight, or, without one, that there is no
/// correction. It is read as the one record of a proof. `CallFault::Steps` tells the line, from 1, that
/// has no reading, and line 1 where the record has no tree.
pub fn tree_of(alloc: Global, bytes: &[u8]) -> Result<(Cert, Option<u64>), CallFault> {
    let head = format!(in alloc; "{LIMITS}lines 0\nrecords 1\n")?;
    let proof = read_framed(alloc, head, bytes, "claims 0\nend\n", BEFORE_TREE)?;
    let Some(row) = proof.rows.into_vec().pop() else {
        return Err(CallFault::Steps { line: 0 });
    };
    match row.outcome {
        Outcome::Change { weight, cert, .. } => Ok((cert, Some(weight))),
        Outcome::Contradictory { cert } => Ok((cert, None)),
        _ => Err(CallFault::Steps { line: 1 }),
    }
}

// The proof whose lines are `head`, the bytes, and `tail`. A fault is told by its line in the bytes,
// from 1. One before them is told as line 0. `before` is how many lines the head has.
fn read_framed(
    alloc: Global,
    head: String,
    bytes: &[u8],
    tail: &str,
    before: u64,
) -> Result<Proof, CallFault> {
    let mut text = head.into_bytes();
    text.extend_from_slice(bytes)?;
    text.extend_from_slice(tail.as_bytes())?;
    match read_proof(alloc, &text) {
        Ok(proof) => Ok(proof),
        Err(ProofFault::At { line }) => Err(CallFault::Steps {
            line: line.saturating_sub(before),
        }),
        Err(ProofFault::OutOfMemory) => Err(CallFault::OutOfMemory),
    }
}
