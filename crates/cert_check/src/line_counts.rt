//! How many lines the parts of a proof take, and the numbers of some of its lines, by which faults are
//! told.
//!
//! In contracts, `IsCounted` says that 64 bits count the lines of the proof. `AreCounted` says so of
//! leaves and the head before them.
ghost use Rattle.std.specs.Prelude.{◌≡◌, ◌<◌, ◌^◌, IfOk, length};
ghost use Rattle.std.specs.List.{flat_map};
ghost use Rattle.cert_check.specs.Places.{claims_line, records_line, table_line};
ghost use Rattle.cert_check.specs.inner.Counts.{AreCounted, IsCounted};
ghost use Rattle.proof_grammar.specs.ProofLines.{has_table, leaf_lines, row_lines, table_lines, verdict_lines};

use bound_cert::{Leaf, LeafWhy, Outcome, RowProof};
use derivation::Step;
use foundation::{OutOfMemory, Sequence};
use proof_text::{ProofFile, RowPlace};
use std::alloc::Global;

/// How many lines of a proof file the leaves take. No memory.
pub(crate) fn leaves_line_count(leaves: &[Leaf]) -> u64
    requires { AreCounted leaves.now }
    ensures { result ≡ length (flat_map leaf_lines leaves.now) }
{
    let mut count = 0;
    for leaf in leaves {
        count += leaf_line_count(leaf);
    }
    count
}

/// How many lines a leaf takes: one, and one for each of its steps. No memory.
pub(crate) fn leaf_line_count(leaf: &Leaf) -> u64
    requires { length (leaf_lines leaf.now) < 2 ^ 64 }
    ensures { result ≡ length (leaf_lines leaf.now) }
{
    match &leaf.why {
        LeafWhy::Bound | LeafWhy::BadKept => 1,
        LeafWhy::Line(steps) | LeafWhy::Box(steps) => 1 + steps.len() as u64,
    }
}

/// How many lines what is said of a record takes: its head, and those of its leaves where it has a tree. A
/// clean record is one line, though its proof holds a leaf. No memory.
pub(crate) fn row_line_count(said: &RowProof) -> u64
    requires { length (row_lines said.now) < 2 ^ 64 }
    ensures { result ≡ length (row_lines said.now) }
{
    match &said.outcome {
        Outcome::Change { weight: 0, .. } if said.gift.is_none() => 1,
        Outcome::Change { cert, .. } | Outcome::Contradictory { cert } => {
            1 + leaves_line_count(cert.leaves.as_slice())
        }
        Outcome::Budget { .. } | Outcome::Overflow { .. } => 1,
    }
}

// How many lines what is said of the records takes. Each row is read at its place, and dropped once it is
// counted.
fn rows_line_count(alloc: Global, rows: &[RowPlace]) -> Result<u64, OutOfMemory>
    requires { length (flat_map row_lines rows.now) < 2 ^ 64 }
    ensures { IfOk result (λ count. count ≡ length (flat_map row_lines rows.now)) }
{
    let mut count = 0;
    for place in rows {
        let row = place.read(alloc)?;
        count += row_line_count(&row);
    }
    Ok(count)
}

/// How many lines a verdict takes: one, and one for each step of a line that is dropped. No memory.
pub(crate) fn verdict_line_count(verdict: &Option<Sequence<Step>>) -> u64
    requires { length (verdict_lines verdict.now) < 2 ^ 64 }
    ensures { result ≡ length (verdict_lines verdict.now) }
{
    match verdict {
        None => 1,
        Some(steps) => 1 + steps.len() as u64,
    }
}

// How many lines of a proof file the verdicts take.
fn verdicts_line_count(verdicts: &[Option<Sequence<Step>>]) -> u64
    requires { length (flat_map verdict_lines verdicts.now) < 2 ^ 64 }
    ensures { result ≡ length (flat_map verdict_lines verdicts.now) }
{
    let mut count = 0;
    for verdict in verdicts {
        count += verdict_line_count(verdict);
    }
    count
}

// How many lines the table takes: one that counts its steps, and one for each; none in version 1.
fn table_line_count(proof: &ProofFile) -> u64
    requires { length (table_lines (has_table proof.now.version) proof.now.table) < 2 ^ 64 }
    ensures { result ≡ length (table_lines (has_table proof.now.version) proof.now.table) }
{
    if proof.version() == 2 {
        1 + proof.table().len() as u64
    } else {
        0
    }
}

/// The number of the line that counts the steps of the table, from 1, where there is one. Before the
/// verdicts stand three lines: the version, the limits, and the count of the verdicts. No memory.
pub(crate) fn table_line(proof: &ProofFile) -> u64
    requires { IsCounted proof.now }
    ensures { result ≡ table_line proof.now }
{
    4 + verdicts_line_count(proof.verdicts())
}

/// The number of the line that counts the records, from 1. No memory.
pub(crate) fn records_line(proof: &ProofFile) -> u64
    requires { IsCounted proof.now }
    ensures { result ≡ records_line proof.now }
{
    table_line(proof) + table_line_count(proof)
}

/// The number of the line that counts the claims, from 1. For it each row is read once more, so it is
/// asked for only where some claim is at fault.
pub(crate) fn claims_line(alloc: Global, proof: &ProofFile) -> Result<u64, OutOfMemory>
    requires { IsCounted proof.now }
    ensures { IfOk result (λ line. line ≡ claims_line proof.now) }
{
    Ok(records_line(proof) + 1 + rows_line_count(alloc, proof.rows())?)
}
