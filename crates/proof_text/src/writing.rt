//! A proof, written as the bytes of a file. The files below append its parts. Where memory is refused,
//! part of a text may stand, which is then dropped.
//!
//! `shared` is the number of the lines of the rules, behind which those of a table are numbered. It is
//! None where the file has no table.
//!
//! In contracts, `IsSized` and its like say that each number of the text fits its type, and each list is
//! counted by 64 bits. `IsPlain` says that a proof's text says it whole, and `IsOnlyOf` that no other
//! plain proof has this text.
ghost use Rattle.std.specs.Prelude.{◌≡◌, ◌++◌, IfOk, OnOk};
ghost use Rattle.proof_grammar.specs.FirstFaults.{IsOnlyOf};
ghost use Rattle.proof_grammar.specs.Limits.{AreFit, IsEntry, IsLong, IsPlain, IsRowProof, IsShort};
ghost use Rattle.proof_grammar.specs.ProofLines.{proof_text};
ghost use Rattle.proof_grammar.specs.Sizes.{IsSized, IsSizedRow, IsSizedTable, IsSizedVerdict};
ghost use Rattle.proof_text.specs.RowTexts.{IsOnlyRow, row_text};
ghost use Rattle.proof_text.specs.inner.Texts.{claims_text, limits_text, parts_text, rows_text, table_text, verdict_text, verdicts_text};
ghost use Rattle.proof_text.specs.inner.Texts.{version_text};

mod claims;
mod leaves;
mod rows;
mod steps;
mod words;

use crate::versions::{has_table, shared_from};
use bound_cert::RowProof;
use claims::write_claim;
use derivation::Step;
use donor_book::Entry;
use foundation::{OutOfMemory, Sequence};
use proof_grammar::Proof;
use rows::write_row;
use std::alloc::Global;
pub use steps::write_step;
use steps::write_steps;
use words::{write_count, write_number};

/// The text of a proof. Of plain proofs, which their texts say whole, no other has the text of a plain
/// one.
pub fn write_proof(alloc: Global, proof: &Proof) -> Result<Vec<u8>, OutOfMemory>
    ensures text { IfOk result (λ text. text.items ≡ proof_text proof.now) }
    ensures only { IfOk result (λ text. IsPlain proof.now → IsOnlyOf text.items proof.now) }
    ensures sized { IfOk result (λ text. IsSized proof.now) }
{
    let mut text = Vec::new(alloc);
    write_parts(&mut text, proof)?;
    Ok(text)
}

/// The text of a row, which is its head and its leaves, as a proof file without a table has it. The file
/// of a panel has it too. Of plain rows, which hold no more than their text says, no other has the text of
/// a plain one.
pub fn row_text(alloc: Global, row: &RowProof) -> Result<Vec<u8>, OutOfMemory>
    ensures text { IfOk result (λ text. text.items ≡ row_text row.now) }
    ensures only { IfOk result (λ text. IsRowProof row.now → IsOnlyRow text.items row.now) }
    ensures sized { IfOk result (λ text. IsSizedRow row.now) }
{
    let mut text = Vec::new(alloc);
    write_row(&mut text, None, row)?;
    Ok(text)
}

// Appends all lines of a proof, in their order.
fn write_parts(text: &mut Vec<u8>, proof: &Proof) -> Result<(), OutOfMemory>
    ensures text { OnOk result (text.new.items ≡ text.old.items ++ parts_text proof.now) }
    ensures sized { OnOk result (IsSized proof.now) }
{
    let there = has_table(proof.version);
    let shared = shared_from(there, proof.verdicts.as_slice().len());
    write_version(text, proof.version)?;
    write_limits(text, proof)?;
    write_verdicts(text, proof.verdicts.as_slice())?;
    write_table(text, there, proof.table.as_slice())?;
    write_rows(text, shared, proof.rows.as_slice())?;
    write_claims(text, proof.claims.as_slice())?;
    text.extend_from_slice(b"end\n")?;
    Ok(())
}

// Appends the first line, as `fh-proof 1`, with the version.
fn write_version(text: &mut Vec<u8>, version: u32) -> Result<(), OutOfMemory>
    ensures { OnOk result (text.new.items ≡ text.old.items ++ version_text version) }
{
    text.extend_from_slice(b"fh-proof")?;
    write_number(text, version as u64)?;
    text.push(b'\n')?;
    Ok(())
}

// Appends the count of the steps of the table and their lines, where the file has one (`there`).
fn write_table(text: &mut Vec<u8>, there: bool, table: &[Step]) -> Result<(), OutOfMemory>
    ensures text { OnOk result (text.new.items ≡ text.old.items ++ table_text there table.now) }
    ensures sized { OnOk result (IsSizedTable there table.now) }
{
    if !there {
        return Ok(());
    }
    text.extend_from_slice(b"table")?;
    write_steps(text, None, table)
}

// Appends the second line, as `limit 1 near 5 budget 1000000`, with the limits of the run.
fn write_limits(text: &mut Vec<u8>, proof: &Proof) -> Result<(), OutOfMemory>
    ensures text { OnOk result (text.new.items ≡ text.old.items ++ limits_text proof.now) }
    ensures sized { OnOk result (IsShort proof.now.limit × IsShort proof.now.near × IsLong proof.now.budget) }
{
    text.extend_from_slice(b"limit")?;
    write_number(text, proof.limit as u64)?;
    text.extend_from_slice(b" near")?;
    write_number(text, proof.near as u64)?;
    text.extend_from_slice(b" budget")?;
    write_number(text, proof.budget)?;
    text.push(b'\n')?;
    Ok(())
}

// Appends the line that counts the verdicts, as `lines 2`, and their lines.
fn write_verdicts(
    text: &mut Vec<u8>,
    verdicts: &[Option<Sequence<Step>>],
) -> Result<(), OutOfMemory>
    ensures text { OnOk result (text.new.items ≡ text.old.items ++ verdicts_text verdicts.now) }
    ensures sized { OnOk result (AreFit IsSizedVerdict verdicts.now) }
{
    text.extend_from_slice(b"lines")?;
    write_count(text, verdicts.len())?;
    for verdict in verdicts {
        write_verdict(text, verdict)?;
    }
    Ok(())
}

// Appends the lines of a verdict: `keep`, or `drop` with its steps. They are of the rules alone, so they
// name no line of the table.
fn write_verdict(text: &mut Vec<u8>, verdict: &Option<Sequence<Step>>) -> Result<(), OutOfMemory>
    ensures text { OnOk result (text.new.items ≡ text.old.items ++ verdict_text verdict.now) }
    ensures sized { OnOk result (IsSizedVerdict verdict.now) }
{
    match verdict {
        None => {
            text.extend_from_slice(b"keep\n")?;
            Ok(())
        }
        Some(steps) => {
            text.extend_from_slice(b"drop")?;
            write_steps(text, None, steps.as_slice())
        }
    }
}

// Appends the line that counts the rows, as `records 2`, and their lines.
fn write_rows(text: &mut Vec<u8>, shared: Option<u64>, rows: &[RowProof]) -> Result<(), OutOfMemory>
    ensures text { OnOk result (text.new.items ≡ text.old.items ++ rows_text shared rows.now) }
    ensures sized { OnOk result (AreFit IsSizedRow rows.now) }
{
    text.extend_from_slice(b"records")?;
    write_count(text, rows.len())?;
    for row in rows {
        write_row(text, shared, row)?;
    }
    Ok(())
}

// Appends the line that counts the claims, as `claims 2`, and their lines.
fn write_claims(text: &mut Vec<u8>, claims: &[Entry]) -> Result<(), OutOfMemory>
    ensures text { OnOk result (text.new.items ≡ text.old.items ++ claims_text claims.now) }
    ensures sized { OnOk result (AreFit IsEntry claims.now) }
{
    text.extend_from_slice(b"claims")?;
    write_count(text, claims.len())?;
    for claim in claims {
        write_claim(text, claim)?;
    }
    Ok(())
}
