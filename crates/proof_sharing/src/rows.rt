//! What is found of records, changed so that its trees name their lines in the table.
//!
//! `given` is the number of the lines of the rules, behind which the lines of the table are numbered.
ghost use Rattle.std.specs.Prelude.{◌≡◌, IfOk, OnOk};
ghost use Rattle.bound_cert.specs.SharedTrees.{leaves_in, shared_leaves, shared_outcome, shared_rows, table_with_leaves, table_with_rows};

use crate::leaves::share_leaves;
use crate::line_table::LineTable;
use bound_cert::{Cert, Outcome, RowProof};
use foundation::{OutOfMemory, Sequence};
use std::alloc::Global;

/// What is found of the records, with the names of the lines of their trees in the table. Lines that the
/// table lacks are put at its end. Each given tree is dropped once its record is done, so that only one
/// record's tree is held twice.
pub(crate) fn share_rows(
    alloc: Global,
    table: &mut LineTable,
    given: u64,
    rows: Vec<RowProof>,
) -> Result<Vec<RowProof>, OutOfMemory>
    ensures rows { IfOk result (λ shared. shared.items ≡ shared_rows given table.old rows.items) }
    ensures table { OnOk result (table.new ≡ table_with_rows table.old rows.items) }
{
    let mut shared = Vec::with_capacity(alloc, rows.len())?;
    for row in rows {
        let outcome = share_outcome(alloc, table, given, row.outcome)?;
        shared.push(RowProof {
            outcome,
            gift: row.gift,
        })?;
    }
    Ok(shared)
}

// What is found of a record, with the names of the lines of its tree. Where it has no tree, it stays as it
// is.
fn share_outcome(
    alloc: Global,
    table: &mut LineTable,
    given: u64,
    outcome: Outcome,
) -> Result<Outcome, OutOfMemory>
    ensures outcome { IfOk result (λ shared. shared ≡ shared_outcome given table.old outcome) }
    ensures table { OnOk result (table.new ≡ table_with_leaves table.old (leaves_in outcome)) }
{
    match outcome {
        Outcome::Change { path, weight, cert } => Ok(Outcome::Change {
            path,
            weight,
            cert: share_cert(alloc, table, given, cert)?,
        }),
        Outcome::Budget { path, work } => Ok(Outcome::Budget { path, work }),
        Outcome::Overflow { path, event } => Ok(Outcome::Overflow { path, event }),
        Outcome::Contradictory { cert } => Ok(Outcome::Contradictory {
            cert: share_cert(alloc, table, given, cert)?,
        }),
    }
}

// The tree of a record, with the names of its lines in the table.
fn share_cert(
    alloc: Global,
    table: &mut LineTable,
    given: u64,
    cert: Cert,
) -> Result<Cert, OutOfMemory>
    ensures cert { IfOk result (λ shared. shared.leaves ≡ shared_leaves given table.old cert.leaves) }
    ensures table { OnOk result (table.new ≡ table_with_leaves table.old cert.leaves) }
{
    let leaves = share_leaves(alloc, table, given, cert.leaves.into_vec())?;
    Ok(Cert {
        leaves: Sequence::from_vec(leaves),
    })
}
