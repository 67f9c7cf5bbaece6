//! The proof of version 2 of one of version 1.
ghost use Rattle.std.specs.Prelude.{◌≡◌, ◌+◌, ◌<◌, ◌^◌, IfOk, length};
ghost use Rattle.proof_sharing.specs.SharedProofs.{shared_proof};

use crate::line_table::LineTable;
use crate::rows::share_rows;
use foundation::{OutOfMemory, Sequence};
use proof_grammar::Proof;
use std::alloc::Global;

/// The proof of version 2. Each line that the steps of its leaves derive is written once, in the table,
/// and the leaves name it there. A release that is valid with `proof`, of version 1, is valid with the
/// answer. The time is in proportion to the steps. At no time is more than one record's tree held twice.
pub fn share_lines(alloc: Global, proof: Proof) -> Result<Proof, OutOfMemory>
    ensures shared { IfOk result (λ shared. shared ≡ shared_proof proof) }
    ensures counted { IfOk result (λ shared. length shared.verdicts + length shared.table < 2 ^ 64) }
{
    let given = proof.verdicts.as_slice().len() as u64;
    let mut table = LineTable::new(alloc);
    let rows = share_rows(alloc, &mut table, given, proof.rows.into_vec())?;
    let table = table.steps(alloc)?;
    Ok(Proof {
        version: 2,
        limit: proof.limit,
        near: proof.near,
        budget: proof.budget,
        verdicts: proof.verdicts,
        table,
        rows: Sequence::from_vec(rows),
        claims: proof.claims,
    })
}
