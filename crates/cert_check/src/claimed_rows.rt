//! Whether each record that claims a donor has a claim.
//!
//! In contracts, `Decides` says that the answer is true exactly where the claim holds. `AreMarked` says
//! that each record is marked exactly where it has a claim, and `AllMarked` that each which claims a donor
//! is marked.
ghost use Rattle.std.specs.Prelude.{◌≡◌, ◌<◌, All, IfOk, length};
ghost use Rattle.std.specs.Bool.{Decides};
ghost use Rattle.cert_check.specs.Claims.{AllClaim};
ghost use Rattle.cert_check.specs.inner.ClaimChecks.{AllMarked, AreMarked};

use crate::places::claims_donor;
use foundation::OutOfMemory;
use proof_text::{ProofFile, RowPlace};
use std::alloc::Global;

/// Whether each record that claims a donor has a claim in the proof. The claims are of records that are
/// there, since they are in form.
pub(crate) fn all_claim(alloc: Global, said: &ProofFile) -> Result<bool, OutOfMemory>
    requires there { All (λ entry. entry.row_no < length said.now.rows) said.now.claims }
    ensures { IfOk result (λ b. Decides b (AllClaim said.now)) }
{
    let claimed = claimed_rows(alloc, said)?;
    Ok(are_marked(said.rows(), &claimed))
}

// For each record whether the proof has a claim of it.
fn claimed_rows(alloc: Global, said: &ProofFile) -> Result<Vec<bool>, OutOfMemory>
    requires there { All (λ entry. entry.row_no < length said.now.rows) said.now.claims }
    ensures { IfOk result (λ marks. AreMarked said.now.claims (length said.now.rows) marks.items) }
{
    let mut marks = vec![in alloc; false; said.rows().len()]?;
    for claim in said.claims() {
        marks[claim.row_no as usize] = true;
    }
    Ok(marks)
}

// Whether each record that claims a donor is marked as one that has a claim. `saids` has, for each record,
// the place where the proof speaks of it, and `marks` whether the proof has a claim of it.
fn are_marked(saids: &[RowPlace], marks: &[bool]) -> bool
    requires { length marks.now ≡ length saids.now }
    ensures { Decides result (AllMarked saids.now marks.now) }
{
    for (row_no, place) in saids.iter().enumerate() {
        if claims_donor(place) && !marks[row_no] {
            return false;
        }
    }
    true
}
