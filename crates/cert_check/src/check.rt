//! The audit: one call, which reads the proof and then checks it against rules, records and released
//! bytes.
//!
//! The claims of a valid release are these. Each record for which a change of some weight was found, and
//! no other, claims a donor once. It ranks clean records, each once and no more than may be ranked. It is
//! given the first of them that was given less often than the limit before, or nobody. Which donors it
//! ranks, and that the nearest come first, is not checked.
ghost use Rattle.std.specs.Prelude.{ℕ, List, IfOk, OnOk};
ghost use Rattle.record_text.specs.Sheets.{IsSheet};
ghost use Rattle.cert_check.specs.Releases.{IfRejected, IsFirstFailure, IsReleasedCount, IsValidRelease, audit_of};
ghost use Rattle.cert_check.specs.Shown.{Shows};

use crate::fault::{CheckFault, Why};
use crate::said_check::{Audit, check_said, rejection};
use edit_model::Survey;
use proof_text::{ProofFault, open_proof};
use record_text::Sheet;
use std::alloc::Global;

/// Ok, with the number of released records, only where the files are a valid release of the records, which
/// are a sheet of the rules. Then each line of the rules follows from those that the proof keeps. Each
/// released row is a correction of least weight, whoever wrote the files. `Rejected` tells the first
/// condition that fails, and its line in the proof. The proof's trees are read one at a time.
pub fn check_all(
    alloc: Global,
    rules: &Survey,
    records: &Sheet,
    released: &[u8],
    proof: &[u8],
) -> Result<u32, CheckFault>
    requires { (bytes : List ℕ) × IsSheet rules.now.fields bytes records.now }
    ensures valid { OnOk result (IsValidRelease (audit_of rules.now records.now released.now proof.now)) }
    ensures count { IfOk result (IsReleasedCount (audit_of rules.now records.now released.now proof.now)) }
    ensures shown { OnOk result (Shows (audit_of rules.now records.now released.now proof.now)) }
    ensures rejected { IfRejected result (IsFirstFailure (audit_of rules.now records.now released.now proof.now)) }
    ensures invalid { IfRejected result (λ line why. ¬ IsValidRelease (audit_of rules.now records.now released.now proof.now)) }
{
    let _rules = rules.rules(); // read for what it says: they are in form
    let audit = Audit {
        rules,
        records,
        released,
    };
    match open_proof(alloc, proof) {
        Ok(said) => check_said(alloc, &audit, &said, proof.len()),
        Err(ProofFault::At { line }) => Err(rejection(line, Why::Grammar)),
        Err(ProofFault::OutOfMemory) => Err(CheckFault::OutOfMemory),
    }
}
