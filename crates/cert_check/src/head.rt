//! Whether the first lines of a proof fit the rules and the records: its limits and its counts.
//!
//! In contracts, `IsCounted` says that 64 bits count the lines of the proof.
ghost use Rattle.std.specs.Prelude.{◌≡◌, length};
ghost use Rattle.cert_check.specs.Releases.{head_fault_of, limits_fit};
ghost use Rattle.cert_check.specs.inner.Counts.{IsCounted};

use crate::line_counts::records_line;
use edit_line::Line;
use proof_text::ProofFile;

/// The first line of the proof that does not fit, or None. It may be line 2, with the limits, or line 3,
/// with the count of the lines of the rules (`lines`). Last comes the line that counts the records
/// (`records`).
pub(crate) fn head_fault(proof: &ProofFile, lines: &[Line], records: u32) -> Option<u64>
    requires { IsCounted proof.now }
    ensures { result ≡ head_fault_of (length lines.now) records proof.now }
{
    if !limits_fit(proof) {
        return Some(2);
    }
    if proof.verdicts().len() != lines.len() {
        return Some(3);
    }
    if proof.rows().len() != records as usize {
        return Some(records_line(proof));
    }
    None
}

// Whether the limits that the proof tells are such as a run may have. A donor is given 1 to 1000 times, 1
// to 64 donors are ranked, and the budget is 1 to 1,000,000,000.
fn limits_fit(proof: &ProofFile) -> bool
    ensures { result ≡ limits_fit proof.now }
{
    (1 <= proof.limit() && proof.limit() <= 1000)
        && ((1 <= proof.near() && proof.near() <= 64)
            && (1 <= proof.budget() && proof.budget() <= 1_000_000_000))
}
