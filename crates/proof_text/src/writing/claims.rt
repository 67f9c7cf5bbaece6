//! The lines of claims, appended.
//!
//! In contracts, `IsEntry` says that each number of a claim fits its type.
ghost use Rattle.std.specs.Prelude.{◌≡◌, ◌∷◌, ◌++◌, OnOk};
ghost use Rattle.std.specs.List.{AllByRecursion, flat_map};
ghost use Rattle.bound_cert.specs.Paths.{named};
ghost use Rattle.proof_grammar.specs.Limits.{IsEntry, IsShort};
ghost use Rattle.proof_grammar.specs.ProofLines.{claim_line, line_text};

use super::words::{write_named, write_named_or_0};
use donor_book::Entry;
use foundation::OutOfMemory;

/// Appends the line of a claim: the row, the donor that it was given or 0 for nobody, and its ranking.
pub(super) fn write_claim(text: &mut Vec<u8>, claim: &Entry) -> Result<(), OutOfMemory>
    ensures text { OnOk result (text.new.items ≡ text.old.items ++ line_text (claim_line claim.now)) }
    ensures sized { OnOk result (IsEntry claim.now) }
{
    text.extend_from_slice(b"claim")?;
    write_named(text, claim.row_no as u64)?;
    write_named_or_0(text, claim.reply)?;
    write_ranking(text, claim.ranking.as_slice())?;
    text.push(b'\n')?;
    Ok(())
}

// Appends the names of the donors of a ranking, in order.
fn write_ranking(text: &mut Vec<u8>, ranking: &[u32]) -> Result<(), OutOfMemory>
    ensures text { OnOk result (text.new.items ≡ text.old.items ++ flat_map (λ n. 32 ∷ named n) ranking.now) }
    ensures sized { OnOk result (AllByRecursion IsShort ranking.now) }
{
    for donor in ranking {
        write_named(text, *donor as u64)?;
    }
    Ok(())
}
