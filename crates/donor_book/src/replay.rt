//! Whether claims that somebody else wrote, as in a proof file, are a legal history: they are claimed once
//! more. In contracts, `IsReplay` says that the tables of uses and replies are those of a history.
//! `IsEntryWithin` says that an entry names rows and donors that there are.
ghost use Rattle.std.specs.Prelude.{◌≡◌, List, All, length, IfOk, IfNone, IfSome};
ghost use Rattle.std.specs.Bool.{Decides};
ghost use Rattle.donor_book.specs.declared.claim.Won.{Won as Claimed};
ghost use Rattle.donor_book.specs.Entries.{IsEntryWithin, IsFirstIllegal, IsLegalHistory};
ghost use Rattle.donor_book.specs.inner.Indexes.{IsNext, IsReplay};

use crate::claim::{Entry, Won};
use crate::indexes::{first_below, no_replies, note_claim};
use foundation::OutOfMemory;
use std::alloc::Global;

/// The place, from 0, of the first entry with which the claims are no legal history any more; None where
/// all are legal. Such an entry has not the reply that the entries before it leave to its ranking, or its
/// row has claimed before. Donors and rows are named by the numbers below `donors` and `rows`. All memory
/// is taken before the first entry is read.
pub fn first_illegal(
    alloc: Global,
    claims: &[Entry],
    limit: u32,
    donors: u32,
    rows: u32,
) -> Result<Option<usize>, OutOfMemory>
    requires within { All (IsEntryWithin donors rows) claims.now }
    ensures legal { IfOk result (λ first. IfNone first (IsLegalHistory limit claims.now)) }
    ensures illegal { IfOk result (λ first. IfSome first (λ place. IsFirstIllegal limit claims.now place)) }
{
    let mut uses = vec![in alloc; 0; donors as usize]?;
    let mut replies = no_replies(alloc, rows)?;
    for (place, entry) in claims.iter().enumerate() {
        if !is_next(&uses, &replies, limit, entry) {
            return Ok(Some(place));
        }
        let won = Won {
            row_no: entry.row_no,
            reply: entry.reply,
        };
        note_claim(&mut uses, &mut replies, won);
    }
    Ok(None)
}

// Whether the entry may stand behind a history. Its row has not claimed there. Its reply is the first
// donor of its ranking with uses left, or nobody where none has. `uses` and `replies` are the tables of
// that history, as `indexes` has them.
fn is_next(uses: &[u32], replies: &[Option<Option<u32>>], limit: u32, entry: &Entry) -> bool
    requires { IsEntryWithin (length uses.now) (length replies.now) entry.now }
    ensures { (history : List Claimed) → IsReplay history uses.now replies.now → Decides result (IsNext limit history entry.now) }
{
    replies[entry.row_no as usize].is_none()
        && first_below(uses, limit, entry.ranking.as_slice()) == entry.reply
}
