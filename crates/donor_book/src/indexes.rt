//! Two tables that stand for a history, so that a claim is answered without a look at it. `uses` has how
//! often each donor was given. `replies` has what each row was given: None where it has not claimed, and a
//! None inside for nobody.
ghost use Rattle.std.specs.Prelude.{◌≡◌, ◌<◌, ◌+◌, ◌^◌, None, Some, length, replicate, All, IfOk, nat_lt, slice_index, slice_set};
ghost use Rattle.std.specs.List.{find};
ghost use Rattle.donor_book.specs.Claims.{IsDonor};
ghost use Rattle.donor_book.specs.inner.Indexes.{with_use};

use crate::claim::Won;
use foundation::OutOfMemory;
use std::alloc::Global;

// The first donor of the ranking that was given less often than the limit, None where each was given as
// often. `uses` has how often each donor was given, by its number from 0.
pub fn first_below(uses: &[u32], limit: u32, ranking: &[u32]) -> Option<u32>
    requires { All (λ donor. donor < length uses.now) ranking.now }
    ensures { result ≡ find (λ donor. nat_lt (slice_index uses.now donor) limit) ranking.now }
{
    ranking
        .iter()
        .copied()
        .find(|donor| uses[*donor as usize] < limit)
}

// Notes a claim in both tables: it counts the donor, if one was given, and keeps what the row was given.
// The row has not claimed before. Each count can grow by one within 32 bits.
pub fn note_claim(uses: &mut Vec<u32>, replies: &mut Vec<Option<Option<u32>>>, won: Won)
    requires row { won.row_no < length replies.old.items }
    requires donor { IsDonor (length uses.old.items) won.reply }
    requires room { All (λ n. n + 1 < 2 ^ 32) uses.old.items }
    ensures uses { uses.new.items ≡ with_use won.reply uses.old.items }
    ensures replies { replies.new.items ≡ slice_set replies.old.items won.row_no (Some won.reply) }
{
    if let Some(donor) = won.reply {
        uses[donor as usize] += 1;
    }
    replies[won.row_no as usize] = Some(won.reply);
}

// The table of replies, with a place for each of `rows` rows, in which no row has claimed.
pub fn no_replies(alloc: Global, rows: u32) -> Result<Vec<Option<Option<u32>>>, OutOfMemory>
    ensures { IfOk result (λ replies. replies.items ≡ replicate rows None) }
{
    let mut replies = Vec::with_capacity(alloc, rows as usize)?;
    for _ in 0..rows {
        replies.push_reserved(None);
    }
    Ok(replies)
}
