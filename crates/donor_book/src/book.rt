//! The book of claims for one thread: who gives values to whom, so that no donor gives more often than a
//! limit allows. In contracts, `answer_to` has what a claim is answered after a history, and
//! `history_after` the history with the claim. `wins_of` has the history without its rankings, and
//! `uses_of` how often it gave a donor. `GetsNobody` says that a row has not claimed, and that each donor
//! of its ranking has no use left. A donor has uses left where it was given fewer times than the limit.
ghost use Rattle.std.specs.Prelude.{◌≡◌, ℕ, ◌<◌, ◌≤◌, ◌↔◌, ◌++◌, [], ◌∷◌, None, All, IfOk, option_map};
ghost use Rattle.donor_book.specs.Claims.{GetsNobody, IsDonor, answer_to, claim_of, first_free, uses_of};
ghost use Rattle.donor_book.specs.Entries.{IsLegalHistory, history_after, wins_of, with_history};

use crate::claim::{Claim, Entry, Won};
use crate::indexes::{first_below, no_replies, note_claim};
use foundation::{OutOfMemory, Sequence};
use std::alloc::Global;
use std::marker::Model;

/// The claims of donors so far. Its history is legal: each entry has the first donor of its ranking that
/// fewer than the limit of earlier entries were given, and no row stands twice. Beside it stand how often
/// each donor was given, and what each row was given, so that a claim needs no look at the history.
#[derive(Drop)]
pub struct Book {
    limit: u32,
    uses: Vec<u32>,
    replies: Vec<Option<Option<u32>>>,
    history: Vec<Entry>,
}

impl Model for Book {
    ghost use Rattle.donor_book.specs.Entries.{BookParts};
    ghost use Rattle.donor_book.specs.inner.Indexes.{KeepsBook, book_of};

    ghost Value = { BookParts };

    ghost view = { λ b. book_of b.limit b.uses.items b.replies.items b.history.items };

    ghost invariant = { λ b. KeepsBook b.limit b.uses.items b.replies.items b.history.items b.history.cap };
}

impl Book {
    /// A book of this many donors, each given at most `limit` times, for this many rows. Donors and rows
    /// are named by the numbers below these. Nobody has claimed. All memory is taken here.
    pub fn start(alloc: Global, donors: u32, limit: u32, rows: u32) -> Result<Book, OutOfMemory>
        ensures { IfOk result (λ book. book ≡ record { limit = limit; donors = donors; rows = rows; history = [] }) }
    {
        let history = Vec::with_capacity(alloc, rows as usize)?;
        Ok(Book {
            limit,
            uses: vec![in alloc; 0; donors as usize]?,
            replies: no_replies(alloc, rows)?,
            history,
        })
    }

    /// Claims a donor for a row: the first of its ranking that was given fewer than `limit` times so far.
    /// Where there is none the answer is nobody. Where the row has claimed before, it is the reply that it
    /// had then. A first claim stands at the end of the history. No memory.
    pub fn claim_on(&mut self, row_no: u32, ranking: Vec<u32>) -> Claim
        requires row { row_no < self.old.rows }
        requires donors { All (λ donor. donor < self.old.donors) ranking.items }
        ensures answer { result ≡ answer_to self.old.limit (wins_of self.old.history) row_no ranking.items }
        ensures nobody { result ≡ Claim.Nobody ↔ GetsNobody self.old.limit (wins_of self.old.history) row_no ranking.items }
        ensures entered { self.new ≡ with_history self.old (history_after self.old.history row_no ranking.items result) }
    {
        if let Some(reply) = self.reply_of(row_no) {
            return Claim::Had(reply);
        }
        let reply = self.first_free(&ranking);
        self.enter(Entry {
            row_no,
            ranking: Sequence::from_vec(ranking),
            reply,
        });
        match reply {
            Some(donor) => Claim::Given(donor),
            None => Claim::Nobody,
        }
    }

    /// The claims so far, in order, each with its ranking and its reply. No memory.
    pub fn history(&self) -> &[Entry]
        ensures history { result.now ≡ self.now.history }
        ensures legal { IsLegalHistory self.now.limit self.now.history }
        ensures within { (donor : ℕ) → uses_of donor (wins_of self.now.history) ≤ self.now.limit }
    {
        self.history.as_slice()
    }

    /// Ends the book, and gives its claims away, in order, each with its ranking and its reply. No memory.
    pub fn close(self) -> Vec<Entry>
        ensures history { result.items ≡ self.history }
        ensures legal { IsLegalHistory self.limit self.history }
    {
        self.history
    }

    /// How often a donor is given at most. No memory.
    pub fn limit(&self) -> u32
        ensures { result ≡ self.now.limit }
    {
        self.limit
    }

    // What the row was given: None where it has not claimed yet, and else a donor, or a None inside for
    // nobody.
    fn reply_of(&self, row_no: u32) -> Option<Option<u32>>
        requires { row_no < self.now.rows }
        ensures { result ≡ option_map (λ w. w.reply) (claim_of row_no (wins_of self.now.history)) }
    {
        self.replies[row_no as usize]
    }

    // The first donor of the ranking that has uses left, None where none has.
    fn first_free(&self, ranking: &[u32]) -> Option<u32>
        requires { All (λ donor. donor < self.now.donors) ranking.now }
        ensures free { result ≡ first_free self.now.limit (wins_of self.now.history) ranking.now }
        ensures donor { IsDonor self.now.donors result }
    {
        first_below(&self.uses, self.limit, ranking)
    }

    // Puts the entry of a row that has not claimed at the end of the history, counts its donor, and notes
    // its reply. The reply is the first donor of its ranking with uses left. The room was taken at the
    // start.
    fn enter(&mut self, entry: Entry)
        requires row { entry.row_no < self.old.rows }
        requires donor { IsDonor self.old.donors entry.reply }
        requires first { claim_of entry.row_no (wins_of self.old.history) ≡ None }
        requires free { entry.reply ≡ first_free self.old.limit (wins_of self.old.history) entry.ranking }
        ensures { self.new ≡ with_history self.old (self.old.history ++ entry ∷ []) }
    {
        let won = Won {
            row_no: entry.row_no,
            reply: entry.reply,
        };
        note_claim(&mut self.uses, &mut self.replies, won);
        self.history.push_reserved(entry);
    }
}
