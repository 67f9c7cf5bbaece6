//! The book of claims that threads share. A claim is one word of a shared table, written by compare and
//! exchange, so nobody waits and no two claims have one place.
//!
//! In contracts, `IsFresh` says that a pass has seen and claimed nothing. `IsAnswered` says that a claim
//! is answered as after a history that begins with what its pass had seen. `ArePlaced` says that a pass
//! has seen its own claims. `IsWhole` and `AreCollected` say that a history is made of the claims of the
//! passes, and is legal.
ghost use Rattle.std.specs.Prelude.{◌≡◌, ◌+◌, ◌<◌, ◌≤◌, ◌^◌, [], None, length, option_map, IfOk, IfNone, List, MatchBool};
ghost use Rattle.std.specs.List.{All};
ghost use Rattle.std.specs.List.Sorted.{IsStrictlyIncreasing};
ghost use Rattle.donor_book.specs.declared.claim.Entry.{Entry};
ghost use Rattle.donor_book.specs.Claims.{IsDonor, IsWithin, claim_of, first_free};
ghost use Rattle.donor_book.specs.Entries.{entry_of};
ghost use Rattle.donor_book.specs.Passes.{AreCollected, ArePlaced, Enters, IsAnswered, IsFresh, IsSound, IsWhole};
ghost use Rattle.donor_book.specs.inner.Rule.{known};
ghost use Rattle.donor_book.specs.inner.Tries.{HasTriedTo, IsAt, Sees};

use crate::claim::{Claim, Won};
use crate::indexes::{first_below, no_replies, note_claim};
use crate::rule::{HistoryRule, Known, NewPass, TakeIn, Terms, Tried, Try};
use crate::words::{claim_word, read_claim, read_history};
use atomic_table::{Seat, Table};
use foundation::OutOfMemory;
use std::alloc::Global;
use std::marker::{Brand, Model};

/// A book of claims that threads share, without a lock. Each claims from a [`Pass`] of its own. `history`
/// is the room for the history, which is read into it at the end.
#[derive(Drop)]
pub struct SharedBook {
    table: Table<(), Known, Terms, HistoryRule, Global>,
    terms: Terms,
    history: Vec<Won>,
}

impl Model for SharedBook {
    ghost use Rattle.donor_book.specs.Passes.{BookName};
    ghost use Rattle.donor_book.specs.inner.Tries.{SharesBook};

    ghost Value = { BookName };

    ghost view = { λ b. record { table = b.table.shared.table_id; terms = b.terms } };

    ghost invariant = { λ b. SharesBook b.table.shared.table_id b.table.shared.key b.terms b.history.items b.history.cap };
}

/// A place at a shared book, from which one worker claims at a time. It may be sent to another thread.
/// `len` is how many claims it has seen, and `uses` and `replies` are the tables of these.
#[derive(Drop)]
pub struct Pass {
    seat: Seat<(), Known>,
    terms: Terms,
    len: u32,
    uses: Vec<u32>,
    replies: Vec<Option<Option<u32>>>,
}

impl Model for Pass {
    ghost use Rattle.donor_book.specs.Passes.{PassState};
    ghost use Rattle.donor_book.specs.inner.Tries.{KeepsPass, pass_of};

    ghost Value = { PassState };

    ghost view = { λ p. pass_of p.seat.table_id p.terms p.seat.me.0 };

    ghost invariant = { λ p. KeepsPass p.seat.me p.terms p.len p.uses.items p.replies.items };
}

impl Pass {
    // A pass that has seen and claimed nothing, at this seat of the table. The seat stands for one pass of
    // a book with these terms. All memory of the pass is taken here.
    fn fresh(alloc: Global, seat: Seat<(), Known>, terms: Terms) -> Result<Pass, OutOfMemory>
        requires seat { seat.me ≡ (known terms 1 [] [], []) }
        requires small { (terms.rows + 1 < 2 ^ 32) × (terms.donors + 1 < 2 ^ 32) }
        ensures { IfOk result (IsFresh record { table = seat.table_id; terms = terms }) }
    {
        Ok(Pass {
            seat,
            terms,
            len: 0,
            uses: vec![in alloc; 0; terms.donors as usize]?,
            replies: no_replies(alloc, terms.rows)?,
        })
    }

    // The pass's seat at the table, which is handed back when the book is closed.
    fn into_seat(self) -> Seat<(), Known>
        ensures table { result.table_id ≡ self.book.table }
        ensures view { result.me ≡ (known self.book.terms 1 self.seen self.mine, []) }
    {
        self.seat
    }

    // What the row was given by the claims that the pass has seen. It is None where none of them is the
    // row's, and else a donor, or a None inside for nobody.
    fn reply_of(&self, row_no: u32) -> Option<Option<u32>>
        requires { row_no < self.now.book.terms.rows }
        ensures reply { result ≡ option_map (λ w. w.reply) (claim_of row_no self.now.seen) }
        ensures room { IfNone result (length self.now.seen < self.now.book.terms.rows) }
        ensures placed { ArePlaced self.now.seen self.now.mine }
    {
        self.replies[row_no as usize]
    }

    // The first donor of the ranking that has uses left after the claims that were seen, None where none
    // has.
    fn first_free(&self, ranking: &[u32]) -> Option<u32>
        requires { All (λ donor. donor < self.now.book.terms.donors) ranking.now }
        ensures free { result ≡ first_free self.now.book.terms.limit self.now.seen ranking.now }
        ensures donor { IsDonor self.now.book.terms.donors result }
    {
        first_below(&self.uses, self.terms.limit, ranking)
    }
}

impl SharedBook {
    /// A book of this many donors, each given at most `limit` times, for this many rows, and its `passes`
    /// passes, one for each worker. Donors and rows are named by the numbers below these. Nobody has
    /// claimed. All memory is taken here.
    pub fn share(
        alloc: Global,
        donors: u32,
        limit: u32,
        rows: u32,
        passes: u32,
    ) -> Result<(SharedBook, Vec<Pass>), OutOfMemory>
        requires passes { 0 < passes }
        requires donors { donors + 1 < 2 ^ 32 }
        requires rows { rows + 1 < 2 ^ 32 }
        ensures terms { IfOk result (λ r. r.0.terms ≡ record { limit = limit; donors = donors; rows = rows; passes = passes }) }
        ensures passes { IfOk result (λ r. length r.1.items ≡ passes) }
        ensures fresh { IfOk result (λ r. All (IsFresh r.0) r.1.items) }
    {
        let terms = Terms {
            limit,
            donors,
            rows,
            passes,
        };
        let words = vec![in alloc; 0u64; rows as usize + 1]?;
        let history = Vec::with_capacity(alloc, rows as usize)?;
        let mut all = Vec::with_capacity(alloc, passes as usize)?;
        let (table, mut first) = Table::of_words(alloc, words.as_slice(), &terms)?;
        for _ in 1..passes {
            let seat = table.shared.split_seat::<NewPass>(&mut first);
            all.push_reserved(Pass::fresh(alloc, seat, terms)?);
        }
        all.push_reserved(Pass::fresh(alloc, first, terms)?);
        let book = SharedBook {
            table,
            terms,
            history,
        };
        Ok((book, all))
    }

    /// Claims a donor for a row: the first of its ranking that was given fewer than `limit` times by the
    /// claims before. Where there is none the answer is nobody. Where the row has claimed before, it is the
    /// reply that it had then. The claims before begin with those that the pass had seen, and the pass has
    /// then seen them all. A first claim stands right behind them. No memory, no waiting: a try fails only
    /// where another claim came before it, so there are at most as many tries as rows.
    pub fn claim(&self, pass: &mut Pass, row_no: u32, ranking: &[u32]) -> Claim
        requires book { pass.old.book ≡ self.now }
        requires row { row_no < self.now.terms.rows }
        requires donors { All (λ donor. donor < self.now.terms.donors) ranking.now }
        ensures book { pass.new.book ≡ pass.old.book }
        ensures placed { ArePlaced pass.new.seen pass.new.mine }
        ensures answered { IsAnswered pass.old row_no ranking.now result pass.new }
    {
        loop {
            if let Some(reply) = pass.reply_of(row_no) {
                return Claim::Had(reply);
            }
            let reply = pass.first_free(ranking);
            if self.try_claim(pass, ranking, Won { row_no, reply }) {
                return match reply {
                    Some(donor) => Claim::Given(donor),
                    None => Claim::Nobody,
                };
            }
        }
    }

    /// The history, in order, once all passes are handed back. It is legal, and made of the claims of the
    /// passes, each at its place. No memory, no waiting.
    pub fn close(self, passes: Vec<Pass>) -> Vec<Won>
        requires book { All (λ pass. pass.book ≡ self) passes.items }
        requires all { length passes.items ≡ self.terms.passes }
        ensures whole { IsWhole self.terms.limit passes.items result.items }
        ensures sound { IsSound self.terms result.items }
        ensures legal { (entries : List Entry) × AreCollected self.terms.limit passes.items result.items entries }
    {
        let SharedBook {
            table,
            terms,
            history,
        } = self;
        let mut rest = passes.into_iter();
        let Some(first) = rest.next() else {
            unreachable!()
        };
        let mut taker = first.into_seat();
        for pass in rest {
            table
                .shared
                .join_seat::<TakeIn>(&mut taker, pass.into_seat());
        }
        let closed = table.close_with(taker);
        let history = read_history(&closed, terms, history);
        closed.free();
        history
    }

    // Tries to enter the claim right behind all that the pass has seen. Its reply is the first donor of
    // `ranking` with uses left there. True where it was entered; false where another claim came before it,
    // which is then seen. Either way the pass has seen one claim more.
    fn try_claim(&self, pass: &mut Pass, ranking: &[u32], claim: Won) -> bool
        requires book { pass.old.book ≡ self.now }
        requires claim { IsWithin self.now.terms.donors self.now.terms.rows claim }
        requires first { claim_of claim.row_no pass.old.seen ≡ None }
        requires room { length pass.old.seen < self.now.terms.rows }
        requires free { claim.reply ≡ first_free self.now.terms.limit pass.old.seen ranking.now }
        ensures book { pass.new.book ≡ pass.old.book }
        ensures placed { ArePlaced pass.new.seen pass.new.mine }
        ensures tried { MatchBool result (Enters pass.old (entry_of claim.row_no ranking.now claim.reply) pass.new)
            (Sees pass.old pass.new) }
    {
        let found = self.enter::<Brand>(&mut pass.seat, pass.len, ranking, claim);
        note_claim(&mut pass.uses, &mut pass.replies, read_claim(found, claim));
        pass.len += 1;
        found == 0
    }

    // One try to write the claim's word at the place `at` of the table, right behind what was seen. The
    // answer is 0 where the claim was entered, and else the word of the claim that stands there. `A` names
    // the entry with its ranking, for contracts alone: the word leaves the ranking out.
    fn enter<A: Tried>(
        &self,
        seat: &mut Seat<(), Known>,
        at: u32,
        ranking: &[u32],
        claim: Won,
    ) -> u64
        requires entry { A.entry ≡ entry_of claim.row_no ranking.now claim.reply }
        requires seat { IsAt self.now.table self.now.terms seat.old.table_id seat.old.me }
        requires at { (at ≡ length seat.old.me.0.seen) × (at < self.now.terms.rows + 1) }
        requires claim { IsWithin self.now.terms.donors self.now.terms.rows claim }
        requires first { claim_of claim.row_no seat.old.me.0.seen ≡ None }
        requires free { claim.reply ≡ first_free self.now.terms.limit seat.old.me.0.seen ranking.now }
        ensures seat { seat.new.table_id ≡ seat.old.table_id }
        ensures tried { HasTriedTo (entry_of claim.row_no ranking.now claim.reply) seat.old.me result seat.new.me }
    {
        self.table
            .shared
            .compare_exchange::<Try<A>>(seat, at as usize, 0, claim_word(claim))
    }
}
