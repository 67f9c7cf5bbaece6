//! The words of a shared book, numbers of 64 bits: one for each claim, in order, and 0 behind the last. In
//! contracts, `word_of` has a claim's word. `MatchBool` says its first part where a test is true, and else
//! its second.
ghost use Rattle.std.specs.Prelude.{◌≡◌, ◌+◌, ◌-◌, ◌*◌, ◌/◌, ◌%◌, ◌<◌, ◌≤◌, ◌^◌, ◌==◌, [], List, MatchBool};
ghost use Rattle.std.specs.Slots.{IsFull, slots_items, slots_len};
ghost use Rattle.donor_book.specs.Claims.{IsDonor};
ghost use Rattle.donor_book.specs.inner.Rule.{code_of_reply, word_of};
ghost use Rattle.donor_book.specs.inner.Tries.{AreWordsOf, IsRead};

use crate::claim::Won;
use crate::rule::Terms;
use atomic_table::Closed;
use std::alloc::Global;

// What `read_claim` is given as the claim that was tried, where words are read without a try.
const NO_CLAIM: Won = Won {
    row_no: 0,
    reply: None,
};

// The lower 32 bits of a claim's word. Nobody is 0, and a donor is one more than its number.
fn reply_code(reply: Option<u32>) -> u64
    requires { IsDonor (2 ^ 32 - 1) reply }
    ensures code { result ≡ code_of_reply reply }
    ensures small { result < 2 ^ 32 }
{
    match reply {
        None => 0,
        Some(donor) => donor as u64 + 1,
    }
}

// The word of a claim. Its upper 32 bits are one more than the row's number, so that no claim's word is 0.
// The lower ones are the reply.
pub fn claim_word(claim: Won) -> u64
    requires row { claim.row_no + 1 < 2 ^ 32 }
    requires donor { IsDonor (2 ^ 32 - 1) claim.reply }
    ensures { result ≡ word_of claim }
{
    (claim.row_no as u64 + 1) * 4294967296 + reply_code(claim.reply)
}

// The claim that stands at a place after a try to enter `claim` there. A try that found 0 entered its own;
// else `found` is the word of another claim, which is read from it.
pub fn read_claim(found: u64, claim: Won) -> Won
    requires { MatchBool (found == 0) (Unit {0}) ((x : Won) × (word_of x ≡ found) × (x.row_no + 1 < 2 ^ 32)
        × IsDonor (2 ^ 32 - 1) x.reply) }
    ensures { IsRead claim found result }
{
    if found == 0 {
        return claim;
    }
    let donor = found % 4294967296;
    Won {
        row_no: (found / 4294967296 - 1) as u32,
        reply: if donor == 0 {
            None
        } else {
            Some((donor - 1) as u32)
        },
    }
}

// The history that the words of a closed table tell, up to the first word 0. It is read into `history`,
// which is empty and has room for a claim of each row, so that no memory is taken. In the contract,
// `AreWordsOf` says that words are those of a history.
pub fn read_history(closed: &Closed<(), Global>, terms: Terms, mut history: Vec<Won>) -> Vec<Won>
    requires full { IsFull closed.now.words × (slots_len closed.now.words ≡ terms.rows + 1) }
    requires small { (terms.rows + 1 < 2 ^ 32) × (terms.donors + 1 < 2 ^ 32) }
    requires row { (h : List Won) × AreWordsOf terms (slots_items closed.now.words) h }
    requires room { (history.items ≡ []) × (terms.rows ≤ history.cap) }
    ensures { (h : List Won) → AreWordsOf terms (slots_items closed.now.words) h → result.items ≡ h }
{
    for i in 0..terms.rows {
        let word = closed.word(i as usize);
        if word == 0 {
            break;
        }
        history.push_reserved(read_claim(word, NO_CLAIM));
    }
    history
}
