//! Lists of words that name something from 1 on: the donors of a ranking, and the steps that a cover names.
//!
//! In contracts, `all_in` is what all words name, and `ReadsAs` says that the call answers just that, or
//! `Form` where that is nothing.
ghost use Rattle.std.specs.Prelude.{◌≡◌};
ghost use Rattle.proof_grammar.specs.Words.{ReadsAs, named_long, named_short};
ghost use Rattle.proof_grammar.specs.inner.WordLists.{all_in};

use super::fitted::fit_list;
use foundation::Sequence;
use proof_grammar::{Stop, Words, read_named_u32, read_named_u64};
use std::alloc::Global;

/// A type of numbers of what a text names: from 1 in the text, and from 0 in memory.
pub(super) trait Named: Sized + Drop {
    ghost use Rattle.std.specs.Prelude.{List, Option, ℕ};

    /// The number that a word names.
    ghost named: { List ℕ → Option Self };

    /// The number, from 0, that the word names, or None where it names none.
    fn number(word: &[u8]) -> Option<Self>
        ensures { result ≡ named word.now };
}

impl Named for u64 {
    ghost named = { named_long };

    // The number, from 0, of a step, which is named from 1 to 2^64. None for any other word.
    fn number(word: &[u8]) -> Option<u64> {
        read_named_u64(word)
    }
}

impl Named for u32 {
    ghost named = { named_short };

    // The number, from 0, of a row, which is named from 1 to 2^32. None for any other word.
    fn number(word: &[u8]) -> Option<u32> {
        read_named_u32(word)
    }
}

/// The numbers, from 0, of what the words that are left name, to the end of the line. `Form` where a word
/// names none. Where no words are left, there are no numbers.
pub(super) fn read_names<N: Named>(alloc: Global, words: &mut Words) -> Result<Sequence<N>, Stop>
    ensures { ReadsAs result (all_in N.named words.old) }
{
    let mut numbers = Vec::new(alloc);
    while let Some(word) = words.next() {
        let Some(number) = N::number(word) else {
            return Err(Stop::Form);
        };
        let Ok(()) = numbers.push(number) else {
            return Err(Stop::OutOfMemory);
        };
    }
    Ok(fit_list(numbers))
}
