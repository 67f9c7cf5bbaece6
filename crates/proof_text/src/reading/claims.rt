//! The lines of claims: the row that claims, the donor that it was given, if any, and the donors that it
//! ranks.
//!
//! In contracts `claim_in` and its like are what the grammar reads off the words of a line. `ReadsAs` says
//! that the call answers just that, or `Form` where that is nothing.
ghost use Rattle.proof_grammar.specs.Cuts.{split};
ghost use Rattle.proof_grammar.specs.inner.FileReading.{claim_behind, claim_in};
ghost use Rattle.proof_grammar.specs.inner.Readings.{read_line};
ghost use Rattle.proof_grammar.specs.Words.{ReadsAs};

use super::names::read_names;
use super::parts::Part;
use donor_book::Entry;
use proof_grammar::{Lines, ProofFault, Stop, Words, settle};
use std::alloc::Global;

impl Part for Entry {
    ghost reading = { λ shared. read_line claim_in };

    // The claim whose line is at the front. It names no line of a table, so `shared` plays no part.
    fn read(alloc: Global, lines: &mut Lines, _shared: Option<u64>) -> Result<Entry, ProofFault> {
        let line = lines.next()?;
        settle(lines, read_claim(alloc, line))
    }
}

// The claim of a line that begins with the word `claim`. `Form` where it begins with another, or the rest
// is no claim.
fn read_claim(alloc: Global, line: &[u8]) -> Result<Entry, Stop>
    ensures { ReadsAs result (claim_in (split 32 line.now)) }
{
    let mut words = Words::new(line);
    words.take_word(b"claim")?;
    read_behind_claim(alloc, &mut words)
}

// The claim of the words behind `claim`: its row, the donor that was given, or 0, and its ranking to the
// end of the line. `Form` where they are none.
fn read_behind_claim(alloc: Global, words: &mut Words) -> Result<Entry, Stop>
    ensures { ReadsAs result (claim_behind words.old) }
{
    let row_no = words.take_named_u32()?;
    let reply = words.take_named_u32_or_none()?;
    let ranking = read_names(alloc, words)?;
    Ok(Entry {
        row_no,
        ranking,
        reply,
    })
}
