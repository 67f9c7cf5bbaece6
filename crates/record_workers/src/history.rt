//! The claims of all records, each with the ranking of its record, as one history. In contracts, `entry_by`
//! is a claim with its record's ranking, and `unanswered` the claims of the last class.
ghost use Rattle.std.specs.Prelude.{◌≡◌, ◌++◌, ◌≤◌, IfOk, OnOk, length, map, slice_get, take};
ghost use Rattle.class_books.specs.Histories.{joined};
ghost use Rattle.record_workers.specs.inner.Gatherings.{entry_by, ranking_at, unanswered, unanswered_by};

use donor_book::{Entry, Won};
use foundation::{OutOfMemory, Sequence};
use record_pieces::Piece;
use std::alloc::Global;

/// The claims of all classes, one class after the other, each with the ranking that its record's piece has.
/// `histories` has the claims of each class; those of the classes before `last` are taken. Behind them stand
/// those of the records of class `last`, which has no donors, so nobody is given to them. The pieces are in
/// row order.
pub(crate) fn history_of(
    alloc: Global,
    pieces: &[Piece],
    histories: &[Vec<Won>],
    last: u32,
) -> Result<Vec<Entry>, OutOfMemory>
    requires { last ≤ length histories.now }
    ensures { IfOk result (λ history. history.items
        ≡ map (entry_by pieces.now) (joined (take last (map (λ h. h.items) histories.now))) ++ unanswered last pieces.now) }
{
    let mut history = Vec::new(alloc);
    for wins in &histories[..last as usize] {
        push_claims(alloc, &mut history, pieces, wins.as_slice())?;
    }
    for piece in pieces {
        push_unanswered(alloc, &mut history, piece, last)?;
    }
    Ok(history)
}

// Appends the claims of one class, in the order in which they were answered, each with the ranking that its
// record's piece has.
fn push_claims(
    alloc: Global,
    history: &mut Vec<Entry>,
    pieces: &[Piece],
    wins: &[Won],
) -> Result<(), OutOfMemory>
    ensures { OnOk result (history.new.items ≡ history.old.items ++ map (entry_by pieces.now) wins.now) }
{
    history.reserve(wins.len())?;
    for won in wins {
        history.push(Entry {
            row_no: won.row_no,
            ranking: Sequence::from_vec(ranking_of(alloc, pieces, won.row_no)?),
            reply: won.reply,
        })?;
    }
    Ok(())
}

// Appends the claim of a record of the last class, if it needs a donor. Nobody is given to it.
fn push_unanswered(
    alloc: Global,
    history: &mut Vec<Entry>,
    piece: &Piece,
    last: u32,
) -> Result<(), OutOfMemory>
    ensures { OnOk result (history.new.items ≡ history.old.items ++ unanswered_by last piece.now) }
{
    if piece.class != last {
        return Ok(());
    }
    if let Some(ranking) = &piece.ranking {
        history.push(Entry {
            row_no: piece.row_no,
            ranking: Sequence::from_vec(Vec::from_slice(alloc, ranking.as_slice())?),
            reply: None,
        })?;
    }
    Ok(())
}

// The ranking that the piece of this row has, or no donors where it has none. The piece of a row stands at
// its number.
fn ranking_of(alloc: Global, pieces: &[Piece], row_no: u32) -> Result<Vec<u32>, OutOfMemory>
    ensures { IfOk result (λ ranking. ranking.items ≡ ranking_at (slice_get pieces.now row_no)) }
{
    let Some(piece) = pieces.get(row_no as usize) else {
        return Ok(Vec::new(alloc));
    };
    match &piece.ranking {
        Some(ranking) => Ok(Vec::from_slice(alloc, ranking.as_slice())?),
        None => Ok(Vec::new(alloc)),
    }
}
