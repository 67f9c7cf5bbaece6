//! What becomes of all records. In contracts, `EndsBy` says that an end is what becomes of a piece's record
//! with its donor in the history. `ArePiecesIn` says that the pieces are those of all records, and
//! `AnswersNeeds` that the history is legal, with each claim that they need, once.
ghost use Rattle.std.specs.Prelude.{◌≡◌, ◌<◌, ℕ, IfOk, None, length, map, nat_eq, replicate};
ghost use Rattle.std.specs.List.{All, AllZip, IsDistinct};
ghost use Rattle.donor_book.specs.Entries.{wins_of};
ghost use Rattle.record_pieces.specs.Needs.{AnswersNeeds};
ghost use Rattle.record_pieces.specs.Rests.{ArePiecesIn, IsPieceIn, IsRest};
ghost use Rattle.record_ends.specs.Givings.{EndsBy, EndsIn};
ghost use Rattle.record_ends.specs.inner.Donors.{HasCleanDonor, ListsDonors, donor_at};

use crate::row_ends::end_of;
use donor_book::Entry;
use edit_model::Value;
use edit_report::RowEnd;
use foundation::OutOfMemory;
use rayon::prelude::*;
use record_pieces::{Piece, Rest};
use std::alloc::Global;
use std::thread::Threads;

/// What becomes of each record, in order, by what was found of it and the donor that it was given in this
/// history of claims. `rest` has the survey, the edits and the sheet. The pieces are one for each record, in
/// row order. The records are given values side by side, in the threads of `rt`.
pub fn give_all<R: Threads + Sync, F: Fn(u32, &Value, &Value) -> u64 + Send + Sync>(
    rt: &R,
    alloc: Global,
    rest: &Rest<F>,
    pieces: Vec<Piece>,
    history: &[Entry],
) -> Result<Vec<RowEnd>, OutOfMemory>
    requires rest { IsRest F.Fn rest.now }
    requires pieces { ArePiecesIn rest.now pieces.items }
    requires history { (limit : ℕ) × AnswersNeeds limit pieces.items history.now }
    ensures { IfOk result (λ ends. AllZip (EndsBy rest.now history.now) pieces.items ends.items) }
{
    let donors = donors_of(alloc, pieces.len(), history)?;
    let given = &donors;
    pieces
        .into_par_iter()
        .with_min_len(1)
        .map(
            |piece: Piece| -> Result<RowEnd, OutOfMemory>
                requires { IsRest F.Fn rest.now × IsPieceIn rest.now piece × (piece.row_no < length given.now.items)
                    × HasCleanDonor rest.now given.now.items piece.row_no }
                ensures { IfOk result (EndsIn rest.entry.now piece (donor_at given.entry.now.items piece.row_no)) }
            {
                let donor = given[piece.row_no as usize];
                end_of(alloc, rest, piece, donor)
            },
        )
        .collect::<Result<Vec<RowEnd>, OutOfMemory>>(rt, alloc)?
}

// The donor that each of `rows` records was given in a history, at the record's number; None where it
// claimed none, or was given nobody. No record claims twice in it.
fn donors_of(alloc: Global, rows: usize, history: &[Entry]) -> Result<Vec<Option<u32>>, OutOfMemory>
    requires within { All (λ entry. entry.row_no < rows) history.now }
    requires once { IsDistinct nat_eq (map (λ w. w.row_no) (wins_of history.now)) }
    ensures as_many { IfOk result (λ donors. length donors.items ≡ rows) }
    ensures each { IfOk result (λ donors. ListsDonors history.now rows donors.items) }
{
    let mut donors = no_donors(alloc, rows)?;
    for entry in history {
        donors[entry.row_no as usize] = entry.reply;
    }
    Ok(donors)
}

// A list with None for each of `rows` records.
fn no_donors(alloc: Global, rows: usize) -> Result<Vec<Option<u32>>, OutOfMemory>
    ensures { IfOk result (λ donors. donors.items ≡ replicate rows None) }
{
    Ok(vec![in alloc; None; rows]?)
}
