//! What is found of one record: the outcome of its search, and the donors that it asks for. In contracts,
//! `IsRest` says that the parts of `rest` fit one another: its edits are its rules', its decks its records'.
//! `IsPieceIn` says that a piece is what this rest tells of its record. `serves` has the edits whose systems
//! a source gives, and `keeps` the sets of fields whose systems it keeps. `KeepsFor` says that the system of
//! a found change is kept.
ghost use Rattle.std.specs.Prelude.{◌≡◌, ◌<◌, ◌==◌, ℕ, IfOk, IfSome, length, not, true};
ghost use Rattle.std.specs.List.{All};
ghost use Rattle.edit_line.specs.EditSets.{EditsParts};
ghost use Rattle.edit_paths.specs.Cases.{IsCase};
ghost use Rattle.edit_paths.specs.Outcomes.{outcome_of};
ghost use Rattle.edit_paths.specs.States.{IsOpen};
ghost use Rattle.bound_cert.specs.Paths.{kept_set};
ghost use Rattle.donor_measure.specs.Measures.{HasMeasurable};
ghost use Rattle.donor_search.specs.CleanRows.{row_at};
ghost use Rattle.donor_search.specs.Rankings.{ranking_of};
ghost use Rattle.record_pieces.specs.Classes.{IsDonorIn, class_count, class_kept};
ghost use Rattle.record_pieces.specs.Needs.{donors_for};
ghost use Rattle.record_pieces.specs.Rests.{IsPieceIn, IsRest, KeepsFor, case_in, class_field_in, edits_in, rows_in};
ghost use Rattle.record_pieces.specs.inner.Searches.{IsWishIn, RanksIn};

use crate::piece::Piece;
use crate::rest::Rest;
use bound_cert::{Outcome, Path};
use donor_search::ranking;
use edit_model::{FieldSet, Row, Value};
use edit_paths::case_known;
use foundation::{OutOfMemory, Sequence, Steps};
use linear_elim::Systems;
use localise_tree::localise;
use std::alloc::Global;
use std::sync::ledger::Ledger;

/// What is found of the record of this number, from 0: the outcome of its search by the edits, its class, and
/// the donors that it ranks. The source gives the derived systems. `steps` counts on over search and ranking.
pub fn piece_of<F: Fn(u32, &Value, &Value) -> u64, S: Systems, L: Ledger>(
    alloc: Global,
    source: &mut S,
    rest: &Rest<F>,
    row_no: u32,
    steps: &mut Steps<L>,
) -> Result<Piece, OutOfMemory>
    requires rest { IsRest F.Fn rest.now }
    requires served { S.serves source.old (edits_in rest.now) }
    requires row { row_no < length (rows_in rest.now) }
    ensures row { IfOk result (λ piece. piece.row_no ≡ row_no) }
    ensures piece { IfOk result (IsPieceIn rest.now) }
    ensures kept { IfOk result (KeepsFor rest.now (S.keeps source.new)) }
    ensures serves { (e : EditsParts) → S.serves source.old e → S.serves source.new e }
    ensures keeps { (f : ℕ) → S.keeps source.old f ≡ true → S.keeps source.new f ≡ true }
{
    let row = rest.sheet.row(row_no);
    case_known(&rest.survey, &rest.edits, row);
    let outcome = localise(
        alloc,
        source,
        &rest.survey,
        &rest.edits,
        row,
        rest.budget,
        steps,
    )?;
    let Wish { class, ranking } = wish_for(alloc, rest, row_no, &outcome, steps)?;
    Ok(Piece {
        row_no,
        outcome,
        class,
        ranking,
    })
}

/// What a record asks of the donors once its search has ended: its class, and the donors of this class that
/// it ranks, the nearest first. The ranking is None where it needs no donor. Both become part of its piece.
#[derive(Drop)]
struct Wish {
    class: u32,
    ranking: Option<Sequence<u32>>,
}

// What the record of this number asks of the donors, where its search had this outcome. Where no change was
// found it asks for nothing, and is in the last class.
fn wish_for<F: Fn(u32, &Value, &Value) -> u64, L: Ledger>(
    alloc: Global,
    rest: &Rest<F>,
    row_no: u32,
    outcome: &Outcome,
    steps: &mut Steps<L>,
) -> Result<Wish, OutOfMemory>
    requires rest { IsRest F.Fn rest.now }
    requires row { row_no < length (rows_in rest.now) }
    requires case { IsCase (case_in rest.now (row_at (rows_in rest.now) row_no)) }
    requires found { outcome.now ≡ outcome_of (case_in rest.now (row_at (rows_in rest.now) row_no)) rest.now.budget }
    ensures { IfOk result (IsWishIn rest.now row_no outcome.now) }
{
    match outcome {
        Outcome::Change { path, weight, .. } => {
            change_wish(alloc, rest, row_no, path, *weight, steps)
        }
        _ => Ok(Wish {
            class: rest.decks.last(),
            ranking: None,
        }),
    }
}

// What a record asks of the donors for which a change of this path and weight was found. It ranks the
// donors of its class (`IsDonorIn`) that are nearest at the fields that it keeps (`RanksIn`). Where the
// change weighs nothing, the record is clean, and asks for nothing.
fn change_wish<F: Fn(u32, &Value, &Value) -> u64, L: Ledger>(
    alloc: Global,
    rest: &Rest<F>,
    row_no: u32,
    path: &Path,
    weight: u64,
    steps: &mut Steps<L>,
) -> Result<Wish, OutOfMemory>
    requires rest { IsRest F.Fn rest.now }
    requires row { row_no < length (rows_in rest.now) }
    requires whole { length path.now ≡ length rest.now.survey.fields }
    requires case { IsCase (case_in rest.now (row_at (rows_in rest.now) row_no)) }
    requires opened { IsOpen (case_in rest.now (row_at (rows_in rest.now) row_no)) path.now }
    ensures class { IfOk result (λ wish. let row = row_at (rows_in rest.now) row_no in wish.class
        ≡ class_kept (class_count rest.now.survey.fields (class_field_in rest.now)) (class_field_in rest.now) row
        (kept_set rest.now.survey.fields row path.now)) }
    ensures ranking { IfOk result (λ wish. RanksIn rest.now row_no (not (weight == 0)) path.now wish.ranking) }
    ensures donors { IfOk result (λ wish. IfSome wish.ranking
        (All (IsDonorIn rest.now.survey (rows_in rest.now) (class_field_in rest.now) wish.class))) }
{
    let row = rest.sheet.row(row_no);
    let kept = path.kept_set(&rest.survey, row);
    let class = rest.decks.class_kept(row, kept);
    if weight == 0 {
        return Ok(Wish {
            class,
            ranking: None,
        });
    }
    let ranking = ranking_in(alloc, rest, class, row, kept, steps)?;
    Ok(Wish {
        class,
        ranking: Some(Sequence::from_vec(ranking)),
    })
}

// The nearest donors of this class for a record that keeps these fields; none in the last class, which has
// no deck.
fn ranking_in<F: Fn(u32, &Value, &Value) -> u64, L: Ledger>(
    alloc: Global,
    rest: &Rest<F>,
    class: u32,
    row: &Row,
    kept: FieldSet,
    steps: &mut Steps<L>,
) -> Result<Vec<u32>, OutOfMemory>
    requires rest { IsRest F.Fn rest.now }
    requires row { HasMeasurable rest.now.measure.yardsticks kept row.now }
    requires class { class
        ≡ class_kept (class_count rest.now.survey.fields (class_field_in rest.now)) (class_field_in rest.now) row.now kept }
    ensures ranking { IfOk result (λ ranking. ranking.items ≡ ranking_of rest.now.measure.yardsticks (rows_in rest.now)
        (donors_for rest.now.survey (rows_in rest.now) (class_field_in rest.now) row.now kept) row.now kept rest.now.near) }
    ensures donors { IfOk result (λ ranking. All (IsDonorIn rest.now.survey (rows_in rest.now) (class_field_in rest.now) class)
        ranking.items) }
{
    match rest.decks.of_class.get(class as usize) {
        Some(deck) => ranking(
            alloc,
            deck,
            &rest.sheet,
            &rest.measure,
            row,
            kept,
            rest.near,
            steps,
        ),
        None => Ok(Vec::new(alloc)),
    }
}
