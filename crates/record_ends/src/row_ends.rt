//! What becomes of one record, when its donor is known. In contracts, `EndsIn` says that an end has the
//! piece's outcome, this donor, and the values that follow from both. `IsRest` says that the parts of `rest`
//! fit one another. `case_known` computes nothing: it says that the record and the edits are a case.
ghost use Rattle.std.specs.Prelude.{◌≡◌, ◌<◌, IfOk, IfSome, None, Some, length, option_copied, option_map};
ghost use Rattle.edit_model.specs.Rows.{IsRow};
ghost use Rattle.edit_paths.specs.Outcomes.{outcome_of};
ghost use Rattle.bound_cert.specs.declared.outcome.Outcome.TheVariants as outcome;
ghost use Rattle.donor_search.specs.CleanRows.{IsCleanRow, row_at};
ghost use Rattle.record_pieces.specs.Rests.{IsPieceIn, IsRest, case_in, rows_in};
ghost use Rattle.record_ends.specs.Givings.{EndsIn, IsEndIn, SaysIn};

use back_subst::{GiveFault, changed_set, give};
use bound_cert::{Cert, GiftFault, Outcome, Path, RowProof};
use edit_model::{Row, Value};
use edit_paths::case_known;
use edit_report::RowEnd;
use foundation::{OutOfMemory, Steps};
use linear_elim::Recompute;
use record_pieces::{Piece, Rest};
use record_text::Sheet;
use std::alloc::Global;
use std::marker::Brand;
use std::sync::ledger::{Blank, Ledger};

/// What becomes of the record of a piece that is given this donor, by its row number, or nobody. That is the
/// outcome of its search, and where it is a change the values of its changed fields, the donor's where they
/// fit.
pub(crate) fn end_of<F: Fn(u32, &Value, &Value) -> u64>(
    alloc: Global,
    rest: &Rest<F>,
    piece: Piece,
    donor: Option<u32>,
) -> Result<RowEnd, OutOfMemory>
    requires rest { IsRest F.Fn rest.now }
    requires piece { IsPieceIn rest.now piece }
    requires donor { IfSome donor (IsCleanRow rest.now.survey (rows_in rest.now)) }
    ensures { IfOk result (EndsIn rest.now piece donor) }
{
    let Piece {
        row_no,
        outcome,
        ..
    } = piece;
    let row = rest.sheet.row(row_no);
    case_known(&rest.survey, &rest.edits, row);
    match outcome {
        Outcome::Change { path, weight, cert } => {
            let change = Change { path, weight, cert };
            with_values::<F, Brand>(alloc, rest, row, change, donor, Blank::new(1))
        }
        outcome => Ok(end_without_change(outcome, donor)),
    }
}

/// A change that was found: its path, its weight, and the tree that shows that none is lighter.
#[derive(Drop)]
struct Change {
    path: Path,
    weight: u64,
    cert: Cert,
}

// What becomes of a record for which a change was found: its changed fields are given values, the donor's
// where they fit. Where a number leaves the range, the end has no values, and tells where that was. `blank`
// begins a counter of steps, which nobody reads. In the contract, `SaysIn` says that what the end tells of
// corrections is so.
fn with_values<F: Fn(u32, &Value, &Value) -> u64, L: Ledger>(
    alloc: Global,
    rest: &Rest<F>,
    row: &Row,
    change: Change,
    donor: Option<u32>,
    blank: Blank,
) -> Result<RowEnd, OutOfMemory>
    requires name { blank.name ≡ L.name }
    requires parts { blank.parts ≡ L.parts }
    requires counts { 0 < blank.parts }
    requires rest { IsRest F.Fn rest.now }
    requires row { IsRow rest.now.survey.fields row.now }
    requires found { outcome_of (case_in rest.now row.now) rest.now.budget ≡ outcome.Change change.path change.weight change.cert }
    requires donor { IfSome donor (IsCleanRow rest.now.survey (rows_in rest.now)) }
    ensures end { IfOk result (IsEndIn rest.now row.now) }
    ensures says { IfOk result (SaysIn rest.now row.now) }
    ensures change { IfOk result (λ end. end.proof.outcome ≡ outcome.Change change.path change.weight change.cert) }
    ensures donor { IfOk result (λ end. end.donor ≡ donor) }
{
    case_known(&rest.survey, &rest.edits, row);
    let changed = changed_set(&rest.survey, change.path.letters());
    let mut steps = Steps::<L>::start(blank);
    match give(
        alloc,
        &mut Recompute,
        &rest.survey,
        &rest.edits,
        row,
        changed,
        values_of(&rest.sheet, donor),
        &mut steps,
    ) {
        Ok(gift) => Ok(RowEnd {
            proof: proof_of(change, None),
            donor,
            gift: Some(gift),
        }),
        Err(GiveFault::Bound { field, line }) => {
            Ok(without_values(change, donor, GiftFault::Bound { field, line }))
        }
        Err(GiveFault::Test { rule }) => {
            Ok(without_values(change, donor, GiftFault::Test { rule }))
        }
        Err(GiveFault::OutOfMemory) => Err(OutOfMemory),
    }
}

// The row of the donor of this number, from 0, whose values are the first choice; None where there is no
// donor.
fn values_of(sheet: &Sheet, donor: Option<u32>) -> Option<&Row>
    requires { IfSome donor (λ d. d < length sheet.now.rows) }
    ensures { option_copied result ≡ option_map (row_at sheet.now.rows) donor }
{
    match donor {
        Some(donor) => Some(sheet.row(donor)),
        None => None,
    }
}

// What the proof file tells of a change. `gift` is not the values here: it is the fault for which the changed
// fields are given none, and None where they are given some.
fn proof_of(change: Change, gift: Option<GiftFault>) -> RowProof
    ensures outcome { result.outcome ≡ outcome.Change change.path change.weight change.cert }
    ensures gift { result.gift ≡ gift }
{
    RowProof {
        outcome: Outcome::Change {
            path: change.path,
            weight: change.weight,
            cert: change.cert,
        },
        gift,
    }
}

// The end of a record with a change whose fields are given no values, since a number left the range. The
// fault says where. It stands in `proof.gift`, and the `gift` of the end, the values, is None.
fn without_values(change: Change, donor: Option<u32>, fault: GiftFault) -> RowEnd
    ensures outcome { result.proof.outcome ≡ outcome.Change change.path change.weight change.cert }
    ensures fault { result.proof.gift ≡ Some fault }
    ensures none { (result.donor ≡ donor) × (result.gift ≡ None) }
{
    RowEnd {
        proof: proof_of(change, Some(fault)),
        donor,
        gift: None,
    }
}

// The end of a record for which no change was found: it has the outcome of its search, no values, and no
// fault of giving them.
fn end_without_change(outcome: Outcome, donor: Option<u32>) -> RowEnd
    ensures outcome { result.proof.outcome ≡ outcome }
    ensures none { (result.proof.gift ≡ None) × (result.donor ≡ donor) × (result.gift ≡ None) }
{
    RowEnd {
        proof: RowProof {
            outcome,
            gift: None,
        },
        donor,
        gift: None,
    }
}
