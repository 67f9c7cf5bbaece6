//! Worked calls on the values that the changed fields of a record are given, and how each was found. In
//! contracts, `IsRow` says that a record has for each field a value of its kind, or none.
//! `IsDonorRecord` says that the donor, if there is one, is such a record with no value missing.
//! `CanGive` says that values may be given: the path that changes just these fields is open.
ghost use Rattle.std.specs.Prelude.{◌≡◌, ◌<◌, IfOk, option_copied};
ghost use Rattle.std.specs.Arc.{arc_value};
ghost use Rattle.std.specs.List.{list_any};
ghost use Rattle.edit_line.specs.EditSets.{SayTheRules};
ghost use Rattle.edit_line.specs.Shapes.{shape_of};
ghost use Rattle.edit_model.specs.Rows.{IsRow, is_bad};
ghost use Rattle.back_subst.specs.Gifts.{CanGive, IsDonorRecord};

use crate::outcomes::outcome_of;
use back_subst::{Gift, GiveFault, How, changed_set, give};
use bound_cert::Outcome;
use edit_line::Edits;
use edit_model::{FieldSet, Row, Survey};
use edit_paths::case_known;
use foundation::Steps;
use line_calls::{CallFault, Texts, edits_of, from_one, name_of, only_line, row_of, row_text};
use linear_elim::Recompute;
use std::alloc::Global;
use std::marker::Brand;
use std::sync::Arc;
use std::sync::ledger::{Blank, Ledger};

/// The most work of the search for the fields that change.
const BUDGET: u64 = 1000;

/// The record with the values that its changed fields are given, and how each was found. Where a number
/// leaves the range, that is told instead. Without a donor the values are the default ones, or the
/// nearest to these. `CallFault::NoChange` where the search finds no change.
pub fn values_told(
    alloc: Global,
    survey: &Survey,
    row: &Row,
    donor: Option<&Row>,
) -> Result<Texts, CallFault>
    requires row { IsRow survey.now.fields row.now }
    requires donor { IsDonorRecord survey.now (option_copied donor) }
{
    match gift_of(alloc, survey, row, donor)? {
        Ok(gift) => gift_told(alloc, survey, &gift),
        Err(fault) => only_line(alloc, fault_text(alloc, survey, fault)?),
    }
}

// The values of the record in the end, and behind a colon how each changed one was found, in path order,
// such as `5 s: donor`.
fn gift_told(alloc: Global, survey: &Survey, gift: &Gift) -> Result<Texts, CallFault> {
    let mut text = row_text(alloc, survey, &gift.row)?;
    text.push(b':')?;
    for how in gift.how.as_slice() {
        text.extend_from_slice(match how {
            How::Donor => b" donor",
            How::Default => b" default",
            How::Nearest => b" nearest",
        })?;
    }
    only_line(alloc, text)
}

// Where a number leaves the range in the giving of values. It is at a field in a line that bounds it, or
// in the test of a rule. Lines and rules are numbered from 1. Memory that was refused is no text, but
// stays a fault.
fn fault_text(alloc: Global, survey: &Survey, fault: GiveFault) -> Result<Vec<u8>, CallFault> {
    match fault {
        GiveFault::Bound { field, line } => {
            let mut text = String::from_str(alloc, "overflow at ")?.into_bytes();
            text.extend_from_slice(name_of(survey, field)?)?;
            let number = from_one(line);
            text.extend_from_slice(format!(in alloc; " line {number}")?.as_bytes())?;
            Ok(text)
        }
        GiveFault::Test { rule } => {
            let number = from_one(u64::from(rule));
            Ok(format!(in alloc; "overflow in rule {number}")?.into_bytes())
        }
        GiveFault::OutOfMemory => Err(CallFault::OutOfMemory),
    }
}

/// What [`values_told`] tells with the donor that is spelled so, as [`row_of`] reads it.
/// `CallFault::Record` where that has no value at some field.
pub fn values_from(
    alloc: Global,
    survey: &Survey,
    row: &Row,
    donor: &str,
) -> Result<Texts, CallFault>
    requires { IsRow survey.now.fields row.now }
{
    let donor = row_of(alloc, survey, donor)?;
    if has_bad(&donor) {
        return Err(CallFault::Record);
    }
    values_told(alloc, survey, row, Some(&donor))
}

// Whether the record has no value at some field: a donor needs one at each.
fn has_bad(row: &Row) -> bool
    ensures { result ≡ list_any is_bad row.now }
{
    row.values().iter().any(|value| value.is_bad())
}

// The values that the record is given at the fields that the search changes. The first choice is the donor's
// value; without a donor it is 0, or the first code. The inner `Err` is answered if a number leaves the range
// while values are given, and says where, or if memory is refused then. The outer one is
// `CallFault::NoChange` if the search finds no change, or want of memory before that.
fn gift_of(
    alloc: Global,
    survey: &Survey,
    row: &Row,
    donor: Option<&Row>,
) -> Result<Result<Gift, GiveFault>, CallFault>
    requires row { IsRow survey.now.fields row.now }
    requires donor { IsDonorRecord survey.now (option_copied donor) }
{
    let edits = edits_of(alloc, survey)?;
    let changed = changed_fields(alloc, survey, &edits, row)?;
    Ok(counted_gift::<Brand>(alloc, survey, &edits, row, changed, donor, Blank::new(1)))
}

// The fields that a change of the record changes, as the search finds them by these edits, which hold
// exactly at the consistent points (`SayTheRules`). For a record that is right there are none. Where the search
// ends in any other way it is `CallFault::NoChange`: no correction, its budget, the range of numbers, and want
// of memory, which is not told apart here.
// The call of `case_known` computes nothing; it shows that the survey, the edits and the record are a
// case.
fn changed_fields(
    alloc: Global,
    survey: &Survey,
    edits: &Arc<Edits>,
    row: &Row,
) -> Result<FieldSet, CallFault>
    requires row { IsRow survey.now.fields row.now }
    requires shape { (arc_value edits.now).shape ≡ shape_of survey.now.fields }
    requires same { SayTheRules survey.now (arc_value edits.now) }
    ensures { IfOk result (λ changed. CanGive survey.now (arc_value edits.now) row.now changed) }
{
    case_known(survey, edits, row);
    match outcome_of(alloc, survey, edits, row, BUDGET) {
        Ok(Outcome::Change { path, .. }) => Ok(changed_set(survey, path.letters())),
        _ => Err(CallFault::NoChange),
    }
}

// What the record is given in the place of the fields `changed`, from the donor, if there is one. The
// fault says where a number leaves the range. `blank` is one of the ledger `L` (`name`, `parts`), and
// starts a counter of steps for this call, which nobody reads.
fn counted_gift<L: Ledger>(
    alloc: Global,
    survey: &Survey,
    edits: &Arc<Edits>,
    row: &Row,
    changed: FieldSet,
    donor: Option<&Row>,
    blank: Blank,
) -> Result<Gift, GiveFault>
    requires name { blank.name ≡ L.name }
    requires parts { blank.parts ≡ L.parts }
    requires counts { 0 < blank.parts }
    requires path { CanGive survey.now (arc_value edits.now) row.now changed }
    requires donor { IsDonorRecord survey.now (option_copied donor) }
{
    let mut steps = Steps::<L>::start(blank);
    give(
        alloc,
        &mut Recompute,
        survey,
        edits,
        row,
        changed,
        donor,
        &mut steps,
    )
}
