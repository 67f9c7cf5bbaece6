//! Why a record is not released, in a few words of the reasons file. Places are counted from 0 in the code,
//! and told from 1. The `gift` of a `RowProof` is the fault for which a change was given no values.
ghost use Rattle.std.specs.Prelude.{◌≡◌, ◌<◌, ◌++◌, IfOk, IfSome, None, OnOk, codes, decimal, length};
ghost use Rattle.bound_cert.specs.Paths.{named, path_text};
ghost use Rattle.edit_report.specs.Reasons.{cause_text, detail_text, event_text, giving_text, name_of, place_text};

use bound_cert::{Event, GiftFault, Outcome, Path, RowProof};
use edit_line::Place;
use edit_model::Survey;
use foundation::OutOfMemory;
use itoa::Buffer;
use std::alloc::Global;

/// The word for why a record is not released, in the column `cause` of the reasons file. A change comes here
/// where its fields were given no values, since a number left the range. No memory.
pub(crate) fn cause_text(outcome: &Outcome) -> &'static [u8]
    ensures { result.now ≡ cause_text outcome.now }
{
    match outcome {
        Outcome::Change { .. } | Outcome::Overflow { .. } => b"overflow",
        Outcome::Budget { .. } => b"budget",
        Outcome::Contradictory { .. } => b"contradictory",
    }
}

/// Where the search or the giving of values ended, in words for the column `detail` of the reasons file. No
/// bytes for a contradictory record.
pub(crate) fn detail_text(
    alloc: Global,
    survey: &Survey,
    found: &RowProof,
) -> Result<Vec<u8>, OutOfMemory>
    ensures { IfOk result (λ text. text.items ≡ detail_text survey.now.fields found.now.outcome found.now.gift) }
{
    match &found.outcome {
        Outcome::Change { .. } => giving_text(alloc, survey, &found.gift),
        Outcome::Budget { path, work } => budget_text(alloc, path, *work),
        Outcome::Overflow { path, event } => overflow_text(alloc, survey, path, event),
        Outcome::Contradictory { .. } => Ok(Vec::new(alloc)),
    }
}

// The path before which the search ended, as its work would pass the budget, and the work done before it:
// `path P work N`.
fn budget_text(alloc: Global, path: &Path, work: u64) -> Result<Vec<u8>, OutOfMemory>
    ensures { IfOk result (λ text. text.items ≡ codes "path " ++ (path_text path.now ++ (codes " work " ++ decimal work))) }
{
    let mut text = Vec::from_slice(alloc, b"path ")?;
    path.write(&mut text)?;
    text.extend_from_slice(b" work ")?;
    text.extend_from_slice(Buffer::new().format(work).as_bytes())?;
    Ok(text)
}

// The path at which a number left the range in the search, as `path P`, and behind it what [`push_event`]
// adds.
fn overflow_text(
    alloc: Global,
    survey: &Survey,
    path: &Path,
    event: &Event,
) -> Result<Vec<u8>, OutOfMemory>
    ensures { IfOk result (λ text. text.items ≡ codes "path " ++ (path_text path.now ++ event_text survey.now.fields event.now)) }
{
    let mut text = Vec::from_slice(alloc, b"path ")?;
    path.write(&mut text)?;
    push_event(&mut text, survey, event)?;
    Ok(text)
}

// Where a number left the range when values were given. It is `giving F line N` for a bound of the field
// named F, or `giving rule N` for the final test by a rule. No bytes where there is no fault.
fn giving_text(
    alloc: Global,
    survey: &Survey,
    fault: &Option<GiftFault>,
) -> Result<Vec<u8>, OutOfMemory>
    ensures { IfOk result (λ text. text.items ≡ giving_text survey.now.fields fault.now) }
{
    let mut text = Vec::new(alloc);
    match fault {
        None => {}
        Some(GiftFault::Bound { field, line }) => {
            text.extend_from_slice(b"giving ")?;
            text.extend_from_slice(name_of(survey, *field))?;
            text.extend_from_slice(b" line ")?;
            push_number(&mut text, *line)?;
        }
        Some(GiftFault::Test { rule }) => {
            text.extend_from_slice(b"giving rule ")?;
            push_number(&mut text, u64::from(*rule))?;
        }
    }
    Ok(text)
}

// Adds where a number left the range in the search. For two lines that were combined it adds
// ` lines N M at F`. For a line at the record it adds ` line N at F`.
fn push_event(text: &mut Vec<u8>, survey: &Survey, event: &Event) -> Result<(), OutOfMemory>
    ensures { OnOk result (text.new.items ≡ text.old.items ++ event_text survey.now.fields event.now) }
{
    match event {
        Event::Step {
            first,
            second,
            place,
        } => {
            text.extend_from_slice(b" lines ")?;
            push_number(text, *first)?;
            text.extend_from_slice(b" ")?;
            push_number(text, *second)?;
            text.extend_from_slice(b" at ")?;
            push_place(text, survey, place)
        }
        Event::Test { line, field } => {
            text.extend_from_slice(b" line ")?;
            push_number(text, *line)?;
            text.extend_from_slice(b" at ")?;
            text.extend_from_slice(name_of(survey, *field))?;
            Ok(())
        }
    }
}

// Adds the name of a place among the numbers of a line: its field, or `constant`.
fn push_place(text: &mut Vec<u8>, survey: &Survey, place: &Place) -> Result<(), OutOfMemory>
    ensures { OnOk result (text.new.items ≡ text.old.items ++ place_text survey.now.fields place.now) }
{
    match place {
        Place::Field(field) => text.extend_from_slice(name_of(survey, *field))?,
        Place::Constant => text.extend_from_slice(b"constant")?,
    }
    Ok(())
}

// Adds in decimal the number of a line or a rule that is counted from 0, as it is told: from 1.
fn push_number(text: &mut Vec<u8>, place: u64) -> Result<(), OutOfMemory>
    ensures { OnOk result (text.new.items ≡ text.old.items ++ named place) }
{
    text.extend_from_slice(Buffer::new().format(u128::from(place) + 1).as_bytes())?;
    Ok(())
}

/// The number of a record or a donor that is counted from 0, in decimal as it is told: from 1.
pub(crate) fn number_text(alloc: Global, place: u32) -> Result<Vec<u8>, OutOfMemory>
    ensures { IfOk result (λ text. text.items ≡ named place) }
{
    let mut text = Vec::new(alloc);
    push_number(&mut text, u64::from(place))?;
    Ok(text)
}

/// The name of the field of this number, nothing where there is no such field. No memory.
pub(crate) fn name_of(survey: &Survey, field: u32) -> &[u8]
    ensures { result.now ≡ name_of survey.now.fields field }
{
    match survey.fields().get(field as usize) {
        Some(field) => field.name.as_bytes(),
        None => &[],
    }
}
