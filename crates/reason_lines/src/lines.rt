//! One line of a reasons file: what it says, or what is wrong with it, by itself or behind the line
//! before it. A line has 7 texts: record, cause, field, before, after, donor and detail. `rows` is
//! everywhere how many records the record file has. In contracts, `line_fault` is what is wrong with a
//! line behind the one before it, and None where nothing is.
ghost use Rattle.std.specs.Prelude.{◌≡◌, ◌<◌, ◌≤◌, IfErr, IfOk, IfSome, None, Ok, Some, if◌then◌else◌, length};
ghost use Rattle.reason_lines.specs.ReasonLines.{change_of, entry_of, field_named, left_out_of, line_fault, may_follow, place_of, record_of};

use crate::entry::{Change, Entry, LeftOut};
use crate::fault::LineFault;
use crate::header::has_text;
use crate::words::{cause_named, donor_named, how_named, record_named};
use edit_model::{Field, Survey};
use record_text::Texts;

/// The most fields of a survey.
const MOST_FIELDS: u32 = 64;

/// What the line of these texts says, where it may stand behind a line that says `before`. It is the
/// first line where `before` is None. A line that is faulty by itself is told so, and not as one out of
/// order (`LineFault::Order`).
pub(crate) fn next_entry(
    survey: &Survey,
    rows: u32,
    before: Option<Entry>,
    texts: &Texts,
) -> Result<Entry, LineFault>
    requires { length texts.now ≡ 7 }
    ensures entry { IfOk result (λ entry. entry_of survey.now.fields rows texts.now ≡ Ok entry) }
    ensures behind { IfOk result (λ entry. line_fault survey.now.fields before (Ok entry) ≡ None) }
    ensures fault { IfErr result (λ fault. line_fault survey.now.fields before (entry_of survey.now.fields rows texts.now) ≡ Some fault) }
{
    let entry = entry_of(survey, rows, texts)?;
    if stands_behind(survey, before, entry) {
        Ok(entry)
    } else {
        Err(LineFault::Order)
    }
}

// Whether a line that says `entry` may stand behind one that says `before`. Where `before` is None it is
// the first line, and it may.
fn stands_behind(survey: &Survey, before: Option<Entry>, entry: Entry) -> bool
    ensures { line_fault survey.now.fields before (Ok entry) ≡ (if result then None else Some LineFault.Order) }
{
    match before {
        Some(before) => may_follow(survey, before, entry),
        None => true,
    }
}

// Whether a line that says `second` may stand behind one that says `first`. Either its record comes
// later, or both are changes of one record, and its field comes later.
fn may_follow(survey: &Survey, first: Entry, second: Entry) -> bool
    ensures { result ≡ may_follow survey.now.fields first second }
{
    match (first, second) {
        (Entry::Changed(first), Entry::Changed(second)) => {
            first.record < second.record
                || first.record == second.record
                    && place_of(survey, first.field) < place_of(survey, second.field)
        }
        _ => record_of(first) < record_of(second),
    }
}

// The number, from 0, of the record of which a line speaks.
fn record_of(entry: Entry) -> u32
    ensures { result ≡ record_of entry }
{
    match entry {
        Entry::Changed(change) => change.record,
        Entry::LeftOut(left_out) => left_out.record,
    }
}

// The place of the field in the order of a record's lines. `MOST_FIELDS` is added for a categorical
// field, so that these come behind all numerical ones.
fn place_of(survey: &Survey, field: u32) -> u64
    ensures { result ≡ place_of survey.now.fields field }
{
    match survey.fields().get(field as usize) {
        Some(found) if !found.kind.is_numerical() => u64::from(MOST_FIELDS) + u64::from(field),
        _ => u64::from(field),
    }
}

// What the line of these texts says. `LineFault::Record` where its first text is not the number of one
// of `rows` records. A line of the cause `changed` is then read by `change_of`, and any other by
// `left_out_of`.
fn entry_of(survey: &Survey, rows: u32, texts: &Texts) -> Result<Entry, LineFault>
    requires { length texts.now ≡ 7 }
    ensures { result ≡ entry_of survey.now.fields rows texts.now }
{
    let Some(record_no) = record_named(rows, texts.get(0)) else {
        return Err(LineFault::Record);
    };
    if has_text(texts, 1, b"changed") {
        change_of(survey, rows, record_no, texts)
    } else {
        left_out_of(record_no, texts)
    }
}

// What the line of a changed field of this record says: the field, how its value was found, and the
// donor, if there is one. Its faults, in order: no field has the name; the donor is none of the `rows`
// records, or the record itself; the detail is unknown. The values before and after the change, in the
// columns 3 and 4 from 0, are not looked at.
fn change_of(survey: &Survey, rows: u32, record_no: u32, texts: &Texts) -> Result<Entry, LineFault>
    requires { length texts.now ≡ 7 }
    ensures { result ≡ change_of survey.now.fields rows record_no texts.now }
{
    let Some(field) = field_named(survey.fields(), texts.get(2)) else {
        return Err(LineFault::Field);
    };
    let Some(donor) = donor_named(rows, record_no, texts.get(5)) else {
        return Err(LineFault::Donor);
    };
    let Some(how) = how_named(texts.get(6)) else {
        return Err(LineFault::Detail);
    };
    Ok(Entry::Changed(Change {
        record: record_no,
        field,
        how,
        donor,
    }))
}

// The number of the field of this name, from 0. None where no field has it.
fn field_named(fields: &[Field], name: &[u8]) -> Option<u32>
    requires { length fields.now ≤ 64 }
    ensures { result ≡ field_named fields.now name.now }
{
    match field_place(fields, name) {
        Some(place) => Some(place as u32),
        None => None,
    }
}

// The place of the field of this name in the list, from 0. None where no field has it.
fn field_place(fields: &[Field], name: &[u8]) -> Option<usize>
    ensures place { result ≡ field_named fields.now name.now }
    ensures within { IfSome result (λ place. place < length fields.now) }
{
    fields
        .iter()
        .position(|field| field.name.as_bytes() == name)
}

// What the line of this record says, where the record is left out: the cause. It is a fault if the cause
// is no known word, or a field, a value or a donor stands in the line. The detail may say anything.
fn left_out_of(record_no: u32, texts: &Texts) -> Result<Entry, LineFault>
    requires { length texts.now ≡ 7 }
    ensures { result ≡ left_out_of record_no texts.now }
{
    let Some(cause) = cause_named(texts.get(1)) else {
        return Err(LineFault::Cause);
    };
    if texts.get(2).is_empty()
        && texts.get(3).is_empty()
        && texts.get(4).is_empty()
        && texts.get(5).is_empty()
    {
        Ok(Entry::LeftOut(LeftOut {
            record: record_no,
            cause,
        }))
    } else {
        Err(LineFault::NotEmpty)
    }
}
