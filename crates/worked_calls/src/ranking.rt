//! The nearest donors for a record of a record file, and how often two values are measured to find them.
//! In contracts, `HasPlainNumbers` says that the numbers of a record are plain: numerators below 10^21,
//! denominators of at most 10^6. `IsRow` says that a record has for each field a value of its kind, or
//! none. A deck has the clean records that may be donors, ordered for the search; a sheet is a record file
//! that was read.
ghost use Rattle.std.specs.Prelude.{◌≡◌, ◌<◌, IfOk};
ghost use Rattle.std.specs.List.{AllByRecursion};
ghost use Rattle.edit_model.specs.PlainNumbers.{HasPlainNumbers};
ghost use Rattle.edit_model.specs.Rows.{IsRow};
ghost use Rattle.donor_measure.specs.Yardsticks.{yardsticks_of};
ghost use Rattle.donor_search.specs.CleanRows.{CanAllGive};
ghost use Rattle.donor_search.specs.Decks.{IsDeckOf};

use bound_cert::Path;
use donor_measure::{Measure, field_distance};
use donor_search::{Deck, RowMarks, ranking};
use edit_model::{Row, Survey, Value};
use foundation::Steps;
use line_calls::{CallFault, Texts, from_one, only_line};
use proof_calls::path_of;
use record_text::{Sheet, read_records};
use std::alloc::Global;
use std::cell::Cell;
use std::marker::Brand;
use std::sync::Arc;
use std::sync::ledger::{Blank, Ledger};

/// What a call asks for: the nearest donors, at most `near`, for the record of the number `row_no`, from
/// 0. The path says by letters, in path order, which fields of it are kept. The donors are among all clean
/// records, or, where `class_field` names a field, among those that have the record's code there.
#[derive(Clone, Copy)]
pub struct Asked<'a> {
    pub path: &'a str,
    pub row_no: u64,
    pub near: u64,
    pub class_field: Option<&'a str>,
}

/// How many donors are ranked at most, and the number of the class field, from 0, if there is one.
#[derive(Clone, Copy)]
struct Among {
    near: u32,
    class_field: Option<u32>,
}

/// What was found of a record's donors. They are the nearest ones, the nearest first, by their numbers in
/// the record file, from 0. `measured` is how often two values were measured.
#[derive(Drop)]
struct Found {
    donors: Vec<u32>,
    measured: u64,
}

/// The answer of the call `rank`: one line with `donors` and the numbers of the nearest donors, the
/// nearest first. They are those in the record file, from 1. `records` has the bytes of that file. The
/// faults are those of `find_donors`.
pub fn rank_told(
    alloc: Global,
    survey: &Survey,
    records: &[u8],
    asked: Asked,
) -> Result<Texts, CallFault> {
    let found = find_donors(alloc, survey, records, asked)?;
    let mut text = String::from_str(alloc, "donors")?;
    for donor in &found.donors {
        let number = from_one(u64::from(*donor));
        text.push_str(format!(in alloc; " {number}")?.as_str())?;
    }
    only_line(alloc, text.into_bytes())
}

/// The answer of the call `measured`: how often two values were measured to find the nearest donors, in
/// one line. It is `at most MOST` where that was at most `most` times, and else the number. The faults
/// are those of `find_donors`.
pub fn measured_told(
    alloc: Global,
    survey: &Survey,
    records: &[u8],
    asked: Asked,
    most: u64,
) -> Result<Texts, CallFault> {
    let measured = find_donors(alloc, survey, records, asked)?.measured;
    let text = if measured <= most {
        format!(in alloc; "at most {most}")?
    } else {
        format!(in alloc; "{measured}")?
    };
    only_line(alloc, text.into_bytes())
}

// Reads the record file of these bytes, and finds the nearest donors for the record that is asked for.
// `CallFault::Path` where the text is no path, and `Field` where no field has the name of the class
// field. `Number` where a number has more than 32 bits. `Record` where the file has no reading; else the
// faults are those of `nearest_donors`.
fn find_donors(
    alloc: Global,
    survey: &Survey,
    records: &[u8],
    asked: Asked,
) -> Result<Found, CallFault> {
    let path = path_of(alloc, asked.path)?;
    let (Ok(row_no), Ok(near)) = (u32::try_from(asked.row_no), u32::try_from(asked.near)) else {
        return Err(CallFault::Number);
    };
    let class_field = class_field_of(survey, asked.class_field)?;
    let among = Among { near, class_field };
    let Ok(sheet) = read_records(alloc, survey, records) else {
        return Err(CallFault::Record);
    };
    nearest_donors::<Brand>(alloc, survey, &sheet, &path, row_no, among, Blank::new(1))
}

// The number, from 0, of the field of the survey that is named as the class field; None where none is
// named. `CallFault::Field` where the survey has no field of the name.
fn class_field_of(survey: &Survey, name: Option<&str>) -> Result<Option<u32>, CallFault> {
    let Some(name) = name else {
        return Ok(None);
    };
    match survey.find(name.as_bytes()) {
        Some(field) => Ok(Some(field)),
        None => Err(CallFault::Field),
    }
}

// The deck of all donors of the sheet, or, with a class field, of those that have the record's code
// there. Where all numbers are plain, each of its donors has a value at each field (`measurable`), and
// it is a deck of these records (`index`). `CallFault::Field` where the record has no code at the class
// field.
fn deck_for(
    alloc: Global,
    survey: &Survey,
    sheet: &Sheet,
    row: &Row,
    class_field: Option<u32>,
) -> Result<Deck, CallFault>
    requires { AllByRecursion (IsRow survey.now.fields) sheet.now.rows }
    ensures measurable { IfOk result (λ deck. CanAllGive survey.now sheet.now.rows deck.donors) }
    ensures index { IfOk result (λ deck. AllByRecursion HasPlainNumbers sheet.now.rows
        → IsDeckOf (yardsticks_of survey.now.fields) sheet.now.rows deck) }
{
    let Some(field) = class_field else {
        return Ok(Deck::new(alloc, survey, sheet)?);
    };
    match row.values().get(field as usize) {
        Some(Value::Code(code)) => {
            let marks = Arc::new(alloc, RowMarks::of(alloc, survey, sheet)?)?;
            Ok(Deck::of_class(alloc, survey, sheet, &marks, field, *code)?)
        }
        _ => Err(CallFault::Field),
    }
}

// The nearest donors for the record of the number `row_no`, from 0, by the fields that the path keeps. With
// them comes how often two values were measured: the measure counts its own calls in a cell.
// `CallFault::Number` where there is no such record, `Path` where the path is longer than there are
// fields, and else the fault of `deck_for`. `blank` is one of the ledger `L` (`name`, `parts`), and
// starts a counter of steps, which nobody reads.
fn nearest_donors<L: Ledger>(
    alloc: Global,
    survey: &Survey,
    sheet: &Sheet,
    path: &Path,
    row_no: u32,
    among: Among,
    blank: Blank,
) -> Result<Found, CallFault>
    requires name { blank.name ≡ L.name }
    requires parts { blank.parts ≡ L.parts }
    requires counts { 0 < blank.parts }
    requires rows { AllByRecursion (IsRow survey.now.fields) sheet.now.rows }
    requires plain { AllByRecursion HasPlainNumbers sheet.now.rows }
{
    let mut steps = Steps::<L>::start(blank);
    let measured = Cell::new(0u64);
    let measure = Measure::new(survey, |field: u32, first: &Value, second: &Value| {
        measured.set(measured.get().wrapping_add(1));
        field_distance(survey, field, first, second)
    });
    if row_no >= sheet.len() {
        return Err(CallFault::Number);
    }
    if path.letters().len() > survey.fields().len() {
        return Err(CallFault::Path);
    }
    let row = sheet.row(row_no);
    let deck = deck_for(alloc, survey, sheet, row, among.class_field)?;
    let donors = ranking(
        alloc,
        &deck,
        sheet,
        &measure,
        row,
        path.kept_set(survey, row),
        among.near,
        &mut steps,
    )?;
    Ok(Found {
        donors,
        measured: measured.get(),
    })
}
