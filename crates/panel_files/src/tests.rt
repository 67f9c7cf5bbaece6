//! Which fields are last fields, which row has a key, and rows that are joined. What is expected was worked
//! out by hand.
ghost use Rattle.std.specs.Prelude.{IfOk, IfSome};
ghost use Rattle.edit_model.specs.Rows.{IsRow};

use crate::keys::KeyTable;
use crate::{both_columns, both_values, last_rows, last_set, last_survey, own_survey};
use edit_model::{Field, Kind, Name, Row, Survey};
use record_text::read_records;
use std::alloc::Global;
use std::test::Fail;

/// Names of fields, and whether they are those of last fields.
const NAMES: &[(&[u8], bool)] = &[
    (b"last_", false),
    (b"last_1", false),
    (b"last_number", false),
    (b"A", false),
    (b"last_A", true),
    (b"last_last_A", true),
];

// A survey of numerical fields with these names. A name that is none ends the test.
fn survey_of(alloc: Global, names: &[&[u8]]) -> Result<Survey, Fail> {
    let mut fields = Vec::new(alloc);
    for name in names {
        fields.push(Field {
            name: Name::new(name).ok_or("no name")?,
            weight: 1,
            kind: Kind::Number { scale: 1 },
        })?;
    }
    Ok(Survey::new(alloc, fields, Vec::new(alloc))?)
}

// Each name in a survey of its own. `last_1` and `last_number` are none of a last field: a field has no
// name such as `1` or `number`.
#[test]
fn a_last_field_has_a_name_behind_last(rt: HostRuntime) -> Result<(), Fail> {
    for (name, is_last) in NAMES {
        let survey = survey_of(rt.alloc(), &[*name])?;
        assert_eq!(rt; last_set(&survey).has(0), *is_last);
    }
    Ok(())
}

/// A file of keys: one stands once, one twice and one three times, with blanks around.
const KEY_FILE: &[u8] = b"id\n7\n 8 \n9\n8\n10\t\n9\n\t9\n";

/// Keys, and the rows that alone have them.
const KEYS: &[(&[u8], Option<u32>)] = &[
    (b"7", Some(0)),
    (b"8", None),
    (b"9", None),
    (b"10", Some(4)),
    (b"10\t", None),
    (b"11", None),
];

// The table of the keys of a file, which stand in its column `id`. No field has a column there.
fn table_of(alloc: Global, bytes: &[u8]) -> Result<KeyTable, Fail> {
    let survey = survey_of(alloc, &[])?;
    let sheet = read_records(alloc, &survey, bytes)?;
    match sheet.column_named(b"id") {
        Some(column) => Ok(KeyTable::of(alloc, &sheet, column)?),
        None => Err("no column".into()),
    }
}

// Each key of the table is looked up in the file of keys.
#[test]
fn a_key_has_a_row_where_one_row_has_it(rt: HostRuntime) -> Result<(), Fail> {
    let table = table_of(rt.alloc(), KEY_FILE)?;
    for (key, row) in KEYS {
        assert_eq!(rt; table.row_of(key), *row);
    }
    Ok(())
}

/// Records whose keys stand in their second column.
const OWN_FILE: &[u8] = b"firm,id\na,9\nb, 10\nc,7\nd,11\n";

// The rows of the file `last` for the records of the file `own`. Both have their keys in a column `id`. The
// survey is that of their fields.
fn rows_found(
    alloc: Global,
    survey: &Survey,
    own: &[u8],
    last: &[u8],
) -> Result<Vec<Option<u32>>, Fail> {
    let own = read_records(alloc, survey, own)?;
    let last = read_records(alloc, survey, last)?;
    match (own.column_named(b"id"), last.column_named(b"id")) {
        (Some(own_key), Some(last_key)) => Ok(last_rows(alloc, &own, own_key, &last, last_key)?),
        _ => Err("no column".into()),
    }
}

// Of the keys of the records, 9 stands three times in the file of keys, 10 and 7 stand once, and 11 never.
#[test]
fn each_record_finds_the_one_row_with_its_key(rt: HostRuntime) -> Result<(), Fail> {
    let survey = survey_of(rt.alloc(), &[])?;
    let rows = rows_found(rt.alloc(), &survey, OWN_FILE, KEY_FILE)?;
    assert_eq!(rt; rows.as_slice(), [None, Some(4), Some(0), None].as_slice());
    Ok(())
}

/// The fields of a survey of which two are last fields.
const FIELDS: &[&[u8]] = &[b"A", b"last_A", b"last_B", b"C"];

/// Three files each: one of the records, one of the last period, and one in which the first rows of both
/// stand in one row.
const FILES: &[(&[u8], &[u8], &[u8])] = &[
    (
        b"C,A\n5,50\n",
        b"B,A\n3,10\n",
        b"A,last_A,last_B,C\n50,10,3,5\n",
    ),
    (b"C,A\n5,50\n", b"B,A\n", b"A,last_A,last_B,C\n50,,,5\n"),
];

// The first row of a file that is read by the fields of this survey. None where the file has no row.
fn first_row(alloc: Global, survey: &Survey, bytes: &[u8]) -> Result<Option<Row>, Fail>
    ensures { IfOk result (λ row. IfSome row (IsRow survey.now.fields)) }
{
    let sheet = read_records(alloc, survey, bytes)?;
    if sheet.is_empty() {
        return Ok(None);
    }
    Ok(Some(sheet.row(0).copy(alloc)?))
}

// One record of two rows: the first of the file `own` of the records, and the first of the file `last` of the
// last period, if that has one.
fn first_row_of_both(alloc: Global, survey: &Survey, own: &[u8], last: &[u8]) -> Result<Row, Fail> {
    let set = last_set(survey);
    let own_survey = own_survey(alloc, survey, set)?;
    let last_survey = last_survey(alloc, survey, set)?;
    let last = first_row(alloc, &last_survey, last)?;
    match first_row(alloc, &own_survey, own)? {
        Some(own) => Ok(both_values(alloc, survey, set, &own, last.as_ref())?),
        None => Err("no row".into()),
    }
}

// The rows of two files, joined, have the values that one file with all columns has.
#[test]
fn rows_are_joined_field_by_field(rt: HostRuntime) -> Result<(), Fail> {
    let survey = survey_of(rt.alloc(), FIELDS)?;
    for (own, last, whole) in FILES {
        let both = first_row_of_both(rt.alloc(), &survey, own, last)?;
        let row = first_row(rt.alloc(), &survey, whole)?.ok_or("no row")?;
        assert_eq!(rt; both.values(), row.values());
    }
    Ok(())
}

// The column of each field, where the fields of the records have those in `columns`, and the last fields are
// given the column 9. Another number of columns than of fields ends the test.
fn columns_of(alloc: Global, survey: &Survey, columns: &[u32]) -> Result<Vec<u32>, Fail> {
    let set = last_set(survey);
    let own = own_survey(alloc, survey, set)?;
    if own.fields().len() != columns.len() {
        return Err("not as many columns as fields".into());
    }
    Ok(both_columns(alloc, survey, set, columns, 9)?)
}

// Of the fields A, last_A, last_B and C the records have A in column 1 and C in column 0.
#[test]
fn last_fields_stand_past_the_columns(rt: HostRuntime) -> Result<(), Fail> {
    let survey = survey_of(rt.alloc(), FIELDS)?;
    let columns = columns_of(rt.alloc(), &survey, &[1, 0])?;
    assert_eq!(rt; columns.as_slice(), [1, 9, 9, 0].as_slice());
    Ok(())
}
