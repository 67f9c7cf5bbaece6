//! Record files as sheets, the first fault of files that are none, and rows of texts written as bytes.

use edit_language::read_rules;
use edit_model::{Survey, Value};
use record_text::{Sheet, SheetFault, Texts, read_records, write_rows};
use std::alloc::Global;
use std::process::Abort;
use std::slice;
use std::test::Fail;

/// The survey of the fields `A`, which is numerical, and `Size`, of the codes `s` and `M.1`.
fn survey_of_two_fields(alloc: Global) -> Result<Survey, Fail> {
    Ok(read_rules(alloc, b"number A\ncode Size in {s, M.1}\n")?)
}

/// Appends the texts of one record to what a test compares, with a `|` after each.
fn show_texts(shown: &mut Vec<u8>, texts: &Texts) -> Result<(), Fail> {
    for place in 0..texts.len() {
        shown.extend_from_slice(texts.get(place))?;
        shown.push(b'|')?;
    }
    Ok(())
}

/// The value as a text: a fraction, the number of a code, from 0, behind `#`, or `bad` where there is none.
fn value_text(alloc: Global, value: &Value) -> Result<Vec<u8>, Fail> {
    match value {
        Value::Number(x) => Ok(x.write_text(alloc)?),
        Value::Code(code) => Ok(format!(in alloc; "#{code}")?.into_bytes()),
        Value::Bad => Ok(b"bad".to_vec(alloc)?),
    }
}

/// What a sheet has, as a text that a test compares. It has the texts of the header, and the texts and
/// values of each row, a line each.
fn sheet_text(alloc: Global, sheet: &Sheet) -> Result<Vec<u8>, Fail> {
    let mut shown = Vec::new(alloc);
    show_texts(&mut shown, sheet.header())?;
    for row_no in 0..sheet.len() {
        shown.push(b'\n')?;
        show_texts(&mut shown, sheet.raw(row_no))?;
        for value in sheet.row(row_no).values() {
            shown.push(b' ')?;
            shown.extend_from_slice(&value_text(alloc, value)?)?;
        }
    }
    Ok(shown)
}

// A file with byte order marks, quoted texts, line ends of two kinds and texts that are no values, and
// what its sheet has.
#[test]
fn a_sheet_has_the_texts_and_the_values_of_its_rows(rt: HostRuntime) -> Result<(), Fail> {
    let survey = survey_of_two_fields(rt.alloc())?;
    let file = "\u{FEFF}\u{FEFF}Size,\"no, te\",\tA \r\n s\t,\"say \"\"hi\"\"\",007.50\r\n\r\n\
        M.1,,-3/4\nS,,.5\n,,1/0\ns,,+7.\ns,,1234567890123456\ns,,0.1234567\ns,,1e3\n\
        s,,999999999999999999999/1000000\ns,,1/1000001\ns,,\"1,0\"";
    let sheet = read_records(rt.alloc(), &survey, file.as_bytes())?;
    assert_eq!(rt; sheet.columns(), [2, 0].as_slice());
    assert_eq!(rt;
        sheet_text(rt.alloc(), &sheet)?.as_slice(),
        b"Size|no, te|\tA |\n s\t|say \"hi\"|007.50| 15/2 #0\nM.1||-3/4| -3/4 #1\nS||.5| 1/2 bad\n\
        ||1/0| bad bad\ns||+7.| 7 #0\ns||1234567890123456| bad #0\ns||0.1234567| bad #0\ns||1e3| bad #0\n\
        s||999999999999999999999/1000000| 999999999999999999999/1000000 #0\ns||1/1000001| bad #0\ns||1,0| bad #0"
            .as_slice()
    );
    let parts = sheet.into_parts();
    assert_eq!(rt; (parts.header.len(), parts.row_texts.len()), (3, 11));
    Ok(())
}

/// Reads each file of the table as records of the survey, and compares its fault with the table's. A file
/// that is read without a fault ends the test.
fn compare_faults(
    rt: &impl Abort,
    alloc: Global,
    survey: &Survey,
    cases: &[(&str, SheetFault)],
) -> Result<(), Fail> {
    for (file, fault) in cases {
        match read_records(alloc, survey, file.as_bytes()) {
            Ok(_) => return Err(Fail::from("a fault")),
            Err(found) => assert_eq!(rt; found, *fault, "at {file:?}"),
        }
    }
    Ok(())
}

// Each fault but that of too many rows. Where a file has several, the first is told.
#[test]
fn the_first_fault_is_told(rt: HostRuntime) -> Result<(), Fail> {
    compare_faults(
        &rt,
        rt.alloc(),
        &survey_of_two_fields(rt.alloc())?,
        &[
            ("\u{FEFF}\n\r\n\r", SheetFault::NoHeader),
            (
                ",,,,,,,,,,,,,,,,,,,,,,,,,,,,,,,,,,,,,,,,,,,,,,,,,,,,,,,,,,,,,,,,,,,,,,,,,,,,,,,,,,,,,,,,,,,,,,,,,,,,\
                ,,,,,,,,,,,,,,,,,,,,,,,,,,,,,,,,,,,,,,,,,,,,,,,,,,,,,,,,,,,,,,,,,,,,,,,,,,,,,,,,,,,,,,,,,,,,,,,,,,,,\
                ,,,,,,,,,,,,,,,,,,,,,,,,,,,,,,,,,,,,,,,,,,,,,,,,,,,,,,,,",
                SheetFault::TooManyColumns,
            ),
            ("a,Size,Size\n", SheetFault::NoColumn { field: 0 }),
            ("A,Size, Size\t\n1\n", SheetFault::DoubleColumn { field: 1 }),
            (
                "A,Size\n1,s\n1,s,2\n1\n",
                SheetFault::RowLength { row_no: 1 },
            ),
        ],
    )
}

// A text with a comma or a quotation mark is written in quotation marks, and no other.
#[test]
fn records_are_written_with_quotes_where_needed(rt: HostRuntime) -> Result<(), Fail> {
    let mut row = Texts::new(rt.alloc());
    for text in ["", "1,5", "say \"no\"", "007"] {
        row.push(text.as_bytes())?;
    }
    let written = write_rows(rt.alloc(), slice::from_ref(&row))?;
    assert_eq!(rt;
        written.as_slice(),
        b",\"1,5\",\"say \"\"no\"\"\",007\n".as_slice()
    );
    Ok(())
}
