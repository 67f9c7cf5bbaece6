//! Reasons files that are read, and faulty ones. What is expected was worked out by hand.
use crate::{Cause, Change, How, LeftOut, LineFault, ReasonFault, read_reasons};
use edit_model::{Field, Kind, Name, Survey};
use foundation::Sequence;
use record_text::TableFault;
use std::alloc::Global;
use std::test::Fail;

/// How many records the record file has.
const ROWS: u32 = 12;

// A field of this name and kind, of weight 1. A name that is none ends the test.
fn field_of(name: &[u8], kind: Kind) -> Result<Field, Fail> {
    Ok(Field {
        name: Name::new(name).ok_or("no name")?,
        weight: 1,
        kind,
    })
}

// The survey of a categorical field `B` and the numerical fields `A` and `C`.
fn survey_of(alloc: Global) -> Result<Survey, Fail> {
    let mut codes = Vec::new(alloc);
    codes.push(Name::new(b"x").ok_or("no name")?)?;
    let codes = Sequence::from_vec(codes);
    let mut fields = Vec::new(alloc);
    fields.push(field_of(b"B", Kind::Code { codes })?)?;
    fields.push(field_of(b"A", Kind::Number { scale: 1 })?)?;
    fields.push(field_of(b"C", Kind::Number { scale: 1 })?)?;
    Ok(Survey::new(alloc, fields, Vec::new(alloc))?)
}

/// A file of two changed records and two that were left out.
const FILE: &[u8] = b"record,cause,field,before,after,donor,detail\n\
2,changed,A,400,60,1,nearest\n\
2,changed,B,\"y,\",x,1,donor\n\
3,budget,,,,,path KC work 7\n\
10,changed,C,,0,,default\n\
12,nolast,,,,,\n";

/// The changes of the file.
const CHANGES: &[Change] = &[
    Change {
        record: 1,
        field: 1,
        how: How::Nearest,
        donor: Some(0),
    },
    Change {
        record: 1,
        field: 0,
        how: How::Donor,
        donor: Some(0),
    },
    Change {
        record: 9,
        field: 2,
        how: How::Default,
        donor: None,
    },
];

/// The records that it leaves out.
const LEFT_OUT: &[LeftOut] = &[
    LeftOut {
        record: 2,
        cause: Cause::Budget,
    },
    LeftOut {
        record: 11,
        cause: Cause::NoLast,
    },
];

// The file of changes and of records left out is read as the two lists.
#[test]
fn changes_and_records_left_out_are_read(rt: HostRuntime) -> Result<(), Fail> {
    let survey = survey_of(rt.alloc())?;
    let reasons = read_reasons(rt.alloc(), &survey, ROWS, FILE)?;
    assert_eq!(rt; reasons.changes.as_slice(), CHANGES);
    assert_eq!(rt; reasons.left_out.as_slice(), LEFT_OUT);
    Ok(())
}

/// Lines behind a header, the number of the first that is wrong, and what is wrong with it.
const FAULTY: &[(&[u8], u32, LineFault)] = &[
    (b"0,overflow,,,,,\n", 0, LineFault::Record),
    (b"13,overflow,,,,,\n", 0, LineFault::Record),
    (b"02,overflow,,,,,\n", 0, LineFault::Record),
    (b"+2,overflow,,,,,\n", 0, LineFault::Record),
    (b"2,Overflow,,,,,\n", 0, LineFault::Cause),
    (b"2,contradictory,A,,,,\n", 0, LineFault::NotEmpty),
    (b"2,nocorrection,,,,1,\n", 0, LineFault::NotEmpty),
    (b"2,changed,D,1,2,,default\n", 0, LineFault::Field),
    (b"2,changed,A,1,2,13,donor\n", 0, LineFault::Donor),
    (b"2,changed,A,1,2,2,donor\n", 0, LineFault::Donor),
    (b"2,changed,A,1,2,1,given\n", 0, LineFault::Detail),
    (b"2,budget,,,,,\n1,budget,,,,,\n", 1, LineFault::Order),
    (
        b"2,budget,,,,,\n2,changed,A,1,2,,default\n",
        1,
        LineFault::Order,
    ),
    (
        b"2,changed,A,1,2,,default\n2,budget,,,,,\n",
        1,
        LineFault::Order,
    ),
    (
        b"2,changed,A,1,2,,default\n2,changed,A,1,2,,default\n",
        1,
        LineFault::Order,
    ),
    (
        b"2,changed,B,y,x,,default\n2,changed,C,1,2,,default\n",
        1,
        LineFault::Order,
    ),
];

// The fault of a reasons file with these lines behind its header. None where the file is read.
fn fault_of(alloc: Global, lines: &[u8]) -> Result<Option<ReasonFault>, Fail> {
    let survey = survey_of(alloc)?;
    let mut bytes = Vec::from_slice(alloc, b"record,cause,field,before,after,donor,detail\n")?;
    bytes.extend_from_slice(lines)?;
    Ok(read_reasons(alloc, &survey, ROWS, &bytes).err())
}

// Each faulty file of the table is told by its first faulty line, from 0, and what is wrong with it.
#[test]
fn a_faulty_line_is_told(rt: HostRuntime) -> Result<(), Fail> {
    for (lines, line, fault) in FAULTY {
        let found = fault_of(rt.alloc(), lines)?;
        let (line, fault) = (*line, *fault);
        assert_eq!(rt; found, Some(ReasonFault::Line { line, fault }));
    }
    Ok(())
}

// A file whose second line has six texts is no table, which is told before the faulty record in its first
// line.
#[test]
fn a_line_of_another_length_is_told_before_faulty_lines(rt: HostRuntime) -> Result<(), Fail> {
    let found = fault_of(rt.alloc(), b"0,budget,,,,,\n2,budget,,,,\n")?;
    let fault = TableFault::RowLength { row_no: 1 };
    assert_eq!(rt; found, Some(ReasonFault::Table { fault }));
    Ok(())
}
