//! Which fields make a survey and which make none, and which fields a survey finds.

use edit_language::read_rules;
use edit_model::{Field, Kind, Name, Survey, SurveyFault};
use std::alloc::Global;
use std::test::Fail;

/// A survey of `count` fields that all have one name of 32 bytes, or inside the answer why they make none.
/// The outer fault is want of memory, which ends the test.
fn survey_of_one_name(alloc: Global, count: usize) -> Result<Result<Survey, SurveyFault>, Fail> {
    let mut fields = Vec::new(alloc);
    for _ in 0..count {
        fields.push(Field {
            name: Name::new(b"abcdefghijklmnopqrstuvwxyz012345").ok_or("a name of 32 bytes")?,
            weight: 1,
            kind: Kind::Number { scale: 1 },
        })?;
    }
    Ok(Survey::new(alloc, fields, Vec::new(alloc)))
}

// One field has the name and is found; two fields with it make no survey. A name has 32 bytes at most.
#[test]
fn a_name_is_declared_once(rt: HostRuntime) -> Result<(), Fail> {
    let survey = survey_of_one_name(rt.alloc(), 1)?.ok().ok_or("a survey")?;
    assert_eq!(rt; survey.find(b"abcdefghijklmnopqrstuvwxyz012345"), Some(0));
    let two = survey_of_one_name(rt.alloc(), 2)?;
    assert!(rt; matches!(two, Err(SurveyFault::Malformed)));
    assert!(rt; Name::new(b"abcdefghijklmnopqrstuvwxyz0123456").is_none());
    Ok(())
}

/// A survey of one numerical field of this weight, or inside the answer why it makes none. The outer fault
/// is want of memory, which ends the test.
fn survey_of_weight(alloc: Global, weight: u32) -> Result<Result<Survey, SurveyFault>, Fail> {
    let mut fields = Vec::new(alloc);
    fields.push(Field {
        name: Name::new(b"A").ok_or("a name of one byte")?,
        weight,
        kind: Kind::Number { scale: 1 },
    })?;
    Ok(Survey::new(alloc, fields, Vec::new(alloc)))
}

// The weights 1 and 1000 make a survey, and those beside them none.
#[test]
fn a_weight_is_from_1_to_1000(rt: HostRuntime) -> Result<(), Fail> {
    let none = survey_of_weight(rt.alloc(), 0)?;
    assert!(rt; matches!(none, Err(SurveyFault::Malformed)));
    let least = survey_of_weight(rt.alloc(), 1)?;
    let greatest = survey_of_weight(rt.alloc(), 1000)?;
    assert!(rt; least.is_ok() && greatest.is_ok());
    let beyond = survey_of_weight(rt.alloc(), 1001)?;
    assert!(rt; matches!(beyond, Err(SurveyFault::Malformed)));
    Ok(())
}

// Fields are found by their names, and path order has the numerical ones first.
#[test]
fn a_survey_finds_its_fields(rt: HostRuntime) -> Result<(), Fail> {
    let survey = read_rules(
        rt.alloc(),
        b"number Turnover\ncode Size in {s, l}\nnumber Costs weight 9\ncode Country in {NL}\n",
    )?;
    assert!(rt; survey.find(b"Country") == Some(3) && survey.find(b"country").is_none());
    assert!(rt; survey.numbers() == [0, 2].as_slice() && survey.codes() == [1, 3].as_slice());
    assert!(rt; survey.path_field(1) == 2 && survey.path_field(2) == 1);
    Ok(())
}
