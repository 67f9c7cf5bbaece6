//! Records, and whether rules hold at them. The expected answers were worked out by hand. In contracts,
//! `IsRow` says that a record has for each field a value of its kind, or none. `CanTry` says that it has the
//! values that a rule's tests need, and `HasValues` says so of one test.
ghost use Rattle.std.specs.Prelude.{◌≡◌, All, IfOk, IsTrue};
ghost use Rattle.edit_model.specs.Rows.{IsOfKind, IsRow};
ghost use Rattle.edit_model.specs.Trials.{CanTry, HasValues};

use ValuePlan::{Bad, Code, Greatest, Number};
use edit_language::read_rules;
use edit_model::{Field, Kind, Row, Rule, Survey, Test, Value, holds};
use fraction128::Fraction;
use std::alloc::Global;
use std::process::Abort;
use std::test::Fail;

/// The survey of the tests: two numerical fields and a categorical one with two codes, and rules over
/// them.
const RULES: &[u8] = b"number Turnover
number Costs
code Size in {small, large}
Turnover - Costs >= 3
Turnover - Costs > 3
Turnover - Costs <= 3
Turnover - Costs < 3
Turnover - Costs = 3
3 Turnover = 1
Size not in {large}
if Size in {large} then Costs > 0
if Size in {large} then 2 Turnover >= 0
Turnover >= -1
";

/// A value, as a table writes it. It is a number by its numerator and denominator, 2^127 - 1 over a
/// denominator, a code by its number from 0, or none.
#[derive(Clone, Copy)]
enum ValuePlan {
    Number(i64, u32),
    Greatest(u32),
    Code(u8),
    Bad,
}

// Whether a field of this kind takes the value: a number, or the number of one of its codes. Bad fits each.
fn is_of_kind(kind: &Kind, value: &Value) -> bool
    ensures { IsTrue result → IsOfKind kind.now value.now }
{
    match (kind, value) {
        (_, Value::Bad) | (Kind::Number { .. }, Value::Number(_)) => true,
        (Kind::Code { codes }, Value::Code(code)) => usize::from(*code) < codes.len(),
        _ => false,
    }
}

// Whether the values are a record over the fields: one for each, of its kind. A test asserts it before
// the calls that require it.
fn is_row(fields: &[Field], values: &[Value]) -> bool
    ensures { IsTrue result → IsRow fields.now values.now }
{
    match fields.split_first() {
        None => values.is_empty(),
        Some((field, fields)) => match values.split_first() {
            None => false,
            Some((value, values)) => is_of_kind(&field.kind, value) && is_row(fields, values),
        },
    }
}

// Whether the record has a value at each field of the test: a number at each of its terms, or a code at
// its field.
fn has_values(row: &Row, test: &Test) -> bool
    ensures { IsTrue result → HasValues row.now test.now }
{
    match test {
        Test::Number(linear) => linear.terms.as_slice().iter().all(|term| {
            (term.field as usize) < row.values().len()
                && matches!(row.value(term.field), Value::Number(_))
        }),
        Test::Codes { field, .. } => {
            (*field as usize) < row.values().len() && matches!(row.value(*field), Value::Code(_))
        }
    }
}

// Whether the record has a value at each field of the rule. A test asserts it before `holds`, which
// requires it.
fn can_try(row: &Row, rule: &Rule) -> bool
    ensures { IsTrue result → CanTry row.now rule.now }
{
    rule.conditions
        .as_slice()
        .iter()
        .all(|test| has_values(row, test))
        && has_values(row, &rule.conclusion)
}

// The number that is the numerator over the denominator, in lowest terms. It is Bad for the denominator 0
// and for -2^127, which `Fraction::reduced` does not take.
fn number_value(numerator: i128, denominator: u32) -> Value {
    if denominator == 0 || numerator == i128::MIN {
        return Value::Bad;
    }
    Value::Number(Fraction::reduced(numerator, i128::from(denominator)))
}

// The value that a table's plan stands for. A plan with the denominator 0 gives Bad.
fn value_of(plan: ValuePlan) -> Value {
    match plan {
        ValuePlan::Number(numerator, denominator) => {
            number_value(i128::from(numerator), denominator)
        }
        ValuePlan::Greatest(denominator) => number_value(i128::MAX, denominator),
        ValuePlan::Code(code) => Value::Code(code),
        ValuePlan::Bad => Value::Bad,
    }
}

/// The record of the survey with these values, in declared order. The test ends where they are no record of
/// the survey, such as a code where a number belongs.
fn row_of(
    rt: &impl Abort,
    alloc: Global,
    survey: &Survey,
    plans: [ValuePlan; 3],
) -> Result<Row, Fail>
    ensures { IfOk result (λ row. IsRow survey.now.fields row) }
{
    let mut values = Vec::new(alloc);
    for plan in plans {
        values.push(value_of(plan))?;
    }
    assert!(rt; is_row(survey.fields(), &values));
    Ok(Row::new(survey, values))
}

// The copy of a record has its values, and a missing value is told as such.
#[test]
fn a_record_gives_its_values_and_a_copy_of_itself(rt: HostRuntime) -> Result<(), Fail> {
    let alloc = rt.alloc();
    let survey = read_rules(alloc, RULES)?;
    let row = row_of(&rt, alloc, &survey, [Number(14, 6), Bad, Code(1)])?;
    let copy = row.copy(alloc)?;
    assert!(rt; copy.values() == [number_value(7, 3), Value::Bad, Value::Code(1)].as_slice());
    assert!(rt; row.value(1).is_bad() && !row.value(2).is_bad());
    Ok(())
}

// The record at which the comparisons with 3 are asked.
const FIVE_AND_TWO: [ValuePlan; 3] = [Number(5, 1), Number(2, 1), Code(0)];

/// For each case the place of a rule in `RULES`, from 0, a record, and whether the rule holds at it, None
/// for an overflow.
const CASES: [(usize, [ValuePlan; 3], Option<bool>); 14] = [
    (0, FIVE_AND_TWO, Some(true)),
    (1, FIVE_AND_TWO, Some(false)),
    (2, FIVE_AND_TWO, Some(true)),
    (3, FIVE_AND_TWO, Some(false)),
    (4, FIVE_AND_TWO, Some(true)),
    (5, [Number(1, 3), Number(0, 1), Code(0)], Some(true)),
    (6, [Number(0, 1), Number(0, 1), Code(1)], Some(false)),
    (6, [Number(0, 1), Number(0, 1), Code(0)], Some(true)),
    // a false condition makes the rule hold, and its conclusion is not tried
    (7, [Number(0, 1), Number(-1, 1), Code(0)], Some(true)),
    (7, [Number(0, 1), Number(-1, 1), Code(1)], Some(false)),
    (8, [Greatest(1), Number(0, 1), Code(0)], Some(true)),
    (8, [Greatest(1), Number(0, 1), Code(1)], None),
    (9, [Greatest(1), Number(0, 1), Code(0)], None),
    // 2^127 - 1 over 2, twice, is 2^127 - 1 and stays in range
    (8, [Greatest(2), Number(0, 1), Code(1)], Some(true)),
];

/// Whether the rule holds at the record, None for an overflow. The test ends where the record lacks a
/// value that the rule asks for, since `holds` requires it.
fn answer_of(rt: &impl Abort, row: &Row, rule: &Rule) -> Option<bool> {
    assert!(rt; can_try(row, rule));
    holds(rule, row).ok()
}

/// Asks whether each rule of the cases holds at its record, and compares the answer with the case's.
fn compare_answers(
    rt: &impl Abort,
    alloc: Global,
    cases: &[(usize, [ValuePlan; 3], Option<bool>)],
) -> Result<(), Fail> {
    let survey = read_rules(alloc, RULES)?;
    for (place, values, answer) in cases {
        let rule = survey.rules().get(*place).ok_or("a rule")?;
        let row = row_of(rt, alloc, &survey, *values)?;
        assert!(rt; answer_of(rt, &row, rule) == *answer, "at {place}");
    }
    Ok(())
}

// Each rule of the table at its record: strict and weak comparisons, conditions, and sums at the end of
// the range.
#[test]
fn a_rule_holds_exactly_where_it_is_true(rt: HostRuntime) -> Result<(), Fail> {
    compare_answers(&rt, rt.alloc(), &CASES)
}
