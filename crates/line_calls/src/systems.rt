//! Worked calls on derived systems: the lines that are left of the rules without some of their numerical
//! fields. In contracts, `AreNumerical` says that each field of a set is numerical.
ghost use Rattle.std.specs.Prelude.{◌≡◌, ◌<◌, IfOk, true};
ghost use Rattle.std.specs.Arc.{arc_value};
ghost use Rattle.edit_line.specs.Shapes.{has_field, shape_of};
ghost use Rattle.linear_elim.specs.Systems.{AreNumerical};

use crate::fault::CallFault;
use crate::numbers::from_one;
use crate::rules::{edits_of, field_of};
use crate::texts::{Texts, name_of, only_line, push_place, told_line};
use edit_line::{Derived, Origin, Place};
use edit_model::{FieldSet, Survey};
use foundation::Steps;
use linear_elim::{Held, Recompute, SystemFault, Systems, pairs};
use std::alloc::Global;
use std::marker::Brand;
use std::sync::ledger::{Blank, Ledger};

/// The lines of the derived system without the numerical fields of these names, each behind where it
/// comes from. Where a number leaves the range, that is told instead. `CallFault::Field` where a name is
/// none of a numerical field.
pub fn system_told(alloc: Global, survey: &Survey, fields: &[&str]) -> Result<Texts, CallFault> {
    match system_of::<Brand>(alloc, survey, fields, Blank::new(1))? {
        Ok(held) => derived_told(alloc, survey, held.system().lines()),
        Err(
            SystemFault::Overflow {
                field,
                first,
                second,
                place,
            },
        ) => overflow_told(alloc, survey, field, first, second, place),
        Err(SystemFault::OutOfMemory) => Err(CallFault::OutOfMemory),
    }
}

/// How many pairs of lines are combined when the field `last` is eliminated from the system without the
/// other fields. `CallFault::Number` where that system can't be made, also for want of memory.
pub fn pairs_told(
    alloc: Global,
    survey: &Survey,
    fields: &[&str],
    last: &str,
) -> Result<Texts, CallFault> {
    let field = field_of(survey, last)?;
    match system_of::<Brand>(alloc, survey, fields, Blank::new(1))? {
        Ok(held) => {
            let count = pairs(held.system().lines(), field);
            only_line(alloc, format!(in alloc; "{count} pairs")?.into_bytes())
        }
        Err(_) => Err(CallFault::Number),
    }
}

// The derived system without these fields, from the source that keeps none. The inner `Err` tells where
// a number leaves the range, or that memory was refused. `CallFault::Field` where a name is none of a
// numerical field. `blank` is one of the ledger `L` (`name`, `parts`), and starts a counter of steps
// for this call, which nobody reads.
fn system_of<L: Ledger>(
    alloc: Global,
    survey: &Survey,
    fields: &[&str],
    blank: Blank,
) -> Result<Result<Held, SystemFault>, CallFault>
    requires name { blank.name ≡ L.name }
    requires parts { blank.parts ≡ L.parts }
    requires counts { 0 < blank.parts }
{
    let edits = edits_of(alloc, survey)?;
    let set = number_set(survey, fields)?;
    let mut steps = Steps::<L>::start(blank);
    Ok(Recompute.system(alloc, &edits, set, &mut steps))
}

// The set of the numerical fields of these names. `CallFault::Field` where a name is none of a numerical
// field.
fn number_set(survey: &Survey, fields: &[&str]) -> Result<FieldSet, CallFault>
    ensures { IfOk result (λ set. AreNumerical (shape_of survey.now.fields) set) }
{
    let mut set = FieldSet::empty();
    for field in fields {
        set = with_number(survey, set, field_of(survey, field)?)?;
    }
    Ok(set)
}

// The set and this field. `CallFault::Field` where the field is not numerical. Fields are below 64, as
// `with` asks.
fn with_number(survey: &Survey, set: FieldSet, field: u32) -> Result<FieldSet, CallFault>
    requires { AreNumerical (shape_of survey.now.fields) set }
    ensures { IfOk result (λ more. AreNumerical (shape_of survey.now.fields) more) }
{
    if field >= 64 || !has_field(survey.numbers(), field) {
        return Err(CallFault::Field);
    }
    Ok(set.with(field))
}

// Whether the field is one of `fields`, the numerical ones of the survey.
fn has_field(fields: &[u32], field: u32) -> bool
    ensures { result ≡ true → has_field fields.now field ≡ true }
{
    for i in 0..fields.len() {
        if fields[i] == field {
            return true;
        }
    }
    false
}

// What is told of a system: its lines, each behind where it comes from, such as `combine 1 1 2 3 1:
// Costs >= 0`.
fn derived_told(alloc: Global, survey: &Survey, lines: &[Derived]) -> Result<Texts, CallFault> {
    let mut texts = Vec::new(alloc);
    for derived in lines {
        let head = origin_text(alloc, derived.origin)?;
        texts.push(told_line(alloc, survey, head, &derived.line)?)?;
    }
    Ok(texts)
}

// Where a line comes from, and a colon. It is a line of the rules, a line before the last step, or a
// combination of two of these. Its numbers are those of the lines, from 1, the factor of each, and what
// the combination was divided by.
fn origin_text(alloc: Global, origin: Origin) -> Result<String, CallFault> {
    Ok(match origin {
        Origin::Base(number) => {
            let number = from_one(number);
            format!(in alloc; "given {number}: ")?
        }
        Origin::Same(place) => {
            let number = from_one(place);
            format!(in alloc; "same {number}: ")?
        }
        Origin::Pair { a, m, b, n, g } => {
            let first = from_one(a);
            let second = from_one(b);
            format!(in alloc; "combine {first} {m} {second} {n} {g}: ")?
        }
    })
}

// Where a number leaves the range: the field that is eliminated, the lines `first` and `second`,
// numbered from 1, and the place in their combination. Such is
// `overflow at Costs lines 1 2 at constant`.
fn overflow_told(
    alloc: Global,
    survey: &Survey,
    field: u32,
    first: u64,
    second: u64,
    place: Place,
) -> Result<Texts, CallFault> {
    let mut text = Vec::new(alloc);
    text.extend_from_slice(b"overflow at ")?;
    text.extend_from_slice(name_of(survey, field)?)?;
    let first = from_one(first);
    let second = from_one(second);
    text.extend_from_slice(format!(in alloc; " lines {first} {second}")?.as_bytes())?;
    push_place(&mut text, survey, place)?;
    only_line(alloc, text)
}
