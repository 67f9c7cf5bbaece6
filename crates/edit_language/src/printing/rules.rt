//! Rules and their tests, as they are printed.
ghost use Rattle.std.specs.Prelude.{◌≡◌, ◌++◌, slice_get, IfOk, OnOk};
ghost use Rattle.edit_language.specs.Meaning.{kind_codes, field_codes};
ghost use Rattle.edit_language.specs.Printing.{conditions_text, later_conditions_text, rule_line, test_text};

use super::codes::write_set;
use super::sums::{name_at, write_linear};
use edit_model::{Field, Kind, Name, Rule, Test};
use foundation::OutOfMemory;
use std::alloc::Global;

/// The text of a rule over these fields, as its line in a printed survey, without the line feed. A field
/// number past `fields` is printed as no name.
pub fn rule_text(alloc: Global, fields: &[Field], rule: &Rule) -> Result<Vec<u8>, OutOfMemory>
    ensures { IfOk result (λ text. text.items ≡ rule_line fields.now rule.now) }
{
    let mut text = Vec::new(alloc);
    write_rule(&mut text, fields, rule)?;
    Ok(text)
}

// Appends the rule, without a line feed: its conditions, if it has some, and its conclusion.
pub(super) fn write_rule(
    text: &mut Vec<u8>,
    fields: &[Field],
    rule: &Rule,
) -> Result<(), OutOfMemory>
    ensures { OnOk result (text.new.items ≡ text.old.items ++ rule_line fields.now rule.now) }
{
    write_conditions(text, fields, rule.conditions.as_slice())?;
    write_test(text, fields, &rule.conclusion)
}

/// The conditions of a rule over these fields, as `if A in {x} then ` with the blank at its end. Nothing
/// where there is none.
pub fn conditions_text(
    alloc: Global,
    fields: &[Field],
    conditions: &[Test],
) -> Result<Vec<u8>, OutOfMemory>
    ensures { IfOk result (λ text. text.items ≡ conditions_text fields.now conditions.now) }
{
    let mut text = Vec::new(alloc);
    write_conditions(&mut text, fields, conditions)?;
    Ok(text)
}

// Appends the conditions of a rule, as `if A in {x} then ` with the blank at its end. Nothing where there
// is none.
fn write_conditions(
    text: &mut Vec<u8>,
    fields: &[Field],
    conditions: &[Test],
) -> Result<(), OutOfMemory>
    ensures { OnOk result (text.new.items ≡ text.old.items ++ conditions_text fields.now conditions.now) }
{
    match conditions.split_first() {
        None => Ok(()),
        Some((first, rest)) => {
            text.extend_from_slice(b"if ")?;
            write_test(text, fields, first)?;
            write_later_conditions(text, fields, rest)?;
            text.extend_from_slice(b" then ")?;
            Ok(())
        }
    }
}

// Appends the conditions behind the first, each with ` and ` before it.
fn write_later_conditions(
    text: &mut Vec<u8>,
    fields: &[Field],
    conditions: &[Test],
) -> Result<(), OutOfMemory>
    ensures { OnOk result (text.new.items ≡ text.old.items ++ later_conditions_text fields.now conditions.now) }
{
    for condition in conditions {
        text.extend_from_slice(b" and ")?;
        write_test(text, fields, condition)?;
    }
    Ok(())
}

// Appends the test: a linear one, or one such as `A in {x, y}` or `A not in {x}`.
fn write_test(text: &mut Vec<u8>, fields: &[Field], test: &Test) -> Result<(), OutOfMemory>
    ensures { OnOk result (text.new.items ≡ text.old.items ++ test_text fields.now test.now) }
{
    match test {
        Test::Number(linear) => write_linear(text, fields, linear),
        Test::Codes {
            field,
            negated,
            codes,
        } => {
            text.extend_from_slice(name_at(fields, *field))?;
            let joint: &[u8] = if *negated { b" not in " } else { b" in " };
            text.extend_from_slice(joint)?;
            write_set(text, codes_at(fields, *field), *codes)
        }
    }
}

// The codes of the field with this number, from 0. There are none where it is numerical, or where no field
// has the number.
fn codes_at(fields: &[Field], number: u32) -> &[Name]
    ensures { result.now ≡ field_codes (slice_get fields.now number) }
{
    match fields.get(number as usize) {
        Some(field) => codes_in(&field.kind),
        None => &[],
    }
}

// The codes of a kind; none where it is numerical.
fn codes_in(kind: &Kind) -> &[Name]
    ensures { result.now ≡ kind_codes kind.now }
{
    match kind {
        Kind::Number { .. } => &[],
        Kind::Code { codes } => codes.as_slice(),
    }
}
