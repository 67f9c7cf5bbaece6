//! Sums of terms and their comparison with 0, as they are printed. Edits that are no rule of a survey are
//! printed by the same parts.
ghost use Rattle.std.specs.Prelude.{◌≡◌, ◌++◌, OnErr, OnOk, if◌then◌else◌, unsigned_abs};
ghost use Rattle.std.specs.Fmt.{decimal, signed_decimal};
ghost use Rattle.std.specs.Io.{StartsWith};
ghost use Rattle.edit_language.specs.Printing.{compare_text, joint_text, later_constant_text, later_terms_text, lead_text, linear_text};
ghost use Rattle.edit_language.specs.Printing.{name_at, product_text, sign_text, sum_text, terms_text, whole_term_text};

use edit_model::{Compare, Field, Linear, Term};
use foundation::OutOfMemory;
use itoa::Buffer;

// Appends the linear test: its sum, and its comparison with 0, as `2 A - B + 3 >= 0`.
pub(super) fn write_linear(
    text: &mut Vec<u8>,
    fields: &[Field],
    linear: &Linear,
) -> Result<(), OutOfMemory>
    ensures { OnOk result (text.new.items ≡ text.old.items ++ linear_text fields.now linear.now) }
{
    write_sum(text, fields, linear.terms.as_slice(), linear.constant)?;
    text.extend_from_slice(compare_text(linear.compare))?;
    Ok(())
}

/// Appends a term of a sum, as `2 A` or ` - B`: a sign, the size of the `factor` unless that is 1, and the
/// name of the field of number `field`, from 0. The sign of the `first` term is a minus or nothing, and that
/// of a later one is ` + ` or ` - `. Where memory is refused, the text is as before.
pub fn write_term(
    text: &mut Vec<u8>,
    first: bool,
    fields: &[Field],
    field: u32,
    factor: i128,
) -> Result<(), OutOfMemory>
    ensures written { OnOk result (text.new.items ≡ text.old.items ++ whole_term_text first fields.now field factor) }
    ensures refused { OnErr result (text.new.items ≡ text.old.items) }
{
    let before = text.len();
    let written = append_term(text, first, fields, field, factor);
    if written.is_err() {
        text.truncate(before);
    }
    written
}

/// Appends the constant of a sum. Where it stands `alone`, it is written in decimal, also 0, with a minus
/// where it is below 0. Behind terms it is written only where it is not 0. Where memory is refused, the
/// text is as before.
pub fn write_constant(text: &mut Vec<u8>, alone: bool, constant: i128) -> Result<(), OutOfMemory>
    ensures written { OnOk result (text.new.items
        ≡ text.old.items ++ (if alone then signed_decimal constant else later_constant_text constant)) }
    ensures refused { OnErr result (text.new.items ≡ text.old.items) }
{
    if alone {
        let mut buffer = Buffer::new();
        text.extend_from_slice(buffer.format(constant).as_bytes())?;
        Ok(())
    } else {
        write_later_constant(text, constant)
    }
}

/// The comparison of a sum with 0, with the blank before it, as ` >= 0`.
pub fn compare_text(compare: Compare) -> &'static [u8]
    ensures { result.now ≡ compare_text compare }
{
    match compare {
        Compare::Ge => b" >= 0",
        Compare::Gt => b" > 0",
        Compare::Le => b" <= 0",
        Compare::Lt => b" < 0",
        Compare::Eq => b" = 0",
    }
}

// Appends the number in decimal. Where memory is refused, the text is as before.
pub(super) fn write_number(text: &mut Vec<u8>, number: u128) -> Result<(), OutOfMemory>
    ensures written { OnOk result (text.new.items ≡ text.old.items ++ decimal number) }
    ensures refused { OnErr result (text.new.items ≡ text.old.items) }
{
    let mut buffer = Buffer::new();
    text.extend_from_slice(buffer.format(number).as_bytes())?;
    Ok(())
}

// The name of the field with this number, from 0, or nothing where no field has it.
pub(super) fn name_at(fields: &[Field], number: u32) -> &[u8]
    ensures { result.now ≡ name_at fields.now number }
{
    match fields.get(number as usize) {
        Some(field) => field.name.as_bytes(),
        None => b"",
    }
}

// Appends the terms in order and then the constant, as `2 A - B + 3`. Behind terms a constant 0 is not
// written. Where there is no term, the constant stands alone, also 0.
fn write_sum(
    text: &mut Vec<u8>,
    fields: &[Field],
    terms: &[Term],
    constant: i64,
) -> Result<(), OutOfMemory>
    ensures { OnOk result (text.new.items ≡ text.old.items ++ sum_text fields.now terms.now constant) }
{
    match terms.split_first() {
        None => write_constant(text, true, i128::from(constant)),
        Some((first, rest)) => {
            write_terms(text, fields, first, rest)?;
            write_constant(text, false, i128::from(constant))
        }
    }
}

// Appends the first term and those behind it. They are apart since the first alone has no sign that joins
// it to others.
fn write_terms(
    text: &mut Vec<u8>,
    fields: &[Field],
    first: &Term,
    rest: &[Term],
) -> Result<(), OutOfMemory>
    ensures { OnOk result (text.new.items ≡ text.old.items ++ terms_text fields.now first.now rest.now) }
{
    write_term(text, true, fields, first.field, i128::from(first.factor))?;
    write_later_terms(text, fields, rest)
}

// Appends the terms behind the first, each with the sign that joins it to those before.
fn write_later_terms(
    text: &mut Vec<u8>,
    fields: &[Field],
    terms: &[Term],
) -> Result<(), OutOfMemory>
    ensures { OnOk result (text.new.items ≡ text.old.items ++ later_terms_text fields.now terms.now) }
{
    for term in terms {
        write_term(text, false, fields, term.field, i128::from(term.factor))?;
    }
    Ok(())
}

// Appends a constant behind terms, as ` + 3`, where it is not 0. Where memory is refused, the text is as
// before.
fn write_later_constant(text: &mut Vec<u8>, constant: i128) -> Result<(), OutOfMemory>
    ensures written { OnOk result (text.new.items ≡ text.old.items ++ later_constant_text constant) }
    ensures refused { OnErr result (text.new.items ≡ text.old.items) }
{
    if constant == 0 {
        return Ok(());
    }
    let before = text.len();
    text.extend_from_slice(joint_text(constant))?;
    let written = write_number(text, constant.unsigned_abs());
    if written.is_err() {
        text.truncate(before);
    }
    written
}

// Appends a term as `write_term` does: its sign, its factor and the name of its field. Where memory is
// refused, some of it may stand behind what stood before.
fn append_term(
    text: &mut Vec<u8>,
    first: bool,
    fields: &[Field],
    field: u32,
    factor: i128,
) -> Result<(), OutOfMemory>
    ensures written { OnOk result (text.new.items ≡ text.old.items ++ whole_term_text first fields.now field factor) }
    ensures begins { StartsWith text.new.items text.old.items }
{
    text.extend_from_slice(lead_text(first, factor))?;
    write_product(text, factor.unsigned_abs(), name_at(fields, field))
}

// Appends the factor of a term without its sign, and the name of its field. The factor 1 is not written.
// Where memory is refused, some of it may stand behind what stood before.
fn write_product(text: &mut Vec<u8>, factor: u128, name: &[u8]) -> Result<(), OutOfMemory>
    ensures written { OnOk result (text.new.items ≡ text.old.items ++ product_text factor name.now) }
    ensures begins { StartsWith text.new.items text.old.items }
{
    if factor != 1 {
        write_number(text, factor)?;
        text.push(b' ')?;
    }
    text.extend_from_slice(name)?;
    Ok(())
}

// What stands before a term whose factor is `number`: its sign where the term is the `first`, and else what
// joins it to the terms before.
fn lead_text(first: bool, number: i128) -> &'static [u8]
    ensures { result.now ≡ lead_text first number }
{
    if first {
        sign_text(number)
    } else {
        joint_text(number)
    }
}

// The sign in front of a sum that begins with this factor: a minus, or nothing.
fn sign_text(number: i128) -> &'static [u8]
    ensures { result.now ≡ sign_text number }
{
    if number < 0 { b"-" } else { b"" }
}

// What joins a number to the terms before it: a plus, also for 0, or a minus.
fn joint_text(number: i128) -> &'static [u8]
    ensures { result.now ≡ joint_text number }
{
    if number < 0 { b" - " } else { b" + " }
}
