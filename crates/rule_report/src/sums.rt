//! The linear part of a line as a text: its sum, and how that compares with 0.
ghost use Rattle.std.specs.Prelude.{◌≡◌, ◌++◌, ◌&&◌, IfOk, OnOk, length, pos};
ghost use Rattle.std.specs.Ordering.{int_eq};
ghost use Rattle.edit_language.specs.Printing.{linear_text, sum_text};
ghost use Rattle.edit_line.specs.Shapes.{shape_of};
ghost use Rattle.rule_report.specs.LineTexts.{compare_of, linear_part, line_terms};
ghost use Rattle.rule_report.specs.inner.Written.{factor_text};

use edit_language::{compare_text, write_constant, write_term};
use edit_line::{Line, Relation};
use edit_model::{Compare, Field, Survey};
use foundation::OutOfMemory;

/// Appends the sum of the line, and its comparison with 0, such as `6 Turnover - 10 Profit >= 0`.
pub(crate) fn write_linear(
    text: &mut Vec<u8>,
    survey: &Survey,
    line: &Line,
) -> Result<(), OutOfMemory>
    requires { line.now.shape ≡ shape_of survey.now.fields }
    ensures { OnOk result (text.new.items ≡ text.old.items ++ linear_text survey.now.fields (linear_part line.now)) }
{
    write_sum(
        text,
        survey.fields(),
        survey.numbers(),
        line.factors(),
        line.constant(),
    )?;
    text.extend_from_slice(compare_text(comparison(line.relation())))?;
    Ok(())
}

// How the sum of a line with this relation is compared with 0.
fn comparison(relation: Relation) -> Compare
    ensures { result ≡ compare_of relation }
{
    match relation {
        Relation::AtLeast => Compare::Ge,
        Relation::Above => Compare::Gt,
        Relation::Equal => Compare::Eq,
    }
}

// Appends the terms of a sum and its constant. `factors` are those of the fields whose numbers are
// `numbers`, place by place; a field with the factor 0 has no term.
fn write_sum(
    text: &mut Vec<u8>,
    fields: &[Field],
    numbers: &[u32],
    factors: &[i128],
    constant: i128,
) -> Result<(), OutOfMemory>
    requires { length factors.now ≡ length numbers.now }
    ensures { OnOk result (text.new.items ≡ text.old.items ++ sum_text fields.now (line_terms numbers.now factors.now) constant) }
{
    let mut first = true;
    for (place, number) in numbers.iter().enumerate() {
        first = write_factor(text, first, fields, *number, factors[place])?;
    }
    write_constant(text, first, constant)
}

// Appends the term of a field, but none where its factor is 0. `first` says whether no term stands before
// it, which decides how its sign is written; the answer says that of the next term.
fn write_factor(
    text: &mut Vec<u8>,
    first: bool,
    fields: &[Field],
    field: u32,
    factor: i128,
) -> Result<bool, OutOfMemory>
    ensures text { OnOk result (text.new.items ≡ text.old.items ++ factor_text first fields.now field factor) }
    ensures first { IfOk result (λ next. next ≡ (first && int_eq factor (pos 0))) }
{
    if factor == 0 {
        return Ok(first);
    }
    write_term(text, first, fields, field, factor)?;
    Ok(false)
}
