//! A line of the rules as a text: as a rule of the rule language, but that `never` is no part of it.
ghost use Rattle.std.specs.Prelude.{◌≡◌, ◌++◌, IfOk, OnOk};
ghost use Rattle.edit_line.specs.Shapes.{shape_of};
ghost use Rattle.rule_report.specs.LineTexts.{line_text, linear_words};

use crate::conditions::conditions_of;
use crate::sums::write_linear;
use edit_language::conditions_text;
use edit_line::{Line, is_false};
use edit_model::Survey;
use foundation::OutOfMemory;
use std::alloc::Global;

/// The text of a line over the survey's fields. The sets that are not whole stand first, as conditions,
/// and then the sum and how it compares with 0. It is `never` instead of a sum where no field stands in
/// the sum and the comparison is false.
pub fn line_text(alloc: Global, survey: &Survey, line: &Line) -> Result<Vec<u8>, OutOfMemory>
    requires { line.now.shape ≡ shape_of survey.now.fields }
    ensures { IfOk result (λ text. text.items ≡ line_text survey.now.fields line.now) }
{
    let conditions = conditions_of(alloc, survey, line)?;
    let mut text = conditions_text(alloc, survey.fields(), &conditions)?;
    write_words(&mut text, survey, line)?;
    Ok(text)
}

// Appends what the line says where its codes are in its sets. It is its linear part, or `never` where
// that has no field and is false.
fn write_words(text: &mut Vec<u8>, survey: &Survey, line: &Line) -> Result<(), OutOfMemory>
    requires { line.now.shape ≡ shape_of survey.now.fields }
    ensures { OnOk result (text.new.items ≡ text.old.items ++ linear_words survey.now.fields line.now) }
{
    if is_false(line) {
        text.extend_from_slice(b"never")?;
        Ok(())
    } else {
        write_linear(text, survey, line)
    }
}
