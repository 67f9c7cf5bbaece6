//! A survey as a rule text, which is read again as the same survey. [`print_rules`] begins here; the parts
//! of a line are in the files below.
ghost use Rattle.std.specs.Prelude.{◌≡◌, ◌++◌, IfOk, OnOk};
ghost use Rattle.edit_language.specs.Grammar.{IsRuleText};
ghost use Rattle.edit_language.specs.Printing.{field_lines, printed, rule_lines};

mod codes;
mod fields;
mod rules;
mod sums;

use edit_model::{Field, Rule, Survey};
use fields::write_field;
use foundation::OutOfMemory;
use rules::write_rule;
pub use rules::{conditions_text, rule_text};
use std::alloc::Global;
pub use sums::{compare_text, write_constant, write_term};

/// The survey as a rule text: its declarations and then its rules, a line each, with line feeds. The text
/// is read again as the same survey (`read_again`).
pub fn print_rules(alloc: Global, survey: &Survey) -> Result<Vec<u8>, OutOfMemory>
    ensures text { IfOk result (λ text. text.items ≡ printed survey.now) }
    ensures read_again { IfOk result (λ text. IsRuleText text.items survey.now) }
{
    let mut text = Vec::new(alloc);
    let fields = survey.fields();
    write_fields(&mut text, fields)?;
    write_rules(&mut text, fields, survey.rules())?;
    Ok(text)
}

// Appends the declaration of each field, each as a line with its line feed.
fn write_fields(text: &mut Vec<u8>, fields: &[Field]) -> Result<(), OutOfMemory>
    ensures { OnOk result (text.new.items ≡ text.old.items ++ field_lines fields.now) }
{
    for field in fields {
        write_field(text, field)?;
        text.push(b'\n')?;
    }
    Ok(())
}

// Appends each rule as a line with its line feed.
fn write_rules(text: &mut Vec<u8>, fields: &[Field], rules: &[Rule]) -> Result<(), OutOfMemory>
    ensures { OnOk result (text.new.items ≡ text.old.items ++ rule_lines fields.now rules.now) }
{
    for rule in rules {
        write_rule(text, fields, rule)?;
        text.push(b'\n')?;
    }
    Ok(())
}
