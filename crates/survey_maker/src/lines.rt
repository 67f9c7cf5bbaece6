//! The line of a row in the record file: a business as it is drawn, with its answers.
ghost use Rattle.std.specs.Prelude.{◌≡◌, ◌++◌, OnOk, codes, map};
ghost use Rattle.std.specs.List.{flat_map};
ghost use Rattle.survey_maker.specs.RecordFiles.{after_row, answers_text, row_line};

use crate::answers::{Answer, draw_answers, write_number};
use crate::business::Business;
use crate::generator::Generator;
use foundation::OutOfMemory;

/// Draws a business, and what is answered for it, and appends its line with a line feed. The line begins
/// with `number`, the row's own, from 1. The generator's next draws are those of the next row.
pub(crate) fn write_row(
    text: &mut Vec<u8>,
    number: u32,
    generator: &mut Generator,
) -> Result<(), OutOfMemory>
    ensures text { OnOk result (text.new.items ≡ text.old.items ++ row_line number generator.old) }
    ensures state { OnOk result (generator.new ≡ after_row generator.old) }
{
    let business = Business::draw(generator);
    let answers = draw_answers(business.answers(), generator);
    write_number(text, u64::from(number))?;
    write_answers(text, &answers)?;
    write_codes(text, &business.codes())?;
    text.push(b'\n')?;
    Ok(())
}

// Appends answers, each behind a comma. Where one is left out, nothing stands behind its comma.
fn write_answers(text: &mut Vec<u8>, answers: &[Answer]) -> Result<(), OutOfMemory>
    ensures { OnOk result (text.new.items ≡ text.old.items ++ answers_text answers.now) }
{
    for answer in answers {
        text.push(b',')?;
        answer.write(text)?;
    }
    Ok(())
}

// Appends codes, each behind a comma.
fn write_codes(text: &mut Vec<u8>, list: &[&[u8]]) -> Result<(), OutOfMemory>
    ensures { OnOk result (text.new.items ≡ text.old.items ++ flat_map (λ code. codes "," ++ code.now) list.now) }
{
    for code in list {
        text.push(b',')?;
        text.extend_from_slice(code)?;
    }
    Ok(())
}
