//! The record file of a survey that is made.
ghost use Rattle.std.specs.Prelude.{◌≡◌, IfOk};
ghost use Rattle.survey_maker.specs.RecordFiles.{record_file};

use crate::generator::Generator;
use crate::lines::write_row;
use foundation::OutOfMemory;
use std::alloc::Global;

/// The names of the columns.
const HEADER: &[u8] =
    b"id,Turnover,Goods,Bought,Wages,Social,Other,Costs,Profit,Staff,Full,Part,Invest,Activity,Size,Region,Form\n";

/// A record file of `rows` rows, which follow from the number `start`: a header, and a line for each
/// business, numbered from 1. Where `rows` is 0 it is the header alone. A longer file from the same start
/// begins with the same lines.
#[tactic(auto, unfolding(crate::specs::RecordFiles::header_line))]
pub fn records_text(alloc: Global, start: u32, rows: u32) -> Result<Vec<u8>, OutOfMemory>
    ensures { IfOk result (λ text. text.items ≡ record_file start rows) }
{
    let mut generator = Generator::new(start);
    let mut text = Vec::from_slice(alloc, HEADER)?;
    for row in 0..rows {
        write_row(&mut text, row + 1, &mut generator)?;
    }
    Ok(text)
}
