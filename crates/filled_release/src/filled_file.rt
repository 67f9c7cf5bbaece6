//! The file of filled records, and the line that tells of it: each record is filled by itself, by all
//! rules of the survey. In contracts, `IsFilledFile` says that each record has an answer, and that the file
//! and the line tell just these. `IsFilledTo` says so of the first records. `SayTheRules` says that the
//! edits hold just where all rules do, and `CanBeWritten` that a filled record is one of these fields.
ghost use Rattle.std.specs.Prelude.{◌≡◌, ◌<◌, [], ℕ, List, IfOk, length};
ghost use Rattle.std.specs.Arc.{arc_value};
ghost use Rattle.edit_line.specs.EditSets.{SayTheRules};
ghost use Rattle.edit_model.specs.Rows.{IsRow};
ghost use Rattle.edit_normal.specs.RuleEdits.{rule_edits};
ghost use Rattle.record_text.specs.Sheets.{IsSheet};
ghost use Rattle.filled_release.specs.FilledFiles.{IsAnswerFor, IsFilledFile};
ghost use Rattle.filled_release.specs.inner.FilledRows.{CanBeWritten, IsFilledTo};

use crate::counts::Counts;
use crate::filled_row::push_filled;
use deduce_fill::{Filled, fill};
use edit_line::Edits;
use edit_model::{Row, Survey};
use edit_normal::rule_edits;
use edit_report::Layout;
use foundation::{OutOfMemory, Steps};
use record_text::{RecordWriter, Sheet};
use std::alloc::Global;
use std::marker::Brand;
use std::sync::Arc;
use std::sync::ledger::{Blank, Ledger};

/// What filling makes of the records of a file.
#[derive(Drop)]
pub struct FilledFile {
    /// The bytes of the released file: every record, with the values that are forced.
    pub released: Vec<u8>,
    /// A line without its line feed: how many records there are, how many of their fields are filled, and how
    /// many are blocked and stopped.
    pub summary: Vec<u8>,
    /// Whether no record is stopped.
    pub whole: bool,
}

/// Fills each record of the sheet, in order, by all rules of the survey. `budget` is the most work for each.
/// A record that is blocked, or on which filling stopped, is in the file as it was read. The only fault is
/// want of memory.
pub fn fill_sheet(
    alloc: Global,
    survey: &Survey,
    sheet: &Sheet,
    budget: u64,
) -> Result<FilledFile, OutOfMemory>
    requires sheet { (bytes : List ℕ) × IsSheet survey.now.fields bytes sheet.now }
    ensures filled { IfOk result (IsFilledFile survey.now sheet.now budget) }
{
    let edits = Arc::new(alloc, rule_edits(alloc, survey)?)?;
    let mut writer = RecordWriter::new(alloc);
    let counts = fill_rows(alloc, survey, sheet, &edits, budget, &mut writer)?;
    Ok(FilledFile {
        released: writer.into_bytes(),
        summary: counts.summary(alloc)?,
        whole: counts.none_stopped(),
    })
}

// Writes the header of the sheet, and then each of its records, filled, and counts what became of them. The
// edits are those of all rules.
fn fill_rows(
    alloc: Global,
    survey: &Survey,
    sheet: &Sheet,
    edits: &Arc<Edits>,
    budget: u64,
    writer: &mut RecordWriter,
) -> Result<Counts, OutOfMemory>
    requires sheet { (bytes : List ℕ) × IsSheet survey.now.fields bytes sheet.now }
    requires edits { arc_value edits.now ≡ rule_edits survey.now }
    requires rules { SayTheRules survey.now (arc_value edits.now) }
    requires empty { writer.old ≡ [] }
    ensures filled { IfOk result (IsFilledTo survey.now sheet.now budget (length sheet.now.rows) writer.new) }
{
    let layout = Layout::of_sheet(alloc, sheet)?;
    writer.push(sheet.header())?;
    let mut counts = Counts::of_none();
    for row_no in 0..sheet.len() {
        let row = sheet.row(row_no);
        let answer = answer_for::<Brand>(alloc, survey, edits, row, budget, Blank::new(1))?;
        push_filled(alloc, writer, survey, &layout, sheet.raw(row_no), &answer)?;
        counts.add(&answer);
    }
    Ok(counts)
}

// What filling makes of one record: it is done, blocked or stopped. `blank` starts a counter of steps for
// this call, which nobody reads.
fn answer_for<L: Ledger>(
    alloc: Global,
    survey: &Survey,
    edits: &Arc<Edits>,
    row: &Row,
    budget: u64,
    blank: Blank,
) -> Result<Filled, OutOfMemory>
    requires name { blank.name ≡ L.name }
    requires parts { blank.parts ≡ L.parts }
    requires counts { 0 < blank.parts }
    requires edits { arc_value edits.now ≡ rule_edits survey.now }
    requires rules { SayTheRules survey.now (arc_value edits.now) }
    requires row { IsRow survey.now.fields row.now }
    ensures answer { IfOk result (IsAnswerFor survey.now budget row.now) }
    ensures written { IfOk result (CanBeWritten survey.now.fields) }
{
    let _rules = survey.rules(); // read for what it says: there are at most 500
    let mut steps = Steps::<L>::start(blank);
    fill(alloc, survey, edits, row, budget, &mut steps)
}
