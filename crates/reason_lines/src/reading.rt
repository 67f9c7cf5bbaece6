//! A reasons file, read as a whole: its table, its header, and its lines in order. In contracts,
//! `AreReasons` says that the bytes are a reasons file with these reasons, and `IsReasonFault` tells
//! what is first wrong with them. `AreWithin` says that all numbers of records and fields are among
//! those that there are, and that no donor is the record itself.
ghost use Rattle.std.specs.Prelude.{◌≡◌, ◌≢◌, ◌≤◌, ◌^◌, ◌-◌, ◌++◌, All, IfErr, IfOk, None, OnOk, Ok, Some, length};
ghost use Rattle.std.specs.List.Sorted.{IsNonDecreasingBy};
ghost use Rattle.record_text.specs.Tables.{most_table_rows};
ghost use Rattle.reason_lines.specs.ReasonFiles.{AreReasons, IsReasonFault, change_in, changes_in, left_out_in, left_outs_in, lines_fault};
ghost use Rattle.reason_lines.specs.ReasonLaws.{AreWithin};
ghost use Rattle.reason_lines.specs.declared.entry.Change.{Change as AnyChange};
ghost use Rattle.reason_lines.specs.declared.reading.Reasons.{Reasons as Other};

use crate::entry::{Change, Entry, LeftOut};
use crate::fault::ReasonFault;
use crate::header::is_header;
use crate::lines::next_entry;
use edit_model::Survey;
use foundation::{OutOfMemory, Sequence};
use record_text::{Texts, read_table};
use std::alloc::Global;

/// What a reasons file says, in the order of its lines.
#[derive(Drop)]
pub struct Reasons {
    /// The changes.
    pub changes: Sequence<Change>,
    /// The records that were left out.
    pub left_out: Sequence<LeftOut>,
}

/// Reads the reasons file of an edit of `rows` records of the survey. Where it is faulty, the fault is
/// the first in the order of [`ReasonFault`]. What is read is all that the bytes say (`only`), and they
/// have no other fault (`first`).
pub fn read_reasons(
    alloc: Global,
    survey: &Survey,
    rows: u32,
    bytes: &[u8],
) -> Result<Reasons, ReasonFault>
    ensures exact { IfOk result (λ reasons. AreReasons survey.now.fields rows bytes.now reasons) }
    ensures within { IfOk result (λ reasons. AreWithin survey.now.fields rows reasons) }
    ensures rising { IfOk result (λ reasons. IsNonDecreasingBy (λ (c : AnyChange). c.record) reasons.changes) }
    ensures fault { IfErr result (λ e. e ≢ ReasonFault.OutOfMemory → IsReasonFault survey.now.fields rows bytes.now e) }
    ensures only { IfOk result (λ reasons. (other : Other) → AreReasons survey.now.fields rows bytes.now other → other ≡ reasons) }
    ensures first { IfErr result (λ e. e ≢ ReasonFault.OutOfMemory
        → (other : ReasonFault) → IsReasonFault survey.now.fields rows bytes.now other → other ≡ e) }
    ensures unread { IfErr result (λ e. e ≢ ReasonFault.OutOfMemory
        → (reasons : Other) → ¬ AreReasons survey.now.fields rows bytes.now reasons) }
{
    read_file(alloc, survey, rows, bytes)
}

// Reads the bytes as a table, compares its header, and reads its lines. The first of these three that fails
// tells the fault. `rows` is how many records the record file has.
fn read_file(
    alloc: Global,
    survey: &Survey,
    rows: u32,
    bytes: &[u8],
) -> Result<Reasons, ReasonFault>
    ensures exact { IfOk result (λ reasons. AreReasons survey.now.fields rows bytes.now reasons) }
    ensures fault { IfErr result (λ e. e ≢ ReasonFault.OutOfMemory → IsReasonFault survey.now.fields rows bytes.now e) }
{
    let table = read_table(alloc, bytes)?;
    if !is_header(table.header()) {
        return Err(ReasonFault::Header);
    }
    read_lines(alloc, survey, rows, table.rows())
}

// What the lines say, each behind the one before it; each has 7 texts. `rows` is how many records the
// record file has. The first faulty line ends the reading, and is told by its number, from 0 behind the
// header.
fn read_lines(
    alloc: Global,
    survey: &Survey,
    rows: u32,
    lines: &[Texts],
) -> Result<Reasons, ReasonFault>
    requires seven { All (λ texts. length texts ≡ 7) lines.now }
    requires few { length lines.now ≤ most_table_rows }
    ensures faultless { IfOk result (λ reasons. lines_fault survey.now.fields rows 0 None lines.now ≡ None) }
    ensures changes { IfOk result (λ reasons. reasons.changes ≡ changes_in survey.now.fields rows lines.now) }
    ensures left_out { IfOk result (λ reasons. reasons.left_out ≡ left_outs_in survey.now.fields rows lines.now) }
    ensures fault { IfErr result (λ e. e ≢ ReasonFault.OutOfMemory → lines_fault survey.now.fields rows 0 None lines.now ≡ Some e) }
{
    let mut changes = Vec::new(alloc);
    let mut left_out = Vec::new(alloc);
    let mut before = None;
    for (line, texts) in lines.iter().enumerate() {
        let entry = match next_entry(survey, rows, before, texts) {
            Ok(entry) => entry,
            Err(fault) => {
                let line = line as u32;
                return Err(ReasonFault::Line { line, fault });
            }
        };
        push_entry(&mut changes, &mut left_out, entry)?;
        before = Some(entry);
    }
    Ok(Reasons {
        changes: Sequence::from_vec(changes),
        left_out: Sequence::from_vec(left_out),
    })
}

// Appends what a line says to its list: to that of the changes, or to that of the records left out.
fn push_entry(
    changes: &mut Vec<Change>,
    left_out: &mut Vec<LeftOut>,
    entry: Entry,
) -> Result<(), OutOfMemory>
    ensures changes { OnOk result (changes.new.items ≡ changes.old.items ++ change_in (Ok entry)) }
    ensures left_out { OnOk result (left_out.new.items ≡ left_out.old.items ++ left_out_in (Ok entry)) }
{
    match entry {
        Entry::Changed(change) => changes.push(change)?,
        Entry::LeftOut(record) => left_out.push(record)?,
    }
    Ok(())
}
