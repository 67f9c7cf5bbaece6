//! What is made of the records of a panel. Each is joined with its row of the last period and corrected,
//! and what becomes of it is told. In contracts, `IsPanelRelease` says that each record has an answer, and
//! that the files and the summary tell just these. `TellsNone` and `TellsTo` say so before the first record and
//! behind the first ones. `IsRead` says that both files were read with their key, and `IsEnd` that values
//! which a record was given are those of its path.
ghost use Rattle.std.specs.Prelude.{◌≡◌, ◌<◌, ℕ, List, IfOk, OnOk, length, map};
ghost use Rattle.edit_model.specs.Rows.{IsRow};
ghost use Rattle.edit_normal.specs.RuleLines.{normal_lines_of};
ghost use Rattle.record_text.specs.Sheets.{IsSheet};
ghost use Rattle.edit_report.specs.Ends.{IsEnd};
ghost use Rattle.edit_report.specs.Layouts.{IsLayout};
ghost use Rattle.panel_files.specs.LastFields.{AreLastFields, last_fields, own_fields};
ghost use Rattle.panel_release.specs.PanelReleases.{IsAnswerAmong, IsPanelRelease, columns_in, end_of};
ghost use Rattle.panel_release.specs.inner.Panels.{IsRead, both_at, last_row_at};
ghost use Rattle.panel_release.specs.inner.Tellings.{TellsNone, TellsTo};

use crate::panel::Panel;
use crate::told::{AnsweredRecord, Told};
use edit_model::Row;
use edit_normal::{RuleLine, normal_lines};
use edit_report::Layout;
use foundation::{OutOfMemory, Steps};
use panel_files::{both_columns, both_values, last_rows};
use panel_link::{Linked, link};
use std::alloc::Global;
use std::marker::Brand;
use std::sync::ledger::{Blank, Ledger};

/// What is made of the records of a panel.
#[derive(Drop)]
pub struct PanelRelease {
    /// The bytes of the released file: the records that keep or are given values.
    pub released: Vec<u8>,
    /// The bytes of the reasons file: why a field was changed, or a record left out.
    pub reasons: Vec<u8>,
    /// The bytes of the proof.
    pub proof: Vec<u8>,
    /// A line without its line feed: how many records there are, how many are clean, changed and unresolved,
    /// and what the changes weigh together.
    pub summary: Vec<u8>,
    /// Whether no record is unresolved.
    pub whole: bool,
}

/// Corrects each record of the panel, in order, by all rules of the survey, and leaves its last fields
/// alone. `budget` is the most work for each record; one that passes it is unresolved. The only fault is
/// want of memory.
pub fn release_panel(alloc: Global, panel: &Panel, budget: u64) -> Result<PanelRelease, OutOfMemory>
    requires set { AreLastFields panel.now.survey.fields panel.now.set }
    requires own { (bytes : List ℕ) × IsSheet (own_fields panel.now.survey.fields panel.now.set) bytes panel.now.files.own }
    requires last { (bytes : List ℕ) × IsSheet (last_fields panel.now.survey.fields panel.now.set) bytes panel.now.files.last }
    requires own_key { panel.now.files.own_key < length panel.now.files.own.header }
    requires last_key { panel.now.files.last_key < length panel.now.files.last.header }
    ensures released { IfOk result (IsPanelRelease panel.now budget) }
{
    let lines = normal_lines(alloc, panel.survey)?;
    let mut told = Told::start(alloc, panel.own, lines.len(), budget)?;
    tell_rows(alloc, panel, &lines, budget, &mut told)?;
    told.end(alloc)
}

// Tells what becomes of each record of the panel, in order. `lines` are those of all rules.
fn tell_rows(
    alloc: Global,
    panel: &Panel,
    lines: &[RuleLine],
    budget: u64,
    told: &mut Told,
) -> Result<(), OutOfMemory>
    requires read { IsRead panel.now }
    requires lines { map (λ l. l.line) lines.now ≡ normal_lines_of panel.now.survey }
    requires none { TellsNone panel.now.files.own (length lines.now) budget told.old }
    ensures told { OnOk result (TellsTo panel.now budget (length panel.now.files.own.rows) told.new) }
{
    let rows = last_rows(alloc, panel.own, panel.own_key, panel.last, panel.last_key)?;
    let layout = layout_of(alloc, panel)?;
    for row_no in 0..panel.own.len() {
        let answer = answer_at(alloc, panel, rows[row_no as usize], lines, row_no, budget)?;
        let record = AnsweredRecord {
            number: row_no,
            read: panel.own.raw(row_no),
            answer,
        };
        told.tell_record(alloc, panel.survey, &layout, record)?;
    }
    Ok(())
}

// In which columns the fields stand in the rows of the records. The last fields stand in the other file: they
// have a column behind all others, which no row has.
fn layout_of(alloc: Global, panel: &Panel) -> Result<Layout, OutOfMemory>
    requires { IsRead panel.now }
    ensures layout { IfOk result (IsLayout panel.now.survey.fields) }
    ensures width { IfOk result (λ layout. layout.width ≡ length panel.now.files.own.header) }
    ensures columns { IfOk result (λ layout. layout.columns ≡ columns_in panel.now) }
{
    let width = panel.own.header().len();
    let columns = both_columns(
        alloc,
        panel.survey,
        panel.set,
        panel.own.columns(),
        width as u32,
    )?;
    Layout::of_columns(alloc, width, columns)
}

// The values of the record of this number at all fields: its own, and those of its row of the last period.
// That row has the number `last_no`, from 0. Where there is none, the last fields have no value.
fn both_row(
    alloc: Global,
    panel: &Panel,
    last_no: Option<u32>,
    row_no: u32,
) -> Result<Row, OutOfMemory>
    requires read { IsRead panel.now }
    requires last { last_no ≡ last_row_at panel.now row_no }
    requires there { row_no < length panel.now.files.own.rows }
    ensures row { IfOk result (λ row. row ≡ both_at panel.now row_no) }
    ensures is_row { IfOk result (IsRow panel.now.survey.fields) }
{
    let own = panel.own.row(row_no);
    match last_no {
        None => both_values(alloc, panel.survey, panel.set, own, None),
        Some(number) => {
            let last = panel.last.row(number);
            both_values(alloc, panel.survey, panel.set, own, Some(last))
        }
    }
}

// What becomes of the record of this number, by its values and those of its row of the last period, whose
// number is `last_no`. `lines` are those of all rules.
fn answer_at(
    alloc: Global,
    panel: &Panel,
    last_no: Option<u32>,
    lines: &[RuleLine],
    row_no: u32,
    budget: u64,
) -> Result<Linked, OutOfMemory>
    requires read { IsRead panel.now }
    requires last { last_no ≡ last_row_at panel.now row_no }
    requires lines { map (λ l. l.line) lines.now ≡ normal_lines_of panel.now.survey }
    requires there { row_no < length panel.now.files.own.rows }
    ensures answer { IfOk result (IsAnswerAmong panel.now.survey panel.now.set budget (both_at panel.now row_no)) }
    ensures end { IfOk result (λ answer. IsEnd panel.now.survey.fields (end_of answer)) }
{
    let row = both_row(alloc, panel, last_no, row_no)?;
    answer_for::<Brand>(alloc, panel, lines, &row, budget, Blank::new(1))
}

// What becomes of a record of the panel with these values, whose last fields keep theirs. `blank` starts a
// counter of steps for this call, which nobody reads. In the contract, `IsAnswerAmong` says that this is
// the answer, and that what it says of corrections is so and shown.
fn answer_for<L: Ledger>(
    alloc: Global,
    panel: &Panel,
    lines: &[RuleLine],
    row: &Row,
    budget: u64,
    blank: Blank,
) -> Result<Linked, OutOfMemory>
    requires name { blank.name ≡ L.name }
    requires parts { blank.parts ≡ L.parts }
    requires counts { 0 < blank.parts }
    requires lines { map (λ l. l.line) lines.now ≡ normal_lines_of panel.now.survey }
    requires row { IsRow panel.now.survey.fields row.now }
    ensures answer { IfOk result (IsAnswerAmong panel.now.survey panel.now.set budget row.now) }
    ensures end { IfOk result (λ answer. IsEnd panel.now.survey.fields (end_of answer)) }
{
    let fixed = panel.set;
    let mut steps = Steps::<L>::start(blank);
    link(alloc, panel.survey, lines, row, fixed, budget, &mut steps)
}
