//! The search in each record of a file, by all rules of the survey, and what is printed of it. In
//! contracts, `IsRow` says that a record has for each field a value of its kind, or none. A definition
//! of the name of a function says what that answers.
ghost use Rattle.std.specs.Prelude.{◌≡◌, ◌++◌, ◌<◌, IfOk, OnOk, string_bytes};
ghost use Rattle.std.specs.Arc.{arc_value};
ghost use Rattle.std.specs.List.{AllByRecursion};
ghost use Rattle.edit_model.specs.Rows.{IsRow};
ghost use Rattle.edit_line.specs.Shapes.{shape_of};
ghost use Rattle.edit_normal.specs.RuleEdits.{rule_edits};
ghost use Rattle.edit_paths.specs.Cases.{case_of};
ghost use Rattle.edit_paths.specs.Outcomes.{outcome_of};
ghost use Rattle.search_bench.specs.inner.Texts.{record_line, search_text, word_of};

use bound_cert::Outcome;
use edit_line::Edits;
use edit_model::{Row, Survey};
use edit_normal::rule_edits;
use foundation::{OutOfMemory, Steps};
use linear_elim::Recompute;
use localise_tree::localise;
use record_text::Sheet;
use std::alloc::Global;
use std::marker::Brand;
use std::sync::Arc;
use std::sync::ledger::{Blank, Ledger};

/// The greatest work of the search in one record.
const MOST_WORK: u64 = 1_000_000;

/// A header, and then a line of text for each record, each with its line feed. A line has the record's
/// number, from 1, and the least weight of a change, or why there is none.
pub fn search_text(alloc: Global, survey: &Survey, sheet: &Sheet) -> Result<String, OutOfMemory>
    requires { AllByRecursion (IsRow survey.now.fields) sheet.now.rows }
    ensures { IfOk result (λ text. string_bytes text ≡ search_text survey.now sheet.now.rows) }
{
    let edits = Arc::new(alloc, rule_edits(alloc, survey)?)?;
    let mut text = String::from_str(alloc, "record,weight\n")?;
    for row_no in 0..sheet.len() {
        push_record(alloc, survey, &edits, sheet.row(row_no), row_no, &mut text)?;
    }
    Ok(text)
}

// Searches in one record and appends its line. `row_no` is its number, from 0.
fn push_record(
    alloc: Global,
    survey: &Survey,
    edits: &Arc<Edits>,
    row: &Row,
    row_no: u32,
    text: &mut String,
) -> Result<(), OutOfMemory>
    requires edits { arc_value edits.now ≡ rule_edits survey.now }
    requires row { IsRow survey.now.fields row.now }
    ensures { OnOk result (string_bytes text.new ≡ string_bytes text.old ++ record_line survey.now row_no row.now) }
{
    let outcome = outcome_of(alloc, survey, edits, row, MOST_WORK)?;
    let number = u64::from(row_no) + 1;
    let word = word_of(alloc, &outcome)?;
    text.push_str(format!(in alloc; "{number},{word}\n")?.as_str())?;
    Ok(())
}

// What the search finds of a record with at most the work `budget`, by these edits: a least change, or why
// there is none. The definition of the same name says what that is.
fn outcome_of(
    alloc: Global,
    survey: &Survey,
    edits: &Arc<Edits>,
    row: &Row,
    budget: u64,
) -> Result<Outcome, OutOfMemory>
    requires shape { (arc_value edits.now).shape ≡ shape_of survey.now.fields }
    requires row { IsRow survey.now.fields row.now }
    ensures { IfOk result (λ outcome. outcome ≡ outcome_of (case_of survey.now (arc_value edits.now) row.now) budget) }
{
    counted_outcome::<Brand>(alloc, survey, edits, row, budget, Blank::new(1))
}

// What the search finds of a record with at most the work `budget`. The search counts its steps in a
// ledger, `L`, which contracts alone see. `blank` is of that ledger (`name`, `parts`) and starts the count,
// which nobody reads here.
fn counted_outcome<L: Ledger>(
    alloc: Global,
    survey: &Survey,
    edits: &Arc<Edits>,
    row: &Row,
    budget: u64,
    blank: Blank,
) -> Result<Outcome, OutOfMemory>
    requires name { blank.name ≡ L.name }
    requires parts { blank.parts ≡ L.parts }
    requires counts { 0 < blank.parts }
    requires shape { (arc_value edits.now).shape ≡ shape_of survey.now.fields }
    requires row { IsRow survey.now.fields row.now }
    ensures { IfOk result (λ outcome. outcome ≡ outcome_of (case_of survey.now (arc_value edits.now) row.now) budget) }
{
    let mut steps = Steps::<L>::start(blank);
    localise(
        alloc,
        &mut Recompute,
        survey,
        edits,
        row,
        budget,
        &mut steps,
    )
}

// What is told of a record. It is `clean` for a change of weight 0, and its weight in decimal for any other
// change. Where none was found, it is one word for why.
fn word_of(alloc: Global, outcome: &Outcome) -> Result<String, OutOfMemory>
    ensures { IfOk result (λ word. string_bytes word ≡ word_of outcome.now) }
{
    match outcome {
        Outcome::Change { weight: 0, .. } => Ok(String::from_str(alloc, "clean")?),
        Outcome::Change { weight, .. } => Ok(format!(in alloc; "{weight}")?),
        Outcome::Budget { .. } => Ok(String::from_str(alloc, "budget")?),
        Outcome::Overflow { .. } => Ok(String::from_str(alloc, "overflow")?),
        Outcome::Contradictory { .. } => Ok(String::from_str(alloc, "contradictory")?),
    }
}
