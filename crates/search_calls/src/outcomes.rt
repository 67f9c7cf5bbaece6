//! Worked calls on the search: what it finds of a record, as the lines that a proof file has for it. In
//! contracts, `outcome_of` is what the search finds by its definition.
ghost use Rattle.std.specs.Prelude.{◌≡◌, ◌<◌, IfOk};
ghost use Rattle.std.specs.Arc.{arc_value};
ghost use Rattle.edit_line.specs.Shapes.{shape_of};
ghost use Rattle.edit_model.specs.Rows.{IsRow};
ghost use Rattle.edit_paths.specs.Cases.{case_of};
ghost use Rattle.edit_paths.specs.Outcomes.{outcome_of};

use bound_cert::{Outcome, RowProof};
use case_files::spelled_lines;
use edit_line::Edits;
use edit_model::{Row, Survey};
use foundation::{OutOfMemory, Sequence, Steps};
use line_calls::{CallFault, Texts, edits_of};
use linear_elim::Recompute;
use localise_tree::localise;
use proof_text::{Proof, write_proof};
use std::alloc::Global;
use std::marker::Brand;
use std::sync::Arc;
use std::sync::ledger::{Blank, Ledger};

/// How many lines of a proof file stand before those of its records, and behind them.
const BEFORE: usize = 4;

const BEHIND: usize = 2;

/// What is found of a record with at most the work `budget`. The head of the outcome comes first, and
/// then the leaves of its certificate with their steps, all as a proof file has them. Want of memory is
/// the only fault.
pub fn search_told(
    alloc: Global,
    survey: &Survey,
    row: &Row,
    budget: u64,
) -> Result<Texts, CallFault>
    requires { IsRow survey.now.fields row.now }
{
    let edits = edits_of(alloc, survey)?;
    outcome_told(alloc, outcome_of(alloc, survey, &edits, row, budget)?)
}

// The lines of an outcome. A proof file has but one line for a change of weight 0; here its path and its
// leaves are told too. They are written as those of a record without a correction, and then the head is
// replaced.
fn outcome_told(alloc: Global, outcome: Outcome) -> Result<Texts, CallFault> {
    match outcome {
        Outcome::Change {
            path,
            weight: 0,
            cert,
        } => {
            let mut head = String::from_str(alloc, "change 0 ")?.into_bytes();
            path.write(&mut head)?;
            let count = cert.leaves.len();
            head.extend_from_slice(format!(in alloc; " {count}")?.as_bytes())?;
            let mut texts = row_lines(alloc, Outcome::Contradictory { cert })?;
            if let Some(first) = texts.first_mut() {
                *first = head;
            }
            Ok(texts)
        }
        other => row_lines(alloc, other),
    }
}

// The lines that a proof file has for an outcome, without their line feeds. A proof of this one record
// is written, and the lines around the record's are left out.
fn row_lines(alloc: Global, outcome: Outcome) -> Result<Texts, CallFault> {
    let mut rows = Vec::new(alloc);
    rows.push(RowProof {
        outcome,
        gift: None,
    })?;
    let proof = Proof {
        version: 1,
        limit: 1,
        near: 1,
        budget: 1,
        verdicts: Sequence::from_vec(Vec::new(alloc)),
        table: Sequence::from_vec(Vec::new(alloc)),
        rows: Sequence::from_vec(rows),
        claims: Sequence::from_vec(Vec::new(alloc)),
    };
    let lines = spelled_lines(alloc, &write_proof(alloc, &proof)?)?;
    let count = lines.len().saturating_sub(BEHIND);
    Ok(lines.into_iter().take(count).skip(BEFORE).collect(alloc)?)
}

/// What the search by these edits finds of a record with at most the work `budget`. It is a change, or
/// that there is none. Or the search ended before, by the budget or the range of numbers.
pub fn outcome_of(
    alloc: Global,
    survey: &Survey,
    edits: &Arc<Edits>,
    row: &Row,
    budget: u64,
) -> Result<Outcome, OutOfMemory>
    requires shape { (arc_value edits.now).shape ≡ shape_of survey.now.fields }
    requires row { IsRow survey.now.fields row.now }
    ensures { IfOk result (λ outcome. outcome ≡ outcome_of (case_of survey.now (arc_value edits.now) row.now) budget) }
{
    counted_outcome::<Brand>(alloc, survey, edits, row, budget, Blank::new(1))
}

// What [`outcome_of`] answers. `blank` is one of the ledger `L` (`name`, `parts`), and starts a counter
// of steps for this call, which nobody reads.
fn counted_outcome<L: Ledger>(
    alloc: Global,
    survey: &Survey,
    edits: &Arc<Edits>,
    row: &Row,
    budget: u64,
    blank: Blank,
) -> Result<Outcome, OutOfMemory>
    requires name { blank.name ≡ L.name }
    requires parts { blank.parts ≡ L.parts }
    requires counts { 0 < blank.parts }
    requires shape { (arc_value edits.now).shape ≡ shape_of survey.now.fields }
    requires row { IsRow survey.now.fields row.now }
    ensures { IfOk result (λ outcome. outcome ≡ outcome_of (case_of survey.now (arc_value edits.now) row.now) budget) }
{
    let mut steps = Steps::<L>::start(blank);
    localise(
        alloc,
        &mut Recompute,
        survey,
        edits,
        row,
        budget,
        &mut steps,
    )
}
