//! Records at which all lines hold: the path that keeps every field is the answer at once, and none of its
//! beginnings is looked into. Below, `source` gives derived systems. In contracts, `serves` has the edits
//! whose systems it gives, and `keeps` the sets of fields whose systems it keeps. `KeepsChange` says that
//! at a change it keeps the system of the changed numerical fields.
ghost use Rattle.std.specs.Prelude.{◌≡◌, ◌≤◌, ◌<◌, ℕ, All, IfOk, IfSome, OnOk, length, true};
ghost use Rattle.std.specs.Arc.{arc_value};
ghost use Rattle.std.specs.List.{list_any};
ghost use Rattle.edit_line.specs.EditSets.{EditsParts};
ghost use Rattle.edit_line.specs.Lines.{HasShape};
ghost use Rattle.edit_line.specs.Sets.{are_codes_in};
ghost use Rattle.edit_line.specs.Shapes.{shape_of};
ghost use Rattle.edit_model.specs.Rows.{IsRow, is_bad};
ghost use Rattle.edit_paths.specs.Cases.{IsCase, case_of};
ghost use Rattle.edit_paths.specs.Outcomes.{outcome_of};
ghost use Rattle.localise_tree.specs.KeptFields.{KeepsChange};
ghost use Rattle.localise_tree.specs.inner.AllKept.{all_hold_at, all_kept, codes_of_row, holds_at, holds_throughout};

use crate::task::Task;
use bound_cert::{Cert, Leaf, LeafWhy, Outcome, Path};
use edit_line::{Derived, Edits, Line, fails, has_code};
use edit_model::{FieldSet, Row, Survey, Value};
use edit_paths::case_known;
use foundation::{OutOfMemory, Sequence, Steps};
use linear_elim::Systems;
use std::alloc::Global;
use std::sync::Arc;
use std::sync::ledger::Ledger;

/// The outcome of a record at which all lines hold, where the budget is above the number of fields:
/// nothing is changed. It is that of the search, whose first paths keep all their fields. None where a
/// line does not hold in range, a value is missing, or the budget is at most the number of fields. Then the
/// search has to tell.
pub(crate) fn find_unchanged<S: Systems, L: Ledger>(
    alloc: Global,
    source: &mut S,
    task: &Task,
    steps: &mut Steps<L>,
) -> Result<Option<Outcome>, OutOfMemory>
    requires row { IsRow task.now.survey.now.fields task.now.row.now }
    requires shape { (arc_value task.now.edits.now).shape ≡ shape_of task.now.survey.now.fields }
    requires served { S.serves source.old (arc_value task.now.edits.now) }
    ensures exact { IfOk result (λ told. IfSome told
        (λ o. o ≡ outcome_of (case_of task.now.survey.now (arc_value task.now.edits.now) task.now.row.now) task.now.budget)) }
    ensures kept { IfOk result (λ told. IfSome told
        (KeepsChange (S.keeps source.new) (case_of task.now.survey.now (arc_value task.now.edits.now) task.now.row.now))) }
    ensures serves { (e : EditsParts) → S.serves source.old e → S.serves source.new e }
    ensures keeps { (f : ℕ) → S.keeps source.old f ≡ true → S.keeps source.new f ≡ true }
    ensures counts { steps.old ≤ steps.new }
{
    case_known(task.survey, task.edits, task.row);
    if task.survey.fields().len() as u64 >= task.budget
        || !holds_throughout(task.survey, task.edits, task.row)
    {
        return Ok(None);
    }
    ask_for_start(alloc, source, task.edits, steps)?;
    Ok(Some(unchanged_outcome(alloc, task.survey.fields().len())?))
}

// Asks the source for the system of no field, and throws it away: so the source keeps it, as `localise`
// promises at each change. No field is eliminated, so no number leaves the range.
fn ask_for_start<S: Systems, L: Ledger>(
    alloc: Global,
    source: &mut S,
    edits: &Arc<Edits>,
    steps: &mut Steps<L>,
) -> Result<(), OutOfMemory>
    requires served { S.serves source.old (arc_value edits.now) }
    ensures kept { OnOk result (S.keeps source.new 0 ≡ true) }
    ensures serves { (e : EditsParts) → S.serves source.old e → S.serves source.new e }
    ensures keeps { (f : ℕ) → S.keeps source.old f ≡ true → S.keeps source.new f ≡ true }
    ensures counts { steps.old ≤ steps.new }
{
    match source.system(alloc, edits, FieldSet::empty(), steps) {
        Ok(_) => Ok(()),
        Err(_) => Err(OutOfMemory),
    }
}

// The outcome that changes none of `count` fields, and weighs 0. Its certificate is one leaf, of the empty
// path: no correction weighs less than 0.
fn unchanged_outcome(alloc: Global, count: usize) -> Result<Outcome, OutOfMemory>
    ensures { IfOk result (λ o. o ≡ all_kept count) }
{
    let path = Path::new(vec![in alloc; false; count]?);
    let mut leaves = Vec::new(alloc);
    leaves.push(Leaf {
        path: Path::new(Vec::new(alloc)),
        why: LeafWhy::Bound,
    })?;
    Ok(Outcome::Change {
        path,
        weight: 0,
        cert: Cert {
            leaves: Sequence::from_vec(leaves),
        },
    })
}

// Whether each field of the record has a value, and all lines of the edits, reduced, hold at it with their sums
// in range. Then nothing has to be searched.
fn holds_throughout(survey: &Survey, edits: &Arc<Edits>, row: &Row) -> bool
    requires case { IsCase (case_of survey.now (arc_value edits.now) row.now) }
    ensures { result ≡ holds_throughout (case_of survey.now (arc_value edits.now) row.now) }
{
    !has_bad(row.values()) && all_hold(survey, edits.reduced(), row)
}

// Whether some of a record's values is `Bad`: a field has no value.
fn has_bad(values: &[Value]) -> bool
    ensures { result ≡ list_any is_bad values.now }
{
    values.iter().any(|value| value.is_bad())
}

// Whether all lines hold at the record, and their sums stay in range.
fn all_hold(survey: &Survey, lines: &[Derived], row: &Row) -> bool
    requires row { IsRow survey.now.fields row.now }
    requires over { All (λ derived. HasShape (shape_of survey.now.fields) derived.line) lines.now }
    ensures { result ≡ all_hold_at row.now lines.now }
{
    lines
        .iter()
        .all(|derived| holds_at(survey, &derived.line, row))
}

// Whether the line holds at the record, and its sum stays in range. Where the linear part fails, the line
// still holds if the record's codes are not in its sets.
fn holds_at(survey: &Survey, line: &Line, row: &Row) -> bool
    requires row { IsRow survey.now.fields row.now }
    requires over { HasShape (shape_of survey.now.fields) line.now }
    ensures { result ≡ holds_at row.now line.now }
{
    match fails(survey, line, row) {
        Ok(true) => !are_codes_in_sets(survey.codes(), line.sets(), row),
        Ok(false) => true,
        Err(_) => false,
    }
}

// Whether the record's code at each of the fields is in that field's set, so that a line with these sets asks
// something of it. A value that is no code counts as code 0. `sets` has one set for each of `fields`.
#[tactic(auto, using(crate::proofs::CodeTests::codes_more, crate::proofs::CodeTests::codes_past))]
fn are_codes_in_sets(fields: &[u32], sets: &[u64], row: &Row) -> bool
    requires count { length sets.now ≡ length fields.now }
    requires places { All (λ f. f < length row.now) fields.now }
    ensures { result ≡ are_codes_in sets.now (codes_of_row fields.now row.now) }
{
    for (place, field) in fields.iter().enumerate() {
        if !has_code(sets[place], row.value(*field).code_number()) {
            return false;
        }
    }
    true
}
