//! The filling of a record: a walk and a candidate first, and then the tests of each field without a value.
//! In contracts, `IsFilled` says that the answer is the one that the definition has, and `IsOnlyAnswer` that
//! it has no other. `FillsForced`, `HasNoCompletion` and `IsShown` say that just the forced values are
//! filled, that a blocked record has no completion, and that the steps show both.
ghost use Rattle.std.specs.Prelude.{◌≡◌, ◌<◌, ◌≤◌, [], IfOk, length};
ghost use Rattle.std.specs.Arc.{arc_value};
ghost use Rattle.edit_line.specs.EditSets.{SayTheRules, lines_without};
ghost use Rattle.edit_line.specs.Shapes.{shape_of};
ghost use Rattle.edit_model.specs.Rows.{IsRow, value_of};
ghost use Rattle.edit_model.specs.declared.value.Value.TheVariants.{Bad};
ghost use Rattle.prefix_walk.specs.PathWalks.{walk_along};
ghost use Rattle.prefix_walk.specs.declared.walk_end.WalkEnd.TheVariants as walk;
ghost use Rattle.deduce_fill.specs.Filled.{IsCandidate, IsFilled, IsFilledAfter, IsOnlyAnswer, filled_from};
ghost use Rattle.deduce_fill.specs.Laws.{FillsForced, HasNoCompletion, IsShown};
ghost use Rattle.deduce_fill.specs.Tests.{ArePlacedFrom, bad_fields, most_edits};
ghost use Rattle.deduce_fill.specs.inner.Fillings.{TellsTurn};
ghost use Rattle.deduce_fill.specs.inner.Tasks.{IsTask, task_case, task_edits};

use crate::bad_fields::{bad_fields, own_path, set_of};
use crate::field_test::test_field;
use crate::filled::{Filled, Forced, Tested};
use crate::laws::fill_laws;
use crate::task::Task;
use crate::test_line::test_lines_of;
use back_subst::{GiveFault, give};
use edit_line::Edits;
use edit_model::{Row, Survey};
use edit_paths::case_known;
use foundation::{OutOfMemory, Sequence, Steps};
use linear_elim::Recompute;
use prefix_walk::{Walk, WalkEnd, walk_along};
use std::alloc::Global;
use std::sync::Arc;
use std::sync::ledger::Ledger;

/// What becomes of a record whose fields without a value are to be filled (deductive imputation; De Waal,
/// Pannekoek and Scholtus 2011). Such a field takes the value that the rules force, if they force one. A
/// walk along the record's own path shows whether it has a completion. Then each field is tested by whether
/// another value than a candidate's is possible there. The edits are those of all rules, numbered by their
/// places; `budget` is the most work of all walks.
pub fn fill<L: Ledger>(
    alloc: Global,
    survey: &Survey,
    edits: &Arc<Edits>,
    row: &Row,
    budget: u64,
    steps: &mut Steps<L>,
) -> Result<Filled, OutOfMemory>
    requires row { IsRow survey.now.fields row.now }
    requires shape { (arc_value edits.now).shape ≡ shape_of survey.now.fields }
    requires rules { SayTheRules survey.now (arc_value edits.now) }
    requires placed { ArePlacedFrom 0 (arc_value edits.now).lines }
    requires few { length (arc_value edits.now).lines ≤ most_edits }
    ensures exact { IfOk result (λ filled. IsFilled survey.now (arc_value edits.now) row.now budget filled) }
    ensures due { IfOk result (IsOnlyAnswer survey.now (arc_value edits.now) row.now budget) }
    ensures forced { IfOk result (FillsForced survey.now row.now) }
    ensures blocked { IfOk result (HasNoCompletion survey.now row.now) }
    ensures shown { IfOk result (IsShown survey.now (lines_without (arc_value edits.now).lines) row.now) }
    ensures counts { steps.old ≤ steps.new }
{
    fill_laws();
    case_known(survey, edits, row);
    let fields = bad_fields(alloc, survey, row)?;
    if fields.is_empty() {
        return Ok(Filled::Done {
            row: row.copy(alloc)?,
            forced: Sequence::from_vec(Vec::new(alloc)),
        });
    }
    let path = own_path(alloc, survey, row)?;
    let task = Task {
        survey,
        edits,
        row,
        path: &path,
        budget,
    };
    fill_fields(alloc, &task, &fields, steps)
}

// What becomes of a record that has no value at just these fields: the walk along its own path comes first.
// `task` has the record with its edits, its path and the budget (`IsTask`).
fn fill_fields<L: Ledger>(
    alloc: Global,
    task: &Task,
    fields: &[u32],
    steps: &mut Steps<L>,
) -> Result<Filled, OutOfMemory>
    requires task { IsTask task.now }
    requires fields { fields.now ≡ bad_fields task.now.survey.now.fields task.now.row.now }
    ensures exact { IfOk result (IsFilledAfter task.now.survey.now (task_edits task.now) task.now.row.now task.now.budget
        (walk_along (task_case task.now) task.now.path.now task.now.budget 0)) }
    ensures counts { steps.old ≤ steps.new }
{
    let walk = Walk {
        survey: task.survey,
        edits: task.edits,
        row: task.row,
        path: task.path,
        budget: task.budget,
        spent: 0,
    };
    match walk_along(alloc, &mut Recompute, &walk, steps)? {
        WalkEnd::Open { work } => fill_open(alloc, task, fields, work, steps),
        WalkEnd::Closed { steps, .. } => Ok(Filled::Blocked { steps }),
        WalkEnd::Budget { work } => Ok(Filled::Budget { work }),
        WalkEnd::Overflow => Ok(Filled::Overflow { test: 0 }),
    }
}

// What becomes of a record whose own path is open, as a walk of this work found. A candidate is given values
// without a donor, and each field is tested by it. Where a number leaves the range in that giving, the
// answer is the overflow of test 0.
fn fill_open<L: Ledger>(
    alloc: Global,
    task: &Task,
    fields: &[u32],
    work: u64,
    steps: &mut Steps<L>,
) -> Result<Filled, OutOfMemory>
    requires task { IsTask task.now }
    requires fields { fields.now ≡ bad_fields task.now.survey.now.fields task.now.row.now }
    requires walked { walk_along (task_case task.now) task.now.path.now task.now.budget 0 ≡ walk.Open work }
    ensures exact { IfOk result (IsFilledAfter task.now.survey.now (task_edits task.now) task.now.row.now task.now.budget
        (walk.Open work)) }
    ensures counts { steps.old ≤ steps.new }
{
    let bad = set_of(fields);
    match give(
        alloc,
        &mut Recompute,
        task.survey,
        task.edits,
        task.row,
        bad,
        None,
        steps,
    ) {
        Ok(gift) => test_fields(alloc, task, fields, &gift.row, work, steps),
        Err(GiveFault::OutOfMemory) => Err(OutOfMemory),
        Err(GiveFault::Bound { .. }) => Ok(Filled::Overflow { test: 0 }),
        Err(GiveFault::Test { .. }) => Ok(Filled::Overflow { test: 0 }),
    }
}

// What becomes of the record by the tests of all `fields`, those without a value, one after the other.
// `candidate` is the record with values given at these fields, and `work` was done before. The first test that
// stops ends it.
fn test_fields<L: Ledger>(
    alloc: Global,
    task: &Task,
    fields: &[u32],
    candidate: &Row,
    work: u64,
    steps: &mut Steps<L>,
) -> Result<Filled, OutOfMemory>
    requires task { IsTask task.now }
    requires fields { fields.now ≡ bad_fields task.now.survey.now.fields task.now.row.now }
    requires candidate { IsRow task.now.survey.now.fields candidate.now }
    requires within { work ≤ task.now.budget }
    ensures exact { IfOk result (λ filled. filled
        ≡ filled_from (task_case task.now) candidate.now task.now.budget 0 work task.now.row.now [] fields.now) }
    ensures counts { steps.old ≤ steps.new }
{
    let mut filling = Filling {
        row: task.row.copy(alloc)?,
        forced: Vec::new(alloc),
        tests: 0,
        work,
    };
    for field in fields {
        if let Some(answer) = test_next(alloc, task, candidate, *field, &mut filling, steps)? {
            return Ok(answer);
        }
    }
    Ok(Filled::Done {
        row: filling.row,
        forced: Sequence::from_vec(filling.forced),
    })
}

// What was found of the fields so far: the record with the values that are forced, and a list of these.
// `tests` is how many tests this took, and `work` how much work, with that of the first walk.
#[derive(Drop)]
struct Filling {
    row: Row,
    forced: Vec<Forced>,
    tests: u32,
    work: u64,
}

// Tests one field more, and fills it where its value is forced. Then, and where it is not forced, the answer
// is None. Where a test passes the budget or a number leaves the range, it is the record's answer.
fn test_next<L: Ledger>(
    alloc: Global,
    task: &Task,
    candidate: &Row,
    field: u32,
    filling: &mut Filling,
    steps: &mut Steps<L>,
) -> Result<Option<Filled>, OutOfMemory>
    requires task { IsTask task.now }
    requires candidate { IsRow task.now.survey.now.fields candidate.now }
    requires field { field < length task.now.survey.now.fields }
    requires within { filling.old.work ≤ task.now.budget }
    requires tests { filling.old.tests ≤ 256 }
    requires row { IsRow task.now.survey.now.fields filling.old.row }
    ensures turn { IfOk result (TellsTurn (task_case task.now) candidate.now task.now.budget field filling.old filling.new) }
    ensures counts { steps.old ≤ steps.new }
{
    let lines = test_lines_of(alloc, task.survey, candidate, field)?;
    match test_field(alloc, task, &lines, filling.tests, filling.work, steps)? {
        Tested::Closed {
            proofs,
            tests,
            work,
        } => {
            let value = *candidate.value(field);
            filling.row.set(task.survey, field, value);
            filling.forced.push(Forced {
                field,
                value,
                proofs,
            })?;
            filling.tests = tests;
            filling.work = work;
            Ok(None)
        }
        Tested::Free { tests, work } => {
            filling.tests = tests;
            filling.work = work;
            Ok(None)
        }
        Tested::Stopped(answer) => Ok(Some(answer)),
    }
}
