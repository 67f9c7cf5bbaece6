//! The tests of one field: whether it may have another value than the candidate's. In contracts, `IsTask`
//! says that the task's edits say what the rules say, and that its path is the record's own.
ghost use Rattle.std.specs.Prelude.{◌≡◌, ◌+◌, ◌<◌, ◌≤◌, [], All, IfOk, length};
ghost use Rattle.edit_line.specs.Lines.{IsLine};
ghost use Rattle.edit_line.specs.Shapes.{shape_of};
ghost use Rattle.deduce_fill.specs.Filled.{tested_from, walk_with};
ghost use Rattle.deduce_fill.specs.inner.Tasks.{IsTask, task_case};

use crate::filled::{Filled, Tested};
use crate::task::Task;
use crate::test_line::edits_with;
use edit_line::Line;
use foundation::{OutOfMemory, Sequence, Steps};
use linear_elim::Recompute;
use prefix_walk::{Walk, WalkEnd, walk_along};
use std::alloc::Global;
use std::sync::ledger::Ledger;

/// What the tests of a field find. Each of `lines` makes the value another one, and is tested by a walk over
/// the edits and the line. Where all walks close, the value is forced; at the first that stays open it is
/// not. At a walk that passes the budget, or leaves the range, all is stopped. `tests` and `work` say how
/// many tests and how much work were done for the record before.
pub(crate) fn test_field<L: Ledger>(
    alloc: Global,
    task: &Task,
    lines: &[Line],
    tests: u32,
    work: u64,
    steps: &mut Steps<L>,
) -> Result<Tested, OutOfMemory>
    requires task { IsTask task.now }
    requires lines { All (λ line. IsLine line × (line.shape ≡ shape_of task.now.survey.now.fields)) lines.now }
    requires within { work ≤ task.now.budget }
    requires tests { tests + length lines.now < 1000 }
    ensures exact { IfOk result (λ told. told ≡ tested_from (task_case task.now) task.now.budget tests work [] lines.now) }
    ensures counts { steps.old ≤ steps.new }
{
    let mut proofs = Vec::new(alloc);
    let mut tests = tests;
    let mut spent = work;
    for line in lines {
        tests += 1;
        match walk_with(alloc, task, line, spent, steps)? {
            WalkEnd::Closed { steps: proof, work } => {
                proofs.push(proof)?;
                spent = work;
            }
            WalkEnd::Open { work } => return Ok(Tested::Free { tests, work }),
            WalkEnd::Budget { work } => return Ok(Tested::Stopped(Filled::Budget { work })),
            WalkEnd::Overflow => return Ok(Tested::Stopped(Filled::Overflow { test: tests })),
        }
    }
    Ok(Tested::Closed {
        proofs: Sequence::from_vec(proofs),
        tests,
        work: spent,
    })
}

// What the walk along the record's own path ends in, over the edits and the line, which asks for another value
// at the tested field. `spent` is the work done for the record before.
fn walk_with<L: Ledger>(
    alloc: Global,
    task: &Task,
    line: &Line,
    spent: u64,
    steps: &mut Steps<L>,
) -> Result<WalkEnd, OutOfMemory>
    requires task { IsTask task.now }
    requires line { IsLine line.now }
    requires shape { line.now.shape ≡ shape_of task.now.survey.now.fields }
    requires within { spent ≤ task.now.budget }
    ensures exact { IfOk result (λ end. end ≡ walk_with (task_case task.now) line.now task.now.budget spent) }
    ensures counts { steps.old ≤ steps.new }
{
    let edits = edits_with(alloc, task.survey, task.edits, line)?;
    let walk = Walk {
        survey: task.survey,
        edits: &edits,
        row: task.row,
        path: task.path,
        budget: task.budget,
        spent,
    };
    walk_along(alloc, &mut Recompute, &walk, steps)
}
