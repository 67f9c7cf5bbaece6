//! The verdicts on the lines of a survey's rules: each is tried against the lines that are left, the last
//! line first. In contracts, `AreNeeded` says that a line kept as needed can fail where the lines left hold.
//! `AreRefuted` says that the steps of a dropped line refute its negation, and `AllFollow` that all lines
//! follow from the kept ones.
ghost use Rattle.std.specs.Prelude.{◌≡◌, ◌<◌, All, IfOk, false, length, slice_set, map};
ghost use Rattle.edit_model.specs.Rows.{IsRow};
ghost use Rattle.derivation.specs.Refutations.{AllFollow, no_values};
ghost use Rattle.edit_line.specs.Lines.{AreOver, IsLine};
ghost use Rattle.edit_line.specs.Shapes.{shape_of};
ghost use Rattle.redundancy.specs.Verdicts.{AreEqualities, AreNeeded, AreRefuted, keeps_line, verdicts_of};
ghost use Rattle.redundancy.specs.inner.Turns.{IsVerdict};

use crate::base::base_of;
use crate::verdict::{Verdict, Why};
use crate::walk::verdict_of;
use derivation::record_without_values;
use edit_line::Line;
use edit_model::{Row, Survey};
use foundation::OutOfMemory;
use std::alloc::Global;

/// What all lines of one list are tried with: the survey and the lines, the record without values, at which
/// the walk tests lines, and the most work for one line.
#[derive(Clone, Copy)]
struct Task<'a> {
    survey: &'a Survey,
    lines: &'a [Line],
    row: &'a Row,
    budget: u64,
}

/// The verdict on each line, in the order of the lines. They are tried from the last to the first, and an
/// equality is kept. Another line is dropped where the lines that are left then refute its negation, by
/// elimination of all fields. `budget` is the most work that this may take for one line. The lines are over
/// the survey's fields.
pub fn prune(
    alloc: Global,
    survey: &Survey,
    lines: &[Line],
    budget: u64,
) -> Result<Vec<Verdict>, OutOfMemory>
    requires over { AreOver (shape_of survey.now.fields) lines.now }
    ensures exact { IfOk result (λ verdicts. verdicts.items ≡ verdicts_of survey.now lines.now budget) }
    ensures equalities { IfOk result (λ verdicts. AreEqualities lines.now verdicts.items) }
    ensures needed { IfOk result (λ verdicts. AreNeeded survey.now.fields lines.now verdicts.items) }
    ensures steps { IfOk result (λ verdicts. AreRefuted survey.now.fields lines.now verdicts.items) }
    ensures follow { IfOk result (λ verdicts. AllFollow lines.now (map keeps_line verdicts.items)) }
{
    read_lines(lines);
    let row = record_without_values(alloc, survey)?;
    let task = Task {
        survey,
        lines,
        row: &row,
        budget,
    };
    let mut left = vec![in alloc; true; lines.len()]?;
    let mut verdicts = Vec::new(alloc);
    let mut place = lines.len();
    while place > 0 {
        place -= 1;
        let verdict = try_line(alloc, &task, &mut left, place)?;
        verdicts.insert(0, verdict)?;
    }
    let _well_formed = survey.fields(); // read for what it says: each categorical field has a code
    Ok(verdicts)
}

// Does nothing with the lines: its contract says that each is in form, and [`prune`] calls it for its proof.
// In form is a line with a set for each categorical field, a factor for each numerical one, and all numbers in
// range (`IsLine`).
fn read_lines(lines: &[Line])
    ensures { All IsLine lines.now }
{
    for line in lines {
        let _in_form = line.sets();
    }
}

// The verdict on the line at the place, by the other lines that are left. `left` says of each line whether
// it is left; one that is dropped is left no more.
fn try_line(
    alloc: Global,
    task: &Task,
    left: &mut Vec<bool>,
    place: usize,
) -> Result<Verdict, OutOfMemory>
    requires over { AreOver (shape_of task.now.survey.now.fields) task.now.lines.now }
    requires values { task.now.row.now ≡ no_values task.now.survey.now.fields }
    requires row { IsRow task.now.survey.now.fields task.now.row.now }
    requires count { length left.old.items ≡ length task.now.lines.now }
    requires place { place < length task.now.lines.now }
    ensures verdict { IfOk result (λ verdict. IsVerdict
        task.now.survey.now task.now.lines.now task.now.budget place (slice_set left.old.items place false) verdict) }
    ensures left { IfOk result (λ verdict. left.new.items ≡ slice_set left.old.items place (keeps_line verdict)) }
{
    left[place] = false;
    let verdict = verdict_on(alloc, task, left, place)?;
    left[place] = is_kept(&verdict);
    Ok(verdict)
}

// The verdict on the line at the place, by the lines of which `left` says that they are left; it is none of
// these. An equality is kept; of another line the walk tells.
fn verdict_on(
    alloc: Global,
    task: &Task,
    left: &[bool],
    place: usize,
) -> Result<Verdict, OutOfMemory>
    requires over { AreOver (shape_of task.now.survey.now.fields) task.now.lines.now }
    requires values { task.now.row.now ≡ no_values task.now.survey.now.fields }
    requires row { IsRow task.now.survey.now.fields task.now.row.now }
    requires count { length left.now ≡ length task.now.lines.now }
    requires place { place < length task.now.lines.now }
    ensures { IfOk result (λ verdict. IsVerdict task.now.survey.now task.now.lines.now task.now.budget place left.now verdict) }
{
    let _well_formed = task.survey.fields(); // read for what it says
    let lines = task.lines;
    let line = &lines[place];
    if line.relation().is_equal() {
        return Ok(Verdict::Kept(Why::Equality));
    }
    let base = base_of(alloc, lines, left, line)?;
    let verdict = verdict_of(alloc, task.survey, task.row, base, task.budget)?;
    Ok(verdict)
}

// Whether the verdict keeps the line, for whatever reason.
fn is_kept(verdict: &Verdict) -> bool
    ensures { result ≡ keeps_line verdict.now }
{
    match verdict {
        Verdict::Kept(_) => true,
        Verdict::Dropped(_) => false,
    }
}
