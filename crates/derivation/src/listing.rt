//! Steps each of which proves a line by itself, whatever the record is: as in a table, whose lines all
//! records share. In contracts, `AreLinesOf` says that the lines are those of the steps, and
//! `IsFirstWithoutLine` names the first step that gives none. `no_record` has what such steps may build
//! on.
ghost use Rattle.std.specs.Prelude.{◌≡◌, ◌<◌, ℕ, Err, IfOk, IfNone, IfSome, None, Some, length, option_map, slice_get};
ghost use Rattle.edit_line.specs.Lines.{AreOver, HaveOneShape};
ghost use Rattle.edit_line.specs.Shapes.{shape_of};
ghost use Rattle.derivation.specs.LineLists.{AllFollowFrom, AreLinesOf, IsFirstWithoutLine, line_by, no_record};
ghost use Rattle.foundation.specs.Options.{◌>>?◌};
ghost use Rattle.derivation.specs.Premises.{Premises};
ghost use Rattle.derivation.specs.ValidSteps.{as_line, combined_line, given_line};
ghost use Rattle.derivation.specs.declared.fault.StepsFault.TheVariants.{Bad};

use crate::combining::{Multipliers, combined_lines};
use crate::fault::StepsFault;
use crate::given::usable_line;
use crate::step::Step;
use edit_line::Line;
use edit_model::Survey;
use foundation::OutOfMemory;
use std::alloc::Global;

/// The line of each step, exactly where each is a valid given line or a valid combination of two earlier
/// ones. The given lines are over the survey's fields. Bad comes with the place of the first step that is
/// neither. Each of the lines follows from the usable given ones. The time for each step is in proportion
/// to its line.
pub fn line_list(
    alloc: Global,
    survey: &Survey,
    given: &[Line],
    usable: &[bool],
    steps: &[Step],
) -> Result<Vec<Line>, StepsFault>
    requires lists { length given.now ≡ length usable.now }
    requires over { AreOver (shape_of survey.now.fields) given.now }
    ensures lines { IfOk result (λ lines. AreLinesOf (no_record survey.now given.now usable.now) steps.now lines.items) }
    ensures bad { (place : ℕ) → result ≡ Err (Bad place) → IsFirstWithoutLine (no_record survey.now given.now usable.now) steps.now place }
    ensures named { (place : ℕ) → result ≡ Err (Bad place) → place < length steps.now }
    ensures each { IfOk result (λ lines. length lines.items ≡ length steps.now) }
    ensures follow { IfOk result (λ lines. AllFollowFrom (no_record survey.now given.now usable.now) lines.items) }
    ensures over { IfOk result (λ lines. AreOver (shape_of survey.now.fields) lines.items) }
{
    let mut lines = Vec::with_capacity(alloc, steps.len())?;
    for step in steps {
        let Some(line) = line_of(alloc, given, usable, &lines, step)? else {
            return Err(StepsFault::Bad {
                place: lines.len() as u64,
            });
        };
        lines.push(line)?;
    }
    Ok(lines)
}

// The line that a step proves, from those of the steps before it, or None where the step is not valid
// or makes a box. A table of a proof has lines alone.
fn line_of(
    alloc: Global,
    given: &[Line],
    usable: &[bool],
    lines: &[Line],
    step: &Step,
) -> Result<Option<Line>, OutOfMemory>
    requires lists { length given.now ≡ length usable.now }
    requires one_shape { HaveOneShape lines.now }
    ensures { IfOk result (λ line. (p : Premises) → p.given ≡ given.now → p.usable ≡ usable.now → line ≡ line_by p lines.now step.now) }
{
    match step {
        Step::Given(place) => given_copy(alloc, given, usable, *place),
        Step::Combine { a, m, b, n, g } => {
            let by = Multipliers {
                first: *m,
                second: *n,
                divisor: *g,
            };
            combination(alloc, lines, *a, *b, by)
        }
        Step::Fail(_) | Step::Cover { .. } | Step::Fix { .. } => Ok(None),
    }
}

// A copy of the given line at the place, or None where there is none or it is not usable.
fn given_copy(
    alloc: Global,
    given: &[Line],
    usable: &[bool],
    place: u64,
) -> Result<Option<Line>, OutOfMemory>
    requires { length given.now ≡ length usable.now }
    ensures { IfOk result (λ line. (p : Premises) → p.given ≡ given.now → p.usable ≡ usable.now → line ≡ as_line (given_line p place)) }
{
    match usable_line(given, usable, place) {
        None => Ok(None),
        Some(line) => Ok(Some(line.copy(alloc)?)),
    }
}

// The combination of the lines that the steps at the places `a` and `b` proved. None where one of the
// places is not that of an earlier step, or the lines may not be combined so, as `combined_lines`
// tells.
fn combination(
    alloc: Global,
    lines: &[Line],
    a: u64,
    b: u64,
    by: Multipliers,
) -> Result<Option<Line>, OutOfMemory>
    requires { HaveOneShape lines.now }
    ensures { IfOk result (λ line. line ≡ (slice_get lines.now a >>? (λ s. slice_get lines.now b >>? (λ t.
        as_line (combined_line by.first by.second by.divisor s t))))) }
{
    if a >= lines.len() as u64 || b >= lines.len() as u64 {
        return Ok(None);
    }
    combined_lines(alloc, by, &lines[a as usize], &lines[b as usize])
}
