//! The number that is given to a numerical field. In contracts, `number_left` is what the formulas give the
//! field: a number, or the place of the line at which one leaves the range. `serves` has the edits whose
//! systems a source gives, and `keeps` the sets of fields whose systems it keeps.
ghost use Rattle.std.specs.Prelude.{◌≡◌, ◌<◌, ◌≤◌, ◌≢◌, All, Err, IfOk, IfSome, List, Ok, length, option_copied, true, ℕ};
ghost use Rattle.std.specs.Arc.{arc_value};
ghost use Rattle.fraction128.specs.Formulas.{ratio_of};
ghost use Rattle.edit_model.specs.Rows.{IsRow, value_of};
ghost use Rattle.edit_model.specs.declared.value.Value.TheVariants.{Bad};
ghost use Rattle.edit_line.specs.EditSets.{EditsParts};
ghost use Rattle.edit_line.specs.Reductions.{lines_of};
ghost use Rattle.edit_line.specs.Shapes.{IsNumerical, shape_of};
ghost use Rattle.edit_line.specs.declared.derived.Derived as derived;
ghost use Rattle.linear_elim.specs.Systems.{AreNumerical, system_at};
ghost use Rattle.back_subst.specs.GiveFaults.{OnBound};
ghost use Rattle.back_subst.specs.Given.{target_of};
ghost use Rattle.back_subst.specs.NumberWalk.{number_result};
ghost use Rattle.back_subst.specs.inner.Sides.{number_told};
ghost use Rattle.back_subst.specs.inner.Systems.{number_left};
ghost use Rattle.back_subst.specs.declared.gift.GiveFault.TheVariants as fault;

use crate::gift::GiveFault;
use crate::line_bounds::bounds_of;
use crate::task::Task;
use crate::value::{number_of, target_of};
use edit_line::Derived;
use edit_model::{FieldSet, Row, Survey};
use foundation::Steps;
use fraction128::Fraction;
use linear_elim::{SystemFault, Systems};
use std::alloc::Global;
use std::sync::ledger::Ledger;

/// A numerical field to which a number is given, and the numerical fields that are left after it.
#[derive(Clone, Copy)]
pub(crate) struct NextNumber {
    pub(crate) field: u32,
    pub(crate) left: FieldSet,
}

/// The number that is given to the field of `next`, at which the record `row` is Bad. It is the nearest to
/// the target within the bounds of the system of the edits without the fields `next.left`, which come after
/// it. `Bound`, with the field and the place of the line, where a number of a bound leaves the range.
pub(crate) fn number_for<S: Systems, L: Ledger>(
    alloc: Global,
    source: &mut S,
    task: &Task,
    row: &Row,
    next: NextNumber,
    steps: &mut Steps<L>,
) -> Result<Fraction, GiveFault>
    requires shape { (arc_value task.now.edits.now).shape ≡ shape_of task.now.survey.now.fields }
    requires row { IsRow task.now.survey.now.fields row.now }
    requires field { IsNumerical (shape_of task.now.survey.now.fields) next.field }
    requires blank { value_of row.now next.field ≡ Bad }
    requires numerical { AreNumerical (arc_value task.now.edits.now).shape next.left }
    requires served { S.serves source.old (arc_value task.now.edits.now) }
    requires donor { IfSome (option_copied task.now.donor) (λ row. next.field < length row) }
    requires in_range { (lines : List derived.Derived) × (system_at (arc_value task.now.edits.now) next.left ≡ Ok lines) }
    ensures number { IfOk result (λ x. number_left (arc_value task.now.edits.now) next.left row.now next.field
        (target_of (option_copied task.now.donor) next.field) ≡ Ok (ratio_of x)) }
    ensures bound { OnBound result
        (λ f line. (f ≡ next.field) × (number_left (arc_value task.now.edits.now) next.left row.now next.field
        (target_of (option_copied task.now.donor) next.field) ≡ Err line)) }
    ensures test { (rule : ℕ) → result ≢ Err (fault.Test rule) }
    ensures serves { (e : EditsParts) → S.serves source.old e → S.serves source.new e }
    ensures keeps { (f : ℕ) → S.keeps source.old f ≡ true → S.keeps source.new f ≡ true }
    ensures counts { steps.old ≤ steps.new }
{
    let held = match source.system(alloc, task.edits, next.left, steps) {
        Ok(held) => held,
        Err(SystemFault::OutOfMemory) => return Err(GiveFault::OutOfMemory),
        Err(SystemFault::Overflow { .. }) => unreachable!(),
    };
    let target = number_of(&target_of(task.donor, next.field));
    match nearest_of(task.survey, held.system().lines(), row, next.field, target) {
        Ok(x) => Ok(x),
        Err(line) => Err(GiveFault::Bound {
            field: next.field,
            line,
        }),
    }
}

/// The number nearest to the target within the bounds that the lines give to the field, at which the record
/// is Bad. Err has the place of the line at which a number of a bound leaves the range.
pub(crate) fn nearest_of(
    survey: &Survey,
    lines: &[Derived],
    row: &Row,
    field: u32,
    target: Fraction,
) -> Result<Fraction, u64>
    requires shape { All (λ d. d.line.shape ≡ shape_of survey.now.fields) lines.now }
    requires row { IsRow survey.now.fields row.now }
    requires numerical { IsNumerical (shape_of survey.now.fields) field }
    requires blank { value_of row.now field ≡ Bad }
    ensures { number_told result ≡ number_result (lines_of lines.now) row.now field (ratio_of target) }
{
    bounds_of(survey, lines, row, field)?.nearest(target)
}
