//! Values for all changed fields of a record, in the reverse of the order in which the fields are
//! eliminated. In contracts, `CanGive` says that the path that changes just these fields is open, and that
//! every rule follows from the edits. `IsImputed` says that the new record has the values that [`give`]
//! tells, and `StopsAtLine` and `StopsAtRule` say where a number first leaves the range. `serves` has the
//! edits whose systems a source gives, and `keeps` the sets of fields whose systems it keeps.
ghost use Rattle.std.specs.Prelude.{◌≡◌, ◌≤◌, [], ℕ, IfOk, length, true, option_copied};
ghost use Rattle.std.specs.Arc.{arc_value};
ghost use Rattle.edit_model.specs.Points.{Point};
ghost use Rattle.edit_line.specs.EditSets.{EditsParts};
ghost use Rattle.edit_paths.specs.Cases.{IsCase, case_of};
ghost use Rattle.back_subst.specs.Allowed.{Completes};
ghost use Rattle.back_subst.specs.Gifts.{CanGive, DiffersThroughout, IsDonorRecord, IsNeeded, hows_of};
ghost use Rattle.back_subst.specs.GiveFaults.{AllHoldAt, AreAllComputed, IsDue, OnBound, OnTest, StopsThere, StopsAtLine, StopsAtRule};
ghost use Rattle.back_subst.specs.Given.{IsImputed};
ghost use Rattle.back_subst.specs.inner.UnderWay.{AreOrders, IsAllGiven, IsGiving};

use crate::blank::blank_fields;
use crate::final_test::test_rules;
use crate::gift::{Gift, GiveFault};
use crate::giving::{give_codes, give_numbers};
use crate::how::how_of_each;
use crate::order::{chosen_backwards, set_of};
use crate::task::Task;
use edit_line::Edits;
use edit_model::{FieldSet, Row, Survey};
use edit_paths::case_known;
use foundation::{OutOfMemory, Sequence, Steps};
use linear_elim::{SystemFault, Systems};
use std::alloc::Global;
use std::sync::Arc;
use std::sync::ledger::Ledger;

/// The record with values at its changed fields, by back substitution (De Waal, Pannekoek and Scholtus 2011,
/// imputation under edit restrictions). A field's target is the donor's value, or 0 or the first code
/// without a donor. The field takes it where some correction has it beside the values kept and given before.
/// Else it takes the nearest number, or the first code, that such a correction has. `Bound` or `Test` where
/// a number of a bound or of the final test leaves the range.
pub fn give<S: Systems, L: Ledger>(
    alloc: Global,
    source: &mut S,
    survey: &Survey,
    edits: &Arc<Edits>,
    row: &Row,
    changed: FieldSet,
    donor: Option<&Row>,
    steps: &mut Steps<L>,
) -> Result<Gift, GiveFault>
    requires path { CanGive survey.now (arc_value edits.now) row.now changed }
    requires donor { IsDonorRecord survey.now (option_copied donor) }
    requires served { S.serves source.old (arc_value edits.now) }
    ensures imputed { IfOk result (λ gift. IsImputed survey.now row.now changed (option_copied donor.entry) gift.row) }
    ensures how { IfOk result (λ gift. gift.how ≡ hows_of survey.now changed (option_copied donor.entry) gift.row) }
    ensures consistent { IfOk result (λ gift. (p : Point) × Completes survey.now gift.row [] p) }
    ensures computed { IfOk result (λ gift. AreAllComputed survey.now (arc_value edits.now) changed (option_copied donor.entry) gift.row) }
    ensures tested { IfOk result (λ gift. AllHoldAt survey.now gift.row) }
    ensures differs { IfOk result (λ gift. IsNeeded survey.now row.now changed
        → DiffersThroughout survey.now row.now changed gift.row) }
    ensures bound { OnBound result
        (λ f line. StopsAtLine survey.now (arc_value edits.now) row.now changed (option_copied donor.entry) f line) }
    ensures test { OnTest result
        (λ rule. StopsAtRule survey.now (arc_value edits.now) row.now changed (option_copied donor.entry) rule) }
    ensures due { IsDue result (λ due. StopsThere survey.now (arc_value edits.now) row.now changed (option_copied donor.entry) due) }
    ensures serves { (e : EditsParts) → S.serves source.old e → S.serves source.new e }
    ensures keeps { (f : ℕ) → S.keeps source.old f ≡ true → S.keeps source.new f ≡ true }
    ensures counts { steps.old ≤ steps.new }
{
    case_known(survey, edits, row);
    let task = Task {
        survey,
        edits,
        row,
        changed,
        donor,
    };
    let new = match impute(alloc, source, &task, steps) {
        Ok(new) => new,
        Err(fault) => return Err(fault),
    };
    match how_of_each(alloc, survey, changed, donor, &new) {
        Ok(how) => Ok(Gift {
            row: new,
            how: Sequence::from_vec(how),
        }),
        Err(OutOfMemory) => Err(GiveFault::OutOfMemory),
    }
}

// The record with values at its changed fields: its codes are given, then its numbers, and each rule is tried
// at it. The faults are those of [`give`].
fn impute<S: Systems, L: Ledger>(
    alloc: Global,
    source: &mut S,
    task: &Task,
    steps: &mut Steps<L>,
) -> Result<Row, GiveFault>
    requires case { IsCase (case_of task.now.survey.now (arc_value task.now.edits.now) task.now.row.now) }
    requires few { length task.now.survey.now.fields ≤ 64 }
    requires path { CanGive task.now.survey.now (arc_value task.now.edits.now) task.now.row.now task.now.changed }
    requires donor { IsDonorRecord task.now.survey.now (option_copied task.now.donor) }
    requires served { S.serves source.old (arc_value task.now.edits.now) }
    ensures given { IfOk result (λ new. IsAllGiven task.now.survey.now (arc_value task.now.edits.now)
        (option_copied task.now.donor) task.now.row.now task.now.changed new) }
    ensures computed { IfOk result (λ new. AreAllComputed task.now.survey.now (arc_value task.now.edits.now)
        task.now.changed (option_copied task.now.donor) new) }
    ensures tested { IfOk result (λ new. AllHoldAt task.now.survey.now new) }
    ensures bound { OnBound result
        (λ f line. StopsAtLine task.now.survey.now (arc_value task.now.edits.now) task.now.row.now task.now.changed
        (option_copied task.now.donor) f line) }
    ensures test { OnTest result
        (λ rule. StopsAtRule task.now.survey.now (arc_value task.now.edits.now) task.now.row.now task.now.changed
        (option_copied task.now.donor) rule) }
    ensures serves { (e : EditsParts) → S.serves source.old e → S.serves source.new e }
    ensures keeps { (f : ℕ) → S.keeps source.old f ≡ true → S.keeps source.new f ≡ true }
    ensures counts { steps.old ≤ steps.new }
{
    let codes = chosen_backwards(alloc, task.survey.codes(), task.changed)?;
    let numbers = chosen_backwards(alloc, task.survey.numbers(), task.changed)?;
    let mut new = with_codes(alloc, source, task, &codes, &numbers, steps)?;
    match give_numbers(alloc, source, task, &numbers, &mut new, steps) {
        Ok(()) => {}
        Err(fault) => return Err(fault),
    }
    match test_rules(task.survey, &new) {
        Ok(()) => Ok(new),
        Err(fault) => Err(fault),
    }
}

// The record with codes at its changed categorical fields, and Bad at the changed numerical ones. `codes`
// and `numbers` are these fields, in the order in which they are given values. Where no categorical field
// is changed, no system is asked for. The system is in range, as the path that changes just these is open.
fn with_codes<S: Systems, L: Ledger>(
    alloc: Global,
    source: &mut S,
    task: &Task,
    codes: &[u32],
    numbers: &[u32],
    steps: &mut Steps<L>,
) -> Result<Row, OutOfMemory>
    requires case { IsCase (case_of task.now.survey.now (arc_value task.now.edits.now) task.now.row.now) }
    requires path { CanGive task.now.survey.now (arc_value task.now.edits.now) task.now.row.now task.now.changed }
    requires donor { IsDonorRecord task.now.survey.now (option_copied task.now.donor) }
    requires served { S.serves source.old (arc_value task.now.edits.now) }
    requires order { (orders : AreOrders task.now.survey.now.fields codes.now numbers.now) × (orders.changed ≡ task.now.changed) }
    ensures given { IfOk result (λ r. IsGiving task.now.survey.now (arc_value task.now.edits.now)
        (option_copied task.now.donor) task.now.row.now codes.now numbers.now r) }
    ensures serves { (e : EditsParts) → S.serves source.old e → S.serves source.new e }
    ensures keeps { (f : ℕ) → S.keeps source.old f ≡ true → S.keeps source.new f ≡ true }
    ensures counts { steps.old ≤ steps.new }
{
    let mut new = blank_fields(alloc, task.survey, task.row, task.changed)?;
    if codes.is_empty() {
        return Ok(new);
    }
    match source.system(alloc, task.edits, set_of(numbers), steps) {
        Ok(held) => {
            give_codes(
                alloc,
                task.survey,
                held.system().lines(),
                codes,
                &mut new,
                task.donor,
            )?;
            Ok(new)
        }
        Err(SystemFault::OutOfMemory) => Err(OutOfMemory),
        Err(SystemFault::Overflow { .. }) => unreachable!(),
    }
}
