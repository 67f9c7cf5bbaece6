//! The values that are given to the fields of a record, one after the other: the changed codes, and then the
//! changed numbers. A field is Bad as long as it has no value. In contracts, `GivesNext` and `GivesCodes`
//! say that the fields of the order have these values afterwards. `serves` has the edits whose systems a
//! source gives, and `keeps` the sets of fields whose systems it keeps.
ghost use Rattle.std.specs.Prelude.{◌≡◌, ◌≤◌, ◌≢◌, Err, List, Ok, OnOk, option_copied, reverse, true, ℕ};
ghost use Rattle.std.specs.Arc.{arc_value};
ghost use Rattle.edit_line.specs.EditSets.{EditsParts};
ghost use Rattle.edit_line.specs.Lines.{HaveShape};
ghost use Rattle.edit_line.specs.Reductions.{lines_of};
ghost use Rattle.edit_line.specs.Shapes.{shape_of};
ghost use Rattle.edit_line.specs.declared.derived.Derived as derived;
ghost use Rattle.linear_elim.specs.Systems.{system_of};
ghost use Rattle.back_subst.specs.Gifts.{IsDonorRecord};
ghost use Rattle.back_subst.specs.Given.{target_of};
ghost use Rattle.back_subst.specs.inner.Systems.{start_lines};
ghost use Rattle.back_subst.specs.inner.UnderWay.{AreCodesToGive, AreOrderComputed, AreOrders, GivesCodes};
ghost use Rattle.back_subst.specs.inner.UnderWay.{GivesNext, IsGivingSome, StopsGiving};
ghost use Rattle.back_subst.specs.declared.gift.GiveFault.TheVariants as fault;

use crate::code::code_for;
use crate::gift::GiveFault;
use crate::number::{NextNumber, number_for};
use crate::order::set_of;
use crate::task::Task;
use crate::value::target_of;
use edit_line::Derived;
use edit_model::{Row, Survey, Value};
use foundation::{OutOfMemory, Steps};
use linear_elim::Systems;
use std::alloc::Global;
use std::sync::ledger::Ledger;

/// Gives the record `new` numbers at the fields of the order, at which it is Bad. Each is found in the system
/// of the edits without the fields that come after it, so the values given before count. `Bound`, with the
/// field and the line, where a number of a bound leaves the range; then `new` has the values given so far.
pub(crate) fn give_numbers<S: Systems, L: Ledger>(
    alloc: Global,
    source: &mut S,
    task: &Task,
    order: &[u32],
    new: &mut Row,
    steps: &mut Steps<L>,
) -> Result<(), GiveFault>
    requires shape { (arc_value task.now.edits.now).shape ≡ shape_of task.now.survey.now.fields }
    requires over { HaveShape (shape_of task.now.survey.now.fields) (start_lines (arc_value task.now.edits.now)) }
    requires served { S.serves source.old (arc_value task.now.edits.now) }
    requires donor { IsDonorRecord task.now.survey.now (option_copied task.now.donor) }
    requires in_range { (lines : List derived.Derived) × (system_of (arc_value task.now.edits.now).lines (reverse order.now) ≡ Ok lines) }
    requires order { (codes : List ℕ) × AreOrders task.now.survey.now.fields codes order.now }
    requires way { IsGivingSome task.now.survey.now (arc_value task.now.edits.now) (option_copied task.now.donor) order.now new.old }
    ensures given { OnOk result
        (GivesNext task.now.survey.now (arc_value task.now.edits.now) (option_copied task.now.donor) order.now new.old new.new) }
    ensures computed { OnOk result (AreOrderComputed (arc_value task.now.edits.now) (option_copied task.now.donor) order.now new.new) }
    ensures bound { StopsGiving result task.now.survey.now (arc_value task.now.edits.now) (option_copied task.now.donor) order.now new.old }
    ensures test { (rule : ℕ) → result ≢ Err (fault.Test rule) }
    ensures serves { (e : EditsParts) → S.serves source.old e → S.serves source.new e }
    ensures keeps { (f : ℕ) → S.keeps source.old f ≡ true → S.keeps source.new f ≡ true }
    ensures counts { steps.old ≤ steps.new }
{
    let mut left = set_of(order);
    for field in order {
        left = left.without(*field);
        let next = NextNumber {
            field: *field,
            left,
        };
        match number_for(alloc, source, task, new, next, steps) {
            Ok(x) => new.set(task.survey, *field, Value::Number(x)),
            Err(fault) => return Err(fault),
        }
    }
    Ok(())
}

/// Gives the record `new` codes at the fields of the order, at which it is Bad, each beside the codes given
/// before it. The target is the donor's code, or the first one without a donor. `lines` is the system
/// without the changed numerical fields.
pub(crate) fn give_codes(
    alloc: Global,
    survey: &Survey,
    lines: &[Derived],
    order: &[u32],
    new: &mut Row,
    donor: Option<&Row>,
) -> Result<(), OutOfMemory>
    requires donor { IsDonorRecord survey.now (option_copied donor) }
    requires ready { AreCodesToGive survey.now (target_of (option_copied donor)) (lines_of lines.now) order.now new.old }
    ensures { OnOk result
        (GivesCodes survey.now (target_of (option_copied donor.entry)) (lines_of lines.now) order.now new.old new.new) }
{
    for field in order {
        let value = target_of(donor, *field);
        let target = value.code_number();
        let code = code_for(alloc, survey, lines, new, *field, target)?;
        new.set(survey, *field, Value::Code(code));
    }
    Ok(())
}
