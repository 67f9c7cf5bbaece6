//! Substitution of an equality into the other lines in which a field stands. Places are those in the
//! list that the step takes, from 0.
//!
//! In contracts, `equality_from` has the first equality with the field and its place. `TakesIn` says
//! that what is made is taken in among the kept lines.
ghost use Rattle.std.specs.Prelude.{◌≡◌, ◌+◌, ◌≤◌, IfNone, IfSome, IsSomeAnd, None, OnOk, Some, if◌then◌else◌, true};
ghost use Rattle.std.specs.List.{slice_get};
ghost use Rattle.edit_line.specs.Domains.{domains};
ghost use Rattle.linear_elim.specs.Combinations.{determines};
ghost use Rattle.linear_elim.specs.Steps.{collect, equality_from, made_result, pairs_count, substituted_count, substitutes};
ghost use Rattle.linear_elim.specs.Told.{told_step};
ghost use Rattle.linear_elim.specs.inner.Taken.{TakesIn};
ghost use Rattle.linear_elim.specs.inner.Uppers.{substituted_with};

use crate::column::Column;
use crate::elimination::{Placed, Work, take_combination};
use crate::fault::StepFault;
use crate::step_lines::StepLines;
use edit_line::Line;
use foundation::Steps;
use std::alloc::Global;
use std::sync::ledger::Ledger;

/// The place of the first equality in which the field stands, from 0; None where there is none. No memory.
pub(crate) fn first_equality(given: &StepLines) -> Option<usize>
    ensures some { IfSome result (λ i. IsSomeAnd (slice_get given.now.lines.now i) (λ e.
        equality_from given.now.column.field 0 given.now.lines.now ≡ Some (i, e))) }
    ensures none { IfNone result (equality_from given.now.column.field 0 given.now.lines.now ≡ None) }
{
    for (place, derived) in given.lines.iter().enumerate() {
        if given.column.determines(&derived.line) {
            return Some(place);
        }
    }
    None
}

/// Whether the equality at the place `equality` is substituted into the line `t` at `place`: it is another
/// line, and the field stands in it. No memory.
pub(crate) fn is_substituted(column: &Column, equality: usize, place: usize, t: &Line) -> bool
    requires { t.now.shape ≡ domains column.now.shape }
    ensures { result ≡ substitutes column.now.field equality place t.now }
{
    equality != place && !column.is_flat(t)
}

/// Takes in the substitutions of the first equality with the field, which stands at the place, into each
/// other line that has it. Each is written into the line of the work, and one step is counted for it.
pub(crate) fn take_substitutions<L: Ledger>(
    alloc: Global,
    given: &StepLines,
    place: usize,
    work: &mut Work,
    steps: &mut Steps<L>,
) -> Result<(), StepFault>
    requires first { IsSomeAnd (slice_get given.now.lines.now place) (λ e.
        equality_from given.now.column.field 0 given.now.lines.now ≡ Some (place, e)) }
    requires work_over { work.old.line.shape ≡ domains given.now.column.shape }
    ensures exact { TakesIn told_step work.old.kept work.new.kept result (made_result given.now.lines.now given.now.column.field) }
    ensures counted { OnOk result (steps.new ≡ steps.old + pairs_count given.now.lines.now given.now.column.field) }
    ensures few { steps.new ≤ steps.old + pairs_count given.now.lines.now given.now.column.field }
    ensures counts { steps.old ≤ steps.new }
{
    match given.lines.get(place) {
        None => Ok(()),
        Some(derived) => {
            let e = Placed { place, derived };
            take_each(alloc, given, e, work, steps)
        }
    }
}

// Takes in the substitutions of the equality `e` into each other line with the field.
fn take_each<L: Ledger>(
    alloc: Global,
    given: &StepLines,
    e: Placed,
    work: &mut Work,
    steps: &mut Steps<L>,
) -> Result<(), StepFault>
    requires equality { determines given.now.column.field e.derived.now.line ≡ true }
    requires e_over { e.derived.now.line.shape ≡ domains given.now.column.shape }
    requires work_over { work.old.line.shape ≡ domains given.now.column.shape }
    ensures exact { TakesIn told_step work.old.kept work.new.kept result
        (collect (substituted_with given.now.column.field e.entry) 0 given.now.lines.now) }
    ensures counted { OnOk result (steps.new ≡ steps.old + substituted_count given.now.column.field e.entry.place 0 given.now.lines.now) }
    ensures few { steps.new ≤ steps.old + substituted_count given.now.column.field e.entry.place 0 given.now.lines.now }
    ensures counts { steps.old ≤ steps.new }
{
    for (place, derived) in given.lines.iter().enumerate() {
        let t = Placed { place, derived };
        take_substitution(alloc, &given.column, e, t, work, steps)?;
    }
    Ok(())
}

// Takes in the substitution of the equality `e` into the line `t`, if that is another line with the field.
// Only then one step is counted.
fn take_substitution<L: Ledger>(
    alloc: Global,
    column: &Column,
    e: Placed,
    t: Placed,
    work: &mut Work,
    steps: &mut Steps<L>,
) -> Result<(), StepFault>
    requires equality { determines column.now.field e.derived.now.line ≡ true }
    requires e_over { e.derived.now.line.shape ≡ domains column.now.shape }
    requires t_over { t.derived.now.line.shape ≡ domains column.now.shape }
    requires work_over { work.old.line.shape ≡ domains column.now.shape }
    ensures exact { TakesIn told_step work.old.kept work.new.kept result
        (substituted_with column.now.field e.entry t.entry.place t.entry.derived.now) }
    ensures counted { steps.new
        ≡ steps.old + (if substitutes column.now.field e.entry.place t.entry.place t.entry.derived.now.line then 1 else 0) }
    ensures over { work.new.line.shape ≡ work.old.line.shape }
{
    if !is_substituted(column, e.place, t.place, &t.derived.line) {
        return Ok(());
    }
    steps.tick();
    let _whole = e.derived.line.sets(); // read for what it says
    let _fit = t.derived.line.sets(); // read for what it says
    take_combination(alloc, column, e, t, work)
}
