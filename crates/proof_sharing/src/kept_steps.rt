//! What a leaf keeps of its steps once the lines that they derive stand in the table.
//!
//! `places` has the place in the table, from 0, of each step of the leaf, and 0 for one that makes a box.
//! `given` is the number of the lines of the rules, before those of the table.
ghost use Rattle.std.specs.Prelude.{◌≡◌, ◌<◌, ◌||◌, ℕ, IfOk, OnOk, Some, None, false, if◌then◌else◌, length, map, slice_index_or};
ghost use Rattle.derivation.specs.SharedLines.{and_kept, fails_at, is_failed, kept_step, last_of, shared_box, shared_line, shared_step};
ghost use Rattle.derivation.specs.declared.step.Step.{Step};

use crate::line_step::number_at;
use derivation::Step;
use foundation::{OutOfMemory, Sequence};
use std::alloc::Global;

/// The steps that are left to a leaf that a line refutes. It is one step alone, which names in the table the
/// last of the leaf's lines, since that is the one that refutes.
pub(crate) fn shared_line(
    alloc: Global,
    given: u64,
    places: &[u64],
) -> Result<Sequence<Step>, OutOfMemory>
    ensures { IfOk result (λ steps. steps ≡ shared_line given places.now) }
{
    let mut steps = Vec::with_capacity(alloc, 1)?;
    steps.push(shared_step(given, last_of(places))?)?;
    Ok(Sequence::from_vec(steps))
}

/// The kept steps of a leaf that a box refutes, in order. They make boxes, or name in the table the lines
/// that become boxes. Lines from which only other lines are derived are left out.
pub(crate) fn shared_box(
    alloc: Global,
    given: u64,
    places: &[u64],
    steps: &[Step],
) -> Result<Sequence<Step>, OutOfMemory>
    ensures { IfOk result (λ kept. kept ≡ shared_box given places.now steps.now) }
{
    let failed = failed_flags(alloc, steps)?;
    let mut new = Vec::with_capacity(alloc, steps.len())?;
    let mut kept = Vec::new(alloc);
    for step in steps {
        let at = new.len();
        let place = number_at(places, at as u64);
        let is_failed = flag_at(failed.as_slice(), at);
        let one = kept_step(alloc, given, is_failed, place, new.as_slice(), step)?;
        new.push(kept.len() as u64)?;
        push_kept(&mut kept, one)?;
    }
    Ok(Sequence::from_vec(kept))
}

// The flag at `place`, from 0, or false where there is none.
fn flag_at(flags: &[bool], place: usize) -> bool
    ensures { result ≡ slice_index_or flags.now place false }
{
    place < flags.len() && flags[place]
}

// Puts the step `one` at the end of `kept`; changes nothing where it is None, since the step is left out.
fn push_kept(kept: &mut Vec<Step>, one: Option<Step>) -> Result<(), OutOfMemory>
    ensures { OnOk result (kept.new.items ≡ and_kept kept.old.items one) }
{
    match one {
        None => Ok(()),
        Some(one) => {
            kept.push(one)?;
            Ok(())
        }
    }
}

// What is kept of a step, if something is. A step that makes a box is kept, with the new places of the
// steps that it names, which `new` has. A step that gives a line is kept only where that becomes a box
// (`failed`). It then names the line at its `place` in the table.
fn kept_step(
    alloc: Global,
    given: u64,
    failed: bool,
    place: u64,
    new: &[u64],
    step: &Step,
) -> Result<Option<Step>, OutOfMemory>
    ensures { IfOk result (λ kept. kept ≡ kept_step given failed place new.now step.now) }
{
    match step {
        Step::Given(_) | Step::Combine { .. } => kept_line(failed, given, place),
        Step::Fail(a) => Ok(Some(Step::Fail(number_at(new, *a)))),
        Step::Cover { field, parts } => Ok(Some(Step::Cover {
            field: *field,
            parts: new_places(alloc, new, parts.as_slice())?,
        })),
        Step::Fix { field, part } => Ok(Some(Step::Fix {
            field: *field,
            part: number_at(new, *part),
        })),
    }
}

// The step that names a line at its `place` in the table, where the line becomes a box (`failed`). None
// for any other line.
fn kept_line(failed: bool, given: u64, place: u64) -> Result<Option<Step>, OutOfMemory>
    ensures { IfOk result (λ kept. kept ≡ (if failed then Some (shared_step given place) else None)) }
{
    if failed {
        Ok(Some(shared_step(given, place)?))
    } else {
        Ok(None)
    }
}

// The new places of the steps at the places `parts`. `new` has the new place of each step before this one,
// and 0 stands for one that it lacks.
fn new_places(alloc: Global, new: &[u64], parts: &[u64]) -> Result<Sequence<u64>, OutOfMemory>
    ensures { IfOk result (λ places. places ≡ map (λ part. slice_index_or new.now part 0) parts.now) }
{
    let mut places = Vec::with_capacity(alloc, parts.len())?;
    for part in parts {
        places.push(number_at(new, *part))?;
    }
    Ok(Sequence::from_vec(places))
}

// The step that names the line at this place of the table, behind the `given` lines of the rules. No memory
// holds a table whose places pass 64 bits, so that case is answered as want of memory.
fn shared_step(given: u64, place: u64) -> Result<Step, OutOfMemory>
    ensures { IfOk result (λ step. step ≡ shared_step given place) }
{
    match given.checked_add(place) {
        None => Err(OutOfMemory),
        Some(name) => Ok(Step::Given(name)),
    }
}

// The last of the numbers, 0 where there is none.
fn last_of(numbers: &[u64]) -> u64
    ensures { result ≡ last_of numbers.now }
{
    match numbers.last() {
        None => 0,
        Some(number) => *number,
    }
}

// For each step whether a `fail` step of the leaf makes a box of its line, so that the line is kept. In the
// contract, `is_failed` says so of the step `i`.
fn failed_flags(alloc: Global, steps: &[Step]) -> Result<Vec<bool>, OutOfMemory>
    ensures long { IfOk result (λ flags. length flags.items ≡ length steps.now) }
    ensures each { IfOk result (λ flags. (i : ℕ) → i < length steps.now → slice_index_or flags.items i false ≡ is_failed steps.now i) }
{
    let mut flags = vec![in alloc; false; steps.len()]?;
    for step in steps {
        mark_failed(&mut flags, step);
    }
    Ok(flags)
}

// Sets the flag of the step whose line becomes a box by this `step`. Any step but `fail` sets none.
fn mark_failed(flags: &mut Vec<bool>, step: &Step)
    ensures long { length flags.new.items ≡ length flags.old.items }
    ensures each { (i : ℕ) → i < length flags.old.items
        → slice_index_or flags.new.items i false ≡ (slice_index_or flags.old.items i false || fails_at i step.now) }
{
    if let Step::Fail(a) = step {
        set_flag(flags, *a);
    }
}

// Sets the flag at `place`, if there is one. `fails_at` says that a `fail` step names that place.
fn set_flag(flags: &mut Vec<bool>, place: u64)
    ensures long { length flags.new.items ≡ length flags.old.items }
    ensures each { (i : ℕ) → i < length flags.old.items
        → slice_index_or flags.new.items i false ≡ (slice_index_or flags.old.items i false || fails_at i (Step.Fail place)) }
{
    if place < flags.len() as u64 {
        flags[place as usize] = true;
    }
}
