//! The steps that prove an element of a derived list: each element once, parts before the whole. An
//! element is named by how many lists were derived before its own, and its place there, both from 0. In
//! contracts, `history_of` says how the elements of the lists were made. `maker` has an element as it was
//! made, and `step_number` the number of its step.
ghost use Rattle.std.specs.Prelude.{◌≡◌, IfOk, OnOk, map};
ghost use Rattle.edit_paths.specs.Histories.{maker, step_number, step_parts, with_step_numbers, steps_to, with_proof};
ghost use Rattle.edit_paths.specs.Levels.{history_of};

use crate::levels::{Level, earlier_at, making_at};
use crate::making::Making;
use crate::step_list::StepList;
use derivation::Step;
use foundation::{OutOfMemory, Sequence};
use std::alloc::Global;

/// The steps that prove the line or box at this place of the last list, where each list is derived from the
/// one before it. Each element has one step. Those that it is made of come before it, the first of them
/// first.
pub fn write_steps(
    alloc: Global,
    levels: &[Level],
    place: u64,
) -> Result<Sequence<Step>, OutOfMemory>
    ensures { IfOk result (λ steps. steps ≡ steps_to (history_of levels.now) place) }
{
    let mut done = StepList::new(alloc);
    prove(alloc, levels, place, &mut done)?;
    done.into_steps(alloc)
}

// Appends the steps that prove the element at this place of the last list, but for those that stand in
// `done`. An element that was taken over as it was is proved in the list before. Without lists nothing is
// appended.
fn prove(
    alloc: Global,
    levels: &[Level],
    place: u64,
    done: &mut StepList,
) -> Result<(), OutOfMemory>
    ensures { OnOk result (done.new ≡ with_proof (history_of levels.now) place done.old) }
{
    let Some((level, before)) = levels.split_last() else {
        return Ok(());
    };
    match making_at(alloc, level, place)? {
        Making::Same(earlier) => {
            prove(alloc, before, earlier, done)?;
            Ok(())
        }
        Making::By(step) => {
            let element = (before.len() as u64, place);
            if done.has(element) {
                return Ok(());
            }
            let parts = parts_of(alloc, &step)?;
            for part in &parts {
                prove(alloc, before, *part, done)?;
            }
            let step = with_step_numbers(alloc, before, done, step)?;
            done.push(element, step)?;
            Ok(())
        }
    }
}

// The element at this place of the last list, where it was made: how many lists stand before its own, and
// its place there. An element that was taken over as it was is looked for in the list before. Without lists
// the answer is `(0, place)`.
fn maker(levels: &[Level], place: u64) -> (u64, u64)
    ensures { result ≡ maker (history_of levels.now) place }
{
    let Some((level, before)) = levels.split_last() else {
        return (0, place);
    };
    match earlier_at(level, place) {
        Some(earlier) => maker(before, earlier),
        None => (before.len() as u64, place),
    }
}

/// The places, in the list before, of the elements that a step builds on, in order; none for a given line.
pub fn parts_of(alloc: Global, step: &Step) -> Result<Vec<u64>, OutOfMemory>
    ensures { IfOk result (λ parts. parts.items ≡ step_parts step.now) }
{
    match step {
        Step::Given(_) => Ok(Vec::new(alloc)),
        Step::Combine { a, b, .. } => Ok(vec![in alloc; *a, *b]?),
        Step::Fail(place) => Ok(vec![in alloc; *place]?),
        Step::Cover { parts, .. } => Ok(Vec::from_slice(alloc, parts.as_slice())?),
        Step::Fix { part, .. } => Ok(vec![in alloc; *part]?),
    }
}

// The number, from 0, of the step that proves the element at this place of the last list. By it a step that
// is being written names this element as a part. The element's step stands in `done`, written before.
fn part_number(levels: &[Level], done: &StepList, place: u64) -> u64
    ensures { result ≡ step_number done.now (maker (history_of levels.now) place) }
{
    done.number_of(maker(levels, place))
}

// The numbers of the steps that prove the elements at these places of the last list, as [`part_number`]
// tells each.
fn part_numbers(
    alloc: Global,
    levels: &[Level],
    done: &StepList,
    parts: &[u64],
) -> Result<Vec<u64>, OutOfMemory>
    ensures { IfOk result (λ numbers. numbers.items ≡ map (λ i. step_number done.now (maker (history_of levels.now) i)) parts.now) }
{
    Ok(
        parts
            .iter()
            .map(|part| part_number(levels, done, *part))
            .collect(alloc)?,
    )
}

// The step, where the places of its parts in the last list are replaced by the numbers of the steps that
// prove them. A given line keeps its number.
fn with_step_numbers(
    alloc: Global,
    levels: &[Level],
    done: &StepList,
    step: Step,
) -> Result<Step, OutOfMemory>
    ensures { IfOk result (λ with. with ≡ with_step_numbers (λ i. step_number done.now (maker (history_of levels.now) i)) step) }
{
    match step {
        Step::Given(number) => Ok(Step::Given(number)),
        Step::Combine { a, m, b, n, g } => Ok(Step::Combine {
            a: part_number(levels, done, a),
            m,
            b: part_number(levels, done, b),
            n,
            g,
        }),
        Step::Fail(place) => Ok(Step::Fail(part_number(levels, done, place))),
        Step::Cover { field, parts } => {
            let numbers = part_numbers(alloc, levels, done, parts.as_slice())?;
            Ok(Step::Cover {
                field,
                parts: Sequence::from_vec(numbers),
            })
        }
        Step::Fix { field, part } => Ok(Step::Fix {
            field,
            part: part_number(levels, done, part),
        }),
    }
}
