//! The steps that prove an element of a derived list: each element once, parts before the whole. An element
//! is named by how many lists were derived before its own, and its place there, both from 0. A slice of
//! lists has the last derived list first. In contracts, the functions of this file stand under their own
//! names; `with_proof` is what `prove` leaves, and `step_number` what `number_of` answers.
ghost use Rattle.std.specs.Prelude.{◌≡◌, IfOk, OnOk, map};
ghost use Rattle.std.specs.List.{position};
ghost use Rattle.edit_paths.specs.Histories.{has_step, is_element, maker, step_number, with_step_numbers, steps_to, with_proof};

use crate::history::History;
use derivation::Step;
use edit_paths::{Making, Written, parts_of};
use foundation::{OutOfMemory, Sequence};
use std::alloc::Global;

/// The steps that prove the element at this place of the last list, a line or a box. Each element that it
/// needs has one step, behind the steps of those that it is made of.
pub(crate) fn write_steps(
    alloc: Global,
    history: &History,
    place: u64,
) -> Result<Sequence<Step>, OutOfMemory>
    ensures { IfOk result (λ steps. steps ≡ steps_to history.now place) }
{
    let mut done = Vec::new(alloc);
    prove(alloc, history.lists(), place, &mut done)?;
    let steps = done.into_iter().map(|one| one.step).collect(alloc)?;
    Ok(Sequence::from_vec(steps))
}

// Appends to `done` the steps that prove the element at this place of the first of the lists, but for those
// that are there already. Each list is derived from the one behind it, so an element that was taken over
// from there is proved there. A place past the end stands for place 0 there.
fn prove(
    alloc: Global,
    lists: &[Sequence<Making>],
    place: u64,
    done: &mut Vec<Written>,
) -> Result<(), OutOfMemory>
    ensures { OnOk result (done.new.items ≡ with_proof lists.now place done.old.items) }
{
    let Some((list, before)) = lists.split_first() else {
        return Ok(());
    };
    match list.as_slice().get(place as usize) {
        None => {
            prove(alloc, before, 0, done)?;
            Ok(())
        }
        Some(Making::Same(earlier)) => {
            prove(alloc, before, *earlier, done)?;
            Ok(())
        }
        Some(Making::By(step)) => {
            let element = (before.len() as u64, place);
            if has_step(done, element) {
                return Ok(());
            }
            let parts = parts_of(alloc, step)?;
            for part in &parts {
                prove(alloc, before, *part, done)?;
            }
            let step = with_step_numbers(alloc, before, done, step)?;
            done.push(Written { element, step })?;
            Ok(())
        }
    }
}

// Whether one of the steps in `done` proves the element, so that none is written again. No memory.
fn has_step(done: &[Written], element: (u64, u64)) -> bool
    ensures { result ≡ has_step element done.now }
{
    done.iter().any(|one| is_element(one.element, element))
}

// Whether both name one element: both numbers are equal, that of the lists before its own and its place
// there. No memory.
fn is_element(first: (u64, u64), second: (u64, u64)) -> bool
    ensures { result ≡ is_element first second }
{
    first.0 == second.0 && first.1 == second.1
}

// The place in `done`, from 0, of the first step that proves the element; None where none does. No memory.
fn first_step(done: &[Written], element: (u64, u64)) -> Option<usize>
    ensures { result ≡ position (λ w. is_element w.element element) done.now }
{
    done.iter().position(|one| is_element(one.element, element))
}

// The number of the element's step, from 0, by which later steps name it. Where it has none, this is the count
// of the steps. No memory.
fn number_of(done: &[Written], element: (u64, u64)) -> u64
    ensures { result ≡ step_number done.now element }
{
    match first_step(done, element) {
        Some(number) => number as u64,
        None => done.len() as u64,
    }
}

// Where the element at this place of the first of the lists was made: how many lists come before that one,
// and the place there. An element that was taken over is looked for in the list behind, from which it was
// taken. A place past the end stands for place 0 there. Without lists the answer is `(0, place)`. No memory.
fn maker(lists: &[Sequence<Making>], place: u64) -> (u64, u64)
    ensures { result ≡ maker lists.now place }
{
    let Some((list, before)) = lists.split_first() else {
        return (0, place);
    };
    match list.as_slice().get(place as usize) {
        None => maker(before, 0),
        Some(Making::Same(earlier)) => maker(before, *earlier),
        Some(Making::By(_)) => (before.len() as u64, place),
    }
}

// The number of the step that proves the element at this place of the first of the lists. That step is in
// `done`, written before the step that names it. No memory.
fn part_number(lists: &[Sequence<Making>], done: &[Written], place: u64) -> u64
    ensures { result ≡ step_number done.now (maker lists.now place) }
{
    number_of(done, maker(lists, place))
}

// The numbers of the steps that prove the elements at these places of the first of the lists, in order.
fn part_numbers(
    alloc: Global,
    lists: &[Sequence<Making>],
    done: &[Written],
    parts: &[u64],
) -> Result<Vec<u64>, OutOfMemory>
    ensures { IfOk result (λ numbers. numbers.items ≡ map (λ i. step_number done.now (maker lists.now i)) parts.now) }
{
    Ok(
        parts
            .iter()
            .map(|part| part_number(lists, done, *part))
            .collect(alloc)?,
    )
}

// A copy of the step, where the places of its parts are replaced by the numbers of the steps that prove them. A
// given line keeps its number.
fn with_step_numbers(
    alloc: Global,
    lists: &[Sequence<Making>],
    done: &[Written],
    step: &Step,
) -> Result<Step, OutOfMemory>
    ensures { IfOk result (λ with. with ≡ with_step_numbers (λ i. step_number done.now (maker lists.now i)) step.now) }
{
    match step {
        Step::Given(number) => Ok(Step::Given(*number)),
        Step::Combine { a, m, b, n, g } => Ok(Step::Combine {
            a: part_number(lists, done, *a),
            m: *m,
            b: part_number(lists, done, *b),
            n: *n,
            g: *g,
        }),
        Step::Fail(place) => Ok(Step::Fail(part_number(lists, done, *place))),
        Step::Cover { field, parts } => {
            let numbers = part_numbers(alloc, lists, done, parts.as_slice())?;
            Ok(Step::Cover {
                field: *field,
                parts: Sequence::from_vec(numbers),
            })
        }
        Step::Fix { field, part } => Ok(Step::Fix {
            field: *field,
            part: part_number(lists, done, *part),
        }),
    }
}
