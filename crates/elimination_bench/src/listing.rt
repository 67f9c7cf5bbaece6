//! Generated derivations that the bench has checked: lists of steps over the generated edits, of any
//! length.
ghost use Rattle.std.specs.Prelude.{◌≡◌, ℕ, IfOk, length, map, replicate, string_bytes};
ghost use Rattle.edit_model.specs.Rows.{IsRow};
ghost use Rattle.edit_model.specs.declared.value.Value.TheVariants.{Bad};
ghost use Rattle.edit_line.specs.Lines.{LineParts};
ghost use Rattle.elimination_bench.specs.inner.Listings.{first_refused, generated_lines, step_at, steps_of, verdict_text};

use crate::differences::{Differences, survey_of};
use derivation::{Step, StepsFault, check_steps};
use edit_line::{Edits, Line};
use edit_model::{FieldSet, Row, Survey, Value};
use foundation::OutOfMemory;
use std::alloc::Global;

/// What steps a list has.
#[derive(Clone, Copy)]
pub enum Listing {
    /// Given lines alone, in turn.
    Given,
    /// The first given line, and then the sum of it and the line before, again and again.
    Sums,
}

impl Listing {
    // The step at this place of the list, from 0. There are 992 generated lines, of which `Given` takes
    // one after the other.
    fn step(self, place: u64) -> Step
        ensures { result ≡ step_at self place }
    {
        match self {
            Listing::Given => Step::Given(place % 992),
            Listing::Sums if place == 0 => Step::Given(0),
            Listing::Sums => Step::Combine {
                a: place - 1,
                m: 1,
                b: 0,
                n: 1,
                g: 1,
            },
        }
    }
}

/// A line of text, with its line feed, that says whether a list of `count` steps over the generated
/// edits is accepted. Otherwise it has the place, from 0, of the first step that is refused.
pub fn steps_text(alloc: Global, listing: Listing, count: u64) -> Result<String, OutOfMemory>
    ensures { IfOk result (λ text. string_bytes text ≡ verdict_text count (first_refused listing count)) }
{
    match first_refused(alloc, listing, count)? {
        None => Ok(format!(in alloc; "steps {count} accepted\n")?),
        Some(place) => Ok(format!(in alloc; "steps {count} refused at place {place}\n")?),
    }
}

// The place, from 0, of the first step that is not valid in a list of `count` steps, and None where all
// are.
fn first_refused(alloc: Global, listing: Listing, count: u64) -> Result<Option<u64>, OutOfMemory>
    ensures { IfOk result (λ place. place ≡ first_refused listing count) }
{
    let survey = survey_of(alloc, Differences::Plain.numbers())?;
    let given = generated_lines(alloc)?;
    let usable = vec![in alloc; true; given.len()]?;
    let row = unknown_row(alloc, &survey)?;
    let steps = steps_of(alloc, listing, count)?;
    match check_steps(
        alloc,
        &survey,
        &given,
        &usable,
        &row,
        FieldSet::empty(),
        &steps,
    ) {
        Ok(_) => Ok(None),
        Err(StepsFault::Bad { place }) => Ok(Some(place)),
        Err(StepsFault::OutOfMemory) => Err(OutOfMemory),
    }
}

// The first `count` steps of the listing.
fn steps_of(alloc: Global, listing: Listing, count: u64) -> Result<Vec<Step>, OutOfMemory>
    ensures { IfOk result (λ steps. steps.items ≡ steps_of listing count) }
{
    let mut steps = Vec::new(alloc);
    for place in 0..count {
        steps.push(listing.step(place))?;
    }
    Ok(steps)
}

// The lines of the generated edits over 32 fields.
fn generated_lines(alloc: Global) -> Result<Vec<Line>, OutOfMemory>
    ensures { IfOk result (λ lines. lines.items ≡ generated_lines) }
{
    let edits = Differences::Plain.edits(alloc)?;
    lines_of(alloc, &edits)
}

// Copies of the lines of the edits, in order, without their numbers: the checker of steps takes lines
// alone.
fn lines_of(alloc: Global, edits: &Edits) -> Result<Vec<Line>, OutOfMemory>
    ensures { IfOk result (λ lines. lines.items ≡ map (λ (e : ℕ × LineParts). e.1) edits.now.lines) }
{
    let mut lines = Vec::new(alloc);
    for (_, line) in edits.lines() {
        lines.push(line.copy(alloc)?)?;
    }
    Ok(lines)
}

// A record of the survey without a value at any field. The checker asks for a record; of this one no
// field is kept, so that the steps build on lines alone.
fn unknown_row(alloc: Global, survey: &Survey) -> Result<Row, OutOfMemory>
    ensures row { IfOk result (λ row. IsRow survey.now.fields row) }
    ensures unknown { IfOk result (λ row. row ≡ replicate (length survey.now.fields) Bad) }
{
    let values = vec![in alloc; Value::Bad; survey.fields().len()]?;
    Ok(Row::new(survey, values))
}
