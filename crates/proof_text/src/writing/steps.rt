//! The lines of steps, appended.
//!
//! `shared` is the number of the lines of the rules, behind which those of a table are numbered. It is None
//! where the file has no table.
//!
//! In contracts, `IsSizedStep` and its like say that each number of the text fits its type, and each list
//! is counted by 64 bits. `StartsWith` says that the text begins as before.
ghost use Rattle.std.specs.Prelude.{◌≡◌, ◌∷◌, ◌++◌, [], Some, codes, length, map, OnErr, OnOk};
ghost use Rattle.std.specs.Fmt.{decimal, signed_decimal};
ghost use Rattle.std.specs.Io.{StartsWith};
ghost use Rattle.derivation.specs.declared.step.Step.TheVariants as step;
ghost use Rattle.bound_cert.specs.Paths.{named};
ghost use Rattle.proof_grammar.specs.Limits.{IsLong};
ghost use Rattle.proof_grammar.specs.ProofLines.{given_words, lines_text, step_line, step_line_in, words_text};
ghost use Rattle.proof_grammar.specs.Sizes.{AreSizedSteps, IsSizedStep, IsWide};
ghost use Rattle.proof_text.specs.inner.Texts.{combine_line, counted_text};

use super::words::{write_all_named, write_count, write_named, write_signed};
use derivation::Step;
use foundation::OutOfMemory;

/// Appends the count of the steps, which ends the line of a head, and their lines.
pub(super) fn write_steps(
    text: &mut Vec<u8>,
    shared: Option<u64>,
    steps: &[Step],
) -> Result<(), OutOfMemory>
    ensures text { OnOk result (text.new.items ≡ text.old.items ++ counted_text (length steps.now) (map (step_line_in shared) steps.now)) }
    ensures sized { OnOk result (AreSizedSteps steps.now) }
{
    write_count(text, steps.len())?;
    for step in steps {
        write_step_in(text, shared, step)?;
        text.push(b'\n')?;
    }
    Ok(())
}

// Appends the words of a step, without a line feed, in a file with a table or without one.
fn write_step_in(text: &mut Vec<u8>, shared: Option<u64>, step: &Step) -> Result<(), OutOfMemory>
    ensures text { OnOk result (text.new.items ≡ text.old.items ++ words_text (step_line_in shared step.now)) }
    ensures sized { OnOk result (IsSizedStep step.now) }
{
    match shared {
        None => append_step(text, step),
        Some(count) => write_beside(text, count, step),
    }
}

// Appends the words of a step, in a file whose table stands behind `count` lines of the rules.
fn write_beside(text: &mut Vec<u8>, count: u64, step: &Step) -> Result<(), OutOfMemory>
    ensures text { OnOk result (text.new.items ≡ text.old.items ++ words_text (step_line_in (Some count) step.now)) }
    ensures sized { OnOk result (IsSizedStep step.now) }
{
    match step {
        Step::Given(place) => write_given(text, count, *place),
        Step::Combine { .. } | Step::Fail(_) | Step::Cover { .. } | Step::Fix { .. } => {
            append_step(text, step)
        }
    }
}

// Appends the words of the given line at `place`: `given` for one of the `count` lines of the rules,
// `shared` for one of the table.
fn write_given(text: &mut Vec<u8>, count: u64, place: u64) -> Result<(), OutOfMemory>
    ensures text { OnOk result (text.new.items ≡ text.old.items ++ words_text (given_words (Some count) place)) }
    ensures sized { OnOk result (IsLong place) }
{
    if place < count {
        text.extend_from_slice(b"given")?;
        write_named(text, place)?;
    } else {
        text.extend_from_slice(b"shared")?;
        write_named(text, place - count)?;
    }
    Ok(())
}

/// Appends the words of a step, as in a proof file without a table. Where memory is refused, the text is as
/// before.
pub fn write_step(text: &mut Vec<u8>, step: &Step) -> Result<(), OutOfMemory>
    ensures text { OnOk result (text.new.items ≡ text.old.items ++ words_text (step_line step.now)) }
    ensures sized { OnOk result (IsSizedStep step.now) }
    ensures refused { OnErr result (text.new.items ≡ text.old.items) }
{
    let before = text.len();
    let written = append_step(text, step);
    if written.is_err() {
        text.truncate(before);
    }
    written
}

// Appends the words of a step, as in a proof file without a table. Where memory is refused, some may stand
// behind what stood before.
fn append_step(text: &mut Vec<u8>, step: &Step) -> Result<(), OutOfMemory>
    ensures text { OnOk result (text.new.items ≡ text.old.items ++ words_text (step_line step.now)) }
    ensures sized { OnOk result (IsSizedStep step.now) }
    ensures begins { StartsWith text.new.items text.old.items }
{
    match step {
        Step::Given(place) => {
            text.extend_from_slice(b"given")?;
            write_named(text, *place)
        }
        Step::Combine { a, m, b, n, g } => write_combine(text, *a, *m, *b, *n, *g),
        Step::Fail(place) => {
            text.extend_from_slice(b"fail")?;
            write_named(text, *place)
        }
        Step::Cover { field, parts } => write_cover(text, *field, parts.as_slice()),
        Step::Fix { field, part } => {
            text.extend_from_slice(b"fix")?;
            write_named(text, *field as u64)?;
            write_named(text, *part)
        }
    }
}

// Appends the words of a step that covers a field by the boxes of the steps `parts`.
fn write_cover(text: &mut Vec<u8>, field: u32, parts: &[u64]) -> Result<(), OutOfMemory>
    ensures text { OnOk result (text.new.items ≡ text.old.items ++ words_text (codes "cover" ∷ named field ∷ map named parts.now)) }
    ensures sized { OnOk result (IsSizedStep (step.Cover field parts.now)) }
    ensures begins { StartsWith text.new.items text.old.items }
{
    text.extend_from_slice(b"cover")?;
    write_named(text, field as u64)?;
    write_all_named(text, parts)?;
    Ok(())
}

// Appends the words of a combination: m times the line of step a and n times that of step b, added and
// divided by g.
fn write_combine(
    text: &mut Vec<u8>,
    a: u64,
    m: i128,
    b: u64,
    n: i128,
    g: i128,
) -> Result<(), OutOfMemory>
    ensures text { OnOk result (text.new.items ≡ text.old.items ++ words_text (combine_line a m b n g)) }
    ensures sized { OnOk result (IsSizedStep (step.Combine a m b n g)) }
    ensures begins { StartsWith text.new.items text.old.items }
{
    text.extend_from_slice(b"combine")?;
    write_multiple(text, a, m)?;
    write_multiple(text, b, n)?;
    write_signed(text, g)?;
    Ok(())
}

// Appends the name of the step at `place`, from 1 in the text, and the `factor` by which its line is
// multiplied.
fn write_multiple(text: &mut Vec<u8>, place: u64, factor: i128) -> Result<(), OutOfMemory>
    ensures text { OnOk result (text.new.items ≡ text.old.items ++ (32 ∷ named place) ++ (32 ∷ signed_decimal factor)) }
    ensures sized { OnOk result (IsLong place × IsWide factor) }
    ensures begins { StartsWith text.new.items text.old.items }
{
    write_named(text, place)?;
    write_signed(text, factor)
}
