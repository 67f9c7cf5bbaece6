//! Whether what a proof says of the lines of the rules is right. Each line that it drops follows from
//! those that are left, as steps show that refute its negation.
//!
//! In contracts `IsFaultAt` says that the answer is the first fault, or that there is none. `IsAmong` says
//! that the fault stands on one of the lines of what is checked. `AreOver` says that lines are over the
//! survey's fields. `IsCounted` says that 64 bits count the lines of the proof. `lines` and `left` are the
//! same after each call, unless memory is refused.
ghost use Rattle.std.specs.Prelude.{◌≡◌, ◌<◌, ◌+◌, ◌^◌, IfOk, OnOk, Some, is_none, length, map};
ghost use Rattle.std.specs.List.{flat_map};
ghost use Rattle.edit_model.specs.Rows.{IsRow};
ghost use Rattle.edit_line.specs.Lines.{AreOver};
ghost use Rattle.edit_line.specs.Shapes.{shape_of};
ghost use Rattle.edit_normal.specs.RuleLines.{normal_lines_of};
ghost use Rattle.proof_grammar.specs.ProofLines.{verdict_lines};
ghost use Rattle.cert_check.specs.Dropped.{drop_fault, refutation_fault, rules_fault};
ghost use Rattle.cert_check.specs.inner.Counts.{IsCounted};
ghost use Rattle.cert_check.specs.inner.Parts.{IsApartAt, IsFaultAt, premises_without};
ghost use Rattle.cert_check.specs.inner.RowFaults.{IsAmong};

use crate::line_counts::verdict_line_count;
use derivation::{Step, StepsFault, check_steps, record_without_values};
use edit_line::Line;
use edit_model::{FieldSet, Row, Survey};
use foundation::{OutOfMemory, Sequence};
use proof_text::ProofFile;
use std::alloc::Global;

/// A survey and its record without values, by which refutations are checked: their steps keep no field.
#[derive(Clone, Copy)]
struct EmptyRecord<'a> {
    survey: &'a Survey,
    row: &'a Row,
}

/// The number, from 1, of the first line of the proof at which a verdict on a line of the rules is not right:
/// that of the verdict itself, or of its first step that is not valid. None where all are right. The first
/// verdict stands on line 4, behind the version, the limits and the count of verdicts.
/// `lines` are lent for writing, so that none is copied for each line that is dropped.
pub(crate) fn drop_fault(
    alloc: Global,
    survey: &Survey,
    lines: &mut Vec<Line>,
    proof: &ProofFile,
) -> Result<Option<u64>, OutOfMemory>
    requires counted { IsCounted proof.now }
    requires lines { lines.old.items ≡ normal_lines_of survey.now }
    requires over { AreOver (shape_of survey.now.fields) lines.old.items }
    requires each { length proof.now.verdicts ≡ length lines.old.items }
    ensures found { IfOk result (λ found. found ≡ drop_fault survey.now proof.now) }
    ensures lines { OnOk result (lines.new.items ≡ lines.old.items) }
{
    match verdicts_fault(alloc, survey, lines, proof.verdicts())? {
        Some(offset) => Ok(Some(4 + offset)),
        None => Ok(None),
    }
}

// How many lines behind the line of the first verdict the first fault is, or None. When a line is tried,
// those before it may be used, dropped ones too, and of the later ones those that are kept. So no two
// dropped lines follow from each other alone.
fn verdicts_fault(
    alloc: Global,
    survey: &Survey,
    lines: &mut Vec<Line>,
    verdicts: &[Option<Sequence<Step>>],
) -> Result<Option<u64>, OutOfMemory>
    requires few { length (flat_map verdict_lines verdicts.now) < 2 ^ 64 }
    requires lines { lines.old.items ≡ normal_lines_of survey.now }
    requires over { AreOver (shape_of survey.now.fields) lines.old.items }
    requires each { length verdicts.now ≡ length lines.old.items }
    ensures found { IfOk result (λ found. found ≡ rules_fault survey.now verdicts.now) }
    ensures within { IfOk result (IsAmong (length (flat_map verdict_lines verdicts.now))) }
    ensures lines { OnOk result (lines.new.items ≡ lines.old.items) }
{
    let row = record_without_values(alloc, survey)?;
    let empty = EmptyRecord { survey, row: &row };
    let mut left = kept_flags(alloc, verdicts)?;
    let mut offset = 0;
    for (place, verdict) in verdicts.iter().enumerate() {
        if let Some(behind) = verdict_fault(alloc, &empty, lines, &mut left, place, verdict)? {
            return Ok(Some(offset + behind));
        }
        left[place] = true;
        offset += verdict_line_count(verdict);
    }
    Ok(None)
}

/// For each line of the rules whether the proof keeps it: its verdict is then None.
pub(crate) fn kept_flags(
    alloc: Global,
    verdicts: &[Option<Sequence<Step>>],
) -> Result<Vec<bool>, OutOfMemory>
    ensures { IfOk result (λ flags. flags.items ≡ map is_none verdicts.now) }
{
    let mut flags = Vec::with_capacity(alloc, verdicts.len())?;
    for verdict in verdicts {
        flags.push(verdict.is_none())?;
    }
    Ok(flags)
}

// How many lines behind the verdict's first line its fault is, or None where it is right. `verdict` is on
// the line of the rules at `place`: keeping it is right, and an equality may not be dropped. `left` says
// which lines the refutation may use.
fn verdict_fault(
    alloc: Global,
    empty: &EmptyRecord,
    lines: &mut Vec<Line>,
    left: &mut Vec<bool>,
    place: usize,
    verdict: &Option<Sequence<Step>>,
) -> Result<Option<u64>, OutOfMemory>
    requires row { IsRow empty.now.survey.now.fields empty.now.row.now }
    requires over { AreOver (shape_of empty.now.survey.now.fields) lines.old.items }
    requires each { length left.old.items ≡ length lines.old.items }
    requires place { place < length lines.old.items }
    ensures found { IfOk result (IsFaultAt empty.now.survey.now lines.old.items left.old.items place empty.now.row.now verdict.now) }
    ensures within { IfOk result (IsAmong (length (verdict_lines verdict.now))) }
    ensures lines { OnOk result (lines.new.items ≡ lines.old.items) }
    ensures left { OnOk result (left.new.items ≡ left.old.items) }
{
    match verdict {
        None => Ok(None),
        Some(steps) => {
            if lines[place].relation().is_equal() {
                return Ok(Some(0));
            }
            refutation_fault(alloc, empty, lines, left, place, steps.as_slice())
        }
    }
}

// How many lines behind the verdict's first line the fault is of `steps`, or None. They have to refute the
// line at `place`. The line's negation stands behind the lines while the steps are checked, and is taken
// off again.
fn refutation_fault(
    alloc: Global,
    empty: &EmptyRecord,
    lines: &mut Vec<Line>,
    left: &mut Vec<bool>,
    place: usize,
    steps: &[Step],
) -> Result<Option<u64>, OutOfMemory>
    requires row { IsRow empty.now.survey.now.fields empty.now.row.now }
    requires over { AreOver (shape_of empty.now.survey.now.fields) lines.old.items }
    requires each { length left.old.items ≡ length lines.old.items }
    requires place { place < length lines.old.items }
    requires not_equal { IsApartAt lines.old.items place }
    ensures found { IfOk result (IsFaultAt empty.now.survey.now lines.old.items left.old.items place empty.now.row.now (Some steps.now)) }
    ensures within { IfOk result (IsAmong (1 + length steps.now)) }
    ensures lines { OnOk result (lines.new.items ≡ lines.old.items) }
    ensures left { OnOk result (left.new.items ≡ left.old.items) }
{
    let count = lines.len();
    let mut negation = lines[place].negation(alloc)?;
    lines.append(&mut negation)?;
    left.resize(lines.len(), true)?;
    let found = steps_fault(alloc, empty, lines, left, steps)?;
    lines.truncate(count);
    left.truncate(count);
    Ok(found)
}

// How many lines behind the one that drops a line the first fault of these steps is, or None. It is 0
// where there are no steps, or where some point meets what they prove. `given` has the negation of the
// dropped line last, and `usable` says which lines a step may name.
fn steps_fault(
    alloc: Global,
    empty: &EmptyRecord,
    given: &[Line],
    usable: &[bool],
    steps: &[Step],
) -> Result<Option<u64>, OutOfMemory>
    requires row { IsRow empty.now.survey.now.fields empty.now.row.now }
    requires over { AreOver (shape_of empty.now.survey.now.fields) given.now }
    requires lists { length given.now ≡ length usable.now }
    ensures found { IfOk result (λ found. found
        ≡ refutation_fault (premises_without empty.now.survey.now given.now usable.now empty.now.row.now) steps.now) }
    ensures within { IfOk result (IsAmong (1 + length steps.now)) }
{
    if steps.is_empty() {
        return Ok(Some(0));
    }
    let kept = FieldSet::empty();
    match check_steps(alloc, empty.survey, given, usable, empty.row, kept, steps) {
        Ok(proved) => Ok(if proved.is_absurd() { None } else { Some(0) }),
        Err(StepsFault::Bad { place }) => Ok(Some(place + 1)),
        Err(StepsFault::OutOfMemory) => Err(OutOfMemory),
    }
}
