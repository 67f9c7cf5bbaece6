//! How many records were clean, changed, and left out.
ghost use Rattle.std.specs.Prelude.{◌≡◌, Bool, IfOk, count_by, not};
ghost use Rattle.page_counts.specs.Records.{changed_count, clean_count, is_cause, left_out_count};

use crate::marks::{changed_marks, unclean_marks};
use foundation::OutOfMemory;
use reason_lines::{Cause, Change, LeftOut};
use std::alloc::Global;

/// How many records were clean, how many changed, and how many left out by each cause.
#[derive(Clone, Copy)]
pub struct RecordCounts {
    pub clean: usize,
    pub changed: usize,
    pub budget: usize,
    pub overflow: usize,
    pub contradictory: usize,
    pub no_last: usize,
    pub no_correction: usize,
}

/// How many of `rows` records were clean, changed, and left out by each cause. A record is changed where
/// some change is one of it, and clean where it is neither changed nor left out.
pub fn record_counts(
    alloc: Global,
    rows: u32,
    changes: &[Change],
    left_out: &[LeftOut],
) -> Result<RecordCounts, OutOfMemory>
    ensures clean { IfOk result (λ counts. counts.clean ≡ clean_count rows changes.now left_out.now) }
    ensures changed { IfOk result (λ counts. counts.changed ≡ changed_count rows changes.now) }
    ensures budget { IfOk result (λ counts. counts.budget ≡ left_out_count Cause.Budget left_out.now) }
    ensures overflow { IfOk result (λ counts. counts.overflow ≡ left_out_count Cause.Overflow left_out.now) }
    ensures contradictory { IfOk result (λ counts. counts.contradictory ≡ left_out_count Cause.Contradictory left_out.now) }
    ensures no_last { IfOk result (λ counts. counts.no_last ≡ left_out_count Cause.NoLast left_out.now) }
    ensures no_correction { IfOk result (λ counts. counts.no_correction ≡ left_out_count Cause.NoCorrection left_out.now) }
{
    Ok(RecordCounts {
        clean: clean_count(alloc, rows, changes, left_out)?,
        changed: changed_count(alloc, rows, changes)?,
        budget: left_out_count(Cause::Budget, left_out),
        overflow: left_out_count(Cause::Overflow, left_out),
        contradictory: left_out_count(Cause::Contradictory, left_out),
        no_last: left_out_count(Cause::NoLast, left_out),
        no_correction: left_out_count(Cause::NoCorrection, left_out),
    })
}

// How many of `rows` records were neither changed nor left out.
fn clean_count(
    alloc: Global,
    rows: u32,
    changes: &[Change],
    left_out: &[LeftOut],
) -> Result<usize, OutOfMemory>
    ensures { IfOk result (λ count. count ≡ clean_count rows changes.now left_out.now) }
{
    let marks = unclean_marks(alloc, rows, changes, left_out)?;
    Ok(unmarked_count(&marks))
}

// How many of `rows` records were changed.
fn changed_count(alloc: Global, rows: u32, changes: &[Change]) -> Result<usize, OutOfMemory>
    ensures { IfOk result (λ count. count ≡ changed_count rows changes.now) }
{
    let marks = changed_marks(alloc, rows, changes)?;
    Ok(marked_count(&marks))
}

// How many of the marks are true.
fn marked_count(marks: &[bool]) -> usize
    ensures { result ≡ count_by (λ (mark : Bool). mark) marks.now }
{
    marks.iter().filter(|mark| **mark).count()
}

// How many of the marks are false.
fn unmarked_count(marks: &[bool]) -> usize
    ensures { result ≡ count_by not marks.now }
{
    marks.iter().filter(|mark| !**mark).count()
}

// How many records were left out by this cause.
fn left_out_count(cause: Cause, left_out: &[LeftOut]) -> usize
    ensures { result ≡ left_out_count cause left_out.now }
{
    left_out
        .iter()
        .filter(|left| is_cause(cause, left.cause))
        .count()
}

// Whether two causes are the same.
fn is_cause(cause: Cause, other: Cause) -> bool
    ensures { result ≡ is_cause cause other }
{
    match cause {
        Cause::Budget => matches!(other, Cause::Budget),
        Cause::Overflow => matches!(other, Cause::Overflow),
        Cause::Contradictory => matches!(other, Cause::Contradictory),
        Cause::NoLast => matches!(other, Cause::NoLast),
        Cause::NoCorrection => matches!(other, Cause::NoCorrection),
    }
}
