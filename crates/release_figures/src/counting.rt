//! The figures of a release, counted from its four parts. In contracts, `AreFigures` says that each
//! figure is what the definitions count. `IsTally` says that for each size that occurs there is one count, by
//! rising size.
ghost use Rattle.std.specs.Prelude.{◌≡◌, IfOk, length};
ghost use Rattle.std.specs.List.Sorted.{IsNonDecreasingBy};
ghost use Rattle.page_counts.specs.Amounts.{IsTally};
ghost use Rattle.page_counts.specs.Donors.{donors_of};
ghost use Rattle.reason_lines.specs.declared.entry.Change.{Change as AnyChange};
ghost use Rattle.release_figures.specs.Figures.{AreFigures, record_counts};
ghost use Rattle.release_figures.specs.Releases.{release_parts, released_numbers};

use crate::fields::{field_counts, fields_by_changes};
use crate::figures::ReleaseFigures;
use crate::release::Release;
use crate::rules::rules_by_breaks;
use crate::values::field_values;
use foundation::{OutOfMemory, Sequence};
use page_counts::{
    RecordCounts, SizeCount, donors, greatest_amounts, record_counts, released_rows, rule_counts,
    tally, weights,
};
use reason_lines::{Change, Reasons};
use std::alloc::Global;

// How many records are told at most, of those whose changes weigh most.
const MOST_TOLD: usize = 20;

/// All that the page of a release says, counted. The changes of its reasons are to stand in the order of their
/// records, by which gifts are counted. The only fault is want of memory.
pub fn figures_of(alloc: Global, release: &Release) -> Result<ReleaseFigures, OutOfMemory>
    requires { IsNonDecreasingBy (λ (c : AnyChange). c.record) release.now.reasons.now.changes }
    ensures { IfOk result (λ figures. AreFigures (release_parts release.now) figures) }
{
    let survey = release.survey;
    let rows = release.records.len();
    let changes = release.reasons.changes.as_slice();
    let released = released_numbers(alloc, release)?;
    let values = field_values(alloc, release, &released)?;
    let fields = field_counts(alloc, survey, changes)?;
    let fields_by_changes = fields_by_changes(alloc, survey, &fields)?;
    let rules = rule_counts(alloc, survey, release.records)?;
    let rules_by_breaks = rules_by_breaks(alloc, survey, &rules)?;
    let weights = weights(alloc, survey, rows, changes)?;
    Ok(ReleaseFigures {
        records: counts_of(alloc, rows, release.reasons)?,
        released: Sequence::from_vec(released),
        fields: Sequence::from_vec(fields),
        fields_by_changes: Sequence::from_vec(fields_by_changes),
        rules: Sequence::from_vec(rules),
        rules_by_breaks: Sequence::from_vec(rules_by_breaks),
        weights: Sequence::from_vec(tally(alloc, &weights)?),
        greatest: Sequence::from_vec(greatest_amounts(alloc, &weights, MOST_TOLD)?),
        gifts: Sequence::from_vec(gift_counts(alloc, rows, changes)?),
        values: Sequence::from_vec(values),
    })
}

// The numbers, from 0, of the records that were released, in order.
fn released_numbers(alloc: Global, release: &Release) -> Result<Vec<u32>, OutOfMemory>
    ensures { IfOk result (λ numbers. numbers.items ≡ released_numbers (release_parts release.now)) }
{
    let rows = release.records.len();
    released_rows(alloc, rows, release.reasons.left_out.as_slice())
}

// How many of `rows` records were clean, changed, and left out by each cause.
fn counts_of(alloc: Global, rows: u32, reasons: &Reasons) -> Result<RecordCounts, OutOfMemory>
    ensures { IfOk result (λ counts. counts ≡ record_counts rows reasons.now) }
{
    record_counts(
        alloc,
        rows,
        reasons.changes.as_slice(),
        reasons.left_out.as_slice(),
    )
}

// For each number of records that some donor gave to, by rising number, how many donors gave to so many.
// `rows` is how many records there are.
fn gift_counts(alloc: Global, rows: u32, changes: &[Change]) -> Result<Vec<SizeCount>, OutOfMemory>
    requires { IsNonDecreasingBy (λ (c : AnyChange). c.record) changes.now }
    ensures { IfOk result (λ counts. IsTally (donors_of rows changes.now) counts.items) }
{
    let donors = donors(alloc, rows, changes)?;
    tally(alloc, &donors)
}
