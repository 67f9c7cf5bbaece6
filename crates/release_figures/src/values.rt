//! The values of each field in the released records, before and after: as these came, and as they were
//! released. In contracts, `AreFieldValues` says what is counted of one field, and `AreValues` of all.
//! `AreNumberFigures` says what is counted of one column of numbers, and `AreBinsOf` which bins there are.
ghost use Rattle.std.specs.Prelude.{◌≡◌, IfOk};
ghost use Rattle.edit_model.specs.Surveys.{IsKind};
ghost use Rattle.release_figures.specs.Figures.{AreFieldValues, AreNumberFigures, AreValues, beyond_in, counts_in};
ghost use Rattle.release_figures.specs.Releases.{release_parts, released_numbers};
ghost use Rattle.release_figures.specs.inner.Ranges.{AreBinsOf};

use crate::figures::{FieldValues, NumberFigures, NumberValues};
use crate::ranges::bins_of;
use crate::release::Release;
use crate::released::released_values;
use edit_model::{Kind, Value};
use foundation::{OutOfMemory, Sequence};
use page_counts::{
    BinCounts, Bins, bad_count, code_counts, column, histogram, number_count, sum_of,
};
use std::alloc::Global;

/// For each field, in declared order, what is counted of its values in the records of these numbers, as they
/// came, and in the released rows. `numbers` are those of the released records, from 0. Each column is made
/// once, and dropped before the next.
pub(crate) fn field_values(
    alloc: Global,
    release: &Release,
    numbers: &[u32],
) -> Result<Vec<FieldValues>, OutOfMemory>
    requires { numbers.now ≡ released_numbers (release_parts release.now) }
    ensures { IfOk result (λ values. AreValues (release_parts release.now) 0 release.now.survey.now.fields values.items) }
{
    let fields = release.survey.fields();
    let mut values = Vec::with_capacity(alloc, fields.len())?;
    for (number, field) in fields.iter().enumerate() {
        let before = column(alloc, release.records, numbers, number as u32)?;
        let after = released_values(alloc, release.released, &field.kind, number as u32)?;
        values.push(values_of(alloc, &field.kind, &before, &after)?)?;
    }
    Ok(values)
}

// What is counted of a field's values before and after: bins and totals of a numerical field, or the codes
// of a categorical one.
fn values_of(
    alloc: Global,
    kind: &Kind,
    before: &[Value],
    after: &[Value],
) -> Result<FieldValues, OutOfMemory>
    requires { IsKind kind.now }
    ensures { IfOk result (λ values. AreFieldValues kind.now before.now after.now values) }
{
    match kind {
        Kind::Number { .. } => Ok(FieldValues::Numbers {
            numbers: number_values(alloc, before, after)?,
        }),
        Kind::Code { codes } => {
            let codes = codes.len() as u32;
            Ok(FieldValues::Codes {
                before: code_counts(alloc, before, codes)?,
                after: code_counts(alloc, after, codes)?,
            })
        }
    }
}

// What is counted of a numerical field's values before and after, over the same bins.
fn number_values(
    alloc: Global,
    before: &[Value],
    after: &[Value],
) -> Result<NumberValues, OutOfMemory>
    ensures bins { IfOk result (λ values. AreBinsOf before.now after.now values.bins) }
    ensures before { IfOk result (λ values. AreNumberFigures values.bins before.now values.before) }
    ensures after { IfOk result (λ values. AreNumberFigures values.bins after.now values.after) }
{
    let bins = bins_of(before, after);
    Ok(NumberValues {
        bins,
        before: number_figures(alloc, bins, before)?,
        after: number_figures(alloc, bins, after)?,
    })
}

// What is counted of a numerical field's values, before or after: how many each bin has, and the totals. The
// sum is None where a number on the way to it leaves 128 bits.
fn number_figures(
    alloc: Global,
    bins: Option<Bins>,
    values: &[Value],
) -> Result<NumberFigures, OutOfMemory>
    ensures { IfOk result (λ figures. AreNumberFigures bins values.now figures) }
{
    let found = counts_in(alloc, bins, values)?;
    Ok(NumberFigures {
        counts: found.counts,
        beyond: found.beyond,
        none: bad_count(values),
        sum: sum_of(values).ok(),
    })
}

// How many values each bin has, and how many numbers are in no bin. Where there are no bins, these are all
// numbers.
fn counts_in(alloc: Global, bins: Option<Bins>, values: &[Value]) -> Result<BinCounts, OutOfMemory>
    ensures counts { IfOk result (λ found. found.counts ≡ counts_in bins values.now) }
    ensures beyond { IfOk result (λ found. found.beyond ≡ beyond_in bins values.now) }
{
    match bins {
        Some(bins) => histogram(alloc, values, &bins),
        None => Ok(BinCounts {
            counts: Sequence::from_vec(Vec::new(alloc)),
            beyond: number_count(values),
        }),
    }
}
