//! How often each field was changed, and the order of the fields by that. In contracts, `AreSorted` says that
//! amounts are all these sizes with their numbers, the greatest first.
ghost use Rattle.std.specs.Prelude.{◌≡◌, IfOk, length, map};
ghost use Rattle.std.specs.List.{range_with_len};
ghost use Rattle.release_figures.specs.Figures.{AreSorted, change_total, field_count};

use crate::numbered::sorted_sizes;
use edit_model::Survey;
use foundation::OutOfMemory;
use page_counts::{Amount, FieldCount, field_count};
use reason_lines::Change;
use std::alloc::Global;

/// How often each field was changed, in declared order. Each field looks at each change.
pub(crate) fn field_counts(
    alloc: Global,
    survey: &Survey,
    changes: &[Change],
) -> Result<Vec<FieldCount>, OutOfMemory>
    ensures { IfOk result (λ counts.
        counts.items ≡ map (field_count changes.now) (range_with_len 0 (length survey.now.fields))) }
{
    let fields = survey.fields().len();
    let mut counts = Vec::with_capacity(alloc, fields)?;
    for field in 0..fields as u32 {
        counts.push(count_of(changes, field))?;
    }
    Ok(counts)
}

// How often the field was changed, by how its new value was found.
fn count_of(changes: &[Change], field: u32) -> FieldCount
    ensures { result ≡ field_count changes.now field }
{
    field_count(changes, field)
}

/// The numbers of the fields, from 0, each with how often it was changed. That with the most changes comes
/// first, and of equal ones the earlier. `counts` has those of each field, in declared order.
pub(crate) fn fields_by_changes(
    alloc: Global,
    survey: &Survey,
    counts: &[FieldCount],
) -> Result<Vec<Amount>, OutOfMemory>
    requires { length counts.now ≡ length survey.now.fields }
    ensures { IfOk result (λ amounts. AreSorted (map change_total counts.now) amounts.items) }
{
    let mut totals = Vec::with_capacity(alloc, survey.fields().len())?;
    for count in counts {
        totals.push(change_total(count))?;
    }
    sorted_sizes(alloc, &totals)
}

// How often a field was changed, in whichever way.
fn change_total(count: &FieldCount) -> u128
    ensures { result ≡ change_total count.now }
{
    count.donor as u128 + count.nearest as u128 + count.default as u128
}
