//! What the changes of records weigh: the sum of the weights of a record's changed fields.
ghost use Rattle.std.specs.Prelude.{◌≡◌, ◌+◌, ◌^◌, ◌<◌, ◌∷◌, ◌++◌, [], ℕ, All, IfOk, OnOk, if◌then◌else◌, slice_index, slice_set, vec_len};
ghost use Rattle.page_counts.specs.Weights.{field_weight, record_weight, weights_of};

use crate::amounts::Amount;
use crate::marks::changed_marks;
use edit_model::Survey;
use foundation::OutOfMemory;
use reason_lines::Change;
use std::alloc::Global;

/// Those of `rows` records that were changed, by rising number from 0, each with the sum of the weights of its
/// changed fields.
pub fn weights(
    alloc: Global,
    survey: &Survey,
    rows: u32,
    changes: &[Change],
) -> Result<Vec<Amount>, OutOfMemory>
    ensures { IfOk result (λ weights. weights.items ≡ weights_of survey.now.fields rows changes.now) }
{
    let marks = changed_marks(alloc, rows, changes)?;
    let sums = weight_sums(alloc, survey, rows, changes)?;
    let mut weights = Vec::new(alloc);
    for number in 0..rows {
        push_weight(
            &mut weights,
            number,
            marks[number as usize],
            sums[number as usize],
        )?;
    }
    Ok(weights)
}

// For each of `rows` records the sum of the weights of its changed fields: 0 for a record that was not
// changed.
fn weight_sums(
    alloc: Global,
    survey: &Survey,
    rows: u32,
    changes: &[Change],
) -> Result<Vec<u128>, OutOfMemory>
    ensures length { IfOk result (λ sums. vec_len sums ≡ rows) }
    ensures sums { IfOk result (λ sums. (k : ℕ) → k < rows → slice_index sums.items k ≡ record_weight survey.now.fields changes.now k) }
{
    let mut sums = vec![in alloc; 0; rows as usize]?;
    for change in changes {
        add_weight(&mut sums, change.record, field_weight(survey, change.field));
    }
    Ok(sums)
}

// The weight of the field of this number, from 0, and 0 where there is no such field.
fn field_weight(survey: &Survey, field: u32) -> u32
    ensures { result ≡ field_weight survey.now.fields field }
{
    match survey.fields().get(field as usize) {
        Some(field) => field.weight,
        None => 0,
    }
}

// Appends the record `number`, whose changes weigh `size`, where it was changed, and else nothing.
fn push_weight(
    weights: &mut Vec<Amount>,
    number: u32,
    is_changed: bool,
    size: u128,
) -> Result<(), OutOfMemory>
    ensures { OnOk result (weights.new.items ≡ weights.old.items
        ++ (if is_changed then record { number = number; size = size } ∷ [] else [])) }
{
    if is_changed {
        weights.push(Amount { number, size })?;
    }
    Ok(())
}

// Adds a weight to the sum of the record of this number. Nothing is added where `sums` has no such record.
fn add_weight(sums: &mut Vec<u128>, number: u32, weight: u32)
    requires { All (λ sum. sum < 2 ^ 127) sums.old.items }
    ensures { sums.new.items ≡ slice_set sums.old.items number (slice_index sums.old.items number + weight) }
{
    let place = number as usize;
    if place < sums.len() {
        sums[place] += u128::from(weight);
    }
}
