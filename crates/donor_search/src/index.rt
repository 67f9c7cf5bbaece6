//! What a deck keeps beside its donors: slots, which are donors with their buckets at a field, and marks.
//! In contracts, `AllByRecursion HasPlainNumbers` says that all numbers of the sheet are plain; of other sheets no
//! contract says that buckets and marks are right.
ghost use Rattle.std.specs.Prelude.{◌≡◌, ◌++◌, ◌+◌, ◌*◌, ◌<◌, ◌≤◌, ◌^◌, All, IfOk, OnOk, length, map, min, take};
ghost use Rattle.std.specs.List.{AllByRecursion, flat_map};
ghost use Rattle.std.specs.List.Sorted.{IsNonDecreasingBy, IsPermutation};
ghost use Rattle.edit_model.specs.PlainNumbers.{HasPlainNumbers};
ghost use Rattle.edit_model.specs.Rows.{IsRow};
ghost use Rattle.donor_measure.specs.Buckets.{marks_of};
ghost use Rattle.donor_measure.specs.Yardsticks.{IsScale, yardsticks_of};
ghost use Rattle.donor_search.specs.Decks.{AreSlots, slot_first_marks, slot_of};
ghost use Rattle.donor_search.specs.declared.slot.Slot.{Slot as AnySlot};

use crate::slot::Slot;
use donor_measure::{Yardsticks, bucket_no, mark_of};
use edit_model::{Row, Survey};
use foundation::{OutOfMemory, Sequence};
use record_text::Sheet;
use std::alloc::Global;

/// The slots of a field: none where it is categorical, which has no scale. Else they are the donors in the
/// order of their buckets there. The buckets are right where the records' numbers are as small as the
/// numerals of record files spell them (`HasPlainNumbers`).
pub(crate) fn slots_of(
    alloc: Global,
    survey: &Survey,
    sheet: &Sheet,
    donors: &[u32],
    field: u32,
    scale: Option<u64>,
) -> Result<Sequence<Slot>, OutOfMemory>
    requires field { field < length survey.now.fields }
    requires scale { IsScale scale }
    requires rows { AllByRecursion (IsRow survey.now.fields) sheet.now.rows }
    requires donors { All (λ donor. donor < length sheet.now.rows) donors.now }
    ensures slots { IfOk result (λ slots. AllByRecursion HasPlainNumbers sheet.now.rows
        → AreSlots scale sheet.now.rows field donors.now slots) }
    ensures donors { IfOk result (λ slots. All (λ (s : AnySlot). s.donor < length sheet.now.rows) slots) }
{
    let slots = match scale {
        Some(scale) => sorted_slots(alloc, survey, sheet, donors, field, scale)?,
        None => Vec::new(alloc),
    };
    Ok(Sequence::from_vec(slots))
}

// The donors with their buckets at a field of this scale, which is numerical, in the order of the buckets.
// The buckets are right where the records' numbers are as small as the numerals of record files spell them
// (`HasPlainNumbers`).
fn sorted_slots(
    alloc: Global,
    survey: &Survey,
    sheet: &Sheet,
    donors: &[u32],
    field: u32,
    scale: u64,
) -> Result<Vec<Slot>, OutOfMemory>
    requires field { field < length survey.now.fields }
    requires scale { (1 ≤ scale) × (scale ≤ 10 ^ 12) }
    requires rows { AllByRecursion (IsRow survey.now.fields) sheet.now.rows }
    requires donors { All (λ donor. donor < length sheet.now.rows) donors.now }
    ensures same { IfOk result (λ slots. AllByRecursion HasPlainNumbers sheet.now.rows
        → IsPermutation (map (slot_of scale sheet.now.rows field) donors.now) slots.items) }
    ensures order { IfOk result (λ slots. IsNonDecreasingBy (λ (s : AnySlot). s.bucket) slots.items) }
    ensures donors { IfOk result (λ slots. All (λ (s : AnySlot). s.donor < length sheet.now.rows) slots.items) }
{
    let mut slots = row_slots(alloc, survey, sheet, donors, field, scale)?;
    sort(&mut slots);
    Ok(slots)
}

// Puts the slots in the order of their buckets; slots of one bucket come in any order.
fn sort(slots: &mut Vec<Slot>)
    ensures same { IsPermutation slots.old.items slots.new.items }
    ensures order { IsNonDecreasingBy (λ (s : AnySlot). s.bucket) slots.new.items }
{
    slots.sort_unstable_by_key(|slot| slot.bucket);
}

// The donors with their buckets at a field of this scale, which is numerical, in the order of the donors.
// The buckets are right where the records' numbers are as small as the numerals of record files spell them
// (`HasPlainNumbers`).
fn row_slots(
    alloc: Global,
    survey: &Survey,
    sheet: &Sheet,
    donors: &[u32],
    field: u32,
    scale: u64,
) -> Result<Vec<Slot>, OutOfMemory>
    requires field { field < length survey.now.fields }
    requires scale { (1 ≤ scale) × (scale ≤ 10 ^ 12) }
    requires rows { AllByRecursion (IsRow survey.now.fields) sheet.now.rows }
    requires donors { All (λ donor. donor < length sheet.now.rows) donors.now }
    ensures slots { IfOk result (λ slots. AllByRecursion HasPlainNumbers sheet.now.rows
        → slots.items ≡ map (slot_of scale sheet.now.rows field) donors.now) }
    ensures donors { IfOk result (λ slots. All (λ (s : AnySlot). s.donor < length sheet.now.rows) slots.items) }
{
    let mut slots = Vec::with_capacity(alloc, donors.len())?;
    for donor in donors {
        slots.push(slot(survey, sheet, *donor, field, scale))?;
    }
    Ok(slots)
}

// A donor with its bucket at a field of this scale. The bucket is right where the records' numbers are plain
// (`HasPlainNumbers`). The survey stands here for the contract alone.
fn slot(survey: &Survey, sheet: &Sheet, donor: u32, field: u32, scale: u64) -> Slot
    requires field { field < length survey.now.fields }
    requires scale { (1 ≤ scale) × (scale ≤ 10 ^ 12) }
    requires rows { AllByRecursion (IsRow survey.now.fields) sheet.now.rows }
    requires donor { donor < length sheet.now.rows }
    ensures slot { AllByRecursion HasPlainNumbers sheet.now.rows → result ≡ slot_of scale sheet.now.rows field donor }
    ensures donor { result.donor ≡ donor }
{
    let _ = survey;
    Slot {
        bucket: bucket_no(scale, sheet.row(donor).value(field)),
        donor,
    }
}

/// The marks of the donors at the first `most` fields, or at all where there are fewer. They stand one donor
/// after the other, in the order of these slots. They are right where the records' numbers are as small as
/// the numerals of record files spell them (`HasPlainNumbers`).
pub(crate) fn marks_of_slots(
    alloc: Global,
    survey: &Survey,
    sheet: &Sheet,
    slots: &[Slot],
    most: u32,
) -> Result<Vec<u16>, OutOfMemory>
    requires rows { AllByRecursion (IsRow survey.now.fields) sheet.now.rows }
    requires donors { All (λ (s : AnySlot). s.donor < length sheet.now.rows) slots.now }
    ensures size { IfOk result (λ marks. length marks.items ≡ length slots.now * min most (length survey.now.fields)) }
    ensures marks { IfOk result (λ marks. AllByRecursion HasPlainNumbers sheet.now.rows
        → marks.items ≡ flat_map (slot_first_marks most (yardsticks_of survey.now.fields) sheet.now.rows) slots.now) }
{
    let yardsticks = Yardsticks::of(survey);
    let mut marks = Vec::new(alloc);
    for slot in slots {
        push_marks(&mut marks, &yardsticks, most, sheet.row(slot.donor))?;
    }
    Ok(marks)
}

/// Appends the marks of a row at the first `most` fields, or at all where there are fewer: one for each
/// field, in declared order. They are right where the row's numbers are as small as the numerals of record
/// files spell them (`HasPlainNumbers`).
pub(crate) fn push_marks(
    marks: &mut Vec<u16>,
    yardsticks: &Yardsticks,
    most: u32,
    row: &Row,
) -> Result<(), OutOfMemory>
    requires { length yardsticks.now ≡ length row.now }
    ensures size { OnOk result (length marks.new.items ≡ length marks.old.items + min most (length yardsticks.now)) }
    ensures marks { HasPlainNumbers row.now
        → OnOk result (marks.new.items ≡ marks.old.items ++ take most (marks_of yardsticks.now row.now)) }
{
    for field in 0..most.min(yardsticks.count()) {
        marks.push(mark_of(yardsticks.at(field).scale, row.value(field)))?;
    }
    Ok(())
}
