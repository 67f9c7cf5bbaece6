//! Decks of donors, with what is kept beside them so that the near ones are found without looking at all.
//! Marks and ranges are flat lists here: those of one donor, row or block after those of another. Each has
//! one for each field in declared order, or for each of the first eight.
ghost use Rattle.std.specs.Prelude.{◌≡◌, ℕ, ◌<◌, length, All, IfOk};
ghost use Rattle.std.specs.Arc.{arc_value};
ghost use Rattle.std.specs.List.{AllByRecursion, flat_map};
ghost use Rattle.std.specs.List.Sorted.{IsStrictlyIncreasing};
ghost use Rattle.edit_model.specs.Rows.{IsRow};
ghost use Rattle.edit_model.specs.PlainNumbers.{HasPlainNumbers};
ghost use Rattle.donor_measure.specs.Buckets.{marks_of};
ghost use Rattle.donor_measure.specs.Yardsticks.{yardstick_at, yardsticks_of};
ghost use Rattle.donor_search.specs.Classes.{donors_of_class};
ghost use Rattle.donor_search.specs.CleanRows.{CanAllGive, IsCleanRow, donors_of};
ghost use Rattle.donor_search.specs.Decks.{AreSlots, IsDeckOf, slots_at};
ghost use Rattle.donor_search.specs.declared.slot.Slot.{Slot as AnySlot};

use crate::class::{Class, donor_rows};
use crate::index::{marks_of_slots, slots_of};
use crate::profile::FIRST;
use crate::ranges::{MarkRange, ranges_of};
use crate::row_marks::RowMarks;
use crate::slot::Slot;
use donor_measure::Yardsticks;
use edit_model::Survey;
use foundation::{OutOfMemory, Sequence};
use record_text::Sheet;
use std::alloc::Global;
use std::marker::Model;
use std::sync::Arc;

/// The donors of a sheet, or of one imputation class of it: the numbers of clean rows, in rising order.
/// Beside them it keeps, for each numerical field, the donors in the order of their buckets there. It also
/// keeps marks with their ranges, which tell donors that are far away. Contracts see the lists.
#[derive(Drop)]
pub struct Deck {
    // The donors: the numbers of their rows, in rising order.
    rows: Vec<u32>,
    // For each field its slots: the donors in the order of their buckets there, and none where it is
    // categorical.
    index: Vec<Sequence<Slot>>,
    // The marks of all rows of the sheet, one row after the other.
    marks: Arc<RowMarks>,
    // The first numerical field; the number of fields where there is none.
    first: u32,
    // The marks of the donors, one donor after the other in the order of that field's slots.
    walk_marks: Vec<u16>,
    // The same at the first eight fields alone, or at all where there are fewer.
    first_marks: Vec<u16>,
    // The ranges of these marks, one block after the other, for each whole block of donors in that order.
    ranges: Vec<MarkRange>,
}

impl Model for Deck {
    ghost use Rattle.std.specs.Arc.{arc_value};
    ghost use Rattle.std.specs.List.Sorted.{IsStrictlyIncreasing};
    ghost use Rattle.donor_search.specs.Decks.{DeckParts};

    ghost Value = { DeckParts };

    ghost view = { λ d. record {
      donors = d.rows.items;
      index = d.index.items;
      marks = arc_value d.marks;
      first = d.first;
      walk_marks = d.walk_marks.items;
      first_marks = d.first_marks.items;
      ranges = d.ranges.items;
    } };

    ghost invariant = { λ d. IsStrictlyIncreasing d.rows.items };
}

impl Deck {
    /// The deck of all clean rows of the sheet, which is one of the survey: those without a Bad field at
    /// which every rule holds. The clause `clean` says which list the donors are, and `rows` that each is a
    /// clean row. Where all numbers are plain, a ranking for any kept fields may be asked of the deck
    /// (`CanAllGive`), and what it keeps is right (`IsDeckOf`). Plain are numerators below 10^21 with
    /// denominators of at most 10^6.
    pub fn new(alloc: Global, survey: &Survey, sheet: &Sheet) -> Result<Deck, OutOfMemory>
        requires { AllByRecursion (IsRow survey.now.fields) sheet.now.rows }
        ensures clean { IfOk result (λ deck. deck.donors ≡ donors_of survey.now sheet.now.rows) }
        ensures rows { IfOk result (λ deck. All (IsCleanRow survey.now sheet.now.rows) deck.donors) }
        ensures rising { IfOk result (λ deck. IsStrictlyIncreasing deck.donors) }
        ensures measurable { IfOk result (λ deck. CanAllGive survey.now sheet.now.rows deck.donors) }
        ensures index { IfOk result (λ deck. AllByRecursion HasPlainNumbers sheet.now.rows
            → IsDeckOf (yardsticks_of survey.now.fields) sheet.now.rows deck) }
    {
        let rows = donor_rows(alloc, survey, sheet, None)?;
        let marks = Arc::new(alloc, RowMarks::of(alloc, survey, sheet)?)?;
        deck_of(alloc, survey, sheet, marks, rows)
    }

    /// The deck of the clean rows that have this code at this field: the donors of one imputation class.
    /// There are none where the field is numerical or past the last. `marks` are those of the sheet's rows,
    /// which the decks of all classes share. What the deck may be asked, and what it keeps, is as
    /// [`Deck::new`] says.
    pub fn of_class(
        alloc: Global,
        survey: &Survey,
        sheet: &Sheet,
        marks: &Arc<RowMarks>,
        field: u32,
        code: u8,
    ) -> Result<Deck, OutOfMemory>
        requires rows { AllByRecursion (IsRow survey.now.fields) sheet.now.rows }
        requires marks { AllByRecursion HasPlainNumbers sheet.now.rows
            → arc_value marks.now ≡ flat_map (marks_of (yardsticks_of survey.now.fields)) sheet.now.rows }
        ensures of_class { IfOk result (λ deck. deck.donors ≡ donors_of_class survey.now sheet.now.rows field code) }
        ensures rows { IfOk result (λ deck. All (IsCleanRow survey.now sheet.now.rows) deck.donors) }
        ensures rising { IfOk result (λ deck. IsStrictlyIncreasing deck.donors) }
        ensures measurable { IfOk result (λ deck. CanAllGive survey.now sheet.now.rows deck.donors) }
        ensures index { IfOk result (λ deck. AllByRecursion HasPlainNumbers sheet.now.rows
            → IsDeckOf (yardsticks_of survey.now.fields) sheet.now.rows deck) }
    {
        let class = Class { field, code };
        let rows = donor_rows(alloc, survey, sheet, Some(class))?;
        deck_of(alloc, survey, sheet, Arc::try_clone(marks)?, rows)
    }

    /// The numbers of the donors, in rising order. No memory.
    pub fn rows(&self) -> &[u32]
        ensures rows { result.now ≡ self.now.donors }
        ensures rising { IsStrictlyIncreasing result.now }
    {
        self.rows.as_slice()
    }

    // The slots of a field: the donors by their buckets there. None where the field is categorical or past
    // the last.
    pub(crate) fn slots(&self, field: u32) -> &[Slot]
        ensures { result.now ≡ slots_at self.now.index field }
    {
        slots_in(&self.index, field)
    }

    // The marks of all rows of the sheet, one row after the other, each with one mark for each field.
    #[inline(always)]
    pub(crate) fn marks(&self) -> &[u16]
        ensures { result.now ≡ self.now.marks }
    {
        self.marks.as_slice()
    }

    // The number of the first numerical field, from 0; where there is none, the number of fields.
    pub(crate) fn first(&self) -> u32
        ensures { result ≡ self.now.first }
    {
        self.first
    }

    // The marks of the donors, one donor after the other in the order of the slots of the first numerical
    // field. Each donor has one mark for each field. None where no field is numerical.
    #[inline(always)]
    pub(crate) fn walk_marks(&self) -> &[u16]
        ensures { result.now ≡ self.now.walk_marks }
    {
        self.walk_marks.as_slice()
    }

    // The marks of the donors at the first eight fields alone, or at all where there are fewer. They stand
    // one donor after the other in the order of the slots of the first numerical field.
    #[inline(always)]
    pub(crate) fn first_marks(&self) -> &[u16]
        ensures { result.now ≡ self.now.first_marks }
    {
        self.first_marks.as_slice()
    }

    // The ranges of the marks of each whole block of 32 donors, one block after the other. The donors are in
    // the order of the slots of the first numerical field. Each block has one range for each field.
    #[inline(always)]
    pub(crate) fn ranges(&self) -> &[MarkRange]
        ensures { result.now ≡ self.now.ranges }
    {
        self.ranges.as_slice()
    }
}

// The deck of these donors, which are clean rows in rising order. The marks are those of all rows of the
// sheet. The deck keeps those of the donors once more, with their ranges, in the order of the slots of the
// first numerical field; a survey without such a field has no slots, and neither marks nor ranges here. What
// stands beside the donors is right where the sheet's numbers are as small as the numerals of record files
// spell them (`HasPlainNumbers`). It is refused for want of memory alone.
fn deck_of(
    alloc: Global,
    survey: &Survey,
    sheet: &Sheet,
    marks: Arc<RowMarks>,
    rows: Vec<u32>,
) -> Result<Deck, OutOfMemory>
    requires marks { AllByRecursion HasPlainNumbers sheet.now.rows
        → arc_value marks ≡ flat_map (marks_of (yardsticks_of survey.now.fields)) sheet.now.rows }
    requires fits { AllByRecursion (IsRow survey.now.fields) sheet.now.rows }
    requires clean { All (IsCleanRow survey.now sheet.now.rows) rows.items }
    requires rising { IsStrictlyIncreasing rows.items }
    ensures rows { IfOk result (λ deck. deck.donors ≡ rows.items) }
    ensures measurable { IfOk result (λ deck. CanAllGive survey.now sheet.now.rows deck.donors) }
    ensures index { IfOk result (λ deck. AllByRecursion HasPlainNumbers sheet.now.rows
        → IsDeckOf (yardsticks_of survey.now.fields) sheet.now.rows deck) }
{
    let index = index_of(alloc, survey, sheet, &rows)?;
    let first = first_number(survey);
    let slots = slots_in(&index, first);
    let count = survey.fields().len();
    let walk_marks = marks_of_slots(alloc, survey, sheet, slots, count as u32)?;
    let first_marks = marks_of_slots(alloc, survey, sheet, slots, FIRST as u32)?;
    let ranges = ranges_of(alloc, &walk_marks, count, slots.len())?;
    Ok(Deck {
        rows,
        index,
        marks,
        first,
        walk_marks,
        first_marks,
        ranges,
    })
}

// The slots of a field in an index of all: the donors by their buckets there. None where the field is past
// the last.
fn slots_in(index: &[Sequence<Slot>], field: u32) -> &[Slot]
    ensures { result.now ≡ slots_at index.now field }
{
    match index.get(field as usize) {
        Some(slots) => slots.as_slice(),
        None => &[],
    }
}

// The number of the first numerical field, from 0; where there is none, the number of fields. In the order of
// its slots a deck keeps the marks of its donors once more.
fn first_number(survey: &Survey) -> u32 {
    let yardsticks = Yardsticks::of(survey);
    for field in 0..yardsticks.count() {
        if yardsticks.at(field).scale.is_some() {
            return field;
        }
    }
    yardsticks.count()
}

// The index of these donors: for each field, in declared order, its slots, as [`slots_of`] makes them.
fn index_of(
    alloc: Global,
    survey: &Survey,
    sheet: &Sheet,
    donors: &[u32],
) -> Result<Vec<Sequence<Slot>>, OutOfMemory>
    requires rows { AllByRecursion (IsRow survey.now.fields) sheet.now.rows }
    requires donors { All (λ donor. donor < length sheet.now.rows) donors.now }
    ensures fields { IfOk result (λ index. length index.items ≡ length survey.now.fields) }
    ensures donors { IfOk result (λ index. (f : ℕ)
        → All (λ (s : AnySlot). s.donor < length sheet.now.rows) (slots_at index.items f)) }
    ensures slots { IfOk result (λ index. AllByRecursion HasPlainNumbers sheet.now.rows → (f : ℕ) → f < length survey.now.fields
        → AreSlots (yardstick_at (yardsticks_of survey.now.fields) f).scale sheet.now.rows f donors.now (slots_at index.items f)) }
{
    let yardsticks = Yardsticks::of(survey);
    let mut index = Vec::new(alloc);
    for field in 0..yardsticks.count() {
        let scale = yardsticks.at(field).scale;
        index.push(slots_of(alloc, survey, sheet, donors, field, scale)?)?;
    }
    Ok(index)
}
