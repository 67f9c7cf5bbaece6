//! A search for the nearest donors of one record: how one donor is ranked among them, and where its marks
//! stand. In contracts, `IsSearch` says that record and donors can be measured, and that the deck is one of
//! the sheet's rows. `IsDeckOf` says the latter alone. `Ranks` says that one donor more is put at its place,
//! and that no more than `near` stay.
ghost use Rattle.std.specs.Prelude.{◌≡◌, ◌+◌, ◌*◌, ◌<◌, ◌≤◌, OnOk, length, min, take};
ghost use Rattle.donor_measure.specs.Buckets.{marks_of};
ghost use Rattle.donor_search.specs.CleanRows.{IsRankable, row_at};
ghost use Rattle.donor_search.specs.inner.Candidates.{IsClosedAt, Ranks, is_before};
ghost use Rattle.donor_search.specs.Decks.{IsDeckOf, block_ranges, block_size, first_fields, slot_at, slot_first_marks, slot_marks, slots_at};
ghost use Rattle.donor_search.specs.inner.Profiles.{IsProfile};
ghost use Rattle.donor_search.specs.inner.Searches.{IsSearch, far_in, yardsticks_in};
ghost use Rattle.donor_search.specs.Rankings.{IsInOrder};

use crate::candidate::{Candidate, farthest, insert_candidate};
use crate::deck::Deck;
use crate::profile::{FIRST, Profile, first_marks_of, is_farther};
use crate::ranges::MarkRange;
use donor_measure::Measure;
use edit_model::{FieldSet, Row, Value};
use foundation::{OutOfMemory, Steps};
use record_text::Sheet;
use std::alloc::AllocError;
use std::sync::ledger::Ledger;

/// What donors are ranked by. Of the deck's donors, which are rows of the sheet, the `near` nearest are
/// looked for. They are compared with `row` by their distance over the kept fields.
pub(crate) struct Search<'a, F> {
    pub deck: &'a Deck,
    pub sheet: &'a Sheet,
    pub measure: &'a Measure<F>,
    pub row: &'a Row,
    pub kept: FieldSet,
    pub near: usize,
}

// By hand, since a derived `clone` has a way out behind each field, which takes long to prove.
impl<F> Clone for Search<'_, F> {
    fn clone(&self) -> Result<Self, AllocError> {
        Ok(Search {
            deck: self.deck,
            sheet: self.sheet,
            measure: self.measure,
            row: self.row,
            kept: self.kept,
            near: self.near,
        })
    }
}

impl<F> Copy for Search<'_, F> {}

/// Ranks one more donor: puts it at its place among the best, of which no more than `near` stay. `marks` are
/// the donor's, and `profile` has the record's (`IsProfile`). It is not measured where these tell that it
/// has no place.
pub(crate) fn rank<F: Fn(u32, &Value, &Value) -> u64, L: Ledger>(
    best: &mut Vec<Candidate>,
    donor: u32,
    marks: &[u16],
    search: &Search<F>,
    profile: &Profile,
    steps: &mut Steps<L>,
) -> Result<(), OutOfMemory>
    requires search { IsSearch F.Fn search.now }
    requires profile { IsProfile (yardsticks_in search.now) search.now.kept search.now.row.now profile.now }
    requires donor { IsRankable (yardsticks_in search.now) search.now.sheet.now.rows search.now.kept donor }
    requires marks { marks.now ≡ marks_of (yardsticks_in search.now) (row_at search.now.sheet.now.rows donor) }
    requires few { length best.old.items ≤ search.now.near }
    requires order { IsInOrder is_before best.old.items }
    ensures ranks { OnOk result (Ranks (far_in search.now) search.now.near donor best.old.items best.new.items) }
    ensures steps { steps.new ≤ steps.old + 1 }
{
    let values = search.sheet.row(donor);
    match farthest(best, search.near) {
        None => {
            let distance = search
                .measure
                .between(search.row, values, search.kept, steps);
            insert_candidate(best, Candidate { distance, donor }, search.near)
        }
        Some(most) => {
            if is_farther(profile.as_slice(), marks, most) {
                return Ok(());
            }
            rank_within(best, donor, search, most, steps)
        }
    }
}

// Measures the donor, and puts it at its place where it is not farther than `most`. That is the distance of
// the last of the best, which are as many as are asked for.
fn rank_within<F: Fn(u32, &Value, &Value) -> u64, L: Ledger>(
    best: &mut Vec<Candidate>,
    donor: u32,
    search: &Search<F>,
    most: u64,
    steps: &mut Steps<L>,
) -> Result<(), OutOfMemory>
    requires search { IsSearch F.Fn search.now }
    requires donor { IsRankable (yardsticks_in search.now) search.now.sheet.now.rows search.now.kept donor }
    requires few { length best.old.items ≤ search.now.near }
    requires farther { IsClosedAt search.now.near (most + 1) best.old.items }
    ensures ranks { OnOk result (Ranks (far_in search.now) search.now.near donor best.old.items best.new.items) }
    ensures steps { steps.new ≤ steps.old + 1 }
{
    let values = search.sheet.row(donor);
    let measure = search.measure;
    match measure.between_within(search.row, values, search.kept, most, steps) {
        Some(distance) => insert_candidate(best, Candidate { distance, donor }, search.near),
        None => Ok(()),
    }
}

/// The marks of a donor, which is a row of the sheet, from those of all rows: one for each field.
#[inline(always)]
pub(crate) fn marks_at<'a, F>(search: &Search<'a, F>, donor: u32) -> &'a [u16]
    requires deck { IsDeckOf (yardsticks_in search.now) search.now.sheet.now.rows search.now.deck.now }
    requires donor { donor < length search.now.sheet.now.rows }
    ensures { result.now ≡ marks_of (yardsticks_in search.now) (row_at search.now.sheet.now.rows donor) }
{
    let count = search.measure.yardsticks.count() as usize;
    let start = donor as usize * count;
    &search.deck.marks()[start..start + count]
}

/// The marks of a donor, one for each field, where the walk goes by the slots of `field`. `donor` is that of
/// the slot at `place`. Most walks go by the first numerical field. For that the marks stand in the order of
/// the walk, so that memory is read in order.
#[inline(always)]
pub(crate) fn marks_in_walk<'a, F>(
    search: &Search<'a, F>,
    field: u32,
    place: usize,
    donor: u32,
) -> &'a [u16]
    requires deck { IsDeckOf (yardsticks_in search.now) search.now.sheet.now.rows search.now.deck.now }
    requires donor { donor < length search.now.sheet.now.rows }
    requires place { place < length (slots_at search.now.deck.now.index field) }
    requires slot { donor ≡ (slot_at (slots_at search.now.deck.now.index field) place).donor }
    ensures { result.now ≡ marks_of (yardsticks_in search.now) (row_at search.now.sheet.now.rows donor) }
{
    if field == search.deck.first() {
        marks_at_place(search, place)
    } else {
        marks_at(search, donor)
    }
}

// The marks of the donor at a place of the walk by the first numerical field.
#[inline(always)]
fn marks_at_place<'a, F>(search: &Search<'a, F>, place: usize) -> &'a [u16]
    requires deck { IsDeckOf (yardsticks_in search.now) search.now.sheet.now.rows search.now.deck.now }
    requires place { place < length (slots_at search.now.deck.now.index search.now.deck.now.first) }
    ensures { result.now ≡ slot_marks (yardsticks_in search.now) search.now.sheet.now.rows
        (slot_at (slots_at search.now.deck.now.index search.now.deck.now.first) place) }
{
    let marks = search.deck.walk_marks();
    let count = search.measure.yardsticks.count() as usize;
    let start = place * count;
    &marks[start..start + count]
}

/// The marks of a donor at the first eight fields, or at all where there are fewer. The walk goes by the
/// slots of `field`, and `donor` is that of the slot at `place`. In the walk by the first numerical field
/// these marks stand one donor after the other, so that little memory is read.
#[inline(always)]
pub(crate) fn first_marks_in_walk<'a, F>(
    search: &Search<'a, F>,
    field: u32,
    place: usize,
    donor: u32,
) -> &'a [u16]
    requires deck { IsDeckOf (yardsticks_in search.now) search.now.sheet.now.rows search.now.deck.now }
    requires donor { donor < length search.now.sheet.now.rows }
    requires place { place < length (slots_at search.now.deck.now.index field) }
    requires slot { donor ≡ (slot_at (slots_at search.now.deck.now.index field) place).donor }
    ensures { result.now ≡ take first_fields (marks_of (yardsticks_in search.now) (row_at search.now.sheet.now.rows donor)) }
{
    if field == search.deck.first() {
        first_marks_at_place(search, place)
    } else {
        first_marks_of(marks_at(search, donor))
    }
}

// The marks at the first eight fields of the donor at a place of the walk by the first numerical field. It
// is all marks where there are fewer fields.
#[inline(always)]
fn first_marks_at_place<'a, F>(search: &Search<'a, F>, place: usize) -> &'a [u16]
    requires deck { IsDeckOf (yardsticks_in search.now) search.now.sheet.now.rows search.now.deck.now }
    requires place { place < length (slots_at search.now.deck.now.index search.now.deck.now.first) }
    ensures { result.now ≡ slot_first_marks first_fields (yardsticks_in search.now) search.now.sheet.now.rows
        (slot_at (slots_at search.now.deck.now.index search.now.deck.now.first) place) }
{
    let marks = search.deck.first_marks();
    let count = first_count(search);
    let start = place * count;
    &marks[start..start + count]
}

// How many fields are looked at first: eight, or all where there are fewer.
#[inline(always)]
fn first_count<F>(search: &Search<F>) -> usize
    ensures { result ≡ min first_fields (length (yardsticks_in search.now)) }
{
    FIRST.min(search.measure.yardsticks.count() as usize)
}

/// The ranges of the marks of a block of donors in the walk by the first numerical field, one for each field
/// in declared order. `block` is the number of a whole block, from 0.
#[inline(always)]
pub(crate) fn block_at<'a, F>(search: &Search<'a, F>, block: usize) -> &'a [MarkRange]
    requires deck { IsDeckOf (yardsticks_in search.now) search.now.sheet.now.rows search.now.deck.now }
    requires block { block * block_size + block_size ≤ length (slots_at search.now.deck.now.index search.now.deck.now.first) }
    ensures { result.now ≡ block_ranges (length (yardsticks_in search.now)) search.now.deck.now.ranges block }
{
    let all = search.deck.ranges();
    let count = search.measure.yardsticks.count() as usize;
    let start = block * count;
    &all[start..start + count]
}
