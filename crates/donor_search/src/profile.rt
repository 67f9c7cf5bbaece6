//! Whether a donor is too far away to be measured, told by marks. Two values whose marks differ by d are at
//! least d - 1 thousandths of the scale apart, or 1000. A list of marks has one for each field, in declared
//! order. In contracts, `told` is the least distance that marks tell: the sum over the fields of the weight
//! times these thousandths.
ghost use Rattle.std.specs.Prelude.{◌≡◌, ◌<◌, ◌≤◌, ◌*◌, ◌-◌, All, length, min, take, true};
ghost use Rattle.std.specs.Int.{abs_diff};
ghost use Rattle.foundation.specs.Limits.{most_fields, most_weight};
ghost use Rattle.donor_measure.specs.Measures.{HasMeasurable};
ghost use Rattle.donor_measure.specs.Yardsticks.{yardstick_at};
ghost use Rattle.donor_search.specs.Decks.{first_fields};
ghost use Rattle.donor_search.specs.inner.Profiles.{IsProfile, told, told_by, told_by_range, told_by_ranges, weighed_at, weighed_from};
ghost use Rattle.donor_search.specs.declared.profile.Weighed.{Weighed as AnyWeighed};

use crate::ranges::MarkRange;
use donor_measure::{Yardsticks, mark_of};
use edit_model::{FieldSet, Row};
use std::marker::Model;

/// The mark of a record at a field, with the weight that counts there. Where the field is not kept, both
/// are 0.
#[derive(Clone, Copy)]
pub(crate) struct Weighed {
    pub weight: u16,
    pub mark: u16,
}

/// How many fields are looked at first. The marks at them stand apart, so that few bytes of a donor are
/// read. In a business survey of 16 fields, they tell 9 in 10 of the donors that no block tells to be far.
/// With 4 in place of 8 it would be fewer than half.
pub(crate) const FIRST: usize = 8;

// What stands at fields that are not kept, and in the places behind the last field.
const NONE: Weighed = Weighed { weight: 0, mark: 0 };

/// Whether the marks of a donor tell that it is farther from a record than `most`, so that it need not be
/// measured. `own` has the record's marks at the same fields.
#[inline(always)]
pub(crate) fn is_farther(own: &[Weighed], marks: &[u16], most: u64) -> bool
    requires equal { length own.now ≡ length marks.now }
    requires few { length own.now ≤ most_fields }
    requires weights { All (λ (w : AnyWeighed). w.weight ≤ most_weight) own.now }
    ensures { result ≡ true → most < told own.now marks.now }
{
    u64::from(least_distance(own, marks)) > most
}

/// Whether the marks of a donor tell that it is farther from a record than `most`. What those at the first
/// fields tell was computed before, and is `first`.
#[inline(always)]
pub(crate) fn is_farther_with(own: &[Weighed], marks: &[u16], first: u32, most: u64) -> bool
    requires equal { length own.now ≡ length marks.now }
    requires first { first ≡ told own.now (take first_fields marks.now) }
    requires few { length own.now ≤ most_fields }
    requires weights { All (λ (w : AnyWeighed). w.weight ≤ most_weight) own.now }
    ensures { result ≡ true → most < told own.now marks.now }
{
    let count = FIRST.min(own.len());
    let rest = least_distance(&own[count..], &marks[count..]);
    u64::from(first) + u64::from(rest) > most
}

/// How far a donor is at least, as its marks at the first eight fields tell. The case of fewer fields stands
/// apart, so that the loop of the other has a fixed length.
#[inline(always)]
pub(crate) fn least_distance_at_first(own: &[Weighed], first: &[u16]) -> u32
    requires first { length first.now ≡ min first_fields (length own.now) }
    requires few { length own.now ≤ most_fields }
    requires weights { All (λ (w : AnyWeighed). w.weight ≤ most_weight) own.now }
    ensures { result ≡ told own.now first.now }
{
    if own.len() < FIRST {
        return least_distance(own, first);
    }
    least_distance(&own[..FIRST], &first[..FIRST])
}

/// Of all marks of a donor those at the first eight fields, or all where there are fewer.
#[inline(always)]
pub(crate) fn first_marks_of(marks: &[u16]) -> &[u16]
    ensures { result.now ≡ take first_fields marks.now }
{
    &marks[..FIRST.min(marks.len())]
}

// How far a donor is at least from the record with the marks `own`, as its marks tell: the sum over the
// fields. All are looked at, since a test at each field would take more time than it spares.
#[inline(always)]
fn least_distance(own: &[Weighed], marks: &[u16]) -> u32
    requires equal { length own.now ≡ length marks.now }
    requires few { length own.now ≤ most_fields }
    requires weights { All (λ (w : AnyWeighed). w.weight ≤ most_weight) own.now }
    ensures { result ≡ told own.now marks.now }
{
    let mut sum = 0;
    for i in 0..own.len() {
        sum += least_distance_by_mark(&own[i], marks[i]);
    }
    sum
}

// How far two values at a field are at least apart, as their marks tell, times the field's weight. Of marks
// that differ by d that is d - 1, from 0 to 1000.
#[inline(always)]
fn least_distance_by_mark(own: &Weighed, mark: u16) -> u32
    requires { own.now.weight ≤ most_weight }
    ensures told { result ≡ told_by own.now mark }
    ensures few { result ≤ most_weight * 1000 }
{
    let apart = own.mark.abs_diff(mark).saturating_sub(1).min(1000);
    u32::from(own.weight) * u32::from(apart)
}

/// Whether the ranges of a block tell that each of its donors is farther from a record than `most`. `own`
/// has the record's marks at the same fields.
#[inline(always)]
pub(crate) fn are_farther(own: &[Weighed], ranges: &[MarkRange], most: u64) -> bool
    requires equal { length own.now ≡ length ranges.now }
    requires few { length own.now ≤ most_fields }
    requires weights { All (λ (w : AnyWeighed). w.weight ≤ most_weight) own.now }
    ensures { result ≡ true → most < told_by_ranges own.now ranges.now }
{
    u64::from(least_distance_by_ranges(own, ranges)) > most
}

// How far each donor of a block is at least from the record with the marks `own`. The block's ranges tell
// it, as a sum over the fields.
#[inline(always)]
fn least_distance_by_ranges(own: &[Weighed], ranges: &[MarkRange]) -> u32
    requires equal { length own.now ≡ length ranges.now }
    requires few { length own.now ≤ most_fields }
    requires weights { All (λ (w : AnyWeighed). w.weight ≤ most_weight) own.now }
    ensures { result ≡ told_by_ranges own.now ranges.now }
{
    let mut sum = 0;
    for i in 0..own.len() {
        sum += least_distance_by_range(&own[i], &ranges[i]);
    }
    sum
}

// How far the record's value at a field is at least from any of a block, times the field's weight. Its mark
// and the block's range tell it; a mark within the range tells nothing, and gives 0.
#[inline(always)]
fn least_distance_by_range(own: &Weighed, range: &MarkRange) -> u32
    requires { own.now.weight ≤ most_weight }
    ensures told { result ≡ told_by_range own.now range.now }
    ensures few { result ≤ most_weight * 1000 }
{
    let under = range.low.saturating_sub(own.mark);
    let over = own.mark.saturating_sub(range.high);
    let apart = under.max(over).saturating_sub(1).min(1000);
    u32::from(own.weight) * u32::from(apart)
}

/// A record's marks at all fields, with their weights: what is compared with the marks of donors. Contracts
/// see them as a list, in declared order.
#[derive(Drop)]
pub(crate) struct Profile {
    places: [Weighed; 64],
    count: usize,
}

impl Model for Profile {
    ghost use Rattle.std.specs.Prelude.{◌≡◌, ◌≤◌, All, List, length, take};
    ghost use Rattle.foundation.specs.Limits.{most_fields, most_weight};
    ghost use Rattle.donor_search.specs.declared.profile.Weighed as weighed;

    ghost Value = { List weighed.Weighed };

    ghost view = { λ p. take p.count p.places };

    ghost invariant = { λ p. (p.count ≤ most_fields)
        × All (λ (w : weighed.Weighed). w.weight ≤ most_weight) (take p.count p.places) };
}

impl Profile {
    /// The profile of a record over the kept fields. It has a code or a plain number at each of these
    /// (`HasMeasurable`), so that it has a mark there.
    pub fn of(yardsticks: &Yardsticks, row: &Row, kept: FieldSet) -> Profile
        requires { HasMeasurable yardsticks.now kept row.now }
        ensures { IsProfile yardsticks.now kept row.now result }
    {
        Profile {
            places: places_of(yardsticks, row, kept),
            count: yardsticks.count() as usize,
        }
    }

    /// The record's marks with their weights, one for each field in declared order.
    #[inline(always)]
    pub fn as_slice(&self) -> &[Weighed]
        ensures same { result.now ≡ self.now }
        ensures few { length result.now ≤ most_fields }
        ensures weights { All (λ (w : AnyWeighed). w.weight ≤ most_weight) result.now }
    {
        &self.places[..self.count]
    }
}

// The marks with their weights, in the first places of the array; nothing stands behind.
fn places_of(yardsticks: &Yardsticks, row: &Row, kept: FieldSet) -> [Weighed; 64]
    requires { HasMeasurable yardsticks.now kept row.now }
    ensures { take (length yardsticks.now) result ≡ weighed_from 0 yardsticks.now kept row.now }
{
    let mut places = [NONE; 64];
    for field in 0..yardsticks.count() {
        places[field as usize] = weighed_at(yardsticks, field, row, kept);
    }
    places
}

// The record's mark at a field, with the field's weight; both 0 where the field is not kept.
fn weighed_at(yardsticks: &Yardsticks, field: u32, row: &Row, kept: FieldSet) -> Weighed
    requires field { field < length yardsticks.now }
    requires small { field < most_fields }
    requires row { HasMeasurable yardsticks.now kept row.now }
    ensures { result ≡ weighed_at (yardstick_at yardsticks.now field) field kept row.now }
{
    if kept.has(field) {
        let yardstick = yardsticks.at(field);
        Weighed {
            weight: yardstick.weight as u16,
            mark: mark_of(yardstick.scale, row.value(field)),
        }
    } else {
        NONE
    }
}
