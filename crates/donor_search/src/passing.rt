//! Donors that the walk passes over: they are farther than the last of the nearest, as their marks tell.
//! They are neither measured nor looked at in the sheet. In contracts, `IsPassing` says that the parts of a
//! [`Passing`] are of one search. `AreFar` says that the donors between two places are farther than `most`.
//! `IsPast` says that a span has places more, and that no donor of these has a place among the nearest.
ghost use Rattle.std.specs.Prelude.{◌≡◌, ◌⊎◌, ◌+◌, ◌-◌, ◌≤◌, ◌<◌, length, true};
ghost use Rattle.donor_search.specs.Decks.{block_size, slot_at, slots_at};
ghost use Rattle.donor_search.specs.Rankings.{IsInOrder};
ghost use Rattle.donor_search.specs.inner.Candidates.{is_before};
ghost use Rattle.donor_search.specs.inner.Passings.{AreFar, IsPassing, slots_of};
ghost use Rattle.donor_search.specs.inner.Profiles.{IsProfile};
ghost use Rattle.donor_search.specs.inner.Searches.{HasSlots, IsSearch, far_in, yardsticks_in};
ghost use Rattle.donor_search.specs.inner.Spans.{IsPast};

use crate::candidate::{Candidate, farthest};
use crate::profile::{Profile, Weighed, are_farther, is_farther_with, least_distance_at_first};
use crate::ranges::BLOCK;
use crate::search::{Search, block_at, first_marks_in_walk, marks_in_walk};
use crate::slot::Slot;
use crate::span::Span;
use edit_model::Value;
use std::alloc::AllocError;

/// What donors are passed over by, in a walk along the slots of a field. Those are passed over that are
/// farther than `most` from the record of the search. `own` has that record's marks with their weights.
pub(crate) struct Passing<'a, F> {
    pub search: &'a Search<'a, F>,
    pub own: &'a [Weighed],
    pub field: u32,
    pub slots: &'a [Slot],
    pub most: u64,
}

// By hand, since a derived `clone` has a way out behind each field, which takes long to prove.
impl<F> Clone for Passing<'_, F> {
    fn clone(&self) -> Result<Self, AllocError> {
        Ok(*self)
    }
}

impl<F> Copy for Passing<'_, F> {}

/// The span of slots of `field` that was walked over, widened on the side of `place`, which is next to it.
/// It is widened by donors that follow one another and are farther than the last of the nearest, as their
/// marks tell. It stays as it is while fewer are found than are asked for, or where none is asked for.
pub(crate) fn pass_far_donors<F: Fn(u32, &Value, &Value) -> u64>(
    search: &Search<F>,
    profile: &Profile,
    field: u32,
    span: Span,
    place: usize,
    nearest: &[Candidate],
) -> Span
    requires search { IsSearch F.Fn search.now }
    requires profile { IsProfile (yardsticks_in search.now) search.now.kept search.now.row.now profile.now }
    requires field { HasSlots search.now field }
    requires beside { (place + 1 ≡ span.low) ⊎ (place ≡ span.high) }
    requires place { place < length (slots_at search.now.deck.now.index field) }
    requires rising { span.low ≤ span.high }
    requires within { span.high ≤ length (slots_at search.now.deck.now.index field) }
    requires few { length nearest.now ≤ search.now.near }
    requires order { IsInOrder is_before nearest.now }
    ensures { IsPast (far_in search.now) search.now.near (slots_at search.now.deck.now.index field) span nearest.now result }
{
    let most = match farthest(nearest, search.near) {
        None => return span,
        Some(most) => most,
    };
    let passing = Passing {
        search,
        own: profile.as_slice(),
        field,
        slots: search.deck.slots(field),
        most,
    };
    if place < span.low {
        Span {
            low: pass_downward(&passing, span.low),
            high: span.high,
        }
    } else {
        Span {
            low: span.low,
            high: pass_upward(&passing, span.high),
        }
    }
}

// Passes over donors from the place `start` upward, which their marks tell to be farther than `most`. The
// answer is the place of the first that is not passed over. Only the block of `start` is looked at, so the
// answer is at most its end, or that of the slots. A whole block that is far by its ranges is passed over
// at once.
fn pass_upward<F: Fn(u32, &Value, &Value) -> u64>(passing: &Passing<F>, start: usize) -> usize
    requires passing { IsPassing F.Fn passing.now }
    requires start { start ≤ length (slots_of passing.now) }
    ensures from { start ≤ result }
    ensures within { result ≤ length (slots_of passing.now) }
    ensures far { AreFar passing.now start result }
{
    if is_block_far(passing, start + BLOCK) {
        return start + BLOCK;
    }
    let end = (start + (BLOCK - start % BLOCK)).min(passing.slots.len());
    let mut place = start;
    while place < end {
        if !is_far(passing, place) {
            return place;
        }
        place += 1;
    }
    place
}

// Passes over donors from below the place `end` downward, which their marks tell to be farther than `most`.
// The answer is the place of the last that is passed over, and `end` where none is. Only the block right
// below `end` is looked at. If that is far by its ranges, it is passed over at once.
fn pass_downward<F: Fn(u32, &Value, &Value) -> u64>(passing: &Passing<F>, end: usize) -> usize
    requires passing { IsPassing F.Fn passing.now }
    requires some { 1 ≤ end }
    requires end { end ≤ length (slots_of passing.now) }
    ensures upto { result ≤ end }
    ensures far { AreFar passing.now result end }
{
    if is_block_far(passing, end) {
        return end - BLOCK;
    }
    let start = end - 1 - (end - 1) % BLOCK;
    let mut place = end;
    while start < place {
        if !is_far(passing, place - 1) {
            return place;
        }
        place -= 1;
    }
    place
}

// Whether the marks of the donor at this place of the slots tell that it is farther than `most`. False where
// they do not tell it. The marks at the first eight fields are asked first, as they often suffice.
#[inline(always)]
fn is_far<F: Fn(u32, &Value, &Value) -> u64>(passing: &Passing<F>, place: usize) -> bool
    requires passing { IsPassing F.Fn passing.now }
    requires place { place < length (slots_of passing.now) }
    ensures { result ≡ true → passing.now.most < far_in passing.now.search.now (slot_at (slots_of passing.now) place).donor }
{
    let donor = passing.slots[place].donor;
    let first_marks = first_marks_in_walk(passing.search, passing.field, place, donor);
    let first = least_distance_at_first(passing.own, first_marks);
    if u64::from(first) > passing.most {
        return true;
    }
    let marks = marks_in_walk(passing.search, passing.field, place, donor);
    is_farther_with(passing.own, marks, first, passing.most)
}

// Whether a whole block ends at the place `end` (without that), of which the ranges tell that each donor is
// farther than `most`. False in a walk by any but the first numerical field, which alone has ranges.
fn is_block_far<F: Fn(u32, &Value, &Value) -> u64>(passing: &Passing<F>, end: usize) -> bool
    requires passing { IsPassing F.Fn passing.now }
    requires some { 1 ≤ end }
    ensures whole { result ≡ true → block_size ≤ end }
    ensures within { result ≡ true → end ≤ length (slots_of passing.now) }
    ensures far { result ≡ true → AreFar passing.now (end - block_size) end }
{
    if passing.field != passing.search.deck.first() || end > passing.slots.len() {
        return false;
    }
    let blocks = end / BLOCK;
    if blocks * BLOCK != end {
        return false;
    }
    let ranges = block_at(passing.search, blocks - 1);
    are_farther(passing.own, ranges, passing.most)
}
