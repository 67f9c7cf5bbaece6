//! The walk over the donors of a deck, outward from a record's bucket at the index field. In contracts,
//! `IsSearch`, `IsProfile` and `IsAxis` say that the arguments are those of one record and its deck.
//! `AreRanked` says that the candidates are those of the ranking, and `most_in` is the most that it measures.
ghost use Rattle.std.specs.Prelude.{◌≡◌, ◌+◌, ◌≤◌, IfOk, Some, length};
ghost use Rattle.donor_search.specs.Asked.{index_field};
ghost use Rattle.donor_search.specs.inner.Profiles.{IsProfile};
ghost use Rattle.donor_search.specs.inner.Searches.{AreRanked, IsAxis, IsSearch, most_in, yardsticks_in};

use crate::axis::Axis;
use crate::candidate::{Candidate, is_closed_at};
use crate::passing::pass_far_donors;
use crate::profile::Profile;
use crate::search::{Search, marks_in_walk, rank};
use crate::span::Span;
use donor_measure::bucket_no;
use edit_model::Value;
use foundation::{OutOfMemory, Steps};
use std::alloc::Global;
use std::sync::ledger::Ledger;

/// The nearest donors, found from the record's bucket at the index field outward. When as many were found
/// as are asked for, no donor counts that is farther than the last of these. Donors that are so by their
/// marks are passed over together. The walk ends where all that are left are so by the gap of buckets alone.
pub(crate) fn walk<F: Fn(u32, &Value, &Value) -> u64, L: Ledger>(
    alloc: Global,
    search: &Search<F>,
    axis: Axis,
    profile: &Profile,
    steps: &mut Steps<L>,
) -> Result<Vec<Candidate>, OutOfMemory>
    requires search { IsSearch F.Fn search.now }
    requires profile { IsProfile (yardsticks_in search.now) search.now.kept search.now.row.now profile.now }
    requires axis { IsAxis (yardsticks_in search.now) search.now.kept axis }
    requires first { index_field (yardsticks_in search.now) search.now.kept ≡ Some axis.field }
    ensures ranked { IfOk result (λ nearest. AreRanked search.now nearest.items) }
    ensures steps { IfOk result (λ nearest. steps.new ≤ steps.old + most_in search.now) }
    ensures most { steps.new ≤ steps.old + length search.now.deck.now.donors }
{
    let slots = search.deck.slots(axis.field);
    let bucket = bucket_no(axis.scale, search.row.value(axis.field));
    let mut span = Span::at(slots, bucket);
    let mut nearest = Vec::new(alloc);
    while span.len() < slots.len() {
        let place = span.next(slots, bucket);
        let slot = slots[place];
        if is_closed_at(&nearest, search.near, axis.gap(bucket, slot.bucket)) {
            return Ok(nearest);
        }
        let wider = pass_far_donors(search, profile, axis.field, span, place, &nearest);
        if wider.len() > span.len() {
            span = wider;
            continue;
        }
        let marks = marks_in_walk(search, axis.field, place, slot.donor);
        rank(&mut nearest, slot.donor, marks, search, profile, steps)?;
        span = span.with(place);
    }
    Ok(nearest)
}
