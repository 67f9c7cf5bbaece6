//! The part of the slots of a field that was walked over. It grows by one place at either end, or by donors
//! that are passed over. In contracts, `IsSpan` says that the slots below are of buckets up to the record's,
//! and those above of buckets from it on. `IsNext` says that no place outside has a nearer bucket, and
//! `IsWider` that a span has one place more.
ghost use Rattle.std.specs.Prelude.{◌≡◌, ◌⊎◌, ◌+◌, ◌-◌, ◌<◌, ◌≤◌, ◌^◌, length};
ghost use Rattle.std.specs.List.Sorted.{IsNonDecreasingBy};
ghost use Rattle.donor_search.specs.declared.slot.Slot.{Slot as AnySlot};
ghost use Rattle.donor_search.specs.inner.Spans.{IsNext, IsSpan, IsWider};

use crate::slot::Slot;

/// The slots from `low` up to `high`, without that.
#[derive(Clone, Copy)]
pub(crate) struct Span {
    pub low: usize,
    pub high: usize,
}

impl Span {
    /// The empty span at the bucket's place, where a walk begins. All slots before it have lower buckets,
    /// and all others this one or a greater one.
    pub fn at(slots: &[Slot], bucket: u128) -> Span
        requires { IsNonDecreasingBy (λ (s : AnySlot). s.bucket) slots.now }
        ensures span { IsSpan slots.now bucket result }
        ensures none { result.low ≡ result.high }
    {
        let place = slots.partition_point(|slot| slot.bucket < bucket);
        Span {
            low: place,
            high: place,
        }
    }

    /// How many slots it has.
    pub fn len(self) -> usize
        requires { self.low ≤ self.high }
        ensures { result ≡ self.high - self.low }
    {
        self.high - self.low
    }

    /// The place next to the span of which the bucket is nearest to this one; the lower place where both
    /// are as near. Some slot is still outside the span.
    pub fn next(self, slots: &[Slot], bucket: u128) -> usize
        requires order { IsNonDecreasingBy (λ (s : AnySlot). s.bucket) slots.now }
        requires span { IsSpan slots.now bucket self }
        requires more { self.high - self.low < length slots.now }
        ensures { IsNext slots.now bucket self result }
    {
        if self.low == 0 {
            return self.high;
        }
        if self.high == slots.len() {
            return self.low - 1;
        }
        let below = slots[self.low - 1].bucket;
        let above = slots[self.high].bucket;
        if bucket - below <= above - bucket {
            self.low - 1
        } else {
            self.high
        }
    }

    /// The span with this place more, which is next to it at its lower or its upper end.
    pub fn with(self, place: usize) -> Span
        requires beside { (place + 1 ≡ self.low) ⊎ (place ≡ self.high) }
        requires fits { place + 1 < 2 ^ 64 }
        requires rising { self.low ≤ self.high }
        ensures { IsWider self place result }
    {
        if place < self.low {
            Span {
                low: place,
                high: self.high,
            }
        } else {
            Span {
                low: self.low,
                high: place + 1,
            }
        }
    }
}
