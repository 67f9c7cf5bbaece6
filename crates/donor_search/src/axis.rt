//! The index field of a record: the first kept numerical field, by whose buckets donors are walked over. In
//! contracts, `IsAxis` says that a field is kept and numerical, with this weight and this scale.
ghost use Rattle.std.specs.Prelude.{◌≡◌, ◌&&◌, ◌<◌, ◌≤◌, false, None, IfNone, IfSome, Some, is_some, length};
ghost use Rattle.foundation.specs.Limits.{most_fields, most_weight};
ghost use Rattle.edit_model.specs.FieldSets.{has_number};
ghost use Rattle.donor_measure.specs.Yardsticks.{yardstick_at};
ghost use Rattle.donor_search.specs.Asked.{index_field};
ghost use Rattle.donor_search.specs.inner.Searches.{IsAxis};
ghost use Rattle.donor_search.specs.inner.Spans.{bucket_gap_at};

use donor_measure::{Yardsticks, whole_buckets_between};
use edit_model::FieldSet;

/// A kept numerical field, with its weight and its scale, by which its buckets are counted.
#[derive(Clone, Copy)]
pub(crate) struct Axis {
    pub field: u32,
    pub weight: u32,
    pub scale: u64,
}

impl Axis {
    /// The gap of the buckets `first` and `second` at the field: its weight times the whole buckets between
    /// them, of which at most 1000 count. Two records with these buckets are at least that far apart.
    #[inline(always)]
    pub fn gap(self, first: u128, second: u128) -> u64
        requires { self.weight ≤ most_weight }
        ensures { result ≡ bucket_gap_at self first second }
    {
        u64::from(self.weight) * whole_buckets_between(first, second)
    }
}

/// The first kept numerical field; None where no kept field is numerical.
pub(crate) fn first_axis(yardsticks: &Yardsticks, kept: FieldSet) -> Option<Axis>
    ensures some { IfSome result (λ axis. IsAxis yardsticks.now kept axis × (index_field yardsticks.now kept ≡ Some axis.field)) }
    ensures none { IfNone result (index_field yardsticks.now kept ≡ None) }
{
    for field in 0..yardsticks.count() {
        let axis = axis_at(yardsticks, kept, field);
        if axis.is_some() {
            return axis;
        }
    }
    None
}

// The field as an axis, where it is kept and numerical; else None.
fn axis_at(yardsticks: &Yardsticks, kept: FieldSet, field: u32) -> Option<Axis>
    requires field { field < length yardsticks.now }
    requires small { field < most_fields }
    ensures some { IfSome result (λ axis. IsAxis yardsticks.now kept axis × (axis.field ≡ field)) }
    ensures none { IfNone result ((has_number kept field && is_some (yardstick_at yardsticks.now field).scale) ≡ false) }
{
    let yardstick = yardsticks.at(field);
    if !kept.has(field) {
        return None;
    }
    match yardstick.scale {
        Some(scale) => Some(Axis {
            field,
            weight: yardstick.weight,
            scale,
        }),
        None => None,
    }
}
