//! The distance of two records: what is nearest when a donor is looked for. The caller chooses the closure
//! by which two values are measured. In contracts, `Measures` says that the closure answers the distance of
//! two values, and `HasMeasurable` that a record has a code or a plain number at each kept field.
ghost use Rattle.std.specs.Prelude.{◌≡◌, ◌<◌, ◌≤◌, ◌+◌, ◌*◌, All, IfNone, IfSome, length};
ghost use Rattle.donor_measure.specs.Distances.{distance, distance_at};
ghost use Rattle.donor_measure.specs.Measures.{HasMeasurable, Measures};
ghost use Rattle.donor_measure.specs.Yardsticks.{IsYardstick, yardstick_at, yardsticks_of};

use crate::yardstick::Yardsticks;
use edit_model::{FieldSet, Row, Survey, Value};
use foundation::Steps;
use std::sync::ledger::Ledger;

/// How far apart two records of a survey are at the fields that are kept: a closure that answers the
/// distance of two values of a field, beside the weights and scales that it answers by. Contracts say
/// by `Measures` what is known of the closure.
#[derive(Drop)]
pub struct Measure<F> {
    pub closure: F,
    pub yardsticks: Yardsticks,
}

impl<F: Fn(u32, &Value, &Value) -> u64> Measure<F> {
    /// The measure of the survey's fields by this closure. It may be called at a field of the survey and
    /// two values of it that are not Bad. Numbers have numerators below 10^21 and denominators of at most
    /// 10^6. It answers the distance of the values, which is at least their gap: the weight times the whole
    /// buckets between them. No memory.
    pub fn new(survey: &Survey, closure: F) -> Measure<F>
        requires { Measures F.Fn closure (yardsticks_of survey.now.fields) }
        ensures measures { Measures F.Fn result.closure result.yardsticks }
        ensures yardsticks { result.yardsticks ≡ yardsticks_of survey.now.fields }
    {
        Measure {
            closure,
            yardsticks: Yardsticks::of(survey),
        }
    }

    /// The distance of two records: the sum over the kept fields of the distances of their values. The
    /// records have codes or numbers there, as small as `new` says. One step is counted. No memory.
    pub fn between<L: Ledger>(&self, a: &Row, b: &Row, kept: FieldSet, steps: &mut Steps<L>) -> u64
        requires measures { Measures F.Fn self.now.closure self.now.yardsticks }
        requires first { HasMeasurable self.now.yardsticks kept a.now }
        requires second { HasMeasurable self.now.yardsticks kept b.now }
        ensures distance { result ≡ distance self.now.yardsticks kept a.now b.now }
        ensures step { steps.new ≡ steps.old + 1 }
    {
        steps.tick();
        self.sum_within(a, b, kept, u64::MAX)
    }

    /// The distance of two records, as `between` has it, where it is at most `most`, and None exactly where
    /// it is more. The fields behind the first at which it is seen to be more are not looked at. One step
    /// is counted. No memory.
    pub fn between_within<L: Ledger>(
        &self,
        a: &Row,
        b: &Row,
        kept: FieldSet,
        most: u64,
        steps: &mut Steps<L>,
    ) -> Option<u64>
        requires measures { Measures F.Fn self.now.closure self.now.yardsticks }
        requires first { HasMeasurable self.now.yardsticks kept a.now }
        requires second { HasMeasurable self.now.yardsticks kept b.now }
        ensures some { IfSome result (λ sum. (sum ≡ distance self.now.yardsticks kept a.now b.now) × (sum ≤ most)) }
        ensures none { IfNone result (most < distance self.now.yardsticks kept a.now b.now) }
        ensures step { steps.new ≡ steps.old + 1 }
    {
        steps.tick();
        let sum = self.sum_within(a, b, kept, most);
        if sum <= most { Some(sum) } else { None }
    }

    // The distance of two records, where it is at most `most`. Else a sum over the first kept fields that is
    // more already, so that the fields behind are not looked at.
    #[inline(never)]
    fn sum_within(&self, a: &Row, b: &Row, kept: FieldSet, most: u64) -> u64
        requires measures { Measures F.Fn self.now.closure self.now.yardsticks }
        requires first { HasMeasurable self.now.yardsticks kept a.now }
        requires second { HasMeasurable self.now.yardsticks kept b.now }
        ensures whole { result ≤ most → result ≡ distance self.now.yardsticks kept a.now b.now }
        ensures more { most < result → most < distance self.now.yardsticks kept a.now b.now }
    {
        let mut sum = 0;
        for field in 0..self.yardsticks.count() {
            sum += self.distance_at(field, a, b, kept);
            if sum > most {
                return sum;
            }
        }
        sum
    }

    // The distance of the values of two records at the field of this number, from 0. It is 0 where the field
    // is not kept.
    #[inline(always)]
    fn distance_at(&self, field: u32, a: &Row, b: &Row, kept: FieldSet) -> u64
        requires measures { Measures F.Fn self.now.closure self.now.yardsticks }
        requires field { field < length self.now.yardsticks }
        requires small { field < 64 }
        requires fit { All IsYardstick self.now.yardsticks }
        requires first { HasMeasurable self.now.yardsticks kept a.now }
        requires second { HasMeasurable self.now.yardsticks kept b.now }
        ensures distance { result ≡ distance_at (yardstick_at self.now.yardsticks field) field kept a.now b.now }
        ensures few { result ≤ 1000 * 1000 }
    {
        if kept.has(field) {
            (self.closure)(field, a.value(field), b.value(field))
        } else {
            0
        }
    }
}
