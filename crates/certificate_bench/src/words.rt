//! What the words of the bench ask for: a certificate by its depth, its steps, and whether it is broken.
ghost use Rattle.std.specs.Prelude.{◌≡◌, ◌≤◌, IfSome, map, string_bytes};
ghost use Rattle.certificate_bench.specs.inner.Plans.{plan_in, plan_of};

use crate::certificate::Plan;
use bench_frame::number_in;

/// The greatest depth of a tree.
const MOST_DEPTH: u64 = 20;

/// The most steps of a leaf.
const MOST_STEPS: u64 = 10_000_000;

/// What the words `leaves DEPTH` or `steps COUNT` ask for, with `broken` behind them for a certificate
/// whose last step is not valid. None for any other words.
pub fn plan_of(words: &[String]) -> Option<Plan>
    ensures exact { result ≡ plan_in (map string_bytes words.now) }
    ensures depth { IfSome result (λ plan. plan.depth ≤ 20) }
{
    match words {
        [verb, count] => plan_with(verb.as_str(), count.as_str(), false),
        [verb, count, kind] if kind.as_str() == "broken" => {
            plan_with(verb.as_str(), count.as_str(), true)
        }
        _ => None,
    }
}

// What the verb and its number ask for. It is a tree of this depth whose leaves have one step each, or
// one leaf of this many steps. None where the verb is another, or the number is none or too great.
fn plan_with(verb: &str, count: &str, broken: bool) -> Option<Plan>
    ensures exact { result ≡ plan_of verb.now count.now broken }
    ensures depth { IfSome result (λ plan. plan.depth ≤ 20) }
{
    match verb {
        "leaves" => match number_in(count, 0, MOST_DEPTH) {
            Some(depth) => Some(Plan {
                depth: depth as u32,
                steps: 1,
                broken,
            }),
            None => None,
        },
        "steps" => match number_in(count, 1, MOST_STEPS) {
            Some(steps) => Some(Plan {
                depth: 0,
                steps,
                broken,
            }),
            None => None,
        },
        _ => None,
    }
}
