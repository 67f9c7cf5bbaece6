//! What the words of the bench ask for: how many tickets, and how many threads.
ghost use Rattle.std.specs.Prelude.{◌≤◌, IfSome, map, string_bytes};
ghost use Rattle.claims_bench.specs.inner.Plans.{IsAsked, IsNumber, IsServed};

use crate::tally::Plan;

/// What is done where there are no words.
const SMALL: Plan = Plan {
    count: 60,
    threads: 4,
};

/// The most tickets.
const MOST_COUNT: u32 = 10_000_000;

/// The most threads.
const MOST_THREADS: u32 = 64;

/// The plan that the words `COUNT THREADS` ask for, and `SMALL` where there are no words. None where
/// there is one word, or more than two, or a word is no number. None also for 0, and for a number above
/// `MOST_COUNT` or `MOST_THREADS`.
pub fn plan_of(words: &[String]) -> Option<Plan>
    ensures asked { IfSome result (IsAsked (map string_bytes words.now)) }
    ensures served { IfSome result IsServed }
{
    match words {
        [] => Some(SMALL),
        [count, threads] => Some(Plan {
            count: number_in(count.as_str(), MOST_COUNT)?,
            threads: number_in(threads.as_str(), MOST_THREADS)?,
        }),
        _ => None,
    }
}

// The number that the text writes, with or without a plus sign. None where it writes none, or that is 0
// or above `most`.
fn number_in(text: &str, most: u32) -> Option<u32>
    ensures number { IfSome result (IsNumber text.now) }
    ensures within { IfSome result (λ number. (1 ≤ number) × (number ≤ most)) }
{
    match text.parse::<u32>() {
        Ok(number) if 1 <= number && number <= most => Some(number),
        _ => None,
    }
}
