//! What the words of the bench ask for: which edits or steps, and how many.
ghost use Rattle.std.specs.Prelude.{◌≡◌, ◌^◌, IfSome, map, string_bytes};
ghost use Rattle.elimination_bench.specs.inner.Differences.{numbers_of};
ghost use Rattle.bench_frame.specs.Numbers.{number_in};
ghost use Rattle.elimination_bench.specs.inner.Tasks.{IsServed, listed, served, task_in};

use crate::differences::Differences;
use crate::listing::Listing;
use bench_frame::number_in;

/// The most steps that are listed.
const MOST_STEPS: u64 = 10_000_000;

/// What is asked of the bench.
#[derive(Clone, Copy)]
pub enum Task {
    /// The derived system without its first fields, by their number.
    Fold(Differences, u32),
    /// The pairs and the lines of each step of that fold.
    Pairs(Differences, u32),
    /// The check of a list of steps, by their number.
    Steps(Listing, u64),
}

/// The task of the words `fold FIELDS` or `pairs FIELDS`, with `codes` behind it for lines with drawn
/// sets of codes. Or it is that of `steps COUNT`, with `sums` behind it for steps that combine lines.
/// None for any other words. `IsServed` says that there are as many fields as are asked for, and for
/// `pairs` at least one.
pub fn task_of(words: &[String]) -> Option<Task>
    ensures exact { result ≡ task_in (map string_bytes words.now) }
    ensures served { IfSome result IsServed }
{
    match words {
        [verb, count] if verb.as_str() == "steps" => steps_task(Listing::Given, count.as_str()),
        [verb, count, kind] if verb.as_str() == "steps" && kind.as_str() == "sums" => {
            steps_task(Listing::Sums, count.as_str())
        }
        [verb, count] => elimination_task(verb.as_str(), Differences::Plain, count.as_str()),
        [verb, count, kind] if kind.as_str() == "codes" => {
            elimination_task(verb.as_str(), Differences::Coded, count.as_str())
        }
        _ => None,
    }
}

// The task of the verb, `fold` or `pairs`, over these generated edits. None where the verb is another,
// the count is no number or more than there are fields, or `pairs` is asked of no field.
fn elimination_task(verb: &str, system: Differences, count: &str) -> Option<Task>
    ensures exact { result ≡ served verb.now system (number_in count.now 0 (numbers_of system)) }
    ensures served { IfSome result IsServed }
{
    let count = count_within(count, system)?;
    match verb {
        "fold" => Some(Task::Fold(system, count)),
        "pairs" if count >= 1 => Some(Task::Pairs(system, count)),
        _ => None,
    }
}

// The task of checking a list of as many steps as the text says. None where it is no number, or one
// above `MOST_STEPS`.
fn steps_task(listing: Listing, count: &str) -> Option<Task>
    ensures exact { result ≡ listed listing (number_in count.now 0 (10 ^ 7)) }
    ensures served { IfSome result IsServed }
{
    match number_in(count, 0, MOST_STEPS) {
        Some(count) => Some(Task::Steps(listing, count)),
        None => None,
    }
}

// The number of fields to eliminate that the text says. None where it is no number, or more than these
// edits have numerical fields.
fn count_within(text: &str, system: Differences) -> Option<u32>
    ensures { result ≡ number_in text.now 0 (numbers_of system) }
{
    match number_in(text, 0, system.numbers() as u64) {
        Some(count) => Some(count as u32),
        None => None,
    }
}
