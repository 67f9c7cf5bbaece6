//! A program that eliminates fields from generated edits, and checks generated derivations, so that both
//! can be timed. The edits are in `differences`, what is done with them in `elimination` and `listing`.
#![tactic(auto)]

ghost use Rattle.std.specs.Prelude.{map, string_bytes};
ghost use Rattle.elimination_bench.specs.inner.Tasks.{task_in};
ghost use Rattle.elimination_bench.specs.inner.Texts.{IsTold};
ghost use Rattle.elimination_bench.specs.inner.Told.{told_of};

mod differences;
mod elimination;
mod listing;
mod words;

use bench_frame::{Fault, leave};
use edit_desk::{OutPrinter, words_of};
use std::alloc::Global;
use std::env;
use std::process::ExitCode;
use words::Task;

// The words that are in form.
const USAGE: &str = "usage: elimination_bench fold|pairs FIELDS [codes] | steps COUNT [sums]";

// Prints what the words of the command line ask for, or why nothing is told, and ends with the status
// that says so.
fn main(rt: HostRuntime) -> ExitCode {
    let alloc = rt.alloc();
    let told = asked_text(&rt, alloc);
    leave(alloc, &mut OutPrinter::new(rt), USAGE, told)
}

// What is printed of the words of the command line behind the program's name, or why nothing is. The
// faults are those of `text_of`, want of memory for the words, and `Fault::Usage` where a word is no text.
fn asked_text<R: std::rt::Env + AllocGlobal>(rt: &R, alloc: Global) -> Result<String, Fault> {
    let words = words_of(alloc, env::args(rt))?;
    text_of(alloc, &words)
}

// What is printed of these words; `Fault::Usage` where they ask for nothing, and `Fault::Overflow` where
// a number leaves the range. `IsTold` says that the text or the fault is that of the definitions, or
// memory was refused.
fn text_of(alloc: Global, words: &[String]) -> Result<String, Fault>
    ensures { IsTold result (told_of (task_in (map string_bytes words.now))) }
{
    match words::task_of(words) {
        None => Err(Fault::Usage),
        Some(Task::Fold(system, count)) => elimination::fold_text(alloc, system, count),
        Some(Task::Pairs(system, count)) => elimination::pairs_text(alloc, system, count),
        Some(Task::Steps(listing, count)) => Ok(listing::steps_text(alloc, listing, count)?),
    }
}
