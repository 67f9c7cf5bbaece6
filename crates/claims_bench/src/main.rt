//! A program that draws tickets and claims donors with some threads, so that a draw and a claim can be
//! timed. What a thread does is in `worker`; the threads are run, and what they did is counted, in
//! `tally`.
#![tactic(auto)]

ghost use Rattle.std.specs.Prelude.{◌≡◌, IfErr, IfOk, string_bytes};
ghost use Rattle.claims_bench.specs.inner.Plans.{IsServed};
ghost use Rattle.claims_bench.specs.inner.Tallies.{IsTold};
ghost use Rattle.claims_bench.specs.inner.Texts.{counts_text};

mod tally;
mod words;
mod worker;

use bench_frame::{Fault, leave};
use donor_book::Won;
use edit_desk::{OutPrinter, words_of};
use foundation::OutOfMemory;
use std::alloc::Global;
use std::env;
use std::process::ExitCode;
use std::thread::Threads;
use tally::{Plan, carry_out};

// The words that are in form.
const USAGE: &str = "usage: claims_bench [COUNT THREADS]";

// Runs the bench that the words ask for. It prints how many tickets were drawn and donors claimed, or why
// it tells nothing, and ends with the status of that.
fn main(rt: HostRuntime) -> ExitCode {
    let alloc = rt.alloc();
    let told = text_for_words(&rt, alloc);
    leave(alloc, &mut OutPrinter::new(rt), USAGE, told)
}

// The text to be printed for the words after the program's name: that of the plan that they ask for.
// `Fault::Usage` where they are not in form, and `Fault::OutOfMemory` where memory is refused.
fn text_for_words<R: std::rt::Env + AllocGlobal + Threads + Sync>(
    rt: &R,
    alloc: Global,
) -> Result<String, Fault> {
    let words = words_of(alloc, env::args(rt))?;
    match words::plan_of(&words) {
        None => Err(Fault::Usage),
        Some(plan) => text_of(rt, alloc, plan),
    }
}

// Carries out the plan, and gives the text to be printed: the counts of what was drawn and claimed. The
// plan has at most 10^7 tickets, and 1 to 64 threads (`IsServed`). The one fault is refused memory.
fn text_of<R: Threads + Sync>(rt: &R, alloc: Global, plan: Plan) -> Result<String, Fault>
    requires { IsServed plan }
    ensures text { IfOk result (λ text. IsTold plan (string_bytes text)) }
    ensures refused { IfErr result (λ fault. fault ≡ Fault.OutOfMemory) }
{
    let tally = carry_out(rt, alloc, plan)?;
    Ok(counts_text(alloc, tally.drawn, &tally.history)?)
}

// The counts as a line of text, with its line feed. They are how many numbers were drawn, how many rows
// have claimed, how many of these were given a donor, and how many nobody. `history` has a claim of each
// row.
fn counts_text(alloc: Global, drawn: u32, history: &[Won]) -> Result<String, OutOfMemory>
    ensures { IfOk result (λ text. string_bytes text ≡ counts_text drawn history.now) }
{
    let claimed = history.len();
    let given = history.iter().filter(|won| won.reply.is_some()).count();
    let nobody = history.iter().filter(|won| won.reply.is_none()).count();
    Ok(format!(in alloc; "drawn {drawn} claimed {claimed} given {given} nobody {nobody}\n")?)
}
