//! A program that makes a certificate and checks it, so that the checking can be timed. The certificate is
//! made in `certificate`, and checked, and its verdict told, in `verdict`.
#![tactic(auto)]

ghost use Rattle.std.specs.Prelude.{map, string_bytes};
ghost use Rattle.certificate_bench.specs.inner.Plans.{plan_in};
ghost use Rattle.certificate_bench.specs.inner.Told.{IsTold};

mod certificate;
mod verdict;
mod words;

use bench_frame::{Fault, leave};
use edit_desk::{OutPrinter, words_of};
use std::alloc::Global;
use std::env;
use std::process::ExitCode;

// The words that are in form.
const USAGE: &str = "usage: certificate_bench leaves DEPTH | steps COUNT [broken]";

// Prints the verdict on the certificate that the words ask for, or why none is told, and ends with the
// status that says so.
fn main(rt: HostRuntime) -> ExitCode {
    let alloc = rt.alloc();
    let told = run_bench(&rt, alloc);
    leave(alloc, &mut OutPrinter::new(rt), USAGE, told)
}

// Runs the bench by the words after the program's name, and answers what is to be printed. `Fault::Usage`
// where a word is no text or the words ask for nothing, and else `Fault::OutOfMemory`.
fn run_bench<R: std::rt::Env + AllocGlobal>(rt: &R, alloc: Global) -> Result<String, Fault> {
    let words = words_of(alloc, env::args(rt))?;
    text_of(alloc, &words)
}

// What is printed of these words; `Fault::Usage` where they ask for nothing. `IsTold` says that the text
// is the verdict on the certificate that is asked for.
fn text_of(alloc: Global, words: &[String]) -> Result<String, Fault>
    ensures { IsTold result (plan_in (map string_bytes words.now)) }
{
    match words::plan_of(words) {
        None => Err(Fault::Usage),
        Some(plan) => Ok(verdict::plan_text(alloc, plan)?),
    }
}
