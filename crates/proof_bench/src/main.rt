//! A program that reads a proof file and tells how much it holds, or the first line that can't go on. So
//! the reading can be timed.
#![tactic(auto)]

ghost use Rattle.std.specs.Prelude.{◌≡◌, IfOk, string_bytes};
ghost use Rattle.proof_bench.specs.inner.Told.{IsTold, counts_text, fault_text};

use bench_frame::{Fault, leave};
use edit_desk::{OutPrinter, words_of};
use proof_text::{ProofFault, ProofFile, open_proof};
use std::alloc::Global;
use std::io::ErrorKind;
use std::process::ExitCode;
use std::{env, fs};

// The words that are in form.
const USAGE: &str = "usage: proof_bench FILE";

// Prints what the proof file that the word names holds, or why nothing is told, and ends with the status
// that says so.
fn main(rt: HostRuntime) -> ExitCode {
    let alloc = rt.alloc();
    let told = run_bench(&rt, alloc);
    leave(alloc, &mut OutPrinter::new(rt), USAGE, told)
}

// Runs the bench on the file that the one word names, and answers what is to be printed. `Fault::Usage`
// where there are more words or none, or one is no text. `Fault::FileUnread` where the file can't be read.
fn run_bench(rt: &HostRuntime, alloc: Global) -> Result<String, Fault> {
    let words = words_of(alloc, env::args(rt))?;
    let [name] = words.as_slice() else {
        return Err(Fault::Usage);
    };
    match fs::read(rt, name) {
        Ok(bytes) => text_of(alloc, &bytes),
        Err(error) if error.kind() == ErrorKind::OutOfMemory => Err(Fault::OutOfMemory),
        Err(_) => Err(Fault::FileUnread),
    }
}

// What is printed of the bytes of a proof file: its counts, or its first line that can't go on. `IsTold`
// says that one of these holds of the bytes. `Fault::OutOfMemory` is the only refusal.
fn text_of(alloc: Global, bytes: &[u8]) -> Result<String, Fault>
    ensures { IfOk result (λ text. IsTold bytes.now (string_bytes text)) }
{
    match open_proof(alloc, bytes) {
        Ok(proof) => Ok(counts_line(alloc, &proof)?),
        Err(ProofFault::At { line }) => Ok(fault_line(alloc, line)?),
        Err(ProofFault::OutOfMemory) => Err(Fault::OutOfMemory),
    }
}

// How many lines of the rules, steps of the table, records and claims the proof has, as a line of text
// with its line feed.
fn counts_line(alloc: Global, proof: &ProofFile) -> Result<String, Fault>
    ensures { IfOk result (λ text. string_bytes text ≡ counts_text proof.now) }
{
    let verdicts = proof.verdicts().len();
    let table = proof.table().len();
    let rows = proof.rows().len();
    let claims = proof.claims().len();
    Ok(format!(in alloc; "lines {verdicts} table {table} records {rows} claims {claims}\n")?)
}

// A line of text, with its line feed, that names the first line, from 1, at which the bytes can't go on
// as a proof.
fn fault_line(alloc: Global, line: u64) -> Result<String, Fault>
    ensures { IfOk result (λ text. string_bytes text ≡ fault_text line) }
{
    Ok(format!(in alloc; "line {line} can't go on\n")?)
}
