//! A program that searches for the least set of fields to change in each record of a file. So the search
//! can be timed beside other editors. The search of a file is in `search`.
#![tactic(auto)]

ghost use Rattle.std.specs.Prelude.{◌≡◌, ◌<◌, ◌^◌, Err, IfOk, length, string_bytes};
ghost use Rattle.search_bench.specs.inner.Texts.{rules_fault_of, sheet_fault_of};
ghost use Rattle.search_bench.specs.inner.Told.{HasNoRules, HasNoSheet, IsTold};

mod search;

use bench_frame::{Fault, leave};
use edit_desk::{OutPrinter, words_of};
use edit_language::{RulesFault, read_rules};
use record_text::{SheetFault, read_records};
use std::alloc::Global;
use std::io::ErrorKind;
use std::process::ExitCode;
use std::{env, fs};

// The words that are in form.
const USAGE: &str = "usage: search_bench RULES RECORDS";

// Prints what the search finds in the files that the words name, or why nothing is told, and ends with
// the status that says so.
fn main(rt: HostRuntime) -> ExitCode {
    let alloc = rt.alloc();
    let told = run_bench(&rt, alloc);
    leave(alloc, &mut OutPrinter::new(rt), USAGE, told)
}

// Runs the bench on the two files that the words name, and answers what is to be printed. `Fault::Usage`
// where the words are not two, or one is no text. Else the faults of `bytes_of` and `text_of`.
fn run_bench(rt: &HostRuntime, alloc: Global) -> Result<String, Fault> {
    let words = words_of(alloc, env::args(rt))?;
    let [rules, records] = words.as_slice() else {
        return Err(Fault::Usage);
    };
    let rules = bytes_of(rt, rules)?;
    let records = bytes_of(rt, records)?;
    text_of(alloc, &rules, &records)
}

// The bytes of the file of this name. `Fault::Unread` where it can't be read, or has 2^32 bytes or more,
// which the reading of rules does not take.
fn bytes_of(rt: &HostRuntime, name: &str) -> Result<Vec<u8>, Fault>
    ensures { IfOk result (λ bytes. length bytes.items < 2 ^ 32) }
{
    match fs::read(rt, name) {
        Ok(bytes) if bytes.len() < 1 << 32 => Ok(bytes),
        Ok(_) => Err(Fault::Unread),
        Err(error) if error.kind() == ErrorKind::OutOfMemory => Err(Fault::OutOfMemory),
        Err(_) => Err(Fault::Unread),
    }
}

// What is printed of the bytes of a rule file and of a record file. `Fault::Rules` or `Fault::Records`
// where one has no reading (`HasNoRules`, `HasNoSheet`); `Fault::OutOfMemory` where memory was refused.
// `IsTold` says that both have a reading, and that the text is that of their search.
fn text_of(alloc: Global, rules: &[u8], records: &[u8]) -> Result<String, Fault>
    requires { length rules.now < 2 ^ 32 }
    ensures told { IfOk result (λ text. IsTold rules.now records.now (string_bytes text)) }
    ensures rules { result ≡ Err Fault.Rules → HasNoRules rules.now }
    ensures records { result ≡ Err Fault.Records → HasNoSheet rules.now records.now }
{
    let survey = match read_rules(alloc, rules) {
        Ok(survey) => survey,
        Err(fault) => return Err(rules_fault(fault)),
    };
    let sheet = match read_records(alloc, &survey, records) {
        Ok(sheet) => sheet,
        Err(fault) => return Err(sheet_fault(fault)),
    };
    Ok(search::search_text(alloc, &survey, &sheet)?)
}

// Why the bench tells nothing where a rule file was refused for this `fault`: `Fault::Rules`, or
// `Fault::OutOfMemory` where memory was refused.
fn rules_fault(fault: RulesFault) -> Fault
    ensures { result ≡ rules_fault_of fault }
{
    match fault {
        RulesFault::At { .. } => Fault::Rules,
        RulesFault::OutOfMemory => Fault::OutOfMemory,
    }
}

// Why the bench tells nothing where a record file was refused for this `fault`: `Fault::Records`, or
// `Fault::OutOfMemory` where memory was refused.
fn sheet_fault(fault: SheetFault) -> Fault
    ensures { result ≡ sheet_fault_of fault }
{
    match fault {
        SheetFault::OutOfMemory => Fault::OutOfMemory,
        _ => Fault::Records,
    }
}
