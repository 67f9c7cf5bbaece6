//! A run of `fill`: the rules and the records are fetched, values that the rules force are filled in, and
//! the released file is stored. The clauses of a run say what is stored and printed where it did all
//! (`filled`), and with which fault it ended elsewhere (`stopped`). They also say that it did all where
//! nothing stood in the way (`complete`). What is wrong with a file is told exactly where it is so (`due`).
ghost use Rattle.std.specs.Prelude.{◌≡◌, ◌≢◌, ℕ, List, if◌then◌else◌, IfErr, IfOk, IfSome};
ghost use Rattle.edit_desk.specs.Desk.{PutsOnRecord, Told};
ghost use Rattle.fill_command.specs.FillRun.{IsFillComplete, IsFillDue, IsFillRun, IsFillStopped, fill_calls, fill_command, made_of};
ghost use Rattle.filled_release.specs.FilledFiles.{IsFilledFile};
ghost use Rattle.record_text.specs.Sheets.{IsSheet};
ghost use Rattle.run_parts.specs.CommandParts.{CommandEnds, end_of};
ghost use Rattle.run_parts.specs.Commands.{HasReleased};
ghost use Rattle.run_parts.specs.Faults.{IsOfEdit};
ghost use Rattle.run_parts.specs.Parts.{AreCallsOf, faults_after};
ghost use Rattle.run_parts.specs.Readings.{AnswersDue, RefusesInput};
ghost use Rattle.run_parts.specs.Run.{ran};

use command_words::FillWords;
use edit_desk::{Desk, Printer};
use edit_model::Survey;
use filled_release::{FilledFile, fill_sheet};
use foundation::OutOfMemory;
use record_text::Sheet;
use run_parts::{Refusal, Status, fetch_input, refuse, store_file, tell};
use std::alloc::Global;

/// Fills the records that the words name, and prints how many fields were filled, or why the run is
/// refused. The answer is the status of the run: `Done`, or `SomeUnresolved` where filling stopped on some
/// record. Else it is that of the refusal, or `WriteFault` where the summary is not printed.
pub fn run_fill<D: Desk, P: Printer>(
    alloc: Global,
    asked: &FillWords,
    desk: &mut D,
    printer: &mut P,
) -> Status
    ensures command { result ≢ Status.Usage }
    ensures filled { HasReleased result → IsFillRun asked.now result (ran D.Desk P.Printer desk printer) }
    ensures stopped { ¬ HasReleased result → IsFillStopped asked.now result (ran D.Desk P.Printer desk printer) }
    ensures complete { IsFillComplete asked.now result (ran D.Desk P.Printer desk printer) }
    ensures due { IfSome (D.files desk.old) (λ files. AnswersDue (IsFillDue asked.now files) result) }
{
    match fill(alloc, asked, desk) {
        Ok(file) => tell(printer, &file.summary, status_of(&file)),
        Err(refusal) => refuse(printer, refusal.line(), refusal.status()),
    }
}

// How a run ends whose file is stored: `Done` where filling stopped on no record, and else
// `SomeUnresolved`.
fn status_of(file: &FilledFile) -> Status
    ensures { result ≡ (if file.now.whole then Status.Done else Status.SomeUnresolved) }
{
    if file.whole {
        Status::Done
    } else {
        Status::SomeUnresolved
    }
}

// Does on the desk all that the command does there, up to the first fault. It fetches, fills, and stores
// the released file, which it then answers. The clauses say which refusals may come (`kind`), what each
// says of the files (`cause`), and when one has to come (`due`). They also say what the desk has afterwards
// (`files`), and what was asked of it (`asked`).
fn fill<'a, D: Desk>(
    alloc: Global,
    asked: &FillWords<'a>,
    desk: &mut D,
) -> Result<FilledFile, Refusal<'a>>
    ensures kind { IfErr result IsOfEdit }
    ensures cause { IfErr result (λ fault. RefusesInput asked.now.rules asked.now.records (D.files desk.old) fault) }
    ensures due { IfSome (D.files desk.old) (λ files. AnswersDue (IsFillDue asked.now files) (end_of (made_of asked.now) result)) }
    ensures files { Told (D.files desk.old) (D.files desk.new) (CommandEnds (fill_command asked.now) (made_of asked.now) result) }
    ensures asked { PutsOnRecord (D.calls desk.old) (D.calls desk.new) (AreCallsOf (fill_calls asked.now) result) }
    ensures faults { D.faults desk.new ≡ faults_after result (D.faults desk.old) }
{
    let input = fetch_input(alloc, asked.rules, asked.records, desk)?;
    let Ok(file) = fill_input(alloc, input, asked.budget) else {
        return Err(Refusal::out_of_memory());
    };
    store_file(alloc, asked.released, &file.released, desk)?;
    Ok(file)
}

// What filling makes of the sheet of the survey's records. The survey and the sheet are used up. `budget` is
// the most work for each record.
fn fill_input(alloc: Global, input: (Survey, Sheet), budget: u64) -> Result<FilledFile, OutOfMemory>
    requires sheet { (bytes : List ℕ) × IsSheet input.0.fields bytes input.1 }
    ensures filled { IfOk result (IsFilledFile input.0 input.1 budget) }
{
    let (survey, sheet) = input;
    fill_sheet(alloc, &survey, &sheet, budget)
}
