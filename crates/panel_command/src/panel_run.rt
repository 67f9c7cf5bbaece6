//! A run of `panel`: the rules and both files of rows are fetched and read, the records corrected, the
//! release stored, and its summary printed. The clauses of a run say what is stored and printed where it
//! did all (`linked`), and with which fault it ended elsewhere (`stopped`). They also say that it did all
//! where nothing stood in the way (`complete`). What is wrong with a file is told exactly where it is so
//! (`due`).
ghost use Rattle.std.specs.Prelude.{◌≡◌, ◌≢◌, ◌<◌, ◌∷◌, [], if◌then◌else◌, ℕ, List, IfErr, IfOk, IfSome, length};
ghost use Rattle.edit_desk.specs.Desk.{PutsOnRecord, Told, fetched};
ghost use Rattle.record_text.specs.Sheets.{IsSheet};
ghost use Rattle.panel_files.specs.LastFields.{AreLastFields, last_fields, own_fields};
ghost use Rattle.panel_release.specs.PanelReleases.{IsPanelRelease};
ghost use Rattle.panel_command.specs.PanelInput.{IsOfPanelInput, IsPanelDue, RefusesPanel};
ghost use Rattle.panel_command.specs.PanelRun.{IsPanelComplete, IsPanelMade, IsPanelRun, IsPanelStopped, made_of, panel_calls, panel_command};
ghost use Rattle.run_parts.specs.CommandParts.{CommandEnds, end_of};
ghost use Rattle.run_parts.specs.Commands.{AreWritten, HasReleased};
ghost use Rattle.run_parts.specs.Faults.{IsOfPanel, IsOfStores};
ghost use Rattle.run_parts.specs.Parts.{AreCallsOf, StoresOf, done_end, faults_after, store_calls};
ghost use Rattle.run_parts.specs.Readings.{AnswersDue};
ghost use Rattle.run_parts.specs.Run.{ran};
ghost use Rattle.run_parts.specs.declared.fault.Fault.TheVariants as faults;

use crate::panel_input::{PanelInput, fetch_panel};
use command_words::PanelWords;
use edit_desk::{Desk, Printer};
use foundation::OutOfMemory;
use panel_release::{PanelRelease, release_panel};
use run_parts::{Refusal, Status, refuse, store_file, tell};
use std::alloc::Global;

/// Corrects the records that the words name, leaves their values of the last period alone, and prints the
/// summary, or why the run is refused. The answer is the status of the run: `Done`, or `SomeUnresolved`
/// where some record is not released. Else it is that of the refusal, or `WriteFault` where the summary is
/// not printed.
pub fn run_panel<D: Desk, P: Printer>(
    alloc: Global,
    asked: &PanelWords,
    desk: &mut D,
    printer: &mut P,
) -> Status
    ensures command { result ≢ Status.Usage }
    ensures linked { HasReleased result → IsPanelRun asked.now result (ran D.Desk P.Printer desk printer) }
    ensures stopped { ¬ HasReleased result → IsPanelStopped asked.now result (ran D.Desk P.Printer desk printer) }
    ensures complete { IsPanelComplete asked.now result (ran D.Desk P.Printer desk printer) }
    ensures due { IfSome (D.files desk.old) (λ files. AnswersDue (IsPanelDue asked.now files) result) }
{
    match correct(alloc, asked, desk) {
        Ok(release) => tell(printer, &release.summary, status_of(&release)),
        Err(refusal) => refuse(printer, refusal.line(), refusal.status()),
    }
}

// How a run ends whose files are stored: `SomeUnresolved` where some record is not released, and else
// `Done`.
fn status_of(release: &PanelRelease) -> Status
    ensures { result ≡ (if release.now.whole then Status.Done else Status.SomeUnresolved) }
{
    if release.whole {
        Status::Done
    } else {
        Status::SomeUnresolved
    }
}

// Does on the desk all that the command does there, up to the first fault: fetches, corrects, and stores
// the release, which it then answers. The clauses say which refusals may come (`kind`), what each says of
// the files (`cause`), and when one has to come (`due`). They also say what the desk has afterwards
// (`files`), and what was asked of it (`asked`).
fn correct<'a, D: Desk>(
    alloc: Global,
    asked: &PanelWords<'a>,
    desk: &mut D,
) -> Result<PanelRelease, Refusal<'a>>
    ensures kind { IfErr result IsOfPanel }
    ensures cause { IfErr result (λ fault. RefusesPanel asked.now (D.files desk.old) fault) }
    ensures due { IfSome (D.files desk.old) (λ files. AnswersDue (IsPanelDue asked.now files) (end_of (made_of asked.now) result)) }
    ensures files { Told (D.files desk.old) (D.files desk.new) (CommandEnds (panel_command asked.now) (made_of asked.now) result) }
    ensures asked { PutsOnRecord (D.calls desk.old) (D.calls desk.new) (AreCallsOf (panel_calls asked.now) result) }
    ensures faults { D.faults desk.new ≡ faults_after result (D.faults desk.old) }
{
    let release = make_release(alloc, asked, desk)?;
    store_release(alloc, asked, &release, desk)?;
    Ok(release)
}

// Fetches and reads the three files, and corrects the records. The clauses say that what is answered is to be
// made of the files (`made`), which refusals may come (`kind`), what each says of the files (`cause`), and when
// one has to come (`due`).
fn make_release<'a, D: Desk>(
    alloc: Global,
    asked: &PanelWords<'a>,
    desk: &mut D,
) -> Result<PanelRelease, Refusal<'a>>
    ensures made { IfOk result (λ release. IfSome (D.files desk.old) (λ files. IsPanelMade asked.now files (made_of asked.now release))) }
    ensures kind { IfErr result IsOfPanelInput }
    ensures cause { IfErr result (λ fault. RefusesPanel asked.now (D.files desk.old) fault) }
    ensures due { IfSome (D.files desk.old) (λ files. AnswersDue (IsPanelDue asked.now files) (done_end result)) }
    ensures asked { PutsOnRecord (D.calls desk.old) (D.calls desk.new)
        (AreCallsOf (fetched asked.now.rules ∷ fetched asked.now.records ∷ fetched asked.now.last ∷ []) result) }
    ensures faults { D.faults desk.new ≡ faults_after result (D.faults desk.old) }
    ensures unchanged { D.files desk.new ≡ D.files desk.old }
{
    let input = fetch_panel(alloc, asked, desk)?;
    correct_records(alloc, &input, asked.budget)
}

// Corrects the records of what was read, within this budget for each. The only fault is want of memory.
fn correct_records<'a>(
    alloc: Global,
    input: &PanelInput,
    budget: u64,
) -> Result<PanelRelease, Refusal<'a>>
    requires set { AreLastFields input.now.survey.fields input.now.set }
    requires own { (bytes : List ℕ) × IsSheet (own_fields input.now.survey.fields input.now.set) bytes input.now.files.own }
    requires last { (bytes : List ℕ) × IsSheet (last_fields input.now.survey.fields input.now.set) bytes input.now.files.last }
    requires own_key { input.now.files.own_key < length input.now.files.own.header }
    requires last_key { input.now.files.last_key < length input.now.files.last.header }
    ensures released { IfOk result (IsPanelRelease input.now budget) }
    ensures memory { IfErr result (λ fault. fault ≡ faults.OutOfMemory) }
{
    match release_panel(alloc, &input.panel(), budget) {
        Ok(release) => Ok(release),
        Err(OutOfMemory) => Err(Refusal::out_of_memory()),
    }
}

// Stores the proof, the reasons, and then the released file; the first that fails ends the call, and is the
// refusal. The released file comes last, so that where it is stored, its proof and its reasons are, too. Where
// all are stored, each stands under its name (`written`).
fn store_release<'a, D: Desk>(
    alloc: Global,
    asked: &PanelWords<'a>,
    release: &PanelRelease,
    desk: &mut D,
) -> Result<(), Refusal<'a>>
    ensures kind { IfErr result IsOfStores }
    ensures files { Told (D.files desk.old) (D.files desk.new) (StoresOf (made_of asked.now release.now).files result) }
    ensures written { IfOk result (λ done. Told (D.files desk.old) (D.files desk.new) (AreWritten (made_of asked.now release.now).files)) }
    ensures asked { PutsOnRecord (D.calls desk.old) (D.calls desk.new)
        (AreCallsOf (store_calls (made_of asked.now release.now).files) result) }
    ensures faults { D.faults desk.new ≡ faults_after result (D.faults desk.old) }
{
    store_file(alloc, asked.proof, &release.proof, desk)?;
    store_file(alloc, asked.reasons, &release.reasons, desk)?;
    store_file(alloc, asked.released, &release.released, desk)?;
    Ok(())
}
