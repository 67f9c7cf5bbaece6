//! A run of `edit`, and one of `classed`: files are fetched and read, the records edited, the release
//! stored, and its summary printed. Both are one run, with a class field or without. The clauses of a run
//! say what is stored and printed where it did all (`edited` or `classed`), and with which fault it ended
//! elsewhere (`stopped`). They also say that it did all where nothing stood in the way (`complete`), and
//! that what is wrong with a file is told exactly where it is so (`due`).
//!
//! In contracts, `HasReleased` says that the run ends with `Done` or `SomeUnresolved`. `ran` is what is
//! seen of the desk and the printer before and after the call. `AnswersDue` says that a status that is due
//! is answered, unless a file could not be read or memory was refused. Of the work on the desk, `kind`
//! says which refusals may come, and `cause` what each says of the files. `files` says what is left there,
//! `asked` which calls are made, and `faults` how the count of faults stands after them.
ghost use Rattle.std.specs.Prelude.{◌≡◌, ◌≢◌, ◌<◌, ℕ, List, IfErr, IfOk, IfSome, length, option_copied};
ghost use Rattle.std.specs.List.{AllByRecursion};
ghost use Rattle.edit_desk.specs.Desk.{PutsOnRecord, Told};
ghost use Rattle.edit_model.specs.PlainNumbers.{HasPlainNumbers};
ghost use Rattle.record_text.specs.Sheets.{IsSheet};
ghost use Rattle.record_editing.specs.Donations.{AreTerms};
ghost use Rattle.edit_release.specs.Releases.{IsReleaseOf};
ghost use Rattle.run_parts.specs.CommandParts.{CommandEnds, end_of};
ghost use Rattle.run_parts.specs.Commands.{HasReleased, IsStopped, IsWhole};
ghost use Rattle.run_parts.specs.Faults.{IsOfStores};
ghost use Rattle.run_parts.specs.Parts.{AreCallsOf, StoresOf, faults_after, store_calls};
ghost use Rattle.run_parts.specs.Readings.{AnswersDue, IsDue};
ghost use Rattle.run_parts.specs.Run.{ran};
ghost use Rattle.edit_command.specs.ClassedRun.{IsClassedComplete, IsClassedDue, IsClassedRun, IsClassedStopped};
ghost use Rattle.edit_command.specs.EditRun.{IsEditComplete, IsEditStopped, IsEdited, edit_calls};
ghost use Rattle.edit_command.specs.Edits.{terms_asked};
ghost use Rattle.edit_command.specs.inner.EditParts.{edit_status, release_files, release_made};
ghost use Rattle.edit_command.specs.inner.EitherRun.{IsEitherComplete, IsEitherDue, IsOfEither, RefusesEither, either_command};

use crate::edit_input::{EditInput, fetch_edit};
use command_words::{ClassedWords, EditWords};
use donor_measure::{Measure, Yardsticks};
use edit_desk::{Desk, Printer};
use edit_model::Value;
use edit_release::{Release, edit_sheet};
use foundation::OutOfMemory;
use record_editing::Terms;
use record_workers::Gate;
use run_parts::{Refusal, Status, refuse, store_file, tell_all};
use std::alloc::Global;
use std::sync::Wait;
use std::thread::Threads;

/// Edits the records that the words name, with donors among all clean records, and prints the summary, or
/// why the run is refused. The answer is the status of the run. `gate` is told of each record that a
/// worker draws.
pub fn run_edit<R: Threads + Wait + Sync, D: Desk, P: Printer, G: Gate>(
    rt: &R,
    alloc: Global,
    asked: &EditWords,
    desk: &mut D,
    printer: &mut P,
    gate: &G,
) -> Status
    ensures command { result ≢ Status.Usage }
    ensures edited { HasReleased result → IsEdited asked.now result (ran D.Desk P.Printer desk printer) }
    ensures stopped { ¬ HasReleased result → IsEditStopped asked.now result (ran D.Desk P.Printer desk printer) }
    ensures complete { IsEditComplete asked.now result (ran D.Desk P.Printer desk printer) }
    ensures due { IfSome (D.files desk.old) (λ files. AnswersDue (IsDue asked.now files) result) }
{
    run_either(rt, alloc, asked, None, desk, printer, gate)
}

/// Edits the records that the words name, with donors of a record's own imputation class, by the field
/// that the words name too. It prints the summary, or why the run is refused, and answers the status of
/// the run. `gate` is told of each record that a worker draws.
pub fn run_classed<R: Threads + Wait + Sync, D: Desk, P: Printer, G: Gate>(
    rt: &R,
    alloc: Global,
    asked: &ClassedWords,
    desk: &mut D,
    printer: &mut P,
    gate: &G,
) -> Status
    ensures command { result ≢ Status.Usage }
    ensures classed { HasReleased result → IsClassedRun asked.now result (ran D.Desk P.Printer desk printer) }
    ensures stopped { ¬ HasReleased result → IsClassedStopped asked.now result (ran D.Desk P.Printer desk printer) }
    ensures complete { IsClassedComplete asked.now result (ran D.Desk P.Printer desk printer) }
    ensures due { IfSome (D.files desk.old) (λ files. AnswersDue (IsClassedDue asked.now files) result) }
{
    run_either(
        rt,
        alloc,
        &asked.edit,
        Some(asked.class),
        desk,
        printer,
        gate,
    )
}

// The run of both commands. It edits the records that the words name, by the classes of the field named
// `class`, or without classes where that is None. It prints the summary, or why the run is refused, and
// answers the status of the run.
fn run_either<'a, R: Threads + Wait + Sync, D: Desk, P: Printer, G: Gate>(
    rt: &R,
    alloc: Global,
    asked: &EditWords<'a>,
    class: Option<&'a str>,
    desk: &mut D,
    printer: &mut P,
    gate: &G,
) -> Status
    ensures command { result ≢ Status.Usage }
    ensures whole { HasReleased result → IsWhole (either_command asked.now (option_copied class.entry)) result
        (ran D.Desk P.Printer desk printer) }
    ensures stopped { ¬ HasReleased result → IsStopped (either_command asked.now (option_copied class.entry)) result
        (ran D.Desk P.Printer desk printer) }
    ensures complete { IsEitherComplete asked.now (option_copied class.entry) result (ran D.Desk P.Printer desk printer) }
    ensures due { IfSome (D.files desk.old) (λ files.
        AnswersDue (IsEitherDue asked.now.names.rules asked.now.names.records (option_copied class.entry) files) result) }
{
    match edit_and_store(rt, alloc, asked, class, desk, gate) {
        Ok(release) => tell_all(printer, &release.summary, status_of(&release)),
        Err(refusal) => refuse(printer, refusal.line(), refusal.status()),
    }
}

// The status of an edit whose files are stored: `Done` where all records are released, and
// `SomeUnresolved` where one was left out.
fn status_of(release: &Release) -> Status
    ensures { result ≡ edit_status release.now }
{
    if release.whole {
        Status::Done
    } else {
        Status::SomeUnresolved
    }
}

// Does all of a run but the printing, up to the first fault: it fetches the files, edits the records, and
// stores the release, which it then answers. Refused where a file can't be had or has no reading, no
// categorical field has the name asked for, a store fails, or memory is refused.
fn edit_and_store<'a, R: Threads + Wait + Sync, D: Desk, G: Gate>(
    rt: &R,
    alloc: Global,
    asked: &EditWords<'a>,
    class: Option<&'a str>,
    desk: &mut D,
    gate: &G,
) -> Result<Release, Refusal<'a>>
    ensures kind { IfErr result (IsOfEither (option_copied class.entry)) }
    ensures cause { IfErr result (λ fault.
        RefusesEither asked.now.names.rules asked.now.names.records (option_copied class.entry) (D.files desk.old) fault) }
    ensures due { IfSome (D.files desk.old) (λ files.
        AnswersDue (IsEitherDue asked.now.names.rules asked.now.names.records (option_copied class.entry) files)
        (end_of (release_made asked.now) result)) }
    ensures files { Told (D.files desk.old) (D.files desk.new)
        (CommandEnds (either_command asked.now (option_copied class.entry)) (release_made asked.now) result) }
    ensures asked { PutsOnRecord (D.calls desk.old) (D.calls desk.new) (AreCallsOf (edit_calls asked.now) result) }
    ensures faults { D.faults desk.new ≡ faults_after result (D.faults desk.old) }
{
    let input = fetch_edit(alloc, asked.rules, asked.records, class, desk)?;
    let Ok(release) = release_of(rt, alloc, input, asked, gate) else {
        return Err(Refusal::out_of_memory());
    };
    store_release(alloc, asked, &release, desk)?;
    Ok(release)
}

// Stores the proof, the reasons, and then the released file. The released file is last: where it is
// stored, the other two are. Refused at the first store that fails, and for want of memory.
fn store_release<'a, D: Desk>(
    alloc: Global,
    asked: &EditWords<'a>,
    release: &Release,
    desk: &mut D,
) -> Result<(), Refusal<'a>>
    ensures kind { IfErr result IsOfStores }
    ensures files { Told (D.files desk.old) (D.files desk.new) (StoresOf (release_files asked.now release.now) result) }
    ensures asked { PutsOnRecord (D.calls desk.old) (D.calls desk.new)
        (AreCallsOf (store_calls (release_files asked.now release.now)) result) }
    ensures faults { D.faults desk.new ≡ faults_after result (D.faults desk.old) }
{
    store_file(alloc, asked.proof, &release.proof, desk)?;
    store_file(alloc, asked.reasons, &release.reasons, desk)?;
    store_file(alloc, asked.released, &release.released, desk)?;
    Ok(())
}

// The terms on which the words ask to edit: a record's budget, how often a donor gives values, and how
// many donors a record ranks. `class_field` is the number of the class field, if one is asked for.
fn terms_asked(asked: &EditWords, class_field: Option<u32>) -> Terms
    ensures terms { result ≡ terms_asked asked.now class_field }
    ensures are { AreTerms result }
{
    Terms {
        budget: asked.budget,
        limit: asked.limit,
        near: asked.near,
        class_field,
    }
}

// The release of the edit of the sheet, on the terms and by as many workers as the words ask for. How far
// apart two records are is told by the distances of their fields' values, each by its field's scale.
fn release_of<R: Threads + Wait + Sync, G: Gate>(
    rt: &R,
    alloc: Global,
    input: EditInput,
    asked: &EditWords,
    gate: &G,
) -> Result<Release, OutOfMemory>
    requires read { (bytes : List ℕ) × IsSheet input.survey.fields bytes input.sheet }
    requires plain { AllByRecursion HasPlainNumbers input.sheet.rows }
    requires field { IfSome input.class_field (λ number. number < length input.survey.fields) }
    ensures edit { IfOk result (IsReleaseOf input.survey input.sheet (terms_asked asked.now input.class_field) asked.now.workers) }
{
    let EditInput {
        survey,
        class_field,
        sheet,
    } = input;
    let yardsticks = Yardsticks::of(&survey);
    let measure = Measure::new(&survey, move |field: u32, first: &Value, second: &Value| {
        yardsticks.distance(field, first, second)
    });
    let terms = terms_asked(asked, class_field);
    edit_sheet(
        rt,
        alloc,
        survey,
        sheet,
        measure,
        terms,
        asked.workers,
        gate,
    )
}
