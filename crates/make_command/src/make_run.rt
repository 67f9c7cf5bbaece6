//! A run of `make`: the rules of a survey that is made up, and records of it, are stored. No file is
//! read. The clauses of a run say what is stored and printed where it did all (`made`), and with which
//! fault it ended elsewhere (`stopped`). They also say that it did all where nothing stood in the way
//! (`complete`).
//!
//! In contracts, `ran` is what is seen of the desk and the printer before and after the call. Of the work
//! on the desk, `kind` says which refusals may come, and `files` what is left there. `asked` says which
//! calls are made, and `faults` how the count of faults stands after them.
ghost use Rattle.std.specs.Prelude.{◌≡◌, ◌≢◌, ◌∷◌, [], IfErr, IfOk};
ghost use Rattle.edit_desk.specs.Desk.{PutsOnRecord, Told, stored};
ghost use Rattle.edit_language.specs.Printing.{printed};
ghost use Rattle.survey_maker.specs.RecordFiles.{record_file};
ghost use Rattle.survey_maker.specs.SurveyMade.{survey_made};
ghost use Rattle.run_parts.specs.Faults.{IsOfStores};
ghost use Rattle.make_command.specs.MakeRun.{IsMakeComplete, IsMakeStopped, IsSurveyMade, made_text, make_calls};
ghost use Rattle.run_parts.specs.Run.{ran};
ghost use Rattle.make_command.specs.inner.MakeParts.{MakeEnds};
ghost use Rattle.run_parts.specs.Parts.{AreCallsOf, StoresOf, faults_after};

use command_words::MakeWords;
use edit_desk::{Desk, Printer};
use foundation::OutOfMemory;
use run_parts::{Refusal, Status, refuse, store_file, tell};
use std::alloc::Global;
use survey_maker::{records_text, rules_text};

// What is stored and printed of a survey that is made: its rule file, its record file, and the line that
// counts the records. The line has no line feed.
#[derive(Drop)]
struct SurveyTexts {
    rules: Vec<u8>,
    records: Vec<u8>,
    line: Vec<u8>,
}

/// Stores the survey that the words ask for, under the names that they give. It prints how many records
/// the survey has, or why the run is refused, and answers the status of the run.
pub fn run_make<D: Desk, P: Printer>(
    alloc: Global,
    asked: &MakeWords,
    desk: &mut D,
    printer: &mut P,
) -> Status
    ensures command { result ≢ Status.Usage }
    ensures made { result ≡ Status.Done → IsSurveyMade asked.now (ran D.Desk P.Printer desk printer) }
    ensures stopped { result ≢ Status.Done → IsMakeStopped asked.now result (ran D.Desk P.Printer desk printer) }
    ensures complete { IsMakeComplete result (ran D.Desk P.Printer desk printer) }
{
    match make_survey(alloc, asked, desk) {
        Ok(made) => tell(printer, &made.line, Status::Done),
        Err(refusal) => refuse(printer, refusal.line(), refusal.status()),
    }
}

// Does all of a run but the printing, up to the first fault: it makes the survey and stores both files. It
// gives the texts that it stored, and the line to be printed. Refused where a store fails, and for want of
// memory.
fn make_survey<'a, D: Desk>(
    alloc: Global,
    asked: &MakeWords<'a>,
    desk: &mut D,
) -> Result<SurveyTexts, Refusal<'a>>
    ensures kind { IfErr result IsOfStores }
    ensures line { IfOk result (λ made. made.line.items ≡ made_text asked.now.rows) }
    ensures files { Told (D.files desk.old) (D.files desk.new) (MakeEnds asked.now result) }
    ensures asked { PutsOnRecord (D.calls desk.old) (D.calls desk.new) (AreCallsOf (make_calls asked.now) result) }
    ensures faults { D.faults desk.new ≡ faults_after result (D.faults desk.old) }
{
    let Ok(made) = survey_of(alloc, asked.start, asked.rows) else {
        return Err(Refusal::out_of_memory());
    };
    store_survey(alloc, asked.rules, asked.records, &made, desk)?;
    Ok(made)
}

// The texts of a survey that is made up: the rule file, a record file of `rows` records, and the line that is
// printed, as `made rows 100`. The records follow from the number `start`, so that one start gives one file.
fn survey_of(alloc: Global, start: u32, rows: u32) -> Result<SurveyTexts, OutOfMemory>
    ensures rules { IfOk result (λ made. made.rules.items ≡ printed survey_made) }
    ensures records { IfOk result (λ made. made.records.items ≡ record_file start rows) }
    ensures line { IfOk result (λ made. made.line.items ≡ made_text rows) }
{
    let rules = rules_text(alloc)?;
    let records = records_text(alloc, start, rows)?;
    let line = format!(in alloc; "made rows {rows}")?.into_bytes();
    Ok(SurveyTexts {
        rules,
        records,
        line,
    })
}

// Stores the rule file under the name `rules`, and then the record file under the name `records`. Refused
// at the first store that fails, and for want of memory.
fn store_survey<'a, D: Desk>(
    alloc: Global,
    rules: &'a str,
    records: &'a str,
    made: &SurveyTexts,
    desk: &mut D,
) -> Result<(), Refusal<'a>>
    ensures kind { IfErr result IsOfStores }
    ensures files { Told (D.files desk.old) (D.files desk.new)
        (StoresOf ((rules.entry.now, made.now.rules.items) ∷ (records.entry.now, made.now.records.items) ∷ []) result) }
    ensures asked { PutsOnRecord (D.calls desk.old) (D.calls desk.new)
        (AreCallsOf (stored rules.entry.now ∷ stored records.entry.now ∷ []) result) }
    ensures faults { D.faults desk.new ≡ faults_after result (D.faults desk.old) }
{
    store_file(alloc, rules, &made.rules, desk)?;
    store_file(alloc, records, &made.records, desk)
}
