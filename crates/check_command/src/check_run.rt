//! A run of `check`: the rules, the records, the released file and the proof are fetched, and the verdict
//! of the audit is printed. Nothing is stored. The clauses of a run say what is shown and printed where
//! it did all (`checked`), and with which fault it ended elsewhere (`stopped`). They also say that it did
//! all where nothing stood in the way (`complete`), and that what is wrong with a file is told exactly
//! where it is so (`due`).
//!
//! In contracts, `ran` is what is seen of the desk and the printer before and after the call. `AnswersDue`
//! says that a status that is due is answered, unless a file could not be read or memory was refused. Of
//! the work on the desk, `kind` says which refusals may come, and `cause` what each says of the files.
//! `asked` says which calls the desk is asked for, `faults` how its count of faults stands after them, and
//! `unchanged` that no file is changed.
ghost use Rattle.std.specs.Prelude.{◌≡◌, ◌≢◌, ℕ, List, IfErr, IfOk, IfSome};
ghost use Rattle.edit_desk.specs.Desk.{PutsOnRecord};
ghost use Rattle.record_text.specs.Sheets.{IsSheet};
ghost use Rattle.cert_check.specs.Releases.{audit_of};
ghost use Rattle.check_command.specs.CheckRun.{IsCheckComplete, IsCheckStopped, IsChecked, check_calls, valid_text};
ghost use Rattle.run_parts.specs.Faults.{IsOfCheck};
ghost use Rattle.run_parts.specs.Readings.{AnswersDue, IsCheckDue, RefusesCheck};
ghost use Rattle.run_parts.specs.Run.{ran};
ghost use Rattle.run_parts.specs.declared.fault.Fault.TheVariants as faults;
ghost use Rattle.check_command.specs.inner.CheckParts.{Accepts, IsValidLine, RefusesAudit};
ghost use Rattle.run_parts.specs.Parts.{AreCallsOf, done_end, faults_after};

use cert_check::check_all;
use command_words::CheckWords;
use edit_desk::{Desk, Printer};
use edit_model::Survey;
use record_text::Sheet;
use run_parts::{
    Fault, MOST_BYTES, MOST_PROOF_BYTES, Refusal, Status, fetch_file, fetch_input, refuse, tell,
};
use std::alloc::Global;

/// Audits the release that the words name, and prints that it is valid, or why the run is refused. The
/// answer is the status of the run: `Done` only for a valid release, and `Rejected` for one that is not.
pub fn run_check<D: Desk, P: Printer>(
    alloc: Global,
    asked: &CheckWords,
    desk: &mut D,
    printer: &mut P,
) -> Status
    ensures command { result ≢ Status.Usage }
    ensures checked { result ≡ Status.Done → IsChecked asked.now (ran D.Desk P.Printer desk printer) }
    ensures stopped { result ≢ Status.Done → IsCheckStopped asked.now result (ran D.Desk P.Printer desk printer) }
    ensures complete { IsCheckComplete asked.now result (ran D.Desk P.Printer desk printer) }
    ensures due { IfSome (D.files desk.old) (λ files. AnswersDue (IsCheckDue asked.now files) result) }
{
    match check_files(alloc, asked, desk) {
        Ok(line) => tell(printer, &line, Status::Done),
        Err(refusal) => refuse(printer, refusal.line(), refusal.status()),
    }
}

// Does all of a run but the printing, up to the first fault: it fetches the four files, and audits the
// release. It gives the line that is printed of a valid one. Refused where a file can't be read, is too
// long or has no reading, where the release is not valid, and for want of memory.
fn check_files<'a, D: Desk>(
    alloc: Global,
    asked: &CheckWords<'a>,
    desk: &mut D,
) -> Result<Vec<u8>, Refusal<'a>>
    ensures kind { IfErr result IsOfCheck }
    ensures accepted { IfOk result (λ line. Accepts asked.now (D.files desk.old) line.items) }
    ensures cause { IfErr result (λ fault. RefusesCheck asked.now (D.files desk.old) fault) }
    ensures due { IfSome (D.files desk.old) (λ files. AnswersDue (IsCheckDue asked.now files) (done_end result)) }
    ensures asked { PutsOnRecord (D.calls desk.old) (D.calls desk.new) (AreCallsOf (check_calls asked.now) result) }
    ensures faults { D.faults desk.new ≡ faults_after result (D.faults desk.old) }
    ensures unchanged { D.files desk.new ≡ D.files desk.old }
{
    let input = fetch_input(alloc, asked.rules, asked.records, desk)?;
    let released = fetch_file(alloc, asked.released, MOST_BYTES, desk)?;
    let proof = fetch_file(alloc, asked.proof, MOST_PROOF_BYTES, desk)?;
    check_release(alloc, input, released, proof)
}

// Audits what was fetched, and lets it go: `input` is the survey and the sheet of its records. It gives the
// line that is printed of a valid release. Refused where the release is not valid, and for want of memory.
fn check_release<'a>(
    alloc: Global,
    input: (Survey, Sheet),
    released: Vec<u8>,
    proof: Vec<u8>,
) -> Result<Vec<u8>, Refusal<'a>>
    requires sheet { (bytes : List ℕ) × IsSheet input.0.fields bytes input.1 }
    ensures valid { IfOk result (λ line. IsValidLine (audit_of input.0 input.1 released.items proof.items) line.items) }
    ensures refused { IfErr result (RefusesAudit (audit_of input.0 input.1 released.items proof.items)) }
{
    let (survey, sheet) = &input;
    match check_all(alloc, survey, sheet, &released, &proof) {
        Ok(count) => valid_line(alloc, sheet.len(), count),
        Err(fault) => Err(Refusal::of(alloc, Fault::from(fault))),
    }
}

// The line that is printed of a valid release, as `valid records 4 released 4`, without its line feed.
// `records` were read, and `released` of them are released. Refused for want of memory alone.
fn valid_line<'a>(alloc: Global, records: u32, released: u32) -> Result<Vec<u8>, Refusal<'a>>
    ensures line { IfOk result (λ line. line.items ≡ valid_text records released) }
    ensures memory { IfErr result (λ fault. fault ≡ faults.OutOfMemory) }
{
    let Ok(line) = format!(in alloc; "valid records {records} released {released}") else {
        return Err(Refusal::out_of_memory());
    };
    Ok(line.into_bytes())
}
