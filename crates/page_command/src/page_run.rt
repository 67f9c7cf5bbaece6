//! A run of `page`: what is read, made and stored on the desk, and the line that is printed of it. In
//! contracts, `IsPageRun` says that the page was stored and the line printed. `IsPageStopped` says what
//! a refused run leaves, and `IsPageComplete` when want of memory alone may refuse it. `IsPageDue` says
//! with which status the files are to be refused.
ghost use Rattle.std.specs.Prelude.{◌≡◌, ◌≢◌, IfErr, IfOk, IfSome, OnOk};
ghost use Rattle.edit_desk.specs.Desk.{PutsOnRecord, Told};
ghost use Rattle.page_sections.specs.ReleasePages.{IsReleasePage};
ghost use Rattle.release_figures.specs.Figures.{AreFigures};
ghost use Rattle.release_figures.specs.Releases.{release_parts};
ghost use Rattle.run_parts.specs.Readings.{AnswersDue};
ghost use Rattle.run_parts.specs.Run.{ran};
ghost use Rattle.page_command.specs.PageFaults.{IsPageDue};
ghost use Rattle.page_command.specs.PageRun.{IsPageComplete, IsPageRun, IsPageStopped, counts_text, page_line};
ghost use Rattle.page_command.specs.PageSources.{HasItsRows};
ghost use Rattle.page_command.specs.inner.PageParts.{ArePageCalls, IsOfPage, PageEnds, Refuses, RefusesRows};
ghost use Rattle.page_command.specs.inner.PageParts.{faults_behind, page_end};

use crate::page_fault::ToldFault;
use crate::refusal::PageRefusal;
use crate::sources::{Sources, fetch_sources};
use command_words::PageWords;
use edit_desk::{Desk, Printer};
use foundation::OutOfMemory;
use page_counts::RecordCounts;
use page_sections::release_page;
use release_figures::{Release, ReleaseFigures, figures_of};
use run_parts::{Status, refuse, store_file, tell};
use std::alloc::Global;

/// Writes the page about the edit that the words name, and prints how many records were clean, changed
/// and left out. Where the run is refused, the reason is printed instead. The answer is the status of the
/// run: `Done`, or that of the refusal, or `WriteFault` where the line of the counts is not printed.
pub fn run_page<D: Desk, P: Printer>(
    alloc: Global,
    asked: &PageWords,
    desk: &mut D,
    printer: &mut P,
) -> Status
    ensures command { result ≢ Status.Usage }
    ensures written { result ≡ Status.Done → IsPageRun asked.now result (ran D.Desk P.Printer desk printer) }
    ensures stopped { result ≢ Status.Done → IsPageStopped asked.now result (ran D.Desk P.Printer desk printer) }
    ensures complete { IsPageComplete asked.now result (ran D.Desk P.Printer desk printer) }
    ensures due { IfSome (D.files desk.old) (λ files. AnswersDue (IsPageDue asked.now files) result) }
{
    match write_page(alloc, asked, desk) {
        Ok(file) => tell(printer, &file.line, Status::Done),
        Err(refusal) => refuse(printer, refusal.line(), refusal.status()),
    }
}

/// A page, and the line that counts its records, without its line feed.
#[derive(Drop)]
struct PageFile {
    page: Vec<u8>,
    line: Vec<u8>,
}

// Does on the desk all that the command does there, up to the first fault. It fetches the four files, makes
// the page of them, and stores it. The clauses say which refusals may come (`kind`), what each says of the
// files (`cause`), and when one has to come (`due`). They also say what the desk has afterwards (`files`), and
// what was asked of it (`asked`).
fn write_page<'a, D: Desk>(
    alloc: Global,
    asked: &PageWords<'a>,
    desk: &mut D,
) -> Result<PageFile, PageRefusal<'a>>
    ensures kind { IfErr result IsOfPage }
    ensures cause { IfErr result (Refuses asked.now (D.files desk.old)) }
    ensures due { IfSome (D.files desk.old) (λ files. AnswersDue (IsPageDue asked.now files) (page_end result)) }
    ensures files { Told (D.files desk.old) (D.files desk.new) (PageEnds asked.now result) }
    ensures asked { PutsOnRecord (D.calls desk.old) (D.calls desk.new) (ArePageCalls asked.now result) }
    ensures faults { D.faults desk.new ≡ faults_behind result (D.faults desk.old) }
{
    let sources = fetch_sources(alloc, asked, desk)?;
    let file = page_file(alloc, &sources)?;
    store_file(alloc, asked.page, &file.page, desk)?;
    Ok(file)
}

// The page about what was read, and its line. Refused where the released file has not one row for each
// record that the reasons do not leave out, and for want of memory.
fn page_file<'a>(alloc: Global, sources: &Sources) -> Result<PageFile, PageRefusal<'a>>
    ensures rows { OnOk result (HasItsRows sources.now) }
    ensures refused { IfErr result (RefusesRows sources.now) }
    ensures page { IfOk result (λ file. IsReleasePage sources.now file.page.items) }
    ensures line { IfOk result (λ file. file.line.items ≡ page_line sources.now) }
{
    let release = sources.release();
    let figures = figures_of(alloc, &release)?;
    check_rows(alloc, &release, &figures)?;
    let page = release_page(alloc, &release, &figures)?;
    let line = page_line(alloc, &release, &figures)?;
    Ok(PageFile { page, line })
}

// Checks that the released file has one row for each record that the reasons do not leave out. Where it has
// not, the refusal tells both numbers; it is for want of memory where none is left for that.
fn check_rows<'a>(
    alloc: Global,
    release: &Release,
    figures: &ReleaseFigures,
) -> Result<(), PageRefusal<'a>>
    requires { AreFigures (release_parts release.now) figures.now }
    ensures rows { OnOk result (HasItsRows (release_parts release.now)) }
    ensures refused { IfErr result (RefusesRows (release_parts release.now)) }
{
    let given = release.released.len() as usize;
    let kept = figures.released.len();
    if given == kept {
        return Ok(());
    }
    let told = ToldFault::of_rows(alloc, given, kept)?;
    Err(PageRefusal::Unfit(told))
}

// The line that counts the records of the release, without its line feed.
fn page_line(
    alloc: Global,
    release: &Release,
    figures: &ReleaseFigures,
) -> Result<Vec<u8>, OutOfMemory>
    requires { AreFigures (release_parts release.now) figures.now }
    ensures { IfOk result (λ line. line.items ≡ page_line (release_parts release.now)) }
{
    let left_out = release.reasons.left_out.len();
    counts_line(alloc, release.records.len(), &figures.records, left_out)
}

// The line that counts `records` records, of which `left_out` were left out, without its line feed. An
// example is `page records 9 clean 5 changed 3 left out 1`.
fn counts_line(
    alloc: Global,
    records: u32,
    counts: &RecordCounts,
    left_out: usize,
) -> Result<Vec<u8>, OutOfMemory>
    ensures { IfOk result (λ line. line.items ≡ counts_text records counts.now.clean counts.now.changed left_out) }
{
    let clean = counts.clean;
    let changed = counts.changed;
    let line = format!(in alloc;
        "page records {records} clean {clean} changed {changed} left out {left_out}"
    )?;
    Ok(line.into_bytes())
}
