//! The whole of the program of pages: the call that its `main` makes with the words of the command line.
ghost use Rattle.std.specs.Prelude.{◌≡◌, ◌≢◌, IfSome};
ghost use Rattle.command_words.specs.Asked.{ForPage};
ghost use Rattle.page_command.specs.PageFaults.{IsPageDue};
ghost use Rattle.page_command.specs.PageRun.{AsksNoPage, IsPageComplete, IsPageRun, IsPageStopped};
ghost use Rattle.run_parts.specs.Readings.{AnswersDue};
ghost use Rattle.run_parts.specs.Run.{IsRefused, ran, word_refusals};

use crate::page_run::run_page;
use command_words::page_asked;
use edit_desk::{Desk, Printer};
use foundation::OutOfMemory;
use run_parts::{OUT_OF_MEMORY, Status, USAGE, refuse};
use std::alloc::Global;

/// Serves the words after the program's name, over a desk and a printer. `page` fetches and reads the
/// rules, then the records, then the released file, then the reasons. It stores a page that shows what
/// was changed, and prints how many records were clean, changed and left out. The first refusal in this
/// order ends the call, and is printed.
pub fn page_main<D: Desk, P: Printer>(
    alloc: Global,
    words: &[String],
    desk: &mut D,
    printer: &mut P,
) -> Status
    // `ran` is what the desk and the printer tell when the call begins, and when it returns.

    // The words ask for no page: that is told exactly where it is so, but for want of memory, and nothing is asked of the desk.
    ensures usage { result ≡ Status.Usage → AsksNoPage words.now }
    ensures unasked { AsksNoPage words.now → IsRefused word_refusals result (ran D.Desk P.Printer desk printer) }

    // What the page says of the four files, and what was printed, where the call ends with 0.
    ensures written { result ≡ Status.Done → ForPage words.now (λ ask. IsPageRun ask result (ran D.Desk P.Printer desk printer)) }

    // Where it ends otherwise: the fault that ended it, where it ended, what is left and what was printed.
    ensures stopped { result ≢ Status.Done → ForPage words.now (λ ask. IsPageStopped ask result (ran D.Desk P.Printer desk printer)) }

    // Where the four files have readings that fit each other and no fault is met, the page is stored, but for want of memory.
    ensures complete { ForPage words.now (λ ask. IsPageComplete ask result (ran D.Desk P.Printer desk printer)) }

    // A file that is too long, has no reading or does not fit the others is told exactly where it is so.
    ensures due { ForPage words.now (λ ask. IfSome (D.files desk.old) (λ files. AnswersDue (IsPageDue ask files) result)) }
{
    match page_asked(alloc, words) {
        Ok(Some(page)) => run_page(alloc, &page, desk, printer),
        Ok(None) => refuse(printer, USAGE, Status::Usage),
        Err(OutOfMemory) => refuse(printer, OUT_OF_MEMORY, Status::OutOfMemory),
    }
}
