//! The one call of the program: it reads the words, and hands them to the run of the command that they
//! ask for.
//!
//! `edit` corrects records at the least weight, and so does `classed`, with donors of the record's own
//! class. `check` audits a release, and `rules` tells which rules follow from the others. `fill` gives
//! missing fields the values that the rules force. `panel` corrects beside values of the last period,
//! which stay. `make` makes up a survey.
//!
//! In contracts, `ForEdit words` and its like say that something holds of what the words ask for, where
//! they ask for that command.
ghost use Rattle.std.specs.Prelude.{◌≡◌, ◌≢◌, IfSome};
ghost use Rattle.command_words.specs.Asked.{ForCheck, ForClassed, ForEdit, ForFill, ForMake, ForPanel, ForRules, IsNoCommand};
ghost use Rattle.check_command.specs.CheckRun.{IsCheckComplete, IsCheckStopped, IsChecked};
ghost use Rattle.edit_command.specs.ClassedRun.{IsClassedComplete, IsClassedDue, IsClassedRun, IsClassedStopped};
ghost use Rattle.edit_command.specs.EditRun.{IsEditComplete, IsEditStopped, IsEdited};
ghost use Rattle.fill_command.specs.FillRun.{IsFillComplete, IsFillDue, IsFillRun, IsFillStopped};
ghost use Rattle.panel_command.specs.PanelInput.{IsPanelDue};
ghost use Rattle.panel_command.specs.PanelRun.{IsPanelComplete, IsPanelRun, IsPanelStopped};
ghost use Rattle.make_command.specs.MakeRun.{IsMakeComplete, IsMakeStopped, IsSurveyMade};
ghost use Rattle.run_parts.specs.Commands.{HasReleased};
ghost use Rattle.run_parts.specs.Readings.{AnswersDue, IsCheckDue, IsDue, IsRulesDue};
ghost use Rattle.rules_command.specs.RulesRun.{IsRuled, IsRulesComplete, IsRulesStopped};
ghost use Rattle.run_parts.specs.Run.{IsRefused, ran, word_refusals};
ghost use Rattle.edit_commands.specs.inner.Runs.{RunsAs, TellsUsage};

use crate::asked::{Asked, read_words};
use check_command::run_check;
use edit_command::{run_classed, run_edit};
use edit_desk::{Desk, Printer};
use fill_command::run_fill;
use foundation::OutOfMemory;
use make_command::run_make;
use panel_command::run_panel;
use record_workers::Gate;
use rules_command::run_rules;
use run_parts::{OUT_OF_MEMORY, Status, USAGE, refuse};
use std::alloc::Global;
use std::sync::Wait;
use std::thread::Threads;

/// Runs the command that the words after the program's name ask for, over a desk and a printer, and
/// answers the status of the run. What is printed is the command's lines, or why the run is refused. The
/// first fault ends the run. `gate` is told of each record that a worker of an edit draws. What each
/// command does stands at its own run, such as `run_edit`.
pub fn fh_main<R: Threads + Wait + Sync, D: Desk, P: Printer, G: Gate>(
    rt: &R,
    alloc: Global,
    words: &[String],
    desk: &mut D,
    printer: &mut P,
    gate: &G,
) -> Status
    // `ran` is what the desk and the printer tell when the call begins, and when it returns.

    // The words are no command: that is told exactly where it is so, but for want of memory, and nothing
    // is asked of the desk.
    ensures usage { result ≡ Status.Usage → IsNoCommand words.now }
    ensures unasked { IsNoCommand words.now → IsRefused word_refusals result (ran D.Desk P.Printer desk printer) }

    // The release guarantee: what stands in the three files, and what was printed, where an edit ends with
    // 0 or 1. It is 0 where nothing stands in the way of any record.
    ensures edited { HasReleased result → ForEdit words.now (λ ask. IsEdited ask result (ran D.Desk P.Printer desk printer)) }

    // Where it ends otherwise: the fault that ended it, where it ended, what is left and what was printed.
    ensures edit_stopped { ¬ HasReleased result → ForEdit words.now (λ ask. IsEditStopped ask result (ran D.Desk P.Printer desk printer)) }

    // Where both files have readings and no fault is met, the edit is done, but for want of memory.
    ensures edit_complete { ForEdit words.now (λ ask. IsEditComplete ask result (ran D.Desk P.Printer desk printer)) }

    // A file that is too long or has no reading is told exactly where it is so.
    ensures edit_due { ForEdit words.now (λ ask. IfSome (D.files desk.old) (λ files. AnswersDue (IsDue ask files) result)) }

    // Donors of the record's own class: what stands in the three files, and what was printed, where
    // `classed` ends with 0 or 1.
    ensures classed { HasReleased result → ForClassed words.now (λ ask. IsClassedRun ask result (ran D.Desk P.Printer desk printer)) }

    // Where it ends otherwise: the fault that ended it, where it ended, what is left and what was printed.
    ensures classed_stopped { ¬ HasReleased result → ForClassed words.now
        (λ ask. IsClassedStopped ask result (ran D.Desk P.Printer desk printer)) }

    // Where both files have readings, the rules with the class field, and no fault is met, it is done, but
    // for want of memory.
    ensures classed_complete { ForClassed words.now (λ ask. IsClassedComplete ask result (ran D.Desk P.Printer desk printer)) }

    // A file that is too long or has no reading, and a class field that no categorical field is, are told
    // exactly where they are so.
    ensures classed_due { ForClassed words.now (λ ask. IfSome (D.files desk.old) (λ files. AnswersDue (IsClassedDue ask files) result)) }

    // The audit: what the files are, and what they show, where a check ends with 0.
    ensures checked { result ≡ Status.Done → ForCheck words.now (λ ask. IsChecked ask (ran D.Desk P.Printer desk printer)) }

    // Where it ends otherwise: the fault that ended it, where it ended, and what was printed; no file is changed.
    ensures check_stopped { result ≢ Status.Done → ForCheck words.now
        (λ ask. IsCheckStopped ask result (ran D.Desk P.Printer desk printer)) }

    // Where the files are a valid release and no fault is met, the check is done, but for want of memory.
    ensures check_complete { ForCheck words.now (λ ask. IsCheckComplete ask result (ran D.Desk P.Printer desk printer)) }

    // Files that are too long, have no reading or are no valid release are told exactly where they are so.
    ensures check_due { ForCheck words.now (λ ask. IfSome (D.files desk.old) (λ files. AnswersDue (IsCheckDue ask files) result)) }

    // Redundant rules: what is printed of the lines, and what it means, where `rules` ends with 0.
    ensures ruled { result ≡ Status.Done → ForRules words.now (λ ask. IsRuled ask (ran D.Desk P.Printer desk printer)) }

    // Where it ends otherwise: the fault that ended it, where it ended, and what was printed; no file is changed.
    ensures rules_stopped { result ≢ Status.Done → ForRules words.now
        (λ ask. IsRulesStopped ask result (ran D.Desk P.Printer desk printer)) }

    // Where the rules have a reading and no fault is met, `rules` is done, but for want of memory.
    ensures rules_complete { ForRules words.now (λ ask. IsRulesComplete ask result (ran D.Desk P.Printer desk printer)) }

    // Rules that are too long or have no reading are told exactly where they are so.
    ensures rules_due { ForRules words.now (λ ask. IfSome (D.files desk.old) (λ files. AnswersDue (IsRulesDue ask files) result)) }

    // Missing values that the rules force: what stands in the released file, and what was printed, where
    // `fill` ends with 0 or 1.
    ensures filled { HasReleased result → ForFill words.now (λ ask. IsFillRun ask result (ran D.Desk P.Printer desk printer)) }

    // Where it ends otherwise: the fault that ended it, where it ended, what is left and what was printed.
    ensures fill_stopped { ¬ HasReleased result → ForFill words.now
        (λ ask. IsFillStopped ask result (ran D.Desk P.Printer desk printer)) }

    // Where both files have readings and no fault is met, the records are filled, but for want of memory.
    ensures fill_complete { ForFill words.now (λ ask. IsFillComplete ask result (ran D.Desk P.Printer desk printer)) }

    // A file that is too long or has no reading is told exactly where it is so.
    ensures fill_due { ForFill words.now (λ ask. IfSome (D.files desk.old) (λ files. AnswersDue (IsFillDue ask files) result)) }

    // Records whose values of the last period are left alone: what stands in the three files, and what was
    // printed, where `panel` ends with 0 or 1.
    ensures linked { HasReleased result → ForPanel words.now (λ ask. IsPanelRun ask result (ran D.Desk P.Printer desk printer)) }

    // Where it ends otherwise: the fault that ended it, where it ended, what is left and what was printed.
    ensures panel_stopped { ¬ HasReleased result → ForPanel words.now
        (λ ask. IsPanelStopped ask result (ran D.Desk P.Printer desk printer)) }

    // Where the three files have readings with their keys and no fault is met, the records are corrected,
    // but for want of memory.
    ensures panel_complete { ForPanel words.now (λ ask. IsPanelComplete ask result (ran D.Desk P.Printer desk printer)) }

    // A file that is too long, or has no reading with its key, is told exactly where it is so.
    ensures panel_due { ForPanel words.now (λ ask. IfSome (D.files desk.old) (λ files. AnswersDue (IsPanelDue ask files) result)) }

    // A survey that is made: what stands in the two files, and what was printed, where `make` ends with 0.
    ensures made { result ≡ Status.Done → ForMake words.now (λ ask. IsSurveyMade ask (ran D.Desk P.Printer desk printer)) }

    // Where it ends otherwise: the fault that ended it, where it ended, what is left and what was printed.
    ensures make_stopped { result ≢ Status.Done → ForMake words.now
        (λ ask. IsMakeStopped ask result (ran D.Desk P.Printer desk printer)) }

    // Where no fault is met, `make` is done, but for want of memory.
    ensures make_complete { ForMake words.now (λ ask. IsMakeComplete result (ran D.Desk P.Printer desk printer)) }
{
    match read_words(alloc, words) {
        Ok(asked) => run_asked(rt, alloc, &asked, desk, printer, gate),
        Err(OutOfMemory) => refuse(printer, OUT_OF_MEMORY, Status::OutOfMemory),
    }
}

// Runs the command that was asked for, and answers the status of its run. Where none was, it prints that,
// and answers `Usage`. In the contract, `RunsAs` says of each command what its run does.
fn run_asked<R: Threads + Wait + Sync, D: Desk, P: Printer, G: Gate>(
    rt: &R,
    alloc: Global,
    asked: &Asked,
    desk: &mut D,
    printer: &mut P,
    gate: &G,
) -> Status
    ensures usage { TellsUsage asked.now result }
    ensures run { RunsAs asked.now result (ran D.Desk P.Printer desk printer) }
{
    match asked {
        Asked::Edit(edit) => run_edit(rt, alloc, edit, desk, printer, gate),
        Asked::Classed(classed) => run_classed(rt, alloc, classed, desk, printer, gate),
        Asked::Check(check) => run_check(alloc, check, desk, printer),
        Asked::Rules(rules) => run_rules(alloc, rules, desk, printer),
        Asked::Fill(fill) => run_fill(alloc, fill, desk, printer),
        Asked::Panel(panel) => run_panel(alloc, panel, desk, printer),
        Asked::Make(make) => run_make(alloc, make, desk, printer),
        Asked::Nothing => refuse(printer, USAGE, Status::Usage),
    }
}
