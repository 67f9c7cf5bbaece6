//! A run of `rules`: the rules are fetched, and each of their lines is tried for whether it follows from
//! the others. What becomes of the lines is printed, and nothing is stored. The clauses of a run say what
//! is printed, and what it means, where it did all (`ruled`), and with which fault it ended elsewhere
//! (`stopped`). They also say that it did all where nothing stood in the way (`complete`), and that what
//! is wrong with a file is told exactly where it is so (`due`).
//!
//! In contracts, `ran` is what is seen of the desk and the printer before and after the call. `AnswersDue`
//! says that a status that is due is answered, unless a file could not be read or memory was refused. Of
//! the work on the desk, `kind` says which refusals may come, and `cause` what each says of the files.
//! `asked` says which calls the desk is asked for, `faults` how its count of faults stands after them, and
//! `unchanged` that no file is changed.
ghost use Rattle.std.specs.Prelude.{◌≡◌, ◌≢◌, IfErr, IfOk, IfSome};
ghost use Rattle.edit_desk.specs.Desk.{PutsOnRecord};
ghost use Rattle.run_parts.specs.Faults.{IsOfRulesCommand};
ghost use Rattle.run_parts.specs.Readings.{AnswersDue, IsRulesDue, RefusesRulesCommand};
ghost use Rattle.rules_command.specs.RulesRun.{IsReport, IsRuled, IsRulesComplete, IsRulesStopped, report_of, rules_calls};
ghost use Rattle.run_parts.specs.Run.{ran};
ghost use Rattle.run_parts.specs.Parts.{AreCallsOf, done_end, faults_after, texts_in};
ghost use Rattle.derivation.specs.Refutations.{AllFollow};
ghost use Rattle.edit_normal.specs.RuleLines.{normal_lines_of};
ghost use Rattle.redundancy.specs.Verdicts.{AreEqualities, AreNeeded, AreRefuted};
ghost use Rattle.pruned_rules.specs.Pruned.{rule_flags, rule_verdicts};

use command_words::RulesWords;
use edit_desk::{Desk, Printer};
use edit_model::Survey;
use foundation::OutOfMemory;
use pruned_rules::prune_rules;
use rule_report::report;
use run_parts::{Refusal, Status, fetch_survey, refuse, tell_all};
use std::alloc::Global;

/// Prints what becomes of each line of the rules that the words name: whether it follows from the others.
/// Or it prints why the run is refused. The answer is the status of the run.
pub fn run_rules<D: Desk, P: Printer>(
    alloc: Global,
    asked: &RulesWords,
    desk: &mut D,
    printer: &mut P,
) -> Status
    ensures command { result ≢ Status.Usage }
    ensures ruled { result ≡ Status.Done → IsRuled asked.now (ran D.Desk P.Printer desk printer) }
    ensures stopped { result ≢ Status.Done → IsRulesStopped asked.now result (ran D.Desk P.Printer desk printer) }
    ensures complete { IsRulesComplete asked.now result (ran D.Desk P.Printer desk printer) }
    ensures due { IfSome (D.files desk.old) (λ files. AnswersDue (IsRulesDue asked.now files) result) }
{
    match report_rules(alloc, asked, desk) {
        Ok(lines) => tell_all(printer, &lines, Status::Done),
        Err(refusal) => refuse(printer, refusal.line(), refusal.status()),
    }
}

// Does all of a run but the printing: it fetches the rules that the words name, and gives the lines that are
// printed of them. Refused where the file has no reading, can't be read or is too long, and for want of
// memory.
fn report_rules<'a, D: Desk>(
    alloc: Global,
    asked: &RulesWords<'a>,
    desk: &mut D,
) -> Result<Vec<Vec<u8>>, Refusal<'a>>
    ensures kind { IfErr result IsOfRulesCommand }
    ensures reported { IfOk result (λ lines. IfSome (D.files desk.old) (λ files. IsReport asked.now files (texts_in lines.items))) }
    ensures cause { IfErr result (λ fault. RefusesRulesCommand asked.now (D.files desk.old) fault) }
    ensures due { IfSome (D.files desk.old) (λ files. AnswersDue (IsRulesDue asked.now files) (done_end result)) }
    ensures asked { PutsOnRecord (D.calls desk.old) (D.calls desk.new) (AreCallsOf (rules_calls asked.now) result) }
    ensures faults { D.faults desk.new ≡ faults_after result (D.faults desk.old) }
    ensures unchanged { D.files desk.new ≡ D.files desk.old }
{
    let survey = fetch_survey(alloc, asked.rules, desk)?;
    let Ok(lines) = lines_of(alloc, &survey) else {
        return Err(Refusal::out_of_memory());
    };
    Ok(lines)
}

// The lines that are printed of the survey's rules, without line feeds: each tells whether a line of the
// rules is kept or dropped. Dropped ones follow from the kept ones, as their steps show. One kept as needed
// can fail where those hold that were left when it was tried. Each equality is kept as one.
fn lines_of(alloc: Global, survey: &Survey) -> Result<Vec<Vec<u8>>, OutOfMemory>
    ensures texts { IfOk result (λ lines. texts_in lines.items ≡ report_of survey.now) }
    ensures dropped { IfOk result (λ lines. AllFollow (normal_lines_of survey.now) (rule_flags survey.now)) }
    ensures needed { IfOk result (λ lines. AreNeeded survey.now.fields (normal_lines_of survey.now) (rule_verdicts survey.now)) }
    ensures refuted { IfOk result (λ lines. AreRefuted survey.now.fields (normal_lines_of survey.now) (rule_verdicts survey.now)) }
    ensures equalities { IfOk result (λ lines. AreEqualities (normal_lines_of survey.now) (rule_verdicts survey.now)) }
{
    let pruned = prune_rules(alloc, survey)?;
    report(alloc, survey, &pruned.lines, &pruned.verdicts)
}
