//! The lines of a survey's rules with the verdict on each, and the edits that are left of them. In
//! contracts, `AreNeeded` says that a line kept as needed can fail where the lines left hold. `AreRefuted`
//! says that the steps of a dropped line refute its negation, and `AllFollow` that all lines follow from the
//! kept ones.
ghost use Rattle.std.specs.Prelude.{◌≡◌, ◌≤◌, ◌++◌, ◌∷◌, [], IfOk, OnOk, if◌then◌else◌, length, map};
ghost use Rattle.edit_line.specs.EditSets.{SayTheRules};
ghost use Rattle.edit_normal.specs.RuleLines.{normal_lines_of};
ghost use Rattle.redundancy.specs.Verdicts.{AreEqualities, AreNeeded, AreRefuted, keeps_line, usable_from};
ghost use Rattle.pruned_rules.specs.Pruned.{kept_edits, rule_verdicts, rule_flags};
ghost use Rattle.derivation.specs.Refutations.{AllFollow};

use edit_line::{Edits, Line};
use edit_model::Survey;
use edit_normal::lines_of_rules;
use foundation::OutOfMemory;
use redundancy::{Verdict, prune};
use std::alloc::Global;

/// The most work that is done to find whether one line may be dropped. A line for which it does not suffice
/// is kept.
const PRUNING_BUDGET: u64 = 2000;

/// The lines of a survey's rules in order, and for each of them whether it is kept, and why, or is dropped.
#[derive(Drop)]
pub struct PrunedRules {
    /// All lines, in normal form.
    pub lines: Vec<Line>,
    /// What becomes of each line.
    pub verdicts: Vec<Verdict>,
}

/// The lines of the survey's rules, and the verdict on each. A line is dropped where it follows from those
/// that are kept, as far as the pruning budget shows it.
pub fn prune_rules(alloc: Global, survey: &Survey) -> Result<PrunedRules, OutOfMemory>
    ensures lines { IfOk result (λ pruned. pruned.lines.items ≡ normal_lines_of survey.now) }
    ensures verdicts { IfOk result (λ pruned. pruned.verdicts.items ≡ rule_verdicts survey.now) }
    ensures equalities { IfOk result (λ pruned. AreEqualities pruned.lines.items pruned.verdicts.items) }
    ensures needed { IfOk result (λ pruned. AreNeeded survey.now.fields pruned.lines.items pruned.verdicts.items) }
    ensures steps { IfOk result (λ pruned. AreRefuted survey.now.fields pruned.lines.items pruned.verdicts.items) }
    ensures follow { IfOk result (λ pruned. AllFollow (normal_lines_of survey.now) (rule_flags survey.now)) }
{
    let lines = lines_of_rules(alloc, survey)?;
    let verdicts = prune(alloc, survey, &lines, PRUNING_BUDGET)?;
    Ok(PrunedRules { lines, verdicts })
}

impl PrunedRules {
    /// The edits that the survey's records are searched by: the lines that are kept, each numbered by its
    /// place among all, from 0. The lines and the verdicts are those of the survey's rules. A point with
    /// codes of the survey meets these edits exactly where it meets all rules (`SayTheRules`).
    pub fn kept_edits(&self, alloc: Global, survey: &Survey) -> Result<Edits, OutOfMemory>
        requires lines { self.now.lines.items ≡ normal_lines_of survey.now }
        requires verdicts { self.now.verdicts.items ≡ rule_verdicts survey.now }
        ensures edits { IfOk result (λ edits. edits ≡ kept_edits survey.now) }
        ensures same { IfOk result (λ edits. SayTheRules survey.now edits) }
    {
        let _rules = survey.rules(); // read for what it says: they are in form, and at most 500
        let kept = kept_of(alloc, &self.lines, &self.verdicts)?;
        let edits = Edits::new(alloc, survey, kept)?;
        Ok(edits)
    }
}

// Copies of the lines whose verdict keeps them, each with its place among all lines, from 0. There is one
// verdict for each line.
fn kept_of(
    alloc: Global,
    lines: &[Line],
    verdicts: &[Verdict],
) -> Result<Vec<(u32, Line)>, OutOfMemory>
    requires count { length verdicts.now ≡ length lines.now }
    requires few { length lines.now ≤ 1000 }
    ensures { IfOk result (λ kept. kept.items ≡ usable_from 0 lines.now (map keeps_line verdicts.now)) }
{
    let mut kept = Vec::new(alloc);
    for (place, line) in lines.iter().enumerate() {
        push_if_kept(alloc, &mut kept, place as u32, line, &verdicts[place])?;
    }
    Ok(kept)
}

// Appends a copy of the line with its number, where the verdict keeps it; else it appends nothing.
fn push_if_kept(
    alloc: Global,
    kept: &mut Vec<(u32, Line)>,
    number: u32,
    line: &Line,
    verdict: &Verdict,
) -> Result<(), OutOfMemory>
    ensures { OnOk result (kept.new.items ≡ kept.old.items ++ (if keeps_line verdict.now then (number, line.now) ∷ [] else [])) }
{
    if let Verdict::Kept(_) = verdict {
        kept.push((number, line.copy(alloc)?))?;
    }
    Ok(())
}
