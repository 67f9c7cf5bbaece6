//! What becomes of one record whose fixed fields keep their values: it is searched by edits with pins,
//! and its changed fields are given values. In contracts, `IsLinked` says that the answer is one that the
//! definition has, and `IsOnlyAnswer` that it has no other. `Says` is what the answer says of corrections,
//! and `IsShown` that its trees are valid. `FollowsOn` is what an outcome of the search leads to.
ghost use Rattle.std.specs.Prelude.{◌≡◌, ◌≤◌, ◌↔◌, IfOk, Some, map, true};
ghost use Rattle.std.specs.Arc.{arc_value};
ghost use Rattle.edit_model.specs.Rows.{IsRow};
ghost use Rattle.edit_line.specs.Shapes.{shape_of};
ghost use Rattle.edit_normal.specs.RuleLines.{normal_lines_of};
ghost use Rattle.edit_paths.specs.Cases.{IsCase, case_of};
ghost use Rattle.edit_paths.specs.Outcomes.{outcome_of};
ghost use Rattle.bound_cert.specs.declared.outcome.Outcome.TheVariants as outcome;
ghost use Rattle.panel_link.specs.Answers.{FollowsOn, IsLinked, IsOnlyAnswer};
ghost use Rattle.panel_link.specs.inner.Tellings.{IsFound, TellLinkedCorrections};
ghost use Rattle.panel_link.specs.Laws.{IsShown, Says};
ghost use Rattle.panel_link.specs.LinkedCorrections.{lacks_value};
ghost use Rattle.panel_link.specs.declared.linked.Linked.TheVariants as linked;

use crate::edits::linked_edits;
use crate::fixed::lacks_value;
use crate::laws::panel_laws;
use crate::linked::Linked;
use back_subst::{GiveFault, changed_set, give};
use bound_cert::{Cert, GiftFault, Outcome, Path, RowProof};
use edit_line::Edits;
use edit_model::{FieldSet, Row, Survey};
use edit_normal::RuleLine;
use edit_paths::case_known;
use foundation::{OutOfMemory, Steps};
use linear_elim::Recompute;
use localise_tree::localise;
use std::alloc::Global;
use std::sync::Arc;
use std::sync::ledger::Ledger;

/// What becomes of a record whose fixed fields keep their values (Fellegi and Holt 1976, with fields that
/// are fixed). A correction of the least weight that leaves these alone is found, with values and a tree
/// that shows it. Or there is none, or the search stops, or a fixed field has no value and nothing is
/// searched. `lines` are those of the rules. Each fixed field adds its pin, a line by which it keeps its
/// value; so a fixed number is substituted, and not searched.
pub fn link<L: Ledger>(
    alloc: Global,
    survey: &Survey,
    lines: &[RuleLine],
    row: &Row,
    fixed: FieldSet,
    budget: u64,
    steps: &mut Steps<L>,
) -> Result<Linked, OutOfMemory>
    requires row { IsRow survey.now.fields row.now }
    requires lines { map (λ l. l.line) lines.now ≡ normal_lines_of survey.now }
    ensures exact { IfOk result (IsLinked survey.now row.now fixed budget) }
    ensures due { IfOk result (IsOnlyAnswer survey.now row.now fixed budget) }
    ensures no_last { IfOk result (λ linked. linked ≡ Linked.NoLast ↔ lacks_value survey.now row.now fixed ≡ true) }
    ensures says { IfOk result (Says survey.now row.now fixed) }
    ensures shown { IfOk result (IsShown survey.now row.now fixed) }
    ensures counts { steps.old ≤ steps.new }
{
    panel_laws();
    let _fields = survey.fields(); // read for what it says: the survey is well formed
    if lacks_value(survey, row, fixed) {
        return Ok(Linked::NoLast);
    }
    let edits = linked_edits(alloc, survey, lines, row, fixed)?;
    search(alloc, survey, &edits, row, budget, steps)
}

// The answer that the search of the record by these edits leads to: a change with values, no correction, or a
// stop. It stops by the budget or the range of numbers. The edits tell the corrections that leave the record's
// fixed fields alone (`TellLinkedCorrections`).
fn search<L: Ledger>(
    alloc: Global,
    survey: &Survey,
    edits: &Arc<Edits>,
    row: &Row,
    budget: u64,
    steps: &mut Steps<L>,
) -> Result<Linked, OutOfMemory>
    requires row { IsRow survey.now.fields row.now }
    requires shape { (arc_value edits.now).shape ≡ shape_of survey.now.fields }
    requires told { TellLinkedCorrections survey.now (arc_value edits.now) row.now }
    ensures follows { IfOk result (FollowsOn survey.now (arc_value edits.now) row.now
        (outcome_of (case_of survey.now (arc_value edits.now) row.now) budget)) }
    ensures counts { steps.old ≤ steps.new }
{
    case_known(survey, edits, row);
    match localise(alloc, &mut Recompute, survey, edits, row, budget, steps)? {
        Outcome::Change { path, weight, cert } => {
            with_values(
                alloc,
                survey,
                edits,
                row,
                Change { path, weight, cert },
                steps,
            )
        }
        Outcome::Contradictory { cert } => Ok(Linked::NoCorrection { cert }),
        outcome => Ok(Linked::Stopped(RowProof {
            outcome,
            gift: None,
        })),
    }
}

/// A change that was found: its path, its weight, and the tree that shows that none is lighter.
#[derive(Drop)]
struct Change {
    path: Path,
    weight: u64,
    cert: Cert,
}

// The answer for a change that was found. Its changed fields are given values, without a donor. Where a number
// leaves the range in that giving, the answer is a stop that tells where.
fn with_values<L: Ledger>(
    alloc: Global,
    survey: &Survey,
    edits: &Arc<Edits>,
    row: &Row,
    change: Change,
    steps: &mut Steps<L>,
) -> Result<Linked, OutOfMemory>
    requires case { IsCase (case_of survey.now (arc_value edits.now) row.now) }
    requires shape { (arc_value edits.now).shape ≡ shape_of survey.now.fields }
    requires told { TellLinkedCorrections survey.now (arc_value edits.now) row.now }
    requires found { IsFound survey.now (arc_value edits.now) row.now change.path change.weight change.cert }
    ensures follows { IfOk result (FollowsOn survey.now (arc_value edits.now) row.now
        (outcome.Change change.path change.weight change.cert)) }
    ensures counts { steps.old ≤ steps.new }
{
    let changed = changed_set(survey, change.path.letters());
    match give(
        alloc,
        &mut Recompute,
        survey,
        edits,
        row,
        changed,
        None,
        steps,
    ) {
        Ok(gift) => Ok(Linked::Change {
            path: change.path,
            weight: change.weight,
            cert: change.cert,
            gift,
        }),
        Err(GiveFault::Bound { field, line }) => {
            Ok(stopped_answer(change, GiftFault::Bound { field, line }))
        }
        Err(GiveFault::Test { rule }) => Ok(stopped_answer(change, GiftFault::Test { rule })),
        Err(GiveFault::OutOfMemory) => Err(OutOfMemory),
    }
}

// The answer for a change that was found, and whose fields are given no values, with the fault at which the
// giving stops.
fn stopped_answer(change: Change, fault: GiftFault) -> Linked
    ensures { result ≡ linked.Stopped (record {
      outcome = outcome.Change change.path change.weight change.cert;
      gift = Some fault;
    }) }
{
    Linked::Stopped(RowProof {
        outcome: Outcome::Change {
            path: change.path,
            weight: change.weight,
            cert: change.cert,
        },
        gift: Some(fault),
    })
}
