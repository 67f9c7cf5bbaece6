//! Whether each step of a proof's table gives a line. The table has the lines that all records share; its
//! lines are then given to the trees, behind those of the rules.
ghost use Rattle.std.specs.Prelude.{◌≡◌, ◌++◌, IfOk, None, Ok, OnOk, length, map, true};
ghost use Rattle.edit_line.specs.Lines.{AreOver};
ghost use Rattle.edit_line.specs.Shapes.{shape_of};
ghost use Rattle.edit_normal.specs.RuleLines.{normal_lines_of};
ghost use Rattle.proof_grammar.specs.Limits.{IsPlain};
ghost use Rattle.cert_check.specs.Dropped.{kept_flags};
ghost use Rattle.cert_check.specs.Tables.{shared_lines, table_fault};
ghost use Rattle.cert_check.specs.inner.Counts.{IsCounted};

use crate::line_counts::table_line;
use derivation::{StepsFault, line_list};
use edit_line::Line;
use edit_model::Survey;
use foundation::OutOfMemory;
use proof_text::ProofFile;
use std::alloc::Global;

/// The number, from 1, of the first line of the proof at which a step of its table gives no line. None
/// where each step gives one. Then the lines of the table are put behind those of the rules in `lines`,
/// and are marked as usable. Before, `lines` are those of the rules, and `usable` says which are kept.
pub(crate) fn table_fault(
    alloc: Global,
    survey: &Survey,
    lines: &mut Vec<Line>,
    usable: &mut Vec<bool>,
    proof: &ProofFile,
) -> Result<Option<u64>, OutOfMemory>
    requires plain { IsPlain proof.now }
    requires counted { IsCounted proof.now }
    requires lines { lines.old.items ≡ normal_lines_of survey.now }
    requires usable { usable.old.items ≡ kept_flags proof.now }
    requires over { AreOver (shape_of survey.now.fields) lines.old.items }
    requires each { length lines.old.items ≡ length usable.old.items }
    ensures found { IfOk result (λ found. found ≡ table_fault survey.now proof.now) }
    ensures lines { result ≡ Ok None → lines.new.items ≡ normal_lines_of survey.now ++ shared_lines survey.now proof.now }
    ensures usable { result ≡ Ok None → usable.new.items ≡ kept_flags proof.now ++ map (λ line. true) (shared_lines survey.now proof.now) }
    ensures over { result ≡ Ok None → AreOver (shape_of survey.now.fields) lines.new.items }
{
    match line_list(alloc, survey, lines, usable, proof.table()) {
        Ok(shared) => {
            put_behind(lines, usable, shared)?;
            Ok(None)
        }
        Err(StepsFault::Bad { place }) => Ok(Some(table_line(proof) + 1 + place)),
        Err(StepsFault::OutOfMemory) => Err(OutOfMemory),
    }
}

// Puts the lines `shared` behind the others, and marks each of them as usable.
fn put_behind(
    lines: &mut Vec<Line>,
    usable: &mut Vec<bool>,
    mut shared: Vec<Line>,
) -> Result<(), OutOfMemory>
    ensures lines { OnOk result (lines.new.items ≡ lines.old.items ++ shared.items) }
    ensures usable { OnOk result (usable.new.items ≡ usable.old.items ++ map (λ line. true) shared.items) }
{
    let count = usable.len() + shared.len();
    lines.append(&mut shared)?;
    usable.resize(count, true)?;
    Ok(())
}
