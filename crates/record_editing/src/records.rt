//! What becomes of all records of a sheet, by workers that run side by side. In contracts, `IsEndOf` says
//! that an end is what becomes of its record, and `Says` what it says of corrections. `AreDonations` says
//! that the claims are a legal history of what the records need, `AreInOrder` that they come in row order.
//! `HasPlainNumbers` says that numbers are plain: numerators below 10^21, denominators of at most 10^6.
ghost use Rattle.std.specs.Prelude.{◌≡◌, ◌<◌, ◌≤◌, IfOk, IfSome, length};
ghost use Rattle.std.specs.Arc.{arc_value};
ghost use Rattle.std.specs.List.{AllByRecursion, AllZip};
ghost use Rattle.foundation.specs.Limits.{most_near};
ghost use Rattle.edit_line.specs.EditSets.{SayTheRules};
ghost use Rattle.edit_line.specs.Shapes.{shape_of};
ghost use Rattle.edit_model.specs.PlainNumbers.{HasPlainNumbers};
ghost use Rattle.edit_model.specs.Rows.{IsRow};
ghost use Rattle.donor_measure.specs.Measures.{Measures};
ghost use Rattle.donor_measure.specs.Yardsticks.{yardsticks_of};
ghost use Rattle.record_pieces.specs.Rests.{IsRest, class_field_in, rows_in};
ghost use Rattle.record_ends.specs.Ends.{IsEndOf};
ghost use Rattle.record_ends.specs.Givings.{IsEndIn, SaysIn};
ghost use Rattle.record_ends.specs.Said.{Says};
ghost use Rattle.record_editing.specs.Donations.{AreDonations, AreInOrder};
ghost use Rattle.record_editing.specs.inner.Givings.{AreDonationsIn};

use crate::edited::Edited;
use crate::terms::Terms;
use donor_measure::Measure;
use edit_line::Edits;
use edit_model::{Survey, Value};
use foundation::OutOfMemory;
use record_ends::give_all;
use record_pieces::{Decks, Rest};
use record_text::Sheet;
use record_workers::{Gate, Gathered, ready_workers, run_all};
use shared_edits::Pool;
use std::alloc::Global;
use std::sync::{Arc, Wait};
use std::thread::Threads;

/// What becomes of each record of a sheet, in order: the outcome of its search by the edits, and the values
/// of its changed fields. For these it claims a donor among the clean records, those of its own imputation
/// class where the terms have a class field. From 1 to 64 workers draw the records side by side, and the
/// gate is told of each draw. At a point with codes of the survey, the edits hold exactly where the rules
/// do. The measure is one of the survey, and the records' numbers are plain.
pub fn edit_records<
    R: Threads + Wait + Sync,
    F: Fn(u32, &Value, &Value) -> u64 + Send + Sync,
    G: Gate,
>(
    rt: &R,
    alloc: Global,
    survey: Survey,
    edits: Edits,
    sheet: Sheet,
    measure: Measure<F>,
    terms: Terms,
    workers: u32,
    gate: &G,
) -> Result<Edited<F>, OutOfMemory>
    requires over { edits.shape ≡ shape_of survey.fields }
    requires same { SayTheRules survey edits }
    requires rows { AllByRecursion (IsRow survey.fields) sheet.rows }
    requires plain { AllByRecursion HasPlainNumbers sheet.rows }
    requires measures { Measures F.Fn measure.closure measure.yardsticks }
    requires yardsticks { measure.yardsticks ≡ yardsticks_of survey.fields }
    requires near { terms.near ≤ most_near }
    requires field { IfSome terms.class_field (λ field. field < length survey.fields) }
    requires workers { (1 ≤ workers) × (workers ≤ 64) }
    ensures survey { IfOk result (λ edited. edited.rest.survey ≡ survey) }
    ensures sheet { IfOk result (λ edited. edited.rest.sheet ≡ sheet) }
    ensures ends { IfOk result (λ edited. AllZip (IsEndOf survey edits terms.budget sheet.rows) sheet.rows edited.ends.items) }
    ensures say { IfOk result (λ edited. AllZip (Says survey edits terms.budget) sheet.rows edited.ends.items) }
    ensures donations { IfOk result (λ edited. AreDonations survey sheet.rows terms edited.ends.items edited.history.items) }
    ensures order { IfOk result (λ edited. workers ≡ 1
        → AreInOrder survey sheet.rows terms.class_field edited.ends.items edited.history.items) }
{
    let decks = Decks::new(alloc, &survey, &sheet, terms.class_field)?;
    let (edits, pool) = pool_of(alloc, edits)?;
    let rest = Rest {
        survey,
        edits,
        sheet,
        decks,
        measure,
        near: terms.near,
        budget: terms.budget,
        pool,
    };
    edit_by(rt, alloc, rest, terms.limit, workers, gate)
}

// The edits, to be read by all workers, and the pool of the systems that are derived from them.
fn pool_of(alloc: Global, edits: Edits) -> Result<(Arc<Edits>, Pool), OutOfMemory>
    ensures edits { IfOk result (λ made. arc_value made.0 ≡ edits) }
    ensures pool { IfOk result (λ made. made.1.edits ≡ edits) }
{
    let edits = Arc::new(alloc, edits)?;
    let pool = Pool::new(alloc, Arc::try_clone(&edits)?)?;
    Ok((edits, pool))
}

// What becomes of each record by `rest`, which has the sheet, the edits and the donors. A donor is given at
// most `limit` times. First the workers search and claim, and then all records are given values.
fn edit_by<R: Threads + Wait + Sync, F: Fn(u32, &Value, &Value) -> u64 + Send + Sync, G: Gate>(
    rt: &R,
    alloc: Global,
    rest: Rest<F>,
    limit: u32,
    workers: u32,
    gate: &G,
) -> Result<Edited<F>, OutOfMemory>
    requires rest { IsRest F.Fn rest }
    requires workers { (1 ≤ workers) × (workers ≤ 64) }
    ensures rest { IfOk result (λ edited. edited.rest ≡ rest) }
    ensures ends { IfOk result (λ edited. AllZip (IsEndIn rest) (rows_in rest) edited.ends.items) }
    ensures say { IfOk result (λ edited. AllZip (SaysIn rest) (rows_in rest) edited.ends.items) }
    ensures donations { IfOk result (λ edited. AreDonationsIn rest limit edited.ends.items edited.history.items) }
    ensures order { IfOk result (λ edited. workers ≡ 1
        → AreInOrder rest.survey (rows_in rest) (class_field_in rest) edited.ends.items edited.history.items) }
{
    let (shared, ready) = ready_workers(alloc, rest, limit, workers)?;
    let Gathered {
        pieces,
        history,
        rest,
    } = run_all(rt, alloc, shared, ready, gate)?;
    let ends = give_all(rt, alloc, &rest, pieces, &history)?;
    Ok(Edited {
        ends,
        history,
        rest,
    })
}
