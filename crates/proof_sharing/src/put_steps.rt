//! The steps of a leaf that give lines, put into the table.
//!
//! In contracts `tabled` is the table and the places once these steps are put in, and `with_tabled` once
//! one more is. `tabled_of` is a table with the places of some steps in it.
ghost use Rattle.std.specs.Prelude.{◌≡◌, ◌∷◌, ◌++◌, [], IfOk, OnOk};
ghost use Rattle.derivation.specs.SharedLines.{as_tabled, tabled, tabled_of, with_tabled};

use crate::line_step::as_tabled;
use crate::line_table::LineTable;
use derivation::Step;
use foundation::OutOfMemory;
use std::alloc::Global;

/// Puts the steps of a leaf that give lines into the table, and answers for each step its place there, from
/// 0. A step that makes a box has no place, and 0 stands for it. A line that is there is not put again.
pub(crate) fn put_steps(
    alloc: Global,
    table: &mut LineTable,
    steps: &[Step],
) -> Result<Vec<u64>, OutOfMemory>
    ensures table { OnOk result (table.new ≡ (tabled table.old steps.now).table) }
    ensures places { IfOk result (λ places. places.items ≡ (tabled table.old steps.now).places) }
{
    let mut places = Vec::with_capacity(alloc, steps.len())?;
    for step in steps {
        let place = put_step(table, &places, step)?;
        places.push(place)?;
    }
    Ok(places)
}

// Puts the step into the table, if it gives a line, and answers its place there, from 0. The answer is 0 for
// a step that makes a box, too. `places` has, for each step of the leaf before it, the answer for that.
fn put_step(table: &mut LineTable, places: &[u64], step: &Step) -> Result<u64, OutOfMemory>
    ensures { IfOk result (λ place.
        tabled_of table.new (places.now ++ place ∷ []) ≡ with_tabled (tabled_of table.old places.now) (as_tabled places.now step.now)) }
{
    match as_tabled(places, step) {
        None => Ok(0),
        Some(line) => table.find_or_put(line),
    }
}
