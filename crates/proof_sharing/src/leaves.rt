//! The leaves of a tree, changed so that they name their lines in the table.
//!
//! `given` is the number of the lines of the rules, behind which the lines of the table are numbered.
ghost use Rattle.std.specs.Prelude.{◌≡◌, IfOk, OnOk};
ghost use Rattle.derivation.specs.SharedLines.{tabled};
ghost use Rattle.bound_cert.specs.SharedTrees.{shared_leaf, shared_leaves, shared_why, table_with_leaf, table_with_leaves};
ghost use Rattle.bound_cert.specs.ValidTrees.{steps_in};

use crate::kept_steps::{shared_box, shared_line};
use crate::line_table::LineTable;
use crate::put_steps::put_steps;
use bound_cert::{Leaf, LeafWhy};
use foundation::OutOfMemory;
use std::alloc::Global;

/// The leaves, with the names of their lines in the table. Lines that the table lacks are put at its end.
pub(crate) fn share_leaves(
    alloc: Global,
    table: &mut LineTable,
    given: u64,
    leaves: Vec<Leaf>,
) -> Result<Vec<Leaf>, OutOfMemory>
    ensures leaves { IfOk result (λ shared. shared.items ≡ shared_leaves given table.old leaves.items) }
    ensures table { OnOk result (table.new ≡ table_with_leaves table.old leaves.items) }
{
    let mut shared = Vec::with_capacity(alloc, leaves.len())?;
    for leaf in leaves {
        shared.push(share_leaf(alloc, table, given, leaf)?)?;
    }
    Ok(shared)
}

// The leaf with the same path, whose reason names its lines in the table. Lines that the table lacks are
// put at its end.
fn share_leaf(
    alloc: Global,
    table: &mut LineTable,
    given: u64,
    leaf: Leaf,
) -> Result<Leaf, OutOfMemory>
    ensures leaf { IfOk result (λ shared. shared ≡ shared_leaf given table.old leaf) }
    ensures table { OnOk result (table.new ≡ table_with_leaf table.old leaf) }
{
    Ok(Leaf {
        path: leaf.path,
        why: share_why(alloc, table, given, &leaf.why)?,
    })
}

// The reason of a leaf, with the names of its lines in the table. A reason without steps (`Bound`,
// `BadKept`) stays as it is.
fn share_why(
    alloc: Global,
    table: &mut LineTable,
    given: u64,
    why: &LeafWhy,
) -> Result<LeafWhy, OutOfMemory>
    ensures why { IfOk result (λ shared. shared ≡ shared_why given table.old why.now) }
    ensures table { OnOk result (table.new ≡ (tabled table.old (steps_in why.now)).table) }
{
    match why {
        LeafWhy::Bound => Ok(LeafWhy::Bound),
        LeafWhy::BadKept => Ok(LeafWhy::BadKept),
        LeafWhy::Line(steps) => {
            let places = put_steps(alloc, table, steps.as_slice())?;
            Ok(LeafWhy::Line(shared_line(alloc, given, &places)?))
        }
        LeafWhy::Box(steps) => {
            let places = put_steps(alloc, table, steps.as_slice())?;
            Ok(LeafWhy::Box(shared_box(alloc, given, &places, steps.as_slice())?))
        }
    }
}
