//! The check of a proof tree, leaf by leaf. It knows nothing of the search, so that the tree may come from
//! anybody. In contracts, `IfBad` speaks of the leaf and the step that Bad names, and `IsFirstFault` says
//! that they are the first at fault. `tree_case` has what the tree is about.
ghost use Rattle.std.specs.Prelude.{◌≡◌, OnOk, length};
ghost use Rattle.edit_model.specs.Rows.{IsRow};
ghost use Rattle.edit_line.specs.Lines.{AreOver};
ghost use Rattle.edit_line.specs.Shapes.{shape_of};
ghost use Rattle.bound_cert.specs.inner.Tasks.{IsTask, case};
ghost use Rattle.bound_cert.specs.ValidTrees.{IfBad, IsFirstFault, IsNamed, IsValidTree, NoneIsLighter, tree_case};

use crate::cert::{Cert, Leaf};
use crate::fault::CertFault;
use crate::leaf_check::verdict_at;
use crate::task::Task;
use crate::verdict::Verdict;
use edit_line::Line;
use edit_model::{Row, Survey};
use std::alloc::Global;

/// Ok exactly where the tree is valid. Then each point at which the usable lines hold changes the record by
/// the weight at least; without a weight, there is no such point. `usable` says of each of the `given`
/// lines, which are over the survey's fields, whether steps may build on it. Bad comes with the first leaf
/// whose path is not the next of a full tree, or which is not valid. Of one that is not valid it also names
/// the first step that is not, if there is one. Both count from 0; where there are no leaves, Bad names leaf
/// 0. The time is in proportion to the size of the tree.
pub fn check_cert(
    alloc: Global,
    survey: &Survey,
    given: &[Line],
    usable: &[bool],
    row: &Row,
    cert: &Cert,
    weight: Option<u64>,
) -> Result<(), CertFault>
    requires lists { length given.now ≡ length usable.now }
    requires over { AreOver (shape_of survey.now.fields) given.now }
    requires row { IsRow survey.now.fields row.now }
    ensures valid { OnOk result (IsValidTree (tree_case survey.now given.now usable.now row.now weight) cert.now.leaves) }
    ensures bad { IfBad result (IsFirstFault (tree_case survey.now given.now usable.now row.now weight) cert.now.leaves) }
    ensures named { IfBad result (IsNamed cert.now.leaves) }
    ensures invalid { IfBad result (λ leaf step.
        ¬ IsValidTree (tree_case survey.now given.now usable.now row.now weight) cert.now.leaves) }
    ensures shown { OnOk result (NoneIsLighter (tree_case survey.now given.now usable.now row.now weight)) }
{
    let task = Task {
        survey,
        given,
        usable,
        row,
        weight,
    };
    check_leaves(alloc, &task, cert.leaves.as_slice())
}

// Ok exactly where these are the leaves of a valid tree, in order. Bad with the first leaf that is at fault, or
// with leaf 0 where there are none. [`check_cert`] hands its whole task down to this loop.
fn check_leaves(alloc: Global, task: &Task, leaves: &[Leaf]) -> Result<(), CertFault>
    requires { IsTask task.now }
    ensures valid { OnOk result (IsValidTree (case task.now) leaves.now) }
    ensures bad { IfBad result (IsFirstFault (case task.now) leaves.now) }
{
    if leaves.is_empty() {
        return Err(CertFault::Bad {
            leaf: 0,
            step: None,
        });
    }
    for place in 0..leaves.len() {
        match verdict_at(alloc, task, leaves, place)? {
            Verdict::Valid => {}
            Verdict::Invalid(step) => {
                return Err(CertFault::Bad {
                    leaf: place as u64,
                    step,
                });
            }
        }
    }
    Ok(())
}
