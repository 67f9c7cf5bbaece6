//! Whether what a proof says of one record is right: its path and weight, its tree, and the row that is
//! released of it.
//!
//! In contracts `FindsSaid` and its like say that what is checked is right, or that the answer is its
//! first fault. `IsWithin` and `IsAmong` say that the fault stands on one of the record's lines.
//! `IsChecking` says that the parts of `checking` fit each other, and `FitsFiles` that those of the record
//! fit them. `rules_in` and `files_in` are `checking` and `files` as values.
ghost use Rattle.std.specs.Prelude.{◌≡◌, ◌<◌, ◌+◌, ◌^◌, IfOk, None, Some, if◌then◌else◌, length, option_map};
ghost use Rattle.std.specs.List.{flat_map};
ghost use Rattle.bound_cert.specs.declared.outcome.Outcome.TheVariants.{Change};
ghost use Rattle.proof_grammar.specs.ProofLines.{change_lines_in, leaf_lines, row_lines};
ghost use Rattle.cert_check.specs.inner.Checks.{FitsFiles, IsChecking, files_in, rules_in};
ghost use Rattle.cert_check.specs.inner.RowFaults.{FindsInCert, FindsInChange, FindsSaid, IsAmong, IsWithin};

use crate::checking::{Checking, RowAt};
use crate::fault::Why;
use crate::released_row::has_right_row;
use crate::said::{event_exists, gift_exists, is_change};
use crate::tree_check::tree_fault;
use bound_cert::{Cert, GiftFault, Outcome, Path, RowProof};
use foundation::OutOfMemory;
use std::alloc::Global;

/// The first fault of what a proof says of records, and why it is one. `offset` is how many lines behind
/// the head of a record it stands; of all records, behind the head of the first.
#[derive(Clone, Copy)]
pub(crate) struct RowFault {
    pub(crate) offset: u64,
    pub(crate) why: Why,
}

/// What a proof says of a record that is changed: the path of its change, the weight of that, and the tree
/// that shows that no change of less weight would do.
#[derive(Clone, Copy)]
struct SaidChange<'a> {
    path: &'a Path,
    weight: u64,
    cert: &'a Cert,
}

/// The first fault of what is said of a record, or None where it is right. That a budget was passed, or
/// that a number left the range, is taken on trust. Of these no more is checked than that the numbers fit.
pub(crate) fn row_fault(
    alloc: Global,
    checking: &Checking,
    files: &RowAt,
    said: &RowProof,
) -> Result<Option<RowFault>, OutOfMemory>
    requires checking { IsChecking checking.now }
    requires files { FitsFiles checking.now files.now }
    requires few { length (row_lines said.now) < 2 ^ 64 }
    ensures found { IfOk result (FindsSaid (rules_in checking.now) (files_in files.now) said.now.outcome said.now.gift) }
    ensures within { IfOk result (IsWithin (length (row_lines said.now))) }
{
    match &said.outcome {
        Outcome::Change { path, weight, cert } => {
            let change = SaidChange {
                path,
                weight: *weight,
                cert,
            };
            match said.gift {
                None => change_fault(alloc, checking, files, &change),
                Some(fault) => gift_fault(alloc, checking, files, &change, fault),
            }
        }
        Outcome::Budget { work, .. } => Ok(head_fault(*work <= checking.budget)),
        Outcome::Overflow { path, event } => {
            Ok(head_fault(event_exists(checking.survey, path, *event)))
        }
        Outcome::Contradictory { cert } => {
            Ok(cert_fault(tree_fault(alloc, checking, files, cert, None)?))
        }
    }
}

// The first fault of a change that was given values: of its path, weight or tree, and then of the released
// row.
fn change_fault(
    alloc: Global,
    checking: &Checking,
    files: &RowAt,
    change: &SaidChange,
) -> Result<Option<RowFault>, OutOfMemory>
    requires checking { IsChecking checking.now }
    requires files { FitsFiles checking.now files.now }
    requires few { length (change_lines_in None change.now.path.now change.now.weight change.now.cert.now.leaves) < 2 ^ 64 }
    ensures found { IfOk result (FindsSaid (rules_in checking.now) (files_in files.now)
        (Change change.now.path.now change.now.weight change.now.cert.now) None) }
    ensures within { IfOk result
        (IsWithin (length (change_lines_in None change.now.path.now change.now.weight change.now.cert.now.leaves))) }
{
    match change_path_fault(alloc, checking, files, change)? {
        Some(offset) => Ok(Some(RowFault {
            offset,
            why: Why::Cert,
        })),
        None => {
            if has_right_row(alloc, checking, files, change.path.letters())? {
                Ok(None)
            } else {
                Ok(Some(RowFault {
                    offset: 0,
                    why: Why::RowText,
                }))
            }
        }
    }
}

// The first fault of a change to which no values were given, since a number left the range. It is one of
// its path, weight or tree, and then of what is said of that number.
fn gift_fault(
    alloc: Global,
    checking: &Checking,
    files: &RowAt,
    change: &SaidChange,
    fault: GiftFault,
) -> Result<Option<RowFault>, OutOfMemory>
    requires checking { IsChecking checking.now }
    requires files { FitsFiles checking.now files.now }
    requires few { 1 + length (flat_map leaf_lines change.now.cert.now.leaves) < 2 ^ 64 }
    ensures found { IfOk result (FindsSaid (rules_in checking.now) (files_in files.now)
        (Change change.now.path.now change.now.weight change.now.cert.now) (Some fault)) }
    ensures within { IfOk result (IsWithin (1 + length (flat_map leaf_lines change.now.cert.now.leaves))) }
{
    match path_fault(alloc, checking, files, change)? {
        Some(offset) => Ok(Some(RowFault {
            offset,
            why: Why::Cert,
        })),
        None => Ok(head_fault(gift_exists(checking.survey, fault))),
    }
}

// How many lines behind the head the first fault of the path, the weight or the tree is, of a change that
// was given values. None where there is none. A change of weight 0 is a clean record, which needs no tree.
fn change_path_fault(
    alloc: Global,
    checking: &Checking,
    files: &RowAt,
    change: &SaidChange,
) -> Result<Option<u64>, OutOfMemory>
    requires checking { IsChecking checking.now }
    requires files { FitsFiles checking.now files.now }
    requires few { length (change_lines_in None change.now.path.now change.now.weight change.now.cert.now.leaves) < 2 ^ 64 }
    ensures found { IfOk result (FindsInChange (rules_in checking.now) (files_in files.now)
        change.now.path.now change.now.weight change.now.cert.now.leaves) }
    ensures within { IfOk result
        (IsAmong (length (change_lines_in None change.now.path.now change.now.weight change.now.cert.now.leaves))) }
{
    if change.weight == 0 {
        Ok(None)
    } else {
        path_fault(alloc, checking, files, change)
    }
}

// How many lines behind the head the first fault of the path, the weight or the tree is, of any change.
// None where there is none. It is 0, the head itself, for a fault of the path or of the weight.
fn path_fault(
    alloc: Global,
    checking: &Checking,
    files: &RowAt,
    change: &SaidChange,
) -> Result<Option<u64>, OutOfMemory>
    requires checking { IsChecking checking.now }
    requires files { FitsFiles checking.now files.now }
    requires few { 1 + length (flat_map leaf_lines change.now.cert.now.leaves) < 2 ^ 64 }
    ensures found { IfOk result (FindsInCert (rules_in checking.now) (files_in files.now)
        change.now.path.now change.now.weight change.now.cert.now.leaves) }
    ensures within { IfOk result (IsAmong (1 + length (flat_map leaf_lines change.now.cert.now.leaves))) }
{
    if is_change(checking.survey, files.row, change.path, change.weight) {
        tree_fault(alloc, checking, files, change.cert, Some(change.weight))
    } else {
        Ok(Some(0))
    }
}

// The fault `Cert` at the head of a record, or None where what the head says is `right`.
fn head_fault(right: bool) -> Option<RowFault>
    ensures { result ≡ (if right then None else Some (record { offset = 0; why = Why.Cert })) }
{
    if right {
        None
    } else {
        Some(RowFault {
            offset: 0,
            why: Why::Cert,
        })
    }
}

// The fault `Cert` that stands `offset` lines behind the head of a record. None where the check of the
// tree found no fault, and so gave no `offset`.
fn cert_fault(offset: Option<u64>) -> Option<RowFault>
    ensures { result ≡ option_map (λ offset. record { offset = offset; why = Why.Cert }) offset }
{
    match offset {
        None => None,
        Some(offset) => Some(RowFault {
            offset,
            why: Why::Cert,
        }),
    }
}
