//! The tree of a record: whether it is valid, and the line of its first fault.
//!
//! In contracts `FindsInTree` says that the tree is valid, or that the answer is its first fault. `IsAmong`
//! says that the fault stands on one of the record's lines.
ghost use Rattle.std.specs.Prelude.{◌≡◌, ◌⊎◌, ◌<◌, ◌≤◌, ◌+◌, ◌^◌, [], IfOk, IfSome, None, length, take};
ghost use Rattle.std.specs.List.{flat_map};
ghost use Rattle.bound_cert.specs.ValidTrees.{IsNamedIn};
ghost use Rattle.proof_grammar.specs.ProofLines.{leaf_lines};
ghost use Rattle.cert_check.specs.Places.{step_offset, tree_offset};
ghost use Rattle.cert_check.specs.RowChecks.{tree_of};
ghost use Rattle.cert_check.specs.inner.Checks.{FitsFiles, IsChecking, files_in, rules_in};
ghost use Rattle.cert_check.specs.inner.RowFaults.{FindsInTree, IsAmong};

use crate::checking::{Checking, RowAt};
use crate::line_counts::leaf_line_count;
use bound_cert::{Cert, CertFault, Leaf, check_cert};
use foundation::OutOfMemory;
use std::alloc::Global;

/// How many lines behind the head of the record the first fault of its tree is, or None where the tree is
/// valid. It has to show that no correction weighs less than `weight`, or, where `weight` is None, that
/// there is no correction.
pub(crate) fn tree_fault(
    alloc: Global,
    checking: &Checking,
    files: &RowAt,
    cert: &Cert,
    weight: Option<u64>,
) -> Result<Option<u64>, OutOfMemory>
    requires checking { IsChecking checking.now }
    requires files { FitsFiles checking.now files.now }
    requires few { 1 + length (flat_map leaf_lines cert.now.leaves) < 2 ^ 64 }
    ensures found { IfOk result (FindsInTree (tree_of (rules_in checking.now) (files_in files.now) weight) cert.now.leaves) }
    ensures within { IfOk result (IsAmong (1 + length (flat_map leaf_lines cert.now.leaves))) }
{
    match check_cert(
        alloc,
        checking.survey,
        checking.given,
        checking.usable,
        files.row,
        cert,
        weight,
    ) {
        Ok(()) => Ok(None),
        Err(CertFault::Bad { leaf, step }) => {
            Ok(Some(tree_offset(cert.leaves.as_slice(), leaf, step)))
        }
        Err(CertFault::OutOfMemory) => Err(OutOfMemory),
    }
}

// How many lines behind the head of the record the leaf of the number `leaf` stands, or its `step`; both
// numbers are from 0. It is 0, for the head itself, where there are no leaves.
fn tree_offset(leaves: &[Leaf], leaf: u64, step: Option<u64>) -> u64
    requires few { 1 + length (flat_map leaf_lines leaves.now) < 2 ^ 64 }
    requires named { ((leaves.now ≡ []) × (leaf ≡ 0) × (step ≡ None)) ⊎ IsNamedIn leaves.now leaf step }
    ensures offset { result ≡ tree_offset leaves.now leaf step }
    ensures within { result < 1 + length (flat_map leaf_lines leaves.now) }
{
    if leaves.is_empty() {
        return 0;
    }
    1 + (lines_before(leaves, leaf as usize) + step_offset(step))
}

// How many lines of a proof file the first `count` leaves take.
fn lines_before(leaves: &[Leaf], count: usize) -> u64
    requires count { count ≤ length leaves.now }
    requires few { length (flat_map leaf_lines leaves.now) < 2 ^ 64 }
    ensures { result ≡ length (flat_map leaf_lines (take count leaves.now)) }
{
    let mut lines = 0;
    for place in 0..count {
        lines += leaf_line_count(&leaves[place]);
    }
    lines
}

// How many lines behind the head of a leaf its fault is: one more than the number of `step`. Without a step
// it is 0, for the head itself.
fn step_offset(step: Option<u64>) -> u64
    requires { IfSome step (λ s. s + 1 < 2 ^ 64) }
    ensures { result ≡ step_offset step }
{
    match step {
        None => 0,
        Some(step) => step + 1,
    }
}
