//! The certificate that the bench makes: a full tree of paths, each closed by a list of steps. A tree is
//! full where each path is a leaf or goes on both with `K` and with `C`.
ghost use Rattle.std.specs.Prelude.{◌≡◌, ◌&&◌, ◌+◌, ◌≤◌, ◌^◌, ◌==◌, IfOk, length};
ghost use Rattle.std.specs.List.{AllByRecursion};
ghost use Rattle.bound_cert.specs.ValidTrees.{steps_in};
ghost use Rattle.certificate_bench.specs.inner.Certificates.{leaf_at, leaves_of, path_to, step_where, steps_of};

use bound_cert::{Cert, Leaf, LeafWhy, Path};
use derivation::Step;
use foundation::{OutOfMemory, Sequence};
use std::alloc::Global;

/// A certificate that is asked for. It has the leaves of the full tree of this depth, each closed by
/// `steps` steps, which all name the one given line. In a broken one the last step of the last leaf
/// names a line that is not there.
#[derive(Clone, Copy)]
pub struct Plan {
    pub depth: u32,
    pub steps: u64,
    pub broken: bool,
}

impl Plan {
    /// The certificate of this plan: its leaves in order, from the path that keeps each field to the one
    /// that changes each.
    pub fn cert(self, alloc: Global) -> Result<Cert, OutOfMemory>
        requires { self.depth ≤ 20 }
        ensures leaves { IfOk result (λ cert. cert.leaves ≡ leaves_of self) }
        ensures count { IfOk result (λ cert. length cert.leaves ≡ 2 ^ self.depth) }
        ensures steps { IfOk result (λ cert. AllByRecursion (λ leaf. length (steps_in leaf.why) ≡ self.steps) cert.leaves) }
    {
        let count = self.leaf_count();
        let mut leaves = Vec::new(alloc);
        for number in 0..count {
            leaves.push(self.leaf(alloc, number, number + 1 == count)?)?;
        }
        Ok(Cert {
            leaves: Sequence::from_vec(leaves),
        })
    }

    // How many leaves the tree of this depth has.
    fn leaf_count(self) -> u64
        requires { self.depth ≤ 20 }
        ensures { result ≡ 2 ^ self.depth }
    {
        1 << self.depth
    }

    // The leaf of this number, from 0. `last` says whether it is the last one, whose steps may be broken.
    fn leaf(self, alloc: Global, number: u64, last: bool) -> Result<Leaf, OutOfMemory>
        requires depth { self.depth ≤ 20 }
        requires last { last ≡ (number + 1 == 2 ^ self.depth) }
        ensures { IfOk result (λ leaf. leaf ≡ leaf_at self number) }
    {
        let letters = path_to(alloc, self.depth, number)?;
        let steps = steps_of(alloc, self.steps, is_both(self.broken, last))?;
        Ok(Leaf {
            path: Path::new(letters),
            why: LeafWhy::Line(Sequence::from_vec(steps)),
        })
    }
}

// Whether both are true.
fn is_both(first: bool, second: bool) -> bool
    ensures { result ≡ (first && second) }
{
    first && second
}

// The path of `depth` letters to the leaf of this number: its bits, the highest first, where a 1 is a
// changed field.
fn path_to(alloc: Global, depth: u32, number: u64) -> Result<Vec<bool>, OutOfMemory>
    requires { depth ≤ 20 }
    ensures { IfOk result (λ letters. letters.items ≡ path_to depth number) }
{
    let mut letters = Vec::new(alloc);
    for place in 0..depth {
        letters.push((number >> (depth - 1 - place)) & 1 == 1)?;
    }
    Ok(letters)
}

// A list of `count` steps, each of which takes the one given line. Where it is `broken`, the last takes a line
// that is not there instead, so that the list is not valid; an empty list has no last step, and is the same.
fn steps_of(alloc: Global, count: u64, broken: bool) -> Result<Vec<Step>, OutOfMemory>
    ensures { IfOk result (λ steps. steps.items ≡ steps_of count broken) }
{
    let mut steps = Vec::new(alloc);
    for place in 0..count {
        steps.push(step_where(broken, place + 1 == count))?;
    }
    Ok(steps)
}

// The step that names the one given line. Where the list is `broken` and the step is its `last`, it
// names a line behind that, which is not there.
fn step_where(broken: bool, last: bool) -> Step
    ensures { result ≡ step_where broken last }
{
    if broken && last {
        Step::Given(1)
    } else {
        Step::Given(0)
    }
}
