//! Lists of parts of a proof that stand one after another: verdicts, leaves, steps and claims.
//!
//! `shared` is the number of the lines of the rules, behind which those of a table are numbered. It is
//! None where the file has no table.
//!
//! In contracts, `reading` is what the grammar reads off lines. `Reads` says that the call answers just
//! that, and which lines are left behind it. Where the grammar reads nothing, the fault is at the first
//! line that can't go on.
ghost use Rattle.proof_grammar.specs.inner.Readings.{Reads, read_many};

use super::fitted::fit_list;
use foundation::Sequence;
use proof_grammar::{Lines, ProofFault};
use std::alloc::Global;

/// A part of a proof, which begins with a line of its own.
pub(super) trait Part: Sized + Drop {
    ghost use Rattle.std.specs.Prelude.{List, Option, ℕ};
    ghost use Rattle.proof_grammar.specs.ProofLines.{Line};
    ghost use Rattle.proof_grammar.specs.inner.Readings.{Reading};

    /// How lines are read as such a part, and what follows it. The first argument is `shared`.
    ghost reading: { Option ℕ → List Line → Reading Line Self };

    /// The part whose lines are at the front, which are taken.
    fn read(alloc: Global, lines: &mut Lines, shared: Option<u64>) -> Result<Self, ProofFault>
        ensures { Reads result lines.old lines.new (reading shared lines.old.left) };
}

/// The next `count` parts, one after another, whose lines are taken. The first fault of a part ends the
/// call. Memory is taken for each part when its lines were read, whatever the count says.
pub(super) fn next_parts<P: Part>(
    alloc: Global,
    lines: &mut Lines,
    shared: Option<u64>,
    count: u64,
) -> Result<Sequence<P>, ProofFault>
    ensures { Reads result lines.old lines.new (read_many (P.reading shared) count lines.old.left) }
{
    let mut parts = Vec::new(alloc);
    for _ in 0..count {
        let part = match P::read(alloc, lines, shared) {
            Ok(part) => part,
            Err(fault) => return Err(fault),
        };
        let Ok(()) = parts.push(part) else {
            return Err(ProofFault::OutOfMemory);
        };
    }
    Ok(fit_list(parts))
}
