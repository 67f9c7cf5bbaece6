//! The lines of a text, read one after another, with the number of the one that is read, for faults.
//!
//! In contracts, the lines are those left, cut into words at spaces (byte 32), and how many there are in
//! all. `EndsAt` and `FaultAt` say at which line a fault is.
ghost use Rattle.std.specs.Prelude.{◌≡◌, ◌∷◌, IfErr, IfOk, OnErr};
ghost use Rattle.proof_grammar.specs.Cuts.{split};
ghost use Rattle.proof_grammar.specs.LinesLeft.{EndsAt, FaultAt, IsEnd, Settles, begun};

use crate::fault::ProofFault;
use crate::words::{Stop, cut};
use std::marker::Model;

/// The lines that are still to be read, and how many were read.
#[derive(Drop)]
pub struct Lines<'a> {
    rest: &'a [u8],
    taken: u64,
}

impl<'a> Model for Lines<'a> {
    ghost use Rattle.std.specs.Prelude.{◌+◌, ◌-◌, ◌<◌, ◌^◌, length};
    ghost use Rattle.proof_grammar.specs.LinesLeft.{LinesLeft, left_of};

    ghost Value = { LinesLeft };

    ghost view = { λ l. left_of l.rest.now l.taken };

    ghost invariant = { λ l. l.taken + length l.rest.now < 2 ^ 64 - 1 };
}

impl<'a> Lines<'a> {
    /// The lines of a text, none of which is taken.
    pub fn new(text: &'a [u8]) -> Lines<'a>
        ensures { result ≡ begun text.now }
    {
        Lines {
            rest: text,
            taken: 0,
        }
    }

    /// The same lines, from the same one on, to be read once more. Taking from one leaves the other as it
    /// is.
    pub fn copy(&self) -> Lines<'a>
        ensures { result ≡ self.now }
    {
        Lines {
            rest: self.rest,
            taken: self.taken,
        }
    }

    /// Takes the next line, and answers it without its line feed. Where no line feed follows, nothing is
    /// taken, and the fault is `At` the number of the next line.
    pub fn next(&mut self) -> Result<&'a [u8], ProofFault>
        ensures line { IfOk result (λ line. self.old.left ≡ split 32 line.now ∷ self.new.left) }
        ensures all { self.new.all ≡ self.old.all }
        ensures ended { IfErr result (EndsAt self.old) }
        ensures refused { OnErr result (self.new ≡ self.old) }
    {
        match cut(self.rest, b'\n') {
            Some((line, rest)) => {
                self.rest = rest;
                self.taken += 1;
                Ok(line)
            }
            None => Err(ProofFault::At {
                line: self.taken + 1,
            }),
        }
    }

    /// Ok where nothing is left, and else the fault `At` the number of the next line.
    pub fn end(&self) -> Result<(), ProofFault>
        ensures { IsEnd result self.now }
    {
        if self.rest.is_empty() {
            Ok(())
        } else {
            Err(ProofFault::At {
                line: self.taken + 1,
            })
        }
    }

    /// The fault of a line that was taken last and whose reading stopped: `At` that line for `Form`, and
    /// else `OutOfMemory`.
    pub fn fault(&self, stop: Stop) -> ProofFault
        ensures { FaultAt stop self.now result }
    {
        match stop {
            Stop::Form => ProofFault::At { line: self.taken },
            Stop::OutOfMemory => ProofFault::OutOfMemory,
        }
    }
}

/// What a call made of the line that was taken last (`read`), as the answer of a call that reads lines. Ok
/// stays as it is. `Form` becomes the fault `At` the number of that line, and want of memory stays so.
pub fn settle<T>(lines: &Lines, read: Result<T, Stop>) -> Result<T, ProofFault>
    ensures { Settles read lines.now result }
{
    match read {
        Ok(value) => Ok(value),
        Err(stop) => Err(lines.fault(stop)),
    }
}
