//! Where the rows of a proof file stand. A row is read once, to see that it is one, dropped, and read
//! again when it is asked for. `shared` is the number of the lines of the rules, behind which those of a
//! table are numbered. It is None where the file has no table.
//!
//! In contracts, `row_reading` is what the grammar reads off lines as a row. `Reads` says that the call
//! answers just that, and which lines are left behind it. Where the grammar reads nothing, the fault is at
//! the first line that can't go on.
ghost use Rattle.std.specs.Prelude.{◌≡◌, IfOk};
ghost use Rattle.proof_grammar.specs.inner.Readings.{Reads, read_many};
ghost use Rattle.proof_grammar.specs.inner.RowReading.{row_reading};
ghost use Rattle.proof_text.specs.Changes.{change_weight};

use super::fitted::fit_list;
use super::rows::next_row;
use bound_cert::{GiftFault, Outcome, RowProof};
use foundation::{OutOfMemory, Sequence};
use proof_grammar::{Lines, ProofFault};
use std::alloc::Global;
use std::marker::Model;

/// Where the lines of a row begin that was read, and what is told of it without reading it again. A
/// contract sees the row that stands there; its tree takes no memory.
#[derive(Drop)]
pub struct RowPlace<'a> {
    // The lines from its first on.
    lines: Lines<'a>,
    // The number of the lines of the rules, behind which those of a table are numbered, if there is one.
    shared: Option<u64>,
    weight: Option<u64>,
    gift: Option<GiftFault>,
}

impl<'a> Model for RowPlace<'a> {
    ghost use Rattle.bound_cert.specs.declared.outcome.RowProof.{RowProof};

    ghost Value = { RowProof };

    ghost use Rattle.proof_text.specs.inner.Places.{BeginsRow, row_at};

    ghost view = { λ p. row_at p.shared p.lines.left };

    ghost invariant = { λ p. BeginsRow p.shared p.lines.left p.weight p.gift };
}

impl<'a> RowPlace<'a> {
    /// The row, read once more. Its lines were read before, so memory alone can be refused.
    pub fn read(&self, alloc: Global) -> Result<RowProof, OutOfMemory>
        ensures { IfOk result (λ row. row ≡ self.now) }
    {
        let mut lines = self.lines.copy();
        match next_row(alloc, &mut lines, self.shared) {
            Ok(row) => Ok(row),
            Err(_) => Err(OutOfMemory), // its lines were read before, so none of them is at fault
        }
    }

    /// The weight of the change that was found of the record, or None where none was found. No memory.
    pub fn change_weight(&self) -> Option<u64>
        ensures { result ≡ change_weight self.now.outcome }
    {
        self.weight
    }

    /// Which number left the range while values were given, or None where none did. No memory.
    pub fn gift(&self) -> Option<GiftFault>
        ensures { result ≡ self.now.gift }
    {
        self.gift
    }
}

/// The places of `count` rows, one after another, whose lines are taken. Each row is read and dropped.
/// Memory is taken for a place when its row was read, whatever the count says.
pub(super) fn next_places<'a>(
    alloc: Global,
    lines: &mut Lines<'a>,
    shared: Option<u64>,
    count: u64,
) -> Result<Sequence<RowPlace<'a>>, ProofFault>
    ensures { Reads result lines.old lines.new (read_many (row_reading shared) count lines.old.left) }
{
    let mut places = Vec::new(alloc);
    for _ in 0..count {
        let place = match next_place(alloc, lines, shared) {
            Ok(place) => place,
            Err(fault) => return Err(fault),
        };
        let Ok(()) = places.push(place) else {
            return Err(ProofFault::OutOfMemory);
        };
    }
    Ok(fit_list(places))
}

// The place of the row at the front. The row is read and dropped, and its lines are taken.
fn next_place<'a>(
    alloc: Global,
    lines: &mut Lines<'a>,
    shared: Option<u64>,
) -> Result<RowPlace<'a>, ProofFault>
    ensures { Reads result lines.old lines.new (row_reading shared lines.old.left) }
{
    let begun = lines.copy();
    match next_row(alloc, lines, shared) {
        Ok(row) => Ok(RowPlace {
            lines: begun,
            shared,
            weight: weight_of(&row.outcome),
            gift: row.gift,
        }),
        Err(fault) => Err(fault),
    }
}

// The weight of the change that was found, or None where none was.
fn weight_of(outcome: &Outcome) -> Option<u64>
    ensures { result ≡ change_weight outcome.now }
{
    match outcome {
        Outcome::Change { weight, .. } => Some(*weight),
        Outcome::Budget { .. } | Outcome::Overflow { .. } | Outcome::Contradictory { .. } => None,
    }
}
