//! A proof file that was read, but for the trees of its rows: what the audit looks at.
ghost use Rattle.std.specs.Prelude.{◌≡◌, IfOk};

use super::places::RowPlace;
use bound_cert::RowProof;
use derivation::Step;
use donor_book::Entry;
use foundation::{OutOfMemory, Sequence};
use proof_grammar::Proof;
use std::alloc::Global;
use std::marker::Model;

/// A proof whose rows stay in the bytes that it was read from: of each no more is held than its place. A
/// contract sees the proof.
#[derive(Drop)]
pub struct ProofFile<'a> {
    pub(super) version: u32,
    pub(super) limit: u32,
    pub(super) near: u32,
    pub(super) budget: u64,
    pub(super) verdicts: Sequence<Option<Sequence<Step>>>,
    pub(super) table: Sequence<Step>,
    pub(super) rows: Sequence<RowPlace<'a>>,
    pub(super) claims: Sequence<Entry>,
}

impl<'a> Model for ProofFile<'a> {
    ghost use Rattle.proof_grammar.specs.declared.proof.Proof.{Proof};

    ghost Value = { Proof };

    ghost view = { λ f. record {
      version = f.version;
      limit = f.limit;
      near = f.near;
      budget = f.budget;
      verdicts = f.verdicts;
      table = f.table;
      rows = f.rows;
      claims = f.claims;
    } };
}

impl<'a> ProofFile<'a> {
    /// The version of its text: 1, or 2, in which the lines that all records share are written once.
    pub fn version(&self) -> u32
        ensures { result ≡ self.now.version }
    {
        self.version
    }

    /// How often a donor may be given.
    pub fn limit(&self) -> u32
        ensures { result ≡ self.now.limit }
    {
        self.limit
    }

    /// How many donors a row ranks at most.
    pub fn near(&self) -> u32
        ensures { result ≡ self.now.near }
    {
        self.near
    }

    /// How much work the search for a record's change may take.
    pub fn budget(&self) -> u64
        ensures { result ≡ self.now.budget }
    {
        self.budget
    }

    /// For each line of the rules None where it is kept, or the steps that show that it follows.
    pub fn verdicts(&self) -> &[Option<Sequence<Step>>]
        ensures { result.now ≡ self.now.verdicts }
    {
        self.verdicts.as_slice()
    }

    /// The steps of the table, whose lines all records share; none in version 1.
    pub fn table(&self) -> &[Step]
        ensures { result.now ≡ self.now.table }
    {
        self.table.as_slice()
    }

    /// The places of the rows, one for each record, in order.
    pub fn rows(&self) -> &[RowPlace<'a>]
        ensures { result.now ≡ self.now.rows }
    {
        self.rows.as_slice()
    }

    /// The claims, in the order in which they were answered.
    pub fn claims(&self) -> &[Entry]
        ensures { result.now ≡ self.now.claims }
    {
        self.claims.as_slice()
    }

    /// The proof with all its trees, for which each row is read once more.
    pub fn into_proof(self, alloc: Global) -> Result<Proof, OutOfMemory>
        ensures { IfOk result (λ proof. proof ≡ self.entry) }
    {
        let ProofFile {
            version,
            limit,
            near,
            budget,
            verdicts,
            table,
            rows,
            claims,
        } = self;
        Ok(Proof {
            version,
            limit,
            near,
            budget,
            verdicts,
            table,
            rows: rows_at(alloc, rows.as_slice())?,
            claims,
        })
    }
}

// The rows at these places, each read once more.
fn rows_at(alloc: Global, places: &[RowPlace]) -> Result<Sequence<RowProof>, OutOfMemory>
    ensures { IfOk result (λ rows. rows ≡ places.now) }
{
    let mut rows = Vec::with_capacity(alloc, places.len())?;
    for place in places {
        rows.push(place.read(alloc)?)?;
    }
    Ok(Sequence::from_vec(rows))
}
