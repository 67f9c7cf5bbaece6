//! What a worker finds of one record, with the systems of the pool. The search borrows the worker's reader
//! meanwhile. In contracts, `IsReaderOf` says that the reader has walked entries of this pool alone, and
//! `kept_by` which sets of fields it then keeps. `KeepsFor` says that the system of a found change is kept.
//! A `ghost_name` tells one borrow of a reader from any other.
ghost use Rattle.std.specs.Prelude.{◌≡◌, ◌<◌, ℕ, IfOk, None, Option, Some, length, true};
ghost use Rattle.shared_edits.specs.Pools.{IsReaderOf, PoolParts, keeps_fields};
ghost use Rattle.record_pieces.specs.Rests.{IsPieceIn, IsRest, KeepsFor, rows_in};
ghost use Rattle.record_workers.specs.Workers.{kept_by};

use edit_line::Edits;
use edit_model::{FieldSet, Value};
use foundation::{OutOfMemory, Steps};
use linear_elim::{Held, System, SystemFault, Systems};
use record_pieces::{Piece, Rest, piece_of};
use shared_edits::{PoolSource, Reader};
use std::alloc::Global;
use std::marker::{Brand, PhantomData};
use std::sync::ledger::Ledger;
use std::sync::{Arc, Wait};

/// For proofs alone: the pool of a source, and which borrow of a worker's reader it has. A search that uses
/// the source leaves them the same.
trait Lent {
    ghost pool: { Option PoolParts };

    ghost reader: { ℕ };
}

impl Lent for Brand {
    ghost pool = { None };

    ghost reader = { 0 };
}

/// A source over a pool and a worker's reader, of which it is known which pool and which reader these are.
/// It answers as a [`PoolSource`] does.
#[derive(Drop)]
struct WorkerSource<'a, R: Wait, N: Lent> {
    source: PoolSource<'a, R>,
    lent: PhantomData<N>,
}

impl<'a, R: Wait, N: Lent> Systems for WorkerSource<'a, R, N> {
    ghost use Rattle.std.specs.Prelude.{◌≡◌, Some};
    ghost use Rattle.shared_edits.specs.Pools.{IsReaderOf, keeps_fields};

    ghost serves = { λ s edits. (edits ≡ s.source.pool.now.edits) × IsReaderOf s.source.pool.now s.source.reader.now
        × (Some s.source.pool.now ≡ N.pool) × (s.source.reader.ghost_name ≡ N.reader) };

    ghost keeps = { λ s fields. keeps_fields s.source.pool.now fields s.source.reader.now };

    // What the pool answers ([`shared_edits::Pool::obtain`]). The edits are not read, as they are the pool's.
    fn system<L: Ledger>(
        &mut self,
        alloc: Global,
        _edits: &Arc<Edits>,
        fields: FieldSet,
        steps: &mut Steps<L>,
    ) -> Result<Held, SystemFault> {
        let own = &mut self.source;
        own.pool.obtain(own.rt, alloc, own.reader, fields, steps)
    }

    // What the pool answers: the system with `field` more than `before`, by one step from that where the
    // reader does not know it.
    fn system_after<L: Ledger>(
        &mut self,
        alloc: Global,
        before: &System,
        field: u32,
        steps: &mut Steps<L>,
    ) -> Result<Held, SystemFault> {
        let own = &mut self.source;
        own.pool
            .obtain_after(own.rt, alloc, own.reader, before, field, steps)
    }
}

/// What [`piece_of`] finds of the record of this number, with the systems of the pool. The reader may have
/// walked more of the pool afterwards, and keeps what it knew.
pub(crate) fn find_piece<R: Wait, F: Fn(u32, &Value, &Value) -> u64, L: Ledger>(
    reader: &mut Reader,
    rt: &R,
    alloc: Global,
    rest: &Rest<F>,
    row_no: u32,
    steps: &mut Steps<L>,
) -> Result<Piece, OutOfMemory>
    requires rest { IsRest F.Fn rest.now }
    requires reader { IsReaderOf rest.now.pool reader.old }
    requires row { row_no < length (rows_in rest.now) }
    ensures reader { IsReaderOf rest.now.pool reader.new }
    ensures keeps { (f : ℕ) → kept_by rest.now reader.old f ≡ true → kept_by rest.now reader.new f ≡ true }
    ensures row { IfOk result (λ piece. piece.row_no ≡ row_no) }
    ensures piece { IfOk result (IsPieceIn rest.now) }
    ensures kept { IfOk result (KeepsFor rest.now (kept_by rest.now reader.new)) }
{
    let mut found = Err(OutOfMemory);
    find_lent::<R, F, L, Brand>(reader, rt, alloc, rest, row_no, steps, &mut found);
    found
}

// Puts what is found of the record into `found`, and gives the reader back. `N` marks the source with the
// pool and the reader, so that proofs know that the search leaves them the same.
fn find_lent<'a, R: Wait, F: Fn(u32, &Value, &Value) -> u64, L: Ledger, N: Lent>(
    reader: &'a mut Reader,
    rt: &'a R,
    alloc: Global,
    rest: &'a Rest<F>,
    row_no: u32,
    steps: &mut Steps<L>,
    found: &mut Result<Piece, OutOfMemory>,
) -> &'a mut Reader
    requires lent { (Some rest.now.pool ≡ N.pool) × (reader.ghost_name ≡ N.reader) }
    requires rest { IsRest F.Fn rest.now }
    requires reader { IsReaderOf rest.now.pool reader.old }
    requires row { row_no < length (rows_in rest.now) }
    ensures same_reader { result.ghost_name ≡ reader.entry.ghost_name }
    ensures reader { IsReaderOf rest.now.pool result.now }
    ensures keeps { (f : ℕ) → kept_by rest.now reader.old f ≡ true → kept_by rest.now result.now f ≡ true }
    ensures row { IfOk found.new (λ piece. piece.row_no ≡ row_no) }
    ensures piece { IfOk found.new (IsPieceIn rest.now) }
    ensures kept { IfOk found.new (KeepsFor rest.now (kept_by rest.now result.now)) }
{
    let mut own = WorkerSource::<'a, R, N> {
        source: PoolSource {
            pool: &rest.pool,
            reader,
            rt,
        },
        lent: PhantomData,
    };
    *found = piece_of(alloc, &mut own, rest, row_no, steps);
    let WorkerSource { source, .. } = own;
    let PoolSource { reader, .. } = source;
    reader
}
