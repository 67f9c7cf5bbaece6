//! A pool and one of its readers as a source of systems, which is what the search asks.
use crate::pool::Pool;
use crate::reader::Reader;
use edit_line::Edits;
use edit_model::FieldSet;
use foundation::Steps;
use linear_elim::{Held, System, SystemFault, Systems};
use std::alloc::Global;
use std::sync::ledger::Ledger;
use std::sync::{Arc, Wait};

/// A pool, and what one worker has walked of it, as a source of systems of the pool's edits. The reader is
/// of this pool. It keeps the systems that the reader knows. Those for which the reader is full count as
/// kept too, though they are made anew each time.
#[derive(Drop)]
pub struct PoolSource<'a, R: Wait> {
    pub pool: &'a Pool,
    pub reader: &'a mut Reader,
    pub rt: &'a R,
}

impl<'a, R: Wait> Systems for PoolSource<'a, R> {
    ghost use Rattle.std.specs.Prelude.{◌≡◌};
    ghost use Rattle.shared_edits.specs.Pools.{IsReaderOf, keeps_fields};

    ghost serves = { λ s edits. (edits ≡ s.pool.now.edits) × IsReaderOf s.pool.now s.reader.now };

    ghost keeps = { λ s fields. keeps_fields s.pool.now fields s.reader.now };

    // What [`Pool::obtain`] answers. The edits are not read, as they are the pool's.
    fn system<L: Ledger>(
        &mut self,
        alloc: Global,
        _edits: &Arc<Edits>,
        fields: FieldSet,
        steps: &mut Steps<L>,
    ) -> Result<Held, SystemFault> {
        self.pool.obtain(self.rt, alloc, self.reader, fields, steps)
    }

    // What [`Pool::obtain_after`] answers: the system with `field` more than `before`, by one step from that
    // where the reader does not know it.
    fn system_after<L: Ledger>(
        &mut self,
        alloc: Global,
        before: &System,
        field: u32,
        steps: &mut Steps<L>,
    ) -> Result<Held, SystemFault> {
        self.pool
            .obtain_after(self.rt, alloc, self.reader, before, field, steps)
    }
}
