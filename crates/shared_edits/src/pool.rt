//! The pool of derived systems, with what its readers do: walk the entries that others published, find a
//! system, and publish one. In contracts, `IsReaderOf` says that a reader has walked entries of this pool
//! alone, and `Knows` that the system without these fields is among them. `HasWalkedOn` says that it has walked
//! on: each entry more is another's, and none comes twice.
ghost use Rattle.std.specs.Prelude.{◌≡◌, ◌<◌, ◌≤◌, [], false, IfErr, IfNone, IfOk, IfSome, MatchBool, Ok, OnErr, length, map};
ghost use Rattle.std.specs.Arc.{arc_value};
ghost use Rattle.boxcar.specs.Table.{Shows};
ghost use Rattle.edit_model.specs.FieldSets.{with_number, without_number};
ghost use Rattle.edit_line.specs.Shapes.{IsNumerical};
ghost use Rattle.linear_elim.specs.Answers.{Answers};
ghost use Rattle.linear_elim.specs.Helds.{system_held};
ghost use Rattle.linear_elim.specs.LastFields.{IsLast, IsPast};
ghost use Rattle.linear_elim.specs.Steps.{pairs_count};
ghost use Rattle.linear_elim.specs.Systems.{AreNumerical, pairs_at, system_at};
ghost use Rattle.linear_elim.specs.Told.{told_system};
ghost use Rattle.shared_edits.specs.Pools.{IsOf, IsReaderOf, Knows};
ghost use Rattle.shared_edits.specs.Walks.{IsKept, IsPublished, WalksThenObtains, HasWalkedOn, handed_back};
ghost use Rattle.shared_edits.specs.inner.Entries.{WalksAt, walked_of};

use crate::entry::Entry;
use crate::publication::{PublishFault, Published};
use crate::reader::{Reader, own_entry};
use crate::walked_entries::{MOST_WALKED, WalkedEntries};
use boxcar::Pushed;
use edit_line::Edits;
use edit_model::FieldSet;
use foundation::{OutOfMemory, Steps};
use linear_elim::{Held, System, SystemFault, extend, fold_system, last_field};
use std::alloc::Global;
use std::marker::Model;
use std::sync::ledger::Ledger;
use std::sync::{Arc, Wait};

/// The derived systems of some edits that were published so far, in the order in which they came. Threads
/// share it through a `&`.
#[derive(Drop)]
pub struct Pool {
    entries: boxcar::Vec<Arc<System>>,
    edits: Arc<Edits>,
}

impl Model for Pool {
    ghost use Rattle.std.specs.Arc.{arc_value};
    ghost use Rattle.shared_edits.specs.Pools.{PoolParts};

    ghost Value = { PoolParts };

    ghost view = { λ p. record { entries = p.entries; edits = arc_value p.edits } };
}

impl Pool {
    /// A pool for the systems of these edits, without any as yet.
    pub fn new(alloc: Global, edits: Arc<Edits>) -> Result<Pool, OutOfMemory>
        ensures { IfOk result (λ pool. pool.edits ≡ arc_value edits) }
    {
        Ok(Pool {
            entries: boxcar::Vec::new(alloc)?,
            edits,
        })
    }

    /// The edits whose systems the pool has. No memory.
    pub fn edits(&self) -> &Arc<Edits>
        ensures { arc_value result.now ≡ self.now.edits }
    {
        &self.edits
    }

    /// A reader that has walked nothing. The room for all its walks is taken here.
    pub fn reader(&self, alloc: Global) -> Result<Reader, OutOfMemory>
        ensures { IfOk result (λ reader. reader ≡ []) }
    {
        Ok(Reader {
            walked: WalkedEntries::new(alloc)?,
            next: 0,
        })
    }

    // An entry of this pool as this reader is to keep it, where another reader published it. `token` shows
    // where it stands. Whether its edits are the pool's is compared here, once for all look-ups.
    fn entry_of(&self, token: Pushed<Arc<System>>) -> Entry
        requires { Shows self.now.entries token }
        ensures of { IsOf self.now (walked_of result) }
        ensures token { result.token ≡ token }
        ensures own { result.own ≡ false }
    {
        let system = self.entries.value(&token);
        Entry {
            own: false,
            fits: system.edits().same(&self.edits),
            fields: system.fields(),
            lines: system.lines().len() as u64,
            token,
        }
    }

    // The system at an entry of this pool that a reader walked.
    fn system_at<'a>(&'a self, entry: &Entry) -> &'a Arc<System>
        requires { Shows self.now.entries entry.now.token }
        ensures { result.now ≡ entry.now.token.value }
    {
        self.entries.value(&entry.token)
    }

    /// The system without these fields, if it is that of a walked entry with the pool's edits; else None.
    /// The reader walks no further.
    pub(crate) fn known_system<'a>(
        &'a self,
        entries: &WalkedEntries,
        fields: FieldSet,
    ) -> Option<&'a Arc<System>>
        requires { IsReaderOf self.now (map walked_of entries.now) }
        ensures edits { IfSome result (λ system. (arc_value system.now).edits ≡ self.now.edits) }
        ensures fields { IfSome result (λ system. (arc_value system.now).fields ≡ fields) }
        ensures exact { IfSome result (λ system. system_at self.now.edits fields ≡ Ok (arc_value system.now).lines) }
        ensures known { IfSome result (λ _. Knows self.now fields (map walked_of entries.now)) }
        ensures none { IfNone result (¬ Knows self.now fields (map walked_of entries.now)) }
    {
        let place = entries.place_of(fields)?;
        Some(self.system_at(&entries.as_slice()[place]))
    }

    // Puts the entry at this index of the pool behind those that were walked, unless it is the reader's
    // own, which stands there already. False where the pool has no entry at the index yet.
    fn walk_at(&self, walked: &mut WalkedEntries, index: usize) -> bool
        requires { length walked.old < 4160 }
        ensures { MatchBool result (WalksAt self.now index walked.old walked.new) (walked.new ≡ walked.old) }
    {
        let Some(token) = self.entries.witness(index) else {
            return false;
        };
        if !walked.has_own(index) {
            walked.push(self.entry_of(token));
        }
        true
    }

    // Walks the entries that are new to the reader, up to the first index at which the pool has none yet.
    // It goes to index 4,159 and to 4,160 entries at most, for which the reader's room was taken.
    fn walk(&self, reader: &mut Reader)
        requires { IsReaderOf self.now reader.old }
        ensures reader { IsReaderOf self.now reader.new }
        ensures walked { HasWalkedOn reader.old reader.new }
        ensures few { length reader.new ≤ 4160 }
    {
        while reader.next < MOST_WALKED && reader.walked.len() < MOST_WALKED {
            if !self.walk_at(&mut reader.walked, reader.next) {
                return;
            }
            reader.next += 1;
        }
    }

    /// The system without these fields, if the reader has walked it by now; else None. It first walks the
    /// entries that are new to it, up to index 4,159, and 4,160 entries at most. No memory, and it waits
    /// for nobody.
    pub fn find<'a>(&'a self, reader: &mut Reader, fields: FieldSet) -> Option<&'a Arc<System>>
        requires { IsReaderOf self.now reader.old }
        ensures reader { IsReaderOf self.now reader.new }
        ensures walked { HasWalkedOn reader.old reader.new }
        ensures few { length reader.new ≤ 4160 }
        ensures edits { IfSome result (λ system. (arc_value system.now).edits ≡ self.now.edits) }
        ensures fields { IfSome result (λ system. (arc_value system.now).fields ≡ fields) }
        ensures exact { IfSome result (λ system. system_at self.now.edits fields ≡ Ok (arc_value system.now).lines) }
        ensures known { IfSome result (λ _. Knows self.now fields reader.new) }
        ensures none { IfNone result (¬ Knows self.now fields reader.new) }
    {
        self.walk(reader);
        self.known_system(&reader.walked, fields)
    }

    /// Stores a system of the pool's edits for all readers. It comes back as `Full` where this reader has
    /// walked 4,096 entries, or where these and the system have more than 200,000 lines. It comes back in
    /// the fault where memory is refused.
    pub fn publish<R: Wait>(
        &self,
        rt: &R,
        alloc: Global,
        reader: &mut Reader,
        system: System,
    ) -> Result<Published, PublishFault>
        requires reader { IsReaderOf self.now reader.old }
        requires edits { system.edits ≡ self.now.edits }
        ensures reader { IsReaderOf self.now reader.new }
        ensures answer { IfOk result (λ published. IsPublished system reader.old published reader.new) }
        ensures refused { OnErr result (reader.new ≡ reader.old) }
        ensures back { IfErr result (λ fault. handed_back fault ≡ system) }
    {
        let count = system.lines().len() as u64;
        if reader.walked.is_full(count) {
            return Ok(Published::Full(system));
        }
        let fields = system.fields();
        let shared = share_new(alloc, system)?;
        let Ok(kept) = Arc::try_clone(&shared) else {
            return Err(PublishFault::OutOfMemory(Held::Shared(shared)));
        };
        match self.entries.push_shown(rt, shared) {
            Ok(token) => {
                reader.walked.push(own_entry(token, fields, count));
                Ok(Published::Stored(kept))
            }
            Err(back) => Err(PublishFault::OutOfMemory(Held::Shared(back))),
        }
    }
}

// The system, put where several can own it; it comes back in the fault where memory is refused.
fn share_new(alloc: Global, system: System) -> Result<Arc<System>, PublishFault>
    ensures shared { IfOk result (λ shared. arc_value shared ≡ system) }
    ensures back { IfErr result (λ fault. handed_back fault ≡ system) }
{
    match Arc::new(alloc, system) {
        Ok(shared) => Ok(shared),
        Err(refused) => Err(PublishFault::OutOfMemory(Held::Own(refused.value))),
    }
}
