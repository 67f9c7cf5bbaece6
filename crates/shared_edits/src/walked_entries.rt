//! The entries that a reader has walked, with tables by which they are found. In contracts, `HasPlaces` and
//! `HasOwn` say that a table is right for the entries, and `spare` is for how many more it has room.
ghost use Rattle.std.specs.Prelude.{◌≡◌, ◌+◌, ◌++◌, ◌∷◌, ◌<◌, ◌≤◌, ◌||◌, [], IfOk, List, length, nat_le, nat_lt};
ghost use Rattle.std.specs.HashMap as table;
ghost use Rattle.std.specs.HashSet as set;
ghost use Rattle.std.specs.List.{sum_by};
ghost use Rattle.shared_edits.specs.declared.entry.Entry.{Entry};
ghost use Rattle.shared_edits.specs.Pools.{most_lines, most_systems};
ghost use Rattle.shared_edits.specs.inner.Entries.{has_own, place_of};
ghost use Rattle.shared_edits.specs.inner.Tables.{HasOwn, HasPlaces};

use crate::entry::Entry;
use edit_model::FieldSet;
use foundation::OutOfMemory;
use std::alloc::Global;
use std::collections::{HashMap, HashSet};
use std::marker::Model;

// A reader that has walked this many entries publishes no system.
const MOST_SYSTEMS: usize = 4096;

// A reader publishes no system with which its entries would have more lines than these.
const MOST_LINES: u64 = 200_000;

/// The most indexes at which a reader looks, and the most entries that it walks.
pub(crate) const MOST_WALKED: usize = 4160;

/// The entries that a reader has walked, in their order. Beside them stands what it asks of them most, so
/// that no look-up goes through all of them. The room for 4,160 entries is taken at the start.
#[derive(Drop)]
pub(crate) struct WalkedEntries {
    entries: Vec<Entry>,
    // The place of the first entry with the pool's edits, for each set of fields, by the number of the set.
    places: HashMap<u64, usize>,
    // The indexes of the entries that the reader published itself.
    own: HashSet<usize>,
    // How many lines the entries have together.
    lines: u64,
}

impl Model for WalkedEntries {
    ghost use Rattle.std.specs.Prelude.{List};
    ghost use Rattle.shared_edits.specs.declared.entry.Entry.{Entry};

    ghost Value = { List Entry };

    ghost use Rattle.shared_edits.specs.inner.Tables.{AreTabled};

    ghost view = { λ w. w.entries.items };

    ghost invariant = { AreTabled };
}

impl WalkedEntries {
    /// No entries, with room for all that a reader walks.
    pub(crate) fn new(alloc: Global) -> Result<WalkedEntries, OutOfMemory>
        ensures { IfOk result (λ walked. walked ≡ []) }
    {
        Ok(WalkedEntries {
            entries: Vec::with_capacity(alloc, MOST_WALKED)?,
            places: HashMap::with_capacity(alloc, MOST_WALKED)?,
            own: HashSet::with_capacity(alloc, MOST_WALKED)?,
            lines: 0,
        })
    }

    /// The entries, in the order in which they were walked.
    pub(crate) fn as_slice(&self) -> &[Entry]
        ensures { result.now ≡ self.now }
    {
        self.entries.as_slice()
    }

    /// How many entries there are.
    pub(crate) fn len(&self) -> usize
        ensures { result ≡ length self.now }
    {
        self.entries.len()
    }

    /// Whether the reader published the entry at this index of the pool itself.
    pub(crate) fn has_own(&self, index: usize) -> bool
        ensures { result ≡ has_own index self.now }
    {
        self.own.contains(&index)
    }

    /// The place, among these entries, of the first that has these fields and the pool's edits; None where
    /// none has them.
    pub(crate) fn place_of(&self, fields: FieldSet) -> Option<usize>
        ensures { result ≡ place_of fields self.now }
    {
        self.places.get(&fields.bits()).copied()
    }

    /// Whether a reader with these entries publishes no system of `count` lines: they are 4,096, or have
    /// more than 200,000 lines with these.
    pub(crate) fn is_full(&self, count: u64) -> bool
        ensures { result ≡ (nat_le most_systems (length self.now) || nat_lt most_lines (sum_by (λ e. e.lines) self.now + count)) }
    {
        self.entries.len() >= MOST_SYSTEMS || self.lines.saturating_add(count) > MOST_LINES
    }

    /// Appends an entry, and notes it in the tables. There is room for it, as the entries are fewer than
    /// 4,160. No memory.
    pub(crate) fn push(&mut self, entry: Entry)
        requires { length self.old < 4160 }
        ensures { self.new ≡ self.old ++ entry ∷ [] }
    {
        note_place(&mut self.places, &entry, self.entries.len());
        note_own(&mut self.own, &entry);
        self.lines = self.lines.saturating_add(entry.lines);
        self.entries.push_reserved(entry);
    }
}

// Notes the place of an appended entry by its fields, if it has the pool's edits and is the first with
// these fields. A later one is not noted, as the first serves. The table has room.
#[tactic(auto, using(crate::proofs::TableLaws::position_push))]
fn note_place(places: &mut HashMap<u64, usize>, entry: &Entry, place: usize)
    requires { 0 < table.spare places.old }
    ensures places { (entries : List Entry) → length entries ≡ place → HasPlaces places.old entries
        → HasPlaces places.new (entries ++ entry.now ∷ []) }
    ensures room { table.spare places.old ≤ table.spare places.new + 1 }
{
    let fields = entry.fields.bits();
    if entry.fits && !places.contains_key(&fields) {
        let stored: Result<_, _> = places.insert(fields, place);
        stored.unwrap();
    }
}

// Notes the index of an appended entry, if it is the reader's own. The set has room.
fn note_own(own: &mut HashSet<usize>, entry: &Entry)
    requires { 0 < set.spare own.old }
    ensures own { (entries : List Entry) → HasOwn own.old entries → HasOwn own.new (entries ++ entry.now ∷ []) }
    ensures room { set.spare own.old ≤ set.spare own.new + 1 }
{
    if entry.own {
        let stored: Result<_, _> = own.insert(entry.token.index());
        stored.unwrap();
    }
}
