//! A table of names, by which a survey's names are told apart in constant time each.
ghost use Rattle.std.specs.Prelude.{◌≡◌, ◌≢◌, ◌∷◌, ◌++◌, [], All, IfOk, MatchBool};

use crate::name::Name;
use foundation::OutOfMemory;
use indexmap::IndexSet;
use std::alloc::Global;
use std::marker::Model;

/// Distinct names, in the order in which they were put in.
#[derive(Drop)]
pub(crate) struct NameTable {
    names: IndexSet<Vec<u8>>,
}

impl Model for NameTable {
    ghost use Rattle.std.specs.Prelude.{List, map, ℕ};

    ghost Value = { List (List ℕ) };

    ghost view = { λ t. map (λ key. key.items) t.names.keys };
}

impl NameTable {
    /// The table without names.
    pub(crate) fn new(alloc: Global) -> NameTable
        ensures { result ≡ [] }
    {
        NameTable {
            names: IndexSet::new(alloc),
        }
    }

    /// Puts a name behind the others, if it is new to the table, and tells whether it is.
    pub(crate) fn insert(&mut self, alloc: Global, name: &Name) -> Result<bool, OutOfMemory>
        ensures { IfOk result (λ new. MatchBool new
            ((self.new ≡ self.old ++ name.now ∷ []) × All (λ n. n ≢ name.now) self.old)
            (¬ All (λ n. n ≢ name.now) self.old)) }
    {
        let key = Vec::from_slice(alloc, name.as_bytes())?;
        Ok(self.names.insert(key)?)
    }
}
