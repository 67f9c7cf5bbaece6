//! What one worker knows of a pool.
ghost use Rattle.std.specs.Prelude.{◌≡◌, length, true};
ghost use Rattle.std.specs.Arc.{arc_value};
ghost use Rattle.linear_elim.specs.Systems.{IsSystem};

use crate::entry::Entry;
use crate::walked_entries::WalkedEntries;
use boxcar::Pushed;
use edit_model::FieldSet;
use linear_elim::System;
use std::marker::Model;
use std::sync::Arc;

/// What one worker has walked of a pool, with room for all that it ever walks. `next` is the index from
/// which it walks on. What others published at lower indexes is walked.
#[derive(Drop)]
pub struct Reader {
    pub(crate) walked: WalkedEntries,
    pub(crate) next: usize,
}

impl Model for Reader {
    ghost use Rattle.std.specs.Prelude.{◌≡◌, ◌≤◌, List, length, map};
    ghost use Rattle.shared_edits.specs.Pools.{Walked};
    ghost use Rattle.shared_edits.specs.inner.Entries.{IsBehind, walked_of};

    ghost Value = { List Walked };

    ghost view = { λ r. map walked_of r.walked };

    ghost invariant = { λ r. (length r.walked ≤ 4160) × IsBehind r.next (map walked_of r.walked) };
}

/// The entry of a system that the reader published itself, so that it is not walked again. `token` shows
/// where it stands, `fields` are those that the system is without, and `lines` is how many lines it has. Its
/// edits are the pool's.
pub(crate) fn own_entry(token: Pushed<Arc<System>>, fields: FieldSet, lines: u64) -> Entry
    requires system { IsSystem (arc_value token.value) }
    requires fields { fields ≡ (arc_value token.value).fields }
    requires lines { lines ≡ length (arc_value token.value).lines }
    ensures { (result.token ≡ token) × (result.own ≡ true) × (result.fits ≡ true) }
{
    Entry {
        token,
        own: true,
        fits: true,
        fields,
        lines,
    }
}
