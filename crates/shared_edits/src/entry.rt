//! An entry of a pool: a derived system that was published there, as a reader keeps it that has walked it.
ghost use Rattle.std.specs.Prelude.{◌≡◌, length};
ghost use Rattle.std.specs.Arc.{arc_value};
ghost use Rattle.linear_elim.specs.Systems.{IsSystem};

use boxcar::Pushed;
use edit_model::FieldSet;
use linear_elim::System;
use std::sync::Arc;

/// An entry that a reader has walked. The token shows where it stands in the pool. `own` says whether the
/// reader published it, `fits` whether its edits are the pool's. `fields` are those that its system is
/// without, and `lines` is how many lines that has.
#[derive(Drop)]
pub(crate) struct Entry {
    pub(crate) token: Pushed<Arc<System>>,
    pub(crate) own: bool,
    pub(crate) fits: bool,
    pub(crate) fields: FieldSet,
    pub(crate) lines: u64,
    pub(crate) ghost system: { IsSystem (arc_value token.value) },
    pub(crate) ghost carried: { fields ≡ (arc_value token.value).fields },
    pub(crate) ghost counted: { lines ≡ length (arc_value token.value).lines },
}
