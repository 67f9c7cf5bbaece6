//! What a source of systems answers: a system that it shares, or one for the caller alone.
ghost use Rattle.std.specs.Prelude.{◌≡◌};
ghost use Rattle.linear_elim.specs.Helds.{system_held};

use crate::system::System;
use std::sync::Arc;

/// A system that its source keeps, or one that was made for the caller alone.
#[derive(Drop)]
pub enum Held {
    /// The source keeps it too.
    Shared(Arc<System>),
    /// It is the caller's own.
    Own(System),
}

impl Held {
    /// The system. No memory.
    pub fn system(&self) -> &System
        ensures { result.now ≡ system_held self.now }
    {
        match self {
            Held::Shared(system) => system,
            Held::Own(system) => system,
        }
    }
}
