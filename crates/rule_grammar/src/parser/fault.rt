//! Why a production of the grammar was not read. Calls that take no memory answer None instead.
use std::alloc::AllocFailed;

/// Why a production was not read off the tokens.
#[derive(Clone, Copy)]
pub(crate) enum Fault {
    /// The tokens do not begin with the production.
    Unreadable,
    /// Memory was refused.
    OutOfMemory,
}

impl<T: Drop> From<AllocFailed<T>> for Fault {
    ghost use Rattle.std.specs.Prelude.{◌≡◌};
    ghost use Rattle.rule_grammar.specs.declared.parser.fault.Fault.TheVariants as faults;

    ghost from_gives = { λ _ fault. fault ≡ faults.OutOfMemory };

    // Refused memory becomes the fault `OutOfMemory`. The element that found no room is dropped.
    fn from(_refused: AllocFailed<T>) -> Self {
        Fault::OutOfMemory
    }
}
