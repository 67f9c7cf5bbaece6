//! The laws by which the lines of many trees may be written once, in a table. A law is the contract of a
//! call that does nothing.
ghost use Rattle.bound_cert.specs.SharedTrees.{GrowingLaw, SharingLaw};

/// Two laws of trees whose lines are derived in a table, as in a proof file of version 2. A valid tree stays
/// valid where its leaves name lines of the table instead of deriving them. It also stays valid where the
/// table grows. Nothing is computed, and no code calls this: it states what is proved.
pub fn sharing_laws()
    ensures shared { SharingLaw }
    ensures grown { GrowingLaw }
{}
