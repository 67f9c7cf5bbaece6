//! The laws by which the lines of many derivations may be written once, in a table. A law is the contract
//! of a call that does nothing.
ghost use Rattle.derivation.specs.SharedLines.{FollowLaw, GrowingLaw, SharingLaw};

/// Three laws of lines that are written once, in a table. By the first, each line of the table follows
/// from the usable lines. By the second, what is kept of valid steps, which names lines of the table,
/// proves what the steps prove. By the third, it does so too where the table grows. Nothing is
/// computed, and no code calls it.
pub fn sharing_laws()
    ensures follow { FollowLaw }
    ensures shared { SharingLaw }
    ensures grown { GrowingLaw }
{}
