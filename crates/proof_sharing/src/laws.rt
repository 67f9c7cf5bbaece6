//! What is proved of sharing as a whole. Nothing is computed here.
ghost use Rattle.proof_sharing.specs.SharedProofs.{CoherentSharingLaw, PlainSharingLaw};

/// Two laws of `share_lines`; nothing is computed, and no code calls it. A proof whose rows hold no more
/// than their lines say, and whose combinations have multipliers and divisors in order, stays so. A plain
/// one, which its text says whole, stays plain where 64 bits count the lines of the rules and of the
/// table.
pub fn sharing_laws()
    ensures coherent { CoherentSharingLaw }
    ensures plain { PlainSharingLaw }
{}
