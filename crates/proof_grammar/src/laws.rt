//! What is proved of plain proofs. Nothing is computed here.
ghost use Rattle.proof_grammar.specs.Sizes.{PlainLaw};

/// A law; nothing is computed, and no code calls it. A proof is plain, so that its text says it whole,
/// where two conditions hold. Each number and list of its text fits its type (`IsSized`). And the proof is
/// coherent (`IsCoherent`): its version is 1 or 2, and its table and rows hold no more than their lines say.
/// Its combinations have multipliers above 0 or in range, and divisors above 0.
pub fn proof_laws()
    ensures plain { PlainLaw }
{}
