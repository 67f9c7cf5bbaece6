//! What is proved of the grammar as a whole. Nothing is computed here.
ghost use Rattle.std.specs.Prelude.{◌≡◌, ◌⊎◌, ℕ, List};
ghost use Rattle.proof_grammar.specs.FirstFaults.{IsFirstFaultyLine, IsInGrammar};
ghost use Rattle.proof_grammar.specs.Limits.{IsPlain};
ghost use Rattle.proof_grammar.specs.ProofLines.{proof_text};
ghost use Rattle.proof_grammar.specs.declared.proof.Proof.{Proof};

/// Three laws of the grammar; nothing is computed, and no code calls it. Two plain proofs, which their
/// texts say whole, have different texts. Bytes are the text of a plain proof, or have a first line that
/// can't go on. That line is one alone.
pub fn one_reading()
    ensures one_proof { (p : Proof) (q : Proof) → IsPlain p → IsPlain q → proof_text p ≡ proof_text q → p ≡ q }
    ensures decided { (bytes : List ℕ) → IsInGrammar bytes ⊎ ((line : ℕ) × IsFirstFaultyLine bytes line) }
    ensures one_line { (bytes : List ℕ) (line other : ℕ) → IsFirstFaultyLine bytes line → IsFirstFaultyLine bytes other → line ≡ other }
{}
