//! What is proved of releases whose proof has a table. Nothing is computed here.
ghost use Rattle.cert_check.specs.SharedRows.{SharedReleaseLaw, SharedRowsLaw};

/// Two laws; nothing is computed, and no code calls it. What a proof says of the records stays right where
/// the lines that their trees derive are written once, in a table. So a valid release stays one with such
/// a proof, where 64 bits count the lines of the rules and of the table.
pub fn sharing_laws()
    ensures rows { SharedRowsLaw }
    ensures release { SharedReleaseLaw }
{}
