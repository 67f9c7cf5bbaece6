//! What the two versions of a proof file differ in: version 2 has a table of the lines that all records
//! share.
ghost use Rattle.std.specs.Prelude.{◌≡◌};
ghost use Rattle.proof_grammar.specs.ProofLines.{has_table, shared_from};

/// Whether a file of this version has a table: version 2 alone does.
pub(crate) fn has_table(version: u32) -> bool
    ensures { result ≡ has_table version }
{
    version == 2
}

/// The number of the lines of the rules (`count`), behind which those of a table are numbered. None where
/// the file has no table (`there`), so that no line is numbered so.
pub(crate) fn shared_from(there: bool, count: usize) -> Option<u64>
    ensures { result ≡ shared_from there count }
{
    if there { Some(count as u64) } else { None }
}
