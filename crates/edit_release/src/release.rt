//! What an edit gives, before it is written to files.

/// What an edit of a sheet gives: the bytes of its three files, its two summary lines, and whether every
/// record was released (`whole`).
#[derive(Drop)]
pub struct Release {
    pub proof: Vec<u8>,
    pub reasons: Vec<u8>,
    pub released: Vec<u8>,
    pub summary: [Vec<u8>; 2],
    pub whole: bool,
}
