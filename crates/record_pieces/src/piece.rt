//! What is found of one record, before it is given values.
use bound_cert::Outcome;
use foundation::Sequence;

/// What was found of a record: its number, from 0, the outcome of its search, and its imputation class.
/// Where some field of it is changed it also has the donors of this class that it ranks, the nearest first.
#[derive(Drop)]
pub struct Piece {
    pub row_no: u32,
    pub outcome: Outcome,
    pub class: u32,
    pub ranking: Option<Sequence<u32>>,
}
