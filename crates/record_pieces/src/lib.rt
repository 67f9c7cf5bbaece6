//! What is found of a record: the least set of fields to change, and the nearest donors for it. Begin with
//! [`piece_of`], which finds both; by what records are edited is [`Rest`], and what a [`Piece`] is, is in
//! `specs/Rests.antt` and `specs/Needs.antt`.
#![tactic(auto)]

mod decks;
mod piece;
mod rest;
mod search;

pub use decks::Decks;
pub use piece::Piece;
pub use rest::Rest;
pub use search::piece_of;
