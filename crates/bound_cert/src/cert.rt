//! The proof tree as data: leaves, each with its path and the reason why nothing below it has to be looked
//! at.
use crate::path::Path;
use derivation::Step;
use foundation::Sequence;

/// Why no correction along a leaf's path weighs less than the tree says.
#[derive(Drop)]
pub enum LeafWhy {
    /// The path itself weighs enough.
    Bound,
    /// The path keeps a field at which the record has no value.
    BadKept,
    /// The steps prove a line for all codes, which fails at the fields that the path keeps.
    Line(Sequence<Step>),
    /// The steps prove that all codes are forbidden.
    Box(Sequence<Step>),
}

/// A leaf of a tree of paths.
#[derive(Drop)]
pub struct Leaf {
    pub path: Path,
    pub why: LeafWhy,
}

/// A proof tree: its leaves, in the order of their paths, kept before changed.
#[derive(Drop)]
pub struct Cert {
    pub leaves: Sequence<Leaf>,
}
