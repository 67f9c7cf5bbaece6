//! A categorical field as boxes are looked at for it.
ghost use Rattle.edit_line.specs.Domains.{domains};
ghost use Rattle.categ_combine.specs.inner.Spots.{IsSpot};

use edit_line::Shape;

/// A categorical field: its place among the categorical fields of the shape, and the set of all its codes.
#[derive(Clone, Copy)]
pub(crate) struct Spot {
    pub(crate) shape: Shape,
    pub(crate) place: usize,
    pub(crate) whole: u64,
    pub ghost stands: { IsSpot (domains shape) place whole },
}

/// A code of a categorical field.
#[derive(Clone, Copy)]
pub(crate) struct CodeAt {
    pub(crate) spot: Spot,
    pub(crate) code: u8,
}
