//! A box of codes with its origin, from which a derivation of it can later be written down.
ghost use Rattle.std.specs.Prelude.{◌≡◌, IfOk};
ghost use Rattle.edit_line.specs.Sets.{AreSets};
ghost use Rattle.edit_line.specs.Domains.{domains};
ghost use Rattle.edit_line.specs.Shapes.{whole_sets};

use edit_line::{CodeBox, Shape};
use foundation::{OutOfMemory, Sequence};
use std::alloc::Global;

/// Where a box comes from. Places are those in the list that the call took, from 0.
#[derive(Drop)]
pub enum BoxOrigin {
    /// The failing line at this place.
    Failing(u64),
    /// The box at this place, as it was.
    Unchanged(u64),
    /// The box at this place, made whole at a field whose code it has.
    Fixed(u64),
    /// The intersection of the boxes at these places, one for each code of a field in declared order,
    /// made whole at that field.
    Cover(Sequence<u64>),
}

/// A box of codes with its origin.
#[derive(Drop)]
pub struct BoxFrom {
    pub code_box: CodeBox,
    pub origin: BoxOrigin,
}

impl BoxOrigin {
    /// An equal origin.
    pub fn copy(&self, alloc: Global) -> Result<BoxOrigin, OutOfMemory>
        ensures { IfOk result (λ copy. copy ≡ self.now) }
    {
        match self {
            BoxOrigin::Failing(line) => Ok(BoxOrigin::Failing(*line)),
            BoxOrigin::Unchanged(place) => Ok(BoxOrigin::Unchanged(*place)),
            BoxOrigin::Fixed(place) => Ok(BoxOrigin::Fixed(*place)),
            BoxOrigin::Cover(parts) => Ok(BoxOrigin::Cover(Sequence::from_vec(Vec::from_slice(
                alloc,
                parts.as_slice(),
            )?))),
        }
    }
}

impl BoxFrom {
    /// The set of codes, as bits, of each categorical field, in declared order. No memory.
    pub fn sets(&self) -> &[u64]
        ensures sets { result.now ≡ self.now.code_box.sets }
        ensures fit { AreSets self.now.code_box.sets (whole_sets self.now.code_box.shape) }
    {
        self.code_box.sets()
    }

    /// The shape of the survey. No memory.
    pub fn shape(&self) -> Shape
        ensures { domains result ≡ self.now.code_box.shape }
    {
        self.code_box.shape()
    }

    /// An equal box with the same origin.
    pub fn copy(&self, alloc: Global) -> Result<BoxFrom, OutOfMemory>
        ensures { IfOk result (λ copy. copy ≡ self.now) }
    {
        let code_box = self.code_box.copy(alloc)?;
        let origin = self.origin.copy(alloc)?;
        Ok(BoxFrom { code_box, origin })
    }
}
