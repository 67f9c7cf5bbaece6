//! A field of a survey: its name, its weight, and what values it takes.
ghost use Rattle.std.specs.Prelude.{◌≡◌};
ghost use Rattle.edit_model.specs.Corrections.{is_numerical};

use crate::name::Name;
use foundation::Sequence;

/// What values a field takes.
#[derive(Drop)]
pub enum Kind {
    /// A numerical field. The scale, from 1 to 10^12, is the unit in which distances are measured.
    Number { scale: u64 },
    /// A categorical field with its 1 to 64 distinct codes.
    Code { codes: Sequence<Name> },
}

impl Kind {
    /// Whether the field is numerical. No memory.
    pub fn is_numerical(&self) -> bool
        ensures { result ≡ is_numerical self.now }
    {
        matches!(self, Kind::Number { .. })
    }
}

/// A field of a survey. The weight, from 1 to 1000, is the price of changing it: the more reliable a
/// field is held to be, the greater.
#[derive(Drop)]
pub struct Field {
    pub name: Name,
    pub weight: u32,
    pub kind: Kind,
}
