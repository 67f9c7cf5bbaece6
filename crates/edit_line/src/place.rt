//! Places among the numbers of a line, by which an overflow is named, and places of fields in a list.
ghost use Rattle.std.specs.Prelude.{◌≡◌};
ghost use Rattle.edit_line.specs.Shapes.{place_in};

/// A place among the numbers of a line.
#[derive(Clone, Copy, Debug)]
pub enum Place {
    /// The factor at the numerical field of this number, from 0.
    Field(u32),
    /// The constant.
    Constant,
}

/// The place of a field in this list of fields, from 0, and the list's length where it is none of them. No
/// memory.
pub fn place_among(fields: &[u32], field: u32) -> usize
    ensures { result ≡ place_in fields.now field }
{
    for (place, other) in fields.iter().enumerate() {
        if *other == field {
            return place;
        }
    }
    fields.len()
}
