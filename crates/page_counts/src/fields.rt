//! How often a field was changed.
ghost use Rattle.std.specs.Prelude.{◌≡◌};
ghost use Rattle.page_counts.specs.Fields.{change_count};

use reason_lines::{Change, How};

/// How many changes of a field took the donor's value (`donor`). How many took the nearest that the rules
/// allow (`nearest`), and how many 0 or the first code (`default`).
#[derive(Clone, Copy)]
pub struct FieldCount {
    pub donor: usize,
    pub nearest: usize,
    pub default: usize,
}

/// How many changes of the field there are, by how its new value was found. No memory.
pub fn field_count(changes: &[Change], field: u32) -> FieldCount
    ensures donor { result.donor ≡ change_count How.Donor field changes.now }
    ensures nearest { result.nearest ≡ change_count How.Nearest field changes.now }
    ensures default { result.default ≡ change_count How.Default field changes.now }
{
    let mut count = FieldCount {
        donor: 0,
        nearest: 0,
        default: 0,
    };
    for change in changes {
        if change.field == field {
            match change.how {
                How::Donor => count.donor += 1,
                How::Nearest => count.nearest += 1,
                How::Default => count.default += 1,
            }
        }
    }
    count
}
