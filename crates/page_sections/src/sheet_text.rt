//! The bytes of a field, as they were released. Records, fields and rows are numbered from 0.
ghost use Rattle.std.specs.Prelude.{◌≡◌, ◌==◌, ℕ, position};
ghost use Rattle.page_sections.specs.GreatestSection.{released_text};

use record_text::Sheet;
use release_figures::text_in;

/// The bytes of a field in the released row of the record of the number `number`, from 0; no byte where
/// it was not released. `records` are the numbers of the released records, in order: row k of the
/// released file is the k-th of them. No memory.
pub(crate) fn released_text<'a>(
    released: &'a Sheet,
    records: &[u32],
    field: u32,
    number: u32,
) -> &'a [u8]
    ensures { result.now ≡ released_text released.now records.now field number }
{
    match place_of(records, number) {
        Some(row) => text_in(released, field, row),
        None => b"",
    }
}

// The place of `number` among the numbers, from 0. None where it is none of them.
fn place_of(numbers: &[u32], number: u32) -> Option<usize>
    ensures { result ≡ position (λ (n : ℕ). n == number) numbers.now }
{
    numbers.iter().position(|n| *n == number)
}
