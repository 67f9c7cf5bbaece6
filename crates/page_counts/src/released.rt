//! Which records the rows of a released file are: those that the reasons do not leave out.
ghost use Rattle.std.specs.Prelude.{◌≡◌, ◌<◌, ◌∷◌, ◌++◌, [], All, IfOk, OnOk, if◌then◌else◌};
ghost use Rattle.std.specs.List.Sorted.{IsStrictlyIncreasing};
ghost use Rattle.page_counts.specs.Records.{released_rows};

use crate::marks::left_out_marks;
use foundation::OutOfMemory;
use reason_lines::LeftOut;
use std::alloc::Global;

/// The numbers, from 0 and in rising order, of those of `rows` records that were not left out: the rows
/// of the released file.
pub fn released_rows(
    alloc: Global,
    rows: u32,
    left_out: &[LeftOut],
) -> Result<Vec<u32>, OutOfMemory>
    ensures released { IfOk result (λ numbers. numbers.items ≡ released_rows rows left_out.now) }
    ensures within { IfOk result (λ numbers. All (λ number. number < rows) numbers.items) }
    ensures rising { IfOk result (λ numbers. IsStrictlyIncreasing numbers.items) }
{
    let marks = left_out_marks(alloc, rows, left_out)?;
    let mut numbers = Vec::new(alloc);
    for number in 0..rows {
        push_released_number(&mut numbers, number, marks[number as usize])?;
    }
    Ok(numbers)
}

// Appends the number of a record where it was not left out, and else nothing.
fn push_released_number(
    numbers: &mut Vec<u32>,
    number: u32,
    is_left_out: bool,
) -> Result<(), OutOfMemory>
    ensures { OnOk result (numbers.new.items ≡ numbers.old.items ++ (if is_left_out then [] else number ∷ [])) }
{
    if !is_left_out {
        numbers.push(number)?;
    }
    Ok(())
}
