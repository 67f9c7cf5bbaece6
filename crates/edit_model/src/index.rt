//! What a survey keeps beside its parts, so that it is not looked for each time: the numbers of its fields of
//! each kind.
ghost use Rattle.std.specs.Prelude.{◌≡◌, ◌∷◌, ◌++◌, [], ◌≤◌, if◌then◌else◌, IfOk, OnOk, length};
ghost use Rattle.edit_model.specs.Corrections.{numbers_from};
ghost use Rattle.edit_model.specs.inner.Indexes.{is_of_sort};

use crate::field::{Field, Kind};
use foundation::OutOfMemory;
use std::alloc::Global;

// Puts the number last in the list where it is wanted, and else leaves the list.
fn push_if(wanted: bool, numbers: &mut Vec<u32>, number: u32) -> Result<(), OutOfMemory>
    ensures { OnOk result (numbers.new.items ≡ (if wanted then numbers.old.items ++ number ∷ [] else numbers.old.items)) }
{
    if wanted {
        numbers.push(number)?;
    }
    Ok(())
}

/// The numbers, from 0, of the numerical fields where `numerical` is true, and else those of the categorical
/// ones, in declared order. There are at most 64 fields, so that each number fits 32 bits.
pub(crate) fn field_numbers(
    alloc: Global,
    fields: &[Field],
    numerical: bool,
) -> Result<Vec<u32>, OutOfMemory>
    requires { length fields.now ≤ 64 }
    ensures { IfOk result (λ numbers. numbers.items ≡ numbers_from (is_of_sort numerical) 0 fields.now) }
{
    let mut numbers = Vec::new(alloc);
    for (i, field) in fields.iter().enumerate() {
        push_if(
            field.kind.is_numerical() == numerical,
            &mut numbers,
            i as u32,
        )?;
    }
    Ok(numbers)
}
