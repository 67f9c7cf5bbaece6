//! Sizes of numbered things, such as fields or rules, put in order. In contracts, `AreSorted` says that
//! these are all the sizes, with their numbers, in that order.
ghost use Rattle.std.specs.Prelude.{◌≡◌, ◌≤◌, ◌^◌, IfOk, length};
ghost use Rattle.release_figures.specs.Figures.{AreSorted, numbered};

use foundation::OutOfMemory;
use page_counts::{Amount, greatest_amounts};
use std::alloc::Global;

/// All the sizes, each with the number of its place, from 0: the greatest first, and of equal ones that of
/// the earlier place.
pub(crate) fn sorted_sizes(alloc: Global, sizes: &[u128]) -> Result<Vec<Amount>, OutOfMemory>
    requires { length sizes.now ≤ 2 ^ 32 }
    ensures { IfOk result (λ amounts. AreSorted sizes.now amounts.items) }
{
    let amounts = number_sizes(alloc, sizes)?;
    greatest_amounts(alloc, &amounts, sizes.len())
}

// The sizes in their order, each with the number of its place, from 0.
fn number_sizes(alloc: Global, sizes: &[u128]) -> Result<Vec<Amount>, OutOfMemory>
    requires { length sizes.now ≤ 2 ^ 32 }
    ensures { IfOk result (λ amounts. amounts.items ≡ numbered 0 sizes.now) }
{
    let mut amounts = Vec::with_capacity(alloc, sizes.len())?;
    for (place, size) in sizes.iter().enumerate() {
        amounts.push(Amount {
            number: place as u32,
            size: *size,
        })?;
    }
    Ok(amounts)
}
