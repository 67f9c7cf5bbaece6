//! Records or donors by an amount: what a record's changes weigh, or to how many records a donor gave. It
//! is counted how many have each amount, and found which have the greatest. In contracts, `IsTally` says
//! that for each size that occurs there is one count, that of the amounts of this size, by rising size.
//! `AreGreatest` says that amounts are the first of all, the greater first.
ghost use Rattle.std.specs.BTreeMap.{get};
ghost use Rattle.std.specs.Prelude.{◌≡◌, ◌==◌, ◌≤◌, ℕ, IfOk, IfSome, count_by, unwrap_or};
ghost use Rattle.std.specs.Ordering.{nat_cmp};
ghost use Rattle.page_counts.specs.declared.amounts.Amount.{Amount as AnyAmount};
ghost use Rattle.std.specs.List.Sorted.{IsPermutation, IsSorted};
ghost use Rattle.page_counts.specs.Amounts.{AreGreatest, IsTally, amount_order};

use foundation::OutOfMemory;
use std::alloc::Global;
use std::cmp::Ordering;
use std::collections::BTreeMap;

/// The number of a record or a donor, from 0, and its amount: what its change weighs, or to how many
/// records it gave.
#[derive(Clone, Copy)]
pub struct Amount {
    pub number: u32,
    pub size: u128,
}

/// How many have an amount of this size.
#[derive(Clone, Copy)]
pub struct SizeCount {
    pub size: u128,
    pub count: usize,
}

/// How many of the amounts are of each size that occurs, by rising size, each size once.
pub fn tally(alloc: Global, amounts: &[Amount]) -> Result<Vec<SizeCount>, OutOfMemory>
    ensures { IfOk result (λ counts. IsTally amounts.now counts.items) }
{
    let by_size = counts_by_size(alloc, amounts)?;
    let mut counts = Vec::with_capacity(alloc, by_size.len())?;
    for (size, count) in &by_size {
        counts.push(SizeCount {
            size: *size,
            count: *count,
        })?;
    }
    Ok(counts)
}

// How many of the amounts are of each size that occurs, as a map by the size. A size that does not occur
// is not in it (`some`).
fn counts_by_size(alloc: Global, amounts: &[Amount]) -> Result<BTreeMap<u128, usize>, OutOfMemory>
    ensures counts { IfOk result (λ by_size. (size : ℕ)
        → unwrap_or (get nat_cmp by_size size) 0 ≡ count_by (λ (a : AnyAmount). a.size == size) amounts.now) }
    ensures some { IfOk result (λ by_size. (size : ℕ) → IfSome (get nat_cmp by_size size) (λ count. 1 ≤ count)) }
{
    let mut counts = BTreeMap::new(alloc);
    for amount in amounts {
        *counts.entry(amount.size)?.or_insert(0) += 1;
    }
    Ok(counts)
}

/// The greatest amounts: the greater first, and of equal ones that of the earlier number. There are
/// `most` of them, or all amounts where there are no more.
pub fn greatest_amounts(
    alloc: Global,
    amounts: &[Amount],
    most: usize,
) -> Result<Vec<Amount>, OutOfMemory>
    ensures { IfOk result (λ first. AreGreatest amounts.now most first.items) }
{
    let mut sorted = Vec::from_slice(alloc, amounts)?;
    sort(&mut sorted);
    sorted.truncate(most);
    Ok(sorted)
}

// Puts the amounts in order: the greater first, and of equal ones that of the earlier number.
fn sort(amounts: &mut Vec<Amount>)
    ensures same { IsPermutation amounts.old.items amounts.new.items }
    ensures order { IsSorted amount_order amounts.new.items }
{
    amounts.sort_unstable_by(|a, b| order_of(a, b));
}

// The order of two amounts, by which they are sorted. The first comes before the second (`Less`) where it
// is greater, or where both are equal and its number is earlier.
fn order_of(a: &Amount, b: &Amount) -> Ordering
    ensures { result ≡ amount_order a.now b.now }
{
    b.size.cmp(&a.size).then(a.number.cmp(&b.number))
}
