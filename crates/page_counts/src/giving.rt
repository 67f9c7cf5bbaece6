//! How often donors gave: to how many records each. A donor that gave to several fields of a record gave to
//! one record. In contracts, `noted` is what is known of donors after one change more. `AreAllGifts` says
//! that for each record the count of those that it gave to is right, and the last of these.
ghost use Rattle.std.specs.Prelude.{◌≡◌, ◌∷◌, ◌++◌, ◌≤◌, ◌^◌, [], All, IfOk, OnOk, if◌then◌else◌, nat_lt};
ghost use Rattle.std.specs.List.Sorted.{IsNonDecreasingBy};
ghost use Rattle.reason_lines.specs.declared.entry.Change.{Change as AnyChange};
ghost use Rattle.page_counts.specs.Donors.{donors_of, is_from};
ghost use Rattle.page_counts.specs.declared.giving.Gifts.{Gifts as AnyGifts};
ghost use Rattle.page_counts.specs.inner.Gifts.{AreAllGifts, noted, with_gift};

use crate::amounts::Amount;
use foundation::OutOfMemory;
use reason_lines::Change;
use std::alloc::Global;

// To how many records a donor gave so far, and the last of them: None where there is none yet.
#[derive(Clone, Copy)]
struct Gifts {
    count: u64,
    last: Option<u32>,
}

/// Those of `rows` records that gave values to others, by rising number, with the number of records to
/// which each gave. The changes stand in the order of their records, so that a record counts once for a
/// donor.
pub fn donors(alloc: Global, rows: u32, changes: &[Change]) -> Result<Vec<Amount>, OutOfMemory>
    requires { IsNonDecreasingBy (λ (c : AnyChange). c.record) changes.now }
    ensures { IfOk result (λ donors. donors.items ≡ donors_of rows changes.now) }
{
    let gifts = gifts_of(alloc, rows, changes)?;
    let mut donors = Vec::new(alloc);
    for number in 0..rows {
        push_donor(&mut donors, number, gifts[number as usize].count)?;
    }
    Ok(donors)
}

// Appends the donor `number`, which gave to `count` records. Nothing is appended where it gave to none.
fn push_donor(donors: &mut Vec<Amount>, number: u32, count: u64) -> Result<(), OutOfMemory>
    ensures { OnOk result (donors.new.items ≡ donors.old.items
        ++ (if nat_lt 0 count then record { number = number; size = count } ∷ [] else [])) }
{
    if count > 0 {
        donors.push(Amount {
            number,
            size: u128::from(count),
        })?;
    }
    Ok(())
}

// For each of `rows` records, to how many records it gave, and the last of these. A change of a record past
// them is passed over.
fn gifts_of(alloc: Global, rows: u32, changes: &[Change]) -> Result<Vec<Gifts>, OutOfMemory>
    requires { IsNonDecreasingBy (λ (c : AnyChange). c.record) changes.now }
    ensures { IfOk result (λ gifts. AreAllGifts rows changes.now gifts.items) }
{
    let none = Gifts {
        count: 0,
        last: None,
    };
    let mut gifts = vec![in alloc; none; rows as usize]?;
    for change in changes {
        if change.record < rows {
            note_gift(&mut gifts, change);
        }
    }
    Ok(gifts)
}

// Notes the record of a change as one that the donor of the change gave to. Nothing is noted where the
// change has no donor, or `gifts` no such record.
fn note_gift(gifts: &mut Vec<Gifts>, change: &Change)
    requires { All (λ (g : AnyGifts). g.count ≤ 2 ^ 32) gifts.old.items }
    ensures { gifts.new.items ≡ noted gifts.old.items change.now }
{
    if let Some(donor) = change.donor {
        let place = donor as usize;
        if place < gifts.len() {
            gifts[place] = with_gift(gifts[place], change.record);
        }
    }
}

// A donor's gifts with one to the record `number`. A record that is the last already counts once.
fn with_gift(gifts: Gifts, number: u32) -> Gifts
    requires { gifts.count ≤ 2 ^ 32 }
    ensures { result ≡ with_gift gifts number }
{
    if is_last(gifts, number) {
        return gifts;
    }
    Gifts {
        count: gifts.count + 1,
        last: Some(number),
    }
}

// Whether this record is the last to which a donor gave so far; false where it gave to none.
fn is_last(gifts: Gifts, number: u32) -> bool
    ensures { result ≡ is_from number gifts.last }
{
    match gifts.last {
        Some(last) => last == number,
        None => false,
    }
}
