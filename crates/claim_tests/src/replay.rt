//! A history of claims that somebody else wrote: which claim in it is the first that is not legal.
ghost use Rattle.std.specs.Prelude.{◌<◌, All, IfOk};
ghost use Rattle.donor_book.specs.Entries.{IsEntryWithin};

use donor_book::{Entry, first_illegal};
use foundation::Sequence;
use std::alloc::Global;
use std::test::Fail;

// A claim as somebody else may have written it: the row `row_no` ranks donor 1 before donor 0, and was
// given `reply`, None for nobody. `IsEntryWithin 2 4` says that its numbers are of 2 donors and 4 rows.
fn entry(alloc: Global, row_no: u32, reply: Option<u32>) -> Result<Entry, Fail>
    requires { row_no < 4 }
    ensures { IfOk result (IsEntryWithin 2 4) }
{
    let ranking = Sequence::from_vec(vec![in alloc; 1, 0]?);
    Ok(Entry {
        row_no,
        ranking,
        reply,
    })
}

// A history with one claim for each pair, in order: the row's number, below 4, and the reply, which is the
// number of the donor that it was given, or None if it was given nobody. Each claim ranks donor 1 before
// donor 0. It fails where memory is refused.
fn entries(alloc: Global, claims: &[(u32, Option<u32>)]) -> Result<Vec<Entry>, Fail>
    requires { All (λ claim. claim.0 < 4) claims.now }
    ensures { IfOk result (λ entries. All (IsEntryWithin 2 4) entries.items) }
{
    let mut entries = Vec::new(alloc);
    for (row_no, reply) in claims {
        entries.push(entry(alloc, *row_no, *reply)?)?;
    }
    Ok(entries)
}

// The place, from 0, of the first illegal claim of such a history, where there are two donors, each given
// at most once, and four rows. None where all are legal.
fn illegal_place(alloc: Global, claims: &[(u32, Option<u32>)]) -> Result<Option<usize>, Fail>
    requires { All (λ claim. claim.0 < 4) claims.now }
{
    Ok(first_illegal(alloc, &entries(alloc, claims)?, 1, 2, 4)?)
}

// A history that is legal, and four that are not. These give a donor too often, leave a free one out,
// have a row twice, or name a donor that is not ranked.
#[test]
fn the_first_illegal_claim_is_told(rt: HostRuntime) -> Result<(), Fail> {
    let alloc = rt.alloc();
    let legal = illegal_place(alloc, &[(3, Some(1)), (0, Some(0)), (1, None)])?;
    let used_up = illegal_place(alloc, &[(3, Some(1)), (0, Some(1)), (1, None)])?;
    let one_is_free = illegal_place(alloc, &[(3, Some(1)), (0, None), (1, None)])?;
    let row_twice = illegal_place(alloc, &[(3, Some(1)), (0, Some(0)), (3, None)])?;
    let no_donor = illegal_place(alloc, &[(3, Some(2)), (0, Some(0))])?;
    assert!(rt; legal.is_none());
    assert_eq!(rt; used_up, Some(1));
    assert_eq!(rt; one_is_free, Some(1));
    assert_eq!(rt; row_twice, Some(2));
    assert_eq!(rt; no_donor, Some(0));
    Ok(())
}
