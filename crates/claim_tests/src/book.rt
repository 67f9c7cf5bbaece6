//! Claims in a book of one thread: who is given which donor, and how often.
ghost use Rattle.std.specs.Prelude.{◌≡◌, IfOk};

use donor_book::{Book, Claim};
use std::alloc::Global;
use std::test::Fail;

// The ranking of the donors with these numbers, in this order, as `claim_on` takes it.
fn donors(alloc: Global, numbers: &[u32]) -> Result<Vec<u32>, Fail>
    ensures { IfOk result (λ donors. donors.items ≡ numbers.now) }
{
    Ok(Vec::from_slice(alloc, numbers)?)
}

// Two donors, each given at most once, and three rows that rank donor 1 first: the third is given nobody.
// The row that claims again is told what it had.
#[test]
fn a_row_is_given_the_first_donor_with_uses_left(rt: HostRuntime) -> Result<(), Fail> {
    let alloc = rt.alloc();
    let mut book = Book::start(alloc, 2, 1, 4)?;
    let first = book.claim_on(3, donors(alloc, &[1, 0])?);
    let second = book.claim_on(0, donors(alloc, &[1, 0])?);
    let third = book.claim_on(1, donors(alloc, &[1, 0])?);
    let again = book.claim_on(3, donors(alloc, &[0])?);
    assert_eq!(rt; first, Claim::Given(1));
    assert_eq!(rt; second, Claim::Given(0));
    assert_eq!(rt; third, Claim::Nobody);
    assert_eq!(rt; again, Claim::Had(Some(1)));
    assert_eq!(rt; book.history().len(), 3);
    assert_eq!(rt; book.limit(), 1);
    let claims = book.close();
    assert!(rt; claims.len() == 3);
    assert!(rt; claims[1].row_no == 0 && claims[1].reply == Some(0));
    Ok(())
}

// One donor, given at most twice. A row that ranks no donor is given nobody, and so is the third row that
// ranks the donor.
#[test]
fn a_donor_is_given_as_often_as_the_limit(rt: HostRuntime) -> Result<(), Fail> {
    let alloc = rt.alloc();
    let mut book = Book::start(alloc, 1, 2, 4)?;
    let nobody = book.claim_on(2, donors(alloc, &[])?);
    let first = book.claim_on(0, donors(alloc, &[0])?);
    let second = book.claim_on(1, donors(alloc, &[0])?);
    let third = book.claim_on(3, donors(alloc, &[0])?);
    assert_eq!(rt; nobody, Claim::Nobody);
    assert_eq!(rt; first, Claim::Given(0));
    assert_eq!(rt; second, Claim::Given(0));
    assert_eq!(rt; third, Claim::Nobody);
    assert_eq!(rt; book.history().len(), 4);
    Ok(())
}
