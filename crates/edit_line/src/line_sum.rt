//! The sum of the multiples of two lines' numbers, in range throughout. Elimination forms it for each
//! pair of lines that it combines, so the cheap cases come first. A number is in range where its
//! absolute value is at most 2^127 - 1.
ghost use Rattle.std.specs.Prelude.{◌≡◌, ◌+ℤ◌, ◌*ℤ◌, Some, None, All, length, if◌then◌else◌};
ghost use Rattle.fraction128.specs.Range.{InRange};
ghost use Rattle.edit_line.specs.Combinations.{combined, first_overflow, in_range, sum_fits};

/// Writes `m` times the first list and `n` times the second, added number by number, into `sums`. Or it
/// answers the first place at which a number on the way leaves the range; then the sums before that place
/// are written. No memory.
pub(crate) fn write_sums(
    sums: &mut Vec<i128>,
    m: i128,
    first: &[i128],
    n: i128,
    second: &[i128],
) -> Option<usize>
    requires first { length first.now ≡ length sums.old.items }
    requires second { length second.now ≡ length sums.old.items }
    requires in_range { All InRange sums.old.items }
    ensures place { result ≡ first_overflow 0 m n first.now second.now }
    ensures sums { result ≡ None → sums.new.items ≡ combined m n first.now second.now }
    ensures in_range { All InRange sums.new.items }
    ensures count { length sums.new.items ≡ length sums.old.items }
{
    for i in 0..first.len() {
        match sum_of_products(m, first[i], n, second[i]) {
            Some(sum) => sums[i] = sum,
            None => return Some(i),
        }
    }
    None
}

/// `m * a + n * b`, or None where one of the products or the sum is out of range. No memory.
pub(crate) fn sum_of_products(m: i128, a: i128, n: i128, b: i128) -> Option<i128>
    ensures { result ≡ (if sum_fits m n a b then Some (m *ℤ a +ℤ n *ℤ b) else None) }
{
    match product(m, a) {
        None => None,
        Some(first) => match product(n, b) {
            None => None,
            Some(second) => sum(first, second),
        },
    }
}

// The product, or None where it is out of range. Where `b` is 0 or `a` is 1 nothing is multiplied, for
// speed.
fn product(a: i128, b: i128) -> Option<i128>
    ensures { result ≡ (if in_range (a *ℤ b) then Some (a *ℤ b) else None) }
{
    if b == 0 {
        return Some(0);
    }
    if a == 1 {
        return checked_number(b);
    }
    product_of(a, b)
}

// The product of any two numbers, or None where it is out of range. Two numbers of 64 bits go a way of
// their own, for speed: their product always fits, so the compiler can leave the check out.
fn product_of(a: i128, b: i128) -> Option<i128>
    ensures { result ≡ (if in_range (a *ℤ b) then Some (a *ℤ b) else None) }
{
    match (i64::try_from(a), i64::try_from(b)) {
        (Ok(first), Ok(second)) => checked_product(i128::from(first), i128::from(second)),
        _ => checked_product(a, b),
    }
}

// The product, or None where it is out of range, as -2^127 is: no i128 is its negative.
#[inline(always)]
fn checked_product(a: i128, b: i128) -> Option<i128>
    ensures { result ≡ (if in_range (a *ℤ b) then Some (a *ℤ b) else None) }
{
    match a.checked_mul(b) {
        Some(i128::MIN) | None => None,
        Some(product) => Some(product),
    }
}

// The number, or None where it is out of range. Of all numbers of 128 bits only -2^127 is, since none
// is its negative.
fn checked_number(number: i128) -> Option<i128>
    ensures { result ≡ (if in_range number then Some number else None) }
{
    match number {
        i128::MIN => None,
        number => Some(number),
    }
}

// The sum, or None where it is out of range, as -2^127 is.
fn sum(a: i128, b: i128) -> Option<i128>
    ensures { result ≡ (if in_range (a +ℤ b) then Some (a +ℤ b) else None) }
{
    match a.checked_add(b) {
        Some(i128::MIN) | None => None,
        Some(sum) => Some(sum),
    }
}
