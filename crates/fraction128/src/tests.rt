//! Worked examples, as texts: what the contracts' words mean in numbers, and that each call can succeed.
use crate::{Fraction, Overflow, gcd};
use std::alloc::Global;
use std::cmp::Ordering;
use std::process::Abort;
use std::test::Fail;

/// The greatest number in range.
const MOST: i128 = i128::MAX;

/// The fraction that the text spells. The test fails where the text spells none.
fn fraction(rt: &impl Abort, text: &str) -> Fraction {
    Fraction::read_text(text.as_bytes()).expect(rt, "a canonical spelling")
}

/// Asserts that the answer is the fraction that the text spells, or an overflow where the text is
/// `overflow`.
fn expect(rt: &impl Abort, answer: Result<Fraction, Overflow>, text: &str) {
    match answer {
        Ok(x) => assert!(rt; Fraction::read_text(text.as_bytes()) == Some(x)),
        Err(Overflow) => assert!(rt; text == "overflow"),
    }
}

/// Two fractions, their sum, the first without the second, and their middle; `overflow` where the call
/// refuses.
const SUMS: [(&str, &str, &str, &str, &str); 9] = [
    ("0", "0", "0", "0", "0"),
    ("0", "1", "1", "-1", "1/2"),
    ("1/2", "1/3", "5/6", "1/6", "5/12"),
    ("-1/6", "1/6", "0", "-1/3", "0"),
    (
        "170141183460469231731687303715884105727",
        "1",
        "overflow",
        "170141183460469231731687303715884105726",
        "overflow",
    ),
    (
        "-170141183460469231731687303715884105727",
        "1",
        "-170141183460469231731687303715884105726",
        "overflow",
        "-85070591730234615865843651857942052863",
    ),
    // 2^127 over 2: the sum would fit, and the numerator of the formula does not.
    (
        "170141183460469231731687303715884105727/2",
        "1/2",
        "overflow",
        "85070591730234615865843651857942052863",
        "overflow",
    ),
    (
        "1/170141183460469231731687303715884105727",
        "1/170141183460469231731687303715884105727",
        "2/170141183460469231731687303715884105727",
        "0",
        "1/170141183460469231731687303715884105727",
    ),
    (
        "1/170141183460469231731687303715884105727",
        "1/2",
        "overflow",
        "overflow",
        "overflow",
    ),
];

/// Asserts of each case that its sum, difference and middle are as it says.
fn add_all(rt: &impl Abort, cases: &[(&str, &str, &str, &str, &str)]) {
    for (left, right, sum, difference, middle) in cases {
        let (x, y) = (fraction(rt, left), fraction(rt, right));
        expect(rt, x.add(y), sum);
        expect(rt, x.sub(y), difference);
        expect(rt, x.middle(y), middle);
    }
}

/// Sums, differences and middles, of small numbers and at the ends of the range.
#[test]
fn sums_differences_and_middles(rt: HostRuntime) {
    add_all(&rt, &SUMS)
}

/// A fraction, a whole number, the product with it and the quotient by it; `overflow` where the call
/// refuses. There is no quotient by 0.
const PRODUCTS: [(&str, i64, &str, &str); 6] = [
    ("0", 5, "0", "0"),
    ("3/4", 6, "9/2", "1/8"),
    ("3/4", -6, "-9/2", "-1/8"),
    ("-3/4", -1, "3/4", "3/4"),
    (
        "170141183460469231731687303715884105727",
        2,
        "overflow",
        "170141183460469231731687303715884105727/2",
    ),
    (
        "1/170141183460469231731687303715884105727",
        2,
        "2/170141183460469231731687303715884105727",
        "overflow",
    ),
];

/// Asserts of each case that its product and its quotient are as it says.
fn scale_all(rt: &impl Abort, cases: &[(&str, i64, &str, &str)]) {
    for (text, number, product, quotient) in cases {
        let x = fraction(rt, text);
        expect(rt, x.scale(i128::from(*number)), product);
        if *number != 0 {
            expect(rt, x.divide(i128::from(*number)), quotient);
        }
    }
}

/// Products and quotients, with either sign and at the ends of the range.
#[test]
fn products_and_quotients_by_whole_numbers(rt: HostRuntime) {
    scale_all(&rt, &PRODUCTS)
}

/// Two fractions, and how the first compares with the second.
const ORDERS: [(&str, &str, Ordering); 6] = [
    ("0", "0", Ordering::Equal),
    ("1/3", "2/7", Ordering::Greater),
    ("-1/3", "-2/7", Ordering::Less),
    ("-1", "1", Ordering::Less),
    ("1/2", "-1", Ordering::Greater),
    // (n - 1)/n and (n - 2)/(n - 1): their cross products differ by 1.
    (
        "170141183460469231731687303715884105726/170141183460469231731687303715884105727",
        "170141183460469231731687303715884105725/170141183460469231731687303715884105726",
        Ordering::Greater,
    ),
];

/// Asserts of each case that its fractions compare as it says.
fn compare_all(rt: &impl Abort, cases: &[(&str, &str, Ordering)]) {
    for (left, right, order) in cases {
        assert!(rt; fraction(rt, left).compare(fraction(rt, right)) == *order);
    }
}

/// Fractions compare exactly, also where their cross products have more than 128 bits.
#[test]
fn the_order_of_fractions(rt: HostRuntime) {
    compare_all(&rt, &ORDERS)
}

/// Greatest common divisors have no sign, and 0 is that of two zeros. A fraction is reduced.
#[test]
fn common_divisors_and_lowest_terms(rt: HostRuntime) {
    assert!(rt; gcd(12, -18) == 6 && gcd(0, -5) == 5 && gcd(0, 0) == 0 && gcd(-MOST, MOST) == MOST);
    assert!(rt; Fraction::reduced(-MOST, MOST) == Fraction::whole(-1));
}

/// Texts, and the two numbers that they spell.
const SPELLINGS: [(&str, i128, i128); 7] = [
    ("0", 0, 1),
    ("-7", -7, 1),
    ("1/2", 1, 2),
    ("-10/3", -10, 3),
    ("170141183460469231731687303715884105727", MOST, 1),
    ("-170141183460469231731687303715884105727", -MOST, 1),
    ("1/170141183460469231731687303715884105727", 1, MOST),
];

/// Asserts of each text that it is read as its two numbers, and that these are written as the text.
fn spell_all(rt: &impl Abort, alloc: Global, cases: &[(&str, i128, i128)]) -> Result<(), Fail> {
    for (text, numerator, denominator) in cases {
        let x = fraction(rt, text);
        assert!(rt; x.numerator() == *numerator && x.denominator() == *denominator);
        assert!(rt; x.write_text(alloc)?.as_slice() == text.as_bytes());
    }
    Ok(())
}

/// A canonical text is read, and written again as it was.
#[test]
fn canonical_texts_both_ways(rt: HostRuntime) -> Result<(), Fail> {
    spell_all(&rt, rt.alloc(), &SPELLINGS)
}

/// Texts that spell no fraction as it is written.
const OTHER_TEXTS: [&str; 16] = [
    "",
    "-",
    "1/",
    "/2",
    "+1",
    "-0",
    "01",
    "1/02",
    "1/1",
    "4/2",
    "1/0",
    "1/-2",
    "1/2/3",
    "1.5",
    "170141183460469231731687303715884105728",
    "1/170141183460469231731687303715884105728",
];

/// Asserts of each text that it is read as no fraction.
fn refuse_all(rt: &impl Abort, texts: &[&str]) {
    for text in texts {
        assert!(rt; Fraction::read_text(text.as_bytes()).is_none());
    }
}

/// Other texts spell no fraction. Some are not in lowest terms, some have a sign or a zero too much, and some
/// have a number out of range.
#[test]
fn other_texts_are_refused(rt: HostRuntime) {
    refuse_all(&rt, &OTHER_TEXTS)
}
