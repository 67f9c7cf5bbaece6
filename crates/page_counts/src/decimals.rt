//! Thousandths as decimal numbers, such as `-1.5` for -1500. By these the bins of a page are named.
ghost use Rattle.std.specs.Prelude.{◌≡◌, ◌+◌, ◌++◌, ◌<◌, IfOk, OnOk};
ghost use Rattle.std.specs.Fmt.{decimal};
ghost use Rattle.page_counts.specs.Thousandths.{decimal_text, digit, digits_behind, rest_text, sign_text};

use foundation::OutOfMemory;
use std::alloc::Global;

/// So many thousandths as a decimal number in ASCII. It has a minus sign where it is below 0, and the
/// whole part. Where the rest is not 0, a point and its digits follow, without zeros at the end: 250 is
/// `0.25`, 3000 is `3`.
pub fn decimal_text(alloc: Global, thousandths: i128) -> Result<Vec<u8>, OutOfMemory>
    ensures { IfOk result (λ text. text.items ≡ decimal_text thousandths) }
{
    let size = thousandths.unsigned_abs();
    let mut text = sign_text(alloc, thousandths)?;
    push_whole(alloc, &mut text, size / 1000)?;
    push_rest(&mut text, (size % 1000) as u32)?;
    Ok(text)
}

// A minus sign where the number is below 0, and else no byte.
fn sign_text(alloc: Global, thousandths: i128) -> Result<Vec<u8>, OutOfMemory>
    ensures { IfOk result (λ text. text.items ≡ sign_text thousandths) }
{
    let mut text = Vec::new(alloc);
    if thousandths < 0 {
        text.push(b'-')?;
    }
    Ok(text)
}

// Appends a whole number in decimal digits.
fn push_whole(alloc: Global, text: &mut Vec<u8>, whole: u128) -> Result<(), OutOfMemory>
    ensures { OnOk result (text.new.items ≡ text.old.items ++ decimal whole) }
{
    let digits = format!(in alloc; "{whole}")?;
    text.extend_from_slice(digits.as_bytes())?;
    Ok(())
}

// Appends what stands behind the whole part, where `rest` thousandths are left: nothing for 0.
fn push_rest(text: &mut Vec<u8>, rest: u32) -> Result<(), OutOfMemory>
    requires { rest < 1000 }
    ensures { OnOk result (text.new.items ≡ text.old.items ++ rest_text rest) }
{
    if rest == 0 {
        return Ok(());
    }
    text.push(b'.')?;
    push_digits(text, rest)
}

// Appends the digits of tenths, hundredths and thousandths of `rest`, without zeros at the end.
fn push_digits(text: &mut Vec<u8>, rest: u32) -> Result<(), OutOfMemory>
    requires { rest < 1000 }
    ensures { OnOk result (text.new.items ≡ text.old.items ++ digits_behind rest) }
{
    text.push(digit(rest / 100))?;
    if rest % 100 == 0 {
        return Ok(());
    }
    text.push(digit(rest / 10 % 10))?;
    if rest % 10 == 0 {
        return Ok(());
    }
    text.push(digit(rest % 10))?;
    Ok(())
}

// The byte of a digit in ASCII.
fn digit(number: u32) -> u8
    requires { number < 10 }
    ensures { result ≡ digit number }
{
    b'0' + number as u8
}
