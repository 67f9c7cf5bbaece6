//! Numbers in the words of calls, and numbers from 1 for places from 0.

use crate::fault::CallFault;
use case_files::number_of;

/// The number that the text writes in decimal digits. `CallFault::Words` where it is none, or 2^64 or
/// more.
pub fn number_in(text: &str) -> Result<u64, CallFault> {
    match number_of(text) {
        Some(number) => Ok(number),
        None => Err(CallFault::Words),
    }
}

/// The place, from 0, that a number from 1 names. `CallFault::Number` for the number 0, and
/// `CallFault::Words` where the text is no number.
pub fn place_in(text: &str) -> Result<usize, CallFault> {
    match number_in(text)?.checked_sub(1) {
        Some(place) => Ok(place as usize),
        None => Err(CallFault::Number),
    }
}

/// The number, from 1, that names a place, from 0. It has 128 bits, so that the last place has one too.
pub fn from_one(place: u64) -> u128 {
    u128::from(place) + 1
}
