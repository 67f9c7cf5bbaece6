//! The numbers that a statement has, and their limits. A numeral that is out of range is no whole number,
//! or is above 10^15.
ghost use Rattle.std.specs.Prelude.{◌≡◌};
ghost use Rattle.edit_language.specs.Faults.{is_above, is_outside};
ghost use Rattle.edit_language.specs.Meaning.{numeral_value, number_or_one};

use rule_grammar::Numeral;

/// The number that a numeral spells. Out of range it counts as 0, but such a numeral is a fault, so its
/// statement is not taken.
pub(crate) fn number_in(numeral: Numeral) -> u64
    ensures { result ≡ numeral_value numeral }
{
    match numeral {
        Numeral::Whole(number) => number,
        Numeral::OutOfRange => 0,
    }
}

/// The number that a numeral spells, or 1 where none is written, as for a weight or a scale that is left
/// out.
pub(crate) fn number_or_one(numeral: Option<Numeral>) -> u64
    ensures { result ≡ number_or_one numeral }
{
    match numeral {
        None => 1,
        Some(numeral) => number_in(numeral),
    }
}

/// Whether the numeral is no whole number, or is above the limit: then it is a fault.
pub(crate) fn is_above(limit: u64, numeral: Numeral) -> bool
    ensures { result ≡ is_above limit numeral }
{
    match numeral {
        Numeral::Whole(number) => limit < number,
        Numeral::OutOfRange => true,
    }
}

/// Whether a numeral is written, and is no whole number from 1 to the limit: then it is a fault.
pub(crate) fn is_outside(limit: u64, numeral: Option<Numeral>) -> bool
    ensures { result ≡ is_outside limit numeral }
{
    match numeral {
        None => false,
        Some(Numeral::Whole(number)) => number < 1 || limit < number,
        Some(Numeral::OutOfRange) => true,
    }
}
