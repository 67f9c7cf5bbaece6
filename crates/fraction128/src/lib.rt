//! Exact fractions of 128 bits. Arithmetic gives the exact value or says `Overflow`; it never wraps or
//! rounds. Begin with [`Fraction`].
#![tactic(auto)]

mod divisor;
mod fraction;
mod overflow;
mod range;

pub use divisor::gcd;
pub use fraction::Fraction;
pub use overflow::Overflow;

#[cfg(test)]
mod tests;
