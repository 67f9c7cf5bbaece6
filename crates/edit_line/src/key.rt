//! Keys of lines' factors, by which most lines are seen not to subsume each other: a line subsumes only
//! lines with the same factors, unless it has none.
ghost use Rattle.std.specs.Prelude.{◌≡◌, false};
ghost use Rattle.edit_line.specs.inner.Keys.{key_of, key_with, may_subsume};
ghost use Rattle.edit_line.specs.Subsumption as subsumption;

use crate::line::Line;
use crate::subsumption::subsumes;

/// The key of a line's factors. Equal factors have equal keys, and the key is 0 where all are 0. No memory.
pub(crate) fn key_of(factors: &[i128]) -> u64
    ensures { result ≡ key_of factors.now }
{
    let mut key = 0;
    for factor in factors {
        key = key_with(key, *factor);
    }
    key
}

// The key of a list of factors, from the key of those before the last, and the last. It is taken in 64
// bits, in which numbers wrap.
fn key_with(key: u64, factor: i128) -> u64
    ensures { result ≡ key_with key factor }
{
    let low = (factor.cast_unsigned() % 0x1_0000_0000_0000_0000) as u64;
    key.wrapping_mul(11_400_714_819_323_198_485)
        .wrapping_add(low)
}

/// Whether `a` subsumes `b`. They are compared only where their keys agree, or where `a`'s is 0, as that of
/// a line without a factor is. No memory.
#[inline(always)]
pub(crate) fn subsumes_keyed(a: &Line, a_key: u64, b: &Line, b_key: u64) -> bool
    requires first { a_key ≡ key_of a.now.factors }
    requires second { b_key ≡ key_of b.now.factors }
    ensures { result ≡ subsumption.subsumes a.now b.now }
{
    may_subsume(a_key, b_key) && subsumes(a, b)
}

/// Whether one of both lines may subsume the other, as far as their keys tell. If not, neither does. The
/// lines are arguments for contracts alone. No memory.
#[inline(always)]
pub(crate) fn may_concern(a: &Line, a_key: u64, b: &Line, b_key: u64) -> bool
    requires first { a_key ≡ key_of a.now.factors }
    requires second { b_key ≡ key_of b.now.factors }
    ensures over { result ≡ false → subsumption.subsumes a.now b.now ≡ false }
    ensures under { result ≡ false → subsumption.subsumes b.now a.now ≡ false }
{
    let _ = a;
    let _ = b;
    may_subsume(a_key, b_key) || may_subsume(b_key, a_key)
}

// Whether a line with the first key may subsume one with the second. The key 0 may be that of a line
// without factors, which can subsume any.
#[inline(always)]
fn may_subsume(first: u64, second: u64) -> bool
    ensures { result ≡ may_subsume first second }
{
    first == second || first == 0
}
