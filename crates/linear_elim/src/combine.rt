//! The combination of two lines in which a field stands, such that the field goes: the sum of multiples of
//! both, divided by what divides its numbers.
ghost use Rattle.std.specs.Prelude.{◌≡◌, ◌≢◌, int_div, neg_ℤ, pos, true, false};
ghost use Rattle.fraction128.specs.Divisor.{int_gcd};
ghost use Rattle.fraction128.specs.Range.{InRange};
ghost use Rattle.edit_line.specs.Combinations.{all_meet};
ghost use Rattle.edit_line.specs.Domains.{domains};
ghost use Rattle.edit_line.specs.declared.derived.Origin.TheVariants.{Pair};
ghost use Rattle.linear_elim.specs.Combinations.{combine_result, is_flat, with_sign_of};
ghost use Rattle.linear_elim.specs.inner.ToldCombinations.{told_combination};

use crate::column::Column;
use edit_line::{Line, Origin, quotient};
use fraction128::gcd;

/// With what two lines are multiplied so that a field goes from their sum.
#[derive(Clone, Copy)]
struct Multipliers {
    first: i128,
    second: i128,
}

impl Multipliers {
    // The multipliers of a line that has the factor `a` at the field and one that has `b` there,
    // neither of which is 0. The second is above 0. The first is above 0 where the factors have
    // opposite signs. Else it is below 0, as only an equality may be multiplied. No memory.
    fn of(a: i128, b: i128) -> Multipliers
        requires first { a ≢ pos 0 }
        requires second { b ≢ pos 0 }
        requires a_in_range { InRange a }
        requires b_in_range { InRange b }
        ensures first { result.first ≡ int_div (with_sign_of a (neg_ℤ b)) (int_gcd a b) }
        ensures second { result.second ≡ int_div (with_sign_of a a) (int_gcd a b) }
    {
        let divisor = common_divisor(a, b);
        Multipliers {
            first: quotient(with_sign_of(a, negative(b)), divisor),
            second: quotient(with_sign_of(a, a), divisor),
        }
    }
}

// The number, or its negative where the factor is below 0, so that the second multiplier comes out above 0.
fn with_sign_of(factor: i128, number: i128) -> i128
    requires { InRange number }
    ensures { result ≡ with_sign_of factor number }
{
    if factor < 0 { negative(number) } else { number }
}

// The negative of a number in range, which is in range too.
fn negative(number: i128) -> i128
    requires { InRange number }
    ensures value { result ≡ neg_ℤ number }
    ensures in_range { InRange result }
{
    -number
}

// The greatest common divisor of two factors. Where the first is 1 or the second -1 it is 1, and is not
// looked for.
fn common_divisor(a: i128, b: i128) -> i128
    requires a_in_range { InRange a }
    requires b_in_range { InRange b }
    ensures { result ≡ int_gcd a b }
{
    if a == 1 || b == -1 {
        return 1;
    }
    gcd(a, b)
}

/// What a combination is of its two lines: `m` times the one and `n` times the other, divided by `g`.
#[derive(Clone, Copy)]
pub(crate) struct Scales {
    pub(crate) m: i128,
    pub(crate) n: i128,
    pub(crate) g: i128,
}

impl Scales {
    /// The origin of the combination of the lines at these places, in the list that the step took. No
    /// memory.
    pub(crate) fn origin(self, first: u64, second: u64) -> Origin
        ensures { result ≡ Pair first self.m second self.n self.g }
    {
        Origin::Pair {
            a: first,
            m: self.m,
            b: second,
            n: self.n,
            g: self.g,
        }
    }
}

/// Writes into `line` the combination of `s` and `t` in which the column's field is gone. The field
/// stands in both, and their sets meet. The answer is what they were multiplied with and divided by. Or
/// it is the first place at which a number on the way is out of range, and `line` then means nothing.
/// Places are those of the factors, from 0, and the constant stands behind them. No memory.
pub(crate) fn combine(line: &mut Line, column: &Column, s: &Line, t: &Line) -> Result<Scales, usize>
    requires over { line.old.shape ≡ domains column.now.shape }
    requires s_over { s.now.shape ≡ domains column.now.shape }
    requires t_over { t.now.shape ≡ domains column.now.shape }
    requires s_stands { is_flat column.now.field s.now ≡ false }
    requires t_stands { is_flat column.now.field t.now ≡ false }
    requires meet { all_meet s.now.sets t.now.sets ≡ true }
    ensures exact { told_combination line.new result ≡ combine_result s.now t.now column.now.field }
    ensures over { line.new.shape ≡ line.old.shape }
{
    let by = Multipliers::of(column.factor(s), column.factor(t));
    match line.write_sum(by.first, s, by.second, t) {
        Some(place) => Err(place),
        None => {
            let g = line.reduce_numbers();
            Ok(Scales {
                m: by.first,
                n: by.second,
                g,
            })
        }
    }
}
