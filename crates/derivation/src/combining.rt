//! The step that combines two lines: it adds up multiples of both and divides the sum. A step that
//! proves nothing, told as None, is not valid.
//!
//! In contracts, `meant` has what a step proved, and `lined` a line as what was proved, None where
//! there is none. `proved_by` has what a step proves by the definition.
ghost use Rattle.std.specs.Prelude.{◌≡◌, ◌&&◌, ◌<ℤ◌, IfOk, int_lt, int_rem, map, pos};
ghost use Rattle.std.specs.List.{list_all};
ghost use Rattle.std.specs.Ordering.{int_eq};
ghost use Rattle.edit_line.specs.Combinations.{divides, may_multiply};
ghost use Rattle.edit_line.specs.Divisors.{divided_by};
ghost use Rattle.derivation.specs.inner.Bases.{premises, shape_in};
ghost use Rattle.derivation.specs.inner.Meanings.{AllOver, lined, meaning, meant};
ghost use Rattle.derivation.specs.ValidSteps.{combined_line, only_if, proved_by};
ghost use Rattle.derivation.specs.declared.proved.Proved.{Proved};
ghost use Rattle.derivation.specs.declared.step.Step.{Step};

use crate::basis::Basis;
use crate::known::{Known, line_at};
use edit_line::{Line, all_meet};
use foundation::OutOfMemory;
use std::alloc::Global;

/// With what two lines are multiplied, and what their sum is divided by.
#[derive(Clone, Copy)]
pub(crate) struct Multipliers {
    pub(crate) first: i128,
    pub(crate) second: i128,
    pub(crate) divisor: i128,
}

/// What a step `Combine` proves: the sum of multiples of the lines that were proved at the places `a`
/// and `b`, divided. None where no line was proved at one of the places, or where the lines may not be
/// combined so, as `combined_lines` tells.
pub(crate) fn combine_step<'a>(
    alloc: Global,
    basis: &Basis<'a>,
    known: &[Known<'a>],
    a: u64,
    b: u64,
    by: Multipliers,
) -> Result<Option<Known<'a>>, OutOfMemory>
    requires { AllOver (shape_in basis.now) known.now }
    ensures { IfOk result (λ made. meant made
        ≡ proved_by (premises basis.now) (map meaning known.now) (Step.Combine a by.first b by.second by.divisor)) }
{
    let Some(s) = line_at(known, a) else {
        return Ok(None);
    };
    match line_at(known, b) {
        None => Ok(None),
        Some(t) => known_line(alloc, combined_lines(alloc, by, s, t)?),
    }
}

// The line as what a step proved. None stays None: the step is not valid.
fn known_line<'a>(alloc: Global, line: Option<Line>) -> Result<Option<Known<'a>>, OutOfMemory>
    ensures { IfOk result (λ made. meant made ≡ lined line) }
{
    match line {
        None => Ok(None),
        Some(line) => Ok(Some(Known::of_line(alloc, line)?)),
    }
}

/// The sum of the multiples of both lines, divided. It is None unless each line may be multiplied so, the
/// divisor is above 0, and the lines have codes of each field in common. It is also None where a number on
/// the way is out of range, or the division leaves a remainder.
pub(crate) fn combined_lines(
    alloc: Global,
    by: Multipliers,
    s: &Line,
    t: &Line,
) -> Result<Option<Line>, OutOfMemory>
    requires { t.now.shape ≡ s.now.shape }
    ensures { IfOk result (λ line. lined line ≡ combined_line by.first by.second by.divisor s.now t.now) }
{
    if !are_allowed(by, s, t) || !all_meet(s.sets(), t.sets()) {
        return Ok(None);
    }
    let mut sum = s.copy(alloc)?;
    match sum.write_sum(by.first, s, by.second, t) {
        Some(_) => Ok(None),
        None => Ok(exact_quotient(sum, by.divisor)),
    }
}

// Whether each line may be multiplied by its number, and the divisor is above 0. An inequality may be
// multiplied by numbers above 0 alone, since others would turn it round.
fn are_allowed(by: Multipliers, s: &Line, t: &Line) -> bool
    ensures { result ≡ (may_multiply s.now.relation by.first && (may_multiply t.now.relation by.second && int_lt (pos 0) by.divisor)) }
{
    s.relation().may_multiply(by.first) && t.relation().may_multiply(by.second) && by.divisor > 0
}

// The line with its numbers divided by the divisor, or None where that leaves a remainder.
fn exact_quotient(mut line: Line, divisor: i128) -> Option<Line>
    requires { pos 0 <ℤ divisor }
    ensures { lined result ≡ only_if (divides divisor line) (Proved.Line (divided_by divisor line)) }
{
    if !divides(divisor, &line) {
        return None;
    }
    line.divide_by(divisor);
    Some(line)
}

// Whether all numbers of the line are multiples of the divisor.
fn divides(divisor: i128, line: &Line) -> bool
    requires { pos 0 <ℤ divisor }
    ensures { result ≡ divides divisor line.now }
{
    are_multiples(line.factors(), divisor) && is_multiple(line.constant(), divisor)
}

// Whether all these numbers are multiples of the divisor.
fn are_multiples(numbers: &[i128], divisor: i128) -> bool
    requires { pos 0 <ℤ divisor }
    ensures { result ≡ list_all (λ z. int_eq (int_rem z divisor) (pos 0)) numbers.now }
{
    numbers.iter().all(|number| is_multiple(*number, divisor))
}

// Whether the number is a multiple of the divisor.
fn is_multiple(number: i128, divisor: i128) -> bool
    requires { pos 0 <ℤ divisor }
    ensures { result ≡ int_eq (int_rem number divisor) (pos 0) }
{
    number % divisor == 0
}
