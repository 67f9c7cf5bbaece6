//! When one line says all that another says, and when a line always or never holds, as far as its parts
//! show.
ghost use Rattle.std.specs.Prelude.{◌≡◌, [], ◌∷◌, true};
ghost use Rattle.edit_line.specs.Lines.{Follows};
ghost use Rattle.edit_line.specs.Subsumption.{has_no_factor, is_false, is_tighter, is_trivial, subsumes};

use crate::code_sets::are_inside;
use crate::line::Line;

/// Whether `a` subsumes `b`, so that `b` says nothing that `a` does not say. Each set of `b` is inside
/// `a`'s; and `a` is false wherever its codes are, or both have the same factors and `a` is as tight. No
/// memory.
pub fn subsumes(a: &Line, b: &Line) -> bool
    ensures exact { result ≡ subsumes a.now b.now }
    ensures follows { b.now.shape ≡ a.now.shape → result ≡ true → Follows (a.now ∷ []) b.now }
{
    are_inside(b.sets(), a.sets())
        && (is_false(a) || (is_tighter(a, b) && a.factors() == b.factors()))
}

/// Whether the line has no factor other than 0, and its constant meets its relation, so that it always
/// holds. No memory.
pub(crate) fn is_trivial(line: &Line) -> bool
    ensures { result ≡ is_trivial line.now }
{
    line.relation().is_enough(line.constant()) && has_no_factor(line)
}

/// Whether the line has no factor other than 0, and its constant does not meet its relation. Then it never
/// holds where the codes are in its sets. No memory.
pub fn is_false(line: &Line) -> bool
    ensures { result ≡ is_false line.now }
{
    !line.relation().is_enough(line.constant()) && has_no_factor(line)
}

// Whether no numerical field stands in the line: all its factors are 0.
fn has_no_factor(line: &Line) -> bool
    ensures { result ≡ has_no_factor line.now }
{
    line.factors().iter().all(|factor| *factor == 0)
}

// Whether `a` asks at least as much as `b`, where both have the same factors. Its constant is less and
// `b` is no equality, or the constants are equal and `a`'s relation implies `b`'s.
fn is_tighter(a: &Line, b: &Line) -> bool
    ensures { result ≡ is_tighter a.now b.now }
{
    (a.constant() < b.constant() && !b.relation().is_equal())
        || (a.constant() == b.constant() && a.relation().implies(b.relation()))
}
