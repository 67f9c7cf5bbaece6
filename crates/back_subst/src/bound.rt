//! The bounds of the numbers that a field may have, and the number between them that is given for a target.
//! In this file `lower` is true of a lower bound, and false of an upper one. In contracts, `found_of` is a
//! bound as definitions see it, and `ends_of` both bounds. `side_of` is 1 for a lower bound, and -1 for an
//! upper one. `number_told` is what a call answers: a number, or the place of a line.
ghost use Rattle.std.specs.Prelude.{◌≡◌};
ghost use Rattle.fraction128.specs.Formulas.{answered, ratio_of};
ghost use Rattle.edit_line.specs.Lines.{bound_relation};
ghost use Rattle.edit_line.specs.Subsumption.{is_enough};
ghost use Rattle.edit_line.specs.Sums.{whole};
ghost use Rattle.back_subst.specs.NumberWalk.{bounded_by, inside_by, is_further_in, nearest_found, no_bounds};
ghost use Rattle.back_subst.specs.NumberWalk.{number_at, step_in, tighter, with_found};
ghost use Rattle.back_subst.specs.inner.Sides.{ends_of, found_any, found_of, number_told, side_of};

use edit_line::Relation;
use fraction128::{Fraction, Overflow};
use std::cmp::Ordering;

/// A bound of a field's numbers: a lower or an upper one.
#[derive(Clone, Copy)]
pub struct Bound {
    /// Where the numbers end.
    pub at: Fraction,
    /// Whether this number is left out.
    pub strict: bool,
    /// The place, in the system, of the line that gave it.
    pub line: u64,
}

/// The bounds of a field's numbers, where there are such.
#[derive(Clone, Copy)]
pub struct Bounds {
    pub lower: Option<Bound>,
    pub upper: Option<Bound>,
}

impl Bound {
    /// Whether `x` is on the inner side of the bound: above a lower one, or below an upper one. The bound
    /// itself is, unless it is left out (`strict`).
    pub fn admits(self, lower: bool, x: Fraction) -> bool
        ensures { result ≡ is_enough (bound_relation self.strict) (inside_by (side_of lower) (found_of self) (ratio_of x)) }
    {
        match x.compare(self.at) {
            Ordering::Less => !lower,
            Ordering::Equal => !self.strict,
            Ordering::Greater => lower,
        }
    }

    /// Whether this bound leaves fewer numbers than an earlier one, `other`, on the same side. It ends further
    /// in, or both end at one number that only this bound leaves out.
    fn is_tighter(self, lower: bool, other: Bound) -> bool
        ensures { result ≡ is_further_in (side_of lower) (found_of other) (found_of self) }
    {
        match self.at.compare(other.at) {
            Ordering::Less => !lower,
            Ordering::Equal => self.strict && !other.strict,
            Ordering::Greater => lower,
        }
    }

    /// The tighter of this bound and an earlier one on the same side, if there is one; the earlier one
    /// where they are equal.
    pub fn narrow(self, lower: bool, old: Option<Bound>) -> Bound
        ensures { found_of result ≡ tighter (side_of lower) (found_any old) (found_of self) }
    {
        match old {
            None => self,
            Some(other) => {
                if self.is_tighter(lower, other) {
                    self
                } else {
                    other
                }
            }
        }
    }

    /// The number that is given at this bound, where it keeps the target out. That is the bound, or a
    /// number further in where the bound is left out. `other` is the bound on the other side, if there is
    /// one. Err has the place of this bound's line, where the number further in leaves the range.
    fn nearest_at(self, lower: bool, other: Option<Bound>) -> Result<Fraction, u64>
        ensures { number_told result ≡ number_at (side_of lower) (found_of self) (found_any other) }
    {
        if !self.strict {
            return Ok(self.at);
        }
        match self.further_in(lower, other) {
            Ok(x) => Ok(x),
            Err(Overflow) => Err(self.line),
        }
    }

    /// A number inside this bound: the middle of both bounds, or, where there is no other, 1 further in
    /// than the bound. Refused where it leaves the range.
    fn further_in(self, lower: bool, other: Option<Bound>) -> Result<Fraction, Overflow>
        ensures { answered result ≡ step_in (side_of lower) (ratio_of self.at) (found_any other) }
    {
        match other {
            Some(other) => self.at.middle(other.at),
            None => self.at.add(step_inward(lower)),
        }
    }
}

/// The number that is added to a bound to come 1 further in: 1 for a lower bound, -1 for an upper one.
fn step_inward(lower: bool) -> Fraction
    ensures { ratio_of result ≡ whole (side_of lower) }
{
    if lower {
        Fraction::whole(1)
    } else {
        Fraction::whole(-1)
    }
}

impl Bounds {
    /// No bounds: all numbers.
    pub fn none() -> Bounds
        ensures { ends_of result ≡ no_bounds }
    {
        Bounds {
            lower: None,
            upper: None,
        }
    }

    /// The number between the bounds that is given for the target: the target, or the one at the bound that
    /// keeps it out. Err has the place of that bound's line, where the number there leaves the range.
    pub fn nearest(self, target: Fraction) -> Result<Fraction, u64>
        ensures { number_told result ≡ nearest_found (ends_of self) (ratio_of target) }
    {
        if let Some(lower) = self.lower {
            if !lower.admits(true, target) {
                return lower.nearest_at(true, self.upper);
            }
        }
        if let Some(upper) = self.upper {
            if !upper.admits(false, target) {
                return upper.nearest_at(false, self.lower);
            }
        }
        Ok(target)
    }

    /// The bounds, narrowed by the bound `new`, which is a lower or an upper one (`lower`). Where there was
    /// one on that side, the tighter of both stays.
    pub fn with(self, lower: bool, new: Bound) -> Bounds
        ensures { ends_of result ≡ with_found (ends_of self) lower (found_of new) }
    {
        if lower {
            Bounds {
                lower: Some(new.narrow(true, self.lower)),
                upper: self.upper,
            }
        } else {
            Bounds {
                lower: self.lower,
                upper: Some(new.narrow(false, self.upper)),
            }
        }
    }

    /// The bounds, narrowed by those of the line at place `line` of the system, which end at the number `at`.
    /// `relation` is the line's. An equality bounds from both sides, another line from the side that `lower`
    /// says. A sum that has to be above 0 leaves `at` itself out.
    pub fn bounded_by(self, relation: Relation, lower: bool, at: Fraction, line: u64) -> Bounds
        ensures { ends_of result ≡ bounded_by relation (ends_of self) lower (ratio_of at) line }
    {
        let closed = Bound {
            at,
            strict: false,
            line,
        };
        match relation {
            Relation::AtLeast => self.with(lower, closed),
            Relation::Above => self.with(
                lower,
                Bound {
                    at,
                    strict: true,
                    line,
                },
            ),
            Relation::Equal => self.with(true, closed).with(false, closed),
        }
    }
}
