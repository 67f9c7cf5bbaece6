//! The step that takes a given line, which it may where that is usable. In contracts, `given_line` has
//! what such a step proves by the definition, which is nothing where the step is not valid.
ghost use Rattle.std.specs.Prelude.{◌≡◌, length, option_map};
ghost use Rattle.derivation.specs.inner.Bases.{IsBasis, premises};
ghost use Rattle.derivation.specs.inner.Meanings.{lined, meant};
ghost use Rattle.derivation.specs.Premises.{Premises};
ghost use Rattle.derivation.specs.ValidSteps.{given_line};

use crate::basis::Basis;
use crate::known::Known;
use edit_line::Line;

/// What a step `Given` proves: the given line at the place, from 0. None where there is none, or it is
/// not usable. No memory.
pub(crate) fn given_step<'a>(basis: &Basis<'a>, place: u64) -> Option<Known<'a>>
    requires { IsBasis basis.now }
    ensures { meant result ≡ given_line (premises basis.now) place }
{
    match usable_line(basis.given, basis.usable, place) {
        None => None,
        Some(line) => Some(Known::Given(line)),
    }
}

/// The given line at the place, from 0, or None where there is none or it is not usable. `usable` says
/// of each given line whether it is. No memory.
pub(crate) fn usable_line<'l>(given: &'l [Line], usable: &[bool], place: u64) -> Option<&'l Line>
    requires { length given.now ≡ length usable.now }
    ensures { (p : Premises) → p.given ≡ given.now → p.usable ≡ usable.now
        → lined (option_map (λ line. line.now) result) ≡ given_line p place }
{
    if place >= usable.len() as u64 {
        return None;
    }
    let at = place as usize;
    if usable[at] { Some(&given[at]) } else { None }
}
