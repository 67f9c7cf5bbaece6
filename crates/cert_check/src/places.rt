//! What the place of a row tells of its record, without the tree.
ghost use Rattle.std.specs.Prelude.{◌≡◌};
ghost use Rattle.bound_cert.specs.Claims.{claims_donor};
ghost use Rattle.cert_check.specs.Releases.{is_released};

use proof_text::RowPlace;

/// Whether the record is released: a change was found, and its values were given. A clean record counts as
/// a change of weight 0. No memory.
pub(crate) fn is_released(place: &RowPlace) -> bool
    ensures { result ≡ is_released place.now }
{
    match place.change_weight() {
        Some(_) => place.gift().is_none(),
        None => false,
    }
}

/// Whether the record claims a donor: a change of some weight was found, whether its values could be given
/// or not. No memory.
pub(crate) fn claims_donor(place: &RowPlace) -> bool
    ensures { result ≡ claims_donor place.now.outcome }
{
    match place.change_weight() {
        Some(weight) => weight != 0,
        None => false,
    }
}
