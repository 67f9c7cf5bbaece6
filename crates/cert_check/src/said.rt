//! What a proof says of a record, but for its tree and the released row: whether its numbers fit the record
//! and the rules.
ghost use Rattle.std.specs.Prelude.{◌≡◌};
ghost use Rattle.edit_model.specs.Rows.{IsRow};
ghost use Rattle.cert_check.specs.RowChecks.{event_exists, gift_exists, fits_change, place_exists};

use bound_cert::{Event, GiftFault, Path};
use edit_line::Place;
use edit_model::{Row, Survey};

/// Whether the path is one of a change of the record. Such a path has a letter for each field, keeps no
/// field at which the record has no value, and has this `weight`. No memory.
pub(crate) fn is_change(survey: &Survey, row: &Row, path: &Path, weight: u64) -> bool
    requires { IsRow survey.now.fields row.now }
    ensures { result ≡ fits_change survey.now.fields row.now path.now weight }
{
    path.letters().len() == survey.fields().len()
        && (!path.keeps_bad(survey, row) && path.weight(survey) == weight)
}

/// Whether the survey has the field, or the rule, at which a number left the range while values were given,
/// as the proof says. No more is checked of such a `fault`. No memory.
pub(crate) fn gift_exists(survey: &Survey, fault: GiftFault) -> bool
    ensures { result ≡ gift_exists survey.now fault }
{
    match fault {
        GiftFault::Bound { field, .. } => (field as usize) < survey.fields().len(),
        GiftFault::Test { rule } => (rule as usize) < survey.rules().len(),
    }
}

/// Whether the survey has what the proof names where a number left the range in the search: as many fields
/// as the path has letters, or more, and the field of the number, if it is not a line's constant. Which
/// number it was, is taken on trust. No memory.
pub(crate) fn event_exists(survey: &Survey, path: &Path, event: Event) -> bool
    ensures { result ≡ event_exists survey.now.fields path.now event }
{
    let count = survey.fields().len();
    match event {
        Event::Step { place, .. } => path.letters().len() <= count && place_exists(survey, place),
        Event::Test { field, .. } => path.letters().len() <= count && (field as usize) < count,
    }
}

// Whether `place`, at which a number of a line left the range, is that of a field of the survey, or that
// of the constant.
fn place_exists(survey: &Survey, place: Place) -> bool
    ensures { result ≡ place_exists survey.now.fields place }
{
    match place {
        Place::Field(field) => (field as usize) < survey.fields().len(),
        Place::Constant => true,
    }
}
