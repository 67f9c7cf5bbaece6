//! Whether what a field holds, a scale or a list of codes, is within the limits.
ghost use Rattle.std.specs.Prelude.{◌≢◌, ◌↔◌, All, AllPairs, IsTrue};
ghost use Rattle.edit_model.specs.Surveys.{AreCodes, IsKind};

use crate::check::name::is_code_name;
use crate::field::Kind;
use crate::name::Name;

/// The largest scale of a numerical field.
const MOST_SCALE: u64 = 1_000_000_000_000;

/// How many codes a field may have.
const MOST_CODES: usize = 64;

// Whether none of the names is this one.
fn is_new(names: &[Name], name: &Name) -> bool
    ensures { IsTrue result ↔ All (λ n. n ≢ name.now) names.now }
{
    names.iter().all(|n| n.as_bytes() != name.as_bytes())
}

// Whether no two of the names are the same.
fn are_distinct(names: &[Name]) -> bool
    ensures { IsTrue result ↔ AllPairs (λ a b. a ≢ b) names.now }
{
    for (i, name) in names.iter().enumerate() {
        if !is_new(&names[..i], name) {
            return false;
        }
    }
    true
}

// Whether the codes are 1 to 64, each in the form of a code, and distinct.
fn are_codes(codes: &[Name]) -> bool
    ensures { IsTrue result ↔ AreCodes codes.now }
{
    !codes.is_empty()
        && codes.len() <= MOST_CODES
        && codes.iter().all(is_code_name)
        && are_distinct(codes)
}

/// Whether the scale of a numerical field, or the list of codes of a categorical one, is within its limits.
pub(crate) fn is_kind(kind: &Kind) -> bool
    ensures { IsTrue result ↔ IsKind kind.now }
{
    match kind {
        Kind::Number { scale } => 1 <= *scale && *scale <= MOST_SCALE,
        Kind::Code { codes } => are_codes(codes.as_slice()),
    }
}
