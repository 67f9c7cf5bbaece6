//! Linear edits, as elimination takes them: IF each code is in its set THEN a sum of factor * value and a
//! constant is at least 0, above 0, or 0. Begin with [`Line`]; its meaning is in `specs/Lines.antt`. The
//! contracts say what a line's sum is at a record ([`value_at`], [`fails`]), and when one line makes
//! another needless ([`subsumes`]). A list without its needless lines ([`reduce`]) says the same. The
//! negation of a line ([`Line::negation`]) holds exactly where the line does not.
#![tactic(auto)]

mod code_box;
mod code_sets;
mod derived;
mod division;
mod edits;
mod equality;
mod kept;
mod key;
mod line;
mod line_fields;
mod line_sum;
mod negation;
mod overflow;
mod place;
mod reduction;
mod relation;
mod shape;
mod subsumption;
mod sum;

pub use code_box::CodeBox;
pub use code_sets::{all_meet, are_inside, has_code, has_codes, meets, narrow};
pub use derived::{Derived, Origin};
pub use division::quotient;
pub use edits::Edits;
pub use kept::Kept;
pub use line::Line;
pub use overflow::LineOverflow;
pub use place::{Place, place_among};
pub use reduction::reduce;
pub use relation::Relation;
pub use shape::{Shape, whole_set};
pub use subsumption::{is_false, subsumes};
pub use sum::{fails, value_at};
