//! All that the page of a release says, counted from its files. What each figure is is stated in
//! `specs/Figures.antt`. Begin with [`Release`], [`figures_of`] and [`ReleaseFigures`].
#![tactic(auto)]

mod counting;
mod fields;
mod figures;
mod numbered;
mod range;
mod ranges;
mod release;
mod released;
mod rules;
mod sheet_text;
mod values;

pub use counting::figures_of;
pub use figures::{FieldValues, NumberFigures, NumberValues, ReleaseFigures};
pub use release::Release;
pub use sheet_text::text_in;
