//! The model that the editor stands on: a survey's fields and edit rules, its records, and what a
//! correction of least weight is. The definitions are in `specs/`; begin with `specs/Surveys.antt`,
//! `specs/Points.antt` and `specs/Corrections.antt`, and in the code with [`Survey`] and [`Row`].
#![tactic(auto)]

mod check;
mod clean;
mod fault;
mod field;
mod field_set;
mod index;
mod name;
mod name_table;
mod row;
mod rule;
mod survey;
mod trial;
mod value;

pub use check::is_field_name;
pub use clean::is_clean;
pub use fault::SurveyFault;
pub use field::{Field, Kind};
pub use field_set::FieldSet;
pub use name::Name;
pub use row::Row;
pub use rule::{Compare, Linear, Rule, Term, Test};
pub use survey::Survey;
pub use trial::holds;
pub use value::Value;
