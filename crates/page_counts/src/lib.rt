//! What a page says of an edit, counted: of its records, the changes of their fields, the rules, and the
//! values before and after. The definitions are in `specs/`; each count is the number of rows or changes
//! of which it is said.
#![tactic(auto)]

mod amounts;
mod bin_counts;
mod binning;
mod bins;
mod codes;
mod columns;
mod decimals;
mod fields;
mod giving;
mod marks;
mod numbers;
mod records;
mod released;
mod rules;
mod thousandth;
mod trial;
mod weighing;
mod widths;

pub use amounts::{Amount, SizeCount, greatest_amounts, tally};
pub use bin_counts::{BinCounts, histogram};
pub use binning::bins_over;
pub use bins::Bins;
pub use codes::{CodeCounts, code_counts};
pub use columns::{bad_count, column, number_count};
pub use decimals::decimal_text;
pub use fields::{FieldCount, field_count};
pub use giving::donors;
pub use numbers::{greatest, least, sum_of};
pub use records::{RecordCounts, record_counts};
pub use released::released_rows;
pub use rules::{RuleCount, rule_counts};
pub use thousandth::thousandths_of;
pub use trial::{answer_at, can_try};
pub use weighing::weights;
