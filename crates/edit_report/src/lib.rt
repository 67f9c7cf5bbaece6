//! What a run tells of its records: the released file, the reasons file, and the summary lines. Begin with
//! [`RowEnd`]; what is asked of ends is in `specs/Ends.antt`, and what is told in `specs/Released.antt`,
//! `specs/Reasons.antt` and `specs/Summaries.antt`, under the laws of `specs/Laws.antt`. Whoever writes the
//! files record by record begins with [`push_released`] and [`push_reasons`].
#![tactic(auto)]

mod changed;
mod detail;
mod end;
mod laws;
mod layout;
mod reasons;
mod released;
mod summary;
mod value_text;

pub use end::RowEnd;
pub use laws::report_laws;
pub use layout::Layout;
pub use reasons::{Record, push_cause, push_reasons, push_reasons_header, reasons_text};
pub use released::{push_released, released_text, row_texts};
pub use summary::{summary_line, summary_text};
