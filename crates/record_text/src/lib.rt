//! Record files: comma-separated texts, split and written by the crate `csv`. What the bytes of a file
//! give is stated in `specs/Sheets.antt`, over `specs/Faults.antt` and `specs/Values.antt`. Begin with
//! [`read_records`], [`Sheet`] and [`RecordWriter`]. Any other CSV text is read by [`read_table`], which
//! `specs/Tables.antt` states.
#![tactic(auto)]

mod columns;
mod fault;
mod field_text;
mod numeral;
mod reading;
mod record_writer;
mod row_texts;
mod sheet;
mod stream;
mod table;
mod table_fault;
mod texts;
mod trim;
mod writing;

pub use fault::SheetFault;
pub use reading::read_records;
pub use record_writer::RecordWriter;
pub use sheet::{Sheet, SheetRows};
pub use table::{Table, read_table};
pub use table_fault::TableFault;
pub use texts::Texts;
pub use trim::trimmed;
pub use writing::write_rows;
