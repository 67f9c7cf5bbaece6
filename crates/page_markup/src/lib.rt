//! Web pages with drawings, written element by element: whatever the texts in them are, a page is the
//! text of a tree of elements. What that text is is stated in `specs/Trees.antt`, and how a text is
//! escaped in `specs/Escapes.antt`. Begin with [`PageWriter`].
//!
//! No element and no attribute here fetches or runs anything, so a page shows alike without a network.
//! The one style sheet is a constant.
#![tactic(auto)]

mod attribute;
mod escaping;
mod marks;
mod page_writer;
mod style;
mod tag;
#[cfg(test)]
mod tests;

pub use attribute::{Attribute, Value};
pub use page_writer::PageWriter;
pub use style::STYLE;
pub use tag::{Tag, VoidTag};
