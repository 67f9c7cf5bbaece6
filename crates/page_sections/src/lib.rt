//! The page of a release: what an edit changed, section by section, for a reader who has a browser and
//! no network. What the page holds is stated in `specs/ReleasePages.antt`, over one file a section.
//! Begin with [`release_page`].
#![tactic(auto)]

mod donors;
mod fields;
mod greatest;
mod head;
mod own_bar;
mod page;
mod records;
mod rules;
mod section;
mod sheet_text;
mod totals;
mod value_bars;
mod values;
mod weights;

pub use page::release_page;
