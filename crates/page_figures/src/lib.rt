//! Tables and pictures of numbers in a page: bars, and histograms over the same bins. Each number of a
//! picture stands in a table below it, so that it can be read aloud and copied. What is added to the
//! page is stated in `specs/`. Begin with [`push_table`], [`push_bars`] and [`push_histogram`].
#![tactic(auto)]

mod bars;
mod colour;
mod drawing;
mod elements;
mod figure;
mod histogram;
mod label;
mod legend;
mod others;
mod scale;
mod table;
#[cfg(test)]
mod tests;

pub use elements::push_words;
pub use figure::{Bar, Figure, Form, push_bars, push_histogram};
pub use table::{Cell, push_table};
