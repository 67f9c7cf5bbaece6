//! How far apart two records are: a measure of the kept fields, which keeps the distance of two values
//! of a field as a closure. The distances are defined in `specs/Distances.antt`, and what a closure has
//! to answer in `specs/Measures.antt`. Begin with [`Measure`] and [`field_distance`].
#![tactic(auto)]

mod bucket;
mod distance;
mod measure;
mod yardstick;

pub use bucket::{bucket_no, mark_of, whole_buckets_between};
pub use distance::field_distance;
pub use measure::Measure;
pub use yardstick::{Yardstick, Yardsticks};
