//! From where to where some numbers reach.
ghost use Rattle.std.specs.Prelude.{◌≤◌, ◌^◌, unsigned_abs};

/// The least and the greatest of some numbers, in thousandths.
#[derive(Clone, Copy)]
pub(crate) struct Range {
    pub(crate) least: i128,
    pub(crate) greatest: i128,
    pub ghost least_small: { unsigned_abs least ≤ 10 ^ 36 },
    pub ghost greatest_small: { unsigned_abs greatest ≤ 10 ^ 36 },
}
