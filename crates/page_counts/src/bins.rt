//! Bins of equal width over thousandths.
ghost use Rattle.std.specs.Prelude.{◌≡◌, ◌*◌, ◌≤◌, ◌^◌, ◌<ℤ◌, pos, unsigned_abs};

/// Bins of equal width over thousandths, at most 20. Bin i, from 0, has those from `low` of i on that
/// are below `low` of i + 1. `first` is where bin 0 begins, and `count` is how many bins there are.
#[derive(Clone, Copy)]
pub struct Bins {
    pub(crate) first: i128,
    pub(crate) width: i128,
    pub(crate) count: u32,
    pub ghost first_small: { unsigned_abs first ≤ 10 ^ 37 },
    pub ghost wide: { pos 0 <ℤ width },
    pub ghost width_small: { unsigned_abs width ≤ 5 * 10 ^ 36 },
    pub ghost some: { 1 ≤ count },
    pub ghost few: { count ≤ 20 },
}

impl Bins {
    /// How wide each bin is, in thousandths.
    pub fn width(&self) -> i128
        ensures { result ≡ self.now.width }
    {
        self.width
    }

    /// How many bins there are, from 1 to 20.
    pub fn count(&self) -> u32
        ensures is { result ≡ self.now.count }
        ensures some { 1 ≤ result }
        ensures few { result ≤ 20 }
    {
        self.count
    }
}
