//! A place in a worker's course where a test may hold it, so that workers take their steps in an order that
//! the test chooses.

/// What is told of each row that a worker draws. A test may hold the worker there.
pub trait Gate: Sync {
    /// It is told that the worker of this number drew the row of this number, and has done nothing with it
    /// yet. The worker goes on when this returns.
    fn at(&self, worker: u32, row_no: u32);
}

/// The gate that holds nobody.
#[derive(Clone, Copy)]
pub struct NoGate;

impl Gate for NoGate {
    // Lets the worker go on at once.
    fn at(&self, _worker: u32, _row_no: u32) {}
}
