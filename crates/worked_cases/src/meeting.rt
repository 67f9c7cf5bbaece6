//! The gate at which the workers of a run wait for each other, which shows that they work at once.

use record_workers::Gate;
use std::alloc::{AllocError, Global};
use std::sync::atomic::{AtomicU64, Ordering};
use std::thread;

/// How often a worker looks for the others before it goes on without them: for some seconds.
const TURNS: u32 = 10_000_000;

/// A gate at which workers wait, with the record that they drew, until each worker of the numbers 0, 1, and so
/// on has drawn one, as many as there are places. A place is 1 once its worker came, and 0 before. `missed` is 1
/// once a worker went on without the others; from then on nobody waits.
#[derive(Drop)]
pub struct Meeting {
    places: Vec<AtomicU64>,
    missed: AtomicU64,
}

impl Meeting {
    /// The gate at which so many workers meet. None of them has come yet.
    pub fn of(alloc: Global, workers: u32) -> Result<Meeting, AllocError> {
        let mut places = Vec::new(alloc);
        for _ in 0..workers {
            places.push(AtomicU64::new(0))?;
        }
        Ok(Meeting {
            places,
            missed: AtomicU64::new(0),
        })
    }

    /// Whether all workers came before any of them went on. So it is where nobody has to come.
    pub fn is_met(&self) -> bool {
        self.have_come() && !self.is_missed()
    }

    // Whether a worker went on without the others.
    fn is_missed(&self) -> bool {
        self.missed.load(Ordering::SeqCst) == 1
    }

    // Whether each worker has come.
    fn have_come(&self) -> bool {
        self.places
            .iter()
            .all(|place| place.load(Ordering::SeqCst) == 1)
    }

    // Notes that the worker came. One that has no place is not waited for.
    fn note(&self, worker: u32) {
        if let Some(place) = self.places.get(worker as usize) {
            place.store(1, Ordering::SeqCst);
        }
    }

    // Waits until all workers have come or one has gone on without them, and tells whether it did before it
    // looked too often.
    fn waits(&self) -> bool {
        for _ in 0..TURNS {
            if self.have_come() || self.is_missed() {
                return true;
            }
            thread::yield_now();
        }
        false
    }
}

impl Gate for Meeting {
    // Keeps the worker until all have come, or until one has looked for them too often.
    fn at(&self, worker: u32, _row_no: u32) {
        self.note(worker);
        if !self.waits() {
            self.missed.store(1, Ordering::SeqCst);
        }
    }
}
