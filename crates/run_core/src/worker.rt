//! A worker as the shared state knows it: what it has drawn.
ghost use Rattle.std.specs.Prelude.{◌≡◌, ◌+◌, ◌<◌, ◌^◌, IfOk, OnOk, OnErr, replicate};
ghost use Rattle.run_core.specs.Workers.{having_drawn, idle, next_after, number_for};

use foundation::OutOfMemory;
use std::alloc::Global;
use std::marker::Model;

/// A worker: the numbers that it drew, in order, and whether it was told that none is left.
#[derive(Drop)]
pub struct Worker {
    drawn: Vec<u32>,
    ended: bool,
}

impl Model for Worker {
    ghost use Rattle.run_core.specs.Workers.{WorkerState};

    ghost Value = { WorkerState };

    ghost view = { λ w. record { drawn = w.drawn.items; ended = w.ended } };
}

impl Worker {
    /// Whether it was told that none is left. No memory.
    pub fn has_ended(&self) -> bool
        ensures { result ≡ self.now.ended }
    {
        self.ended
    }

    /// Takes the row number `next`, and answers it, where it is below `rows`, the count of rows. Else the
    /// answer is None, and None again from then on. Where memory is refused the worker is as before.
    pub fn draw(&mut self, next: u64, rows: u32) -> Result<Option<u32>, OutOfMemory>
        ensures number { IfOk result (λ number. number ≡ number_for self.old next rows) }
        ensures drawn { OnOk result (self.new ≡ having_drawn self.old (number_for self.old next rows)) }
        ensures unchanged { OnErr result (self.new ≡ self.old) }
    {
        if self.ended || next >= u64::from(rows) {
            self.ended = true;
            return Ok(None);
        }
        let number = next as u32;
        self.drawn.push(number)?;
        Ok(Some(number))
    }
}

/// A list of `count` workers that have not drawn yet.
pub fn idle_workers(alloc: Global, count: u32) -> Result<Vec<Worker>, OutOfMemory>
    ensures { IfOk result (λ workers. workers.items ≡ replicate count idle) }
{
    let mut workers = Vec::with_capacity(alloc, count as usize)?;
    for _ in 0..count {
        workers.push_reserved(Worker {
            drawn: Vec::new(alloc),
            ended: false,
        });
    }
    Ok(workers)
}
