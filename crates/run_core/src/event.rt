//! The steps of workers, as events, and what they are answered.
use donor_book::Claim;
use foundation::Sequence;
use linear_elim::System;

/// One step of one worker. Workers, rows and donors are numbered from 0.
#[derive(Drop)]
pub enum CoreEvent {
    /// The worker draws the number of a row.
    Draw {
        /// The worker.
        worker: u32,
    },
    /// The worker publishes a derived system.
    Publish {
        /// The worker.
        worker: u32,
        /// The system that it derived.
        system: System,
    },
    /// The worker claims a donor for a row.
    Claim {
        /// The worker.
        worker: u32,
        /// The row that claims.
        row_no: u32,
        /// The donors that the row ranks, the nearest first.
        ranking: Sequence<u32>,
    },
}

/// What an event is answered.
#[derive(Clone, Copy, Debug, PartialEq, Eq)]
pub enum CoreReply {
    /// The number that was drawn, or None where none is left.
    Drew(Option<u32>),
    /// The place of the system in the list of those that were published, from 0.
    Published(u32),
    /// What the claim was answered.
    Claimed(Claim),
}
