//! What became of a system that a reader was to publish.
use linear_elim::{Held, System};
use std::sync::Arc;

/// What became of a system that was to be published.
#[derive(Drop)]
pub enum Published {
    /// It is stored for all readers.
    Stored(Arc<System>),
    /// The reader has walked too much for one more, and the system comes back.
    Full(System),
}

/// Why a system was not published, with the system itself.
#[derive(Drop)]
pub enum PublishFault {
    /// Memory was refused, and the system comes back.
    OutOfMemory(Held),
}
