//! Derived systems that are kept once and read by all workers without waiting. A [`Pool`] has the systems
//! of some edits that workers have made so far. Each worker has a [`Reader`], which knows what it has found
//! there. A pool and a reader are a source of systems ([`PoolSource`]). The definitions are in
//! `specs/Pools.antt` and `specs/Walks.antt`.
#![tactic(auto)]

mod entry;
mod making;
mod obtaining;
mod pool;
mod publication;
mod reader;
mod source;
mod walked_entries;

pub use pool::Pool;
pub use publication::{PublishFault, Published};
pub use reader::Reader;
pub use source::PoolSource;
