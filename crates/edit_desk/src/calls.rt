//! Desks: what files are fetched from and stored to. A command is written over any of them, be it the
//! system's files or files in memory.
//!
//! A desk tells contracts its files and its calls, as one in memory does, or it tells neither, as that of
//! the system. `Told` says of the values before and after a call: both are told and stand in the relation,
//! or neither is told. `Fetches` says what a fetch may answer of such files, and `Stores` what a store may
//! leave. `fetch_record` and `store_record` are what a call puts on record: itself, or nothing for want of
//! memory. `after_fetch` and `after_store` are the count of faults, one more where the call failed.
//! `TakesOneMore` says that a file that is too long is told with one more than the limit.
ghost use Rattle.std.specs.Prelude.{◌≡◌, ◌≤◌, ◌++◌, ℕ, List, Option, IfErr, IfOk, IfSome, IsErrOf, length};
ghost use Rattle.edit_desk.specs.Desk.{Files, Asked, Fetches, Stores, Told, TakesOneMore, after_fetch, after_store, fetch_record};
ghost use Rattle.edit_desk.specs.Desk.{store_record};
ghost use Rattle.edit_desk.specs.declared.calls.FetchError.TheVariants as fetch;
ghost use Rattle.edit_desk.specs.declared.calls.StoreError.TheVariants as store;

use foundation::OutOfMemory;
use std::alloc::{AllocError, Global};

/// Why a fetch gave no bytes.
#[derive(Clone, Copy, Debug)]
pub enum FetchError {
    /// The file is not there, or could not be read.
    Failed,
    /// The file has more bytes than the limit; `taken` is one more than the limit.
    TooLong { taken: u64 },
    /// Memory was refused, and the call is not on record.
    OutOfMemory,
}

/// Why a store did not put all the bytes.
#[derive(Clone, Copy, Debug)]
pub enum StoreError {
    /// The file could not be written. Some first bytes of it may stand there.
    Failed,
    /// Memory was refused. Nothing has changed, and the call is not on record.
    OutOfMemory,
}

impl From<AllocError> for FetchError {
    ghost from_gives = { λ _ error. error ≡ fetch.OutOfMemory };

    // Refused memory becomes the fault `OutOfMemory`, so that `?` passes it on.
    fn from(_refused: AllocError) -> Self {
        FetchError::OutOfMemory
    }
}

impl From<AllocError> for StoreError {
    ghost from_gives = { λ _ error. error ≡ store.OutOfMemory };

    // Refused memory becomes the fault `OutOfMemory`, so that `?` passes it on.
    fn from(_refused: AllocError) -> Self {
        StoreError::OutOfMemory
    }
}

impl From<OutOfMemory> for StoreError {
    ghost from_gives = { λ _ error. error ≡ store.OutOfMemory };

    // Refused memory becomes the fault `OutOfMemory`, so that `?` passes it on.
    fn from(_refused: OutOfMemory) -> Self {
        StoreError::OutOfMemory
    }
}

/// A place that files come from and go to, each under a name.
pub trait Desk {
    /// What stands under each name, where the desk tells it.
    ghost files: { Self → Option Files };

    /// The calls on record, the oldest first, where the desk tells them.
    ghost calls: { Self → Option (List Asked) };

    /// How many calls failed. The count stands still at 2^64 - 1.
    ghost faults: { Self → ℕ };

    /// The bytes of the file of this `name`, which has at most `limit` of them. `TooLong` where it has
    /// more, `Failed` where it is not there or can't be read, `OutOfMemory` where memory was refused. No
    /// file is changed. The call is put on record, unless memory was refused.
    fn fetch(&mut self, alloc: Global, name: &str, limit: u64) -> Result<Vec<u8>, FetchError>
        ensures files { files self.new ≡ files self.old }
        ensures within { IfOk result (λ bytes. length bytes.items ≤ limit) }
        ensures taken { IfErr result (TakesOneMore limit) }
        ensures bytes { IfSome (files self.old) (λ told. Fetches told name.now limit result) }
        ensures calls { Told (calls self.old) (calls self.new) (λ old new. new ≡ old ++ fetch_record name.now result) }
        ensures faults { faults self.new ≡ after_fetch result (faults self.old) };

    /// Puts the bytes under `name`, in the place of what stood there. Where it is `Failed`, some first
    /// bytes may stand there. Where it is `OutOfMemory`, no file is changed. The call is put on record,
    /// unless memory was refused.
    fn store(&mut self, alloc: Global, name: &str, bytes: &[u8]) -> Result<(), StoreError>
        ensures files { Told (files self.old) (files self.new) (λ old new. Stores old new name.now bytes.now result) }
        ensures calls { Told (calls self.old) (calls self.new) (λ old new. new ≡ old ++ store_record name.now result) }
        ensures faults { faults self.new ≡ after_store result (faults self.old) };
}
