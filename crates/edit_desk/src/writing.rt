//! Bytes that are written as a whole, to a file or to standard output. In contracts, `Appends` says that
//! bytes were written behind what stood before.
ghost use Rattle.std.specs.Prelude.{◌≡◌, ℕ, OnOk, take};
ghost use Rattle.std.specs.Io.KnownBytes.{Appends};

use crate::calls::StoreError;
use crate::printer::PrintFailed;
use std::io::{ErrorKind, Write};

/// A writer did not take all the bytes; it may have taken some first ones.
#[derive(Clone, Copy)]
pub struct NotWritten;

impl From<NotWritten> for StoreError {
    ghost use Rattle.edit_desk.specs.declared.calls.StoreError.TheVariants as store;

    ghost from_gives = { λ _ error. error ≡ store.Failed };

    // Lets `?` turn bytes that were not all written into a store that failed.
    fn from(_cause: NotWritten) -> Self {
        StoreError::Failed
    }
}

impl From<NotWritten> for PrintFailed {
    // Lets `?` turn bytes that were not all written into a line that failed.
    fn from(_cause: NotWritten) -> Self {
        PrintFailed
    }
}

/// Writes all the bytes, by as many writes as the writer needs. An interrupted write is tried again. It
/// fails on any other fault, and where the writer takes nothing, since it might never take more. Then some
/// first bytes may be written. A file and a line of standard output are written by it.
pub fn write_whole<W: Write>(to: &mut W, bytes: &[u8]) -> Result<(), NotWritten>
    ensures whole { OnOk result (Appends (W.contents to.old) (W.contents to.new) bytes.now) }
    ensures part { (kept : ℕ) × Appends (W.contents to.old) (W.contents to.new) (take kept bytes.now) }
{
    let mut rest = bytes;
    for _ in 0..u64::MAX {
        if rest.is_empty() {
            return Ok(());
        }
        match to.write(rest) {
            Ok(0) => break,
            Ok(count) => rest = &rest[count..],
            Err(error) if error.kind() == ErrorKind::Interrupted => {}
            Err(_) => break,
        }
    }
    Err(NotWritten)
}
