//! The desk over the files of the system, which the program has. In contracts, `TakesOneMore` says that a
//! file that is too long is told with one more than the limit. `ReadsWhole` says that all bytes that were
//! left to read come back, or that they are more than the limit.
ghost use Rattle.std.specs.Prelude.{◌≡◌, ◌≤◌, ◌<◌, None, IfErr, IfOk, IfSome, length, vec_len};
ghost use Rattle.edit_desk.specs.Desk.{TakesOneMore};
ghost use Rattle.edit_desk.specs.inner.Reads.{ReadsWhole};

use crate::calls::{Desk, FetchError, StoreError};
use crate::count::raise_count;
use crate::writing::write_whole;
use std::alloc::{AllocError, Global};
use std::fs;
use std::io::{ErrorKind, Read};
use std::marker::Model;
use std::rt::Files;

/// How many bytes a fetch asks of a file at a time.
const CHUNK: usize = 65_536;

/// The files of the system, under their paths. What they hold is not told, so of their bytes nothing is
/// claimed. Contracts see the count of faults alone: how many calls failed.
#[derive(Drop)]
pub struct FileDesk<R: Files + Drop> {
    rt: R,
    faults: u64,
}

impl<R: Files + Drop> Model for FileDesk<R> {
    ghost use Rattle.std.specs.Prelude.{ℕ};

    ghost Value = { ℕ };

    ghost view = { λ d. d.faults };
}

impl<R: Files + Drop> FileDesk<R> {
    /// A desk over the system's files, which has met no fault.
    pub fn new(rt: R) -> Self
        ensures { result ≡ 0 }
    {
        FileDesk { rt, faults: 0 }
    }
}

impl<R: Files + Drop> Desk for FileDesk<R> {
    ghost files = { λ _. None };

    ghost calls = { λ _. None };

    ghost faults = { λ d. d };

    // Reads the file of this name, which is its path, and counts a fault where it can't be opened or read.
    // A file that is too long is no fault, and neither is refused memory.
    fn fetch(&mut self, alloc: Global, name: &str, limit: u64) -> Result<Vec<u8>, FetchError> {
        let answer = read_file(&self.rt, alloc, name, limit);
        if let Err(FetchError::Failed) = answer {
            raise_count(&mut self.faults);
        }
        answer
    }

    // Writes the file of this name, which is its path, and counts a fault where that failed.
    fn store(&mut self, _alloc: Global, name: &str, bytes: &[u8]) -> Result<(), StoreError> {
        let answer = write_file(&self.rt, name, bytes);
        if let Err(StoreError::Failed) = answer {
            raise_count(&mut self.faults);
        }
        answer
    }
}

// The bytes of the file `name`, which has at most `limit` of them. `Failed` where it can't be opened or
// read, `TooLong` where it has more, `OutOfMemory` where memory was refused.
fn read_file<R: Files>(rt: &R, alloc: Global, name: &str, limit: u64) -> Result<Vec<u8>, FetchError>
    ensures within { IfOk result (λ bytes. length bytes.items ≤ limit) }
    ensures taken { IfErr result (TakesOneMore limit) }
{
    match fs::open(rt, name) {
        Ok(mut file) => {
            let mut chunk = zeros(alloc, CHUNK)?;
            read_within(alloc, &mut file, &mut chunk, limit)
        }
        Err(_) => Err(FetchError::Failed),
    }
}

// Puts the bytes into the file `name`, in the place of what it held; a file that is not there is made.
// `Failed` where it can't be opened or a write fails; then some first bytes may stand there.
fn write_file<R: Files>(rt: &R, name: &str, bytes: &[u8]) -> Result<(), StoreError> {
    match fs::create(rt, name) {
        Ok(mut file) => Ok(write_whole(&mut file, bytes)?),
        Err(_) => Err(StoreError::Failed),
    }
}

// A buffer of `len` bytes, each of them 0, into which a file is read piece by piece.
fn zeros(alloc: Global, len: usize) -> Result<Vec<u8>, AllocError>
    ensures { IfOk result (λ buffer. vec_len buffer ≡ len) }
{
    vec![in alloc; 0; len]
}

// The bytes of `file` to its end, read piece by piece into `chunk`, which is not empty. Each read asks for
// at most one byte more than the limit leaves, so the first byte past the limit is seen. `TooLong` where
// there are more than `limit` bytes. An interrupted read is tried again; any other fault is `Failed`, and
// so are 2^64 - 1 reads without an end.
fn read_within<F: Read>(
    alloc: Global,
    file: &mut F,
    chunk: &mut [u8],
    limit: u64,
) -> Result<Vec<u8>, FetchError>
    requires { 0 < length chunk.old }
    ensures within { IfOk result (λ bytes. length bytes.items ≤ limit) }
    ensures taken { IfErr result (TakesOneMore limit) }
    ensures bytes { IfSome (F.remaining file.old) (λ left. ReadsWhole left limit result) }
{
    let mut bytes = Vec::new(alloc);
    for _ in 0..u64::MAX {
        let room = limit.saturating_sub(bytes.len() as u64);
        let asked = room.saturating_add(1).min(chunk.len() as u64) as usize;
        match file.read(&mut chunk[..asked]) {
            Ok(0) => return Ok(bytes),
            Ok(count) if count as u64 > room => {
                return Err(FetchError::TooLong {
                    taken: limit.saturating_add(1),
                });
            }
            Ok(count) => bytes.extend_from_slice(&chunk[..count])?,
            Err(error) if error.kind() == ErrorKind::Interrupted => {}
            Err(_) => break,
        }
    }
    Err(FetchError::Failed)
}

#[cfg(test)]
mod tests {
    use super::*;
    use std::test::Fail;
    use std::{env, process};

    // Five bytes are stored in a new folder of the system, and fetched with 5 as the limit.
    #[test]
    fn five_bytes_come_back(rt: HostRuntime) -> Result<(), Fail> {
        let alloc = rt.alloc();
        let name = format!(in alloc; "edit-desk-{}", process::id(rt.process()))?;
        let folder = env::temp_dir(&rt)?.join(alloc, name.as_str())?;
        let file = folder.join(alloc, "five")?;
        fs::create_dir(&rt, folder.as_path())?;
        let mut desk = FileDesk::new(rt.clone()?);
        let stored = desk.store(alloc, file.as_str(), b"12345");
        let fetched = desk.fetch(alloc, file.as_str(), 5);
        fs::remove_dir_all(&rt, folder.as_path())?;
        stored?;
        assert_eq!(rt; fetched?.as_slice(), b"12345".as_slice());
        Ok(())
    }
}
