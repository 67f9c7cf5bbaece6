//! The words that the system hands to a program, without the program's name.
ghost use Rattle.std.specs.Prelude.{◌≡◌, ◌≢◌, ◌↔◌, IfOk, IsErrAnd, IsOkAnd, drop};
ghost use Rattle.std.specs.IoError.{error_kind};
ghost use Rattle.std.specs.Vec.Iter.{into_iter_items};

use std::alloc::{AllocError, Global};
use std::env::Args;
use std::io::{self, ErrorKind};

/// Why there are no words.
#[derive(Clone, Copy)]
pub enum WordsFault {
    /// One of them is no text.
    NotText,
    /// Memory was refused.
    OutOfMemory,
}

impl From<AllocError> for WordsFault {
    ghost use Rattle.std.specs.Prelude.{◌≡◌};
    ghost use Rattle.edit_desk.specs.declared.words.WordsFault.TheVariants as faults;

    ghost from_gives = { λ _ fault. fault ≡ faults.OutOfMemory };

    // Refused memory becomes the fault `OutOfMemory`, so that `?` passes it on.
    fn from(_refused: AllocError) -> Self {
        WordsFault::OutOfMemory
    }
}

/// The words with which a program was called, without the first one, which is the program's name. `read` is
/// the answer of `std::env::args`. `NotText` exactly where that is an error other than want of memory. No
/// contract says which words the runtime hands to the program.
pub fn words_of(alloc: Global, read: io::Result<Args>) -> Result<Vec<String>, WordsFault>
    ensures words { IfOk result (λ words. IsOkAnd read (λ all. words.items ≡ drop 1 (into_iter_items all))) }
    ensures not_text { result ≡ Err WordsFault.NotText ↔ IsErrAnd read (λ error. error_kind error ≢ ErrorKind.OutOfMemory) }
{
    match read {
        Ok(all) => Ok(all.skip(1).collect(alloc)?),
        Err(error) if error.kind() == ErrorKind::OutOfMemory => Err(WordsFault::OutOfMemory),
        Err(_) => Err(WordsFault::NotText),
    }
}
