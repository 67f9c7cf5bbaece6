//! The words that the system hands to a program, without the program's name; both programs begin with
//! them.
ghost use Rattle.std.specs.Prelude.{◌≡◌, ◌≢◌, ◌↔◌, ◌⊎◌, IfErr, IfOk, IsErrAnd, IsOkAnd, drop};
ghost use Rattle.std.specs.IoError.{error_kind};
ghost use Rattle.std.specs.Vec.Iter.{into_iter_items};

use crate::status::Status;
use edit_desk::{WordsFault, words_of};
use std::alloc::Global;
use std::env::Args;
use std::io::{self, ErrorKind};

/// The words after the program's name. `read` is the answer of `std::env::args`. Where there are no words, the
/// run ends with the status that is answered. It is `Usage` exactly where that is an error other than want of
/// memory, and else `OutOfMemory`.
pub fn words_after_program_name(
    alloc: Global,
    read: io::Result<Args>,
) -> Result<Vec<String>, Status>
    ensures words { IfOk result (λ words. IsOkAnd read (λ all. words.items ≡ drop 1 (into_iter_items all))) }
    ensures usage { result ≡ Err Status.Usage ↔ IsErrAnd read (λ error. error_kind error ≢ ErrorKind.OutOfMemory) }
    ensures status { IfErr result (λ status. (status ≡ Status.Usage) ⊎ (status ≡ Status.OutOfMemory)) }
{
    match words_of(alloc, read) {
        Ok(words) => Ok(words),
        Err(WordsFault::NotText) => Err(Status::Usage),
        Err(WordsFault::OutOfMemory) => Err(Status::OutOfMemory),
    }
}
