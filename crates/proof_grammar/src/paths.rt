//! The word of a path: a letter for each of the first fields in path order.
ghost use Rattle.std.specs.Prelude.{◌≡◌, Some, map};
ghost use Rattle.std.specs.List.{list_all};
ghost use Rattle.proof_grammar.specs.Words.{ReadsAs, is_changed, is_path_letter, path_said};

use crate::words::Stop;
use bound_cert::Path;
use std::alloc::Global;

/// The path that the word spells: `-` is the path of no fields, and else K is a kept field and C a changed
/// one. `Form` where the word is no path, such as an empty one.
pub fn read_path(alloc: Global, word: &[u8]) -> Result<Path, Stop>
    ensures { ReadsAs result (path_said word.now) }
{
    if word.is_empty() {
        return Err(Stop::Form);
    }
    if word == b"-".as_slice() {
        return Ok(Path::new(Vec::new(alloc)));
    }
    if !are_letters(word) {
        return Err(Stop::Form);
    }
    read_letters(alloc, word)
}

// Whether each byte is K or C.
fn are_letters(word: &[u8]) -> bool
    ensures { result ≡ list_all is_path_letter word.now }
{
    word.iter().all(|b| *b == b'K' || *b == b'C')
}

// The path of these letters: C is a changed field, and any other byte a kept one. The caller has seen that
// each is K or C, so `Form` is never answered here.
fn read_letters(alloc: Global, word: &[u8]) -> Result<Path, Stop>
    ensures { ReadsAs result (Some (map is_changed word.now)) }
{
    let Ok(mut letters) = Vec::with_capacity(alloc, word.len()) else {
        return Err(Stop::OutOfMemory);
    };
    for letter in word {
        let Ok(()) = letters.push(*letter == b'C') else {
            return Err(Stop::OutOfMemory);
        };
    }
    Ok(Path::new(letters))
}
