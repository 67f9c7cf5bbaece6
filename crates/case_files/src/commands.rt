//! What a program of cases brings along: its own commands, beside those of files, which are the same for
//! all programs.
ghost use Rattle.std.specs.Thread.{IsSync};

use crate::files::Files;
use foundation::OutOfMemory;
use std::alloc::Global;
use std::sync::Wait;
use std::thread::Threads;

/// What a command of a program's own is among the commands of a file: whether a case begins with it.
#[derive(Clone, Copy)]
pub enum Role {
    /// A case begins with it.
    Begins,
    /// It stands in the case that was begun.
    Follows,
}

/// The commands that a program has beside those of files, and what it keeps from one to the next.
pub trait Commands: Drop {
    /// What is kept before the first command of a file of cases.
    fn start(alloc: Global) -> Self;

    /// What a command of these words is: whether a case begins with it. None where the program has no such
    /// command. It is asked as a file of cases is read, before any command is done.
    fn role_of(words: &[&str]) -> Option<Role>;

    /// Does the command of these words, and gives the lines of its output, as they are spelled. A
    /// command that fails says so in these; `Err` is for want of memory alone. `rt` gives threads to a
    /// command that runs some.
    fn perform<R: Threads + Wait + Sync>(
        &mut self,
        rt: &R,
        alloc: Global,
        files: &mut Files,
        words: &[&str],
    ) -> Result<Vec<Vec<u8>>, OutOfMemory>
        requires sync { IsSync R.row };
}
