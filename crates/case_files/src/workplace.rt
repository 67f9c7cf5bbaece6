//! Where the commands of a file of cases are done: files in memory, which stay from command to command.
//! Each file of cases begins with a workplace of its own.

use crate::command::Command;
use crate::commands::Commands;
use crate::files::{Files, equal_lines};
use foundation::OutOfMemory;
use std::alloc::Global;
use std::sync::Wait;
use std::thread::Threads;

/// Files in memory, and what the program's own commands keep from one to the next.
#[derive(Drop)]
pub struct Workplace<C: Commands> {
    files: Files,
    own: C,
}

impl<C: Commands> Workplace<C> {
    /// A workplace with no files, at the beginning of a file of cases.
    pub fn new(alloc: Global) -> Workplace<C> {
        Workplace {
            files: Files::new(alloc),
            own: C::start(alloc),
        }
    }

    /// Does a command, and gives the lines of its output, as a file of cases spells them. A command that
    /// fails says so in its output; the answer is `Err` for want of memory alone. `rt` gives threads to
    /// a command of the program's own.
    pub fn perform<R: Threads + Wait + Sync>(
        &mut self,
        rt: &R,
        alloc: Global,
        command: &Command,
    ) -> Result<Vec<Vec<u8>>, OutOfMemory> {
        match command {
            Command::Write { name, bytes } => self.files.write(alloc, name, bytes.to_vec(alloc)?),
            Command::Repeat { text, count, name } => {
                let bytes = equal_lines(alloc, text, *count)?;
                self.files.write(alloc, name, bytes)
            }
            Command::Show { name } => self.files.show(alloc, name),
            Command::Copy { old, new } => self.files.copy(alloc, old, new),
            Command::Remove { names } => self.files.remove(alloc, names),
            Command::List => self.files.list(alloc),
            Command::Change { edits, name } => self.files.change(alloc, edits, name),
            Command::Own { words, .. } => self.own.perform(rt, alloc, &mut self.files, words),
        }
    }
}
