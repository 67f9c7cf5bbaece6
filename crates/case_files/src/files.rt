//! Files in memory, and the commands that make, show and change them. Each command answers the lines of
//! its output, as a file of cases spells them. One that fails says so in these; `Err` is for want of
//! memory alone.

use crate::line_edits::{LineEdit, change_lines, line_count};
use crate::spelling::spelled_lines;
use foundation::OutOfMemory;
use std::alloc::Global;
use std::collections::BTreeMap;
use std::mem;

/// Files in memory, by their names.
#[derive(Drop)]
pub struct Files {
    named: BTreeMap<String, Vec<u8>>,
}

impl Files {
    /// No files.
    pub fn new(alloc: Global) -> Files {
        Files {
            named: BTreeMap::new(alloc),
        }
    }

    /// The bytes of the file of this name, and None where there is none.
    pub fn bytes(&self, name: &str) -> Option<&[u8]> {
        match self.named.get(name) {
            Some(bytes) => Some(bytes.as_slice()),
            None => None,
        }
    }

    /// Takes all files out, and leaves none, so that a desk may have them during a run.
    pub fn take(&mut self, alloc: Global) -> BTreeMap<String, Vec<u8>> {
        mem::replace(&mut self.named, BTreeMap::new(alloc))
    }

    /// Puts files back after a run: these, and no others, are there from now on.
    pub fn restore(&mut self, named: BTreeMap<String, Vec<u8>>) {
        self.named = named;
    }

    /// Puts the bytes into the file of this name, in the place of what stood there. The output has no
    /// lines.
    pub(crate) fn write(
        &mut self,
        alloc: Global,
        name: &str,
        bytes: Vec<u8>,
    ) -> Result<Vec<Vec<u8>>, OutOfMemory> {
        self.named.insert(String::from_str(alloc, name)?, bytes)?;
        Ok(Vec::new(alloc))
    }

    /// The command `cat NAME`: the lines of the file, as they are spelled. The output says so where there
    /// is no such file.
    pub(crate) fn show(&self, alloc: Global, name: &str) -> Result<Vec<Vec<u8>>, OutOfMemory> {
        match self.bytes(name) {
            Some(bytes) => spelled_lines(alloc, bytes),
            None => no_such_file(alloc, "cat", name),
        }
    }

    /// The command `cp OLD NEW`: puts the bytes of the file `old` under the name `new`. The output has no
    /// lines, or says that there is no file `old`.
    pub(crate) fn copy(
        &mut self,
        alloc: Global,
        old: &str,
        new: &str,
    ) -> Result<Vec<Vec<u8>>, OutOfMemory> {
        let bytes = match self.bytes(old) {
            Some(bytes) => bytes.to_vec(alloc)?,
            None => return no_such_file(alloc, "cp", old),
        };
        self.write(alloc, new, bytes)
    }

    /// The command `rm NAME ..`: takes these files away, in order. The first that is not there ends the
    /// command, and the output says so; those before it are gone.
    pub(crate) fn remove(
        &mut self,
        alloc: Global,
        names: &[&str],
    ) -> Result<Vec<Vec<u8>>, OutOfMemory> {
        for name in names {
            if self.named.remove(*name).is_none() {
                return no_such_file(alloc, "rm", name);
            }
        }
        Ok(Vec::new(alloc))
    }

    /// The command `ls`: the names of all files, one a line, in the order of their bytes.
    pub(crate) fn list(&self, alloc: Global) -> Result<Vec<Vec<u8>>, OutOfMemory> {
        let mut names = Vec::new(alloc);
        for name in self.named.keys() {
            names.push(name.as_bytes().to_vec(alloc)?)?;
        }
        Ok(names)
    }

    /// The command `sed -i -e SCRIPT .. NAME`: changes lines of a file. The output has no lines, or says
    /// that there is no such file, or which line it doesn't have; then nothing is changed.
    pub(crate) fn change(
        &mut self,
        alloc: Global,
        edits: &[LineEdit],
        name: &str,
    ) -> Result<Vec<Vec<u8>>, OutOfMemory> {
        let Some(bytes) = self.bytes(name) else {
            return no_such_file(alloc, "sed", name);
        };
        let count = line_count(bytes);
        if let Some(edit) = edits.iter().find(|edit| edit.line() > count) {
            let line = edit.line();
            let text = format!(in alloc; "sed: {name}: no line {line}")?;
            return failure_lines(alloc, text, 1);
        }
        let bytes = change_lines(alloc, bytes, edits)?;
        self.write(alloc, name, bytes)
    }
}

/// The bytes of `count` lines, each this text with a line feed, which the command `yes` puts into a file.
pub(crate) fn equal_lines(alloc: Global, text: &str, count: u64) -> Result<Vec<u8>, OutOfMemory> {
    let mut bytes = Vec::new(alloc);
    for _ in 0..count {
        bytes.extend_from_slice(text.as_bytes())?;
        bytes.push(b'\n')?;
    }
    Ok(bytes)
}

/// The output of a command that finds no file of this name: `COMMAND: NAME: no such file`, and the status
/// 1.
pub fn no_such_file(alloc: Global, command: &str, name: &str) -> Result<Vec<Vec<u8>>, OutOfMemory> {
    let text = format!(in alloc; "{command}: {name}: no such file")?;
    failure_lines(alloc, text, 1)
}

/// The output of a command that fails: two lines, the text, and the status in square brackets, as `[1]`.
pub fn failure_lines(alloc: Global, text: String, status: u8) -> Result<Vec<Vec<u8>>, OutOfMemory> {
    let mut lines = Vec::new(alloc);
    lines.push(text.into_bytes())?;
    lines.push(format!(in alloc; "[{status}]")?.into_bytes())?;
    Ok(lines)
}
