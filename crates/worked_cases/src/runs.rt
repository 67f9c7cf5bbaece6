//! Runs of the program over files in memory, with calls of the desk and printed lines that fail, and workers
//! that wait for each other, where a case asks for that.

use crate::asked::asked_line;
use crate::meeting::Meeting;
use crate::own::Own;
use crate::places::places_shown;
use case_files::{Commands, Files, Role, spelled_lines};
use edit_commands::fh_main;
use edit_desk::{Call, Failure, MemoryDesk, MemoryPrinter};
use foundation::OutOfMemory;
use page_command::page_main;
use std::alloc::{AllocError, Global};
use std::mem;
use std::sync::Wait;
use std::thread::Threads;

/// What is kept from one command to the next. `failures` are the calls of the desk that are to fail in
/// the next run. `failing_line` is the number, from 1, of the printed line that is to fail. `meeting` is how
/// many workers are to wait for each other. `calls` are the lines that tell what the last run asked of the
/// desk.
#[derive(Drop)]
pub struct Runs {
    failures: Vec<Failure>,
    failing_line: Option<u64>,
    meeting: u32,
    calls: Vec<Vec<u8>>,
}

impl Commands for Runs {
    // At the beginning of a file nothing is to fail, nobody is to meet, and there was no run.
    fn start(alloc: Global) -> Self {
        Runs {
            failures: Vec::new(alloc),
            failing_line: None,
            meeting: 0,
            calls: Vec::new(alloc),
        }
    }

    // Whether a case begins with the command of these words: it does with a run or with `words`. None where
    // they are no command of this program.
    fn role_of(words: &[&str]) -> Option<Role> {
        Some(Own::of(words)?.role())
    }

    // Does the command of these words, and gives the lines of its output. The case of no command can't
    // come, since the file was read by `role_of`; it has no output.
    fn perform<R: Threads + Wait + Sync>(
        &mut self,
        rt: &R,
        alloc: Global,
        files: &mut Files,
        words: &[&str],
    ) -> Result<Vec<Vec<u8>>, OutOfMemory> {
        match Own::of(words) {
            None => Ok(Vec::new(alloc)),
            Some(Own::FailCall { failure }) => {
                self.failures.push(failure)?;
                Ok(Vec::new(alloc))
            }
            Some(Own::FailLine { number }) => {
                self.failing_line = Some(number);
                Ok(Vec::new(alloc))
            }
            Some(Own::Meet { workers }) => {
                self.meeting = workers;
                Ok(Vec::new(alloc))
            }
            Some(Own::Run { words }) => self.run_command_line(rt, alloc, files, words),
            Some(Own::Words { words }) => words_told(alloc, words),
            Some(Own::Calls) => copy_lines(alloc, &self.calls),
            Some(Own::Places { text, name }) => places_shown(alloc, files, text, name),
        }
    }
}

impl Runs {
    // Runs the program with these words, over the files, as `forxainde WORD ..` asks: that of pages where
    // the first word is `page`. The output is what it prints and, where it is not 0, its status in
    // brackets; then `not met`, where workers were to meet and did not. The failures and the meeting that
    // were asked for are used up by it, and the calls of its desk are kept for `calls`.
    fn run_command_line<R: Threads + Wait + Sync>(
        &mut self,
        rt: &R,
        alloc: Global,
        files: &mut Files,
        words: &[&str],
    ) -> Result<Vec<Vec<u8>>, OutOfMemory> {
        let words = copy_words(alloc, words)?;
        let failures = mem::replace(&mut self.failures, Vec::new(alloc));
        let mut printer = MemoryPrinter::new(alloc, self.failing_line.take())?;
        let gate = Meeting::of(alloc, mem::replace(&mut self.meeting, 0))?;
        let mut desk = MemoryDesk::new(alloc, files.take(alloc), failures);
        let status = match words.first() {
            Some(word) if word.as_str() == "page" => {
                page_main(alloc, &words, &mut desk, &mut printer)
            }
            _ => fh_main(rt, alloc, &words, &mut desk, &mut printer, &gate),
        };
        let status = status.number();
        self.calls = call_lines(alloc, desk.calls())?;
        files.restore(desk.into_files());
        let mut lines = spelled_lines(alloc, printer.text())?;
        if status != 0 {
            lines.push(format!(in alloc; "[{status}]")?.into_bytes())?;
        }
        if !gate.is_met() {
            lines.push(format!(in alloc; "not met")?.into_bytes())?;
        }
        Ok(lines)
    }
}

// The output of the command `words`: the line that tells what its words ask for, as a file of cases
// spells it.
fn words_told(alloc: Global, words: &[&str]) -> Result<Vec<Vec<u8>>, OutOfMemory> {
    let line = asked_line(alloc, &copy_words(alloc, words)?)?;
    spelled_lines(alloc, &line)
}

// A list of the same words, each in memory of its own, as the program takes them.
fn copy_words(alloc: Global, words: &[&str]) -> Result<Vec<String>, AllocError> {
    let mut all = Vec::new(alloc);
    for word in words {
        all.push(String::from_str(alloc, word)?)?;
    }
    Ok(all)
}

// The calls of the desk as lines: `fetch` or `store`, the name, and whether the call failed, such as
// `store page failed`.
fn call_lines(alloc: Global, calls: &[Call]) -> Result<Vec<Vec<u8>>, OutOfMemory> {
    let mut lines = Vec::new(alloc);
    for call in calls {
        let what = if call.store { "store" } else { "fetch" };
        let end = if call.failed { " failed" } else { "" };
        let name = &call.name;
        lines.push(format!(in alloc; "{what} {name}{end}")?.into_bytes())?;
    }
    Ok(lines)
}

// A copy of these lines, as the output of `calls`: the lines themselves stay for the next such command.
fn copy_lines(alloc: Global, lines: &[Vec<u8>]) -> Result<Vec<Vec<u8>>, OutOfMemory> {
    let mut all = Vec::new(alloc);
    for line in lines {
        all.push(line.to_vec(alloc)?)?;
    }
    Ok(all)
}
