//! The commands of a file of cases: what their words mean, before any of them is done.

use crate::commands::{Commands, Role};
use crate::fault::{Kind, PartFault};
use crate::line_edits::LineEdit;
use crate::numbers::number_of;
use std::alloc::Global;

/// A command of a file of cases.
#[derive(Drop)]
pub enum Command<'a> {
    /// `cat >NAME <<EOF`: the file has the bytes that the lines behind the command spell.
    Write {
        name: &'a str,
        bytes: Vec<u8>,
    },
    /// `yes TEXT | head -n N >NAME`: the file has N lines, each TEXT.
    Repeat {
        text: &'a str,
        count: u64,
        name: &'a str,
    },
    /// `cat NAME`: shows the file.
    Show {
        name: &'a str,
    },
    /// `cp OLD NEW`: the second file has the bytes of the first.
    Copy {
        old: &'a str,
        new: &'a str,
    },
    /// `rm NAME ..`: the files are gone.
    Remove {
        names: Vec<&'a str>,
    },
    /// `ls`: shows the names of all files.
    List,
    /// `sed -i -e SCRIPT .. NAME`: lines of the file are changed.
    Change {
        edits: Vec<LineEdit>,
        name: &'a str,
    },
    /// A command of the program's own.
    Own {
        words: Vec<&'a str>,
        role: Role,
    },
}

impl<'a> Command<'a> {
    /// The command that these words spell: one of those of files, and else one of `C`'s. The file of a
    /// `Write` has no bytes yet: they stand in the lines behind the command. `Kind::Command` where no
    /// command has these words, and `Kind::Spelling` where a text of `sed` is out of form.
    pub fn of<C: Commands>(alloc: Global, words: &[&'a str]) -> Result<Command<'a>, PartFault> {
        match words {
            ["cat", name, "<<EOF"] => match name.strip_prefix('>') {
                Some(name) => Ok(Command::Write {
                    name,
                    bytes: Vec::new(alloc),
                }),
                None => Err(PartFault::from(Kind::Command)),
            },
            ["yes", text, "|", "head", "-n", count, name] => repeat_command(text, count, name),
            ["cat", name] => Ok(Command::Show { name: *name }),
            ["cp", old, new] => Ok(Command::Copy {
                old: *old,
                new: *new,
            }),
            ["rm", names @ ..] => Ok(Command::Remove {
                names: names.to_vec(alloc)?,
            }),
            ["ls"] => Ok(Command::List),
            ["sed", "-i", scripts @ .., name] => Ok(Command::Change {
                edits: edits_of(alloc, scripts)?,
                name: *name,
            }),
            _ => own_command::<C>(alloc, words),
        }
    }

    /// Whether a case begins with the command, as one of the program's own may say. Commands of files never
    /// begin one.
    pub fn begins_case(&self) -> bool {
        matches!(
            self,
            Command::Own {
                role: Role::Begins,
                ..
            }
        )
    }
}

// The command of the program's own that these words spell, as `C` knows them. `Kind::Command` where it
// has no such command.
fn own_command<'a, C: Commands>(
    alloc: Global,
    words: &[&'a str],
) -> Result<Command<'a>, PartFault> {
    match C::role_of(words) {
        Some(role) => Ok(Command::Own {
            words: words.to_vec(alloc)?,
            role,
        }),
        None => Err(PartFault::from(Kind::Command)),
    }
}

// The command `yes TEXT | head -n N >NAME`, which writes a file of `count` lines, each this text. `name`
// is the word for the file, with the `>` in front. `Kind::Command` where `count` is no number or `name`
// has no `>`.
fn repeat_command<'a>(text: &'a str, count: &str, name: &'a str) -> Result<Command<'a>, PartFault> {
    match (number_of(count), name.strip_prefix('>')) {
        (Some(count), Some(name)) => Ok(Command::Repeat { text, count, name }),
        _ => Err(PartFault::from(Kind::Command)),
    }
}

// The changes of lines that the words of a `sed` ask for: `-e` and a script, any number of times, in
// order. `Kind::Command` where that is not so, or a script has another form, and `Kind::Spelling` where
// its text is out of form.
fn edits_of(alloc: Global, words: &[&str]) -> Result<Vec<LineEdit>, PartFault> {
    let mut edits = Vec::new(alloc);
    for pair in words.chunks(2) {
        match pair {
            ["-e", script] => edits.push(LineEdit::read(alloc, script)?)?,
            _ => return Err(PartFault::from(Kind::Command)),
        }
    }
    Ok(edits)
}
