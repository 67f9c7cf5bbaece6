//! The commands of `worked_cases`, beside those of files: runs of the program, what its words ask for,
//! what is to fail, which workers meet, and where a text stands in a file.

use case_files::{Role, number_of};
use edit_desk::Failure;

/// A command of `worked_cases`, as its words spell it.
#[derive(Clone, Copy)]
pub enum Own<'a> {
    /// `forxainde WORD ..`: the program is run.
    Run { words: &'a [&'a str] },
    /// `words WORD ..`: shows what the words ask for.
    Words { words: &'a [&'a str] },
    /// `fail call N keep K`: in the next run the N-th call of the desk fails, from 1. If it is a store,
    /// the file has the first K bytes all the same.
    FailCall { failure: Failure },
    /// `fail line N`: in the next run the N-th printed line fails, from 1.
    FailLine { number: u64 },
    /// `meet N`: in the next run N workers wait for each other, each with a record that it drew.
    Meet { workers: u32 },
    /// `calls`: shows the calls of the desk in the last run.
    Calls,
    /// `grep -oF TEXT NAME`: shows at how many places of the file the text stands.
    Places { text: &'a str, name: &'a str },
}

impl<'a> Own<'a> {
    /// The command that these words spell. None where there is no such command, or a number in it is not in
    /// form.
    pub fn of(words: &'a [&'a str]) -> Option<Own<'a>> {
        match words {
            ["forxainde", words @ ..] => Some(Own::Run { words }),
            ["words", words @ ..] => Some(Own::Words { words }),
            ["fail", "call", call, "keep", keep] => Some(Own::FailCall {
                failure: Failure {
                    call: number_of(call)?,
                    keep: number_of(keep)?,
                },
            }),
            ["fail", "line", number] => Some(Own::FailLine {
                number: number_of(number)?,
            }),
            ["meet", workers] => Some(Own::Meet {
                workers: u32::try_from(number_of(workers)?).ok()?,
            }),
            ["calls"] => Some(Own::Calls),
            ["grep", "-oF", text, name] => Some(Own::Places {
                text: *text,
                name: *name,
            }),
            _ => None,
        }
    }

    /// What the command is among those of a file of cases: a case begins with a run, or with `words`. The
    /// others follow in a case that was begun, or stand before the first one.
    pub fn role(self) -> Role {
        match self {
            Own::Run { .. } | Own::Words { .. } => Role::Begins,
            _ => Role::Follows,
        }
    }
}
