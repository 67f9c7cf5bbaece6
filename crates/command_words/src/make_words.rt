//! The words of the command `make`: from the command line to the names of its two files and its two
//! numbers.
//!
//! In contracts a row is what `clap` found for one option. `GivesMake` says what the rows ask for, and
//! `IsMake` what the words do.
ghost use Rattle.std.specs.Prelude.{◌≡◌, IfOk, IfSome, IfNone, map, string_bytes};
ghost use Rattle.command_words.specs.Asked.{GivesMake, IsMake, MakeAsked};
ghost use Rattle.command_words.specs.inner.Found.{rows_in};

use crate::file_names::are_apart;
use crate::options::{found_in, number_in, text_in};
use clap::ArgMatches;
use foundation::OutOfMemory;
use std::alloc::Global;
use std::marker::Model;

/// The number `start`, from which the records follow, where none is given.
const START: u64 = 1;

/// The least `start` that can be given.
const LEAST_START: u64 = 0;

/// The greatest `start` that can be given: 2^32 - 1.
const MOST_START: u64 = 4_294_967_295;

/// How many records are made where no number is given.
const ROWS: u64 = 100;

/// The least number of records that can be given.
const LEAST_ROWS: u64 = 1;

/// The most records that can be given: as many as a record file may have.
const MOST_ROWS: u64 = 200_000;

/// What the command `make` was asked for. The two names lead to two files.
#[derive(Drop)]
pub struct MakeWords<'a> {
    /// The file that the rules go to.
    pub rules: &'a str,
    /// The file that the records go to.
    pub records: &'a str,
    /// The number that the records follow from.
    pub start: u32,
    /// How many records are made, from 1 to 200,000.
    pub rows: u32,
}

impl<'a> Model for MakeWords<'a> {
    ghost use Rattle.std.specs.Prelude.{◌∷◌, []};
    ghost use Rattle.command_words.specs.Asked.{MakeAsked};
    ghost use Rattle.command_words.specs.FileNames.{AreApart};

    ghost Value = { MakeAsked };

    ghost view = { λ w. record { rules = w.rules.now; records = w.records.now; start = w.start; rows = w.rows } };

    ghost invariant = { λ w. AreApart (w.rules.now ∷ w.records.now ∷ []) };
}

/// Reads the words after the program's name as the command `make`. `--rules` and `--records` each have a
/// file's name; they lead to two files, as far as the names show it. `--start` and `--rows` each have a
/// number of 1 to 10 digits, or are left out: they are 1 and 100 then. The options stand as `clap` takes
/// them. The words are read in no other way, and None is answered exactly where they are no such command.
pub fn make_asked<'a>(
    alloc: Global,
    words: &'a [String],
) -> Result<Option<MakeWords<'a>>, OutOfMemory>
    ensures some { IfOk result (λ asked. IfSome asked (IsMake (map string_bytes words.entry.now))) }
    ensures only { IfOk result (λ asked. IfSome asked
        (λ one. (other : MakeAsked) → IsMake (map string_bytes words.entry.now) other → other ≡ one)) }
    ensures none { IfOk result (λ asked. IfNone asked ((one : MakeAsked) → ¬ IsMake (map string_bytes words.entry.now) one)) }
{
    let required = ["rules", "records"];
    let optional = ["start", "rows"];
    let Some(found) = found_in(alloc, "make", &required, &optional, words)? else {
        return Ok(None);
    };
    Ok(make_of(&found))
}

// What the command is asked for, by what was found for its options. None where one of the two names was
// left out, a number is out of its bounds, or both names lead to one file.
fn make_of<'a>(found: &ArgMatches<'a>) -> Option<MakeWords<'a>>
    ensures some { IfSome result (GivesMake (rows_in found.now)) }
    ensures none { IfNone result ((asked : MakeAsked) → ¬ GivesMake (rows_in found.now) asked) }
{
    let rules = text_in(found, "rules")?;
    let records = text_in(found, "records")?;
    let start = number_in(found, "start", START, LEAST_START, MOST_START)?;
    let rows = number_in(found, "rows", ROWS, LEAST_ROWS, MOST_ROWS)?;
    if !are_apart(&[rules, records]) {
        return None;
    }
    Some(MakeWords {
        rules,
        records,
        start: start as u32,
        rows: rows as u32,
    })
}
