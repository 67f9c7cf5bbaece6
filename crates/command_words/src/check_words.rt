//! The words of the command `check`: from the command line to the names of the four files that it reads.
//!
//! In contracts a row is what `clap` found for one option. `GivesCheck` says what the rows ask for, and
//! `IsCheck` what the words do.
ghost use Rattle.std.specs.Prelude.{◌≡◌, ◌↔◌, ◌∷◌, [], IfOk, IfSome, IfNone, IsTrue, map, string_bytes};
ghost use Rattle.command_words.specs.Asked.{CheckAsked, GivesCheck, IsCheck};
ghost use Rattle.command_words.specs.FileNames.{AreApart};
ghost use Rattle.command_words.specs.inner.Found.{rows_in};

use crate::file_names::are_apart;
use crate::options::{found_in, text_in};
use clap::ArgMatches;
use foundation::OutOfMemory;
use std::alloc::Global;
use std::marker::Model;

/// What the command `check` was asked for. No two names lead to one file.
#[derive(Drop)]
pub struct CheckWords<'a> {
    /// The file of the rules.
    pub rules: &'a str,
    /// The file of the records.
    pub records: &'a str,
    /// The file of the released records.
    pub released: &'a str,
    /// The file of the proof.
    pub proof: &'a str,
}

impl<'a> Model for CheckWords<'a> {
    ghost use Rattle.command_words.specs.Asked.{CheckAsked};

    ghost Value = { CheckAsked };

    ghost view = { λ w. record { rules = w.rules.now; records = w.records.now; released = w.released.now; proof = w.proof.now } };
}

/// Reads the words after the program's name as the command `check`. The options `--rules`, `--records`,
/// `--released` and `--proof` each have a file's name. The options stand as `clap` takes them, and no two
/// of the four names lead to one file, as far as the names show it. The words are read in no other way, and
/// None is answered exactly where they are no such command.
pub fn check_asked<'a>(
    alloc: Global,
    words: &'a [String],
) -> Result<Option<CheckWords<'a>>, OutOfMemory>
    ensures some { IfOk result (λ asked. IfSome asked (IsCheck (map string_bytes words.entry.now))) }
    ensures only { IfOk result (λ asked. IfSome asked
        (λ one. (other : CheckAsked) → IsCheck (map string_bytes words.entry.now) other → other ≡ one)) }
    ensures none { IfOk result (λ asked. IfNone asked ((one : CheckAsked) → ¬ IsCheck (map string_bytes words.entry.now) one)) }
{
    let required = ["rules", "records", "released", "proof"];
    let Some(found) = found_in(alloc, "check", &required, &[], words)? else {
        return Ok(None);
    };
    Ok(check_of(&found))
}

// What a check is asked for, by what was found for its options. None where one of the four was left out,
// or two names lead to one file.
fn check_of<'a>(found: &ArgMatches<'a>) -> Option<CheckWords<'a>>
    ensures some { IfSome result (GivesCheck (rows_in found.now)) }
    ensures none { IfNone result ((asked : CheckAsked) → ¬ GivesCheck (rows_in found.now) asked) }
{
    let rules = text_in(found, "rules")?;
    let records = text_in(found, "records")?;
    let released = text_in(found, "released")?;
    let proof = text_in(found, "proof")?;
    if !are_apart(&[rules, records, released, proof]) {
        return None;
    }
    Some(CheckWords {
        rules,
        records,
        released,
        proof,
    })
}
