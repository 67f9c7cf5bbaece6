//! The words of the command `edit`: from the command line to the names of its files and its numbers. The
//! command `classed` takes the same options and one more.
//!
//! In contracts a row is what `clap` found for one option. `GivesEdit` says what the rows ask for, and
//! `IsEdit` what the words do.
ghost use Rattle.std.specs.Prelude.{◌≡◌, ◌↔◌, ◌∷◌, [], IfOk, IfSome, IfNone, IsTrue, map, string_bytes};
ghost use Rattle.command_words.specs.Asked.{EditAsked, GivesEdit, IsEdit};
ghost use Rattle.command_words.specs.FileNames.{AreApart};
ghost use Rattle.command_words.specs.inner.Found.{rows_in};

use crate::file_names::are_apart;
use crate::options::{BUDGET, LEAST_BUDGET, MOST_BUDGET, found_in, number_in, text_in};
use clap::ArgMatches;
use foundation::OutOfMemory;
use std::alloc::Global;
use std::marker::Model;

/// How many workers edit the records where no number is given.
const WORKERS: u64 = 1;

/// The least number of workers that can be given.
const LEAST_WORKERS: u64 = 1;

/// The most workers that can be given.
const MOST_WORKERS: u64 = 64;

/// How often a donor may be given where no limit is given.
const LIMIT: u64 = 1;

/// The least limit that can be given.
const LEAST_LIMIT: u64 = 1;

/// The most limit that can be given.
const MOST_LIMIT: u64 = 1_000;

/// How many donors a record ranks where no number is given.
const NEAR: u64 = 5;

/// The least number of donors to rank that can be given.
const LEAST_NEAR: u64 = 1;

/// The most donors to rank that can be given.
const MOST_NEAR: u64 = 64;

/// What an edit was asked for, by the command `edit` or by `classed`. No two names lead to one file.
#[derive(Drop)]
pub struct EditWords<'a> {
    /// The file of the rules.
    pub rules: &'a str,
    /// The file of the records.
    pub records: &'a str,
    /// The file that the released records go to.
    pub released: &'a str,
    /// The file that the reasons go to.
    pub reasons: &'a str,
    /// The file that the proof goes to.
    pub proof: &'a str,
    /// How many workers edit the records side by side, from 1 to 64.
    pub workers: u32,
    /// The most work on one record, from 1 to 1,000,000,000.
    pub budget: u64,
    /// How often a donor may be given, from 1 to 1,000.
    pub limit: u32,
    /// How many donors a record ranks at most, from 1 to 64.
    pub near: u32,
}

impl<'a> Model for EditWords<'a> {
    ghost use Rattle.std.specs.Prelude.{◌∷◌, []};
    ghost use Rattle.command_words.specs.Asked.{EditAsked};
    ghost use Rattle.command_words.specs.inner.Bounds.{InBounds};
    ghost use Rattle.command_words.specs.FileNames.{AreApart};

    ghost Value = { EditAsked };

    ghost view = { λ w. record {
      names = record {
        rules = w.rules.now;
        records = w.records.now;
        released = w.released.now;
        reasons = w.reasons.now;
        proof = w.proof.now;
      };
      workers = w.workers;
      budget = w.budget;
      limit = w.limit;
      near = w.near;
    } };

    ghost invariant = { λ w. AreApart (w.rules.now ∷ w.records.now ∷ w.released.now ∷ w.reasons.now ∷ w.proof.now ∷ [])
        × InBounds w.workers w.budget w.limit w.near };
}

/// Reads the words after the program's name as the command `edit`. `--rules`, `--records`, `--released`,
/// `--reasons` and `--proof` each have a file's name; no two lead to one file, as far as the names show
/// it. `--workers`, `--budget`, `--limit` and `--near` each have a number of 1 to 10 digits. Left out,
/// they are 1, 1,000,000, 1 and 5. The options stand as `clap` takes them. The words are read in no other
/// way, and None is answered exactly where they are no such command.
pub fn edit_asked<'a>(
    alloc: Global,
    words: &'a [String],
) -> Result<Option<EditWords<'a>>, OutOfMemory>
    ensures some { IfOk result (λ asked. IfSome asked (IsEdit (map string_bytes words.entry.now))) }
    ensures only { IfOk result (λ asked. IfSome asked
        (λ one. (other : EditAsked) → IsEdit (map string_bytes words.entry.now) other → other ≡ one)) }
    ensures none { IfOk result (λ asked. IfNone asked ((one : EditAsked) → ¬ IsEdit (map string_bytes words.entry.now) one)) }
{
    let required = ["rules", "records", "released", "reasons", "proof"];
    let optional = ["workers", "budget", "limit", "near"];
    let Some(found) = found_in(alloc, "edit", &required, &optional, words)? else {
        return Ok(None);
    };
    Ok(edit_of(&found))
}

/// What an edit is asked for, by what was found for its options. None where one of the five names was left
/// out, a number is out of its bounds, or two names lead to one file.
pub(crate) fn edit_of<'a>(found: &ArgMatches<'a>) -> Option<EditWords<'a>>
    ensures some { IfSome result (GivesEdit (rows_in found.now)) }
    ensures none { IfNone result ((asked : EditAsked) → ¬ GivesEdit (rows_in found.now) asked) }
{
    let rules = text_in(found, "rules")?;
    let records = text_in(found, "records")?;
    let released = text_in(found, "released")?;
    let reasons = text_in(found, "reasons")?;
    let proof = text_in(found, "proof")?;
    let workers = number_in(found, "workers", WORKERS, LEAST_WORKERS, MOST_WORKERS)?;
    let budget = number_in(found, "budget", BUDGET, LEAST_BUDGET, MOST_BUDGET)?;
    let limit = number_in(found, "limit", LIMIT, LEAST_LIMIT, MOST_LIMIT)?;
    let near = number_in(found, "near", NEAR, LEAST_NEAR, MOST_NEAR)?;
    if !are_apart(&[rules, records, released, reasons, proof]) {
        return None;
    }
    Some(EditWords {
        rules,
        records,
        released,
        reasons,
        proof,
        workers: workers as u32,
        budget,
        limit: limit as u32,
        near: near as u32,
    })
}
