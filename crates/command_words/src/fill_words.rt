//! The words of the command `fill`: from the command line to the names of its three files and its budget.
//!
//! In contracts a row is what `clap` found for one option. `GivesFill` says what the rows ask for, and
//! `IsFill` what the words do.
ghost use Rattle.std.specs.Prelude.{◌≡◌, ◌↔◌, ◌∷◌, [], IfOk, IfSome, IfNone, IsTrue, map, string_bytes};
ghost use Rattle.command_words.specs.Asked.{FillAsked, GivesFill, IsFill};
ghost use Rattle.command_words.specs.FileNames.{AreApart};
ghost use Rattle.command_words.specs.inner.Found.{rows_in};

use crate::file_names::are_apart;
use crate::options::{BUDGET, LEAST_BUDGET, MOST_BUDGET, found_in, number_in, text_in};
use clap::ArgMatches;
use foundation::OutOfMemory;
use std::alloc::Global;
use std::marker::Model;

/// What the command `fill` was asked for. No two names lead to one file.
#[derive(Drop)]
pub struct FillWords<'a> {
    /// The file of the rules.
    pub rules: &'a str,
    /// The file of the records.
    pub records: &'a str,
    /// The file that the filled records go to.
    pub released: &'a str,
    /// The most work on one record, from 1 to 1,000,000,000.
    pub budget: u64,
}

impl<'a> Model for FillWords<'a> {
    ghost use Rattle.std.specs.Prelude.{◌≤◌, ◌∷◌, []};
    ghost use Rattle.foundation.specs.Limits.{most_work};
    ghost use Rattle.command_words.specs.Asked.{FillAsked};
    ghost use Rattle.command_words.specs.FileNames.{AreApart};

    ghost Value = { FillAsked };

    ghost view = { λ w. record { rules = w.rules.now; records = w.records.now; released = w.released.now; budget = w.budget } };

    ghost invariant = { λ w. AreApart (w.rules.now ∷ w.records.now ∷ w.released.now ∷ []) × (1 ≤ w.budget) × (w.budget ≤ most_work) };
}

/// Reads the words after the program's name as the command `fill`. The options `--rules`, `--records` and
/// `--released` each have a file's name. The option `--budget` has a number of 1 to 10 digits, and may be
/// left out: it is 1,000,000 then. The options stand as `clap` takes them, and no two of the three names
/// lead to one file, as far as the names show it. The words are read in no other way, and None is answered
/// exactly where they are no such command.
pub fn fill_asked<'a>(
    alloc: Global,
    words: &'a [String],
) -> Result<Option<FillWords<'a>>, OutOfMemory>
    ensures some { IfOk result (λ asked. IfSome asked (IsFill (map string_bytes words.entry.now))) }
    ensures only { IfOk result (λ asked. IfSome asked
        (λ one. (other : FillAsked) → IsFill (map string_bytes words.entry.now) other → other ≡ one)) }
    ensures none { IfOk result (λ asked. IfNone asked ((one : FillAsked) → ¬ IsFill (map string_bytes words.entry.now) one)) }
{
    let required = ["rules", "records", "released"];
    let Some(found) = found_in(alloc, "fill", &required, &["budget"], words)? else {
        return Ok(None);
    };
    Ok(fill_of(&found))
}

// What the command is asked for, by what was found for its options. None where one of the three names was
// left out, the budget is out of its bounds, or two names lead to one file.
fn fill_of<'a>(found: &ArgMatches<'a>) -> Option<FillWords<'a>>
    ensures some { IfSome result (GivesFill (rows_in found.now)) }
    ensures none { IfNone result ((asked : FillAsked) → ¬ GivesFill (rows_in found.now) asked) }
{
    let rules = text_in(found, "rules")?;
    let records = text_in(found, "records")?;
    let released = text_in(found, "released")?;
    let budget = number_in(found, "budget", BUDGET, LEAST_BUDGET, MOST_BUDGET)?;
    if !are_apart(&[rules, records, released]) {
        return None;
    }
    Some(FillWords {
        rules,
        records,
        released,
        budget,
    })
}
