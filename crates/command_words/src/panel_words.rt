//! The words of the command `panel`: from the command line to the names of its six files, its key and its
//! budget.
//!
//! In contracts a row is what `clap` found for one option. `GivesPanel` says what the rows ask for, and
//! `IsPanel` what the words do.
ghost use Rattle.std.specs.Prelude.{◌≡◌, ◌↔◌, ◌∷◌, [], IfOk, IfSome, IfNone, IsTrue, map, string_bytes};
ghost use Rattle.command_words.specs.Asked.{PanelAsked, GivesPanel, IsPanel};
ghost use Rattle.command_words.specs.FileNames.{AreApart};
ghost use Rattle.command_words.specs.inner.Found.{rows_in};

use crate::file_names::are_apart;
use crate::options::{BUDGET, LEAST_BUDGET, MOST_BUDGET, found_in, number_in, text_in};
use clap::ArgMatches;
use foundation::OutOfMemory;
use std::alloc::Global;
use std::marker::Model;

/// What the command `panel` was asked for. No two names of files lead to one file; the column's name is not
/// compared with them.
#[derive(Drop)]
pub struct PanelWords<'a> {
    /// The file of the rules.
    pub rules: &'a str,
    /// The file of the records.
    pub records: &'a str,
    /// The file of the last period.
    pub last: &'a str,
    /// The file that the released records go to.
    pub released: &'a str,
    /// The file that the reasons go to.
    pub reasons: &'a str,
    /// The file that the proof goes to.
    pub proof: &'a str,
    /// The name of the column by which the rows of both periods are joined.
    pub key: &'a str,
    /// The most work on one record, from 1 to 1,000,000,000.
    pub budget: u64,
}

impl<'a> Model for PanelWords<'a> {
    ghost use Rattle.std.specs.Prelude.{◌≤◌, ◌∷◌, []};
    ghost use Rattle.foundation.specs.Limits.{most_work};
    ghost use Rattle.command_words.specs.Asked.{PanelAsked};
    ghost use Rattle.command_words.specs.FileNames.{AreApart};

    ghost Value = { PanelAsked };

    ghost view = { λ w. record {
      rules = w.rules.now;
      records = w.records.now;
      last = w.last.now;
      released = w.released.now;
      reasons = w.reasons.now;
      proof = w.proof.now;
      key = w.key.now;
      budget = w.budget;
    } };

    ghost invariant = { λ w.
        AreApart (w.rules.now ∷ w.records.now ∷ w.last.now ∷ w.released.now ∷ w.reasons.now ∷ w.proof.now ∷ [])
        × (1 ≤ w.budget) × (w.budget ≤ most_work) };
}

/// Reads the words after the program's name as the command `panel`. `--rules`, `--records`, `--last`,
/// `--released`, `--reasons` and `--proof` each have a file's name; no two lead to one file, as far as the
/// names show it. `--key` has a column's name. `--budget` has a number of 1 to 10 digits, or is left out:
/// it is 1,000,000 then. The options stand as `clap` takes them. The words are read in no other way, and
/// None is answered exactly where they are no such command.
pub fn panel_asked<'a>(
    alloc: Global,
    words: &'a [String],
) -> Result<Option<PanelWords<'a>>, OutOfMemory>
    ensures some { IfOk result (λ asked. IfSome asked (IsPanel (map string_bytes words.entry.now))) }
    ensures only { IfOk result (λ asked. IfSome asked
        (λ one. (other : PanelAsked) → IsPanel (map string_bytes words.entry.now) other → other ≡ one)) }
    ensures none { IfOk result (λ asked. IfNone asked ((one : PanelAsked) → ¬ IsPanel (map string_bytes words.entry.now) one)) }
{
    let required = [
        "rules", "records", "last", "released", "reasons", "proof", "key",
    ];
    let Some(found) = found_in(alloc, "panel", &required, &["budget"], words)? else {
        return Ok(None);
    };
    Ok(panel_of(&found))
}

// What the command is asked for, by what was found for its options. None where one of the seven was left
// out, the budget is out of its bounds, or two names of files lead to one file.
fn panel_of<'a>(found: &ArgMatches<'a>) -> Option<PanelWords<'a>>
    ensures some { IfSome result (GivesPanel (rows_in found.now)) }
    ensures none { IfNone result ((asked : PanelAsked) → ¬ GivesPanel (rows_in found.now) asked) }
{
    let rules = text_in(found, "rules")?;
    let records = text_in(found, "records")?;
    let last = text_in(found, "last")?;
    let released = text_in(found, "released")?;
    let reasons = text_in(found, "reasons")?;
    let proof = text_in(found, "proof")?;
    let key = text_in(found, "key")?;
    let budget = number_in(found, "budget", BUDGET, LEAST_BUDGET, MOST_BUDGET)?;
    if !are_apart(&[rules, records, last, released, reasons, proof]) {
        return None;
    }
    Some(PanelWords {
        rules,
        records,
        last,
        released,
        reasons,
        proof,
        key,
        budget,
    })
}
