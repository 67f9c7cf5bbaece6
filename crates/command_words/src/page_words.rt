//! The words of the command `page`: from the command line to the names of its five files.
//!
//! In contracts a row is what `clap` found for one option. `GivesPage` says what the rows ask for, and
//! `IsPage` what the words do.
ghost use Rattle.std.specs.Prelude.{◌≡◌, IfOk, IfSome, IfNone, map, string_bytes};
ghost use Rattle.command_words.specs.Asked.{PageAsked, GivesPage, IsPage};
ghost use Rattle.command_words.specs.inner.Found.{rows_in};

use crate::file_names::are_apart;
use crate::options::{found_in, text_in};
use clap::ArgMatches;
use foundation::OutOfMemory;
use std::alloc::Global;
use std::marker::Model;

/// What the command `page` was asked for. No two names lead to one file.
#[derive(Drop)]
pub struct PageWords<'a> {
    /// The file of the rules.
    pub rules: &'a str,
    /// The file of the records.
    pub records: &'a str,
    /// The file of the released records.
    pub released: &'a str,
    /// The file of the reasons.
    pub reasons: &'a str,
    /// The file that the page goes to.
    pub page: &'a str,
}

impl<'a> Model for PageWords<'a> {
    ghost use Rattle.std.specs.Prelude.{◌∷◌, []};
    ghost use Rattle.command_words.specs.Asked.{PageAsked};
    ghost use Rattle.command_words.specs.FileNames.{AreApart};

    ghost Value = { PageAsked };

    ghost view = { λ w. record {
      rules = w.rules.now;
      records = w.records.now;
      released = w.released.now;
      reasons = w.reasons.now;
      page = w.page.now;
    } };

    ghost invariant = { λ w. AreApart (w.rules.now ∷ w.records.now ∷ w.released.now ∷ w.reasons.now ∷ w.page.now ∷ []) };
}

/// Reads the words after the program's name as the command `page`. The options `--rules`, `--records`,
/// `--released`, `--reasons` and `--page` each have a file's name. The options stand as `clap` takes them,
/// and no two of the five names lead to one file, as far as the names show it. The words are read in no
/// other way, and None is answered exactly where they are no such command.
pub fn page_asked<'a>(
    alloc: Global,
    words: &'a [String],
) -> Result<Option<PageWords<'a>>, OutOfMemory>
    ensures some { IfOk result (λ asked. IfSome asked (IsPage (map string_bytes words.entry.now))) }
    ensures only { IfOk result (λ asked. IfSome asked
        (λ one. (other : PageAsked) → IsPage (map string_bytes words.entry.now) other → other ≡ one)) }
    ensures none { IfOk result (λ asked. IfNone asked ((one : PageAsked) → ¬ IsPage (map string_bytes words.entry.now) one)) }
{
    let required = ["rules", "records", "released", "reasons", "page"];
    let Some(found) = found_in(alloc, "page", &required, &[], words)? else {
        return Ok(None);
    };
    Ok(page_of(&found))
}

// What the command is asked for, by what was found for its options. None where one of the five was left
// out, or two names lead to one file.
fn page_of<'a>(found: &ArgMatches<'a>) -> Option<PageWords<'a>>
    ensures some { IfSome result (GivesPage (rows_in found.now)) }
    ensures none { IfNone result ((asked : PageAsked) → ¬ GivesPage (rows_in found.now) asked) }
{
    let rules = text_in(found, "rules")?;
    let records = text_in(found, "records")?;
    let released = text_in(found, "released")?;
    let reasons = text_in(found, "reasons")?;
    let page = text_in(found, "page")?;
    if !are_apart(&[rules, records, released, reasons, page]) {
        return None;
    }
    Some(PageWords {
        rules,
        records,
        released,
        reasons,
        page,
    })
}
