//! The words of the command `rules`: from the command line to the name of the file of rules.
//!
//! In contracts a row is what `clap` found for one option. `GivesRules` says what the rows ask for, and
//! `IsRules` what the words do.
ghost use Rattle.std.specs.Prelude.{◌≡◌, IfOk, IfSome, IfNone, map, string_bytes};
ghost use Rattle.command_words.specs.Asked.{GivesRules, IsRules, RulesAsked};
ghost use Rattle.command_words.specs.inner.Found.{rows_in};

use crate::options::{found_in, text_in};
use clap::ArgMatches;
use foundation::OutOfMemory;
use std::alloc::Global;
use std::marker::Model;

/// What the command `rules` was asked for.
#[derive(Drop)]
pub struct RulesWords<'a> {
    /// The file of the rules.
    pub rules: &'a str,
}

impl<'a> Model for RulesWords<'a> {
    ghost use Rattle.command_words.specs.Asked.{RulesAsked};

    ghost Value = { RulesAsked };

    ghost view = { λ w. record { rules = w.rules.now } };
}

/// Reads the words after the program's name as the command `rules` with the option `--rules` and a file's
/// name, which stand as `clap` takes them. The words are read in no other way, and None is answered exactly
/// where they are no such command.
pub fn rules_asked<'a>(
    alloc: Global,
    words: &'a [String],
) -> Result<Option<RulesWords<'a>>, OutOfMemory>
    ensures some { IfOk result (λ asked. IfSome asked (IsRules (map string_bytes words.entry.now))) }
    ensures only { IfOk result (λ asked. IfSome asked
        (λ one. (other : RulesAsked) → IsRules (map string_bytes words.entry.now) other → other ≡ one)) }
    ensures none { IfOk result (λ asked. IfNone asked ((one : RulesAsked) → ¬ IsRules (map string_bytes words.entry.now) one)) }
{
    let Some(found) = found_in(alloc, "rules", &["rules"], &[], words)? else {
        return Ok(None);
    };
    Ok(rules_of(&found))
}

// What the command is asked for, by what was found for its option. None where that was left out.
fn rules_of<'a>(found: &ArgMatches<'a>) -> Option<RulesWords<'a>>
    ensures some { IfSome result (GivesRules (rows_in found.now)) }
    ensures none { IfNone result ((asked : RulesAsked) → ¬ GivesRules (rows_in found.now) asked) }
{
    let rules = text_in(found, "rules")?;
    Some(RulesWords { rules })
}
