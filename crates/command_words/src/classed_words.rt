//! The words of the command `classed`: those of an edit, and the name of the field by whose codes records
//! are in classes.
//!
//! In contracts a row is what `clap` found for one option. `GivesClassed` says what the rows ask for, and
//! `IsClassed` what the words do.
ghost use Rattle.std.specs.Prelude.{◌≡◌, IfOk, IfSome, IfNone, map, string_bytes};
ghost use Rattle.command_words.specs.Asked.{ClassedAsked, GivesClassed, IsClassed};
ghost use Rattle.command_words.specs.inner.Found.{rows_in};

use crate::edit_words::{EditWords, edit_of};
use crate::options::{found_in, text_in};
use clap::ArgMatches;
use foundation::OutOfMemory;
use std::alloc::Global;
use std::marker::Model;

/// What the command `classed` was asked for: an edit, and a field's name, which is not compared with the
/// names of files.
#[derive(Drop)]
pub struct ClassedWords<'a> {
    /// The edit.
    pub edit: EditWords<'a>,
    /// The name of the field by whose codes the records fall into classes.
    pub class: &'a str,
}

impl<'a> Model for ClassedWords<'a> {
    ghost use Rattle.command_words.specs.Asked.{ClassedAsked};

    ghost Value = { ClassedAsked };

    ghost view = { λ w. record { edit = w.edit; class = w.class.now } };
}

/// Reads the words after the program's name as the command `classed`. It has the options that
/// [`edit_asked`] takes, by the same rules, and `--class`, with a field's name, which has to stand. The
/// words are read in no other way, and None is answered exactly where they are no such command.
///
/// [`edit_asked`]: crate::edit_asked
pub fn classed_asked<'a>(
    alloc: Global,
    words: &'a [String],
) -> Result<Option<ClassedWords<'a>>, OutOfMemory>
    ensures some { IfOk result (λ asked. IfSome asked (IsClassed (map string_bytes words.entry.now))) }
    ensures only { IfOk result (λ asked. IfSome asked
        (λ one. (other : ClassedAsked) → IsClassed (map string_bytes words.entry.now) other → other ≡ one)) }
    ensures none { IfOk result (λ asked. IfNone asked ((one : ClassedAsked) → ¬ IsClassed (map string_bytes words.entry.now) one)) }
{
    let required = ["rules", "records", "released", "reasons", "proof", "class"];
    let optional = ["workers", "budget", "limit", "near"];
    let Some(found) = found_in(alloc, "classed", &required, &optional, words)? else {
        return Ok(None);
    };
    Ok(classed_of(&found))
}

// What the command is asked for, by what was found for its options. None where they give no edit
// (`edit_of`), or `--class` was left out.
fn classed_of<'a>(found: &ArgMatches<'a>) -> Option<ClassedWords<'a>>
    ensures some { IfSome result (GivesClassed (rows_in found.now)) }
    ensures none { IfNone result ((asked : ClassedAsked) → ¬ GivesClassed (rows_in found.now) asked) }
{
    let edit = edit_of(found)?;
    let class = text_in(found, "class")?;
    Some(ClassedWords { edit, class })
}
