//! What all commands share of their words: how `clap` is told of options, and how texts and numbers are
//! taken out of what it finds.
//!
//! In contracts a row is what `clap` found for one option, and `first_of` is the text of the first row of
//! a name. `app_of` is what `clap` is told of a command, and `command_of` is it for one with these options.
//! `Finds` says that the words are this command, with these rows, and `Takes` says so of the words behind its
//! name.
ghost use Rattle.std.specs.Prelude.{◌≡◌, ◌≢◌, ◌∷◌, [], ℕ, List, true, false, Some, None, IfOk, IfSome, IfNone, map, string_bytes};
ghost use Rattle.clap.specs.Words.{Row, app_of, fault_of, first_of, is_simple_and_free, rule_of};
ghost use Rattle.command_words.specs.Options.{GivesNumber, IsNumberText, command_with};
ghost use Rattle.command_words.specs.inner.Found.{Finds, Takes, rows_in};
ghost use Rattle.command_words.specs.inner.Made.{command_of, option_named, with_rules};

use clap::error::ErrorKind;
use clap::{Arg, ArgAction, ArgMatches, Command};
use foundation::OutOfMemory;
use std::alloc::Global;

/// The most work on one record where no budget is given.
pub(crate) const BUDGET: u64 = 1_000_000;

/// The least budget that can be given.
pub(crate) const LEAST_BUDGET: u64 = 1;

/// The most budget that can be given.
pub(crate) const MOST_BUDGET: u64 = 1_000_000_000;

/// The most digits of a number. So no number passes 64 bits.
const MOST_DIGITS: usize = 10;

// The command of this name, as `clap` is told of it, without an option so far. The words that it is matched
// with begin behind its name. No flag asks for its help, so `--help` is no word of it.
fn command_named<'a>(alloc: Global, name: &'a str) -> Command<'a>
    ensures { app_of result ≡ command_with name.entry.now [] }
{
    Command::new(alloc, name)
        .no_binary_name(true)
        .disable_help_flag(true)
}

// The option `--name`, which is given one value. It has to stand if it is `required`, and may else be left out.
fn option_named<'a>(alloc: Global, name: &'a str, required: bool) -> Arg<'a>
    ensures option { rule_of result ≡ option_named required name.entry.now }
    ensures local { result.global ≡ false }
{
    Arg::new(alloc, name)
        .long(name)
        .action(ArgAction::Set)
        .required(required)
}

// The command with one more option for each of `names`, in order. `clap` refuses the words where one that is
// `required` is left out.
fn with_options<'a>(
    alloc: Global,
    mut command: Command<'a>,
    names: &[&'a str],
    required: bool,
) -> Result<Command<'a>, OutOfMemory>
    ensures { IfOk result (λ more. app_of more
        ≡ with_rules (app_of command.entry) (map (λ name. option_named required name.now) names.now)) }
{
    for name in names {
        command = command.arg(option_named(alloc, name, required))?;
    }
    Ok(command)
}

// The words behind the first one, where that is the command's `name`, byte for byte. None where it is
// another, or there is no word: then another command may be meant. No memory.
fn words_behind<'a>(name: &str, words: &'a [String]) -> Option<&'a [String]>
    ensures some { IfSome result (λ others. map string_bytes words.entry.now ≡ name.now ∷ map string_bytes others.now) }
    ensures none { IfNone result ((others : List (List ℕ)) → map string_bytes words.entry.now ≢ name.now ∷ others) }
{
    let (first, others) = words.split_first()?;
    if first.as_str() == name {
        Some(others)
    } else {
        None
    }
}

// What `clap` finds in the words behind the name of the command. None where it does not take them: an
// option is unknown, say, or one is left out that has to stand.
fn match_words<'a>(
    command: Command<'a>,
    words: &'a [String],
) -> Result<Option<ArgMatches<'a>>, OutOfMemory>
    requires { is_simple_and_free (app_of command) ≡ true }
    ensures some { IfOk result (λ found. IfSome found (Takes (app_of command.entry) (map string_bytes words.entry.now))) }
    ensures none { IfOk result (λ found. IfNone found (fault_of (app_of command.entry) (map string_bytes words.entry.now) ≢ [])) }
{
    match command.try_get_matches_from(words) {
        Ok(found) => Ok(Some(found)),
        Err(error) => match error.kind() {
            ErrorKind::OutOfMemory => Err(OutOfMemory),
            _ => Ok(None),
        },
    }
}

/// What `clap` finds in these words, where they are the command `name`: its name, byte for byte, and behind it
/// words that `clap` takes. The options that are `required` have to stand, and the `optional` ones may be left
/// out, as a number may that has a default; each is given one value. None for all other words, which may be
/// another command. `is_simple_and_free` says that no option has a rule on another, nor anything else that
/// `clap`'s contracts leave open. Each command here is so.
pub(crate) fn found_in<'a>(
    alloc: Global,
    name: &'a str,
    required: &[&'a str],
    optional: &[&'a str],
    words: &'a [String],
) -> Result<Option<ArgMatches<'a>>, OutOfMemory>
    requires { is_simple_and_free (command_of name.now required.now optional.now) ≡ true }
    ensures some { IfOk result (λ found. IfSome found (λ one.
        Finds (command_of name.entry.now required.now optional.now) (map string_bytes words.entry.now) (rows_in one))) }
    ensures none { IfOk result (λ found. IfNone found ((rows : List Row)
        → ¬ Finds (command_of name.entry.now required.now optional.now) (map string_bytes words.entry.now) rows)) }
{
    let Some(others) = words_behind(name, words) else {
        return Ok(None);
    };
    let command = with_options(alloc, command_named(alloc, name), required, true)?;
    let command = with_options(alloc, command, optional, false)?;
    match_words(command, others)
}

/// The text that was found for the option `name`, or None where the option was left out. No memory.
pub(crate) fn text_in<'a>(found: &ArgMatches<'a>, name: &str) -> Option<&'a str>
    ensures some { IfSome result (λ text. first_of name.now (rows_in found.now) ≡ Some text.now) }
    ensures none { IfNone result (first_of name.now (rows_in found.now) ≡ None) }
{
    found.get_str(name)
}

/// The number that was found for the option `name`, or `default` where the option was left out. None where
/// its text is not 1 to 10 digits, or the number is below `least` or above `most`. No memory.
pub(crate) fn number_in(
    found: &ArgMatches<'_>,
    name: &str,
    default: u64,
    least: u64,
    most: u64,
) -> Option<u64>
    ensures some { IfSome result (λ n. GivesNumber default least most (first_of name.now (rows_in found.now)) n) }
    ensures none { IfNone result ((n : ℕ) → ¬ GivesNumber default least most (first_of name.now (rows_in found.now)) n) }
{
    let Some(text) = text_in(found, name) else {
        return Some(default);
    };
    let number = number_of(text)?;
    if least <= number && number <= most {
        Some(number)
    } else {
        None
    }
}

// The number that 1 to 10 digits spell, or None for any other text. A plus, which `parse` would take, is
// refused.
fn number_of(text: &str) -> Option<u64>
    ensures some { IfSome result (λ n. IsNumberText text.now n) }
    ensures none { IfNone result ((n : ℕ) → ¬ IsNumberText text.now n) }
{
    if text.len() > MOST_DIGITS || text.as_bytes().first() == Some(&b'+') {
        return None;
    }
    match text.parse::<u64>() {
        Ok(number) => Some(number),
        Err(_) => None,
    }
}
