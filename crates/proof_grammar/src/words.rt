//! The words of a line, read one after another, each as what the grammar has in its place. Each `take_..`
//! call reads the first word that is left. Where that is what was asked for, it is taken, and else `Form`
//! is answered and the word stays. What is named from 1 on in the text is numbered from 0 in memory.
//!
//! In contracts, `Takes` says that the call answers what the grammar reads off the first word, and leaves
//! the words behind it. Where the grammar reads nothing there, the answer is `Form`. `word_in` is that
//! reading, and `ReadsAs` says the same of all words.
ghost use Rattle.std.specs.Prelude.{◌≡◌, ◌==◌, ◌<◌, ◌^◌, [], ◌∷◌, IfErr, IfNone, IfOk, IfSome, OnErr, length, suc};
ghost use Rattle.std.specs.List.{position};
ghost use Rattle.proof_grammar.specs.Cuts.{split};
ghost use Rattle.proof_grammar.specs.Words.{ReadsAs, Takes, divisor_said, ended, fixed_said, long_said, named_long, named_short, named_short_or_0, path_said, place_said, positive_said, short_said, whole_said, word_in};

use crate::numbers::{
    read_divisor, read_named_u32, read_named_u32_or_none, read_named_u64, read_one_less,
    read_place, read_u32, read_u64, read_whole,
};
use crate::paths::read_path;
use bound_cert::Path;
use edit_line::Place;
use std::alloc::Global;
use std::marker::Model;

/// Why the reading of a line stops.
#[derive(Drop)]
pub enum Stop {
    /// The line has not the form.
    Form,
    /// Memory was refused.
    OutOfMemory,
}

/// The words that are still to be read. Between two words stands one space, so two spaces have an empty
/// word between them. A word that is not of the form that is asked for is not taken: `Form` is answered
/// then, as where no word is left.
#[derive(Drop)]
pub struct Words<'a> {
    rest: Option<&'a [u8]>,
}

impl<'a> Model for Words<'a> {
    ghost use Rattle.std.specs.Prelude.{List, ℕ, option_map};
    ghost use Rattle.proof_grammar.specs.Words.{words_left};

    ghost Value = { List (List ℕ) };

    ghost view = { λ w. words_left (option_map (λ b. b.now) w.rest) };
}

impl<'a> Words<'a> {
    /// The words of a line.
    pub fn new(line: &'a [u8]) -> Words<'a>
        ensures { result ≡ split 32 line.now }
    {
        Words { rest: Some(line) }
    }

    /// Takes the next word, or answers None where no word is left.
    pub fn next(&mut self) -> Option<&'a [u8]>
        ensures some { IfSome result (λ w. self.old ≡ w.now ∷ self.new) }
        ensures none { IfNone result (self.old ≡ []) }
        ensures kept { IfNone result (self.new ≡ self.old) }
    {
        match self.rest {
            None => None,
            Some(text) => match cut(text, b' ') {
                Some((word, rest)) => {
                    self.rest = Some(rest);
                    Some(word)
                }
                None => {
                    self.rest = None;
                    Some(text)
                }
            },
        }
    }

    // The next word and those behind it, none of which is taken. `Form` where no word is left.
    fn front(&self) -> Result<(&'a [u8], Words<'a>), Stop>
        ensures word { IfOk result (λ front. self.now ≡ front.0.now ∷ front.1) }
        ensures ended { IfErr result (λ stop. (stop ≡ Stop.Form) × (self.now ≡ [])) }
    {
        let mut behind = Words { rest: self.rest };
        match behind.next() {
            Some(word) => Ok((word, behind)),
            None => Err(Stop::Form),
        }
    }

    /// Takes a number below 2^64, such as a count or an amount of work. `Form` for any other word.
    pub fn take_u64(&mut self) -> Result<u64, Stop>
        ensures taken { Takes result self.new (word_in long_said self.old) }
        ensures refused { OnErr result (self.new ≡ self.old) }
    {
        let (word, behind) = self.front()?;
        let read = read_u64(word).ok_or(Stop::Form)?;
        *self = behind;
        Ok(read)
    }

    /// Takes a number below 2^32, such as a limit of the run. `Form` for any other word.
    pub fn take_u32(&mut self) -> Result<u32, Stop>
        ensures taken { Takes result self.new (word_in short_said self.old) }
        ensures refused { OnErr result (self.new ≡ self.old) }
    {
        let (word, behind) = self.front()?;
        let read = read_u32(word).ok_or(Stop::Form)?;
        *self = behind;
        Ok(read)
    }

    /// Takes the name, from 1 to 2^64, of a line or a step, and answers its number: one less, from 0.
    pub fn take_named_u64(&mut self) -> Result<u64, Stop>
        ensures taken { Takes result self.new (word_in named_long self.old) }
        ensures refused { OnErr result (self.new ≡ self.old) }
    {
        let (word, behind) = self.front()?;
        let read = read_named_u64(word).ok_or(Stop::Form)?;
        *self = behind;
        Ok(read)
    }

    /// Takes the name, from 1 to 2^32, of a field, a rule, a row or a donor, and answers its number: one
    /// less, from 0.
    pub fn take_named_u32(&mut self) -> Result<u32, Stop>
        ensures taken { Takes result self.new (word_in named_short self.old) }
        ensures refused { OnErr result (self.new ≡ self.old) }
    {
        let (word, behind) = self.front()?;
        let read = read_named_u32(word).ok_or(Stop::Form)?;
        *self = behind;
        Ok(read)
    }

    /// Takes a name from 1 to 2^32 and answers its number, from 0, or None for the word 0, which names
    /// nothing.
    pub fn take_named_u32_or_none(&mut self) -> Result<Option<u32>, Stop>
        ensures taken { Takes result self.new (word_in named_short_or_0 self.old) }
        ensures refused { OnErr result (self.new ≡ self.old) }
    {
        let (word, behind) = self.front()?;
        let read = read_named_u32_or_none(word).ok_or(Stop::Form)?;
        *self = behind;
        Ok(read)
    }

    /// Takes a whole number of absolute value at most 2^127 - 1, the multiplier of a combined line.
    pub fn take_whole(&mut self) -> Result<i128, Stop>
        ensures taken { Takes result self.new (word_in whole_said self.old) }
        ensures refused { OnErr result (self.new ≡ self.old) }
    {
        let (word, behind) = self.front()?;
        let read = read_whole(word).ok_or(Stop::Form)?;
        *self = behind;
        Ok(read)
    }

    /// Takes a whole number from 0 to 2^127 - 1, the divisor of a combination. That 0 divides nothing is
    /// looked at later.
    pub fn take_divisor(&mut self) -> Result<i128, Stop>
        ensures taken { Takes result self.new (word_in divisor_said self.old) }
        ensures refused { OnErr result (self.new ≡ self.old) }
    {
        let (word, behind) = self.front()?;
        let read = read_divisor(word).ok_or(Stop::Form)?;
        *self = behind;
        Ok(read)
    }

    /// Takes a number from 1 to 2^64 - 1, the weight of a change, and answers one less than it. So the
    /// answer can't stand for the weight 0, and `Form` is answered for the word 0.
    pub fn take_one_less(&mut self) -> Result<u64, Stop>
        ensures read { Takes result self.new (word_in positive_said self.old) }
        ensures fits { IfOk result (λ less. suc less < 2 ^ 64) }
        ensures refused { OnErr result (self.new ≡ self.old) }
    {
        let (word, behind) = self.front()?;
        let read = read_one_less(word).ok_or(Stop::Form)?;
        *self = behind;
        Ok(read)
    }

    /// Takes the place of a number in a line of the rules: the name of a field, from 1, or 0 for the
    /// constant.
    pub fn take_place(&mut self) -> Result<Place, Stop>
        ensures taken { Takes result self.new (word_in place_said self.old) }
        ensures refused { OnErr result (self.new ≡ self.old) }
    {
        let (word, behind) = self.front()?;
        let read = read_place(word).ok_or(Stop::Form)?;
        *self = behind;
        Ok(read)
    }

    /// Takes the next word where it is just `word`, such as `near` before its number. `Form` for any other.
    pub fn take_word(&mut self, word: &[u8]) -> Result<(), Stop>
        ensures taken { Takes result self.new (word_in (fixed_said word.now) self.old) }
        ensures refused { OnErr result (self.new ≡ self.old) }
    {
        let (next, behind) = self.front()?;
        if next != word {
            return Err(Stop::Form);
        }
        *self = behind;
        Ok(())
    }

    /// Takes the letters of a path, or `-` for the path of no fields. This call alone takes memory.
    pub fn take_path(&mut self, alloc: Global) -> Result<Path, Stop>
        ensures taken { Takes result self.new (word_in path_said self.old) }
        ensures refused { OnErr result (self.new ≡ self.old) }
    {
        let (word, behind) = self.front()?;
        let path = read_path(alloc, word)?;
        *self = behind;
        Ok(path)
    }

    /// Ok where no word is left, and else `Form`: what stands behind the last word of a form is refused.
    pub fn end(&self) -> Result<(), Stop>
        ensures { ReadsAs result (ended tt self.now) }
    {
        match self.front() {
            Ok(_) => Err(Stop::Form),
            Err(_) => Ok(()),
        }
    }
}

/// What stands before the first byte `mark` in the text, and what stands behind it. None where the text
/// has no such byte.
pub fn cut(text: &[u8], mark: u8) -> Option<(&[u8], &[u8])>
    ensures some { IfSome result (λ parts. split mark text.now ≡ parts.0.now ∷ split mark parts.1.now) }
    ensures shorter { IfSome result (λ parts. length parts.1.now < length text.now) }
    ensures none { IfNone result (split mark text.now ≡ text.now ∷ []) }
{
    match place_of(text, mark) {
        Some(place) => Some((&text[..place], &text[place + 1..])),
        None => None,
    }
}

// The first place of the byte, or None where the text doesn't have it.
fn place_of(text: &[u8], byte: u8) -> Option<usize>
    ensures { result ≡ position (λ b. b == byte) text.now }
{
    text.iter().position(|b| *b == byte)
}
