//! The words of a command, told apart as a file of cases spells them.

use crate::fault::{Kind, PartFault};
use std::alloc::Global;

/// The words of a command, in order. They are parted by single spaces. One in single quotes keeps its
/// spaces, and may be empty. `Kind::Words` where a space stands too much, the text is empty, or a quote
/// is open. The bound of the loop is never reached: each turn takes at least one byte of the text.
pub fn words_of(alloc: Global, text: &str) -> Result<Vec<&str>, PartFault> {
    let mut words = Vec::new(alloc);
    let mut rest = text;
    for _ in 0..u64::MAX {
        let (word, behind) = first_word(rest)?;
        words.push(word)?;
        match behind {
            Some(behind) => rest = behind,
            None => return Ok(words),
        }
    }
    Err(PartFault::from(Kind::Words))
}

// The first word of the text, and what stands behind the space that follows it, or None where the text
// ends with the word. `Kind::Words` where a quote is open, anything but a space follows a closed one, or
// a word without quotes is empty.
fn first_word(text: &str) -> Result<(&str, Option<&str>), Kind> {
    if let Some(quoted) = text.strip_prefix('\'') {
        let Some((word, behind)) = quoted.split_once('\'') else {
            return Err(Kind::Words);
        };
        if behind.is_empty() {
            return Ok((word, None));
        }
        return match behind.strip_prefix(' ') {
            Some(behind) => Ok((word, Some(behind))),
            None => Err(Kind::Words),
        };
    }
    let (word, behind) = match text.split_once(' ') {
        Some((word, behind)) => (word, Some(behind)),
        None => (text, None),
    };
    if word.is_empty() {
        return Err(Kind::Words);
    }
    Ok((word, behind))
}
