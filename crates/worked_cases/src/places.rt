//! The places of a file at which a text stands. They show the part of a long file that a case is about.

use case_files::{Files, no_such_file};
use foundation::OutOfMemory;
use std::alloc::Global;

/// The command `grep -oF TEXT NAME`: a line with the text for each place of the file at which it stands. The
/// only line is `[1]` where it stands nowhere, and the output says so where there is no such file.
pub fn places_shown(
    alloc: Global,
    files: &Files,
    text: &str,
    name: &str,
) -> Result<Vec<Vec<u8>>, OutOfMemory> {
    let Some(bytes) = files.bytes(name) else {
        return no_such_file(alloc, "grep", name);
    };
    let count = place_count(bytes, text.as_bytes());
    let mut lines = Vec::new(alloc);
    for _ in 0..count {
        lines.push(text.as_bytes().to_vec(alloc)?)?;
    }
    if count == 0 {
        lines.push(b"[1]".to_vec(alloc)?)?;
    }
    Ok(lines)
}

// At how many places of the bytes the text stands.
fn place_count(bytes: &[u8], text: &[u8]) -> usize {
    (0..bytes.len())
        .filter(|start| bytes[*start..].starts_with(text))
        .count()
}
