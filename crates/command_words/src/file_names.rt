//! Whether the names of two files show that they lead to one file, so that a command would overwrite what
//! it reads. A link is not seen, since no file is looked at.
ghost use Rattle.std.specs.Prelude.{◌≡◌, ◌↔◌, IsTrue, map};
ghost use Rattle.std.specs.List.{AllByRecursion, list_any};
ghost use Rattle.std.specs.Path.{components_remaining};
ghost use Rattle.command_words.specs.FileNames.{AreApart, LeadToOne, file_parts};

use std::path::{Components, Path};

/// Whether no two of the names lead to one file, as far as the names show. Each is compared with those behind
/// it. No memory.
pub(crate) fn are_apart(names: &[&str]) -> bool
    ensures { IsTrue result ↔ AreApart (map (λ name. name.now) names.now) }
{
    for place in 0..names.len() {
        if !is_apart_from(names[place], &names[place + 1..]) {
            return false;
        }
    }
    true
}

// Whether the name leads to another file than each of the others, as far as the names show.
fn is_apart_from(name: &str, others: &[&str]) -> bool
    ensures { IsTrue result ↔ AllByRecursion (λ other. ¬ LeadToOne name.now other.now) others.now }
{
    !others.iter().any(|other| lead_to_one(name, other))
}

// Whether both names lead to one file, as `records.csv`, `./records.csv` and `.//records.csv` do: their
// folders and files are the same, part by part.
fn lead_to_one(a: &str, b: &str) -> bool
    ensures { IsTrue result ↔ LeadToOne a.now b.now }
{
    let mut left = parts_of(a);
    let mut right = parts_of(b);
    while let Some(part) = left.next() {
        let Some(other) = right.next() else {
            return false;
        };
        if part.as_os_str() != other.as_os_str() {
            return false;
        }
    }
    right.next().is_none()
}

// The folders that the name leads through, and the file, in order. A `.` in front is passed over here, as
// `components` passes over it anywhere else. None are left of the empty name, or of `.` alone.
fn parts_of(name: &str) -> Components<'_>
    ensures { components_remaining result ≡ file_parts name.now }
{
    let mut rest = Path::new(name).components();
    let Some(first) = rest.next() else {
        return rest;
    };
    if first.as_os_str() == "." {
        rest
    } else {
        Path::new(name).components()
    }
}
