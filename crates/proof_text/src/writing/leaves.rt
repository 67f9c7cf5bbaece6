//! The lines of leaves, appended.
//!
//! `shared` is the number of the lines of the rules, behind which those of a table are numbered. It is None
//! where the file has no table.
//!
//! In contracts, `IsSizedLeaf` and its like say that each number of the text fits its type, and each list
//! is counted by 64 bits.
ghost use Rattle.std.specs.Prelude.{◌≡◌, ◌∷◌, ◌++◌, length, OnOk};
ghost use Rattle.std.specs.Fmt.{decimal};
ghost use Rattle.std.specs.List.{flat_map};
ghost use Rattle.proof_grammar.specs.ProofLines.{leaf_lines_in, lines_text};
ghost use Rattle.proof_grammar.specs.Sizes.{AreSizedLeaves, IsSizedLeaf};
ghost use Rattle.proof_text.specs.inner.Texts.{counted_text};

use super::steps::write_steps;
use super::words::{write_count, write_path};
use bound_cert::{Leaf, LeafWhy};
use foundation::OutOfMemory;

/// Appends the count of the leaves, which ends the line of a head, and their lines.
pub(super) fn write_leaves(
    text: &mut Vec<u8>,
    shared: Option<u64>,
    leaves: &[Leaf],
) -> Result<(), OutOfMemory>
    ensures text { OnOk result (text.new.items
        ≡ text.old.items ++ counted_text (length leaves.now) (flat_map (leaf_lines_in shared) leaves.now)) }
    ensures sized { OnOk result (AreSizedLeaves leaves.now) }
{
    write_count(text, leaves.len())?;
    for leaf in leaves {
        write_leaf(text, shared, leaf)?;
    }
    Ok(())
}

// Appends the lines of a leaf: its head, and its steps where it has some.
fn write_leaf(text: &mut Vec<u8>, shared: Option<u64>, leaf: &Leaf) -> Result<(), OutOfMemory>
    ensures text { OnOk result (text.new.items ≡ text.old.items ++ lines_text (leaf_lines_in shared leaf.now)) }
    ensures sized { OnOk result (IsSizedLeaf leaf.now) }
{
    match &leaf.why {
        LeafWhy::Bound => {
            text.extend_from_slice(b"bound")?;
            write_path(text, &leaf.path)?;
            text.push(b'\n')?;
            Ok(())
        }
        LeafWhy::BadKept => {
            text.extend_from_slice(b"bad")?;
            write_path(text, &leaf.path)?;
            text.push(b'\n')?;
            Ok(())
        }
        LeafWhy::Line(steps) => {
            text.extend_from_slice(b"line")?;
            write_path(text, &leaf.path)?;
            write_steps(text, shared, steps.as_slice())
        }
        LeafWhy::Box(steps) => {
            text.extend_from_slice(b"box")?;
            write_path(text, &leaf.path)?;
            write_steps(text, shared, steps.as_slice())
        }
    }
}
