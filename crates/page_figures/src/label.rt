//! Texts of a picture: numbers, and labels that may be too long for it. `x` and `y` are places in units from
//! the left and from above. In contracts, `added` says what content is put last in the page's innermost open
//! element, and `opened` which element is open then.
ghost use Rattle.std.specs.Prelude.{◌≡◌, ◌<◌, ◌≤◌, [], ◌∷◌, codes, length, OnOk, take};
ghost use Rattle.std.specs.Fmt.{decimal};
ghost use Rattle.page_markup.specs.OpenPages.{added, opened};
ghost use Rattle.page_markup.specs.Trees.Content.{Element, Nothing, Words};
ghost use Rattle.page_markup.specs.declared.tag.Tag.TheVariants.{Label};
ghost use Rattle.page_figures.specs.Attributes.{text_at};
ghost use Rattle.page_figures.specs.Drawings.{boundary, goes_on, shortened};

use crate::elements::push_number;
use foundation::OutOfMemory;
use page_markup::{Attribute, PageWriter, Tag, Value};

// What stands for the rest of a label: U+2026.
const ELLIPSIS: &[u8] = &[0xE2, 0x80, 0xA6];

/// Adds a number in decimal digits, whose end is at `x`, on the line at `y`.
#[tactic(auto, unfolding(crate::specs::Attributes::text_at))]
pub(crate) fn push_number_at(
    page: &mut PageWriter,
    x: u64,
    y: u64,
    number: u64,
) -> Result<(), OutOfMemory>
    ensures { OnOk result (page.new ≡ added
        (Element Label (text_at x y (codes "end")) (Words (decimal number) Nothing) Nothing) page.old) }
{
    push_number(
        page,
        Tag::Label,
        &[
            (Attribute::X, Value::Number(x)),
            (Attribute::Y, Value::Number(y)),
            (Attribute::TextAnchor, Value::Words(b"end")),
        ],
        number,
    )
}

/// Adds a label, which is cut where it has more than `most` bytes. `anchor` says which part of it is at
/// `x`, on the line `y`: its `end` or its `middle`.
pub(crate) fn push_label(
    page: &mut PageWriter,
    x: u64,
    y: u64,
    anchor: &[u8],
    label: &[u8],
    most: usize,
) -> Result<(), OutOfMemory>
    ensures { OnOk result (page.new ≡ added
        (Element Label (text_at x y anchor.now) (shortened most label.now) Nothing) page.old) }
{
    open_label(page, x, y, anchor)?;
    push_shortened(page, label, most)?;
    page.close()
}

// Opens a text on the line `y` whose end or middle, as `anchor` says, is at `x`.
#[tactic(auto, unfolding(crate::specs::Attributes::text_at))]
fn open_label(page: &mut PageWriter, x: u64, y: u64, anchor: &[u8]) -> Result<(), OutOfMemory>
    ensures { OnOk result (page.new ≡ opened Label (text_at x y anchor.now) page.old) }
{
    page.open(
        Tag::Label,
        &[
            (Attribute::X, Value::Number(x)),
            (Attribute::Y, Value::Number(y)),
            (Attribute::TextAnchor, Value::Words(anchor)),
        ],
    )
}

// Adds a label, or where it has more than `most` bytes, its start and an ellipsis.
fn push_shortened(page: &mut PageWriter, label: &[u8], most: usize) -> Result<(), OutOfMemory>
    ensures { OnOk result (page.new ≡ added (shortened most label.now) page.old) }
{
    if label.len() <= most {
        page.text(label)
    } else {
        push_start(page, label, most.saturating_sub(1))
    }
}

// Adds the start of a label, of at most `end` bytes and whole characters, and an ellipsis behind it.
fn push_start(page: &mut PageWriter, label: &[u8], end: usize) -> Result<(), OutOfMemory>
    requires { end < length label.now }
    ensures { OnOk result (page.new ≡ added
        (Words (take (boundary label.now end) label.now) (Words (226 ∷ 128 ∷ 166 ∷ []) Nothing)) page.old) }
{
    page.text(&label[..boundary(label, end)])?;
    page.text(ELLIPSIS)
}

// Where a label is cut, so that no character of UTF-8 is cut: the greatest place up to `end` at which a
// character may begin. It is 0 where there is no such place. No memory.
#[tactic(auto, using(crate::proofs::PageLaws::boundaries))]
fn boundary(label: &[u8], end: usize) -> usize
    requires { end < length label.now }
    ensures place { result ≡ boundary label.now end }
    ensures before { result ≤ end }
{
    if end == 0 {
        return 0;
    }
    if !goes_on(label[end]) {
        return end;
    }
    boundary(label, end - 1)
}

// Whether a byte belongs to a character of UTF-8 that began before it: those from 128 to 191. No memory.
fn goes_on(byte: u8) -> bool
    ensures { result ≡ goes_on byte }
{
    matches!(byte, 128..192)
}
