//! What stands before the sections: the head of the page, and its header. In contracts, `added` says
//! what content is put last in the page's innermost open element.
ghost use Rattle.std.specs.Prelude.{◌≡◌, ◌+◌, ◌^◌, ◌<◌, IfOk, OnOk};
ghost use Rattle.page_markup.specs.OpenPages.{added};
ghost use Rattle.page_sections.specs.ReleasePages.{head_content, header_content, left_out_total, summary, viewport_content};

use foundation::OutOfMemory;
use page_counts::RecordCounts;
use page_figures::push_words;
use page_markup::{Attribute, PageWriter, Tag, Value, VoidTag};
use std::alloc::Global;

const TITLE: &[u8] = b"What an edit changed";

/// Adds the head: that the page is UTF-8, how wide it is, its title, and the style sheet.
pub(crate) fn push_head(page: &mut PageWriter) -> Result<(), OutOfMemory>
    ensures { OnOk result (page.new ≡ added head_content page.old) }
{
    page.open(Tag::Head, &[])?;
    page.empty(
        VoidTag::Meta,
        &[(Attribute::Charset, Value::Words(b"utf-8"))],
    )?;
    push_viewport(page)?;
    push_words(page, Tag::Title, &[], TITLE)?;
    page.style()?;
    page.close()
}

// Adds the element by which the page is as wide as the screen.
fn push_viewport(page: &mut PageWriter) -> Result<(), OutOfMemory>
    ensures { OnOk result (page.new ≡ added viewport_content page.old) }
{
    page.empty(
        VoidTag::Meta,
        &[
            (Attribute::Name, Value::Words(b"viewport")),
            (
                Attribute::Content,
                Value::Words(b"width=device-width, initial-scale=1"),
            ),
        ],
    )
}

/// Adds the page's header: the first heading, and a sentence on what became of the records. `rows` is how many
/// records there are.
pub(crate) fn push_header(
    alloc: Global,
    page: &mut PageWriter,
    rows: u32,
    counts: &RecordCounts,
) -> Result<(), OutOfMemory>
    ensures { OnOk result (page.new ≡ added (header_content rows counts.now) page.old) }
{
    let words = summary(alloc, rows, counts)?;
    page.open(Tag::Header, &[])?;
    push_words(page, Tag::Heading1, &[], TITLE)?;
    push_words(page, Tag::Paragraph, &[], &words)?;
    page.close()
}

// The sentence that says how many records there are, and what became of them, such as
// `9 records: 5 clean, 3 changed, 1 left out.`
fn summary(alloc: Global, rows: u32, counts: &RecordCounts) -> Result<Vec<u8>, OutOfMemory>
    ensures { IfOk result (λ words. words.items ≡ summary rows counts.now) }
{
    let clean = counts.clean;
    let changed = counts.changed;
    let left_out = left_out_total(counts);
    let words = format!(in alloc;
        "{rows} records: {clean} clean, {changed} changed, {left_out} left out."
    )?;
    Ok(words.into_bytes())
}

// How many records were left out, by whichever cause.
fn left_out_total(counts: &RecordCounts) -> u128
    ensures { result ≡ left_out_total counts.now }
{
    counts.budget as u128
        + counts.overflow as u128
        + counts.contradictory as u128
        + counts.no_last as u128
        + counts.no_correction as u128
}
