//! The page of a release, put together of its head and its sections. In contracts, `added` says what
//! content is put last in the page's innermost open element, and `release_parts` is what definitions see of
//! a release. `AreFigures` says that the figures are counted from the files of the release, and
//! `IsReleasePage` that the page says them.
ghost use Rattle.std.specs.Prelude.{◌≡◌, IfOk, OnOk};
ghost use Rattle.page_markup.specs.OpenPages.{added};
ghost use Rattle.page_markup.specs.Trees.{IsWellFormed};
ghost use Rattle.page_sections.specs.ReleasePages.{body_content, IsReleasePage, sections_content};
ghost use Rattle.release_figures.specs.Figures.{AreFigures};
ghost use Rattle.release_figures.specs.Releases.{release_parts};

use crate::donors::push_donors;
use crate::fields::push_fields;
use crate::greatest::push_greatest;
use crate::head::{push_head, push_header};
use crate::records::push_records;
use crate::rules::push_rules;
use crate::values::push_values;
use crate::weights::push_weights;
use foundation::OutOfMemory;
use page_markup::{PageWriter, Tag};
use release_figures::{Release, ReleaseFigures};
use std::alloc::Global;

/// The page that says what an edit changed, by the figures of its release. It is an HTML text in UTF-8,
/// which fetches nothing and runs nothing.
pub fn release_page(
    alloc: Global,
    release: &Release,
    figures: &ReleaseFigures,
) -> Result<Vec<u8>, OutOfMemory>
    requires { AreFigures (release_parts release.now) figures.now }
    ensures page { IfOk result (λ page. IsReleasePage (release_parts release.now) page.items) }
    ensures well_formed { IfOk result (λ page. IsWellFormed page.items) }
{
    let mut page = PageWriter::new(alloc, b"en")?;
    push_head(&mut page)?;
    push_body(alloc, &mut page, release, figures)?;
    page.finish()
}

// Adds the body of the page: the header, and then the sections in an element of their own.
fn push_body(
    alloc: Global,
    page: &mut PageWriter,
    release: &Release,
    figures: &ReleaseFigures,
) -> Result<(), OutOfMemory>
    ensures { OnOk result (page.new ≡ added (body_content (release_parts release.now) figures.now) page.old) }
{
    page.open(Tag::Body, &[])?;
    push_header(alloc, page, release.records.len(), &figures.records)?;
    page.open(Tag::Main, &[])?;
    push_sections(alloc, page, release, figures)?;
    page.close()?;
    page.close()
}

// Adds the seven sections, in the order in which they stand in the page.
fn push_sections(
    alloc: Global,
    page: &mut PageWriter,
    release: &Release,
    figures: &ReleaseFigures,
) -> Result<(), OutOfMemory>
    ensures { OnOk result (page.new ≡ added (sections_content (release_parts release.now) figures.now) page.old) }
{
    let fields = release.survey.fields();
    push_records(alloc, page, &figures.records)?;
    push_fields(alloc, page, fields, figures)?;
    push_rules(alloc, page, release.survey, figures)?;
    push_weights(alloc, page, figures.weights.as_slice())?;
    push_values(alloc, page, fields, figures.values.as_slice())?;
    push_greatest(alloc, page, release, figures)?;
    push_donors(alloc, page, figures.gifts.as_slice())
}
