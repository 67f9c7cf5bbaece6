//! How each section of the page begins. In contracts, `added` says what content is put last in the page, and
//! `opened` which element is open then.
ghost use Rattle.std.specs.Prelude.{◌≡◌, [], OnOk};
ghost use Rattle.page_markup.specs.OpenPages.{added, opened};
ghost use Rattle.page_markup.specs.Trees.Content.{Nothing};
ghost use Rattle.page_markup.specs.declared.tag.Tag.TheVariants.{Section};
ghost use Rattle.page_sections.specs.Sections.{heading_content};

use foundation::OutOfMemory;
use page_figures::push_words;
use page_markup::{Attribute, PageWriter, Tag, Value};

const OF_NOTE: &[(Attribute, Value)] = &[(Attribute::Class, Value::Words(b"note"))];

/// Opens a section, and adds its heading and its note. The caller adds what the section shows, such as a
/// figure or a table, and closes it.
pub(crate) fn open_section(
    page: &mut PageWriter,
    heading: &[u8],
    note: &[u8],
) -> Result<(), OutOfMemory>
    ensures { OnOk result (page.new ≡ added (heading_content heading.now note.now Nothing) (opened Section [] page.old)) }
{
    page.open(Tag::Section, &[])?;
    push_words(page, Tag::Heading2, &[], heading)?;
    push_words(page, Tag::Paragraph, OF_NOTE, note)
}
