//! Elements by their class, and elements that hold words alone. In contracts, `added` says what content
//! is put last in the page's innermost open element. `opened` says which element is open then.
ghost use Rattle.std.specs.Prelude.{◌≡◌, OnOk};
ghost use Rattle.std.specs.Fmt.{decimal};
ghost use Rattle.page_markup.specs.OpenPages.{added, given, opened};
ghost use Rattle.page_markup.specs.Trees.Content.{Element, Nothing, Words};
ghost use Rattle.page_figures.specs.Attributes.{classed};

use foundation::OutOfMemory;
use page_markup::{Attribute, PageWriter, Tag, Value};

/// Opens an element of a class of the style sheet, which the caller closes.
#[tactic(auto, unfolding(crate::specs::Attributes::classed))]
pub(crate) fn open_classed(page: &mut PageWriter, tag: Tag, class: &[u8]) -> Result<(), OutOfMemory>
    ensures { OnOk result (page.new ≡ opened tag (classed class.now) page.old) }
{
    page.open(tag, &[(Attribute::Class, Value::Words(class))])
}

/// Adds an element that holds these words. Where memory runs out, a part of it may be in the page.
pub fn push_words(
    page: &mut PageWriter,
    tag: Tag,
    attributes: &[(Attribute, Value)],
    words: &[u8],
) -> Result<(), OutOfMemory>
    ensures { OnOk result (page.new ≡ added
        (Element tag (given attributes.now) (Words words.now Nothing) Nothing) page.old) }
{
    page.open(tag, attributes)?;
    page.text(words)?;
    page.close()
}

/// Adds an element that holds a number. Where memory runs out, a part of it may be in the page.
pub(crate) fn push_number(
    page: &mut PageWriter,
    tag: Tag,
    attributes: &[(Attribute, Value)],
    number: u64,
) -> Result<(), OutOfMemory>
    ensures { OnOk result (page.new ≡ added
        (Element tag (given attributes.now) (Words (decimal number) Nothing) Nothing) page.old) }
{
    page.open(tag, attributes)?;
    page.number(number)?;
    page.close()
}
