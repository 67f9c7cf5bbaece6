//! The names of the series, each with its colour. In contracts, `added` says what content is put last in
//! the page's innermost open element.
ghost use Rattle.std.specs.Prelude.{◌≡◌, map, OnOk};
ghost use Rattle.page_markup.specs.OpenPages.{added, opened};
ghost use Rattle.page_markup.specs.Trees.Content.{Nothing};
ghost use Rattle.page_markup.specs.declared.tag.Tag.TheVariants.{Drawing};
ghost use Rattle.page_figures.specs.Attributes.{key};
ghost use Rattle.page_figures.specs.Drawings.{key_content, legend_content, square_content};

use crate::colour::Colour;
use crate::drawing::{Place, push_rectangle};
use crate::elements::open_classed;
use foundation::OutOfMemory;
use page_markup::{Attribute, PageWriter, Tag, Value};

/// Adds a line with the names of the series, each behind a small square in its colour.
pub(crate) fn push_legend(page: &mut PageWriter, series: &[&[u8]]) -> Result<(), OutOfMemory>
    ensures { OnOk result (page.new ≡ added (legend_content (map (λ s. s.now) series.now)) page.old) }
{
    open_classed(page, Tag::Paragraph, b"legend")?;
    let mut colour = Colour::First;
    for name in series {
        push_key(page, colour, name)?;
        colour = colour.next();
    }
    page.close()
}

// Adds the name of a series behind a small square in its colour.
fn push_key(page: &mut PageWriter, colour: Colour, name: &[u8]) -> Result<(), OutOfMemory>
    ensures { OnOk result (page.new ≡ added (key_content colour name.now Nothing) page.old) }
{
    page.open(Tag::Span, &[])?;
    push_square(page, colour)?;
    page.text(name)?;
    page.close()
}

// Adds a small drawing that is filled by one square of this colour.
fn push_square(page: &mut PageWriter, colour: Colour) -> Result<(), OutOfMemory>
    ensures { OnOk result (page.new ≡ added (square_content colour Nothing) page.old) }
{
    open_key(page)?;
    let place = Place {
        x: 0,
        y: 0,
        width: 16,
        height: 16,
    };
    push_rectangle(page, colour, place)?;
    page.close()
}

// Opens a small drawing, 16 units wide and high, that stands in a line of text.
#[tactic(auto, unfolding(crate::specs::Attributes::key))]
fn open_key(page: &mut PageWriter) -> Result<(), OutOfMemory>
    ensures { OnOk result (page.new ≡ opened Drawing key page.old) }
{
    page.open(
        Tag::Drawing,
        &[
            (Attribute::Class, Value::Words(b"key")),
            (Attribute::ViewBox, Value::Words(b"0 0 16 16")),
        ],
    )
}
