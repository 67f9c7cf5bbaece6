//! What every drawing has: a name, a description, rectangles and lines. In contracts, `added` says what
//! content is put last in the page's innermost open element. `opened` says which element is open then.
ghost use Rattle.std.specs.Prelude.{◌≡◌, OnOk};
ghost use Rattle.page_markup.specs.OpenPages.{added, opened};
ghost use Rattle.page_markup.specs.Trees.Content.{Element, Nothing, Words};
ghost use Rattle.page_markup.specs.declared.tag.Tag.TheVariants.{Drawing};
ghost use Rattle.page_figures.specs.Attributes.{image, named};
ghost use Rattle.page_figures.specs.Drawings.{drawing_attributes, figure_parts, line_content, names_content, rectangle_content};

use crate::colour::Colour;
use crate::elements::push_words;
use crate::figure::Figure;
use foundation::OutOfMemory;
use page_markup::{Attribute, PageWriter, Tag, Value, VoidTag};
use std::alloc::Global;

/// Opens a drawing, which the caller closes. `view` has its left and upper end, its width and its height, as
/// in `0 0 784 296`. The figure's title and description are added, by which a screen reader names the
/// drawing.
pub(crate) fn open_drawing(
    alloc: Global,
    page: &mut PageWriter,
    figure: &Figure,
    view: &[u8],
) -> Result<(), OutOfMemory>
    ensures { OnOk result (page.new ≡ added (names_content (figure_parts figure.now) Nothing)
        (opened Drawing (drawing_attributes figure.now.id view.now) page.old)) }
{
    let id = figure.id;
    let names = format!(in alloc; "title-{id} description-{id}")?;
    open_image(page, names.as_bytes(), view)?;
    let title = format!(in alloc; "title-{id}")?;
    push_named(page, Tag::Title, title.as_bytes(), figure.title)?;
    let description = format!(in alloc; "description-{id}")?;
    push_named(
        page,
        Tag::Description,
        description.as_bytes(),
        figure.description,
    )
}

// Opens a drawing that other elements name and describe. `names` has their identifiers, parted by a
// space.
#[tactic(auto, unfolding(crate::specs::Attributes::image))]
fn open_image<'a>(page: &mut PageWriter, names: &'a [u8], view: &'a [u8]) -> Result<(), OutOfMemory>
    ensures { OnOk result (page.new ≡ opened Drawing (image names.now view.now) page.old) }
{
    page.open(
        Tag::Drawing,
        &[
            (Attribute::Role, Value::Words(b"img")),
            (Attribute::LabelledBy, Value::Words(names)),
            (Attribute::ViewBox, Value::Words(view)),
        ],
    )
}

// Adds an element that holds `words`, with the identifier `name`, by which others speak of it.
#[tactic(auto, unfolding(crate::specs::Attributes::named))]
fn push_named(page: &mut PageWriter, tag: Tag, name: &[u8], words: &[u8]) -> Result<(), OutOfMemory>
    ensures { OnOk result (page.new ≡ added (Element tag (named name.now) (Words words.now Nothing) Nothing) page.old) }
{
    push_words(
        page,
        tag,
        &[(Attribute::Identifier, Value::Words(name))],
        words,
    )
}

/// Where a rectangle of a drawing stands, in units from the left and from above.
#[derive(Clone, Copy)]
pub(crate) struct Place {
    pub x: u64,
    pub y: u64,
    pub width: u64,
    pub height: u64,
}

/// Adds a rectangle in a colour at the place `place`.
#[tactic(auto, unfolding(crate::specs::Attributes::rectangle_at))]
pub(crate) fn push_rectangle(
    page: &mut PageWriter,
    colour: Colour,
    place: Place,
) -> Result<(), OutOfMemory>
    ensures { OnOk result (page.new ≡ added
        (rectangle_content colour place.x place.y place.width place.height Nothing) page.old) }
{
    page.empty(
        VoidTag::Rectangle,
        &[
            (Attribute::Class, Value::Words(colour.class())),
            (Attribute::X, Value::Number(place.x)),
            (Attribute::Y, Value::Number(place.y)),
            (Attribute::Width, Value::Number(place.width)),
            (Attribute::Height, Value::Number(place.height)),
        ],
    )
}

/// Adds a line of a class of the style sheet. It goes from the place `x1` and `y1` to `x2` and `y2`, in units
/// from the left and from above.
#[tactic(auto, unfolding(crate::specs::Attributes::line_at))]
pub(crate) fn push_line(
    page: &mut PageWriter,
    class: &[u8],
    x1: u64,
    y1: u64,
    x2: u64,
    y2: u64,
) -> Result<(), OutOfMemory>
    ensures { OnOk result (page.new ≡ added (line_content class.now x1 y1 x2 y2 Nothing) page.old) }
{
    page.empty(
        VoidTag::Line,
        &[
            (Attribute::Class, Value::Words(class)),
            (Attribute::X1, Value::Number(x1)),
            (Attribute::Y1, Value::Number(y1)),
            (Attribute::X2, Value::Number(x2)),
            (Attribute::Y2, Value::Number(y2)),
        ],
    )
}
