//! The elements of a page, and their names: the tags of HTML and of its drawings that pages need, and no
//! others.
ghost use Rattle.std.specs.Prelude.{◌≡◌};
ghost use Rattle.page_markup.specs.Names.{tag_name, void_name};

/// An element that may hold others and words. None of them fetches or runs anything. `Drawing`, `Group`,
/// `Label` and `Description` are those of SVG; `Title` is the page's or a drawing's.
#[derive(Clone, Copy)]
pub enum Tag {
    /// `head`
    Head,
    /// `title`
    Title,
    /// `body`
    Body,
    /// `header`
    Header,
    /// `main`
    Main,
    /// `section`
    Section,
    /// `h1`
    Heading1,
    /// `h2`
    Heading2,
    /// `h3`
    Heading3,
    /// `p`
    Paragraph,
    /// `table`
    Table,
    /// `caption`
    Caption,
    /// `thead`
    TableHead,
    /// `tbody`
    TableBody,
    /// `tr`
    Row,
    /// `th`
    HeaderCell,
    /// `td`
    Cell,
    /// `figure`
    Figure,
    /// `figcaption`
    FigureCaption,
    /// `svg`
    Drawing,
    /// `g`
    Group,
    /// `text`
    Label,
    /// `desc`
    Description,
    /// `span`
    Span,
    /// `small`
    Small,
    /// `div`
    Division,
}

impl Tag {
    /// The element's name as it is written in a page, such as `thead`. No memory.
    #[tactic(auto, unfolding(crate::specs::Names::tag_name))]
    pub fn name(self) -> &'static [u8]
        ensures { result.now ≡ tag_name self }
    {
        match self {
            Tag::Head => b"head",
            Tag::Title => b"title",
            Tag::Body => b"body",
            Tag::Header => b"header",
            Tag::Main => b"main",
            Tag::Section => b"section",
            Tag::Heading1 => b"h1",
            Tag::Heading2 => b"h2",
            Tag::Heading3 => b"h3",
            Tag::Paragraph => b"p",
            Tag::Table => b"table",
            Tag::Caption => b"caption",
            Tag::TableHead => b"thead",
            Tag::TableBody => b"tbody",
            Tag::Row => b"tr",
            Tag::HeaderCell => b"th",
            Tag::Cell => b"td",
            Tag::Figure => b"figure",
            Tag::FigureCaption => b"figcaption",
            Tag::Drawing => b"svg",
            Tag::Group => b"g",
            Tag::Label => b"text",
            Tag::Description => b"desc",
            Tag::Span => b"span",
            Tag::Small => b"small",
            Tag::Division => b"div",
        }
    }
}

/// An element that never holds anything. `Meta` stands in the head, the shapes in a drawing.
#[derive(Clone, Copy)]
pub enum VoidTag {
    /// `meta`
    Meta,
    /// `rect`
    Rectangle,
    /// `line`
    Line,
    /// `path`
    Path,
}

impl VoidTag {
    /// The element's name as it is written in a page, such as `rect`. No memory.
    #[tactic(auto, unfolding(crate::specs::Names::void_name))]
    pub fn name(self) -> &'static [u8]
        ensures { result.now ≡ void_name self }
    {
        match self {
            VoidTag::Meta => b"meta",
            VoidTag::Rectangle => b"rect",
            VoidTag::Line => b"line",
            VoidTag::Path => b"path",
        }
    }
}
