//! The attributes of elements, and their names and values.
ghost use Rattle.std.specs.Prelude.{◌≡◌};
ghost use Rattle.page_markup.specs.Names.{attribute_name};

/// The name of an attribute. None of them makes a browser fetch or run anything; colours are the style
/// sheet's, by `Class`.
#[derive(Clone, Copy)]
pub enum Attribute {
    /// `lang`
    Language,
    /// `charset`
    Charset,
    /// `name`
    Name,
    /// `content`
    Content,
    /// `class`
    Class,
    /// `id`
    Identifier,
    /// `scope`
    Scope,
    /// `colspan`
    ColumnSpan,
    /// `role`
    Role,
    /// `aria-labelledby`
    LabelledBy,
    /// `viewBox`
    ViewBox,
    /// `width`
    Width,
    /// `height`
    Height,
    /// `x`
    X,
    /// `y`
    Y,
    /// `x1`
    X1,
    /// `y1`
    Y1,
    /// `x2`
    X2,
    /// `y2`
    Y2,
    /// `d`
    Outline,
    /// `text-anchor`
    TextAnchor,
}

impl Attribute {
    /// The attribute's name as it is written in a page, such as `colspan`. No memory.
    #[tactic(auto, unfolding(crate::specs::Names::attribute_name))]
    pub fn name(self) -> &'static [u8]
        ensures { result.now ≡ attribute_name self }
    {
        match self {
            Attribute::Language => b"lang",
            Attribute::Charset => b"charset",
            Attribute::Name => b"name",
            Attribute::Content => b"content",
            Attribute::Class => b"class",
            Attribute::Identifier => b"id",
            Attribute::Scope => b"scope",
            Attribute::ColumnSpan => b"colspan",
            Attribute::Role => b"role",
            Attribute::LabelledBy => b"aria-labelledby",
            Attribute::ViewBox => b"viewBox",
            Attribute::Width => b"width",
            Attribute::Height => b"height",
            Attribute::X => b"x",
            Attribute::Y => b"y",
            Attribute::X1 => b"x1",
            Attribute::Y1 => b"y1",
            Attribute::X2 => b"x2",
            Attribute::Y2 => b"y2",
            Attribute::Outline => b"d",
            Attribute::TextAnchor => b"text-anchor",
        }
    }
}

/// The value of an attribute.
#[derive(Clone, Copy)]
pub enum Value<'a> {
    /// These bytes, whatever they are.
    Words(&'a [u8]),
    /// A number, in decimal digits.
    Number(u64),
}
