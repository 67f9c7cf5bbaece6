//! The colours of series, which the style sheet names.
ghost use Rattle.std.specs.Prelude.{◌≡◌};
ghost use Rattle.page_figures.specs.Colours.{colour_class, next_colour};

/// The colour of a series. A fifth series has that of the first again.
#[derive(Clone, Copy)]
pub(crate) enum Colour {
    First,
    Second,
    Third,
    Fourth,
}

impl Colour {
    /// The colour of the next series. No memory.
    pub(crate) fn next(self) -> Colour
        ensures { result ≡ next_colour self }
    {
        match self {
            Colour::First => Colour::Second,
            Colour::Second => Colour::Third,
            Colour::Third => Colour::Fourth,
            Colour::Fourth => Colour::First,
        }
    }

    /// The name that the style sheet has for the class of this colour. No memory.
    #[tactic(auto, unfolding(crate::specs::Colours::colour_class))]
    pub(crate) fn class(self) -> &'static [u8]
        ensures { result.now ≡ colour_class self }
    {
        match self {
            Colour::First => b"first",
            Colour::Second => b"second",
            Colour::Third => b"third",
            Colour::Fourth => b"fourth",
        }
    }
}
