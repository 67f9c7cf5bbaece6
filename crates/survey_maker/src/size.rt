//! Size classes of businesses, by their staff: how many people a business of a class has.
ghost use Rattle.std.specs.Prelude.{◌≡◌, ◌+◌, ◌<◌, ◌≤◌, slice_index_or};
ghost use Rattle.survey_maker.specs.Kinds.{least_staff, may_be_sole, size_text, sizes, staff_numbers};
ghost use Rattle.survey_maker.specs.declared.size.Size.TheVariants.{Large};

/// A size class.
#[derive(Clone, Copy)]
pub(crate) enum Size {
    Micro,
    Small,
    Medium,
    Large,
}

impl Size {
    /// The size class of this number, from 0, in the order of the field's codes.
    pub(crate) fn of_number(number: u32) -> Size
        requires { number < 4 }
        ensures { result ≡ slice_index_or sizes number Large }
    {
        match number {
            0 => Size::Micro,
            1 => Size::Small,
            2 => Size::Medium,
            _ => Size::Large,
        }
    }

    /// How many people the smallest business of the class has.
    pub(crate) fn least_staff(self) -> u32
        ensures number { result ≡ least_staff self }
        ensures within { result ≤ 250 }
    {
        match self {
            Size::Micro => 1,
            Size::Small => 10,
            Size::Medium => 50,
            Size::Large => 250,
        }
    }

    /// How many numbers of staff a business of the class may have, from the least on: 9 for 1 to 9. One of
    /// them is drawn. The rules set the last class no upper end; here it has 250 to 999.
    pub(crate) fn staff_numbers(self) -> u32
        ensures number { result ≡ staff_numbers self }
        ensures some { 0 < result }
        ensures within { result ≤ 750 }
    {
        match self {
            Size::Micro => 9,
            Size::Small => 40,
            Size::Medium => 200,
            Size::Large => 750,
        }
    }

    /// Whether one person may own a business of the class, by the rules of the survey.
    pub(crate) fn may_be_sole(self) -> bool
        ensures { result ≡ may_be_sole self }
    {
        match self {
            Size::Micro | Size::Small => true,
            Size::Medium | Size::Large => false,
        }
    }

    /// The code of the class, as it stands in files.
    pub(crate) fn text(self) -> &'static [u8]
        ensures { result.now ≡ size_text self }
    {
        match self {
            Size::Micro => b"micro",
            Size::Small => b"small",
            Size::Medium => b"medium",
            Size::Large => b"large",
        }
    }
}
