//! Of what kind a business is: the codes of three of its four categorical fields. The fourth is its size.
ghost use Rattle.std.specs.Prelude.{◌≡◌, ◌<◌, slice_index_or};
ghost use Rattle.survey_maker.specs.Kinds.{activities, activity_text, form_text, region_text, regions};
ghost use Rattle.survey_maker.specs.declared.kinds.Activity.TheVariants.{Service};
ghost use Rattle.survey_maker.specs.declared.kinds.Region.TheVariants.{West};

/// What a business does.
#[derive(Clone, Copy)]
pub(crate) enum Activity {
    Farm,
    Industry,
    Trade,
    Service,
}

impl Activity {
    /// The activity of this number, from 0, in the order of the field's codes.
    pub(crate) fn of_number(number: u32) -> Activity
        requires { number < 4 }
        ensures { result ≡ slice_index_or activities number Service }
    {
        match number {
            0 => Activity::Farm,
            1 => Activity::Industry,
            2 => Activity::Trade,
            _ => Activity::Service,
        }
    }

    /// The activity's code, as it stands in files.
    pub(crate) fn text(self) -> &'static [u8]
        ensures { result.now ≡ activity_text self }
    {
        match self {
            Activity::Farm => b"farm",
            Activity::Industry => b"industry",
            Activity::Trade => b"trade",
            Activity::Service => b"service",
        }
    }
}

/// Where a business is.
#[derive(Clone, Copy)]
pub(crate) enum Region {
    North,
    South,
    East,
    West,
}

impl Region {
    /// The region of this number, from 0, in the order of the field's codes.
    pub(crate) fn of_number(number: u32) -> Region
        requires { number < 4 }
        ensures { result ≡ slice_index_or regions number West }
    {
        match number {
            0 => Region::North,
            1 => Region::South,
            2 => Region::East,
            _ => Region::West,
        }
    }

    /// The region's code, as it stands in files.
    pub(crate) fn text(self) -> &'static [u8]
        ensures { result.now ≡ region_text self }
    {
        match self {
            Region::North => b"north",
            Region::South => b"south",
            Region::East => b"east",
            Region::West => b"west",
        }
    }
}

/// Who owns a business: one person, a company, or the public. No business of the third form is made.
#[derive(Clone, Copy)]
pub(crate) enum Form {
    Sole,
    Company,
    Public,
}

impl Form {
    /// The form's code, as it stands in files.
    pub(crate) fn text(self) -> &'static [u8]
        ensures { result.now ≡ form_text self }
    {
        match self {
            Form::Sole => b"sole",
            Form::Company => b"company",
            Form::Public => b"public",
        }
    }
}
