//! What making lines asks of a survey again and again, looked up once.
ghost use Rattle.std.specs.Prelude.{◌≡◌, ◌<◌, IfOk};
ghost use Rattle.edit_line.specs.Domains.{domains};
ghost use Rattle.edit_line.specs.Shapes.{code_fields, number_fields, place_in, shape_of, whole_sets};

use edit_line::{Shape, place_among};
use edit_model::Survey;
use foundation::OutOfMemory;
use std::alloc::Global;
use std::marker::Model;

/// A survey's shape, with what is looked up for each line: the fields of each kind, and the whole set of
/// each categorical field. Contracts see the shape.
#[derive(Drop)]
pub(crate) struct SurveyShape {
    shape: Shape,
    numbers: Vec<u32>,
    categories: Vec<u32>,
    wholes: Vec<u64>,
}

impl Model for SurveyShape {
    ghost use Rattle.std.specs.Prelude.{List};
    ghost use Rattle.edit_line.specs.Shapes.{Domain};
    ghost use Rattle.edit_normal.specs.inner.SurveyShapes.{IsSurveyShape};
    ghost use Rattle.edit_line.specs.Domains.{domains};

    ghost Value = { List Domain };

    ghost view = { λ l. domains l.shape };

    ghost invariant = { λ l. IsSurveyShape (domains l.shape) l.numbers.items l.categories.items l.wholes.items };
}

impl SurveyShape {
    /// The shape of the survey, with the fields of each kind and the whole sets, looked up once.
    pub(crate) fn of(alloc: Global, survey: &Survey) -> Result<SurveyShape, OutOfMemory>
        ensures { IfOk result (λ fields. fields ≡ shape_of survey.now.fields) }
    {
        let shape = Shape::of(survey);
        let numbers = Vec::from_slice(alloc, survey.numbers())?;
        let categories = Vec::from_slice(alloc, survey.codes())?;
        let wholes = shape.whole_sets(alloc)?;
        Ok(SurveyShape {
            shape,
            numbers,
            categories,
            wholes,
        })
    }

    /// The shape alone, as lines keep it.
    pub(crate) fn shape(&self) -> Shape
        ensures { domains result ≡ self.now }
    {
        self.shape
    }

    /// The numbers of the numerical fields, from 0, in declared order: a line has a factor for each.
    pub(crate) fn numbers(&self) -> &[u32]
        ensures { result.now ≡ number_fields self.now }
    {
        self.numbers.as_slice()
    }

    /// The set of all codes, as bits, of each categorical field, in declared order.
    pub(crate) fn wholes(&self) -> &[u64]
        ensures { result.now ≡ whole_sets self.now }
    {
        self.wholes.as_slice()
    }

    /// The place of a field among the categorical ones, from 0, and their number where it is none of them.
    pub(crate) fn place(&self, field: u32) -> usize
        ensures { result ≡ place_in (code_fields self.now) field }
    {
        place_among(&self.categories, field)
    }
}
