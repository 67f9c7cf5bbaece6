//! A business, as it is drawn: its numbers and codes meet all rules of the survey, until an answer has a
//! slip. In contracts, `state_after` is the generator's state after so many draws. A name that ends in
//! `_at` is what is drawn from a state on, and one that ends in `_in` is what a business has.
ghost use Rattle.std.specs.Prelude.{◌≡◌, ◌&&◌, if◌then◌else◌, map};
ghost use Rattle.survey_maker.specs.Kinds.{may_be_sole};
ghost use Rattle.survey_maker.specs.Draws.{state_after};
ghost use Rattle.survey_maker.specs.declared.answers.Answer.TheVariants.{Right};
ghost use Rattle.survey_maker.specs.declared.kinds.Form.TheVariants.{Company, Sole};
ghost use Rattle.survey_maker.specs.inner.Drawn.{business_at, codes_in, numbers_in};

use crate::answers::Answer;
use crate::generator::Generator;
use crate::kinds::{Activity, Form, Region};
use crate::size::Size;

/// The numbers and codes of a business, in the order of the survey's fields.
#[derive(Drop)]
pub(crate) struct Business {
    turnover: u32,
    goods: u32,
    bought: u32,
    wages: u32,
    social: u32,
    other: u32,
    costs: u32,
    profit: u32,
    staff: u32,
    full: u32,
    part: u32,
    invest: u32,
    activity: Activity,
    size: Size,
    region: Region,
    form: Form,
}

impl Business {
    /// Draws a business, by 11 draws, whose order is part of what is made. It meets all rules of the survey:
    /// its sums are made of the drawn parts, and its other numbers and codes stay within the bounds.
    pub(crate) fn draw(generator: &mut Generator) -> Business
        ensures drawn { result ≡ business_at generator.old }
        ensures state { generator.new ≡ state_after 11 generator.old }
    {
        let size = Size::of_number(generator.draw(4));
        let staff = size.least_staff() + generator.draw(size.staff_numbers());
        let part = generator.draw(staff + 1);
        let goods = 10 * generator.draw(1000);
        let bought = generator.draw(1000);
        let other = generator.draw(500);
        let wages = 20 * staff;
        let social = 4 * staff;
        let costs = goods + bought + wages + social + other;
        let profit = generator.draw(costs / 4 + 1);
        let invest = generator.draw(40);
        let activity = Activity::of_number(generator.draw(4));
        let region = Region::of_number(generator.draw(4));
        let form = form_of(size, generator.draw(2) == 0);
        Business {
            turnover: costs + profit,
            goods,
            bought,
            wages,
            social,
            other,
            costs,
            profit,
            staff,
            full: staff - part,
            part,
            invest,
            activity,
            size,
            region,
            form,
        }
    }

    /// The 12 numbers as right answers, in the order of the fields. A slip may be put among them.
    pub(crate) fn answers(&self) -> [Answer; 12]
        ensures { result ≡ map Right (numbers_in self.now) }
    {
        [
            Answer::Right(self.turnover),
            Answer::Right(self.goods),
            Answer::Right(self.bought),
            Answer::Right(self.wages),
            Answer::Right(self.social),
            Answer::Right(self.other),
            Answer::Right(self.costs),
            Answer::Right(self.profit),
            Answer::Right(self.staff),
            Answer::Right(self.full),
            Answer::Right(self.part),
            Answer::Right(self.invest),
        ]
    }

    /// The texts of the 4 codes, in the order of the fields, as they stand in the record file.
    pub(crate) fn codes(&self) -> [&'static [u8]; 4]
        ensures { map (λ code. code.now) result ≡ codes_in self.now }
    {
        [
            self.activity.text(),
            self.size.text(),
            self.region.text(),
            self.form.text(),
        ]
    }
}

// The form of a business of this size: one person's where `is_sole` says so and the size allows it, and
// else a company.
fn form_of(size: Size, is_sole: bool) -> Form
    ensures { result ≡ (if is_sole && may_be_sole size then Sole else Company) }
{
    if is_sole && size.may_be_sole() {
        Form::Sole
    } else {
        Form::Company
    }
}
