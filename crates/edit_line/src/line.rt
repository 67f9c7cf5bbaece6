//! The linear edit, which elimination combines: its parts, and what is made of them in place, without new
//! memory. In contracts, `parts_of` has the line of its parts, and `IsLine` says that these are as
//! [`Line`] asks. `reduced` has a line with its numbers divided by their greatest common divisor.
ghost use Rattle.std.specs.Prelude.{◌≡◌, ◌<ℤ◌, All, IfOk, None, length, pos, true};
ghost use Rattle.fraction128.specs.Range.{InRange};
ghost use Rattle.edit_line.specs.Combinations.{all_meet, first_overflow, numbers, sum_of};
ghost use Rattle.edit_line.specs.Divisors.{divided_by, reduced};
ghost use Rattle.edit_line.specs.Divisors as divisors;
ghost use Rattle.edit_line.specs.Lines.{IsLine, LineParts, parts_of};
ghost use Rattle.edit_line.specs.Sets.{AreSets};
ghost use Rattle.edit_line.specs.Domains.{domains};
ghost use Rattle.edit_line.specs.Shapes.{number_fields, shape_of, whole_sets};

use crate::code_sets::narrow;
use crate::division::{divide_all, divisor_of, quotient};
use crate::line_sum::{sum_of_products, write_sums};
use crate::relation::Relation;
use crate::shape::Shape;
use edit_model::Survey;
use foundation::OutOfMemory;
use std::alloc::Global;
use std::marker::Model;

/// A linear edit: IF each code is in its set THEN the sum of factor * value, and the constant, is at
/// least 0, above 0, or 0, as its relation says. It has a set, as bits, for each categorical field and a
/// factor for each numerical one, both in declared order. No set is empty or has a code that the field
/// has not, and each number is of absolute value at most `2^127 - 1`. An equality, whose sum has to be 0,
/// has whole sets: it is asked for all codes.
#[derive(Drop)]
pub struct Line {
    sets: Vec<u64>,
    factors: Vec<i128>,
    constant: i128,
    relation: Relation,
    shape: Shape,
}

impl Model for Line {
    ghost use Rattle.edit_line.specs.Lines.{IsLine, LineParts, parts_of};
    ghost use Rattle.edit_line.specs.Domains.{domains};

    ghost Value = { LineParts };

    ghost view = { λ l. parts_of (domains l.shape) l.sets.items l.factors.items l.constant l.relation };

    ghost invariant = { λ l. IsLine (parts_of (domains l.shape) l.sets.items l.factors.items l.constant l.relation) };
}

impl Line {
    /// The line of these parts, over the survey's fields: a set for each categorical field and a factor for
    /// each numerical one. The parts are as the type asks. No memory.
    pub fn new(
        survey: &Survey,
        sets: Vec<u64>,
        factors: Vec<i128>,
        constant: i128,
        relation: Relation,
    ) -> Line
        requires { IsLine (parts_of (shape_of survey.now.fields) sets.items factors.items constant relation) }
        ensures { result ≡ parts_of (shape_of survey.now.fields) sets.items factors.items constant relation }
    {
        Line::over(Shape::of(survey), sets, factors, constant, relation)
    }

    /// The line of these parts, over fields of this shape. The parts are as the type asks. No memory.
    pub fn over(
        shape: Shape,
        sets: Vec<u64>,
        factors: Vec<i128>,
        constant: i128,
        relation: Relation,
    ) -> Line
        requires { IsLine (parts_of (domains shape) sets.items factors.items constant relation) }
        ensures { result ≡ parts_of (domains shape) sets.items factors.items constant relation }
    {
        Line {
            sets,
            factors,
            constant,
            relation,
            shape,
        }
    }

    /// The line of these parts, over fields of this shape, with its numbers divided by their greatest
    /// common divisor. The parts are as the type asks. No memory.
    pub fn divided(
        shape: Shape,
        sets: Vec<u64>,
        factors: Vec<i128>,
        constant: i128,
        relation: Relation,
    ) -> Line
        requires { IsLine (parts_of (domains shape) sets.items factors.items constant relation) }
        ensures { result ≡ reduced (parts_of (domains shape) sets.items factors.items constant relation) }
    {
        let mut line = Line::over(shape, sets, factors, constant, relation);
        line.reduce_numbers();
        line
    }

    /// The set of codes, as bits, of each categorical field, in declared order. No memory.
    pub fn sets(&self) -> &[u64]
        ensures sets { result.now ≡ self.now.sets }
        ensures fit { AreSets self.now.sets (whole_sets self.now.shape) }
        ensures line { IsLine self.now }
    {
        self.sets.as_slice()
    }

    /// The factor of each numerical field, in declared order. No memory.
    pub fn factors(&self) -> &[i128]
        ensures factors { result.now ≡ self.now.factors }
        ensures count { length self.now.factors ≡ length (number_fields self.now.shape) }
        ensures in_range { All InRange self.now.factors }
    {
        self.factors.as_slice()
    }

    /// The constant. No memory.
    pub fn constant(&self) -> i128
        ensures constant { result ≡ self.now.constant }
        ensures in_range { InRange result }
    {
        self.constant
    }

    /// What is asked of the sum. No memory.
    pub fn relation(&self) -> Relation
        ensures { result ≡ self.now.relation }
    {
        self.relation
    }

    /// The shape of the survey. No memory.
    pub fn shape(&self) -> Shape
        ensures { domains result ≡ self.now.shape }
    {
        self.shape
    }

    /// Overwrites this line with the sum of `m` times `s` and `n` times `t`, and answers None. A set
    /// then has the codes that are in both lines' sets. Or the answer is the first place at which a
    /// product or a sum leaves the range. Places are those of the factors, from 0, and the constant
    /// stands behind them. The numbers of this line then mean nothing. All three are over one survey's
    /// fields, and the sets of `s` and `t` meet. No memory.
    pub fn write_sum(&mut self, m: i128, s: &Line, n: i128, t: &Line) -> Option<usize>
        requires s_over { s.now.shape ≡ self.old.shape }
        requires t_over { t.now.shape ≡ self.old.shape }
        requires meet { all_meet s.now.sets t.now.sets ≡ true }
        ensures place { result ≡ first_overflow 0 m n (numbers s.now) (numbers t.now) }
        ensures sum { result ≡ None → self.new ≡ sum_of m n s.now t.now }
        ensures shape { self.new.shape ≡ self.old.shape }
    {
        match write_sums(&mut self.factors, m, s.factors(), n, t.factors()) {
            Some(place) => Some(place),
            None => match sum_of_products(m, s.constant(), n, t.constant()) {
                None => Some(self.factors.len()),
                Some(constant) => {
                    self.sets.copy_from_slice(s.sets());
                    narrow(&mut self.sets, t.sets());
                    self.constant = constant;
                    self.relation = s.relation().sum_relation(t.relation());
                    None
                }
            },
        }
    }

    /// Divides the numbers by their greatest common divisor, and answers it: 1 where they are all 0. No
    /// memory.
    pub fn reduce_numbers(&mut self) -> i128
        ensures line { self.new ≡ reduced self.old }
        ensures divisor { result ≡ divisors.divisor_of self.old.factors self.old.constant }
        ensures positive { pos 0 <ℤ result }
        ensures in_range { InRange result }
    {
        let divisor = divisor_of(self.factors(), self.constant());
        self.divide_by(divisor);
        divisor
    }

    /// Divides each number by the positive divisor, rounded toward zero. The sets and the relation
    /// stay. No memory.
    pub fn divide_by(&mut self, divisor: i128)
        requires { pos 0 <ℤ divisor }
        ensures { self.new ≡ divided_by divisor self.old }
    {
        divide_all(&mut self.factors, divisor);
        self.constant = quotient(self.constant, divisor);
    }

    /// An equal line, with lists of its own.
    pub fn copy(&self, alloc: Global) -> Result<Line, OutOfMemory>
        ensures { IfOk result (λ line. line ≡ self.now) }
    {
        let sets = Vec::from_slice(alloc, self.sets.as_slice())?;
        let factors = Vec::from_slice(alloc, self.factors.as_slice())?;
        Ok(Line {
            sets,
            factors,
            constant: self.constant,
            relation: self.relation,
            shape: self.shape,
        })
    }
}
