//! The rows of each class, and the numbers that they have in the book of their class. A class's book
//! numbers its rows from 0, in the order of the file. In contracts, `rows_in` has the rows of a class, and
//! `IsOfClass` says that a row is of a class. `claim_with`, `won_with` and `donor_with` turn numbers of the
//! class's book into those of the whole file.
ghost use Rattle.std.specs.Prelude.{◌≡◌, ℕ, ◌+◌, ◌<◌, ◌≤◌, ◌^◌, [], IfOk, length, map, slice_get, slice_index, take};
ghost use Rattle.std.specs.List.{All};
ghost use Rattle.class_books.specs.Classes.{IsOfClass};
ghost use Rattle.class_books.specs.inner.Numbers.{AreNumbersOf, IsGivenWithin, claim_with, donor_with, row_with, rows_in, won_with};

use donor_book::{Claim, Won};
use foundation::OutOfMemory;
use std::alloc::Global;
use std::marker::Model;

/// The most donors of a ranking: their numbers stand in an array, so that a claim takes no memory.
pub const MOST_DONORS: usize = 64;

/// The class of each row, and the rows of each class in order. The place of a row among those of its class
/// is its number in the book of the class. And how often a donor is given at most, and how many passes
/// there are.
#[derive(Drop)]
pub struct Classes {
    class_of: Vec<u32>,
    numbers: Vec<u32>,
    rows: Vec<Vec<u32>>,
    limit: u32,
    passes: u32,
}

impl Model for Classes {
    ghost use Rattle.std.specs.Prelude.{length, map};
    ghost use Rattle.class_books.specs.ClassPasses.{ClassTerms};
    ghost use Rattle.class_books.specs.inner.Numbers.{KeepsClasses};

    ghost Value = { ClassTerms };

    ghost view = { λ c. record {
      class_of = c.class_of.items;
      classes = length c.rows.items;
      limit = c.limit;
      passes = c.passes;
    } };

    ghost invariant = { λ c. KeepsClasses c.class_of.items c.numbers.items (map (λ rows. rows.items) c.rows.items) };
}

impl Classes {
    /// The tables of `classes` classes. `class_of` has the class of each row of the file, which is below
    /// `classes`. A donor is given at most `limit` times, and there are `passes` passes. A class may have
    /// no rows.
    pub fn of(
        alloc: Global,
        class_of: Vec<u32>,
        classes: u32,
        limit: u32,
        passes: u32,
    ) -> Result<Classes, OutOfMemory>
        requires rows { length class_of.items + 1 < 2 ^ 32 }
        requires classes { All (λ class. class < classes) class_of.items }
        ensures { IfOk result (λ made. made ≡ record { class_of = class_of.items; classes = classes; limit = limit; passes = passes }) }
    {
        let mut rows = no_rows(alloc, classes)?;
        let mut numbers = Vec::with_capacity(alloc, class_of.len())?;
        for (row_no, class) in class_of.iter().enumerate() {
            let of_class = &mut rows[*class as usize];
            numbers.push_reserved(of_class.len() as u32);
            of_class.push(row_no as u32)?;
        }
        Ok(Classes {
            class_of,
            numbers,
            rows,
            limit,
            passes,
        })
    }

    /// How many passes over the classes there are, one for each worker. No memory.
    pub fn passes(&self) -> u32
        ensures { result ≡ self.now.passes }
    {
        self.passes
    }

    /// The rows of a class, in the order of the file: a row's place here is its number in the class's book.
    /// No memory.
    pub fn rows_of(&self, class: usize) -> &[u32]
        requires { class < self.now.classes }
        ensures rows { result.now ≡ rows_in self.now.class_of class }
        ensures few { length result.now + 1 < 2 ^ 32 }
    {
        self.rows[class].as_slice()
    }

    /// The class of a row, from 0; rows have the numbers of the whole file, from 0. No memory.
    pub fn class_of(&self, row_no: u32) -> usize
        requires { row_no < length self.now.class_of }
        ensures class { IsOfClass self.now.class_of result row_no }
        ensures within { result < self.now.classes }
    {
        self.class_of[row_no as usize] as usize
    }

    /// The number, from 0, of a row in the book of its class. No memory.
    pub fn number_of(&self, row_no: u32) -> u32
        requires { row_no < length self.now.class_of }
        ensures { (class : ℕ) → IsOfClass self.now.class_of class row_no
            → slice_get (rows_in self.now.class_of class) result ≡ Some row_no }
    {
        self.numbers[row_no as usize]
    }

    /// The numbers that at most 64 rows of one class have in the class's book, in order, and 0 behind
    /// them. So a ranking is turned into numbers of the class. No memory.
    pub fn numbers_of(&self, rows: &[u32]) -> [u32; MOST_DONORS]
        requires few { length rows.now ≤ MOST_DONORS }
        requires rows { All (λ row. row < length self.now.class_of) rows.now }
        ensures { (class : ℕ) → All (IsOfClass self.now.class_of class) rows.now
            → AreNumbersOf self.now.class_of class rows.now (take (length rows.now) result) }
    {
        let mut numbers = [0; MOST_DONORS];
        for (place, row_no) in rows.iter().enumerate() {
            numbers[place] = self.number_of(*row_no);
        }
        numbers
    }

    /// The same answer of the class's book, but with the number that the donor has in the whole file. No
    /// memory.
    pub fn claim_in_file(&self, class: usize, answer: Claim) -> Claim
        requires class { class < self.now.classes }
        requires given { IsGivenWithin (length (rows_in self.now.class_of class)) answer }
        ensures { result ≡ claim_with self.now.class_of class answer }
    {
        match answer {
            Claim::Given(number) => Claim::Given(self.rows_of(class)[number as usize]),
            Claim::Nobody => Claim::Nobody,
            Claim::Had(reply) => Claim::Had(self.donor_with(class, reply)),
        }
    }

    /// The same history of the class's book, but with the numbers that rows and donors have in the whole
    /// file. No memory.
    pub fn history_in_file(&self, class: usize, history: Vec<Won>) -> Vec<Won>
        requires class { class < self.now.classes }
        requires rows { All (λ w. w.row_no < length (rows_in self.now.class_of class)) history.items }
        ensures { result.items ≡ map (won_with self.now.class_of class) history.items }
    {
        let rows = self.rows_of(class);
        let mut history = history;
        for won in history.iter_mut() {
            *won = Won {
                row_no: rows[won.row_no as usize],
                reply: self.donor_with(class, won.reply),
            };
        }
        history
    }

    // The donor that has this number in the class's book, by its number in the whole file. None for nobody,
    // and for a number that the class does not have.
    fn donor_with(&self, class: usize, reply: Option<u32>) -> Option<u32>
        requires { class < self.now.classes }
        ensures { result ≡ donor_with self.now.class_of class reply }
    {
        let number = reply?;
        self.rows_of(class).get(number as usize).copied()
    }
}

// An empty list of rows for each of `classes` classes.
fn no_rows(alloc: Global, classes: u32) -> Result<Vec<Vec<u32>>, OutOfMemory>
    ensures as_many { IfOk result (λ rows. length rows.items ≡ classes) }
    ensures empty { IfOk result (λ rows. All (λ r. r.items ≡ []) rows.items) }
{
    let mut rows = Vec::with_capacity(alloc, classes as usize)?;
    for _ in 0..classes {
        rows.push_reserved(Vec::new(alloc));
    }
    Ok(rows)
}
