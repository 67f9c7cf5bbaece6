//! What one thread does: it draws a row's number, claims a donor for the row, and so on. `Fits` says in
//! contracts that the book has a row for each ticket, and `donors_for` so many donors. `IsReady` says
//! that a worker draws from these tickets and claims from this book, and `HasRun` that none was left for
//! it to draw.
ghost use Rattle.std.specs.Prelude.{◌≡◌, ◌+◌, ◌<◌, ◌≤◌};
ghost use Rattle.std.specs.List.{All};
ghost use Rattle.claims_bench.specs.inner.Rankings.{donors_for, ranking_of};
ghost use Rattle.claims_bench.specs.inner.Workers.{Fits, HasRun, IsReady};

use donor_book::{Pass, SharedBook};
use ticket_row::{Seat, Tickets};

/// The places from which one thread draws (`seat`) and claims (`pass`).
#[derive(Drop)]
pub struct Worker {
    pub seat: Seat,
    pub pass: Pass,
}

impl Worker {
    /// Draws numbers until none is left, and claims a donor for the row of each. The answers of the
    /// claims stand in the book alone.
    pub fn draw_and_claim(&mut self, tickets: &Tickets, book: &SharedBook)
        requires fits { Fits tickets.now.row book.now }
        requires ready { IsReady tickets.now.row book.now self.old }
        ensures { HasRun tickets.now.row book.now self.new }
    {
        while let Some(row_no) = tickets.draw(&mut self.seat) {
            book.claim(&mut self.pass, row_no, &ranking_of(row_no));
        }
    }
}

/// How many donors there are for `rows` rows: 3 more. The last row may be the first of its group of four,
/// and ranks 3 donors past its own number then.
pub fn donors_for(rows: u32) -> u32
    requires { rows < 4000000000 }
    ensures { result ≡ donors_for rows }
{
    rows + 3
}

// The 4 donors that a row ranks. They have the numbers of the 4 rows of its group, such as 4 to 7 for the
// rows 4 to 7. So each row is given one, in whatever order the rows claim.
fn ranking_of(row_no: u32) -> [u32; 4]
    requires { row_no < 4000000000 }
    ensures ranking { result ≡ ranking_of row_no }
    ensures donors { All (λ donor. donor ≤ row_no + 3) result }
{
    let first = row_no / 4 * 4;
    [first, first + 1, first + 2, first + 3]
}
