//! What all workers share while they run.
use class_books::SharedClasses;
use record_pieces::Rest;
use ticket_row::Tickets;

/// What all workers share: by what records are edited, and the tickets by which they draw them. The books
/// are those in which they claim donors, one for each imputation class.
#[derive(Drop)]
pub struct Shared<F> {
    pub rest: Rest<F>,
    pub tickets: Tickets,
    pub books: SharedClasses,
}
