//! A release, as its page is made of it: the four files that were read.
use edit_model::Survey;
use reason_lines::Reasons;
use record_text::Sheet;

/// A survey, its records as they came and as they were released, and the reasons for the changes.
#[derive(Clone, Copy)]
pub struct Release<'a> {
    pub survey: &'a Survey,
    pub records: &'a Sheet,
    pub released: &'a Sheet,
    pub reasons: &'a Reasons,
}
