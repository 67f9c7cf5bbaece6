//! The command `page`, over any desk and any printer: it makes a web page about an edit. The page is
//! made of the rules, the records, what was released of them, and the reasons for that. Begin with
//! [`page_main`] and `specs/PageRun.antt`.
#![tactic(auto)]

mod page_fault;
mod page_run;
mod reading;
mod refusal;
mod serving;
mod sources;

pub use page_fault::PageFault;
pub use page_run::run_page;
pub use serving::page_main;
