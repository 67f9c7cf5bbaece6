//! The lines of a survey's rules, which of them are kept, and the edits that records are searched by. Begin
//! with [`prune_rules`] and `specs/Pruned.antt`. The kept lines say what all rules say, so that what is found
//! by them is right for the rules.
#![tactic(auto)]

mod pruned;

pub use pruned::{PrunedRules, prune_rules};
