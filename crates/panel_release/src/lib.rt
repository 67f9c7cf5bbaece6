//! What the command `panel` makes of records whose last fields keep their values: the released file, the
//! reasons, the proof, and a line that counts. Begin with [`release_panel`] and `specs/PanelReleases.antt`.
#![tactic(auto)]

mod counts;
mod panel;
mod release;
mod told;

pub use panel::Panel;
pub use release::{PanelRelease, release_panel};
