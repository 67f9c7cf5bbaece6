//! A panel that is to be corrected: the survey and what was read of its two files, borrowed.
use edit_model::{FieldSet, Survey};
use record_text::Sheet;
use std::marker::Model;

/// A survey, the set of its last fields, and the two files of its panel. `own` are the records of this
/// period, and `last` the rows of the last one. `own_key` and `last_key` are the columns of the key in
/// them, from 0.
#[derive(Drop)]
pub struct Panel<'a> {
    pub survey: &'a Survey,
    pub set: FieldSet,
    pub own: &'a Sheet,
    pub last: &'a Sheet,
    pub own_key: u32,
    pub last_key: u32,
}

impl<'a> Model for Panel<'a> {
    ghost use Rattle.panel_release.specs.PanelReleases.{PanelCase};

    ghost Value = { PanelCase };

    ghost view = { λ p. record {
      survey = p.survey.now;
      set = p.set;
      files = record { own = p.own.now; last = p.last.now; own_key = p.own_key; last_key = p.last_key };
    } };
}
