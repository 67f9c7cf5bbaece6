//! The row of one record as the released file has it after filling. In contracts, `CanBeWritten` says that
//! the filled record is one of these fields, and `IsLayout` that each field has a column.
ghost use Rattle.std.specs.Prelude.{◌≡◌, ◌<◌, ◌++◌, ◌∷◌, [], ℕ, List, All, OnOk, length};
ghost use Rattle.edit_model.specs.FieldSets.{has_number};
ghost use Rattle.record_text.specs.Texts.{records_text};
ghost use Rattle.edit_report.specs.Layouts.{IsLayout};
ghost use Rattle.filled_release.specs.FilledFiles.{filled_texts, is_forced};
ghost use Rattle.filled_release.specs.inner.FilledRows.{CanBeWritten};

use deduce_fill::{Filled, Forced};
use edit_model::{FieldSet, Survey};
use edit_report::{Layout, row_texts};
use foundation::OutOfMemory;
use record_text::{RecordWriter, Texts};
use std::alloc::Global;

/// Writes the row of a record of which filling gives this answer. `read` are the texts of the row that
/// was read; they stay as they are but at the fields at which a value is forced. A record at which
/// nothing is forced is written as it was read, without a copy.
pub(crate) fn push_filled(
    alloc: Global,
    writer: &mut RecordWriter,
    survey: &Survey,
    layout: &Layout,
    read: &Texts,
    answer: &Filled,
) -> Result<(), OutOfMemory>
    requires layout { IsLayout survey.now.fields layout.now }
    requires width { length read.now ≡ layout.now.width }
    requires answer { CanBeWritten survey.now.fields answer.now }
    ensures { OnOk result
        (writer.new ≡ writer.old ++ records_text (filled_texts survey.now.fields layout.now.columns read.now answer.now ∷ [])) }
{
    let Filled::Done { row, forced } = answer else {
        return writer.push(read);
    };
    if forced.is_empty() {
        return writer.push(read);
    }
    let filled = forced_set(forced.as_slice());
    let texts = row_texts(alloc, survey, layout, read, filled, row)?;
    writer.push(&texts)
}

// The set of the fields at which values are forced: those are written anew. No memory.
fn forced_set(forced: &[Forced]) -> FieldSet
    requires { All (λ e. e.field < 64) forced.now }
    ensures { (f : ℕ) → has_number result f ≡ is_forced forced.now f }
{
    let mut set = FieldSet::empty();
    for one in forced {
        set = set.with(one.field);
    }
    set
}
