//! How the values of a record were found, told from the values themselves and the donor. In contracts,
//! `IsDonorRecord` says that the donor, if there is one, has a value at each field.
ghost use Rattle.std.specs.Prelude.{◌≡◌, ◌<◌, IfOk, IfSome, length, option_copied};
ghost use Rattle.edit_model.specs.Rows.{IsRow};
ghost use Rattle.back_subst.specs.Gifts.{IsDonorRecord, how_of, hows_of, is_target, taken_from};

use crate::gift::How;
use crate::value::{number_of, target_of};
use edit_model::{FieldSet, Row, Survey, Value};
use foundation::OutOfMemory;
use std::alloc::Global;
use std::cmp::Ordering;

/// How the value at each field of the set `changed` was found: one `How` for each, in path order, told with a
/// gift. `row` is the record with these values. The values of `donor`, if there is one, were the first choice.
pub(crate) fn how_of_each(
    alloc: Global,
    survey: &Survey,
    changed: FieldSet,
    donor: Option<&Row>,
    row: &Row,
) -> Result<Vec<How>, OutOfMemory>
    requires row { IsRow survey.now.fields row.now }
    requires donor { IsDonorRecord survey.now (option_copied donor) }
    ensures { IfOk result (λ how. how.items ≡ hows_of survey.now changed (option_copied donor.entry) row.now) }
{
    let mut how = Vec::new(alloc);
    for place in 0..survey.fields().len() as u32 {
        let field = survey.path_field(place);
        if changed.has(field) {
            how.push(how_of(donor, field, row.value(field)))?;
        }
    }
    Ok(how)
}

/// How the value at the field was found: as the target, or as the nearest allowed one. The target is the
/// donor's value, and without a donor 0 or the first code.
pub(crate) fn how_of(donor: Option<&Row>, field: u32, value: &Value) -> How
    requires { IfSome (option_copied donor) (λ row. field < length row) }
    ensures { result ≡ how_of (option_copied donor.entry) field value.now }
{
    if is_target(&target_of(donor, field), value) {
        taken_from(donor)
    } else {
        How::Nearest
    }
}

// How a value that is the target was found. It is the donor's value, or, without a donor, the default: 0 or the
// first code.
fn taken_from(donor: Option<&Row>) -> How
    ensures { result ≡ taken_from (option_copied donor.entry) }
{
    match donor {
        Some(_) => How::Donor,
        None => How::Default,
    }
}

// Whether the value is the target, as numbers or as codes. A target that is Bad stands for 0 and for the first
// code. A value that is Bad is no target.
fn is_target(target: &Value, value: &Value) -> bool
    ensures { result ≡ is_target target.now value.now }
{
    match value {
        Value::Code(code) => target.code_number() == *code,
        Value::Number(x) => match number_of(target).compare(*x) {
            Ordering::Equal => true,
            Ordering::Less | Ordering::Greater => false,
        },
        Value::Bad => false,
    }
}
