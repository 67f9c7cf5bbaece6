//! Copies of fields: the surveys of the two files have fields of their own, equal to those of the rule file.
//! A last field has another name in its file.
ghost use Rattle.std.specs.Prelude.{◌≡◌, ℕ, List, IfOk, drop};
ghost use Rattle.panel_files.specs.LastFields.{IsLastField, IsLastName, under_last_name};

use crate::fields::name_behind;
use edit_model::{Field, Kind, Name};
use foundation::{OutOfMemory, Sequence};
use std::alloc::Global;

/// A field equal to this one.
pub(crate) fn copy_of(alloc: Global, field: &Field) -> Result<Field, OutOfMemory>
    ensures { IfOk result (λ copy. copy ≡ field.now) }
{
    Ok(Field {
        name: name_of(&field.name),
        weight: field.weight,
        kind: kind_of(alloc, &field.kind)?,
    })
}

/// The last field as it stands in the file of the last period: without `last_` in front of its name.
pub(crate) fn under_last_name(alloc: Global, field: &Field) -> Result<Field, OutOfMemory>
    requires { IsLastField field.now }
    ensures { IfOk result (λ copy. copy ≡ under_last_name field.now) }
{
    Ok(Field {
        name: own_name(&field.name),
        weight: field.weight,
        kind: kind_of(alloc, &field.kind)?,
    })
}

// The name behind `last_` of a last field's name, under which the field stands in the file of the last
// period.
fn own_name(name: &Name) -> Name
    requires { (rest : List ℕ) × IsLastName name.now rest }
    ensures { result ≡ drop 5 name.now }
{
    match name_behind(name) {
        Some(rest) => rest,
        None => unreachable!(),
    }
}

// A name equal to this one.
fn name_of(name: &Name) -> Name
    ensures { result ≡ name.now }
{
    match Name::new(name.as_bytes()) {
        Some(copy) => copy,
        None => unreachable!(),
    }
}

// A kind equal to this one, with copies of its codes where it has some.
fn kind_of(alloc: Global, kind: &Kind) -> Result<Kind, OutOfMemory>
    ensures { IfOk result (λ copy. copy ≡ kind.now) }
{
    match kind {
        Kind::Number { scale } => Ok(Kind::Number { scale: *scale }),
        Kind::Code { codes } => {
            let copies = names_of(alloc, codes.as_slice())?;
            Ok(Kind::Code {
                codes: Sequence::from_vec(copies),
            })
        }
    }
}

// Names equal to these, in order.
fn names_of(alloc: Global, names: &[Name]) -> Result<Vec<Name>, OutOfMemory>
    ensures { IfOk result (λ copies. copies.items ≡ names.now) }
{
    let mut copies = Vec::with_capacity(alloc, names.len())?;
    for name in names {
        copies.push(name_of(name))?;
    }
    Ok(copies)
}
