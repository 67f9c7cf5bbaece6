//! The fields and codes that a statement names: whether they are declared, and which ones they are.
ghost use Rattle.std.specs.Prelude.{◌≡◌, ◌||◌, IfSome, length, option_map};
ghost use Rattle.std.specs.List.{list_all};
ghost use Rattle.edit_language.specs.Faults.{is_code_name, is_known_sum, is_known_term, is_known_test, is_number_name};
ghost use Rattle.edit_language.specs.inner.FirstFault.{has_known_codes};
ghost use Rattle.edit_language.specs.Meaning.{kind_codes, field_codes, field_named, is_listed, listed, number_named};

use edit_model::{Field, Kind, Name};
use rule_grammar::{CodeList, SignedTerm, SumText, TermText, TestText};

/// The number, in declared order from 0, of the field that has the name, or None where none has.
pub(crate) fn number_named(fields: &[Field], name: &Name) -> Option<usize>
    ensures { result ≡ number_named fields.now name.now }
{
    fields
        .iter()
        .position(|field| field.name.as_bytes() == name.as_bytes())
}

/// The field that has the name, or None where none has.
pub(crate) fn field_named<'a>(fields: &'a [Field], name: &Name) -> Option<&'a Field>
    ensures { option_map (λ f. f.now) result ≡ field_named fields.now name.now }
{
    fields
        .iter()
        .find(|field| field.name.as_bytes() == name.as_bytes())
}

// Whether the name is that of a numerical field. It is false of a name that no field has.
fn is_number_name(fields: &[Field], name: &Name) -> bool
    ensures { result ≡ is_number_name fields.now name.now }
{
    match field_named(fields, name) {
        None => false,
        Some(field) => field.kind.is_numerical(),
    }
}

// Whether the name is that of a categorical field. It is false of a name that no field has.
fn is_code_name(fields: &[Field], name: &Name) -> bool
    ensures { result ≡ is_code_name fields.now name.now }
{
    match field_named(fields, name) {
        None => false,
        Some(field) => !field.kind.is_numerical(),
    }
}

// Whether the term is a constant, or names a numerical field. Any other name in a sum is a fault.
fn is_known_term(fields: &[Field], term: &TermText) -> bool
    ensures { result ≡ is_known_term fields.now term.now }
{
    match term {
        TermText::Product { field, .. } => is_number_name(fields, field),
        TermText::Field(field) => is_number_name(fields, field),
        TermText::Constant(_) => true,
    }
}

// Whether each of these terms is a constant, or names a numerical field.
fn are_known_terms(fields: &[Field], terms: &[SignedTerm]) -> bool
    ensures { result ≡ list_all (λ t. is_known_term fields.now t.term) terms.now }
{
    terms
        .iter()
        .all(|signed| is_known_term(fields, &signed.term))
}

// Whether each term of the sum is a constant, or names a numerical field.
fn is_known_sum(fields: &[Field], sum: &SumText) -> bool
    ensures { result ≡ is_known_sum fields.now sum.now }
{
    is_known_term(fields, &sum.first) && are_known_terms(fields, sum.rest.as_slice())
}

/// Whether each name in the test is that of a declared field of the right kind. Before `in` that is a
/// categorical one, and in a sum a numerical one.
pub(crate) fn is_known_test(fields: &[Field], test: &TestText) -> bool
    ensures { result ≡ is_known_test fields.now test.now }
{
    match test {
        TestText::Codes { field, .. } => is_code_name(fields, field),
        TestText::Sums { left, right, .. } => {
            is_known_sum(fields, left) && is_known_sum(fields, right)
        }
    }
}

// The codes of a kind of field; a numerical one has none.
fn codes_in(kind: &Kind) -> &[Name]
    ensures { result.now ≡ kind_codes kind.now }
{
    match kind {
        Kind::Number { .. } => &[],
        Kind::Code { codes } => codes.as_slice(),
    }
}

/// The codes of the field that has the name. There are none where no field has it, or a numerical one.
pub(crate) fn codes_of<'a>(fields: &'a [Field], name: &Name) -> &'a [Name]
    ensures { result.now ≡ field_codes (field_named fields.now name.now) }
{
    match field_named(fields, name) {
        None => &[],
        Some(field) => codes_in(&field.kind),
    }
}

// Whether `code` is one of `codes`, byte for byte.
fn is_code_of(codes: &[Name], code: &Name) -> bool
    ensures { result ≡ is_listed codes.now code.now }
{
    codes.iter().any(|c| c.as_bytes() == code.as_bytes())
}

/// Whether the code stands in the list.
pub(crate) fn is_listed(list: &CodeList, code: &Name) -> bool
    ensures { result ≡ is_listed (listed list.now) code.now }
{
    list.first.as_bytes() == code.as_bytes() || is_code_of(list.rest.as_slice(), code)
}

// Whether each of `others` is one of `codes`.
fn are_codes_of(codes: &[Name], others: &[Name]) -> bool
    ensures { result ≡ list_all (λ code. is_listed codes.now code) others.now }
{
    others.iter().all(|code| is_code_of(codes, code))
}

// Whether each code of `list` is one of `codes`.
fn has_codes_of(codes: &[Name], list: &CodeList) -> bool
    ensures { result ≡ list_all (λ code. is_listed codes.now code) (listed list.now) }
{
    is_code_of(codes, &list.first) && are_codes_of(codes, list.rest.as_slice())
}

/// Whether each code in the list of a code test is a code of the field that is tested. A number test lists
/// none, so it is true of one.
pub(crate) fn has_known_codes(fields: &[Field], test: &TestText) -> bool
    ensures { result ≡ has_known_codes fields.now test.now }
{
    match test {
        TestText::Codes { field, list, .. } => has_codes_of(codes_of(fields, field), list),
        TestText::Sums { .. } => true,
    }
}
