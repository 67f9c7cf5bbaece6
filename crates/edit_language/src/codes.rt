//! Lists of codes between braces: whether one stands twice in a list, and which set of a field's codes a
//! list is.
ghost use Rattle.std.specs.Prelude.{◌≡◌, ◌≢◌, ◌∷◌, ◌++◌, [], ◌≤◌, ◌<◌, ◌^◌, All, IfOk, MatchBool, length, if◌then◌else◌};
ghost use Rattle.edit_language.specs.Faults.{has_double, has_double_code};
ghost use Rattle.edit_language.specs.Meaning.{code_set, listed};
ghost use Rattle.edit_language.specs.inner.CodeTables.{Inserts};

use crate::names::is_listed;
use edit_model::Name;
use foundation::OutOfMemory;
use indexmap::IndexSet;
use rule_grammar::{CodeList, TestText};
use std::alloc::Global;
use std::marker::Model;

/// Distinct codes, in the order in which they were put in.
#[derive(Drop)]
struct CodeTable {
    codes: IndexSet<Vec<u8>>,
}

impl Model for CodeTable {
    ghost use Rattle.std.specs.Prelude.{List, map, ℕ};

    ghost Value = { List (List ℕ) };

    ghost view = { λ t. map (λ key. key.items) t.codes.keys };
}

impl CodeTable {
    // The table without codes.
    fn new(alloc: Global) -> CodeTable
        ensures { result ≡ [] }
    {
        CodeTable {
            codes: IndexSet::new(alloc),
        }
    }

    // Puts a code that is not in the table last, and answers true; false where it is there already, and
    // nothing changes.
    fn insert(&mut self, alloc: Global, code: &Name) -> Result<bool, OutOfMemory>
        ensures { IfOk result (λ added. Inserts added self.old code.now self.new) }
    {
        let key = Vec::from_slice(alloc, code.as_bytes())?;
        Ok(self.codes.insert(key)?)
    }
}

/// Whether a code stands twice in the list.
pub(crate) fn has_double(alloc: Global, list: &CodeList) -> Result<bool, OutOfMemory>
    ensures { IfOk result (λ double. double ≡ has_double (listed list.now)) }
{
    let mut seen = CodeTable::new(alloc);
    seen.insert(alloc, &list.first)?;
    for code in list.rest.as_slice() {
        if !seen.insert(alloc, code)? {
            return Ok(true);
        }
    }
    Ok(false)
}

/// Whether a code stands twice in the list of a code test. A number test has no list, so none does.
pub(crate) fn has_double_code(alloc: Global, test: &TestText) -> Result<bool, OutOfMemory>
    ensures { IfOk result (λ double. double ≡ has_double_code test.now) }
{
    match test {
        TestText::Codes { list, .. } => has_double(alloc, list),
        TestText::Sums { .. } => Ok(false),
    }
}

// The set of the one code at `place`, from 0, where it is `wanted`, and else the empty set. Bit c of a set
// stands for the code of number c.
fn bit_if(wanted: bool, place: usize) -> u64
    requires { place < 64 }
    ensures { result ≡ (if wanted then 2 ^ place else 0) }
{
    if wanted { 1 << place } else { 0 }
}

/// The set of those of a field's codes that are listed: bit c stands for the code of number c. A listed
/// code that is none of the field's is passed over.
pub(crate) fn code_set(codes: &[Name], list: &CodeList) -> u64
    requires { length codes.now ≤ 64 }
    ensures { result ≡ code_set codes.now (listed list.now) }
{
    let mut set = 0;
    for (i, code) in codes.iter().enumerate() {
        set += bit_if(is_listed(list, code), i);
    }
    set
}

/// All codes of a list, in order, for the field that is declared with it: the first, and then the rest.
pub(crate) fn listed_codes(list: CodeList) -> Result<Vec<Name>, OutOfMemory>
    ensures { IfOk result (λ codes. codes.items ≡ listed list) }
{
    let mut codes = list.rest.into_vec();
    codes.insert(0, list.first)?;
    Ok(codes)
}
