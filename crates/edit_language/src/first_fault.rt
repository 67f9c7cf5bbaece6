//! The least kind of fault of a statement, by the fields and the rules before it. Faults are looked for in
//! the order of their kinds, so that the first that is found is the least.
//!
//! In contracts, `IsDeclarationFault` says that this is the least kind of fault of a declaration after
//! these fields, whatever the rules are. `tests_of` a rule are its conditions and its conclusion.
ghost use Rattle.std.specs.Prelude.{◌≡◌, List, IfOk};
ghost use Rattle.std.specs.List.{list_all, list_any};
ghost use Rattle.std.specs.Str.{bytes_eq};
ghost use Rattle.edit_model.specs.Parts.{survey_of};
ghost use Rattle.edit_language.specs.Faults.{has_double_code, has_rule_form, is_equation, is_known_test, is_large_test, is_sums};
ghost use Rattle.edit_language.specs.inner.FirstFault.{tests_of};
ghost use Rattle.edit_language.specs.inner.FirstFault.{IsDeclarationFault, declaration_fault, fault_of, has_known_codes, rule_fault};

use crate::codes::{has_double, has_double_code};
use crate::fault::RulesKind;
use crate::names::{has_known_codes, is_known_test};
use crate::numbers::is_outside;
use crate::sums::are_large_sums;
use edit_model::{Compare, Field, Name, Rule};
use foundation::OutOfMemory;
use rule_grammar::{CodeList, Declaration, Numeral, RuleText, Statement, TestText};
use std::alloc::Global;

/// The most fields of a survey.
const MOST_FIELDS: usize = 64;

/// The most codes of a field.
const MOST_CODES: usize = 64;

/// The most rules of a survey.
const MOST_RULES: usize = 500;

/// The largest weight of a field.
const MOST_WEIGHT: u64 = 1000;

/// The largest scale of a numerical field.
const MOST_SCALE: u64 = 1_000_000_000_000;

// Whether one of the fields has the name, so that it can't be declared again.
fn is_declared(fields: &[Field], name: &Name) -> bool
    ensures { result ≡ list_any (λ f. bytes_eq f.name name.now) fields.now }
{
    fields.iter().any(|f| f.name.as_bytes() == name.as_bytes())
}

// The least kind of fault of the declaration of a numerical field after these fields, or None where it has
// none. A weight or a scale that is not written is no fault.
fn number_fault(
    fields: &[Field],
    name: &Name,
    weight: Option<Numeral>,
    scale: Option<Numeral>,
) -> Option<RulesKind>
    ensures { IsDeclarationFault fields.now (Declaration.Number name.now weight scale) result }
{
    if is_declared(fields, name) {
        Some(RulesKind::DoubleField)
    } else if is_outside(MOST_WEIGHT, weight) || is_outside(MOST_SCALE, scale) {
        Some(RulesKind::NumberRange)
    } else if fields.len() >= MOST_FIELDS {
        Some(RulesKind::TooMany)
    } else {
        None
    }
}

// The least kind of fault of the declaration of a categorical field after these fields, or None where it
// has none. The first code of the list is not in `rest`, so 64 there are 65 codes.
fn code_fault(
    alloc: Global,
    fields: &[Field],
    name: &Name,
    weight: Option<Numeral>,
    list: &CodeList,
) -> Result<Option<RulesKind>, OutOfMemory>
    ensures { IfOk result (IsDeclarationFault fields.now (Declaration.Code name.now weight list.now)) }
{
    if is_declared(fields, name) {
        Ok(Some(RulesKind::DoubleField))
    } else if has_double(alloc, list)? {
        Ok(Some(RulesKind::DoubleCode))
    } else if is_outside(MOST_WEIGHT, weight) {
        Ok(Some(RulesKind::NumberRange))
    } else if fields.len() >= MOST_FIELDS || list.rest.len() >= MOST_CODES {
        Ok(Some(RulesKind::TooMany))
    } else {
        Ok(None)
    }
}

// Whether each name in these tests is that of a declared field of the kind that its place needs.
// `is_known_test` says which kind that is.
fn are_known_tests(fields: &[Field], tests: &[TestText]) -> bool
    ensures { result ≡ list_all (λ t. is_known_test fields.now t) tests.now }
{
    tests.iter().all(|test| is_known_test(fields, test))
}

// Whether each name in the rule is that of a declared field of the kind that its place needs.
// `is_known_test` says which kind that is.
fn is_known_rule(fields: &[Field], rule: &RuleText) -> bool
    ensures { result ≡ list_all (λ t. is_known_test fields.now t) (tests_of rule.now) }
{
    are_known_tests(fields, rule.conditions.as_slice()) && is_known_test(fields, &rule.conclusion)
}

// Whether each code in these tests is a code of the field that is tested.
fn have_known_codes(fields: &[Field], tests: &[TestText]) -> bool
    ensures { result ≡ list_all (λ t. has_known_codes fields.now t) tests.now }
{
    tests.iter().all(|test| has_known_codes(fields, test))
}

// Whether each code in the rule is a code of the field that is tested.
fn has_rule_known_codes(fields: &[Field], rule: &RuleText) -> bool
    ensures { result ≡ list_all (λ t. has_known_codes fields.now t) (tests_of rule.now) }
{
    have_known_codes(fields, rule.conditions.as_slice())
        && has_known_codes(fields, &rule.conclusion)
}

// Whether a code stands twice in the list of one of these tests.
fn any_double_code(alloc: Global, tests: &[TestText]) -> Result<bool, OutOfMemory>
    ensures { IfOk result (λ double. double ≡ list_any has_double_code tests.now) }
{
    for test in tests {
        if has_double_code(alloc, test)? {
            return Ok(true);
        }
    }
    Ok(false)
}

// Whether a code stands twice in a list of the rule.
fn has_rule_double_code(alloc: Global, rule: &RuleText) -> Result<bool, OutOfMemory>
    ensures { IfOk result (λ double. double ≡ list_any has_double_code (tests_of rule.now)) }
{
    if any_double_code(alloc, rule.conditions.as_slice())? {
        return Ok(true);
    }
    has_double_code(alloc, &rule.conclusion)
}

// Whether a number that stands in the test, or what its terms add up to, is out of its limits (`sums.rt`
// has them). A code test has no number.
fn is_large_test(fields: &[Field], test: &TestText) -> bool
    ensures { result ≡ is_large_test fields.now test.now }
{
    match test {
        TestText::Codes { .. } => false,
        TestText::Sums { left, right, .. } => are_large_sums(fields, left, right),
    }
}

// Whether a number of any of these tests, or what its terms add up to, is out of its limits.
fn any_large_test(fields: &[Field], tests: &[TestText]) -> bool
    ensures { result ≡ list_any (λ t. is_large_test fields.now t) tests.now }
{
    tests.iter().any(|test| is_large_test(fields, test))
}

// Whether a number of the rule, or what the terms of a test add up to, is out of its limits.
fn is_large_rule(fields: &[Field], rule: &RuleText) -> bool
    ensures { result ≡ list_any (λ t. is_large_test fields.now t) (tests_of rule.now) }
{
    any_large_test(fields, rule.conditions.as_slice()) || is_large_test(fields, &rule.conclusion)
}

// Whether the test is a number test, which compares two sums, and no code test.
fn is_sums(test: &TestText) -> bool
    ensures { result ≡ is_sums test.now }
{
    matches!(test, TestText::Sums { .. })
}

// Whether at least one of these tests is a number test.
fn any_number_test(tests: &[TestText]) -> bool
    ensures { result ≡ list_any is_sums tests.now }
{
    tests.iter().any(|test| is_sums(test))
}

// Whether the test is a number test that compares with `=`.
fn is_equation(test: &TestText) -> bool
    ensures { result ≡ is_equation test.now }
{
    match test {
        TestText::Codes { .. } => false,
        TestText::Sums { compare, .. } => match compare {
            Compare::Eq => true,
            Compare::Ge | Compare::Gt | Compare::Le | Compare::Lt => false,
        },
    }
}

// Whether at least one of these tests is a number test that compares with `=`.
fn any_equation(tests: &[TestText]) -> bool
    ensures { result ≡ list_any is_equation tests.now }
{
    tests.iter().any(|test| is_equation(test))
}

// Whether the rule has a form that the editor takes. Its conditions are code tests alone, before any
// conclusion. Or its only condition is a number test that is no equation, before a code test.
fn has_form(rule: &RuleText) -> bool
    ensures { result ≡ has_rule_form rule.now }
{
    let conditions = rule.conditions.as_slice();
    !any_number_test(conditions)
        || (conditions.len() == 1 && !any_equation(conditions) && !is_sums(&rule.conclusion))
}

// The least kind of fault of `rule` after these fields and rules, or None where it has none. The kinds are
// tried in the order of their numbers.
fn rule_fault(
    alloc: Global,
    fields: &[Field],
    rules: &[Rule],
    rule: &RuleText,
) -> Result<Option<RulesKind>, OutOfMemory>
    ensures { IfOk result (λ fault. fault ≡ rule_fault (survey_of fields.now rules.now) rule.now) }
{
    if !is_known_rule(fields, rule) {
        Ok(Some(RulesKind::UnknownField))
    } else if !has_rule_known_codes(fields, rule) {
        Ok(Some(RulesKind::UnknownCode))
    } else if has_rule_double_code(alloc, rule)? {
        Ok(Some(RulesKind::DoubleCode))
    } else if is_large_rule(fields, rule) {
        Ok(Some(RulesKind::NumberRange))
    } else if rules.len() >= MOST_RULES {
        Ok(Some(RulesKind::TooMany))
    } else if !has_form(rule) {
        Ok(Some(RulesKind::ConditionForm))
    } else {
        Ok(None)
    }
}

// The least kind of fault of a declaration after these fields, or None where it has none. The rules before
// it don't matter, so they are not given.
fn declaration_fault(
    alloc: Global,
    fields: &[Field],
    declaration: &Declaration,
) -> Result<Option<RulesKind>, OutOfMemory>
    ensures { IfOk result (λ fault. (rules : List Rule) → fault ≡ declaration_fault (survey_of fields.now rules) declaration.now) }
{
    match declaration {
        Declaration::Number {
            name,
            weight,
            scale,
        } => Ok(number_fault(fields, name, *weight, *scale)),
        Declaration::Code { name, weight, list } => code_fault(alloc, fields, name, *weight, list),
    }
}

/// The least kind of fault that the statement has after these fields and rules, which the lines before it
/// declared. None where it has none.
pub(crate) fn fault_of(
    alloc: Global,
    fields: &[Field],
    rules: &[Rule],
    statement: &Statement,
) -> Result<Option<RulesKind>, OutOfMemory>
    ensures { IfOk result (λ fault. fault ≡ fault_of (survey_of fields.now rules.now) statement.now) }
{
    match statement {
        Statement::Declaration(declaration) => declaration_fault(alloc, fields, declaration),
        Statement::Rule(rule) => rule_fault(alloc, fields, rules, rule),
    }
}
