//! Whether a proof, as it was read, is right for rules, records and released bytes. It is looked at part by
//! part: head, dropped lines, table, released file, records, claims.
//!
//! In contracts, `Answers` says that the files are a valid release, of so many released records, or that
//! this condition is the first that fails. It holds for whichever bytes spell the proof (`Spells`).
ghost use Rattle.std.specs.Prelude.{◌≡◌, ◌≤◌, ◌++◌, ℕ, List, None, length, map, true};
ghost use Rattle.std.specs.List.{filter};
ghost use Rattle.edit_line.specs.Lines.{AreOver};
ghost use Rattle.edit_line.specs.Shapes.{shape_of};
ghost use Rattle.edit_normal.specs.RuleLines.{normal_lines_of};
ghost use Rattle.proof_grammar.specs.Limits.{IsPlain};
ghost use Rattle.cert_check.specs.Dropped.{drop_fault, kept_flags};
ghost use Rattle.cert_check.specs.Tables.{shared_lines, table_fault};
ghost use Rattle.cert_check.specs.Releases.{Spells, head_fault, is_released};
ghost use Rattle.cert_check.specs.inner.Answers.{Answers, IsOfSheet, audit_in};
ghost use Rattle.cert_check.specs.inner.Counts.{IsCounted};
ghost use Rattle.proof_grammar.specs.ProofLines.{proof_lines};
ghost use Rattle.cert_check.specs.declared.fault.CheckFault.TheVariants as faults;

use crate::checking::Checking;
use crate::claims_check::claims_fault;
use crate::dropped::{drop_fault, kept_flags};
use crate::fault::{CheckFault, Why};
use crate::head::head_fault;
use crate::line_counts::records_line;
use crate::places::is_released;
use crate::released_file::released_rows;
use crate::rows_check::rows_fault;
use crate::table::table_fault;
use edit_line::Line;
use edit_model::Survey;
use edit_normal::lines_of_rules;
use proof_text::{ProofFile, RowPlace};
use record_text::Sheet;
use std::alloc::Global;

/// What a proof is checked against: the rules and the records as they were read, and the released bytes.
#[derive(Clone, Copy)]
pub(crate) struct Audit<'a> {
    pub(crate) rules: &'a Survey,
    pub(crate) records: &'a Sheet,
    pub(crate) released: &'a [u8],
}

/// How many records are released, where all is right, or the first condition that fails. `said` is the
/// proof, of which `bytes` is the number of bytes. It has no more lines than bytes, so that 64 bits count
/// them.
pub(crate) fn check_said(
    alloc: Global,
    audit: &Audit,
    said: &ProofFile,
    bytes: usize,
) -> Result<u32, CheckFault>
    requires sheet { IsOfSheet audit.now }
    requires plain { IsPlain said.now }
    requires counted { length (proof_lines said.now) ≤ bytes }
    ensures { (text : List ℕ) → Spells text said.now → Answers (audit_in audit.now text) result }
{
    let _ = bytes; // no proof has more lines than 64 bits count
    let mut lines = lines_of_rules(alloc, audit.rules)?;
    if let Some(line) = head_fault(said, &lines, audit.records.len()) {
        return Err(rejection(line, Why::Head));
    }
    if let Some(line) = drop_fault(alloc, audit.rules, &mut lines, said)? {
        return Err(rejection(line, Why::Drop));
    }
    let mut usable = kept_flags(alloc, said.verdicts())?;
    if let Some(line) = table_fault(alloc, audit.rules, &mut lines, &mut usable, said)? {
        return Err(rejection(line, Why::Table));
    }
    check_records(alloc, audit, &lines, &usable, said)
}

// How many records are released, or the first condition that fails. Here the limits and counts of the proof
// fit, each line of the rules that it drops is refuted, and its table gives lines. `lines` are those of the
// rules and then those of the table; `usable` says which of them a tree may name.
fn check_records(
    alloc: Global,
    audit: &Audit,
    lines: &[Line],
    usable: &[bool],
    said: &ProofFile,
) -> Result<u32, CheckFault>
    requires sheet { IsOfSheet audit.now }
    requires counted { IsCounted said.now }
    requires lines { lines.now ≡ normal_lines_of audit.now.rules.now ++ shared_lines audit.now.rules.now said.now }
    requires usable { usable.now ≡ kept_flags said.now ++ map (λ line. true) (shared_lines audit.now.rules.now said.now) }
    requires over { AreOver (shape_of audit.now.rules.now.fields) lines.now }
    requires head { (bytes : List ℕ) → head_fault (audit_in audit.now bytes) said.now ≡ None }
    requires dropped { drop_fault audit.now.rules.now said.now ≡ None }
    requires table { table_fault audit.now.rules.now said.now ≡ None }
    ensures { (bytes : List ℕ) → Spells bytes said.now → Answers (audit_in audit.now bytes) result }
{
    let saids = said.rows();
    let count = released_count(saids);
    let Some(released) = released_rows(alloc, audit.records.header(), audit.released, count)? else {
        return Err(rejection(0, Why::RowText));
    };
    let checking = Checking {
        survey: audit.rules,
        given: lines,
        usable,
        columns: audit.records.columns(),
        budget: said.budget(),
    };
    if let Some(fault) = rows_fault(alloc, &checking, saids, audit.records, &released)? {
        return Err(rejection(records_line(said) + 1 + fault.offset, fault.why));
    }
    if let Some(line) = claims_fault(alloc, audit.rules, audit.records, said)? {
        return Err(rejection(line, Why::Claims));
    }
    Ok(count)
}

/// The refusal of the files since the condition `why` fails at this line of the proof, from 1. Line 0
/// stands for the released file as a whole.
pub(crate) fn rejection(line: u64, why: Why) -> CheckFault
    ensures { result ≡ faults.Rejected line why }
{
    CheckFault::Rejected { line, why }
}

// How many records are released, by what the proof says of them: so many rows the released file has to
// have. `saids` has, for each record, the place where the proof speaks of it.
fn released_count(saids: &[RowPlace]) -> u32
    requires { length saids.now ≤ 200000 }
    ensures { result ≡ length (filter is_released saids.now) }
{
    let mut count = 0;
    for place in saids {
        if is_released(place) {
            count += 1;
        }
    }
    count
}
