//! What is told of the records of a panel, one after the other: the released file, the reasons file, the
//! proof and the counts grow with each. An answer says what became of a record. In contracts, `TellsOne`
//! says what the three files have more with one answer, and `CountsOne` that the record is counted.
//! `IsEnd` says that values which a record was given are those of its path.
ghost use Rattle.std.specs.Prelude.{◌≡◌, ◌<◌, ◌++◌, ℕ, List, IfOk, OnOk, codes, length, not};
ghost use Rattle.std.specs.List.{list_any};
ghost use Rattle.foundation.specs.Limits.{most_records};
ghost use Rattle.edit_report.specs.Ends.{IsEnd};
ghost use Rattle.edit_report.specs.Layouts.{IsLayout};
ghost use Rattle.panel_link.specs.declared.linked.Linked.TheVariants as linked;
ghost use Rattle.panel_release.specs.PanelReleases.{end_of, head_text, proof_of};
ghost use Rattle.panel_release.specs.inner.Counts.{AreFew, CountsOne};
ghost use Rattle.panel_release.specs.inner.Tellings.{EndsAs, TellsCause, TellsEnd, TellsNone, TellsOne};

use crate::counts::{Counts, resolution_of};
use crate::release::PanelRelease;
use back_subst::Gift;
use bound_cert::{Cert, Outcome, Path, RowProof};
use edit_model::Survey;
use edit_report::{
    Layout, Record, RowEnd, push_cause, push_reasons, push_reasons_header, push_released,
};
use foundation::OutOfMemory;
use panel_link::Linked;
use proof_text::row_text;
use record_text::{RecordWriter, Sheet, Texts};
use std::alloc::Global;

/// What is told of the records so far: the bytes of the released file, of the reasons file and of the proof,
/// and what is counted.
#[derive(Drop)]
pub(crate) struct Told {
    released: RecordWriter,
    reasons: RecordWriter,
    proof: Vec<u8>,
    counts: Counts,
}

/// A record as it is told of: its number, from 0, the texts that were read, and what becomes of it.
#[derive(Drop)]
pub(crate) struct AnsweredRecord<'a> {
    pub(crate) number: u32,
    pub(crate) read: &'a Texts,
    pub(crate) answer: Linked,
}

impl Told {
    /// What is told before the first record: the headers of both files, and the lines of the proof in
    /// front of the records'. The released file has the header of `own`. `lines` is how many lines the
    /// rules have.
    pub(crate) fn start(
        alloc: Global,
        own: &Sheet,
        lines: usize,
        budget: u64,
    ) -> Result<Told, OutOfMemory>
        ensures { IfOk result (TellsNone own.now lines budget) }
    {
        let mut released = RecordWriter::new(alloc);
        released.push(own.header())?;
        let mut reasons = RecordWriter::new(alloc);
        push_reasons_header(&mut reasons)?;
        let proof = head_text(alloc, budget, lines, own.len())?;
        Ok(Told {
            released,
            reasons,
            proof,
            counts: Counts::of_none(),
        })
    }

    /// Tells what became of one record more, in the three files and in the counts. Where it was given values,
    /// these are those of its path (`IsEnd`). No part of the answer is copied.
    pub(crate) fn tell_record(
        &mut self,
        alloc: Global,
        survey: &Survey,
        layout: &Layout,
        record: AnsweredRecord,
    ) -> Result<(), OutOfMemory>
        requires layout { IsLayout survey.now.fields layout.now }
        requires width { length record.read.now ≡ layout.now.width }
        requires end { IsEnd survey.now.fields (end_of record.answer) }
        requires few { AreFew self.old.counts }
        requires more { self.old.counts.records < most_records }
        ensures told { OnOk result (TellsOne survey.now.fields layout.now.columns record.entry.number record.entry.read.now
            record.entry.answer self.old self.new) }
        ensures counts { OnOk result (CountsOne survey.now.fields (end_of record.entry.answer) self.old.counts self.new.counts) }
        ensures few { OnOk result (AreFew self.new.counts) }
    {
        let resolution = resolution_of(survey, &record.answer);
        self.write_answer(alloc, survey, layout, record)?;
        self.counts.add(resolution);
        Ok(())
    }

    /// What is made of all records that were told: the three files, the line that counts, and whether no
    /// record is unresolved. The proof gets its last line, `end`.
    pub(crate) fn end(self, alloc: Global) -> Result<PanelRelease, OutOfMemory>
        ensures { IfOk result (EndsAs self) }
    {
        let Told {
            released,
            reasons,
            mut proof,
            counts,
        } = self;
        proof.extend_from_slice(b"end\n")?;
        let summary = counts.summary(alloc)?;
        Ok(PanelRelease {
            released: released.into_bytes(),
            reasons: reasons.into_bytes(),
            proof,
            summary,
            whole: counts.none_unresolved(),
        })
    }

    // Writes what is told of one record more into the three files, and counts nothing. The answers
    // `NoLast` and `NoCorrection`, which an edit doesn't have, have a cause of their own. Every other
    // answer is written as in an edit.
    fn write_answer(
        &mut self,
        alloc: Global,
        survey: &Survey,
        layout: &Layout,
        record: AnsweredRecord,
    ) -> Result<(), OutOfMemory>
        requires layout { IsLayout survey.now.fields layout.now }
        requires width { length record.read.now ≡ layout.now.width }
        requires end { IsEnd survey.now.fields (end_of record.answer) }
        ensures told { OnOk result (TellsOne survey.now.fields layout.now.columns record.entry.number record.entry.read.now
            record.entry.answer self.old self.new) }
        ensures counts { OnOk result (self.new.counts ≡ self.old.counts) }
    {
        let AnsweredRecord {
            number,
            read,
            answer,
        } = record;
        match answer {
            Linked::NoLast => self.write_cause(alloc, number, b"nolast", b"nolast\n"),
            Linked::NoCorrection { cert } => {
                let text = row_text(alloc, &proof_of_none(cert))?;
                self.write_cause(alloc, number, b"nocorrection", &text)
            }
            Linked::Change {
                path,
                weight,
                cert,
                gift,
            } => {
                let end = changed_end(path, weight, cert, gift);
                let row = Record {
                    number,
                    read,
                    end: &end,
                };
                self.write_end(alloc, survey, layout, &row)
            }
            Linked::Stopped(proof) => {
                let end = stopped_end(proof);
                let row = Record {
                    number,
                    read,
                    end: &end,
                };
                self.write_end(alloc, survey, layout, &row)
            }
        }
    }

    // Writes what is told of a record as an edit tells it: its released row, if it was given values, its
    // reasons, and its lines of the proof. Nothing is counted.
    fn write_end(
        &mut self,
        alloc: Global,
        survey: &Survey,
        layout: &Layout,
        row: &Record,
    ) -> Result<(), OutOfMemory>
        requires layout { IsLayout survey.now.fields layout.now }
        requires width { length row.now.read.now ≡ layout.now.width }
        requires end { IsEnd survey.now.fields row.now.end.now }
        ensures told { OnOk result (TellsEnd survey.now.fields layout.now.columns row.now.number row.now.read.now row.now.end.now
            self.old self.new) }
        ensures counts { OnOk result (self.new.counts ≡ self.old.counts) }
    {
        push_released(alloc, &mut self.released, survey, layout, row.read, row.end)?;
        push_reasons(alloc, &mut self.reasons, survey, layout, row)?;
        let text = row_text(alloc, &row.end.proof)?;
        self.proof.extend_from_slice(&text)?;
        Ok(())
    }

    // Writes that a record is not released, for this cause: a line of the reasons, and `text` in the
    // proof. The released file has nothing of it, and nothing is counted.
    fn write_cause(
        &mut self,
        alloc: Global,
        row_no: u32,
        cause: &[u8],
        text: &[u8],
    ) -> Result<(), OutOfMemory>
        ensures told { OnOk result (TellsCause row_no cause.now text.now self.old self.new) }
        ensures counts { OnOk result (self.new.counts ≡ self.old.counts) }
    {
        push_cause(alloc, &mut self.reasons, row_no, cause, b"")?;
        self.proof.extend_from_slice(text)?;
        Ok(())
    }
}

// The lines of the proof in front of the records': its form, the budget, and how many lines the rules have.
// The last tells how many records there are.
fn head_text(alloc: Global, budget: u64, lines: usize, records: u32) -> Result<Vec<u8>, OutOfMemory>
    ensures { IfOk result (λ text. text.items ≡ head_text budget lines records) }
{
    Ok(format!(in alloc;
        "fh-panel 1\nbudget {budget}\nlines {lines}\nrecords {records}\n"
    )?.into_bytes())
}

// How a record ended that was given the values of this change, which come from no donor. In `proof` the
// field `gift` would be the fault at which the giving of values stopped; here there is none.
fn changed_end(path: Path, weight: u64, cert: Cert, gift: Gift) -> RowEnd
    ensures { result ≡ end_of (linked.Change path weight cert gift) }
{
    RowEnd {
        proof: RowProof {
            outcome: Outcome::Change { path, weight, cert },
            gift: None,
        },
        donor: None,
        gift: Some(gift),
    }
}

// How a record ended whose search, or whose giving of values, stopped: it has neither a donor nor values.
// In `proof` the field `gift` tells the fault of the giving, if that stopped.
fn stopped_end(proof: RowProof) -> RowEnd
    ensures { result ≡ end_of (linked.Stopped proof) }
{
    RowEnd {
        proof,
        donor: None,
        gift: None,
    }
}

// What was found of a record for which there is no correction, as the lines of its row in the proof are made
// of it. They are those that the proof of an edit has of a record that no values correct.
fn proof_of_none(cert: Cert) -> RowProof
    ensures { result ≡ proof_of (linked.NoCorrection cert) }
{
    RowProof {
        outcome: Outcome::Contradictory { cert },
        gift: None,
    }
}
