//! The survey that a rule text declares, while its lines are read. Each line adds a field, an edit or
//! nothing to a draft, or has a fault.
//!
//! In contracts, `extended` is the survey with what a statement declares. `Adds` says that a line declares
//! just that, or nothing. `GivesNames` says that a declaration's name and codes have the form of names.
//! `IsFaultOfLine` and `IsFaultOfStatement` say that this is the least kind of fault.
ghost use Rattle.std.specs.Prelude.{◌≡◌, ◌+◌, ◌<◌, ◌^◌, None, false, IfErr, IfOk, OnOk, length};
ghost use Rattle.edit_model.specs.Surveys.{IsWellFormed};
ghost use Rattle.rule_grammar.specs.Names.{GivesNames};
ghost use Rattle.edit_language.specs.Faults.{has_fault};
ghost use Rattle.edit_language.specs.Grammar.{Adds, no_statements};
ghost use Rattle.edit_language.specs.Meaning.{extended};
ghost use Rattle.edit_language.specs.inner.FirstFault.{declaration_fault, fault_of, rule_fault};
ghost use Rattle.edit_language.specs.inner.LineFaults.{IsFaultOfLine, IsFaultOfStatement};

use crate::fault::{RulesFault, RulesKind};
use crate::first_fault::fault_of;
use crate::line::{has_bad_byte, part_to_read};
use crate::meaning::{field_of, rule_of};
use edit_model::{Field, Rule, Survey};
use foundation::OutOfMemory;
use rule_grammar::{Declaration, LineText, RuleText, Statement, read_line};
use std::alloc::Global;
use std::marker::Model;

/// The fields and the edits that the lines so far have declared. It is well formed after each line.
#[derive(Drop)]
pub(crate) struct Draft {
    fields: Vec<Field>,
    rules: Vec<Rule>,
}

impl Model for Draft {
    ghost use Rattle.edit_model.specs.Parts.{SurveyParts, survey_of};
    ghost use Rattle.edit_model.specs.Surveys.{IsWellFormed};

    ghost Value = { SurveyParts };

    ghost view = { λ d. survey_of d.fields.items d.rules.items };

    ghost invariant = { λ d. IsWellFormed (survey_of d.fields.items d.rules.items) };
}

impl Draft {
    /// The draft before the first line, without fields and edits.
    pub(crate) fn new(alloc: Global) -> Draft
        ensures { result ≡ no_statements }
    {
        Draft {
            fields: Vec::new(alloc),
            rules: Vec::new(alloc),
        }
    }

    // Adds the field that a declaration declares, behind the others. The caller has found no fault in the
    // declaration. Refused for want of memory alone.
    fn add_field(&mut self, declaration: Declaration) -> Result<(), OutOfMemory>
        requires names { GivesNames (Statement.Declaration declaration) }
        requires faultless { declaration_fault self.old declaration ≡ None }
        ensures { OnOk result (self.new ≡ extended self.old (Statement.Declaration declaration)) }
    {
        self.fields.push(field_of(declaration)?)?;
        Ok(())
    }

    // Adds the edit that a rule's text means, behind the others. The caller has found no fault in the rule.
    // Refused for want of memory alone.
    fn add_rule(&mut self, alloc: Global, rule: &RuleText) -> Result<(), OutOfMemory>
        requires { rule_fault self.old rule.now ≡ None }
        ensures { OnOk result (self.new ≡ extended self.old (Statement.Rule rule.now)) }
    {
        let made = rule_of(alloc, self.fields.as_slice(), rule)?;
        self.rules.push(made)?;
        Ok(())
    }

    // Adds what a statement says: a field, or an edit. The caller has found no fault in the statement, by
    // the fields and rules of the lines before it. Refused for want of memory alone.
    fn add_statement(&mut self, alloc: Global, statement: Statement) -> Result<(), OutOfMemory>
        requires names { GivesNames statement }
        requires faultless { fault_of self.old statement ≡ None }
        ensures { OnOk result (self.new ≡ extended self.old statement) }
    {
        match statement {
            Statement::Declaration(declaration) => self.add_field(declaration),
            Statement::Rule(rule) => self.add_rule(alloc, &rule),
        }
    }

    // Adds what the statement on line `number`, from 1, says. Where it has a fault, `At` tells that line
    // and the least kind of fault, and the draft is as before.
    fn take_statement(
        &mut self,
        alloc: Global,
        statement: Statement,
        number: u32,
    ) -> Result<(), RulesFault>
        requires { GivesNames statement }
        ensures faultless { OnOk result ((kind : RulesKind) → has_fault self.old statement kind ≡ false) }
        ensures extended { OnOk result (self.new ≡ extended self.old statement) }
        ensures fault { IfErr result (λ fault. IsFaultOfStatement statement self.old number fault) }
    {
        match fault_of(
            alloc,
            self.fields.as_slice(),
            self.rules.as_slice(),
            &statement,
        )? {
            Some(kind) => Err(RulesFault::At { line: number, kind }),
            None => Ok(self.add_statement(alloc, statement)?),
        }
    }

    /// Adds what the line of this `number`, from 1, says: nothing where it has blanks and a comment alone,
    /// and else a statement. `At` where it has a fault: a bad byte comes first, a line that is no statement
    /// next, and then the faults of the statement.
    pub(crate) fn take_line(
        &mut self,
        alloc: Global,
        line: &[u8],
        number: u32,
    ) -> Result<(), RulesFault>
        ensures adds { OnOk result (Adds line.now self.old self.new) }
        ensures fault { IfErr result (λ fault. IsFaultOfLine line.now self.old number fault) }
    {
        let text = part_to_read(line);
        if has_bad_byte(text) {
            return Err(RulesFault::At {
                line: number,
                kind: RulesKind::BadByte,
            });
        }
        match read_line(alloc, text)? {
            LineText::Empty => Ok(()),
            LineText::Says(statement) => self.take_statement(alloc, statement, number),
            LineText::Unreadable => Err(RulesFault::At {
                line: number,
                kind: RulesKind::Syntax,
            }),
        }
    }

    /// Adds what the text behind the last line feed says. `earlier` lines stand before it. An empty `line`
    /// adds nothing, and `earlier + 1`, which might be 2^32, is not computed. The bound holds since each
    /// earlier line took at least one byte of a text of fewer than 2^32.
    pub(crate) fn take_last_line(
        &mut self,
        alloc: Global,
        line: &[u8],
        earlier: u32,
    ) -> Result<(), RulesFault>
        requires { earlier + length line.now < 2 ^ 32 }
        ensures adds { OnOk result (Adds line.now self.old self.new) }
        ensures fault { IfErr result (λ fault. IsFaultOfLine line.now self.old (earlier + 1) fault) }
    {
        if line.is_empty() {
            return Ok(());
        }
        self.take_line(alloc, line, earlier + 1)
    }

    /// The survey that all lines together declare, once each of them is taken.
    pub(crate) fn into_survey(self, alloc: Global) -> Result<Survey, OutOfMemory>
        ensures survey { IfOk result (λ survey. survey ≡ self) }
        ensures well_formed { IfOk result (λ survey. IsWellFormed survey) }
    {
        Survey::of(alloc, self.fields, self.rules)
    }
}
