//! The derived system: what is left of edits without some numerical fields. That its lines are those of
//! the fold is part of its type. In contracts, `IsMade` says this, and that each line comes from what its
//! origin names; `Lifts` says what the lines mean.
ghost use Rattle.std.specs.Prelude.{◌≡◌};
ghost use Rattle.std.specs.Arc.{arc_value};
ghost use Rattle.edit_model.specs.FieldSets.{with_number};
ghost use Rattle.edit_line.specs.Shapes.{IsNumerical};
ghost use Rattle.linear_elim.specs.Origins.{HaveOrigins};
ghost use Rattle.linear_elim.specs.Parts.{IsFlat, IsMade, IsOver, Lifts, parts_of_system};
ghost use Rattle.linear_elim.specs.Systems.{IsSystem};

use edit_line::{Derived, Edits};
use edit_model::FieldSet;
use std::marker::Model;
use std::sync::Arc;

/// Edits, a set of numerical fields, and the lines of the edits' derived system without these fields: the
/// fold of the step over the fields in declared order, from the reduced edits.
#[derive(Drop)]
pub struct System {
    edits: Arc<Edits>,
    fields: FieldSet,
    lines: Vec<Derived>,
}

impl Model for System {
    ghost use Rattle.std.specs.Arc.{arc_value};
    ghost use Rattle.linear_elim.specs.Parts.{IsMade, parts_of_system};
    ghost use Rattle.linear_elim.specs.Systems.{SystemParts};

    ghost Value = { SystemParts };

    ghost view = { λ s. parts_of_system (arc_value s.edits) s.fields s.lines.items };

    ghost invariant = { λ s. IsMade (parts_of_system (arc_value s.edits) s.fields s.lines.items) };
}

impl System {
    /// The system of these edits and fields. The caller knows that the lines are those of the fold over
    /// these fields. No memory.
    pub(crate) fn of(edits: Arc<Edits>, fields: FieldSet, lines: Vec<Derived>) -> System
        requires { IsMade (parts_of_system (arc_value edits) fields lines.items) }
        ensures { result ≡ parts_of_system (arc_value edits) fields lines.items }
    {
        System {
            edits,
            fields,
            lines,
        }
    }

    /// The edits. No memory.
    pub fn edits(&self) -> &Arc<Edits>
        ensures { arc_value result.now ≡ self.now.edits }
    {
        &self.edits
    }

    /// The fields that were eliminated, all numerical. No memory.
    pub fn fields(&self) -> FieldSet
        ensures { result ≡ self.now.fields }
    {
        self.fields
    }

    /// The fields that were eliminated, and this numerical field beside them. No memory.
    pub fn fields_with(&self, field: u32) -> FieldSet
        requires { IsNumerical self.now.edits.shape field }
        ensures { result ≡ with_number self.now.fields field }
    {
        let shape = self.edits.shape();
        let _counts = shape.code_counts(); // read for what it says: they are at most 64
        self.fields.with(field)
    }

    /// The lines, in order. At a point they all hold exactly where some values at the eliminated fields
    /// make the edits hold. The origin of each names lines that the last step took, those of the system
    /// without the last field. Where no field was eliminated, it names edits. No memory.
    pub fn lines(&self) -> &[Derived]
        ensures lines { result.now ≡ self.now.lines }
        ensures system { IsSystem self.now }
        ensures over { IsOver self.now }
        ensures lifts { Lifts self.now }
        ensures flat { IsFlat self.now }
        ensures origins { HaveOrigins self.now }
    {
        self.lines.as_slice()
    }
}
