//! Steps of two workers, one after the other.
ghost use Rattle.std.specs.Prelude.{◌≡◌, ◌-◌, ◌<◌, ◌^◌, length, IfOk};
ghost use Rattle.std.specs.Arc.{arc_value};
ghost use Rattle.run_core.specs.Steps.{HasTermsOf};

use crate::{CoreEvent, CoreReply, CoreState, core_laws};
use donor_book::{Book, Claim};
use edit_line::Edits;
use edit_model::{Field, FieldSet, Kind, Name, Survey};
use foundation::{Sequence, Steps};
use linear_elim::fold_system;
use std::alloc::Global;
use std::marker::Brand;
use std::sync::Arc;
use std::sync::ledger::{Blank, Ledger};
use std::test::Fail;

// The edits of a survey of one field without rules.
fn no_edits(alloc: Global) -> Result<Arc<Edits>, Fail> {
    let fields = vec![in alloc;
        Field {
            name: Name::new(b"Costs").ok_or("a name")?,
            weight: 1,
            kind: Kind::Number { scale: 1 },
        },
    ]?;
    let survey = Survey::new(alloc, fields, Vec::new(alloc))
        .ok()
        .ok_or("a survey")?;
    let edits = Edits::new(alloc, &survey, Vec::new(alloc))?;
    Ok(Arc::new(alloc, edits)?)
}

// The state at the start of two workers that share two rows, with one donor that is given once at most.
fn core_of_two(alloc: Global, edits: Arc<Edits>) -> Result<CoreState, Fail>
    ensures edits { IfOk result (λ core. core.edits ≡ arc_value edits) }
    ensures workers { IfOk result (λ core. length core.workers ≡ 2) }
    ensures published { IfOk result (λ core. length core.published ≡ 0) }
    ensures rows { IfOk result (λ core. core.book.rows ≡ 2) }
    ensures donors { IfOk result (λ core. core.book.donors ≡ 1) }
{
    let book = Book::start(alloc, 1, 1, 2)?;
    Ok(CoreState::start(alloc, 2, 2, edits, book)?)
}

// The worker of this number, from 0, draws; the reply has the row number, or None where none is left.
fn draw(core: &mut CoreState, worker: u32) -> Result<CoreReply, Fail>
    requires { worker < length core.old.workers }
    ensures { HasTermsOf core.old core.new }
{
    Ok(core.step(CoreEvent::Draw { worker })?)
}

// The worker of this number claims for the row of that number, and ranks the one donor alone.
fn claim(core: &mut CoreState, alloc: Global, worker: u32, row_no: u32) -> Result<CoreReply, Fail>
    requires worker { worker < length core.old.workers }
    requires row { row_no < core.old.book.rows }
    requires donor { 0 < core.old.book.donors }
    ensures { HasTermsOf core.old core.new }
{
    let ranking = Sequence::from_vec(vec![in alloc; 0]?);
    Ok(core.step(CoreEvent::Claim {
        worker,
        row_no,
        ranking,
    })?)
}

// The first worker publishes the system of these edits of which no field is eliminated. `blank` begins a
// counter of steps, which nobody reads.
fn publish<L: Ledger>(
    core: &mut CoreState,
    alloc: Global,
    edits: &Arc<Edits>,
    blank: Blank,
) -> Result<CoreReply, Fail>
    requires name { blank.name ≡ L.name }
    requires parts { blank.parts ≡ L.parts }
    requires counts { 0 < blank.parts }
    requires edits { core.old.edits ≡ arc_value edits.now }
    requires worker { 0 < length core.old.workers }
    requires room { length core.old.published < 2 ^ 32 - 1 }
{
    let mut steps = Steps::<L>::start(blank);
    let system = fold_system(alloc, edits, FieldSet::empty(), &mut steps)
        .ok()
        .ok_or("a system")?;
    Ok(core.step(CoreEvent::Publish { worker: 0, system })?)
}

// The first worker publishes the system of these edits, as [`publish`] says, with a counter of its own.
fn publish_alone(core: &mut CoreState, alloc: Global, edits: &Arc<Edits>) -> Result<CoreReply, Fail>
    requires edits { core.old.edits ≡ arc_value edits.now }
    requires worker { 0 < length core.old.workers }
    requires room { length core.old.published < 2 ^ 32 - 1 }
{
    publish::<Brand>(core, alloc, edits, Blank::new(1))
}

// Each worker draws a row. The donor is given to the first claim, and nobody to that of the other row. Who
// claims again is told what it had, and a draw past the last row is answered None.
#[test]
fn two_workers_draw_and_claim(rt: HostRuntime) -> Result<(), Fail> {
    let alloc = rt.alloc();
    let mut core = core_of_two(alloc, no_edits(alloc)?)?;
    let first = draw(&mut core, 0)?;
    let second = draw(&mut core, 1)?;
    let given = claim(&mut core, alloc, 1, 1)?;
    let nobody = claim(&mut core, alloc, 0, 0)?;
    let again = claim(&mut core, alloc, 0, 0)?;
    let none = draw(&mut core, 0)?;
    assert_eq!(rt; first, CoreReply::Drew(Some(0)));
    assert_eq!(rt; second, CoreReply::Drew(Some(1)));
    assert_eq!(rt; given, CoreReply::Claimed(Claim::Given(0)));
    assert_eq!(rt; nobody, CoreReply::Claimed(Claim::Nobody));
    assert_eq!(rt; again, CoreReply::Claimed(Claim::Had(None)));
    assert_eq!(rt; none, CoreReply::Drew(None));
    core_laws();
    Ok(())
}

// The first system that is published stands at place 0.
#[test]
fn a_system_is_published(rt: HostRuntime) -> Result<(), Fail> {
    let alloc = rt.alloc();
    let edits = no_edits(alloc)?;
    let mut core = core_of_two(alloc, Arc::try_clone(&edits)?)?;
    let reply = publish_alone(&mut core, alloc, &edits)?;
    assert_eq!(rt; reply, CoreReply::Published(0));
    Ok(())
}
