//! A specification with its plan, and an engine that goes on from a saved state of it.

ghost use Rattle.std.specs.Prelude.{◌≡◌, ◌<◌, ◌≤◌, IfOk, MatchResult, Err, true};
ghost use Rattle.std.specs.List.{list_all};
ghost use Rattle.std.specs.Str.{is_utf8};
ghost use Rattle.lola_model.specs.Acceptance.{IsAccepted};
ghost use Rattle.lola_monitor.specs.Outcomes.{PlansName, ReadPlan};
ghost use Rattle.lola_monitor.specs.Replaying.{IsText};
ghost use Rattle.lola_monitor.specs.Stating.{EngineRead, Loaded, NoEngine, Unloads, refusal_of};

use crate::call_end::{Unloaded, Unplanned};
use crate::planning::plan_of;
use crate::reading::{read_name, read_text};
use lola_engine::engine::Engine;
use lola_front_law::texts::plan_texts_are_utf8;
use lola_instances::store::BoundedStore;
use lola_model::journal::Show;
use lola_model::plan::Plan;
use lola_port::{FetchEnd, Shelf};
use lola_save::end::StateEnd;
use lola_save::load::load;
use lola_save_read::read::ReadEnd;
use lola_save_text::journal_law::{start_serves_as_option, state_of_journal_is_saved};
use lola_save_text::law::one_state;
use std::alloc::Global;
use std::hash::RandomState;

/// The most bytes of a specification.
const MOST_BYTES: usize = 1048576;

/// A specification that was read: its bytes, and the plan that they were compiled to.
#[derive(Drop)]
pub struct ReadSpecification {
    pub bytes: Vec<u8>,
    pub plan: Plan,
}

/// Fetches a specification, reads it, gives its source back, and compiles it. The text literals of its plan are in UTF-8.
pub fn read_specification<F: Shelf>(
    alloc: Global,
    shelf: &mut F,
    name: &str,
) -> Result<ReadSpecification, Unplanned>
    requires { (F.state shelf.old).out < 65536 }
    ensures plan { MatchResult result (λ s. ReadPlan s.plan name.now (F.state shelf.old) (F.state shelf.new)) (λ end. PlansName (Err end) name.now (F.state shelf.old) (F.state shelf.new)) }
    ensures text { IfOk result (λ s. IsText ((F.state shelf.old).told name.now) s.bytes.items) }
    ensures literals { IfOk result (λ s. list_all is_utf8 s.plan.spec.texts ≡ true) }
{
    plan_texts_are_utf8();
    let bytes = match read_name(alloc, shelf, name, MOST_BYTES) {
        Ok(bytes) => bytes,
        Err(FetchEnd::Failed) => return Err(Unplanned::Unreadable),
        Err(FetchEnd::Memory) => return Err(Unplanned::Memory),
    };
    match plan_of(alloc, &bytes) {
        Ok(plan) => Ok(ReadSpecification { bytes, plan }),
        Err(end) => Err(end),
    }
}

// Why bytes are no state, as a call tells it.
fn refusal(end: ReadEnd) -> Unloaded
    ensures { result ≡ refusal_of end }
{
    match end {
        ReadEnd::Damaged(line) => Unloaded::Stated(StateEnd::Damaged(line)),
        ReadEnd::OtherSpec => Unloaded::Stated(StateEnd::OtherSpecification),
        ReadEnd::Memory => Unloaded::Memory,
    }
}

// An engine that goes on from the state whose text these bytes are.
fn load_engine(
    alloc: Global,
    hasher: RandomState,
    specification: &[u8],
    plan: Plan,
    bytes: &[u8],
    show: Show,
    workers: u32,
) -> Result<Engine<BoundedStore>, Unloaded>
    requires accepted { IsAccepted plan }
    requires texts { list_all is_utf8 plan.spec.texts ≡ true }
    requires workers { (1 ≤ workers) × (workers ≤ 64) }
    ensures { MatchResult result (λ engine. Loaded specification.now plan bytes.now show engine.state engine.store) (λ end. Unloads end specification.now plan bytes.now) }
{
    one_state(&plan);
    state_of_journal_is_saved(&plan);
    start_serves_as_option(&plan);
    match load(alloc, hasher, specification, plan, bytes, show, workers) {
        Ok(engine) => Ok(engine),
        Err(end) => Err(refusal(end)),
    }
}

/// Fetches a state of a plan, reads it, gives its source back, and makes an engine that goes on from it. The plan's specification is
/// given by its bytes.
pub fn read_engine<F: Shelf>(
    alloc: Global,
    hasher: RandomState,
    specification: &[u8],
    plan: Plan,
    name: &str,
    show: Show,
    workers: u32,
    shelf: &mut F,
) -> Result<Engine<BoundedStore>, Unloaded>
    requires out { (F.state shelf.old).out < 65536 }
    requires accepted { IsAccepted plan }
    requires texts { list_all is_utf8 plan.spec.texts ≡ true }
    requires workers { (1 ≤ workers) × (workers ≤ 64) }
    ensures { MatchResult result (λ engine. EngineRead specification.now plan show name.now engine.state engine.store (F.state shelf.old) (F.state shelf.new))
        (λ end. NoEngine end specification.now plan name.now (F.state shelf.old) (F.state shelf.new)) }
{
    let bytes = match read_text(alloc, shelf, name) {
        Ok(bytes) => bytes,
        Err(FetchEnd::Failed) => return Err(Unloaded::Stated(StateEnd::Unreadable)),
        Err(FetchEnd::Memory) => return Err(Unloaded::Memory),
    };
    match load_engine(alloc, hasher, specification, plan, &bytes, show, workers) {
        Ok(engine) => Ok(engine),
        Err(end) => Err(end),
    }
}
