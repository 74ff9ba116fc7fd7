//! What steps note, kept from one to the next so that a step takes no memory where there is room.

ghost use Rattle.std.specs.Prelude.{◌≡◌, ◌<◌, ◌≤◌, ◌^◌, ℕ, [], length, replicate, OnOk, IfOk, IsOk};
ghost use Rattle.std.specs.Vec.{vec_capacity};
ghost use Rattle.lola_model.specs.Acceptance.{IsAccepted};
ghost use Rattle.lola_model.specs.Graph.{layer_of};
ghost use Rattle.lola_step.specs.Progress.{IsOf};
ghost use Rattle.lola_step.specs.Scratches.{HasRoom, IsFresh, IsScratchOf, instances_to_come, no_span};
ghost use Rattle.lola_step.specs.Schedules.{duties_of};
ghost use Rattle.lola_step.specs.declared.spawn_result.SpawnResult.TheVariants as spawn_result;
ghost use Rattle.lola_step.specs.declared.schedule.Duty.TheVariants as duty;

use crate::schedule::Schedule;
use crate::spawn_result::SpawnResult;
use crate::step_value::StepValue;
use crate::tasks::Task;
use lola_expr::plan::PlanCode;
use lola_model::plan::Plan;
use lola_model::store::{StreamStore, Whereabouts};
use lola_value::brief::Brief;
use lola_value::text::Memory;
use lola_workers::Share;
use std::alloc::Global;

// No more workers are taken.
const MOST_WORKERS: usize = 64;

/// Where the outcomes of a stream's instances stand among the results, and the instances among the tasks.
#[derive(Clone, Copy)]
pub struct Span {
    pub from: usize,
    pub count: usize,
}

/// The code of a plan's eval clauses, and what its steps note: what spawn clauses did, the places of a stream's instances that are to be
/// evaluated, the instances that were evaluated with their outcomes, which instances are closed, and the values.
#[derive(Drop)]
pub struct Scratch {
    pub(crate) spawn_results: Vec<SpawnResult>,
    pub(crate) spans: Vec<Span>,
    // where the instances stand that are to be evaluated
    pub(crate) sought: Vec<Whereabouts>,
    pub(crate) places: Vec<u32>,
    pub(crate) tasks: Vec<Task>,
    pub(crate) results: Vec<Brief>,
    // what each worker does of a layer
    pub(crate) shares: Vec<Share>,
    pub(crate) closing: Vec<Task>,
    pub(crate) step_values: Vec<StepValue>,
    pub(crate) layers: u64,
    // which streams have a duty in a step, which is never changed
    pub(crate) schedule: Schedule,
    // the code of the plan's eval clauses, which is never changed
    pub(crate) code: PlanCode,
    // no step was evaluated yet
    pub(crate) is_first: bool,
    // in the last step that was evaluated a spawn clause had a fault of its own or an outcome was a fault
    pub(crate) is_faulty: bool,
}

/// How many layers there are, at least one.
fn layer_count(layers: &[u32]) -> u64
    ensures above { (node : ℕ) → layer_of layers.now node < result }
    ensures few { result ≤ 2 ^ 32 }
{
    let mut count = 1;
    for layer in layers {
        if u64::from(*layer) >= count {
            count = u64::from(*layer) + 1;
        }
    }
    count
}

/// How many instances a step may have: those that live, and one more of each stream.
fn count_instances<S: StreamStore>(plan: &Plan, store: &S) -> usize
    requires accepted { IsAccepted plan.now }
    requires of { IsOf plan.now (S.seen store.now) }
    ensures { result ≡ instances_to_come (S.seen store.now) }
{
    let mut count = 0;
    for n in 0..plan.spec.streams.as_slice().len() {
        count += store.instances(n as u32) as usize + 1;
    }
    count
}

/// The same, where the streams that have a spawn clause are given: where there are none, each stream has its one instance.
#[tactic(auto, using(crate::proofs::Counts::two_exactly))]
fn instances_in_step<S: StreamStore>(plan: &Plan, births: &[u32], store: &S) -> usize
    requires births { births.now ≡ duties_of plan.now duty.AnySpawn }
    requires accepted { IsAccepted plan.now }
    requires of { IsOf plan.now (S.seen store.now) }
    ensures { result ≡ instances_to_come (S.seen store.now) }
{
    if births.is_empty() {
        2 * plan.spec.streams.as_slice().len()
    } else {
        count_instances(plan, store)
    }
}

// A share for each worker that there may be.
fn empty_shares(alloc: Global) -> Result<Vec<Share>, Memory> {
    let mut shares = Vec::with_capacity(alloc, MOST_WORKERS)?;
    for _ in 0..MOST_WORKERS {
        shares.push(Share::empty(alloc))?;
    }
    Ok(shares)
}

impl Scratch {
    /// Nothing noted yet, for a plan, with all the room that its steps need where no stream has a spawn clause.
    #[tactic(auto, using(crate::proofs::Seeking::all_unsought))]
    pub fn create(alloc: Global, plan: &Plan) -> Result<Scratch, Memory>
        requires { IsAccepted plan.now }
        ensures { IfOk result (IsScratchOf plan.now) }
    {
        let count = plan.spec.streams.as_slice().len();
        let room = 2 * count;
        let spawn_results = vec![in alloc; SpawnResult::Fine; count]?;
        let spans = vec![in alloc; Span { from: 0, count: 0 }; count]?;
        let sought = vec![in alloc; Whereabouts::Unknown; count]?;
        let layers = layer_count(plan.layers.as_slice());
        let schedule = Schedule::create(alloc, plan, layers)?;
        Ok(Scratch {
            spawn_results,
            spans,
            sought,
            places: Vec::with_capacity(alloc, room)?,
            tasks: Vec::with_capacity(alloc, room)?,
            results: Vec::with_capacity(alloc, room)?,
            shares: empty_shares(alloc)?,
            closing: Vec::with_capacity(alloc, room)?,
            step_values: Vec::with_capacity(alloc, room)?,
            layers,
            schedule,
            code: PlanCode::create(alloc, &plan.spec)?,
            is_first: true,
            is_faulty: false,
        })
    }

    /// The values of the last step that was done, of all streams but inputs, by the streams' numbers and in the order of birth.
    pub fn values(&self) -> &[StepValue]
        ensures { result.now ≡ self.now.step_values.items }
    {
        self.step_values.as_slice()
    }
}

/// Notes nothing, and makes room for all that a step may note. Where that room is there already, it takes no memory.
pub(crate) fn make_room<S: StreamStore>(
    plan: &Plan,
    store: &S,
    scratch: &mut Scratch,
) -> Result<(), Memory>
    requires accepted { IsAccepted plan.now }
    requires of { IsOf plan.now (S.seen store.now) }
    requires made { IsScratchOf plan.now scratch.old }
    ensures made { IsScratchOf plan.now scratch.new }
    ensures fresh { OnOk result (IsFresh scratch.new (instances_to_come (S.seen store.now))) }
    ensures enough { HasRoom scratch.old (instances_to_come (S.seen store.now)) → IsOk result }
{
    let room = instances_in_step(plan, scratch.schedule.births.as_slice(), store);
    forget_spawn_results(&mut scratch.spawn_results);
    forget_spans(&mut scratch.spans);
    clear_for(&mut scratch.places, room)?;
    clear_for(&mut scratch.tasks, room)?;
    clear_for(&mut scratch.results, room)?;
    clear_for(&mut scratch.closing, room)?;
    clear_for(&mut scratch.step_values, room)?;
    Ok(())
}

/// An empty list with room, which is never less than it was. Where that was enough, it takes no memory.
fn clear_for<T: Drop>(list: &mut Vec<T>, room: usize) -> Result<(), Memory>
    ensures items { list.new.items ≡ [] }
    ensures room { OnOk result (room ≤ vec_capacity list.new) }
    ensures capacity { vec_capacity list.old ≤ vec_capacity list.new }
    ensures enough { room ≤ vec_capacity list.old → IsOk result }
{
    list.clear();
    match list.reserve(room) {
        Ok(()) => Ok(()),
        Err(_) => Err(Memory),
    }
}

fn forget_spawn_results(spawn_results: &mut [SpawnResult])
    ensures { spawn_results.new ≡ replicate (length spawn_results.old) spawn_result.Fine }
{
    for spawn_result in spawn_results.iter_mut() {
        *spawn_result = SpawnResult::Fine;
    }
}

fn forget_spans(spans: &mut [Span])
    ensures { spans.new ≡ replicate (length spans.old) no_span }
{
    for span in spans.iter_mut() {
        *span = Span { from: 0, count: 0 };
    }
}
