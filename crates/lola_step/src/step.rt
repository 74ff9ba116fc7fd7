//! A step: the inputs, then layer by layer the spawn clauses and the instances, and then the close clauses.

ghost use Rattle.std.specs.Prelude.{◌≡◌, ◌<◌, ◌≤◌, ◌^◌, [], List, false, ◌||◌, length, IsOk, IsTrue, OnOk, OnErr};
ghost use Rattle.std.specs.Vec.{vec_capacity};
ghost use Rattle.lola_value.specs.Naming.{Naming};
ghost use Rattle.lola_value.specs.Times.{latest};
ghost use Rattle.lola_model.specs.Acceptance.{IsAccepted};
ghost use Rattle.lola_model.specs.Content.{Content};
ghost use Rattle.lola_model.specs.Runs.{content_after};
ghost use Rattle.lola_model.specs.Standing.{StandsBetween};
ghost use Rattle.lola_model.specs.Store.{IsRunning, IsStarted, Stands, after_prepare, never_spawns, no_params, start_seen, time_seen};
ghost use Rattle.lola_model.specs.Table.{Step, TableRow};
ghost use Rattle.lola_step_contents.specs.Stages.{layer_stage};
ghost use Rattle.lola_step.specs.Beginnings.{moment_at};
ghost use Rattle.lola_step.specs.Conclusions.{Concludes, ShowsConcluded};
ghost use Rattle.lola_step.specs.Evals.{IsReadyFor};
ghost use Rattle.lola_step.specs.Found.{IsFaultless};
ghost use Rattle.lola_step.specs.Notes.{AreSpans, AreStepValues};
ghost use Rattle.lola_step.specs.Progress.{GoesOn, IsAt, IsMomentOf, IsOf, IsRun};
ghost use Rattle.lola_step.specs.Scratches.{EvaluatesAll, IsFresh, IsScratchOf, instances_to_come};
ghost use Rattle.lola_step.specs.Rooms.{rooms, total};
ghost use Rattle.lola_step.specs.Steps.{AreInputs, ReadFields, ShowsEnd, StepEnds};
ghost use Rattle.lola_step.specs.declared.end.StepEnd.TheVariants as end;

use crate::closes::{close_all, find_closings};
use crate::end::StepEnd;
use crate::ends::{collect, fault_of_step};
use crate::evals::eval_layer;
use crate::inputs::tell_inputs;
use crate::moment::{LastRate, Moment, present_inputs};
use crate::scratch::{Scratch, make_room};
use crate::spawns::spawn_layer;
use crate::tasks::no_parameters;
use lola_model::journal::Show;
use lola_model::plan::Plan;
use lola_model::store::StreamStore;
use lola_port::Gate;
use lola_step_contents::calls::{begin, prepare};
use lola_value::text::Memory;
use lola_value::value::{Outcome, Params};
use std::thread::Threads;

/// The moment of a step.
fn moment_of(start: u64, time: u64, is_row: bool, inputs: &[Outcome]) -> Moment
    requires { length inputs.now ≤ 64 }
    ensures { result ≡ moment_at start time is_row inputs.now }
{
    let present = if is_row {
        Some(present_inputs(inputs))
    } else {
        None
    };
    Moment {
        start,
        time,
        present,
    }
}

/// Whether one of three holds.
fn one_of(first: bool, second: bool, third: bool) -> bool
    ensures { result ≡ (first || (second || third)) }
{
    first || second || third
}

/// Evaluates all streams, layer by layer. No parameters are lent to it, for instances that have none.
fn evaluate<R: Threads + Sync, S: StreamStore + Sync, G: Gate + Sync>(
    rt: &R,
    gate: &G,
    plan: &Plan,
    moment: &Moment,
    none: &Params,
    store: &mut S,
    scratch: &mut Scratch,
    workers: u32,
)
    requires workers { (1 ≤ workers) × (workers ≤ 64) }
    requires accepted { IsAccepted plan.now }
    requires at { IsAt plan.now (layer_stage (length plan.now.spec.streams) 0) (S.seen store.old) }
    requires moment { IsMomentOf moment.now (S.seen store.old) }
    requires none { none.now ≡ no_params }
    requires made { IsScratchOf plan.now scratch.old }
    requires fresh { IsFresh scratch.old (total (rooms (S.seen store.old))) }
    ensures of { IsOf plan.now (S.seen store.new) }
    ensures running { IsRunning (S.seen store.new) }
    ensures goes_on { GoesOn (S.seen store.old) (S.seen store.new) }
    ensures made { IsScratchOf plan.now scratch.new }
    ensures spans { IsReadyFor plan.now (layer_stage (length plan.now.spec.streams) scratch.new.layers) (S.seen store.new) scratch.new.tasks.items scratch.new.results.items scratch.new.spans.items }
    ensures each { length scratch.new.tasks.items ≡ length scratch.new.results.items }
    ensures places { vec_capacity scratch.new.places ≡ vec_capacity scratch.old.places }
    ensures kept { (scratch.new.closing ≡ scratch.old.closing) × (scratch.new.step_values ≡ scratch.old.step_values) }
    ensures faultless { scratch.new.is_faulty ≡ false → IsFaultless scratch.new.spawn_results.items scratch.new.results.items }
    ensures evaluates { EvaluatesAll plan.now moment.now (S.remembers store.old) (S.seen store.old) (S.remembers store.new) (S.seen store.new) scratch.new }
{
    let mut faulty = false;
    let mut last = LastRate::none();
    for layer in 0..scratch.layers {
        let failed = spawn_layer(
            plan,
            scratch.schedule.spawns_in(layer),
            moment,
            store,
            layer as u32,
            &mut scratch.spawn_results,
        );
        let given = eval_layer(
            rt,
            gate,
            plan,
            scratch.schedule.evals_in(layer),
            scratch.schedule.seeks_in(layer),
            &scratch.code,
            moment,
            none,
            store,
            layer as u32,
            &scratch.spawn_results,
            &mut scratch.places,
            &mut scratch.tasks,
            &mut scratch.shares,
            &mut scratch.results,
            &mut scratch.spans,
            &mut scratch.sought,
            &mut last,
            workers,
            scratch.is_first,
        );
        faulty = one_of(faulty, failed, given);
    }
    scratch.is_first = false;
    scratch.is_faulty = faulty;
}

/// Ends a step whose streams are evaluated: its fault, or the values that may have lines and its close clauses.
fn conclude<S: StreamStore>(
    plan: &Plan,
    show: Show,
    moment: &Moment,
    store: &mut S,
    scratch: &mut Scratch,
) -> StepEnd
    requires accepted { IsAccepted plan.now }
    requires of { IsOf plan.now (S.seen store.old) }
    requires running { IsRunning (S.seen store.old) }
    requires moment { IsMomentOf moment.now (S.seen store.old) }
    requires made { IsScratchOf plan.now scratch.old }
    requires each { length scratch.old.tasks.items ≡ length scratch.old.results.items }
    requires within { AreSpans (S.seen store.old) scratch.old.tasks.items scratch.old.results.items scratch.old.spans.items }
    requires faultless { scratch.old.is_faulty ≡ false → IsFaultless scratch.old.spawn_results.items scratch.old.results.items }
    requires none { (scratch.old.closing.items ≡ []) × (scratch.old.step_values.items ≡ []) }
    requires places_room { total (rooms (S.seen store.old)) ≤ vec_capacity scratch.old.places }
    requires closing_room { total (rooms (S.seen store.old)) ≤ vec_capacity scratch.old.closing }
    requires step_values_room { total (rooms (S.seen store.old)) ≤ vec_capacity scratch.old.step_values }
    ensures made { IsScratchOf plan.now scratch.new }
    ensures step_values { result ≡ end.Done → AreStepValues plan.now scratch.new.step_values.items }
    ensures seen { ShowsConcluded result plan.now (S.seen store.old) (S.seen store.new) }
    ensures concludes { Concludes plan.now show moment.now scratch.old.spawn_results.items scratch.old.spans.items scratch.old.tasks.items scratch.old.results.items (S.remembers store.old) (S.seen store.old)
        result (S.remembers store.new) (S.seen store.new) scratch.new.step_values.items }
{
    if let Some((stream, kind)) = fault_of_step(
        plan,
        scratch.is_faulty,
        &scratch.spawn_results,
        &scratch.spans,
        &scratch.results,
    ) {
        return StepEnd::Fault { stream, kind };
    }
    if let Some((stream, kind)) = find_closings(
        plan,
        scratch.schedule.closes.as_slice(),
        moment,
        store,
        &mut scratch.places,
        &mut scratch.closing,
    ) {
        return StepEnd::Fault { stream, kind };
    }
    collect(
        plan,
        scratch.schedule.shown(show),
        store,
        show,
        &scratch.spans,
        &scratch.tasks,
        &scratch.results,
        &mut scratch.step_values,
    );
    close_all(plan, store, &scratch.closing);
    StepEnd::Done
}

/// Makes the room of a step, in the store and for the notes. The store stands for what it stood for, also where there is no memory.
fn make_all_room<S: StreamStore>(
    plan: &Plan,
    store: &mut S,
    scratch: &mut Scratch,
) -> Result<(), Memory>
    requires accepted { IsAccepted plan.now }
    requires of { IsOf plan.now (S.seen store.old) }
    requires made { IsScratchOf plan.now scratch.old }
    ensures made { IsScratchOf plan.now scratch.new }
    ensures fresh { OnOk result (IsFresh scratch.new (instances_to_come (S.seen store.old))) }
    ensures ok { OnOk result (S.seen store.new ≡ after_prepare (S.seen store.old)) }
    ensures err { OnErr result (S.seen store.new ≡ S.seen store.old) }
    ensures never { IsTrue S.BOUNDED → IsTrue (never_spawns (S.seen store.old).layout.streams) → IsOk result }
    ensures stands { (names : Naming) (c : Content) → Stands names (S.remembers store.old) (S.seen store.old) c
        → Stands names (S.remembers store.new) (S.seen store.new) c }
{
    make_room(plan, store, scratch)?;
    prepare(store)
}

/// Runs one step: of a row, with an outcome for each input, missing where the field is absent; or of the deadlines of a moment, with no
/// inputs. Times are in nanoseconds. Instances are evaluated by at most so many workers, from 1 to 64. Others see a fault as poison; the
/// step's fault is that of the first stream that has one, of its spawn clause or else the least kind among its instances, and if there is
/// none, of the first stream whose close condition has one. Where it is done, the values that may have lines stand in the notes: of
/// triggers, and of outputs where these are shown; an instance that is closed has its value there, and is gone from the store. All room
/// is made before anything changes. Over a bounded store a step never lacks memory where no stream has a spawn clause.
pub fn step<R: Threads + Sync, S: StreamStore + Sync, G: Gate + Sync>(
    rt: &R,
    gate: &G,
    plan: &Plan,
    store: &mut S,
    scratch: &mut Scratch,
    start: u64,
    time: u64,
    is_row: bool,
    inputs: &[Outcome],
    show: Show,
    workers: u32,
) -> StepEnd
    requires accepted { IsAccepted plan.now }
    requires made { IsScratchOf plan.now scratch.old }
    requires of { IsOf plan.now (S.seen store.old) }
    requires started { IsStarted (S.seen store.old) }
    requires start { start ≡ start_seen (S.seen store.old) }
    requires order { time_seen (S.seen store.old) ≤ time }
    requires in_time { time ≤ latest }
    requires steps { (S.seen store.old).steps < 2 ^ 63 }
    requires inputs { AreInputs is_row plan.now.spec.streams inputs.now }
    requires workers { (1 ≤ workers) × (workers ≤ 64) }
    ensures made { IsScratchOf plan.now scratch.new }
    ensures step_values { result ≡ end.Done → AreStepValues plan.now scratch.new.step_values.items }
    ensures seen { ShowsEnd result plan.now time (S.seen store.old) (S.seen store.new) }
    ensures never { IsTrue S.BOUNDED → IsTrue (never_spawns (S.seen store.old).layout.streams) → result ≡ end.Memory → ⊥ }
    ensures ends { (names : Naming) (rows : List TableRow) (of : Step) → IsRun plan.now names rows → of.time ≡ time
        → ReadFields names inputs.now is_row of.fields
        → StandsBetween names (S.remembers store.old) (S.seen store.old) (content_after plan.now start rows)
        → StepEnds result plan.now show start rows of names (S.remembers store.new) (S.seen store.new) scratch.new.step_values.items }
{
    if let Err(Memory) = make_all_room(plan, store, scratch) {
        return StepEnd::Memory;
    }
    begin(store, time);
    let moment = moment_of(start, time, is_row, inputs);
    tell_inputs(
        plan,
        scratch.schedule.inputs.as_slice(),
        store,
        is_row,
        inputs,
    );
    evaluate(
        rt,
        gate,
        plan,
        &moment,
        &no_parameters(),
        store,
        scratch,
        workers,
    );
    conclude(plan, show, &moment, store, scratch)
}
