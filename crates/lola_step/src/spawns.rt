//! The spawn clauses of a layer.

ghost use Rattle.std.specs.Prelude.{◌≡◌, ◌<◌, ◌||◌, List, false, length, slice_get, Some};
ghost use Rattle.lola_value.specs.Naming.{Naming};
ghost use Rattle.lola_model.specs.Acceptance.{IsAccepted};
ghost use Rattle.lola_model.specs.Graph.{layer_of};
ghost use Rattle.lola_model.specs.Model.{spawn_pacing};
ghost use Rattle.lola_model.specs.Table.{Step, TableRow};
ghost use Rattle.lola_step_contents.specs.Stages.{eval_stage, full_row, layer_stage, spawn_stage};
ghost use Rattle.lola_step.specs.Found.{NoneFaulted, is_faulted};
ghost use Rattle.lola_step.specs.Notes.{AreSpawnResults};
ghost use Rattle.lola_step.specs.Progress.{GoesOn, IsAt, IsMomentOf, IsRunAt, TakesTo};
ghost use Rattle.lola_step.specs.Schedules.{duties_of};
ghost use Rattle.lola_step.specs.Spawns.{IsAfterClause, IsFor, IsNextSpawn, IsTaken, MaySpawn};
ghost use Rattle.lola_step.specs.declared.clauses.Spawning.TheVariants as spawning;
ghost use Rattle.lola_step.specs.declared.schedule.Duty.TheVariants as duty;

use crate::clauses::{Spawning, spawning_of};
use crate::moment::{Moment, is_active};
use crate::schedule::stream_at;
use crate::spawn_result::SpawnResult;
use lola_model::pacing::{ClausePacings, Pacing};
use lola_model::plan::Plan;
use lola_model::spec::Stream;
use lola_model::store::{SpawnEnd, StreamStore};
use lola_step_contents::calls::{poison_stream, spawn};
use lola_value::value::{FaultKind, Params};

/// The layer of a node; 0 past the end of the list.
pub(crate) fn layer_at(layers: &[u32], node: usize) -> u32
    ensures { result ≡ layer_of layers.now node }
{
    match layers.get(node) {
        Some(layer) => *layer,
        None => 0,
    }
}

/// The pacing of the spawn clause of stream `n`.
fn spawn_pacing_at(pacings: &[ClausePacings], n: usize) -> &Option<Pacing>
    requires { n < length pacings.now }
    ensures { result.now ≡ spawn_pacing (slice_get pacings.now n) }
{
    &pacings[n].spawn
}

/// Spawns the instance that a spawn clause asks for. Where there is no room for it, the stream is poisoned.
fn take_named<S: StreamStore>(store: &mut S, stream: u32, params: Params) -> SpawnResult
    requires may { MaySpawn (S.seen store.old) stream }
    requires fits { IsFor (S.seen store.old) stream (spawning.Named params) }
    ensures seen { IsAfterClause (S.seen store.old) stream (S.seen store.new) }
    ensures taken { IsTaken (spawning.Named params) stream result (S.remembers store.old) (S.seen store.old) (S.remembers store.new) (S.seen store.new) }
{
    match spawn(store, stream, params) {
        SpawnEnd::Born => SpawnResult::Fine,
        SpawnEnd::Living => SpawnResult::Fine,
        SpawnEnd::TooMany => {
            poison_stream(store, stream);
            SpawnResult::Fault(FaultKind::TooManyInstances)
        }
    }
}

/// What becomes of what a spawn clause asks for.
fn take<S: StreamStore>(store: &mut S, stream: u32, asked: Spawning) -> SpawnResult
    requires may { MaySpawn (S.seen store.old) stream }
    requires fits { IsFor (S.seen store.old) stream asked }
    ensures seen { IsAfterClause (S.seen store.old) stream (S.seen store.new) }
    ensures taken { IsTaken asked stream result (S.remembers store.old) (S.seen store.old) (S.remembers store.new) (S.seen store.new) }
{
    match asked {
        Spawning::Idle => SpawnResult::Fine,
        Spawning::Named(params) => take_named(store, stream, params),
        Spawning::Fault(kind) => {
            poison_stream(store, stream);
            SpawnResult::Fault(kind)
        }
        Spawning::Poison => {
            poison_stream(store, stream);
            SpawnResult::Poisoned
        }
    }
}

/// Runs the spawn clause of stream `n` where it is of this layer and active; what it did is the stream's spawn result then.
fn spawn_stream<S: StreamStore>(
    plan: &Plan,
    moment: &Moment,
    store: &mut S,
    layer: u32,
    n: usize,
    stream: &Stream,
    spawn_result: SpawnResult,
) -> SpawnResult
    requires accepted { IsAccepted plan.now }
    requires at { IsAt plan.now (spawn_stage (length plan.now.spec.streams) layer n) (S.seen store.old) }
    requires moment { IsMomentOf moment.now (S.seen store.old) }
    requires stream { slice_get plan.now.spec.streams n ≡ Some stream.now }
    ensures { IsNextSpawn plan.now moment.now layer n spawn_result result (S.remembers store.old) (S.seen store.old) (S.remembers store.new) (S.seen store.new) }
{
    if layer_at(plan.layers.as_slice(), 2 * n + 1) != layer {
        return spawn_result;
    }
    match &stream.spawn {
        None => spawn_result,
        Some(clause) => {
            if is_active(moment, spawn_pacing_at(plan.pacings.as_slice(), n)) {
                let asked = spawning_of(plan, stream, clause, store);
                take(store, n as u32, asked)
            } else {
                spawn_result
            }
        }
    }
}

/// Whether a spawn clause had a fault of its own so far, or this one had.
fn or_faulted(failed: bool, spawn_result: SpawnResult) -> bool
    ensures { result ≡ (is_faulted spawn_result || failed) }
{
    match spawn_result {
        SpawnResult::Fault(_) => true,
        _ => failed,
    }
}

/// Runs the spawn clauses of a layer that are active, by the streams' numbers, and notes what they did. The streams whose spawn clause
/// belongs to the layer are given. Answers whether one of them had a fault of its own.
pub(crate) fn spawn_layer<S: StreamStore>(
    plan: &Plan,
    duties: &[u32],
    moment: &Moment,
    store: &mut S,
    layer: u32,
    spawn_results: &mut [SpawnResult],
) -> bool
    requires duties { duties.now ≡ duties_of plan.now (duty.Spawn layer) }
    requires accepted { IsAccepted plan.now }
    requires at { IsAt plan.now (layer_stage (length plan.now.spec.streams) layer) (S.seen store.old) }
    requires moment { IsMomentOf moment.now (S.seen store.old) }
    requires spawn_results { length spawn_results.old ≡ length plan.now.spec.streams }
    ensures at { IsAt plan.now (eval_stage (length plan.now.spec.streams) layer) (S.seen store.new) }
    ensures goes_on { GoesOn (S.seen store.old) (S.seen store.new) }
    ensures takes { TakesTo plan.now moment.now (layer_stage (length plan.now.spec.streams) layer) (eval_stage (length plan.now.spec.streams) layer)
        (S.remembers store.old) (S.seen store.old) (S.remembers store.new) (S.seen store.new) }
    ensures with_spawn_results { (names : Naming) (rows : List TableRow) (step : Step)
        → IsRunAt plan.now moment.now (layer_stage (length plan.now.spec.streams) layer) (S.remembers store.old) (S.seen store.old) names rows step
        → AreSpawnResults plan.now (full_row plan.now moment.now.start rows step).streams (layer_stage (length plan.now.spec.streams) layer) spawn_results.old
        → AreSpawnResults plan.now (full_row plan.now moment.now.start rows step).streams (eval_stage (length plan.now.spec.streams) layer) spawn_results.new }
    ensures fine { result ≡ false → NoneFaulted spawn_results.old → NoneFaulted spawn_results.new }
{
    let mut failed = false;
    for number in duties {
        let n = *number as usize;
        let stream = stream_at(plan, *number);
        let spawn_result = spawn_stream(plan, moment, store, layer, n, stream, spawn_results[n]);
        failed = or_faulted(failed, spawn_result);
        spawn_results[n] = spawn_result;
    }
    failed
}
