//! The close clauses of a step.

ghost use Rattle.std.specs.Prelude.{◌≡◌, ◌+◌, ◌<◌, ◌≤◌, [], ◌++◌, IsTrue, Some, length, reverse, slice_get, true, false, vec_len};
ghost use Rattle.std.specs.Vec.{vec_capacity};
ghost use Rattle.lola_value.specs.Naming.{Naming};
ghost use Rattle.lola_value.specs.Times.{latest};
ghost use Rattle.lola_model.specs.Acceptance.{IsAccepted};
ghost use Rattle.lola_model.specs.Content.{Content};
ghost use Rattle.lola_model.specs.Dues.{locals_of};
ghost use Rattle.lola_model.specs.Model.{close_pacing};
ghost use Rattle.lola_model.specs.NextStep.{is_local};
ghost use Rattle.lola_model.specs.Store.{IsRunning, Stands, instances_seen, layout_of, spawns_in};
ghost use Rattle.lola_step_contents.specs.Ends.{closed_each};
ghost use Rattle.lola_step.specs.Clauses.{IsAnswer, closing_answer};
ghost use Rattle.lola_step.specs.Closings.{AreUpTo, FindsAmong, FindsIn, MayAskClosing, closed_by};
ghost use Rattle.lola_step.specs.Ends.{FindsClosings};
ghost use Rattle.lola_step.specs.Found.{add_fault};
ghost use Rattle.lola_step.specs.Moments.{IsListedIn, active_for_in, born_seen, may_be_active_in};
ghost use Rattle.lola_step.specs.Notes.{AreClosable, places_of};
ghost use Rattle.lola_step.specs.Progress.{IsMomentOf, IsOf};
ghost use Rattle.lola_model.specs.declared.store.Whereabouts.TheVariants as whereabouts;
ghost use Rattle.lola_step.specs.Schedules.{duties_of};
ghost use Rattle.lola_step.specs.Sought.{IsFalseElsewhere};
ghost use Rattle.lola_step.specs.Rooms.{rooms, total};
ghost use Rattle.lola_step.specs.Tasks.{params_seen};
ghost use Rattle.lola_step.specs.declared.schedule.Duty.TheVariants as duty;

use crate::clauses::close_outcome;
use crate::ends::with_fault;
use crate::moment::{Moment, is_active_for, may_be_active};
use crate::schedule::stream_at;
use crate::seek::seek;
use crate::tasks::Task;
use lola_model::pacing::{ClausePacings, Pacing};
use lola_model::plan::Plan;
use lola_model::spec::{Clause, Stream};
use lola_model::store::{StreamStore, Whereabouts};
use lola_step_contents::calls::close;
use lola_value::value::{FaultKind, Outcome, Value};

/// The pacing of the close clause of stream `n`.
fn close_pacing_at(pacings: &[ClausePacings], n: usize) -> &Option<Pacing>
    requires { n < length pacings.now }
    ensures { result.now ≡ close_pacing (slice_get pacings.now n) }
{
    &pacings[n].close
}

/// What the close condition of an instance comes to: missing where the clause is not active for it.
fn close_condition<S: StreamStore>(
    plan: &Plan,
    moment: &Moment,
    clause: &Clause,
    pacing: &Option<Pacing>,
    store: &S,
    stream: u32,
    index: u32,
) -> Outcome
    requires in_time { moment.now.time ≤ latest }
    requires may { may_be_active_in moment.now pacing.now ≡ true }
    requires running { IsRunning (S.seen store.now) }
    requires spawns { IsTrue (spawns_in (slice_get (S.seen store.now).layout.streams stream)) }
    requires asks { MayAskClosing plan.now moment.now pacing.now (S.seen store.now) stream clause.now }
    requires lives { index < length (instances_seen (S.seen store.now) stream) }
    ensures { IsAnswer plan.now (S.remembers store.now) (S.seen store.now) (params_seen (S.seen store.now) stream index)
        (closing_answer plan.now.spec (active_for_in moment.now (born_seen (S.seen store.now) stream index) pacing.now) (Some clause.now)) result }
{
    if is_active_for(moment, pacing, store, stream, index) {
        let params = store.params_of(stream, index);
        close_outcome(plan, clause, &params, store)
    } else {
        Outcome::Missing
    }
}

/// Notes what the close condition of an instance comes to: the instance, where it is true, and the least kind of a fault so far.
fn note_condition(
    condition: Outcome,
    task: Task,
    least: Option<FaultKind>,
    closing: &mut Vec<Task>,
) -> Option<FaultKind>
    requires room { vec_len closing.old < vec_capacity closing.old }
    ensures least { result ≡ add_fault condition least }
    ensures closing { closing.new.items ≡ closing.old.items ++ closed_by condition task }
    ensures count { vec_len closing.new ≤ vec_len closing.old + 1 }
    ensures capacity { vec_capacity closing.new ≡ vec_capacity closing.old }
{
    if let Outcome::Value(Value::Bool(true)) = condition {
        closing.push_reserved(task);
    }
    with_fault(condition, least)
}

/// Lists the instances of a stream whose close condition is true, and answers the least kind of a fault among the conditions. The
/// condition is evaluated for all instances.
fn find_among<S: StreamStore>(
    plan: &Plan,
    moment: &Moment,
    clause: &Clause,
    pacing: &Option<Pacing>,
    store: &S,
    stream: u32,
    closing: &mut Vec<Task>,
) -> Option<FaultKind>
    requires in_time { moment.now.time ≤ latest }
    requires may { may_be_active_in moment.now pacing.now ≡ true }
    requires running { IsRunning (S.seen store.now) }
    requires layout { (S.seen store.now).layout ≡ layout_of plan.now }
    requires asks { MayAskClosing plan.now moment.now pacing.now (S.seen store.now) stream clause.now }
    requires stream { stream < length (S.seen store.now).layout.streams }
    requires spawns { IsTrue (spawns_in (slice_get (S.seen store.now).layout.streams stream)) }
    requires closable { AreUpTo (S.seen store.now) (record { stream = stream; index = 0 }) closing.old.items }
    requires room { vec_len closing.old + length (instances_seen (S.seen store.now) stream) ≤ vec_capacity closing.old }
    ensures closable { AreUpTo (S.seen store.now) (record { stream = stream + 1; index = 0 }) closing.new.items }
    ensures finds { FindsAmong plan.now moment.now pacing.now (S.remembers store.now) (S.seen store.now) (Some clause.now) stream result closing.old.items closing.new.items }
    ensures count { vec_len closing.new ≤ vec_len closing.old + length (instances_seen (S.seen store.now) stream) }
    ensures capacity { vec_capacity closing.new ≡ vec_capacity closing.old }
{
    let mut least = None;
    for index in 0..store.instances(stream) {
        let condition = close_condition(plan, moment, clause, pacing, store, stream, index);
        least = note_condition(condition, Task { stream, index }, least, closing);
    }
    least
}

/// The same where the condition is false for all instances but one: it is evaluated for that one alone.
fn find_one<S: StreamStore>(
    plan: &Plan,
    moment: &Moment,
    clause: &Clause,
    pacing: &Option<Pacing>,
    store: &S,
    stream: u32,
    index: u32,
    closing: &mut Vec<Task>,
) -> Option<FaultKind>
    requires in_time { moment.now.time ≤ latest }
    requires may { may_be_active_in moment.now pacing.now ≡ true }
    requires running { IsRunning (S.seen store.now) }
    requires layout { (S.seen store.now).layout ≡ layout_of plan.now }
    requires asks { MayAskClosing plan.now moment.now pacing.now (S.seen store.now) stream clause.now }
    requires stream { stream < length (S.seen store.now).layout.streams }
    requires spawns { IsTrue (spawns_in (slice_get (S.seen store.now).layout.streams stream)) }
    requires closable { AreUpTo (S.seen store.now) (record { stream = stream; index = 0 }) closing.old.items }
    requires lives { index < length (instances_seen (S.seen store.now) stream) }
    requires alone { IsFalseElsewhere plan.now (S.remembers store.now) (S.seen store.now) stream clause.now (whereabouts.At index) }
    requires room { vec_len closing.old < vec_capacity closing.old }
    ensures closable { AreUpTo (S.seen store.now) (record { stream = stream + 1; index = 0 }) closing.new.items }
    ensures finds { FindsAmong plan.now moment.now pacing.now (S.remembers store.now) (S.seen store.now) (Some clause.now) stream result closing.old.items closing.new.items }
    ensures count { vec_len closing.new ≤ vec_len closing.old + length (instances_seen (S.seen store.now) stream) }
    ensures capacity { vec_capacity closing.new ≡ vec_capacity closing.old }
{
    let condition = close_condition(plan, moment, clause, pacing, store, stream, index);
    note_condition(condition, Task { stream, index }, None, closing)
}

/// The same of a clause that is active for all instances alike: the condition is evaluated for the one instance that it may be true for,
/// where its first comparisons tell which that is, and else for all.
fn find_asked<S: StreamStore>(
    plan: &Plan,
    moment: &Moment,
    clause: &Clause,
    pacing: &Option<Pacing>,
    store: &S,
    stream: u32,
    closing: &mut Vec<Task>,
) -> Option<FaultKind>
    requires global { is_local pacing.now ≡ false }
    requires in_time { moment.now.time ≤ latest }
    requires may { may_be_active_in moment.now pacing.now ≡ true }
    requires running { IsRunning (S.seen store.now) }
    requires layout { (S.seen store.now).layout ≡ layout_of plan.now }
    requires asks { MayAskClosing plan.now moment.now pacing.now (S.seen store.now) stream clause.now }
    requires stream { stream < length (S.seen store.now).layout.streams }
    requires spawns { IsTrue (spawns_in (slice_get (S.seen store.now).layout.streams stream)) }
    requires closable { AreUpTo (S.seen store.now) (record { stream = stream; index = 0 }) closing.old.items }
    requires room { vec_len closing.old + length (instances_seen (S.seen store.now) stream) ≤ vec_capacity closing.old }
    ensures closable { AreUpTo (S.seen store.now) (record { stream = stream + 1; index = 0 }) closing.new.items }
    ensures finds { FindsAmong plan.now moment.now pacing.now (S.remembers store.now) (S.seen store.now) (Some clause.now) stream result closing.old.items closing.new.items }
    ensures count { vec_len closing.new ≤ vec_len closing.old + length (instances_seen (S.seen store.now) stream) }
    ensures capacity { vec_capacity closing.new ≡ vec_capacity closing.old }
{
    match seek(plan, clause, store, stream) {
        Whereabouts::Unknown => find_among(plan, moment, clause, pacing, store, stream, closing),
        Whereabouts::Nowhere => None,
        Whereabouts::At(index) => {
            if index < store.instances(stream) {
                find_one(plan, moment, clause, pacing, store, stream, index, closing)
            } else {
                None
            }
        }
    }
}

/// The same for a clause that counts from the birth of each instance: the condition is evaluated for the instances that have a deadline.
fn find_due<S: StreamStore>(
    plan: &Plan,
    moment: &Moment,
    clause: &Clause,
    pacing: &Option<Pacing>,
    store: &S,
    stream: u32,
    places: &mut Vec<u32>,
    closing: &mut Vec<Task>,
) -> Option<FaultKind>
    requires in_time { moment.now.time ≤ latest }
    requires local { is_local pacing.now ≡ true }
    requires listed { IsListedIn pacing.now (locals_of (slice_get (S.seen store.now).layout.streams stream)) }
    requires may { may_be_active_in moment.now pacing.now ≡ true }
    requires running { IsRunning (S.seen store.now) }
    requires layout { (S.seen store.now).layout ≡ layout_of plan.now }
    requires asks { MayAskClosing plan.now moment.now pacing.now (S.seen store.now) stream clause.now }
    requires stream { stream < length (S.seen store.now).layout.streams }
    requires spawns { IsTrue (spawns_in (slice_get (S.seen store.now).layout.streams stream)) }
    requires closable { AreUpTo (S.seen store.now) (record { stream = stream; index = 0 }) closing.old.items }
    requires places_room { length (instances_seen (S.seen store.now) stream) ≤ vec_capacity places.old }
    requires room { vec_len closing.old + length (instances_seen (S.seen store.now) stream) ≤ vec_capacity closing.old }
    ensures closable { AreUpTo (S.seen store.now) (record { stream = stream + 1; index = 0 }) closing.new.items }
    ensures finds { FindsAmong plan.now moment.now pacing.now (S.remembers store.now) (S.seen store.now) (Some clause.now) stream result closing.old.items closing.new.items }
    ensures count { vec_len closing.new ≤ vec_len closing.old + length (instances_seen (S.seen store.now) stream) }
    ensures places { vec_capacity places.new ≡ vec_capacity places.old }
    ensures capacity { vec_capacity closing.new ≡ vec_capacity closing.old }
{
    store.list_due(stream, moment.time, places);
    let mut least = None;
    for place in places.as_slice() {
        let index = *place;
        let condition = close_condition(plan, moment, clause, pacing, store, stream, index);
        least = note_condition(condition, Task { stream, index }, least, closing);
    }
    least
}

/// The same of a stream, where its close clause may be active; where it may not, nothing is listed and there is no fault.
fn find_in_stream<S: StreamStore>(
    plan: &Plan,
    moment: &Moment,
    stream: &Stream,
    number: u32,
    store: &S,
    places: &mut Vec<u32>,
    closing: &mut Vec<Task>,
) -> Option<FaultKind>
    requires accepted { IsAccepted plan.now }
    requires of { IsOf plan.now (S.seen store.now) }
    requires running { IsRunning (S.seen store.now) }
    requires moment { IsMomentOf moment.now (S.seen store.now) }
    requires there { slice_get plan.now.spec.streams number ≡ Some stream.now }
    requires closable { AreUpTo (S.seen store.now) (record { stream = number; index = 0 }) closing.old.items }
    requires places_room { total (rooms (S.seen store.now)) ≤ vec_capacity places.old }
    requires room { vec_len closing.old + length (instances_seen (S.seen store.now) number) ≤ vec_capacity closing.old }
    ensures closable { AreUpTo (S.seen store.now) (record { stream = number + 1; index = 0 }) closing.new.items }
    ensures finds { FindsIn plan.now moment.now (S.remembers store.now) (S.seen store.now) number stream.now result closing.old.items closing.new.items }
    ensures count { vec_len closing.new ≤ vec_len closing.old + length (instances_seen (S.seen store.now) number) }
    ensures places { vec_capacity places.new ≡ vec_capacity places.old }
    ensures capacity { vec_capacity closing.new ≡ vec_capacity closing.old }
{
    let Some(clause) = &stream.close else {
        return None;
    };
    let pacing = close_pacing_at(plan.pacings.as_slice(), number as usize);
    if !may_be_active(moment, pacing) {
        return None;
    }
    match pacing {
        Some(Pacing::Local(_)) => find_due(
            plan, moment, clause, pacing, store, number, places, closing,
        ),
        _ => find_asked(plan, moment, clause, pacing, store, number, closing),
    }
}

/// Lists the instances whose close condition is true, by the streams' numbers and in the order of birth; or answers the first stream of
/// which a condition has a fault, with the least kind. Those that have a close clause are given.
pub(crate) fn find_closings<S: StreamStore>(
    plan: &Plan,
    duties: &[u32],
    moment: &Moment,
    store: &S,
    places: &mut Vec<u32>,
    closing: &mut Vec<Task>,
) -> Option<(u32, FaultKind)>
    requires duties { duties.now ≡ duties_of plan.now duty.Close }
    requires accepted { IsAccepted plan.now }
    requires of { IsOf plan.now (S.seen store.now) }
    requires running { IsRunning (S.seen store.now) }
    requires moment { IsMomentOf moment.now (S.seen store.now) }
    requires none { closing.old.items ≡ [] }
    requires places_room { total (rooms (S.seen store.now)) ≤ vec_capacity places.old }
    requires room { total (rooms (S.seen store.now)) ≤ vec_capacity closing.old }
    ensures closable { AreClosable (S.seen store.now) closing.new.items }
    ensures finds { FindsClosings plan.now moment.now (S.remembers store.now) (S.seen store.now) result closing.new.items }
    ensures places { vec_capacity places.new ≡ vec_capacity places.old }
    ensures capacity { vec_capacity closing.new ≡ vec_capacity closing.old }
{
    for number in duties {
        let n = *number;
        let stream = stream_at(plan, n);
        if let Some(kind) = find_in_stream(plan, moment, stream, n, store, places, closing) {
            return Some((n, kind));
        }
    }
    None
}

/// Takes these instances away, the last first, so that the others stay where they are.
pub(crate) fn close_all<S: StreamStore>(plan: &Plan, store: &mut S, closing: &[Task])
    requires of { IsOf plan.now (S.seen store.old) }
    requires running { IsRunning (S.seen store.old) }
    requires closable { AreClosable (S.seen store.old) closing.now }
    ensures of { IsOf plan.now (S.seen store.new) }
    ensures phase { (S.seen store.new).phase ≡ (S.seen store.old).phase }
    ensures steps { (S.seen store.new).steps ≡ (S.seen store.old).steps }
    ensures stands { (names : Naming) (c : Content) → Stands names (S.remembers store.old) (S.seen store.old) c
        → Stands names (S.remembers store.new) (S.seen store.new) (closed_each c (reverse (places_of closing.now))) }
{
    let mut left = closing.len();
    while left > 0 {
        left -= 1;
        let task = closing[left];
        close(store, task.stream, task.index);
    }
}
