//! What a step comes to once its streams are evaluated: its fault, or its values.

ghost use Rattle.std.specs.Prelude.{◌≡◌, ◌+◌, ◌<◌, ◌≤◌, List, [], ◌++◌, IsTrue, if◌then◌else◌, false, true, length, slice_get, vec_len, Some};
ghost use Rattle.std.specs.Vec.{vec_capacity};
ghost use Rattle.lola_model.specs.Acceptance.{IsAccepted};
ghost use Rattle.lola_model.specs.Faults.{lesser_kind};
ghost use Rattle.lola_model.specs.Named.{has_clause as has_clause_of};
ghost use Rattle.lola_model.specs.Store.{IsRunning, instances_seen, no_params, parameters_of, spawns_in};
ghost use Rattle.lola_step.specs.Ends.{CollectsStepValues, FindsFault};
ghost use Rattle.lola_step.specs.Found.{FitLayout, IsFaultless, add_fault, add_step_value, fault_of, is_hidden as is_hidden_of, least_among, step_values_among, step_values_with};
ghost use Rattle.lola_step.specs.Notes.{AreOfStream, AreSpans, AreStepValues, AreWithin, asked_in, in_span};
ghost use Rattle.lola_step.specs.Progress.{IsOf};
ghost use Rattle.lola_step.specs.Rooms.{rooms, total};
ghost use Rattle.lola_step.specs.Schedules.{duties_of};
ghost use Rattle.lola_step.specs.Tasks.{params_given};
ghost use Rattle.lola_step.specs.declared.schedule.Duty.TheVariants as duty;
ghost use Rattle.lola_step.specs.declared.tasks.Task.{Task};

use crate::schedule::{has_clause, stream_at};
use crate::scratch::Span;
use crate::spawn_result::SpawnResult;
use crate::step_value::StepValue;
use crate::tasks::{Task, no_parameters};
use lola_model::journal::Show;
use lola_model::plan::Plan;
use lola_model::spec::{Sort, Stream};
use lola_model::store::StreamStore;
use lola_value::brief::Brief;
use lola_value::value::{FaultKind, Outcome, Value};

/// The lesser of two kinds of faults, by their numbers.
fn lesser(kind: FaultKind, other: Option<FaultKind>) -> FaultKind
    ensures { lesser_kind kind other ≡ Some result }
{
    match other {
        Some(other) if (other as u8) < kind as u8 => other,
        _ => kind,
    }
}

/// The least kind of a fault so far, with that of an outcome, if it is a fault.
pub(crate) fn with_fault(outcome: Outcome, least: Option<FaultKind>) -> Option<FaultKind>
    ensures { result ≡ add_fault outcome least }
{
    match outcome {
        Outcome::Fault(kind) => Some(lesser(kind, least)),
        _ => least,
    }
}

/// The least kind of a fault among outcomes.
fn least_fault(results: &[Brief]) -> Option<FaultKind>
    ensures { result ≡ least_among results.now }
{
    let mut least = None;
    for outcome in results {
        least = with_fault(outcome.widen(), least);
    }
    least
}

/// The fault of a stream: that of its spawn clause, or else the least of its instances'.
fn stream_fault(spawn_result: SpawnResult, results: &[Brief]) -> Option<FaultKind>
    ensures { result ≡ fault_of spawn_result results.now }
{
    match spawn_result {
        SpawnResult::Fault(kind) => Some(kind),
        _ => least_fault(results),
    }
}

/// The outcomes of a span.
fn outcomes_of(results: &[Brief], span: Span) -> &[Brief]
    requires { span.from + span.count ≤ length results.now }
    ensures value { result.now ≡ in_span results.now (Some span) }
    ensures count { length result.now ≡ span.count }
{
    &results[span.from..span.from + span.count]
}

/// The tasks of a span.
fn tasks_of(tasks: &[Task], span: Span) -> &[Task]
    requires { span.from + span.count ≤ length tasks.now }
    ensures value { result.now ≡ asked_in tasks.now (Some span) }
    ensures count { length result.now ≡ span.count }
{
    &tasks[span.from..span.from + span.count]
}

/// The first stream of which a spawn clause or an instance has a fault, with the fault's kind.
fn first_fault(
    plan: &Plan,
    spawn_results: &[SpawnResult],
    spans: &[Span],
    results: &[Brief],
) -> Option<(u32, FaultKind)>
    requires accepted { IsAccepted plan.now }
    requires spawn_results { length spawn_results.now ≡ length plan.now.spec.streams }
    requires spans { length spans.now ≡ length plan.now.spec.streams }
    requires within { AreWithin results.now spans.now }
    ensures { (tasks : List Task) → FindsFault plan.now spawn_results.now spans.now tasks results.now result }
{
    for (n, spawn_result) in spawn_results.iter().enumerate() {
        if let Some(kind) = stream_fault(*spawn_result, outcomes_of(results, spans[n])) {
            return Some((n as u32, kind));
        }
    }
    None
}

/// The same, where it is known whether there may be one.
pub(crate) fn fault_of_step(
    plan: &Plan,
    is_faulty: bool,
    spawn_results: &[SpawnResult],
    spans: &[Span],
    results: &[Brief],
) -> Option<(u32, FaultKind)>
    requires accepted { IsAccepted plan.now }
    requires faultless { is_faulty ≡ false → IsFaultless spawn_results.now results.now }
    requires spawn_results { length spawn_results.now ≡ length plan.now.spec.streams }
    requires spans { length spans.now ≡ length plan.now.spec.streams }
    requires within { AreWithin results.now spans.now }
    ensures { (tasks : List Task) → FindsFault plan.now spawn_results.now spans.now tasks results.now result }
{
    if is_faulty {
        first_fault(plan, spawn_results, spans, results)
    } else {
        None
    }
}

/// A step value without parameters, to be filled in.
fn bare_step_value() -> StepValue
    ensures { result.params ≡ no_params }
{
    StepValue {
        stream: 0,
        params: no_parameters(),
        value: Value::Bool(false),
    }
}

/// The value of an instance that has the parameters of a step value that is lent, if it has one. The step value is filled in, so that its
/// parameters are not made anew for each.
fn add_bare(bare: &mut StepValue, stream: u32, outcome: &Brief, step_values: &mut Vec<StepValue>)
    requires room { vec_len step_values.old < vec_capacity step_values.old }
    ensures bare { bare.new.params ≡ bare.old.params }
    ensures items { step_values.new.items ≡ step_values.old.items ++ add_step_value stream bare.old.params outcome.now [] }
    ensures count { vec_len step_values.new ≤ vec_len step_values.old + 1 }
    ensures capacity { vec_capacity step_values.new ≡ vec_capacity step_values.old }
{
    if let Outcome::Value(value) = outcome.widen() {
        bare.stream = stream;
        bare.value = value;
        step_values.push_reserved(*bare);
    }
}

/// The values of a stream's instances, which have these outcomes and the parameters of a step value that is lent.
fn add_alone(bare: &mut StepValue, stream: u32, results: &[Brief], step_values: &mut Vec<StepValue>)
    requires room { vec_len step_values.old + length results.now ≤ vec_capacity step_values.old }
    ensures bare { bare.new.params ≡ bare.old.params }
    ensures items { step_values.new.items ≡ step_values.old.items ++ step_values_with stream bare.old.params results.now }
    ensures count { vec_len step_values.new ≤ vec_len step_values.old + length results.now }
    ensures capacity { vec_capacity step_values.new ≡ vec_capacity step_values.old }
{
    for outcome in results {
        add_bare(bare, stream, outcome, step_values);
    }
}

/// The value of an instance with parameters of its own, if it has a value. It is a function of its own, so that no room for parameters is
/// made where there are none.
#[inline(never)]
fn add_value<S: StreamStore>(
    store: &S,
    stream: u32,
    index: u32,
    outcome: Brief,
    step_values: &mut Vec<StepValue>,
)
    requires spawns { IsTrue (spawns_in (slice_get (S.seen store.now).layout.streams stream)) }
    requires lives { index < length (instances_seen (S.seen store.now) stream) }
    requires room { vec_len step_values.old < vec_capacity step_values.old }
    ensures items { step_values.new.items ≡ step_values.old.items ++ add_step_value stream (params_given (S.seen store.now) stream index) outcome [] }
    ensures fit { FitLayout (S.seen store.now).layout step_values.old.items → FitLayout (S.seen store.now).layout step_values.new.items }
    ensures count { vec_len step_values.new ≤ vec_len step_values.old + 1 }
    ensures capacity { vec_capacity step_values.new ≡ vec_capacity step_values.old }
{
    if let Outcome::Value(value) = outcome.widen() {
        step_values.push_reserved(StepValue {
            stream,
            params: store.params_of(stream, index),
            value,
        });
    }
}

/// The values of the instances that were evaluated of a stream with a spawn clause, of which these are the outcomes.
fn add_values<S: StreamStore>(
    store: &S,
    stream: u32,
    tasks: &[Task],
    results: &[Brief],
    step_values: &mut Vec<StepValue>,
)
    requires spawns { IsTrue (spawns_in (slice_get (S.seen store.now).layout.streams stream)) }
    requires each { length tasks.now ≡ length results.now }
    requires asked { AreOfStream stream 0 (length (instances_seen (S.seen store.now) stream)) tasks.now }
    requires room { vec_len step_values.old + length results.now ≤ vec_capacity step_values.old }
    ensures items { step_values.new.items ≡ step_values.old.items ++ step_values_among (S.seen store.now) stream tasks.now results.now }
    ensures fit { FitLayout (S.seen store.now).layout step_values.old.items → FitLayout (S.seen store.now).layout step_values.new.items }
    ensures count { vec_len step_values.new ≤ vec_len step_values.old + length results.now }
    ensures capacity { vec_capacity step_values.new ≡ vec_capacity step_values.old }
{
    for (i, task) in tasks.iter().enumerate() {
        add_value(store, stream, task.index, results[i], step_values);
    }
}

/// The values of a stream, whose outcomes stand in a span. Where it has no spawn clause it has no parameters either, and the store is
/// not asked for any.
fn add_evaluated<S: StreamStore>(
    store: &S,
    stream: &Stream,
    number: u32,
    span: Span,
    tasks: &[Task],
    results: &[Brief],
    bare: &mut StepValue,
    step_values: &mut Vec<StepValue>,
)
    requires spawns { spawns_in (slice_get (S.seen store.now).layout.streams number) ≡ has_clause_of stream.now.spawn }
    requires unnamed { has_clause_of stream.now.spawn ≡ false → parameters_of (slice_get (S.seen store.now).layout.streams number) ≡ [] }
    requires bare { bare.old.params ≡ no_params }
    requires each { length tasks.now ≡ length results.now }
    requires within { span.from + span.count ≤ length results.now }
    requires asked { AreOfStream number 0 (length (instances_seen (S.seen store.now) number)) (asked_in tasks.now (Some span)) }
    requires room { vec_len step_values.old + span.count ≤ vec_capacity step_values.old }
    ensures bare { bare.new.params ≡ no_params }
    ensures items { step_values.new.items ≡ step_values.old.items ++ step_values_among (S.seen store.now) number (asked_in tasks.now (Some span)) (in_span results.now (Some span)) }
    ensures fit { FitLayout (S.seen store.now).layout step_values.old.items → FitLayout (S.seen store.now).layout step_values.new.items }
    ensures count { vec_len step_values.new ≤ vec_len step_values.old + span.count }
    ensures capacity { vec_capacity step_values.new ≡ vec_capacity step_values.old }
{
    let outcomes = outcomes_of(results, span);
    if has_clause(&stream.spawn) {
        add_values(store, number, tasks_of(tasks, span), outcomes, step_values);
    } else {
        add_alone(bare, number, outcomes, step_values);
    }
}

/// Whether a span has no outcome.
fn is_empty(span: Span) -> bool
    ensures { result ≡ true → span.count ≡ 0 }
{
    span.count == 0
}

/// Whether the values of a stream have no lines: those of inputs, and those of outputs where triggers alone are shown.
pub(crate) fn is_hidden(show: Show, stream: &Stream) -> bool
    ensures { result ≡ is_hidden_of show stream.now }
{
    match stream.sort {
        Sort::Input => true,
        Sort::Output => match show {
            Show::Triggers => true,
            Show::Outputs => false,
        },
        Sort::Trigger => false,
    }
}

/// The values of a stream, which may have lines. A stream of which no instance was evaluated is passed over at once.
fn add_asked<S: StreamStore>(
    store: &S,
    stream: &Stream,
    number: u32,
    span: Span,
    tasks: &[Task],
    results: &[Brief],
    bare: &mut StepValue,
    step_values: &mut Vec<StepValue>,
)
    requires spawns { spawns_in (slice_get (S.seen store.now).layout.streams number) ≡ has_clause_of stream.now.spawn }
    requires unnamed { has_clause_of stream.now.spawn ≡ false → parameters_of (slice_get (S.seen store.now).layout.streams number) ≡ [] }
    requires bare { bare.old.params ≡ no_params }
    requires each { length tasks.now ≡ length results.now }
    requires within { span.from + span.count ≤ length results.now }
    requires asked { AreOfStream number 0 (length (instances_seen (S.seen store.now) number)) (asked_in tasks.now (Some span)) }
    requires room { vec_len step_values.old + span.count ≤ vec_capacity step_values.old }
    ensures bare { bare.new.params ≡ no_params }
    ensures items { step_values.new.items ≡ step_values.old.items ++ step_values_among (S.seen store.now) number (asked_in tasks.now (Some span)) (in_span results.now (Some span)) }
    ensures fit { FitLayout (S.seen store.now).layout step_values.old.items → FitLayout (S.seen store.now).layout step_values.new.items }
    ensures count { vec_len step_values.new ≤ vec_len step_values.old + span.count }
    ensures capacity { vec_capacity step_values.new ≡ vec_capacity step_values.old }
{
    if is_empty(span) {
        return;
    }
    add_evaluated(
        store,
        stream,
        number,
        span,
        tasks,
        results,
        bare,
        step_values,
    );
}

/// The values of all streams that may have lines, by the streams' numbers and in the order of birth. Which streams these are is given.
pub(crate) fn collect<S: StreamStore>(
    plan: &Plan,
    duties: &[u32],
    store: &S,
    _show: Show,
    spans: &[Span],
    tasks: &[Task],
    results: &[Brief],
    step_values: &mut Vec<StepValue>,
)
    requires duties { duties.now ≡ duties_of plan.now (duty.Shown _show) }
    requires accepted { IsAccepted plan.now }
    requires of { IsOf plan.now (S.seen store.now) }
    requires running { IsRunning (S.seen store.now) }
    requires spans { length spans.now ≡ length plan.now.spec.streams }
    requires each { length tasks.now ≡ length results.now }
    requires within { AreSpans (S.seen store.now) tasks.now results.now spans.now }
    requires none { step_values.old.items ≡ [] }
    requires room { total (rooms (S.seen store.now)) ≤ vec_capacity step_values.old }
    ensures step_values { AreStepValues plan.now step_values.new.items }
    ensures values { CollectsStepValues plan.now _show spans.now tasks.now results.now (S.remembers store.now) (S.seen store.now) step_values.new.items }
    ensures capacity { vec_capacity step_values.new ≡ vec_capacity step_values.old }
{
    let mut bare = bare_step_value();
    for number in duties {
        let stream = stream_at(plan, *number);
        let span = spans[*number as usize];
        add_asked(
            store,
            stream,
            *number,
            span,
            tasks,
            results,
            &mut bare,
            step_values,
        );
    }
}
