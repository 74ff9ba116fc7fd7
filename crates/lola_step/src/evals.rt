//! The instances of a layer.

ghost use Rattle.std.specs.Prelude.{ℕ, ◌≡◌, ◌+◌, ◌<◌, ◌≤◌, ◌^◌, ◌++◌, ◌||◌, drop, false, if◌then◌else◌, length, replicate, slice_get, slice_set, take, true, vec_len, Some};
ghost use Rattle.std.specs.Vec.{vec_capacity};
ghost use Rattle.lola_value.specs.Shorts.{is_given};
ghost use Rattle.lola_value.specs.Naming.{Naming, IsHeldIn, read_outcome};
ghost use Rattle.lola_value.specs.Times.{latest};
ghost use Rattle.lola_value.specs.declared.value.Outcome.TheVariants as outcome;
ghost use Rattle.lola_model.specs.Acceptance.{IsAccepted};
ghost use Rattle.lola_model.specs.Content.{Content, seen};
ghost use Rattle.lola_model.specs.Model.{eval_pacing};
ghost use Rattle.lola_model.specs.Named.{has_clause as has_clause_of};
ghost use Rattle.lola_model.specs.NextStep.{is_local};
ghost use Rattle.lola_model.specs.Store.{IsRunning, Stands, instances_seen, layout_of, no_params};
ghost use Rattle.lola_model.specs.declared.spec.Stream.{Stream};
ghost use Rattle.lola_step_contents.specs.Changed.{told};
ghost use Rattle.lola_step_contents.specs.Stages.{eval_stage, layer_stage};
ghost use Rattle.lola_step.specs.Evals.{EvalsTake, HasRooms, IsReadyFor, ShowsMore};
ghost use Rattle.lola_step.specs.Found.{has_fault, is_fault};
ghost use Rattle.lola_step.specs.Given.{AreAnswered, AreHeldIn, AreResults, CanGive, CanGiveAll, after_all, after_giving, told_outcomes};
ghost use Rattle.lola_step.specs.Notes.{is_fine as is_fine_spawn_result, layer_spans, layer_tasks, places_asked, places_from, places_paced, runs_in, sought_at, stream_tasks, tasks_at};
ghost use Rattle.lola_step.specs.Progress.{GoesOn, IsAt, IsMomentOf, IsOf};
ghost use Rattle.lola_step.specs.Rooms.{rooms, to_come, total};
ghost use Rattle.lola_step.specs.Rates.{IsKnownAt};
ghost use Rattle.lola_step.specs.Schedules.{has_duty, duties_of};
ghost use Rattle.lola_step.specs.Sought.{AreSought, AreUnsought, IsSilentElsewhere};
ghost use Rattle.lola_step.specs.Tasks.{AreTasks};
ghost use Rattle.lola_step.specs.declared.schedule.Duty.TheVariants as duty;

use crate::giving::give_shared;
use crate::moment::{LastRate, Moment, may_be_active, may_be_active_now};
use crate::schedule::{has_clause, stream_at};
use crate::scratch::Span;
use crate::seek::seek;
use crate::spawn_result::SpawnResult;
use crate::tasks::{Task, eval_pacing_at, run_tasks, task_outcome};
use lola_expr::plan::PlanCode;
use lola_model::pacing::Pacing;
use lola_model::plan::Plan;
use lola_model::spec::Stream;
use lola_model::store::{StreamStore, Whereabouts};
use lola_port::Gate;
use lola_value::brief::Brief;
use lola_value::value::{Outcome, Params};
use lola_workers::Share;
use std::thread::Threads;

/// Whether a spawn clause neither has a fault nor is poisoned.
fn is_fine(spawn_result: SpawnResult) -> bool
    ensures { result ≡ is_fine_spawn_result (Some spawn_result) }
{
    match spawn_result {
        SpawnResult::Fine => true,
        _ => false,
    }
}

/// Whether a stream that has a duty in a layer runs in it: its clause may be active for some of its instances, and its spawn
/// clause neither has a fault nor is poisoned.
fn runs(plan: &Plan, moment: &Moment, spawn_results: &[SpawnResult], n: usize) -> bool
    requires pacings { n < length plan.now.pacings }
    requires spawn_results { n < length spawn_results.now }
    requires in_time { moment.now.time ≤ latest }
    requires order { moment.now.start ≤ moment.now.time }
    ensures { (layer : ℕ) (stream : Stream) → has_duty plan.now (duty.Eval layer) n stream ≡ true → result ≡ runs_in plan.now moment.now spawn_results.now layer n stream }
{
    may_be_active(moment, eval_pacing_at(plan.pacings.as_slice(), n)) && is_fine(spawn_results[n])
}

/// The same, where the rate that was looked at last is known.
fn runs_now(
    plan: &Plan,
    moment: &Moment,
    spawn_results: &[SpawnResult],
    n: usize,
    last: &mut LastRate,
) -> bool
    requires pacings { n < length plan.now.pacings }
    requires spawn_results { n < length spawn_results.now }
    requires in_time { moment.now.time ≤ latest }
    requires order { moment.now.start ≤ moment.now.time }
    requires known { IsKnownAt moment.now last.old }
    ensures known { IsKnownAt moment.now last.new }
    ensures runs { (layer : ℕ) (stream : Stream) → has_duty plan.now (duty.Eval layer) n stream ≡ true → result ≡ runs_in plan.now moment.now spawn_results.now layer n stream }
{
    may_be_active_now(moment, eval_pacing_at(plan.pacings.as_slice(), n), last)
        && is_fine(spawn_results[n])
}

/// Where the one instance of stream `n` stands that its eval clause is to be evaluated for, if the stream runs in a layer and the clause
/// is active for all instances alike; else nothing is said.
fn seek_stream<S: StreamStore>(
    plan: &Plan,
    moment: &Moment,
    store: &S,
    layer: u32,
    spawn_results: &[SpawnResult],
    n: usize,
    stream: &Stream,
) -> Whereabouts
    requires few { n ≤ 1024 }
    requires duty { has_duty plan.now (duty.Eval layer) n stream.now ≡ true }
    requires accepted { IsAccepted plan.now }
    requires at { IsAt plan.now (eval_stage (length plan.now.spec.streams) layer) (S.seen store.now) }
    requires moment { IsMomentOf moment.now (S.seen store.now) }
    requires spawn_results { length spawn_results.now ≡ length plan.now.spec.streams }
    requires there { slice_get plan.now.spec.streams n ≡ Some stream.now }
    ensures { runs_in plan.now moment.now spawn_results.now layer n stream.now ≡ true
        → IsSilentElsewhere plan.now moment.now (S.remembers store.now) (S.seen store.now) n result }
{
    let Some(clause) = &stream.eval else {
        return Whereabouts::Unknown;
    };
    if !runs(plan, moment, spawn_results, n) {
        return Whereabouts::Unknown;
    }
    match eval_pacing_at(plan.pacings.as_slice(), n) {
        Some(Pacing::Local(_)) => Whereabouts::Unknown,
        _ => seek(plan, clause, store, n as u32),
    }
}

/// Notes of each stream that runs in a layer where the one instance stands that is to be evaluated, where that is known. Those of its
/// streams that have parameters are given; of the others nothing is known.
fn seek_layer<S: StreamStore>(
    plan: &Plan,
    duties: &[u32],
    moment: &Moment,
    store: &S,
    layer: u32,
    spawn_results: &[SpawnResult],
    sought: &mut [Whereabouts],
)
    requires duties { duties.now ≡ duties_of plan.now (duty.Seek layer) }
    requires accepted { IsAccepted plan.now }
    requires at { IsAt plan.now (eval_stage (length plan.now.spec.streams) layer) (S.seen store.now) }
    requires moment { IsMomentOf moment.now (S.seen store.now) }
    requires spawn_results { length spawn_results.now ≡ length plan.now.spec.streams }
    requires sought { length sought.old ≡ length plan.now.spec.streams }
    requires unsought { AreUnsought plan.now sought.old }
    ensures unsought { AreUnsought plan.now sought.new }
    ensures sought { AreSought plan.now moment.now spawn_results.now sought.new (S.remembers store.now) (S.seen store.now) layer }
{
    for number in duties {
        let n = *number as usize;
        let stream = stream_at(plan, *number);
        sought[n] = seek_stream(plan, moment, store, layer, spawn_results, n, stream);
    }
}

/// Where the instances of stream `n` stand that are to be evaluated; nothing is said past the end of the list.
fn sought_of(sought: &[Whereabouts], n: usize) -> Whereabouts
    ensures { result ≡ sought_at sought.now n }
{
    match sought.get(n) {
        Some(whereabouts) => *whereabouts,
        None => Whereabouts::Unknown,
    }
}

/// A task for each of the first instances of a stream.
fn add_all(stream: u32, count: u32, tasks: &mut Vec<Task>)
    requires { vec_len tasks.old + count ≤ vec_capacity tasks.old }
    ensures tasks { tasks.new.items ≡ tasks.old.items ++ tasks_at stream (places_from 0 count) }
    ensures capacity { vec_capacity tasks.new ≡ vec_capacity tasks.old }
{
    for index in 0..count {
        tasks.push_reserved(Task { stream, index });
    }
}

/// A task for each of these instances of a stream.
fn add_listed(stream: u32, places: &[u32], tasks: &mut Vec<Task>)
    requires { vec_len tasks.old + length places.now ≤ vec_capacity tasks.old }
    ensures tasks { tasks.new.items ≡ tasks.old.items ++ tasks_at stream places.now }
    ensures capacity { vec_capacity tasks.new ≡ vec_capacity tasks.old }
{
    for index in places {
        tasks.push_reserved(Task {
            stream,
            index: *index,
        });
    }
}

/// A task for each instance of a stream that a clause with a pacing may be active for at a moment.
fn add_paced<S: StreamStore>(
    moment: &Moment,
    pacing: &Option<Pacing>,
    store: &S,
    stream: u32,
    places: &mut Vec<u32>,
    tasks: &mut Vec<Task>,
)
    requires in_time { moment.now.time ≤ latest }
    requires store { stream < length (S.seen store.now).layout.streams }
    requires places_room { length (instances_seen (S.seen store.now) stream) ≤ vec_capacity places.old }
    requires tasks_room { vec_len tasks.old + length (places_paced pacing.now moment.now (S.seen store.now) stream) ≤ vec_capacity tasks.old }
    ensures tasks { tasks.new.items ≡ tasks.old.items ++ tasks_at stream (places_paced pacing.now moment.now (S.seen store.now) stream) }
    ensures places { vec_capacity places.new ≡ vec_capacity places.old }
    ensures capacity { vec_capacity tasks.new ≡ vec_capacity tasks.old }
{
    match pacing {
        Some(Pacing::Local(_)) => {
            store.list_due(stream, moment.time, places);
            add_listed(stream, places.as_slice(), tasks);
        }
        _ => add_all(stream, store.instances(stream), tasks),
    }
}

/// The same of a stream with a spawn clause or without one: without one its pacing is not local, and it has one instance, of which the
/// store is not asked.
fn add_active<S: StreamStore>(
    moment: &Moment,
    pacing: &Option<Pacing>,
    store: &S,
    spawns: bool,
    stream: u32,
    places: &mut Vec<u32>,
    tasks: &mut Vec<Task>,
)
    requires in_time { moment.now.time ≤ latest }
    requires store { stream < length (S.seen store.now).layout.streams }
    requires single { spawns ≡ false → (is_local pacing.now ≡ false) × (length (instances_seen (S.seen store.now) stream) ≡ 1) }
    requires places_room { length (instances_seen (S.seen store.now) stream) ≤ vec_capacity places.old }
    requires tasks_room { vec_len tasks.old + length (places_paced pacing.now moment.now (S.seen store.now) stream) ≤ vec_capacity tasks.old }
    ensures tasks { tasks.new.items ≡ tasks.old.items ++ tasks_at stream (places_paced pacing.now moment.now (S.seen store.now) stream) }
    ensures places { vec_capacity places.new ≡ vec_capacity places.old }
    ensures capacity { vec_capacity tasks.new ≡ vec_capacity tasks.old }
{
    if spawns {
        add_paced(moment, pacing, store, stream, places, tasks);
    } else {
        tasks.push_reserved(Task { stream, index: 0 });
    }
}

/// A task for each instance of a stream that a clause with a pacing is to be evaluated for at a moment: for the one that stands at
/// these whereabouts, if it lives, and where nothing is known of all that the clause may be active for.
fn add_asked<S: StreamStore>(
    moment: &Moment,
    sought: Whereabouts,
    pacing: &Option<Pacing>,
    store: &S,
    spawns: bool,
    stream: u32,
    places: &mut Vec<u32>,
    tasks: &mut Vec<Task>,
)
    requires in_time { moment.now.time ≤ latest }
    requires single { spawns ≡ false → (is_local pacing.now ≡ false) × (length (instances_seen (S.seen store.now) stream) ≡ 1) }
    requires store { stream < length (S.seen store.now).layout.streams }
    requires places_room { length (instances_seen (S.seen store.now) stream) ≤ vec_capacity places.old }
    requires tasks_room { vec_len tasks.old + length (places_asked sought pacing.now moment.now (S.seen store.now) stream) ≤ vec_capacity tasks.old }
    ensures tasks { tasks.new.items ≡ tasks.old.items ++ tasks_at stream (places_asked sought pacing.now moment.now (S.seen store.now) stream) }
    ensures places { vec_capacity places.new ≡ vec_capacity places.old }
    ensures capacity { vec_capacity tasks.new ≡ vec_capacity tasks.old }
{
    match sought {
        Whereabouts::Unknown => add_active(moment, pacing, store, spawns, stream, places, tasks),
        Whereabouts::Nowhere => {}
        Whereabouts::At(index) => {
            if index < store.instances(stream) {
                tasks.push_reserved(Task { stream, index });
            }
        }
    }
}

/// Lists the tasks of stream `n` in a layer, if it runs there, one for each instance that is to be evaluated, in order of birth, and notes
/// where their outcomes will stand.
fn gather_stream<S: StreamStore>(
    plan: &Plan,
    moment: &Moment,
    store: &S,
    layer: u32,
    spawn_results: &[SpawnResult],
    sought: &[Whereabouts],
    n: usize,
    stream: &Stream,
    places: &mut Vec<u32>,
    tasks: &mut Vec<Task>,
    spans: &mut [Span],
    last: &mut LastRate,
)
    requires few { n ≤ 1024 }
    requires duty { has_duty plan.now (duty.Eval layer) n stream.now ≡ true }
    requires pacings { n < length plan.now.pacings }
    requires spawn_results { n < length spawn_results.now }
    requires in_time { moment.now.time ≤ latest }
    requires order { moment.now.start ≤ moment.now.time }
    requires single { has_clause_of stream.now.spawn ≡ false → (is_local (eval_pacing (slice_get plan.now.pacings n)) ≡ false) × (length (instances_seen (S.seen store.now) n) ≡ 1) }
    requires spans { n < length spans.old }
    requires known { IsKnownAt moment.now last.old }
    requires store { n < length (S.seen store.now).layout.streams }
    requires places_room { length (instances_seen (S.seen store.now) n) ≤ vec_capacity places.old }
    requires tasks_room { vec_len tasks.old + length (stream_tasks plan.now moment.now spawn_results.now sought.now (S.seen store.now) layer n stream.now) ≤ vec_capacity tasks.old }
    ensures known { IsKnownAt moment.now last.new }
    ensures tasks { tasks.new.items ≡ tasks.old.items ++ stream_tasks plan.now moment.now spawn_results.now sought.now (S.seen store.now) layer n stream.now }
    ensures spans { spans.new ≡ (if runs_in plan.now moment.now spawn_results.now layer n stream.now
        then slice_set spans.old n (record { from = vec_len tasks.old; count = length (stream_tasks plan.now moment.now spawn_results.now sought.now (S.seen store.now) layer n stream.now) }) else spans.old) }
    ensures places { vec_capacity places.new ≡ vec_capacity places.old }
    ensures capacity { vec_capacity tasks.new ≡ vec_capacity tasks.old }
{
    if runs_now(plan, moment, spawn_results, n, last) {
        let from = tasks.len();
        let pacing = eval_pacing_at(plan.pacings.as_slice(), n);
        let whereabouts = sought_of(sought, n);
        add_asked(
            moment,
            whereabouts,
            pacing,
            store,
            has_clause(&stream.spawn),
            n as u32,
            places,
            tasks,
        );
        spans[n] = Span {
            from,
            count: tasks.len() - from,
        };
    }
}

/// Lists the tasks of a layer behind those of the layers before: for each stream that runs in it, by the streams' numbers, one for each
/// instance that is to be evaluated, in order of birth. Those that have a duty in it are given, and the rate that was looked at last in the step.
fn gather<S: StreamStore>(
    plan: &Plan,
    duties: &[u32],
    moment: &Moment,
    store: &S,
    layer: u32,
    spawn_results: &[SpawnResult],
    sought: &[Whereabouts],
    places: &mut Vec<u32>,
    tasks: &mut Vec<Task>,
    spans: &mut [Span],
    last: &mut LastRate,
)
    requires duties { duties.now ≡ duties_of plan.now (duty.Eval layer) }
    requires accepted { IsAccepted plan.now }
    requires of { IsOf plan.now (S.seen store.now) }
    requires moment { IsMomentOf moment.now (S.seen store.now) }
    requires known { IsKnownAt moment.now last.old }
    requires spawn_results { length spawn_results.now ≡ length plan.now.spec.streams }
    requires spans { length spans.old ≡ length plan.now.spec.streams }
    requires places_room { total (rooms (S.seen store.now)) ≤ vec_capacity places.old }
    requires tasks_room { vec_len tasks.old + to_come plan.now.layers (eval_stage (length plan.now.spec.streams) layer) 0 plan.now.spec.streams (rooms (S.seen store.now)) ≤ vec_capacity tasks.old }
    ensures known { IsKnownAt moment.now last.new }
    ensures tasks { tasks.new.items ≡ tasks.old.items ++ layer_tasks plan.now moment.now spawn_results.now sought.now (S.seen store.now) layer 0 plan.now.spec.streams }
    ensures spans { spans.new ≡ layer_spans plan.now moment.now spawn_results.now sought.now (S.seen store.now) layer (length tasks.old.items) 0 plan.now.spec.streams spans.old }
    ensures places { vec_capacity places.new ≡ vec_capacity places.old }
    ensures capacity { vec_capacity tasks.new ≡ vec_capacity tasks.old }
{
    for number in duties {
        let n = *number as usize;
        gather_stream(
            plan,
            moment,
            store,
            layer,
            spawn_results,
            sought,
            n,
            stream_at(plan, *number),
            places,
            tasks,
            spans,
            last,
        );
    }
}

// So many tasks are worth a thread: to start and join one takes as long as to evaluate some eighty.
const WORTH_A_THREAD: usize = 256;

/// Among how many of the workers so many tasks are shared out: in the first step among all of them, and from then on among so many that
/// each has enough to do.
fn sharers_of(workers: u32, tasks: usize, is_first: bool) -> u32
    requires { (1 ≤ workers) × (workers ≤ 64) }
    ensures { (1 ≤ result) × (result ≤ workers) }
{
    if is_first {
        return workers;
    }
    let worth = tasks / WORTH_A_THREAD;
    if worth >= workers as usize {
        workers
    } else if worth == 0 {
        1
    } else {
        worth as u32
    }
}

/// Evaluates each task, split among so many threads, and leaves its outcome behind the first `from` results.
fn share_tasks<R: Threads + Sync, S: StreamStore + Sync, G: Gate + Sync>(
    rt: &R,
    gate: &G,
    plan: &Plan,
    code: &PlanCode,
    moment: &Moment,
    store: &S,
    tasks: &[Task],
    shares: &mut [Share],
    results: &mut [Brief],
    from: usize,
    workers: u32,
)
    requires code { code.now ≡ plan.now.spec }
    requires workers { (1 ≤ workers) × (workers ≤ 64) }
    requires places { length results.old ≡ from + length tasks.now }
    requires numbered { length tasks.now < 2 ^ 32 }
    requires in_time { moment.now.time ≤ latest }
    requires running { IsRunning (S.seen store.now) }
    requires layout { (S.seen store.now).layout ≡ layout_of plan.now }
    requires ready { AreTasks plan.now moment.now (S.seen store.now) tasks.now }
    ensures before { take from results.new ≡ take from results.old }
    ensures results { AreResults plan.now moment.now (S.remembers store.now) (S.seen store.now) tasks.now (drop from results.new) }
{
    let (_, places) = results.split_at_mut(from);
    run_tasks(
        rt, gate, plan, code, moment, store, tasks, shares, places, workers,
    );
}

/// Places for so many outcomes behind those that stand there.
fn add_places(results: &mut Vec<Brief>, count: usize)
    requires room { vec_len results.old + count ≤ vec_capacity results.old }
    ensures items { results.new.items ≡ results.old.items ++ replicate count outcome.Missing }
    ensures more { vec_len results.new ≡ vec_len results.old + count }
    ensures capacity { vec_capacity results.new ≡ vec_capacity results.old }
{
    for _made in 0..count {
        results.push_reserved(Brief::missing());
    }
}

/// Evaluates each task, split among so many threads, and puts their outcomes behind those that stand there.
fn answer_shared<R: Threads + Sync, S: StreamStore + Sync, G: Gate + Sync>(
    rt: &R,
    gate: &G,
    plan: &Plan,
    code: &PlanCode,
    moment: &Moment,
    store: &S,
    tasks: &[Task],
    shares: &mut [Share],
    results: &mut Vec<Brief>,
    workers: u32,
)
    requires code { code.now ≡ plan.now.spec }
    requires workers { (1 ≤ workers) × (workers ≤ 64) }
    requires room { vec_len results.old + length tasks.now ≤ vec_capacity results.old }
    requires numbered { length tasks.now < 2 ^ 32 }
    requires in_time { moment.now.time ≤ latest }
    requires running { IsRunning (S.seen store.now) }
    requires layout { (S.seen store.now).layout ≡ layout_of plan.now }
    requires ready { AreTasks plan.now moment.now (S.seen store.now) tasks.now }
    ensures answered { AreAnswered plan.now moment.now (S.remembers store.now) (S.seen store.now) tasks.now results.old.items results.new.items }
    ensures more { vec_len results.new ≡ vec_len results.old + length tasks.now }
    ensures capacity { vec_capacity results.new ≡ vec_capacity results.old }
{
    let from = results.len();
    add_places(results, tasks.len());
    share_tasks(
        rt,
        gate,
        plan,
        code,
        moment,
        store,
        tasks,
        shares,
        results.as_mut_slice(),
        from,
        workers,
    );
}

/// Evaluates each task, one after the other, and puts their outcomes behind those that stand there. Of each task the gate hears before it
/// is done.
fn answer_in_turn<S: StreamStore, G: Gate>(
    gate: &G,
    plan: &Plan,
    code: &PlanCode,
    moment: &Moment,
    none: &Params,
    store: &S,
    tasks: &[Task],
    results: &mut Vec<Brief>,
)
    requires code { code.now ≡ plan.now.spec }
    requires none { none.now ≡ no_params }
    requires room { vec_len results.old + length tasks.now ≤ vec_capacity results.old }
    requires numbered { length tasks.now < 2 ^ 32 }
    requires in_time { moment.now.time ≤ latest }
    requires running { IsRunning (S.seen store.now) }
    requires layout { (S.seen store.now).layout ≡ layout_of plan.now }
    requires ready { AreTasks plan.now moment.now (S.seen store.now) tasks.now }
    ensures answered { AreAnswered plan.now moment.now (S.remembers store.now) (S.seen store.now) tasks.now results.old.items results.new.items }
    ensures more { vec_len results.new ≡ vec_len results.old + length tasks.now }
    ensures capacity { vec_capacity results.new ≡ vec_capacity results.old }
{
    for (i, task) in tasks.iter().enumerate() {
        gate.enter(i as u32);
        results.push_reserved(task_outcome(plan, code, moment, none, store, *task));
    }
}

/// Evaluates each task, split among so many workers, and puts their outcomes behind those that stand there. One worker is the caller,
/// who makes no places first.
fn answer_tasks<R: Threads + Sync, S: StreamStore + Sync, G: Gate + Sync>(
    rt: &R,
    gate: &G,
    plan: &Plan,
    code: &PlanCode,
    moment: &Moment,
    none: &Params,
    store: &S,
    tasks: &[Task],
    shares: &mut [Share],
    results: &mut Vec<Brief>,
    workers: u32,
)
    requires code { code.now ≡ plan.now.spec }
    requires none { none.now ≡ no_params }
    requires workers { (1 ≤ workers) × (workers ≤ 64) }
    requires room { vec_len results.old + length tasks.now ≤ vec_capacity results.old }
    requires numbered { length tasks.now < 2 ^ 32 }
    requires in_time { moment.now.time ≤ latest }
    requires running { IsRunning (S.seen store.now) }
    requires layout { (S.seen store.now).layout ≡ layout_of plan.now }
    requires ready { AreTasks plan.now moment.now (S.seen store.now) tasks.now }
    ensures answered { AreAnswered plan.now moment.now (S.remembers store.now) (S.seen store.now) tasks.now results.old.items results.new.items }
    ensures more { vec_len results.new ≡ vec_len results.old + length tasks.now }
    ensures capacity { vec_capacity results.new ≡ vec_capacity results.old }
{
    if workers == 1 {
        answer_in_turn(gate, plan, code, moment, none, store, tasks, results);
    } else {
        answer_shared(
            rt, gate, plan, code, moment, store, tasks, shares, results, workers,
        );
    }
}

/// Finds which instances of a layer are to be evaluated, does so, shared out among at most so many threads, and then gives each its
/// outcome. The tasks and their outcomes are kept behind those of the layers before, those of a stream where its span says. The streams that
/// have a duty in the layer are given, and those of them with parameters. Answers whether an outcome is a fault.
pub(crate) fn eval_layer<R: Threads + Sync, S: StreamStore + Sync, G: Gate + Sync>(
    rt: &R,
    gate: &G,
    plan: &Plan,
    duties: &[u32],
    seeks: &[u32],
    code: &PlanCode,
    moment: &Moment,
    none: &Params,
    store: &mut S,
    layer: u32,
    spawn_results: &[SpawnResult],
    places: &mut Vec<u32>,
    tasks: &mut Vec<Task>,
    shares: &mut [Share],
    results: &mut Vec<Brief>,
    spans: &mut [Span],
    sought: &mut [Whereabouts],
    last: &mut LastRate,
    workers: u32,
    is_first: bool,
) -> bool
    requires duties { duties.now ≡ duties_of plan.now (duty.Eval layer) }
    requires seeks { seeks.now ≡ duties_of plan.now (duty.Seek layer) }
    requires code { code.now ≡ plan.now.spec }
    requires none { none.now ≡ no_params }
    requires workers { (1 ≤ workers) × (workers ≤ 64) }
    requires accepted { IsAccepted plan.now }
    requires at { IsAt plan.now (eval_stage (length plan.now.spec.streams) layer) (S.seen store.old) }
    requires moment { IsMomentOf moment.now (S.seen store.old) }
    requires known { IsKnownAt moment.now last.old }
    requires spawn_results { length spawn_results.now ≡ length plan.now.spec.streams }
    requires rooms { HasRooms plan.now (eval_stage (length plan.now.spec.streams) layer) (S.seen store.old) places.old tasks.old results.old }
    requires sought { length sought.old ≡ length plan.now.spec.streams }
    requires unsought { AreUnsought plan.now sought.old }
    requires spans { IsReadyFor plan.now (eval_stage (length plan.now.spec.streams) layer) (S.seen store.old) tasks.old.items results.old.items spans.old }
    ensures known { IsKnownAt moment.now last.new }
    ensures at { IsAt plan.now (layer_stage (length plan.now.spec.streams) (layer + 1)) (S.seen store.new) }
    ensures goes_on { GoesOn (S.seen store.old) (S.seen store.new) }
    ensures rooms { HasRooms plan.now (layer_stage (length plan.now.spec.streams) (layer + 1)) (S.seen store.new) places.new tasks.new results.new }
    ensures spans { IsReadyFor plan.now (layer_stage (length plan.now.spec.streams) (layer + 1)) (S.seen store.new) tasks.new.items results.new.items spans.new }
    ensures places { vec_capacity places.new ≡ vec_capacity places.old }
    ensures capacities { (vec_capacity tasks.new ≡ vec_capacity tasks.old) × (vec_capacity results.new ≡ vec_capacity results.old) }
    ensures unsought { AreUnsought plan.now sought.new }
    ensures takes { EvalsTake plan.now moment.now layer spawn_results.now (S.remembers store.old) (S.seen store.old) (S.remembers store.new) (S.seen store.new) }
    ensures shows { ShowsMore plan.now moment.now layer spawn_results.now (S.remembers store.old) (S.seen store.old) spans.old tasks.old.items results.old.items spans.new tasks.new.items results.new.items }
    ensures faultless { result ≡ false → has_fault results.old.items ≡ false → has_fault results.new.items ≡ false }
{
    let from = tasks.len();
    let done = results.len();
    seek_layer(plan, seeks, moment, store, layer, spawn_results, sought);
    gather(
        plan,
        duties,
        moment,
        store,
        layer,
        spawn_results,
        sought,
        places,
        tasks,
        spans,
        last,
    );
    let sharers = sharers_of(workers, tasks.len() - from, is_first);
    answer_tasks(
        rt,
        gate,
        plan,
        code,
        moment,
        none,
        store,
        &tasks[from..],
        shares,
        results,
        sharers,
    );
    give_shared(rt, store, &tasks[from..], &results[done..], sharers)
}
