//! The sources of a run: fetched, run in turns or as their rows come, and given back.
ghost use Rattle.std.specs.Prelude.{◌≡◌, ◌≤◌, ℕ, List, [], IfOk, false, length, map, string_bytes};
ghost use Rattle.std.specs.Vec.{vec_capacity};
ghost use Rattle.lola_port.specs.States.{ShelfState};
ghost use Rattle.lola_model.specs.Journal.{opening_time};
ghost use Rattle.lola_model.specs.declared.journal.Entry.{Entry};
ghost use Rattle.lola_rows.specs.Reading.{Shape};
ghost use Rattle.lola_monitor_run.specs.Running.{keeping};
ghost use Rattle.lola_monitor_run.specs.Verdicts.{most_rows};
ghost use Rattle.lola_monitor_run.specs.Feeds.{AreInPlace, AreReady, RunEnds, supply_of, world};
ghost use Rattle.lola_monitor_run.specs.Behind.{EndsBehind, HasTakenNone, IsBehind};
ghost use Rattle.lola_feed.specs.Lending.{AreGiven, AreRooms, IsLent, names_at, places_of};
ghost use Rattle.lola_monitor.specs.Causes.{SourcesCause};
ghost use Rattle.lola_monitor.specs.Monitor.{outside};
ghost use Rattle.lola_monitor.specs.Outcomes.{EndsSources, Grew, RunsBehindAny, TakesSources, unfetched};

use crate::call_end::CallEnd;
use crate::ending::{call_end_after, end_of};
use lola_feed::rooms::reserve_all;
use lola_feed::sources::{FetchStop, fetch_all, give_all_back};
use lola_feed::worker::SourceWorker;
use lola_intake::intake::Intake;
use lola_intake::seats::{EngineSeat, SourceSeat};
use lola_model::plan::Plan;
use lola_monitor_command::command::RunCommand;
use lola_monitor_command::said::IntakeKind;
use lola_monitor_run::rows::{MOST_ROWS, resume_in_turns};
use lola_monitor_run::run::Run;
use lola_monitor_run::stop::Stop;
use lola_monitor_threads::run::resume_in_threads;
use lola_port::{Gate, Shelf, Sink, Source};
use lola_queue_intake::intake::QueueIntake;
use lola_queue_intake::seats::{QueueSeat, TakerSeat};
use lola_report::end::EndLine;
use lola_rows::EmptyReader;
use lola_value::text::Memory;
use std::alloc::Global;
use std::sync::Wait;
use std::thread::Threads;

/// The room that sources take before they are fetched: for each reader, and for the workers.
#[derive(Drop)]
pub struct Room<S: Source> {
    pub readers: Vec<EmptyReader>,
    pub workers: Vec<SourceWorker<S>>,
}

/// The room for so many sources of a plan.
pub fn reserve<S: Source>(alloc: Global, plan: &Plan, sources: usize) -> Result<Room<S>, Memory>
    requires { sources ≤ 64 }
    ensures readers { IfOk result (λ room. AreRooms plan.now sources most_rows room.readers.items) }
    ensures none { IfOk result (λ room. room.workers.items ≡ []) }
    ensures places { IfOk result (λ room. sources ≤ vec_capacity room.workers) }
{
    let readers = reserve_all::<S>(alloc, plan, sources as u32, MOST_ROWS)?;
    let workers = Vec::with_capacity(alloc, sources)?;
    Ok(Room { readers, workers })
}

/// What a call ends with where not all sources were fetched.
pub fn not_fetched(stop: FetchStop) -> CallEnd
    ensures { result ≡ unfetched stop }
{
    match stop {
        FetchStop::Failed(at) => CallEnd::Line(EndLine::UnreadableSource(at)),
        FetchStop::Memory => CallEnd::Memory,
    }
}

// Runs sources as their rows come, which hand them in at this intake.
fn run_in_time<R: Threads + Wait + Sync, S: Source + Send, K: Sink, T: Sink, G: Gate + Sync>(
    rt: &R,
    alloc: Global,
    run: &mut Run,
    workers: Vec<SourceWorker<S>>,
    start: Option<u64>,
    intake: IntakeKind,
    out: &mut K,
    trace: &mut T,
    gate: &G,
) -> (Vec<SourceWorker<S>>, Result<(), Stop>)
    requires none { HasTakenNone (keeping run.old) }
    requires ready { AreReady (keeping run.old).state.plan workers.items }
    requires start { opening_time start ≡ (keeping run.old).state.merged }
    ensures run { (before : List Entry) → IsBehind before before (keeping run.old)
        → EndsBehind false before result.1 (world (keeping run.old) (map supply_of workers.items) (K.state out.old) (T.state trace.old))
        (world (keeping run.new) (map supply_of result.0.items) (K.state out.new) (T.state trace.new)) }
    ensures ends { RunEnds result.1 (world (keeping run.old) (map supply_of workers.items) (K.state out.old) (T.state trace.old))
        (world (keeping run.new) (map supply_of result.0.items) (K.state out.new) (T.state trace.new)) }
    ensures places { AreInPlace workers.items result.0.items }
    ensures plan { (keeping run.new).state.plan ≡ (keeping run.old).state.plan }
{
    match intake {
        IntakeKind::Lock => resume_in_threads::<SourceSeat, EngineSeat, Intake, R, S, K, T, G>(
            rt, alloc, run, workers, start, out, trace, gate,
        ),
        IntakeKind::Queue => resume_in_threads::<QueueSeat, TakerSeat, QueueIntake, R, S, K, T, G>(
            rt, alloc, run, workers, start, out, trace, gate,
        ),
    }
}

// Runs sources, in turns or as their rows come.
fn run_workers<R: Threads + Wait + Sync, S: Source + Send, K: Sink, T: Sink, G: Gate + Sync>(
    rt: &R,
    alloc: Global,
    run: &mut Run,
    workers: Vec<SourceWorker<S>>,
    start: Option<u64>,
    in_turns: bool,
    intake: IntakeKind,
    out: &mut K,
    trace: &mut T,
    gate: &G,
) -> (Vec<SourceWorker<S>>, Result<(), Stop>)
    requires none { HasTakenNone (keeping run.old) }
    requires ready { AreReady (keeping run.old).state.plan workers.items }
    requires start { opening_time start ≡ (keeping run.old).state.merged }
    ensures run { (before : List Entry) → IsBehind before before (keeping run.old)
        → EndsBehind in_turns before result.1 (world (keeping run.old) (map supply_of workers.items) (K.state out.old) (T.state trace.old))
        (world (keeping run.new) (map supply_of result.0.items) (K.state out.new) (T.state trace.new)) }
    ensures ends { RunEnds result.1 (world (keeping run.old) (map supply_of workers.items) (K.state out.old) (T.state trace.old))
        (world (keeping run.new) (map supply_of result.0.items) (K.state out.new) (T.state trace.new)) }
    ensures places { AreInPlace workers.items result.0.items }
    ensures plan { (keeping run.new).state.plan ≡ (keeping run.old).state.plan }
{
    if in_turns {
        resume_in_turns(rt, alloc, run, workers, start, out, trace, gate)
    } else {
        run_in_time(rt, alloc, run, workers, start, intake, out, trace, gate)
    }
}

// Runs sources that are lent, whatever names they have, and gives them back.
fn run_lent<R: Threads + Wait + Sync, F: Shelf, K: Sink, T: Sink, G: Gate + Sync>(
    rt: &R,
    alloc: Global,
    run: &mut Run,
    workers: Vec<SourceWorker<F::File>>,
    start: Option<u64>,
    in_turns: bool,
    intake: IntakeKind,
    shelf: &mut F,
    out: &mut K,
    trace: &mut T,
    gate: &G,
) -> CallEnd
    requires none { HasTakenNone (keeping run.old) }
    requires ready { AreReady (keeping run.old).state.plan workers.items }
    requires start { opening_time start ≡ (keeping run.old).state.merged }
    requires given { AreGiven (F.state shelf.old).asks (places_of workers.items) }
    requires out { length workers.items ≤ (F.state shelf.old).out }
    ensures ends { EndsSources result }
    ensures runs { (names : List (List ℕ)) (rooms : List Shape) (before : ShelfState)
        → IsLent names rooms before (F.state shelf.old) workers.items → AreRooms (keeping run.old).state.plan (length names) most_rows rooms
        → RunsBehindAny in_turns result (keeping run.old) names (outside before (K.state out.old) (T.state trace.old))
        (outside (F.state shelf.new) (K.state out.new) (T.state trace.new)) }
    ensures cause { (names : List (List ℕ)) (rooms : List Shape) (before : ShelfState)
        → IsLent names rooms before (F.state shelf.old) workers.items → AreRooms (keeping run.old).state.plan (length names) most_rows rooms
        → SourcesCause result (keeping run.old).state.plan names (outside before (K.state out.old) (T.state trace.old))
        (outside (F.state shelf.new) (K.state out.new) (T.state trace.new)) }
    ensures asked { (names : List (List ℕ)) (rooms : List Shape) (before : ShelfState)
        → IsLent names rooms before (F.state shelf.old) workers.items → Grew names before (F.state shelf.new) }
{
    let (workers, stopped) = run_workers(
        rt, alloc, run, workers, start, in_turns, intake, out, trace, gate,
    );
    let end = end_of(workers.as_slice());
    give_all_back(shelf, workers);
    call_end_after(alloc, run, stopped, end)
}

// Fetches sources, runs their rows, and gives them back.
fn run_room<R: Threads + Wait + Sync, F: Shelf, K: Sink, T: Sink, G: Gate + Sync>(
    rt: &R,
    alloc: Global,
    run: &mut Run,
    room: Room<F::File>,
    start: Option<u64>,
    words: &[String],
    command: &RunCommand,
    shelf: &mut F,
    out: &mut K,
    trace: &mut T,
    gate: &G,
) -> CallEnd
    requires out { (F.state shelf.old).out ≡ 0 }
    requires sources { (1 ≤ length command.now.sources) × (length command.now.sources ≤ 64) }
    requires going { HasTakenNone (keeping run.old) }
    requires start { opening_time start ≡ (keeping run.old).state.merged }
    requires readers { AreRooms (keeping run.old).state.plan (length command.now.sources) most_rows room.readers.items }
    requires none { room.workers.items ≡ [] }
    requires places { length command.now.sources ≤ vec_capacity room.workers }
    ensures runs { TakesSources command.now.in_turns result (keeping run.old) (names_at (map string_bytes words.now) command.now.sources)
        (outside (F.state shelf.old) (K.state out.old) (T.state trace.old))
        (outside (F.state shelf.new) (K.state out.new) (T.state trace.new)) }
    ensures cause { SourcesCause result (keeping run.old).state.plan (names_at (map string_bytes words.now) command.now.sources)
        (outside (F.state shelf.old) (K.state out.old) (T.state trace.old))
        (outside (F.state shelf.new) (K.state out.new) (T.state trace.new)) }
    ensures asked { Grew (names_at (map string_bytes words.now) command.now.sources) (F.state shelf.old) (F.state shelf.new) }
{
    let Room {
        readers,
        mut workers,
    } = room;
    let names = command.sources.as_slice();
    if let Err(stop) = fetch_all(shelf, words, names, readers, &mut workers) {
        return not_fetched(stop);
    }
    run_lent(
        rt,
        alloc,
        run,
        workers,
        start,
        command.in_turns,
        command.intake,
        shelf,
        out,
        trace,
        gate,
    )
}

/// Fetches the sources of a command, runs their rows, in turns where the command says so and else as their rows come, and gives them
/// back. The run is new, or goes on behind a journal that others had taken, whatever that is; the merge of the sources begins at
/// `start`, which is the time that the run has come to. The room that the plan alone decides is made before the first source is
/// fetched, and that for what the sources share before the first row is read; the heading's columns and the room for a line's fields
/// are made when the first lines of each are read.
pub fn run_sources<R: Threads + Wait + Sync, F: Shelf, K: Sink, T: Sink, G: Gate + Sync>(
    rt: &R,
    alloc: Global,
    run: Run,
    start: Option<u64>,
    words: &[String],
    command: &RunCommand,
    shelf: &mut F,
    out: &mut K,
    trace: &mut T,
    gate: &G,
) -> CallEnd
    requires out { (F.state shelf.old).out ≡ 0 }
    requires none { HasTakenNone (keeping run) }
    requires start { opening_time start ≡ (keeping run).state.merged }
    requires sources { (1 ≤ length command.now.sources) × (length command.now.sources ≤ 64) }
    ensures runs { TakesSources command.now.in_turns result (keeping run) (names_at (map string_bytes words.now) command.now.sources)
        (outside (F.state shelf.old) (K.state out.old) (T.state trace.old))
        (outside (F.state shelf.new) (K.state out.new) (T.state trace.new)) }
    ensures cause { SourcesCause result (keeping run).state.plan (names_at (map string_bytes words.now) command.now.sources)
        (outside (F.state shelf.old) (K.state out.old) (T.state trace.old))
        (outside (F.state shelf.new) (K.state out.new) (T.state trace.new)) }
    ensures asked { Grew (names_at (map string_bytes words.now) command.now.sources) (F.state shelf.old) (F.state shelf.new) }
{
    let mut run = run;
    let sources = command.sources.as_slice().len();
    let Ok(room) = reserve(alloc, run.plan(), sources) else {
        return CallEnd::Memory;
    };
    run_room(
        rt, alloc, &mut run, room, start, words, command, shelf, out, trace, gate,
    )
}
