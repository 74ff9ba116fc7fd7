//! A snapshot: the rows of sources are run, and the state that the run has come to is put.

ghost use Rattle.std.specs.Prelude.{◌≡◌, ◌≤◌, ◌<◌, ◌↔◌, ◌∷◌, ℕ, List, IfOk, IsTrue, OnOk, Some, None, length, map, string_bytes, true};
ghost use Rattle.std.specs.List.{list_all};
ghost use Rattle.std.specs.Str.{is_utf8};
ghost use Rattle.lola_port.specs.States.{ShelfState, SinkState};
ghost use Rattle.lola_model.specs.Acceptance.{IsAccepted};
ghost use Rattle.lola_model.specs.Journal.{opening_time};
ghost use Rattle.lola_model.specs.declared.journal.Entry.{Entry};
ghost use Rattle.lola_engine.specs.Behind.{StandsBehind};
ghost use Rattle.lola_engine.specs.Engines.{IsEngine, IsOptionInTime};
ghost use Rattle.lola_instances.specs.Stores.{bounded_remembers, bounded_seen};
ghost use Rattle.lola_save_text.specs.JournalStates.{state_of};
ghost use Rattle.lola_save_text.specs.Fitting.{most_steps};
ghost use Rattle.lola_save_text.specs.Lines.{state_text};
ghost use Rattle.lola_rows.specs.Reading.{Shape};
ghost use Rattle.lola_feed.specs.Lending.{AreGiven, AreRooms, IsLent, names_at, places_of};
ghost use Rattle.lola_monitor_run.specs.Behind.{HasTakenNone, IsBehind, RunsBehind};
ghost use Rattle.lola_monitor_run.specs.Feeds.{AreInPlace, AreReady, RunEnds, supply_of, world};
ghost use Rattle.lola_monitor_run.specs.Running.{IsGoing, IsSetAs, keeping};
ghost use Rattle.lola_monitor_run.specs.Verdicts.{most_rows};
ghost use Rattle.lola_monitor_command.specs.Bounds.{IsSnapshotInBounds};
ghost use Rattle.lola_monitor_command.specs.Command.{command_of};
ghost use Rattle.lola_monitor_command.specs.Said.{name_at};
ghost use Rattle.lola_monitor.specs.Causes.{Causes, SourcesCause};
ghost use Rattle.lola_monitor.specs.Command.{names_asked, snapshot_with};
ghost use Rattle.lola_monitor.specs.Snapshots.{inputs_of};
ghost use Rattle.lola_monitor.specs.Monitor.{Asked, outside};
ghost use Rattle.lola_monitor.specs.Outcomes.{Grew};
ghost use Rattle.lola_monitor.specs.SnapshotOutcomes.{CausesOver, EndsAfter, RowsCause, RunsRows, SavesState, TookRows, WorksOver, WorksSnapshot, nowhere};

use crate::call_end::CallEnd;
use crate::ending::{SourcesEnd, call_end_after, end_of};
use crate::nowhere::Nowhere;
use crate::planning::without_plan;
use crate::resuming::{run_of_state, without_engine};
use crate::sources::{Room, not_fetched, reserve};
use crate::stating::{ReadSpecification, read_specification};
use lola_engine::engine::Engine;
use lola_feed::sources::{fetch_all, give_all_back};
use lola_feed::worker::SourceWorker;
use lola_instances::store::BoundedStore;
use lola_model::journal::Show;
use lola_monitor_command::command::{Command, SnapshotCommand};
use lola_monitor_command::names::named;
use lola_monitor_command::said::NamePlace;
use lola_monitor_run::rows::rows_in_turns;
use lola_monitor_run::run::Run;
use lola_monitor_run::stop::Stop;
use lola_port::{Gate, Shelf, Source};
use lola_report::end::EndLine;
use lola_save::end::StateEnd;
use lola_save::save::save;
use lola_value::text::{Memory, Text};
use lola_value::words::word_at;
use std::alloc::Global;
use std::hash::RandomState;
use std::thread::Threads;

/// The most steps of a state.
const MOST_STEPS: u64 = 4_611_686_018_427_387_904;

// The text of the state that an engine has come to.
fn state_of_engine(
    alloc: Global,
    specification: &[u8],
    engine: &Engine<BoundedStore>,
) -> Result<Text, Memory>
    requires { IsEngine engine.now.state (bounded_seen engine.now.store) }
    ensures { IfOk result (λ text. (before journal : List Entry)
        → StandsBehind engine.now.state (bounded_seen engine.now.store) (bounded_remembers engine.now.store) before journal
        → text ≡ state_text specification.now engine.now.state.plan (state_of engine.now.state.plan engine.now.state.given_start journal)) }
{
    let mut text = Text::from_bytes(alloc, b"")?;
    save(alloc, specification, engine, &mut text)?;
    Ok(text)
}

// Whether there are more steps than a state can have.
fn are_too_many(steps: u64) -> bool
    ensures { IsTrue result ↔ most_steps < steps }
{
    steps > MOST_STEPS
}

// The state that a run has come to, as its report. Too many steps for one are told instead.
fn saved(alloc: Global, specification: &[u8], run: &Run) -> CallEnd
    requires { IsGoing (keeping run.now) }
    ensures { SavesState result specification.now (keeping run.now) }
{
    let engine = run.engine();
    if are_too_many(engine.times().steps) {
        return CallEnd::Stated(StateEnd::TooManySteps);
    }
    match state_of_engine(alloc, specification, engine) {
        Ok(text) => CallEnd::Report(text),
        Err(_) => CallEnd::Memory,
    }
}

// What a snapshot ends with after its rows. What stopped them comes before how their sources ended.
fn outcome_of(
    alloc: Global,
    specification: &[u8],
    run: &Run,
    stopped: Result<(), Stop>,
    end: SourcesEnd,
) -> CallEnd
    requires { OnOk stopped (IsGoing (keeping run.now)) }
    ensures { EndsAfter stopped end specification.now (keeping run.now) result }
{
    match stopped {
        Ok(()) => match end {
            SourcesEnd::Whole => saved(alloc, specification, run),
            SourcesEnd::ReadFailed(at) => CallEnd::Line(EndLine::UnreadableSource(at)),
            SourcesEnd::Malformed { source, row, kind } => {
                CallEnd::Line(EndLine::Malformed { source, row, kind })
            }
        },
        Err(stop) => call_end_after(alloc, run, Err(stop), end),
    }
}

// Runs the rows of sources, whose verdicts and trace nobody reads. The workers come back as their turns left them.
fn take_rows<R: Threads + Sync, S: Source, G: Gate + Sync>(
    rt: &R,
    alloc: Global,
    run: &mut Run,
    workers: Vec<SourceWorker<S>>,
    start: Option<u64>,
    gate: &G,
) -> (Vec<SourceWorker<S>>, Result<(), Stop>)
    requires none { HasTakenNone (keeping run.old) }
    requires ready { AreReady (keeping run.old).state.plan workers.items }
    requires start { opening_time start ≡ (keeping run.old).state.merged }
    ensures run { (before : List Entry) → IsBehind before before (keeping run.old)
        → RunsBehind true before result.1 (world (keeping run.old) (map supply_of workers.items) nowhere nowhere) (world (keeping run.new) (map supply_of result.0.items) nowhere nowhere) }
    ensures ends { RunEnds result.1 (world (keeping run.old) (map supply_of workers.items) nowhere nowhere) (world (keeping run.new) (map supply_of result.0.items) nowhere nowhere) }
    ensures places { AreInPlace workers.items result.0.items }
    ensures setting { IsSetAs (keeping run.old) (keeping run.new) }
    ensures steps_before { (keeping run.new).state.behind ≡ (keeping run.old).state.behind }
    ensures going { OnOk result.1 (IsGoing (keeping run.new)) }
{
    let mut out = Nowhere;
    let mut trace = Nowhere;
    rows_in_turns(rt, alloc, run, workers, start, &mut out, &mut trace, gate)
}

// Runs the rows of sources that are lent, whatever names they have, and gives them back. It tells how the sources ended together, and what
// stopped the rows.
fn run_lent<R: Threads + Sync, F: Shelf, G: Gate + Sync>(
    rt: &R,
    alloc: Global,
    run: &mut Run,
    workers: Vec<SourceWorker<F::File>>,
    start: Option<u64>,
    shelf: &mut F,
    gate: &G,
) -> (SourcesEnd, Result<(), Stop>)
    requires none { HasTakenNone (keeping run.old) }
    requires ready { AreReady (keeping run.old).state.plan workers.items }
    requires start { opening_time start ≡ (keeping run.old).state.merged }
    requires given { AreGiven (F.state shelf.old).asks (places_of workers.items) }
    requires out { length workers.items ≤ (F.state shelf.old).out }
    ensures rows { (names : List (List ℕ)) (rooms : List Shape) (before : ShelfState)
        → IsLent names rooms before (F.state shelf.old) workers.items → AreRooms (keeping run.old).state.plan (length names) most_rows rooms
        → TookRows result.1 result.0 (keeping run.old) (keeping run.new) names before (F.state shelf.new) }
    ensures causes { (names : List (List ℕ)) (rooms : List Shape) (before : ShelfState)
        → IsLent names rooms before (F.state shelf.old) workers.items → AreRooms (keeping run.old).state.plan (length names) most_rows rooms
        → RowsCause result.1 result.0 (keeping run.old).state.plan names before (F.state shelf.new) }
    ensures setting { IsSetAs (keeping run.old) (keeping run.new) }
    ensures steps_before { (keeping run.new).state.behind ≡ (keeping run.old).state.behind }
    ensures going { OnOk result.1 (IsGoing (keeping run.new)) }
{
    let (workers, stopped) = take_rows(rt, alloc, run, workers, start, gate);
    let end = end_of(workers.as_slice());
    give_all_back(shelf, workers);
    (end, stopped)
}

// Runs the rows of sources that are lent, and gives these back; then it makes what a snapshot ends with.
fn snapshot_lent<R: Threads + Sync, F: Shelf, G: Gate + Sync>(
    rt: &R,
    alloc: Global,
    specification: &[u8],
    run: &mut Run,
    workers: Vec<SourceWorker<F::File>>,
    start: Option<u64>,
    shelf: &mut F,
    gate: &G,
) -> CallEnd
    requires none { HasTakenNone (keeping run.old) }
    requires ready { AreReady (keeping run.old).state.plan workers.items }
    requires start { opening_time start ≡ (keeping run.old).state.merged }
    requires given { AreGiven (F.state shelf.old).asks (places_of workers.items) }
    requires out { length workers.items ≤ (F.state shelf.old).out }
    ensures runs { (names : List (List ℕ)) (rooms : List Shape) (before : ShelfState)
        → IsLent names rooms before (F.state shelf.old) workers.items → AreRooms (keeping run.old).state.plan (length names) most_rows rooms
        → RunsRows result specification.now (keeping run.old) names before (F.state shelf.new) }
    ensures cause { (names : List (List ℕ)) (rooms : List Shape) (before : ShelfState)
        → IsLent names rooms before (F.state shelf.old) workers.items → AreRooms (keeping run.old).state.plan (length names) most_rows rooms
        → SourcesCause result (keeping run.old).state.plan names (outside before nowhere nowhere) (outside (F.state shelf.new) nowhere nowhere) }
{
    let (end, stopped) = run_lent(rt, alloc, run, workers, start, shelf, gate);
    outcome_of(alloc, specification, run, stopped, end)
}

// Fetches sources, runs their rows behind what a run has come to, and gives them back. The room is made before the first is fetched.
fn run_named<R: Threads + Sync, F: Shelf, G: Gate + Sync>(
    rt: &R,
    alloc: Global,
    specification: &[u8],
    run: Run,
    start: Option<u64>,
    words: &[String],
    names: &[usize],
    shelf: &mut F,
    gate: &G,
) -> CallEnd
    requires out { (F.state shelf.old).out ≡ 0 }
    requires sources { (1 ≤ length names.now) × (length names.now ≤ 64) }
    requires none { HasTakenNone (keeping run) }
    requires start { opening_time start ≡ (keeping run).state.merged }
    ensures runs { RunsRows result specification.now (keeping run) (names_at (map string_bytes words.now) names.now) (F.state shelf.old) (F.state shelf.new) }
    ensures cause { SourcesCause result (keeping run).state.plan (names_at (map string_bytes words.now) names.now) (outside (F.state shelf.old) nowhere nowhere) (outside (F.state shelf.new) nowhere nowhere) }
{
    let mut run = run;
    let Ok(room) = reserve::<F::File>(alloc, run.plan(), names.len()) else {
        return CallEnd::Memory;
    };
    let Room {
        readers,
        mut workers,
    } = room;
    if let Err(stop) = fetch_all(shelf, words, names, readers, &mut workers) {
        return not_fetched(stop);
    }
    snapshot_lent(
        rt,
        alloc,
        specification,
        &mut run,
        workers,
        start,
        shelf,
        gate,
    )
}

// A snapshot that begins anew.
fn snapshot_anew<R: Threads + Sync, F: Shelf, G: Gate + Sync>(
    rt: &R,
    alloc: Global,
    hasher: RandomState,
    specification: ReadSpecification,
    words: &[String],
    command: &SnapshotCommand,
    shelf: &mut F,
    gate: &G,
) -> CallEnd
    requires out { (F.state shelf.old).out ≡ 0 }
    requires sources { (1 ≤ length command.now.sources) × (length command.now.sources ≤ 64) }
    requires start { IsOptionInTime command.now.start }
    requires none { command.now.state ≡ None }
    requires accepted { IsAccepted specification.plan }
    ensures works { WorksOver result specification.bytes.items specification.plan (snapshot_with (map string_bytes words.now) command.now) (F.state shelf.old) (F.state shelf.new) }
    ensures cause { CausesOver result specification.bytes.items specification.plan (snapshot_with (map string_bytes words.now) command.now) (F.state shelf.old) (F.state shelf.new) }
    ensures asked { Grew (names_at (map string_bytes words.now) command.now.sources) (F.state shelf.old) (F.state shelf.new) }
{
    let ReadSpecification { bytes, plan } = specification;
    let Ok(run) = Run::create(alloc, hasher, plan, command.start, Show::Triggers, 1) else {
        return CallEnd::Memory;
    };
    run_named(
        rt,
        alloc,
        &bytes,
        run,
        command.start,
        words,
        command.sources.as_slice(),
        shelf,
        gate,
    )
}

// A snapshot that goes on from the state of this name.
fn snapshot_behind<R: Threads + Sync, F: Shelf, G: Gate + Sync>(
    rt: &R,
    alloc: Global,
    hasher: RandomState,
    specification: ReadSpecification,
    words: &[String],
    command: &SnapshotCommand,
    place: NamePlace,
    shelf: &mut F,
    gate: &G,
) -> CallEnd
    requires out { (F.state shelf.old).out ≡ 0 }
    requires is_snapshot { command_of (map string_bytes words.now) ≡ Some (Command.Snapshot command.now) }
    requires sources { (1 ≤ length command.now.sources) × (length command.now.sources ≤ 64) }
    requires state { command.now.state ≡ Some place }
    requires accepted { IsAccepted specification.plan }
    requires texts { list_all is_utf8 specification.plan.spec.texts ≡ true }
    ensures works { WorksOver result specification.bytes.items specification.plan (snapshot_with (map string_bytes words.now) command.now) (F.state shelf.old) (F.state shelf.new) }
    ensures cause { CausesOver result specification.bytes.items specification.plan (snapshot_with (map string_bytes words.now) command.now) (F.state shelf.old) (F.state shelf.new) }
    ensures asked { Grew (name_at (map string_bytes words.now) place ∷ names_at (map string_bytes words.now) command.now.sources) (F.state shelf.old) (F.state shelf.new) }
{
    let ReadSpecification { bytes, plan } = specification;
    let name = named(words, place);
    let resumed = match run_of_state(alloc, hasher, &bytes, plan, name, Show::Triggers, 1, shelf) {
        Ok(resumed) => resumed,
        Err(end) => return without_engine(end),
    };
    run_named(
        rt,
        alloc,
        &bytes,
        resumed.run,
        resumed.start,
        words,
        command.sources.as_slice(),
        shelf,
        gate,
    )
}

/// Reads a specification and, where one is named, a state of it, runs the rows of the sources in turns by one worker, and leaves the
/// deadlines at the last stamp to whoever goes on from there. Verdicts and a trace are not made. Its report is the state's text.
pub fn snapshot<R: Threads + Sync, F: Shelf, G: Gate + Sync>(
    rt: &R,
    alloc: Global,
    hasher: RandomState,
    words: &[String],
    command: &SnapshotCommand,
    shelf: &mut F,
    gate: &G,
) -> CallEnd
    requires out { (F.state shelf.old).out ≡ 0 }
    requires is_snapshot { command_of (map string_bytes words.now) ≡ Some (Command.Snapshot command.now) }
    requires bounds { IsSnapshotInBounds command.now }
    ensures works { (out trace : SinkState) → WorksSnapshot result (snapshot_with (map string_bytes words.now) command.now)
        (outside (F.state shelf.old) out trace) (outside (F.state shelf.new) out trace) }
    ensures cause { (out trace : SinkState) → Causes result (inputs_of (snapshot_with (map string_bytes words.now) command.now))
        (outside (F.state shelf.old) out trace) (outside (F.state shelf.new) out trace) }
    ensures asked { Asked (names_asked (map string_bytes words.now)) (F.state shelf.old) (F.state shelf.new) }
{
    let name = word_at(words, command.specification);
    let specification = match read_specification(alloc, shelf, name) {
        Ok(specification) => specification,
        Err(end) => return without_plan(end),
    };
    match command.state {
        None => snapshot_anew(
            rt,
            alloc,
            hasher,
            specification,
            words,
            command,
            shelf,
            gate,
        ),
        Some(place) => snapshot_behind(
            rt,
            alloc,
            hasher,
            specification,
            words,
            command,
            place,
            shelf,
            gate,
        ),
    }
}
