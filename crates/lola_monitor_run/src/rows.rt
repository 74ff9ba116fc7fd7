//! The rows of sources, in turns.
ghost use Rattle.std.specs.Prelude.{◌≡◌, ◌<◌, ◌≤◌, ◌↔◌, ◌||◌, Bool, true, List, [], IfOk, Ok, IsTrue, OnOk, length, map};
ghost use Rattle.lola_port.specs.States.{SinkState};
ghost use Rattle.lola_model.specs.Journal.{opening_time};
ghost use Rattle.lola_model.specs.declared.journal.Entry.{Entry};
ghost use Rattle.lola_merge.specs.Merging.{opening};
ghost use Rattle.lola_monitor_run.specs.Running.{HasRoom, IsGoing, IsSetAs, Writes, keeping};
ghost use Rattle.lola_monitor_run.specs.Feeds.{AreInPlace, AreReady, IsFresh, IsIdle, RunEnds, Supply, World, supplies_of, supply_of, world};
ghost use Rattle.lola_monitor_run.specs.Behind.{EndsBehind, HasTakenNone, IsBehind, RanToEndBehind, RunsBehind};
ghost use Rattle.lola_monitor_run.specs.Turning.{GoesRound, IsOutOfMemory, IsBetweenRounds, RunsOn, Steps, without_answer};

use crate::feed::Feed;
use crate::run::Run;
use crate::stop::Stop;
use lola_feed::worker::{SourceEnd, SourceWorker, TurnEnd};
use lola_merge::batch::Batch;
use lola_merge::state::MergeState;
use lola_port::{Gate, Sink, Source};
use lola_value::text::Memory;
use std::alloc::Global;
use std::thread::Threads;

/// The most rows of a source.
pub const MOST_ROWS: u64 = 1099511627776;

// Whether a worker has ended for want of memory.
fn is_out_of_memory(turn: TurnEnd) -> bool
    ensures { IsTrue result ↔ IsOutOfMemory turn }
{
    matches!(turn, TurnEnd::Done(SourceEnd::Memory))
}

// A turn of a source: what it handed in is taken out, traced and run. It tells whether that was a row.
fn run_turn<R: Threads + Sync, S: Source, K: Sink, T: Sink, G: Gate + Sync>(
    rt: &R,
    run: &mut Run,
    feed: &mut Feed<S>,
    source: u32,
    out: &mut K,
    trace: &mut T,
    gate: &G,
) -> Result<bool, Stop>
    requires there { source < length feed.old.workers }
    requires going { IsGoing (keeping run.old) }
    requires room { HasRoom (keeping run.old) }
    requires idle { IsIdle feed.old (keeping run.old) }
    ensures steps { Steps result source (world (keeping run.old) (supplies_of feed.old) (K.state out.old) (T.state trace.old))
        (world (keeping run.new) (supplies_of feed.new) (K.state out.new) (T.state trace.new)) }
    ensures writes { Writes (without_answer result) (K.state out.old) (K.state out.new) (T.state trace.old) (T.state trace.new) }
    ensures idle { OnOk result (IsIdle feed.new (keeping run.new)) }
    ensures places { AreInPlace feed.old.workers feed.new.workers }
    ensures setting { IsSetAs (keeping run.old) (keeping run.new) }
    ensures steps_before { (keeping run.new).state.behind ≡ (keeping run.old).state.behind }
{
    let turn = feed.turn(source);
    if is_out_of_memory(turn) {
        return Err(Stop::Memory);
    }
    let entry = match feed.take() {
        Some(entry) => entry,
        None => return Ok(false),
    };
    match run.enter(rt, &entry, out, trace, gate) {
        Ok(()) => Ok(true),
        Err(stop) => Err(stop),
    }
}

// Whether one of two is so.
fn either(first: bool, second: bool) -> bool
    ensures { result ≡ first || second }
{
    first || second
}

// A turn of each source. It tells whether a row was taken.
fn run_round<R: Threads + Sync, S: Source, K: Sink, T: Sink, G: Gate + Sync>(
    rt: &R,
    run: &mut Run,
    feed: &mut Feed<S>,
    out: &mut K,
    trace: &mut T,
    gate: &G,
) -> Result<bool, Stop>
    requires many { length feed.old.workers ≤ 64 }
    requires under_way { IsBetweenRounds (world (keeping run.old) (supplies_of feed.old) (K.state out.old) (T.state trace.old)) }
    requires idle { IsIdle feed.old (keeping run.old) }
    ensures goes { GoesRound result (world (keeping run.old) (supplies_of feed.old) (K.state out.old) (T.state trace.old))
        (world (keeping run.new) (supplies_of feed.new) (K.state out.new) (T.state trace.new)) }
    ensures writes { Writes (without_answer result) (K.state out.old) (K.state out.new) (T.state trace.old) (T.state trace.new) }
    ensures idle { OnOk result (IsIdle feed.new (keeping run.new)) }
    ensures places { AreInPlace feed.old.workers feed.new.workers }
    ensures setting { IsSetAs (keeping run.old) (keeping run.new) }
    ensures steps_before { (keeping run.new).state.behind ≡ (keeping run.old).state.behind }
{
    let mut moved = false;
    let count = feed.sources();
    for source in 0..count {
        match run_turn(rt, run, feed, source, out, trace, gate) {
            Ok(row) => moved = either(moved, row),
            Err(stop) => return Err(stop),
        }
    }
    Ok(moved)
}

// Takes one row of each source, round after round, each traced and run before the next is read, until all have ended or
// something ends the run.
fn run_rows<R: Threads + Sync, S: Source, K: Sink, T: Sink, G: Gate + Sync>(
    rt: &R,
    run: &mut Run,
    feed: &mut Feed<S>,
    out: &mut K,
    trace: &mut T,
    gate: &G,
) -> Result<(), Stop>
    requires none { HasTakenNone (keeping run.old) }
    requires idle { IsIdle feed.old (keeping run.old) }
    requires fresh { IsFresh feed.old }
    ensures run { RunsOn result (world (keeping run.old) (supplies_of feed.old) (K.state out.old) (T.state trace.old))
        (world (keeping run.new) (supplies_of feed.new) (K.state out.new) (T.state trace.new)) }
    ensures ends { RunEnds result (world (keeping run.old) (supplies_of feed.old) (K.state out.old) (T.state trace.old))
        (world (keeping run.new) (supplies_of feed.new) (K.state out.new) (T.state trace.new)) }
    ensures places { AreInPlace feed.old.workers feed.new.workers }
    ensures setting { IsSetAs (keeping run.old) (keeping run.new) }
    ensures steps_before { (keeping run.new).state.behind ≡ (keeping run.old).state.behind }
    ensures going { OnOk result (IsGoing (keeping run.new)) }
{
    loop {
        match run_round(rt, run, feed, out, trace, gate) {
            Ok(true) => {}
            Ok(false) => return Ok(()),
            Err(stop) => return Err(stop),
        }
    }
}

/// Runs the deadlines at the last stamp and puts their lines, once all rows were run, whatever sources they are of.
pub fn run_out<R: Threads + Sync, K: Sink, G: Gate + Sync>(
    rt: &R,
    run: &mut Run,
    out: &mut K,
    gate: &G,
) -> Result<(), Stop>
    requires going { IsGoing (keeping run.old) }
    ensures ends { (first : World) (sources : List Supply) (trace : SinkState) → RunEnds (Ok tt) first (world (keeping run.old) sources (K.state out.old) trace)
        → RunEnds result first (world (keeping run.new) sources (K.state out.new) trace) }
    ensures behind { (in_turns : Bool) (before : List Entry) (first : World) (sources : List Supply) (trace : SinkState) → RanToEndBehind in_turns before first (world (keeping run.old) sources (K.state out.old) trace)
        → EndsBehind in_turns before result first (world (keeping run.new) sources (K.state out.new) trace) }
    ensures plan { (keeping run.new).state.plan ≡ (keeping run.old).state.plan }
{
    run.finish(rt, out, gate)
}

// Runs all rows of the sources of a feed, and then the deadlines at the last stamp, unless a step has a fault or the run was cut
// short.
fn run_whole<R: Threads + Sync, S: Source, K: Sink, T: Sink, G: Gate + Sync>(
    rt: &R,
    run: &mut Run,
    feed: &mut Feed<S>,
    out: &mut K,
    trace: &mut T,
    gate: &G,
) -> Result<(), Stop>
    requires none { HasTakenNone (keeping run.old) }
    requires idle { IsIdle feed.old (keeping run.old) }
    requires fresh { IsFresh feed.old }
    ensures ends { RunEnds result (world (keeping run.old) (supplies_of feed.old) (K.state out.old) (T.state trace.old))
        (world (keeping run.new) (supplies_of feed.new) (K.state out.new) (T.state trace.new)) }
    ensures behind { (before : List Entry) → IsBehind before before (keeping run.old)
        → EndsBehind true before result (world (keeping run.old) (supplies_of feed.old) (K.state out.old) (T.state trace.old))
        (world (keeping run.new) (supplies_of feed.new) (K.state out.new) (T.state trace.new)) }
    ensures places { AreInPlace feed.old.workers feed.new.workers }
    ensures plan { (keeping run.new).state.plan ≡ (keeping run.old).state.plan }
{
    match run_rows(rt, run, feed, out, trace, gate) {
        Ok(()) => run_out(rt, run, out, gate),
        Err(stop) => Err(stop),
    }
}

/// Runs all rows of sources, which are read in turns, and then the deadlines at the last stamp, unless a step has a fault or the run was
/// cut short. The run is new or goes on: whatever journal others had taken, the rows come behind it, and the deadlines at its last stamp
/// are still to be run, also where no row comes.
/// `start` is the merged time: the stamp of the last accepted row, or else the start. The workers come back as their turns
/// left them.
pub fn resume_in_turns<R: Threads + Sync, S: Source, K: Sink, T: Sink, G: Gate + Sync>(
    rt: &R,
    alloc: Global,
    run: &mut Run,
    workers: Vec<SourceWorker<S>>,
    start: Option<u64>,
    out: &mut K,
    trace: &mut T,
    gate: &G,
) -> (Vec<SourceWorker<S>>, Result<(), Stop>)
    requires none { HasTakenNone (keeping run.old) }
    requires ready { AreReady (keeping run.old).state.plan workers.items }
    requires start { opening_time start ≡ (keeping run.old).state.merged }
    ensures run { (before : List Entry) → IsBehind before before (keeping run.old)
        → EndsBehind true before result.1 (world (keeping run.old) (map supply_of workers.items) (K.state out.old) (T.state trace.old))
        (world (keeping run.new) (map supply_of result.0.items) (K.state out.new) (T.state trace.new)) }
    ensures ends { RunEnds result.1 (world (keeping run.old) (map supply_of workers.items) (K.state out.old) (T.state trace.old))
        (world (keeping run.new) (map supply_of result.0.items) (K.state out.new) (T.state trace.new)) }
    ensures places { AreInPlace workers.items result.0.items }
    ensures plan { (keeping run.new).state.plan ≡ (keeping run.old).state.plan }
{
    let sources = workers.len() as u32;
    let (state, batch) = match make_room(alloc, sources, start) {
        Ok(room) => room,
        Err(_) => return (workers, Err(Stop::Memory)),
    };
    let mut feed = Feed::create(workers, state, batch);
    let stopped = run_whole(rt, run, &mut feed, out, trace, gate);
    (feed.into_workers(), stopped)
}

/// Runs all rows of sources, which are read in turns, and leaves the deadlines at the last stamp to be run by others, who go on from the
/// state that the run has come to. The run has begun or goes on: whatever journal others had taken, the rows come behind it. `start` is
/// the merged time: the stamp of the last accepted row, or else the start. The workers come back as their turns left them.
pub fn rows_in_turns<R: Threads + Sync, S: Source, K: Sink, T: Sink, G: Gate + Sync>(
    rt: &R,
    alloc: Global,
    run: &mut Run,
    workers: Vec<SourceWorker<S>>,
    start: Option<u64>,
    out: &mut K,
    trace: &mut T,
    gate: &G,
) -> (Vec<SourceWorker<S>>, Result<(), Stop>)
    requires none { HasTakenNone (keeping run.old) }
    requires ready { AreReady (keeping run.old).state.plan workers.items }
    requires start { opening_time start ≡ (keeping run.old).state.merged }
    ensures run { (before : List Entry) → IsBehind before before (keeping run.old)
        → RunsBehind true before result.1 (world (keeping run.old) (map supply_of workers.items) (K.state out.old) (T.state trace.old))
        (world (keeping run.new) (map supply_of result.0.items) (K.state out.new) (T.state trace.new)) }
    ensures ends { RunEnds result.1 (world (keeping run.old) (map supply_of workers.items) (K.state out.old) (T.state trace.old))
        (world (keeping run.new) (map supply_of result.0.items) (K.state out.new) (T.state trace.new)) }
    ensures places { AreInPlace workers.items result.0.items }
    ensures setting { IsSetAs (keeping run.old) (keeping run.new) }
    ensures steps_before { (keeping run.new).state.behind ≡ (keeping run.old).state.behind }
    ensures going { OnOk result.1 (IsGoing (keeping run.new)) }
{
    let sources = workers.len() as u32;
    let (state, batch) = match make_room(alloc, sources, start) {
        Ok(room) => room,
        Err(_) => return (workers, Err(Stop::Memory)),
    };
    let mut feed = Feed::create(workers, state, batch);
    let stopped = run_rows(rt, run, &mut feed, out, trace, gate);
    (feed.into_workers(), stopped)
}

// A merge object for so many sources, and room for what is taken out of it.
fn make_room(alloc: Global, sources: u32, start: Option<u64>) -> Result<(MergeState, Batch), Memory>
    requires { (1 ≤ sources) × (sources ≤ 64) }
    ensures state { IfOk result (λ room. room.0 ≡ opening sources start) }
    ensures batch { IfOk result (λ room. room.1 ≡ []) }
{
    let state = MergeState::create(alloc, sources, start)?;
    let batch = Batch::create(alloc)?;
    Ok((state, batch))
}
