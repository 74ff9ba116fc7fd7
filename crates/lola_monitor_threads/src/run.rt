//! A run whose sources are read by the calling thread or on threads of their own.
ghost use Rattle.std.specs.Prelude.{◌≡◌, ◌≤◌, ◌↔◌, List, [], Err, Some, IfOk, IsTrue, OnOk, false, length, map, reverse, vec_capacity};
ghost use Rattle.std.specs.List.{AllZip};
ghost use Rattle.lola_port.specs.States.{SinkState};
ghost use Rattle.lola_model.specs.Journal.{opening_time};
ghost use Rattle.lola_model.specs.Trace.{input_kinds};
ghost use Rattle.lola_model.specs.declared.journal.Entry.{Entry};
ghost use Rattle.lola_feed.specs.SharedIntakes.{AreNewSeats, new_taker};
ghost use Rattle.lola_monitor_run.specs.Running.{IsGoing, keeping};
ghost use Rattle.lola_monitor_run.specs.Feeds.{AreInPlace, AreReady, RunEnds, World, supply_of, world};
ghost use Rattle.lola_monitor_run.specs.Behind.{EndsBehind, HasTakenNone, IsBehind};
ghost use Rattle.lola_monitor_threads.specs.Joining.{Joins};
ghost use Rattle.lola_monitor_threads.specs.Seated.{IsNewPair, SomeOutOfMemory, all_seated};
ghost use Rattle.lola_monitor_threads.specs.Takings.{IsNewTaker};
ghost use Rattle.lola_monitor_threads.specs.declared.halt.Halt.TheVariants as halt;

use crate::board::Board;
use crate::fit::RunInputs;
use crate::halt::Halt;
use crate::here::are_all_here;
use crate::seated::SeatedWorker;
use crate::sending::send_all;
use crate::taking::Taker;
use lola_feed::HeldSeat;
use lola_feed::intake::{IntakeSeat, IntakeTaker, SharedIntake};
use lola_feed::worker::{SourceEnd, SourceWorker};
use lola_merge::batch::Batch;
use lola_model::plan::Plan;
use lola_monitor_run::rounds_law::stopped_runs_end;
use lola_monitor_run::rows::run_out;
use lola_monitor_run::run::Run;
use lola_monitor_run::stop::Stop;
use lola_port::{Bell, Gate, Sink, Source};
use lola_value::text::Memory;
use std::alloc::Global;
use std::sync::Wait;
use std::sync::atomic::AtomicBool;
use std::thread;
use std::thread::Threads;

/// The room that a run with threads takes before the first is started: the intake with its seats, the board at which the threads
/// wait for each other, a flag for each source, room for the seated workers that wait and for those that came back, and for what the
/// intake has left at its end.
#[derive(Drop)]
struct Room<S: Source, P: IntakeSeat, Q: IntakeTaker, I: SharedIntake<P, Q>> {
    intake: I,
    seats: Vec<P>,
    taker: Taker<Q>,
    board: Board,
    flags: Vec<AtomicBool>,
    waiting: Vec<SeatedWorker<S, P>>,
    back: Vec<SeatedWorker<S, P>>,
    left: Batch,
}

impl<S: Source, P: IntakeSeat, Q: IntakeTaker, I: SharedIntake<P, Q>> Room<S, P, Q, I> {
    // Room for so many sources of a plan.
    fn create(
        alloc: Global,
        plan: &Plan,
        count: u32,
        start: Option<u64>,
    ) -> Result<Room<S, P, Q, I>, Memory>
        requires { (1 ≤ count) × (count ≤ 64) }
        ensures taker { IfOk result (λ room. room.taker ≡ record { seat = new_taker (I.id room.intake) count start; inputs = record { count = count; kinds = input_kinds plan.now.spec.streams }; batch = [] }) }
        ensures seats { IfOk result (λ room. AreNewSeats (I.id room.intake) count (map P.shows room.seats.items)) }
        ensures flags { IfOk result (λ room. length room.flags.items ≡ count) }
        ensures waiting { IfOk result (λ room. (room.waiting.items ≡ []) × (count ≤ vec_capacity room.waiting)) }
        ensures back { IfOk result (λ room. (room.back.items ≡ []) × (count ≤ vec_capacity room.back)) }
        ensures left { IfOk result (λ room. room.left ≡ []) }
    {
        let places = count as usize;
        let waiting = Vec::with_capacity(alloc, places)?;
        let back = Vec::with_capacity(alloc, places)?;
        let flags = new_flags(alloc, count)?;
        let board = Board::create(alloc, count)?;
        let left = Batch::create(alloc)?;
        let batch = Batch::create(alloc)?;
        let inputs = RunInputs::create(alloc, plan, count)?;
        let (intake, seats, seat) = I::create(alloc, count, start)?;
        Ok(Room {
            intake,
            seats,
            taker: Taker::create(seat, inputs, batch),
            board,
            flags,
            waiting,
            back,
            left,
        })
    }
}

// Tells the board how many processors the threads of these sources can have, if there are such threads, and the machine tells.
fn tell_processors<R: Threads, S: Source, P: IntakeSeat>(
    rt: &R,
    waiting: &Vec<SeatedWorker<S, P>>,
    board: &mut Board,
) {
    if are_all_here(waiting.as_slice()) {
        return;
    }
    if let Ok(count) = thread::available_parallelism(rt) {
        board.has_processors(count.get());
    }
}

// So many flags that are not set.
fn new_flags(alloc: Global, count: u32) -> Result<Vec<AtomicBool>, Memory>
    ensures { IfOk result (λ flags. length flags.items ≡ count) }
{
    let mut flags = Vec::with_capacity(alloc, count as usize)?;
    for _ in 0..count {
        flags.push_reserved(AtomicBool::new(false));
    }
    Ok(flags)
}

// Asks that the bytes of a source be read ahead, unless they are waited for and the source is the only one: its reader then has
// nothing else to do.
fn read_ahead<S: Source>(worker: &mut SourceWorker<S>, is_only: bool, bell: &Bell)
    ensures { worker.new ≡ worker.old }
{
    if !is_only || worker.answers_at_once() {
        worker.read_ahead(bell);
    }
}

// Joins each worker with the seat of its source, the last first, and asks that its bytes be read ahead.
fn seat_all<S: Source, P: IntakeSeat>(
    workers: &mut Vec<SourceWorker<S>>,
    seats: &mut Vec<P>,
    waiting: &mut Vec<SeatedWorker<S, P>>,
    bell: &Bell,
)
    requires pairs { AllZip IsNewPair workers.old.items (map P.shows seats.old.items) }
    requires none { waiting.old.items ≡ [] }
    requires room { length workers.old.items ≤ vec_capacity waiting.old }
    ensures seated { reverse waiting.new.items ≡ all_seated workers.old.items (map P.shows seats.old.items) }
    ensures workers { (workers.new.items ≡ []) × (vec_capacity workers.new ≡ vec_capacity workers.old) }
    ensures seats { (seats.new.items ≡ []) × (vec_capacity seats.new ≡ vec_capacity seats.old) }
{
    let is_only = workers.len() == 1;
    while let Some(mut worker) = workers.pop() {
        if let Some(seat) = seats.pop() {
            read_ahead(&mut worker, is_only, bell);
            waiting.push_reserved(SeatedWorker::create(worker, HeldSeat::create(seat)));
        }
    }
}

// Takes seated workers apart, the last first.
fn take_apart<S: Source, P: IntakeSeat>(
    back: Vec<SeatedWorker<S, P>>,
    workers: &mut Vec<SourceWorker<S>>,
    seats: &mut Vec<P>,
)
    requires none { (workers.old.items ≡ []) × (seats.old.items ≡ []) }
    requires room { (length back.items ≤ vec_capacity workers.old) × (length back.items ≤ vec_capacity seats.old) }
    ensures seated { all_seated workers.new.items (map P.shows seats.new.items) ≡ reverse back.items }
    ensures many { (length workers.new.items ≡ length back.items) × (length seats.new.items ≡ length back.items) }
{
    let mut back = back;
    while let Some(seated) = back.pop() {
        let (worker, held) = seated.into_parts();
        workers.push_reserved(worker);
        seats.push_reserved(held.into_seat());
    }
}

// Whether a worker has ended for want of memory.
fn is_out_of_memory(end: Option<SourceEnd>) -> bool
    ensures { IsTrue result ↔ (end ≡ Some SourceEnd.Memory) }
{
    matches!(end, Some(SourceEnd::Memory))
}

// Whether one of these workers has.
fn any_out_of_memory<S: Source>(workers: &[SourceWorker<S>]) -> bool
    ensures { IsTrue result ↔ SomeOutOfMemory workers.now }
{
    for worker in workers {
        if is_out_of_memory(worker.end()) {
            return true;
        }
    }
    false
}

// What a run ends with, whatever it stood for at first, once all rows of its sources came or it was stopped, and all threads were joined.
fn run_end<R: Threads + Sync, S: Source, K: Sink, G: Gate + Sync>(
    rt: &R,
    run: &mut Run,
    workers: &[SourceWorker<S>],
    halted: Result<(), Halt>,
    out: &mut K,
    gate: &G,
) -> Result<(), Stop>
    requires going { OnOk halted (IsGoing (keeping run.old)) }
    requires fit { halted ≡ Err halt.Unfit → ⊥ }
    ensures ends { (first : World) (trace : SinkState) → Joins halted first (world (keeping run.old) (map supply_of workers.now) (K.state out.old) trace)
        → RunEnds result first (world (keeping run.new) (map supply_of workers.now) (K.state out.new) trace) }
    ensures behind { (first : World) (trace : SinkState) → Joins halted first (world (keeping run.old) (map supply_of workers.now) (K.state out.old) trace)
        → (before : List Entry) → IsBehind before before first.kept
        → EndsBehind false before result first (world (keeping run.new) (map supply_of workers.now) (K.state out.new) trace) }
    ensures plan { (keeping run.new).state.plan ≡ (keeping run.old).state.plan }
{
    match halted {
        Ok(()) => {
            if any_out_of_memory(workers) {
                return Err(Stop::Memory);
            }
            run_out(rt, run, out, gate)
        }
        Err(Halt::Stopped(stop)) => {
            stopped_runs_end();
            Err(stop)
        }
        Err(Halt::Unfit) => unreachable!(),
    }
}

// Runs sources with this room.
fn run_room<
    P: IntakeSeat + Send,
    Q: IntakeTaker,
    I: SharedIntake<P, Q> + Sync,
    R: Threads + Wait + Sync,
    S: Source + Send,
    K: Sink,
    T: Sink,
    G: Gate + Sync,
>(
    rt: &R,
    alloc: Global,
    room: Room<S, P, Q, I>,
    run: &mut Run,
    workers: Vec<SourceWorker<S>>,
    out: &mut K,
    trace: &mut T,
    gate: &G,
) -> (Vec<SourceWorker<S>>, Result<(), Stop>)
    requires none { HasTakenNone (keeping run.old) }
    requires ready { AreReady (keeping run.old).state.plan workers.items }
    requires taker { IsNewTaker (I.id room.intake) (length workers.items) (keeping run.old) room.taker }
    requires seats { AreNewSeats (I.id room.intake) (length workers.items) (map P.shows room.seats.items) }
    requires flags { length room.flags.items ≡ length workers.items }
    requires waiting { (room.waiting.items ≡ []) × (length workers.items ≤ vec_capacity room.waiting) }
    requires back { (room.back.items ≡ []) × (length workers.items ≤ vec_capacity room.back) }
    requires left { room.left ≡ [] }
    ensures ends { RunEnds result.1 (world (keeping run.old) (map supply_of workers.items) (K.state out.old) (T.state trace.old))
        (world (keeping run.new) (map supply_of result.0.items) (K.state out.new) (T.state trace.new)) }
    ensures behind { (before : List Entry) → IsBehind before before (keeping run.old)
        → EndsBehind false before result.1 (world (keeping run.old) (map supply_of workers.items) (K.state out.old) (T.state trace.old))
        (world (keeping run.new) (map supply_of result.0.items) (K.state out.new) (T.state trace.new)) }
    ensures places { AreInPlace workers.items result.0.items }
    ensures plan { (keeping run.new).state.plan ≡ (keeping run.old).state.plan }
{
    let Room {
        intake,
        mut seats,
        mut taker,
        mut board,
        flags,
        mut waiting,
        back,
        mut left,
    } = room;
    let Ok(here) = Vec::with_capacity(alloc, workers.len()) else {
        return (workers, Err(Stop::Memory));
    };
    let mut workers = workers;
    seat_all(&mut workers, &mut seats, &mut waiting, board.bell());
    tell_processors(rt, &waiting, &mut board);
    let (back, halted) = send_all(
        rt, &intake, gate, &board, &flags, waiting, here, back, &mut taker, run, out, trace,
    );
    take_apart(back, &mut workers, &mut seats);
    taker.end(rt, intake, seats, &mut left);
    let stopped = run_end(rt, run, workers.as_slice(), halted, out, gate);
    (workers, stopped)
}

/// Runs all rows of sources, and then the deadlines at the last stamp, unless a row has a fault or the run was cut short. The calling thread
/// reads the rows of files, of each source whose bytes a thread reads ahead, which wakes it when they have come, and of the only source. Each
/// other source has a thread, which hands its rows in; where none can be started the calling thread reads that source too. Rows are run in the
/// order in which they are handed in, which may be any that keeps the order of each source; it is that of stamp and source, as far as nobody
/// has to wait for a source that is silent. What ends the run ends it at once, also where sources are silent, but for a source whose thread waits
/// in a read. The workers come back as their turns left them.
/// The run is new or goes on: whatever journal others had taken, the rows come behind it, and the deadlines at its last stamp are still to
/// be run, also where no row comes. `start` is the merged time: the stamp of the last accepted row, or else the start; a row before
/// it is late.
pub fn resume_in_threads<
    P: IntakeSeat + Send,
    Q: IntakeTaker,
    I: SharedIntake<P, Q> + Sync,
    R: Threads + Wait + Sync,
    S: Source + Send,
    K: Sink,
    T: Sink,
    G: Gate + Sync,
>(
    rt: &R,
    alloc: Global,
    run: &mut Run,
    workers: Vec<SourceWorker<S>>,
    start: Option<u64>,
    out: &mut K,
    trace: &mut T,
    gate: &G,
) -> (Vec<SourceWorker<S>>, Result<(), Stop>)
    requires none { HasTakenNone (keeping run.old) }
    requires ready { AreReady (keeping run.old).state.plan workers.items }
    requires start { opening_time start ≡ (keeping run.old).state.merged }
    ensures run { (before : List Entry) → IsBehind before before (keeping run.old)
        → EndsBehind false before result.1 (world (keeping run.old) (map supply_of workers.items) (K.state out.old) (T.state trace.old))
        (world (keeping run.new) (map supply_of result.0.items) (K.state out.new) (T.state trace.new)) }
    ensures ends { RunEnds result.1 (world (keeping run.old) (map supply_of workers.items) (K.state out.old) (T.state trace.old))
        (world (keeping run.new) (map supply_of result.0.items) (K.state out.new) (T.state trace.new)) }
    ensures places { AreInPlace workers.items result.0.items }
    ensures plan { (keeping run.new).state.plan ≡ (keeping run.old).state.plan }
{
    match Room::<S, P, Q, I>::create(alloc, run.plan(), workers.len() as u32, start) {
        Ok(room) => run_room(rt, alloc, room, run, workers, out, trace, gate),
        Err(_) => (workers, Err(Stop::Memory)),
    }
}
