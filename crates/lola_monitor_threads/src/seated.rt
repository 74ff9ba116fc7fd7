//! A source's worker with its seat at the intake.
ghost use Rattle.std.specs.Prelude.{◌≡◌};
ghost use Rattle.lola_monitor_threads.specs.Seated.{IsSeated, WentOn, seated};

use crate::board::{Board, Watch};
use lola_feed::intake::{IntakeSeat, SourceIntake};
use lola_feed::worker::{SourceWorker, TurnEnd};
use lola_feed::{HeldSeat, SeatDesk};
use lola_port::{Gate, Source};
use std::marker::Model;
use std::sync::Wait;

/// How long a thread waits for the lines of its source before it looks whether the run was stopped, in milliseconds.
const PIECE: u16 = 100;

/// A source's worker and its seat, which go together to the thread that reads the source.
#[derive(Drop)]
pub struct SeatedWorker<S: Source, P: IntakeSeat> {
    worker: SourceWorker<S>,
    held: HeldSeat<P>,
}

impl<S: Source, P: IntakeSeat> Model for SeatedWorker<S, P> {
    ghost use Rattle.lola_monitor_threads.specs.Seated.{IsSeated, Seated};

    ghost Value = { Seated };

    ghost view = { λ p. record { working = p.worker; seat = p.held.seat } };

    ghost invariant = { λ p. IsSeated p.worker p.held };
}

// Waits until a read of a source answers at once, where it has to be read. It tells whether one would: else the run was stopped.
fn wait_to_read<S: Source, R: Wait>(
    rt: &R,
    worker: &SourceWorker<S>,
    source: u32,
    board: &Board,
) -> bool {
    if worker.answers_at_once() || worker.is_ready() {
        return true;
    }
    board.step_aside(source);
    for _ in rt.forever() {
        if board.is_stopped() {
            return false;
        }
        if worker.wait_for_bytes(PIECE) {
            return true;
        }
    }
    unreachable!()
}

// Reads the heading of a source, unless it was read; where there is none, its desk is told so. It tells whether the worker goes on.
fn begin_at<S: Source, P: IntakeSeat, I: SourceIntake<P>, R: Wait + Sync>(
    worker: &mut SourceWorker<S>,
    desk: &mut SeatDesk<'_, P, I, R>,
) -> bool
    requires { IsSeated worker.old desk.old }
    ensures went { WentOn (seated worker.old desk.old.seat) (seated worker.new desk.new.seat) }
    ensures at { IsSeated worker.new desk.new }
{
    worker.begin(desk)
}

// Looks at the next row of a source; where none is to come, its desk is told so.
fn look_at<S: Source, P: IntakeSeat, I: SourceIntake<P>, R: Wait + Sync>(
    worker: &mut SourceWorker<S>,
    desk: &mut SeatDesk<'_, P, I, R>,
) -> Option<u64>
    requires { IsSeated worker.old desk.old }
    ensures went { WentOn (seated worker.old desk.old.seat) (seated worker.new desk.new.seat) }
    ensures at { IsSeated worker.new desk.new }
{
    worker.look_ahead(desk)
}

/// Looks at the next row of a source, or reads the heading before the first.
pub fn begin_or_look_at<S: Source, P: IntakeSeat, I: SourceIntake<P>, R: Wait + Sync>(
    worker: &mut SourceWorker<S>,
    desk: &mut SeatDesk<'_, P, I, R>,
)
    requires { IsSeated worker.old desk.old }
    ensures went { WentOn (seated worker.old desk.old.seat) (seated worker.new desk.new.seat) }
    ensures at { IsSeated worker.new desk.new }
{
    if worker.has_begun() {
        look_at(worker, desk);
    } else {
        begin_at(worker, desk);
    }
}

/// One turn of a source at its desk.
pub fn turn_at<S: Source, P: IntakeSeat, I: SourceIntake<P>, R: Wait + Sync>(
    worker: &mut SourceWorker<S>,
    desk: &mut SeatDesk<'_, P, I, R>,
) -> TurnEnd
    requires { IsSeated worker.old desk.old }
    ensures went { WentOn (seated worker.old desk.old.seat) (seated worker.new desk.new.seat) }
    ensures at { IsSeated worker.new desk.new }
{
    worker.turn(desk)
}

/// Tells the intake that a source has ended, where it had no room for that before. It tells whether nothing is left to be told.
pub fn finish_owed_at<S: Source, P: IntakeSeat, I: SourceIntake<P>, R: Wait + Sync>(
    worker: &SourceWorker<S>,
    desk: &mut SeatDesk<'_, P, I, R>,
) -> bool
    requires { IsSeated worker.now desk.old }
    ensures went { WentOn (seated worker.now desk.old.seat) (seated worker.now desk.new.seat) }
    ensures at { IsSeated worker.now desk.new }
{
    let _ = worker;
    desk.finish_owed()
}

// Tells the intake that a source has ended, where it had no room for that before. Its thread waits for room meanwhile.
fn finish_all_owed<S: Source, P: IntakeSeat, I: SourceIntake<P>, R: Wait + Sync>(
    rt: &R,
    worker: &SourceWorker<S>,
    desk: &mut SeatDesk<'_, P, I, R>,
    source: u32,
    board: &Board,
)
    requires { IsSeated worker.now desk.old }
    ensures went { WentOn (seated worker.now desk.old.seat) (seated worker.now desk.new.seat) }
    ensures at { IsSeated worker.now desk.new }
{
    let mut times: u32 = 0;
    for _ in rt.forever() {
        if finish_owed_at(worker, desk) {
            board.row_is_in(source, times);
            return;
        }
        board.wait_for_room(rt, source, times);
        times = times.saturating_add(1);
    }
    unreachable!()
}

// Nobody waits any more for a source whose worker has ended, after its last row has found no room so many times.
fn leave(board: &Board, source: u32, times: u32) {
    board.step_aside(source);
    board.row_is_in(source, times);
}

// Hands in the row that waits. Where the intake is full, its thread waits for room before the next turn. It tells whether the
// worker goes on.
fn hand_in<S: Source, P: IntakeSeat, I: SourceIntake<P>, R: Wait + Sync, G: Gate>(
    rt: &R,
    worker: &mut SourceWorker<S>,
    desk: &mut SeatDesk<'_, P, I, R>,
    source: u32,
    gate: &G,
    board: &Board,
) -> bool
    requires { IsSeated worker.old desk.old }
    ensures went { WentOn (seated worker.old desk.old.seat) (seated worker.new desk.new.seat) }
    ensures at { IsSeated worker.new desk.new }
{
    let mut times: u32 = 0;
    for _ in rt.forever() {
        match turn_at(worker, desk) {
            TurnEnd::Moved => {
                board.row_is_in(source, times);
                return true;
            }
            TurnEnd::Full => {
                board.wait_for_room(rt, source, times);
                times = times.saturating_add(1);
                gate.source_turn(source);
            }
            TurnEnd::Done(_) => {
                leave(board, source, times);
                return false;
            }
        }
    }
    unreachable!()
}

// The next row of a source, read and handed in once it is the least of those that others have in hand. The gate is told before it
// is read, and before each further turn. It tells whether the worker goes on: it does not where it has ended, or where the run is
// stopped while its source is silent.
fn pass_row<S: Source, P: IntakeSeat, I: SourceIntake<P>, R: Wait + Sync, G: Gate>(
    rt: &R,
    worker: &mut SourceWorker<S>,
    desk: &mut SeatDesk<'_, P, I, R>,
    source: u32,
    gate: &G,
    board: &Board,
    watch: &mut Watch,
) -> bool
    requires { IsSeated worker.old desk.old }
    ensures went { WentOn (seated worker.old desk.old.seat) (seated worker.new desk.new.seat) }
    ensures at { IsSeated worker.new desk.new }
{
    gate.source_turn(source);
    if !wait_to_read(rt, worker, source, board) {
        return false;
    }
    match look_at(worker, desk) {
        Some(stamp) => {
            board.wait_for_turn(rt, source, stamp, watch);
            hand_in(rt, worker, desk, source, gate, board)
        }
        None => {
            leave(board, source, 0);
            false
        }
    }
}

// The heading of a source and all its rows, one after another.
fn run_at<S: Source, P: IntakeSeat, I: SourceIntake<P>, R: Wait + Sync, G: Gate>(
    rt: &R,
    worker: &mut SourceWorker<S>,
    desk: &mut SeatDesk<'_, P, I, R>,
    source: u32,
    gate: &G,
    board: &Board,
)
    requires { IsSeated worker.old desk.old }
    ensures went { WentOn (seated worker.old desk.old.seat) (seated worker.new desk.new.seat) }
    ensures at { IsSeated worker.new desk.new }
{
    if !wait_to_read(rt, worker, source, board) {
        return;
    }
    if !begin_at(worker, desk) {
        leave(board, source, 0);
        return;
    }
    let mut watch = Watch::new();
    for _ in rt.forever() {
        if !pass_row(rt, worker, desk, source, gate, board, &mut watch) {
            return;
        }
    }
    unreachable!()
}

impl<S: Source, P: IntakeSeat> SeatedWorker<S, P> {
    /// The worker of a source with the seat of that source.
    pub fn create(worker: SourceWorker<S>, held: HeldSeat<P>) -> SeatedWorker<S, P>
        requires { IsSeated worker held }
        ensures { result ≡ seated worker held.seat }
    {
        SeatedWorker { worker, held }
    }

    /// The number of its source.
    pub fn source(&self) -> u32
        ensures { result ≡ self.now.seat.source }
    {
        self.held.source()
    }

    /// Whether each read of its source answers at once.
    pub fn answers_at_once(&self) -> bool {
        self.worker.answers_at_once()
    }

    /// Whether its source has a thread that wakes the calling thread when bytes have come.
    pub fn rings(&self) -> bool {
        self.worker.rings()
    }

    /// All turns of the source, until its worker has ended, or until the run is stopped while the source is silent.
    pub fn run<I: SourceIntake<P>, R: Wait + Sync, G: Gate>(
        self,
        rt: &R,
        intake: &I,
        gate: &G,
        board: &Board,
    ) -> SeatedWorker<S, P>
        requires { self.seat.intake ≡ I.id intake.now }
        ensures { WentOn self result }
    {
        let SeatedWorker { mut worker, held } = self;
        let source = held.source();
        let mut desk = SeatDesk::create(rt, intake, held);
        run_at(rt, &mut worker, &mut desk, source, gate, board);
        finish_all_owed(rt, &worker, &mut desk, source, board);
        SeatedWorker {
            worker,
            held: desk.into_held(),
        }
    }

    /// The worker and what it has of the seat.
    pub fn into_parts(self) -> (SourceWorker<S>, HeldSeat<P>)
        ensures parts { seated result.0 result.1.seat ≡ self }
        ensures at { IsSeated result.0 result.1 }
    {
        let SeatedWorker { worker, held } = self;
        (worker, held)
    }
}
