//! A source's worker at its desk, on the calling thread.
ghost use Rattle.std.specs.Prelude.{◌≡◌};
ghost use Rattle.lola_monitor_threads.specs.Seated.{WentOn};

use crate::board::Board;
use crate::seated::{SeatedWorker, begin_or_look_at, finish_owed_at, turn_at};
use lola_feed::SeatDesk;
use lola_feed::intake::{IntakeSeat, SourceIntake};
use lola_feed::worker::{SourceWorker, TurnEnd};
use lola_port::{Gate, Source};
use std::marker::Model;
use std::sync::Wait;

/// A source's worker at the desk of its seat, for a source that the calling thread reads. Contracts see the worker and its seat.
#[derive(Drop)]
pub struct DeskWorker<'a, S: Source, P: IntakeSeat, I: SourceIntake<P>, R: Wait + Sync> {
    worker: SourceWorker<S>,
    desk: SeatDesk<'a, P, I, R>,
    source: u32,
}

impl<'a, S: Source, P: IntakeSeat, I: SourceIntake<P>, R: Wait + Sync> Model
    for DeskWorker<'a, S, P, I, R> {
    ghost use Rattle.lola_monitor_threads.specs.Seated.{IsSeated, Seated};

    ghost Value = { Seated };

    ghost view = { λ p. record { working = p.worker; seat = p.desk.seat } };

    ghost invariant = { λ p. IsSeated p.worker p.desk };
}

impl<'a, S: Source, P: IntakeSeat, I: SourceIntake<P>, R: Wait + Sync> DeskWorker<'a, S, P, I, R> {
    /// A seated worker at the desk of its seat.
    pub fn create(
        rt: &'a R,
        intake: &'a I,
        seated: SeatedWorker<S, P>,
    ) -> DeskWorker<'a, S, P, I, R>
        requires { seated.seat.intake ≡ I.id intake.now }
        ensures { result ≡ seated }
    {
        let source = seated.source();
        let (worker, held) = seated.into_parts();
        DeskWorker {
            worker,
            desk: SeatDesk::create(rt, intake, held),
            source,
        }
    }

    /// The worker with its seat.
    pub fn into_seated(self) -> SeatedWorker<S, P>
        ensures { result ≡ self.entry }
    {
        let DeskWorker {
            worker,
            desk,
            source: _source,
        } = self;
        SeatedWorker::create(worker, desk.into_held())
    }

    /// The number of its source.
    pub fn source(&self) -> u32 {
        self.source
    }

    /// Whether its worker has ended.
    pub fn has_ended(&self) -> bool {
        self.worker.end().is_some()
    }

    /// Whether its source has a thread that wakes the calling thread when bytes have come.
    pub fn rings(&self) -> bool {
        self.worker.rings()
    }

    /// The stamp of the row that waits, if one does.
    pub fn waiting(&self) -> Option<u64> {
        self.worker.waiting()
    }

    // Whether its next row is to be looked at, and a read of its source, if one is needed, waits for nobody.
    fn is_at_hand(&self) -> bool {
        !self.has_ended()
            && self.waiting().is_none()
            && (self.worker.answers_at_once()
                || self.worker.is_ready()
                || (self.rings() && self.worker.wait_for_bytes(0)))
    }

    /// Whether its next row is to be looked at, and can be after so many milliseconds at most.
    pub fn comes_within(&self, milliseconds: u16) -> bool {
        !self.has_ended()
            && self.waiting().is_none()
            && (self.worker.answers_at_once()
                || self.worker.is_ready()
                || self.worker.wait_for_bytes(milliseconds))
    }

    // What other threads are told of it: the row that it has in hand, or that nobody is to wait for it, since it has ended, or its
    // next row is to be waited for.
    fn tell(&self, board: &Board) {
        match self.waiting() {
            Some(stamp) => board.has_row(self.source, stamp),
            None => {
                if !self.is_at_hand() {
                    board.step_aside(self.source);
                }
            }
        }
    }

    // Reads the heading of the source, or looks at its next row behind that.
    fn read_on(&mut self)
        ensures { WentOn self.old self.new }
    {
        begin_or_look_at(&mut self.worker, &mut self.desk);
    }

    // Looks at the next row of the source, behind the heading too where that is read first. So no look is left to be made that can be: whoever
    // sleeps until the source rings does so for bytes that have not come.
    fn look_on(&mut self)
        ensures { WentOn self.old self.new }
    {
        self.read_on();
        if self.is_at_hand() {
            self.read_on();
        }
    }

    // Looks at the next row of the source, and tells the others of it.
    fn look(&mut self, board: &Board)
        ensures { WentOn self.old self.new }
    {
        self.look_on();
        self.tell(board);
    }

    // Tells the intake that the source has ended, where it had no room for that before.
    fn finish_owed(&mut self)
        ensures { WentOn self.old self.new }
    {
        finish_owed_at(&self.worker, &mut self.desk);
    }

    /// Looks at the next row of the source, where it was not looked at and can be read at once. Of a source that has ended the intake
    /// is told so, where it had no room for that before.
    pub fn look_ahead(&mut self, board: &Board)
        ensures { WentOn self.old self.new }
    {
        if self.comes_within(0) {
            self.look(board);
        } else {
            self.finish_owed();
        }
    }

    // One turn of the source. It tells whether a row was handed in.
    fn hand_in(&mut self) -> bool
        ensures { WentOn self.old self.new }
    {
        matches!(turn_at(&mut self.worker, &mut self.desk), TurnEnd::Moved)
    }

    /// One turn of the source, and a look at its next row where that is at hand. The gate is told before the turn. It tells whether a
    /// row was handed in.
    pub fn turn<G: Gate>(&mut self, board: &Board, gate: &G) -> bool
        ensures { WentOn self.old self.new }
    {
        gate.source_turn(self.source);
        let is_in = self.hand_in();
        if is_in && self.is_at_hand() {
            self.look(board);
        } else {
            self.tell(board);
        }
        is_in
    }
}
