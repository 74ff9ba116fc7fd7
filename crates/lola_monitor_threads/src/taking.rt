//! The engine's thread: it takes rows out of the intake, tests, traces and runs them.
ghost use Rattle.std.specs.Prelude.{◌≡◌, ◌++◌, ◌<◌, ◌∷◌, [], ◌↔◌, List, IfOk, IsTrue, OnOk, true, length, map, vec_capacity};
ghost use Rattle.std.specs.List.{AllZip};
ghost use Rattle.lola_model.specs.Journal.{IsLegalFrom, opening_time};
ghost use Rattle.lola_model.specs.Trace.{input_kinds};
ghost use Rattle.lola_model.specs.declared.journal.Entry.{Entry};
ghost use Rattle.lola_feed.specs.SharedIntakes.{AreSeatsOf, IsWhole};
ghost use Rattle.lola_monitor_run.specs.Verdicts.{AreOfSources};
ghost use Rattle.lola_monitor_run.specs.Running.{IsSetAs, keeping};
ghost use Rattle.lola_monitor_threads.specs.Seated.{WentOn};
ghost use Rattle.lola_monitor_threads.specs.Takings.{GoesOn, Halts, HasRun, HasRunTaken, IsReady, IsSameTaker, IsPartlyRun, Place, place, was_taken};

use crate::board::Board;
use crate::desk::DeskWorker;
use crate::fit::RunInputs;
use crate::halt::Halt;
use crate::here::{rest, turn_here, waits_for_others};
use lola_feed::intake::{IntakeSeat, IntakeTaker, SharedIntake, SourceIntake};
use lola_merge::batch::Batch;
use lola_merge::state::Take;
use lola_model::journal::Entry;
use lola_monitor_run::run::Run;
use lola_monitor_run::stop::Stop;
use lola_port::{Gate, Sink, Source};
use std::marker::Model;
use std::sync::Wait;
use std::thread::Threads;

// Tests an entry, and traces and runs it.
fn test_entry<R: Threads + Sync, K: Sink, T: Sink, G: Gate + Sync>(
    rt: &R,
    run: &mut Run,
    inputs: &RunInputs,
    entry: &Entry,
    out: &mut K,
    trace: &mut T,
    gate: &G,
) -> Result<(), Halt>
    requires inputs { inputs.now.kinds ≡ input_kinds (keeping run.old).state.plan.spec.streams }
    requires under_way { IsPartlyRun (place (keeping run.old) (K.state out.old) (T.state trace.old)) (entry.now ∷ []) }
    ensures halts { (first : Place) (journal : List Entry) → HasRun first journal (place (keeping run.old) (K.state out.old) (T.state trace.old)) → AreOfSources inputs.now.count journal
        → Halts result inputs.now.count first (journal ++ entry.now ∷ []) (place (keeping run.new) (K.state out.new) (T.state trace.new)) }
    ensures source { OnOk result (entry.now.row.source < inputs.now.count) }
    ensures goes { OnOk result (GoesOn (entry.now ∷ []) (place (keeping run.old) (K.state out.old) (T.state trace.old)) (place (keeping run.new) (K.state out.new) (T.state trace.new))) }
    ensures setting { IsSetAs (keeping run.old) (keeping run.new) }
{
    if !inputs.fit(run, entry) {
        return Err(Halt::Unfit);
    }
    match run.enter(rt, entry, out, trace, gate) {
        Ok(()) => Ok(()),
        Err(stop) => Err(Halt::Stopped(stop)),
    }
}

// Tests all entries of a batch in their order, and traces and runs them. What comes behind one that ends it is not run.
fn run_batch<R: Threads + Sync, K: Sink, T: Sink, G: Gate + Sync>(
    rt: &R,
    run: &mut Run,
    inputs: &RunInputs,
    batch: &mut Batch,
    out: &mut K,
    trace: &mut T,
    gate: &G,
) -> Result<(), Halt>
    requires inputs { inputs.now.kinds ≡ input_kinds (keeping run.old).state.plan.spec.streams }
    requires under_way { IsPartlyRun (place (keeping run.old) (K.state out.old) (T.state trace.old)) batch.old }
    ensures halts { (first : Place) (journal : List Entry) → HasRun first journal (place (keeping run.old) (K.state out.old) (T.state trace.old)) → AreOfSources inputs.now.count journal
        → Halts result inputs.now.count first (journal ++ batch.old) (place (keeping run.new) (K.state out.new) (T.state trace.new)) }
    ensures goes { OnOk result (GoesOn batch.old (place (keeping run.old) (K.state out.old) (T.state trace.old)) (place (keeping run.new) (K.state out.new) (T.state trace.new))) }
    ensures empty { OnOk result (batch.new ≡ []) }
    ensures setting { IsSetAs (keeping run.old) (keeping run.new) }
{
    while let Some(entry) = batch.pop_front() {
        if let Err(halt) = test_entry(rt, run, inputs, &entry, out, trace, gate) {
            return Err(halt);
        }
    }
    Ok(())
}

// Whether a take was answered that all is done.
fn is_all_done(take: Take) -> bool
    ensures { IsTrue result ↔ (take ≡ Take.AllDone) }
{
    match take {
        Take::Rows(_) | Take::Nothing => false,
        Take::AllDone => true,
    }
}

// What follows a take: rows leave room for others. Where there was nothing yet, the thread sleeps until a row is in or bytes have come, unless
// sources here may have rows to come that nobody wakes it for.
fn rest_after<S: Source, P: IntakeSeat, I: SourceIntake<P>, R: Wait + Sync>(
    rt: &R,
    board: &Board,
    here: &[DeskWorker<'_, S, P, I, R>],
    take: Take,
) {
    match take {
        Take::Rows(_) => board.rows_are_out(),
        Take::Nothing => {
            if waits_for_others(here) {
                board.wait_for_rows(rt);
            } else {
                rest(here);
            }
        }
        Take::AllDone => {}
    }
}

/// What the engine's thread takes rows with: its seat at the intake, what a row is tested by, and room for what is taken.
#[derive(Drop)]
pub struct Taker<Q: IntakeTaker> {
    seat: Q,
    inputs: RunInputs,
    batch: Batch,
}

impl<Q: IntakeTaker> Model for Taker<Q> {
    ghost use Rattle.lola_monitor_threads.specs.Takings.{Taking};

    ghost Value = { Taking };

    ghost view = { λ t. record { seat = Q.shows t.seat; inputs = t.inputs; batch = t.batch } };
}

impl<Q: IntakeTaker> Taker<Q> {
    /// A seat, the inputs of a run, and an empty batch.
    pub fn create(seat: Q, inputs: RunInputs, batch: Batch) -> Taker<Q>
        ensures { result ≡ record { seat = Q.shows seat; inputs = inputs; batch = batch } }
    {
        Taker {
            seat,
            inputs,
            batch,
        }
    }

    // Takes all pending rows out of the intake, and runs them. It tells whether all is done.
    fn take_once<
        S: Source,
        P: IntakeSeat,
        I: SharedIntake<P, Q>,
        R: Threads + Wait + Sync,
        K: Sink,
        T: Sink,
        G: Gate + Sync,
    >(
        &mut self,
        rt: &R,
        intake: &I,
        board: &Board,
        here: &[DeskWorker<'_, S, P, I, R>],
        run: &mut Run,
        out: &mut K,
        trace: &mut T,
        gate: &G,
    ) -> Result<bool, Halt>
        requires ready { IsReady self.old (I.id intake.now) (keeping run.old) }
        requires run { HasRunTaken self.old (place (keeping run.old) (K.state out.old) (T.state trace.old)) }
        ensures halts { (first : Place) → HasRun first self.old.seat.taken (place (keeping run.old) (K.state out.old) (T.state trace.old)) → AreOfSources self.old.inputs.count self.old.seat.taken
            → Halts (was_taken result) self.old.inputs.count first self.new.seat.taken (place (keeping run.new) (K.state out.new) (T.state trace.new)) }
        ensures goes { OnOk result ((first : Place) → HasRun first self.old.seat.taken (place (keeping run.old) (K.state out.old) (T.state trace.old)) → HasRun first self.new.seat.taken (place (keeping run.new) (K.state out.new) (T.state trace.new))) }
        ensures ready { OnOk result (IsReady self.new (I.id intake.now) (keeping run.new)) }
        ensures inputs { self.new.inputs ≡ self.old.inputs }
        ensures done { IfOk result (λ done. done ≡ true → self.new.seat.done ≡ true) }
        ensures marked { IsLegalFrom (opening_time self.old.seat.start) self.new.seat.taken }
        ensures seat { IsSameTaker self.old.seat self.new.seat }
        ensures setting { IsSetAs (keeping run.old) (keeping run.new) }
    {
        let take = intake.take(rt, &mut self.seat, &mut self.batch);
        rest_after(rt, board, here, take);
        if let Err(halt) = run_batch(rt, run, &self.inputs, &mut self.batch, out, trace, gate) {
            return Err(halt);
        }
        Ok(is_all_done(take))
    }

    /// Takes rows out of the intake and runs them, until all sources have finished and all is taken; the sources here hand rows in
    /// before each take. Where something ends it sooner, the intake is closed, and the threads that wait at the board are told so.
    pub fn take_all<
        'a,
        S: Source,
        P: IntakeSeat,
        I: SharedIntake<P, Q>,
        R: Threads + Wait + Sync,
        K: Sink,
        T: Sink,
        G: Gate + Sync,
    >(
        &mut self,
        rt: &R,
        intake: &I,
        board: &Board,
        here: Vec<DeskWorker<'a, S, P, I, R>>,
        run: &mut Run,
        out: &mut K,
        trace: &mut T,
        gate: &G,
    ) -> (Vec<DeskWorker<'a, S, P, I, R>>, Result<(), Halt>)
        requires ready { IsReady self.old (I.id intake.now) (keeping run.old) }
        requires run { HasRunTaken self.old (place (keeping run.old) (K.state out.old) (T.state trace.old)) }
        ensures halts { (first : Place) → HasRun first self.old.seat.taken (place (keeping run.old) (K.state out.old) (T.state trace.old)) → AreOfSources self.old.inputs.count self.old.seat.taken
            → Halts result.1 self.old.inputs.count first self.new.seat.taken (place (keeping run.new) (K.state out.new) (T.state trace.new)) }
        ensures done { OnOk result.1 (self.new.seat.done ≡ true) }
        ensures marked { IsLegalFrom (opening_time self.old.seat.start) self.new.seat.taken }
        ensures seat { IsSameTaker self.old.seat self.new.seat }
        ensures here { AllZip WentOn here.entry.items result.0.items }
        ensures room { vec_capacity result.0 ≡ vec_capacity here.entry }
        ensures plan { (keeping run.new).state.plan ≡ (keeping run.old).state.plan }
    {
        let mut here = here;
        for _ in rt.forever() {
            turn_here(board, &mut here, gate);
            match self.take_once(rt, intake, board, &here, run, out, trace, gate) {
                Ok(false) => {}
                Ok(true) => return (here, Ok(())),
                Err(halt) => {
                    intake.close(rt, &mut self.seat);
                    board.stop();
                    return (here, Err(halt));
                }
            }
        }
        unreachable!()
    }

    /// Takes all seats back into the intake, which ends, and moves what is left there into an empty batch.
    pub fn end<P: IntakeSeat, I: SharedIntake<P, Q>, R: Wait>(
        self,
        rt: &R,
        intake: I,
        seats: Vec<P>,
        left: &mut Batch,
    )
        requires taker { self.seat.intake ≡ I.id intake }
        requires seats { AreSeatsOf (I.id intake) (map P.shows seats.items) }
        requires all { length seats.items ≡ self.seat.sources }
        requires empty { left.old ≡ [] }
        ensures { IsWhole self.seat (map P.shows seats.items) left.new }
    {
        intake.end(rt, self.seat, seats, left);
    }
}
