//! The threads of the sources that have one: each is started by a call that then goes on to the next source, and joined when that has come back.
ghost use Rattle.std.specs.Prelude.{◌≡◌, ◌+◌, ◌≤◌, ◌<◌, ◌++◌, ◌∷◌, [], IfErr, IfOk, List, OnOk, true, length, vec_capacity};
ghost use Rattle.std.specs.List.{AllZip};
ghost use Rattle.lola_model.specs.Journal.{IsLegalFrom, opening_time};
ghost use Rattle.lola_monitor_run.specs.Verdicts.{AreOfSources};
ghost use Rattle.lola_monitor_run.specs.Running.{keeping};
ghost use Rattle.lola_monitor_threads.specs.Joining.{HaveFlags};
ghost use Rattle.lola_monitor_threads.specs.Seated.{AreAt, Seated, WentOn};
ghost use Rattle.lola_monitor_threads.specs.Sending.{HasSent, MaySend};
ghost use Rattle.lola_monitor_threads.specs.Takings.{Halts, HasRun, HasRunTaken, IsReady, IsSameTaker, Place, place};

use crate::board::Board;
use crate::desk::DeskWorker;
use crate::halt::Halt;
use crate::here::is_here;
use crate::seated::SeatedWorker;
use crate::taking::Taker;
use lola_feed::intake::{IntakeSeat, IntakeTaker, SharedIntake, SourceIntake};
use lola_monitor_run::run::Run;
use lola_port::{Gate, Sink, Source};
use std::snapshot::Snapshot;
use std::sync::Wait;
use std::sync::atomic::{AtomicBool, Ordering};
use std::thread;
use std::thread::{Promise, PromisedHandle, Scope, Threads};

/// That a seated worker that comes back from a thread is the one that was sent there, and went on.
#[derive(Drop)]
pub struct ComesBack<S: Source, P: IntakeSeat>(Snapshot<SeatedWorker<S, P>>);

impl<S: Source, P: IntakeSeat> Promise<SeatedWorker<S, P>> for ComesBack<S, P> {
    ghost use Rattle.lola_monitor_threads.specs.Seated.{WentOn};

    ghost kept_by = { λ p r. WentOn p.0.value r };
}

/// What all threads of a run share: the intake, the gate, the board, and a flag for each source. A flag that is set says that no
/// thread could be started for its source.
#[derive(Drop)]
pub struct ThreadContext<'s, R, I, G> {
    pub rt: &'s R,
    pub intake: &'s I,
    pub gate: &'s G,
    pub board: &'s Board,
    pub flags: &'s [AtomicBool],
}

// The work of a source's thread: all turns of the source, or none where no thread could be started.
fn work<S: Source, P: IntakeSeat, I: SourceIntake<P>, R: Wait + Sync, G: Gate>(
    rt: &R,
    intake: &I,
    gate: &G,
    board: &Board,
    flag: &AtomicBool,
    seated: SeatedWorker<S, P>,
) -> SeatedWorker<S, P>
    requires { seated.seat.intake ≡ I.id intake.now }
    ensures { WentOn seated result }
{
    if flag.load(Ordering::SeqCst) {
        return seated;
    }
    seated.run(rt, intake, gate, board)
}

// Starts a thread for a seated worker. Where none is to be, or can be made, the seated worker comes back; in the second case the flag
// of its source is set, and no thread waits for that source.
fn start<
    's,
    E,
    S: Source + Send + 's,
    P: IntakeSeat + Send + 's,
    I: SourceIntake<P> + Sync + 's,
    R: Threads + Wait + Sync,
    G: Gate + Sync,
>(
    context: &ThreadContext<'s, R, I, G>,
    scope: &Scope<'s, E>,
    seated: SeatedWorker<S, P>,
) -> Result<PromisedHandle<SeatedWorker<S, P>, ComesBack<S, P>>, SeatedWorker<S, P>>
    requires intake { seated.seat.intake ≡ I.id context.now.intake.now }
    requires flag { seated.seat.source < length context.now.flags.now }
    ensures sent { IfOk result (λ handle. handle.promise.0.value ≡ seated) }
    ensures kept { IfErr result (λ kept. WentOn seated kept) }
{
    let ThreadContext {
        rt,
        intake,
        gate,
        board,
        flags,
    } = *context;
    let source = seated.source();
    if is_here(&seated, flags.len()) {
        if !seated.answers_at_once() {
            board.step_aside(source);
        }
        board.reads_here(source);
        return Err(seated);
    }
    let flag = &flags[source as usize];
    let promise = ComesBack(Snapshot::of(&seated));
    match scope.spawn_with(
        promise,
        move || -> SeatedWorker<S, P>
            requires { seated.seat.intake ≡ I.id intake.now }
            ensures { WentOn seated result }
        { work(rt, intake, gate, board, flag, seated) },
    ) {
        Ok(handle) => Ok(handle),
        Err(refused) => {
            flag.store(true, Ordering::SeqCst);
            board.step_aside(source);
            board.reads_here(source);
            let work = refused.value;
            Err(work())
        }
    }
}

// Moves the last of the workers here behind the seated workers that came back.
fn move_last<S: Source, P: IntakeSeat, I: SourceIntake<P>, R: Wait + Sync>(
    here: &mut Vec<DeskWorker<'_, S, P, I, R>>,
    back: &mut Vec<SeatedWorker<S, P>>,
)
    requires some { 0 < length here.old.items }
    requires room { length back.old.items < vec_capacity back.old }
    ensures moved { (last : Seated) × (here.old.items ≡ here.new.items ++ last ∷ []) × (back.new.items ≡ back.old.items ++ last ∷ []) }
    ensures room_here { vec_capacity here.new ≡ vec_capacity here.old }
    ensures room_back { vec_capacity back.new ≡ vec_capacity back.old }
{
    if let Some(worker) = here.pop() {
        back.push_reserved(worker.into_seated());
    }
}

// Starts a thread for each of the seated workers that wait, the last first, and takes rows until all is done or the run is
// stopped. One that gets no thread stays here meanwhile. All come back, in the order in which they waited.
fn send_each<
    's,
    E,
    S: Source + Send + 's,
    P: IntakeSeat + Send + 's,
    Q: IntakeTaker,
    I: SharedIntake<P, Q> + Sync + 's,
    R: Threads + Wait + Sync,
    K: Sink,
    T: Sink,
    G: Gate + Sync,
>(
    context: &ThreadContext<'s, R, I, G>,
    scope: &Scope<'s, E>,
    waiting: Vec<SeatedWorker<S, P>>,
    here: Vec<DeskWorker<'s, S, P, I, R>>,
    back: Vec<SeatedWorker<S, P>>,
    taker: &mut Taker<Q>,
    run: &mut Run,
    out: &mut K,
    trace: &mut T,
) -> (
    Vec<DeskWorker<'s, S, P, I, R>>,
    Vec<SeatedWorker<S, P>>,
    Result<(), Halt>,
)
    requires ready { IsReady taker.old (I.id context.now.intake.now) (keeping run.old) }
    requires waiting { AreAt (I.id context.now.intake.now) waiting.items }
    requires flags { HaveFlags (length context.now.flags.now) waiting.items }
    requires room_here { length waiting.items + length here.items ≤ vec_capacity here }
    requires room_back { length waiting.items + length back.items ≤ vec_capacity back }
    requires run { HasRunTaken taker.old (place (keeping run.old) (K.state out.old) (T.state trace.old)) }
    ensures halts { (first : Place) → HasRun first taker.old.seat.taken (place (keeping run.old) (K.state out.old) (T.state trace.old)) → AreOfSources taker.old.inputs.count taker.old.seat.taken
        → Halts result.2 taker.old.inputs.count first taker.new.seat.taken (place (keeping run.new) (K.state out.new) (T.state trace.new)) }
    ensures done { OnOk result.2 (taker.new.seat.done ≡ true) }
    ensures marked { IsLegalFrom (opening_time taker.old.seat.start) taker.new.seat.taken }
    ensures seat { IsSameTaker taker.old.seat taker.new.seat }
    ensures plan { (keeping run.new).state.plan ≡ (keeping run.old).state.plan }
    ensures here { AllZip WentOn here.entry.items result.0.items }
    ensures back { (sent : List Seated) × (result.1.items ≡ back.items ++ sent) × AllZip WentOn waiting.items sent }
    ensures room_here { vec_capacity result.0 ≡ vec_capacity here.entry }
    ensures room_back { vec_capacity result.1 ≡ vec_capacity back }
{
    let mut waiting = waiting;
    let Some(seated) = waiting.pop() else {
        let (here, halted) = taker.take_all(
            context.rt,
            context.intake,
            context.board,
            here,
            run,
            out,
            trace,
            context.gate,
        );
        return (here, back, halted);
    };
    match start(context, scope, seated) {
        Ok(handle) => {
            let (here, mut back, halted) = send_each(
                context, scope, waiting, here, back, taker, run, out, trace,
            );
            back.push_reserved(handle.join(context.rt));
            (here, back, halted)
        }
        Err(seated) => {
            let mut here = here;
            here.push_reserved(DeskWorker::create(context.rt, context.intake, seated));
            let (mut here, mut back, halted) = send_each(
                context, scope, waiting, here, back, taker, run, out, trace,
            );
            move_last(&mut here, &mut back);
            (here, back, halted)
        }
    }
}

// Does nothing: this use of what a call gave back ties it to what it was lent.
fn take_back<V>(_lent: &mut V)
    ensures { _lent.new ≡ _lent.old }
{}

/// Starts a thread for each of the seated workers that wait, but for those that the calling thread reads, the last first, takes rows, and reads
/// the other sources, until all is done or the run is stopped, and joins all threads. The seated workers come back in the order in which they waited.
pub fn send_all<
    's,
    S: Source + Send,
    P: IntakeSeat + Send,
    Q: IntakeTaker,
    I: SharedIntake<P, Q> + Sync,
    R: Threads + Wait + Sync,
    K: Sink,
    T: Sink,
    G: Gate + Sync,
>(
    rt: &'s R,
    intake: &'s I,
    gate: &'s G,
    board: &'s Board,
    flags: &'s [AtomicBool],
    waiting: Vec<SeatedWorker<S, P>>,
    here: Vec<DeskWorker<'s, S, P, I, R>>,
    back: Vec<SeatedWorker<S, P>>,
    taker: &mut Taker<Q>,
    run: &mut Run,
    out: &mut K,
    trace: &mut T,
) -> (Vec<SeatedWorker<S, P>>, Result<(), Halt>)
    requires { MaySend (I.id intake.now) (length flags.now) waiting.items here.items back.items (vec_capacity here) (vec_capacity back) taker.old (place (keeping run.old) (K.state out.old) (T.state trace.old)) }
    ensures { HasSent result.1 waiting.items result.0.items taker.old taker.new (place (keeping run.old) (K.state out.old) (T.state trace.old)) (place (keeping run.new) (K.state out.new) (T.state trace.new)) }
{
    let context = ThreadContext {
        rt,
        intake,
        gate,
        board,
        flags,
    };
    let (taker, run, out, trace, back, halted) = thread::scope(
        thread::scope_env(),
        rt,
        move |scope| -> (
            &mut Taker<Q>,
            &mut Run,
            &mut K,
            &mut T,
            Vec<SeatedWorker<S, P>>,
            Result<(), Halt>,
        )
            requires { MaySend (I.id context.intake.now) (length context.flags.now) waiting.items here.items back.items (vec_capacity here) (vec_capacity back) taker.now (place (keeping run.now) (K.state out.now) (T.state trace.now)) }
            ensures same_taker { result.0.ghost_name ≡ taker.entry.ghost_name }
            ensures same_run { result.1.ghost_name ≡ run.entry.ghost_name }
            ensures same_out { result.2.ghost_name ≡ out.entry.ghost_name }
            ensures same_trace { result.3.ghost_name ≡ trace.entry.ghost_name }
            ensures sent { HasSent result.5 waiting.items result.4.items taker.entry.now result.0.now (place (keeping run.entry.now) (K.state out.entry.now) (T.state trace.entry.now)) (place (keeping result.1.now) (K.state result.2.now) (T.state result.3.now)) }
        {
            let (_, back, halted) = send_each(
                &context, scope, waiting, here, back, taker, run, out, trace,
            );
            (taker, run, out, trace, back, halted)
        },
    );
    take_back(taker);
    take_back(run);
    take_back(out);
    take_back(trace);
    (back, halted)
}
