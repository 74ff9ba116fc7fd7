//! The top call.
ghost use Rattle.std.specs.Prelude.{◌≡◌, None, Some, map, string_bytes};
ghost use Rattle.lola_port.specs.States.{SinkState};
ghost use Rattle.lola_monitor_command.specs.Bounds.{IsRunInBounds};
ghost use Rattle.lola_monitor_command.specs.Command.{command_of};
ghost use Rattle.lola_monitor.specs.Command.{IsWithoutState, Resumption, SnapshotNames, names_asked, resumption_of, snapshot_of};
ghost use Rattle.lola_monitor.specs.Monitor.{Asked, call, outside};
ghost use Rattle.lola_monitor.specs.Statuses.{Decided, Ended};
ghost use Rattle.lola_monitor.specs.Outcomes.{Works};
ghost use Rattle.lola_monitor.specs.AnyOutcomes.{WorksAny};
ghost use Rattle.lola_monitor.specs.Resumed.{DecidedResumed, EndedResumed};
ghost use Rattle.lola_monitor.specs.Snapshots.{DecidedSnapshot, EndedSnapshot};

use crate::analysing::analysis;
use crate::call_end::CallEnd;
use crate::drilling::drill;
use crate::planning::{read_plan, without_plan};
use crate::putting::conclude;
use crate::replaying::replay_texts;
use crate::resuming::resume;
use crate::saving::snapshot;
use crate::sources::run_sources;
use lola_monitor_command::command::{Command, ReplayCommand, RunCommand, read_command};
use lola_monitor_run::run::Run;
use lola_monitor_run::run_law::puts_add_up;
use lola_port::{Gate, Shelf, Sink};
use lola_replay::law::one_finding;
use lola_report::end::EndLine;
use lola_value::words::word_at;
use std::alloc::Global;
use std::hash::RandomState;
use std::sync::Wait;
use std::thread::Threads;

// All but the last line of a run that begins anew.
fn run<R: Threads + Wait + Sync, F: Shelf, K: Sink, T: Sink, G: Gate + Sync>(
    rt: &R,
    alloc: Global,
    hasher: RandomState,
    words: &[String],
    command: &RunCommand,
    shelf: &mut F,
    out: &mut K,
    trace: &mut T,
    gate: &G,
) -> CallEnd
    requires out { (F.state shelf.old).out ≡ 0 }
    requires is_run { command_of (map string_bytes words.now) ≡ Some (Command.Run command.now) }
    requires bounds { IsRunInBounds command.now }
    requires is_anew { command.now.state ≡ None }
    ensures works { Works result (map string_bytes words.now) (outside (F.state shelf.old) (K.state out.old) (T.state trace.old))
        (outside (F.state shelf.new) (K.state out.new) (T.state trace.new)) }
    ensures asked { Asked (names_asked (map string_bytes words.now)) (F.state shelf.old) (F.state shelf.new) }
{
    let plan = match read_plan(alloc, shelf, word_at(words, command.specification)) {
        Ok(plan) => plan,
        Err(end) => return without_plan(end),
    };
    let start = command.start;
    let Ok(run) = Run::create(alloc, hasher, plan, start, command.show, command.workers) else {
        return CallEnd::Memory;
    };
    run_sources(
        rt, alloc, run, start, words, command, shelf, out, trace, gate,
    )
}

// All but the last line of a run that begins anew or goes on from a state.
fn run_or_resume<R: Threads + Wait + Sync, F: Shelf, K: Sink, T: Sink, G: Gate + Sync>(
    rt: &R,
    alloc: Global,
    hasher: RandomState,
    words: &[String],
    command: &RunCommand,
    shelf: &mut F,
    out: &mut K,
    trace: &mut T,
    gate: &G,
) -> CallEnd
    requires out { (F.state shelf.old).out ≡ 0 }
    requires is_run { command_of (map string_bytes words.now) ≡ Some (Command.Run command.now) }
    requires bounds { IsRunInBounds command.now }
    ensures works { WorksAny result (map string_bytes words.now) (outside (F.state shelf.old) (K.state out.old) (T.state trace.old))
        (outside (F.state shelf.new) (K.state out.new) (T.state trace.new)) }
    ensures asked { Asked (names_asked (map string_bytes words.now)) (F.state shelf.old) (F.state shelf.new) }
{
    match command.state {
        Some(place) => resume(
            rt, alloc, hasher, words, command, place, shelf, out, trace, gate,
        ),
        None => run(rt, alloc, hasher, words, command, shelf, out, trace, gate),
    }
}

// All but the report of an analysis, which puts nothing to the trace.
fn analyse<F: Shelf>(
    alloc: Global,
    words: &[String],
    specification: usize,
    shelf: &mut F,
) -> CallEnd
    requires out { (F.state shelf.old).out ≡ 0 }
    requires is_analysis { command_of (map string_bytes words.now) ≡ Some (Command.Analyse specification) }
    ensures works { (out : SinkState) (trace : SinkState) → Works result (map string_bytes words.now) (outside (F.state shelf.old) out trace) (outside (F.state shelf.new) out trace) }
    ensures asked { Asked (names_asked (map string_bytes words.now)) (F.state shelf.old) (F.state shelf.new) }
{
    let plan = match read_plan(alloc, shelf, word_at(words, specification)) {
        Ok(plan) => plan,
        Err(end) => return without_plan(end),
    };
    match analysis(alloc, &plan) {
        Ok(text) => CallEnd::Report(text),
        Err(_) => CallEnd::Memory,
    }
}

// All but the last line of a replay, which puts nothing to the trace.
fn replay<F: Shelf>(
    alloc: Global,
    words: &[String],
    command: &ReplayCommand,
    shelf: &mut F,
) -> CallEnd
    requires out { (F.state shelf.old).out ≡ 0 }
    requires is_replay { command_of (map string_bytes words.now) ≡ Some (Command.Replay command.now) }
    ensures works { (out : SinkState) (trace : SinkState) → Works result (map string_bytes words.now) (outside (F.state shelf.old) out trace) (outside (F.state shelf.new) out trace) }
    ensures asked { Asked (names_asked (map string_bytes words.now)) (F.state shelf.old) (F.state shelf.new) }
{
    let plan = match read_plan(alloc, shelf, word_at(words, command.specification)) {
        Ok(plan) => plan,
        Err(end) => return without_plan(end),
    };
    replay_texts(alloc, &plan, words, command, shelf)
}

// All but the last line.
fn work<R: Threads + Wait + Sync, F: Shelf, K: Sink, T: Sink, G: Gate + Sync>(
    rt: &R,
    alloc: Global,
    hasher: RandomState,
    words: &[String],
    shelf: &mut F,
    out: &mut K,
    trace: &mut T,
    gate: &G,
) -> CallEnd
    requires { (F.state shelf.old).out ≡ 0 }
    ensures works { WorksAny result (map string_bytes words.now) (outside (F.state shelf.old) (K.state out.old) (T.state trace.old))
        (outside (F.state shelf.new) (K.state out.new) (T.state trace.new)) }
    ensures asked { Asked (names_asked (map string_bytes words.now)) (F.state shelf.old) (F.state shelf.new) }
{
    match read_command(alloc, words) {
        Ok(Some(Command::Run(command))) => {
            run_or_resume(rt, alloc, hasher, words, &command, shelf, out, trace, gate)
        }
        Ok(Some(Command::Snapshot(command))) => {
            snapshot(rt, alloc, hasher, words, &command, shelf, gate)
        }
        Ok(Some(Command::Analyse(specification))) => analyse(alloc, words, specification, shelf),
        Ok(Some(Command::Drill(command))) => drill(rt, alloc, hasher, &command, gate),
        Ok(Some(Command::Replay(command))) => replay(alloc, words, &command, shelf),
        Ok(None) => CallEnd::Line(EndLine::Usage),
        Err(_) => CallEnd::Memory,
    }
}

/// Does all that the program does, and answers its status.
///
/// For every specification that is accepted, the trace that is written holds the rows of all sources once, those of each source
/// in their order, each marked late exactly where it is stamped before the merged time, and the
/// verdicts that are written are those of the evaluation model of the accepted rows, up to its first
/// fault, at the same stream and step.
///
/// `words` are the words of a command line, as `lola_monitor_command` reads them. The specification, and then each source in the order of
/// the words, is fetched from `shelf`; all are given back. Verdicts and the end line are put to `out`, the trace to `trace`. An
/// analysis puts its report and end line to `out`, and nothing to `trace`. Where more than one worker is asked for, the instances
/// of a layer are evaluated by at most as many threads, started through `rt`, which call the gate; how many there are changes nothing
/// that is written. A drill runs two made-up sources in turns under a specification of its own; it asks the shelf for nothing, and
/// puts its end line to `out` and nothing else. A replay fetches the specification, a trace and verdicts, and puts its end line to
/// `out` and nothing to the trace: a second evaluator says whether the two are those of one run, and if not, which line differs
/// first.
///
/// A run with `--resume` fetches a saved state behind the specification, and goes on from there: its rows come behind those of the journal
/// whose state it is, its verdicts are what the whole journal has behind the verdicts that were settled then, and a row is late where it
/// is stamped before the last row of that journal. The counts of its end line are its own. A snapshot reads its sources in turns with one worker, and
/// puts the state that they come to in place of verdicts and trace; the deadlines at the last stamp are left to whoever goes on from it.
///
/// Texts and instances are looked up by hashes under the keys of `hasher`: where nobody who writes the sources knows the keys, nobody
/// can choose rows whose texts or parameters collide. The keys change nothing that is written.
///
/// A run has 1 to 64 sources, numbered from 0. With `--in-turns` they are read in turns: one row of source 0, one of source 1, and
/// so on, and then the next round, in which a source that has ended has no turn. Without it they are read by the calling thread and by
/// threads that are started through `rt`; the gate is called before each turn, and the rows may come in any order that keeps that of
/// each source. `--intake` then says what they are handed in at, the lock or the queue, and no promise depends on it.
/// A source that ends at a malformed line, or whose read fails, ends alone: the others are read to their ends.
///
/// | Status | What has come, and what was left |
/// |---|---|
/// | 0 | all rows of all sources were taken, and each source ends well: the trace has their lines, `out` their verdicts and the end line; or the specification was analysed, or the drill was run, or the trace and the verdicts are those of a run |
/// | 1 | the trace or the verdicts are not those of a run, and the first line that differs is told; whether or not its put fails |
/// | 2 | the words are no command: nothing is asked or traced |
/// | 3 | the specification was read, and is refused: nothing is traced |
/// | 4 | all rows of all sources were taken up to their malformed lines; the least source that has one is named. Trace, verdicts and end line were put |
/// | 5 | a row, a deadline before it, or the deadline at the last stamp has a fault; whether or not what is put to `out` from then on fails |
/// | 6 | the specification was not given or read, or a state, or the trace or the verdicts of a replay, and nothing is traced; or a source was not given, and no row was taken; or it could not be read, and all rows of the other sources were taken. The least of them is named |
/// | 7 | a put failed, and no fault was met before: within a trace line, and `out` has the verdicts of all rows before it; or within the verdicts of the last row or of the deadlines at the last stamp, and the trace is whole; or within the end line of a run that is done or has a source with a malformed line, or of an analysis, a drill or a replay |
/// | 8 | there is no memory: nothing was put, or the trace has the lines of the rows that were taken, and `out` a front of their verdicts; no end line |
/// | 9 | the state that a run or a snapshot goes on from was read and is refused: it is damaged, or of another specification; nothing is traced. Or a snapshot has more steps than a state can have |
///
/// With 1, 2, 3, 5, 6 and 9 the put of the end line may fail: its status stays, and `out` has a part of it.
///
/// Of several the status tells the first of these: what stopped the run (5, 7 or 8), a source that could not be read (6), a
/// malformed line (4).
pub fn run_monitor<R: Threads + Wait + Sync, F: Shelf, K: Sink, T: Sink, G: Gate + Sync>(
    rt: &R,
    alloc: Global,
    hasher: RandomState,
    words: &[String],
    shelf: &mut F,
    out: &mut K,
    trace: &mut T,
    gate: &G,
) -> u8
    requires { (F.state shelf.old).out ≡ 0 }
    // The names asked for are the command's, in order; no other is. Each source is given back.
    ensures asked { Asked (names_asked (map string_bytes words.now)) (F.state shelf.old) (F.state shelf.new) }
    // What the call leaves, by its status: a line of this record for each line of the table above.
    ensures ended { IsWithoutState (map string_bytes words.now) → Ended result (call (map string_bytes words.now) (outside (F.state shelf.old) (K.state out.old) (T.state trace.old))
        (outside (F.state shelf.new) (K.state out.new) (T.state trace.new))) }
    // The same of a run that goes on from a saved state: whatever journal it was whose state was saved, it is as if it had never stopped.
    ensures resumed { (names : Resumption) → resumption_of (map string_bytes words.now) ≡ Some names
        → EndedResumed result names (call (map string_bytes words.now) (outside (F.state shelf.old) (K.state out.old) (T.state trace.old))
        (outside (F.state shelf.new) (K.state out.new) (T.state trace.new))) }
    // And of a snapshot: what is put is the state of the journal so far, or nothing but an end line.
    ensures snapshot { (names : SnapshotNames) → snapshot_of (map string_bytes words.now) ≡ Some names
        → EndedSnapshot result names (call (map string_bytes words.now) (outside (F.state shelf.old) (K.state out.old) (T.state trace.old))
        (outside (F.state shelf.new) (K.state out.new) (T.state trace.new))) }
    // Nothing but want of memory keeps a command from its answer.
    ensures decided { IsWithoutState (map string_bytes words.now) → Decided result (call (map string_bytes words.now) (outside (F.state shelf.old) (K.state out.old) (T.state trace.old))
        (outside (F.state shelf.new) (K.state out.new) (T.state trace.new))) }
    ensures decided_resumed { (names : Resumption) → resumption_of (map string_bytes words.now) ≡ Some names
        → DecidedResumed result names (call (map string_bytes words.now) (outside (F.state shelf.old) (K.state out.old) (T.state trace.old))
        (outside (F.state shelf.new) (K.state out.new) (T.state trace.new))) }
    ensures decided_snapshot { (names : SnapshotNames) → snapshot_of (map string_bytes words.now) ≡ Some names
        → DecidedSnapshot result names (call (map string_bytes words.now) (outside (F.state shelf.old) (K.state out.old) (T.state trace.old))
        (outside (F.state shelf.new) (K.state out.new) (T.state trace.new))) }
{
    puts_add_up();
    one_finding();
    let outcome = work(rt, alloc, hasher, words, shelf, out, trace, gate);
    conclude(alloc, outcome, out)
}
