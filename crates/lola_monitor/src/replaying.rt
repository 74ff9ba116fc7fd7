//! A replay: a trace and verdicts are read whole, and a second evaluator says what they are.
ghost use Rattle.std.specs.Prelude.{◌≡◌, ◌<◌, ◌^◌, length, map, string_bytes};
ghost use Rattle.lola_model.specs.Acceptance.{IsAccepted};
ghost use Rattle.lola_monitor.specs.Command.{replay_with};
ghost use Rattle.lola_monitor.specs.ReplayOutcomes.{Judges, ReplaysTexts};

use crate::call_end::CallEnd;
use crate::reading::read_text;
use lola_model::plan::Plan;
use lola_monitor_command::command::ReplayCommand;
use lola_port::{FetchEnd, Shelf};
use lola_replay::end::ReplayEnd;
use lola_replay::replay::replay;
use lola_value::words::word_at;
use std::alloc::Global;

// What a trace and verdicts are found to be, as a call ends with it.
fn end_of(
    alloc: Global,
    plan: &Plan,
    command: &ReplayCommand,
    trace: &[u8],
    verdicts: &[u8],
) -> CallEnd
    requires accepted { IsAccepted plan.now }
    requires few_entries { length trace.now < 2 ^ 63 }
    requires few_lines { length verdicts.now < 2 ^ 63 }
    ensures { Judges result (record { plan = plan.now; start = command.now.start; show = command.now.show; trace = trace.now; verdicts = verdicts.now }) }
{
    match replay(alloc, plan, command.start, command.show, trace, verdicts) {
        Ok(finding) => CallEnd::Replayed(ReplayEnd::Found(finding)),
        Err(_) => CallEnd::Memory,
    }
}

/// Reads the trace and the verdicts of a command, one after the other, and replays the run that they are said to be of.
pub fn replay_texts<F: Shelf>(
    alloc: Global,
    plan: &Plan,
    words: &[String],
    command: &ReplayCommand,
    shelf: &mut F,
) -> CallEnd
    requires out { (F.state shelf.old).out ≡ 0 }
    requires accepted { IsAccepted plan.now }
    ensures { ReplaysTexts result plan.now (replay_with (map string_bytes words.now) command.now) (F.state shelf.old) (F.state shelf.new) }
{
    let trace = match read_text(alloc, shelf, word_at(words, command.trace)) {
        Ok(trace) => trace,
        Err(FetchEnd::Failed) => return CallEnd::Replayed(ReplayEnd::UnreadableTrace),
        Err(FetchEnd::Memory) => return CallEnd::Memory,
    };
    let verdicts = match read_text(alloc, shelf, word_at(words, command.verdicts)) {
        Ok(verdicts) => verdicts,
        Err(FetchEnd::Failed) => return CallEnd::Replayed(ReplayEnd::UnreadableVerdicts),
        Err(FetchEnd::Memory) => return CallEnd::Memory,
    };
    end_of(alloc, plan, command, &trace, &verdicts)
}
