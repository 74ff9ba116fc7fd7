//! The last line of a call, put to a sink.
ghost use Rattle.std.specs.Prelude.{◌≡◌, ◌<◌, IfOk};
ghost use Rattle.lola_report.specs.Ends.{end_text};
ghost use Rattle.lola_replay.specs.ReplayEnds.{replay_end_text};
ghost use Rattle.lola_save.specs.StateEnds.{state_end_text};
ghost use Rattle.lola_monitor.specs.Conclusions.{Concluded, status_found, status_replayed, status_replayed_without, status_stated, status_with, status_without};

use crate::call_end::CallEnd;
use lola_port::{PutEnd, Sink};
use lola_replay::end::{ReplayEnd, replay_end_line};
use lola_replay::finding::Finding;
use lola_report::end::{EndLine, end_line};
use lola_save::end::{StateEnd, state_end_line};
use lola_value::text::{Memory, Text};
use std::alloc::Global;

// The text of a last line.
fn line_text(alloc: Global, line: &EndLine) -> Result<Text, Memory>
    ensures { IfOk result (λ text. text ≡ end_text line.now) }
{
    let mut text = Text::from_bytes(alloc, b"")?;
    end_line(line, &mut text)?;
    Ok(text)
}

// The status that goes with a last line.
fn status_of(line: &EndLine) -> u8
    ensures { result ≡ status_with line.now }
{
    match line {
        EndLine::Done { .. } | EndLine::Analysed { .. } => 0,
        EndLine::Usage => 2,
        EndLine::Refused(_) => 3,
        EndLine::Malformed { .. } => 4,
        EndLine::Fault { .. } => 5,
        EndLine::UnreadableSpecification | EndLine::UnreadableSource(_) => 6,
    }
}

// The status where the last line was not put whole.
fn status_without_line(line: &EndLine) -> u8
    ensures { result ≡ status_without line.now }
{
    match line {
        EndLine::Done { .. } | EndLine::Malformed { .. } | EndLine::Analysed { .. } => 7,
        _ => status_of(line),
    }
}

// Puts a report with its last line, and answers the status.
fn put_report<K: Sink>(text: &Text, out: &mut K) -> u8
    ensures { Concluded result (CallEnd.Report text.now) (K.state out.old) (K.state out.new) }
{
    let bytes = text.as_bytes();
    if bytes.is_empty() {
        return 0;
    }
    match out.put(bytes) {
        Ok(()) => 0,
        Err(PutEnd::Failed) => 7,
        Err(PutEnd::Memory) => 8,
    }
}

// The text of the last line of a replay.
fn replay_text(alloc: Global, end: ReplayEnd) -> Result<Text, Memory>
    ensures { IfOk result (λ text. text ≡ replay_end_text end) }
{
    let mut text = Text::from_bytes(alloc, b"")?;
    replay_end_line(end, &mut text)?;
    Ok(text)
}

// The status that goes with what was found of a trace and verdicts.
fn status_found(finding: Finding) -> u8
    ensures { result ≡ status_found finding }
{
    match finding {
        Finding::Same { .. } => 0,
        Finding::TraceDiffers(_) | Finding::VerdictsDiffer(_) => 1,
    }
}

// The status that goes with the last line of a replay.
fn status_replayed(end: ReplayEnd) -> u8
    ensures { result ≡ status_replayed end }
{
    match end {
        ReplayEnd::Found(finding) => status_found(finding),
        ReplayEnd::UnreadableTrace | ReplayEnd::UnreadableVerdicts => 6,
    }
}

// The status where that line was not put whole.
fn status_replayed_without(end: ReplayEnd) -> u8
    ensures { result ≡ status_replayed_without end }
{
    match end {
        ReplayEnd::Found(Finding::Same { .. }) => 7,
        _ => status_replayed(end),
    }
}

// Puts the last line of a replay, and answers the status.
fn put_replay<K: Sink>(alloc: Global, end: ReplayEnd, out: &mut K) -> u8
    ensures { Concluded result (CallEnd.Replayed end) (K.state out.old) (K.state out.new) }
{
    let Ok(text) = replay_text(alloc, end) else {
        return 8;
    };
    let bytes = text.as_bytes();
    match out.put(bytes) {
        Ok(()) => status_replayed(end),
        Err(PutEnd::Failed) => status_replayed_without(end),
        Err(PutEnd::Memory) => 8,
    }
}

// The text of the last line of a state.
fn stated_text(alloc: Global, end: StateEnd) -> Result<Text, Memory>
    ensures { IfOk result (λ text. text ≡ state_end_text end) }
{
    let mut text = Text::from_bytes(alloc, b"")?;
    state_end_line(end, &mut text)?;
    Ok(text)
}

// The status that goes with the last line of a state, whether or not it was put whole.
fn status_stated(end: StateEnd) -> u8
    ensures { result ≡ status_stated end }
{
    match end {
        StateEnd::Unreadable => 6,
        StateEnd::Damaged(_) | StateEnd::OtherSpecification | StateEnd::TooManySteps => 9,
    }
}

// Puts the last line of a state, and answers the status.
fn put_stated<K: Sink>(alloc: Global, end: StateEnd, out: &mut K) -> u8
    ensures { Concluded result (CallEnd.Stated end) (K.state out.old) (K.state out.new) }
{
    let Ok(text) = stated_text(alloc, end) else {
        return 8;
    };
    let bytes = text.as_bytes();
    match out.put(bytes) {
        Ok(()) | Err(PutEnd::Failed) => status_stated(end),
        Err(PutEnd::Memory) => 8,
    }
}

/// Puts the last line of a call, or its report, and answers its status.
pub fn conclude<K: Sink>(alloc: Global, outcome: CallEnd, out: &mut K) -> u8
    ensures { Concluded result outcome (K.state out.old) (K.state out.new) }
{
    let line = match outcome {
        CallEnd::Line(line) | CallEnd::Drilled(line) => line,
        CallEnd::Report(text) => return put_report(&text, out),
        CallEnd::Replayed(end) => return put_replay(alloc, end, out),
        CallEnd::Stated(end) => return put_stated(alloc, end, out),
        CallEnd::CutFault => return 5,
        CallEnd::Put => return 7,
        CallEnd::Memory => return 8,
    };
    let Ok(text) = line_text(alloc, &line) else {
        return 8;
    };
    match out.put(text.as_bytes()) {
        Ok(()) => status_of(&line),
        Err(PutEnd::Failed) => status_without_line(&line),
        Err(PutEnd::Memory) => 8,
    }
}
