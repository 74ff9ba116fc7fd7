//! How the sources of a run ended together, and what a call ends with after it.
ghost use Rattle.std.specs.Prelude.{◌≡◌, ◌≤◌, IfOk, length, map};
ghost use Rattle.lola_monitor_run.specs.Running.{keeping};
ghost use Rattle.lola_monitor.specs.Monitor.{fault_line as fault_line_of, first_malformed};
ghost use Rattle.lola_monitor.specs.Outcomes.{OutcomeAfter, end_of as end_of_all, ends_of, first_failed, is_failed_read as is_failed_read_of, line_of, malformed_at as malformed_at_of, malformed_by, source_end};

use crate::call_end::CallEnd;
use lola_feed::worker::{SourceEnd, SourceWorker};
use lola_model::plan::Plan;
use lola_model::source::MalformedKind;
use lola_monitor_run::run::Run;
use lola_monitor_run::stop::Stop;
use lola_port::Source;
use lola_report::end::EndLine;
use lola_value::text::{Memory, Text};
use lola_value::value::FaultKind;
use std::alloc::Global;

/// How the sources of a run ended together. A failed read comes before a malformed line, and of several the least is named.
#[derive(Clone, Copy)]
pub enum SourcesEnd {
    /// Each source ended well.
    Whole,
    /// A read of the source of this number failed.
    ReadFailed(u32),
    /// The source of this number has a malformed line, the row of this number (the heading is row 0).
    Malformed {
        source: u32,
        row: u64,
        kind: MalformedKind,
    },
}

// Whether a read failed.
fn is_failed_read(end: Option<SourceEnd>) -> bool
    ensures { result ≡ is_failed_read_of end }
{
    matches!(end, Some(SourceEnd::ReadFailed))
}

// How sources ended together where this one has a malformed line.
fn malformed_at(source: u32, end: Option<SourceEnd>) -> Option<SourcesEnd>
    ensures { result ≡ malformed_at_of source (source_end end) }
{
    match end {
        Some(SourceEnd::Malformed { kind, row }) => {
            Some(SourcesEnd::Malformed { source, row, kind })
        }
        _ => None,
    }
}

// The least source whose read failed.
fn failed_in<S: Source>(workers: &[SourceWorker<S>]) -> Option<u32>
    requires { length workers.now ≤ 64 }
    ensures { result ≡ first_failed (ends_of workers.now) }
{
    for at in 0..workers.len() {
        if is_failed_read(workers[at].end()) {
            return Some(at as u32);
        }
    }
    None
}

// The least source with a malformed line, and where that stands.
fn malformed_in<S: Source>(workers: &[SourceWorker<S>]) -> SourcesEnd
    requires { length workers.now ≤ 64 }
    ensures { result ≡ malformed_by (first_malformed (map source_end (ends_of workers.now))) }
{
    for at in 0..workers.len() {
        if let Some(end) = malformed_at(at as u32, workers[at].end()) {
            return end;
        }
    }
    SourcesEnd::Whole
}

/// How sources ended together.
pub fn end_of<S: Source>(workers: &[SourceWorker<S>]) -> SourcesEnd
    requires { length workers.now ≤ 64 }
    ensures { result ≡ end_of_all (ends_of workers.now) }
{
    match failed_in(workers) {
        Some(at) => SourcesEnd::ReadFailed(at),
        None => malformed_in(workers),
    }
}

// The line of a fault.
fn fault_line(
    alloc: Global,
    plan: &Plan,
    stream: u32,
    kind: FaultKind,
    time: u64,
) -> Result<EndLine, Memory>
    ensures { IfOk result (λ line. line ≡ fault_line_of plan.now (record { stream = stream; kind = kind; time = time })) }
{
    let streams = plan.spec.streams.as_slice();
    let name = match streams.get(stream as usize) {
        Some(stream) => Text::from_bytes(alloc, stream.name.as_bytes())?,
        None => Text::from_bytes(alloc, b"")?,
    };
    Ok(EndLine::Fault { name, kind, time })
}

// The line of a run that no fault ended.
fn last_line(run: &Run, end: SourcesEnd) -> EndLine
    ensures { result ≡ line_of end (keeping run.now) }
{
    match end {
        SourcesEnd::ReadFailed(at) => EndLine::UnreadableSource(at),
        SourcesEnd::Malformed { source, row, kind } => EndLine::Malformed { source, row, kind },
        SourcesEnd::Whole => {
            let counts = run.counts();
            EndLine::Done {
                accepted: run.accepted(),
                late: run.late(),
                steps: counts.steps,
                lines: counts.lines,
            }
        }
    }
}

/// What a call ends with after a run. What stopped the run comes before how its sources ended.
pub fn call_end_after(
    alloc: Global,
    run: &Run,
    stopped: Result<(), Stop>,
    end: SourcesEnd,
) -> CallEnd
    ensures { OutcomeAfter stopped end (keeping run.now).state.plan (keeping run.now) result }
{
    match stopped {
        Ok(()) => CallEnd::Line(last_line(run, end)),
        Err(Stop::Fault { stream, kind, time }) => {
            match fault_line(alloc, run.plan(), stream, kind, time) {
                Ok(line) => CallEnd::Line(line),
                Err(_) => CallEnd::Memory,
            }
        }
        Err(Stop::CutFault { .. }) => CallEnd::CutFault,
        Err(Stop::Put) => CallEnd::Put,
        Err(Stop::Memory) => CallEnd::Memory,
    }
}
