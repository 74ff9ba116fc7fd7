//! A run: marked rows are traced, accepted ones are run, and their verdicts put.
ghost use Rattle.std.specs.Prelude.{◌≡◌, ◌+◌, ◌<◌, ◌≤◌, [], IfOk, OnOk};
ghost use Rattle.lola_model.specs.Acceptance.{IsAccepted};
ghost use Rattle.lola_model.specs.Trace.{IsTraceable, trace_line};
ghost use Rattle.lola_port.specs.States.{SinkState};
ghost use Rattle.lola_engine.specs.Behind.{StandsBehind};
ghost use Rattle.lola_engine.specs.Engines.{IsEngine, IsOptionInTime};
ghost use Rattle.lola_instances.specs.Stores.{bounded_remembers, bounded_seen};
ghost use Rattle.lola_monitor_run.specs.Running.{HasRoom, IsGoing, IsNext, IsRowFor, IsSetAs, Puts, RunsAccepted, StopsAt, Writes, keeping, setting_at, setting_in};
ghost use Rattle.lola_monitor_run.specs.Behind.{Closes, Enters, HasTaken, HasTakenNone, IsBehind, Takes};

use crate::putting::{put_entry, put_text};
use crate::run_law::numbers_are_in_range;
use crate::stop::Stop;
use lola_engine::end::{Counts, EngineEnd};
use lola_engine::engine::Engine;
use lola_instances::law::accepted_is_storable;
use lola_instances::store::BoundedStore;
use lola_model::journal::{Entry, Mark, Row, Show};
use lola_model::plan::Plan;
use lola_port::{Gate, Sink};
use lola_value::text::{Memory, Text};
use std::alloc::Global;
use std::hash::RandomState;
use std::thread::Threads;

/// What is kept from row to row: the engine, how many rows were accepted and how many late, and the room for lines.
#[derive(Drop)]
pub struct Run {
    alloc: Global,
    engine: Engine<BoundedStore>,
    accepted: u64,
    late: u64,
    line: Text,
    lines: Text,
}

// Puts the lines before a fault, and tells how the run stops at an engine's end. The fault has come first, so a put that fails is
// told beside it.
fn stop_at<K: Sink>(end: EngineEnd, lines: &[u8], out: &mut K) -> Stop
    ensures { StopsAt end result lines.now (K.state out.old) (K.state out.new) }
{
    match end {
        EngineEnd::Fault { stream, kind, time } => match put_text(lines, out) {
            Ok(()) => Stop::Fault { stream, kind, time },
            Err(Stop::Memory) => Stop::Memory,
            Err(_) => Stop::CutFault { stream, kind, time },
        },
        EngineEnd::Memory => Stop::Memory,
    }
}

// An engine for a plan, with a store of its own.
fn new_engine(
    alloc: Global,
    hasher: RandomState,
    plan: Plan,
    start: Option<u64>,
    show: Show,
    workers: u32,
) -> Result<Engine<BoundedStore>, Memory>
    requires accepted { IsAccepted plan }
    requires workers { (1 ≤ workers) × (workers ≤ 64) }
    requires start { IsOptionInTime start }
    ensures engine { IfOk result (λ engine. IsEngine engine.state (bounded_seen engine.store)) }
    ensures setting { IfOk result (λ engine. setting_at engine.state ≡ record { plan = plan; start = start; show = show }) }
    ensures behind { IfOk result (λ engine. StandsBehind engine.state (bounded_seen engine.store) (bounded_remembers engine.store) [] []) }
{
    accepted_is_storable(&plan);
    let store = BoundedStore::create(alloc, hasher, &plan)?;
    Engine::create(alloc, hasher, plan, store, start, show, workers)
}

impl Run {
    /// A run of a plan that has taken no row. Texts and instances are looked up under the keys of `hasher`, so that nobody who does not
    /// know them can choose rows whose texts or parameters collide. The keys change nothing that is written.
    pub fn create(
        alloc: Global,
        hasher: RandomState,
        plan: Plan,
        start: Option<u64>,
        show: Show,
        workers: u32,
    ) -> Result<Run, Memory>
        requires accepted { IsAccepted plan }
        requires workers { (1 ≤ workers) × (workers ≤ 64) }
        requires start { IsOptionInTime start }
        ensures setting { IfOk result (λ run. setting_in (keeping run) ≡ record { plan = plan; start = start; show = show }) }
        ensures none { IfOk result (λ run. HasTakenNone (keeping run)) }
        ensures behind { IfOk result (λ run. IsBehind [] [] (keeping run)) }
    {
        let engine = new_engine(alloc, hasher, plan, start, show, workers)?;
        let run = Run::resume(alloc, engine)?;
        Ok(run)
    }

    /// A run over an engine that goes on, as one that was made from a saved state. Rows are counted anew, and whatever journal the engine
    /// stands for, the run stands for it.
    pub fn resume(alloc: Global, engine: Engine<BoundedStore>) -> Result<Run, Memory>
        ensures { IfOk result (λ run. keeping run ≡ record { state = engine.state; store = engine.store; accepted = 0; late = 0 }) }
    {
        let line = Text::from_bytes(alloc, b"")?;
        let lines = Text::from_bytes(alloc, b"")?;
        Ok(Run {
            alloc,
            engine,
            accepted: 0,
            late: 0,
            line,
            lines,
        })
    }

    /// Puts the line of an entry to the trace. An entry that the run takes is one that a line can tell.
    pub fn trace<T: Sink>(&mut self, entry: &Entry, trace: &mut T) -> Result<(), Stop>
        ensures puts { Puts result (trace_line entry.now) (T.state trace.old) (T.state trace.new) }
        ensures told { IsGoing (keeping self.old) → IsRowFor (keeping self.old).state.plan entry.now.row → IsNext (keeping self.old) entry.now → IsTraceable (keeping self.old).state.plan entry.now }
        ensures kept { keeping self.new ≡ keeping self.old }
    {
        numbers_are_in_range(entry);
        put_entry(self.alloc, entry, &mut self.line, trace)
    }

    // Runs an accepted row and puts its lines.
    fn accept<R: Threads + Sync, K: Sink, G: Gate + Sync>(
        &mut self,
        rt: &R,
        row: &Row,
        out: &mut K,
        gate: &G,
    ) -> Result<(), Stop>
        requires going { IsGoing (keeping self.old) }
        requires fits { IsRowFor self.old.engine.state.plan row.now }
        requires order { self.old.engine.state.merged ≤ row.now.stamp }
        requires room { HasRoom (keeping self.old) }
        ensures runs { RunsAccepted result row.now (keeping self.old) (keeping self.new) (K.state out.old) (K.state out.new) }
        ensures setting { IsSetAs (keeping self.old) (keeping self.new) }
        ensures steps_before { (keeping self.new).state.behind ≡ (keeping self.old).state.behind }
    {
        self.lines.clear();
        if let Err(end) = self.engine.accept(rt, gate, row, &mut self.lines) {
            return Err(stop_at(end, self.lines.as_bytes(), out));
        }
        self.accepted += 1;
        put_text(self.lines.as_bytes(), out)
    }

    /// Runs an entry, whatever journal the run stands for, and whatever front of it other runs had taken. A late one is counted.
    pub fn take<R: Threads + Sync, K: Sink, G: Gate + Sync>(
        &mut self,
        rt: &R,
        entry: &Entry,
        out: &mut K,
        gate: &G,
    ) -> Result<(), Stop>
        requires going { IsGoing (keeping self.old) }
        requires fits { IsRowFor self.old.engine.state.plan entry.now.row }
        requires room { HasRoom (keeping self.old) }
        requires mark { IsNext (keeping self.old) entry.now }
        ensures takes { Takes result entry.now (keeping self.old) (keeping self.new) (K.state out.old) (K.state out.new) }
        ensures writes { (trace : SinkState) → Writes result (K.state out.old) (K.state out.new) trace trace }
        ensures taken { OnOk result (HasTaken entry.now (keeping self.old) (keeping self.new)) }
        ensures setting { IsSetAs (keeping self.old) (keeping self.new) }
        ensures steps_before { (keeping self.new).state.behind ≡ (keeping self.old).state.behind }
    {
        match entry.mark {
            Mark::Accepted => self.accept(rt, &entry.row, out, gate),
            Mark::Late(_) => {
                self.late += 1;
                Ok(())
            }
        }
    }

    /// Traces an entry, and runs it once its line was put.
    pub fn enter<R: Threads + Sync, K: Sink, T: Sink, G: Gate + Sync>(
        &mut self,
        rt: &R,
        entry: &Entry,
        out: &mut K,
        trace: &mut T,
        gate: &G,
    ) -> Result<(), Stop>
        requires going { IsGoing (keeping self.old) }
        requires fits { IsRowFor (keeping self.old).state.plan entry.now.row }
        requires room { HasRoom (keeping self.old) }
        requires mark { IsNext (keeping self.old) entry.now }
        ensures enters { Enters result entry.now (keeping self.old) (keeping self.new) (K.state out.old) (K.state out.new) (T.state trace.old) (T.state trace.new) }
        ensures writes { Writes result (K.state out.old) (K.state out.new) (T.state trace.old) (T.state trace.new) }
        ensures taken { OnOk result (HasTaken entry.now (keeping self.old) (keeping self.new)) }
        ensures setting { IsSetAs (keeping self.old) (keeping self.new) }
        ensures steps_before { (keeping self.new).state.behind ≡ (keeping self.old).state.behind }
    {
        if let Err(stop) = self.trace(entry, trace) {
            return Err(stop);
        }
        self.take(rt, entry, out, gate)
    }

    /// Runs the deadlines at the last accepted stamp and puts their lines, once no more rows come.
    pub fn finish<R: Threads + Sync, K: Sink, G: Gate + Sync>(
        &mut self,
        rt: &R,
        out: &mut K,
        gate: &G,
    ) -> Result<(), Stop>
        requires going { IsGoing (keeping self.old) }
        ensures closes { Closes result (keeping self.old) (keeping self.new) (K.state out.old) (K.state out.new) }
        ensures writes { (trace : SinkState) → Writes result (K.state out.old) (K.state out.new) trace trace }
        ensures plan { self.new.engine.state.plan ≡ self.old.engine.state.plan }
    {
        self.lines.clear();
        if let Err(end) = self.engine.finish(rt, gate, &mut self.lines) {
            return Err(stop_at(end, self.lines.as_bytes(), out));
        }
        put_text(self.lines.as_bytes(), out)
    }

    /// The engine that it runs, whose state can be saved.
    pub fn engine(&self) -> &Engine<BoundedStore>
        ensures state { result.now.state ≡ (keeping self.now).state }
        ensures store { result.now.store ≡ (keeping self.now).store }
    {
        &self.engine
    }

    /// The plan that it runs.
    pub fn plan(&self) -> &Plan
        ensures { result.now ≡ (keeping self.now).state.plan }
    {
        self.engine.plan()
    }

    /// How many rows were accepted.
    pub fn accepted(&self) -> u64
        ensures { result ≡ (keeping self.now).accepted }
    {
        self.accepted
    }

    /// How many rows were late.
    pub fn late(&self) -> u64
        ensures { result ≡ (keeping self.now).late }
    {
        self.late
    }

    /// How many steps were run, and lines made of them.
    pub fn counts(&self) -> Counts
        ensures steps { result.steps ≡ (keeping self.now).state.steps }
        ensures lines { result.lines ≡ (keeping self.now).state.lines }
    {
        self.engine.counts()
    }
}
