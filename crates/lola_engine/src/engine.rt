//! The engine: deadlines before a row, the row, and the lines of each step.

ghost use Rattle.std.specs.Prelude.{◌≡◌, ◌+◌, ◌*◌, ◌<◌, ◌≤◌, ◌^◌, ◌++◌, ℕ, List, [], ◌∷◌, Contains, length, max, true, IsTrue, OnOk, IfOk, IfErr, IsSome, Some, None};
ghost use Rattle.std.specs.List.{AllZip};
ghost use Rattle.lola_value.specs.declared.text.Field.{Field};
ghost use Rattle.lola_value.specs.Naming.{Naming};
ghost use Rattle.lola_value.specs.Times.{latest};
ghost use Rattle.lola_model.specs.Acceptance.{IsAccepted};
ghost use Rattle.lola_model.specs.Content.{Content};
ghost use Rattle.lola_model.specs.Named.{are_distinct};
ghost use Rattle.lola_model.specs.NextStep.{earlier, has_local, is_local, next_settled};
ghost use Rattle.lola_model.specs.Pacings.{ArePacings};
ghost use Rattle.lola_model.specs.Runs.{content_after};
ghost use Rattle.lola_model.specs.Standing.{StandsBetween};
ghost use Rattle.lola_model.specs.Steps.{rate_of, rates_of};
ghost use Rattle.lola_model.specs.Store.{after_start, instances_seen, layout_of, new_seen, time_seen};
ghost use Rattle.lola_model.specs.Table.{Step};
ghost use Rattle.lola_model.specs.Trace.{IsFieldOf, input_kinds};
ghost use Rattle.lola_model.specs.declared.journal.Row.{Row};
ghost use Rattle.lola_step_contents.specs.Ready.{HasTexts};
ghost use Rattle.lola_text.specs.Texts.{IsTable};
ghost use Rattle.lola_step.specs.Moments.{ReadAs};
ghost use Rattle.lola_step.specs.Steps.{AreInputs, AreOfInputs, IsStepped, ReadFields};
ghost use Rattle.lola_engine.specs.Behind.{AcceptsBehind, FinishesBehind, StandsBehind};
ghost use Rattle.lola_engine.specs.Engines.{Accepts, AreStarted, Finishes, IsEngine, IsOptionInTime, IsSound, IsTakeable, StandsFor};
ghost use Rattle.lola_engine.specs.Going.{Goes, GoesBy, HasKept, HasPassed, HasStayed, HasTaken, IsBelow, IsMade, IsOpenAt, IsOpenBehind, tally_of};
ghost use Rattle.lola_engine.specs.Rates.{HaveDeadlinesOf};
ghost use Rattle.lola_engine.specs.Read.{numbered};
ghost use Rattle.lola_engine.specs.Rules.{TellsDue, deadlines_below, due_told};
ghost use Rattle.lola_engine.specs.Sweeps.{RenewsTexts, TakesTexts};
ghost use Rattle.lola_engine.specs.declared.end.EngineEnd.{EngineEnd};

use crate::end::{Counts, EngineEnd, TextCounts};
use crate::fields::{name_literals, read_fields};
use crate::lines::put_lines;
use crate::sweep::let_go;
use lola_clock::clock::Clock;
use lola_model::journal::{Row, Show};
use lola_model::pacing::{ClausePacings, Pacing};
use lola_model::plan::Plan;
use lola_model::store::StreamStore;
use lola_port::Gate;
use lola_step::end::StepEnd;
use lola_step::scratch::Scratch;
use lola_step::step::step;
use lola_step_contents::law::{local_due_stands, new_stands, renamed_stands};
use lola_text::TextTable;
use lola_text::ids::Ids;
use lola_text::law::kept_stands;
use lola_text::store::TextStore;
use lola_value::rate::Rate;
use lola_value::text::{Memory, Text};
use lola_value::value::Outcome;
use std::alloc::Global;
use std::hash::RandomState;
use std::thread::Threads;

/// All of an engine but its store: the plan, the start if one was given, what is shown, how many workers evaluate instances, the clock of
/// the deadlines that count from the start, whether others count from births, the texts, the list for those that are needed, how many the
/// newest sweep left, the notes of steps, and what was counted: the steps of engines that ran before, accepted rows with the last one
/// that they had, and the steps and lines of its own.
#[derive(Drop)]
pub struct EngineState {
    pub(crate) alloc: Global,
    pub(crate) plan: Plan,
    pub(crate) given_start: Option<u64>,
    pub(crate) show: Show,
    pub(crate) workers: u32,
    pub(crate) clock: Clock,
    pub(crate) local: bool,
    pub(crate) texts: TextTable,
    pub(crate) ids: Ids,
    pub(crate) swept: u64,
    pub(crate) scratch: Scratch,
    pub(crate) behind: u64,
    pub(crate) rows: u64,
    pub(crate) merged: u64,
    pub(crate) steps: u64,
    pub(crate) lines: u128,
    pub(crate) ended: Option<EngineEnd>,
}

/// An engine over a store, with the inputs of its row.
#[derive(Drop)]
pub struct Engine<S: StreamStore> {
    pub(crate) store: S,
    pub(crate) state: EngineState,
    pub(crate) inputs: Vec<Outcome>,
}

/// Whether a rate is one of these.
fn has_rate(rates: &[Rate], rate: &Rate) -> bool
    ensures { result ≡ true → Contains rates.now rate.now }
{
    for other in rates {
        if *other == *rate {
            return true;
        }
    }
    false
}

/// Appends a rate that is not there already.
fn add_missing(rate: &Rate, rates: &mut Vec<Rate>) -> Result<(), Memory>
    ensures { OnOk result (HaveDeadlinesOf (rates.old.items ++ rate.now ∷ []) rates.new.items) }
{
    if !has_rate(rates.as_slice(), rate) {
        rates.push(*rate)?;
    }
    Ok(())
}

/// Appends the rate of a pacing, if it has one that is not there already.
fn add_rate(pacing: &Option<Pacing>, rates: &mut Vec<Rate>) -> Result<(), Memory>
    ensures { OnOk result (HaveDeadlinesOf (rates.old.items ++ rate_of pacing.now) rates.new.items) }
{
    if let Some(Pacing::Periodic(rate)) = pacing {
        add_missing(rate, rates)?;
    }
    Ok(())
}

/// The rates of all periodic clauses, each once: a clock of these has the deadlines of all.
fn rates_in(alloc: Global, pacings: &[ClausePacings]) -> Result<Vec<Rate>, Memory>
    ensures { IfOk result (λ rates. HaveDeadlinesOf (rates_of pacings.now) rates.items) }
{
    let mut rates = Vec::new(alloc);
    for clauses in pacings {
        add_rate(&clauses.spawn, &mut rates)?;
        add_rate(&clauses.eval, &mut rates)?;
        add_rate(&clauses.close, &mut rates)?;
    }
    Ok(rates)
}

/// Whether a pacing counts from the birth of each instance.
fn is_of_birth(pacing: &Option<Pacing>) -> bool
    ensures { result ≡ is_local pacing.now }
{
    matches!(pacing, Some(Pacing::Local(_)))
}

/// Whether that of some clause does.
fn some_of_birth(pacings: &[ClausePacings]) -> bool
    ensures { result ≡ has_local pacings.now }
{
    match pacings.split_first() {
        Some((clauses, others)) => {
            is_of_birth(&clauses.spawn)
                || is_of_birth(&clauses.eval)
                || is_of_birth(&clauses.close)
                || some_of_birth(others)
        }
        None => false,
    }
}

/// A table with the texts of a plan's literals, each with the number of its place. Numbers of literals have 32 bits: a plan with more
/// texts is answered with `Memory`.
pub fn literal_texts(alloc: Global, hasher: RandomState, plan: &Plan) -> Result<TextTable, Memory>
    requires { IsTrue (are_distinct plan.now.spec.texts) }
    ensures texts { IfOk result (λ texts. HasTexts texts.held plan.now.spec.texts) }
    ensures exact { IfOk result (λ texts. texts.held ≡ numbered 0 plan.now.spec.texts) }
    ensures table { IfOk result IsTable }
    ensures few { IfOk result (λ texts. texts.given ≤ 2 ^ 32) }
{
    if plan.spec.texts.as_slice().len() > u32::MAX as usize {
        return Err(Memory);
    }
    let mut texts = TextTable::create(alloc, hasher);
    name_literals(plan, &mut texts)?;
    Ok(texts)
}

/// All of an engine but its store, before anything was run: over a table that has the texts of the plan's literals.
pub(crate) fn new_state(
    alloc: Global,
    plan: Plan,
    texts: TextTable,
    given_start: Option<u64>,
    show: Show,
    workers: u32,
) -> Result<EngineState, Memory>
    requires accepted { IsAccepted plan }
    requires literals { HasTexts texts.held plan.spec.texts }
    requires workers { (1 ≤ workers) × (workers ≤ 64) }
    ensures { IfOk result (IsMade plan texts given_start show workers) }
{
    let rates = rates_in(alloc, plan.pacings.as_slice())?;
    let clock = Clock::create(alloc, rates.as_slice())?;
    let local = some_of_birth(plan.pacings.as_slice());
    let scratch = Scratch::create(alloc, &plan)?;
    let swept = texts.len();
    Ok(EngineState {
        alloc,
        plan,
        given_start,
        show,
        workers,
        clock,
        local,
        texts,
        ids: Ids::create(alloc),
        swept,
        scratch,
        behind: 0,
        rows: 0,
        merged: 0,
        steps: 0,
        lines: 0,
        ended: None,
    })
}

/// Runs a step and appends its lines.
fn run_step<R: Threads + Sync, S: StreamStore + Sync, G: Gate + Sync>(
    rt: &R,
    gate: &G,
    store: &mut S,
    state: &mut EngineState,
    start: u64,
    time: u64,
    is_row: bool,
    inputs: &[Outcome],
    lines: &mut Text,
) -> Result<(), EngineEnd>
    requires sound { IsSound state.old (S.seen store.old) }
    requires start { state.old.clock.start ≡ Some start }
    requires order { time_seen (S.seen store.old) ≤ time }
    requires in_time { time ≤ latest }
    requires steps { (S.seen store.old).steps < 2 ^ 63 }
    requires inputs { AreInputs is_row state.old.plan.spec.streams inputs.now }
    ensures sound { OnOk result (IsSound state.new (S.seen store.new)) }
    ensures kept { HasKept state.old state.new }
    ensures clock { state.new.clock ≡ state.old.clock }
    ensures seen { OnOk result (IsStepped state.old.plan time (S.seen store.old) (S.seen store.new)) }
    ensures goes { (of : Step) → of.time ≡ time → ReadFields state.old.texts.held inputs.now is_row of.fields
        → Goes result start (of ∷ []) (tally_of state.old) (S.remembers store.old) (S.seen store.old)
        (tally_of state.new) (S.remembers store.new) (S.seen store.new) lines.old lines.new }
{
    match step(
        rt,
        gate,
        &state.plan,
        store,
        &mut state.scratch,
        start,
        time,
        is_row,
        inputs,
        state.show,
        state.workers,
    ) {
        StepEnd::Memory => return Err(EngineEnd::Memory),
        StepEnd::Fault { stream, kind } => return Err(EngineEnd::Fault { stream, kind, time }),
        StepEnd::Done => {}
    }
    match put_lines(
        state.alloc,
        &state.plan,
        state.show,
        time,
        state.scratch.values(),
        &state.texts,
        lines,
    ) {
        Ok(count) => {
            state.steps += 1;
            state.lines += count as u128;
        }
        Err(_) => return Err(EngineEnd::Memory),
    }
    gate.step_done(S::BOUNDED);
    Ok(())
}

/// The earlier of two moments, if they are there.
fn earlier_of(first: Option<u64>, second: Option<u64>) -> Option<u64>
    ensures { result ≡ earlier first second }
{
    match (first, second) {
        (Some(one), Some(other)) => Some(other.min(one)),
        (Some(one), None) => Some(one),
        (None, _) => second,
    }
}

/// The first deadline that is open, where deadlines are open from a moment on: that of the clock, or, where some clause is local, of an
/// instance that lives.
fn next_due<S: StreamStore>(store: &S, state: &EngineState, from: u64) -> Option<u64>
    requires paced { ArePacings state.now.plan.spec state.now.plan.pacings }
    requires layout { (S.seen store.now).layout ≡ layout_of state.now.plan }
    ensures value { result ≡ due_told state.now.local state.now.clock (S.seen store.now) from }
    ensures tells { TellsDue state.now.plan (S.remembers store.now) (S.seen store.now) }
{
    local_due_stands(&state.plan, store);
    let due = state.clock.next_due();
    if state.local {
        earlier_of(due, store.local_due(from))
    } else {
        due
    }
}

/// Passes the deadlines of a moment: those behind it are open.
fn pass(state: &mut EngineState, due: u64) -> u64
    requires started { IsSome state.old.clock.start }
    requires in_time { due ≤ latest }
    ensures from { result ≡ due + 1 }
    ensures state { state.new ≡ record state.old { clock = record state.old.clock { passed = max state.old.clock.passed due } } }
{
    state.clock.advance(due);
    due + 1
}

/// Runs the deadlines that are open from a moment on and lie below another.
fn run_deadlines<R: Threads + Sync, S: StreamStore + Sync, G: Gate + Sync>(
    rt: &R,
    gate: &G,
    store: &mut S,
    state: &mut EngineState,
    start: u64,
    from: u64,
    limit: u64,
    lines: &mut Text,
) -> Result<(), EngineEnd>
    requires below { IsBelow state.old (S.seen store.old) start from limit }
    requires in_time { limit ≤ latest }
    ensures passed { OnOk result (HasPassed state.new (S.seen store.new) start limit) }
    ensures kept { HasKept state.old state.new }
    ensures goes { GoesBy result start (IsOpenAt start from) (deadlines_below state.old.plan start limit) (tally_of state.old) (S.remembers store.old) (S.seen store.old)
        (tally_of state.new) (S.remembers store.new) (S.seen store.new) lines.old lines.new }
{
    let mut from = from;
    while let Some(due) = next_due(store, state, from) {
        if due >= limit {
            return Ok(());
        }
        match run_step(rt, gate, store, state, start, due, false, &[], lines) {
            Ok(()) => from = pass(state, due),
            Err(end) => return Err(end),
        }
    }
    Ok(())
}

/// Runs the deadlines before a row's stamp, where they are open from a moment on, and the row.
fn run_taken<R: Threads + Sync, S: StreamStore + Sync, G: Gate + Sync>(
    rt: &R,
    gate: &G,
    store: &mut S,
    state: &mut EngineState,
    start: u64,
    from: u64,
    stamp: u64,
    inputs: &[Outcome],
    lines: &mut Text,
) -> Result<(), EngineEnd>
    requires below { IsBelow state.old (S.seen store.old) start from stamp }
    requires in_time { stamp ≤ latest }
    requires inputs { AreOfInputs state.old.plan.spec.streams inputs.now }
    ensures taken { OnOk result (HasTaken state.old state.new (S.seen store.new) start stamp) }
    ensures kept { HasKept state.old state.new }
    ensures goes { (rows : List Row) (row : Row) → row.stamp ≡ stamp → ReadAs state.old.texts.held inputs.now row.fields
        → GoesBy result start (IsOpenBehind start from rows) (next_settled state.old.plan start (rows ++ row ∷ []))
        (tally_of state.old) (S.remembers store.old) (S.seen store.old)
        (tally_of state.new) (S.remembers store.new) (S.seen store.new) lines.old lines.new }
{
    match run_deadlines(rt, gate, store, state, start, from, stamp, lines) {
        Ok(()) => {}
        Err(end) => return Err(end),
    }
    state.clock.advance(stamp.saturating_sub(1));
    match run_step(rt, gate, store, state, start, stamp, true, inputs, lines) {
        Ok(()) => Ok(()),
        Err(end) => Err(end),
    }
}

/// Where time counts from: what it was, or this first stamp.
fn started<S: StreamStore>(plan: &Plan, store: &mut S, clock: &mut Clock, stamp: u64) -> u64
    requires together { AreStarted (S.seen store.old) clock.old.start }
    requires in_time { stamp ≤ latest }
    ensures going { (start : ℕ) → clock.old.start ≡ Some start → (result ≡ start) × (clock.new ≡ clock.old) × (store.new ≡ store.old) }
    ensures first { clock.old.start ≡ None → (result ≡ stamp) × (clock.new ≡ record clock.old { start = Some stamp; passed = stamp })
        × (S.seen store.new ≡ after_start (S.seen store.old) stamp) }
    ensures stands { clock.old.start ≡ None → S.seen store.old ≡ new_seen (layout_of plan.now)
        → ((names : Naming) (n i : ℕ) → i < length (instances_seen (S.seen store.old) n) → S.remembers store.old names n i [])
        → (names : Naming) → StandsBetween names (S.remembers store.new) (S.seen store.new) (content_after plan.now stamp []) }
{
    match clock.start() {
        Some(start) => start,
        None => {
            store.start_at(stamp);
            clock.start_at(stamp);
            new_stands(plan, store);
            stamp
        }
    }
}

/// Lets go of texts where too many are held, and reads the fields of a row, for a store that stands for as much through the table as it
/// is then.
fn read_row<S: TextStore>(
    plan: &Plan,
    store: &S,
    row: &Row,
    texts: &mut TextTable,
    ids: &mut Ids,
    left: &mut u64,
    inputs: &mut Vec<Outcome>,
) -> Result<(), Memory>
    requires kinds { AllZip IsFieldOf (input_kinds plan.now.spec.streams) row.now.fields }
    requires few { texts.old.given + length row.now.fields ≤ 2 ^ 62 + 2 ^ 53 }
    requires left { left.old ≤ 2 ^ 62 + 2 ^ 53 }
    requires literals { HasTexts texts.old.held plan.now.spec.texts }
    ensures ok { OnOk result (ReadAs texts.new.held inputs.new.items row.now.fields) }
    ensures kinds { OnOk result (AreOfInputs plan.now.spec.streams inputs.new.items) }
    ensures table { OnOk result (IsTable texts.new) }
    ensures literals { OnOk result (HasTexts texts.new.held plan.now.spec.texts) }
    ensures given { OnOk result (texts.new.given ≤ texts.old.given + length row.now.fields) }
    ensures takes { OnOk result (TakesTexts S.BOUNDED (S.holds store.now) plan.now.spec.texts row.now.fields texts.old left.old texts.new left.new) }
    ensures stands { OnOk result ((c : Content) → StandsBetween texts.old.held (S.remembers store.now) (S.seen store.now) c
        → StandsBetween texts.new.held (S.remembers store.now) (S.seen store.now) c) }
{
    kept_stands(store);
    renamed_stands(store);
    let_go(plan, store, texts, ids, left)?;
    read_fields(plan, row.fields.as_slice(), texts, inputs)?;
    Ok(())
}

/// Runs the deadlines before a row, and the row.
fn run_row<R: Threads + Sync, S: TextStore + Sync, G: Gate + Sync>(
    rt: &R,
    gate: &G,
    store: &mut S,
    state: &mut EngineState,
    inputs: &mut Vec<Outcome>,
    row: &Row,
    lines: &mut Text,
) -> Result<(), EngineEnd>
    requires engine { IsEngine state.old (S.seen store.old) }
    requires row { IsTakeable state.old row.now }
    ensures engine { OnOk result (IsEngine state.new (S.seen store.new)) }
    ensures kept { HasStayed state.old state.new }
    ensures merged { OnOk result (state.new.merged ≡ row.now.stamp) }
    ensures rows { OnOk result (state.new.rows ≡ state.old.rows + 1) }
    ensures texts { OnOk result (RenewsTexts S.BOUNDED (S.holds store.old) row.now.fields state.old state.new) }
    ensures few { OnOk result (IsTrue S.BOUNDED → length state.new.texts.held ≤ 2 * state.new.swept + 1024) }
    ensures accepts { Accepts result row.now state.old (S.seen store.old) (S.remembers store.old)
        state.new (S.seen store.new) (S.remembers store.new) lines.old lines.new
        × AcceptsBehind result row.now state.old (S.seen store.old) (S.remembers store.old)
        state.new (S.seen store.new) (S.remembers store.new) lines.old lines.new }
{
    if let Err(Memory) = read_row(
        &state.plan,
        store,
        row,
        &mut state.texts,
        &mut state.ids,
        &mut state.swept,
        inputs,
    ) {
        return Err(EngineEnd::Memory);
    }
    let start = started(&state.plan, store, &mut state.clock, row.stamp);
    let from = state.merged.max(start);
    match run_taken(
        rt,
        gate,
        store,
        state,
        start,
        from,
        row.stamp,
        inputs.as_slice(),
        lines,
    ) {
        Ok(()) => {
            state.rows += 1;
            state.merged = row.stamp;
            Ok(())
        }
        Err(end) => Err(end),
    }
}

/// Runs the deadlines at the last stamp, of which there is at most one moment.
fn run_last<R: Threads + Sync, S: StreamStore + Sync, G: Gate + Sync>(
    rt: &R,
    gate: &G,
    store: &mut S,
    state: &mut EngineState,
    lines: &mut Text,
) -> Result<(), EngineEnd>
    requires { IsEngine state.old (S.seen store.old) }
    ensures kept { HasKept state.old state.new }
    ensures finishes { Finishes result state.old (S.seen store.old) (S.remembers store.old) state.new lines.old lines.new
        × FinishesBehind result state.old (S.seen store.old) (S.remembers store.old) state.new lines.old lines.new }
{
    if state.rows == 0 {
        return Ok(());
    }
    let Some(start) = state.clock.start() else {
        return Ok(());
    };
    let Some(due) = next_due(store, state, state.merged) else {
        return Ok(());
    };
    if due > state.merged {
        return Ok(());
    }
    match run_step(rt, gate, store, state, start, due, false, &[], lines) {
        Ok(()) => Ok(()),
        Err(end) => Err(end),
    }
}

impl<S: TextStore + Sync> Engine<S> {
    /// An engine for a plan, over a new store of it, that has run nothing. Where a start is given, time counts from it; else from the
    /// first row's stamp. The texts of the plan's literals get their numbers. Texts are looked up under the keys of `hasher`, so that
    /// nobody who does not know them can choose texts that collide.
    pub fn create(
        alloc: Global,
        hasher: RandomState,
        plan: Plan,
        store: S,
        start: Option<u64>,
        show: Show,
        workers: u32,
    ) -> Result<Engine<S>, Memory>
        requires accepted { IsAccepted plan }
        requires new { S.seen store ≡ new_seen (layout_of plan) }
        requires past { (names : Naming) (n i : ℕ) → i < length (instances_seen (S.seen store) n) → S.remembers store names n i [] }
        requires workers { (1 ≤ workers) × (workers ≤ 64) }
        requires start { IsOptionInTime start }
        ensures engine { IfOk result (λ engine. IsEngine engine.state (S.seen engine.store)) }
        ensures plan { IfOk result (λ engine. engine.state.plan ≡ plan) }
        ensures given_start { IfOk result (λ engine. engine.state.given_start ≡ start) }
        ensures show { IfOk result (λ engine. engine.state.show ≡ show) }
        ensures counts { IfOk result (λ engine. (engine.state.steps ≡ 0) × (engine.state.lines ≡ 0)) }
        ensures literals { IfOk result (λ engine. engine.state.texts.held ≡ numbered 0 plan.spec.texts) }
        ensures swept { IfOk result (λ engine. engine.state.swept ≡ length engine.state.texts.held) }
        ensures stands { IfOk result (λ engine. StandsFor engine.state (S.seen engine.store) (S.remembers engine.store) []) }
        ensures behind { IfOk result (λ engine. StandsBehind engine.state (S.seen engine.store) (S.remembers engine.store) [] []) }
    {
        let texts = literal_texts(alloc, hasher, &plan)?;
        let state = new_state(alloc, plan, texts, start, show, workers)?;
        let mut engine = Engine {
            store,
            state,
            inputs: Vec::new(alloc),
        };
        match start {
            Some(start) => {
                let opened = &mut engine;
                started(
                    &opened.state.plan,
                    &mut opened.store,
                    &mut opened.state.clock,
                    start,
                );
                opened.state.merged = start;
                Ok(engine)
            }
            None => Ok(engine),
        }
    }

    /// Runs the deadlines before a row's stamp and then the row, and appends the lines of each step. A step with a fault has no line.
    /// Before the row is read, an engine over a store that keeps only what accesses need lets go of the texts that neither the store nor
    /// a literal needs, where many more are held than the newest sweep left.
    /// After `Memory` a front of the lines may be appended. After an error each later call answers the same and changes nothing.
    pub fn accept<R: Threads + Sync, G: Gate + Sync>(
        &mut self,
        rt: &R,
        gate: &G,
        row: &Row,
        lines: &mut Text,
    ) -> Result<(), EngineEnd>
        requires engine { self.old.state.ended ≡ None → IsEngine self.old.state (S.seen self.old.store) }
        requires row { self.old.state.ended ≡ None → IsTakeable self.old.state row.now }
        ensures engine { OnOk result (IsEngine self.new.state (S.seen self.new.store)) }
        ensures plan { self.new.state.plan ≡ self.old.state.plan }
        ensures given_start { self.new.state.given_start ≡ self.old.state.given_start }
        ensures show { self.new.state.show ≡ self.old.state.show }
        ensures steps_before { self.new.state.behind ≡ self.old.state.behind }
        ensures merged { OnOk result (self.new.state.merged ≡ row.now.stamp) }
        ensures rows { OnOk result (self.new.state.rows ≡ self.old.state.rows + 1) }
        ensures texts { OnOk result (RenewsTexts S.BOUNDED (S.holds self.old.store) row.now.fields self.old.state self.new.state) }
        ensures few { OnOk result (IsTrue S.BOUNDED → length self.new.state.texts.held ≤ 2 * self.new.state.swept + 1024) }
        ensures accepts { Accepts result row.now self.old.state (S.seen self.old.store) (S.remembers self.old.store)
            self.new.state (S.seen self.new.store) (S.remembers self.new.store) lines.old lines.new }
        ensures behind { AcceptsBehind result row.now self.old.state (S.seen self.old.store) (S.remembers self.old.store)
            self.new.state (S.seen self.new.store) (S.remembers self.new.store) lines.old lines.new }
        ensures ok { OnOk result ((self.old.state.ended ≡ None) × (self.new.state.ended ≡ None)) }
        ensures err { IfErr result (λ end. self.new.state.ended ≡ Some end) }
        ensures ended { (end : EngineEnd) → self.old.state.ended ≡ Some end → IfErr result (λ e. e ≡ end) × (self.new ≡ self.old) × (lines.new ≡ lines.old) }
    {
        if let Some(end) = self.state.ended {
            return Err(end);
        }
        match run_row(
            rt,
            gate,
            &mut self.store,
            &mut self.state,
            &mut self.inputs,
            row,
            lines,
        ) {
            Ok(()) => Ok(()),
            Err(end) => {
                self.state.ended = Some(end);
                Err(end)
            }
        }
    }

    /// Runs the deadlines at the last accepted stamp, once no more rows come, and appends their lines. Where no row was accepted there
    /// are none. After an error each later call answers the same and changes nothing; after `Ok` no other call may come.
    pub fn finish<R: Threads + Sync, G: Gate + Sync>(
        &mut self,
        rt: &R,
        gate: &G,
        lines: &mut Text,
    ) -> Result<(), EngineEnd>
        requires engine { self.old.state.ended ≡ None → IsEngine self.old.state (S.seen self.old.store) }
        ensures plan { self.new.state.plan ≡ self.old.state.plan }
        ensures finishes { Finishes result self.old.state (S.seen self.old.store) (S.remembers self.old.store) self.new.state lines.old lines.new }
        ensures behind { FinishesBehind result self.old.state (S.seen self.old.store) (S.remembers self.old.store) self.new.state lines.old lines.new }
        ensures ok { OnOk result (self.old.state.ended ≡ None) }
        ensures err { IfErr result (λ end. self.new.state.ended ≡ Some end) }
        ensures ended { (end : EngineEnd) → self.old.state.ended ≡ Some end → IfErr result (λ e. e ≡ end) × (self.new ≡ self.old) × (lines.new ≡ lines.old) }
    {
        if let Some(end) = self.state.ended {
            return Err(end);
        }
        match run_last(rt, gate, &mut self.store, &mut self.state, lines) {
            Ok(()) => Ok(()),
            Err(end) => {
                self.state.ended = Some(end);
                Err(end)
            }
        }
    }

    /// What it has counted. Steps and lines of engines that ran before it are left out.
    pub fn counts(&self) -> Counts
        ensures steps { result.steps ≡ self.now.state.steps }
        ensures lines { result.lines ≡ self.now.state.lines }
    {
        Counts {
            steps: self.state.steps,
            lines: self.state.lines,
        }
    }

    /// How many texts it holds, and how many the newest sweep left.
    pub fn text_counts(&self) -> TextCounts
        ensures held { result.held ≡ length self.now.state.texts.held }
        ensures swept { result.swept ≡ self.now.state.swept }
    {
        TextCounts {
            held: self.state.texts.len(),
            swept: self.state.swept,
        }
    }

    /// The plan that it was made with.
    pub fn plan(&self) -> &Plan
        ensures { result.now ≡ self.now.state.plan }
    {
        &self.state.plan
    }

    /// Its store.
    pub fn store(&self) -> &S
        ensures { result.now ≡ self.now.store }
    {
        &self.store
    }
}
