//! How far an engine has come, and an engine that goes on from there.

ghost use Rattle.std.specs.Prelude.{◌≡◌, ◌≤◌, ◌^◌, ℕ, List, Option, None, Some, IfOk, nat_eq, if◌then◌else◌};
ghost use Rattle.std.specs.Option.{option_map};
ghost use Rattle.lola_value.specs.Naming.{text_at};
ghost use Rattle.lola_model.specs.Acceptance.{IsAccepted};
ghost use Rattle.lola_model.specs.Journal.{opening_time};
ghost use Rattle.lola_model.specs.declared.journal.Entry.{Entry};
ghost use Rattle.lola_step_contents.specs.Ready.{HasTexts};
ghost use Rattle.lola_engine.specs.Behind.{StandsBehind};
ghost use Rattle.lola_engine.specs.Engines.{IsEngine, IsOptionInTime};
ghost use Rattle.lola_engine.specs.Resuming.{HasReached, IsLeftAt, IsRestored, going_on, merge_start, times_of};

use crate::engine::{Engine, EngineState, new_state};
use crate::times::RunTimes;
use lola_model::journal::Show;
use lola_model::plan::Plan;
use lola_text::TextTable;
use lola_text::store::TextStore;
use lola_value::text::Memory;
use lola_value::value::TextId;
use std::alloc::Global;

/// Takes a state that has run nothing to where others had come: deadlines before the last row are passed, those at its stamp are still
/// to come, and that row is counted.
fn go_on(state: &mut EngineState, times: RunTimes)
    requires fresh { state.old.clock.start ≡ None }
    requires start { IsOptionInTime times.start }
    requires last { IsOptionInTime times.last }
    ensures { state.new ≡ going_on times.start times.last times.steps state.old }
{
    state.behind = times.steps;
    let Some(start) = times.start else {
        return;
    };
    state.clock.start_at(start);
    state.merged = start;
    let Some(last) = times.last else {
        return;
    };
    state.clock.advance(last.saturating_sub(1));
    state.rows = 1;
    state.merged = last;
}

/// The stamp of the last row, if there is one among those that were counted.
fn last_of(rows: u64, merged: u64) -> Option<u64>
    ensures { result ≡ if nat_eq rows 0 then None else Some merged }
{
    if rows == 0 { None } else { Some(merged) }
}

impl<S: TextStore + Sync> Engine<S> {
    /// An engine that goes on where others left off: over a store that was brought to what they had come to, and a table with the texts
    /// that it holds and with those of the plan's literals under their numbers. It stands for whatever journal they had run. The start
    /// that they had, given or not, counts as given. Steps and lines are counted anew.
    pub fn resume(
        alloc: Global,
        plan: Plan,
        store: S,
        texts: TextTable,
        times: RunTimes,
        show: Show,
        workers: u32,
    ) -> Result<Engine<S>, Memory>
        requires accepted { IsAccepted plan }
        requires store { IsRestored plan times (S.seen store) }
        requires literals { HasTexts texts.held plan.spec.texts }
        requires texts { texts.given ≤ 2 ^ 62 }
        requires workers { (1 ≤ workers) × (workers ≤ 64) }
        ensures engine { IfOk result (λ engine. IsEngine engine.state (S.seen engine.store)) }
        ensures plan { IfOk result (λ engine. engine.state.plan ≡ plan) }
        ensures store { IfOk result (λ engine. engine.store ≡ store) }
        ensures texts { IfOk result (λ engine. engine.state.texts ≡ texts) }
        ensures given_start { IfOk result (λ engine. engine.state.given_start ≡ times.start) }
        ensures show { IfOk result (λ engine. engine.state.show ≡ show) }
        ensures counts { IfOk result (λ engine. (engine.state.steps ≡ 0) × (engine.state.lines ≡ 0)) }
        ensures times { IfOk result (λ engine. times_of engine.state ≡ times) }
        ensures rows { IfOk result (λ engine. engine.state.rows ≤ 1) }
        ensures merged { IfOk result (λ engine. engine.state.merged ≡ opening_time (merge_start times)) }
        ensures stands { IfOk result (λ engine. (given_start : Option ℕ) (journal : List Entry) → IsLeftAt plan texts.held (S.remembers store) (S.seen store) times given_start journal
            → StandsBehind engine.state (S.seen engine.store) (S.remembers engine.store) journal journal) }
    {
        let mut state = new_state(alloc, plan, texts, times.start, show, workers)?;
        go_on(&mut state, times);
        Ok(Engine {
            store,
            state,
            inputs: Vec::new(alloc),
        })
    }

    /// How far it has come, with those that ran before it.
    pub fn times(&self) -> RunTimes
        requires { IsEngine self.now.state (S.seen self.now.store) }
        ensures value { result ≡ times_of self.now.state }
        ensures reached { (before journal : List Entry) → StandsBehind self.now.state (S.seen self.now.store) (S.remembers self.now.store) before journal
            → HasReached self.now.state.plan self.now.state.given_start journal result }
    {
        RunTimes {
            start: self.state.clock.start(),
            last: last_of(self.state.rows, self.state.merged),
            steps: self.state.behind + self.state.steps,
        }
    }

    /// The text with a number, if it is held.
    pub fn text(&self, id: TextId) -> Option<&[u8]>
        ensures { option_map (λ text. text.now) result ≡ text_at self.now.state.texts.held id.0 }
    {
        self.state.texts.get(id)
    }
}
