//! An engine that goes on from a saved state.

ghost use Rattle.std.specs.Prelude.{◌≡◌, ◌≤◌, true, IfOk, OnOk, MatchResult};
ghost use Rattle.std.specs.List.{list_all};
ghost use Rattle.std.specs.Str.{is_utf8};
ghost use Rattle.lola_model.specs.Acceptance.{IsAccepted};
ghost use Rattle.lola_save_text.specs.Forms.{forms_of};
ghost use Rattle.lola_save_text.specs.Validity.{IsSaved};
ghost use Rattle.lola_save_read.specs.Ends.{IsReadEnd};
ghost use Rattle.lola_save.specs.Loaded.{HasMore, HasRoom};
ghost use Rattle.lola_save.specs.Opening.{GoesOnFrom, IsGoingOn, IsLoadedFrom, IsStoreOf, StandsForJournalsOf, times_in};

use crate::loaded_instances::load_streams;
use lola_engine::engine::{Engine, literal_texts};
use lola_engine::times::RunTimes;
use lola_instances::law::{accepted_is_storable, resumed_is_there};
use lola_instances::store::BoundedStore;
use lola_model::journal::Show;
use lola_model::plan::Plan;
use lola_save_read::read::{ReadEnd, read_state};
use lola_save_text::forms::{StreamForm, stream_forms};
use lola_save_text::journal_law::state_of_journal_is_saved;
use lola_save_text::law::one_state;
use lola_save_text::restored::{content_is_of_journal, first_state_has_no_values, restored_stands};
use lola_save_text::state::SavedState;
use lola_text::TextTable;
use lola_value::text::Memory;
use std::alloc::Global;
use std::hash::RandomState;

// What was saved of instances is restored in a store that goes on. Where no row was accepted there is nothing.
fn load_lives(
    store: &mut BoundedStore,
    texts: &mut TextTable,
    plan: &Plan,
    forms: &[StreamForm],
    state: &SavedState,
) -> Result<(), Memory>
    requires room { HasRoom texts.old }
    requires accepted { IsAccepted plan.now }
    requires forms { forms.now ≡ forms_of plan.now }
    requires saved { IsSaved (forms_of plan.now) state.now }
    requires new { IsGoingOn plan.now state.now store.old }
    ensures more { OnOk result (HasMore texts.old texts.new) }
    ensures store { OnOk result (IsStoreOf plan.now state.now texts.new.held store.new) }
{
    accepted_is_storable(plan);
    match state.last {
        None => Ok(()),
        Some(_) => {
            load_streams(store, texts, forms, state.streams.as_slice())?;
            Ok(())
        }
    }
}

// A store of a plan that goes on from a state.
fn store_of(
    alloc: Global,
    hasher: RandomState,
    plan: &Plan,
    state: &SavedState,
    texts: &mut TextTable,
) -> Result<BoundedStore, Memory>
    requires room { HasRoom texts.old }
    requires accepted { IsAccepted plan.now }
    requires saved { IsSaved (forms_of plan.now) state.now }
    ensures more { OnOk result (HasMore texts.old texts.new) }
    ensures store { IfOk result (IsStoreOf plan.now state.now texts.new.held) }
{
    accepted_is_storable(plan);
    let forms = stream_forms(alloc, plan)?;
    let mut store = BoundedStore::create(alloc, hasher, plan)?;
    store.resume_at(state.start, state.last, state.steps);
    load_lives(&mut store, texts, plan, forms.as_slice(), state)?;
    Ok(store)
}

// An engine that goes on from a state.
fn engine_of(
    alloc: Global,
    hasher: RandomState,
    plan: Plan,
    state: &SavedState,
    show: Show,
    workers: u32,
) -> Result<Engine<BoundedStore>, Memory>
    requires accepted { IsAccepted plan }
    requires texts { list_all is_utf8 plan.spec.texts ≡ true }
    requires saved { IsSaved (forms_of plan) state.now }
    requires workers { (1 ≤ workers) × (workers ≤ 64) }
    ensures on { IfOk result (λ engine. GoesOnFrom plan show (times_in state.now) engine.state engine.store) }
    ensures stands { IfOk result (λ engine. StandsForJournalsOf plan state.now engine.state engine.store) }
{
    resumed_is_there();
    content_is_of_journal(&plan);
    first_state_has_no_values(&plan);
    let mut texts = literal_texts(alloc, hasher, &plan)?;
    let store = store_of(alloc, hasher, &plan, state, &mut texts)?;
    restored_stands(&plan, &store);
    let times = RunTimes {
        start: state.start,
        last: state.last,
        steps: state.steps,
    };
    let engine = Engine::resume(alloc, plan, store, texts, times, show, workers)?;
    Ok(engine)
}

/// An engine that goes on from a saved state, whose text these bytes are. It stands behind whatever journal without a fault it was
/// that a run took and whose state was written so. The start of the state, given or not, counts as given; steps and lines are
/// counted anew. Instances and texts are looked up under the keys of `hasher`. The text literals of the plan have to be in UTF-8, which those
/// of a compiled text are.
///
/// Where the bytes are no state text of the plan, it tells whether they are of another specification, or at which line they are damaged;
/// `Memory` is want of memory alone.
pub fn load(
    alloc: Global,
    hasher: RandomState,
    spec: &[u8],
    plan: Plan,
    bytes: &[u8],
    show: Show,
    workers: u32,
) -> Result<Engine<BoundedStore>, ReadEnd>
    requires accepted { IsAccepted plan }
    requires texts { list_all is_utf8 plan.spec.texts ≡ true }
    requires workers { (1 ≤ workers) × (workers ≤ 64) }
    ensures { MatchResult result (λ engine. IsLoadedFrom spec.now plan bytes.now show engine.state engine.store) (λ e. IsReadEnd spec.now plan bytes.now e) }
{
    one_state(&plan);
    state_of_journal_is_saved(&plan);
    let state = match read_state(alloc, spec, &plan, bytes) {
        Ok(state) => state,
        Err(end) => return Err(end),
    };
    let engine = match engine_of(alloc, hasher, plan, &state, show, workers) {
        Ok(engine) => engine,
        Err(Memory) => return Err(ReadEnd::Memory),
    };
    Ok(engine)
}
