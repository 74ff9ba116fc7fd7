//! The state of a run, and its text.

ghost use Rattle.std.specs.Prelude.{◌≡◌, ◌++◌, List, IfOk, OnOk, OnErr};
ghost use Rattle.lola_value.specs.Appending.{AppendsPart};
ghost use Rattle.lola_model.specs.declared.journal.Entry.{Entry};
ghost use Rattle.lola_engine.specs.Behind.{StandsBehind};
ghost use Rattle.lola_engine.specs.Engines.{IsEngine};
ghost use Rattle.lola_instances.specs.Stores.{bounded_remembers, bounded_seen};
ghost use Rattle.lola_save_text.specs.Forms.{forms_of};
ghost use Rattle.lola_save_text.specs.Lines.{state_text};
ghost use Rattle.lola_save_text.specs.JournalStates.{state_of};

use crate::instances::streams_of;
use crate::write::write_state;
use lola_engine::engine::Engine;
use lola_instances::law::accepted_is_storable;
use lola_instances::store::BoundedStore;
use lola_save_text::forms::{StreamForm, stream_forms};
use lola_save_text::state::SavedState;
use lola_value::text::{Memory, Text};
use std::alloc::Global;

// The state of whatever journal an engine stands for, where the forms are those of its plan.
fn state_with(
    alloc: Global,
    engine: &Engine<BoundedStore>,
    forms: &[StreamForm],
) -> Result<SavedState, Memory>
    requires engine { IsEngine engine.now.state (bounded_seen engine.now.store) }
    requires forms { forms.now ≡ forms_of engine.now.state.plan }
    ensures { IfOk result (λ state. (before journal : List Entry)
        → StandsBehind engine.now.state (bounded_seen engine.now.store) (bounded_remembers engine.now.store) before journal
        → state ≡ state_of engine.now.state.plan engine.now.state.given_start journal) }
{
    accepted_is_storable(engine.plan());
    let times = engine.times();
    let streams = streams_of(alloc, engine, engine.store(), forms)?;
    Ok(SavedState {
        start: times.start,
        last: times.last,
        steps: times.steps,
        streams,
    })
}

/// The state that an engine has come to: that of whatever journal it stands for.
pub fn engine_state(alloc: Global, engine: &Engine<BoundedStore>) -> Result<SavedState, Memory>
    requires { IsEngine engine.now.state (bounded_seen engine.now.store) }
    ensures { IfOk result (λ state. (before journal : List Entry)
        → StandsBehind engine.now.state (bounded_seen engine.now.store) (bounded_remembers engine.now.store) before journal
        → state ≡ state_of engine.now.state.plan engine.now.state.given_start journal) }
{
    let forms = stream_forms(alloc, engine.plan())?;
    let state = state_with(alloc, engine, forms.as_slice())?;
    Ok(state)
}

/// Appends the text of that state, for the specification that the engine's plan was compiled from. After `Memory` a front of the text
/// may stand behind what was there.
pub fn save(
    alloc: Global,
    spec: &[u8],
    engine: &Engine<BoundedStore>,
    to: &mut Text,
) -> Result<(), Memory>
    requires { IsEngine engine.now.state (bounded_seen engine.now.store) }
    ensures ok { OnOk result ((before journal : List Entry)
        → StandsBehind engine.now.state (bounded_seen engine.now.store) (bounded_remembers engine.now.store) before journal
        → to.new ≡ to.old ++ state_text spec.now engine.now.state.plan (state_of engine.now.state.plan engine.now.state.given_start journal)) }
    ensures memory { OnErr result ((before journal : List Entry)
        → StandsBehind engine.now.state (bounded_seen engine.now.store) (bounded_remembers engine.now.store) before journal
        → AppendsPart to.old to.new (state_text spec.now engine.now.state.plan (state_of engine.now.state.plan engine.now.state.given_start journal))) }
{
    let forms = stream_forms(alloc, engine.plan())?;
    let state = state_with(alloc, engine, forms.as_slice())?;
    write_state(spec, forms.as_slice(), &state, to)
}
