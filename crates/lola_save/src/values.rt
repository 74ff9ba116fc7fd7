//! The last values of an instance.

ghost use Rattle.std.specs.Prelude.{◌≡◌, ◌<◌, IfOk, length, map};
ghost use Rattle.lola_value.specs.Naming.{read};
ghost use Rattle.lola_model.specs.Store.{instances_seen};
ghost use Rattle.lola_instances.specs.Stores.{bounded_seen, values_kept};

use crate::fields::push_value;
use lola_engine::engine::Engine;
use lola_instances::store::BoundedStore;
use lola_model::store::StreamStore;
use lola_value::text::{Fields, Memory};
use std::alloc::Global;

/// The values that are kept of an instance, from the oldest on, with their texts.
pub(crate) fn ring_of(
    alloc: Global,
    engine: &Engine<BoundedStore>,
    store: &BoundedStore,
    stream: u32,
    index: u32,
) -> Result<Fields, Memory>
    requires { index < length (instances_seen (bounded_seen store.now) stream) }
    ensures { IfOk result (λ ring. ring ≡ map (read engine.now.state.texts.held) (values_kept store.now stream index)) }
{
    let mut ring = Fields::create(alloc);
    let mut left = store.kept(stream, index);
    while left > 0 {
        left -= 1;
        push_value(
            alloc,
            engine,
            store.value_back(stream, index, left),
            &mut ring,
        )?;
    }
    Ok(ring)
}
