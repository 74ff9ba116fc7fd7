//! Values as a state has them: with their texts.

ghost use Rattle.std.specs.Prelude.{◌≡◌, ◌≤◌, ◌++◌, IfOk, OnOk, map};
ghost use Rattle.lola_value.specs.Naming.{read, read_params, text_at, the_text};
ghost use Rattle.lola_save.specs.Taken.{value_in};

use lola_engine::engine::Engine;
use lola_instances::store::BoundedStore;
use lola_value::text::{Field, Fields, Memory, Text};
use lola_value::value::{Params, TextId, Value};
use std::alloc::Global;

// The text of a number; absent where the engine lacks it.
fn text_of(alloc: Global, engine: &Engine<BoundedStore>, id: TextId) -> Result<Field, Memory>
    ensures { IfOk result (λ field. field ≡ the_text (text_at engine.now.state.texts.held id.0)) }
{
    match engine.text(id) {
        Some(bytes) => {
            let text = Text::from_bytes(alloc, bytes)?;
            Ok(Field::Text(text))
        }
        None => Ok(Field::Absent),
    }
}

// A value with its text.
fn field_of(alloc: Global, engine: &Engine<BoundedStore>, value: Value) -> Result<Field, Memory>
    ensures { IfOk result (λ field. field ≡ read engine.now.state.texts.held value) }
{
    match value {
        Value::Bool(b) => Ok(Field::Bool(b)),
        Value::Int(z) => Ok(Field::Int(z)),
        Value::Text(id) => text_of(alloc, engine, id),
    }
}

/// Puts a value behind others, if there is one.
pub(crate) fn push_value(
    alloc: Global,
    engine: &Engine<BoundedStore>,
    value: Option<Value>,
    fields: &mut Fields,
) -> Result<(), Memory>
    ensures { OnOk result (fields.new ≡ fields.old ++ map (read engine.now.state.texts.held) (value_in value)) }
{
    if let Some(value) = value {
        let field = field_of(alloc, engine, value)?;
        fields.push(field)?;
    }
    Ok(())
}

/// Parameters with their texts.
pub(crate) fn fields_of(
    alloc: Global,
    engine: &Engine<BoundedStore>,
    params: &Params,
) -> Result<Fields, Memory>
    requires { params.now.count ≤ 4 }
    ensures { IfOk result (λ fields. fields ≡ read_params engine.now.state.texts.held params.now) }
{
    let mut fields = Fields::create(alloc);
    for i in 0..params.count as u32 {
        push_value(alloc, engine, params.get(i), &mut fields)?;
    }
    Ok(fields)
}
