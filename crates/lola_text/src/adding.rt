//! The numbers of the texts among values, added to a list. Where there is no memory some of them may have been added.

ghost use Rattle.std.specs.Prelude.{◌≡◌, ◌++◌, OnOk};
ghost use Rattle.lola_value.specs.Naming.{the_values};
ghost use Rattle.lola_text.specs.Needed.{text_in, text_of_outcome, texts_in};

use crate::ids::Ids;
use lola_value::text::Memory;
use lola_value::value::{Outcome, Params, Value};

/// The number of a value's text, where it is one.
pub fn add_value(value: Value, into: &mut Ids) -> Result<(), Memory>
    ensures { OnOk result (into.new ≡ into.old ++ text_in value) }
{
    match value {
        Value::Bool(_) => Ok(()),
        Value::Int(_) => Ok(()),
        Value::Text(id) => into.push(id),
    }
}

/// The numbers of the texts among these values.
pub fn add_values(values: &[Value], into: &mut Ids) -> Result<(), Memory>
    ensures { OnOk result (into.new ≡ into.old ++ texts_in values.now) }
{
    for value in values {
        add_value(*value, into)?;
    }
    Ok(())
}

/// The numbers of the texts among parameters.
pub fn add_params(params: &Params, into: &mut Ids) -> Result<(), Memory>
    ensures { OnOk result (into.new ≡ into.old ++ texts_in (the_values params.now)) }
{
    let all = [params.at0, params.at1, params.at2, params.at3];
    if params.count < 4 {
        add_values(&all[..params.count as usize], into)
    } else {
        add_values(&all, into)
    }
}

/// The number of an outcome's text, where it is one.
pub fn add_outcome(outcome: Outcome, into: &mut Ids) -> Result<(), Memory>
    ensures { OnOk result (into.new ≡ into.old ++ text_of_outcome outcome) }
{
    match outcome {
        Outcome::Value(value) => add_value(value, into),
        Outcome::Missing => Ok(()),
        Outcome::Fault(_) => Ok(()),
        Outcome::Poison => Ok(()),
    }
}
