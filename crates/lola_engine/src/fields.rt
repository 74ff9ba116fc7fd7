//! Rows and literals, with texts by their numbers.

ghost use Rattle.std.specs.Prelude.{◌≡◌, ◌+◌, ◌<◌, ◌≤◌, ◌^◌, [], ◌∷◌, ◌++◌, IsTrue, length, take, vec_len, IfOk, OnOk};
ghost use Rattle.std.specs.List.{AllZip};
ghost use Rattle.lola_model.specs.Named.{are_distinct};
ghost use Rattle.lola_model.specs.Reading.{IsHeldBy};
ghost use Rattle.lola_model.specs.Trace.{IsFieldOf, input_kinds};
ghost use Rattle.lola_step_contents.specs.Ready.{HasTexts};
ghost use Rattle.lola_step.specs.Moments.{ReadAs};
ghost use Rattle.lola_step.specs.Steps.{AreOfInputs};
ghost use Rattle.lola_text.specs.Texts.{IsTable, no_texts};
ghost use Rattle.lola_engine.specs.Read.{IsOutcomeOf, IsReadAt, numbered};
ghost use Rattle.lola_engine.specs.Sweeps.{AddsTexts};

use lola_model::plan::Plan;
use lola_text::TextTable;
use lola_value::text::{Field, Memory};
use lola_value::value::{Outcome, TextId, Value};

// The number of the text that stands at a place. Where none does, it is a number that no text has.
fn text_at_place(inputs: &[Outcome], place: usize) -> TextId {
    match inputs.get(place) {
        Some(Outcome::Value(Value::Text(id))) => *id,
        _ => TextId(u64::MAX),
    }
}

// Puts an outcome at a place: over the one that stands there, or behind all others.
fn put(inputs: &mut Vec<Outcome>, place: usize, outcome: Outcome) -> Result<(), Memory>
    requires { place ≤ vec_len inputs.old }
    ensures there { OnOk result (place + 1 ≤ vec_len inputs.new) }
    ensures ok { OnOk result (take (place + 1) inputs.new.items ≡ take place inputs.old.items ++ outcome ∷ []) }
{
    if place < inputs.len() {
        inputs[place] = outcome;
    } else {
        inputs.push(outcome)?;
    }
    Ok(())
}

/// A field as an input's outcome: missing where it is absent. A text is compared with the one of the number `before` first.
fn outcome_of(field: &Field, before: TextId, texts: &mut TextTable) -> Result<Outcome, Memory>
    requires table { IsTable texts.old }
    requires few { texts.old.given < 2 ^ 63 }
    ensures ok { IfOk result (λ o. IsOutcomeOf texts.new.held o field.now) }
    ensures table { IsTable texts.new }
    ensures held { IsHeldBy texts.old.held texts.new.held }
    ensures given { texts.new.given ≤ texts.old.given + 1 }
    ensures adds { OnOk result (AddsTexts (field.now ∷ []) texts.old.held texts.new.held) }
{
    match field {
        Field::Absent => Ok(Outcome::Missing),
        Field::Bool(b) => Ok(Outcome::Value(Value::Bool(*b))),
        Field::Int(z) => Ok(Outcome::Value(Value::Int(*z))),
        Field::Text(t) => {
            let id = texts.intern_again(t.as_bytes(), before)?;
            Ok(Outcome::Value(Value::Text(id)))
        }
    }
}

/// Reads a field as the outcome of the input at its place, over the outcome that stands there or behind all others. Of many inputs most
/// are absent in a row: such a field asks for no text.
fn read_field(
    field: &Field,
    place: usize,
    texts: &mut TextTable,
    inputs: &mut Vec<Outcome>,
) -> Result<(), Memory>
    requires place { place ≤ vec_len inputs.old }
    requires table { IsTable texts.old }
    requires few { texts.old.given < 2 ^ 63 }
    ensures there { OnOk result (place + 1 ≤ vec_len inputs.new) }
    ensures ok { OnOk result (IsReadAt texts.new.held field.now place inputs.old.items inputs.new.items) }
    ensures table { IsTable texts.new }
    ensures held { IsHeldBy texts.old.held texts.new.held }
    ensures given { texts.new.given ≤ texts.old.given + 1 }
    ensures adds { OnOk result (AddsTexts (field.now ∷ []) texts.old.held texts.new.held) }
{
    if let Field::Absent = field {
        return put(inputs, place, Outcome::Missing);
    }
    let before = text_at_place(inputs.as_slice(), place);
    let outcome = outcome_of(field, before, texts)?;
    put(inputs, place, outcome)
}

/// Reads the fields of a row as outcomes of the inputs, in place of those that stood in the list, which are best those of the row before:
/// a text that the same input had there is not hashed. Texts get numbers in the table; those that have one keep it, also where there is no
/// memory.
pub(crate) fn read_fields(
    plan: &Plan,
    fields: &[Field],
    texts: &mut TextTable,
    inputs: &mut Vec<Outcome>,
) -> Result<(), Memory>
    requires kinds { AllZip IsFieldOf (input_kinds plan.now.spec.streams) fields.now }
    requires few { texts.old.given + length fields.now < 2 ^ 63 }
    ensures ok { OnOk result (ReadAs texts.new.held inputs.new.items fields.now) }
    ensures kinds { OnOk result (AreOfInputs plan.now.spec.streams inputs.new.items) }
    ensures table { IsTable texts.new }
    ensures held { IsHeldBy texts.old.held texts.new.held }
    ensures given { texts.new.given ≤ texts.old.given + length fields.now }
    ensures adds { OnOk result (AddsTexts fields.now texts.old.held texts.new.held) }
{
    // A row may have no text to ask for: this call alone tells that the table is one.
    let _held = texts.len();
    for (place, field) in fields.iter().enumerate() {
        read_field(field, place, texts, inputs)?;
    }
    inputs.truncate(fields.len());
    Ok(())
}

/// Gives the texts of a specification's literals their numbers, each the number of its place.
pub(crate) fn name_literals(plan: &Plan, texts: &mut TextTable) -> Result<(), Memory>
    requires none { texts.old ≡ no_texts }
    requires distinct { IsTrue (are_distinct plan.now.spec.texts) }
    requires few { length plan.now.spec.texts ≤ 2 ^ 32 }
    ensures ok { OnOk result (HasTexts texts.new.held plan.now.spec.texts) }
    ensures exact { OnOk result (texts.new.held ≡ numbered 0 plan.now.spec.texts) }
    ensures table { IsTable texts.new }
    ensures given { texts.new.given ≤ length plan.now.spec.texts }
{
    for text in plan.spec.texts.as_slice() {
        texts.intern(text.as_bytes())?;
    }
    Ok(())
}
