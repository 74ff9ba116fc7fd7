//! Fields of a state as values, with texts by their numbers in a table.

ghost use Rattle.std.specs.Prelude.{◌≡◌, ◌≤◌, ◌^◌, true, List, Some, IfOk, OnOk, length};
ghost use Rattle.lola_value.specs.declared.value.Kind.{Kind};
ghost use Rattle.lola_value.specs.Kinds.{is_well_formed};
ghost use Rattle.lola_value.specs.Naming.{text_at};
ghost use Rattle.lola_save_text.specs.Fitting.{are_values, is_value};
ghost use Rattle.lola_save.specs.Loaded.{AreNamed, HasMore, HasRoom, IsNamed};

use lola_text::TextTable;
use lola_value::text::{Field, Memory};
use lola_value::value::{Params, TextId, Value};

// So many numbers of texts can be given. No memory has room for as many texts.
const MOST_TEXTS: u64 = 2305843009213693952;

// The number of a text.
fn id_of(bytes: &[u8], texts: &mut TextTable) -> Result<TextId, Memory>
    requires { HasRoom texts.old }
    ensures there { IfOk result (λ id. text_at texts.new.held id.0 ≡ Some bytes.now) }
    ensures more { OnOk result (HasMore texts.old texts.new) }
{
    let id = texts.intern(bytes)?;
    if id.0 >= MOST_TEXTS {
        return Err(Memory);
    }
    Ok(id)
}

/// A field as a value, of each kind of which it has one.
pub(crate) fn value_of(field: &Field, texts: &mut TextTable) -> Result<Value, Memory>
    requires { HasRoom texts.old }
    ensures value { IfOk result (λ v. (k : Kind) → is_value k field.now ≡ true → IsNamed texts.new.held k field.now v) }
    ensures more { OnOk result (HasMore texts.old texts.new) }
{
    match field {
        // No kind has it.
        Field::Absent => Ok(Value::Bool(false)),
        Field::Bool(b) => Ok(Value::Bool(*b)),
        Field::Int(z) => Ok(Value::Int(*z)),
        Field::Text(text) => {
            let id = id_of(text.as_bytes(), texts)?;
            Ok(Value::Text(id))
        }
    }
}

/// Fields as parameters.
pub(crate) fn params_of(fields: &[Field], texts: &mut TextTable) -> Result<Params, Memory>
    requires room { HasRoom texts.old }
    requires few { length fields.now ≤ 4 }
    ensures params { IfOk result (λ p. (ks : List Kind) → are_values ks fields.now ≡ true → AreNamed texts.new.held ks fields.now p) }
    ensures formed { IfOk result (λ p. is_well_formed p ≡ true) }
    ensures more { OnOk result (HasMore texts.old texts.new) }
{
    let mut params = Params::none();
    let mut left = fields.len();
    while left > 0 {
        left -= 1;
        let value = value_of(&fields[left], texts)?;
        params = params.led_by(value);
    }
    Ok(params)
}
