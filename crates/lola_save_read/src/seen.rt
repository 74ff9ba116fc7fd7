//! Whether there are instances with the same parameters.

ghost use Rattle.std.specs.Prelude.{◌≡◌, [], ◌∷◌, IfOk, OnOk, not};
ghost use Rattle.lola_value.specs.Arithmetic.{all_equal, bools_equal, bytes_equal, fields_equal};
ghost use Rattle.lola_save_text.specs.Fitting.{is_among};
ghost use Rattle.lola_save_text.specs.Lines.{values_text};
ghost use Rattle.lola_save_read.specs.Spelled.{AreSpelled};
ghost use Rattle.lola_save_read.specs.Turns.{seen_after};

use crate::spelled::Spelled;
use lola_save_text::state::SavedInstance;
use lola_value::text::{Field, Memory};

// Whether bytes are the same.
fn bytes_equal(a: &[u8], b: &[u8]) -> bool
    ensures { result ≡ bytes_equal a.now b.now }
{
    a == b
}

// Whether truth values are the same.
fn bools_equal(a: bool, b: bool) -> bool
    ensures { result ≡ bools_equal a b }
{
    if a { b } else { !b }
}

// Whether values are the same.
fn fields_equal(a: &Field, b: &Field) -> bool
    ensures { result ≡ fields_equal a.now b.now }
{
    match a {
        Field::Absent => matches!(b, Field::Absent),
        Field::Bool(x) => match b {
            Field::Bool(y) => bools_equal(*x, *y),
            _ => false,
        },
        Field::Int(x) => match b {
            Field::Int(y) => *x <= *y && *y <= *x,
            _ => false,
        },
        Field::Text(x) => match b {
            Field::Text(y) => bytes_equal(x.as_bytes(), y.as_bytes()),
            _ => false,
        },
    }
}

// Whether lists of values are the same.
fn all_equal(a: &[Field], b: &[Field]) -> bool
    ensures { result ≡ all_equal a.now b.now }
{
    match a {
        [] => b.is_empty(),
        [x, xs @ ..] => match b {
            [] => false,
            [y, ys @ ..] => fields_equal(x, y) && all_equal(xs, ys),
        },
    }
}

// Whether no instance has these parameters, of all instances that there are.
fn is_nowhere(params: &[Field], seen: &[SavedInstance]) -> bool
    ensures { result ≡ not (is_among params.now (seen_after [] seen.now)) }
{
    for instance in seen {
        if all_equal(params, instance.params.as_slice()) {
            return false;
        }
    }
    true
}

/// Whether no instance has these parameters, which are spelled by these words. Equal parameters are spelled in one way, so where the words
/// are new the parameters are, and no instance is looked at. Afterwards the words are among those that are spelled.
pub(crate) fn is_new(
    params: &[Field],
    words: &[u8],
    seen: &[SavedInstance],
    spelled: &mut Spelled,
) -> Result<bool, Memory>
    requires spelling { words.now ≡ values_text params.now }
    requires others { AreSpelled spelled.old (seen_after [] seen.now) }
    ensures answer { IfOk result (λ fresh. fresh ≡ not (is_among params.now (seen_after [] seen.now))) }
    ensures noted { OnOk result (AreSpelled spelled.new (params.now ∷ seen_after [] seen.now)) }
{
    let fresh = spelled.put(words)?;
    if fresh {
        return Ok(true);
    }
    Ok(is_nowhere(params, seen))
}
