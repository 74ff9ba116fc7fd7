//! Values to the end of a line.

ghost use Rattle.std.specs.Prelude.{◌≡◌, ◌≢◌, ◌≤◌, List, true, IfOk, MatchOption, length};
ghost use Rattle.std.specs.List.{list_all};
ghost use Rattle.lola_value.specs.declared.text.Field.{Field};
ghost use Rattle.lola_save_text.specs.Fitting.{are_values, is_value};
ghost use Rattle.lola_save_text.specs.Lines.{values_text};
ghost use Rattle.lola_save_read.specs.Words.{AreValuesOf, IsWordEnd};

use crate::cuts::is_nothing;
use crate::value::next_value;
use lola_value::text::{Fields, Memory, Text};
use lola_value::value::Kind;
use std::alloc::Global;

/// The values of a kind that are spelled so, each behind a space, at most so many.
pub(crate) fn ring_values(
    alloc: Global,
    kind: Kind,
    most: u32,
    bytes: &[u8],
    room: &mut Text,
) -> Result<Option<Fields>, Memory>
    requires { IsWordEnd bytes.now }
    ensures { IfOk result (λ read. MatchOption read ((vs : List Field) → AreValuesOf kind most vs → bytes.now ≢ values_text vs) (λ vs. AreValuesOf kind most vs × (bytes.now ≡ values_text vs))) }
{
    let mut values = Fields::create(alloc);
    let mut left = bytes;
    for _turn in 0..most {
        if is_nothing(left) {
            return Ok(Some(values));
        }
        match next_value(alloc, kind, left, room)? {
            None => return Ok(None),
            Some((value, rest)) => {
                values.push(value)?;
                left = rest;
            }
        }
    }
    if is_nothing(left) {
        Ok(Some(values))
    } else {
        Ok(None)
    }
}

/// The values of these kinds that are spelled so, each behind a space.
pub(crate) fn values_of_kinds(
    alloc: Global,
    kinds: &[Kind],
    bytes: &[u8],
    room: &mut Text,
) -> Result<Option<Fields>, Memory>
    requires { IsWordEnd bytes.now }
    ensures { IfOk result (λ read. MatchOption read ((vs : List Field) → are_values kinds.now vs ≡ true → bytes.now ≢ values_text vs) (λ vs. (are_values kinds.now vs ≡ true) × (bytes.now ≡ values_text vs))) }
{
    let mut values = Fields::create(alloc);
    let mut left = bytes;
    for kind in kinds {
        match next_value(alloc, *kind, left, room)? {
            None => return Ok(None),
            Some((value, rest)) => {
                values.push(value)?;
                left = rest;
            }
        }
    }
    if is_nothing(left) {
        Ok(Some(values))
    } else {
        Ok(None)
    }
}
