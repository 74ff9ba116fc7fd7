//! Which streams are visited from a clause.

ghost use Rattle.std.specs.Prelude.{◌≡◌, ◌<◌, [], ◌∷◌, OnOk, length, Contains, ℕ};
ghost use Rattle.lola_model.specs.Leaves.{list_at};
ghost use Rattle.lola_pacing.specs.Flags.{IsBlank, Flags, FlagsVisited};

use crate::numbers::StreamNumbers;
use lola_value::text::Memory;

/// Flags a stream that is not the own one, and notes it if it had no flag.
fn flag_one(own: u32, stream: u32, flags: &mut [bool], noted: &mut Vec<u32>) -> Result<(), Memory>
    requires { stream < length flags.old }
    ensures { OnOk result (Flags own (stream ∷ []) flags.old noted.old.items flags.new noted.new.items) }
{
    if stream == own {
        return Ok(());
    }
    if flags[stream as usize] {
        return Ok(());
    }
    flags[stream as usize] = true;
    noted.push(stream)?;
    Ok(())
}

/// Flags streams, and notes those that had no flag.
fn flag(own: u32, streams: &[u32], flags: &mut [bool], noted: &mut Vec<u32>) -> Result<(), Memory>
    requires { (n : ℕ) → Contains streams.now n → n < length flags.old }
    ensures { OnOk result (Flags own streams.now flags.old noted.old.items flags.new noted.new.items) }
{
    for stream in streams {
        flag_one(own, *stream, flags, noted)?;
    }
    Ok(())
}

/// Flags the streams that are followed behind a stream, and notes those that had no flag.
fn flag_behind(
    lists: &[StreamNumbers],
    own: u32,
    stream: u32,
    flags: &mut [bool],
    noted: &mut Vec<u32>,
) -> Result<(), Memory>
    requires stream { stream < length lists.now }
    requires within { (n : ℕ) → Contains (list_at lists.now stream) n → n < length flags.old }
    ensures { OnOk result (Flags own (list_at lists.now stream) flags.old noted.old.items flags.new noted.new.items) }
{
    flag(own, lists[stream as usize].as_slice(), flags, noted)
}

/// Flags all streams that are visited from the first ones.
pub fn visit(
    lists: &[StreamNumbers],
    own: u32,
    first: &[u32],
    flags: &mut [bool],
    noted: &mut Vec<u32>,
) -> Result<(), Memory>
    requires flags { length flags.old ≡ length lists.now }
    requires within { (n m : ℕ) → Contains (list_at lists.now n) m → m < length lists.now }
    requires first { (n : ℕ) → Contains first.now n → n < length lists.now }
    requires blank { IsBlank flags.old }
    requires noted { noted.old.items ≡ [] }
    ensures { OnOk result (FlagsVisited lists.now own first.now flags.new) }
{
    flag(own, first, flags, noted)?;
    while let Some(stream) = noted.pop() {
        flag_behind(lists, own, stream, flags, noted)?;
    }
    Ok(())
}
