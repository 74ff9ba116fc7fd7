//! Texts by their numbers, and the flags of a sweep, over the texts that a table holds.
ghost use Rattle.std.specs.Prelude.{◌≡◌, IfOk, IsTrue, OnErr, map, filter};
ghost use Rattle.lola_text.specs.Flags.{IsFoundOrNew, IsPlaceOf, NumbersRise, held_as, is_same, is_flagged, flagged_all, flagged_at};

use crate::text_key::TextKey;
use indexmap::IndexMap;
use lola_value::text::Memory;
use lola_value::value::TextId;
use std::hash::RandomState;

/// The number of a text, and the flag that the newest sweep left.
#[derive(Clone, Copy)]
pub(crate) struct Held {
    pub(crate) number: u64,
    pub(crate) flag: bool,
}

/// The texts that are held, in the order in which they got their numbers.
pub(crate) type Entries = IndexMap<TextKey, Held, RandomState>;

// Whether the text with this number stands at a place.
fn is_at(texts: &Entries, number: u64, place: usize) -> bool
    ensures { IsTrue result → IsPlaceOf number texts.now.entries (Some place) }
{
    match texts.get_index(place) {
        None => false,
        Some((_text, held)) => held.number == number,
    }
}

/// The place of the text with this number: the number itself, as long as no text was dropped, or else it is searched for.
pub(crate) fn place_of(texts: &Entries, number: u64) -> Option<usize>
    requires { NumbersRise texts.now.entries }
    ensures { IsPlaceOf number texts.now.entries result }
{
    if is_at(texts, number, number as usize) {
        return Some(number as usize);
    }
    texts
        .binary_search_by(|_text, held| held.number.cmp(&number))
        .ok()
}

/// The number of a text. Where it is not held it goes behind all others, as `fresh`. It is hashed once; where there is no memory, nothing
/// has changed.
pub(crate) fn number_or_new(texts: &mut Entries, text: TextKey, fresh: Held) -> Result<u64, Memory>
    ensures ok { IfOk result (λ number. IsFoundOrNew (held_as text texts.old.entries) text fresh number texts.old.entries texts.new.entries) }
    ensures err { OnErr result (texts.new.entries ≡ texts.old.entries) }
{
    let held = texts.entry(text)?.or_insert(fresh);
    Ok(held.number)
}

// Flags the text with this number, where it is held.
fn flag_one(texts: &mut Entries, number: u64, flag: bool)
    requires { NumbersRise texts.old.entries }
    ensures { texts.new.entries ≡ map (flagged_at number flag) texts.old.entries }
{
    if let Some(place) = place_of(texts, number) {
        if let Some(held) = texts.get_index_mut(place) {
            held.flag = flag;
        }
    }
}

/// Flags the texts with these numbers.
pub(crate) fn flag_all(texts: &mut Entries, ids: &[TextId], flag: bool)
    requires { NumbersRise texts.old.entries }
    ensures { texts.new.entries ≡ flagged_all ids.now flag texts.old.entries }
{
    for id in ids {
        flag_one(texts, id.0, flag);
    }
}

/// Drops the texts without this flag.
pub(crate) fn keep_flagged(texts: &mut Entries, flag: bool)
    ensures { texts.new.entries ≡ filter (is_flagged flag) texts.old.entries }
{
    texts.retain(
        |_text: &TextKey, held: &mut Held| -> bool
            ensures { (result ≡ is_same held.old.flag flag) × (held.new ≡ held.old) }
        { held.flag == flag },
    );
}
