//! The table of texts.
ghost use Rattle.std.specs.Prelude.{◌≡◌, ◌+◌, ◌<◌, ◌==◌, ◌^◌, IfOk, IsTrue, OnErr, if◌then◌else◌, length, nat_eq, option_map};
ghost use Rattle.lola_value.specs.Naming.{text_at};
ghost use Rattle.lola_text.specs.Texts.{Interns, IsTable, no_texts, swept};

use crate::search::{Entries, Held, flag_all, keep_flagged, number_or_new, place_of};
use crate::text_key::TextKey;
use indexmap::IndexMap;
use lola_value::text::Memory;
use lola_value::value::TextId;
use std::alloc::Global;
use std::hash::RandomState;
use std::marker::Model;

// From this length on a text is copied before it is looked up, and hashed once. A shorter one is looked up first, so that one that is held
// takes no memory; where it is new it is hashed twice, which at that length costs less than a copy.
const LONG: usize = 128;

/// How many numbers were given, once this one was.
fn given_after(given: u64, number: u64) -> u64
    requires { given < 2 ^ 63 }
    ensures { result ≡ (if nat_eq number given then given + 1 else given) }
{
    if number == given { given + 1 } else { given }
}

/// Texts with numbers. Equal texts have one number among those held, a new text gets the number of new texts before
/// it, and no number is ever given to another text.
#[derive(Drop)]
pub struct TextTable {
    alloc: Global,
    texts: Entries,
    // The text that is looked up, in room that is kept.
    asked: TextKey,
    given: u64,
    flag: bool,
}

impl Model for TextTable {
    ghost use Rattle.lola_text.specs.Flags.{AreFlagged, naming_of};
    ghost use Rattle.lola_text.specs.Texts.{IsTable, Texts};

    ghost Value = { Texts };

    ghost view = { λ t. record { held = naming_of t.texts.entries; given = t.given } };

    ghost invariant = { λ t. IsTable (record { held = naming_of t.texts.entries; given = t.given }) × AreFlagged t.flag t.texts.entries };
}

impl TextTable {
    /// A table that holds no text. Its texts are looked up by hashes under the keys of `hasher`: where nobody who chooses texts knows
    /// the keys, nobody can choose texts that collide. The keys change no answer.
    pub fn create(alloc: Global, hasher: RandomState) -> TextTable
        ensures { result ≡ no_texts }
    {
        TextTable {
            alloc,
            texts: IndexMap::with_hasher(alloc, hasher),
            asked: TextKey::empty(alloc),
            given: 0,
            flag: false,
        }
    }

    /// The number of a text: that of an equal text that is held, or a new one, which is the number of new ones given
    /// before. Where there is no memory the table is as it was.
    pub fn intern(&mut self, bytes: &[u8]) -> Result<TextId, Memory>
        requires { self.old.given < 2 ^ 63 }
        ensures ok { IfOk result (λ id. Interns bytes.now id.0 self.old self.new) }
        ensures err { OnErr result (self.new ≡ self.old) }
        ensures table { IsTable self.new }
    {
        if bytes.len() < LONG {
            self.asked.set(bytes)?;
            if let Some(held) = self.texts.get(&self.asked) {
                return Ok(TextId(held.number));
            }
        }
        self.number_of(bytes)
    }

    /// The same as `intern`, for a text that is likely to be the one with the number `before`, as that of the same input in the row before:
    /// if it is, it is compared and not hashed. Any number may be given.
    pub fn intern_again(&mut self, bytes: &[u8], before: TextId) -> Result<TextId, Memory>
        requires { self.old.given < 2 ^ 63 }
        ensures ok { IfOk result (λ id. Interns bytes.now id.0 self.old self.new) }
        ensures err { OnErr result (self.new ≡ self.old) }
        ensures table { IsTable self.new }
    {
        if self.is_text(before, bytes) {
            return Ok(before);
        }
        self.intern(bytes)
    }

    // Whether the text with a number is this one.
    fn is_text(&self, id: TextId, bytes: &[u8]) -> bool
        ensures text { IsTrue result → text_at self.now.held id.0 ≡ Some bytes.now }
        ensures table { IsTable self.now }
    {
        match self.get(id) {
            None => false,
            Some(text) => text == bytes,
        }
    }

    // The number of a text, which is copied before it is looked up.
    fn number_of(&mut self, bytes: &[u8]) -> Result<TextId, Memory>
        requires { self.old.given < 2 ^ 63 }
        ensures ok { IfOk result (λ id. Interns bytes.now id.0 self.old self.new) }
        ensures err { OnErr result (self.new ≡ self.old) }
        ensures table { IsTable self.new }
    {
        let text = TextKey::copied(self.alloc, bytes)?;
        let fresh = Held {
            number: self.given,
            flag: self.flag,
        };
        let number = number_or_new(&mut self.texts, text, fresh)?;
        self.given = given_after(self.given, number);
        Ok(TextId(number))
    }

    /// The text of a number. There is none exactly where the number is not held.
    pub fn get(&self, id: TextId) -> Option<&[u8]>
        ensures value { option_map (λ text. text.now) result ≡ text_at self.now.held id.0 }
        ensures table { IsTable self.now }
    {
        let place = place_of(&self.texts, id.0)?;
        let (text, _held) = self.texts.get_index(place)?;
        Some(text.as_slice())
    }

    /// Drops all texts but those whose numbers are listed. It takes no memory.
    pub fn sweep(&mut self, kept: &[TextId])
        ensures swept { self.new ≡ swept self.old kept.now }
        ensures table { IsTable self.new }
    {
        self.flag = !self.flag;
        flag_all(&mut self.texts, kept, self.flag);
        keep_flagged(&mut self.texts, self.flag);
    }

    /// How many texts are held.
    pub fn len(&self) -> u64
        ensures count { result ≡ length self.now.held }
        ensures table { IsTable self.now }
    {
        self.texts.len() as u64
    }

    /// Whether no text is held.
    pub fn is_empty(&self) -> bool
        ensures { result ≡ (length self.now.held == 0) }
    {
        self.texts.is_empty()
    }
}
