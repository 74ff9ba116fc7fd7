//! A text as the key of a table.
ghost use Rattle.std.specs.Prelude.{◌≡◌, [], IfOk, OnOk, nat_eq};
ghost use Rattle.std.specs.Cmp.Lexicographic.{nat_list_eq_equiv, pointwise};
ghost use Rattle.std.specs.Cmp.{partial_equiv_from_equiv};
ghost use Rattle.lola_text.specs.TextKeys.{key_writes, writes_same};

use std::alloc::{AllocError, Global};
use std::hash::{Hash, Hasher};
use std::marker::Model;

/// A text, seen as its bytes. It is hashed in one write, of which SipHash takes eight bytes at a time; a `Vec` is hashed by a write for each.
#[derive(Drop)]
pub(crate) struct TextKey {
    bytes: Vec<u8>,
}

impl Model for TextKey {
    ghost use Rattle.std.specs.Prelude.{ℕ, List};

    ghost Value = { List ℕ };

    ghost view = { λ k. k.bytes.items };
}

impl TextKey {
    /// An empty text, which takes no memory.
    pub(crate) fn empty(alloc: Global) -> TextKey
        ensures { result ≡ [] }
    {
        TextKey {
            bytes: Vec::new(alloc),
        }
    }

    /// A copy of a text, in just the room that it needs.
    pub(crate) fn copied(alloc: Global, text: &[u8]) -> Result<TextKey, AllocError>
        ensures { IfOk result (λ key. key ≡ text.now) }
    {
        Ok(TextKey {
            bytes: Vec::from_slice(alloc, text)?,
        })
    }

    /// Makes it a copy of a text, in the room that it has where that is enough.
    pub(crate) fn set(&mut self, text: &[u8]) -> Result<(), AllocError>
        ensures { OnOk result (self.new ≡ text.now) }
    {
        self.bytes.clear();
        self.bytes.extend_from_slice(text)
    }

    /// Its bytes.
    pub(crate) fn as_slice(&self) -> &[u8]
        ensures { result.now ≡ self.now }
    {
        self.bytes.as_slice()
    }
}

impl PartialEq for TextKey {
    ghost eq = { pointwise nat_eq };

    ghost laws = { partial_equiv_from_equiv nat_list_eq_equiv };

    fn eq(&self, other: &TextKey) -> bool {
        self.as_slice() == other.as_slice()
    }
}

impl Eq for TextKey {
    ghost laws = { nat_list_eq_equiv };
}

impl Hash for TextKey {
    ghost hash_input = { key_writes };

    ghost respects_eq = { writes_same };

    fn hash<H: Hasher>(&self, state: &mut H) {
        state.write(self.as_slice());
    }
}
