//! The words of parameters that were read.

ghost use Rattle.std.specs.Prelude.{◌≡◌, [], IfOk, OnOk, not};
ghost use Rattle.lola_save_read.specs.Spelled.{has_words, with_words};

use indexmap::IndexSet;
use lola_value::text::Memory;
use std::alloc::Global;
use std::marker::Model;

/// The words that spell the parameters of instances of a stream, each once. Whether words are there is looked up, however many there are.
#[derive(Drop)]
pub(crate) struct Spelled {
    alloc: Global,
    entries: IndexSet<Vec<u8>>,
}

impl Model for Spelled {
    ghost use Rattle.std.specs.Prelude.{ℕ, List};
    ghost use Rattle.lola_save_read.specs.Spelled.{words_in};

    ghost Value = { List (List ℕ) };

    ghost view = { λ s. words_in s.entries.keys };
}

impl Spelled {
    /// No words.
    pub(crate) fn create(alloc: Global) -> Spelled
        ensures { result ≡ [] }
    {
        Spelled {
            alloc,
            entries: IndexSet::new(alloc),
        }
    }

    /// Puts words behind the others, unless they are there; whether they are new.
    pub(crate) fn put(&mut self, words: &[u8]) -> Result<bool, Memory>
        ensures fresh { IfOk result (λ fresh. fresh ≡ not (has_words self.old words.now)) }
        ensures words { OnOk result (self.new ≡ with_words self.old words.now) }
    {
        let text = Vec::from_slice(self.alloc, words)?;
        let fresh = self.entries.insert(text)?;
        Ok(fresh)
    }
}
