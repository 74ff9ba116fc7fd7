//! A table of names.

ghost use Rattle.std.specs.Prelude.{◌≡◌, [], OnOk};
ghost use Rattle.lola_names_refused.specs.Table.{meaning_in, with_name};

use indexmap::IndexMap;
use lola_parser_grammar::literals::Name;
use lola_value::text::Memory;
use std::alloc::Global;
use std::marker::Model;

/// Names with what they mean, each name once.
#[derive(Drop)]
pub struct NameTable<M> {
    alloc: Global,
    entries: IndexMap<Vec<u8>, M>,
}

impl<M> Model for NameTable<M> {
    ghost use Rattle.std.specs.Prelude.{ℕ, List};
    ghost use Rattle.lola_names_refused.specs.Entries.{names_in};

    ghost Value = { List (List ℕ × M) };

    ghost view = { λ n. names_in n.entries.entries };
}

impl<M: Copy + Drop> NameTable<M> {
    /// No names.
    pub fn create(alloc: Global) -> NameTable<M>
        ensures { result ≡ [] }
    {
        NameTable {
            alloc,
            entries: IndexMap::new(alloc),
        }
    }

    /// What a name means.
    pub fn meaning(&self, text: &[u8]) -> Option<M>
        ensures { result ≡ meaning_in self.now text.now }
    {
        self.entries.get(text).copied()
    }

    /// Puts a name behind the others, unless it is there.
    pub fn put(&mut self, name: &Name, meaning: M) -> Result<(), Memory>
        ensures { OnOk result (self.new ≡ with_name self.old (name.now, meaning)) }
    {
        if self.meaning(name.text.as_bytes()).is_some() {
            return Ok(());
        }
        let text = Vec::from_slice(self.alloc, name.text.as_bytes())?;
        self.entries.insert(text, meaning)?;
        Ok(())
    }
}
