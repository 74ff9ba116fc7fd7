//! A list of entries with room for all that can be pending.

ghost use Rattle.std.specs.Prelude.{◌≡◌, ◌<◌, ◌++◌, ◌↔◌, [], ◌∷◌, length, IfOk, IsFalse, IsTrue, IsNone};
ghost use Rattle.std.specs.Option.{option_to_list};

use lola_model::journal::Entry;
use lola_value::text::Memory;
use std::alloc::Global;
use std::collections::VecDeque;
use std::marker::Model;

/// The most entries that a batch has room for, and that can be pending.
pub const MOST: usize = 1024;

/// A list of at most [`MOST`] entries, with room for as many from the start. Contracts see it as the list.
#[derive(Drop)]
pub struct Batch {
    entries: VecDeque<Entry>,
}

impl Model for Batch {
    ghost use Rattle.std.specs.Prelude.{◌≤◌, List, length};
    ghost use Rattle.std.specs.VecDeque.{deque_capacity};
    ghost use Rattle.lola_model.specs.declared.journal.Entry.{Entry};

    ghost Value = { List Entry };

    ghost view = { λ b. b.entries.items };

    ghost invariant = { λ b. (length b.entries.items ≤ 1024) × (1024 ≤ deque_capacity b.entries) };
}

impl Batch {
    /// An empty batch.
    pub fn create(alloc: Global) -> Result<Batch, Memory>
        ensures { IfOk result (λ batch. batch ≡ []) }
    {
        let entries = VecDeque::with_capacity(alloc, MOST)?;
        Ok(Batch { entries })
    }

    /// How many entries there are.
    pub fn len(&self) -> usize
        ensures { result ≡ length self.now }
    {
        self.entries.len()
    }

    /// Whether there is none.
    pub fn is_empty(&self) -> bool
        ensures { IsTrue result ↔ (self.now ≡ []) }
    {
        self.entries.is_empty()
    }

    /// Whether there is no room for another.
    pub fn is_full(&self) -> bool
        ensures full { IsTrue result ↔ (length self.now ≡ MOST) }
        ensures room { IsFalse result ↔ (length self.now < MOST) }
    {
        self.entries.len() == MOST
    }

    /// Puts an entry behind the others. It takes no memory.
    pub fn push(&mut self, entry: Entry)
        requires { length self.old < MOST }
        ensures { self.new ≡ self.old ++ entry ∷ [] }
    {
        self.entries.push_back_reserved(entry);
    }

    /// Takes the first entry, if there is one.
    pub fn pop_front(&mut self) -> Option<Entry>
        ensures first { self.old ≡ option_to_list result ++ self.new }
        ensures none { IsNone result ↔ (self.old ≡ []) }
    {
        self.entries.pop_front()
    }
}
