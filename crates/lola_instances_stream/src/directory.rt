//! The cells of the instances of a stream by their parameters.

ghost use Rattle.std.specs.Prelude.{◌≡◌, ℕ, ◌≤◌, ◌<◌, ◌+◌, [], Some, None, true, map, length, nat_le, if◌then◌else◌, IsTrue, OnOk};
ghost use Rattle.indexmap.specs.IndexMap.{spare};
ghost use Rattle.lola_instances_one.specs.Bits.{rank};
ghost use Rattle.lola_value.specs.Kinds.{is_well_formed};
ghost use Rattle.lola_instances_stream.specs.Keys.{same_places};
ghost use Rattle.lola_instances_stream.specs.Listings.{HasCell, cell_of, packed};

use crate::key::Key;
use indexmap::IndexMap;
use lola_instances_one::bits::BitVector;
use lola_value::text::Memory;
use lola_value::value::Params;
use std::alloc::Global;
use std::hash::RandomState;
use std::marker::Model;

/// The cells of the instances of a stream by their parameters, so that one is found in constant time. It is kept for some streams
/// alone: for a stream with one instance a look at that one is as good.
#[derive(Drop)]
pub struct Directory {
    is_kept: bool,
    cells: IndexMap<Key, usize, RandomState>,
}

impl Model for Directory {
    ghost use Rattle.indexmap.specs.IndexMap.{spare};
    ghost use Rattle.lola_instances_stream.specs.Listings.{Listing};

    ghost Value = { Listing };

    ghost view = { λ d. record { is_kept = d.is_kept; entries = d.cells.entries; room = spare d.cells } };
}

// The cell of a key, in room that was made.
fn put(cells: &mut IndexMap<Key, usize, RandomState>, key: Key, cell: usize)
    requires { 1 ≤ spare cells.old }
    ensures cell { HasCell key.0 (Some cell) cells.old.entries cells.new.entries }
    ensures room { spare cells.old ≤ spare cells.new + 1 }
{
    match cells.insert(key, cell) {
        Ok(_) => {}
        Err(_) => {}
    }
}

// Takes a key away.
fn forget(cells: &mut IndexMap<Key, usize, RandomState>, key: Key)
    ensures cell { HasCell key.0 None cells.old.entries cells.new.entries }
    ensures room { spare cells.old ≤ spare cells.new }
{
    let _gone = cells.swap_remove(&key);
}

// Where a cell comes to stand when all before it that are not set move together.
fn moved(flags: &BitVector, cell: usize) -> usize
    ensures { result ≡ packed flags.now cell }
{
    if cell <= flags.len() {
        flags.rank(cell)
    } else {
        cell
    }
}

// Each key has the cell where its own comes to stand.
fn renumber(cells: &mut IndexMap<Key, usize, RandomState>, flags: &BitVector)
    ensures entries { cells.new.entries ≡ map (λ e. (e.0, packed flags.now e.1)) cells.old.entries }
    ensures room { spare cells.old ≤ spare cells.new }
{
    cells.retain(|_key, cell| {
        *cell = moved(flags, *cell);
        true
    });
}

impl Directory {
    /// One with no instance, which takes no memory. Parameters are looked up by hashes under the keys of `hasher`: where nobody who
    /// chooses parameters knows the keys, nobody can choose parameters that collide. The keys change no answer.
    pub fn create(alloc: Global, hasher: RandomState, is_kept: bool) -> Directory
        ensures kept { result.is_kept ≡ is_kept }
        ensures entries { result.entries ≡ [] }
    {
        Directory {
            is_kept,
            cells: IndexMap::with_hasher(alloc, hasher),
        }
    }

    /// Whether it is kept.
    pub fn is_kept(&self) -> bool
        ensures { result ≡ self.now.is_kept }
    {
        self.is_kept
    }

    /// The cell that it has for these parameters.
    pub fn find(&self, params: &Params) -> Option<usize>
        ensures { result ≡ cell_of params.now self.now.entries }
    {
        let key = Key(*params);
        self.cells.get(&key).copied()
    }

    /// Makes room for so many more instances, where it is kept.
    pub fn make_room(&mut self, more: usize) -> Result<(), Memory>
        ensures kept { self.new.is_kept ≡ self.old.is_kept }
        ensures entries { self.new.entries ≡ self.old.entries }
        ensures room { self.old.room ≤ self.new.room }
        ensures ok { OnOk result (self.old.is_kept ≡ true → more ≤ self.new.room) }
    {
        if !self.is_kept {
            return Ok(());
        }
        match self.cells.reserve(more) {
            Ok(()) => Ok(()),
            Err(_) => Err(Memory),
        }
    }

    /// The cell of one more instance, in room that was made.
    pub fn add(&mut self, params: Params, cell: usize)
        requires { self.old.is_kept ≡ true → 1 ≤ self.old.room }
        ensures kept { self.new.is_kept ≡ self.old.is_kept }
        ensures cell { self.old.is_kept ≡ true → HasCell params (Some cell) self.old.entries self.new.entries }
        ensures room { self.old.room ≤ self.new.room + 1 }
    {
        if self.is_kept {
            put(&mut self.cells, Key(params), cell);
        }
    }

    /// Takes the instance with these parameters away, in constant time.
    pub fn remove(&mut self, params: Params)
        ensures kept { self.new.is_kept ≡ self.old.is_kept }
        ensures cell { self.old.is_kept ≡ true → HasCell params None self.old.entries self.new.entries }
        ensures room { self.old.room ≤ self.new.room }
    {
        if self.is_kept {
            forget(&mut self.cells, Key(params));
        }
    }

    /// The cells whose bits are set move together, and each instance is listed where its cell comes to stand.
    pub fn pack(&mut self, flags: &BitVector)
        ensures kept { self.new.is_kept ≡ self.old.is_kept }
        ensures entries { self.old.is_kept ≡ true → self.new.entries ≡ map (λ e. (e.0, packed flags.now e.1)) self.old.entries }
        ensures room { self.old.room ≤ self.new.room }
    {
        if self.is_kept {
            renumber(&mut self.cells, flags);
        }
    }
}
