//! Instances in their cells, in order of birth, so that one is closed in constant time.

ghost use Rattle.std.specs.Prelude.{◌≡◌, ℕ, ◌≤◌, ◌<◌, ◌+◌, ◌++◌, ◌∷◌, [], Some, None, true, false, length, filter, slice_get, slice_index_or, slice_set, remove, IfSome, OnOk, IsTrue, MatchOption, is_some};
ghost use Rattle.std.specs.Vec.{vec_capacity};
ghost use Rattle.lola_instances_one.specs.Bits.{Extends, ones, rank};
ghost use Rattle.lola_value.specs.Kinds.{is_well_formed, same_params};
ghost use Rattle.lola_instances_one.specs.Holdings.{Holdings};
ghost use Rattle.lola_instances_one.specs.Telling.{AllReady};
ghost use Rattle.lola_instances_stream.specs.Cells.{AreKnown, AreFlagged, IsSlotChanged, IsTaken, StandsIn, living};
ghost use Rattle.lola_instances_stream.specs.Changes.{HasTold, WasPoisoned, IsChangedAt};
ghost use Rattle.lola_instances_stream.specs.Crowds.{place_in};
ghost use Rattle.lola_instances_stream.specs.Givings.{AreGiven, AreReadyFor};

use crate::directory::Directory;
use crate::giving::give_cells;
use lola_instances_one::bits::BitVector;
use lola_instances_one::instance::Instance;
use lola_value::brief::{Brief, BriefValue};
use lola_value::text::Memory;
use lola_value::value::Params;
use std::alloc::Global;
use std::hash::RandomState;
use std::marker::Model;
use std::thread::Threads;

/// The instances of a stream, seen as the list of those that live. Each has a cell, in order of birth, and that of one that is closed
/// stays empty until as many are empty as are not: then they move together. Of a place among the living and a cell each is found from
/// the other in a time that does not grow with them, by bits that say which cells are taken.
#[derive(Drop)]
pub struct Cells {
    pub(crate) cells: Vec<Option<Instance>>,
    pub(crate) flags: BitVector,
    pub(crate) empty: usize,
    // the cells of instances with parameters
    table: Directory,
    // how many cells there is memory for
    capacity: usize,
}

impl Model for Cells {
    ghost use Rattle.std.specs.Vec.{vec_capacity};
    ghost use Rattle.lola_instances_stream.specs.Cells.{Line, IsLine, living};

    ghost Value = { Line };

    ghost view = { λ l. record { items = living l.cells.items; capacity = l.capacity; is_kept = l.table.is_kept; room = l.table.room } };

    ghost invariant = { λ l. IsLine l.cells.items l.flags l.table l.empty l.capacity (vec_capacity l.cells) };
}

// The place of the set bit before which so many are set. It is a function of its own, so that a stream of which no instance was closed
// has no registers for the search.
#[inline(never)]
fn nth_flagged(flags: &BitVector, before: usize) -> usize
    requires { before < ones flags.now }
    ensures within { result < length flags.now }
    ensures set { slice_index_or flags.now result false ≡ true }
    ensures rank { rank flags.now result ≡ before }
{
    flags.select(before)
}

// The cell of the instance at a place among those that live.
#[inline(always)]
pub(crate) fn cell_at(
    _cells: &Vec<Option<Instance>>,
    flags: &BitVector,
    empty: usize,
    place: usize,
) -> usize
    requires place { place < length (living _cells.now.items) }
    requires flagged { AreFlagged _cells.now.items flags.now }
    requires count { empty + length (living _cells.now.items) ≡ length _cells.now.items }
    ensures { (s : Holdings) × StandsIn _cells.now.items result place s }
{
    if empty == 0 {
        place
    } else {
        nth_flagged(flags, place)
    }
}

// The place among those that live of the instance in a cell.
fn place_of(_cells: &Vec<Option<Instance>>, flags: &BitVector, empty: usize, cell: usize) -> usize
    requires cell { cell < length _cells.now.items }
    requires flagged { AreFlagged _cells.now.items flags.now }
    requires count { empty + length (living _cells.now.items) ≡ length _cells.now.items }
    ensures { (s : Holdings) → slice_get _cells.now.items cell ≡ Some (Some s) → StandsIn _cells.now.items cell result s }
{
    if empty == 0 { cell } else { flags.rank(cell) }
}

// The instance in a cell.
fn slot_in(cells: &Vec<Option<Instance>>, cell: usize) -> &Instance
    requires { IsTaken (slice_get cells.now.items cell) }
    ensures { slice_get cells.now.items cell ≡ Some (Some result.now) }
{
    match &cells[cell] {
        Some(slot) => slot,
        None => unreachable!(),
    }
}

// Whether the instance in a cell, if there is one, has these parameters.
fn has_params(cells: &Vec<Option<Instance>>, cell: usize, params: &Params) -> bool
    requires formed { IsTrue (is_well_formed params.now) }
    ensures yes { result ≡ true → (s : Holdings) × (slice_get cells.now.items cell ≡ Some (Some s)) × (same_params params.now s.params ≡ true) }
    ensures no { result ≡ false → (s : Holdings) → slice_get cells.now.items cell ≡ Some (Some s) → same_params params.now s.params ≡ false }
{
    if cells.len() <= cell {
        return false;
    }
    match &cells[cell] {
        None => false,
        Some(slot) => {
            let own = slot.params();
            params.is_same(&own)
        }
    }
}

// The place of the instance with these parameters, if it lives, where no table is kept. A stream without parameters has one instance
// at most, so one is looked at.
fn place_among(cells: &[Option<Instance>], params: &Params) -> Option<usize>
    requires { IsTrue (is_well_formed params.now) }
    ensures { result ≡ place_in params.now (living cells.now) 0 }
{
    let mut place = 0;
    for cell in cells {
        if let Some(slot) = cell {
            let own = slot.params();
            if params.is_same(&own) {
                return Some(place);
            }
            place += 1;
        }
    }
    None
}

// A value of this step, for the instance in a cell.
pub(crate) fn tell_in(slot: &mut Option<Instance>, step: u64, offset: u64, value: BriefValue)
    requires taken { IsTaken (Some slot.old) }
    requires ready { MatchOption slot.old ⊥ (λ s. AllReady offset value s.panes) }
    ensures { IsSlotChanged (HasTold step offset value) slot.old slot.new }
{
    match slot {
        Some(slot) => slot.add_value(step, offset, value),
        None => unreachable!(),
    }
}

// Poison in this step, for the instance in a cell.
pub(crate) fn poison_in(slot: &mut Option<Instance>, step: u64)
    requires { IsTaken (Some slot.old) }
    ensures { IsSlotChanged (WasPoisoned step) slot.old slot.new }
{
    match slot {
        Some(slot) => slot.poison(step),
        None => unreachable!(),
    }
}

// Takes the instance out of a cell, and answers its parameters.
fn take_params(slot: &mut Option<Instance>) -> Params
    requires { IsTaken (Some slot.old) }
    ensures params { MatchOption slot.old ⊥ (λ s. result ≡ s.params) }
    ensures gone { slot.new ≡ None }
{
    match slot.take() {
        Some(gone) => gone.params(),
        None => unreachable!(),
    }
}

// Empties a cell.
fn take_out(
    cells: &mut Vec<Option<Instance>>,
    flags: &mut BitVector,
    table: &mut Directory,
    cell: usize,
)
    requires taken { IsTaken (slice_get cells.old.items cell) }
    requires known { AreKnown cells.old.items flags.old table.old }
    ensures known { AreKnown cells.new.items flags.new table.new }
    ensures cells { cells.new.items ≡ slice_set cells.old.items cell None }
    ensures memory { vec_capacity cells.new ≡ vec_capacity cells.old }
    ensures flags { length flags.new ≡ length flags.old }
    ensures kept { table.new.is_kept ≡ table.old.is_kept }
    ensures room { table.old.room ≤ table.new.room }
{
    let params = take_params(&mut cells[cell]);
    table.remove(params);
    flags.set(cell, false);
}

// One more instance, in a cell behind the others.
fn put(
    cells: &mut Vec<Option<Instance>>,
    flags: &mut BitVector,
    table: &mut Directory,
    slot: Instance,
)
    requires memory { length cells.old.items < vec_capacity cells.old }
    requires bits { length cells.old.items < length flags.old }
    requires room { table.old.is_kept ≡ true → 1 ≤ table.old.room }
    requires absent { place_in slot.params (living cells.old.items) 0 ≡ None }
    requires known { AreKnown cells.old.items flags.old table.old }
    ensures known { AreKnown cells.new.items flags.new table.new }
    ensures cells { cells.new.items ≡ cells.old.items ++ Some slot ∷ [] }
    ensures memory { vec_capacity cells.new ≡ vec_capacity cells.old }
    ensures flags { length flags.new ≡ length flags.old }
    ensures kept { table.new.is_kept ≡ table.old.is_kept }
    ensures room { table.old.room ≤ table.new.room + 1 }
{
    let cell = cells.len();
    let params = slot.params();
    cells.push_reserved(Some(slot));
    flags.set(cell, true);
    table.add(params, cell);
}

// Drops the cells that are empty.
fn compact(cells: &mut Vec<Option<Instance>>)
    ensures cells { cells.new.items ≡ filter is_some cells.old.items }
    ensures memory { vec_capacity cells.new ≡ vec_capacity cells.old }
{
    cells.retain(|cell| cell.is_some());
}

// The cells that are taken move together.
fn pack(cells: &mut Vec<Option<Instance>>, flags: &mut BitVector, table: &mut Directory)
    requires known { AreKnown cells.old.items flags.old table.old }
    ensures known { AreKnown cells.new.items flags.new table.new }
    ensures items { living cells.new.items ≡ living cells.old.items }
    ensures full { length (living cells.new.items) ≡ length cells.new.items }
    ensures memory { vec_capacity cells.new ≡ vec_capacity cells.old }
    ensures flags { length flags.new ≡ length flags.old }
    ensures kept { table.new.is_kept ≡ table.old.is_kept }
    ensures room { table.old.room ≤ table.new.room }
{
    table.pack(flags);
    compact(cells);
    flags.fill(cells.len());
}

// The cells that are taken move together where there is no room behind them. How many are empty then is the answer.
fn make_way(
    cells: &mut Vec<Option<Instance>>,
    flags: &mut BitVector,
    table: &mut Directory,
    empty: usize,
    capacity: usize,
) -> usize
    requires known { AreKnown cells.old.items flags.old table.old }
    requires count { empty + length (living cells.old.items) ≡ length cells.old.items }
    requires few { length (living cells.old.items) < capacity }
    ensures known { AreKnown cells.new.items flags.new table.new }
    ensures items { living cells.new.items ≡ living cells.old.items }
    ensures count { result + length (living cells.new.items) ≡ length cells.new.items }
    ensures way { length cells.new.items < capacity }
    ensures memory { vec_capacity cells.new ≡ vec_capacity cells.old }
    ensures flags { length flags.new ≡ length flags.old }
    ensures kept { table.new.is_kept ≡ table.old.is_kept }
    ensures room { table.old.room ≤ table.new.room }
{
    if capacity <= cells.len() {
        pack(cells, flags, table);
        return 0;
    }
    empty
}

// The cells that are taken move together where so many are empty that they are more than those, and some more. How many are empty then
// is the answer.
fn tidy(
    cells: &mut Vec<Option<Instance>>,
    flags: &mut BitVector,
    table: &mut Directory,
    empty: usize,
) -> usize
    requires known { AreKnown cells.old.items flags.old table.old }
    requires count { empty + length (living cells.old.items) ≡ length cells.old.items }
    ensures known { AreKnown cells.new.items flags.new table.new }
    ensures items { living cells.new.items ≡ living cells.old.items }
    ensures count { result + length (living cells.new.items) ≡ length cells.new.items }
    ensures memory { vec_capacity cells.new ≡ vec_capacity cells.old }
    ensures flags { length flags.new ≡ length flags.old }
    ensures kept { table.new.is_kept ≡ table.old.is_kept }
    ensures room { table.old.room ≤ table.new.room }
{
    if cells.len() / 2 + 32 < empty {
        pack(cells, flags, table);
        return 0;
    }
    empty
}

// Memory for two more cells.
fn reserve(cells: &mut Vec<Option<Instance>>, flags: &mut BitVector) -> Result<(), Memory>
    ensures cells { cells.new.items ≡ cells.old.items }
    ensures memory { vec_capacity cells.old ≤ vec_capacity cells.new }
    ensures flags { Extends flags.old flags.new }
    ensures ok { OnOk result (length cells.new.items + 2 ≤ vec_capacity cells.new) }
    ensures bits { OnOk result (length cells.new.items + 2 ≤ length flags.new) }
{
    match cells.reserve(2) {
        Err(_) => Err(Memory),
        Ok(()) => flags.grow(cells.len() + 2),
    }
}

impl Cells {
    /// No instance, and no memory taken. Parameters are looked up by hashes under the keys of `hasher`, if a table is kept.
    pub fn create(alloc: Global, hasher: RandomState, is_kept: bool) -> Cells
        ensures items { result.items ≡ [] }
        ensures kept { result.is_kept ≡ is_kept }
    {
        Cells {
            cells: Vec::new(alloc),
            flags: BitVector::create(alloc),
            empty: 0,
            table: Directory::create(alloc, hasher, is_kept),
            capacity: 0,
        }
    }

    /// How many instances live.
    pub fn len(&self) -> usize
        ensures { result ≡ length self.now.items }
    {
        self.cells.len() - self.empty
    }

    /// Whether a table of them is kept.
    pub fn is_kept(&self) -> bool
        ensures { result ≡ self.now.is_kept }
    {
        self.table.is_kept()
    }

    /// The instance at a place.
    pub fn get(&self, place: usize) -> &Instance
        requires { place < length self.now.items }
        ensures { slice_get self.now.items place ≡ Some result.now }
    {
        let cell = cell_at(&self.cells, &self.flags, self.empty, place);
        slot_in(&self.cells, cell)
    }

    /// The place of the instance with these parameters, which no other has, where a table is kept.
    pub fn find(&self, params: &Params) -> Option<usize>
        requires formed { IsTrue (is_well_formed params.now) }
        requires kept { self.now.is_kept ≡ true }
        ensures place { result ≡ place_in params.now self.now.items 0 }
        ensures alone { (i : ℕ) (s : Holdings) → slice_get self.now.items i ≡ Some s → same_params params.now s.params ≡ true → result ≡ Some i }
    {
        match self.table.find(params) {
            None => None,
            Some(cell) => {
                if has_params(&self.cells, cell, params) {
                    Some(place_of(&self.cells, &self.flags, self.empty, cell))
                } else {
                    None
                }
            }
        }
    }

    /// The place of the instance with these parameters: by the table, where one is kept.
    pub fn place(&self, params: &Params) -> Option<usize>
        requires { IsTrue (is_well_formed params.now) }
        ensures { result ≡ place_in params.now self.now.items 0 }
    {
        if self.table.is_kept() {
            self.find(params)
        } else {
            place_among(self.cells.as_slice(), params)
        }
    }

    /// A value of this step, for the instance at a place.
    pub fn add_value(&mut self, place: usize, step: u64, offset: u64, value: BriefValue)
        requires place { place < length self.old.items }
        requires ready { MatchOption (slice_get self.old.items place) ⊥ (λ s. AllReady offset value s.panes) }
        ensures changed { IsChangedAt (HasTold step offset value) place self.old.items self.new.items }
        ensures rest { self.new ≡ record self.old { items = self.new.items } }
    {
        let cell = cell_at(&self.cells, &self.flags, self.empty, place);
        tell_in(&mut self.cells[cell], step, offset, value);
    }

    /// Poison in this step, for the instance at a place.
    pub fn poison(&mut self, place: usize, step: u64)
        requires { place < length self.old.items }
        ensures changed { IsChangedAt (WasPoisoned step) place self.old.items self.new.items }
        ensures rest { self.new ≡ record self.old { items = self.new.items } }
    {
        let cell = cell_at(&self.cells, &self.flags, self.empty, place);
        poison_in(&mut self.cells[cell], step);
    }

    /// Gives each instance its outcome, if no cell is empty: the cells are shared out among at most so many threads. Answers whether it was so.
    pub fn give_together<R: Threads + Sync>(
        &mut self,
        rt: &R,
        step: u64,
        offset: u64,
        outcomes: &[Brief],
        workers: u32,
    ) -> bool
        requires workers { 1 ≤ workers }
        requires ready { AreReadyFor offset self.old.items outcomes.now }
        ensures given { result ≡ true → AreGiven step offset self.old.items outcomes.now self.new.items }
        ensures none { result ≡ false → self.new.items ≡ self.old.items }
        ensures rest { self.new ≡ record self.old { items = self.new.items } }
    {
        if self.empty > 0 {
            return false;
        }
        give_cells(
            rt,
            self.cells.as_mut_slice(),
            step,
            offset,
            outcomes,
            workers,
        );
        true
    }

    /// Room for two more instances.
    pub fn make_room(&mut self) -> Result<(), Memory>
        ensures rest { self.new ≡ record self.old { capacity = self.new.capacity } }
        ensures capacity { self.old.capacity ≤ self.new.capacity }
        ensures ok { OnOk result (length self.new.items + 2 ≤ self.new.capacity) }
    {
        let wanted = self.cells.len() + 2;
        if wanted <= self.capacity {
            return Ok(());
        }
        match reserve(&mut self.cells, &mut self.flags) {
            Err(memory) => Err(memory),
            Ok(()) => {
                self.capacity = wanted;
                Ok(())
            }
        }
    }

    /// Room for so many more in the table, where it is kept.
    pub fn make_places(&mut self, more: usize) -> Result<(), Memory>
        ensures rest { self.new ≡ record self.old { room = self.new.room } }
        ensures room { self.old.room ≤ self.new.room }
        ensures ok { OnOk result (self.old.is_kept ≡ true → more ≤ self.new.room) }
    {
        self.table.make_room(more)
    }

    /// One more instance, behind the others, in room that was made.
    pub fn add(&mut self, slot: Instance)
        requires room { length self.old.items < self.old.capacity }
        requires listed { self.old.is_kept ≡ true → 1 ≤ self.old.room }
        requires absent { place_in slot.params self.old.items 0 ≡ None }
        ensures rest { self.new ≡ record self.old { items = self.old.items ++ slot ∷ []; room = self.new.room } }
        ensures room { self.old.room ≤ self.new.room + 1 }
    {
        self.empty = make_way(
            &mut self.cells,
            &mut self.flags,
            &mut self.table,
            self.empty,
            self.capacity,
        );
        put(&mut self.cells, &mut self.flags, &mut self.table, slot);
    }

    /// Takes the instance at a place away; later ones move up by one.
    pub fn remove(&mut self, place: usize)
        requires { place < length self.old.items }
        ensures rest { self.new ≡ record self.old { items = remove self.old.items place; room = self.new.room } }
        ensures room { self.old.room ≤ self.new.room }
    {
        let cell = cell_at(&self.cells, &self.flags, self.empty, place);
        take_out(&mut self.cells, &mut self.flags, &mut self.table, cell);
        self.empty = tidy(
            &mut self.cells,
            &mut self.flags,
            &mut self.table,
            self.empty + 1,
        );
    }
}
