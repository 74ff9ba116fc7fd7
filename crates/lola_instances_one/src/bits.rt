//! A list of truth values, with rank and select.

ghost use Rattle.std.specs.Prelude.{◌≡◌, ℕ, ◌*◌, ◌≤◌, ◌<◌, ◌++◌, ◌∷◌, [], true, false, length, nat_lt, slice_index_or, slice_set, OnOk, OnErr};
ghost use Rattle.lola_instances_one.specs.Bits.{AreCounts, Extends, ones, rank};

use crate::sums::{bit_past, count_between, cover, place_past, sum_between};
use lola_value::text::Memory;
use std::alloc::Global;
use std::marker::Model;

/// Bits, seen as the list of their truth values. Of each 64, and of each 64 of these, it is known how many are set: so a rank or a
/// place is found over a few hundred numbers at most among a quarter of a million bits.
#[derive(Drop)]
pub struct BitVector {
    bits: Vec<bool>,
    counts: Vec<usize>,
    tops: Vec<usize>,
}

impl Model for BitVector {
    ghost use Rattle.std.specs.Prelude.{Bool, List};
    ghost use Rattle.lola_instances_one.specs.Bits.{AreCounts};

    ghost Value = { List Bool };

    ghost view = { λ v. v.bits.items };

    ghost invariant = { λ v. AreCounts v.bits.items v.counts.items v.tops.items };
}

// One more bit, which is not set.
fn push(bits: &mut Vec<bool>, counts: &mut Vec<usize>, tops: &mut Vec<usize>) -> Result<(), Memory>
    requires { AreCounts bits.old.items counts.old.items tops.old.items }
    ensures counts { AreCounts bits.new.items counts.new.items tops.new.items }
    ensures ok { OnOk result (bits.new.items ≡ bits.old.items ++ false ∷ []) }
    ensures err { OnErr result (bits.new.items ≡ bits.old.items) }
{
    match cover(tops, counts.len()) {
        Err(memory) => Err(memory),
        Ok(()) => match cover(counts, bits.len()) {
            Err(memory) => Err(memory),
            Ok(()) => match bits.push(false) {
                Ok(()) => Ok(()),
                Err(_) => Err(Memory),
            },
        },
    }
}

// Sets a bit that is not set.
fn raise(bits: &mut Vec<bool>, counts: &mut Vec<usize>, tops: &mut Vec<usize>, place: usize)
    requires place { place < length bits.old.items }
    requires clear { slice_index_or bits.old.items place false ≡ false }
    requires counts { AreCounts bits.old.items counts.old.items tops.old.items }
    ensures counts { AreCounts bits.new.items counts.new.items tops.new.items }
    ensures bits { bits.new.items ≡ slice_set bits.old.items place true }
{
    bits[place] = true;
    let part = place / 64;
    counts[part] += 1;
    tops[part / 64] += 1;
}

// Clears a bit that is set.
fn lower(bits: &mut Vec<bool>, counts: &mut Vec<usize>, tops: &mut Vec<usize>, place: usize)
    requires place { place < length bits.old.items }
    requires set { slice_index_or bits.old.items place false ≡ true }
    requires counts { AreCounts bits.old.items counts.old.items tops.old.items }
    ensures counts { AreCounts bits.new.items counts.new.items tops.new.items }
    ensures bits { bits.new.items ≡ slice_set bits.old.items place false }
{
    bits[place] = false;
    let part = place / 64;
    counts[part] -= 1;
    tops[part / 64] -= 1;
}

// The first place of a part, of 64 places each, where there are so many.
fn first_of(part: usize, _places: usize) -> usize
    requires { 64 * part ≤ _places }
    ensures { result ≡ 64 * part }
{
    part * 64
}

// How many bits before a place are set.
fn rank_among(bits: &[bool], counts: &[usize], tops: &[usize], place: usize) -> usize
    requires place { place ≤ length bits.now }
    requires counts { AreCounts bits.now counts.now tops.now }
    ensures { result ≡ rank bits.now place }
{
    let part = place / 64;
    let top = part / 64;
    let in_tops = sum_between(tops, 0, top);
    let in_counts = sum_between(counts, top * 64, part);
    let in_bits = count_between(bits, part * 64, place);
    in_tops + in_counts + in_bits
}

// The place of the set bit before which so many are set.
fn select_among(bits: &[bool], counts: &[usize], tops: &[usize], before: usize) -> usize
    requires before { before < ones bits.now }
    requires counts { AreCounts bits.now counts.now tops.now }
    ensures within { result < length bits.now }
    ensures set { slice_index_or bits.now result false ≡ true }
    ensures rank { rank bits.now result ≡ before }
{
    let (top, in_top) = place_past(tops, 0, before);
    let (part, in_part) = place_past(counts, first_of(top, counts.len()), in_top);
    bit_past(bits, first_of(part, bits.len()), in_part)
}

impl BitVector {
    /// No bit. It takes no memory.
    pub fn create(alloc: Global) -> BitVector
        ensures { result ≡ [] }
    {
        BitVector {
            bits: Vec::new(alloc),
            counts: Vec::new(alloc),
            tops: Vec::new(alloc),
        }
    }

    /// How many bits there are.
    pub fn len(&self) -> usize
        ensures { result ≡ length self.now }
    {
        self.bits.len()
    }

    // One more bit, which is not set.
    fn add(&mut self) -> Result<(), Memory>
        ensures ok { OnOk result (self.new ≡ self.old ++ false ∷ []) }
        ensures err { OnErr result (self.new ≡ self.old) }
    {
        push(&mut self.bits, &mut self.counts, &mut self.tops)
    }

    /// More bits, which are not set, up to so many.
    pub fn grow(&mut self, places: usize) -> Result<(), Memory>
        ensures bits { Extends self.old self.new }
        ensures ok { OnOk result (places ≤ length self.new) }
    {
        for _turn in self.len()..places {
            match self.add() {
                Err(memory) => return Err(memory),
                Ok(()) => {}
            }
        }
        Ok(())
    }

    /// Sets or clears the bit at a place.
    pub fn set(&mut self, place: usize, is_set: bool)
        requires { place < length self.old }
        ensures { self.new ≡ slice_set self.old place is_set }
    {
        let was_set = self.bits[place];
        if is_set && !was_set {
            raise(&mut self.bits, &mut self.counts, &mut self.tops, place);
        }
        if !is_set && was_set {
            lower(&mut self.bits, &mut self.counts, &mut self.tops, place);
        }
    }

    /// Sets so many bits from the first on, and clears the others.
    pub fn fill(&mut self, front: usize)
        ensures length { length self.new ≡ length self.old }
        ensures bits { (i : ℕ) → i < length self.old → slice_index_or self.new i false ≡ nat_lt i front }
    {
        for i in 0..self.len() {
            self.set(i, i < front);
        }
    }

    /// How many bits before a place are set.
    pub fn rank(&self, place: usize) -> usize
        requires { place ≤ length self.now }
        ensures { result ≡ rank self.now place }
    {
        rank_among(
            self.bits.as_slice(),
            self.counts.as_slice(),
            self.tops.as_slice(),
            place,
        )
    }

    /// The place of the set bit before which so many are set.
    pub fn select(&self, before: usize) -> usize
        requires { before < ones self.now }
        ensures within { result < length self.now }
        ensures set { slice_index_or self.now result false ≡ true }
        ensures rank { rank self.now result ≡ before }
    {
        select_among(
            self.bits.as_slice(),
            self.counts.as_slice(),
            self.tops.as_slice(),
            before,
        )
    }
}
