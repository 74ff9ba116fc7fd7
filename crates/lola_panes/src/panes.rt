//! The values of a window by panes, of which only the last are kept.

ghost use Rattle.std.specs.Prelude.{◌≡◌, ℕ, min, true, ◌-◌, ◌≤◌, ◌<◌, ◌*◌, ◌^◌, ◌+◌, List, ◌++◌, ◌∷◌, [], length, slice_get, IfOk, IsTrue, if◌then◌else◌, ◌&&◌, nat_lt};
ghost use Rattle.lola_value.specs.declared.text.Field.{Field};
ghost use Rattle.lola_value.specs.Answer.{Missing};
ghost use Rattle.lola_value.specs.Kinds.{is_of_kind, is_outcome_of};
ghost use Rattle.lola_value.specs.Naming.{Naming, read, read_outcome};
ghost use Rattle.lola_model.specs.Store.{gives_kind};
ghost use Rattle.lola_model.specs.Typing.{takes};
ghost use Rattle.lola_model.specs.Windows.{aggregated, values_within};
ghost use Rattle.std.specs.List.{sum_by};
ghost use Rattle.lola_panes.specs.Answers.{is_extreme};
ghost use Rattle.lola_panes.specs.Parts.{counted, total_size, pane_values, partial_of};
ghost use Rattle.lola_panes.specs.Restored.{AreRestored, first_offset};
ghost use Rattle.lola_panes.specs.Rings.{count_before, total_before, numbered, own_count, IsOwnTotal, extreme_of, since_count, IsSinceTotal};
ghost use Rattle.lola_panes.specs.Standing.{StandFor, SameWindow, newest_of, newest_pane, no_values};
ghost use Rattle.lola_panes.specs.Weights.{number_at};

use crate::answer::{best_answer, is_early, is_extreme, minus, plus, total_answer};
use crate::pane::{Pane, pane_number, weight};
use crate::partial::{Partial, part};
use crate::restoring::{count_all, first_number, first_offset, rebuild, refill};
use crate::ring::{count_before, extreme_at, keep_best, left, note, pane_at, total_before};
use circular_buffer::HeapCircularBuffer;
use lola_model::spec::Agg;
use lola_value::text::Memory;
use lola_value::value::{Kind, Outcome, Value};
use std::alloc::Global;
use std::marker::Model;

/// The values of a window, by panes: only the last panes that have a value are kept, at most as many as the window has.
/// Where the answer is one of the values, the best of them are kept once more, each while no later one is as good: those
/// that are left get worse from the first on, and the first in a window is its answer.
#[derive(Drop)]
pub struct Panes {
    aggregation: Agg,
    kind: Kind,
    pane: u64,
    count: u32,
    exact: bool,
    told: bool,
    newest: u64,
    added: u64,
    total: i128,
    ring: HeapCircularBuffer<Pane>,
    best: HeapCircularBuffer<Pane>,
}

impl Model for Panes {
    ghost use Rattle.std.specs.Prelude.{◌≡◌, ◌≤◌, ◌^◌, IsTrue, length};
    ghost use Rattle.lola_model.specs.Typing.{takes};
    ghost use Rattle.lola_panes.specs.Standing.{Partials, partials, AreInOrder};

    ghost Value = { Partials };

    ghost view = { λ p. partials p.aggregation p.kind p.pane p.count p.exact p.told p.newest p.added p.total p.ring.items p.best.items };

    ghost invariant = { λ p. AreInOrder (partials p.aggregation p.kind p.pane p.count p.exact p.told p.newest p.added p.total p.ring.items p.best.items) p.ring.capacity p.best.capacity };
}

/// How many values there are from a pane on, and their total.
#[derive(Clone, Copy)]
struct Since {
    count: u64,
    total: i128,
}

/// How many values there are in a pane, their total, and the best of them.
#[derive(Clone, Copy)]
struct Tally {
    count: u64,
    total: i128,
    best: Option<i128>,
}

// How many panes of the best are kept.
fn best_count(aggregation: Agg, count: u32) -> usize
    ensures { is_extreme aggregation ≡ true → result ≡ count }
{
    if is_extreme(aggregation) {
        count as usize
    } else {
        0
    }
}

impl Panes {
    /// No values yet, with all the memory that they will ever take: for `count` panes of this length, which make up the
    /// window. Where it is `exact`, it is missing as long as it reaches before the start.
    pub fn create(
        alloc: Global,
        aggregation: Agg,
        kind: Kind,
        pane: u64,
        count: u32,
        exact: bool,
    ) -> Result<Panes, Memory>
        requires pane { 1 ≤ pane }
        requires count { 1 ≤ count }
        requires kind { IsTrue (takes aggregation kind) }
        ensures empty { IfOk result (λ p. p ≡ no_values aggregation kind pane count exact) }
        ensures none { IfOk result (λ p. StandFor p []) }
    {
        let ring = match HeapCircularBuffer::with_capacity(alloc, count as usize) {
            Ok(ring) => ring,
            Err(_) => return Err(Memory),
        };
        match HeapCircularBuffer::with_capacity(alloc, best_count(aggregation, count)) {
            Ok(best) => Ok(Panes {
                aggregation,
                kind,
                pane,
                count,
                exact,
                told: false,
                newest: 0,
                added: 0,
                total: 0,
                ring,
                best,
            }),
            Err(_) => Err(Memory),
        }
    }

    /// One more value, `offset` after the start. Offsets do not fall.
    pub fn add(&mut self, offset: u64, value: Value)
        requires offset { self.old.newest ≤ offset }
        requires added { self.old.added < 2 ^ 63 }
        requires kind { IsTrue (is_of_kind self.old.kind value) }
        ensures window { SameWindow self.new self.old }
        ensures newest { self.new.newest ≡ offset }
        ensures added { self.new.added ≡ self.old.added + 1 }
        ensures all { (names : Naming) (all : List (ℕ × Field)) → StandFor self.old all → StandFor self.new (all ++ (offset, read names value) ∷ []) }
    {
        let number = pane_number(offset, self.pane);
        let weight = weight(self.aggregation, value);
        let total = self.total;
        let added = self.added;
        note(
            &mut self.ring,
            self.aggregation,
            number,
            added,
            total,
            weight,
        );
        keep_best(&mut self.best, self.aggregation, number, weight);
        self.total = plus(total, weight);
        self.added = added + 1;
        self.newest = offset;
        self.told = true;
    }

    /// The panes of a saved window in place of those that are kept: the partial results of the last panes up to pane `last`, in
    /// order, behind `added` values in all. Later values lie in no earlier pane.
    pub fn restore(&mut self, last: u64, partials: &[Partial], added: u64)
        requires added { added < 2 ^ 63 }
        requires newest { first_offset self.old.pane last < 2 ^ 64 }
        requires partials { length partials.now ≡ min (last + 1) self.old.count }
        requires counts { sum_by (counted self.old.aggregation) partials.now ≤ added }
        requires totals { sum_by (total_size self.old.aggregation) partials.now ≤ added * 2 ^ 64 }
        ensures window { SameWindow self.new self.old }
        ensures newest { self.new.newest ≡ first_offset self.old.pane last }
        ensures pane { newest_pane self.new ≡ Some last }
        ensures added { self.new.added ≡ added }
        ensures all { (all : List (ℕ × Field)) → AreRestored self.old.aggregation self.old.kind self.old.pane last partials.now all → StandFor self.new all }
    {
        let _kept = self.ring.len();
        let first = first_number(last, partials.len());
        let before = added - count_all(self.aggregation, partials);
        self.total = refill(&mut self.ring, self.aggregation, first, before, partials);
        rebuild(&mut self.best, self.aggregation, first, partials);
        self.newest = first_offset(self.pane, last);
        self.added = added;
        self.told = true;
    }

    /// The pane of the newest value; `None` exactly where no value was added.
    pub fn newest(&self) -> Option<u64>
        ensures pane { result ≡ newest_pane self.now }
        ensures all { (all : List (ℕ × Field)) → StandFor self.now all → result ≡ newest_of self.now.pane all }
    {
        if self.told {
            Some(pane_number(self.newest, self.pane))
        } else {
            None
        }
    }

    // What the values of the pane at a place come to, where it has this number.
    fn tally(&self, place: usize, number: u64) -> Tally
        requires { place ≤ length self.now.panes }
        ensures count { result.count ≡ own_count (count_before self.now.added (slice_get self.now.panes (place + 1))) (numbered number (slice_get self.now.panes place)) }
        ensures total { IsOwnTotal (total_before self.now.whole (slice_get self.now.panes (place + 1))) (numbered number (slice_get self.now.panes place)) result.total }
        ensures best { result.best ≡ extreme_of (numbered number (slice_get self.now.panes place)) }
    {
        let _kept = self.ring.len();
        match pane_at(&self.ring, place, number) {
            None => Tally {
                count: 0,
                total: 0,
                best: None,
            },
            Some(p) => Tally {
                count: count_before(&self.ring, place + 1, self.added).saturating_sub(
                    p.count_before,
                ),
                total: minus(
                    total_before(&self.ring, place + 1, self.total),
                    p.total_before,
                ),
                best: Some(p.extreme),
            },
        }
    }

    /// The partial result of the pane `k` before that of the newest value, where it is one of the panes of the window that ends
    /// with that.
    pub fn partial(&self, k: u32) -> Partial
        requires told { self.now.told ≡ true }
        requires count { k < self.now.count }
        requires pane { k ≤ number_at self.now.pane self.now.newest }
        ensures { (all : List (ℕ × Field)) → StandFor self.now all
            → result ≡ partial_of self.now.aggregation (pane_values self.now.pane (number_at self.now.pane self.now.newest - k) all) }
    {
        let number = pane_number(self.newest, self.pane) - k as u64;
        let place = left(&self.ring, 1, number);
        let tally = self.tally(place, number);
        part(self.aggregation, tally.count, tally.total, tally.best)
    }

    // The values from the pane at a place on.
    fn since(&self, first: usize) -> Since
        ensures count { result.count ≡ since_count self.now.added (slice_get self.now.panes first) }
        ensures total { IsSinceTotal self.now.whole (slice_get self.now.panes first) result.total }
    {
        match self.ring.get(first) {
            None => Since { count: 0, total: 0 },
            Some(p) => Since {
                count: self.added.saturating_sub(p.count_before),
                total: minus(self.total, p.total_before),
            },
        }
    }

    // The window that ends with pane `k`.
    fn read_at(&self, k: u64) -> Outcome
        requires { self.now.newest ≤ k * self.now.pane }
        ensures kind { IsTrue (is_outcome_of (gives_kind self.now.aggregation self.now.kind) result) }
        ensures value { (names : Naming) (all : List (ℕ × Field)) → StandFor self.now all
            → read_outcome names result ≡ aggregated self.now.aggregation self.now.kind (values_within (self.now.count * self.now.pane) (k * self.now.pane) all) }
    {
        if is_extreme(self.aggregation) {
            let first = left(&self.best, self.count, k);
            best_answer(self.kind, extreme_at(&self.best, first))
        } else {
            let first = left(&self.ring, self.count, k);
            let since = self.since(first);
            total_answer(self.aggregation, self.kind, since.count, since.total)
        }
    }

    /// The window that ends at an offset, which is a multiple of a pane's length and not below that of any value: the
    /// aggregation of all values that were ever added and whose offset lies in it.
    pub fn read(&self, offset: u64) -> Outcome
        requires newest { self.now.newest ≤ offset }
        requires whole { (k : ℕ) × (offset ≡ k * self.now.pane) }
        ensures kind { IsTrue (is_outcome_of (gives_kind self.now.aggregation self.now.kind) result) }
        ensures value { (names : Naming) (all : List (ℕ × Field)) → StandFor self.now all
            → read_outcome names result ≡ (if self.now.exact && nat_lt offset (self.now.count * self.now.pane) then Missing
            else aggregated self.now.aggregation self.now.kind (values_within (self.now.count * self.now.pane) offset all)) }
    {
        let k = offset / self.pane;
        if is_early(self.exact, k, self.count) {
            Outcome::Missing
        } else {
            self.read_at(k)
        }
    }

    /// How many panes are kept.
    pub fn len(&self) -> u32
        ensures length { result ≡ length self.now.panes }
        ensures count { result ≤ self.now.count }
    {
        let _count = self.count;
        self.ring.len() as u32
    }
}
