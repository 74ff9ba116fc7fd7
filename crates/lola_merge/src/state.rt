//! The merge object.

ghost use Rattle.std.specs.Prelude.{◌≡◌, ◌≤◌, ◌<◌, ◌↔◌, [], IfOk, IsTrue, length, true, slice_get, Some};
ghost use Rattle.std.specs.List.{list_all};
ghost use Rattle.lola_merge.specs.Merging.{Merging, opening, sources_of, offer_reply, offer_after, OfferIsDue, take_reply, take_after, TakeIsDue, finish_after, close_after, has_finished};

use crate::batch::{Batch, MOST};
use lola_model::journal::{Entry, Mark, Row};
use lola_value::text::Memory;
use std::alloc::Global;
use std::marker::Model;
use std::mem;

/// What becomes of an offered row.
#[derive(Drop)]
pub enum Offer {
    /// It is pending, marked accepted, and its stamp is the merged time.
    Accepted,
    /// It is pending, marked late by this merged time.
    Late(u64),
    /// It comes back: as many rows are pending as there is room for.
    Full(Row),
    /// It comes back: the merge object is closed.
    Closed(Row),
}

/// What became of taking all pending rows.
#[derive(Clone, Copy, PartialEq)]
pub enum Take {
    /// So many rows moved.
    Rows(u32),
    /// No row was pending, and some source has not finished.
    Nothing,
    /// No row was pending, and all sources have finished.
    AllDone,
}

/// The rows that came and are not yet taken, the merged time, which sources have finished, and whether it is closed.
#[derive(Drop)]
pub struct MergeState {
    pending: Batch,
    merged: u64,
    finished: Vec<bool>,
    closed: bool,
}

impl Model for MergeState {
    ghost use Rattle.std.specs.Prelude.{◌≤◌, length};
    ghost use Rattle.lola_merge.specs.Merging.{Merging};

    ghost Value = { Merging };

    ghost view = { λ s. record { pending = s.pending; merged = s.merged; finished = s.finished.items; closed = s.closed } };

    ghost invariant = { λ s. length s.pending ≤ 1024 };
}

// Whether all are true.
fn all(bits: &[bool]) -> bool
    ensures { result ≡ list_all (λ b. b) bits.now }
{
    bits.iter().all(|b| *b)
}

impl MergeState {
    /// The merge object of so many sources, where nothing has come. The merged time is the start, or else 0.
    pub fn create(alloc: Global, sources: u32, start: Option<u64>) -> Result<MergeState, Memory>
        requires { (1 ≤ sources) × (sources ≤ 64) }
        ensures { IfOk result (λ state. state ≡ opening sources start) }
    {
        let pending = Batch::create(alloc)?;
        let finished = Vec::from_elem(alloc, false, sources as usize)?;
        Ok(MergeState {
            pending,
            merged: start.unwrap_or(0),
            finished,
            closed: false,
        })
    }

    /// Offers a row. It takes no memory.
    pub fn offer(&mut self, row: Row) -> Offer
        ensures reply { result ≡ offer_reply self.old row }
        ensures cause { OfferIsDue self.old.closed (length self.old.pending) self.old.merged row result }
        ensures after { self.new ≡ offer_after self.old row }
        ensures sources { sources_of self.new ≡ sources_of self.old }
    {
        if self.closed {
            return Offer::Closed(row);
        }
        if self.pending.is_full() {
            return Offer::Full(row);
        }
        if row.stamp < self.merged {
            let merged = self.merged;
            self.pending.push(marked(row, Mark::Late(merged)));
            return Offer::Late(merged);
        }
        self.merged = row.stamp;
        self.pending.push(marked(row, Mark::Accepted));
        Offer::Accepted
    }

    /// Moves all pending rows into an empty batch, in their order. It takes no memory.
    pub fn take(&mut self, into: &mut Batch) -> Take
        requires { into.old ≡ [] }
        ensures reply { result ≡ take_reply self.old }
        ensures cause { TakeIsDue (length self.old.pending) (sources_of self.old) (has_finished self.old) result }
        ensures moved { into.new ≡ self.old.pending }
        ensures fits { length into.new ≤ MOST }
        ensures after { self.new ≡ take_after self.old }
        ensures sources { sources_of self.new ≡ sources_of self.old }
    {
        mem::swap(&mut self.pending, into);
        let count = into.len();
        if count > 0 {
            return Take::Rows(count as u32);
        }
        if all(self.finished.as_slice()) {
            Take::AllDone
        } else {
            Take::Nothing
        }
    }

    /// This source has no more rows. A number that no source has changes nothing.
    pub fn finish(&mut self, source: u32)
        ensures after { self.new ≡ finish_after self.old source }
        ensures sources { sources_of self.new ≡ sources_of self.old }
    {
        let source = source as usize;
        if source < self.finished.len() {
            self.finished[source] = true;
        }
    }

    /// Whether this source has finished.
    pub fn has_finished(&self, source: u32) -> bool
        requires { source < sources_of self.now }
        ensures { result ≡ has_finished self.now source }
    {
        self.finished[source as usize]
    }

    /// From now on no row is let in.
    pub fn close(&mut self)
        ensures after { self.new ≡ close_after self.old }
        ensures sources { sources_of self.new ≡ sources_of self.old }
    {
        self.closed = true;
    }
}

// A row with what became of it.
fn marked(row: Row, mark: Mark) -> Entry
    ensures { result ≡ record { row = row; mark = mark } }
{
    Entry { row, mark }
}
