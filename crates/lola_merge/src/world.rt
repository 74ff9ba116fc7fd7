//! The schedule core: sources with the rows that are to come of each, the merge object, and what was taken of it.

ghost use Rattle.std.specs.Prelude.{◌≡◌, ◌≤◌, ◌<◌, ◌+◌, ◌++◌, [], ◌∷◌, ℕ, List, length, map, Option, IfOk, OnOk, OnErr, MatchOption, IsTrue, true, false, slice_set, slice_get, vec_capacity, vec_len};
ghost use Rattle.std.specs.VecDeque.{deque_len, deque_capacity};
ghost use Rattle.lola_merge.specs.Queues.{PopsNone, PopsRow, HasSpare};
ghost use Rattle.lola_merge.specs.Interleaving.{Situation, beginning, list_of, after_turn, Changed, IsActor, StandRight, Interleaves};
ghost use Rattle.lola_model.specs.declared.journal.Row.{Row};

use crate::batch::{Batch, MOST};
use crate::state::{MergeState, Offer};
use lola_model::journal::{Entry, Row};
use lola_value::text::Memory;
use std::alloc::Global;
use std::collections::VecDeque;
use std::marker::Model;

/// Whose turn it is.
#[derive(Clone, Copy)]
pub enum Actor {
    /// The source of this number.
    Source(u32),
    /// The one that takes rows.
    Engine,
}

/// The rows still to come of each source, the merge object, and what was taken of it.
#[derive(Drop)]
pub struct World {
    to_come: Vec<VecDeque<Row>>,
    merging: MergeState,
    batch: Batch,
    taken: Vec<Entry>,
}

impl Model for World {
    ghost use Rattle.std.specs.Prelude.{◌≡◌, [], map, length};
    ghost use Rattle.lola_merge.specs.Merging.{sources_of};
    ghost use Rattle.lola_merge.specs.Queues.{PopsNone, PopsRow, HasSpare};
    ghost use Rattle.lola_merge.specs.Interleaving.{Situation, StandRight};

    ghost Value = { Situation };

    ghost view = { λ w. record { to_come = map (λ q. q.items) w.to_come.items; merging = w.merging; taken = w.taken.items } };

    ghost invariant = { λ w. (w.batch ≡ []) × (sources_of w.merging ≡ length w.to_come.items) × StandRight (map (λ q. q.items) w.to_come.items) };
}

impl World {
    /// The world where these rows are to come, a list for each source, and nothing has come. The merged time is the
    /// start, or else 0.
    pub fn create(alloc: Global, rows: Vec<Vec<Row>>, start: Option<u64>) -> Result<World, Memory>
        requires count { (1 ≤ length rows.items) × (length rows.items ≤ 64) }
        requires sources { StandRight (map (λ v. v.items) rows.items) }
        ensures opening { IfOk result (λ world. world ≡ beginning (map (λ v. v.items) rows.items) start) }
        ensures interleaves { IfOk result (λ world. Interleaves (map (λ v. v.items) rows.items) start world) }
    {
        let merging = MergeState::create(alloc, rows.len() as u32, start)?;
        let batch = Batch::create(alloc)?;
        let to_come = queues(alloc, rows)?;
        Ok(World {
            to_come,
            merging,
            batch,
            taken: Vec::new(alloc),
        })
    }

    /// One turn: a source offers its first row, or finishes where it has none, and the taker takes all that is
    /// pending. Says whether anything changed. Where there is no memory nothing has changed.
    pub fn turn(&mut self, actor: Actor) -> Result<bool, Memory>
        requires { IsActor self.old actor }
        ensures turned { OnOk result (self.new ≡ after_turn self.old actor) }
        ensures changed { IfOk result (λ changed. Changed changed self.old self.new) }
        ensures memory { OnErr result (self.new ≡ self.old) }
        ensures sources { length self.new.to_come ≡ length self.old.to_come }
        ensures interleaves { (lists : List (List Row)) (start : Option ℕ) → StandRight lists → Interleaves lists start self.old → Interleaves lists start self.new }
    {
        match actor {
            Actor::Source(source) => Ok(self.source_turn(source)),
            Actor::Engine => self.engine_turn(),
        }
    }

    // A turn of a source.
    fn source_turn(&mut self, source: u32) -> bool
        requires { source < length self.old.to_come }
        ensures turned { self.new ≡ after_turn self.old (Actor.Source source) }
        ensures changed { Changed result self.old self.new }
        ensures sources { length self.new.to_come ≡ length self.old.to_come }
    {
        let Some(row) = pop_row(&mut self.to_come, source as usize) else {
            let finished = self.merging.has_finished(source);
            self.merging.finish(source);
            return !finished;
        };
        match self.merging.offer(row) {
            Offer::Full(row) => {
                put_back(&mut self.to_come, source as usize, row);
                false
            }
            _ => true,
        }
    }

    // A turn of the one that takes rows.
    fn engine_turn(&mut self) -> Result<bool, Memory>
        ensures turned { OnOk result (self.new ≡ after_turn self.old Actor.Engine) }
        ensures changed { IfOk result (λ changed. Changed changed self.old self.new) }
        ensures memory { OnErr result (self.new ≡ self.old) }
        ensures sources { length self.new.to_come ≡ length self.old.to_come }
    {
        self.taken.reserve(MOST)?;
        self.merging.take(&mut self.batch);
        let changed = !self.batch.is_empty();
        move_all(&mut self.batch, &mut self.taken);
        Ok(changed)
    }

    /// What was taken so far, in order.
    pub fn taken(&self) -> &[Entry]
        ensures { result.now ≡ self.now.taken }
    {
        self.taken.as_slice()
    }
}

// The lists as queues.
fn queues(alloc: Global, rows: Vec<Vec<Row>>) -> Result<Vec<VecDeque<Row>>, Memory>
    ensures { IfOk result (λ queues. map (λ q. q.items) queues.items ≡ map (λ v. v.items) rows.items) }
{
    let mut queues = Vec::with_capacity(alloc, rows.len())?;
    for list in rows {
        queues.push(VecDeque::from_vec(list))?;
    }
    Ok(queues)
}

// The first row of a queue, if there is one.
fn pop_row(queues: &mut Vec<VecDeque<Row>>, at: usize) -> Option<Row>
    requires { at < length queues.old.items }
    ensures { MatchOption result
        (PopsNone (map (λ q. q.items) queues.old.items) at (map (λ q. q.items) queues.new.items))
        (λ row. PopsRow (map (λ q. q.items) queues.old.items) at row (map (λ q. q.items) queues.new.items) × HasSpare (λ q. deque_len q) (λ q. deque_capacity q) queues.new.items at) }
{
    queues[at].pop_front()
}

// A row in front of the others of its queue.
fn put_back(queues: &mut Vec<VecDeque<Row>>, at: usize, row: Row)
    requires { HasSpare (λ q. deque_len q) (λ q. deque_capacity q) queues.old.items at }
    ensures { map (λ q. q.items) queues.new.items ≡ slice_set (map (λ q. q.items) queues.old.items) at (row ∷ list_of (map (λ q. q.items) queues.old.items) at) }
{
    queues[at].push_front_reserved(row);
}

// Moves all entries behind those that are there.
fn move_all(batch: &mut Batch, to: &mut Vec<Entry>)
    requires { vec_len to.old + length batch.old ≤ vec_capacity to.old }
    ensures moved { to.new.items ≡ to.old.items ++ batch.old }
    ensures empty { batch.new ≡ [] }
{
    while let Some(entry) = batch.pop_front() {
        to.push_reserved(entry);
    }
}
