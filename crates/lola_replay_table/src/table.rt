//! What is known of a run between two steps and in one: who lives, with all values, and what this step came to so far.

ghost use Rattle.std.specs.Prelude.{◌≡◌, ◌++◌, [], ◌∷◌, IfOk, OnErr, OnOk, filter, option_to_list};
ghost use Rattle.lola_value.specs.Arithmetic.{all_equal};
ghost use Rattle.lola_replay_table.specs.Clauses.{is_known_among};
ghost use Rattle.lola_replay_table.specs.Open.{born_life, born_lives};
ghost use Rattle.lola_replay_table.specs.Resting.{is_at_rest, left_lives, said_at};

use crate::answer::{KeptAnswer, keep_field, lend};
use crate::operators::equal;
use lola_value::text::{Field, Fields, Memory};
use lola_value::value::FaultKind;
use std::alloc::Global;
use std::marker::Model;

/// The values of an instance at earlier steps, each with the time of its step in nanoseconds.
#[derive(Drop)]
pub struct Values {
    items: Vec<(u64, Field)>,
    // Whether no time is above a later one; and then no time is above `newest`.
    in_order: bool,
    newest: u64,
}

impl Model for Values {
    ghost use Rattle.std.specs.Prelude.{ℕ, List, ◌≡◌, true};
    ghost use Rattle.lola_value.specs.declared.text.Field.{Field};
    ghost use Rattle.lola_replay_table.specs.Times.{AreUpTo};

    ghost Value = { List (ℕ × Field) };

    ghost view = { λ a. a.items.items };

    ghost invariant = { λ a. a.in_order ≡ true → AreUpTo a.newest a.items.items };
}

impl Values {
    ghost use Rattle.std.specs.Prelude.{IsTrue};
    ghost use Rattle.lola_replay_table.specs.Times.{AreInOrder};

    /// No values.
    pub fn create(alloc: Global) -> Values
        ensures { result ≡ [] }
    {
        Values {
            items: Vec::new(alloc),
            in_order: true,
            newest: 0,
        }
    }

    /// Puts a value behind the others; unchanged where there is no memory.
    pub fn push(&mut self, time: u64, value: Field) -> Result<(), Memory>
        ensures ok { OnOk result (self.new ≡ self.old ++ (time, value) ∷ []) }
        ensures err { OnErr result (self.new ≡ self.old) }
    {
        self.items.push((time, value))?;
        if time < self.newest {
            self.in_order = false;
        } else {
            self.newest = time;
        }
        Ok(())
    }

    /// All of them, in order.
    pub fn as_slice(&self) -> &[(u64, Field)]
        ensures { result.now ≡ self.now }
    {
        self.items.as_slice()
    }

    /// Whether it is known that no value has a time above a later one's.
    pub fn are_in_order(&self) -> bool
        ensures { IsTrue result → AreInOrder self.now }
    {
        self.in_order
    }
}

/// What is known of an instance.
#[derive(Drop)]
pub struct KnownLife {
    pub params: Fields,
    /// The time of the step of its birth, in nanoseconds.
    pub born: u64,
    pub earlier: Values,
    /// What it comes to in this step, once that is known.
    pub outcome: Option<KeptAnswer>,
}

/// The instances of a stream that live, in the order of their births.
#[derive(Drop)]
pub struct Lives {
    items: Vec<KnownLife>,
}

impl Model for Lives {
    ghost use Rattle.std.specs.Prelude.{List};
    ghost use Rattle.lola_replay_table.specs.declared.table.KnownLife.{KnownLife};

    ghost Value = { List KnownLife };

    ghost view = { λ a. a.items.items };
}

impl Lives {
    /// None.
    pub fn create(alloc: Global) -> Lives
        ensures { result ≡ [] }
    {
        Lives {
            items: Vec::new(alloc),
        }
    }

    /// Puts one behind the others; unchanged where there is no memory.
    pub fn push(&mut self, life: KnownLife) -> Result<(), Memory>
        ensures ok { OnOk result (self.new ≡ self.old ++ life ∷ []) }
        ensures err { OnErr result (self.new ≡ self.old) }
    {
        self.items.push(life)?;
        Ok(())
    }

    /// All of them, in order.
    pub fn as_slice(&self) -> &[KnownLife]
        ensures { result.now ≡ self.now }
    {
        self.items.as_slice()
    }
}

/// What a spawn clause did in a step.
#[derive(Drop)]
pub enum KeptSpawn {
    Idle,
    /// It named an instance by these parameters.
    Named(Fields),
    Fault(FaultKind),
    Poisoned,
}

impl KeptSpawn {
    ghost use Rattle.lola_model.specs.Content.{is_bad};
    ghost use Rattle.lola_replay_table.specs.Answers.{kept_spawn};

    /// Whether it makes its stream bad in this step: it has a fault, or is poisoned.
    pub fn is_bad(&self) -> bool
        ensures { result ≡ is_bad (kept_spawn self.now) }
    {
        match self {
            KeptSpawn::Idle => false,
            KeptSpawn::Named(_) => false,
            KeptSpawn::Fault(_) => true,
            KeptSpawn::Poisoned => true,
        }
    }
}

/// What is known of a stream.
#[derive(Drop)]
pub struct KnownStream {
    /// How many inputs stand before it.
    pub input: usize,
    /// What its spawn clause does in this step, once that is known. Before that, the instance that is born in this step is not
    /// among those that live.
    pub spawned: Option<KeptSpawn>,
    pub lives: Lives,
}

impl Lives {
    ghost use Rattle.std.specs.Prelude.{◌<◌, length};
    ghost use Rattle.lola_replay_table.specs.Open.{changed_at, with_outcome};

    /// Notes what the instance at a place comes to.
    pub fn note(&mut self, place: usize, outcome: KeptAnswer)
        requires { place < length self.old }
        ensures { self.new ≡ changed_at place (with_outcome outcome) self.old }
    {
        self.items[place].outcome = Some(outcome);
    }
}

/// What is known of all streams, in their order.
#[derive(Drop)]
pub struct KnownRun {
    items: Vec<KnownStream>,
}

impl Model for KnownRun {
    ghost use Rattle.std.specs.Prelude.{List};
    ghost use Rattle.lola_replay_table.specs.declared.table.KnownStream.{KnownStream};

    ghost Value = { List KnownStream };

    ghost view = { λ a. a.items.items };
}

impl KnownRun {
    ghost use Rattle.std.specs.Prelude.{◌<◌, length};
    ghost use Rattle.lola_replay_table.specs.Open.{IsOpenOutcome, changed_at, with_life_outcome, with_spawn};

    /// Of no stream.
    pub fn create(alloc: Global) -> KnownRun
        ensures { result ≡ [] }
    {
        KnownRun {
            items: Vec::new(alloc),
        }
    }

    /// Puts what is known of a stream behind the others; unchanged where there is no memory.
    pub fn push(&mut self, stream: KnownStream) -> Result<(), Memory>
        ensures ok { OnOk result (self.new ≡ self.old ++ stream ∷ []) }
        ensures err { OnErr result (self.new ≡ self.old) }
    {
        self.items.push(stream)?;
        Ok(())
    }

    /// All of them, in order.
    pub fn as_slice(&self) -> &[KnownStream]
        ensures { result.now ≡ self.now }
    {
        self.items.as_slice()
    }

    /// Notes what an instance comes to.
    pub fn note_outcome(&mut self, stream: usize, place: usize, outcome: KeptAnswer)
        requires { IsOpenOutcome self.old stream place }
        ensures { self.new ≡ changed_at stream (with_life_outcome place outcome) self.old }
    {
        self.items[stream].lives.note(place, outcome);
    }

    /// Notes what a spawn clause does, and the instance that is born of it.
    pub fn note_spawn(
        &mut self,
        alloc: Global,
        time: u64,
        stream: usize,
        spawned: KeptSpawn,
    ) -> Result<(), Memory>
        requires { stream < length self.old }
        ensures { OnOk result (self.new ≡ changed_at stream (with_spawn time spawned) self.old) }
    {
        self.items[stream].note_spawn(alloc, time, spawned)
    }
}

impl KnownRun {
    ghost use Rattle.std.specs.Prelude.{◌<◌, length};
    ghost use Rattle.lola_replay_table.specs.Open.{changed_at};
    ghost use Rattle.lola_replay_table.specs.Resting.{rested_stream};

    /// The step of this time is behind a stream: its values are earlier ones, and the instances at the places that are said to be
    /// closed are gone.
    pub fn rest(&mut self, stream: usize, time: u64, closed: &[bool]) -> Result<(), Memory>
        requires { stream < length self.old }
        ensures { OnOk result (self.new ≡ changed_at stream (rested_stream time closed.now) self.old) }
    {
        self.items[stream].rest(time, closed)
    }
}

impl KnownLife {
    ghost use Rattle.lola_replay_table.specs.Resting.{rested_life};

    // The step of this time is behind it.
    fn rest(&mut self, time: u64) -> Result<(), Memory>
        ensures { OnOk result (self.new ≡ rested_life time self.old) }
    {
        let outcome = self.outcome.take();
        match outcome {
            Some(KeptAnswer::Given(value)) => self.earlier.push(time, value),
            Some(KeptAnswer::Missing) => Ok(()),
            Some(KeptAnswer::Fault(_)) => Ok(()),
            Some(KeptAnswer::Poisoned) => Ok(()),
            None => Ok(()),
        }
    }
}

// Whether the instance at a place is said to be closed.
fn is_said(closed: &[bool], place: usize) -> bool
    ensures { result ≡ said_at closed.now place }
{
    match closed.get(place) {
        Some(gone) => *gone,
        None => false,
    }
}

// The instances of which nothing of a step is known.
fn keep_rested(lives: &mut Vec<KnownLife>)
    ensures { lives.new.items ≡ filter is_at_rest lives.old.items }
{
    lives.retain(|life| life.outcome.is_none());
}

impl Lives {
    ghost use Rattle.std.specs.Prelude.{◌<◌, length};
    ghost use Rattle.lola_replay_table.specs.Open.{changed_at};
    ghost use Rattle.lola_replay_table.specs.Resting.{marked_life, rested_life};

    // The step is behind the instance at a place, or it is closed.
    fn mark(&mut self, place: usize, time: u64, closed: bool) -> Result<(), Memory>
        requires { place < length self.old }
        ensures { OnOk result (self.new ≡ changed_at place (marked_life time closed) self.old) }
    {
        if closed {
            self.note(place, KeptAnswer::Missing);
            Ok(())
        } else {
            self.rest_one(place, time)
        }
    }

    // The step is behind the instance at a place.
    fn rest_one(&mut self, place: usize, time: u64) -> Result<(), Memory>
        requires { place < length self.old }
        ensures { OnOk result (self.new ≡ changed_at place (rested_life time) self.old) }
    {
        self.items[place].rest(time)
    }

    // Takes those away of which something of a step is known.
    fn leave_rested(&mut self)
        ensures { self.new ≡ filter is_at_rest self.old }
    {
        keep_rested(&mut self.items);
    }
}

// The step is behind all instances; those at the places that are said to be closed are gone.
fn rest_lives(lives: &mut Lives, time: u64, closed: &[bool]) -> Result<(), Memory>
    ensures { OnOk result (lives.new ≡ left_lives time closed.now lives.old) }
{
    let mut place = 0;
    while place < lives.as_slice().len() {
        lives.mark(place, time, is_said(closed, place))?;
        place += 1;
    }
    lives.leave_rested();
    Ok(())
}

impl KnownStream {
    ghost use Rattle.lola_replay_table.specs.Open.{with_spawn};
    ghost use Rattle.lola_replay_table.specs.Resting.{rested_stream};

    // The step of this time is behind it.
    fn rest(&mut self, time: u64, closed: &[bool]) -> Result<(), Memory>
        ensures { OnOk result (self.new ≡ rested_stream time closed.now self.old) }
    {
        rest_lives(&mut self.lives, time, closed)?;
        self.spawned = None;
        Ok(())
    }

    // Notes what the spawn clause does, and the instance that is born of it.
    fn note_spawn(&mut self, alloc: Global, time: u64, spawned: KeptSpawn) -> Result<(), Memory>
        ensures { OnOk result (self.new ≡ with_spawn time spawned self.old) }
    {
        if let Some(life) = born(alloc, time, &spawned, self.lives.as_slice())? {
            self.lives.push(life)?;
        }
        self.spawned = Some(spawned);
        Ok(())
    }
}

// The instance that is born where a spawn clause does this, and these live.
fn born(
    alloc: Global,
    time: u64,
    spawned: &KeptSpawn,
    lives: &[KnownLife],
) -> Result<Option<KnownLife>, Memory>
    ensures { IfOk result (λ life. option_to_list life ≡ born_lives time spawned.now lives.now) }
{
    match spawned {
        KeptSpawn::Named(params) => {
            if !is_among(params.as_slice(), lives) && lives.len() < MOST_INSTANCES {
                let life = newborn(alloc, time, params.as_slice())?;
                Ok(Some(life))
            } else {
                Ok(None)
            }
        }
        _ => Ok(None),
    }
}

// A newborn instance with these parameters.
fn newborn(alloc: Global, time: u64, params: &[Field]) -> Result<KnownLife, Memory>
    ensures { IfOk result (λ life. life ≡ born_life time params.now) }
{
    let params = copied(alloc, params)?;
    Ok(KnownLife {
        params,
        born: time,
        earlier: Values::create(alloc),
        outcome: None,
    })
}

/// A copy of these fields.
pub fn copied(alloc: Global, fields: &[Field]) -> Result<Fields, Memory>
    ensures { IfOk result (λ copy. copy ≡ fields.now) }
{
    let mut copy = Fields::create(alloc);
    for field in fields {
        let kept = keep_field(alloc, lend(field))?;
        copy.push(kept)?;
    }
    Ok(copy)
}

// Whether two lists of fields are the same.
fn are_same(params: &[Field], fields: &[Field]) -> bool
    ensures { result ≡ all_equal params.now fields.now }
{
    match params {
        [] => match fields {
            [] => true,
            [_, ..] => false,
        },
        [a, others @ ..] => match fields {
            [] => false,
            [b, more @ ..] => equal(lend(a), lend(b)) && are_same(others, more),
        },
    }
}

/// Whether these are the parameters of a living instance.
pub fn is_among(params: &[Field], lives: &[KnownLife]) -> bool
    ensures { result ≡ is_known_among params.now lives.now }
{
    for life in lives {
        if are_same(params, life.params.as_slice()) {
            return true;
        }
    }
    false
}

/// The most instances of a stream.
pub const MOST_INSTANCES: usize = 65_536;
