//! The instances of a stream are given what they come to in a step.

ghost use Rattle.std.specs.Prelude.{◌≡◌, ℕ, ◌≤◌, ◌<◌, ◌+◌, ◌-◌, ◌^◌, List, Option, Some, true, false, map, length, slice_get, IsTrue};
ghost use Rattle.std.specs.Thread.{IsSync};
ghost use Rattle.lola_value.specs.declared.text.Field.{Field};
ghost use Rattle.lola_value.specs.Kinds.{is_outcome_of};
ghost use Rattle.lola_value.specs.Naming.{Naming, IsHeldIn};
ghost use Rattle.lola_value.specs.Shorts.{is_given};
ghost use Rattle.lola_model.specs.Given.{AreHeldIn, AreOutcomesOf, given_at, given_each};
ghost use Rattle.lola_model.specs.Store.{is_silent};
ghost use Rattle.lola_instances_one.specs.Holdings.{slot_seen};
ghost use Rattle.lola_instances_stream.specs.Cells.{IsSlotChanged};
ghost use Rattle.lola_instances_stream.specs.Crowds.{RemembersAt, shown_at};
ghost use Rattle.lola_instances_stream.specs.Givings.{AreCellsGiven, AreCellsReady, HasGiven, HasGivenAt, IsReadyAt};
ghost use Rattle.lola_instances_stream.specs.Rights.{AreRight};

use crate::cells::{poison_in, tell_in};
use crate::instances::Instances;
use lola_instances_one::instance::Instance;
use lola_value::brief::Brief;
use lola_value::short::Short;
use std::thread::{Threads, join_mut};

// Whether an instance comes to nothing.
fn is_missing(outcome: Brief) -> bool
    ensures { result ≡ is_silent outcome }
{
    match outcome.short() {
        Short::Missing => true,
        _ => false,
    }
}

// An outcome that is no value, for the instance in a cell.
fn spoil_in(slot: &mut Option<Instance>, step: u64, _offset: u64, outcome: Brief)
    requires none { is_given outcome ≡ false }
    requires ready { IsReadyAt _offset (Some outcome) slot.old }
    ensures { IsSlotChanged (HasGiven step _offset outcome) slot.old slot.new }
{
    if !is_missing(outcome) {
        poison_in(slot, step);
    }
}

// An outcome of this step, for the instance in a cell.
fn give_in(slot: &mut Option<Instance>, step: u64, offset: u64, outcome: Brief)
    requires { IsReadyAt offset (Some outcome) slot.old }
    ensures { IsSlotChanged (HasGiven step offset outcome) slot.old slot.new }
{
    match outcome.value() {
        Some(value) => tell_in(slot, step, offset, value),
        None => spoil_in(slot, step, offset, outcome),
    }
}

// The outcome of a number, for the instance in a cell.
fn give_at(slot: &mut Option<Instance>, step: u64, offset: u64, outcomes: &[Brief], number: usize)
    requires { IsReadyAt offset (slice_get outcomes.now number) slot.old }
    ensures { IsSlotChanged (HasGivenAt step offset (slice_get outcomes.now number)) slot.old slot.new }
{
    give_in(slot, step, offset, outcomes[number]);
}

// Gives the instance in each of these cells the outcome of its number, one after another.
fn give_part(cells: &mut [Option<Instance>], step: u64, offset: u64, outcomes: &[Brief])
    requires { AreCellsReady offset outcomes.now cells.old }
    ensures { AreCellsGiven step offset outcomes.now cells.old cells.new }
{
    for number in 0..cells.len() {
        give_at(&mut cells[number], step, offset, outcomes, number);
    }
}

// The same by at most so many threads, of which each has so many cells and the last has the rest. The last is the caller, and starts each
// other one itself, so that none has to wait for another one's start.
fn give_among<R: Threads + Sync>(
    rt: &R,
    step: u64,
    offset: u64,
    size: usize,
    workers: u32,
    outcomes: &[Brief],
    cells: &mut [Option<Instance>],
)
    requires { AreCellsReady offset outcomes.now cells.old }
    ensures { AreCellsGiven step offset outcomes.now cells.old cells.new }
{
    if workers < 2 || cells.len() <= size {
        give_part(cells, step, offset, outcomes);
        return;
    }
    let fewer = workers - 1;
    let (own, later) = outcomes.split_at(size);
    let (first, others) = cells.split_at_mut(size);
    join_mut(
        rt,
        &mut ||
            requires { AreCellsReady offset own.now first.now }
            ensures { AreCellsGiven step offset own.entry.now first.entry.now first.exit.now }
        { give_part(first, step, offset, own) },
        &mut ||
            requires { IsSync R.row × AreCellsReady offset later.now others.now }
            ensures { AreCellsGiven step offset later.entry.now others.entry.now others.exit.now }
        { give_among(rt, step, offset, size, fewer, later, others) },
    );
}

/// Gives the instance in each cell the outcome of its number, by at most so many threads.
pub fn give_cells<R: Threads + Sync>(
    rt: &R,
    cells: &mut [Option<Instance>],
    step: u64,
    offset: u64,
    outcomes: &[Brief],
    workers: u32,
)
    requires workers { 1 ≤ workers }
    requires ready { AreCellsReady offset outcomes.now cells.old }
    ensures { AreCellsGiven step offset outcomes.now cells.old cells.new }
{
    let size = cells.len().div_ceil(workers as usize);
    give_among(rt, step, offset, size, workers, outcomes, cells);
}

// Gives one instance what it comes to.
fn give_one(lives: &mut Instances, step: u64, offset: u64, index: usize, outcome: Brief)
    requires step_ge { 2 ≤ step }
    requires step_le { step ≤ 2 ^ 63 + 1 }
    requires index { index < length lives.old.slots }
    requires silent { IsTrue (is_silent (shown_at step (slice_get lives.old.slots index))) }
    requires kind { IsTrue (is_outcome_of lives.old.layout.kind outcome) }
    requires right { AreRight true step offset lives.old }
    ensures right { AreRight true step offset lives.new }
    ensures rest { lives.new ≡ record lives.old { slots = lives.new.slots } }
    ensures count { length lives.new.slots ≡ length lives.old.slots }
    ensures seen { map (slot_seen step) lives.new.slots ≡ given_at (map (slot_seen step) lives.old.slots) index outcome }
    ensures past { (start time : ℕ) (names : Naming) (i : ℕ) (values : List (ℕ × Field)) → offset ≡ time - start → start ≤ time → IsHeldIn names outcome
        → RemembersAt start time step names (slice_get lives.old.slots i) values → RemembersAt start time step names (slice_get lives.new.slots i) values }
{
    match outcome.value() {
        Some(value) => lives.push(step, offset, index, value),
        None => spoil_one(lives, step, offset, index, outcome),
    }
}

// Gives one instance an outcome that is no value.
fn spoil_one(lives: &mut Instances, step: u64, offset: u64, index: usize, outcome: Brief)
    requires none { is_given outcome ≡ false }
    requires index { index < length lives.old.slots }
    requires silent { IsTrue (is_silent (shown_at step (slice_get lives.old.slots index))) }
    requires right { AreRight true step offset lives.old }
    ensures right { AreRight true step offset lives.new }
    ensures rest { lives.new ≡ record lives.old { slots = lives.new.slots } }
    ensures count { length lives.new.slots ≡ length lives.old.slots }
    ensures seen { map (slot_seen step) lives.new.slots ≡ given_at (map (slot_seen step) lives.old.slots) index outcome }
    ensures past { (start time : ℕ) (names : Naming) (i : ℕ) (values : List (ℕ × Field))
        → RemembersAt start time step names (slice_get lives.old.slots i) values → RemembersAt start time step names (slice_get lives.new.slots i) values }
{
    if !is_missing(outcome) {
        lives.poison(step, offset, index);
    }
}

/// Gives each instance what it comes to, one after another.
pub fn give_in_turn(lives: &mut Instances, step: u64, offset: u64, outcomes: &[Brief])
    requires step_ge { 2 ≤ step }
    requires step_le { step ≤ 2 ^ 63 + 1 }
    requires each { length outcomes.now ≡ length lives.old.slots }
    requires silent { (i : ℕ) → IsTrue (is_silent (shown_at step (slice_get lives.old.slots i))) }
    requires kinds { AreOutcomesOf lives.old.layout.kind outcomes.now }
    requires right { AreRight true step offset lives.old }
    ensures right { AreRight true step offset lives.new }
    ensures rest { lives.new ≡ record lives.old { slots = lives.new.slots } }
    ensures count { length lives.new.slots ≡ length lives.old.slots }
    ensures seen { map (slot_seen step) lives.new.slots ≡ given_each (map (slot_seen step) lives.old.slots) outcomes.now }
    ensures past { (start time : ℕ) (names : Naming) (i : ℕ) (values : List (ℕ × Field)) → offset ≡ time - start → start ≤ time → AreHeldIn names outcomes.now
        → RemembersAt start time step names (slice_get lives.old.slots i) values → RemembersAt start time step names (slice_get lives.new.slots i) values }
{
    for (i, outcome) in outcomes.iter().enumerate() {
        give_one(lives, step, offset, i, *outcome);
    }
}
