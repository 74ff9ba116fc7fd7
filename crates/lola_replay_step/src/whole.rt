//! A whole step: what is known between steps, as it begins, once all is answered, and with the step behind it.

ghost use Rattle.std.specs.Prelude.{◌≡◌, ◌≤◌, ◌+◌, ◌++◌, List, IfOk, OnOk, None, drop, if◌then◌else◌, length};
ghost use Rattle.std.specs.Option.{option_map};
ghost use Rattle.lola_value.specs.Times.{latest};
ghost use Rattle.lola_model.specs.Acceptance.{IsAccepted};
ghost use Rattle.lola_model.specs.Model.{is_input};
ghost use Rattle.lola_model.specs.Table.{TableRow};
ghost use Rattle.lola_replay_table.specs.Moments.{HasSet, the_step};
ghost use Rattle.lola_replay_table.specs.Open.{IsOpen};
ghost use Rattle.lola_replay_table.specs.declared.question.Question.{Question};
ghost use Rattle.lola_replay_step.specs.Rests.{AreBornIn, IsAnswered, IsFirst, Judged, Rests, begun, first_lives, fresh_from, rested_all};
ghost use Rattle.lola_replay_step.specs.StepFaults.{the_fault};

use crate::closes::{closed as tell_closed, first_closing};
use crate::fault::{StepFault, first_known};
use crate::step::answer_all;
use lola_model::plan::Plan;
use lola_model::spec::{Clause, Stream};
use lola_replay_table::question::Question;
use lola_replay_table::scene::{ReplayedStep, Scene};
use lola_replay_table::table::{KnownLife, KnownRun, KnownStream, Lives, Values};
use lola_value::text::{Fields, Memory};
use std::alloc::Global;

// The instances of a stream before the first step: one, where there is no spawn clause, as if it was born at a time.
fn first_lives(alloc: Global, time: u64, spawn: &Option<Clause>) -> Result<Lives, Memory>
    ensures { IfOk result (λ lives. lives ≡ first_lives time spawn.now) }
{
    let mut lives = Lives::create(alloc);
    if spawn.is_none() {
        lives.push(KnownLife {
            params: Fields::create(alloc),
            born: time,
            earlier: Values::create(alloc),
            outcome: None,
        })?;
    }
    Ok(lives)
}

// How many inputs stand before the stream behind this one.
fn next_input(input: usize, stream: &Stream) -> usize
    requires { input ≤ 1024 }
    ensures { result ≡ (if is_input stream.now then input + 1 else input) }
{
    if stream.is_input() { input + 1 } else { input }
}

// Puts what is known of streams before the first step behind what is there.
fn add_fresh(
    alloc: Global,
    time: u64,
    input: usize,
    streams: &[Stream],
    known: &mut KnownRun,
) -> Result<(), Memory>
    requires { input + length streams.now ≤ 1024 }
    ensures { OnOk result (known.new ≡ known.old ++ fresh_from time input streams.now) }
{
    match streams {
        [] => Ok(()),
        [stream, others @ ..] => {
            let lives = first_lives(alloc, time, &stream.spawn)?;
            known.push(KnownStream {
                input,
                spawned: None,
                lives,
            })?;
            add_fresh(alloc, time, next_input(input, stream), others, known)
        }
    }
}

/// What is known before the first step, where the instances that live then are said to be born at a time, in nanoseconds.
pub fn fresh(alloc: Global, plan: &Plan, time: u64) -> Result<KnownRun, Memory>
    requires { IsAccepted plan.now }
    ensures { IfOk result (λ known. known ≡ fresh_from time 0 plan.now.spec.streams) }
{
    let mut known = KnownRun::create(alloc);
    add_fresh(alloc, time, 0, plan.spec.streams.as_slice(), &mut known)?;
    Ok(known)
}

// As a step begins: the first instances are born in the first step.
fn begin(
    alloc: Global,
    plan: &Plan,
    first: bool,
    time: u64,
    known: &mut KnownRun,
) -> Result<(), Memory>
    requires { IsAccepted plan.now }
    ensures { OnOk result (known.new ≡ begun plan.now first time known.old) }
{
    if first {
        *known = fresh(alloc, plan, time)?;
    }
    Ok(())
}

// What stands behind so many.
fn behind(closed: &[bool], count: usize) -> &[bool]
    ensures { result.now ≡ drop count closed.now }
{
    if count < closed.len() {
        &closed[count..]
    } else {
        &[]
    }
}

/// The step of this time is behind all streams: their values are earlier ones, and the instances that are said to be closed, in the
/// order of the streams, are gone.
pub fn rest(known: &mut KnownRun, time: u64, closed: &[bool]) -> Result<(), Memory>
    ensures { OnOk result (known.new ≡ rested_all time closed.now known.old) }
{
    let mut left = closed;
    let mut number = 0;
    while number < known.as_slice().len() {
        let count = known.as_slice()[number].lives.as_slice().len();
        known.rest(number, time, left)?;
        left = behind(left, count);
        number += 1;
    }
    Ok(())
}

// The fault of a step in which all is answered; or, where there is none, which instances are closed.
fn judge(
    alloc: Global,
    plan: &Plan,
    moment: &ReplayedStep,
    known: &[KnownStream],
    closed: &mut Vec<bool>,
) -> Result<Option<StepFault>, Memory>
    requires in_time { moment.now.time ≤ latest }
    requires set { HasSet moment.now }
    requires accepted { IsAccepted plan.now }
    requires long { length known.now ≡ length plan.now.spec.streams }
    requires answered { (q : Question) → ¬ (IsOpen known.now q) }
    ensures { Judged plan.now moment.now.start (the_step moment.now) known.now closed.new.items result }
{
    if let Some(fault) = first_known(0, known) {
        return Ok(Some(fault));
    }
    let scene = Scene {
        alloc,
        plan,
        moment: *moment,
        known,
    };
    let streams = plan.spec.streams.as_slice();
    match first_closing(&scene, 0, streams, known)? {
        Some(fault) => Ok(Some(fault)),
        None => {
            closed.clear();
            tell_closed(&scene, 0, streams, known, closed)?;
            Ok(None)
        }
    }
}

/// Room that is kept from step to step.
#[derive(Drop)]
pub struct StepRoom {
    /// Questions that wait.
    pub waiting: Vec<Question>,
    /// Which instances a step closes, in the order of the streams and of their births.
    pub closed: Vec<bool>,
}

impl StepRoom {
    /// Room that grows with the steps.
    pub fn create(alloc: Global) -> StepRoom {
        StepRoom {
            waiting: Vec::new(alloc),
            closed: Vec::new(alloc),
        }
    }
}

/// Answers all questions of a step, the first one or a later one, and tells its fault, if it has one; where it has none, the room
/// tells which instances are closed in it.
pub fn answer_step(
    alloc: Global,
    plan: &Plan,
    moment: &ReplayedStep,
    first: bool,
    known: &mut KnownRun,
    room: &mut StepRoom,
) -> Result<Option<StepFault>, Memory>
    requires in_time { moment.now.time ≤ latest }
    requires set { HasSet moment.now }
    requires accepted { IsAccepted plan.now }
    requires long { length known.old ≡ length plan.now.spec.streams }
    ensures long { OnOk result (length known.new ≡ length known.old) }
    ensures answered { (rows : List TableRow) → IsFirst first rows → AreBornIn rows → Rests plan.now rows known.old
        → IfOk result (λ fault. IsAnswered plan.now moment.now.start (the_step moment.now) rows known.new room.new.closed.items (option_map the_fault fault)) }
{
    begin(alloc, plan, first, moment.time, known)?;
    answer_all(alloc, plan, moment, known, &mut room.waiting)?;
    judge(alloc, plan, moment, known.as_slice(), &mut room.closed)
}
