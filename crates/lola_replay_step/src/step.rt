//! A step: its spawn clauses are answered first, so that all its instances live when they are asked.

ghost use Rattle.std.specs.Prelude.{◌≡◌, ◌≤◌, ◌<◌, ℕ, length, slice_get, OnOk};
ghost use Rattle.lola_value.specs.Times.{latest};
ghost use Rattle.lola_model.specs.Accepted.{HasLayers};
ghost use Rattle.lola_replay_table.specs.Moments.{HasSet, the_step};
ghost use Rattle.lola_replay_step.specs.AnsweringOf.{PassesOutcome, PassesSpawn, AnswersAll, AnswersLivesOf, AnswersOutcomes, AnswersSpawns, is_open_at, lives_at};
ghost use Rattle.lola_replay_table.specs.Open.{IsOpenSpawn};

use crate::questions::answer_question;
use lola_model::plan::Plan;
use lola_replay_table::question::Question;
use lola_replay_table::scene::ReplayedStep;
use lola_replay_table::table::{KnownRun, KnownStream};
use lola_value::text::Memory;
use std::alloc::Global;

// Answers the question about a spawn clause, if it is open.
fn pass_spawn(
    alloc: Global,
    plan: &Plan,
    moment: &ReplayedStep,
    known: &mut KnownRun,
    waiting: &mut Vec<Question>,
    number: usize,
) -> Result<(), Memory>
    requires in_time { moment.now.time ≤ latest }
    requires set { HasSet moment.now }
    requires layers { HasLayers plan.now }
    requires long { length known.old ≡ length plan.now.spec.streams }
    requires there { number < length known.old }
    ensures { OnOk result (PassesSpawn plan.now moment.now.start (the_step moment.now) number known.old known.new) }
{
    if known.as_slice()[number].spawned.is_none() {
        answer_question(
            alloc,
            plan,
            moment,
            known,
            waiting,
            Question::SpawnOf(number),
        )
    } else {
        Ok(())
    }
}

/// Answers the questions about all spawn clauses.
pub fn answer_spawns(
    alloc: Global,
    plan: &Plan,
    moment: &ReplayedStep,
    known: &mut KnownRun,
    waiting: &mut Vec<Question>,
) -> Result<(), Memory>
    requires in_time { moment.now.time ≤ latest }
    requires set { HasSet moment.now }
    requires layers { HasLayers plan.now }
    requires long { length known.old ≡ length plan.now.spec.streams }
    ensures { OnOk result (AnswersSpawns plan.now moment.now.start (the_step moment.now) known.old known.new) }
{
    let mut number = 0;
    while number < known.as_slice().len() {
        pass_spawn(alloc, plan, moment, known, waiting, number)?;
        number += 1;
    }
    Ok(())
}

// Whether the question about an instance is open.
fn is_open(known: &[KnownStream], number: usize, place: usize) -> bool
    ensures { result ≡ is_open_at place (slice_get known.now number) }
{
    match known.get(number) {
        Some(stream) => match stream.lives.as_slice().get(place) {
            Some(life) => life.outcome.is_none(),
            None => false,
        },
        None => false,
    }
}

// How many instances of a stream live.
fn count(known: &[KnownStream], number: usize) -> usize
    ensures { result ≡ lives_at (slice_get known.now number) }
{
    match known.get(number) {
        Some(stream) => stream.lives.as_slice().len(),
        None => 0,
    }
}

// Answers the question about an instance, if it is open.
fn pass_outcome(
    alloc: Global,
    plan: &Plan,
    moment: &ReplayedStep,
    known: &mut KnownRun,
    waiting: &mut Vec<Question>,
    number: usize,
    place: usize,
) -> Result<(), Memory>
    requires in_time { moment.now.time ≤ latest }
    requires set { HasSet moment.now }
    requires layers { HasLayers plan.now }
    requires long { length known.old ≡ length plan.now.spec.streams }
    requires spawned { (n : ℕ) → ¬ (IsOpenSpawn known.old n) }
    ensures { OnOk result (PassesOutcome plan.now moment.now.start (the_step moment.now) number place known.old known.new) }
{
    if is_open(known.as_slice(), number, place) {
        answer_question(
            alloc,
            plan,
            moment,
            known,
            waiting,
            Question::OutcomeOf(number, place),
        )
    } else {
        Ok(())
    }
}

// Answers the questions about all instances of a stream.
fn answer_lives(
    alloc: Global,
    plan: &Plan,
    moment: &ReplayedStep,
    known: &mut KnownRun,
    waiting: &mut Vec<Question>,
    number: usize,
) -> Result<(), Memory>
    requires in_time { moment.now.time ≤ latest }
    requires set { HasSet moment.now }
    requires layers { HasLayers plan.now }
    requires long { length known.old ≡ length plan.now.spec.streams }
    requires spawned { (n : ℕ) → ¬ (IsOpenSpawn known.old n) }
    ensures { OnOk result (AnswersLivesOf plan.now moment.now.start (the_step moment.now) number known.old known.new) }
{
    let lives = count(known.as_slice(), number);
    let mut place = 0;
    while place < lives {
        pass_outcome(alloc, plan, moment, known, waiting, number, place)?;
        place += 1;
    }
    Ok(())
}

// Answers the questions about all instances.
fn answer_outcomes(
    alloc: Global,
    plan: &Plan,
    moment: &ReplayedStep,
    known: &mut KnownRun,
    waiting: &mut Vec<Question>,
) -> Result<(), Memory>
    requires in_time { moment.now.time ≤ latest }
    requires set { HasSet moment.now }
    requires layers { HasLayers plan.now }
    requires long { length known.old ≡ length plan.now.spec.streams }
    requires spawned { (n : ℕ) → ¬ (IsOpenSpawn known.old n) }
    ensures { OnOk result (AnswersOutcomes plan.now moment.now.start (the_step moment.now) known.old known.new) }
{
    let mut number = 0;
    while number < known.as_slice().len() {
        answer_lives(alloc, plan, moment, known, waiting, number)?;
        number += 1;
    }
    Ok(())
}

/// Answers all questions of a step: about spawn clauses first, and then about all instances.
pub fn answer_all(
    alloc: Global,
    plan: &Plan,
    moment: &ReplayedStep,
    known: &mut KnownRun,
    waiting: &mut Vec<Question>,
) -> Result<(), Memory>
    requires in_time { moment.now.time ≤ latest }
    requires set { HasSet moment.now }
    requires layers { HasLayers plan.now }
    requires long { length known.old ≡ length plan.now.spec.streams }
    ensures { OnOk result (AnswersAll plan.now moment.now.start (the_step moment.now) known.old known.new) }
{
    answer_spawns(alloc, plan, moment, known, waiting)?;
    answer_outcomes(alloc, plan, moment, known, waiting)?;
    Ok(())
}
