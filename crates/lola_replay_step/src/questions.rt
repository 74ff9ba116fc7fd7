//! Answers the questions of a step, each on demand. What waits for another answer is tried again once that is there; the open
//! questions stand in a list, each waiting for the one behind it.

ghost use Rattle.std.specs.Prelude.{◌≡◌, ◌≤◌, ◌<◌, length, Ok, Err, OnOk};
ghost use Rattle.lola_value.specs.Times.{latest};
ghost use Rattle.lola_model.specs.Accepted.{HasLayers};
ghost use Rattle.lola_replay_table.specs.Moments.{HasSet, the_step};
ghost use Rattle.lola_replay_table.specs.Open.{IsOpen, IsOpenOutcome, IsOpenSpawn};
ghost use Rattle.lola_replay_step.specs.AnsweringOf.{Answered, GivesOutcome, GivesSpawnOf, AnswersQuestion};
ghost use Rattle.lola_replay_table.specs.declared.question.Question.TheVariants.{SpawnOf, OutcomeOf};

use crate::clauses::{outcome, spawn};
use lola_model::plan::Plan;
use lola_replay_table::answer::{KeptAnswer, keep};
use lola_replay_table::question::{Question, Unanswered};
use lola_replay_table::scene::{ReplayedStep, Scene};
use lola_replay_table::table::{KeptSpawn, KnownRun, KnownStream};
use lola_value::text::Memory;
use std::alloc::Global;

// What an instance comes to, or the question that it waits for.
fn tried_outcome(
    alloc: Global,
    plan: &Plan,
    moment: &ReplayedStep,
    known: &[KnownStream],
    number: usize,
    place: usize,
) -> Result<KeptAnswer, Unanswered>
    requires in_time { moment.now.time ≤ latest }
    requires set { HasSet moment.now }
    requires long { length known.now ≡ length plan.now.spec.streams }
    requires open_yet { IsOpenOutcome known.now number place }
    ensures { GivesOutcome plan.now moment.now.start (the_step moment.now) known.now number place result }
{
    let scene = Scene {
        alloc,
        plan,
        moment: *moment,
        known,
    };
    let stream = &plan.spec.streams.as_slice()[number];
    let target = &known[number];
    let life = &target.lives.as_slice()[place];
    let answer = outcome(&scene, number, stream, target, life)?;
    let kept = keep(alloc, answer)?;
    Ok(kept)
}

// What a spawn clause does, or the question that it waits for.
fn tried_spawn(
    alloc: Global,
    plan: &Plan,
    moment: &ReplayedStep,
    known: &[KnownStream],
    number: usize,
) -> Result<KeptSpawn, Unanswered>
    requires in_time { moment.now.time ≤ latest }
    requires set { HasSet moment.now }
    requires long { length known.now ≡ length plan.now.spec.streams }
    requires open_yet { IsOpenSpawn known.now number }
    ensures { GivesSpawnOf plan.now moment.now.start (the_step moment.now) known.now number result }
{
    let scene = Scene {
        alloc,
        plan,
        moment: *moment,
        known,
    };
    let stream = &plan.spec.streams.as_slice()[number];
    let target = &known[number];
    spawn(&scene, number, stream, target.lives.as_slice())
}

// Answers a question about an instance, or gives the one that it waits for.
fn answer_outcome(
    alloc: Global,
    plan: &Plan,
    moment: &ReplayedStep,
    known: &mut KnownRun,
    number: usize,
    place: usize,
) -> Result<Option<Question>, Memory>
    requires in_time { moment.now.time ≤ latest }
    requires set { HasSet moment.now }
    requires long { length known.old ≡ length plan.now.spec.streams }
    requires open_yet { IsOpenOutcome known.old number place }
    ensures { Answered plan.now moment.now.start (the_step moment.now) (OutcomeOf number place) known.old known.new result }
{
    match tried_outcome(alloc, plan, moment, known.as_slice(), number, place) {
        Ok(kept) => {
            known.note_outcome(number, place, kept);
            Ok(None)
        }
        Err(Unanswered::Asks(next)) => Ok(Some(next)),
        Err(Unanswered::Memory) => Err(Memory),
    }
}

// Answers a question about a spawn clause, or gives the one that it waits for.
fn answer_spawn(
    alloc: Global,
    plan: &Plan,
    moment: &ReplayedStep,
    known: &mut KnownRun,
    number: usize,
) -> Result<Option<Question>, Memory>
    requires in_time { moment.now.time ≤ latest }
    requires set { HasSet moment.now }
    requires long { length known.old ≡ length plan.now.spec.streams }
    requires open_yet { IsOpenSpawn known.old number }
    ensures { Answered plan.now moment.now.start (the_step moment.now) (SpawnOf number) known.old known.new result }
{
    match tried_spawn(alloc, plan, moment, known.as_slice(), number) {
        Ok(kept) => {
            known.note_spawn(alloc, moment.time, number, kept)?;
            Ok(None)
        }
        Err(Unanswered::Asks(next)) => Ok(Some(next)),
        Err(Unanswered::Memory) => Err(Memory),
    }
}

// Answers a question, or gives the one that it waits for.
fn answer(
    alloc: Global,
    plan: &Plan,
    moment: &ReplayedStep,
    known: &mut KnownRun,
    question: Question,
) -> Result<Option<Question>, Memory>
    requires in_time { moment.now.time ≤ latest }
    requires set { HasSet moment.now }
    requires long { length known.old ≡ length plan.now.spec.streams }
    requires open_yet { IsOpen known.old question }
    ensures { Answered plan.now moment.now.start (the_step moment.now) question known.old known.new result }
{
    match question {
        Question::SpawnOf(number) => answer_spawn(alloc, plan, moment, known, number),
        Question::OutcomeOf(number, place) => answer_outcome(
            alloc, plan, moment, known, number, place,
        ),
    }
}

/// Answers a question, and before it all that it waits for. The list of what waits is room that is kept from call to call.
pub fn answer_question(
    alloc: Global,
    plan: &Plan,
    moment: &ReplayedStep,
    known: &mut KnownRun,
    waiting: &mut Vec<Question>,
    first: Question,
) -> Result<(), Memory>
    requires in_time { moment.now.time ≤ latest }
    requires set { HasSet moment.now }
    requires layers { HasLayers plan.now }
    requires long { length known.old ≡ length plan.now.spec.streams }
    requires open_yet { IsOpen known.old first }
    ensures { OnOk result (AnswersQuestion plan.now moment.now.start (the_step moment.now) first known.old known.new) }
{
    waiting.clear();
    waiting.push(first)?;
    while let Some(question) = waiting.pop() {
        match answer(alloc, plan, moment, known, question)? {
            Some(next) => {
                waiting.push(question)?;
                waiting.push(next)?;
            }
            None => {}
        }
    }
    Ok(())
}
