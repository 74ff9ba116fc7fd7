//! What close clauses come to, once all questions of a step are answered.

ghost use Rattle.std.specs.Prelude.{◌≡◌, ◌≤◌, ◌+◌, ◌++◌, None, IfOk, OnOk, Ok, length, slice_get};
ghost use Rattle.lola_value.specs.Times.{latest};
ghost use Rattle.lola_model.specs.Activity.{is_active_for};
ghost use Rattle.lola_model.specs.Model.{close_pacing};
ghost use Rattle.lola_replay_table.specs.Answers.{the_answer};
ghost use Rattle.lola_replay_table.specs.Moments.{HasSet};
ghost use Rattle.lola_replay_table.specs.Open.{IsOpen};
ghost use Rattle.lola_replay_table.specs.Scenes.{step_at};
ghost use Rattle.lola_replay_table.specs.Tries.{Gives};
ghost use Rattle.lola_replay_table.specs.declared.question.Question.{Question};
ghost use Rattle.lola_replay_step.specs.Closings.{all_closed_at, close_at, closed_at, closes_at, closes_by, faulted_of, first_closing_at, least_closing_at, least_of};
ghost use Rattle.lola_replay_step.specs.StepFaults.{the_fault};
ghost use Rattle.std.specs.Option.{option_map};

use crate::clauses::when_outcome;
use crate::fault::{StepFault, kind_of, lesser};
use lola_model::spec::Stream;
use lola_replay_table::answer::{LentAnswer, LentField};
use lola_replay_table::question::Unanswered;
use lola_replay_table::scene::{Scene, is_active_for};
use lola_replay_table::table::{KnownLife, KnownStream};
use lola_value::text::Memory;
use lola_value::value::FaultKind;

// Whether the close clause of a stream is active for an instance that was born at a time.
fn is_close_active(scene: &Scene, stream: usize, born: u64) -> bool
    requires in_time { scene.now.moment.time ≤ latest }
    requires set { HasSet scene.now.moment }
    ensures { result ≡ is_active_for scene.now.moment.start born (step_at scene.now) (close_pacing (slice_get scene.now.plan.now.pacings stream)) }
{
    match scene.plan.pacings.as_slice().get(stream) {
        Some(clauses) => is_active_for(&scene.moment, born, &clauses.close),
        None => false,
    }
}

// What the close condition of an instance comes to, or the question that it waits for.
fn tried<'a>(
    scene: &Scene<'a>,
    stream: &'a Stream,
    life: &'a KnownLife,
) -> Result<LentAnswer<'a>, Unanswered>
    ensures { Gives (close_at scene.now stream.now life.now) result }
{
    match &stream.close {
        Some(clause) => when_outcome(scene, life.params.as_slice(), &clause.when),
        None => Ok(LentAnswer::Missing),
    }
}

// What the close condition of an instance comes to where its clause is active.
fn condition<'a>(
    scene: &Scene<'a>,
    stream: &'a Stream,
    life: &'a KnownLife,
) -> Result<LentAnswer<'a>, Memory>
    requires { (q : Question) → ¬ (IsOpen scene.now.known.now q) }
    ensures { IfOk result (λ a. close_at scene.now stream.now life.now ≡ Ok (the_answer a)) }
{
    match tried(scene, stream, life) {
        Ok(answer) => Ok(answer),
        Err(Unanswered::Asks(_)) => unreachable!(),
        Err(Unanswered::Memory) => Err(Memory),
    }
}

// What the close clause of a stream comes to for an instance: missing where it is not active.
fn closing<'a>(
    scene: &Scene<'a>,
    number: usize,
    stream: &'a Stream,
    life: &'a KnownLife,
) -> Result<LentAnswer<'a>, Memory>
    requires in_time { scene.now.moment.time ≤ latest }
    requires set { HasSet scene.now.moment }
    requires answered { (q : Question) → ¬ (IsOpen scene.now.known.now q) }
    ensures { IfOk result (λ a. closes_at scene.now number stream.now life.now ≡ the_answer a) }
{
    if is_close_active(scene, number, life.born) {
        condition(scene, stream, life)
    } else {
        Ok(LentAnswer::Missing)
    }
}

// Whether a close condition closes.
fn closes_by(answer: LentAnswer) -> bool
    ensures { result ≡ closes_by (the_answer answer.entry) }
{
    match answer {
        LentAnswer::Given(LentField::Bool(b)) => b,
        LentAnswer::Given(_) => false,
        LentAnswer::Missing => false,
        LentAnswer::Fault(_) => false,
        LentAnswer::Poisoned => false,
    }
}

// Tells of each of these instances whether it is closed.
fn closed_lives<'a>(
    scene: &Scene<'a>,
    number: usize,
    stream: &'a Stream,
    lives: &'a [KnownLife],
    closed: &mut Vec<bool>,
) -> Result<(), Memory>
    requires in_time { scene.now.moment.time ≤ latest }
    requires set { HasSet scene.now.moment }
    requires answered { (q : Question) → ¬ (IsOpen scene.now.known.now q) }
    ensures { OnOk result (closed.new.items ≡ closed.old.items ++ closed_at scene.now number stream.now lives.now) }
{
    for life in lives {
        let answer = closing(scene, number, stream, life)?;
        closed.push(closes_by(answer))?;
    }
    Ok(())
}

/// Tells of each instance of these streams, from this number on, whether it is closed in this step, behind what is told already.
pub fn closed<'a>(
    scene: &Scene<'a>,
    number: usize,
    streams: &'a [Stream],
    known: &'a [KnownStream],
    closed: &mut Vec<bool>,
) -> Result<(), Memory>
    requires in_time { scene.now.moment.time ≤ latest }
    requires set { HasSet scene.now.moment }
    requires answered { (q : Question) → ¬ (IsOpen scene.now.known.now q) }
    requires few { number + length streams.now ≤ 1024 }
    ensures { OnOk result (closed.new.items ≡ closed.old.items ++ all_closed_at scene.now number streams.now known.now) }
{
    match streams {
        [] => Ok(()),
        [stream, others @ ..] => match known {
            [] => Ok(()),
            [target, more @ ..] => {
                closed_lives(scene, number, stream, target.lives.as_slice(), closed)?;
                self::closed(scene, number + 1, others, more, closed)
            }
        },
    }
}

// The least fault of the close conditions of these instances.
fn least_closing<'a>(
    scene: &Scene<'a>,
    number: usize,
    stream: &'a Stream,
    lives: &'a [KnownLife],
) -> Result<Option<FaultKind>, Memory>
    requires in_time { scene.now.moment.time ≤ latest }
    requires set { HasSet scene.now.moment }
    requires answered { (q : Question) → ¬ (IsOpen scene.now.known.now q) }
    ensures { IfOk result (λ least. least ≡ least_closing_at scene.now number stream.now None lives.now) }
{
    let mut least = None;
    for life in lives {
        let answer = closing(scene, number, stream, life)?;
        least = lesser(least, kind_of(answer));
    }
    Ok(least)
}

/// The first of these streams, from this number on, that has a fault of a close condition, with the least of these.
pub fn first_closing<'a>(
    scene: &Scene<'a>,
    number: usize,
    streams: &'a [Stream],
    known: &'a [KnownStream],
) -> Result<Option<StepFault>, Memory>
    requires in_time { scene.now.moment.time ≤ latest }
    requires set { HasSet scene.now.moment }
    requires answered { (q : Question) → ¬ (IsOpen scene.now.known.now q) }
    requires few { number + length streams.now ≤ 1024 }
    ensures { IfOk result (λ fault. option_map the_fault fault ≡ first_closing_at scene.now number streams.now known.now) }
{
    match streams {
        [] => Ok(None),
        [stream, others @ ..] => match known {
            [] => Ok(None),
            [target, more @ ..] => {
                match least_closing(scene, number, stream, target.lives.as_slice())? {
                    Some(kind) => Ok(Some(StepFault {
                        stream: number,
                        kind,
                    })),
                    None => first_closing(scene, number + 1, others, more),
                }
            }
        },
    }
}
