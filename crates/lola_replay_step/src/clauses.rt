//! What clauses come to, of what is known of a step; or the first question that they wait for.

ghost use Rattle.std.specs.Prelude.{◌≡◌, ◌≤◌, [], IfOk, Some, map, slice_get};
ghost use Rattle.lola_value.specs.Times.{latest};
ghost use Rattle.lola_model.specs.Activity.{is_active, is_active_for};
ghost use Rattle.lola_model.specs.Model.{eval_pacing, field_outcome, input_outcome, spawn_pacing};
ghost use Rattle.lola_replay_table.specs.Answers.{kept_spawn, the_answer, the_field};
ghost use Rattle.lola_replay_table.specs.Clauses.{GivesSpawn, named_among, named_none, then_named, then_spawn};
ghost use Rattle.lola_replay_table.specs.Moments.{HasSet};
ghost use Rattle.lola_replay_table.specs.Scenes.{clause_at, eval_at, first_at, instance_at, outcome_at, params_at, spawn_at, step_at, when_at};
ghost use Rattle.lola_replay_table.specs.Tries.{Gives, GivesAll};

use lola_model::expr::Expr;
use lola_model::spec::{Clause, Stream};
use lola_replay_table::answer::{LentAnswer, LentField, keep_field, lend};
use lola_replay_table::attempt::{attempt, led_by};
use lola_replay_table::question::{Question, Unanswered};
use lola_replay_table::scene::{Scene, is_active, is_active_for};
use lola_replay_table::table::{KeptSpawn, KnownLife, KnownStream, MOST_INSTANCES, is_among};
use lola_value::text::{Field, Fields, Memory};
use lola_value::value::FaultKind;
use std::alloc::Global;

/// The outcome of a condition, true where it is left out.
pub fn when_outcome<'a>(
    scene: &Scene<'a>,
    params: &'a [Field],
    when: &'a Option<Expr>,
) -> Result<LentAnswer<'a>, Unanswered>
    ensures { Gives (when_at scene.now params.now when.now) result }
{
    match when {
        Some(expr) => attempt(scene, params, expr),
        None => Ok(LentAnswer::Given(LentField::Bool(true))),
    }
}

// The outcome of the one expression of an eval clause.
fn first_outcome<'a>(
    scene: &Scene<'a>,
    params: &'a [Field],
    exprs: &'a [Expr],
) -> Result<LentAnswer<'a>, Unanswered>
    ensures { Gives (first_at scene.now params.now exprs.now) result }
{
    match exprs {
        [expr, ..] => attempt(scene, params, expr),
        [] => Ok(LentAnswer::Missing),
    }
}

// The outcome of an eval clause that is active.
fn clause_outcome<'a>(
    scene: &Scene<'a>,
    params: &'a [Field],
    clause: &'a Clause,
) -> Result<LentAnswer<'a>, Unanswered>
    ensures { Gives (clause_at scene.now params.now clause.now) result }
{
    let met = when_outcome(scene, params, &clause.when)?;
    match met {
        LentAnswer::Given(LentField::Bool(true)) => {
            first_outcome(scene, params, clause.with.as_slice())
        }
        LentAnswer::Given(_) => Ok(LentAnswer::Missing),
        _ => Ok(met),
    }
}

// The outcome of an eval clause: silent where its stream is bad or its pacing is not active.
fn eval_outcome<'a>(
    scene: &Scene<'a>,
    bad: bool,
    active: bool,
    clause: &'a Option<Clause>,
    params: &'a [Field],
) -> Result<LentAnswer<'a>, Unanswered>
    ensures { Gives (eval_at scene.now bad active clause.now params.now) result }
{
    match clause {
        Some(clause) => {
            if !bad && active {
                clause_outcome(scene, params, clause)
            } else {
                Ok(LentAnswer::Missing)
            }
        }
        None => Ok(LentAnswer::Missing),
    }
}

// The outcome of an input's field.
fn field_outcome(field: &Field) -> LentAnswer<'_>
    ensures { the_answer result ≡ field_outcome (Some field.now) }
{
    match field {
        Field::Absent => LentAnswer::Missing,
        _ => LentAnswer::Given(lend(field)),
    }
}

// The outcome of the input of a number, from 0, at the fields of a row.
fn input_outcome(number: usize, fields: &[Field]) -> LentAnswer<'_>
    ensures { the_answer result ≡ input_outcome number (Some fields.now) }
{
    match fields.get(number) {
        Some(field) => field_outcome(field),
        None => LentAnswer::Missing,
    }
}

// Whether the eval clause of a stream is active for an instance that was born at a time.
fn is_eval_active(scene: &Scene, stream: usize, born: u64) -> bool
    requires in_time { scene.now.moment.time ≤ latest }
    requires set { HasSet scene.now.moment }
    ensures { result ≡ is_active_for scene.now.moment.start born (step_at scene.now) (eval_pacing (slice_get scene.now.plan.now.pacings stream)) }
{
    match scene.plan.pacings.as_slice().get(stream) {
        Some(clauses) => is_active_for(&scene.moment, born, &clauses.eval),
        None => false,
    }
}

// The outcome of an instance, or the question what its stream's spawn clause does.
fn instance_outcome<'a>(
    scene: &Scene<'a>,
    number: usize,
    stream: &'a Stream,
    spawned: &'a Option<KeptSpawn>,
    life: &'a KnownLife,
) -> Result<LentAnswer<'a>, Unanswered>
    requires in_time { scene.now.moment.time ≤ latest }
    requires set { HasSet scene.now.moment }
    ensures { Gives (instance_at scene.now number stream.now spawned.now life.now) result }
{
    match spawned {
        Some(kept) => {
            let active = is_eval_active(scene, number, life.born);
            eval_outcome(
                scene,
                kept.is_bad(),
                active,
                &stream.eval,
                life.params.as_slice(),
            )
        }
        None => Err(Unanswered::Asks(Question::SpawnOf(number))),
    }
}

/// The outcome of an instance of a stream, or the question that it waits for; an input asks nothing.
pub fn outcome<'a>(
    scene: &Scene<'a>,
    number: usize,
    stream: &'a Stream,
    known: &'a KnownStream,
    life: &'a KnownLife,
) -> Result<LentAnswer<'a>, Unanswered>
    requires in_time { scene.now.moment.time ≤ latest }
    requires set { HasSet scene.now.moment }
    ensures { Gives (outcome_at scene.now number stream.now known.now life.now) result }
{
    if stream.is_input() {
        match scene.moment.fields {
            Some(fields) => Ok(input_outcome(known.input, fields)),
            None => Ok(LentAnswer::Missing),
        }
    } else {
        instance_outcome(scene, number, stream, &known.spawned, life)
    }
}

// What a spawn clause does that names these parameters.
fn named(params: Fields, lives: &[KnownLife]) -> KeptSpawn
    ensures { kept_spawn result ≡ named_among params lives.now }
{
    if lives.len() >= MOST_INSTANCES && !is_among(params.as_slice(), lives) {
        KeptSpawn::Fault(FaultKind::TooManyInstances)
    } else {
        KeptSpawn::Named(params)
    }
}

// What it does where a parameter has no value.
fn unnamed(answer: LentAnswer) -> KeptSpawn
    ensures { kept_spawn result ≡ named_none (the_answer answer.entry) }
{
    match answer {
        LentAnswer::Given(_) => KeptSpawn::Poisoned,
        LentAnswer::Missing => KeptSpawn::Idle,
        LentAnswer::Fault(kind) => KeptSpawn::Fault(kind),
        LentAnswer::Poisoned => KeptSpawn::Poisoned,
    }
}

// The parameters that a spawn clause names, or the outcome of the first that has no value.
fn named_params<'a>(
    scene: &Scene<'a>,
    exprs: &'a [Expr],
) -> Result<Result<Vec<LentField<'a>>, LentAnswer<'a>>, Unanswered>
    ensures { GivesAll (params_at scene.now exprs.now) result }
{
    match exprs {
        [] => Ok(Ok(Vec::new(scene.alloc))),
        [expr, others @ ..] => {
            let first = attempt(scene, &[], expr)?;
            match first {
                LentAnswer::Given(value) => {
                    let rest = named_params(scene, others)?;
                    led_by(value, rest)
                }
                _ => Ok(Err(first)),
            }
        }
    }
}

// Parameters of one's own.
fn kept_params(alloc: Global, params: &[LentField]) -> Result<Fields, Memory>
    ensures { IfOk result (λ kept. kept ≡ map the_field params.now) }
{
    let mut kept = Fields::create(alloc);
    for param in params {
        let field = keep_field(alloc, *param)?;
        kept.push(field)?;
    }
    Ok(kept)
}

// What a spawn clause does whose condition is true.
fn named_by<'a>(
    scene: &Scene<'a>,
    exprs: &'a [Expr],
    lives: &[KnownLife],
) -> Result<KeptSpawn, Unanswered>
    ensures { GivesSpawn (then_named (params_at scene.now exprs.now) lives.now) result }
{
    match named_params(scene, exprs)? {
        Ok(params) => {
            let kept = kept_params(scene.alloc, params.as_slice())?;
            Ok(named(kept, lives))
        }
        Err(answer) => Ok(unnamed(answer)),
    }
}

// What a spawn clause does that is active.
fn spawn_when<'a>(
    scene: &Scene<'a>,
    clause: &'a Clause,
    lives: &[KnownLife],
) -> Result<KeptSpawn, Unanswered>
    ensures { GivesSpawn (then_spawn (when_at scene.now [] clause.now.when) (then_named (params_at scene.now clause.now.with) lives.now)) result }
{
    let met = when_outcome(scene, &[], &clause.when)?;
    match met {
        LentAnswer::Given(LentField::Bool(true)) => named_by(scene, clause.with.as_slice(), lives),
        LentAnswer::Given(_) => Ok(KeptSpawn::Idle),
        LentAnswer::Missing => Ok(KeptSpawn::Idle),
        LentAnswer::Fault(kind) => Ok(KeptSpawn::Fault(kind)),
        LentAnswer::Poisoned => Ok(KeptSpawn::Poisoned),
    }
}

// Whether the spawn clause of a stream is active.
fn is_spawn_active(scene: &Scene, stream: usize) -> bool
    requires in_time { scene.now.moment.time ≤ latest }
    requires set { HasSet scene.now.moment }
    ensures { result ≡ is_active scene.now.moment.start (step_at scene.now) (spawn_pacing (slice_get scene.now.plan.now.pacings stream)) }
{
    match scene.plan.pacings.as_slice().get(stream) {
        Some(clauses) => is_active(&scene.moment, &clauses.spawn),
        None => false,
    }
}

/// What the spawn clause of a stream does, or the question that it waits for.
pub fn spawn<'a>(
    scene: &Scene<'a>,
    number: usize,
    stream: &'a Stream,
    lives: &[KnownLife],
) -> Result<KeptSpawn, Unanswered>
    requires in_time { scene.now.moment.time ≤ latest }
    requires set { HasSet scene.now.moment }
    ensures { GivesSpawn (spawn_at scene.now number stream.now lives.now) result }
{
    match &stream.spawn {
        Some(clause) => {
            if is_spawn_active(scene, number) {
                spawn_when(scene, clause, lives)
            } else {
                Ok(KeptSpawn::Idle)
            }
        }
        None => Ok(KeptSpawn::Idle),
    }
}
