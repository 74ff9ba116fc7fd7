//! What an access reads of what is known.

ghost use Rattle.std.specs.Prelude.{◌≡◌, ℕ, List, map, slice_get};
ghost use Rattle.std.specs.Option.{option_copied};
ghost use Rattle.lola_value.specs.Arithmetic.{all_equal};
ghost use Rattle.lola_model.specs.Accesses.{from_end, held, value_or_missing};
ghost use Rattle.lola_replay_table.specs.Answers.{the_answer, the_field};
ghost use Rattle.lola_replay_table.specs.Tries.{Gives, IsFoundAt, earlier_at, found, read_at, read_found, read_known, read_of, read_spawned, read_stream};

use crate::answer::{LentAnswer, LentField, lend};
use crate::operators::equal;
use crate::question::{Question, Unanswered};
use crate::table::{KnownLife, KnownStream};
use lola_model::expr::Access;
use lola_value::text::Field;

// A value of an earlier step, without its time.
fn value_or_missing(value: Option<&(u64, Field)>) -> LentAnswer<'_>
    ensures { the_answer result ≡ value_or_missing (option_copied value.entry) }
{
    match value {
        Some(timed) => LentAnswer::Given(lend(&timed.1)),
        None => LentAnswer::Missing,
    }
}

// The k-th value from the end, from 1.
fn from_end(values: &[(u64, Field)], k: u32) -> LentAnswer<'_>
    ensures { the_answer result ≡ from_end values.now k }
{
    let back = k as usize;
    if back <= values.len() {
        value_or_missing(values.get(values.len() - back))
    } else {
        LentAnswer::Missing
    }
}

// This step's value, or else the last earlier one.
fn held<'a>(answer: LentAnswer<'a>, earlier: &'a [(u64, Field)]) -> LentAnswer<'a>
    ensures { the_answer result ≡ held (the_answer answer.entry) earlier.now }
{
    match answer {
        LentAnswer::Missing => from_end(earlier, 1),
        _ => answer,
    }
}

// What an access reads of an instance with these earlier values and this outcome.
fn read_of<'a>(how: Access, earlier: &'a [(u64, Field)], answer: LentAnswer<'a>) -> LentAnswer<'a>
    ensures { the_answer result ≡ read_of how earlier.now (the_answer answer.entry) }
{
    match how {
        Access::Direct => answer,
        Access::Get => answer,
        Access::Hold => held(answer, earlier),
        Access::Offset(k) => from_end(earlier, k),
    }
}

// What an access reads of an instance, or the question about its outcome.
fn read_known(
    how: Access,
    question: Question,
    life: &KnownLife,
) -> Result<LentAnswer<'_>, Unanswered>
    ensures { Gives (read_known how question life.now.earlier life.now.outcome) result }
{
    match &life.outcome {
        Some(answer) => Ok(read_of(how, life.earlier.as_slice(), answer.seen())),
        None => Err(Unanswered::Asks(question)),
    }
}

// Whether these are the parameters of an instance.
fn are_same(params: &[LentField], fields: &[Field]) -> bool
    ensures { result ≡ all_equal (map the_field params.now) fields.now }
{
    match params {
        [] => match fields {
            [] => true,
            [_, ..] => false,
        },
        [a, others @ ..] => match fields {
            [] => false,
            [b, more @ ..] => equal(*a, lend(b)) && are_same(others, more),
        },
    }
}

/// Where the living instance with these parameters stands.
pub fn found(params: &[LentField], lives: &[KnownLife]) -> Option<usize>
    ensures { IsFoundAt (map the_field params.now) lives.now result }
{
    for (place, life) in lives.iter().enumerate() {
        if are_same(params, life.params.as_slice()) {
            return Some(place);
        }
    }
    None
}

// What an access reads of the living instance with these parameters.
fn read_found<'a>(
    how: Access,
    stream: u32,
    params: &[LentField],
    lives: &'a [KnownLife],
) -> Result<LentAnswer<'a>, Unanswered>
    ensures { Gives (read_found how stream (found (map the_field params.now) 0 lives.now)) result }
{
    match found(params, lives) {
        Some(place) => read_known(
            how,
            Question::OutcomeOf(stream as usize, place),
            &lives[place],
        ),
        None => Ok(LentAnswer::Missing),
    }
}

// What an access that asks for this step's outcome reads of a stream.
fn read_spawned<'a>(
    how: Access,
    stream: u32,
    params: &[LentField],
    known: &'a KnownStream,
) -> Result<LentAnswer<'a>, Unanswered>
    ensures { Gives (read_spawned how stream known.now.spawned (found (map the_field params.now) 0 known.now.lives)) result }
{
    match &known.spawned {
        Some(spawned) => {
            if spawned.is_bad() {
                Ok(LentAnswer::Poisoned)
            } else {
                read_found(how, stream, params, known.lives.as_slice())
            }
        }
        None => Err(Unanswered::Asks(Question::SpawnOf(stream as usize))),
    }
}

// An earlier value of the living instance with these parameters; one that is born in this step has none.
fn earlier_of<'a>(k: u32, params: &[LentField], lives: &'a [KnownLife]) -> LentAnswer<'a>
    ensures { the_answer result ≡ earlier_at k (map the_field params.now) lives.now }
{
    match found(params, lives) {
        Some(place) => from_end(lives[place].earlier.as_slice(), k),
        None => LentAnswer::Missing,
    }
}

// What an access reads of a stream.
fn read_stream<'a>(
    how: Access,
    stream: u32,
    params: &[LentField],
    known: &'a KnownStream,
) -> Result<LentAnswer<'a>, Unanswered>
    ensures { Gives (read_stream how stream (map the_field params.now) known.now) result }
{
    match how {
        Access::Offset(k) => Ok(earlier_of(k, params, known.lives.as_slice())),
        _ => read_spawned(how, stream, params, known),
    }
}

/// What an access of a stream reads, of the instance with these parameters, or the question that it waits for. An offset asks
/// nothing of this step.
pub fn read<'a>(
    how: Access,
    stream: u32,
    params: &[LentField],
    known: &'a [KnownStream],
) -> Result<LentAnswer<'a>, Unanswered>
    ensures { Gives (read_at how stream (map the_field params.now) (slice_get known.now stream)) result }
{
    match known.get(stream as usize) {
        Some(read) => read_stream(how, stream, params, read),
        None => Ok(LentAnswer::Missing),
    }
}
