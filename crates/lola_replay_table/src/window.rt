//! What a window comes to, of what is known.

ghost use Rattle.std.specs.Prelude.{◌≡◌, ◌++◌, ◌+◌, ◌&&◌, ◌<◌, [], ◌∷◌, drop, length, true, false, ℕ, List, IfOk, None, Some, map, nat_lt, slice_get};
ghost use Rattle.lola_value.specs.declared.text.Field.{Field};
ghost use Rattle.lola_model.specs.Accesses.{one_more};
ghost use Rattle.lola_model.specs.Denotation.{target_kind};
ghost use Rattle.lola_model.specs.Windows.{values_within};
ghost use Rattle.lola_replay_table.specs.Answers.{the_answer, the_field};
ghost use Rattle.lola_replay_table.specs.Tallies.{IsTally};
ghost use Rattle.lola_replay_table.specs.Times.{AreInOrder};
ghost use Rattle.lola_replay_table.specs.Tries.{Gives, folded, found, window_at, window_found, window_in, window_known, window_over, window_stream, windowed};

use crate::answer::{LentAnswer, LentField, lend};
use crate::question::{Question, Unanswered};
use crate::read::found;
use crate::scene::ReplayedStep;
use crate::table::{KnownLife, KnownStream, Values};
use crate::tally::{Tally, answer, with_value};
use lola_model::spec::{Spec, Stream, WindowSpec};
use lola_value::text::{Field, Memory};
use lola_value::value::Kind;

// Whether a time is less than a length before another.
fn is_within(at: u64, over: u64, time: u64) -> bool
    ensures { result ≡ nat_lt time (at + over) }
{
    (time as u128) < at as u128 + over as u128
}

// Whether it is known that neither the value at a place nor one before it is in a window.
fn is_past(earlier: &[(u64, Field)], in_order: bool, place: usize, over: u64, time: u64) -> bool
    requires order { in_order ≡ true → AreInOrder earlier.now }
    requires there { place < length earlier.now }
    ensures { result ≡ true → values_within over time earlier.now ≡ values_within over time (drop (place + 1) earlier.now) }
{
    in_order && !is_within(earlier[place].0, over, time)
}

// With a value in front, if the window has it.
fn with_timed(tally: &Tally, timed: &(u64, Field), over: u64, time: u64) -> Result<Tally, Memory>
    ensures { (vs : List Field) → IsTally vs tally.now → IfOk result (IsTally (values_within over time (timed.now ∷ []) ++ vs)) }
{
    if is_within(timed.0, over, time) {
        with_value(tally, lend(&timed.1))
    } else {
        Ok(*tally)
    }
}

// What is gathered of the values of a window, in front of what stands behind them. Where they are in the order of their times, the
// first one from the end that is not in the window ends the walk.
fn gathered(
    earlier: &[(u64, Field)],
    in_order: bool,
    over: u64,
    time: u64,
    behind: &Tally,
) -> Result<Tally, Memory>
    requires { in_order ≡ true → AreInOrder earlier.now }
    ensures { (vs : List Field) → IsTally vs behind.now → IfOk result (IsTally (values_within over time earlier.now ++ vs)) }
{
    let mut tally = *behind;
    let mut place = earlier.len();
    while place > 0 {
        place -= 1;
        if is_past(earlier, in_order, place, over, time) {
            return Ok(tally);
        }
        tally = with_timed(&tally, &earlier[place], over, time)?;
    }
    Ok(tally)
}

// What is gathered of this step's value, if there is one and the window has it.
fn newest(outcome: LentAnswer, over: u64, time: u64) -> Result<Tally, Memory>
    ensures { IfOk result (IsTally (values_within over time (one_more time (the_answer outcome.entry)))) }
{
    match outcome {
        LentAnswer::Given(value) => {
            if is_within(time, over, time) {
                with_value(&Tally::empty(), value)
            } else {
                Ok(Tally::empty())
            }
        }
        _ => Ok(Tally::empty()),
    }
}

// Whether a window that is to be whole is not yet.
fn is_early(window: &WindowSpec, moment: &ReplayedStep) -> bool
    ensures { result ≡ (window.now.exact && nat_lt moment.now.time (moment.now.start + window.now.over)) }
{
    window.exact && is_within(moment.start, window.over, moment.time)
}

// What a window comes to over these values and this step's outcome, which is no fault and no poison.
fn over_values(
    window: &WindowSpec,
    kind: Kind,
    moment: &ReplayedStep,
    earlier: &Values,
    outcome: LentAnswer,
) -> Result<LentAnswer<'static>, Memory>
    ensures { IfOk result (λ a. the_answer a ≡ folded moment.now.start moment.now.time window.now kind (values_within window.now.over moment.now.time (earlier.now ++ one_more moment.now.time (the_answer outcome.entry)))) }
{
    if is_early(window, moment) {
        return Ok(LentAnswer::Missing);
    }
    let last = newest(outcome, window.over, moment.time)?;
    let in_order = earlier.are_in_order();
    let tally = gathered(
        earlier.as_slice(),
        in_order,
        window.over,
        moment.time,
        &last,
    )?;
    Ok(answer(&tally, window.using, kind))
}

// What a window comes to over an instance that has these earlier values and this outcome.
fn over_outcome(
    window: &WindowSpec,
    kind: Kind,
    moment: &ReplayedStep,
    earlier: &Values,
    outcome: LentAnswer,
) -> Result<LentAnswer<'static>, Memory>
    ensures { IfOk result (λ a. the_answer a ≡ window_over moment.now.start moment.now.time window.now kind earlier.now (the_answer outcome.entry)) }
{
    match outcome {
        LentAnswer::Fault(_) => Ok(LentAnswer::Poisoned),
        LentAnswer::Poisoned => Ok(LentAnswer::Poisoned),
        _ => over_values(window, kind, moment, earlier, outcome),
    }
}

// What a window comes to over an instance, or the question about its outcome.
fn over_life(
    window: &WindowSpec,
    kind: Kind,
    moment: &ReplayedStep,
    question: Question,
    life: &KnownLife,
) -> Result<LentAnswer<'static>, Unanswered>
    ensures { Gives (window_known moment.now.start moment.now.time window.now kind question life.now.earlier life.now.outcome) result }
{
    match &life.outcome {
        Some(kept) => {
            let outcome = over_outcome(window, kind, moment, &life.earlier, kept.seen())?;
            Ok(outcome)
        }
        None => Err(Unanswered::Asks(question)),
    }
}

// What a window comes to over no instance.
fn over_nothing(window: &WindowSpec, kind: Kind, moment: &ReplayedStep) -> LentAnswer<'static>
    ensures { the_answer result ≡ windowed moment.now.start moment.now.time window.now kind false None }
{
    if is_early(window, moment) {
        LentAnswer::Missing
    } else {
        answer(&Tally::empty(), window.using, kind)
    }
}

// What a window comes to over the living instance with these parameters.
fn over_found(
    window: &WindowSpec,
    kind: Kind,
    moment: &ReplayedStep,
    params: &[LentField],
    lives: &[KnownLife],
) -> Result<LentAnswer<'static>, Unanswered>
    ensures { Gives (window_found moment.now.start moment.now.time window.now kind (found (map the_field params.now) 0 lives.now)) result }
{
    match found(params, lives) {
        Some(place) => {
            let question = Question::OutcomeOf(window.target as usize, place);
            over_life(window, kind, moment, question, &lives[place])
        }
        None => Ok(over_nothing(window, kind, moment)),
    }
}

// What a window comes to over a stream.
fn over_stream(
    window: &WindowSpec,
    kind: Kind,
    moment: &ReplayedStep,
    params: &[LentField],
    known: &KnownStream,
) -> Result<LentAnswer<'static>, Unanswered>
    ensures { Gives (window_stream moment.now.start moment.now.time window.now kind (map the_field params.now) known.now) result }
{
    match &known.spawned {
        Some(spawned) => {
            if spawned.is_bad() {
                Ok(LentAnswer::Poisoned)
            } else {
                over_found(window, kind, moment, params, known.lives.as_slice())
            }
        }
        None => Err(Unanswered::Asks(Question::SpawnOf(window.target as usize))),
    }
}

// The kind of a window's target.
fn target_kind(streams: &[Stream], window: &WindowSpec) -> Kind
    ensures { result ≡ target_kind streams.now window.now }
{
    match streams.get(window.target as usize) {
        Some(stream) => stream.filled_kind(),
        None => Kind::Int64,
    }
}

// What a window comes to, onto its target if there is such a stream.
fn over_target(
    window: &WindowSpec,
    kind: Kind,
    moment: &ReplayedStep,
    params: &[LentField],
    known: &[KnownStream],
) -> Result<LentAnswer<'static>, Unanswered>
    ensures { Gives (window_at moment.now.start moment.now.time window.now kind (map the_field params.now) (slice_get known.now window.now.target)) result }
{
    match known.get(window.target as usize) {
        Some(target) => over_stream(window, kind, moment, params, target),
        None => Ok(over_nothing(window, kind, moment)),
    }
}

/// What a window comes to, over the instance of its target with these parameters, or the question that it waits for.
pub fn window(
    spec: &Spec,
    number: u32,
    moment: &ReplayedStep,
    params: &[LentField],
    known: &[KnownStream],
) -> Result<LentAnswer<'static>, Unanswered>
    ensures { Gives (window_in spec.now moment.now.start moment.now.time known.now number (map the_field params.now)) result }
{
    match spec.windows.as_slice().get(number as usize) {
        Some(window) => {
            let kind = target_kind(spec.streams.as_slice(), window);
            over_target(window, kind, moment, params, known)
        }
        None => Ok(LentAnswer::Missing),
    }
}
