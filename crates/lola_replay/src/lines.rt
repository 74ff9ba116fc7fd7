//! The verdict lines of a step, each compared as it is made.

ghost use Rattle.std.specs.Prelude.{◌≡◌, ◌≤◌, ◌<◌, ◌+◌, ◌^◌, Some, IfOk, length, slice_get};
ghost use Rattle.lola_model.specs.Texts.{answer_lines, value_lines};
ghost use Rattle.lola_replay_step.specs.Rests.{known_lines, life_lines};
ghost use Rattle.lola_replay_step.specs.StepFaults.{outcome_known};
ghost use Rattle.lola_report.specs.Verdicts.{HasVerdict, verdict_text};
ghost use Rattle.lola_replay.specs.Comparing.{after_line, after_lines, comparison};
ghost use Rattle.lola_replay.specs.Showing.{is_shown, is_true, shows_outputs};

use crate::compare::{Compared, compare};
use lola_model::journal::Show;
use lola_model::plan::Plan;
use lola_model::spec::{Sort, Stream};
use lola_replay_table::answer::KeptAnswer;
use lola_replay_table::table::{KnownLife, KnownStream};
use lola_report::verdict::verdict_line;
use lola_value::text::{Field, Fields, Memory, Text};

// Whether outputs are shown.
fn shows_outputs(show: Show) -> bool
    ensures { result ≡ shows_outputs show }
{
    match show {
        Show::Triggers => false,
        Show::Outputs => true,
    }
}

// Whether a trigger's value is true.
fn is_true(value: &Field) -> bool
    ensures { result ≡ is_true value.now }
{
    match value {
        Field::Bool(b) => *b,
        Field::Absent => false,
        Field::Int(_) => false,
        Field::Text(_) => false,
    }
}

// Whether a value of a stream of this sort has a line.
fn is_shown(show: Show, sort: &Sort, value: &Field) -> bool
    ensures { result ≡ is_shown show sort.now value.now }
{
    match sort {
        Sort::Input => false,
        Sort::Output => shows_outputs(show),
        Sort::Trigger => is_true(value),
    }
}

// Compares the line of a value that has one.
fn compare_shown<'a>(
    plan: &Plan,
    time: u64,
    number: usize,
    params: &Fields,
    value: &Field,
    line: &mut Text,
    compared: Compared<'a>,
) -> Result<Compared<'a>, Memory>
    requires shown { HasVerdict (slice_get plan.now.spec.streams number) value.now }
    requires few { number < 1024 }
    requires room { compared.lines + length compared.rest.now < 2 ^ 63 }
    ensures lines { IfOk result (λ c. comparison c ≡ after_line (comparison compared.entry) (verdict_text (slice_get plan.now.spec.streams number) time params.now value.now)) }
    ensures room { IfOk result (λ c. c.lines + length c.rest.now ≤ compared.entry.lines + length compared.entry.rest.now) }
{
    line.clear();
    verdict_line(plan, number as u32, time, params, value, line)?;
    Ok(compare(compared, line.as_bytes()))
}

// Compares what is shown of a value of the stream of this number.
fn compare_value<'a>(
    plan: &Plan,
    show: Show,
    time: u64,
    number: usize,
    stream: &Stream,
    params: &Fields,
    value: &Field,
    line: &mut Text,
    compared: Compared<'a>,
) -> Result<Compared<'a>, Memory>
    requires at { slice_get plan.now.spec.streams number ≡ Some stream.now }
    requires few { number < 1024 }
    requires room { compared.lines + length compared.rest.now < 2 ^ 63 }
    ensures lines { IfOk result (λ c. comparison c ≡ after_lines (comparison compared.entry) (value_lines show time stream.now params.now value.now)) }
    ensures room { IfOk result (λ c. c.lines + length c.rest.now ≤ compared.entry.lines + length compared.entry.rest.now) }
{
    if is_shown(show, &stream.sort, value) {
        compare_shown(plan, time, number, params, value, line, compared)
    } else {
        Ok(compared)
    }
}

// Compares what is shown of an instance.
fn compare_life<'a>(
    plan: &Plan,
    show: Show,
    time: u64,
    number: usize,
    stream: &Stream,
    life: &KnownLife,
    line: &mut Text,
    compared: Compared<'a>,
) -> Result<Compared<'a>, Memory>
    requires at { slice_get plan.now.spec.streams number ≡ Some stream.now }
    requires few { number < 1024 }
    requires room { compared.lines + length compared.rest.now < 2 ^ 63 }
    ensures lines { IfOk result (λ c. comparison c ≡ after_lines (comparison compared.entry) (answer_lines show time stream.now life.now.params (outcome_known life.now.outcome))) }
    ensures room { IfOk result (λ c. c.lines + length c.rest.now ≤ compared.entry.lines + length compared.entry.rest.now) }
{
    match &life.outcome {
        Some(KeptAnswer::Given(value)) => compare_value(
            plan,
            show,
            time,
            number,
            stream,
            &life.params,
            value,
            line,
            compared,
        ),
        Some(KeptAnswer::Missing) => Ok(compared),
        Some(KeptAnswer::Fault(_)) => Ok(compared),
        Some(KeptAnswer::Poisoned) => Ok(compared),
        None => Ok(compared),
    }
}

/// Compares what is shown of the instances of the stream of this number in a step, one after another.
#[tactic(auto, using(crate::proofs::ComparingLemmas::after_append))]
pub fn compare_lives<'a>(
    plan: &Plan,
    show: Show,
    time: u64,
    number: usize,
    stream: &Stream,
    lives: &[KnownLife],
    line: &mut Text,
    compared: Compared<'a>,
) -> Result<Compared<'a>, Memory>
    requires at { slice_get plan.now.spec.streams number ≡ Some stream.now }
    requires few { number < 1024 }
    requires room { compared.lines + length compared.rest.now < 2 ^ 63 }
    ensures lines { IfOk result (λ c. comparison c ≡ after_lines (comparison compared.entry) (life_lines show time stream.now lives.now)) }
    ensures room { IfOk result (λ c. c.lines + length c.rest.now ≤ compared.entry.lines + length compared.entry.rest.now) }
{
    let mut after = compared;
    for life in lives {
        after = compare_life(plan, show, time, number, stream, life, line, after)?;
    }
    Ok(after)
}

/// Compares what is shown of all streams in a step, one after another.
pub fn compare_streams<'a>(
    plan: &Plan,
    show: Show,
    time: u64,
    streams: &[Stream],
    known: &[KnownStream],
    line: &mut Text,
    compared: Compared<'a>,
) -> Result<Compared<'a>, Memory>
    requires all { plan.now.spec.streams ≡ streams.now }
    requires few { length streams.now ≤ 1024 }
    requires long { length known.now ≡ length streams.now }
    requires room { compared.lines + length compared.rest.now < 2 ^ 63 }
    ensures lines { IfOk result (λ c. comparison c ≡ after_lines (comparison compared.entry) (known_lines show time streams.now known.now)) }
    ensures room { IfOk result (λ c. c.lines + length c.rest.now ≤ compared.entry.lines + length compared.entry.rest.now) }
{
    let mut after = compared;
    for (number, stream) in streams.iter().enumerate() {
        let lives = known[number].lives.as_slice();
        after = compare_lives(plan, show, time, number, stream, lives, line, after)?;
    }
    Ok(after)
}
