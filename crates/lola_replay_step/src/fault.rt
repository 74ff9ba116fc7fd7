//! The fault of a step.

ghost use Rattle.std.specs.Prelude.{◌≡◌, ◌≤◌, ◌+◌, None, length};
ghost use Rattle.std.specs.Option.{option_map};
ghost use Rattle.lola_model.specs.Faults.{code_of, lesser_kind};
ghost use Rattle.lola_replay_table.specs.Answers.{the_answer};
ghost use Rattle.lola_replay_step.specs.Closings.{faulted_of, least_of};
ghost use Rattle.lola_replay_step.specs.StepFaults.{first_known, least_known, outcome_known, own_by, the_fault};

use lola_replay_table::answer::{KeptAnswer, LentAnswer};
use lola_replay_table::table::{KeptSpawn, KnownLife, KnownStream};
use lola_value::value::FaultKind;

/// A fault in a step: the stream that has it, by its number from 0, and its kind.
#[derive(Clone, Copy)]
pub struct StepFault {
    pub stream: usize,
    pub kind: FaultKind,
}

/// The kind of an outcome that is a fault.
pub fn kind_of(answer: LentAnswer) -> Option<FaultKind>
    ensures { result ≡ faulted_of (the_answer answer.entry) }
{
    match answer {
        LentAnswer::Fault(kind) => Some(kind),
        LentAnswer::Given(_) => None,
        LentAnswer::Missing => None,
        LentAnswer::Poisoned => None,
    }
}

// The number of a kind.
fn code_of(kind: FaultKind) -> u8
    ensures { result ≡ code_of kind }
{
    match kind {
        FaultKind::Overflow => 1,
        FaultKind::DivZero => 2,
        FaultKind::TooManyInstances => 3,
    }
}

// The lesser of a kind and another, if there is one.
fn lesser_kind(kind: FaultKind, other: Option<FaultKind>) -> Option<FaultKind>
    ensures { result ≡ lesser_kind kind other }
{
    match other {
        Some(second) => {
            if code_of(kind) <= code_of(second) {
                Some(kind)
            } else {
                Some(second)
            }
        }
        None => Some(kind),
    }
}

/// The lesser of two kinds, where there are two.
pub fn lesser(first: Option<FaultKind>, second: Option<FaultKind>) -> Option<FaultKind>
    ensures { result ≡ least_of first second }
{
    match first {
        Some(kind) => lesser_kind(kind, second),
        None => second,
    }
}

// The kind of the fault of an instance, if it has one.
fn failed(outcome: &Option<KeptAnswer>) -> Option<FaultKind>
    ensures { result ≡ faulted_of (outcome_known outcome.now) }
{
    match outcome {
        Some(KeptAnswer::Fault(kind)) => Some(*kind),
        Some(KeptAnswer::Given(_)) => None,
        Some(KeptAnswer::Missing) => None,
        Some(KeptAnswer::Poisoned) => None,
        None => None,
    }
}

// The least fault of these instances.
fn least_known(lives: &[KnownLife]) -> Option<FaultKind>
    ensures { result ≡ least_known None lives.now }
{
    let mut least = None;
    for life in lives {
        least = lesser(least, failed(&life.outcome));
    }
    least
}

// The fault of a stream: of its spawn clause, or else of its instances.
fn own(stream: &KnownStream) -> Option<FaultKind>
    ensures { result ≡ own_by stream.now.spawned (least_known None stream.now.lives) }
{
    match &stream.spawned {
        Some(KeptSpawn::Fault(kind)) => Some(*kind),
        Some(KeptSpawn::Idle) => least_known(stream.lives.as_slice()),
        Some(KeptSpawn::Named(_)) => least_known(stream.lives.as_slice()),
        Some(KeptSpawn::Poisoned) => least_known(stream.lives.as_slice()),
        None => least_known(stream.lives.as_slice()),
    }
}

/// The first of these streams, from this number on, that has a fault of its spawn clause or of an instance.
pub fn first_known(number: usize, known: &[KnownStream]) -> Option<StepFault>
    requires { number + length known.now ≤ 1024 }
    ensures { option_map the_fault result ≡ first_known number known.now }
{
    match known {
        [] => None,
        [stream, others @ ..] => match own(stream) {
            Some(kind) => Some(StepFault {
                stream: number,
                kind,
            }),
            None => first_known(number + 1, others),
        },
    }
}
