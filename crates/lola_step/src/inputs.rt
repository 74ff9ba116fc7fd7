//! The inputs of a step.

ghost use Rattle.std.specs.Prelude.{◌≡◌, ◌<◌, IsTrue, length, slice_get, Some};
ghost use Rattle.lola_value.specs.Naming.{Naming, IsHeldIn, read_outcome};
ghost use Rattle.lola_model.specs.Acceptance.{IsAccepted};
ghost use Rattle.lola_model.specs.Content.{Content};
ghost use Rattle.lola_model.specs.Store.{IsRunning, Stands, after_outcome, instances_seen, is_silent, kind_in, now_seen};
ghost use Rattle.lola_step_contents.specs.Changed.{told};
ghost use Rattle.lola_step_contents.specs.Stages.{first_stage, layer_stage};
ghost use Rattle.lola_step.specs.Inputs.{TakesInputs, input_outcome_at};
ghost use Rattle.lola_step.specs.Progress.{GoesOn, IsAt};
ghost use Rattle.lola_step.specs.Schedules.{duties_of};
ghost use Rattle.lola_step.specs.Steps.{AreInputs, is_input_outcome};
ghost use Rattle.lola_step.specs.declared.schedule.Duty.TheVariants as duty;

use lola_model::plan::Plan;
use lola_model::store::StreamStore;
use lola_step_contents::calls::push;
use lola_value::brief::BriefValue;
use lola_value::value::Outcome;

/// The outcome of the input of a number; missing where there is none.
fn outcome_at(inputs: &[Outcome], input: usize) -> Outcome
    ensures { result ≡ input_outcome_at inputs.now input }
{
    match inputs.get(input) {
        Some(outcome) => *outcome,
        None => Outcome::Missing,
    }
}

/// Gives an input its outcome, which is a value or missing.
fn tell<S: StreamStore>(store: &mut S, stream: u32, outcome: Outcome)
    requires running { IsRunning (S.seen store.old) }
    requires index { 0 < length (instances_seen (S.seen store.old) stream) }
    requires silent { IsTrue (is_silent (now_seen (S.seen store.old) stream 0)) }
    requires kind { IsTrue (is_input_outcome (kind_in (slice_get (S.seen store.old).layout.streams stream)) outcome) }
    ensures seen { S.seen store.new ≡ after_outcome (S.seen store.old) stream 0 outcome }
    ensures stands { (names : Naming) (c : Content) → IsHeldIn names outcome → Stands names (S.remembers store.old) (S.seen store.old) c
        → Stands names (S.remembers store.new) (S.seen store.new) (told c stream 0 (read_outcome names outcome)) }
{
    match outcome {
        Outcome::Value(value) => push(store, stream, 0, BriefValue::of(value)),
        _ => {}
    }
}

/// Gives each input that has a value its outcome. At a deadline's step there are no inputs, and none gets one. Which streams are inputs is
/// given too.
pub(crate) fn tell_inputs<S: StreamStore>(
    plan: &Plan,
    duties: &[u32],
    store: &mut S,
    is_row: bool,
    inputs: &[Outcome],
)
    requires duties { duties.now ≡ duties_of plan.now duty.Input }
    requires accepted { IsAccepted plan.now }
    requires at { IsAt plan.now first_stage (S.seen store.old) }
    requires inputs { AreInputs is_row plan.now.spec.streams inputs.now }
    ensures at { IsAt plan.now (layer_stage (length plan.now.spec.streams) 0) (S.seen store.new) }
    ensures goes_on { GoesOn (S.seen store.old) (S.seen store.new) }
    ensures takes { TakesInputs plan.now is_row inputs.now (S.remembers store.old) (S.seen store.old) (S.remembers store.new) (S.seen store.new) }
{
    let mut input = 0;
    for number in duties {
        tell(store, *number, outcome_at(inputs, input));
        input += 1;
    }
}
