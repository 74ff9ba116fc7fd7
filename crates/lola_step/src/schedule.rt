//! Which streams have a duty in a step, and when: found once for a plan, so that a step walks only those that it concerns.

ghost use Rattle.std.specs.Prelude.{ℕ, ◌≡◌, ◌<◌, ◌≤◌, ◌^◌, IfOk, Some, length, slice_get};
ghost use Rattle.lola_model.specs.Acceptance.{IsAccepted};
ghost use Rattle.lola_model.specs.Named.{has_clause as has_clause_of};
ghost use Rattle.lola_model.specs.declared.plan.Plan.{Plan};
ghost use Rattle.lola_step.specs.declared.schedule.LayerDuties.{LayerDuties};
ghost use Rattle.lola_step.specs.Schedules.{IsLayerOf, IsScheduleOf, has_parameters as has_parameters_of, has_duty as has_duty_of, duties_of};
ghost use Rattle.lola_step.specs.declared.schedule.Duty.TheVariants as duty;

use crate::ends::is_hidden;
use crate::spawns::layer_at;
use lola_model::journal::Show;
use lola_model::plan::Plan;
use lola_model::spec::{Clause, Stream};
use lola_value::text::Memory;
use std::alloc::Global;

/// What a stream may have to do in a step: its duties.
#[derive(Clone, Copy)]
pub enum Duty {
    /// It is an input.
    Input,
    /// It has a spawn clause.
    AnySpawn,
    /// It has a spawn clause, which belongs to this layer.
    Spawn(u32),
    /// It is no input, and its instances belong to this layer.
    Eval(u32),
    /// It has parameters, is no input, and its instances belong to this layer.
    Seek(u32),
    /// It has a close clause.
    Close,
    /// Its values may have lines, where so much is shown.
    Shown(Show),
}

/// The streams that have a duty in a layer, by their numbers.
#[derive(Drop)]
pub struct LayerDuties {
    pub(crate) spawns: Vec<u32>,
    pub(crate) evals: Vec<u32>,
    // of these, those with parameters
    pub(crate) seeks: Vec<u32>,
}

/// The streams of a plan that have a duty, by their numbers.
#[derive(Drop)]
pub struct Schedule {
    pub(crate) inputs: Vec<u32>,
    pub(crate) births: Vec<u32>,
    pub(crate) layers: Vec<LayerDuties>,
    pub(crate) closes: Vec<u32>,
    pub(crate) triggers: Vec<u32>,
    pub(crate) outputs: Vec<u32>,
}

/// Whether there is a clause.
pub(crate) fn has_clause(clause: &Option<Clause>) -> bool
    ensures { result ≡ has_clause_of clause.now }
{
    clause.is_some()
}

/// Whether a stream has parameters.
fn has_parameters(stream: &Stream) -> bool
    ensures { result ≡ has_parameters_of stream.now }
{
    !stream.parameters.as_slice().is_empty()
}

/// Whether stream `n` has a duty.
fn has_duty(plan: &Plan, duty: Duty, n: usize, stream: &Stream) -> bool
    requires few { n ≤ 1024 }
    ensures { result ≡ has_duty_of plan.now duty n stream.now }
{
    match duty {
        Duty::Input => stream.is_input(),
        Duty::AnySpawn => has_clause(&stream.spawn),
        Duty::Spawn(layer) => {
            has_clause(&stream.spawn) && layer_at(plan.layers.as_slice(), 2 * n + 1) == layer
        }
        Duty::Eval(layer) => {
            !stream.is_input() && layer_at(plan.layers.as_slice(), 2 * n) == layer
        }
        Duty::Seek(layer) => {
            has_parameters(stream)
                && !stream.is_input()
                && layer_at(plan.layers.as_slice(), 2 * n) == layer
        }
        Duty::Close => has_clause(&stream.close),
        Duty::Shown(show) => !is_hidden(show, stream),
    }
}

/// The streams that have a duty, by their numbers.
fn duties(alloc: Global, plan: &Plan, duty: Duty) -> Result<Vec<u32>, Memory>
    requires accepted { IsAccepted plan.now }
    ensures { IfOk result (λ numbers. numbers.items ≡ duties_of plan.now duty) }
{
    let mut numbers = Vec::new(alloc);
    for (n, stream) in plan.spec.streams.as_slice().iter().enumerate() {
        if has_duty(plan, duty, n, stream) {
            numbers.push(n as u32)?;
        }
    }
    Ok(numbers)
}

/// The streams that have a duty in a layer.
fn layer_duties(alloc: Global, plan: &Plan, layer: u32) -> Result<LayerDuties, Memory>
    requires accepted { IsAccepted plan.now }
    ensures { IfOk result (IsLayerOf plan.now layer) }
{
    let spawns = duties(alloc, plan, Duty::Spawn(layer))?;
    let evals = duties(alloc, plan, Duty::Eval(layer))?;
    let seeks = duties(alloc, plan, Duty::Seek(layer))?;
    Ok(LayerDuties {
        spawns,
        evals,
        seeks,
    })
}

/// The streams that have a duty in each of so many layers.
fn layers_duties(alloc: Global, plan: &Plan, count: u64) -> Result<Vec<LayerDuties>, Memory>
    requires accepted { IsAccepted plan.now }
    requires few { count ≤ 2 ^ 32 }
    ensures count { IfOk result (λ layers. length layers.items ≡ count) }
    ensures each { IfOk result (λ layers. (layer : ℕ) (l : LayerDuties) → slice_get layers.items layer ≡ Some l → IsLayerOf plan.now layer l) }
{
    let mut layers = Vec::new(alloc);
    for layer in 0..count {
        layers.push(layer_duties(alloc, plan, layer as u32)?)?;
    }
    Ok(layers)
}

impl Schedule {
    /// That of a plan, for so many layers.
    pub(crate) fn create(alloc: Global, plan: &Plan, count: u64) -> Result<Schedule, Memory>
        requires accepted { IsAccepted plan.now }
        requires few { count ≤ 2 ^ 32 }
        ensures count { IfOk result (λ s. length s.layers.items ≡ count) }
        ensures of { IfOk result (IsScheduleOf plan.now) }
    {
        let inputs = duties(alloc, plan, Duty::Input)?;
        let births = duties(alloc, plan, Duty::AnySpawn)?;
        let layers = layers_duties(alloc, plan, count)?;
        let closes = duties(alloc, plan, Duty::Close)?;
        let triggers = duties(alloc, plan, Duty::Shown(Show::Triggers))?;
        let outputs = duties(alloc, plan, Duty::Shown(Show::Outputs))?;
        Ok(Schedule {
            inputs,
            births,
            layers,
            closes,
            triggers,
            outputs,
        })
    }

    /// The streams whose values may have lines, where so much is shown.
    pub(crate) fn shown(&self, show: Show) -> &[u32]
        ensures { (plan : Plan) → IsScheduleOf plan self.now → result.now ≡ duties_of plan (duty.Shown show) }
    {
        match show {
            Show::Triggers => self.triggers.as_slice(),
            Show::Outputs => self.outputs.as_slice(),
        }
    }

    /// The streams whose spawn clause belongs to a layer.
    pub(crate) fn spawns_in(&self, layer: u64) -> &[u32]
        requires { layer < length self.now.layers.items }
        ensures { (plan : Plan) → IsScheduleOf plan self.now → result.now ≡ duties_of plan (duty.Spawn layer) }
    {
        self.layers[layer as usize].spawns.as_slice()
    }

    /// The streams whose instances belong to a layer.
    pub(crate) fn evals_in(&self, layer: u64) -> &[u32]
        requires { layer < length self.now.layers.items }
        ensures { (plan : Plan) → IsScheduleOf plan self.now → result.now ≡ duties_of plan (duty.Eval layer) }
    {
        self.layers[layer as usize].evals.as_slice()
    }

    /// The streams with parameters whose instances belong to a layer.
    pub(crate) fn seeks_in(&self, layer: u64) -> &[u32]
        requires { layer < length self.now.layers.items }
        ensures { (plan : Plan) → IsScheduleOf plan self.now → result.now ≡ duties_of plan (duty.Seek layer) }
    {
        self.layers[layer as usize].seeks.as_slice()
    }
}

/// The stream of a number.
pub(crate) fn stream_at(plan: &Plan, n: u32) -> &Stream
    requires { n < length plan.now.spec.streams }
    ensures { slice_get plan.now.spec.streams n ≡ Some result.now }
{
    &plan.spec.streams.as_slice()[n as usize]
}
