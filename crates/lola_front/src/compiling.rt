//! The call that compiles.

ghost use Rattle.std.specs.Prelude.{◌≡◌, ◌<◌, length, slice_get, IfOk};
ghost use Rattle.lola_value.specs.declared.front.Code.TheVariants as code;
ghost use Rattle.lola_model.specs.Model.{HasOneModel};
ghost use Rattle.lola_model.specs.Named.{IsNamed};
ghost use Rattle.lola_model.specs.Runs.{HasModelsOfRuns};
ghost use Rattle.lola_model.specs.StepOrder.{AreRates};
ghost use Rattle.lola_model.specs.Steps.{rates_of};
ghost use Rattle.lola_model.specs.Typed.{IsTyped};
ghost use Rattle.lola_front.specs.Front.{AnswersLayers, AnswersParts, Compiles, IsPlaceOf};

use crate::phases::full;
use crate::rates::are_rates;
use lola_bounds::bounds::bounds;
use lola_graph::cycle::zero_cycle;
use lola_graph::reads::edges;
use lola_layers::layers;
use lola_model::law::one_model_of_accepted;
use lola_model::pacing::Pacings;
use lola_model::plan::{Layers, Numbers, PaneSizes, Plan};
use lola_model::spec::{Spec, Stream};
use lola_pacing::check::check;
use lola_pacing::law::each_window_is_paced;
use lola_value::front::{Code, FrontEnd, Refusal};
use std::alloc::Global;

/// What a plan has beside its specification.
#[derive(Drop)]
struct Parts {
    pacings: Pacings,
    layers: Layers,
    kept: Numbers,
    panes: PaneSizes,
}

/// The refusal of a stream that reads itself within a step.
fn cycle(streams: &[Stream], stream: u32) -> Refusal
    requires { stream < length streams.now }
    ensures code { result.code ≡ code.ZeroCycle }
    ensures place { IsPlaceOf (slice_get streams.now stream) result.at }
{
    Refusal {
        code: Code::ZeroCycle,
        at: streams[stream as usize].place,
    }
}

/// The layers of a specification's graph, or the refusal of the least stream that reads itself within a step.
fn layered(alloc: Global, spec: &Spec) -> Result<Layers, FrontEnd>
    requires { IsNamed spec.now }
    ensures { AnswersLayers spec.now result }
{
    let edges = edges(alloc, spec)?;
    match zero_cycle(alloc, &edges)? {
        Some(stream) => Err(FrontEnd::Refused(cycle(spec.streams.as_slice(), stream))),
        None => {
            let layers = layers(alloc, &edges)?;
            Ok(layers)
        }
    }
}

/// All that a plan has beside its specification.
fn completed(alloc: Global, spec: &Spec) -> Result<Parts, FrontEnd>
    requires named { IsNamed spec.now }
    requires typed { IsTyped spec.now }
    ensures { AnswersParts spec.now result }
{
    each_window_is_paced();
    let pacings = check(alloc, spec)?;
    let layers = layered(alloc, spec)?;
    let (kept, panes) = bounds(alloc, spec, &pacings)?;
    Ok(Parts {
        pacings,
        layers,
        kept,
        panes,
    })
}

/// The plan of a specification's text, which is accepted and has one model over each list of steps and over each journal. Or the
/// refusal by which it has none: that of the first phase that refuses anything, and in it the first by place and then by code.
/// No whole expression or formula of a text that is accepted has more than 512 nestings. `FrontEnd::Memory` where memory runs out.
pub fn compile(alloc: Global, bytes: &[u8]) -> Result<Plan, FrontEnd>
    ensures compiles { Compiles bytes.now result }
    ensures one_model { IfOk result (λ plan. HasOneModel plan) }
    ensures models_of_runs { IfOk result (λ plan. HasModelsOfRuns plan) }
    ensures rates { IfOk result (λ plan. AreRates (rates_of plan.pacings)) }
{
    let spec = full(alloc, bytes)?;
    let parts = completed(alloc, &spec)?;
    are_rates(&parts.pacings);
    let plan = Plan {
        spec,
        pacings: parts.pacings,
        layers: parts.layers,
        kept: parts.kept,
        panes: parts.panes,
    };
    one_model_of_accepted(&plan);
    Ok(plan)
}
