//! The store that keeps all values of every instance.

ghost use Rattle.std.specs.Prelude.{◌≤◌, IsTrue, map, slice_get};
ghost use Rattle.lola_model.specs.Store.{kind_in};
ghost use Rattle.lola_model.specs.Typing.{takes};
ghost use Rattle.lola_instances_stream.specs.Each.{Each};
ghost use Rattle.lola_store.specs.Populations.{PopulationRight, population_layout};
ghost use Rattle.lola_instances.specs.Phases.{is_on};
ghost use Rattle.lola_store.specs.Tallies.{AllOf-prop};
ghost use Rattle.std.proofs.Props.{props};

use crate::population::Population;
use lola_instances::phase::StorePhase;
use lola_model::plan::PaneSizes;
use lola_model::spec::Windows;
use std::alloc::Global;

/// The store that keeps all values of every instance.
#[derive(Drop)]
pub struct WholeStore {
    pub(crate) alloc: Global,
    pub(crate) windows: Windows,
    pub(crate) sizes: PaneSizes,
    pub(crate) phase: StorePhase,
    pub(crate) prepared: bool,
    /// One more than the number of steps that began, so that no step has number 0.
    pub(crate) step: u64,
    pub(crate) streams: Vec<Population>,
    ghost step_ge: { 1 ≤ step },
    ghost right: { Each (PopulationRight (is_on phase) prepared step) streams.items } by { Prim.hlevel (props, AllOf-prop) },
    ghost taken: { Each (λ w. IsTrue (takes w.using (kind_in (slice_get (map population_layout streams.items) w.target)))) windows },
}
