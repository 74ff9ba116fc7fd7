//! The store that keeps of each instance only what accesses need.

ghost use Rattle.std.specs.Prelude.{◌≡◌, ◌≤◌, ◌+◌, ◌-◌, ◌^◌, true};
ghost use Rattle.std.proofs.Props.{props};
ghost use Rattle.lola_instances_stream.specs.Each.{Each};
ghost use Rattle.lola_instances_stream.specs.Props.{AllOf-prop, AllGiven-prop, AllPanesOf-prop};
ghost use Rattle.lola_instances_stream.specs.Rights.{CrowdRight};
ghost use Rattle.lola_instances.specs.Opening.{ArePlaces};
ghost use Rattle.lola_instances.specs.Placed.{ArePlaced, AreCovered};
ghost use Rattle.lola_instances.specs.Spawning.{AreNumbered};
ghost use Rattle.lola_instances.specs.Phases.{is_on, start_in, time_in};

use crate::phase::StorePhase;
use lola_instances_stream::instances::Instances;
use lola_model::plan::PaneSizes;
use lola_model::spec::Windows;

/// The store that keeps of each instance its last values, as many as accesses need, and the panes of each window onto it.
#[derive(Drop)]
pub struct BoundedStore {
    pub(crate) windows: Windows,
    pub(crate) sizes: PaneSizes,
    pub(crate) phase: StorePhase,
    pub(crate) prepared: bool,
    /// One more than the number of steps that began, so that no step has number 0.
    pub(crate) step: u64,
    /// How long after the start the time of this step is.
    pub(crate) offset: u64,
    pub(crate) streams: Vec<Instances>,
    /// For each window, the place of its panes among those of its target.
    pub(crate) places: Vec<usize>,
    /// The numbers of the streams with a spawn clause.
    pub(crate) spawning: Vec<usize>,
    ghost step_ge: { 1 ≤ step },
    ghost step_le: { step ≤ 2 ^ 63 + 1 },
    ghost begun: { is_on phase ≡ true → 2 ≤ step },
    ghost time_ge: { start_in phase ≤ time_in phase },
    ghost offset_is: { offset ≡ time_in phase - start_in phase },
    ghost right: { Each (CrowdRight (is_on phase) prepared step (time_in phase - start_in phase)) streams.items } by { Prim.hlevel (props, AllOf-prop, AllGiven-prop, AllPanesOf-prop) },
    ghost placed: { ArePlaced windows sizes places.items streams.items },
    ghost at_places: { ArePlaces windows places.items },
    ghost covered: { AreCovered windows streams.items },
    ghost numbered: { AreNumbered streams.items spawning.items },
}

/// How long after the start the time of this step is.
#[inline(always)]
pub(crate) fn offset_of(s: &BoundedStore) -> u64
    ensures { result ≡ time_in s.now.phase - start_in s.now.phase }
{
    s.offset
}
