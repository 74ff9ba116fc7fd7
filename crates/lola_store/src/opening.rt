//! A new store.

ghost use Rattle.std.specs.Prelude.{◌≡◌, ◌<◌, ℕ, [], Bool, IfOk, map, length};
ghost use Rattle.lola_value.specs.Naming.{Naming};
ghost use Rattle.lola_model.specs.Store.{layout_of, layouts_from, new_seen, instances_seen};
ghost use Rattle.lola_instances.specs.Layouts.{stream_layout};
ghost use Rattle.lola_instances_stream.specs.Each.{Each};
ghost use Rattle.lola_store.specs.Opening.{IsStorable, IsOpened, AreFirst};
ghost use Rattle.lola_store.specs.Populations.{population_layout};
ghost use Rattle.lola_store.specs.Stores.{whole_seen, whole_remembers};

use crate::instance::Instance;
use crate::population::Population;
use crate::store::WholeStore;
use lola_instances::layout::{copy_kinds, copy_sizes, copy_windows, has_spawn, kept_at, locals_at};
use lola_instances::phase::StorePhase;
use lola_model::pacing::ClausePacings;
use lola_model::plan::Plan;
use lola_model::spec::Stream;
use lola_value::rate::Rate;
use lola_value::text::Memory;
use lola_value::value::{Outcome, Params, Value};
use std::alloc::Global;

/// The first instances of a stream.
fn first_lives(alloc: Global, spawns: bool) -> Result<Vec<Instance>, Memory>
    ensures { IfOk result (λ lives. AreFirst spawns lives.items) }
{
    let mut lives = Vec::new(alloc);
    if spawns {
        return Ok(lives);
    }
    let values = Vec::with_capacity(alloc, 2)?;
    let unused = Value::Bool(false);
    let life = Instance {
        params: Params {
            count: 0,
            at0: unused,
            at1: unused,
            at2: unused,
            at3: unused,
        },
        born: 0,
        told_at: 0,
        outcome: Outcome::Missing,
        values,
    };
    match lives.push(life) {
        Ok(()) => Ok(lives),
        Err(_) => Err(Memory),
    }
}

/// A stream of a new store.
fn open(alloc: Global, stream: &Stream, kept: u32, locals: Vec<Rate>) -> Result<Population, Memory>
    ensures layout { IfOk result (λ l. population_layout l ≡ stream_layout stream.now kept locals.items) }
    ensures opened { IfOk result (λ l. IsOpened l) }
{
    let spawns = has_spawn(stream);
    let parameters = copy_kinds(alloc, &stream.parameters)?;
    let lives = first_lives(alloc, spawns)?;
    Ok(Population {
        kind: stream.filled_kind(),
        parameters,
        spawns,
        kept,
        locals,
        bad_at: 0,
        spawned_at: 0,
        lives,
        spares: Vec::new(alloc),
    })
}

/// The streams of a new store.
fn open_all(
    alloc: Global,
    streams: &[Stream],
    kept: &[u32],
    pacings: &[ClausePacings],
) -> Result<Vec<Population>, Memory>
    ensures layouts { IfOk result (λ ls. map population_layout ls.items ≡ layouts_from streams.now kept.now pacings.now) }
    ensures opened { IfOk result (λ ls. Each IsOpened ls.items) }
{
    let mut made = Vec::new(alloc);
    for (i, stream) in streams.iter().enumerate() {
        let locals = locals_at(alloc, pacings, i)?;
        let population = open(alloc, stream, kept_at(kept, i), locals)?;
        made.push(population)?;
    }
    Ok(made)
}

impl WholeStore {
    /// A new store for the streams and windows of a plan. It remembers that no instance has a value yet.
    pub fn create(alloc: Global, plan: &Plan) -> Result<WholeStore, Memory>
        requires { IsStorable plan.now }
        ensures seen { IfOk result (λ s. whole_seen s ≡ new_seen (layout_of plan.now)) }
        ensures past { IfOk result (λ s. (names : Naming) (n i : ℕ) → i < length (instances_seen (whole_seen s) n) → whole_remembers s names n i []) }
    {
        let windows = copy_windows(alloc, &plan.spec.windows)?;
        let sizes = copy_sizes(alloc, &plan.panes)?;
        let streams = open_all(
            alloc,
            plan.spec.streams.as_slice(),
            plan.kept.as_slice(),
            plan.pacings.as_slice(),
        )?;
        Ok(WholeStore {
            alloc,
            windows,
            sizes,
            phase: StorePhase::New,
            prepared: false,
            step: 1,
            streams,
        })
    }
}
