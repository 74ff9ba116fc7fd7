//! A new store.

ghost use Rattle.std.specs.Prelude.{◌≡◌, ◌≤◌, ◌<◌, ◌++◌, ◌+◌, ◌^◌, nat_eq, if◌then◌else◌, [], ℕ, Some, true, IfOk, OnOk, length, map, slice_get};
ghost use Rattle.lola_value.specs.Naming.{Naming};
ghost use Rattle.lola_model.specs.Store.{StreamLayout, instances_seen, layout_of, layouts_from, new_seen};
ghost use Rattle.lola_instances_one.specs.Unborn.{AllSound};
ghost use Rattle.lola_instances_stream.specs.Crowds.{Crowd};
ghost use Rattle.lola_instances.specs.Layouts.{stream_layout};
ghost use Rattle.lola_instances.specs.Opening.{ArePlaces, IsOpened, IsStorable, count_onto, one_onto, onto};
ghost use Rattle.lola_instances.specs.Spawning.{AreNumbered, is_among};
ghost use Rattle.lola_instances.specs.Stores.{bounded_seen, bounded_remembers};
ghost use Rattle.lola_instances.specs.Streams.{crowd_layout};

use crate::layout::{copy_kinds, copy_sizes, copy_windows, has_spawn, kept_at, locals_at};
use crate::phase::StorePhase;
use crate::store::BoundedStore;
use lola_instances_one::window::WindowPanes;
use lola_instances_stream::instances::Instances;
use lola_model::pacing::ClausePacings;
use lola_model::plan::{PaneSize, Plan};
use lola_model::spec::{Stream, WindowSpec};
use lola_value::rate::Rate;
use lola_value::text::Memory;
use lola_value::value::Kind;
use std::alloc::Global;
use std::hash::RandomState;

/// The panes of a window, behind the others, if it is onto the stream.
fn add_onto(
    made: &mut Vec<WindowPanes>,
    stream: usize,
    kind: Kind,
    w: &WindowSpec,
    size: &PaneSize,
) -> Result<(), Memory>
    ensures { OnOk result (made.new.items ≡ made.old.items ++ one_onto stream kind w.now size.now) }
{
    if w.target as usize != stream {
        return Ok(());
    }
    made.push(WindowPanes {
        aggregation: w.using,
        kind,
        pane: size.pane,
        count: size.count,
        exact: w.exact,
    })?;
    Ok(())
}

/// The panes of the windows onto a stream, in the order of the windows.
fn windows_onto(
    alloc: Global,
    stream: usize,
    kind: Kind,
    windows: &[WindowSpec],
    sizes: &[PaneSize],
) -> Result<Vec<WindowPanes>, Memory>
    requires { length sizes.now ≡ length windows.now }
    ensures { IfOk result (λ made. made.items ≡ onto stream kind windows.now sizes.now) }
{
    let mut made = Vec::new(alloc);
    for (i, w) in windows.iter().enumerate() {
        add_onto(&mut made, stream, kind, w, &sizes[i])?;
    }
    Ok(made)
}

/// One more, where the window is onto the stream.
fn counted(count: usize, w: &WindowSpec, target: u32) -> usize
    requires { count < 2 ^ 63 }
    ensures { result ≡ (if nat_eq w.now.target target then 1 else 0) + count }
{
    if w.target == target { 1 + count } else { count }
}

/// How many of these windows are onto a stream.
fn count_of(windows: &[WindowSpec], target: u32) -> usize
    ensures { result ≡ count_onto target windows.now }
{
    let mut count = 0;
    for w in windows {
        count = counted(count, w, target);
    }
    count
}

/// The place of each window among those onto its target.
fn places_of(alloc: Global, windows: &[WindowSpec]) -> Result<Vec<usize>, Memory>
    ensures { IfOk result (λ places. ArePlaces windows.now places.items) }
{
    let mut made = Vec::new(alloc);
    for (i, w) in windows.iter().enumerate() {
        made.push(count_of(&windows[..i], w.target))?;
    }
    Ok(made)
}

/// A stream of a new store.
fn open(
    alloc: Global,
    hasher: RandomState,
    number: usize,
    stream: &Stream,
    kept: u32,
    locals: Vec<Rate>,
    windows: &[WindowSpec],
    sizes: &[PaneSize],
) -> Result<Instances, Memory>
    requires kept { 1 ≤ kept }
    requires sizes { length sizes.now ≡ length windows.now }
    requires sound { AllSound (onto number (stream_layout stream.now kept locals.items).kind windows.now sizes.now) }
    ensures layout { IfOk result (λ l. l.layout ≡ stream_layout stream.now kept locals.items) }
    ensures opened { IfOk result (λ l. IsOpened windows.now sizes.now number l) }
{
    let kind = stream.filled_kind();
    let parameters = copy_kinds(alloc, &stream.parameters)?;
    let onto = windows_onto(alloc, number, kind, windows, sizes)?;
    Instances::create(
        alloc,
        hasher,
        kind,
        parameters,
        has_spawn(stream),
        kept,
        locals,
        onto,
    )
}

/// The streams of a new store.
fn open_all(
    alloc: Global,
    hasher: RandomState,
    streams: &[Stream],
    kept: &[u32],
    pacings: &[ClausePacings],
    windows: &[WindowSpec],
    sizes: &[PaneSize],
) -> Result<Vec<Instances>, Memory>
    requires sizes { length sizes.now ≡ length windows.now }
    requires kept { (n : ℕ) (l : StreamLayout) → slice_get (layouts_from streams.now kept.now pacings.now) n ≡ Some l → 1 ≤ l.kept }
    requires sound { (n : ℕ) (l : StreamLayout) → slice_get (layouts_from streams.now kept.now pacings.now) n ≡ Some l → AllSound (onto n l.kind windows.now sizes.now) }
    ensures layouts { IfOk result (λ ls. map crowd_layout ls.items ≡ layouts_from streams.now kept.now pacings.now) }
    ensures opened { IfOk result (λ ls. (n : ℕ) (c : Crowd) → slice_get ls.items n ≡ Some c → IsOpened windows.now sizes.now n c) }
{
    let mut made = Vec::new(alloc);
    for (i, stream) in streams.iter().enumerate() {
        let locals = locals_at(alloc, pacings, i)?;
        let lives = open(
            alloc,
            hasher,
            i,
            stream,
            kept_at(kept, i),
            locals,
            windows,
            sizes,
        )?;
        made.push(lives)?;
    }
    Ok(made)
}

/// One more number, where it is that of a stream with a spawn clause.
fn add_spawning(made: &mut Vec<usize>, number: usize, lives: &Instances) -> Result<(), Memory>
    ensures old { OnOk result ((n : ℕ) → is_among n made.old.items ≡ true → is_among n made.new.items ≡ true) }
    ensures new { OnOk result (lives.now.layout.spawns ≡ true → is_among number made.new.items ≡ true) }
{
    if lives.spawns() {
        made.push(number)?;
    }
    Ok(())
}

/// The numbers of the streams with a spawn clause.
fn spawning_of(alloc: Global, streams: &[Instances]) -> Result<Vec<usize>, Memory>
    ensures { IfOk result (λ numbers. AreNumbered streams.now numbers.items) }
{
    let mut made = Vec::new(alloc);
    for (i, lives) in streams.iter().enumerate() {
        add_spawning(&mut made, i, lives)?;
    }
    Ok(made)
}

impl BoundedStore {
    /// A new store for the streams and windows of a plan, with all the memory that instances of streams without a spawn clause will
    /// ever take. It remembers that no instance has a value yet. Instances are looked up by their parameters under the keys of `hasher`,
    /// so that nobody who does not know them can choose parameters that collide.
    pub fn create(alloc: Global, hasher: RandomState, plan: &Plan) -> Result<BoundedStore, Memory>
        requires { IsStorable plan.now }
        ensures seen { IfOk result (λ s. bounded_seen s ≡ new_seen (layout_of plan.now)) }
        ensures past { IfOk result (λ s. (names : Naming) (n i : ℕ) → i < length (instances_seen (bounded_seen s) n) → bounded_remembers s names n i []) }
    {
        let windows = copy_windows(alloc, &plan.spec.windows)?;
        let sizes = copy_sizes(alloc, &plan.panes)?;
        let places = places_of(alloc, plan.spec.windows.as_slice())?;
        let streams = open_all(
            alloc,
            hasher,
            plan.spec.streams.as_slice(),
            plan.kept.as_slice(),
            plan.pacings.as_slice(),
            plan.spec.windows.as_slice(),
            plan.panes.as_slice(),
        )?;
        let spawning = spawning_of(alloc, streams.as_slice())?;
        Ok(BoundedStore {
            windows,
            sizes,
            phase: StorePhase::New,
            prepared: false,
            step: 1,
            offset: 0,
            streams,
            places,
            spawning,
        })
    }
}
