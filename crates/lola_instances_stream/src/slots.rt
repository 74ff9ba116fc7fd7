//! Instances that are made ahead, and those that a stream begins with.

ghost use Rattle.std.specs.Prelude.{◌≡◌, ◌≤◌, ◌<◌, ◌+◌, ◌++◌, ◌∷◌, [], None, true, length, IfOk, OnOk, IsTrue};
ghost use Rattle.lola_value.specs.Kinds.{is_well_formed};
ghost use Rattle.lola_instances_one.specs.Unborn.{AllSound, unborn};
ghost use Rattle.lola_instances_stream.specs.Births.{firsts, newborn};
ghost use Rattle.lola_instances_stream.specs.Crowds.{place_in};
ghost use Rattle.lola_instances_stream.specs.Each.{Each};

use crate::cells::Cells;
use lola_instances_one::instance::Instance;
use lola_instances_one::window::WindowPanes;
use lola_value::text::Memory;
use lola_value::value::Params;
use std::alloc::Global;
use std::hash::RandomState;

/// The first instances of a stream: one, where it has no spawn clause.
pub fn first_slots(
    alloc: Global,
    hasher: RandomState,
    is_kept: bool,
    spawns: bool,
    kept: u32,
    windows: &[WindowPanes],
) -> Result<Cells, Memory>
    requires spawns { is_kept ≡ true → spawns ≡ true }
    requires kept { 1 ≤ kept }
    requires windows { AllSound windows.now }
    ensures { IfOk result (λ slots. slots.items ≡ firsts spawns kept windows.now) }
{
    let mut slots = Cells::create(alloc, hasher, is_kept);
    if !spawns {
        let slot = Instance::create(alloc, kept, windows)?;
        slots.make_room()?;
        slots.add(slot);
    }
    Ok(slots)
}

/// One more instance that is made ahead.
fn add_spare(
    spares: &mut Vec<Instance>,
    alloc: Global,
    kept: u32,
    windows: &[WindowPanes],
) -> Result<(), Memory>
    requires kept { 1 ≤ kept }
    requires windows { AllSound windows.now }
    ensures more { length spares.old.items ≤ length spares.new.items }
    ensures few { length spares.new.items ≤ length spares.old.items + 1 }
    ensures ok { OnOk result (length spares.old.items + 1 ≤ length spares.new.items) }
    ensures blank { Each (λ s. s ≡ unborn kept windows.now) spares.old.items → Each (λ s. s ≡ unborn kept windows.now) spares.new.items }
{
    match spares.reserve(1) {
        Err(_) => Err(Memory),
        Ok(()) => match Instance::create(alloc, kept, windows) {
            Err(memory) => Err(memory),
            Ok(spare) => {
                spares.push_reserved(spare);
                Ok(())
            }
        },
    }
}

/// Two instances at least that are made ahead.
pub fn fill_spares(
    spares: &mut Vec<Instance>,
    alloc: Global,
    kept: u32,
    windows: &[WindowPanes],
) -> Result<(), Memory>
    requires kept { 1 ≤ kept }
    requires windows { AllSound windows.now }
    ensures more { length spares.old.items ≤ length spares.new.items }
    ensures few { length spares.new.items ≤ length spares.old.items + 2 }
    ensures ok { OnOk result (2 ≤ length spares.new.items) }
    ensures blank { Each (λ s. s ≡ unborn kept windows.now) spares.old.items → Each (λ s. s ≡ unborn kept windows.now) spares.new.items }
{
    if spares.len() >= 2 {
        return Ok(());
    }
    match add_spare(spares, alloc, kept, windows) {
        Err(memory) => Err(memory),
        Ok(()) => add_spare(spares, alloc, kept, windows),
    }
}

/// An instance that was made ahead is born at a time, in room that was made.
pub fn bear(
    slots: &mut Cells,
    spares: &mut Vec<Instance>,
    params: Params,
    time: u64,
    _kept: u32,
    _windows: &[WindowPanes],
)
    requires formed { IsTrue (is_well_formed params) }
    requires spare { 1 ≤ length spares.old.items }
    requires room { length slots.old.items < slots.old.capacity }
    requires listed { slots.old.is_kept ≡ true → 1 ≤ slots.old.room }
    requires absent { place_in params slots.old.items 0 ≡ None }
    requires blank { Each (λ s. s ≡ unborn _kept _windows.now) spares.old.items }
    ensures slots { slots.new ≡ record slots.old { items = slots.old.items ++ newborn _kept _windows.now time params ∷ []; room = slots.new.room } }
    ensures room { slots.old.room ≤ slots.new.room + 1 }
    ensures spares { length spares.new.items + 1 ≡ length spares.old.items }
    ensures rest { Each (λ s. s ≡ unborn _kept _windows.now) spares.new.items }
{
    if let Some(spare) = spares.pop() {
        let mut born = spare;
        born.begin_life(params, time);
        slots.add(born);
    }
}
