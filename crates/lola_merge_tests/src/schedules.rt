//! A schedule of two sources and the engine, worked out by hand.

ghost use Rattle.std.specs.Prelude.{◌≡◌, ◌<◌, ℕ, List, [], ◌∷◌, length, map, IfOk};
ghost use Rattle.lola_merge.specs.Interleaving.{AreOf, StandRight, IsActor};

use lola_merge::world::{Actor, World};
use lola_model::journal::{Entry, Mark, Row};
use lola_value::text::{Fields, Memory};
use std::alloc::Global;
use std::process::Abort;

pub(crate) fn row(alloc: Global, source: u32, number: u64, stamp: u64) -> Row
    ensures { result.source ≡ source }
{
    let fields = Fields::create(alloc);
    Row {
        source,
        number,
        stamp,
        fields,
    }
}

// The rows of a source with these stamps.
fn rows(alloc: Global, source: u32, stamps: &[u64]) -> Result<Vec<Row>, Memory>
    ensures { IfOk result (λ rows. AreOf source rows.items) }
{
    let mut rows = Vec::new(alloc);
    for (i, stamp) in stamps.iter().enumerate() {
        rows.push(row(alloc, source, i as u64, *stamp))?;
    }
    Ok(rows)
}

// The world of two sources with these stamps.
fn world(alloc: Global, first: &[u64], second: &[u64]) -> Result<World, Memory>
    ensures { IfOk result (λ world. length world.to_come ≡ 2) }
{
    let mut lists = Vec::new(alloc);
    lists.push(rows(alloc, 0, first)?)?;
    lists.push(rows(alloc, 1, second)?)?;
    World::create(alloc, lists, None)
}

// Takes a turn, and looks whether it says of itself that it changed something.
fn turn(rt: &impl Abort, world: &mut World, actor: Actor, changes: bool) -> Result<(), Memory>
    requires actor { IsActor world.old actor }
    requires two { length world.old.to_come ≡ 2 }
    ensures { length world.new.to_come ≡ 2 }
{
    let changed = world.turn(actor)?;
    assert!(rt; changed == changes);
    Ok(())
}

// Whether these are the entries, by their sources, stamps and marks.
fn are(entries: &[Entry], wanted: &[(u32, u64, Mark)]) -> bool {
    entries.len() == wanted.len()
        && entries.iter().zip(wanted).all(|(entry, (source, stamp, mark))| {
            entry.row.source == *source && entry.row.stamp == *stamp && entry.mark == *mark
        })
}

#[test]
fn a_stamp_below_one_before_it_is_late(rt: HostRuntime) -> Result<(), Memory> {
    let mut course = world(rt.alloc(), &[5, 6], &[1])?;
    turn(&rt, &mut course, Actor::Source(0), true)?;
    turn(&rt, &mut course, Actor::Source(1), true)?;
    turn(&rt, &mut course, Actor::Engine, true)?;
    turn(&rt, &mut course, Actor::Source(0), true)?;
    turn(&rt, &mut course, Actor::Engine, true)?;
    let wanted = [
        (0, 5, Mark::Accepted),
        (1, 1, Mark::Late(5)),
        (0, 6, Mark::Accepted),
    ];
    assert!(rt; are(course.taken(), &wanted));
    turn(&rt, &mut course, Actor::Source(1), true)?;
    turn(&rt, &mut course, Actor::Source(1), false)
}
