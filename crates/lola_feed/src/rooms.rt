//! Room to read sources.

ghost use Rattle.std.specs.Prelude.{◌≤◌, ◌^◌, IfOk};
ghost use Rattle.lola_feed.specs.Lending.{AreRooms};

use lola_model::plan::Plan;
use lola_port::Source;
use lola_rows::{EmptyReader, RowReader};
use lola_value::text::Memory;
use std::alloc::Global;

/// The room that readers of so many sources of a plan need, each for at most `most` rows. The heading's columns and the room for
/// a line's fields are made when the first lines are read.
pub fn reserve_all<S: Source>(
    alloc: Global,
    plan: &Plan,
    sources: u32,
    most: u64,
) -> Result<Vec<EmptyReader>, Memory>
    requires many { sources ≤ 64 }
    requires most { most ≤ 2 ^ 40 }
    ensures { IfOk result (λ rooms. AreRooms plan.now sources most rooms.items) }
{
    let mut rooms = Vec::with_capacity(alloc, sources as usize)?;
    for source in 0..sources {
        rooms.push_reserved(RowReader::<S>::reserve(alloc, plan, source, most)?);
    }
    Ok(rooms)
}
