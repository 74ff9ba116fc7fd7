//! Engines that are given all rows of a text.
ghost use Rattle.std.specs.Prelude.{◌≡◌, ◌+◌, IfOk, IsSome, MatchOption, None};
ghost use Rattle.lola_model.specs.Acceptance.{IsAccepted};
ghost use Rattle.lola_model.specs.Trace.{IsTraceable};
ghost use Rattle.lola_instances.specs.Stores.{bounded_seen};
ghost use Rattle.lola_engine.specs.Engines.{IsEngine, accepted_entry};
ghost use Rattle.lola_rows.specs.Reading.{shape_of};
ghost use Rattle.lola_store.specs.Stores.{whole_seen};

use lola_engine::end::EngineEnd;
use lola_engine::engine::Engine;
use lola_instances::store::BoundedStore;
use lola_model::journal::{Row, Show};
use lola_model::plan::Plan;
use lola_port::{IdleGate, MemoryShelf, MemorySource, Shelf};
use lola_rows::laws::rows_fit;
use lola_rows::{RowAnswer, RowReader};
use lola_store::store::WholeStore;
use lola_text::keys::fixed_keys;
use lola_text::store::TextStore;
use lola_value::text::{Memory, Text};
use std::alloc::Global;
use std::thread::Threads;

/// At most so many rows are read.
const MOST: u64 = 10_000;

/// A reader of rows, for a plan; none of a text that is too long for a test.
pub(crate) fn reader(
    alloc: Global,
    plan: &Plan,
    rows: &str,
) -> Result<Option<RowReader<MemorySource>>, Memory>
    ensures { IfOk result (λ made. MatchOption made (Unit {0}) (λ reader. (reader.shape ≡ shape_of plan.now.spec.streams 0 10000) × (reader.ended ≡ None))) }
{
    if rows.len() > 1_000_000 {
        return Ok(None);
    }
    let mut shelf = MemoryShelf::create(alloc);
    shelf.add("rows", rows.as_bytes(), 4096, &[])?;
    match shelf.fetch("rows") {
        Ok(source) => Ok(Some(RowReader::create(alloc, plan, 0, MOST, source)?)),
        Err(_) => Ok(None),
    }
}

/// The next row of a reader for a plan.
fn next_row(plan: &Plan, reader: &mut RowReader<MemorySource>) -> Option<Row>
    requires shape { reader.old.shape ≡ shape_of plan.now.spec.streams 0 10000 }
    requires going { reader.old.ended ≡ None }
    ensures fits { MatchOption result (Unit {0}) (λ row. IsTraceable plan.now (accepted_entry row)) }
    ensures shape { reader.new.shape ≡ reader.old.shape }
    ensures going { IsSome result → reader.new.ended ≡ None }
{
    rows_fit();
    match reader.next() {
        RowAnswer::Row(row) => Some(row),
        _ => None,
    }
}

/// An engine that keeps no more than is needed, and shows outputs.
pub(crate) fn bounded_engine(alloc: Global, plan: Plan) -> Result<Engine<BoundedStore>, Memory>
    requires { IsAccepted plan }
    ensures engine { IfOk result (λ engine. IsEngine engine.state (bounded_seen engine.store)) }
    ensures plan { IfOk result (λ engine. engine.state.plan ≡ plan) }
    ensures fresh { IfOk result (λ engine. (engine.state.merged ≡ 0) × (engine.state.rows ≡ 0)) }
{
    lola_instances::law::accepted_is_storable(&plan);
    let hasher = fixed_keys()?;
    let store = BoundedStore::create(alloc, hasher, &plan)?;
    Engine::create(alloc, hasher, plan, store, None, Show::Outputs, 1)
}

/// An engine that keeps all values, and shows outputs.
pub(crate) fn whole_engine(alloc: Global, plan: Plan) -> Result<Engine<WholeStore>, Memory>
    requires { IsAccepted plan }
    ensures engine { IfOk result (λ engine. IsEngine engine.state (whole_seen engine.store)) }
    ensures plan { IfOk result (λ engine. engine.state.plan ≡ plan) }
    ensures fresh { IfOk result (λ engine. (engine.state.merged ≡ 0) × (engine.state.rows ≡ 0)) }
{
    lola_store::law::accepted_is_storable(&plan);
    let store = WholeStore::create(alloc, &plan)?;
    Engine::create(alloc, fixed_keys()?, plan, store, None, Show::Outputs, 1)
}

/// Gives an engine all rows of a reader that are not late, and the end, and answers how it ended.
pub(crate) fn run_over<R: Threads + Sync, S: TextStore + Sync>(
    rt: &R,
    engine: &mut Engine<S>,
    reader: &mut RowReader<MemorySource>,
    lines: &mut Text,
) -> Result<(), EngineEnd>
    requires engine { IsEngine engine.old.state (S.seen engine.old.store) }
    requires fresh { (engine.old.state.merged ≡ 0) × (engine.old.state.rows ≡ 0) }
    requires shape { reader.old.shape ≡ shape_of engine.old.state.plan.spec.streams 0 10000 }
    requires going { reader.old.ended ≡ None }
{
    let mut merged = 0;
    for _ in 0..MOST {
        match next_row(engine.plan(), reader) {
            None => return engine.finish(rt, &IdleGate, lines),
            Some(row) => {
                if row.stamp >= merged {
                    engine.accept(rt, &IdleGate, &row, lines)?;
                    merged = row.stamp;
                }
            }
        }
    }
    engine.finish(rt, &IdleGate, lines)
}
