//! What a store takes of a plan: its windows and their panes, and what it has to know of each stream.

ghost use Rattle.std.specs.Prelude.{◌≡◌, ◌++◌, [], Some, IfOk, OnOk, drop};
ghost use Rattle.lola_model.specs.NextStep.{local_rate_of, local_rates};
ghost use Rattle.lola_instances.specs.Layouts.{first_kept, first_locals, stream_layout};

use lola_model::pacing::{ClausePacings, Pacing};
use lola_model::plan::PaneSizes;
use lola_model::spec::{Kinds, Stream, Windows};
use lola_value::rate::Rate;
use lola_value::text::Memory;
use std::alloc::Global;

/// The same windows, in memory of their own. Memory is all that can be lacking.
pub fn copy_windows(alloc: Global, windows: &Windows) -> Result<Windows, Memory>
    ensures { IfOk result (λ copy. copy ≡ windows.now) }
{
    let mut copy = Windows::create(alloc);
    for w in windows.as_slice() {
        copy.push(*w)?;
    }
    Ok(copy)
}

/// The same sizes of panes, in memory of their own. Memory is all that can be lacking.
pub fn copy_sizes(alloc: Global, sizes: &PaneSizes) -> Result<PaneSizes, Memory>
    ensures { IfOk result (λ copy. copy ≡ sizes.now) }
{
    let mut copy = PaneSizes::create(alloc);
    for p in sizes.as_slice() {
        copy.push(*p)?;
    }
    Ok(copy)
}

/// The same kinds, in memory of their own. Memory is all that can be lacking.
pub fn copy_kinds(alloc: Global, kinds: &Kinds) -> Result<Kinds, Memory>
    ensures { IfOk result (λ copy. copy ≡ kinds.now) }
{
    let mut copy = Kinds::create(alloc);
    for k in kinds.as_slice() {
        copy.push(*k)?;
    }
    Ok(copy)
}

/// Whether a stream has a spawn clause.
pub fn has_spawn(stream: &Stream) -> bool
    ensures { result ≡ (stream_layout stream.now 0 []).spawns }
{
    match &stream.spawn {
        None => false,
        Some(_) => true,
    }
}

/// How many values the stream of a number keeps: 1, where the list has no such number.
pub fn kept_at(kept: &[u32], i: usize) -> u32
    ensures { result ≡ first_kept (drop i kept.now) }
{
    if i < kept.len() { kept[i] } else { 1 }
}

// Puts the rate of a pacing behind these rates, where it counts from births.
fn add_local(pacing: &Option<Pacing>, rates: &mut Vec<Rate>) -> Result<(), Memory>
    ensures { OnOk result (rates.new.items ≡ rates.old.items ++ local_rate_of pacing.now) }
{
    if let Some(Pacing::Local(rate)) = pacing {
        rates.push(*rate)?;
    }
    Ok(())
}

// The rates of a stream's clauses that count from births: of the eval clause, then of the close clause.
fn locals_of(alloc: Global, clauses: &ClausePacings) -> Result<Vec<Rate>, Memory>
    ensures { IfOk result (λ rates. rates.items ≡ local_rates (Some clauses.now)) }
{
    let mut rates = Vec::new(alloc);
    add_local(&clauses.eval, &mut rates)?;
    add_local(&clauses.close, &mut rates)?;
    Ok(rates)
}

/// The rates of the clauses of the stream of a number that count from births: of the eval clause, then of the close clause. None, where
/// the list has no such number. Memory is all that can be lacking.
pub fn locals_at(alloc: Global, pacings: &[ClausePacings], i: usize) -> Result<Vec<Rate>, Memory>
    ensures { IfOk result (λ rates. rates.items ≡ first_locals (drop i pacings.now)) }
{
    if i < pacings.len() {
        locals_of(alloc, &pacings[i])
    } else {
        Ok(Vec::new(alloc))
    }
}
