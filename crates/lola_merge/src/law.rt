//! The law of the schedule core.

ghost use Rattle.lola_merge.specs.Interleaving.{EveryOrderInterleaves};

/// Whatever rows are to come of each source, and in whatever order sources and the taker take turns: what was taken
/// and then what is pending is a legal journal of just these rows, each source's in their order, and at most 1,024
/// rows are pending.
pub fn every_order()
    ensures { EveryOrderInterleaves }
{}
