//! The laws of the definitions of this crate: functions that do nothing, and ensure them.

ghost use Rattle.lola_monitor_command.specs.Order.{ReplaysAreInOrder, RunsAreInOrder, SnapshotsAreInOrder};

/// What words say is a run exactly where options, the specification, options, from 1 to 64 sources and options follow each
/// other, no option comes twice, and a start and a state do not both come.
pub fn runs_are_in_order()
    ensures { RunsAreInOrder }
{}

/// What words say is a replay exactly where options, the specification, the trace, the verdicts and options follow each other, no
/// option comes twice, and none is one that a replay does not have.
pub fn replays_are_in_order()
    ensures { ReplaysAreInOrder }
{}

/// What words say is a snapshot exactly where options, the specification, options, from 1 to 64 sources and options follow each
/// other, no option comes twice, none is one that a snapshot does not have, and a start and a state do not both come.
pub fn snapshots_are_in_order()
    ensures { SnapshotsAreInOrder }
{}
