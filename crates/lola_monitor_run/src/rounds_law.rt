//! What holds of runs, by their definitions alone.
ghost use Rattle.std.specs.Prelude.{Bool, Err, List};
ghost use Rattle.lola_model.specs.declared.journal.Entry.{Entry};
ghost use Rattle.lola_monitor_run.specs.Behind.{EndsBehind, RunsBehind};
ghost use Rattle.lola_monitor_run.specs.Feeds.{World};
ghost use Rattle.lola_monitor_run.specs.declared.stop.Stop.{Stop};

/// A run that was stopped among its rows has ended: the deadlines at its last stamp are not run.
pub fn stopped_runs_end()
    ensures { (in_turns : Bool) (before : List Entry) (how : Stop) (first last : World) → RunsBehind in_turns before (Err how) first last → EndsBehind in_turns before (Err how) first last }
{}
