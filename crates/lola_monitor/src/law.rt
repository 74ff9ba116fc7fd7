//! The laws, about definitions alone.

ghost use Rattle.lola_monitor.specs.Monitor.{Call, IsCutDone, IsCutMalformed, IsCutOff, IsCutShort, IsDone, IsFault, IsMalformed, IsUnfinished};
ghost use Rattle.lola_monitor.specs.Telling.{TellsThem};

/// What a call put to its trace spells the journal of the rows that it took, and no other: so of a call that left what its status
/// says, every statement about its journal is one about the journal that is read back from its trace. A line at whose middle the
/// trace was cut is left out, and so is its row. A clause for each of the statuses 0, 4, 5, 6, 7 (three ways) and 8 with which
/// rows are taken.
pub fn trace_tells_the_rows()
    ensures done { (c : Call) (is : IsDone c) → TellsThem c is.all.run }
    ensures malformed { (c : Call) (is : IsMalformed c) → TellsThem c is.some.run }
    ensures fault { (c : Call) (is : IsFault c) → TellsThem c is.up_to.run }
    ensures unreadable { (c : Call) (is : IsCutShort c) → TellsThem c is.short.run }
    ensures cut { (c : Call) (is : IsCutOff c) → TellsThem c is.run }
    ensures cut_done { (c : Call) (is : IsCutDone c) → TellsThem c is.all.run }
    ensures cut_malformed { (c : Call) (is : IsCutMalformed c) → TellsThem c is.some.run }
    ensures memory { (c : Call) (is : IsUnfinished c) → TellsThem c is.run }
{}
