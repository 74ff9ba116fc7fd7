//! How far a run has come.

ghost use Rattle.std.specs.Prelude.{◌≡◌};
ghost use Rattle.lola_engine.specs.Resuming.{merge_start};

/// How far a run has come, as far as times and steps tell: what an engine needs to go on from there, beside a store and texts.
#[derive(Clone, Copy)]
pub struct RunTimes {
    /// Where time counts from: the start that was given, or the stamp of the first accepted row. In nanoseconds.
    pub start: Option<u64>,
    /// The stamp of the last accepted row, in nanoseconds; none where no row was accepted.
    pub last: Option<u64>,
    /// The steps that were run without a fault.
    pub steps: u64,
}

impl RunTimes {
    /// The start of a merge of rows that go on behind those of the run, in nanoseconds: a row before it is late. It is the stamp of the last
    /// accepted row, or, where there was none, where time counts from, if that is known.
    pub fn merge_start(&self) -> Option<u64>
        ensures { result ≡ merge_start self.now }
    {
        match self.last {
            Some(last) => Some(last),
            None => self.start,
        }
    }
}
