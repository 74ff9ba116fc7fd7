//! Why the rows of a run were not all taken.

use lola_monitor_run::stop::Stop;

/// What ends the taking of rows before all sources have ended.
#[derive(Clone, Copy)]
pub enum Halt {
    /// The run was stopped.
    Stopped(Stop),
    /// A row came that no source of the run reads. It is tested for, since a thread knows of other threads' rows only that they
    /// came; once all have been joined it is shown that there was none.
    Unfit,
}
