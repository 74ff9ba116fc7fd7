//! Why a run takes no further row.

use lola_port::PutEnd;
use lola_value::text::Memory;
use lola_value::value::FaultKind;

/// What ends a run before its sources have ended.
#[derive(Clone, Copy)]
pub enum Stop {
    /// A step has a fault: the stream, the fault's kind, and the step's time in nanoseconds.
    Fault {
        stream: u32,
        kind: FaultKind,
        time: u64,
    },
    /// A step has such a fault, and a put of the lines before it failed.
    CutFault {
        stream: u32,
        kind: FaultKind,
        time: u64,
    },
    /// A put failed, and no step so far has a fault.
    Put,
    /// There is no memory.
    Memory,
}

impl From<PutEnd> for Stop {
    ghost use Rattle.std.specs.Prelude.{◌≡◌};
    ghost use Rattle.lola_monitor_run.specs.Running.{stop_of};

    ghost from_gives = { λ end stop. stop ≡ stop_of end };

    fn from(end: PutEnd) -> Self {
        match end {
            PutEnd::Failed => Stop::Put,
            PutEnd::Memory => Stop::Memory,
        }
    }
}

impl From<Memory> for Stop {
    ghost use Rattle.std.specs.Prelude.{◌≡◌};
    ghost use Rattle.lola_monitor_run.specs.declared.stop.Stop.TheVariants as stop;

    ghost from_gives = { λ _ end. end ≡ stop.Memory };

    fn from(_: Memory) -> Self {
        Stop::Memory
    }
}
