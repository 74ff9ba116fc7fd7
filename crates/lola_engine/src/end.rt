//! How the run of rows ends.

use lola_value::value::FaultKind;

/// Why an engine runs no more rows.
#[derive(Clone, Copy)]
pub enum EngineEnd {
    /// A step has a fault: the first stream with a fault of its own, the fault's kind, and the step's time in nanoseconds.
    Fault {
        stream: u32,
        kind: FaultKind,
        time: u64,
    },
    /// There was no memory for a step or for its lines.
    Memory,
}

/// What an engine has counted.
#[derive(Clone, Copy)]
pub struct Counts {
    /// The steps that were run without a fault: of accepted rows, and of deadlines.
    pub steps: u64,
    /// The lines that they brought.
    pub lines: u128,
}

/// The texts of an engine.
#[derive(Clone, Copy)]
pub struct TextCounts {
    /// The texts that it holds.
    pub held: u64,
    /// The texts that the newest sweep left, or that were held at creation.
    pub swept: u64,
}
