//! A whole state is read.

ghost use Rattle.std.specs.Prelude.{◌≡◌, ◌+◌, ◌-◌, ◌≤◌, length, take, MatchResult};
ghost use Rattle.lola_model.specs.Acceptance.{IsAccepted};
ghost use Rattle.lola_save_text.specs.Runs.{count_lines};
ghost use Rattle.lola_save_read.specs.Ends.{IsRead, IsReadEnd};

use crate::head::{HeadEnd, behind_head};
use crate::streams::streams_of;
use crate::times::read_times;
use lola_model::plan::Plan;
use lola_save_text::state::SavedState;
use lola_value::text::Memory;
use std::alloc::Global;

/// Why no state is read of bytes.
#[derive(Clone, Copy)]
pub enum ReadEnd {
    /// They are damaged at this line, counted from 1 over all lines: it is the first with which no state text of the plan goes on.
    Damaged(u64),
    /// They are of another specification.
    OtherSpec,
    /// There is no memory for the state.
    Memory,
}

// How many lines end in these bytes.
fn count_lines(bytes: &[u8]) -> u64
    ensures lines { result ≡ count_lines bytes.now }
    ensures few { result ≤ length bytes.now }
{
    let mut lines = 0;
    for byte in bytes {
        if *byte == b'\n' {
            lines += 1;
        }
    }
    lines
}

// The line that begins where so many bytes are left, or one of the next two.
fn line_at(bytes: &[u8], many: usize, line: u64) -> u64
    requires { line ≤ 3 }
    ensures { result ≡ count_lines (take (length bytes.now - many) bytes.now) + line }
{
    count_lines(&bytes[..bytes.len().saturating_sub(many)]) + line
}

/// The state of a plan whose text these bytes are, for the specification that the plan was compiled from. Where they are none, it tells
/// whether they are of another specification, or at which line they are damaged.
pub fn read_state(
    alloc: Global,
    spec: &[u8],
    plan: &Plan,
    bytes: &[u8],
) -> Result<SavedState, ReadEnd>
    requires { IsAccepted plan.now }
    ensures { MatchResult result (λ state. IsRead spec.now plan.now bytes.now state) (λ e. IsReadEnd spec.now plan.now bytes.now e) }
{
    match behind_head(spec, bytes) {
        Err(HeadEnd::OtherSpec) => Err(ReadEnd::OtherSpec),
        Err(HeadEnd::Damaged(line)) => Err(ReadEnd::Damaged(line)),
        Ok(lines) => match read_times(lines) {
            Err(line) => Err(ReadEnd::Damaged(line_at(bytes, lines.len(), line))),
            Ok((times, behind)) => match streams_of(alloc, plan, times, behind) {
                Err(Memory) => Err(ReadEnd::Memory),
                Ok(Err(many)) => Err(ReadEnd::Damaged(line_at(bytes, many, 1))),
                Ok(Ok(streams)) => Ok(SavedState {
                    start: times.start,
                    last: times.last,
                    steps: times.steps,
                    streams,
                }),
            },
        },
    }
}
