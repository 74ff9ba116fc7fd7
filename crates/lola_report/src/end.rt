//! The end line: how a command ended.

ghost use Rattle.std.specs.Prelude.{◌≡◌, ◌++◌, OnOk, OnErr};
ghost use Rattle.lola_value.specs.Appending.{AppendsPart};
ghost use Rattle.lola_report.specs.Ends.{end_text, done_text, refused_text, malformed_text, fault_text, unreadable_text, analysed_text};

use crate::names::{
    code_name, code_number, fault_name, fault_number, malformed_name, malformed_number,
};
use crate::piece::{LinePiece, append_all};
use lola_model::source::MalformedKind;
use lola_value::front::Refusal;
use lola_value::text::{Memory, Text};
use lola_value::value::FaultKind;

/// How a command ended.
#[derive(Drop)]
pub enum EndLine {
    /// A run came to the end of its sources: how many rows were accepted and how many late, how many steps there were,
    /// and how many verdict lines.
    Done {
        accepted: u64,
        late: u64,
        steps: u64,
        lines: u128,
    },
    /// The words are no command.
    Usage,
    /// The specification is refused.
    Refused(Refusal),
    /// A source ended at a line that is malformed; its heading is row 0.
    Malformed {
        source: u32,
        row: u64,
        kind: MalformedKind,
    },
    /// An evaluation of this stream came to a fault, at a time in nanoseconds.
    Fault {
        name: Text,
        kind: FaultKind,
        time: u64,
    },
    /// The specification could not be read.
    UnreadableSpecification,
    /// A source, counted from 0, could not be read.
    UnreadableSource(u32),
    /// A specification was analysed: how many streams and how many windows it has.
    Analysed {
        streams: u32,
        windows: u32,
    },
}

fn done_line(accepted: u64, late: u64, steps: u64, lines: u128, to: &mut Text) -> Result<(), Memory>
    ensures ok { OnOk result (to.new ≡ to.old ++ done_text accepted late steps lines) }
    ensures memory { OnErr result (AppendsPart to.old to.new (done_text accepted late steps lines)) }
{
    append_all(
        &[
            LinePiece::Words(b"= done accepted "),
            LinePiece::Number(accepted),
            LinePiece::Words(b" late "),
            LinePiece::Number(late),
            LinePiece::Words(b" steps "),
            LinePiece::Number(steps),
            LinePiece::Words(b" lines "),
            LinePiece::Wide(lines),
            LinePiece::Words(b"\n"),
        ],
        to,
    )
}

fn refused_line(refusal: Refusal, to: &mut Text) -> Result<(), Memory>
    ensures ok { OnOk result (to.new ≡ to.old ++ refused_text refusal) }
    ensures memory { OnErr result (AppendsPart to.old to.new (refused_text refusal)) }
{
    append_all(
        &[
            LinePiece::Words(b"= refused E"),
            LinePiece::Number(code_number(refusal.code)),
            LinePiece::Words(b" "),
            LinePiece::Words(code_name(refusal.code).as_bytes()),
            LinePiece::Words(b" at "),
            LinePiece::Number(u64::from(refusal.at)),
            LinePiece::Words(b"\n"),
        ],
        to,
    )
}

fn malformed_line(source: u32, row: u64, kind: MalformedKind, to: &mut Text) -> Result<(), Memory>
    ensures ok { OnOk result (to.new ≡ to.old ++ malformed_text source row kind) }
    ensures memory { OnErr result (AppendsPart to.old to.new (malformed_text source row kind)) }
{
    append_all(
        &[
            LinePiece::Words(b"= malformed source "),
            LinePiece::Number(u64::from(source)),
            LinePiece::Words(b" row "),
            LinePiece::Number(row),
            LinePiece::Words(b" kind "),
            LinePiece::Number(malformed_number(kind)),
            LinePiece::Words(b" "),
            LinePiece::Words(malformed_name(kind).as_bytes()),
            LinePiece::Words(b"\n"),
        ],
        to,
    )
}

fn fault_line(name: &Text, kind: FaultKind, time: u64, to: &mut Text) -> Result<(), Memory>
    ensures ok { OnOk result (to.new ≡ to.old ++ fault_text name.now kind time) }
    ensures memory { OnErr result (AppendsPart to.old to.new (fault_text name.now kind time)) }
{
    append_all(
        &[
            LinePiece::Words(b"= fault "),
            LinePiece::Words(name.as_bytes()),
            LinePiece::Words(b" "),
            LinePiece::Number(fault_number(kind)),
            LinePiece::Words(b" "),
            LinePiece::Words(fault_name(kind).as_bytes()),
            LinePiece::Words(b" at "),
            LinePiece::Time(time),
            LinePiece::Words(b"\n"),
        ],
        to,
    )
}

fn unreadable_line(source: u32, to: &mut Text) -> Result<(), Memory>
    ensures ok { OnOk result (to.new ≡ to.old ++ unreadable_text source) }
    ensures memory { OnErr result (AppendsPart to.old to.new (unreadable_text source)) }
{
    append_all(
        &[
            LinePiece::Words(b"= unreadable source "),
            LinePiece::Number(u64::from(source)),
            LinePiece::Words(b"\n"),
        ],
        to,
    )
}

fn analysed_line(streams: u32, windows: u32, to: &mut Text) -> Result<(), Memory>
    ensures ok { OnOk result (to.new ≡ to.old ++ analysed_text streams windows) }
    ensures memory { OnErr result (AppendsPart to.old to.new (analysed_text streams windows)) }
{
    append_all(
        &[
            LinePiece::Words(b"= done streams "),
            LinePiece::Number(u64::from(streams)),
            LinePiece::Words(b" windows "),
            LinePiece::Number(u64::from(windows)),
            LinePiece::Words(b"\n"),
        ],
        to,
    )
}

/// Appends the line that tells how a command ended, with its LF. After `Memory` a front of the line may stand behind
/// what was there.
pub fn end_line(line: &EndLine, to: &mut Text) -> Result<(), Memory>
    ensures ok { OnOk result (to.new ≡ to.old ++ end_text line.now) }
    ensures memory { OnErr result (AppendsPart to.old to.new (end_text line.now)) }
{
    match line {
        EndLine::Done {
            accepted,
            late,
            steps,
            lines,
        } => done_line(*accepted, *late, *steps, *lines, to),
        EndLine::Usage => to.append(b"= usage\n"),
        EndLine::Refused(refusal) => refused_line(*refusal, to),
        EndLine::Malformed { source, row, kind } => malformed_line(*source, *row, *kind, to),
        EndLine::Fault { name, kind, time } => fault_line(name, *kind, *time, to),
        EndLine::UnreadableSpecification => to.append(b"= unreadable specification\n"),
        EndLine::UnreadableSource(source) => unreadable_line(*source, to),
        EndLine::Analysed { streams, windows } => analysed_line(*streams, *windows, to),
    }
}
