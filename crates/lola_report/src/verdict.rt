//! The verdict lines: the triggers that are true and, where they are shown, the values of outputs.

ghost use Rattle.std.specs.Prelude.{◌≡◌, ◌++◌, OnOk, OnErr, slice_get};
ghost use Rattle.lola_value.specs.Appending.{AppendsPart};
ghost use Rattle.lola_model.specs.Texts.{trigger_line, output_line};
ghost use Rattle.lola_report.specs.Verdicts.{HasVerdict, verdict_text};

use crate::piece::{LinePiece, append_all};
use lola_model::plan::Plan;
use lola_model::spec::{Sort, Stream};
use lola_value::text::{Field, Fields, Memory, Text};

/// Appends `TIME NAME "MESSAGE"`.
fn trigger_line(time: u64, stream: &Stream, to: &mut Text) -> Result<(), Memory>
    ensures ok { OnOk result (to.new ≡ to.old ++ trigger_line time stream.now) }
    ensures memory { OnErr result (AppendsPart to.old to.new (trigger_line time stream.now)) }
{
    append_all(
        &[
            LinePiece::Time(time),
            LinePiece::Words(b" "),
            LinePiece::Words(stream.name.as_bytes()),
            LinePiece::Words(b" "),
            LinePiece::Quoted(stream.message.as_bytes()),
            LinePiece::Words(b"\n"),
        ],
        to,
    )
}

/// Appends `TIME NAME = VALUE`, or `TIME NAME(P1,P2) = VALUE` for an instance with parameters.
fn output_line<'a>(
    time: u64,
    stream: &'a Stream,
    params: &'a [Field],
    value: &'a Field,
    to: &mut Text,
) -> Result<(), Memory>
    ensures ok { OnOk result (to.new ≡ to.old ++ output_line time stream.now params.now value.now) }
    ensures memory { OnErr result (AppendsPart to.old to.new (output_line time stream.now params.now value.now)) }
{
    append_all(
        &[
            LinePiece::Time(time),
            LinePiece::Words(b" "),
            LinePiece::Words(stream.name.as_bytes()),
            LinePiece::Params(params),
            LinePiece::Words(b" = "),
            LinePiece::Value(value),
            LinePiece::Words(b"\n"),
        ],
        to,
    )
}

/// Appends the line of a value: of a trigger that is true, `TIME trigger_K "MESSAGE"`; of an output, `TIME NAME = VALUE`,
/// with the instance's parameters in brackets behind the name where it has some.
///
/// `time` is in nanoseconds and printed in seconds with nine decimals. Texts stand between double quotes, with a
/// backslash before a double quote or a backslash, and `\n`, `\r` and `\t` for LF, CR and a tab. After `Memory` a front
/// of the line may stand behind what was there.
pub fn verdict_line(
    plan: &Plan,
    stream: u32,
    time: u64,
    params: &Fields,
    value: &Field,
    to: &mut Text,
) -> Result<(), Memory>
    requires { HasVerdict (slice_get plan.now.spec.streams stream) value.now }
    ensures ok { OnOk result
        (to.new ≡ to.old ++ verdict_text (slice_get plan.now.spec.streams stream) time params.now value.now) }
    ensures memory { OnErr result
        (AppendsPart to.old to.new (verdict_text (slice_get plan.now.spec.streams stream) time params.now value.now)) }
{
    let of = &plan.spec.streams.as_slice()[stream as usize];
    match of.sort {
        Sort::Trigger => trigger_line(time, of, to),
        Sort::Output => output_line(time, of, params.as_slice(), value, to),
        Sort::Input => unreachable!(),
    }
}
