//! The streams of a state, up to its end.

ghost use Rattle.std.specs.Prelude.{◌≡◌, List, IfOk, MatchResult};
ghost use Rattle.lola_model.specs.Acceptance.{IsAccepted};
ghost use Rattle.lola_save_text.specs.Forms.{AreStorable, forms_of};
ghost use Rattle.lola_save_read.specs.Parts.{AreTimes};
ghost use Rattle.lola_save_read.specs.Readings.{ReadsStreams, ReadsToEnd, RefusesStreams};

use crate::cuts::is_nothing;
use crate::instances::read_stream;
use crate::lines::end_line;
use lola_model::plan::Plan;
use lola_save_text::forms::{StreamForm, stream_forms};
use lola_save_text::state::{SavedStreams, Times};
use lola_value::text::{Memory, Text};
use std::alloc::Global;

// All streams, and what stands behind them.
fn read_streams<'a>(
    alloc: Global,
    times: Times,
    forms: &[StreamForm],
    bytes: &'a [u8],
    room: &mut Text,
) -> Result<Result<(SavedStreams, &'a [u8]), usize>, Memory>
    requires times { AreTimes times }
    requires storable { AreStorable forms.now }
    ensures { IfOk result (λ read. MatchResult read (λ x. ReadsStreams times forms.now bytes.now x.0 x.1.now) (λ many. RefusesStreams times forms.now bytes.now many)) }
{
    let mut streams = SavedStreams::create(alloc);
    let mut left = bytes;
    for (number, form) in forms.iter().enumerate() {
        match read_stream(alloc, times, number as u64, form, left, room)? {
            Err(many) => return Ok(Err(many)),
            Ok((instances, rest)) => {
                streams.push(instances)?;
                left = rest;
            }
        }
    }
    Ok(Ok((streams, left)))
}

// All streams, where the last line and nothing else stands behind them.
fn read_to_end(
    alloc: Global,
    times: Times,
    forms: &[StreamForm],
    bytes: &[u8],
    room: &mut Text,
) -> Result<Result<SavedStreams, usize>, Memory>
    requires times { AreTimes times }
    requires storable { AreStorable forms.now }
    ensures { IfOk result (λ read. MatchResult read (λ streams. ReadsToEnd times forms.now bytes.now streams) (λ many. RefusesStreams times forms.now bytes.now many)) }
{
    match read_streams(alloc, times, forms, bytes, room)? {
        Err(many) => Ok(Err(many)),
        Ok((streams, last)) => match end_line(last) {
            None => Ok(Err(last.len())),
            Some(rest) => {
                if is_nothing(rest) {
                    Ok(Ok(streams))
                } else {
                    Ok(Err(rest.len()))
                }
            }
        },
    }
}

/// The streams of a state of a plan, behind the first three lines and up to the end; or how many bytes are left where they cannot be read.
pub(crate) fn streams_of(
    alloc: Global,
    plan: &Plan,
    times: Times,
    bytes: &[u8],
) -> Result<Result<SavedStreams, usize>, Memory>
    requires accepted { IsAccepted plan.now }
    requires times { AreTimes times }
    ensures { IfOk result (λ read. MatchResult read (λ streams. ReadsToEnd times (forms_of plan.now) bytes.now streams) (λ many. RefusesStreams times (forms_of plan.now) bytes.now many)) }
{
    let forms = stream_forms(alloc, plan)?;
    let mut room = Text::from_bytes(alloc, b"")?;
    read_to_end(alloc, times, forms.as_slice(), bytes, &mut room)
}
