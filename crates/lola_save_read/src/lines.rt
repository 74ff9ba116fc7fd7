//! The lines of a stream's instances: each is read where it is one that may come there, and only there.

ghost use Rattle.std.specs.Prelude.{◌≡◌, ◌≤◌, [], ◌∷◌, List, IfOk, IfSome, MatchOption, false};
ghost use Rattle.lola_save_text.specs.declared.state.SavedPanes.{SavedPanes};
ghost use Rattle.lola_save_read.specs.Parts.{AreTimes};
ghost use Rattle.lola_save_read.specs.Readings.{IsEndLine, IsInstLine, IsPanesLine, IsRingLine, IsStreamLine, NoEndLine, NoInstLine, NoPanesLine, NoRingLine, NoStreamLine};
ghost use Rattle.lola_save_read.specs.Spelled.{AreSpelled};
ghost use Rattle.lola_save_read.specs.Turns.{seen_after};

use crate::bodies::{inst_body, panes_body, ring_body, stream_body};
use crate::cuts::{behind, cut_at_lf};
use crate::spelled::Spelled;
use lola_save_text::forms::{StreamForm, WindowForm};
use lola_save_text::state::{SavedInstance, SavedPanes, Times};
use lola_value::text::{Fields, Memory, Text};
use std::alloc::Global;

/// How many instances the line of a stream tells, and what stands behind that line.
pub(crate) fn stream_line<'a>(
    times: Times,
    number: u64,
    form: &StreamForm,
    bytes: &'a [u8],
) -> Option<(u64, &'a [u8])>
    requires { form.now.spawns ≡ false → form.now.parameters ≡ [] }
    ensures { MatchOption result (NoStreamLine times number form.now bytes.now) (λ x. IsStreamLine times number form.now bytes.now x.0 x.1.now) }
{
    match cut_at_lf(bytes) {
        None => None,
        Some((body, rest)) => match stream_body(times, number, form, body) {
            None => None,
            Some(count) => Some((count, rest)),
        },
    }
}

/// The birth and the parameters that the line of an instance tells, behind these instances of its stream, whose words are spelled, and what
/// stands behind that line. Afterwards its own words are spelled too.
pub(crate) fn inst_line<'a>(
    alloc: Global,
    times: Times,
    form: &StreamForm,
    low: u64,
    seen: &[SavedInstance],
    spelled: &mut Spelled,
    bytes: &'a [u8],
    room: &mut Text,
) -> Result<Option<(Option<u64>, Fields, &'a [u8])>, Memory>
    requires times { AreTimes times }
    requires others { AreSpelled spelled.old (seen_after [] seen.now) }
    ensures read { IfOk result (λ read. MatchOption read (NoInstLine times form.now (seen_after [] seen.now) low bytes.now) (λ x. IsInstLine times form.now (seen_after [] seen.now) low bytes.now x.0 x.1 x.2.now)) }
    ensures noted { IfOk result (λ read. IfSome read (λ x. AreSpelled spelled.new (x.1 ∷ seen_after [] seen.now))) }
{
    match cut_at_lf(bytes) {
        None => Ok(None),
        Some((body, rest)) => match inst_body(alloc, times, form, low, seen, spelled, body, room)? {
            None => Ok(None),
            Some((born, params)) => Ok(Some((born, params, rest))),
        },
    }
}

/// The values that the line of an instance's values tells, and what stands behind that line.
pub(crate) fn ring_line<'a>(
    alloc: Global,
    times: Times,
    form: &StreamForm,
    bytes: &'a [u8],
    room: &mut Text,
) -> Result<Option<(Fields, &'a [u8])>, Memory>
    ensures { IfOk result (λ read. MatchOption read (NoRingLine times form.now bytes.now) (λ x. IsRingLine times form.now bytes.now x.0 x.1.now)) }
{
    match cut_at_lf(bytes) {
        None => Ok(None),
        Some((body, rest)) => match ring_body(alloc, times, form, body, room)? {
            None => Ok(None),
            Some(values) => Ok(Some((values, rest))),
        },
    }
}

/// The panes that the line of a window tells, and what stands behind that line.
pub(crate) fn panes_line<'a>(
    alloc: Global,
    times: Times,
    form: &StreamForm,
    window: &WindowForm,
    bytes: &'a [u8],
) -> Result<Option<(Option<SavedPanes>, &'a [u8])>, Memory>
    requires times { AreTimes times }
    requires length { 1 ≤ window.now.pane }
    ensures { IfOk result (λ read. MatchOption read (NoPanesLine times form.now window.now bytes.now) (λ x. IsPanesLine times form.now window.now bytes.now x.0 x.1.now)) }
{
    match cut_at_lf(bytes) {
        None => Ok(None),
        Some((body, rest)) => match panes_body(alloc, times, form.kind, window, body)? {
            None => Ok(None),
            Some(panes) => Ok(Some((panes, rest))),
        },
    }
}

/// What stands behind the last line.
pub(crate) fn end_line(bytes: &[u8]) -> Option<&[u8]>
    ensures { MatchOption result (NoEndLine bytes.now) (λ rest. IsEndLine bytes.now rest.now) }
{
    behind(b"end\n", bytes)
}
