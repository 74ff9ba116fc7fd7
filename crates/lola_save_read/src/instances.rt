//! The instances of a stream. What cannot be read is named by how many bytes are left where it begins.

ghost use Rattle.std.specs.Prelude.{◌≡◌, [], ◌∷◌, List, IfOk, MatchResult, false};
ghost use Rattle.lola_save_text.specs.Forms.{HaveLength};
ghost use Rattle.lola_save_read.specs.Parts.{AreTimes};
ghost use Rattle.lola_save_read.specs.Readings.{ReadsInstance, ReadsInstances, ReadsPanes, ReadsStream, RefusesInstance, RefusesInstances, RefusesPanes, RefusesStream};
ghost use Rattle.lola_save_read.specs.Spelled.{AreSpelled};
ghost use Rattle.lola_save_read.specs.Turns.{seen_after};

use crate::lines::{inst_line, panes_line, ring_line, stream_line};
use crate::spelled::Spelled;
use crate::words::time_or;
use lola_save_text::forms::StreamForm;
use lola_save_text::state::{InstancePanes, SavedInstance, SavedInstances, Times};
use lola_value::text::{Memory, Text};
use std::alloc::Global;

// The panes of an instance, for each window onto its stream.
fn read_panes<'a>(
    alloc: Global,
    times: Times,
    form: &StreamForm,
    bytes: &'a [u8],
) -> Result<Result<(InstancePanes, &'a [u8]), usize>, Memory>
    requires times { AreTimes times }
    requires lengths { HaveLength form.now.windows }
    ensures { IfOk result (λ read. MatchResult read (λ x. ReadsPanes times form.now bytes.now x.0 x.1.now) (λ many. RefusesPanes times form.now bytes.now many)) }
{
    let mut panes = InstancePanes::create(alloc);
    let mut left = bytes;
    for window in form.windows.as_slice() {
        match panes_line(alloc, times, form, window, left)? {
            None => return Ok(Err(left.len())),
            Some((of_window, rest)) => {
                panes.push(of_window)?;
                left = rest;
            }
        }
    }
    Ok(Ok((panes, left)))
}

// An instance, behind others, whose words are spelled. Afterwards its own are too.
fn read_instance<'a>(
    alloc: Global,
    times: Times,
    form: &StreamForm,
    low: u64,
    seen: &[SavedInstance],
    spelled: &mut Spelled,
    bytes: &'a [u8],
    room: &mut Text,
) -> Result<Result<(SavedInstance, &'a [u8]), usize>, Memory>
    requires times { AreTimes times }
    requires lengths { HaveLength form.now.windows }
    requires others { AreSpelled spelled.old (seen_after [] seen.now) }
    ensures read { IfOk result (λ read. MatchResult read (λ x. ReadsInstance times form.now (seen_after [] seen.now) low bytes.now x.0 x.1.now) (λ many. RefusesInstance times form.now (seen_after [] seen.now) low bytes.now many)) }
    ensures noted { IfOk result (λ read. IfOk read (λ x. AreSpelled spelled.new (x.0.params ∷ seen_after [] seen.now))) }
{
    match inst_line(alloc, times, form, low, seen, spelled, bytes, room)? {
        None => Ok(Err(bytes.len())),
        Some((born, params, values)) => match ring_line(alloc, times, form, values, room)? {
            None => Ok(Err(values.len())),
            Some((ring, windows)) => match read_panes(alloc, times, form, windows)? {
                Err(many) => Ok(Err(many)),
                Ok((panes, rest)) => {
                    let instance = SavedInstance {
                        born,
                        params,
                        ring,
                        panes,
                    };
                    Ok(Ok((instance, rest)))
                }
            },
        },
    }
}

// So many instances. The words of each are put among those that are spelled.
fn read_each<'a>(
    alloc: Global,
    times: Times,
    form: &StreamForm,
    count: u64,
    spelled: &mut Spelled,
    bytes: &'a [u8],
    room: &mut Text,
) -> Result<Result<(SavedInstances, &'a [u8]), usize>, Memory>
    requires times { AreTimes times }
    requires lengths { HaveLength form.now.windows }
    ensures { IfOk result (λ read. MatchResult read (λ x. ReadsInstances times form.now count bytes.now x.0 x.1.now) (λ many. RefusesInstances times form.now count bytes.now many)) }
{
    let mut instances = SavedInstances::create(alloc);
    let mut left = bytes;
    let mut low = time_or(0, times.start);
    for _turn in 0..count {
        match read_instance(
            alloc,
            times,
            form,
            low,
            instances.as_slice(),
            spelled,
            left,
            room,
        )? {
            Err(many) => return Ok(Err(many)),
            Ok((instance, rest)) => {
                low = time_or(low, instance.born);
                instances.push(instance)?;
                left = rest;
            }
        }
    }
    Ok(Ok((instances, left)))
}

// So many instances.
fn read_instances<'a>(
    alloc: Global,
    times: Times,
    form: &StreamForm,
    count: u64,
    bytes: &'a [u8],
    room: &mut Text,
) -> Result<Result<(SavedInstances, &'a [u8]), usize>, Memory>
    requires times { AreTimes times }
    requires lengths { HaveLength form.now.windows }
    ensures { IfOk result (λ read. MatchResult read (λ x. ReadsInstances times form.now count bytes.now x.0 x.1.now) (λ many. RefusesInstances times form.now count bytes.now many)) }
{
    let mut spelled = Spelled::create(alloc);
    read_each(alloc, times, form, count, &mut spelled, bytes, room)
}

/// A stream with this number.
pub(crate) fn read_stream<'a>(
    alloc: Global,
    times: Times,
    number: u64,
    form: &StreamForm,
    bytes: &'a [u8],
    room: &mut Text,
) -> Result<Result<(SavedInstances, &'a [u8]), usize>, Memory>
    requires times { AreTimes times }
    requires plain { form.now.spawns ≡ false → form.now.parameters ≡ [] }
    requires lengths { HaveLength form.now.windows }
    ensures { IfOk result (λ read. MatchResult read (λ x. ReadsStream times number form.now bytes.now x.0 x.1.now) (λ many. RefusesStream times number form.now bytes.now many)) }
{
    match stream_line(times, number, form, bytes) {
        None => Ok(Err(bytes.len())),
        Some((count, first)) => match read_instances(alloc, times, form, count, first, room)? {
            Err(many) => Ok(Err(many)),
            Ok((instances, rest)) => Ok(Ok((instances, rest))),
        },
    }
}
