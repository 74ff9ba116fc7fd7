//! The text of a whole state.

ghost use Rattle.std.specs.Prelude.{◌≡◌, ◌∷◌, ◌++◌, [], MatchOption, OnOk, OnErr, flat_map};
ghost use Rattle.lola_value.specs.Appending.{AppendsPart};
ghost use Rattle.lola_model.specs.declared.plan.Plan.{Plan};
ghost use Rattle.lola_save_text.specs.Forms.{forms_of};
ghost use Rattle.lola_save_text.specs.Lines.{LastLine, StartLine, StepsLine, StreamLine, count_of, head_text, instance_lines, lines_text, panes_lines, state_lines, state_text, streams_lines};

use crate::lines::{
    inst_line, last_line, panes_line, ring_line, start_line, steps_line, stream_line,
};
use lola_save_text::forms::{StreamForm, WindowForm};
use lola_save_text::state::{SavedInstance, SavedInstances, SavedPanes, SavedState};
use lola_value::numbers::number_text;
use lola_value::text::{Memory, Text};

// The first panes and the others.
fn split_panes(panes: &[Option<SavedPanes>]) -> Option<(&Option<SavedPanes>, &[Option<SavedPanes>])>
    ensures { MatchOption result (panes.now ≡ []) (λ x. panes.now ≡ x.0.now ∷ x.1.now) }
{
    match panes {
        [] => None,
        [first, others @ ..] => Some((first, others)),
    }
}

// The instances of the first stream and the others.
fn split_streams(streams: &[SavedInstances]) -> Option<(&SavedInstances, &[SavedInstances])>
    ensures { MatchOption result (streams.now ≡ []) (λ x. streams.now ≡ x.0.now ∷ x.1.now) }
{
    match streams {
        [] => None,
        [first, others @ ..] => Some((first, others)),
    }
}

// Appends the lines of an instance's panes.
fn panes_lines(
    windows: &[WindowForm],
    panes: &[Option<SavedPanes>],
    to: &mut Text,
) -> Result<(), Memory>
    ensures ok { OnOk result (to.new ≡ to.old ++ lines_text (panes_lines windows.now panes.now)) }
    ensures memory { OnErr result (AppendsPart to.old to.new (lines_text (panes_lines windows.now panes.now))) }
{
    let mut others = panes;
    for window in windows {
        match split_panes(others) {
            None => return Ok(()),
            Some((first, rest)) => {
                panes_line(window, first, to)?;
                others = rest;
            }
        }
    }
    Ok(())
}

// Appends the lines of an instance.
fn instance_lines(form: &StreamForm, instance: &SavedInstance, to: &mut Text) -> Result<(), Memory>
    ensures ok { OnOk result (to.new ≡ to.old ++ lines_text (instance_lines form.now instance.now)) }
    ensures memory { OnErr result (AppendsPart to.old to.new (lines_text (instance_lines form.now instance.now))) }
{
    inst_line(instance, to)?;
    ring_line(instance, to)?;
    panes_lines(form.windows.as_slice(), instance.panes.as_slice(), to)
}

// Appends the lines of instances.
fn instances_lines(
    form: &StreamForm,
    instances: &[SavedInstance],
    to: &mut Text,
) -> Result<(), Memory>
    ensures ok { OnOk result (to.new ≡ to.old ++ lines_text (flat_map (instance_lines form.now) instances.now)) }
    ensures memory { OnErr result (AppendsPart to.old to.new (lines_text (flat_map (instance_lines form.now) instances.now))) }
{
    for instance in instances {
        instance_lines(form, instance, to)?;
    }
    Ok(())
}

// How many instances there are.
#[tactic(auto, using(crate::proofs::LineRows::count_length))]
fn count_of(instances: &[SavedInstance]) -> u64
    ensures { result ≡ count_of instances.now }
{
    instances.len() as u64
}

// Appends the lines of a stream with this number.
fn stream_lines(
    number: usize,
    form: &StreamForm,
    instances: &[SavedInstance],
    to: &mut Text,
) -> Result<(), Memory>
    ensures ok { OnOk result (to.new ≡ to.old ++ lines_text (StreamLine number (count_of instances.now) ∷ flat_map (instance_lines form.now) instances.now)) }
    ensures memory { OnErr result (AppendsPart to.old to.new (lines_text (StreamLine number (count_of instances.now) ∷ flat_map (instance_lines form.now) instances.now))) }
{
    stream_line(number as u64, count_of(instances), to)?;
    instances_lines(form, instances, to)
}

// Appends the lines of all streams.
fn streams_lines(
    forms: &[StreamForm],
    streams: &[SavedInstances],
    to: &mut Text,
) -> Result<(), Memory>
    ensures ok { OnOk result (to.new ≡ to.old ++ lines_text (streams_lines 0 forms.now streams.now)) }
    ensures memory { OnErr result (AppendsPart to.old to.new (lines_text (streams_lines 0 forms.now streams.now))) }
{
    let mut others = streams;
    for (number, form) in forms.iter().enumerate() {
        match split_streams(others) {
            None => return Ok(()),
            Some((first, rest)) => {
                stream_lines(number, form, first.as_slice(), to)?;
                others = rest;
            }
        }
    }
    Ok(())
}

// Appends what stands before the lines of a state.
fn head_text(spec: &[u8], to: &mut Text) -> Result<(), Memory>
    ensures ok { OnOk result (to.new ≡ to.old ++ head_text spec.now) }
    ensures memory { OnErr result (AppendsPart to.old to.new (head_text spec.now)) }
{
    to.append(b"lolamon-state 1\nspec ")?;
    number_text(spec.len() as u64, to)?;
    to.append(b"\n")?;
    to.append(spec)?;
    to.append(b"\n")
}

// Appends the first three lines of a state.
fn times_lines(state: &SavedState, to: &mut Text) -> Result<(), Memory>
    ensures ok { OnOk result (to.new ≡ to.old ++ lines_text (StartLine state.now.start ∷ LastLine state.now.last ∷ StepsLine state.now.steps ∷ [])) }
    ensures memory { OnErr result (AppendsPart to.old to.new (lines_text (StartLine state.now.start ∷ LastLine state.now.last ∷ StepsLine state.now.steps ∷ []))) }
{
    start_line(state.start, to)?;
    last_line(state.last, to)?;
    steps_line(state.steps, to)
}

/// Appends the text of a state of a plan, for the specification that the plan was compiled from; `forms` are those of the plan's
/// streams. After `Memory` a front of that text may stand behind what was there.
pub fn write_state(
    spec: &[u8],
    forms: &[StreamForm],
    state: &SavedState,
    to: &mut Text,
) -> Result<(), Memory>
    ensures ok { (plan : Plan) → forms.now ≡ forms_of plan → OnOk result (to.new ≡ to.old ++ state_text spec.now plan state.now) }
    ensures memory { (plan : Plan) → forms.now ≡ forms_of plan → OnErr result (AppendsPart to.old to.new (state_text spec.now plan state.now)) }
{
    head_text(spec, to)?;
    times_lines(state, to)?;
    streams_lines(forms, state.streams.as_slice(), to)?;
    to.append(b"end\n")
}
