//! The verdict lines of a step.

ghost use Rattle.std.specs.Prelude.{◌≡◌, ◌≤◌, ◌++◌, length, map, OnOk, OnErr, IfOk};
ghost use Rattle.lola_value.specs.Appending.{AppendsPart};
ghost use Rattle.lola_value.specs.Naming.{Naming, read, read_params};
ghost use Rattle.lola_model.specs.Texts.{text_of};
ghost use Rattle.lola_step_contents.specs.Ends.{lines_of};
ghost use Rattle.lola_step.specs.Notes.{AreStepValues, IsStepValue, read_step_value};
ghost use Rattle.lola_engine.specs.Shown.{IsShownBy, lines_for};

use lola_model::journal::Show;
use lola_model::plan::Plan;
use lola_model::spec::{Sort, Stream};
use lola_report::verdict::verdict_line;
use lola_step::step_value::StepValue;
use lola_text::TextTable;
use lola_value::text::{Field, Fields, Memory, Text};
use lola_value::value::{Params, Value};
use std::alloc::Global;

/// Whether a value has a line: a trigger's where it is true, an output's where outputs are shown.
fn is_shown(show: Show, stream: &Stream, value: Value) -> bool
    ensures { (names : Naming) → IsShownBy result show stream.now (read names value) }
{
    match stream.sort {
        Sort::Input => false,
        Sort::Output => match show {
            Show::Triggers => false,
            Show::Outputs => true,
        },
        Sort::Trigger => matches!(value, Value::Bool(true)),
    }
}

/// A value with its text; absent where the table lacks it.
fn field_of(alloc: Global, value: Value, texts: &TextTable) -> Result<Field, Memory>
    ensures { IfOk result (λ field. field ≡ read texts.now.held value) }
{
    match value {
        Value::Bool(b) => Ok(Field::Bool(b)),
        Value::Int(z) => Ok(Field::Int(z)),
        Value::Text(id) => match texts.get(id) {
            Some(bytes) => {
                let text = Text::from_bytes(alloc, bytes)?;
                Ok(Field::Text(text))
            }
            None => Ok(Field::Absent),
        },
    }
}

/// Parameters with their texts.
fn fields_of(alloc: Global, params: &Params, texts: &TextTable) -> Result<Fields, Memory>
    requires { params.now.count ≤ 4 }
    ensures { IfOk result (λ fields. fields ≡ read_params texts.now.held params.now) }
{
    let mut fields = Fields::create(alloc);
    for i in 0..params.count as u32 {
        if let Some(value) = params.get(i) {
            let field = field_of(alloc, value, texts)?;
            fields.push(field)?;
        }
    }
    Ok(fields)
}

/// Appends the line of a value, if it has one, and answers how many lines that is.
fn put_line(
    alloc: Global,
    plan: &Plan,
    show: Show,
    time: u64,
    step_value: &StepValue,
    texts: &TextTable,
    to: &mut Text,
) -> Result<usize, Memory>
    requires { IsStepValue plan.now step_value.now }
    ensures text { OnOk result (to.new ≡ to.old ++ text_of (lines_for show time plan.now.spec.streams (read_step_value texts.now.held step_value.now))) }
    ensures count { IfOk result (λ count. count ≡ length (lines_for show time plan.now.spec.streams (read_step_value texts.now.held step_value.now))) }
    ensures few { IfOk result (λ count. count ≤ 1) }
    ensures memory { OnErr result (AppendsPart to.old to.new (text_of (lines_for show time plan.now.spec.streams (read_step_value texts.now.held step_value.now)))) }
{
    let stream = &plan.spec.streams.as_slice()[step_value.stream as usize];
    if !is_shown(show, stream, step_value.value) {
        return Ok(0);
    }
    let params = fields_of(alloc, &step_value.params, texts)?;
    let value = field_of(alloc, step_value.value, texts)?;
    verdict_line(plan, step_value.stream, time, &params, &value, to)?;
    Ok(1)
}

/// Appends the lines of these values, in their order, and answers how many they are. After `Memory` a front of the lines may be
/// appended.
pub(crate) fn put_lines(
    alloc: Global,
    plan: &Plan,
    show: Show,
    time: u64,
    step_values: &[StepValue],
    texts: &TextTable,
    to: &mut Text,
) -> Result<usize, Memory>
    requires { AreStepValues plan.now step_values.now }
    ensures text { OnOk result (to.new ≡ to.old ++ text_of (lines_of show time plan.now.spec.streams (map (read_step_value texts.now.held) step_values.now))) }
    ensures count { IfOk result (λ count. count ≡ length (lines_of show time plan.now.spec.streams (map (read_step_value texts.now.held) step_values.now))) }
    ensures few { IfOk result (λ count. count ≤ length step_values.now) }
    ensures memory { OnErr result (AppendsPart to.old to.new (text_of (lines_of show time plan.now.spec.streams (map (read_step_value texts.now.held) step_values.now)))) }
{
    let mut count = 0;
    for step_value in step_values {
        count += put_line(alloc, plan, show, time, step_value, texts, to)?;
    }
    Ok(count)
}
