//! What was found of a specification, as lines.

ghost use Rattle.std.specs.Prelude.{◌≡◌, ◌++◌, ◌≤◌, ◌<◌, ◌^◌, OnOk, OnErr, Some, decimal, filter, length, slice_get, unwrap_or};
ghost use Rattle.lola_model.specs.Graph.{layer_of, eval_node, spawn_node};
ghost use Rattle.lola_model.specs.Model.{is_input, eval_pacing, spawn_pacing};
ghost use Rattle.lola_bounds.specs.Report.{pacing_text, kind_name, kind_text, layer_text, spawn_text, eval_text, kept_text, stream_name, stream_line, stream_lines, name_of, pane_count, window_name, window_size, window_lines, report_of};

use crate::pacing_text::pacing_text;
use lola_model::plan::Plan;
use lola_model::spec::{Clause, Stream, WindowSpec};
use lola_value::numbers::number_text;
use lola_value::text::{Memory, Text};
use lola_value::times::time_text;
use lola_value::value::Kind;
use std::alloc::Global;

/// A kind, as specifications spell it.
fn kind_name(kind: Kind) -> &'static str
    ensures { result.now ≡ kind_name kind }
{
    match kind {
        Kind::Bool => "Bool",
        Kind::Int8 => "Int8",
        Kind::Int16 => "Int16",
        Kind::Int32 => "Int32",
        Kind::Int64 => "Int64",
        Kind::UInt8 => "UInt8",
        Kind::UInt16 => "UInt16",
        Kind::UInt32 => "UInt32",
        Kind::UInt64 => "UInt64",
        Kind::Text => "String",
    }
}

/// Appends a stream's kind.
fn kind_text(kind: Option<Kind>, to: &mut Text) -> Result<(), Memory>
    ensures { OnOk result (to.new ≡ to.old ++ kind_text kind) }
{
    match kind {
        None => Ok(()),
        Some(kind) => to.append(kind_name(kind).as_bytes()),
    }
}

/// Appends the layer of a node of the graph.
fn layer_text(plan: &Plan, node: usize, to: &mut Text) -> Result<(), Memory>
    ensures { OnOk result (to.new ≡ to.old ++ layer_text plan.now node) }
{
    to.append(b" layer ")?;
    let layer = plan.layers.as_slice().get(node).copied().unwrap_or(0);
    number_text(layer as u64, to)
}

/// Appends the pacing of a stream's spawn clause.
fn spawn_pacing(plan: &Plan, number: usize, to: &mut Text) -> Result<(), Memory>
    requires { length (filter is_input plan.now.spec.streams) ≤ 64 }
    ensures { OnOk result (to.new ≡ to.old ++ pacing_text plan.now.spec.streams (spawn_pacing (slice_get plan.now.pacings number))) }
{
    match plan.pacings.as_slice().get(number) {
        None => Ok(()),
        Some(clauses) => pacing_text(plan.spec.streams.as_slice(), &clauses.spawn, to),
    }
}

/// Appends the pacing of its eval clause.
fn eval_pacing(plan: &Plan, number: usize, to: &mut Text) -> Result<(), Memory>
    requires { length (filter is_input plan.now.spec.streams) ≤ 64 }
    ensures { OnOk result (to.new ≡ to.old ++ pacing_text plan.now.spec.streams (eval_pacing (slice_get plan.now.pacings number))) }
{
    match plan.pacings.as_slice().get(number) {
        None => Ok(()),
        Some(clauses) => pacing_text(plan.spec.streams.as_slice(), &clauses.eval, to),
    }
}

/// Appends the pacing and the layer of a spawn clause, if there is one.
fn spawn_text(
    plan: &Plan,
    number: usize,
    spawn: &Option<Clause>,
    to: &mut Text,
) -> Result<(), Memory>
    requires inputs { length (filter is_input plan.now.spec.streams) ≤ 64 }
    requires number { number < 1024 }
    ensures { OnOk result (to.new ≡ to.old ++ spawn_text plan.now number spawn.now) }
{
    if spawn.is_none() {
        return Ok(());
    }
    to.append(b" spawn ")?;
    spawn_pacing(plan, number, to)?;
    layer_text(plan, 2 * number + 1, to)
}

/// Appends the pacing and the layer of an eval clause.
fn eval_text(plan: &Plan, number: usize, to: &mut Text) -> Result<(), Memory>
    requires inputs { length (filter is_input plan.now.spec.streams) ≤ 64 }
    requires number { number < 1024 }
    ensures { OnOk result (to.new ≡ to.old ++ eval_text plan.now number) }
{
    to.append(b" pacing ")?;
    eval_pacing(plan, number, to)?;
    layer_text(plan, 2 * number, to)
}

/// How many values of the stream of this number are kept.
fn kept_count(plan: &Plan, number: usize) -> u32
    ensures { result ≡ unwrap_or (slice_get plan.now.kept number) 0 }
{
    plan.kept.as_slice().get(number).copied().unwrap_or(0)
}

/// Appends how many values of a stream are kept.
fn kept_text(plan: &Plan, number: usize, to: &mut Text) -> Result<(), Memory>
    ensures { OnOk result (to.new ≡ to.old ++ kept_text plan.now number) }
{
    to.append(b" kept ")?;
    number_text(kept_count(plan, number) as u64, to)?;
    to.append(b"\n")
}

/// Appends the number, the name and the kind of a stream.
fn stream_name(number: usize, stream: &Stream, to: &mut Text) -> Result<(), Memory>
    ensures { OnOk result (to.new ≡ to.old ++ stream_name number stream.now) }
{
    to.append(b"stream ")?;
    number_text(number as u64, to)?;
    to.append(b" ")?;
    to.append(stream.name.as_bytes())?;
    to.append(b" ")?;
    kind_text(stream.kind, to)
}

/// Appends the line of a stream.
fn stream_line(plan: &Plan, number: usize, stream: &Stream, to: &mut Text) -> Result<(), Memory>
    requires inputs { length (filter is_input plan.now.spec.streams) ≤ 64 }
    requires number { number < 1024 }
    ensures { OnOk result (to.new ≡ to.old ++ stream_line plan.now number stream.now) }
{
    stream_name(number, stream, to)?;
    spawn_text(plan, number, &stream.spawn, to)?;
    eval_text(plan, number, to)?;
    kept_text(plan, number, to)
}

/// Appends the lines of streams.
fn stream_lines(plan: &Plan, streams: &[Stream], to: &mut Text) -> Result<(), Memory>
    requires inputs { length (filter is_input plan.now.spec.streams) ≤ 64 }
    requires streams { length streams.now ≤ 1024 }
    ensures { OnOk result (to.new ≡ to.old ++ stream_lines plan.now 0 streams.now) }
{
    for (number, stream) in streams.iter().enumerate() {
        stream_line(plan, number, stream, to)?;
    }
    Ok(())
}

/// Appends the name of a stream, if there is one.
fn name_of(streams: &[Stream], number: u32, to: &mut Text) -> Result<(), Memory>
    ensures { OnOk result (to.new ≡ to.old ++ name_of (slice_get streams.now number)) }
{
    match streams.get(number as usize) {
        None => Ok(()),
        Some(stream) => to.append(stream.name.as_bytes()),
    }
}

/// Appends whose window it is, and onto which stream.
fn window_name(plan: &Plan, number: usize, window: &WindowSpec, to: &mut Text) -> Result<(), Memory>
    ensures { OnOk result (to.new ≡ to.old ++ window_name plan.now number window.now) }
{
    let streams = plan.spec.streams.as_slice();
    to.append(b"window ")?;
    number_text(number as u64, to)?;
    to.append(b" in ")?;
    name_of(streams, window.stream, to)?;
    to.append(b" onto ")?;
    name_of(streams, window.target, to)
}

/// How many panes the window of this number has.
fn pane_count(plan: &Plan, number: usize) -> u32
    ensures { result ≡ pane_count (slice_get plan.now.panes number) }
{
    match plan.panes.as_slice().get(number) {
        None => 0,
        Some(size) => size.count,
    }
}

/// Appends the length of a window, and how many panes it has.
fn window_size(plan: &Plan, number: usize, window: &WindowSpec, to: &mut Text) -> Result<(), Memory>
    ensures { OnOk result (to.new ≡ to.old ++ window_size plan.now number window.now) }
{
    to.append(b" over ")?;
    time_text(window.over, to)?;
    to.append(b" panes ")?;
    number_text(pane_count(plan, number) as u64, to)?;
    to.append(b"\n")
}

/// Appends the lines of windows.
fn window_lines(plan: &Plan, windows: &[WindowSpec], to: &mut Text) -> Result<(), Memory>
    ensures { OnOk result (to.new ≡ to.old ++ window_lines plan.now 0 windows.now) }
{
    for (number, window) in windows.iter().enumerate() {
        window_name(plan, number, window, to)?;
        window_size(plan, number, window, to)?;
    }
    Ok(())
}

// The lines of streams and of windows.
fn all_lines(plan: &Plan, to: &mut Text) -> Result<(), Memory>
    requires inputs { length (filter is_input plan.now.spec.streams) ≤ 64 }
    requires streams { length plan.now.spec.streams ≤ 1024 }
    ensures { OnOk result (to.new ≡ to.old ++ report_of plan.now) }
{
    stream_lines(plan, plan.spec.streams.as_slice(), to)?;
    window_lines(plan, plan.spec.windows.as_slice(), to)
}

/// Appends what was found of a specification: a line for each stream with its kind, its pacings,
/// its layers and how many of its values are kept, and then a line for each window with its panes.
/// Where there is no memory the text is as it was.
pub fn report(alloc: Global, plan: &Plan, to: &mut Text) -> Result<(), Memory>
    requires inputs { length (filter is_input plan.now.spec.streams) ≤ 64 }
    requires streams { length plan.now.spec.streams ≤ 1024 }
    ensures ok { OnOk result (to.new ≡ to.old ++ report_of plan.now) }
    ensures err { OnErr result (to.new ≡ to.old) }
{
    let mut lines = Text::from_bytes(alloc, b"")?;
    all_lines(plan, &mut lines)?;
    to.append(lines.as_bytes())
}
