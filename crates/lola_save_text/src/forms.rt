//! What of a plan its states depend on: for each stream its kinds, how many values are kept, and the windows onto it.

ghost use Rattle.std.specs.Prelude.{◌≡◌, ◌++◌, ◌+◌, [], IfOk, OnOk, drop, slice_get, unwrap_or};
ghost use Rattle.lola_save_text.specs.Forms.{first_size, form_with, forms_of, one_onto, windows_onto};

use lola_model::plan::{PaneSize, Plan};
use lola_model::spec::{Agg, Kinds, Stream, WindowSpec};
use lola_value::list::ListOf;
use lola_value::text::Memory;
use lola_value::value::Kind;
use std::alloc::Global;

/// A window onto a stream.
#[derive(Clone, Copy)]
pub struct WindowForm {
    /// Its number in the plan.
    pub number: usize,
    /// Its aggregation.
    pub how: Agg,
    /// The length of a pane in nanoseconds.
    pub pane: u64,
    /// How many panes are kept.
    pub count: u32,
}

/// The windows onto a stream, in their order.
pub type WindowForms = ListOf<WindowForm>;

/// A stream.
#[derive(Drop)]
pub struct StreamForm {
    /// The kind of its values.
    pub kind: Kind,
    /// The kinds of its parameters.
    pub parameters: Kinds,
    /// Whether it has a spawn clause.
    pub spawns: bool,
    /// How many of an instance's values are kept.
    pub kept: u32,
    /// The windows onto it.
    pub windows: WindowForms,
}

/// The streams of a plan, in their order.
pub type StreamForms = ListOf<StreamForm>;

// The panes of the first of some windows.
fn first_size(sizes: &[PaneSize]) -> PaneSize
    ensures { result ≡ first_size sizes.now }
{
    match sizes.first() {
        Some(size) => *size,
        None => PaneSize { pane: 1, count: 1 },
    }
}

// The number of values that are kept of the first of some streams.
fn first_kept(kept: &[u32]) -> u32
    ensures { result ≡ unwrap_or (slice_get kept.now 0) 1 }
{
    match kept.first() {
        Some(count) => *count,
        None => 1,
    }
}

// What stands behind the first of some numbers.
fn other_kept(kept: &[u32]) -> &[u32]
    ensures { result.now ≡ drop 1 kept.now }
{
    match kept {
        [] => kept,
        [_, others @ ..] => others,
    }
}

// What stands behind the first of some sizes.
fn other_sizes(sizes: &[PaneSize]) -> &[PaneSize]
    ensures { result.now ≡ drop 1 sizes.now }
{
    match sizes {
        [] => sizes,
        [_, others @ ..] => others,
    }
}

// Puts a window behind others, if it is onto this stream.
fn push_onto(
    stream: usize,
    number: usize,
    window: &WindowSpec,
    size: PaneSize,
    onto: &mut WindowForms,
) -> Result<(), Memory>
    ensures { OnOk result (onto.new ≡ onto.old ++ one_onto stream number window.now size) }
{
    if window.target as usize == stream {
        onto.push(WindowForm {
            number,
            how: window.using,
            pane: size.pane,
            count: size.count,
        })?;
    }
    Ok(())
}

// The windows onto a stream.
fn windows_onto(
    alloc: Global,
    stream: usize,
    windows: &[WindowSpec],
    sizes: &[PaneSize],
) -> Result<WindowForms, Memory>
    ensures { IfOk result (λ onto. onto ≡ windows_onto stream 0 windows.now sizes.now) }
{
    let mut onto = WindowForms::create(alloc);
    let mut left = sizes;
    for (number, window) in windows.iter().enumerate() {
        push_onto(stream, number, window, first_size(left), &mut onto)?;
        left = other_sizes(left);
    }
    Ok(onto)
}

// The same kinds.
fn kinds_of(alloc: Global, kinds: &[Kind]) -> Result<Kinds, Memory>
    ensures { IfOk result (λ same. same ≡ kinds.now) }
{
    let mut same = Kinds::create(alloc);
    for kind in kinds {
        same.push(*kind)?;
    }
    Ok(same)
}

// The form of a stream with this number.
fn form_of(
    alloc: Global,
    plan: &Plan,
    number: usize,
    stream: &Stream,
    kept: u32,
) -> Result<StreamForm, Memory>
    ensures { IfOk result (λ form. form ≡ form_with plan.now number stream.now kept) }
{
    Ok(StreamForm {
        kind: stream.filled_kind(),
        parameters: kinds_of(alloc, stream.parameters.as_slice())?,
        spawns: stream.spawn.is_some(),
        kept,
        windows: windows_onto(
            alloc,
            number,
            plan.spec.windows.as_slice(),
            plan.panes.as_slice(),
        )?,
    })
}

/// The streams of a plan.
pub fn stream_forms(alloc: Global, plan: &Plan) -> Result<StreamForms, Memory>
    ensures { IfOk result (λ forms. forms ≡ forms_of plan.now) }
{
    let mut forms = StreamForms::create(alloc);
    let mut kept = plan.kept.as_slice();
    for (number, stream) in plan.spec.streams.as_slice().iter().enumerate() {
        forms.push(form_of(alloc, plan, number, stream, first_kept(kept))?)?;
        kept = other_kept(kept);
    }
    Ok(forms)
}
