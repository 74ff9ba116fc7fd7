//! What stands against the windows of a specification.

ghost use Rattle.std.specs.Prelude.{◌≡◌, ◌≤◌, IsTrue, IfOk};
ghost use Rattle.lola_model.specs.Named.{all_windows, is_span};
ghost use Rattle.lola_model.specs.PacingFound.{finding_at};
ghost use Rattle.lola_model.specs.WindowRefusals.{IsWindowRefusal};
ghost use Rattle.lola_model.specs.Pacings.{AreWindowRefusals, finding_of_part};

use crate::window_refusal::window_refusal;
use lola_model::finding::FoundPacing;
use lola_model::spec::{Part, WindowSpec};
use lola_value::front::Code;
use lola_value::text::Memory;
use std::alloc::Global;

/// What stands against a window of so many nanoseconds in a clause of a stream.
fn window_refusal_at(findings: &[FoundPacing], stream: u32, over: u64) -> Option<Code>
    requires { 1 ≤ over }
    ensures { IsWindowRefusal (finding_at findings.now stream) over result }
{
    match findings.get(stream as usize) {
        Some(finding) => window_refusal(finding, over),
        None => None,
    }
}

/// What stands against a window.
fn of_window(
    spawns: &[FoundPacing],
    evals: &[FoundPacing],
    closes: &[FoundPacing],
    window: &WindowSpec,
) -> Option<Code>
    requires { 1 ≤ window.now.over }
    ensures { IsWindowRefusal (finding_of_part spawns.now evals.now closes.now window.now.stream window.now.part) window.now.over result }
{
    match window.part {
        Part::Spawn => window_refusal_at(spawns, window.stream, window.over),
        Part::Eval => window_refusal_at(evals, window.stream, window.over),
        Part::Close => window_refusal_at(closes, window.stream, window.over),
    }
}

/// What stands against each window.
pub fn of_windows(
    alloc: Global,
    spawns: &[FoundPacing],
    evals: &[FoundPacing],
    closes: &[FoundPacing],
    windows: &[WindowSpec],
) -> Result<Vec<Option<Code>>, Memory>
    requires { IsTrue (all_windows is_span windows.now) }
    ensures { IfOk result (λ window_refusals. AreWindowRefusals spawns.now evals.now closes.now windows.now window_refusals.items) }
{
    let mut window_refusals = Vec::new(alloc);
    for window in windows {
        window_refusals.push(of_window(spawns, evals, closes, window))?;
    }
    Ok(window_refusals)
}
