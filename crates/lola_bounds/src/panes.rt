//! The panes of windows.

ghost use Rattle.std.specs.Prelude.{◌≡◌, ◌<◌, ◌≤◌, ℕ, All, IfOk, Some, length, slice_get};
ghost use Rattle.std.specs.List.{AllZip};
ghost use Rattle.lola_bounds.specs.Panes.{IsPaned, ArePaned, ArePanesOfWindow, ArePanesAt};
ghost use Rattle.lola_model.specs.declared.plan.PaneSize.{PaneSize as Panes};
ghost use Rattle.lola_model.specs.declared.spec.WindowSpec.{WindowSpec as Window};

use crate::size::{clause_rate, size_of_panes};
use lola_model::pacing::{ClausePacings, Pacings};
use lola_model::plan::{PaneSize, PaneSizes};
use lola_model::spec::{Spec, WindowSpec};
use lola_value::text::Memory;
use std::alloc::Global;

/// The panes of a window.
fn size_of_window(pacings: &[ClausePacings], window: &WindowSpec) -> PaneSize
    requires { IsPaned pacings.now window.now }
    ensures { ArePanesOfWindow pacings.now window.now (Some result) }
{
    let rate = clause_rate(pacings, window.stream, window.part).unwrap();
    size_of_panes(rate, window.over)
}

/// The panes of the window of this number.
fn size(spec: &Spec, pacings: &Pacings, window: u32) -> PaneSize
    requires window { window < length spec.now.windows }
    requires paned { ArePaned pacings.now spec.now }
    ensures { ArePanesAt pacings.now spec.now window result }
{
    let windows = spec.windows.as_slice();
    size_of_window(pacings.as_slice(), &windows[window as usize])
}

/// Into how many panes a window is cut.
pub fn panes(spec: &Spec, pacings: &Pacings, window: u32) -> u32
    requires window { window < length spec.now.windows }
    requires paned { ArePaned pacings.now spec.now }
    ensures { (pane : ℕ) × ArePanesAt pacings.now spec.now window (record { pane = pane; count = result }) }
{
    size(spec, pacings, window).count
}

/// The panes of windows, in their order.
fn sizes_of(
    alloc: Global,
    pacings: &[ClausePacings],
    windows: &[WindowSpec],
) -> Result<PaneSizes, Memory>
    requires { All (IsPaned pacings.now) windows.now }
    ensures { IfOk result (λ sizes. AllZip (λ w p. ArePanesOfWindow pacings.now w (Some p)) windows.now sizes) }
{
    let mut sizes = PaneSizes::create(alloc);
    for window in windows {
        sizes.push(size_of_window(pacings, window))?;
    }
    Ok(sizes)
}

/// The panes of all windows.
pub fn pane_sizes(alloc: Global, spec: &Spec, pacings: &Pacings) -> Result<PaneSizes, Memory>
    requires { ArePaned pacings.now spec.now }
    ensures count { IfOk result (λ sizes. length sizes ≡ length spec.now.windows) }
    ensures each { IfOk result (λ sizes. (i : ℕ) (w : Window) → slice_get spec.now.windows i ≡ Some w → ArePanesOfWindow pacings.now w (slice_get sizes i)) }
    ensures few { IfOk result (λ sizes. (i : ℕ) (p : Panes) → slice_get sizes i ≡ Some p → p.count ≤ 65536) }
{
    let sizes = sizes_of(alloc, pacings.as_slice(), spec.windows.as_slice())?;
    Ok(sizes)
}
