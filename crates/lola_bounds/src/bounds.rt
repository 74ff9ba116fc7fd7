//! The bounds of a whole specification.

ghost use Rattle.std.specs.Prelude.{IfOk};
ghost use Rattle.lola_bounds.specs.Bounds.{AreBounds};
ghost use Rattle.lola_bounds.specs.Offsets.{HasSmallOffsets};
ghost use Rattle.lola_bounds.specs.Panes.{ArePaned};

use crate::kept::kept_values;
use crate::panes::pane_sizes;
use lola_model::pacing::Pacings;
use lola_model::plan::{Numbers, PaneSizes};
use lola_model::spec::Spec;
use lola_value::text::Memory;
use std::alloc::Global;

/// How many values of each stream are kept, and the panes of each window.
pub fn bounds(alloc: Global, spec: &Spec, pacings: &Pacings) -> Result<(Numbers, PaneSizes), Memory>
    requires small { HasSmallOffsets spec.now }
    requires paned { ArePaned pacings.now spec.now }
    ensures { IfOk result (λ found. AreBounds spec.now pacings.now found.0 found.1) }
{
    let kept = kept_values(alloc, spec)?;
    let panes = pane_sizes(alloc, spec, pacings)?;
    Ok((kept, panes))
}
