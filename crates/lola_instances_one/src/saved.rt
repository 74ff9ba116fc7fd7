//! The panes of a saved instance: read, and restored.

ghost use Rattle.std.specs.Prelude.{◌<◌, length, slice_get, MatchOption};
ghost use Rattle.lola_instances_one.specs.Saved.{ArePanesChanged, CanBeRestored, HasPane, IsNewestPane, IsPartial, WereRestored};

use lola_panes::panes::Panes;
use lola_panes::partial::Partial;

/// The pane of the newest value of the panes at a place.
pub(crate) fn newest_at(panes: &Vec<Panes>, place: usize) -> Option<u64>
    requires { place < length panes.now.items }
    ensures { MatchOption (slice_get panes.now.items place) ⊥ (IsNewestPane result) }
{
    panes[place].newest()
}

/// The partial result of the pane `k` before that one.
pub(crate) fn partial_at(panes: &Vec<Panes>, place: usize, k: u32) -> Partial
    requires place { place < length panes.now.items }
    requires pane { MatchOption (slice_get panes.now.items place) ⊥ (HasPane k) }
    ensures { MatchOption (slice_get panes.now.items place) ⊥ (IsPartial k result) }
{
    panes[place].partial(k)
}

// The panes of a window, from their partial results.
fn restore(panes: &mut Panes, last: u64, partials: &[Partial], added: u64)
    requires { CanBeRestored last partials.now added panes.old }
    ensures { WereRestored last partials.now added panes.old panes.new }
{
    panes.restore(last, partials, added);
}

/// The panes at a place, from their partial results.
pub(crate) fn restore_at(
    panes: &mut Vec<Panes>,
    place: usize,
    last: u64,
    partials: &[Partial],
    added: u64,
)
    requires place { place < length panes.old.items }
    requires panes { MatchOption (slice_get panes.old.items place) ⊥ (CanBeRestored last partials.now added) }
    ensures { ArePanesChanged (WereRestored last partials.now added) place panes.old.items panes.new.items }
{
    let p = &mut panes[place];
    restore(p, last, partials, added);
}
