//! The calls that read what is saved of a store: the last values of an instance, and the panes of a window onto it.

ghost use Rattle.std.specs.Prelude.{◌≡◌, ◌<◌, length, slice_get, MatchOption};
ghost use Rattle.lola_buffer.specs.Kept.{before_newest};
ghost use Rattle.lola_model.specs.Store.{instances_seen, target_of};
ghost use Rattle.lola_instances_one.specs.Saved.{HasPane, IsNewestPane, IsPartial};
ghost use Rattle.lola_instances.specs.Saved.{panes_at};
ghost use Rattle.lola_instances.specs.Stores.{bounded_seen, values_kept};

use crate::reading::{lives_of, place_of_panes, spec_of};
use crate::store::BoundedStore;
use lola_panes::partial::Partial;
use lola_value::value::Value;

impl BoundedStore {
    /// The value that stands `k` places before the newest that is kept of an instance, which is at 0; `None` exactly where no more than
    /// `k` are kept.
    pub fn value_back(&self, stream: u32, index: u32, k: u32) -> Option<Value>
        requires { index < length (instances_seen (bounded_seen self.now) stream) }
        ensures { result ≡ before_newest k (values_kept self.now stream index) }
    {
        lives_of(self, stream).value_back(index as usize, k)
    }

    /// The pane of the newest value of an instance that a window was given; `None` exactly where it was given none.
    pub fn newest_pane(&self, window: u32, index: u32) -> Option<u64>
        requires window { window < length (bounded_seen self.now).layout.windows }
        requires index { index < length (instances_seen (bounded_seen self.now) (target_of (slice_get (bounded_seen self.now).layout.windows window))) }
        ensures { MatchOption (panes_at self.now window index) ⊥ (IsNewestPane result) }
    {
        let target = spec_of(self, window).target;
        let place = place_of_panes(self, window);
        lives_of(self, target).newest_pane(place, index as usize)
    }

    /// The partial result of the pane `k` before that one, where it is one of the panes of the window that ends with that.
    pub fn partial(&self, window: u32, index: u32, k: u32) -> Partial
        requires window { window < length (bounded_seen self.now).layout.windows }
        requires index { index < length (instances_seen (bounded_seen self.now) (target_of (slice_get (bounded_seen self.now).layout.windows window))) }
        requires pane { MatchOption (panes_at self.now window index) ⊥ (HasPane k) }
        ensures { MatchOption (panes_at self.now window index) ⊥ (IsPartial k result) }
    {
        let target = spec_of(self, window).target;
        let place = place_of_panes(self, window);
        lives_of(self, target).partial(place, index as usize, k)
    }
}
