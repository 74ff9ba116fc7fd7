//! What is restored of an instance, in its cell. It is at rest then: nothing is shown of the step of a number, which is over.

ghost use Rattle.std.specs.Prelude.{◌≡◌, ◌<◌, Some, length, slice_get, MatchOption};
ghost use Rattle.lola_instances_one.specs.Saved.{CanBeRestored};
ghost use Rattle.lola_instances_stream.specs.Cells.{IsSlotChanged, IsTaken};
ghost use Rattle.lola_instances_stream.specs.Changes.{IsChangedAt};
ghost use Rattle.lola_instances_stream.specs.Restoring.{HasOneMore, HasPanesRestored, IsRested};

use crate::cells::{Cells, cell_at};
use lola_instances_one::instance::Instance;
use lola_panes::partial::Partial;
use lola_value::brief::BriefValue;

// One more of its last values, for an instance.
fn give_back(slot: &mut Instance, step: u64, value: BriefValue)
    ensures { IsRested step (HasOneMore value) slot.old slot.new }
{
    slot.rest(step);
    slot.restore_value(value);
}

// Its panes of the window at a place, for an instance.
fn give_panes_back(
    slot: &mut Instance,
    step: u64,
    place: usize,
    last: u64,
    partials: &[Partial],
    added: u64,
)
    requires { MatchOption (slice_get slot.old.panes place) ⊥ (CanBeRestored last partials.now added) }
    ensures { IsRested step (HasPanesRestored last partials.now added place) slot.old slot.new }
{
    slot.rest(step);
    slot.restore_panes(place, last, partials, added);
}

// One more of its last values, for the instance in a cell.
fn restore_value_in(slot: &mut Option<Instance>, step: u64, value: BriefValue)
    requires { IsTaken (Some slot.old) }
    ensures { IsSlotChanged (IsRested step (HasOneMore value)) slot.old slot.new }
{
    match slot {
        Some(slot) => give_back(slot, step, value),
        None => unreachable!(),
    }
}

// Its panes of the window at a place, for the instance in a cell.
fn restore_panes_in(
    slot: &mut Option<Instance>,
    step: u64,
    place: usize,
    last: u64,
    partials: &[Partial],
    added: u64,
)
    requires taken { IsTaken (Some slot.old) }
    requires panes { MatchOption slot.old ⊥ (λ s. MatchOption (slice_get s.panes place) ⊥ (CanBeRestored last partials.now added)) }
    ensures { IsSlotChanged (IsRested step (HasPanesRestored last partials.now added place)) slot.old slot.new }
{
    match slot {
        Some(slot) => give_panes_back(slot, step, place, last, partials, added),
        None => unreachable!(),
    }
}

impl Cells {
    /// One more of its last values, for the instance at a place.
    pub fn restore_value(&mut self, place: usize, step: u64, value: BriefValue)
        requires { place < length self.old.items }
        ensures changed { IsChangedAt (IsRested step (HasOneMore value)) place self.old.items self.new.items }
        ensures rest { self.new ≡ record self.old { items = self.new.items } }
    {
        let cell = cell_at(&self.cells, &self.flags, self.empty, place);
        restore_value_in(&mut self.cells[cell], step, value);
    }

    /// The panes of the instance at a place, of the window at another place.
    pub fn restore_panes(
        &mut self,
        place: usize,
        step: u64,
        window: usize,
        last: u64,
        partials: &[Partial],
        added: u64,
    )
        requires place { place < length self.old.items }
        requires panes { MatchOption (slice_get self.old.items place) ⊥ (λ s. MatchOption (slice_get s.panes window) ⊥ (CanBeRestored last partials.now added)) }
        ensures changed { IsChangedAt (IsRested step (HasPanesRestored last partials.now added window)) place self.old.items self.new.items }
        ensures rest { self.new ≡ record self.old { items = self.new.items } }
    {
        let cell = cell_at(&self.cells, &self.flags, self.empty, place);
        restore_panes_in(&mut self.cells[cell], step, window, last, partials, added);
    }
}
