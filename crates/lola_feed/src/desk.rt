//! Where rows are handed in.

ghost use Rattle.std.specs.Prelude.{◌≡◌, ◌<◌, ℕ, []};
ghost use Rattle.lola_model.specs.declared.journal.Row.{Row};
ghost use Rattle.lola_merge.specs.declared.state.Offer.{Offer};
ghost use Rattle.lola_merge.specs.Merging.{close_after, sources_of, take_after, take_reply};
ghost use Rattle.lola_feed.specs.Feeding.{IsBack};

use lola_merge::batch::Batch;
use lola_merge::state::{MergeState, Offer, Take};
use lola_model::journal::Row;
use std::marker::Model;

/// Where one source hands in its rows. What a call does is told by a relation of the desk before and after it.
pub trait Desk {
    /// The number of the source.
    ghost source: { Self → ℕ };

    /// What an offer of this row does that is answered so.
    ghost offers: { Row → Offer → Self → Self → Type 0 };

    /// What it does that the source has finished.
    ghost finishes: { Self → Self → Type 0 };

    /// Offers a row of the source.
    fn offer(&mut self, row: Row) -> Offer
        requires { row.source ≡ source self.old }
        ensures offers { offers row result self.old self.new }
        ensures back { IsBack row result }
        ensures source { source self.new ≡ source self.old };

    /// The source has no more rows.
    fn finish(&mut self)
        ensures finishes { finishes self.old self.new }
        ensures source { source self.new ≡ source self.old };
}

/// A merge object, called for one source after another by the thread that has it.
#[derive(Drop)]
pub struct StateDesk {
    state: MergeState,
    source: u32,
}

impl Model for StateDesk {
    ghost use Rattle.std.specs.Prelude.{◌<◌};
    ghost use Rattle.lola_merge.specs.Merging.{sources_of};
    ghost use Rattle.lola_feed.specs.Feeding.{StateIs};

    ghost Value = { StateIs };

    ghost view = { λ d. record { merging = d.state; source = d.source } };

    ghost invariant = { λ d. d.source < sources_of d.state };
}

impl StateDesk {
    /// The desk of a source at a merge object that has it.
    pub fn create(state: MergeState, source: u32) -> StateDesk
        requires { source < sources_of state }
        ensures { result ≡ record { merging = state; source = source } }
    {
        StateDesk { state, source }
    }

    /// From now on it is the desk of this source.
    pub fn serve(&mut self, source: u32)
        requires { source < sources_of self.old.merging }
        ensures { self.new ≡ record { merging = self.old.merging; source = source } }
    {
        self.source = source;
    }

    /// Moves all pending rows into an empty batch, in their order. It takes no memory.
    pub fn take(&mut self, into: &mut Batch) -> Take
        requires { into.old ≡ [] }
        ensures reply { result ≡ take_reply self.old.merging }
        ensures moved { into.new ≡ self.old.merging.pending }
        ensures after { self.new ≡ record { merging = take_after self.old.merging; source = self.old.source } }
    {
        self.state.take(into)
    }

    /// From now on no row is let in.
    pub fn close(&mut self)
        ensures { self.new ≡ record { merging = close_after self.old.merging; source = self.old.source } }
    {
        self.state.close();
    }
}

impl Desk for StateDesk {
    ghost use Rattle.lola_feed.specs.Feeding.{finishes_at, offers_at};

    ghost source = { λ d. d.source };

    ghost offers = { offers_at };

    ghost finishes = { finishes_at };

    fn offer(&mut self, row: Row) -> Offer {
        self.state.offer(row)
    }

    fn finish(&mut self) {
        self.state.finish(self.source);
    }
}
