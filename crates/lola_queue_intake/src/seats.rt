//! Seats, as contracts see them. What they show of their calls takes no memory but for what they count.

use crate::closing::WordSeat;
use crate::counted::CountedPass;
use crate::delivery::View;
use crate::item::Item;
use lola_merge::state::MergeState;
use std::marker::Model;

/// A source's seat.
#[derive(Drop)]
pub struct QueueSeat {
    pub(crate) pass: CountedPass<Item, View>,
    pub(crate) word: WordSeat,
    pub(crate) source: u32,
}

impl Model for QueueSeat {
    ghost use Rattle.std.specs.Prelude.{◌≡◌, []};
    ghost use Rattle.lola_queue_intake.specs.declared.delivery.Role.TheVariants.{Source};
    ghost use Rattle.lola_queue_intake.specs.Intakes.{SourceShown, source_shown};

    ghost Value = { SourceShown };

    ghost view = { λ s. source_shown s.pass.pass.table_id s.word.table_id s.source s.pass.pass.me.0.client.mine s.word.me.0.found s.pass.full };

    ghost invariant = { λ s. (s.pass.pass.me.1 ≡ []) × (s.pass.pass.me.0.client.role ≡ Source s.source) × (s.word.me.1 ≡ []) };
}

impl QueueSeat {
    ghost use Rattle.std.specs.Prelude.{◌≡◌};

    /// The number of its source.
    pub fn source(&self) -> u32
        ensures { result ≡ self.now.source }
    {
        self.source
    }
}

/// The taker's seat.
#[derive(Drop)]
pub struct TakerSeat {
    pub(crate) pass: CountedPass<Item, View>,
    pub(crate) word: WordSeat,
    // What was popped, as rows and finishes of a merge object that nobody shares. Between calls nothing is pending.
    pub(crate) merging: MergeState,
    pub(crate) start: Option<u64>,
}

impl Model for TakerSeat {
    ghost use Rattle.std.specs.Prelude.{◌≡◌, []};
    ghost use Rattle.lola_model.specs.Journal.{opening_time};
    ghost use Rattle.lola_merge.specs.Merging.{sources_of};
    ghost use Rattle.lola_queue_intake.specs.declared.delivery.Role.TheVariants.{Taker};
    ghost use Rattle.lola_queue_intake.specs.Intakes.{TakerShown, taker_shown, Mirrors, entries};

    ghost Value = { TakerShown };

    ghost view = { λ s. taker_shown s.pass.pass.table_id s.word.table_id (sources_of s.merging) s.start s.pass.pass.me.0.client.mine s.pass.empty s.word.me.0.closed };

    ghost invariant = { λ s. (s.pass.pass.me.1 ≡ []) × (s.pass.pass.me.0.client.role ≡ Taker) × (s.pass.pass.me.0.client.known ≡ []) × (s.pass.pass.me.0.client.made ≡ sources_of s.merging)
        × (s.word.me.1 ≡ []) × (s.word.id ≡ 0) × (s.word.me.0.known ≡ [])
        × (s.merging.pending ≡ []) × Mirrors s.start s.pass.pass.me.0.client.mine (entries (opening_time s.start) s.pass.pass.me.0.client.mine) s.merging };
}
