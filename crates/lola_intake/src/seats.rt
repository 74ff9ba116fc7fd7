//! Seats, as contracts see them: of which intake and caller, the history that was told, and the own calls in it.
//! A seat takes no memory for these.

use crate::object::MergeSeat;
use std::marker::Model;

/// A source's seat.
#[derive(Drop)]
pub struct SourceSeat {
    pub(crate) seat: MergeSeat,
    pub(crate) source: u32,
}

impl Model for SourceSeat {
    ghost use Rattle.std.specs.Prelude.{◌≡◌, ◌+◌};
    ghost use Rattle.lola_intake.specs.Turns.{IsIdle};
    ghost use Rattle.lola_intake.specs.Intakes.{Shown, shown};

    ghost Value = { Shown };

    ghost view = { λ s. shown s.seat.table_id s.source s.seat.me.0 };

    ghost invariant = { λ s. IsIdle s.seat × (s.seat.me.0.caller ≡ s.source + 1) };
}

impl SourceSeat {
    ghost use Rattle.std.specs.Prelude.{◌≡◌};

    /// The number of its source.
    pub fn source(&self) -> u32
        ensures { result ≡ self.now.source }
    {
        self.source
    }
}

/// The engine's seat.
#[derive(Drop)]
pub struct EngineSeat {
    pub(crate) seat: MergeSeat,
}

impl Model for EngineSeat {
    ghost use Rattle.std.specs.Prelude.{◌≡◌, []};
    ghost use Rattle.lola_intake.specs.Turns.{IsIdle};
    ghost use Rattle.lola_intake.specs.Intakes.{Shown, shown, setting_of};

    ghost Value = { Shown };

    ghost view = { λ s. shown s.seat.table_id 0 s.seat.me.0 };

    ghost invariant = { λ s. IsIdle s.seat × (s.seat.id ≡ 0) × (s.seat.me.0.caller ≡ 0) × (s.seat.me.0.made ≡ (setting_of s.seat.me.0).sources) × (s.seat.me.0.known ≡ []) };
}
