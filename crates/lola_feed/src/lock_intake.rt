//! The merge object under its lock, as an intake that threads share.

ghost use Rattle.std.specs.Prelude.{◌≡◌, ◌∷◌, [], length, map};
ghost use Rattle.lola_feed.specs.SharedIntakes.{AreSeatsOf, IsWhole};
ghost use Rattle.lola_feed.specs.LockSeats.{seat_shown, taker_shown};

use crate::intake::{Finish, IntakeSeat, IntakeTaker, SharedIntake, SourceIntake};
use lola_intake::intake::Intake;
use lola_intake::seats::{EngineSeat, SourceSeat};
use lola_merge::batch::Batch;
use lola_merge::state::{Offer, Take};
use lola_model::journal::Row;
use lola_value::text::Memory;
use std::alloc::Global;
use std::sync::Wait;

impl IntakeSeat for SourceSeat {
    ghost shows = { seat_shown };

    fn source(&self) -> u32 {
        self.source()
    }
}

impl IntakeTaker for EngineSeat {
    ghost shows = { taker_shown };
}

impl SourceIntake<SourceSeat> for Intake {
    ghost id = { λ i. i ∷ [] };

    fn offer<R: Wait>(&self, rt: &R, seat: &mut SourceSeat, row: Row) -> Offer {
        self.try_offer(rt, seat, row)
    }

    fn finish<R: Wait>(&self, rt: &R, seat: &mut SourceSeat) -> Finish {
        self.finish_source(rt, seat);
        Finish::Finished
    }
}

impl SharedIntake<SourceSeat, EngineSeat> for Intake {
    fn create(
        alloc: Global,
        sources: u32,
        start: Option<u64>,
    ) -> Result<(Intake, Vec<SourceSeat>, EngineSeat), Memory> {
        let (intake, seats, taker) = Intake::create(alloc, sources, start)?;
        Ok((intake, seats, taker))
    }

    fn take<R: Wait>(&self, rt: &R, taker: &mut EngineSeat, into: &mut Batch) -> Take {
        self.try_take(rt, taker, into)
    }

    fn close<R: Wait>(&self, rt: &R, taker: &mut EngineSeat) {
        self.close_intake(rt, taker);
    }

    fn end<R: Wait>(self, _rt: &R, taker: EngineSeat, seats: Vec<SourceSeat>, into: &mut Batch)
        requires taker { (taker_shown taker).intake ≡ self ∷ [] }
        requires seats { AreSeatsOf (self ∷ []) (map seat_shown seats.items) }
        requires all { length seats.items ≡ (taker_shown taker).sources }
        requires empty { into.old ≡ [] }
        ensures whole { IsWhole (taker_shown taker) (map seat_shown seats.items) into.new }
    {
        self.end(taker, seats, into);
    }
}
