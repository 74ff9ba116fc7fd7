//! The queue, as an intake that threads share.

ghost use Rattle.std.specs.Prelude.{◌≡◌, [], length, map};
ghost use Rattle.lola_feed.specs.SharedIntakes.{AreSeatsOf, IsWhole};
ghost use Rattle.lola_queue_intake.specs.Sharing.{offer_of, shared_seat, shared_taker, tables_of};

use crate::answer::Push;
use crate::intake::QueueIntake;
use crate::seats::{QueueSeat, TakerSeat};
use lola_feed::intake::{Finish, IntakeSeat, IntakeTaker, SharedIntake, SourceIntake};
use lola_merge::batch::Batch;
use lola_merge::state::{Offer, Take};
use lola_model::journal::Row;
use lola_value::text::Memory;
use std::alloc::Global;
use std::sync::Wait;

impl IntakeSeat for QueueSeat {
    ghost shows = { shared_seat };

    fn source(&self) -> u32 {
        self.source()
    }
}

impl IntakeTaker for TakerSeat {
    ghost shows = { shared_taker };
}

// What a push is answered, as the answer of an offer.
fn offer_of(pushed: Push) -> Offer
    ensures { result ≡ offer_of pushed }
{
    match pushed {
        Push::Queued => Offer::Accepted,
        Push::Full(row) => Offer::Full(row),
        Push::Closed(row) => Offer::Closed(row),
    }
}

impl SourceIntake<QueueSeat> for QueueIntake {
    ghost id = { tables_of };

    fn offer<R: Wait>(&self, rt: &R, seat: &mut QueueSeat, row: Row) -> Offer {
        offer_of(self.push(rt, seat, row))
    }

    fn finish<R: Wait>(&self, rt: &R, seat: &mut QueueSeat) -> Finish {
        self.finish(rt, seat)
    }
}

impl SharedIntake<QueueSeat, TakerSeat> for QueueIntake {
    fn create(
        alloc: Global,
        sources: u32,
        start: Option<u64>,
    ) -> Result<(QueueIntake, Vec<QueueSeat>, TakerSeat), Memory> {
        let (intake, seats, taker) = QueueIntake::create(alloc, sources, start)?;
        Ok((intake, seats, taker))
    }

    fn take<R: Wait>(&self, rt: &R, taker: &mut TakerSeat, into: &mut Batch) -> Take {
        self.take(rt, taker, into)
    }

    fn close<R: Wait>(&self, _rt: &R, taker: &mut TakerSeat) {
        self.close(taker);
    }

    fn end<R: Wait>(self, rt: &R, taker: TakerSeat, seats: Vec<QueueSeat>, into: &mut Batch)
        requires taker { (shared_taker taker).intake ≡ tables_of self }
        requires seats { AreSeatsOf (tables_of self) (map shared_seat seats.items) }
        requires all { length seats.items ≡ (shared_taker taker).sources }
        requires empty { into.old ≡ [] }
        ensures whole { IsWhole (shared_taker taker) (map shared_seat seats.items) into.new }
    {
        self.end(rt, taker, seats, into);
    }
}
