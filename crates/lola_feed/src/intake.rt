//! An intake that threads share, whatever it is made of.

ghost use Rattle.std.specs.Prelude.{◌≡◌, ◌≤◌, ℕ, IfOk, [], false, true, length, map};
ghost use Rattle.lola_merge.specs.declared.state.Offer.{Offer};
ghost use Rattle.lola_feed.specs.Feeding.{IsBack};
ghost use Rattle.lola_feed.specs.SharedIntakes.{AreNewSeats, AreSeatsOf, IntakeId, IsWhole, SeatShown, TakerShown, Takes, after_finish, after_offer, new_taker};

use lola_merge::batch::Batch;
use lola_merge::state::{Offer, Take};
use lola_model::journal::Row;
use lola_value::text::Memory;
use std::alloc::Global;
use std::sync::Wait;

/// What becomes of a source's word that it has no more rows.
#[derive(Clone, Copy)]
pub enum Finish {
    /// It is in.
    Finished,
    /// There was no room for it, so it has to be said again.
    Full,
    /// It is not in: the taker has closed.
    Closed,
}

/// A source's seat at an intake.
pub trait IntakeSeat: Drop {
    /// What the seat shows.
    ghost shows: { Self → SeatShown };

    /// The number of its source.
    fn source(&self) -> u32
        ensures { result ≡ (shows self.now).source };
}

/// The taker's seat at an intake.
pub trait IntakeTaker: Drop {
    /// What the seat shows.
    ghost shows: { Self → TakerShown };
}

/// An intake at which sources hand in their rows, each at a seat of its own. A call may wait for those of other threads.
pub trait SourceIntake<P: IntakeSeat>: Drop {
    /// Which intake it is.
    ghost id: { Self → IntakeId };

    /// Offers a row of the seat's source, which has not finished. An intake that marks rows only when they are taken answers
    /// Accepted where the row is in. It takes no memory.
    fn offer<R: Wait>(&self, rt: &R, seat: &mut P, row: Row) -> Offer
        requires own { (P.shows seat.old).intake ≡ id self.now }
        requires source { row.source ≡ (P.shows seat.old).source }
        requires unfinished { (P.shows seat.old).finished ≡ false }
        ensures shows { P.shows seat.new ≡ after_offer (P.shows seat.old) row result }
        ensures back { IsBack row result };

    /// The source, which has not finished, has no more rows.
    fn finish<R: Wait>(&self, rt: &R, seat: &mut P) -> Finish
        requires own { (P.shows seat.old).intake ≡ id self.now }
        requires unfinished { (P.shows seat.old).finished ≡ false }
        ensures shows { P.shows seat.new ≡ after_finish (P.shows seat.old) result };
}

/// An intake that threads share: one taker takes at a seat of its own what sources hand in.
pub trait SharedIntake<P: IntakeSeat, T: IntakeTaker>: SourceIntake<P> {
    /// An intake for so many sources, with a seat for each, that of source s at place s, and the taker's seat. The merged
    /// time is the start, or else 0.
    fn create(alloc: Global, sources: u32, start: Option<u64>) -> Result<(Self, Vec<P>, T), Memory>
        requires { (1 ≤ sources) × (sources ≤ 64) }
        ensures taker { IfOk result (λ r. T.shows r.2 ≡ new_taker (Self.id r.0) sources start) }
        ensures seats { IfOk result (λ r. AreNewSeats (Self.id r.0) sources (map P.shows r.1.items)) };

    /// Moves rows that are in into an empty batch, marked and in their order. It takes no memory.
    fn take<R: Wait>(&self, rt: &R, taker: &mut T, into: &mut Batch) -> Take
        requires own { (T.shows taker.old).intake ≡ Self.id self.now }
        requires empty { into.old ≡ [] }
        ensures takes { Takes result into.new (T.shows taker.old) (T.shows taker.new) };

    /// From now on no row is let in.
    fn close<R: Wait>(&self, rt: &R, taker: &mut T)
        requires own { (T.shows taker.old).intake ≡ Self.id self.now }
        ensures shows { T.shows taker.new ≡ record (T.shows taker.old) { closed = true } };

    /// Takes all seats back, in any order, and moves the rows that are left into an empty batch.
    fn end<R: Wait>(self, rt: &R, taker: T, seats: Vec<P>, into: &mut Batch)
        requires taker { (T.shows taker).intake ≡ Self.id self }
        requires seats { AreSeatsOf (Self.id self) (map P.shows seats.items) }
        requires all { length seats.items ≡ (T.shows taker).sources }
        requires empty { into.old ≡ [] }
        ensures whole { IsWhole (T.shows taker) (map P.shows seats.items) into.new };
}
