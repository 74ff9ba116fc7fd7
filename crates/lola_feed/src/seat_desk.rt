//! The desk.

ghost use Rattle.std.specs.Prelude.{◌≡◌, false, true};
ghost use Rattle.lola_merge.specs.declared.state.Offer.{Offer};
ghost use Rattle.lola_feed.specs.Feeding.{IsBack};
ghost use Rattle.lola_feed.specs.SharedIntakes.{FinishesBy, OffersBy, FinishesOwedBy, is_owed, new_desk};

use crate::desk::Desk;
use crate::intake::{Finish, IntakeSeat, SourceIntake};
use lola_merge::state::Offer;
use lola_model::journal::Row;
use std::marker::Model;
use std::sync::Wait;

/// A source's seat, whether the source has told its end, and whether the intake has yet to be told so, since it had no room
/// for that. Contracts see these three.
#[derive(Drop)]
pub struct HeldSeat<P: IntakeSeat> {
    seat: P,
    told: bool,
    owes: bool,
}

impl<P: IntakeSeat> Model for HeldSeat<P> {
    ghost use Rattle.std.specs.Prelude.{◌≡◌, true, false};
    ghost use Rattle.lola_feed.specs.SharedIntakes.{SeatedAt};

    ghost Value = { SeatedAt };

    ghost view = { λ d. record { seat = P.shows d.seat; told = d.told; owes = d.owes } };

    ghost invariant = { λ d. (d.told ≡ false → (P.shows d.seat).finished ≡ false) × (d.owes ≡ true → (d.told ≡ true) × ((P.shows d.seat).finished ≡ false)) };
}

impl<P: IntakeSeat> HeldSeat<P> {
    /// A seat whose source has told nothing.
    pub fn create(seat: P) -> HeldSeat<P>
        requires { (P.shows seat).finished ≡ false }
        ensures { result ≡ new_desk (P.shows seat) }
    {
        HeldSeat {
            seat,
            told: false,
            owes: false,
        }
    }

    /// The number of its source.
    pub fn source(&self) -> u32
        ensures { result ≡ self.now.seat.source }
    {
        self.seat.source()
    }

    /// The seat, to be taken back by its intake.
    pub fn into_seat(self) -> P
        ensures { P.shows result ≡ self.seat }
    {
        let HeldSeat {
            seat,
            told: _,
            owes: _,
        } = self;
        seat
    }
}

/// A source's seat at an intake that other threads call too. Contracts see what it has of the seat.
#[derive(Drop)]
pub struct SeatDesk<'a, P: IntakeSeat, I: SourceIntake<P>, R: Wait + Sync> {
    rt: &'a R,
    intake: &'a I,
    held: HeldSeat<P>,
}

impl<'a, P: IntakeSeat, I: SourceIntake<P>, R: Wait + Sync> Model for SeatDesk<'a, P, I, R> {
    ghost use Rattle.std.specs.Prelude.{◌≡◌};
    ghost use Rattle.lola_feed.specs.SharedIntakes.{SeatedAt};

    ghost Value = { SeatedAt };

    ghost view = { λ d. d.held };

    ghost invariant = { λ d. d.held.seat.intake ≡ I.id d.intake.now };
}

// Whether a finish is to be made again.
fn is_owed(answer: Finish) -> bool
    ensures { result ≡ is_owed answer }
{
    matches!(answer, Finish::Full)
}

// Offers a row of a source, unless it has told its end.
fn offer_at<P: IntakeSeat, I: SourceIntake<P>, R: Wait>(
    rt: &R,
    intake: &I,
    held: &mut HeldSeat<P>,
    row: Row,
) -> Offer
    requires own { held.old.seat.intake ≡ I.id intake.now }
    requires source { row.source ≡ held.old.seat.source }
    ensures offers { OffersBy row result held.old held.new }
    ensures back { IsBack row result }
{
    if held.told {
        return Offer::Closed(row);
    }
    intake.offer(rt, &mut held.seat, row)
}

// A source tells its end, unless it has.
fn finish_at<P: IntakeSeat, I: SourceIntake<P>, R: Wait>(rt: &R, intake: &I, held: &mut HeldSeat<P>)
    requires own { held.old.seat.intake ≡ I.id intake.now }
    ensures finishes { FinishesBy held.old held.new }
{
    if !held.told {
        held.told = true;
        held.owes = is_owed(intake.finish(rt, &mut held.seat));
    }
}

// Makes a finish again that is owed.
fn finish_owed_at<P: IntakeSeat, I: SourceIntake<P>, R: Wait>(
    rt: &R,
    intake: &I,
    held: &mut HeldSeat<P>,
) -> bool
    requires own { held.old.seat.intake ≡ I.id intake.now }
    ensures settles { FinishesOwedBy result held.old held.new }
{
    if !held.owes {
        return true;
    }
    let owes = is_owed(intake.finish(rt, &mut held.seat));
    held.owes = owes;
    !owes
}

impl<'a, P: IntakeSeat, I: SourceIntake<P>, R: Wait + Sync> SeatDesk<'a, P, I, R> {
    /// The desk of a seat that the intake has given out. A call of it may wait for those of other threads.
    pub fn create(rt: &'a R, intake: &'a I, held: HeldSeat<P>) -> SeatDesk<'a, P, I, R>
        requires { held.seat.intake ≡ I.id intake.now }
        ensures { result ≡ held }
    {
        SeatDesk { rt, intake, held }
    }

    /// Tells the intake that the source has ended, where it had no room for that yet. It tells whether nothing is left to be told.
    pub fn finish_owed(&mut self) -> bool
        ensures settles { FinishesOwedBy result self.old self.new }
    {
        finish_owed_at(self.rt, self.intake, &mut self.held)
    }

    /// What it has of the seat.
    pub fn into_held(self) -> HeldSeat<P>
        ensures { result ≡ self.entry }
    {
        self.held
    }
}

impl<'a, P: IntakeSeat, I: SourceIntake<P>, R: Wait + Sync> Desk for SeatDesk<'a, P, I, R> {
    ghost use Rattle.lola_feed.specs.SharedIntakes.{FinishesBy, OffersBy};

    ghost source = { λ d. d.seat.source };

    ghost offers = { OffersBy };

    ghost finishes = { FinishesBy };

    fn offer(&mut self, row: Row) -> Offer {
        offer_at(self.rt, self.intake, &mut self.held, row)
    }

    fn finish(&mut self) {
        finish_at(self.rt, self.intake, &mut self.held);
    }
}
