//! The intake.

ghost use Rattle.std.specs.Prelude.{◌≡◌, ◌<◌, ◌≤◌, ◌+◌, ℕ, [], length, IfOk, Some, slice_get};
ghost use Rattle.lola_intake.specs.declared.event.Event.TheVariants.{Offered, Finished, Took, Closed};
ghost use Rattle.lola_model.specs.Journal.{IsLegalFrom, opening_time};
ghost use Rattle.lola_intake.specs.Histories.{IsBack, OfferIsCaused, TakeIsCaused, taken};
ghost use Rattle.lola_intake.specs.Intakes.{AreSeatsOf, Told, Before, Whole, setting, new_seat};

use crate::event::Setting;
use crate::object::{Close, Finish, MergeLock};
use crate::seats::{EngineSeat, SourceSeat};
use lola_merge::batch::Batch;
use lola_merge::state::{MergeState, Offer, Take};
use lola_model::journal::Row;
use lola_value::text::Memory;
use std::alloc::Global;
use std::marker::{Brand, Model};
use std::sync::Wait;

/// The merge object of some sources, to be called from many threads. Contracts see which one it is.
#[derive(Drop)]
pub struct Intake {
    lock: MergeLock,
}

impl Model for Intake {
    ghost use Rattle.atomic_table.specs.Seated.{TableId};

    ghost Value = { TableId };

    ghost view = { λ i. i.lock.table.shared.table_id };
}

impl Intake {
    /// The merge object of so many sources, with a seat for each, that of source s at place s, and the engine's seat.
    /// The merged time is the start, or else 0.
    pub fn create(
        alloc: Global,
        sources: u32,
        start: Option<u64>,
    ) -> Result<(Intake, Vec<SourceSeat>, EngineSeat), Memory>
        requires { (1 ≤ sources) × (sources ≤ 64) }
        ensures engine { IfOk result (λ r. r.2 ≡ new_seat r.0 (setting sources start) 0 0) }
        ensures count { IfOk result (λ r. length r.1.items ≡ sources) }
        ensures own { IfOk result (λ r. AreSeatsOf r.0 r.1.items) }
        ensures seats { IfOk result (λ r. (s : ℕ) → s < sources → slice_get r.1.items s ≡ Some (new_seat r.0 (setting sources start) (s + 1) s)) }
    {
        let state = MergeState::create(alloc, sources, start)?;
        let mut seats = Vec::with_capacity(alloc, sources as usize)?;
        let setting = Setting { sources, start };
        let (lock, mut seat) = MergeLock::new(alloc, state, &setting)?;
        for source in 0..sources {
            seats.push_reserved(SourceSeat {
                seat: lock.another(&mut seat),
                source,
            });
        }
        Ok((Intake { lock }, seats, EngineSeat { seat }))
    }

    /// Offers a row of the seat's source, at a turn of its own. It takes no memory.
    pub fn try_offer<R: Wait>(&self, rt: &R, seat: &mut SourceSeat, row: Row) -> Offer
        requires own { seat.old.intake ≡ self.now }
        requires source { row.source ≡ seat.old.source }
        ensures told { Told (Offered row result) seat.old seat.new }
        ensures back { IsBack result row }
        ensures cause { Before (Offered row result) seat.old seat.new (λ before. OfferIsCaused seat.old.setting before row result) }
    {
        self.lock.turn(rt, &mut seat.seat, row)
    }

    /// The source has no more rows.
    pub fn finish_source<R: Wait>(&self, rt: &R, seat: &mut SourceSeat)
        requires { seat.old.intake ≡ self.now }
        ensures { Told (Finished seat.old.source) seat.old seat.new }
    {
        let source = seat.source;
        self.lock.turn(rt, &mut seat.seat, Finish { source })
    }

    /// Moves all pending rows into an empty batch, in their order. It takes no memory.
    pub fn try_take<R: Wait>(&self, rt: &R, seat: &mut EngineSeat, into: &mut Batch) -> Take
        requires own { seat.old.intake ≡ self.now }
        requires empty { into.old ≡ [] }
        ensures told { Told (Took result into.new) seat.old seat.new }
        ensures cause { Before (Took result into.new) seat.old seat.new (λ before. TakeIsCaused seat.old.setting before result) }
        ensures marked { IsLegalFrom (opening_time seat.old.setting.start) (taken seat.new.mine) }
    {
        let at = &mut seat.seat;
        self.lock.enter(rt, at);
        let state = at.slot_mut(&self.lock.table.shared, 0);
        let take = state.take(into);
        self.lock
            .leave::<Brand, Take, Batch>(&mut seat.seat, &take, into);
        take
    }

    /// From now on no row is let in.
    pub fn close_intake<R: Wait>(&self, rt: &R, seat: &mut EngineSeat)
        requires { seat.old.intake ≡ self.now }
        ensures { Told Closed seat.old seat.new }
    {
        self.lock.turn(rt, &mut seat.seat, Close)
    }

    /// Takes all seats back, in any order, and moves the rows that are still pending into an empty batch.
    pub fn end(self, engine: EngineSeat, seats: Vec<SourceSeat>, into: &mut Batch)
        requires engine { engine.intake ≡ self }
        requires seats { AreSeatsOf self seats.items }
        requires all { length seats.items ≡ engine.setting.sources }
        requires empty { into.old ≡ [] }
        ensures { Whole engine seats.items into.new }
    {
        let EngineSeat { seat: mut first } = engine;
        for seat in seats {
            let SourceSeat { seat, source: _ } = seat;
            self.lock.take_back(&mut first, seat);
        }
        let Intake { lock } = self;
        let mut merging = lock.end(first);
        merging.take(into);
    }
}
