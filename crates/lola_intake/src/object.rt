//! The merge object as the object of the lock, and the calls that have a turn of their own.

ghost use Rattle.std.specs.Prelude.{◌≡◌, ◌+◌};
ghost use Rattle.lola_intake.specs.declared.event.Event.TheVariants.{Offered, Finished, Closed};
ghost use Rattle.lola_intake.specs.Histories.{Begins, Changes};

use crate::event::{Event, Setting};
use crate::{Act, LockSeat, Object, TicketLock};
use lola_merge::state::{MergeState, Offer};
use lola_model::journal::Row;

/// The lock round the merge object.
pub(crate) type MergeLock = TicketLock<MergeState, Setting, Event>;

/// A caller's seat at that lock.
pub(crate) type MergeSeat = LockSeat<MergeState, Setting, Event>;

impl Object<Setting, Event> for MergeState {
    ghost opens = { Begins };

    ghost moves = { Changes };
}

impl Act<Row, Offer, Setting, Event> for MergeState {
    ghost may = { λ by row. by ≡ row.source + 1 };

    ghost event = { λ row reply. Offered row reply };

    fn act(&mut self, call: Row) -> Offer {
        self.offer(call)
    }
}

/// A source has no more rows.
#[derive(Drop)]
pub(crate) struct Finish {
    pub source: u32,
}

impl Act<Finish, (), Setting, Event> for MergeState {
    ghost may = { λ by call. by ≡ call.source + 1 };

    ghost event = { λ call reply. Finished call.source };

    fn act(&mut self, call: Finish) {
        self.finish(call.source);
    }
}

/// From now on no row is let in.
#[derive(Drop)]
pub(crate) struct Close;

impl Act<Close, (), Setting, Event> for MergeState {
    ghost may = { λ by call. by ≡ 0 };

    ghost event = { λ call reply. Closed };

    fn act(&mut self, _call: Close) {
        self.close();
    }
}
