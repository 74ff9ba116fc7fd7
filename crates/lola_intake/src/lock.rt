//! The lock: a table of two words, the next ticket and the ticket that is served, and one slot, which holds the object
//! while nobody has it.

ghost use Rattle.std.specs.Prelude.{◌≡◌, ◌<◌, [], length, IfOk};
ghost use Rattle.lola_intake.specs.Turns.{maker, Taken, MayTell, Turned, IsSameSeat, IsIdle, told, one_more, newcomer, taking, Ended};

use crate::beds::Beds;
use crate::plays::{Another, Draws, Leaves, Looks};
use crate::turns::{Act, InOrder, Object, Tells};
use crate::view::View;
use atomic_table::{Refused, Seat, Table};
use std::alloc::{AllocError, Global};
use std::hint;
use std::marker::Brand;
use std::snapshot::Snapshot;
use std::sync::Wait;

/// A caller's seat. It has no bytes, and may go to another thread.
pub type LockSeat<O, K, E> = Seat<O, View<K, E>>;

/// The most callers besides the first. So few tickets are out that no two of them are alike modulo 2^64.
pub const MOST_CALLERS: u64 = 4_294_967_296;

// The next ticket.
const TICKET: usize = 0;

// The ticket that is served.
const SERVING: usize = 1;

// So many turns before its own, or fewer, a caller looks again and again for its turn.
const NEAR: u64 = 3;

// How often it looks so before it sleeps.
const LOOKS: u32 = 64;

// The end of a turn wakes so many of the callers that come next: the one that is served, and the one behind it, which is
// then awake when its turn comes.
const WOKEN: u64 = 2;

/// A ticket lock round an object O, which is made by a setting K and changes by events E.
#[derive(Drop)]
pub struct TicketLock<O: Object<K, E>, K, E> {
    /// Where the object lies. A call that is lent more than its own values takes it here between `enter` and `leave`.
    pub table: Table<O, View<K, E>, K, InOrder, Global>,
    beds: Beds,
    ghost sized: { (table.shared.table_id.words ≡ 2) × (table.shared.table_id.slots ≡ 1) },
}

impl<O: Object<K, E> + Drop, K, E> TicketLock<O, K, E> {
    /// A lock round an object that may be so at first, and the first seat, whose caller has the number 0.
    pub fn new(
        alloc: Global,
        object: O,
        setting: &K,
    ) -> Result<(TicketLock<O, K, E>, LockSeat<O, K, E>), AllocError>
        requires { O.opens setting.now object }
        ensures { IfOk result (λ t. (t.1.table_id ≡ t.0.table.shared.table_id) × (t.1.id ≡ 0) × (t.1.me ≡ (maker setting.now, []))) }
    {
        let beds = Beds::create(alloc)?;
        let mut slots = Vec::with_capacity(alloc, 1)?;
        slots.push_reserved(object);
        match Table::new(alloc, &[0, 0], slots, setting) {
            Ok((table, seat)) => Ok((TicketLock { table, beds }, seat)),
            Err(Refused { slots: _ }) => Err(AllocError),
        }
    }
}

impl<O: Object<K, E>, K, E> TicketLock<O, K, E> {
    // How many turns are ended before the one of this ticket, which is drawn and not yet served to its end.
    fn turns_before(&self, ticket: u64) -> u64 {
        ticket.wrapping_sub(self.table.shared.peek(SERVING))
    }

    // Waits until this ticket is served.
    fn await_turn<R: Wait>(&self, rt: &R, ticket: u64) {
        let mut looks = 0;
        for _ in rt.forever() {
            let before = self.turns_before(ticket);
            if before == 0 {
                return;
            }
            if before <= NEAR && looks < LOOKS {
                hint::spin_loop();
                looks += 1;
            } else {
                self.sleep(rt, ticket);
                looks = 0;
            }
        }
        unreachable!()
    }

    // Sleeps unless this ticket is served, until a turn ends not long before its own. It may return for no reason.
    fn sleep<R: Wait>(&self, rt: &R, ticket: u64) {
        let bed = self.beds.of(ticket);
        let heard = bed.listen();
        bed.sleep(rt, heard, self.turns_before(ticket) != 0);
    }

    // Wakes those that come next, the first of them with this ticket, where they sleep.
    fn wake_next(&self, served: u64) {
        let waiting = self.table.shared.peek(TICKET).wrapping_sub(served);
        for behind in 0..waiting.min(WOKEN) {
            self.beds.of(served.wrapping_add(behind)).ring();
        }
    }

    /// Waits for a turn, and takes the object. Whoever has entered must leave: until then nobody else is served.
    pub fn enter<R: Wait>(&self, rt: &R, seat: &mut LockSeat<O, K, E>)
        requires own { seat.old.table_id ≡ self.now.table.shared.table_id }
        requires idle { IsIdle seat.old }
        ensures same { IsSameSeat seat.old seat.new }
        ensures turn { Taken O.opens O.moves seat.old.me seat.new.me }
    {
        let shared = &self.table.shared;
        let ticket = shared.fetch_add::<Draws>(seat, TICKET, 1);
        for _ in rt.forever() {
            if shared.load::<Looks>(seat, SERVING) == ticket {
                return;
            }
            self.await_turn(rt, ticket);
        }
        unreachable!()
    }

    /// Ends the turn: gives the object back, and tells the event. The event is picked at the call, and may be made of
    /// what `_of` and `_and` show, the call and the answer, which are only looked at by proofs.
    pub fn leave<J: Tells<E>, T, U>(&self, seat: &mut LockSeat<O, K, E>, _of: &T, _and: &U)
        requires own { seat.old.table_id ≡ self.now.table.shared.table_id }
        requires turn { MayTell O.opens O.moves J.event seat.old.me }
        ensures same { IsSameSeat seat.old seat.new }
        ensures told { (e : E) → J.event ≡ Some e → seat.new.me ≡ (told seat.old.me.0 e, []) }
    {
        let served = self.table.shared.fetch_add::<Leaves<J>>(seat, SERVING, 1);
        self.wake_next(served.wrapping_add(1));
    }

    /// One turn of a caller: waits for it, makes the call, and ends it. It takes no memory. What the caller then knows
    /// is a history that begins with what it knew, ends with this call, and tells how the object came to be as it is.
    pub fn turn<C, T, R: Wait>(&self, rt: &R, seat: &mut LockSeat<O, K, E>, call: C) -> T
    where
        O: Act<C, T, K, E>,
        requires own { seat.old.table_id ≡ self.now.table.shared.table_id }
        requires idle { IsIdle seat.old }
        requires call { O.may seat.old.me.0.caller call }
        ensures same { IsSameSeat seat.old seat.new × IsIdle seat.new }
        ensures turned { Turned O.opens O.moves (O.event call result) seat.old.me.0 seat.new.me.0 }
    {
        self.enter(rt, seat);
        let made = Snapshot::of(&call);
        let object = seat.slot_mut(&self.table.shared, 0);
        let reply = object.act(call);
        self.leave::<Brand, Snapshot<C>, T>(seat, &made, &reply);
        reply
    }

    /// Makes another caller, with the next number, which has seen as much. The first seat alone makes callers.
    pub fn another(&self, first: &mut LockSeat<O, K, E>) -> LockSeat<O, K, E>
        requires own { first.old.table_id ≡ self.now.table.shared.table_id }
        requires first { (first.old.id ≡ 0) × IsIdle first.old × (first.old.me.0.made < MOST_CALLERS) }
        ensures same { IsSameSeat first.old first.new × IsIdle first.new × (first.new.me.0 ≡ one_more first.old.me.0) }
        ensures new { (result.table_id ≡ first.old.table_id) × IsIdle result × (result.me.0 ≡ newcomer first.old.me.0) }
    {
        self.table.shared.split_seat::<Another>(first)
    }

    /// Takes a caller back into the first seat, which then knows what that caller had seen and done.
    pub fn take_back(&self, first: &mut LockSeat<O, K, E>, other: LockSeat<O, K, E>)
        requires own { (first.old.table_id ≡ self.now.table.shared.table_id) × (other.table_id ≡ self.now.table.shared.table_id) }
        requires first { (first.old.id ≡ 0) × IsIdle first.old }
        requires other { IsIdle other }
        ensures same { IsSameSeat first.old first.new × IsIdle first.new }
        ensures taken { first.new.me.0 ≡ taking first.old.me.0 other.me.0 }
    {
        self.table.shared.join_seat::<Another>(first, other);
    }

    /// Ends the lock once all callers are taken back, and gives the object back. There is one history, the longest that
    /// a caller has seen: it tells how the object came to be as it is, and has just the callers' own events.
    pub fn end(self, first: LockSeat<O, K, E>) -> O
        requires own { first.table_id ≡ self.table.shared.table_id }
        requires first { (first.id ≡ 0) × IsIdle first }
        requires back { length first.me.0.known ≡ first.me.0.made }
        ensures { Ended O.opens O.moves result first.me.0 }
    {
        let TicketLock { table, beds: _ } = self;
        let mut closed = table.close_with(first);
        let object = closed.take(0);
        closed.free();
        object
    }
}
