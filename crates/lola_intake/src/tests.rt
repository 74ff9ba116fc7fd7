//! Turns of two callers at a lock round one number.

ghost use Rattle.std.specs.Prelude.{◌≡◌};

use crate::beds::Beds;
use crate::{Act, Object, TicketLock};
use std::mem;
use std::test::Fail;

#[derive(Drop)]
pub struct Number {
    value: u64,
}

// The number before a turn, and after it.
impl Object<u64, (u64, u64)> for Number {
    ghost opens = { λ setting number. number.value ≡ setting };

    ghost moves = { λ number turn after. (turn.event.0 ≡ number.value) × (after.value ≡ turn.event.1) };
}

#[derive(Drop)]
pub struct Put {
    value: u64,
}

impl Act<Put, u64, u64, (u64, u64)> for Number {
    ghost may = { λ by put. Unit {0} };

    ghost event = { λ put before. (before, put.value) };

    fn act(&mut self, call: Put) -> u64 {
        mem::replace(&mut self.value, call.value)
    }
}

#[test]
fn two_callers_take_turns(rt: HostRuntime) -> Result<(), Fail> {
    let (lock, mut first) = TicketLock::new(rt.alloc(), Number { value: 3 }, &3)?;
    let mut second = lock.another(&mut first);
    assert_eq!(rt; lock.turn(&rt, &mut first, Put { value: 4 }), 3);
    assert_eq!(rt; lock.turn(&rt, &mut second, Put { value: 5 }), 4);
    assert_eq!(rt; lock.turn(&rt, &mut first, Put { value: 6 }), 5);
    lock.take_back(&mut first, second);
    assert_eq!(rt; lock.end(first).value, 6);
    Ok(())
}

// The sleeps return, since each bed had a ring after its caller had listened. Were a ring lost, the test would not end.
#[test]
fn a_ring_before_the_sleep_is_not_lost(rt: HostRuntime) -> Result<(), Fail> {
    let beds = Beds::create(rt.alloc())?;
    for ticket in 0..130 {
        let heard = beds.of(ticket).listen();
        beds.of(ticket).ring();
        beds.of(ticket).sleep(&rt, heard, true);
    }
    Ok(())
}
