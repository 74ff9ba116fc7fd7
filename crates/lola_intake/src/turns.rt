//! What the lock asks of the object in it.

ghost use Rattle.std.specs.Prelude.{ℕ, Option, None};
ghost use Rattle.lola_intake.specs.declared.view.Turn.{Turn};
ghost use Rattle.lola_intake.specs.Turns.{Orderly, turn_by, maker};

use crate::view::View;
use atomic_table::TableRule;
use std::marker::Brand;

/// An object that is made by a setting K and changes by events E.
pub trait Object<K, E> {
    // How it may be at first.
    ghost opens: { K → Self → Type 0 };

    // How the event of a caller may change it.
    ghost moves: { Self → Turn E → Self → Type 0 };
}

/// A call C of the object, which answers a T.
pub trait Act<C, T, K, E>: Object<K, E> {
    // Which caller may make it.
    ghost may: { ℕ → C → Type 0 };

    // The event of the call and its answer.
    ghost event: { C → T → E };

    /// Makes the call. It runs while the caller has its turn, so it waits for nobody.
    fn act(&mut self, call: C) -> T
        requires { (by : ℕ) × may by call }
        ensures { (by : ℕ) → may by call → Self.moves self.old (turn_by by (event call result)) self.new };
}

/// The event that the end of a turn tells. Each call of [`crate::TicketLock::leave`] picks it, at `Brand`.
pub trait Tells<E> {
    ghost event: { Option E };
}

impl<E> Tells<E> for Brand {
    ghost event = { None };
}

/// The rule of the lock's table: there is one history of turns.
pub struct InOrder;

impl<K, E, O: Object<K, E>> TableRule<O, View<K, E>, K> for InOrder {
    ghost holds = { Orderly O.opens O.moves };

    ghost first = { maker };
}
