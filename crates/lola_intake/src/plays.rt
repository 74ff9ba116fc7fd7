//! What each play tells its caller.
ghost use Rattle.lola_intake.specs.Turns.{drew, looked, left, one_more, newcomer, taking, gone};

use crate::turns::{Object, Tells};
use crate::view::View;
use atomic_table::{Join, Play, Split};
use std::marker::PhantomData;

/// A ticket is drawn.
pub(crate) struct Draws;

impl<O, K, E> Play<O, View<K, E>> for Draws {
    ghost then = { drew };
}

/// The ticket that is served is looked at, and the object taken where it is the caller's own.
pub(crate) struct Looks;

impl<K, E, O: Object<K, E>> Play<O, View<K, E>> for Looks {
    ghost then = { looked O.opens O.moves };
}

/// The next ticket is served, the object is back, and the event J is told.
pub(crate) struct Leaves<J> {
    event: PhantomData<J>,
}

impl<O, K, E, J: Tells<E>> Play<O, View<K, E>> for Leaves<J> {
    ghost then = { left J.event };
}

/// A caller is made, or taken back.
pub(crate) struct Another;

impl<K, E> Split<View<K, E>> for Another {
    ghost left = { one_more };

    ghost right = { newcomer };
}

impl<K, E> Join<View<K, E>> for Another {
    ghost both = { taking };

    ghost spent = { gone };
}
