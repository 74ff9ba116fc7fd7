//! The rule of the queue: each source's items come out in the order in which they went in, each once.

ghost use Rattle.std.specs.Prelude.{◌≡◌};
ghost use Rattle.lola_queue_intake.specs.Deliveries.{Delivers, taker, with_source_made, pass_made, with_returned, spent, with_item, AfterPop, Accounts};

use crate::item::Item;
use crossbeam_queue::protocol::{Join, Lesson, Outcome, Protocol, Split};
use crossbeam_queue::{Pass, RuledArrayQueue};
use std::collections::LinkedList;

/// Whose pass it is.
pub enum Role {
    /// The taker's.
    Taker,
    /// That of the source of this number.
    Source(u32),
    /// A source's that the taker has back.
    Returned,
}

/// A source whose pass the taker has back: its number, and the items that it queued.
pub struct Known {
    pub source: u32,
    pub queued: LinkedList<Item>,
}

/// What a pass knows. No value of it is made.
pub struct View {
    pub role: Role,
    /// Its own items, in order: those that a source queued, and those that the taker popped.
    pub mine: LinkedList<Item>,
    /// Of the taker: how many sources there are.
    pub made: u64,
    /// Of the taker: the sources that came back.
    pub known: LinkedList<Known>,
}

/// The rule.
pub(crate) struct Delivery;

impl Protocol<Item, View> for Delivery {
    ghost holds = { Delivers };

    ghost first = { taker };
}

/// The queue of an intake.
pub(crate) type ItemQueue = RuledArrayQueue<Item, View, Delivery>;

/// A pass of it.
pub(crate) type ItemPass = Pass<Item, View>;

/// A source's pass is made of the taker's, or taken back.
pub(crate) struct SourcePass;

impl Split<View> for SourcePass {
    ghost left = { with_source_made };

    ghost right = { pass_made };
}

impl Join<View> for SourcePass {
    ghost both = { with_returned };

    ghost spent = { spent };
}

/// A source queues an item. Where the queue is full nothing is learned beyond that.
pub(crate) struct Queues;

impl Outcome<Item, View> for Queues {
    ghost then = { λ v x w. w ≡ with_item v x };
}

impl Lesson<Item, View> for Queues {
    ghost fact = { λ v items. Unit {0} };
}

/// The taker pops an item. Where the queue is empty it learns what was queued in all.
pub(crate) struct Pops;

impl Outcome<Item, View> for Pops {
    ghost then = { AfterPop };
}

impl Lesson<Item, View> for Pops {
    ghost fact = { Accounts };
}
