//! What a seat knows. No value of these types is made: they exist in proofs.

use std::collections::LinkedList;

/// One turn: whose it was, and what it did.
pub struct Turn<E> {
    /// The caller's number. The first seat's is 0.
    pub by: u64,
    pub event: E,
}

/// A caller whose seat was taken back: the history that it had seen, and its own events.
pub struct Known<E> {
    pub caller: u64,
    pub seen: LinkedList<Turn<E>>,
    pub mine: LinkedList<E>,
}

/// Where a seat is in a call.
pub enum CallState {
    /// In none.
    Idle,
    /// It has drawn this ticket.
    Waiting(u64),
    /// It has its turn, and the object.
    Serving,
}

/// What a seat knows.
pub struct View<K, E> {
    /// None of a seat that was taken back.
    pub setting: Option<K>,
    /// The caller's number.
    pub caller: u64,
    /// The history so far.
    pub seen: LinkedList<Turn<E>>,
    /// The caller's own events in it.
    pub mine: LinkedList<E>,
    pub stage: CallState,
    /// Of the first seat: how many callers it made.
    pub made: u64,
    /// Of the first seat: the callers that came back.
    pub known: LinkedList<Known<E>>,
}
