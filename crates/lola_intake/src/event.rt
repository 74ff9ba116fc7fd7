//! What a history has. No value of an event is made.

use lola_merge::state::{Offer, Take};
use lola_model::journal::{Entry, Row};
use std::collections::LinkedList;

/// How many sources there are, and from when on rows are accepted.
#[derive(Clone, Copy)]
pub struct Setting {
    pub sources: u32,
    pub start: Option<u64>,
}

/// A call and its answer.
pub enum Event {
    /// A row was offered.
    Offered(Row, Offer),
    /// A source has no more rows.
    Finished(u32),
    /// All pending rows were asked for, and these moved.
    Took(Take, LinkedList<Entry>),
    /// The engine closed.
    Closed,
}
