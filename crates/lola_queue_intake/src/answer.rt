//! What becomes of a row that a source wants to queue.

use lola_model::journal::Row;

/// What becomes of a row.
#[derive(Drop)]
pub enum Push {
    /// It is queued.
    Queued,
    /// It comes back: the queue had no room for it.
    Full(Row),
    /// It comes back: the taker has closed.
    Closed(Row),
}
