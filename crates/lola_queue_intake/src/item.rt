//! What is queued.

use lola_model::journal::Row;

/// What a source queues.
#[derive(Drop)]
pub enum Item {
    /// A row.
    Row(Row),
    /// The source of this number has no more rows.
    Finish(u32),
}
