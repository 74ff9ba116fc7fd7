//! Lists of numbers of streams.

use lola_value::list::ListOf;

/// Numbers of streams.
pub type StreamNumbers = ListOf<u32>;
