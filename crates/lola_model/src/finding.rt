//! What is found of the pacing of a clause.

use crate::pacing::Pacing;
use lola_value::front::Refusal;

/// What is found of the pacing of a clause.
#[derive(Drop)]
pub enum FoundPacing {
    /// It has this one.
    Paced(Pacing),
    /// It has none, and this refusal says why.
    Refused(Refusal),
    /// It has none, for a cause that is refused elsewhere or that needs no refusal.
    Unpaced,
}
