//! What is known where an expression stands.

use lola_model::spec::{Stream, WindowSpec};
use lola_value::value::Kind;

/// What is known where an expression stands.
#[derive(Clone, Copy)]
pub struct Around<'a> {
    pub streams: &'a [Stream],
    pub windows: &'a [WindowSpec],
    /// The kinds of the streams, as far as they are found.
    pub kinds: &'a [Option<Kind>],
    /// The kinds of the parameters in scope.
    pub parameters: &'a [Kind],
}
