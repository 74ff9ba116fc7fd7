//! What an instance has to know of a window onto its stream.

use lola_model::spec::Agg;
use lola_value::value::Kind;

/// The panes of a window: `count` of them, each `pane` nanoseconds long, over values of this kind. Where it is `exact`,
/// the window is missing as long as it reaches before the start.
#[derive(Clone, Copy)]
pub struct WindowPanes {
    pub aggregation: Agg,
    pub kind: Kind,
    pub pane: u64,
    pub count: u32,
    pub exact: bool,
}
