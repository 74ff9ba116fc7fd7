//! The state of a run as plain data: what a run holds between two steps, as far as later steps can tell.

use lola_panes::partial::Partial;
use lola_value::list::ListOf;
use lola_value::text::Fields;

/// The partial results of a window, from the oldest kept pane to the newest.
pub type Partials = ListOf<Partial>;

/// The panes of a window that was given a value.
#[derive(Drop)]
pub struct SavedPanes {
    /// The number of the newest pane, from 0 at the start of the run.
    pub last: u64,
    /// The partial results, from the oldest kept pane to the newest.
    pub partials: Partials,
}

/// The panes of an instance, for each window onto its stream in their order; none where the window was given no value.
pub type InstancePanes = ListOf<Option<SavedPanes>>;

/// An instance of a stream.
#[derive(Drop)]
pub struct SavedInstance {
    /// The time of its birth in nanoseconds, where its stream has a spawn clause.
    pub born: Option<u64>,
    /// Its parameters.
    pub params: Fields,
    /// Its last values, from the oldest on.
    pub ring: Fields,
    /// Its panes, for each window onto its stream.
    pub panes: InstancePanes,
}

/// The instances of a stream, in the order of their births.
pub type SavedInstances = ListOf<SavedInstance>;

/// The instances of each stream, in the order of the streams.
pub type SavedStreams = ListOf<SavedInstances>;

/// What all of a state is measured by.
#[derive(Clone, Copy)]
pub struct Times {
    /// The start of the run in nanoseconds, where there is one.
    pub start: Option<u64>,
    /// The time of the last accepted row, where there was one.
    pub last: Option<u64>,
    /// How many steps there were, 2^62 at most.
    pub steps: u64,
}

/// What a run holds between two steps.
#[derive(Drop)]
pub struct SavedState {
    /// The start of the run in nanoseconds, where there is one.
    pub start: Option<u64>,
    /// The time of the last accepted row, where there was one.
    pub last: Option<u64>,
    /// How many steps there were.
    pub steps: u64,
    /// The instances of each stream.
    pub streams: SavedStreams,
}
