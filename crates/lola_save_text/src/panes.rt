//! The laws, about definitions alone.

ghost use Rattle.lola_save_text.specs.Offsets.{KeptPartialsAreSame, NewestPanesAreSame, PanesAreRestored, PartialsAreSame};

/// The newest of some values lies in the same pane, by its offset and by its time.
pub fn newest_panes_are_same()
    ensures { NewestPanesAreSame }
{}

/// Each pane has the same partial result, whether its values are found by their offsets or by their times.
pub fn partials_are_same()
    ensures { PartialsAreSame }
{}

/// The partial results of the panes by offsets, from the oldest pane that is kept to the newest, are those that a state has.
pub fn kept_partials_are_same()
    ensures { KeptPartialsAreSame }
{}

/// What a state has of a window's panes is what its panes can be restored from: the partial results of the values that the state was
/// folded from.
pub fn panes_are_restored()
    ensures { PanesAreRestored }
{}
