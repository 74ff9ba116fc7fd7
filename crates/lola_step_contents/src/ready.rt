//! The law, about definitions alone.

ghost use Rattle.lola_step_contents.specs.Ready.{ClausesMayAsk};

/// In a step in which a clause of an accepted plan is active, the store can be asked all that the clause reads: each stream and
/// window is there, each argument is of the parameter's kind, no offset goes further back than values are kept, and the moment of a
/// window is a whole number of panes after the start. And each naming that has the specification's texts by their places has the
/// clause's literals.
pub fn clauses_may_ask()
    ensures { ClausesMayAsk }
{}
