//! The laws, about definitions alone.

ghost use Rattle.lola_names.specs.Meant.{ResolvedIsNamed, ResolvedNotesConstants, SpelledClosesAreSpawned};

/// What resolving gives is named: where nothing of the names of some declarations is refused, the specification that they are
/// resolved to is within the limits of the language, its names are distinct, each number is that of a stream, a window, a
/// parameter, an input or a text of it, each reference has as many arguments as its stream has parameters, and, where no place
/// is noted as out of range, each rate, length of time and offset is in its range.
pub fn resolved_is_named()
    ensures { ResolvedIsNamed }
{}

/// What resolving gives notes a kind of a literal only where the literal stands for a constant of that kind.
pub fn resolved_notes_constants()
    ensures { ResolvedNotesConstants }
{}

/// What the grammar gives is what the laws above ask for: in every specification of the language each output with a close clause
/// has a spawn clause.
pub fn spelled_closes_are_spawned()
    ensures { SpelledClosesAreSpawned }
{}
