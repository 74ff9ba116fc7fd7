//! The law, about definitions alone.

ghost use Rattle.lola_parser_law.specs.Fitting.{PrintedSpells};

/// What is printed of a specification spells it, places left aside: of every specification of the grammar's shape whose
/// literals are read back, however deep it is nested.
pub fn printed_spells()
    ensures { PrintedSpells }
{}
