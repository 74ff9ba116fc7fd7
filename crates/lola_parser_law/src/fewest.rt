//! The laws, about definitions alone.

ghost use Rattle.lola_parser_law.specs.Fewest.{FewestNestings, FewestNestingsOfFormula, PrintedFormulaIsFewest, PrintedIsFewest, PrintedWithin};

/// Whatever tokens spell an expression, at whatever depth of nesting, the printed ones have no more nestings.
pub fn fewest_nestings()
    ensures { FewestNestings }
{}

/// The same of a formula of a pacing.
pub fn fewest_nestings_of_formula()
    ensures { FewestNestingsOfFormula }
{}

/// What is printed of an expression of the grammar's shape whose literals are read back spells it, places left aside, and
/// nothing that spells it has fewer nestings.
pub fn printed_is_fewest()
    ensures { PrintedIsFewest }
{}

/// The same of a formula of a pacing.
pub fn printed_formula_is_fewest()
    ensures { PrintedFormulaIsFewest }
{}

/// Where some spelling of a specification keeps the limit of nestings in each whole expression and formula, the printed one
/// keeps it too, of every specification of the grammar's shape whose literals are read back.
pub fn printed_within()
    ensures { PrintedWithin }
{}
