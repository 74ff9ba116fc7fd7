//! What is nested in formulas, and whole formulas.

ghost use Rattle.std.specs.Prelude.{◌≡◌};
ghost use Rattle.lola_parser_grammar.specs.Cursor.{IsRead};
ghost use Rattle.lola_parser_grammar.specs.Grammar as spec;

use crate::formulas::FormulaRules;
use lola_parser_cursor::cursor::{MAX_LEVELS, Parser};
use lola_parser_grammar::error::ParseError;
use lola_parser_grammar::pacing::Formula;
use std::alloc::Global;

/// A formula.
pub(crate) fn nested_formula(
    alloc: Global,
    parser: &mut Parser<'_>,
    depth: usize,
) -> Result<Formula, ParseError>
    ensures { IsRead (spec.formula_in depth) parser.old result parser.new }
{
    if depth == 0 {
        return Err(ParseError::TooDeep);
    }
    let rules = FormulaRules {
        alloc,
        depth: depth - 1,
        nested: nested_formula,
    };
    rules.formula_with(parser)
}

/// A whole formula.
#[tactic(auto, unfolding(lola_parser_grammar::specs::Syntax::read, lola_parser_grammar::specs::Syntax::first, lola_parser_grammar::specs::Syntax::nullable, lola_parser_grammar::specs::Grammar::whole_formula))]
pub(crate) fn whole_formula(alloc: Global, parser: &mut Parser<'_>) -> Result<Formula, ParseError>
    ensures { IsRead (spec.whole_formula MAX_LEVELS) parser.old result parser.new }
{
    parser.begin();
    nested_formula(alloc, parser, MAX_LEVELS)
}
