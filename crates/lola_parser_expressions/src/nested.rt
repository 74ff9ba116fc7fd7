//! What is nested in expressions, and whole expressions.

ghost use Rattle.std.specs.Prelude.{◌≡◌};
ghost use Rattle.lola_parser_grammar.specs.Cursor.{IsRead};
ghost use Rattle.lola_parser_grammar.specs.Grammar as spec;

use crate::rules::Rules;
use lola_parser_cursor::cursor::{MAX_LEVELS, Parser};
use lola_parser_grammar::error::ParseError;
use lola_parser_grammar::expressions::Expr;
use std::alloc::Global;

/// An expression, or an operand that begins with no integer, in which at most `depth` levels are nested.
pub fn nested(
    alloc: Global,
    parser: &mut Parser<'_>,
    is_whole: bool,
    depth: usize,
) -> Result<Expr, ParseError>
    ensures { IsRead (spec.nested is_whole depth) parser.old result parser.new }
{
    if depth == 0 {
        return Err(ParseError::TooDeep);
    }
    let rules = Rules {
        alloc,
        depth: depth - 1,
        nested,
    };
    if is_whole {
        rules.expr_with(parser)
    } else {
        rules.other_with(parser)
    }
}

/// A whole expression.
#[tactic(auto, unfolding(lola_parser_grammar::specs::Syntax::read, lola_parser_grammar::specs::Syntax::first, lola_parser_grammar::specs::Syntax::nullable, lola_parser_grammar::specs::Grammar::whole))]
pub fn whole(alloc: Global, parser: &mut Parser<'_>) -> Result<Expr, ParseError>
    ensures { IsRead (spec.whole MAX_LEVELS) parser.old result parser.new }
{
    parser.begin();
    nested(alloc, parser, true, MAX_LEVELS)
}

/// Behind an opening bracket and this expression, the rest of an expression that begins so.
pub fn closed(alloc: Global, parser: &mut Parser<'_>, start: Expr) -> Result<Expr, ParseError>
    ensures { IsRead (spec.onto start (spec.closed (spec.expr_in MAX_LEVELS) (spec.other_in MAX_LEVELS))) parser.old result parser.new }
{
    let rules = Rules {
        alloc,
        depth: MAX_LEVELS,
        nested,
    };
    rules.closed(parser, start)
}

/// An expression that begins with no bracket.
pub fn open_expr(alloc: Global, parser: &mut Parser<'_>) -> Result<Expr, ParseError>
    ensures { IsRead (spec.open_expr (spec.expr_in MAX_LEVELS) (spec.other_in MAX_LEVELS)) parser.old result parser.new }
{
    let rules = Rules {
        alloc,
        depth: MAX_LEVELS,
        nested,
    };
    rules.open_expr(parser)
}
