//! The expressions of clauses, and the list of them that a `with` may have.

ghost use Rattle.std.specs.Prelude.{◌≡◌, ◌∷◌, [], IfOk};
ghost use Rattle.lola_parser_grammar.specs.Syntax.{Maybe, Map};
ghost use Rattle.lola_lexer.specs.declared.shape.TokenShape.TheVariants as is;
ghost use Rattle.lola_parser_grammar.specs.Cursor.{IsRead};
ghost use Rattle.lola_parser_grammar.specs.Grammar as spec;

use lola_lexer::shape::TokenShape;
use lola_parser_cursor::cursor::{MAX_LEVELS, Parser};
use lola_parser_expressions::nested::{closed, nested, open_expr, whole};
use lola_parser_grammar::clauses::Part;
use lola_parser_grammar::error::ParseError;
use lola_parser_grammar::expressions::Expr;
use sqlite_items::Items;
use std::alloc::{AllocError, Global};

fn single(alloc: Global, part: Part) -> Result<Items<Part>, AllocError>
    ensures { IfOk result (λ all. all ≡ part ∷ []) }
{
    let mut all = Items::new(alloc);
    all.push(part)?;
    Ok(all)
}

/// A word or a sign, and the whole expression behind it.
#[tactic(auto, unfolding(lola_parser_grammar::specs::Syntax::read, lola_parser_grammar::specs::Syntax::first, lola_parser_grammar::specs::Syntax::nullable, lola_parser_grammar::specs::Grammar::part_behind))]
pub fn part_behind(
    alloc: Global,
    parser: &mut Parser<'_>,
    shape: TokenShape,
) -> Result<Part, ParseError>
    ensures { IsRead (spec.part_behind MAX_LEVELS shape) parser.old result parser.new }
{
    let at = parser.take(shape)?;
    let expr = whole(alloc, parser)?;
    Ok(Part { at, expr })
}

/// A condition, if one is written.
#[tactic(auto, unfolding(lola_parser_grammar::specs::Syntax::read, lola_parser_grammar::specs::Syntax::first, lola_parser_grammar::specs::Syntax::nullable, lola_parser_grammar::specs::Grammar::part_behind, lola_parser_grammar::specs::Grammar::token))]
pub fn maybe_when(alloc: Global, parser: &mut Parser<'_>) -> Result<Option<Part>, ParseError>
    ensures { IsRead (Maybe (spec.part_behind MAX_LEVELS is.When)) parser.old result parser.new }
{
    if parser.sees(TokenShape::When) {
        Ok(Some(part_behind(alloc, parser, TokenShape::When)?))
    } else {
        Ok(None)
    }
}

#[tactic(auto, unfolding(lola_parser_grammar::specs::Syntax::read, lola_parser_grammar::specs::Syntax::first, lola_parser_grammar::specs::Syntax::nullable, lola_parser_grammar::specs::Grammar::part_behind, lola_parser_grammar::specs::Grammar::token))]
fn further_parts(
    alloc: Global,
    parser: &mut Parser<'_>,
    front: Items<Part>,
) -> Result<Items<Part>, ParseError>
    ensures { IsRead (spec.added front (spec.part_behind MAX_LEVELS is.Comma)) parser.old result parser.new }
{
    let mut all = front;
    for _turn in 0..parser.left() {
        if !parser.sees(TokenShape::Comma) {
            return Ok(all);
        }
        let one = part_behind(alloc, parser, TokenShape::Comma)?;
        all.push(one)?;
    }
    Ok(all)
}

/// The rest of a list, behind its first expression.
#[tactic(auto, unfolding(lola_parser_grammar::specs::Syntax::read, lola_parser_grammar::specs::Syntax::first, lola_parser_grammar::specs::Syntax::nullable, lola_parser_grammar::specs::Grammar::more_parts))]
fn more_parts(
    alloc: Global,
    parser: &mut Parser<'_>,
    first: Expr,
    bracket: u32,
    with: u32,
) -> Result<Items<Part>, ParseError>
    ensures { IsRead (Map (spec.given first bracket with) (spec.more_parts MAX_LEVELS)) parser.old result parser.new }
{
    let part = Part {
        at: bracket,
        expr: first,
    };
    let mut all = single(alloc, part)?;
    let second = part_behind(alloc, parser, TokenShape::Comma)?;
    all.push(second)?;
    let all = further_parts(alloc, parser, all)?;
    parser.take(TokenShape::Shut)?;
    Ok(all)
}

/// The rest of a whole expression that begins with a bracket and this one.
#[tactic(auto, unfolding(lola_parser_grammar::specs::Syntax::read, lola_parser_grammar::specs::Syntax::first, lola_parser_grammar::specs::Syntax::nullable, lola_parser_grammar::specs::Grammar::one_part))]
fn one_part(
    alloc: Global,
    parser: &mut Parser<'_>,
    first: Expr,
    bracket: u32,
    with: u32,
) -> Result<Items<Part>, ParseError>
    ensures { IsRead (Map (spec.given first bracket with) (spec.one_part MAX_LEVELS)) parser.old result parser.new }
{
    let expr = closed(alloc, parser, first)?;
    Ok(single(alloc, Part { at: with, expr })?)
}

/// Behind a bracket, which is a nesting only where the first expression goes on behind its end.
#[tactic(auto, unfolding(lola_parser_grammar::specs::Syntax::read, lola_parser_grammar::specs::Syntax::first, lola_parser_grammar::specs::Syntax::nullable, lola_parser_grammar::specs::Grammar::forked))]
fn forked(
    alloc: Global,
    parser: &mut Parser<'_>,
    bracket: u32,
    with: u32,
) -> Result<Items<Part>, ParseError>
    ensures { IsRead (Map (spec.placed bracket with) (spec.forked MAX_LEVELS)) parser.old result parser.new }
{
    let start = parser.fork();
    parser.begin();
    let first = nested(alloc, parser, true, MAX_LEVELS)?;
    if parser.sees(TokenShape::Comma) {
        return more_parts(alloc, parser, first, bracket, with);
    }
    if !parser.sees(TokenShape::Shut) {
        return Err(ParseError::Unexpected);
    }
    if !parser.has_room() {
        parser.back_to_last_nesting(start);
        return Err(ParseError::TooDeep);
    }
    parser.spend();
    one_part(alloc, parser, first, bracket, with)
}

#[tactic(auto, unfolding(lola_parser_grammar::specs::Syntax::read, lola_parser_grammar::specs::Syntax::first, lola_parser_grammar::specs::Syntax::nullable, lola_parser_grammar::specs::Grammar::whole_unbracketed, lola_parser_grammar::specs::Grammar::unbracketed))]
fn unbracketed(alloc: Global, parser: &mut Parser<'_>) -> Result<Expr, ParseError>
    ensures { IsRead (spec.whole_unbracketed MAX_LEVELS) parser.old result parser.new }
{
    parser.begin();
    open_expr(alloc, parser)
}

/// An expression or a list of them, behind a `with` at this place.
#[tactic(auto, unfolding(lola_parser_grammar::specs::Syntax::read, lola_parser_grammar::specs::Syntax::first, lola_parser_grammar::specs::Syntax::nullable, lola_parser_grammar::specs::Grammar::parts, lola_parser_grammar::specs::Grammar::token))]
fn parts(alloc: Global, parser: &mut Parser<'_>, with: u32) -> Result<Items<Part>, ParseError>
    ensures { IsRead (Map (spec.behind_with with) (spec.parts MAX_LEVELS)) parser.old result parser.new }
{
    if parser.sees(TokenShape::Open) {
        let bracket = parser.take(TokenShape::Open)?;
        return forked(alloc, parser, bracket, with);
    }
    let expr = unbracketed(alloc, parser)?;
    Ok(single(alloc, Part { at: with, expr })?)
}

#[tactic(auto, unfolding(lola_parser_grammar::specs::Syntax::read, lola_parser_grammar::specs::Syntax::first, lola_parser_grammar::specs::Syntax::nullable, lola_parser_grammar::specs::Grammar::with_parts))]
fn with_parts(alloc: Global, parser: &mut Parser<'_>) -> Result<Items<Part>, ParseError>
    ensures { IsRead (spec.with_parts MAX_LEVELS) parser.old result parser.new }
{
    let with = parser.take(TokenShape::With)?;
    parts(alloc, parser, with)
}

/// `with` and its expressions, if they are written.
#[tactic(auto, unfolding(lola_parser_grammar::specs::Syntax::read, lola_parser_grammar::specs::Syntax::first, lola_parser_grammar::specs::Syntax::nullable, lola_parser_grammar::specs::Grammar::with_parts, lola_parser_grammar::specs::Grammar::token))]
pub fn maybe_with(alloc: Global, parser: &mut Parser<'_>) -> Result<Option<Items<Part>>, ParseError>
    ensures { IsRead (Maybe (spec.with_parts MAX_LEVELS)) parser.old result parser.new }
{
    if parser.sees(TokenShape::With) {
        Ok(Some(with_parts(alloc, parser)?))
    } else {
        Ok(None)
    }
}
