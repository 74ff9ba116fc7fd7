//! The clauses of a stream.

ghost use Rattle.std.specs.Prelude.{◌≡◌};
ghost use Rattle.lola_parser_grammar.specs.Syntax.{Map, Maybe, Then};
ghost use Rattle.lola_lexer.specs.declared.shape.TokenShape.TheVariants as is;
ghost use Rattle.lola_parser_declarations.specs.Bodies.{alone, spawned};
ghost use Rattle.lola_parser_grammar.specs.Cursor.{IsRead};
ghost use Rattle.lola_parser_grammar.specs.Grammar as spec;

use crate::parts::{maybe_when, maybe_with, part_behind};
use lola_lexer::shape::TokenShape;
use lola_parser_cursor::cursor::{MAX_LEVELS, Parser};
use lola_parser_expressions::pacings::maybe_pacing;
use lola_parser_grammar::clauses::{Close, Eval, Part, Spawn};
use lola_parser_grammar::error::ParseError;
use sqlite_items::Items;
use std::alloc::Global;

/// The clauses of an output.
pub type Body = (Option<Spawn>, Eval, Option<Close>);

fn parts_or_none(alloc: Global, parts: Option<Items<Part>>) -> Items<Part>
    ensures { result ≡ spec.parts_or_none parts }
{
    match parts {
        None => Items::new(alloc),
        Some(parts) => parts,
    }
}

/// The condition and the parameters of a `spawn` clause, where they are written.
#[tactic(auto, unfolding(lola_parser_grammar::specs::Syntax::read, lola_parser_grammar::specs::Syntax::first, lola_parser_grammar::specs::Syntax::nullable))]
fn when_and_parts(
    alloc: Global,
    parser: &mut Parser<'_>,
) -> Result<(Option<Part>, Option<Items<Part>>), ParseError>
    ensures { IsRead (Then (Maybe (spec.part_behind MAX_LEVELS is.When)) (Maybe (spec.with_parts MAX_LEVELS))) parser.old result parser.new }
{
    let when = maybe_when(alloc, parser)?;
    let with = maybe_with(alloc, parser)?;
    Ok((when, with))
}

#[tactic(auto, unfolding(lola_parser_grammar::specs::Syntax::read, lola_parser_grammar::specs::Syntax::first, lola_parser_grammar::specs::Syntax::nullable, lola_parser_grammar::specs::Grammar::spawn))]
fn spawn(alloc: Global, parser: &mut Parser<'_>) -> Result<Spawn, ParseError>
    ensures { IsRead (spec.spawn MAX_LEVELS) parser.old result parser.new }
{
    let at = parser.take(TokenShape::Spawn)?;
    let pacing = maybe_pacing(alloc, parser)?;
    let (when, with) = when_and_parts(alloc, parser)?;
    Ok(Spawn {
        at,
        pacing,
        when,
        with: parts_or_none(alloc, with),
    })
}

/// The condition of an `eval` clause, where it is written, and its expression.
#[tactic(auto, unfolding(lola_parser_grammar::specs::Syntax::read, lola_parser_grammar::specs::Syntax::first, lola_parser_grammar::specs::Syntax::nullable))]
fn when_and_with(alloc: Global, parser: &mut Parser<'_>) -> Result<(Option<Part>, Part), ParseError>
    ensures { IsRead (Then (Maybe (spec.part_behind MAX_LEVELS is.When)) (spec.part_behind MAX_LEVELS is.With)) parser.old result parser.new }
{
    let when = maybe_when(alloc, parser)?;
    let with = part_behind(alloc, parser, TokenShape::With)?;
    Ok((when, with))
}

#[tactic(auto, unfolding(lola_parser_grammar::specs::Syntax::read, lola_parser_grammar::specs::Syntax::first, lola_parser_grammar::specs::Syntax::nullable, lola_parser_grammar::specs::Grammar::eval))]
fn eval(alloc: Global, parser: &mut Parser<'_>) -> Result<Eval, ParseError>
    ensures { IsRead (spec.eval MAX_LEVELS) parser.old result parser.new }
{
    let at = parser.take(TokenShape::Eval)?;
    let pacing = maybe_pacing(alloc, parser)?;
    let (when, with) = when_and_with(alloc, parser)?;
    Ok(Eval {
        at,
        pacing,
        when,
        with,
    })
}

#[tactic(auto, unfolding(lola_parser_grammar::specs::Syntax::read, lola_parser_grammar::specs::Syntax::first, lola_parser_grammar::specs::Syntax::nullable, lola_parser_grammar::specs::Grammar::close))]
fn close(alloc: Global, parser: &mut Parser<'_>) -> Result<Close, ParseError>
    ensures { IsRead (spec.close MAX_LEVELS) parser.old result parser.new }
{
    let at = parser.take(TokenShape::Close)?;
    let pacing = maybe_pacing(alloc, parser)?;
    let when = part_behind(alloc, parser, TokenShape::When)?;
    Ok(Close { at, pacing, when })
}

#[tactic(auto, unfolding(lola_parser_grammar::specs::Syntax::read, lola_parser_grammar::specs::Syntax::first, lola_parser_grammar::specs::Syntax::nullable, lola_parser_grammar::specs::Grammar::close, lola_parser_grammar::specs::Grammar::token))]
fn maybe_close(alloc: Global, parser: &mut Parser<'_>) -> Result<Option<Close>, ParseError>
    ensures { IsRead (Maybe (spec.close MAX_LEVELS)) parser.old result parser.new }
{
    if parser.sees(TokenShape::Close) {
        Ok(Some(close(alloc, parser)?))
    } else {
        Ok(None)
    }
}

/// `@p := e` is `eval @p with e`.
#[tactic(auto, unfolding(lola_parser_grammar::specs::Syntax::read, lola_parser_grammar::specs::Syntax::first, lola_parser_grammar::specs::Syntax::nullable, lola_parser_grammar::specs::Grammar::short_eval))]
fn short_eval(alloc: Global, parser: &mut Parser<'_>) -> Result<Eval, ParseError>
    ensures { IsRead (spec.short_eval MAX_LEVELS) parser.old result parser.new }
{
    let pacing = maybe_pacing(alloc, parser)?;
    let with = part_behind(alloc, parser, TokenShape::Define)?;
    Ok(Eval {
        at: with.at,
        pacing,
        when: None,
        with,
    })
}

#[tactic(auto, unfolding(lola_parser_grammar::specs::Syntax::read, lola_parser_grammar::specs::Syntax::first, lola_parser_grammar::specs::Syntax::nullable))]
fn short_body(alloc: Global, parser: &mut Parser<'_>) -> Result<Body, ParseError>
    ensures { IsRead (Map alone (spec.short_eval MAX_LEVELS)) parser.old result parser.new }
{
    let eval = short_eval(alloc, parser)?;
    Ok((None, eval, None))
}

#[tactic(auto, unfolding(lola_parser_grammar::specs::Syntax::read, lola_parser_grammar::specs::Syntax::first, lola_parser_grammar::specs::Syntax::nullable))]
fn eval_body(alloc: Global, parser: &mut Parser<'_>) -> Result<Body, ParseError>
    ensures { IsRead (Map alone (spec.eval MAX_LEVELS)) parser.old result parser.new }
{
    let eval = eval(alloc, parser)?;
    Ok((None, eval, None))
}

#[tactic(auto, unfolding(lola_parser_grammar::specs::Syntax::read, lola_parser_grammar::specs::Syntax::first, lola_parser_grammar::specs::Syntax::nullable))]
fn eval_and_close(
    alloc: Global,
    parser: &mut Parser<'_>,
) -> Result<(Eval, Option<Close>), ParseError>
    ensures { IsRead (Then (spec.eval MAX_LEVELS) (Maybe (spec.close MAX_LEVELS))) parser.old result parser.new }
{
    let eval = eval(alloc, parser)?;
    let close = maybe_close(alloc, parser)?;
    Ok((eval, close))
}

#[tactic(auto, unfolding(lola_parser_grammar::specs::Syntax::read, lola_parser_grammar::specs::Syntax::first, lola_parser_grammar::specs::Syntax::nullable))]
fn spawn_body(alloc: Global, parser: &mut Parser<'_>) -> Result<Body, ParseError>
    ensures { IsRead (Map spawned (Then (spec.spawn MAX_LEVELS) (Then (spec.eval MAX_LEVELS) (Maybe (spec.close MAX_LEVELS))))) parser.old result parser.new }
{
    let spawn = spawn(alloc, parser)?;
    let (eval, close) = eval_and_close(alloc, parser)?;
    Ok((Some(spawn), eval, close))
}

/// The clauses of an output.
#[tactic(auto, using(lola_parser_cursor::proofs::Starts::starts_more), unfolding(lola_parser_grammar::specs::Syntax::read, lola_parser_grammar::specs::Syntax::first, lola_parser_grammar::specs::Syntax::nullable, lola_parser_grammar::specs::Grammar::body, lola_parser_grammar::specs::Grammar::short_eval, lola_parser_grammar::specs::Grammar::eval, lola_parser_grammar::specs::Grammar::pacing, lola_parser_grammar::specs::Grammar::part_behind, lola_parser_grammar::specs::Grammar::token))]
pub fn body(alloc: Global, parser: &mut Parser<'_>) -> Result<Body, ParseError>
    ensures { IsRead (spec.body MAX_LEVELS) parser.old result parser.new }
{
    if parser.sees(TokenShape::At) || parser.sees(TokenShape::Define) {
        return short_body(alloc, parser);
    }
    if parser.sees(TokenShape::Eval) {
        return eval_body(alloc, parser);
    }
    spawn_body(alloc, parser)
}
