//! Declarations.

ghost use Rattle.std.specs.Prelude.{◌≡◌, ◌∷◌, []};
ghost use Rattle.lola_parser_grammar.specs.Syntax.{Maybe, Then, starts, first};
ghost use Rattle.lola_lexer.specs.declared.shape.TokenShape.TheVariants as is;
ghost use Rattle.lola_parser_grammar.specs.Cursor.{IsRead};
ghost use Rattle.lola_parser_grammar.specs.Grammar as spec;

use crate::clauses::{Body, body};
use lola_lexer::shape::TokenShape;
use lola_parser_cursor::cursor::{MAX_LEVELS, Parser};
use lola_parser_cursor::words::word_literal;
use lola_parser_expressions::nested::whole;
use lola_parser_expressions::pacings::maybe_pacing;
use lola_parser_grammar::clauses::Part;
use lola_parser_grammar::declarations::{Ast, Constant, Declaration, Inputs, Output, Trigger};
use lola_parser_grammar::error::ParseError;
use lola_parser_grammar::expressions::Expr;
use lola_parser_grammar::literals::{Literal, Name, Typed, Value};
use lola_value::text::{Memory, Text};
use sqlite_items::Items;
use std::alloc::Global;

/// Parameters, and the place of their opening bracket.
type Bracketed = (u32, Items<Typed>);

/// `name: kind`
#[tactic(auto, unfolding(lola_parser_grammar::specs::Syntax::read, lola_parser_grammar::specs::Syntax::first, lola_parser_grammar::specs::Syntax::nullable, lola_parser_grammar::specs::Grammar::typed))]
fn typed(alloc: Global, parser: &mut Parser<'_>) -> Result<Typed, ParseError>
    ensures { IsRead spec.typed parser.old result parser.new }
{
    let name = parser.name(alloc)?;
    parser.take(TokenShape::Colon)?;
    let kind = parser.name(alloc)?;
    Ok(Typed { name, kind })
}

#[tactic(auto, unfolding(lola_parser_grammar::specs::Syntax::read, lola_parser_grammar::specs::Syntax::first, lola_parser_grammar::specs::Syntax::nullable, lola_parser_grammar::specs::Grammar::token))]
fn further_typed(
    alloc: Global,
    parser: &mut Parser<'_>,
    front: Items<Typed>,
) -> Result<Items<Typed>, ParseError>
    ensures { IsRead (spec.added front (spec.further spec.typed)) parser.old result parser.new }
{
    let mut all = front;
    for _turn in 0..parser.left() {
        if !parser.sees(TokenShape::Comma) {
            return Ok(all);
        }
        parser.take(TokenShape::Comma)?;
        let one = typed(alloc, parser)?;
        all.push(one)?;
    }
    Ok(all)
}

#[tactic(auto, unfolding(lola_parser_grammar::specs::Syntax::read, lola_parser_grammar::specs::Syntax::first, lola_parser_grammar::specs::Syntax::nullable))]
fn typed_list(alloc: Global, parser: &mut Parser<'_>) -> Result<Items<Typed>, ParseError>
    ensures { IsRead (spec.listed spec.typed) parser.old result parser.new }
{
    let first = typed(alloc, parser)?;
    let mut all = Items::new(alloc);
    all.push(first)?;
    further_typed(alloc, parser, all)
}

#[tactic(auto, unfolding(lola_parser_grammar::specs::Syntax::read, lola_parser_grammar::specs::Syntax::first, lola_parser_grammar::specs::Syntax::nullable, lola_parser_grammar::specs::Grammar::parameters, lola_parser_grammar::specs::Grammar::token))]
fn maybe_parameters(alloc: Global, parser: &mut Parser<'_>) -> Result<Option<Bracketed>, ParseError>
    ensures { IsRead (Maybe spec.parameters) parser.old result parser.new }
{
    if parser.sees(TokenShape::Open) {
        let bracket = parser.take(TokenShape::Open)?;
        let all = typed_list(alloc, parser)?;
        parser.take(TokenShape::Shut)?;
        Ok(Some((bracket, all)))
    } else {
        Ok(None)
    }
}

#[tactic(auto, unfolding(lola_parser_grammar::specs::Syntax::read, lola_parser_grammar::specs::Syntax::first, lola_parser_grammar::specs::Syntax::nullable, lola_parser_grammar::specs::Grammar::kind, lola_parser_grammar::specs::Grammar::token))]
fn maybe_kind(alloc: Global, parser: &mut Parser<'_>) -> Result<Option<Name>, ParseError>
    ensures { IsRead (Maybe spec.kind) parser.old result parser.new }
{
    if parser.sees(TokenShape::Colon) {
        parser.take(TokenShape::Colon)?;
        Ok(Some(parser.name(alloc)?))
    } else {
        Ok(None)
    }
}

/// A literal, of which a `-` may be a part.
#[tactic(auto, using(lola_parser_cursor::proofs::Starts::starts_more), unfolding(lola_parser_grammar::specs::Syntax::read, lola_parser_grammar::specs::Syntax::first, lola_parser_grammar::specs::Syntax::nullable, lola_parser_grammar::specs::Grammar::literal, lola_parser_grammar::specs::Grammar::integer, lola_parser_grammar::specs::Grammar::token))]
fn literal(alloc: Global, parser: &mut Parser<'_>) -> Result<Literal, ParseError>
    ensures { IsRead spec.literal parser.old result parser.new }
{
    if parser.sees(TokenShape::Integer) {
        let (number, at) = parser.integer()?;
        let value = Value::Integer(false, number);
        return Ok(Literal { value, at });
    }
    if parser.sees(TokenShape::Minus) {
        let at = parser.take(TokenShape::Minus)?;
        let (number, _) = parser.integer()?;
        let value = Value::Integer(true, number);
        return Ok(Literal { value, at });
    }
    word_literal(alloc, parser)
}

#[tactic(auto, unfolding(lola_parser_grammar::specs::Syntax::read, lola_parser_grammar::specs::Syntax::first, lola_parser_grammar::specs::Syntax::nullable, lola_parser_grammar::specs::Grammar::inputs))]
fn inputs(alloc: Global, parser: &mut Parser<'_>) -> Result<Declaration, ParseError>
    ensures { IsRead spec.inputs parser.old result parser.new }
{
    let at = parser.take(TokenShape::Input)?;
    let inputs = typed_list(alloc, parser)?;
    Ok(Declaration::Inputs(Inputs { at, inputs }))
}

/// `:= literal`: the place of the sign, and the literal.
#[tactic(auto, unfolding(lola_parser_grammar::specs::Syntax::read, lola_parser_grammar::specs::Syntax::first, lola_parser_grammar::specs::Syntax::nullable))]
fn defined(alloc: Global, parser: &mut Parser<'_>) -> Result<(u32, Literal), ParseError>
    ensures { IsRead (Then (spec.token is.Define) spec.literal) parser.old result parser.new }
{
    let at = parser.take(TokenShape::Define)?;
    let literal = literal(alloc, parser)?;
    Ok((at, literal))
}

#[tactic(auto, unfolding(lola_parser_grammar::specs::Syntax::read, lola_parser_grammar::specs::Syntax::first, lola_parser_grammar::specs::Syntax::nullable, lola_parser_grammar::specs::Grammar::constant))]
fn constant(alloc: Global, parser: &mut Parser<'_>) -> Result<Declaration, ParseError>
    ensures { IsRead spec.constant parser.old result parser.new }
{
    let at = parser.take(TokenShape::Constant)?;
    let name = parser.name(alloc)?;
    parser.take(TokenShape::Colon)?;
    let kind = parser.name(alloc)?;
    let (before, literal) = defined(alloc, parser)?;
    Ok(Declaration::Constant(Constant {
        at,
        name,
        kind,
        before,
        literal,
    }))
}

fn with_parameters(alloc: Global, found: Option<Bracketed>) -> (Option<u32>, Items<Typed>)
    ensures bracket { result.0 ≡ spec.bracket_of found }
    ensures parameters { result.1 ≡ spec.parameters_of found }
{
    match found {
        None => (None, Items::new(alloc)),
        Some((bracket, parameters)) => (Some(bracket), parameters),
    }
}

/// The kind of an output, if one is written, and its clauses.
#[tactic(auto, unfolding(lola_parser_grammar::specs::Syntax::read, lola_parser_grammar::specs::Syntax::first, lola_parser_grammar::specs::Syntax::nullable))]
fn kind_and_body(alloc: Global, parser: &mut Parser<'_>) -> Result<(Option<Name>, Body), ParseError>
    ensures { IsRead (Then (Maybe spec.kind) (spec.body MAX_LEVELS)) parser.old result parser.new }
{
    let kind = maybe_kind(alloc, parser)?;
    let body = body(alloc, parser)?;
    Ok((kind, body))
}

#[tactic(auto, unfolding(lola_parser_grammar::specs::Syntax::read, lola_parser_grammar::specs::Syntax::first, lola_parser_grammar::specs::Syntax::nullable, lola_parser_grammar::specs::Grammar::output))]
fn output(alloc: Global, parser: &mut Parser<'_>) -> Result<Declaration, ParseError>
    ensures { IsRead (spec.output MAX_LEVELS) parser.old result parser.new }
{
    let at = parser.take(TokenShape::Output)?;
    let name = parser.name(alloc)?;
    let found = maybe_parameters(alloc, parser)?;
    let (kind, (spawn, eval, close)) = kind_and_body(alloc, parser)?;
    let (bracket, parameters) = with_parameters(alloc, found);
    Ok(Declaration::Output(Output {
        at,
        name,
        bracket,
        parameters,
        kind,
        spawn,
        eval,
        close,
    }))
}

/// The message of a trigger, which is the empty text where none is written.
#[tactic(auto, unfolding(lola_parser_grammar::specs::Syntax::read, lola_parser_grammar::specs::Syntax::first, lola_parser_grammar::specs::Syntax::nullable, lola_parser_grammar::specs::Grammar::message, lola_parser_grammar::specs::Grammar::text))]
fn message(alloc: Global, parser: &mut Parser<'_>) -> Result<Text, ParseError>
    ensures { IsRead spec.message parser.old result parser.new }
{
    if parser.sees(TokenShape::Text) {
        let (text, _) = parser.text_literal(alloc)?;
        Ok(text)
    } else {
        Ok(Text::from_bytes(alloc, b"")?)
    }
}

/// The expression of a trigger, and its message.
#[tactic(auto, unfolding(lola_parser_grammar::specs::Syntax::read, lola_parser_grammar::specs::Syntax::first, lola_parser_grammar::specs::Syntax::nullable))]
fn expr_and_message(alloc: Global, parser: &mut Parser<'_>) -> Result<(Expr, Text), ParseError>
    ensures { IsRead (Then (spec.whole MAX_LEVELS) spec.message) parser.old result parser.new }
{
    let expr = whole(alloc, parser)?;
    let message = message(alloc, parser)?;
    Ok((expr, message))
}

#[tactic(auto, unfolding(lola_parser_grammar::specs::Syntax::read, lola_parser_grammar::specs::Syntax::first, lola_parser_grammar::specs::Syntax::nullable, lola_parser_grammar::specs::Grammar::trigger))]
fn trigger(alloc: Global, parser: &mut Parser<'_>) -> Result<Declaration, ParseError>
    ensures { IsRead (spec.trigger MAX_LEVELS) parser.old result parser.new }
{
    let at = parser.take(TokenShape::Trigger)?;
    let pacing = maybe_pacing(alloc, parser)?;
    let (expr, message) = expr_and_message(alloc, parser)?;
    Ok(Declaration::Trigger(Trigger {
        pacing,
        when: Part { at, expr },
        message,
    }))
}

#[tactic(auto, using(lola_parser_cursor::proofs::Starts::starts_more), unfolding(lola_parser_grammar::specs::Syntax::read, lola_parser_grammar::specs::Syntax::first, lola_parser_grammar::specs::Syntax::nullable, lola_parser_grammar::specs::Grammar::declaration, lola_parser_grammar::specs::Grammar::inputs, lola_parser_grammar::specs::Grammar::constant, lola_parser_grammar::specs::Grammar::output, lola_parser_grammar::specs::Grammar::token))]
fn declaration(alloc: Global, parser: &mut Parser<'_>) -> Result<Declaration, ParseError>
    ensures { IsRead (spec.declaration MAX_LEVELS) parser.old result parser.new }
{
    if parser.sees(TokenShape::Input) {
        return inputs(alloc, parser);
    }
    if parser.sees(TokenShape::Constant) {
        return constant(alloc, parser);
    }
    if parser.sees(TokenShape::Output) {
        return output(alloc, parser);
    }
    trigger(alloc, parser)
}

#[tactic(auto, using(lola_parser_cursor::proofs::Starts::starts_more), unfolding(lola_parser_grammar::specs::Syntax::read, lola_parser_grammar::specs::Syntax::first, lola_parser_grammar::specs::Syntax::nullable, lola_parser_grammar::specs::Grammar::declaration, lola_parser_grammar::specs::Grammar::inputs, lola_parser_grammar::specs::Grammar::constant, lola_parser_grammar::specs::Grammar::output, lola_parser_grammar::specs::Grammar::trigger, lola_parser_grammar::specs::Grammar::token))]
fn begins(parser: &Parser<'_>) -> bool
    ensures { result ≡ starts (first (spec.declaration MAX_LEVELS)) parser.now.rest }
{
    parser.sees(TokenShape::Input)
        || parser.sees(TokenShape::Constant)
        || parser.sees(TokenShape::Output)
        || parser.sees(TokenShape::Trigger)
}

/// All declarations up to the first token that begins none.
pub fn declarations(alloc: Global, parser: &mut Parser<'_>) -> Result<Ast, ParseError>
    ensures { IsRead (spec.specification MAX_LEVELS) parser.old result parser.new }
{
    let mut all = Items::new(alloc);
    for _turn in 0..parser.left() {
        if !begins(parser) {
            return Ok(all);
        }
        let one = declaration(alloc, parser)?;
        all.push(one)?;
    }
    Ok(all)
}
