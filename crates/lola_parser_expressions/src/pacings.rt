//! Pacings.

ghost use Rattle.std.specs.Prelude.{◌≡◌};
ghost use Rattle.lola_parser_grammar.specs.Syntax.{Maybe};
ghost use Rattle.lola_parser_grammar.specs.Cursor.{IsRead};
ghost use Rattle.lola_parser_grammar.specs.Grammar as spec;

use crate::nested_formulas::whole_formula;
use lola_lexer::shape::TokenShape;
use lola_parser_cursor::cursor::{MAX_LEVELS, Parser};
use lola_parser_grammar::error::ParseError;
use lola_parser_grammar::literals::Quantity;
use lola_parser_grammar::pacing::{Formula, Pacing, Rhythm};
use std::alloc::Global;

#[tactic(auto, unfolding(lola_parser_grammar::specs::Syntax::read, lola_parser_grammar::specs::Syntax::first, lola_parser_grammar::specs::Syntax::nullable))]
fn enclosed_quantity(parser: &mut Parser<'_>) -> Result<Quantity, ParseError>
    ensures { IsRead (spec.enclosed spec.quantity) parser.old result parser.new }
{
    parser.take(TokenShape::Open)?;
    let found = parser.quantity()?;
    parser.take(TokenShape::Shut)?;
    Ok(found)
}

#[tactic(auto, unfolding(lola_parser_grammar::specs::Syntax::read, lola_parser_grammar::specs::Syntax::first, lola_parser_grammar::specs::Syntax::nullable))]
fn enclosed_formula(alloc: Global, parser: &mut Parser<'_>) -> Result<Formula, ParseError>
    ensures { IsRead (spec.enclosed (spec.whole_formula MAX_LEVELS)) parser.old result parser.new }
{
    parser.take(TokenShape::Open)?;
    let found = whole_formula(alloc, parser)?;
    parser.take(TokenShape::Shut)?;
    Ok(found)
}

#[tactic(auto, unfolding(lola_parser_grammar::specs::Syntax::read, lola_parser_grammar::specs::Syntax::first, lola_parser_grammar::specs::Syntax::nullable, lola_parser_grammar::specs::Grammar::clock, lola_parser_grammar::specs::Grammar::word))]
fn clock(parser: &mut Parser<'_>) -> Result<Rhythm, ParseError>
    ensures { IsRead spec.clock parser.old result parser.new }
{
    if parser.sees_word(b"Global") {
        parser.word(b"Global")?;
        let rate = enclosed_quantity(parser)?;
        return Ok(Rhythm::Global(rate));
    }
    parser.word(b"Local")?;
    let rate = enclosed_quantity(parser)?;
    Ok(Rhythm::Local(rate))
}

/// What stands behind the `@`.
#[tactic(auto, using(lola_parser_cursor::proofs::Starts::starts_more), unfolding(lola_parser_grammar::specs::Syntax::read, lola_parser_grammar::specs::Syntax::first, lola_parser_grammar::specs::Syntax::nullable, lola_parser_grammar::specs::Grammar::rhythm, lola_parser_grammar::specs::Grammar::quantity, lola_parser_grammar::specs::Grammar::other_name, lola_parser_grammar::specs::Grammar::token))]
fn rhythm(alloc: Global, parser: &mut Parser<'_>) -> Result<Rhythm, ParseError>
    ensures { IsRead (spec.rhythm MAX_LEVELS) parser.old result parser.new }
{
    if parser.sees(TokenShape::Quantity) {
        return Ok(Rhythm::Rate(parser.quantity()?));
    }
    if parser.sees_other(b"Global", b"Local") {
        let name = parser.other_name(alloc, b"Global", b"Local")?;
        return Ok(Rhythm::Formula(Formula::Input(name)));
    }
    if parser.sees(TokenShape::Open) {
        return Ok(Rhythm::Formula(enclosed_formula(alloc, parser)?));
    }
    clock(parser)
}

#[tactic(auto, unfolding(lola_parser_grammar::specs::Syntax::read, lola_parser_grammar::specs::Syntax::first, lola_parser_grammar::specs::Syntax::nullable, lola_parser_grammar::specs::Grammar::pacing))]
fn pacing(alloc: Global, parser: &mut Parser<'_>) -> Result<Pacing, ParseError>
    ensures { IsRead (spec.pacing MAX_LEVELS) parser.old result parser.new }
{
    let at = parser.take(TokenShape::At)?;
    let rhythm = rhythm(alloc, parser)?;
    Ok(Pacing { at, rhythm })
}

/// A pacing, if one is written.
#[tactic(auto, unfolding(lola_parser_grammar::specs::Syntax::read, lola_parser_grammar::specs::Syntax::first, lola_parser_grammar::specs::Syntax::nullable, lola_parser_grammar::specs::Grammar::pacing, lola_parser_grammar::specs::Grammar::token))]
pub fn maybe_pacing(alloc: Global, parser: &mut Parser<'_>) -> Result<Option<Pacing>, ParseError>
    ensures { IsRead (Maybe (spec.pacing MAX_LEVELS)) parser.old result parser.new }
{
    if parser.sees(TokenShape::At) {
        Ok(Some(pacing(alloc, parser)?))
    } else {
        Ok(None)
    }
}
