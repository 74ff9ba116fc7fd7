//! Literals that are written as words or texts.

ghost use Rattle.std.specs.Prelude.{◌≡◌};
ghost use Rattle.lola_parser_grammar.specs.Cursor.{IsRead};
ghost use Rattle.lola_parser_grammar.specs.Grammar as spec;

use crate::cursor::Parser;
use lola_lexer::shape::TokenShape;
use lola_parser_grammar::error::ParseError;
use lola_parser_grammar::literals::{Literal, Value};
use std::alloc::Global;

/// Takes `true`, `false` or a text.
#[tactic(auto, using(crate::proofs::Starts::starts_more), unfolding(lola_parser_grammar::specs::Syntax::read, lola_parser_grammar::specs::Syntax::first, lola_parser_grammar::specs::Syntax::nullable, lola_parser_grammar::specs::Grammar::word_literal, lola_parser_grammar::specs::Grammar::token, lola_parser_grammar::specs::Grammar::text))]
pub fn word_literal(alloc: Global, parser: &mut Parser<'_>) -> Result<Literal, ParseError>
    ensures { IsRead spec.word_literal parser.old result parser.new }
{
    if parser.sees(TokenShape::True) {
        let at = parser.take(TokenShape::True)?;
        return Ok(Literal {
            value: Value::Truth(true),
            at,
        });
    }
    if parser.sees(TokenShape::False) {
        let at = parser.take(TokenShape::False)?;
        return Ok(Literal {
            value: Value::Truth(false),
            at,
        });
    }
    let (text, at) = parser.text_literal(alloc)?;
    Ok(Literal {
        value: Value::Text(text),
        at,
    })
}
