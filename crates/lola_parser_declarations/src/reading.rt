//! The entry point.

ghost use Rattle.std.specs.Prelude.{◌≡◌, ◌<◌, ◌^◌, length};
ghost use Rattle.lola_lexer.specs.Tokens.{StandIn};
ghost use Rattle.lola_parser_grammar.specs.Cursor.{lexemes, place_of};
ghost use Rattle.lola_parser_grammar.specs.Whole.{Answers, ReadsAll, Refuses};

use crate::declarations::declarations;
use lola_lexer::token::{Token, Tokens};
use lola_parser_cursor::cursor::Parser;
use lola_parser_grammar::declarations::Ast;
use lola_parser_grammar::error::ParseError;
use lola_value::front::{Code, FrontEnd, Refusal};
use std::alloc::Global;

fn refused(code: Code, parser: &Parser<'_>, end: u32) -> FrontEnd
    ensures { result ≡ FrontEnd.Refused (record { code = code; at = place_of parser.now.rest end }) }
{
    FrontEnd::Refused(Refusal {
        code,
        at: parser.place(end),
    })
}

fn read(alloc: Global, bytes: &[u8], tokens: &[Token]) -> Result<Ast, FrontEnd>
    requires within { StandIn bytes.now tokens.now }
    requires short { length bytes.now < 2 ^ 32 }
    ensures { Answers (lexemes bytes.now tokens.now) (length bytes.now) result }
{
    let end = bytes.len() as u32;
    let mut parser = Parser::new(bytes, tokens);
    match declarations(alloc, &mut parser) {
        Err(ParseError::Memory) => Err(FrontEnd::Memory),
        Err(ParseError::Unexpected) => Err(refused(Code::Unexpected, &parser, end)),
        Err(ParseError::TooDeep) => Err(refused(Code::TooDeep, &parser, end)),
        Ok(all) => {
            if parser.left() > 0 {
                return Err(refused(Code::Unexpected, &parser, end));
            }
            Ok(all)
        }
    }
}

/// The specification that the tokens of these bytes spell, or the refusal with which its reading ends.
///
/// Tokens that are no specification are refused as `Unexpected` at the first token such that no specification begins
/// with the tokens up to it, or at the length of the text. Where a whole expression or formula has more than 512 nestings,
/// `TooDeep` stands at the 513th, if it comes before such a token.
pub fn parse(alloc: Global, bytes: &[u8], tokens: &Tokens) -> Result<Ast, FrontEnd>
    requires within { StandIn bytes.now tokens.now }
    requires short { length bytes.now < 2 ^ 32 }
    ensures exact { Answers (lexemes bytes.now tokens.now) (length bytes.now) result }
    ensures reads { ReadsAll (lexemes bytes.now tokens.now) result }
    ensures refuses { Refuses (lexemes bytes.now tokens.now) (length bytes.now) result }
{
    read(alloc, bytes, tokens.as_slice())
}
