//! The operators between operands.

ghost use Rattle.std.specs.Prelude.{◌≡◌};
ghost use Rattle.lola_parser_grammar.specs.Syntax.{Maybe};
ghost use Rattle.lola_parser_grammar.specs.Cursor.{IsRead};
ghost use Rattle.lola_parser_grammar.specs.Grammar as spec;

use crate::cursor::Parser;
use lola_lexer::shape::TokenShape;
use lola_parser_grammar::error::ParseError;
use lola_parser_grammar::expressions::Binary;

/// An operator, and its place.
pub type Operator = (Binary, u32);

#[tactic(auto, unfolding(lola_parser_grammar::specs::Syntax::read, lola_parser_grammar::specs::Syntax::first, lola_parser_grammar::specs::Syntax::nullable, lola_parser_grammar::specs::Grammar::operator))]
fn operator(parser: &mut Parser<'_>, shape: TokenShape, op: Binary) -> Result<Operator, ParseError>
    ensures { IsRead (spec.operator shape op) parser.old result parser.new }
{
    let at = parser.nesting(shape)?;
    Ok((op, at))
}

/// `*`, `/` or `%`, if it comes next.
#[tactic(auto, using(crate::proofs::Starts::starts_more), unfolding(lola_parser_grammar::specs::Syntax::read, lola_parser_grammar::specs::Syntax::first, lola_parser_grammar::specs::Syntax::nullable, lola_parser_grammar::specs::Grammar::product_operators, lola_parser_grammar::specs::Grammar::operator, lola_parser_grammar::specs::Grammar::nesting))]
pub fn product_operator(parser: &mut Parser<'_>) -> Result<Option<Operator>, ParseError>
    ensures { IsRead (Maybe spec.product_operators) parser.old result parser.new }
{
    if parser.sees(TokenShape::Star) {
        Ok(Some(operator(parser, TokenShape::Star, Binary::Multiply)?))
    } else if parser.sees(TokenShape::Slash) {
        Ok(Some(operator(parser, TokenShape::Slash, Binary::Divide)?))
    } else if parser.sees(TokenShape::Percent) {
        Ok(Some(operator(parser, TokenShape::Percent, Binary::Remainder)?))
    } else {
        Ok(None)
    }
}

/// `+` or `-`, if it comes next.
#[tactic(auto, using(crate::proofs::Starts::starts_more), unfolding(lola_parser_grammar::specs::Syntax::read, lola_parser_grammar::specs::Syntax::first, lola_parser_grammar::specs::Syntax::nullable, lola_parser_grammar::specs::Grammar::sum_operators, lola_parser_grammar::specs::Grammar::operator, lola_parser_grammar::specs::Grammar::nesting))]
pub fn sum_operator(parser: &mut Parser<'_>) -> Result<Option<Operator>, ParseError>
    ensures { IsRead (Maybe spec.sum_operators) parser.old result parser.new }
{
    if parser.sees(TokenShape::Plus) {
        Ok(Some(operator(parser, TokenShape::Plus, Binary::Add)?))
    } else if parser.sees(TokenShape::Minus) {
        Ok(Some(operator(parser, TokenShape::Minus, Binary::Subtract)?))
    } else {
        Ok(None)
    }
}

/// An operator that compares, if it comes next.
#[tactic(auto, using(crate::proofs::Starts::starts_more), unfolding(lola_parser_grammar::specs::Syntax::read, lola_parser_grammar::specs::Syntax::first, lola_parser_grammar::specs::Syntax::nullable, lola_parser_grammar::specs::Grammar::comparison_operators, lola_parser_grammar::specs::Grammar::operator, lola_parser_grammar::specs::Grammar::nesting))]
pub fn comparison_operator(parser: &mut Parser<'_>) -> Result<Option<Operator>, ParseError>
    ensures { IsRead (Maybe spec.comparison_operators) parser.old result parser.new }
{
    if parser.sees(TokenShape::Equal) {
        Ok(Some(operator(parser, TokenShape::Equal, Binary::Equal)?))
    } else if parser.sees(TokenShape::Unequal) {
        Ok(Some(operator(parser, TokenShape::Unequal, Binary::Unequal)?))
    } else if parser.sees(TokenShape::Less) {
        Ok(Some(operator(parser, TokenShape::Less, Binary::Less)?))
    } else if parser.sees(TokenShape::LessEqual) {
        Ok(Some(operator(parser, TokenShape::LessEqual, Binary::LessEqual)?))
    } else if parser.sees(TokenShape::Greater) {
        Ok(Some(operator(parser, TokenShape::Greater, Binary::Greater)?))
    } else if parser.sees(TokenShape::GreaterEqual) {
        Ok(Some(operator(parser, TokenShape::GreaterEqual, Binary::GreaterEqual)?))
    } else {
        Ok(None)
    }
}

/// `&&`, if it comes next.
#[tactic(auto, using(crate::proofs::Starts::starts_more), unfolding(lola_parser_grammar::specs::Syntax::read, lola_parser_grammar::specs::Syntax::first, lola_parser_grammar::specs::Syntax::nullable, lola_parser_grammar::specs::Grammar::and_operators, lola_parser_grammar::specs::Grammar::operator, lola_parser_grammar::specs::Grammar::nesting))]
pub fn and_operator(parser: &mut Parser<'_>) -> Result<Option<Operator>, ParseError>
    ensures { IsRead (Maybe spec.and_operators) parser.old result parser.new }
{
    if parser.sees(TokenShape::And) {
        Ok(Some(operator(parser, TokenShape::And, Binary::And)?))
    } else {
        Ok(None)
    }
}

/// `||`, if it comes next.
#[tactic(auto, using(crate::proofs::Starts::starts_more), unfolding(lola_parser_grammar::specs::Syntax::read, lola_parser_grammar::specs::Syntax::first, lola_parser_grammar::specs::Syntax::nullable, lola_parser_grammar::specs::Grammar::or_operators, lola_parser_grammar::specs::Grammar::operator, lola_parser_grammar::specs::Grammar::nesting))]
pub fn or_operator(parser: &mut Parser<'_>) -> Result<Option<Operator>, ParseError>
    ensures { IsRead (Maybe spec.or_operators) parser.old result parser.new }
{
    if parser.sees(TokenShape::Or) {
        Ok(Some(operator(parser, TokenShape::Or, Binary::Or)?))
    } else {
        Ok(None)
    }
}
