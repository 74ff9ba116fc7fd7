//! Operands.

ghost use Rattle.std.specs.Prelude.{◌≡◌, codes};
ghost use Rattle.lola_lexer.specs.declared.shape.TokenShape.TheVariants as is;
ghost use Rattle.lola_parser_grammar.specs.Cursor.{IsRead};
ghost use Rattle.lola_parser_grammar.specs.Grammar.{◌*>◌, ◌<*◌};
ghost use Rattle.lola_parser_grammar.specs.Grammar as spec;
ghost use Rattle.lola_parser_expressions.specs.Nests.{Nests};

use super::Rules;
use lola_lexer::shape::TokenShape;
use lola_parser_cursor::cursor::Parser;
use lola_parser_cursor::joined::{defaults, prefix};
use lola_parser_cursor::words::word_literal;
use lola_parser_grammar::error::ParseError;
use lola_parser_grammar::expressions::{Expr, Prefix};
use lola_parser_grammar::literals::{Literal, Value};
use std::alloc::Global;

impl<F: Fn(Global, &mut Parser<'_>, bool, usize) -> Result<Expr, ParseError>> Rules<F> {
    /// Behind the bracket of a default, `to: e)`.
    #[tactic(auto, unfolding(lola_parser_grammar::specs::Syntax::read, lola_parser_grammar::specs::Syntax::first, lola_parser_grammar::specs::Syntax::nullable))]
    fn default_value(&self, parser: &mut Parser<'_>) -> Result<Expr, ParseError>
        requires { Nests self.now.depth (F.pre self.now.nested) (F.post self.now.nested) }
        ensures { IsRead (spec.word (codes "to") *> spec.token is.Colon *> spec.expr_in self.now.depth <* spec.token is.Shut) parser.old result parser.new }
    {
        parser.word(b"to")?;
        parser.take(TokenShape::Colon)?;
        let found = self.expr(parser)?;
        parser.take(TokenShape::Shut)?;
        Ok(found)
    }

    /// Behind a point, `defaults(to: e)`.
    #[tactic(auto, unfolding(lola_parser_grammar::specs::Syntax::read, lola_parser_grammar::specs::Syntax::first, lola_parser_grammar::specs::Syntax::nullable, lola_parser_grammar::specs::Grammar::default))]
    pub(crate) fn default(&self, parser: &mut Parser<'_>) -> Result<Expr, ParseError>
        requires { Nests self.now.depth (F.pre self.now.nested) (F.post self.now.nested) }
        ensures { IsRead (spec.default (spec.expr_in self.now.depth) (spec.other_in self.now.depth)) parser.old result parser.new }
    {
        parser.word(b"defaults")?;
        parser.nesting(TokenShape::Open)?;
        let found = self.default_value(parser)?;
        Ok(found)
    }

    /// A point, and the default behind it.
    #[tactic(auto, unfolding(lola_parser_grammar::specs::Syntax::read, lola_parser_grammar::specs::Syntax::first, lola_parser_grammar::specs::Syntax::nullable, lola_parser_grammar::specs::Grammar::dotted_default))]
    fn dotted_default(&self, parser: &mut Parser<'_>) -> Result<(u32, Expr), ParseError>
        requires { Nests self.now.depth (F.pre self.now.nested) (F.post self.now.nested) }
        ensures { IsRead (spec.dotted_default (spec.expr_in self.now.depth) (spec.other_in self.now.depth)) parser.old result parser.new }
    {
        let dot = parser.nesting(TokenShape::Dot)?;
        let other = self.default(parser)?;
        Ok((dot, other))
    }

    /// The defaults behind an operand.
    #[tactic(auto, unfolding(lola_parser_grammar::specs::Syntax::read, lola_parser_grammar::specs::Syntax::first, lola_parser_grammar::specs::Syntax::nullable, lola_parser_grammar::specs::Grammar::defaults, lola_parser_grammar::specs::Grammar::dotted_default, lola_parser_grammar::specs::Grammar::nesting))]
    pub(crate) fn with_defaults(
        &self,
        parser: &mut Parser<'_>,
        start: Expr,
    ) -> Result<Expr, ParseError>
        requires { Nests self.now.depth (F.pre self.now.nested) (F.post self.now.nested) }
        ensures { IsRead (spec.onto start (spec.defaults (spec.expr_in self.now.depth) (spec.other_in self.now.depth))) parser.old result parser.new }
    {
        let mut left = start;
        for _turn in 0..parser.left() {
            if !parser.sees(TokenShape::Dot) {
                return Ok(left);
            }
            let (dot, other) = self.dotted_default(parser)?;
            left = defaults(self.alloc, dot, left, other)?;
        }
        Ok(left)
    }

    /// An operand that begins with an integer.
    #[tactic(auto, unfolding(lola_parser_grammar::specs::Syntax::read, lola_parser_grammar::specs::Syntax::first, lola_parser_grammar::specs::Syntax::nullable, lola_parser_grammar::specs::Grammar::number))]
    pub(crate) fn number(&self, parser: &mut Parser<'_>) -> Result<Expr, ParseError>
        requires { Nests self.now.depth (F.pre self.now.nested) (F.post self.now.nested) }
        ensures { IsRead (spec.number (spec.expr_in self.now.depth) (spec.other_in self.now.depth)) parser.old result parser.new }
    {
        let (number, at) = parser.integer()?;
        let value = Value::Integer(false, number);
        self.with_defaults(parser, Expr::Literal(Literal { value, at }))
    }

    /// An operand that begins with a bracket.
    #[tactic(auto, unfolding(lola_parser_grammar::specs::Syntax::read, lola_parser_grammar::specs::Syntax::first, lola_parser_grammar::specs::Syntax::nullable, lola_parser_grammar::specs::Grammar::bracketed))]
    pub(crate) fn bracketed(&self, parser: &mut Parser<'_>) -> Result<Expr, ParseError>
        requires { Nests self.now.depth (F.pre self.now.nested) (F.post self.now.nested) }
        ensures { IsRead (spec.bracketed (spec.expr_in self.now.depth) (spec.other_in self.now.depth)) parser.old result parser.new }
    {
        parser.nesting(TokenShape::Open)?;
        let found = self.expr(parser)?;
        parser.take(TokenShape::Shut)?;
        self.with_defaults(parser, found)
    }

    #[tactic(auto, unfolding(lola_parser_grammar::specs::Syntax::read, lola_parser_grammar::specs::Syntax::first, lola_parser_grammar::specs::Syntax::nullable, lola_parser_grammar::specs::Grammar::worded))]
    fn worded(&self, parser: &mut Parser<'_>) -> Result<Expr, ParseError>
        requires { Nests self.now.depth (F.pre self.now.nested) (F.post self.now.nested) }
        ensures { IsRead (spec.worded (spec.expr_in self.now.depth) (spec.other_in self.now.depth)) parser.old result parser.new }
    {
        let literal = word_literal(self.alloc, parser)?;
        self.with_defaults(parser, Expr::Literal(literal))
    }

    #[tactic(auto, unfolding(lola_parser_grammar::specs::Syntax::read, lola_parser_grammar::specs::Syntax::first, lola_parser_grammar::specs::Syntax::nullable, lola_parser_grammar::specs::Grammar::negation))]
    fn negation(&self, parser: &mut Parser<'_>) -> Result<Expr, ParseError>
        requires { Nests self.now.depth (F.pre self.now.nested) (F.post self.now.nested) }
        ensures { IsRead (spec.negation (spec.expr_in self.now.depth) (spec.other_in self.now.depth)) parser.old result parser.new }
    {
        let at = parser.nesting(TokenShape::Not)?;
        let inner = self.operand(parser)?;
        Ok(prefix(self.alloc, Prefix::Not, at, inner)?)
    }

    #[tactic(auto, unfolding(lola_parser_grammar::specs::Syntax::read, lola_parser_grammar::specs::Syntax::first, lola_parser_grammar::specs::Syntax::nullable, lola_parser_grammar::specs::Grammar::operand, lola_parser_grammar::specs::Grammar::number, lola_parser_grammar::specs::Grammar::integer))]
    fn operand(&self, parser: &mut Parser<'_>) -> Result<Expr, ParseError>
        requires { Nests self.now.depth (F.pre self.now.nested) (F.post self.now.nested) }
        ensures { IsRead (spec.operand (spec.expr_in self.now.depth) (spec.other_in self.now.depth)) parser.old result parser.new }
    {
        if parser.sees(TokenShape::Integer) {
            self.number(parser)
        } else {
            self.other(parser)
        }
    }

    /// A `-` directly before an integer makes one literal with it.
    #[tactic(auto, unfolding(lola_parser_grammar::specs::Syntax::read, lola_parser_grammar::specs::Syntax::first, lola_parser_grammar::specs::Syntax::nullable, lola_parser_grammar::specs::Grammar::minus, lola_parser_grammar::specs::Grammar::negative, lola_parser_grammar::specs::Grammar::integer))]
    fn minus(&self, parser: &mut Parser<'_>) -> Result<Expr, ParseError>
        requires { Nests self.now.depth (F.pre self.now.nested) (F.post self.now.nested) }
        ensures { IsRead (spec.minus (spec.expr_in self.now.depth) (spec.other_in self.now.depth)) parser.old result parser.new }
    {
        let at = parser.nesting(TokenShape::Minus)?;
        if parser.sees(TokenShape::Integer) {
            let (number, _) = parser.integer()?;
            let value = Value::Integer(true, number);
            return self.with_defaults(parser, Expr::Literal(Literal { value, at }));
        }
        let inner = self.other(parser)?;
        Ok(prefix(self.alloc, Prefix::Negate, at, inner)?)
    }

    /// An operand that begins with no integer and no bracket.
    #[tactic(auto, using(lola_parser_cursor::proofs::Starts::starts_more), unfolding(lola_parser_grammar::specs::Syntax::read, lola_parser_grammar::specs::Syntax::first, lola_parser_grammar::specs::Syntax::nullable, lola_parser_grammar::specs::Grammar::plain, lola_parser_grammar::specs::Grammar::negation, lola_parser_grammar::specs::Grammar::minus, lola_parser_grammar::specs::Grammar::named, lola_parser_grammar::specs::Grammar::name, lola_parser_grammar::specs::Grammar::nesting))]
    pub(crate) fn plain(&self, parser: &mut Parser<'_>) -> Result<Expr, ParseError>
        requires { Nests self.now.depth (F.pre self.now.nested) (F.post self.now.nested) }
        ensures { IsRead (spec.plain (spec.expr_in self.now.depth) (spec.other_in self.now.depth)) parser.old result parser.new }
    {
        if parser.sees(TokenShape::Not) {
            return self.negation(parser);
        }
        if parser.sees(TokenShape::Minus) {
            return self.minus(parser);
        }
        if parser.sees(TokenShape::Name) {
            return self.named(parser);
        }
        self.worded(parser)
    }

    /// An operand that begins with no integer.
    #[tactic(auto, unfolding(lola_parser_grammar::specs::Syntax::read, lola_parser_grammar::specs::Syntax::first, lola_parser_grammar::specs::Syntax::nullable, lola_parser_grammar::specs::Grammar::other_with, lola_parser_grammar::specs::Grammar::bracketed, lola_parser_grammar::specs::Grammar::nesting))]
    pub(crate) fn other_with(&self, parser: &mut Parser<'_>) -> Result<Expr, ParseError>
        requires { Nests self.now.depth (F.pre self.now.nested) (F.post self.now.nested) }
        ensures { IsRead (spec.other_with (spec.expr_in self.now.depth) (spec.other_in self.now.depth)) parser.old result parser.new }
    {
        if parser.sees(TokenShape::Open) {
            self.bracketed(parser)
        } else {
            self.plain(parser)
        }
    }

    /// An operand.
    #[tactic(auto, unfolding(lola_parser_grammar::specs::Syntax::read, lola_parser_grammar::specs::Syntax::first, lola_parser_grammar::specs::Syntax::nullable, lola_parser_grammar::specs::Grammar::unary, lola_parser_grammar::specs::Grammar::number, lola_parser_grammar::specs::Grammar::integer))]
    pub(crate) fn unary(&self, parser: &mut Parser<'_>) -> Result<Expr, ParseError>
        requires { Nests self.now.depth (F.pre self.now.nested) (F.post self.now.nested) }
        ensures { IsRead (spec.unary (spec.expr_in self.now.depth) (spec.other_in self.now.depth)) parser.old result parser.new }
    {
        if parser.sees(TokenShape::Integer) {
            self.number(parser)
        } else {
            self.other_with(parser)
        }
    }
}
