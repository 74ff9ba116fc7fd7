//! The rules of expressions. What is nested is read by a function that the rules are given, so that each rule is proved
//! by itself.

ghost use Rattle.std.specs.Prelude.{◌≡◌, IfOk, true, false};
ghost use Rattle.lola_parser_grammar.specs.Syntax.{Then};
ghost use Rattle.lola_lexer.specs.declared.shape.TokenShape.TheVariants as is;
ghost use Rattle.lola_parser_grammar.specs.Cursor.{IsRead};
ghost use Rattle.lola_parser_grammar.specs.Grammar.{◌*>◌};
ghost use Rattle.lola_parser_grammar.specs.Grammar as spec;
ghost use Rattle.lola_parser_expressions.specs.Nests.{Nests};

use lola_lexer::shape::TokenShape;
use lola_parser_cursor::cursor::Parser;
use lola_parser_grammar::error::ParseError;
use lola_parser_grammar::expressions::Expr;
use sqlite_items::Boxed;
use std::alloc::{AllocError, Global};

pub mod accesses;
pub mod chains;
pub mod operands;

#[derive(Clone, Copy)]
pub struct Rules<F> {
    pub alloc: Global,
    /// How many levels may still be nested.
    pub depth: usize,
    /// Reads what is nested: whether it is a whole expression or an operand that begins with no integer, and how many
    /// levels may be nested in it.
    pub nested: F,
}

fn boxes(alloc: Global, a: Expr, b: Expr) -> Result<(Boxed<Expr>, Boxed<Expr>), AllocError>
    ensures { IfOk result (λ p. (p.0 ≡ a) × (p.1 ≡ b)) }
{
    let a = Boxed::new(alloc, a)?;
    Ok((a, Boxed::new(alloc, b)?))
}

fn choice(alloc: Global, at: u32, test: Expr, yes: Expr, no: Expr) -> Result<Expr, AllocError>
    ensures { IfOk result (λ e. e ≡ Expr.If at test yes no) }
{
    let (yes, no) = boxes(alloc, yes, no)?;
    Ok(Expr::If(at, Boxed::new(alloc, test)?, yes, no))
}

impl<F: Fn(Global, &mut Parser<'_>, bool, usize) -> Result<Expr, ParseError>> Rules<F> {
    pub(crate) fn expr(&self, parser: &mut Parser<'_>) -> Result<Expr, ParseError>
        requires { Nests self.now.depth (F.pre self.now.nested) (F.post self.now.nested) }
        ensures { IsRead (spec.nested true self.now.depth) parser.old result parser.new }
    {
        (self.nested)(self.alloc, parser, true, self.depth)
    }

    pub(crate) fn other(&self, parser: &mut Parser<'_>) -> Result<Expr, ParseError>
        requires { Nests self.now.depth (F.pre self.now.nested) (F.post self.now.nested) }
        ensures { IsRead (spec.nested false self.now.depth) parser.old result parser.new }
    {
        (self.nested)(self.alloc, parser, false, self.depth)
    }

    /// An expression behind `then` or `else`.
    #[tactic(auto, unfolding(lola_parser_grammar::specs::Syntax::read, lola_parser_grammar::specs::Syntax::first, lola_parser_grammar::specs::Syntax::nullable))]
    fn branch(&self, parser: &mut Parser<'_>, shape: TokenShape) -> Result<Expr, ParseError>
        requires { Nests self.now.depth (F.pre self.now.nested) (F.post self.now.nested) }
        ensures { IsRead (spec.token shape *> spec.expr_in self.now.depth) parser.old result parser.new }
    {
        parser.take(shape)?;
        let found = self.expr(parser)?;
        Ok(found)
    }

    /// The two expressions behind a condition.
    #[tactic(auto, unfolding(lola_parser_grammar::specs::Syntax::read, lola_parser_grammar::specs::Syntax::first, lola_parser_grammar::specs::Syntax::nullable))]
    fn branches(&self, parser: &mut Parser<'_>) -> Result<(Expr, Expr), ParseError>
        requires { Nests self.now.depth (F.pre self.now.nested) (F.post self.now.nested) }
        ensures { IsRead (Then (spec.token is.Then *> spec.expr_in self.now.depth) (spec.token is.Else *> spec.expr_in self.now.depth)) parser.old result parser.new }
    {
        let yes = self.branch(parser, TokenShape::Then)?;
        let no = self.branch(parser, TokenShape::Else)?;
        Ok((yes, no))
    }

    #[tactic(auto, unfolding(lola_parser_grammar::specs::Syntax::read, lola_parser_grammar::specs::Syntax::first, lola_parser_grammar::specs::Syntax::nullable, lola_parser_grammar::specs::Grammar::conditional))]
    pub(crate) fn conditional(&self, parser: &mut Parser<'_>) -> Result<Expr, ParseError>
        requires { Nests self.now.depth (F.pre self.now.nested) (F.post self.now.nested) }
        ensures { IsRead (spec.conditional (spec.expr_in self.now.depth) (spec.other_in self.now.depth)) parser.old result parser.new }
    {
        let at = parser.nesting(TokenShape::If)?;
        let test = self.expr(parser)?;
        let (yes, no) = self.branches(parser)?;
        Ok(choice(self.alloc, at, test, yes, no)?)
    }

    /// An expression.
    #[tactic(auto, unfolding(lola_parser_grammar::specs::Syntax::read, lola_parser_grammar::specs::Syntax::first, lola_parser_grammar::specs::Syntax::nullable, lola_parser_grammar::specs::Grammar::expr_with, lola_parser_grammar::specs::Grammar::conditional, lola_parser_grammar::specs::Grammar::nesting))]
    pub(crate) fn expr_with(&self, parser: &mut Parser<'_>) -> Result<Expr, ParseError>
        requires { Nests self.now.depth (F.pre self.now.nested) (F.post self.now.nested) }
        ensures { IsRead (spec.expr_with (spec.expr_in self.now.depth) (spec.other_in self.now.depth)) parser.old result parser.new }
    {
        if parser.sees(TokenShape::If) {
            return self.conditional(parser);
        }
        let start = self.unary(parser)?;
        self.disjunctions(parser, start)
    }

    #[tactic(auto, unfolding(lola_parser_grammar::specs::Syntax::read, lola_parser_grammar::specs::Syntax::first, lola_parser_grammar::specs::Syntax::nullable, lola_parser_grammar::specs::Grammar::open_operand, lola_parser_grammar::specs::Grammar::number, lola_parser_grammar::specs::Grammar::integer))]
    fn open_operand(&self, parser: &mut Parser<'_>) -> Result<Expr, ParseError>
        requires { Nests self.now.depth (F.pre self.now.nested) (F.post self.now.nested) }
        ensures { IsRead (spec.open_operand (spec.expr_in self.now.depth) (spec.other_in self.now.depth)) parser.old result parser.new }
    {
        if parser.sees(TokenShape::Integer) {
            self.number(parser)
        } else {
            self.plain(parser)
        }
    }

    /// An expression that begins with no bracket.
    #[tactic(auto, unfolding(lola_parser_grammar::specs::Syntax::read, lola_parser_grammar::specs::Syntax::first, lola_parser_grammar::specs::Syntax::nullable, lola_parser_grammar::specs::Grammar::open_expr, lola_parser_grammar::specs::Grammar::conditional, lola_parser_grammar::specs::Grammar::nesting))]
    pub(crate) fn open_expr(&self, parser: &mut Parser<'_>) -> Result<Expr, ParseError>
        requires { Nests self.now.depth (F.pre self.now.nested) (F.post self.now.nested) }
        ensures { IsRead (spec.open_expr (spec.expr_in self.now.depth) (spec.other_in self.now.depth)) parser.old result parser.new }
    {
        if parser.sees(TokenShape::If) {
            return self.conditional(parser);
        }
        let start = self.open_operand(parser)?;
        self.disjunctions(parser, start)
    }

    /// Behind an opening bracket and an expression, the rest of an expression that begins so.
    #[tactic(auto, unfolding(lola_parser_grammar::specs::Syntax::read, lola_parser_grammar::specs::Syntax::first, lola_parser_grammar::specs::Syntax::nullable, lola_parser_grammar::specs::Grammar::closed))]
    pub(crate) fn closed(&self, parser: &mut Parser<'_>, start: Expr) -> Result<Expr, ParseError>
        requires { Nests self.now.depth (F.pre self.now.nested) (F.post self.now.nested) }
        ensures { IsRead (spec.onto start (spec.closed (spec.expr_in self.now.depth) (spec.other_in self.now.depth))) parser.old result parser.new }
    {
        parser.take(TokenShape::Shut)?;
        let start = self.with_defaults(parser, start)?;
        self.disjunctions(parser, start)
    }
}
