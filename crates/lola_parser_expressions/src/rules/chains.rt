//! Operands with operators between them, which are joined from the left.

ghost use Rattle.std.specs.Prelude.{◌≡◌};
ghost use Rattle.lola_parser_grammar.specs.Cursor.{IsRead};
ghost use Rattle.lola_parser_grammar.specs.Grammar as spec;
ghost use Rattle.lola_parser_expressions.specs.Nests.{Nests};

use super::Rules;
use lola_parser_cursor::cursor::Parser;
use lola_parser_cursor::joined::binary;
use lola_parser_cursor::operators;
use lola_parser_grammar::error::ParseError;
use lola_parser_grammar::expressions::Expr;
use std::alloc::Global;

impl<F: Fn(Global, &mut Parser<'_>, bool, usize) -> Result<Expr, ParseError>> Rules<F> {
    /// `*`, `/` and `%` with their operands.
    #[tactic(auto, unfolding(lola_parser_grammar::specs::Syntax::read, lola_parser_grammar::specs::Syntax::first, lola_parser_grammar::specs::Syntax::nullable, lola_parser_grammar::specs::Grammar::products))]
    fn products(&self, parser: &mut Parser<'_>, start: Expr) -> Result<Expr, ParseError>
        requires { Nests self.now.depth (F.pre self.now.nested) (F.post self.now.nested) }
        ensures { IsRead (spec.onto start (spec.products (spec.expr_in self.now.depth) (spec.other_in self.now.depth))) parser.old result parser.new }
    {
        let mut left = start;
        for _turn in 0..parser.left() {
            let Some((op, at)) = operators::product_operator(parser)? else {
                return Ok(left);
            };
            let right = self.unary(parser)?;
            left = binary(self.alloc, op, at, left, right)?;
        }
        Ok(left)
    }

    #[tactic(auto, unfolding(lola_parser_grammar::specs::Syntax::read, lola_parser_grammar::specs::Syntax::first, lola_parser_grammar::specs::Syntax::nullable, lola_parser_grammar::specs::Grammar::product))]
    fn product(&self, parser: &mut Parser<'_>) -> Result<Expr, ParseError>
        requires { Nests self.now.depth (F.pre self.now.nested) (F.post self.now.nested) }
        ensures { IsRead (spec.product (spec.expr_in self.now.depth) (spec.other_in self.now.depth)) parser.old result parser.new }
    {
        let start = self.unary(parser)?;
        self.products(parser, start)
    }

    /// `+` and `-` with their operands.
    #[tactic(auto, unfolding(lola_parser_grammar::specs::Syntax::read, lola_parser_grammar::specs::Syntax::first, lola_parser_grammar::specs::Syntax::nullable))]
    fn further_sums(&self, parser: &mut Parser<'_>, start: Expr) -> Result<Expr, ParseError>
        requires { Nests self.now.depth (F.pre self.now.nested) (F.post self.now.nested) }
        ensures { IsRead (spec.onto start (spec.joined spec.sum_operators (spec.product (spec.expr_in self.now.depth) (spec.other_in self.now.depth)))) parser.old result parser.new }
    {
        let mut left = start;
        for _turn in 0..parser.left() {
            let Some((op, at)) = operators::sum_operator(parser)? else {
                return Ok(left);
            };
            let right = self.product(parser)?;
            left = binary(self.alloc, op, at, left, right)?;
        }
        Ok(left)
    }

    #[tactic(auto, unfolding(lola_parser_grammar::specs::Syntax::read, lola_parser_grammar::specs::Syntax::first, lola_parser_grammar::specs::Syntax::nullable, lola_parser_grammar::specs::Grammar::sums))]
    fn sums(&self, parser: &mut Parser<'_>, start: Expr) -> Result<Expr, ParseError>
        requires { Nests self.now.depth (F.pre self.now.nested) (F.post self.now.nested) }
        ensures { IsRead (spec.onto start (spec.sums (spec.expr_in self.now.depth) (spec.other_in self.now.depth))) parser.old result parser.new }
    {
        let left = self.products(parser, start)?;
        self.further_sums(parser, left)
    }

    #[tactic(auto, unfolding(lola_parser_grammar::specs::Syntax::read, lola_parser_grammar::specs::Syntax::first, lola_parser_grammar::specs::Syntax::nullable, lola_parser_grammar::specs::Grammar::sum))]
    fn sum(&self, parser: &mut Parser<'_>) -> Result<Expr, ParseError>
        requires { Nests self.now.depth (F.pre self.now.nested) (F.post self.now.nested) }
        ensures { IsRead (spec.sum (spec.expr_in self.now.depth) (spec.other_in self.now.depth)) parser.old result parser.new }
    {
        let start = self.unary(parser)?;
        self.sums(parser, start)
    }

    /// One comparison with its operand, or none.
    #[tactic(auto, unfolding(lola_parser_grammar::specs::Syntax::read, lola_parser_grammar::specs::Syntax::first, lola_parser_grammar::specs::Syntax::nullable))]
    fn further_comparison(&self, parser: &mut Parser<'_>, start: Expr) -> Result<Expr, ParseError>
        requires { Nests self.now.depth (F.pre self.now.nested) (F.post self.now.nested) }
        ensures { IsRead (spec.onto start (spec.joined_once spec.comparison_operators (spec.sum (spec.expr_in self.now.depth) (spec.other_in self.now.depth)))) parser.old result parser.new }
    {
        let Some((op, at)) = operators::comparison_operator(parser)? else {
            return Ok(start);
        };
        let right = self.sum(parser)?;
        Ok(binary(self.alloc, op, at, start, right)?)
    }

    #[tactic(auto, unfolding(lola_parser_grammar::specs::Syntax::read, lola_parser_grammar::specs::Syntax::first, lola_parser_grammar::specs::Syntax::nullable, lola_parser_grammar::specs::Grammar::comparisons))]
    fn comparisons(&self, parser: &mut Parser<'_>, start: Expr) -> Result<Expr, ParseError>
        requires { Nests self.now.depth (F.pre self.now.nested) (F.post self.now.nested) }
        ensures { IsRead (spec.onto start (spec.comparisons (spec.expr_in self.now.depth) (spec.other_in self.now.depth))) parser.old result parser.new }
    {
        let left = self.sums(parser, start)?;
        self.further_comparison(parser, left)
    }

    #[tactic(auto, unfolding(lola_parser_grammar::specs::Syntax::read, lola_parser_grammar::specs::Syntax::first, lola_parser_grammar::specs::Syntax::nullable, lola_parser_grammar::specs::Grammar::comparison))]
    fn comparison(&self, parser: &mut Parser<'_>) -> Result<Expr, ParseError>
        requires { Nests self.now.depth (F.pre self.now.nested) (F.post self.now.nested) }
        ensures { IsRead (spec.comparison (spec.expr_in self.now.depth) (spec.other_in self.now.depth)) parser.old result parser.new }
    {
        let start = self.unary(parser)?;
        self.comparisons(parser, start)
    }

    /// `&&` with its operands.
    #[tactic(auto, unfolding(lola_parser_grammar::specs::Syntax::read, lola_parser_grammar::specs::Syntax::first, lola_parser_grammar::specs::Syntax::nullable))]
    fn further_conjunctions(&self, parser: &mut Parser<'_>, start: Expr) -> Result<Expr, ParseError>
        requires { Nests self.now.depth (F.pre self.now.nested) (F.post self.now.nested) }
        ensures { IsRead (spec.onto start (spec.joined spec.and_operators (spec.comparison (spec.expr_in self.now.depth) (spec.other_in self.now.depth)))) parser.old result parser.new }
    {
        let mut left = start;
        for _turn in 0..parser.left() {
            let Some((op, at)) = operators::and_operator(parser)? else {
                return Ok(left);
            };
            let right = self.comparison(parser)?;
            left = binary(self.alloc, op, at, left, right)?;
        }
        Ok(left)
    }

    #[tactic(auto, unfolding(lola_parser_grammar::specs::Syntax::read, lola_parser_grammar::specs::Syntax::first, lola_parser_grammar::specs::Syntax::nullable, lola_parser_grammar::specs::Grammar::conjunctions))]
    fn conjunctions(&self, parser: &mut Parser<'_>, start: Expr) -> Result<Expr, ParseError>
        requires { Nests self.now.depth (F.pre self.now.nested) (F.post self.now.nested) }
        ensures { IsRead (spec.onto start (spec.conjunctions (spec.expr_in self.now.depth) (spec.other_in self.now.depth))) parser.old result parser.new }
    {
        let left = self.comparisons(parser, start)?;
        self.further_conjunctions(parser, left)
    }

    #[tactic(auto, unfolding(lola_parser_grammar::specs::Syntax::read, lola_parser_grammar::specs::Syntax::first, lola_parser_grammar::specs::Syntax::nullable, lola_parser_grammar::specs::Grammar::conjunction))]
    fn conjunction(&self, parser: &mut Parser<'_>) -> Result<Expr, ParseError>
        requires { Nests self.now.depth (F.pre self.now.nested) (F.post self.now.nested) }
        ensures { IsRead (spec.conjunction (spec.expr_in self.now.depth) (spec.other_in self.now.depth)) parser.old result parser.new }
    {
        let start = self.unary(parser)?;
        self.conjunctions(parser, start)
    }

    /// `||` with its operands.
    #[tactic(auto, unfolding(lola_parser_grammar::specs::Syntax::read, lola_parser_grammar::specs::Syntax::first, lola_parser_grammar::specs::Syntax::nullable))]
    fn further_disjunctions(&self, parser: &mut Parser<'_>, start: Expr) -> Result<Expr, ParseError>
        requires { Nests self.now.depth (F.pre self.now.nested) (F.post self.now.nested) }
        ensures { IsRead (spec.onto start (spec.joined spec.or_operators (spec.conjunction (spec.expr_in self.now.depth) (spec.other_in self.now.depth)))) parser.old result parser.new }
    {
        let mut left = start;
        for _turn in 0..parser.left() {
            let Some((op, at)) = operators::or_operator(parser)? else {
                return Ok(left);
            };
            let right = self.conjunction(parser)?;
            left = binary(self.alloc, op, at, left, right)?;
        }
        Ok(left)
    }

    /// All that may follow an operand.
    #[tactic(auto, unfolding(lola_parser_grammar::specs::Syntax::read, lola_parser_grammar::specs::Syntax::first, lola_parser_grammar::specs::Syntax::nullable, lola_parser_grammar::specs::Grammar::disjunctions))]
    pub(crate) fn disjunctions(
        &self,
        parser: &mut Parser<'_>,
        start: Expr,
    ) -> Result<Expr, ParseError>
        requires { Nests self.now.depth (F.pre self.now.nested) (F.post self.now.nested) }
        ensures { IsRead (spec.onto start (spec.disjunctions (spec.expr_in self.now.depth) (spec.other_in self.now.depth))) parser.old result parser.new }
    {
        let left = self.conjunctions(parser, start)?;
        self.further_disjunctions(parser, left)
    }
}
