//! The rules of the formulas of pacings.

ghost use Rattle.std.specs.Prelude.{◌≡◌, IfOk};
ghost use Rattle.lola_parser_grammar.specs.Cursor.{IsRead};
ghost use Rattle.lola_parser_grammar.specs.Grammar as spec;
ghost use Rattle.lola_parser_expressions.specs.FormulaNests.{NestsFormula};

use lola_lexer::shape::TokenShape;
use lola_parser_cursor::cursor::Parser;
use lola_parser_grammar::error::ParseError;
use lola_parser_grammar::pacing::Formula;
use sqlite_items::Boxed;
use std::alloc::{AllocError, Global};

#[derive(Clone, Copy)]
pub struct FormulaRules<F> {
    pub alloc: Global,
    /// How many levels may still be nested.
    pub depth: usize,
    /// Reads what is nested, by how many levels may be nested in it.
    pub nested: F,
}

fn both(alloc: Global, at: u32, a: Formula, b: Formula) -> Result<Formula, AllocError>
    ensures { IfOk result (λ x. x ≡ Formula.Both at a b) }
{
    let a = Boxed::new(alloc, a)?;
    Ok(Formula::Both(at, a, Boxed::new(alloc, b)?))
}

fn either(alloc: Global, at: u32, a: Formula, b: Formula) -> Result<Formula, AllocError>
    ensures { IfOk result (λ x. x ≡ Formula.Either at a b) }
{
    let a = Boxed::new(alloc, a)?;
    Ok(Formula::Either(at, a, Boxed::new(alloc, b)?))
}

impl<F: Fn(Global, &mut Parser<'_>, usize) -> Result<Formula, ParseError>> FormulaRules<F> {
    fn inner(&self, parser: &mut Parser<'_>) -> Result<Formula, ParseError>
        requires { NestsFormula self.now.depth (F.pre self.now.nested) (F.post self.now.nested) }
        ensures { IsRead (spec.formula_in self.now.depth) parser.old result parser.new }
    {
        (self.nested)(self.alloc, parser, self.depth)
    }

    /// An input, or a formula in brackets.
    #[tactic(auto, unfolding(lola_parser_grammar::specs::Syntax::read, lola_parser_grammar::specs::Syntax::first, lola_parser_grammar::specs::Syntax::nullable, lola_parser_grammar::specs::Grammar::atom, lola_parser_grammar::specs::Grammar::name))]
    fn atom(&self, parser: &mut Parser<'_>) -> Result<Formula, ParseError>
        requires { NestsFormula self.now.depth (F.pre self.now.nested) (F.post self.now.nested) }
        ensures { IsRead (spec.atom (spec.formula_in self.now.depth)) parser.old result parser.new }
    {
        if parser.sees(TokenShape::Name) {
            let name = parser.name(self.alloc)?;
            return Ok(Formula::Input(name));
        }
        parser.nesting(TokenShape::Open)?;
        let found = self.inner(parser)?;
        parser.take(TokenShape::Shut)?;
        Ok(found)
    }

    /// `&&` with its operands.
    #[tactic(auto, unfolding(lola_parser_grammar::specs::Syntax::read, lola_parser_grammar::specs::Syntax::first, lola_parser_grammar::specs::Syntax::nullable, lola_parser_grammar::specs::Grammar::conjunctions_of, lola_parser_grammar::specs::Grammar::nesting))]
    fn conjunctions(&self, parser: &mut Parser<'_>, start: Formula) -> Result<Formula, ParseError>
        requires { NestsFormula self.now.depth (F.pre self.now.nested) (F.post self.now.nested) }
        ensures { IsRead (spec.onto start (spec.conjunctions_of (spec.formula_in self.now.depth))) parser.old result parser.new }
    {
        let mut left = start;
        for _turn in 0..parser.left() {
            if !parser.sees(TokenShape::And) {
                return Ok(left);
            }
            let at = parser.nesting(TokenShape::And)?;
            let right = self.atom(parser)?;
            left = both(self.alloc, at, left, right)?;
        }
        Ok(left)
    }

    #[tactic(auto, unfolding(lola_parser_grammar::specs::Syntax::read, lola_parser_grammar::specs::Syntax::first, lola_parser_grammar::specs::Syntax::nullable, lola_parser_grammar::specs::Grammar::conjunct))]
    fn conjunct(&self, parser: &mut Parser<'_>) -> Result<Formula, ParseError>
        requires { NestsFormula self.now.depth (F.pre self.now.nested) (F.post self.now.nested) }
        ensures { IsRead (spec.conjunct (spec.formula_in self.now.depth)) parser.old result parser.new }
    {
        let start = self.atom(parser)?;
        self.conjunctions(parser, start)
    }

    /// `||` with its operands.
    #[tactic(auto, unfolding(lola_parser_grammar::specs::Syntax::read, lola_parser_grammar::specs::Syntax::first, lola_parser_grammar::specs::Syntax::nullable, lola_parser_grammar::specs::Grammar::alternatives_of, lola_parser_grammar::specs::Grammar::nesting))]
    fn alternatives(&self, parser: &mut Parser<'_>, start: Formula) -> Result<Formula, ParseError>
        requires { NestsFormula self.now.depth (F.pre self.now.nested) (F.post self.now.nested) }
        ensures { IsRead (spec.onto start (spec.alternatives_of (spec.formula_in self.now.depth))) parser.old result parser.new }
    {
        let mut left = start;
        for _turn in 0..parser.left() {
            if !parser.sees(TokenShape::Or) {
                return Ok(left);
            }
            let at = parser.nesting(TokenShape::Or)?;
            let right = self.conjunct(parser)?;
            left = either(self.alloc, at, left, right)?;
        }
        Ok(left)
    }

    /// A formula.
    #[tactic(auto, unfolding(lola_parser_grammar::specs::Syntax::read, lola_parser_grammar::specs::Syntax::first, lola_parser_grammar::specs::Syntax::nullable, lola_parser_grammar::specs::Grammar::formula_with))]
    pub(crate) fn formula_with(&self, parser: &mut Parser<'_>) -> Result<Formula, ParseError>
        requires { NestsFormula self.now.depth (F.pre self.now.nested) (F.post self.now.nested) }
        ensures { IsRead (spec.formula_with (spec.formula_in self.now.depth)) parser.old result parser.new }
    {
        let start = self.conjunct(parser)?;
        self.alternatives(parser, start)
    }
}
