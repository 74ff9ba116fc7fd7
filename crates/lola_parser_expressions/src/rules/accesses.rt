//! Names with their arguments, and how they are read.

ghost use Rattle.std.specs.Prelude.{◌≡◌, IfOk, codes};
ghost use Rattle.lola_parser_grammar.specs.Syntax.{Maybe, Then};
ghost use Rattle.lola_lexer.specs.declared.shape.TokenShape.TheVariants as is;
ghost use Rattle.lola_parser_grammar.specs.Cursor.{IsRead};
ghost use Rattle.lola_parser_grammar.specs.Grammar.{◌*>◌, ◌<*◌};
ghost use Rattle.lola_parser_grammar.specs.Grammar as spec;
ghost use Rattle.lola_parser_expressions.specs.Nests.{Nests};

use super::Rules;
use lola_lexer::shape::TokenShape;
use lola_parser_cursor::cursor::Parser;
use lola_parser_cursor::joined::defaults;
use lola_parser_grammar::error::ParseError;
use lola_parser_grammar::expressions::{Access, Expr};
use lola_parser_grammar::literals::{Name, Quantity};
use sqlite_items::Items;
use std::alloc::{AllocError, Global};

/// How a name is read, and what stands in where there is no value.
type Reading = (Access, Option<Expr>);

/// The arguments of a name, and the place of their opening bracket.
type Arguments = (u32, Items<Expr>);

fn reference(alloc: Global, name: Name, arguments: Option<Arguments>, access: Access) -> Expr
    ensures { result ≡ spec.reference name arguments access }
{
    match arguments {
        None => Expr::Reference(name, None, Items::new(alloc), access),
        Some((bracket, arguments)) => { Expr::Reference(name, Some(bracket), arguments, access) }
    }
}

fn or_else(alloc: Global, dot: u32, left: Expr, other: Option<Expr>) -> Result<Expr, AllocError>
    ensures { IfOk result (λ e. e ≡ spec.or_else dot left other) }
{
    match other {
        None => Ok(left),
        Some(other) => defaults(alloc, dot, left, other),
    }
}

/// Behind the bracket of an offset, `by: -n)`: how many values back, and the place of the number.
#[tactic(auto, unfolding(lola_parser_grammar::specs::Syntax::read, lola_parser_grammar::specs::Syntax::first, lola_parser_grammar::specs::Syntax::nullable))]
fn steps_back(parser: &mut Parser<'_>) -> Result<(u128, u32), ParseError>
    ensures { IsRead (spec.word (codes "by") *> spec.token is.Colon *> spec.nesting is.Minus *> spec.integer <* spec.token is.Shut) parser.old result parser.new }
{
    parser.word(b"by")?;
    parser.take(TokenShape::Colon)?;
    parser.nesting(TokenShape::Minus)?;
    let found = parser.integer()?;
    parser.take(TokenShape::Shut)?;
    Ok(found)
}

#[tactic(auto, unfolding(lola_parser_grammar::specs::Syntax::read, lola_parser_grammar::specs::Syntax::first, lola_parser_grammar::specs::Syntax::nullable, lola_parser_grammar::specs::Grammar::offset))]
fn offset(parser: &mut Parser<'_>, dot: u32) -> Result<Reading, ParseError>
    ensures { IsRead (spec.at_dot dot spec.offset) parser.old result parser.new }
{
    parser.word(b"offset")?;
    parser.nesting(TokenShape::Open)?;
    let (steps, at) = steps_back(parser)?;
    Ok((Access::Offset(dot, steps, at), None))
}

#[tactic(auto, unfolding(lola_parser_grammar::specs::Syntax::read, lola_parser_grammar::specs::Syntax::first, lola_parser_grammar::specs::Syntax::nullable, lola_parser_grammar::specs::Grammar::over, lola_parser_grammar::specs::Grammar::word))]
fn over(parser: &mut Parser<'_>) -> Result<bool, ParseError>
    ensures { IsRead spec.over parser.old result parser.new }
{
    if parser.sees_word(b"over") {
        parser.word(b"over")?;
        Ok(false)
    } else {
        parser.word(b"over_exactly")?;
        Ok(true)
    }
}

/// How a window is aggregated, behind its length.
#[tactic(auto, unfolding(lola_parser_grammar::specs::Syntax::read, lola_parser_grammar::specs::Syntax::first, lola_parser_grammar::specs::Syntax::nullable))]
fn aggregation(alloc: Global, parser: &mut Parser<'_>) -> Result<Name, ParseError>
    ensures { IsRead (spec.token is.Comma *> spec.word (codes "using") *> spec.token is.Colon *> spec.name) parser.old result parser.new }
{
    parser.take(TokenShape::Comma)?;
    parser.word(b"using")?;
    parser.take(TokenShape::Colon)?;
    let found = parser.name(alloc)?;
    Ok(found)
}

/// Whether a window is exact, its length, and how it is aggregated.
#[tactic(auto, unfolding(lola_parser_grammar::specs::Syntax::read, lola_parser_grammar::specs::Syntax::first, lola_parser_grammar::specs::Syntax::nullable))]
fn windowed(alloc: Global, parser: &mut Parser<'_>) -> Result<(bool, (Quantity, Name)), ParseError>
    ensures { IsRead (Then spec.over (Then (spec.token is.Colon *> spec.quantity) (spec.token is.Comma *> spec.word (codes "using") *> spec.token is.Colon *> spec.name))) parser.old result parser.new }
{
    let is_exact = over(parser)?;
    parser.take(TokenShape::Colon)?;
    let length = parser.quantity()?;
    let aggregation = aggregation(alloc, parser)?;
    Ok((is_exact, (length, aggregation)))
}

#[tactic(auto, unfolding(lola_parser_grammar::specs::Syntax::read, lola_parser_grammar::specs::Syntax::first, lola_parser_grammar::specs::Syntax::nullable, lola_parser_grammar::specs::Grammar::window))]
fn window(alloc: Global, parser: &mut Parser<'_>, dot: u32) -> Result<Reading, ParseError>
    ensures { IsRead (spec.at_dot dot spec.window) parser.old result parser.new }
{
    parser.word(b"aggregate")?;
    parser.nesting(TokenShape::Open)?;
    let (is_exact, (length, aggregation)) = windowed(alloc, parser)?;
    parser.take(TokenShape::Shut)?;
    Ok((Access::Window(dot, is_exact, length, aggregation), None))
}

impl<F: Fn(Global, &mut Parser<'_>, bool, usize) -> Result<Expr, ParseError>> Rules<F> {
    /// The arguments behind the first.
    #[tactic(auto, unfolding(lola_parser_grammar::specs::Syntax::read, lola_parser_grammar::specs::Syntax::first, lola_parser_grammar::specs::Syntax::nullable, lola_parser_grammar::specs::Grammar::token))]
    fn more_arguments(
        &self,
        parser: &mut Parser<'_>,
        front: Items<Expr>,
    ) -> Result<Items<Expr>, ParseError>
        requires { Nests self.now.depth (F.pre self.now.nested) (F.post self.now.nested) }
        ensures { IsRead (spec.added front (spec.further (spec.expr_in self.now.depth))) parser.old result parser.new }
    {
        let mut all = front;
        for _turn in 0..parser.left() {
            if !parser.sees(TokenShape::Comma) {
                return Ok(all);
            }
            parser.take(TokenShape::Comma)?;
            let one = self.expr(parser)?;
            all.push(one)?;
        }
        Ok(all)
    }

    /// Arguments in brackets: the opening one's place, and they.
    #[tactic(auto, unfolding(lola_parser_grammar::specs::Syntax::read, lola_parser_grammar::specs::Syntax::first, lola_parser_grammar::specs::Syntax::nullable, lola_parser_grammar::specs::Grammar::arguments))]
    fn arguments(&self, parser: &mut Parser<'_>) -> Result<(u32, Items<Expr>), ParseError>
        requires { Nests self.now.depth (F.pre self.now.nested) (F.post self.now.nested) }
        ensures { IsRead (spec.arguments (spec.expr_in self.now.depth) (spec.other_in self.now.depth)) parser.old result parser.new }
    {
        let bracket = parser.nesting(TokenShape::Open)?;
        let first = self.expr(parser)?;
        let mut all = Items::new(self.alloc);
        all.push(first)?;
        let all = self.more_arguments(parser, all)?;
        parser.take(TokenShape::Shut)?;
        Ok((bracket, all))
    }

    /// `or: e`.
    #[tactic(auto, unfolding(lola_parser_grammar::specs::Syntax::read, lola_parser_grammar::specs::Syntax::first, lola_parser_grammar::specs::Syntax::nullable))]
    fn other_value(&self, parser: &mut Parser<'_>) -> Result<Expr, ParseError>
        requires { Nests self.now.depth (F.pre self.now.nested) (F.post self.now.nested) }
        ensures { IsRead (spec.word (codes "or") *> spec.token is.Colon *> spec.expr_in self.now.depth) parser.old result parser.new }
    {
        parser.word(b"or")?;
        parser.take(TokenShape::Colon)?;
        let found = self.expr(parser)?;
        Ok(found)
    }

    /// The same, if it is written.
    #[tactic(auto, unfolding(lola_parser_grammar::specs::Syntax::read, lola_parser_grammar::specs::Syntax::first, lola_parser_grammar::specs::Syntax::nullable, lola_parser_grammar::specs::Grammar::word))]
    fn maybe_other_value(&self, parser: &mut Parser<'_>) -> Result<Option<Expr>, ParseError>
        requires { Nests self.now.depth (F.pre self.now.nested) (F.post self.now.nested) }
        ensures { IsRead (Maybe (spec.word (codes "or") *> spec.token is.Colon *> spec.expr_in self.now.depth)) parser.old result parser.new }
    {
        if parser.sees_word(b"or") {
            Ok(Some(self.other_value(parser)?))
        } else {
            Ok(None)
        }
    }

    /// In brackets, what stands in where there is no value, if it is written.
    #[tactic(auto, unfolding(lola_parser_grammar::specs::Syntax::read, lola_parser_grammar::specs::Syntax::first, lola_parser_grammar::specs::Syntax::nullable, lola_parser_grammar::specs::Grammar::stand_in))]
    fn stand_in(&self, parser: &mut Parser<'_>) -> Result<Option<Expr>, ParseError>
        requires { Nests self.now.depth (F.pre self.now.nested) (F.post self.now.nested) }
        ensures { IsRead (spec.stand_in (spec.expr_in self.now.depth) (spec.other_in self.now.depth)) parser.old result parser.new }
    {
        parser.nesting(TokenShape::Open)?;
        let found = self.maybe_other_value(parser)?;
        parser.take(TokenShape::Shut)?;
        Ok(found)
    }

    #[tactic(auto, unfolding(lola_parser_grammar::specs::Syntax::read, lola_parser_grammar::specs::Syntax::first, lola_parser_grammar::specs::Syntax::nullable, lola_parser_grammar::specs::Grammar::hold))]
    fn hold(&self, parser: &mut Parser<'_>, dot: u32) -> Result<Reading, ParseError>
        requires { Nests self.now.depth (F.pre self.now.nested) (F.post self.now.nested) }
        ensures { IsRead (spec.at_dot dot (spec.hold (spec.expr_in self.now.depth) (spec.other_in self.now.depth))) parser.old result parser.new }
    {
        parser.word(b"hold")?;
        let other = self.stand_in(parser)?;
        Ok((Access::Hold(dot), other))
    }

    #[tactic(auto, unfolding(lola_parser_grammar::specs::Syntax::read, lola_parser_grammar::specs::Syntax::first, lola_parser_grammar::specs::Syntax::nullable, lola_parser_grammar::specs::Grammar::get))]
    fn get(&self, parser: &mut Parser<'_>, dot: u32) -> Result<Reading, ParseError>
        requires { Nests self.now.depth (F.pre self.now.nested) (F.post self.now.nested) }
        ensures { IsRead (spec.at_dot dot (spec.get (spec.expr_in self.now.depth) (spec.other_in self.now.depth))) parser.old result parser.new }
    {
        parser.word(b"get")?;
        let other = self.stand_in(parser)?;
        Ok((Access::Get(dot), other))
    }

    /// `last` is the offset by 1.
    #[tactic(auto, unfolding(lola_parser_grammar::specs::Syntax::read, lola_parser_grammar::specs::Syntax::first, lola_parser_grammar::specs::Syntax::nullable, lola_parser_grammar::specs::Grammar::last))]
    fn last(&self, parser: &mut Parser<'_>, dot: u32) -> Result<Reading, ParseError>
        requires { Nests self.now.depth (F.pre self.now.nested) (F.post self.now.nested) }
        ensures { IsRead (spec.at_dot dot (spec.last (spec.expr_in self.now.depth) (spec.other_in self.now.depth))) parser.old result parser.new }
    {
        let at = parser.word(b"last")?;
        let other = self.stand_in(parser)?;
        Ok((Access::Offset(dot, 1, at), other))
    }

    /// What stands behind the point after a name.
    #[tactic(auto, using(lola_parser_cursor::proofs::Starts::starts_more), unfolding(lola_parser_grammar::specs::Syntax::read, lola_parser_grammar::specs::Syntax::first, lola_parser_grammar::specs::Syntax::nullable, lola_parser_grammar::specs::Grammar::reading, lola_parser_grammar::specs::Grammar::offset, lola_parser_grammar::specs::Grammar::hold, lola_parser_grammar::specs::Grammar::get, lola_parser_grammar::specs::Grammar::last, lola_parser_grammar::specs::Grammar::window, lola_parser_grammar::specs::Grammar::word))]
    fn reading(&self, parser: &mut Parser<'_>, dot: u32) -> Result<Reading, ParseError>
        requires { Nests self.now.depth (F.pre self.now.nested) (F.post self.now.nested) }
        ensures { IsRead (spec.at_dot dot (spec.reading (spec.expr_in self.now.depth) (spec.other_in self.now.depth))) parser.old result parser.new }
    {
        if parser.sees_word(b"offset") {
            return offset(parser, dot);
        }
        if parser.sees_word(b"hold") {
            return self.hold(parser, dot);
        }
        if parser.sees_word(b"get") {
            return self.get(parser, dot);
        }
        if parser.sees_word(b"last") {
            return self.last(parser, dot);
        }
        if parser.sees_word(b"aggregate") {
            return window(self.alloc, parser, dot);
        }
        let other = self.default(parser)?;
        Ok((Access::Direct, Some(other)))
    }

    #[tactic(auto, unfolding(lola_parser_grammar::specs::Syntax::read, lola_parser_grammar::specs::Syntax::first, lola_parser_grammar::specs::Syntax::nullable, lola_parser_grammar::specs::Grammar::arguments, lola_parser_grammar::specs::Grammar::nesting))]
    fn maybe_arguments(&self, parser: &mut Parser<'_>) -> Result<Option<Arguments>, ParseError>
        requires { Nests self.now.depth (F.pre self.now.nested) (F.post self.now.nested) }
        ensures { IsRead (Maybe (spec.arguments (spec.expr_in self.now.depth) (spec.other_in self.now.depth))) parser.old result parser.new }
    {
        if parser.sees(TokenShape::Open) {
            Ok(Some(self.arguments(parser)?))
        } else {
            Ok(None)
        }
    }

    /// The point behind a name, and what it brings.
    #[tactic(auto, unfolding(lola_parser_grammar::specs::Syntax::read, lola_parser_grammar::specs::Syntax::first, lola_parser_grammar::specs::Syntax::nullable, lola_parser_grammar::specs::Grammar::dotted))]
    fn dotted(
        &self,
        parser: &mut Parser<'_>,
        name: Name,
        arguments: Option<Arguments>,
    ) -> Result<Expr, ParseError>
        requires { Nests self.now.depth (F.pre self.now.nested) (F.post self.now.nested) }
        ensures { IsRead (spec.of_name name arguments (spec.dotted (spec.expr_in self.now.depth) (spec.other_in self.now.depth))) parser.old result parser.new }
    {
        let dot = parser.nesting(TokenShape::Dot)?;
        let (access, other) = self.reading(parser, dot)?;
        let named = reference(self.alloc, name, arguments, access);
        Ok(or_else(self.alloc, dot, named, other)?)
    }

    /// All that follows a name with a point behind it.
    #[tactic(auto, unfolding(lola_parser_grammar::specs::Syntax::read, lola_parser_grammar::specs::Syntax::first, lola_parser_grammar::specs::Syntax::nullable, lola_parser_grammar::specs::Grammar::suffix))]
    fn suffixed(
        &self,
        parser: &mut Parser<'_>,
        name: Name,
        arguments: Option<Arguments>,
    ) -> Result<Expr, ParseError>
        requires { Nests self.now.depth (F.pre self.now.nested) (F.post self.now.nested) }
        ensures { IsRead (spec.of_name name arguments (spec.suffix (spec.expr_in self.now.depth) (spec.other_in self.now.depth))) parser.old result parser.new }
    {
        let start = self.dotted(parser, name, arguments)?;
        self.with_defaults(parser, start)
    }

    /// An operand that begins with a name.
    #[tactic(auto, unfolding(lola_parser_grammar::specs::Syntax::read, lola_parser_grammar::specs::Syntax::first, lola_parser_grammar::specs::Syntax::nullable, lola_parser_grammar::specs::Grammar::named, lola_parser_grammar::specs::Grammar::suffix, lola_parser_grammar::specs::Grammar::dotted, lola_parser_grammar::specs::Grammar::nesting))]
    pub(crate) fn named(&self, parser: &mut Parser<'_>) -> Result<Expr, ParseError>
        requires { Nests self.now.depth (F.pre self.now.nested) (F.post self.now.nested) }
        ensures { IsRead (spec.named (spec.expr_in self.now.depth) (spec.other_in self.now.depth)) parser.old result parser.new }
    {
        let name = parser.name(self.alloc)?;
        let arguments = self.maybe_arguments(parser)?;
        if parser.sees(TokenShape::Dot) {
            return self.suffixed(parser, name, arguments);
        }
        Ok(reference(self.alloc, name, arguments, Access::Direct))
    }
}
