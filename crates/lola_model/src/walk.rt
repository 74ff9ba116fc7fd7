//! The walk: over an expression, over a clause, and over streams.
#![tactic(auto, using(crate::proofs::Taken::takes_both))]

ghost use Rattle.std.specs.Prelude.{IsTrue, OnOk};
ghost use Rattle.std.specs.List.{list_all};
ghost use Rattle.lola_model.specs.Parts.{listed, listed_all, listed_when, listed_with, listed_clause, listed_stream, listed_streams};
ghost use Rattle.lola_model.specs.Visits.{parts_of, parts_pass, arguments_pass, when_passes, clause_passes, stream_passes, TakesAll};

use crate::expr::{Arguments, Expr};
use crate::part::{PartVisitor, ReadPart};
use crate::spec::{Clause, Stream};

/// Visits the parts of an expression that read: of a whole before its operands and arguments, and of these from the left.
#[cycle(expression)]
pub fn visit_expr<V: PartVisitor>(
    visitor: &V,
    expr: &Expr,
    target: &mut V::Target,
) -> Result<(), V::Error>
    requires ready { V.ready visitor.now }
    requires parts { IsTrue (parts_pass V.may expr.now) }
    ensures { OnOk result (TakesAll (V.takes visitor.now) (listed parts_of expr.now) target.old target.new) }
{
    match expr {
        Expr::Literal(_, _) => Ok(()),
        Expr::Parameter(_, _) => Ok(()),
        Expr::Read(place, stream, access, arguments) => {
            visitor.visit(
                ReadPart::Read {
                    at: place.at,
                    stream: *stream,
                    access: *access,
                },
                target,
            )?;
            visit_arguments(visitor, arguments, target)
        }
        Expr::Window(place, window, arguments) => {
            visitor.visit(
                ReadPart::Window {
                    at: place.at,
                    window: *window,
                },
                target,
            )?;
            visit_arguments(visitor, arguments, target)
        }
        Expr::Unary(_, _, a) => visit_expr(visitor, a, target),
        Expr::Defaults(_, a, b) => {
            visit_expr(visitor, a, target)?;
            visit_expr(visitor, b, target)
        }
        Expr::Both(_, _, a, b) => {
            visit_expr(visitor, a, target)?;
            visit_expr(visitor, b, target)
        }
        Expr::Choice(_, a, b, c) => {
            visit_expr(visitor, a, target)?;
            visit_expr(visitor, b, target)?;
            visit_expr(visitor, c, target)
        }
    }
}

// Visits those of arguments.
#[cycle(expression)]
fn visit_arguments<V: PartVisitor>(
    visitor: &V,
    arguments: &Arguments,
    target: &mut V::Target,
) -> Result<(), V::Error>
    requires ready { V.ready visitor.now }
    requires parts { IsTrue (arguments_pass V.may arguments.now) }
    ensures { OnOk result (TakesAll (V.takes visitor.now) (listed_all parts_of arguments.now) target.old target.new) }
{
    match arguments {
        Arguments::End => Ok(()),
        Arguments::More(first, rest) => {
            visit_expr(visitor, first, target)?;
            visit_arguments(visitor, rest, target)
        }
    }
}

// Visits those of a condition, if there is one.
fn visit_when<V: PartVisitor>(
    visitor: &V,
    when: &Option<Expr>,
    target: &mut V::Target,
) -> Result<(), V::Error>
    requires ready { V.ready visitor.now }
    requires parts { IsTrue (when_passes V.may when.now) }
    ensures { OnOk result (TakesAll (V.takes visitor.now) (listed_when parts_of when.now) target.old target.new) }
{
    match when {
        None => Ok(()),
        Some(expr) => visit_expr(visitor, expr, target),
    }
}

// Visits those of the expressions of a clause behind `with`.
fn visit_with<V: PartVisitor>(
    visitor: &V,
    exprs: &[Expr],
    target: &mut V::Target,
) -> Result<(), V::Error>
    requires ready { V.ready visitor.now }
    requires parts { IsTrue (list_all (parts_pass V.may) exprs.now) }
    ensures { OnOk result (TakesAll (V.takes visitor.now) (listed_with parts_of exprs.now) target.old target.new) }
{
    for expr in exprs {
        visit_expr(visitor, expr, target)?;
    }
    Ok(())
}

/// Visits the parts of a clause that read, if there is one: of its condition, and then of the expressions behind `with`.
pub fn visit_clause<V: PartVisitor>(
    visitor: &V,
    clause: &Option<Clause>,
    target: &mut V::Target,
) -> Result<(), V::Error>
    requires ready { V.ready visitor.now }
    requires parts { IsTrue (clause_passes V.may clause.now) }
    ensures { OnOk result (TakesAll (V.takes visitor.now) (listed_clause parts_of clause.now) target.old target.new) }
{
    match clause {
        None => Ok(()),
        Some(clause) => {
            visit_when(visitor, &clause.when, target)?;
            visit_with(visitor, clause.with.as_slice(), target)
        }
    }
}

// Visits those of a stream's three clauses.
fn visit_stream<V: PartVisitor>(
    visitor: &V,
    stream: &Stream,
    target: &mut V::Target,
) -> Result<(), V::Error>
    requires ready { V.ready visitor.now }
    requires parts { IsTrue (stream_passes V.may stream.now) }
    ensures { OnOk result (TakesAll (V.takes visitor.now) (listed_stream parts_of stream.now) target.old target.new) }
{
    visit_clause(visitor, &stream.spawn, target)?;
    visit_clause(visitor, &stream.eval, target)?;
    visit_clause(visitor, &stream.close, target)
}

/// Visits the parts of streams that read, in the order of their numbers: of each of its spawn clause, its eval clause and its close clause.
pub fn visit_streams<V: PartVisitor>(
    visitor: &V,
    streams: &[Stream],
    target: &mut V::Target,
) -> Result<(), V::Error>
    requires ready { V.ready visitor.now }
    requires parts { IsTrue (list_all (stream_passes V.may) streams.now) }
    ensures { OnOk result (TakesAll (V.takes visitor.now) (listed_streams parts_of streams.now) target.old target.new) }
{
    for stream in streams {
        visit_stream(visitor, stream, target)?;
    }
    Ok(())
}
