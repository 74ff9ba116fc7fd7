//! The places of quantities and offsets that are out of range.

ghost use Rattle.std.specs.Prelude.{◌≡◌, ◌++◌, OnOk};
ghost use Rattle.std.specs.List.{flat_map};
ghost use Rattle.lola_names.specs.Specification as range;

use lola_model::spec::{Pace, Places, WrittenRate};
use lola_names_refused::quantities::span;
use lola_parser_grammar::clauses::Part;
use lola_parser_grammar::expressions::{Access, Expr};
use lola_parser_grammar::literals::Quantity;
use lola_parser_grammar::pacing::{Pacing, Rhythm};
use lola_value::text::Memory;

fn access_ranges(how: &Access, to: &mut Places) -> Result<(), Memory>
    ensures { OnOk result (to.new ≡ to.old ++ range.access_ranges how.now) }
{
    match how {
        Access::Offset(_, k, at) if *k == 0 => to.push(*at),
        Access::Window(_, _, over, _) if span(over) == 0 => to.push(over.at),
        _ => Ok(()),
    }
}

#[cycle(expression)]
fn expr_ranges(x: &Expr, to: &mut Places) -> Result<(), Memory>
    ensures { OnOk result (to.new ≡ to.old ++ range.expr_ranges x.now) }
{
    match x {
        Expr::Literal(_) => Ok(()),
        Expr::Reference(_, _, arguments, how) => {
            access_ranges(how, to)?;
            argument_ranges(arguments.as_slice(), to)
        }
        Expr::Defaults(_, x, y) => {
            expr_ranges(x.get(), to)?;
            expr_ranges(y.get(), to)
        }
        Expr::Prefix(_, _, x) => expr_ranges(x.get(), to),
        Expr::Binary(_, _, x, y) => {
            expr_ranges(x.get(), to)?;
            expr_ranges(y.get(), to)
        }
        Expr::If(_, x, y, z) => {
            expr_ranges(x.get(), to)?;
            expr_ranges(y.get(), to)?;
            expr_ranges(z.get(), to)
        }
    }
}

#[cycle(expression)]
fn argument_ranges(xs: &[Expr], to: &mut Places) -> Result<(), Memory>
    ensures { OnOk result (to.new ≡ to.old ++ flat_map range.expr_ranges xs.now) }
{
    for x in xs {
        expr_ranges(x, to)?;
    }
    Ok(())
}

/// Puts the places of what is out of range in an expression behind the others.
pub fn part_ranges(x: &Part, to: &mut Places) -> Result<(), Memory>
    ensures { OnOk result (to.new ≡ to.old ++ range.part_ranges x.now) }
{
    expr_ranges(&x.expr, to)
}

fn rhythm_ranges(x: &Rhythm, resolved: &Pace, to: &mut Places) -> Result<(), Memory>
    ensures { OnOk result (to.new ≡ to.old ++ range.rhythm_ranges x.now resolved.now) }
{
    match (x, resolved) {
        (Rhythm::Rate(q), Pace::Rate(_, WrittenRate::OutOfRange)) => to.push(q.at),
        (Rhythm::Global(q), Pace::Global(_, WrittenRate::OutOfRange)) => to.push(q.at),
        (Rhythm::Local(q), Pace::Local(_, WrittenRate::OutOfRange)) => to.push(q.at),
        _ => Ok(()),
    }
}

/// Puts the place of a pacing's quantity behind the others, where it is resolved to one out of range.
pub fn pacing_ranges(
    x: &Option<Pacing>,
    resolved: &Option<Pace>,
    to: &mut Places,
) -> Result<(), Memory>
    ensures { OnOk result (to.new ≡ to.old ++ range.pacing_ranges x.now resolved.now) }
{
    match (x, resolved) {
        (Some(x), Some(resolved)) => rhythm_ranges(&x.rhythm, resolved, to),
        _ => Ok(()),
    }
}
