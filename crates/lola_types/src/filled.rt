//! Expressions with their kinds filled in.
#![tactic(auto, using(crate::proofs::SameLemmas::same_filled_if_free, crate::proofs::Arguments::fit_first))]

ghost use Rattle.std.specs.Prelude.{◌≡◌, ◌||◌, ◌&&◌, IfOk};
ghost use Rattle.lola_types.specs.Around.{setting};
ghost use Rattle.lola_types.specs.Found.{found as found_in, found_all, joint, defaults_part, prefix_part, binary_part, choice_part, is_broken, is_fitting, some_broken, arguments_fit};
ghost use Rattle.lola_types.specs.Refused.{taken as kind_taken, operand_kind as kind_of_operands};
ghost use Rattle.lola_types.specs.Filled.{note_part, given_kind, filled_if_free, filled, filled_all, SameTree, SameArguments};
ghost use Rattle.lola_types.specs.Assembled.{IsDefaults, IsUnary, IsBoth, IsChoice, IsMore};

use crate::around::Around;
use crate::found::{self, Found};
use crate::part::{
    Fitting, behind, fitting_read, fitting_window, parameter, parameters_at, target_parameters,
    window, with_first,
};
use crate::refused::{operand_kind, taken};
use lola_model::expr::{Arguments, Binary, Expr, Place, Prefix};
use lola_value::text::Memory;
use lola_value::value::Kind;
use std::alloc::Global;

/// Notes the kind of a part, if it has one of its own.
fn noted(place: Place, part: Found) -> Place
    ensures { result ≡ note_part place part }
{
    match part {
        Found::Of(kind, _) => Place {
            at: place.at,
            kind: Some(kind),
        },
        _ => place,
    }
}

/// Gives a free part, and the free parts in it, the kind that it takes.
fn give_kind(expr: &mut Expr, kind: Kind)
    ensures { expr.new ≡ given_kind kind expr.old }
{
    match expr {
        Expr::Literal(place, _) => place.kind = Some(kind),
        Expr::Parameter(_, _) | Expr::Read(_, _, _, _) | Expr::Window(_, _, _) => {}
        Expr::Unary(place, _, a) => {
            place.kind = Some(kind);
            give_kind(a, kind);
        }
        Expr::Defaults(place, a, b) => {
            place.kind = Some(kind);
            give_kind(a, kind);
            give_kind(b, kind);
        }
        Expr::Both(place, _, a, b) => {
            place.kind = Some(kind);
            give_kind(a, kind);
            give_kind(b, kind);
        }
        Expr::Choice(place, _, a, b) => {
            place.kind = Some(kind);
            give_kind(a, kind);
            give_kind(b, kind);
        }
    }
}

/// Gives an operand the kind that it takes, if there is one and it is free.
pub fn fill_if_free(kind: Option<Kind>, part: Found, expr: &mut Expr)
    ensures { expr.new ≡ filled_if_free kind part expr.old }
{
    match kind {
        Some(kind) if part == Found::Free => give_kind(expr, kind),
        _ => {}
    }
}

/// An expression with its kinds filled in, and what it is.
#[derive(Drop)]
pub struct Filled {
    pub expr: Expr,
    pub part: Found,
}

/// Arguments with their kinds filled in, and what they are together.
#[derive(Drop)]
pub struct FilledArguments {
    pub arguments: Arguments,
    pub fitting: Fitting,
}

/// A box with an operand, which takes this kind if there is one and it is free.
fn boxed(alloc: Global, kind: Option<Kind>, operand: Filled) -> Result<Box<Expr>, Memory>
    ensures { IfOk result (λ b. b.value ≡ filled_if_free kind operand.part operand.expr) }
{
    let mut expr = operand.expr;
    fill_if_free(kind, operand.part, &mut expr);
    Ok(Box::new(alloc, expr)?)
}

/// An expression with another in its place where it has no value, over operands with their kinds filled in.
fn defaults(alloc: Global, place: Place, first: Filled, second: Filled) -> Result<Filled, Memory>
    ensures tree { IfOk result (λ f. IsDefaults (note_part place f.part) (kind_taken f.part) first second f.expr) }
    ensures part { IfOk result (λ f. f.part ≡ defaults_part first.part second.part) }
{
    let part = found::defaults(first.part, second.part);
    let a = boxed(alloc, taken(part), first)?;
    let b = boxed(alloc, taken(part), second)?;
    let expr = Expr::Defaults(noted(place, part), a, b);
    Ok(Filled { expr, part })
}

/// An operator before its operand, whose kinds are filled in.
fn unary(alloc: Global, place: Place, operator: Prefix, operand: Filled) -> Result<Filled, Memory>
    ensures tree { IfOk result (λ f. IsUnary (note_part place f.part) operator (kind_taken f.part) operand f.expr) }
    ensures part { IfOk result (λ f. f.part ≡ prefix_part operator operand.part) }
{
    let part = found::prefix(operator, operand.part);
    let a = boxed(alloc, taken(part), operand)?;
    let expr = Expr::Unary(noted(place, part), operator, a);
    Ok(Filled { expr, part })
}

/// An operator between its operands, whose kinds are filled in.
fn both(
    alloc: Global,
    place: Place,
    operator: Binary,
    first: Filled,
    second: Filled,
) -> Result<Filled, Memory>
    ensures tree { IfOk result (λ f. IsBoth (note_part place f.part) operator (kind_of_operands operator f.part (joint first.part second.part)) first second f.expr) }
    ensures part { IfOk result (λ f. f.part ≡ binary_part operator first.part second.part) }
{
    let part = found::binary(operator, first.part, second.part);
    let kind = operand_kind(operator, part, first.part.joint(second.part));
    let a = boxed(alloc, kind, first)?;
    let b = boxed(alloc, kind, second)?;
    let expr = Expr::Both(noted(place, part), operator, a, b);
    Ok(Filled { expr, part })
}

/// A condition with what holds where it is true and where it is false, their kinds filled in.
fn choice(
    alloc: Global,
    place: Place,
    test: Filled,
    first: Filled,
    second: Filled,
) -> Result<Filled, Memory>
    ensures tree { IfOk result (λ f. IsChoice (note_part place f.part) (kind_taken f.part) test first second f.expr) }
    ensures part { IfOk result (λ f. f.part ≡ choice_part test.part first.part second.part) }
{
    let part = found::choice(test.part, first.part, second.part);
    let t = boxed(alloc, None, test)?;
    let a = boxed(alloc, taken(part), first)?;
    let b = boxed(alloc, taken(part), second)?;
    let expr = Expr::Choice(noted(place, part), t, a, b);
    Ok(Filled { expr, part })
}

/// An argument for a parameter of this kind before other arguments, their kinds filled in.
fn more(
    alloc: Global,
    want: Option<Kind>,
    argument: Filled,
    others: FilledArguments,
) -> Result<FilledArguments, Memory>
    ensures tree { IfOk result (λ f. IsMore want argument others.arguments f.arguments) }
    ensures broken { IfOk result (λ f. f.fitting.broken ≡ (is_broken argument.part || others.fitting.broken)) }
    ensures fits { IfOk result (λ f. f.fitting.fits ≡ (is_fitting argument.part want && others.fitting.fits)) }
{
    let fitting = with_first(argument.part, want, others.fitting);
    let rest = Box::new(alloc, others.arguments)?;
    let first = boxed(alloc, want, argument)?;
    let arguments = Arguments::More(first, rest);
    Ok(FilledArguments { arguments, fitting })
}

/// An expression with its kinds filled in, and what it is. A free part takes its kind from what is around it.
#[cycle(fill)]
pub fn fill(alloc: Global, around: &Around, expr: &Expr) -> Result<Filled, Memory>
    ensures tree { IfOk result (λ f. SameTree (filled (setting around.now) expr.now) f.expr) }
    ensures part { IfOk result (λ f. f.part ≡ found_in (setting around.now) expr.now) }
{
    match expr {
        Expr::Literal(place, value) => {
            let part = found::literal(place.kind, *value);
            let expr = Expr::Literal(noted(*place, part), *value);
            Ok(Filled { expr, part })
        }
        Expr::Parameter(place, i) => {
            let part = parameter(around, *i);
            let expr = Expr::Parameter(noted(*place, part), *i);
            Ok(Filled { expr, part })
        }
        Expr::Read(place, stream, access, arguments) => {
            let wants = parameters_at(around, *stream);
            let filled = fill_arguments(alloc, around, arguments, wants)?;
            let read = fitting_read(around, *stream, *access);
            let part = found::reference(filled.fitting.broken, filled.fitting.fits, read);
            let expr = Expr::Read(noted(*place, part), *stream, *access, filled.arguments);
            Ok(Filled { expr, part })
        }
        Expr::Window(place, number, arguments) => {
            let spec = window(around, *number);
            let wants = target_parameters(around, spec);
            let filled = fill_arguments(alloc, around, arguments, wants)?;
            let read = fitting_window(around, spec);
            let part = found::reference(filled.fitting.broken, filled.fitting.fits, read);
            let expr = Expr::Window(noted(*place, part), *number, filled.arguments);
            Ok(Filled { expr, part })
        }
        Expr::Defaults(place, a, b) => {
            let first = fill(alloc, around, a)?;
            let second = fill(alloc, around, b)?;
            defaults(alloc, *place, first, second)
        }
        Expr::Unary(place, operator, a) => {
            let operand = fill(alloc, around, a)?;
            unary(alloc, *place, *operator, operand)
        }
        Expr::Both(place, operator, a, b) => {
            let first = fill(alloc, around, a)?;
            let second = fill(alloc, around, b)?;
            both(alloc, *place, *operator, first, second)
        }
        Expr::Choice(place, t, a, b) => {
            let test = fill(alloc, around, t)?;
            let first = fill(alloc, around, a)?;
            let second = fill(alloc, around, b)?;
            choice(alloc, *place, test, first, second)
        }
    }
}

/// Arguments with their kinds filled in, for parameters of these kinds.
#[cycle(fill)]
fn fill_arguments(
    alloc: Global,
    around: &Around,
    arguments: &Arguments,
    wants: &[Kind],
) -> Result<FilledArguments, Memory>
    ensures tree { IfOk result (λ f. SameArguments (filled_all (setting around.now) wants.now arguments.now) f.arguments) }
    ensures broken { IfOk result (λ f. f.fitting.broken ≡ some_broken (found_all (setting around.now) arguments.now)) }
    ensures fits { IfOk result (λ f. f.fitting.fits ≡ arguments_fit (found_all (setting around.now) arguments.now) wants.now) }
{
    match arguments {
        Arguments::End => Ok(FilledArguments {
            arguments: Arguments::End,
            fitting: Fitting {
                broken: false,
                fits: wants.is_empty(),
            },
        }),
        Arguments::More(first, rest) => {
            let want = wants.first().copied();
            let others = fill_arguments(alloc, around, rest, behind(wants))?;
            let argument = fill(alloc, around, first)?;
            more(alloc, want, argument, others)
        }
    }
}
