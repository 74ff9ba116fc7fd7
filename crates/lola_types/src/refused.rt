//! What is refused of expressions.
#![tactic(auto, using(crate::proofs::Noted::more_of_none, crate::proofs::Noted::more_of_one, crate::proofs::Noted::more_of_both, crate::proofs::Noted::more_where, crate::proofs::Arguments::fit_first))]

ghost use Rattle.std.specs.Prelude.{◌≡◌, ◌++◌, if◌then◌else◌};
ghost use Rattle.lola_model.specs.Refusals.{earlier};
ghost use Rattle.lola_types.specs.Around.{setting};
ghost use Rattle.lola_types.specs.Found.{found as found_in, found_all, is_broken as is_broken_part, reference_part, some_broken, arguments_fit};
ghost use Rattle.lola_types.specs.Refused.{with_more as and_more, taken as kind_taken, compared as kind_compared, where_it_holds, operand_kind as kind_of_operands, literal_refusals, operator_refusals, free_refusals, taking_refusals, own_refusals, argument_refusals, fitting_refusals, refusals_in, refusals_in_all, wanted_refusals, number_kind as number_kind_of, whole_refusals};

use crate::around::Around;
use crate::found::{self, Found, is_integer, is_signed};
use crate::part::{
    Fitting, behind, fitting_read, fitting_window, parameter, parameters_at, target_parameters,
    window, with_first,
};
use lola_model::expr::{Arguments, Binary, Expr, Prefix};
use lola_model::refusals::Refusals;
use lola_value::arithmetic::range;
use lola_value::front::Code;
use lola_value::value::{Kind, Value};

/// The kind that the free operands of a part take where operands and the part are of one kind.
pub fn taken(whole: Found) -> Option<Kind>
    ensures { result ≡ kind_taken whole }
{
    match whole {
        Found::Of(kind, _) => Some(kind),
        _ => None,
    }
}

/// The kind that the free operands of a comparison take, where its row holds.
fn compared(whole: Found, operands: Found) -> Option<Kind>
    ensures { result ≡ where_it_holds whole (kind_compared operands) }
{
    match operands {
        _ if whole.is_broken() => None,
        Found::Of(kind, _) => Some(kind),
        Found::Free => Some(Kind::Int64),
        _ => None,
    }
}

/// The kind that the free operands of a binary operator take.
pub fn operand_kind(operator: Binary, whole: Found, operands: Found) -> Option<Kind>
    ensures { result ≡ kind_of_operands operator whole operands }
{
    match operator {
        Binary::Add | Binary::Sub | Binary::Mul | Binary::Div | Binary::Rem => taken(whole),
        Binary::And | Binary::Or => None,
        _ => compared(whole, operands),
    }
}

/// A literal takes a kind: a number that the kind does not have is refused.
pub fn take_literal(at: u32, value: Value, kind: Kind, refusals: &mut Refusals)
    ensures { refusals.new ≡ and_more refusals.old (literal_refusals at value kind) }
{
    let (least, greatest) = range(kind);
    if let Value::Int(number) = value {
        if number < least || greatest < number {
            refusals.note(Code::LiteralRange, at);
        }
    }
}

/// A prefix operator takes a kind: a minus is refused where the kind has no negative numbers.
fn take_operator(at: u32, operator: Prefix, kind: Kind, refusals: &mut Refusals)
    ensures { refusals.new ≡ and_more refusals.old (operator_refusals at operator kind) }
{
    if operator == Prefix::Minus && !is_signed(kind) {
        refusals.note(Code::WrongType, at);
    }
}

/// A free part takes a kind, with all free parts in it.
fn take(expr: &Expr, kind: Kind, refusals: &mut Refusals)
    ensures { refusals.new ≡ and_more refusals.old (free_refusals kind expr.now) }
{
    match expr {
        Expr::Literal(place, value) => take_literal(place.at, *value, kind, refusals),
        Expr::Parameter(_, _) | Expr::Read(_, _, _, _) | Expr::Window(_, _, _) => {}
        Expr::Unary(place, operator, a) => {
            take_operator(place.at, *operator, kind, refusals);
            take(a, kind, refusals);
        }
        Expr::Defaults(_, a, b) | Expr::Both(_, _, a, b) | Expr::Choice(_, _, a, b) => {
            take(a, kind, refusals);
            take(b, kind, refusals);
        }
    }
}

/// An operand takes a kind, if there is one and it is free.
pub fn take_if_free(kind: Option<Kind>, part: Found, expr: &Expr, refusals: &mut Refusals)
    ensures { refusals.new ≡ and_more refusals.old (taking_refusals kind part expr.now) }
{
    match kind {
        Some(kind) if part == Found::Free => take(expr, kind, refusals),
        _ => {}
    }
}

/// A part breaks its own row: all its operands have a kind, and it has none.
fn note_own(at: u32, is_broken: bool, whole: Found, refusals: &mut Refusals)
    ensures { refusals.new ≡ and_more refusals.old (own_refusals at is_broken whole) }
{
    if whole.is_broken() && !is_broken {
        refusals.note(Code::WrongType, at);
    }
}

/// Notes what free arguments refuse, where the row of the access holds.
fn note_pending(whole: Found, pending: &Refusals, refusals: &mut Refusals)
    ensures { refusals.new ≡ (if is_broken_part whole then refusals.old else earlier refusals.old pending.now) }
{
    if !whole.is_broken() {
        match pending.first() {
            None => {}
            Some(refusal) => refusals.note(refusal.code, refusal.at),
        }
    }
}

/// Notes what each part of an expression refuses, and says what the whole is.
#[cycle(judge)]
pub fn judge(around: &Around, expr: &Expr, refusals: &mut Refusals) -> Found
    ensures found { result ≡ found_in (setting around.now) expr.now }
    ensures noted { refusals.new ≡ and_more refusals.old (refusals_in (setting around.now) expr.now) }
{
    match expr {
        Expr::Literal(place, value) => found::literal(place.kind, *value),
        Expr::Parameter(_, i) => parameter(around, *i),
        Expr::Read(place, stream, access, arguments) => {
            let wants = parameters_at(around, *stream);
            let part = fitting_read(around, *stream, *access);
            judge_access(around, place.at, part, arguments, wants, refusals)
        }
        Expr::Window(place, number, arguments) => {
            let spec = window(around, *number);
            let wants = target_parameters(around, spec);
            let part = fitting_window(around, spec);
            judge_access(around, place.at, part, arguments, wants, refusals)
        }
        Expr::Defaults(place, a, b) => {
            let first = judge(around, a, refusals);
            let second = judge(around, b, refusals);
            let whole = found::defaults(first, second);
            note_own(
                place.at,
                first.is_broken() || second.is_broken(),
                whole,
                refusals,
            );
            take_if_free(taken(whole), first, a, refusals);
            take_if_free(taken(whole), second, b, refusals);
            whole
        }
        Expr::Unary(place, operator, a) => {
            let first = judge(around, a, refusals);
            let whole = found::prefix(*operator, first);
            note_own(place.at, first.is_broken(), whole, refusals);
            take_if_free(taken(whole), first, a, refusals);
            whole
        }
        Expr::Both(place, operator, a, b) => {
            let first = judge(around, a, refusals);
            let second = judge(around, b, refusals);
            let whole = found::binary(*operator, first, second);
            note_own(
                place.at,
                first.is_broken() || second.is_broken(),
                whole,
                refusals,
            );
            let kind = operand_kind(*operator, whole, first.joint(second));
            take_if_free(kind, first, a, refusals);
            take_if_free(kind, second, b, refusals);
            whole
        }
        Expr::Choice(place, t, a, b) => {
            let test = judge(around, t, refusals);
            let first = judge(around, a, refusals);
            let second = judge(around, b, refusals);
            let whole = found::choice(test, first, second);
            let broken = test.is_broken() || (first.is_broken() || second.is_broken());
            note_own(place.at, broken, whole, refusals);
            take_if_free(taken(whole), first, a, refusals);
            take_if_free(taken(whole), second, b, refusals);
            whole
        }
    }
}

/// The same of an access that is this where its arguments fit parameters of these kinds.
#[cycle(judge)]
fn judge_access(
    around: &Around,
    at: u32,
    part: Found,
    arguments: &Arguments,
    wants: &[Kind],
    refusals: &mut Refusals,
) -> Found
    ensures found { result ≡ reference_part (some_broken (found_all (setting around.now) arguments.now)) (arguments_fit (found_all (setting around.now) arguments.now) wants.now) part }
    ensures noted { refusals.new ≡ and_more refusals.old (refusals_in_all (setting around.now) arguments.now ++ (own_refusals at (some_broken (found_all (setting around.now) arguments.now)) result ++ fitting_refusals (setting around.now) result wants.now arguments.now)) }
{
    let mut pending = Refusals::none();
    let fitting = judge_arguments(around, arguments, wants, refusals, &mut pending);
    let whole = found::reference(fitting.broken, fitting.fits, part);
    note_own(at, fitting.broken, whole, refusals);
    note_pending(whole, &pending, refusals);
    whole
}

/// The same of arguments for parameters of these kinds. What the free ones refuse of these is pending, since they take
/// the kinds only where all arguments fit.
#[cycle(judge)]
fn judge_arguments(
    around: &Around,
    arguments: &Arguments,
    wants: &[Kind],
    refusals: &mut Refusals,
    pending: &mut Refusals,
) -> Fitting
    ensures broken { result.broken ≡ some_broken (found_all (setting around.now) arguments.now) }
    ensures fits { result.fits ≡ arguments_fit (found_all (setting around.now) arguments.now) wants.now }
    ensures noted { refusals.new ≡ and_more refusals.old (refusals_in_all (setting around.now) arguments.now) }
    ensures pending { pending.new ≡ and_more pending.old (argument_refusals (setting around.now) wants.now arguments.now) }
{
    match arguments {
        Arguments::End => Fitting {
            broken: false,
            fits: wants.is_empty(),
        },
        Arguments::More(first, rest) => {
            let want = wants.first().copied();
            let part = judge(around, first, refusals);
            take_if_free(want, part, first, pending);
            let others = judge_arguments(around, rest, behind(wants), refusals, pending);
            with_first(part, want, others)
        }
    }
}
