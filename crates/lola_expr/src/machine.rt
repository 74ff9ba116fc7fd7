//! The machine that runs code: it has one outcome in hand, and the values of operands and arguments on a stack.

ghost use Rattle.std.specs.Prelude.{◌≡◌, ◌≤◌, [], drop, length, slice_get, true, false, IfSome, IsTrue};
ghost use Rattle.lola_value.specs.Kinds.{is_outcome_of};
ghost use Rattle.lola_value.specs.Naming.{the_values};
ghost use Rattle.lola_model.specs.Store.{IsRunning};
ghost use Rattle.lola_model.specs.Typing.{can_ask, noted};
ghost use Rattle.lola_expr.specs.Evaluation.{IsDenoted, value_or_missing};
ghost use Rattle.lola_expr.specs.Code.{code_of};
ghost use Rattle.lola_expr.specs.Machine.{or_short, Operates};
ghost use Rattle.lola_expr.specs.Operands.{operands_fit};
ghost use Rattle.lola_value.specs.Shorts.{has_value, value_in, widened};

use crate::asking::{read_at, read_back, read_newest, read_now, window_at};
use crate::evaluation::{eval, parameter};
use crate::instr::Instr;
use crate::short_operators::{joined, prefixed};
use crate::stack::Stack;
use crate::tested::is_true;
use lola_model::expr::{Binary, Expr};
use lola_model::store::StreamStore;
use lola_value::brief::Brief;
use lola_value::short::{Short, is_value, short_outcome};
use lola_value::value::{Kind, Params};

/// What is left of the code behind so many instructions.
#[tactic(auto, using(crate::proofs::Steps::drop_shorter))]
fn past(code: &[Instr], count: usize) -> &[Instr]
    ensures rest { result.now ≡ drop count code.now }
    ensures shorter { length result.now ≤ length code.now }
{
    match code.get(count..) {
        Some(rest) => rest,
        None => &[],
    }
}

/// The outcome, or a value where it is missing.
#[inline(always)]
fn or_given(o: Short, v: Short) -> Short
    ensures { widened result ≡ or_short (widened o) v }
{
    match o {
        Short::Missing => v,
        _ => o,
    }
}

/// The parameter of a number. None where that is a number that no kind has. It is a function of its own, so that the machine has no
/// registers for the places of parameters.
#[inline(never)]
fn given(params: &Params, number: u32) -> Option<Short>
    requires { params.now.count ≤ 4 }
    ensures { IfSome result (λ r. widened r ≡ value_or_missing (slice_get (the_values params.now) number)) }
{
    short_outcome(parameter(params, number))
}

/// What an operator between a value and a right operand gives: the right operand itself where that is no value.
#[inline(always)]
fn joined_with(operator: Binary, kind: Kind, left: Short, right: Short) -> Short
    requires { has_value right ≡ true → operands_fit operator kind (value_in left) (value_in right) ≡ true }
    ensures value { has_value right ≡ true → Operates operator kind (value_in left) (value_in right) (widened result) }
    ensures none { has_value right ≡ false → widened result ≡ widened right }
{
    if is_value(right) {
        joined(operator, kind, left, right)
    } else {
        right
    }
}

/// Takes so many values off the stack, and lets go of them.
fn let_go(stack: &mut Stack, count: u32)
    ensures rest { stack.new ≡ drop count stack.old }
{
    let mut left = count;
    while left > 0 {
        left -= 1;
        let _value = stack.pop();
    }
}

// Runs the code of an expression, with nothing on the stack: the outcome is one that the evaluation of the expression may have. It takes
// no memory. None where the stack has no room, or where a literal or a parameter is a number that no kind has.
fn run_code<S: StreamStore>(
    _expr: &Expr,
    code: &[Instr],
    params: &Params,
    store: &S,
) -> Option<Brief>
    requires code { code.now ≡ code_of _expr.now }
    requires running { IsRunning (S.seen store.now) }
    requires count { params.now.count ≤ 4 }
    requires asks { IsTrue (can_ask (S.seen store.now) params.now _expr.now) }
    ensures value { IfSome result (IsDenoted (S.remembers store.now) (S.seen store.now) params.now _expr.now) }
    ensures kind { IfSome result (λ o. IsTrue (is_outcome_of (noted _expr.now) o)) }
{
    let mut stack = Stack::create();
    let mut code = code;
    let mut hand = Short::Missing;
    'run: while let Some((instr, rest)) = code.split_first() {
        code = rest;
        match instr {
            Instr::Give(v) => hand = *v,
            Instr::Leave => return None,
            Instr::Parameter(number) => match given(params, *number) {
                Some(made) => hand = made,
                None => return None,
            },
            Instr::ReadNow(stream) => hand = read_now(store, *stream),
            Instr::ReadNewest(stream) => hand = read_newest(store, *stream),
            Instr::ReadBack(stream, k) => hand = read_back(store, *stream, *k),
            Instr::ReadNowOr(stream, v) => hand = or_given(read_now(store, *stream), *v),
            Instr::ReadNewestOr(stream, v) => hand = or_given(read_newest(store, *stream), *v),
            Instr::ReadBackOr(stream, k, v) => hand = or_given(read_back(store, *stream, *k), *v),
            Instr::ReadAt(stream, how, count) => {
                hand = read_at(store, *stream, *how, &mut stack, *count);
            }
            Instr::Window(number, count) => hand = window_at(store, *number, &mut stack, *count),
            Instr::Keep(n) => {
                if is_value(hand) {
                    if !stack.push(hand) {
                        return None;
                    }
                } else {
                    code = past(code, *n);
                }
            }
            Instr::KeepArgument(n, count) => {
                if is_value(hand) {
                    if !stack.push(hand) {
                        return None;
                    }
                } else {
                    let_go(&mut stack, *count);
                    code = past(code, *n);
                }
            }
            Instr::Prefix(operator, kind) => {
                if is_value(hand) {
                    hand = prefixed(*operator, *kind, hand);
                }
            }
            Instr::Operator(operator, kind) => match stack.pop() {
                Some(left) => hand = joined_with(*operator, *kind, left, hand),
                None => {}
            },
            Instr::OperatorGiven(operator, kind, v) => {
                if is_value(hand) {
                    hand = joined(*operator, *kind, hand, *v);
                }
            }
            Instr::OperatorNowOr(operator, kind, stream, v) => {
                if is_value(hand) {
                    let right = or_given(read_now(store, *stream), *v);
                    hand = joined_with(*operator, *kind, hand, right);
                }
            }
            Instr::OperatorNewestOr(operator, kind, stream, v) => {
                if is_value(hand) {
                    let right = or_given(read_newest(store, *stream), *v);
                    hand = joined_with(*operator, *kind, hand, right);
                }
            }
            Instr::OperatorBackOr(operator, kind, stream, k, v) => {
                if is_value(hand) {
                    let right = or_given(read_back(store, *stream, *k), *v);
                    hand = joined_with(*operator, *kind, hand, right);
                }
            }
            Instr::OperatorNow(operator, kind, stream) => {
                if is_value(hand) {
                    let right = read_now(store, *stream);
                    hand = joined_with(*operator, *kind, hand, right);
                }
            }
            Instr::Otherwise(n) => match hand {
                Short::Missing => {}
                _ => code = past(code, *n),
            },
            Instr::WhereTrue(n) => {
                if !is_true(hand) {
                    code = past(code, *n);
                }
            }
            Instr::WhereFalse(n) => {
                if is_value(hand) {
                    if is_true(hand) {
                        code = past(code, *n);
                    }
                } else {
                    code = past(code, *n);
                }
            }
            Instr::Test(n, more) => {
                if is_value(hand) {
                    if !is_true(hand) {
                        code = past(code, *n);
                    }
                } else {
                    code = past(code, *more);
                }
            }
            Instr::Jump(n) => code = past(code, *n),
        }
    }
    Some(Brief::create(hand))
}

/// What an expression comes to, whose code this is, for an instance with these parameters: the code is run, or the expression evaluated
/// (`crate::evaluation::eval`) where the code wants more room than there is. It takes no memory and always has an outcome.
pub fn run<S: StreamStore>(expr: &Expr, code: &[Instr], params: &Params, store: &S) -> Brief
    requires code { code.now ≡ code_of expr.now }
    requires running { IsRunning (S.seen store.now) }
    requires count { params.now.count ≤ 4 }
    requires asks { IsTrue (can_ask (S.seen store.now) params.now expr.now) }
    ensures value { IsDenoted (S.remembers store.now) (S.seen store.now) params.now expr.now result }
    ensures kind { IsTrue (is_outcome_of (noted expr.now) result) }
{
    match run_code(expr, code, params, store) {
        Some(outcome) => outcome,
        None => Brief::of(eval(expr, *params, store)),
    }
}
