//! The keys of a condition, and their values.

ghost use Rattle.std.specs.Prelude.{◌≡◌, ◌<◌, ◌≤◌, [], ◌∷◌, IsTrue, Some, length, slice_get};
ghost use Rattle.lola_value.specs.declared.value.Value.{Value};
ghost use Rattle.lola_model.specs.Store.{IsRunning};
ghost use Rattle.lola_model.specs.Typing.{can_ask};
ghost use Rattle.lola_expr.specs.Keys.{AddsAt, FindsKeys, IsBound, IsCompared, IsKey, IsParameter, Stay, is_and, is_equal, is_keys, is_some_key, key_between, keys_of, own_key};

use crate::evaluation::eval;
use crate::fixed::is_fixed;
use lola_model::expr::{Binary, Expr};
use lola_model::store::StreamStore;
use lola_value::value::{Outcome, Params, Value};

/// The number of the parameter that an expression is.
fn parameter_of(expr: &Expr) -> Option<u32>
    ensures { IsParameter result expr.now }
{
    match expr {
        Expr::Parameter(_, number) => Some(*number),
        _ => None,
    }
}

/// Notes the value that a parameter is compared with, where none is noted yet.
fn note(bound: &mut [Option<Value>], number: u32, value: Value)
    requires { number < length bound.old }
    ensures adds { AddsAt number value bound.old bound.new }
    ensures stays { Stay bound.old bound.new }
    ensures there { (v : Value) × (slice_get bound.new number ≡ Some (Some v)) }
{
    let i = number as usize;
    match bound[i] {
        None => bound[i] = Some(value),
        Some(_) => {}
    }
}

/// Notes the value of a key: of the expression that the parameter of a number is compared with. One in which a parameter stands, or that
/// has no value, is no key.
fn bind_key<S: StreamStore>(
    number: u32,
    expr: &Expr,
    params: &Params,
    store: &S,
    bound: &mut [Option<Value>],
) -> bool
    requires running { IsRunning (S.seen store.now) }
    requires count { params.now.count ≤ 4 }
    requires places { params.now.count ≤ length bound.old }
    requires asks { IsTrue (can_ask (S.seen store.now) params.now expr.now) }
    ensures key { IsKey (S.remembers store.now) (S.seen store.now) params.now number expr.now result bound.old bound.new }
    ensures finds { let keys = own_key params.now.count number expr.now in
        FindsKeys (S.remembers store.now) (S.seen store.now) params.now keys (is_some_key keys) (expr.now ∷ []) result bound.old bound.new }
{
    if number >= params.count as u32 || !is_fixed(expr) {
        return false;
    }
    match eval(expr, *params, store) {
        Outcome::Value(value) => {
            note(bound, number, value);
            true
        }
        Outcome::Missing | Outcome::Fault(_) | Outcome::Poison => false,
    }
}

/// The same of a comparison, of which either side may be the parameter.
fn bind_equal<S: StreamStore>(
    a: &Expr,
    b: &Expr,
    params: &Params,
    store: &S,
    bound: &mut [Option<Value>],
) -> bool
    requires running { IsRunning (S.seen store.now) }
    requires count { params.now.count ≤ 4 }
    requires places { params.now.count ≤ length bound.old }
    requires left { IsTrue (can_ask (S.seen store.now) params.now a.now) }
    requires right { IsTrue (can_ask (S.seen store.now) params.now b.now) }
    ensures compared { IsCompared (S.remembers store.now) (S.seen store.now) params.now a.now b.now result bound.old bound.new }
    ensures finds { let keys = key_between params.now.count a.now b.now in
        FindsKeys (S.remembers store.now) (S.seen store.now) params.now keys (is_some_key keys) (a.now ∷ b.now ∷ []) result bound.old bound.new }
{
    if let Some(number) = parameter_of(a) {
        return bind_key(number, b, params, store, bound);
    }
    match parameter_of(b) {
        Some(number) => bind_key(number, a, params, store, bound),
        None => false,
    }
}

/// Whether an operator joins two conditions of which both have to hold.
fn is_conjunction(operator: Binary) -> bool
    ensures { result ≡ is_and operator }
{
    match operator {
        Binary::And => true,
        _ => false,
    }
}

/// Whether an operator compares for equality.
fn is_equality(operator: Binary) -> bool
    ensures { result ≡ is_equal operator }
{
    match operator {
        Binary::Equal => true,
        _ => false,
    }
}

/// Notes the values of the keys of a condition, which is asked for an instance with these parameters: of each comparison of a
/// parameter with an expression without parameters, as long as what stands before it in the conjunction is such a comparison too, and
/// has a value. Answers whether the whole condition is keys.
#[cycle(bind)]
pub fn bind<S: StreamStore>(
    expr: &Expr,
    params: &Params,
    store: &S,
    bound: &mut [Option<Value>],
) -> bool
    requires running { IsRunning (S.seen store.now) }
    requires count { params.now.count ≤ 4 }
    requires places { params.now.count ≤ length bound.old }
    requires asks { IsTrue (can_ask (S.seen store.now) params.now expr.now) }
    ensures bound { IsBound (S.remembers store.now) (S.seen store.now) params.now expr.now result bound.old bound.new }
    ensures finds { FindsKeys (S.remembers store.now) (S.seen store.now) params.now
        (keys_of params.now.count expr.now) (is_keys params.now.count expr.now) (expr.now ∷ []) result bound.old bound.new }
{
    match expr {
        Expr::Both(_, operator, a, b) => {
            if is_conjunction(*operator) {
                bind(a, params, store, bound) && bind(b, params, store, bound)
            } else if is_equality(*operator) {
                bind_equal(a, b, params, store, bound)
            } else {
                false
            }
        }
        _ => false,
    }
}
