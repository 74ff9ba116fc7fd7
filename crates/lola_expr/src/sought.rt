//! Which instances of a stream a condition may be true for.

ghost use Rattle.std.specs.Prelude.{◌≡◌, ◌<◌, ◌≤◌, Some, true, IfSome, IsSome, IsTrue, length, map, slice_get};
ghost use Rattle.lola_value.specs.Kinds.{are_of_kinds, is_well_formed};
ghost use Rattle.lola_value.specs.Naming.{the_values};
ghost use Rattle.lola_model.specs.Store.{IsRunning, instances_seen, parameters_of};
ghost use Rattle.lola_model.specs.Typing.{can_ask};
ghost use Rattle.lola_expr.specs.Keys.{IsFalseElsewhere, IsFalseForOthers, IsKeyed, all_noted};

use crate::keys::bind;
use lola_model::expr::Expr;
use lola_model::store::{StreamStore, Whereabouts};
use lola_value::value::{Params, Value};

/// The parameters that are bound, if each is.
fn params_bound(bound: &[Option<Value>]) -> Option<Params>
    requires { length bound.now ≤ 4 }
    ensures values { IfSome result (λ p. map Some (the_values p) ≡ bound.now) }
    ensures count { IfSome result (λ p. p.count ≡ length bound.now) }
    ensures places { IfSome result (λ p. IsTrue (is_well_formed p)) }
    ensures told { all_noted bound.now ≡ true → IsSome result }
{
    match bound.split_first() {
        None => Some(Params::none()),
        Some((first, others)) => match *first {
            None => None,
            Some(value) => match params_bound(others) {
                None => None,
                Some(params) => Some(params.led_by(value)),
            },
        },
    }
}

/// The parameters that an instance is to have for a condition to be true, where the condition begins with comparisons of all parameters
/// with something that has a value; else none. The condition is asked for some instance, with these parameters. For each instance that
/// has other parameters it is false, whatever the store stands for. Nothing else is evaluated, and no memory is taken.
pub fn wanted<S: StreamStore>(when: &Expr, params: &Params, store: &S) -> Option<Params>
    requires running { IsRunning (S.seen store.now) }
    requires count { params.now.count ≤ 4 }
    requires asks { IsTrue (can_ask (S.seen store.now) params.now when.now) }
    ensures others { IfSome result (IsFalseForOthers (S.remembers store.now) (S.seen store.now) params.now when.now) }
    ensures places { IfSome result (λ w. IsTrue (is_well_formed w)) }
    ensures told { IsKeyed (S.remembers store.now) (S.seen store.now) params.now when.now → IsSome result }
{
    let mut bound = [None; 4];
    let _is_whole = bind(when, params, store, &mut bound);
    params_bound(&bound[..params.count as usize])
}

/// Where the one instance of a stream stands that a condition may be true for; nothing is said where no parameters are wanted, or where
/// the store has no table of instances. For each instance that stands elsewhere the condition is false.
pub fn whereabouts<S: StreamStore>(
    when: &Expr,
    params: &Params,
    stream: u32,
    store: &S,
) -> Whereabouts
    requires running { IsRunning (S.seen store.now) }
    requires count { params.now.count ≤ 4 }
    requires stream { stream < length (S.seen store.now).layout.streams }
    requires kinds { IsTrue (are_of_kinds (parameters_of (slice_get (S.seen store.now).layout.streams stream)) (the_values params.now)) }
    requires asks { IsTrue (can_ask (S.seen store.now) params.now when.now) }
    ensures { IsFalseElsewhere (S.remembers store.now) (S.seen store.now) params.now when.now (instances_seen (S.seen store.now) stream) result }
{
    match wanted(when, params, store) {
        Some(found) => store.find(stream, &found),
        None => Whereabouts::Unknown,
    }
}
