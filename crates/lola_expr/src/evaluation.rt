//! The outcome of an expression.

ghost use Rattle.std.specs.Prelude.{◌≡◌, ℕ, ◌+◌, ◌<◌, ◌≤◌, List, [], IsTrue, IfOk, IfErr, Ok, Err, false, length, slice_get};
ghost use Rattle.lola_value.specs.Kinds.{is_outcome_of, are_of_kinds, is_text, is_well_formed};
ghost use Rattle.lola_value.specs.Naming.{Naming, IsNaming, AreHeld, IsHeldIn, read_outcome, read_params, the_values};
ghost use Rattle.lola_value.specs.declared.value.Kind.{Kind};
ghost use Rattle.lola_value.specs.declared.value.Kind.TheVariants as kind;
ghost use Rattle.lola_model.specs.Accesses.{answer_of};
ghost use Rattle.lola_model.specs.Content.{Content};
ghost use Rattle.lola_model.specs.Denotation.{den, den_all, kind_of, and_then, negated, chosen, joined, defaulted, with_arguments, window_of};
ghost use Rattle.lola_model.specs.Store.{IsRunning, Stands, kind_in, parameters_of, target_of, pane_of, window_kind};
ghost use Rattle.lola_model.specs.Typing.{can_ask, can_ask_all, noted, noted_all, count_of, is_kept, is_whole_pane, prefix_row, binary_row};
ghost use Rattle.lola_model.specs.declared.plan.Plan.{Plan};
ghost use Rattle.lola_expr.specs.Evaluation.{Sees, IsDenoted, is_named, are_named, is_no_value, value_or_missing};

use crate::access::{read, window};
use crate::operators::{is_decided, negate, operate, truth};
use lola_model::expr::{Access, Arguments, Binary, Expr, Place, Prefix};
use lola_model::store::StreamStore;
use lola_value::value::{Kind, Outcome, Params};

// Each function writes zeros over the room of its values when it is entered. So each sort of expression has a function of its
// own, and an access without arguments one that has no room for parameters that are gathered.

/// The kind that a part notes; `Int64` where it notes none.
pub fn kind_at(place: &Place) -> Kind
    ensures { result ≡ kind_of place.now }
{
    match place.kind {
        Some(kind) => kind,
        None => Kind::Int64,
    }
}

/// The parameter of a number, from 0; missing where there are fewer.
pub fn parameter(params: &Params, number: u32) -> Outcome
    requires { params.now.count ≤ 4 }
    ensures { result ≡ value_or_missing (slice_get (the_values params.now) number) }
{
    match params.get(number) {
        Some(v) => Outcome::Value(v),
        None => Outcome::Missing,
    }
}

/// The outcome of an expression: by its sort.
#[cycle(eval)]
fn evaluate<S: StreamStore>(expr: &Expr, params: &Params, store: &S) -> Outcome
    requires running { IsRunning (S.seen store.now) }
    requires count { params.now.count ≤ 4 }
    requires asks { IsTrue (can_ask (S.seen store.now) params.now expr.now) }
    ensures value { IsDenoted (S.remembers store.now) (S.seen store.now) params.now expr.now result }
    ensures kind { IsTrue (is_outcome_of (noted expr.now) result) }
{
    match expr {
        Expr::Literal(_, v) => Outcome::Value(*v),
        Expr::Parameter(_, number) => parameter(params, *number),
        Expr::Read(_, stream, how, args) => access(*stream, *how, args, params, store),
        Expr::Window(_, number, args) => window_access(*number, args, params, store),
        Expr::Defaults(_, a, b) => or_default(a, b, params, store),
        Expr::Unary(place, operator, a) => with_prefix(place, *operator, a, params, store),
        Expr::Both(place, operator, a, b) => with_operator(place, *operator, a, b, params, store),
        Expr::Choice(_, test, a, b) => choice(test, a, b, params, store),
    }
}

/// `a.defaults(to: b)`: the first, unless it is missing.
#[cycle(eval)]
#[inline(never)]
fn or_default<S: StreamStore>(a: &Expr, b: &Expr, params: &Params, store: &S) -> Outcome
    requires running { IsRunning (S.seen store.now) }
    requires count { params.now.count ≤ 4 }
    requires left { IsTrue (can_ask (S.seen store.now) params.now a.now) }
    requires right { IsTrue (can_ask (S.seen store.now) params.now b.now) }
    ensures value { (plan : Plan) (names : Naming) (c : Content) → Sees plan names c (S.remembers store.now) (S.seen store.now) params.now
        → IsTrue (is_named names plan.spec.texts a.now)
        → IsTrue (is_named names plan.spec.texts b.now)
        → (read_outcome names result ≡ defaulted (den plan.spec c (read_params names params.now) a.now)
        (den plan.spec c (read_params names params.now) b.now)) × IsHeldIn names result }
    ensures kind { (k : Kind) → noted a.now ≡ k → noted b.now ≡ k → IsTrue (is_outcome_of k result) }
{
    let first = evaluate(a, params, store);
    match first {
        Outcome::Missing => evaluate(b, params, store),
        _ => first,
    }
}

/// An operator before an operand.
#[cycle(eval)]
#[inline(never)]
fn with_prefix<S: StreamStore>(
    place: &Place,
    operator: Prefix,
    a: &Expr,
    params: &Params,
    store: &S,
) -> Outcome
    requires running { IsRunning (S.seen store.now) }
    requires count { params.now.count ≤ 4 }
    requires part { IsTrue (can_ask (S.seen store.now) params.now a.now) }
    requires row { IsTrue (prefix_row operator (kind_of place.now) (noted a.now)) }
    ensures value { (plan : Plan) (names : Naming) (c : Content) → Sees plan names c (S.remembers store.now) (S.seen store.now) params.now
        → IsTrue (is_named names plan.spec.texts a.now)
        → (read_outcome names result ≡ and_then (den plan.spec c (read_params names params.now) a.now)
        (λ v. negated operator (kind_of place.now) v)) × IsHeldIn names result }
    ensures kind { IsTrue (is_outcome_of (kind_of place.now) result) }
{
    let operand = evaluate(a, params, store);
    match operand {
        Outcome::Value(v) => negate(operator, kind_at(place), v),
        _ => operand,
    }
}

/// An operator between two operands. The left one is evaluated first, and the right one only where it is needed.
#[cycle(eval)]
#[inline(never)]
fn with_operator<S: StreamStore>(
    place: &Place,
    operator: Binary,
    a: &Expr,
    b: &Expr,
    params: &Params,
    store: &S,
) -> Outcome
    requires running { IsRunning (S.seen store.now) }
    requires count { params.now.count ≤ 4 }
    requires left { IsTrue (can_ask (S.seen store.now) params.now a.now) }
    requires right { IsTrue (can_ask (S.seen store.now) params.now b.now) }
    requires row { IsTrue (binary_row operator (kind_of place.now) (noted a.now) (noted b.now)) }
    ensures value { (plan : Plan) (names : Naming) (c : Content) → Sees plan names c (S.remembers store.now) (S.seen store.now) params.now
        → IsTrue (is_named names plan.spec.texts a.now)
        → IsTrue (is_named names plan.spec.texts b.now)
        → (read_outcome names result ≡ joined operator (kind_of place.now) (den plan.spec c (read_params names params.now) a.now)
        (den plan.spec c (read_params names params.now) b.now)) × IsHeldIn names result }
    ensures kind { IsTrue (is_outcome_of (kind_of place.now) result) }
{
    let left = evaluate(a, params, store);
    match left {
        Outcome::Value(x) => {
            if is_decided(operator, x) {
                return left;
            }
            let right = evaluate(b, params, store);
            match right {
                Outcome::Value(y) => operate(operator, kind_at(place), x, y),
                _ => right,
            }
        }
        _ => left,
    }
}

/// `if test then a else b`, of which one branch is evaluated.
#[cycle(eval)]
#[inline(never)]
fn choice<S: StreamStore>(test: &Expr, a: &Expr, b: &Expr, params: &Params, store: &S) -> Outcome
    requires running { IsRunning (S.seen store.now) }
    requires count { params.now.count ≤ 4 }
    requires test { IsTrue (can_ask (S.seen store.now) params.now test.now) }
    requires left { IsTrue (can_ask (S.seen store.now) params.now a.now) }
    requires right { IsTrue (can_ask (S.seen store.now) params.now b.now) }
    requires test_kind { noted test.now ≡ kind.Bool }
    ensures value { (plan : Plan) (names : Naming) (c : Content) → Sees plan names c (S.remembers store.now) (S.seen store.now) params.now
        → IsTrue (is_named names plan.spec.texts test.now)
        → IsTrue (is_named names plan.spec.texts a.now)
        → IsTrue (is_named names plan.spec.texts b.now)
        → (read_outcome names result ≡ and_then (den plan.spec c (read_params names params.now) test.now)
        (λ t. chosen t (den plan.spec c (read_params names params.now) a.now) (den plan.spec c (read_params names params.now) b.now))) × IsHeldIn names result }
    ensures kind { (k : Kind) → noted a.now ≡ k → noted b.now ≡ k → IsTrue (is_outcome_of k result) }
{
    let tested = evaluate(test, params, store);
    match tested {
        Outcome::Value(v) => {
            if truth(v) {
                evaluate(a, params, store)
            } else {
                evaluate(b, params, store)
            }
        }
        _ => tested,
    }
}

/// An access of a stream without parameters: none are made for it.
#[inline(never)]
pub fn access_plain<S: StreamStore>(stream: u32, how: Access, store: &S) -> Outcome
    requires running { IsRunning (S.seen store.now) }
    requires stream { stream < length (S.seen store.now).layout.streams }
    requires none { parameters_of (slice_get (S.seen store.now).layout.streams stream) ≡ [] }
    requires kept { IsTrue (is_kept (slice_get (S.seen store.now).layout.streams stream) how) }
    ensures value { (names : Naming) (c : Content) → IsNaming names → Stands names (S.remembers store.now) (S.seen store.now) c
        → (read_outcome names result ≡ answer_of c how stream []) × IsHeldIn names result }
    ensures kind { IsTrue (is_outcome_of (kind_in (slice_get (S.seen store.now).layout.streams stream)) result) }
{
    match how {
        Access::Direct => store.now_alone(stream).widen(),
        Access::Get => store.now_alone(stream).widen(),
        Access::Hold => store.newest_alone(stream).widen(),
        Access::Offset(k) => store.back_alone(stream, k).widen(),
    }
}

/// An access of a stream.
#[cycle(eval)]
fn access<S: StreamStore>(
    stream: u32,
    how: Access,
    args: &Arguments,
    params: &Params,
    store: &S,
) -> Outcome
    requires running { IsRunning (S.seen store.now) }
    requires count { params.now.count ≤ 4 }
    requires stream { stream < length (S.seen store.now).layout.streams }
    requires kinds { noted_all args.now ≡ parameters_of (slice_get (S.seen store.now).layout.streams stream) }
    requires few { count_of args.now ≤ 4 }
    requires kept { IsTrue (is_kept (slice_get (S.seen store.now).layout.streams stream) how) }
    requires asks { IsTrue (can_ask_all (S.seen store.now) params.now args.now) }
    ensures value { (plan : Plan) (names : Naming) (c : Content) → Sees plan names c (S.remembers store.now) (S.seen store.now) params.now
        → IsTrue (are_named names plan.spec.texts args.now)
        → (read_outcome names result ≡ with_arguments (den_all plan.spec c (read_params names params.now) args.now)
        (λ q. answer_of c how stream q)) × IsHeldIn names result }
    ensures kind { IsTrue (is_outcome_of (kind_in (slice_get (S.seen store.now).layout.streams stream)) result) }
{
    match args {
        Arguments::End => access_plain(stream, how, store),
        Arguments::More(_, _) => access_of(stream, how, args, params, store),
    }
}

/// An access of the instance that the arguments name.
#[cycle(eval)]
#[inline(never)]
fn access_of<S: StreamStore>(
    stream: u32,
    how: Access,
    args: &Arguments,
    params: &Params,
    store: &S,
) -> Outcome
    requires running { IsRunning (S.seen store.now) }
    requires count { params.now.count ≤ 4 }
    requires stream { stream < length (S.seen store.now).layout.streams }
    requires kinds { noted_all args.now ≡ parameters_of (slice_get (S.seen store.now).layout.streams stream) }
    requires few { count_of args.now ≤ 4 }
    requires kept { IsTrue (is_kept (slice_get (S.seen store.now).layout.streams stream) how) }
    requires asks { IsTrue (can_ask_all (S.seen store.now) params.now args.now) }
    ensures value { (plan : Plan) (names : Naming) (c : Content) → Sees plan names c (S.remembers store.now) (S.seen store.now) params.now
        → IsTrue (are_named names plan.spec.texts args.now)
        → (read_outcome names result ≡ with_arguments (den_all plan.spec c (read_params names params.now) args.now)
        (λ q. answer_of c how stream q)) × IsHeldIn names result }
    ensures kind { IsTrue (is_outcome_of (kind_in (slice_get (S.seen store.now).layout.streams stream)) result) }
{
    match gather(args, params, store) {
        Ok(given) => read(store, stream, how, &given),
        Err(outcome) => outcome,
    }
}

/// A window, over the instance that the arguments name.
#[cycle(eval)]
#[inline(never)]
fn window_access<S: StreamStore>(
    number: u32,
    args: &Arguments,
    params: &Params,
    store: &S,
) -> Outcome
    requires running { IsRunning (S.seen store.now) }
    requires count { params.now.count ≤ 4 }
    requires window { number < length (S.seen store.now).layout.windows }
    requires stream { target_of (slice_get (S.seen store.now).layout.windows number) < length (S.seen store.now).layout.streams }
    requires kinds { noted_all args.now
        ≡ parameters_of (slice_get (S.seen store.now).layout.streams (target_of (slice_get (S.seen store.now).layout.windows number))) }
    requires few { count_of args.now ≤ 4 }
    requires whole { IsTrue (is_whole_pane (S.seen store.now) (pane_of (slice_get (S.seen store.now).layout.panes number))) }
    requires no_text { is_text (window_kind (S.seen store.now) number) ≡ false }
    requires asks { IsTrue (can_ask_all (S.seen store.now) params.now args.now) }
    ensures value { (plan : Plan) (names : Naming) (c : Content) → Sees plan names c (S.remembers store.now) (S.seen store.now) params.now
        → IsTrue (are_named names plan.spec.texts args.now)
        → (read_outcome names result ≡ with_arguments (den_all plan.spec c (read_params names params.now) args.now)
        (λ q. window_of plan.spec c (slice_get plan.spec.windows number) q)) × IsHeldIn names result }
    ensures kind { IsTrue (is_outcome_of (window_kind (S.seen store.now) number) result) }
{
    match gather(args, params, store) {
        Ok(given) => window(store, number, &given),
        Err(outcome) => outcome,
    }
}

/// The values of at most four arguments, or the outcome of the first that has none.
#[cycle(eval)]
fn gather<S: StreamStore>(args: &Arguments, params: &Params, store: &S) -> Result<Params, Outcome>
    requires running { IsRunning (S.seen store.now) }
    requires count { params.now.count ≤ 4 }
    requires few { count_of args.now ≤ 4 }
    requires asks { IsTrue (can_ask_all (S.seen store.now) params.now args.now) }
    ensures kinds { IfOk result (λ p. IsTrue (are_of_kinds (noted_all args.now) (the_values p))) }
    ensures places { IfOk result (λ p. IsTrue (is_well_formed p)) }
    ensures given { IfOk result (λ p. p.count ≡ count_of args.now) }
    ensures ok { IfOk result (λ p. (plan : Plan) (names : Naming) (c : Content) → Sees plan names c (S.remembers store.now) (S.seen store.now) params.now
        → IsTrue (are_named names plan.spec.texts args.now)
        → (den_all plan.spec c (read_params names params.now) args.now ≡ Ok (read_params names p)) × AreHeld names (the_values p)) }
    ensures err { IfErr result (λ o. (plan : Plan) (names : Naming) (c : Content) → Sees plan names c (S.remembers store.now) (S.seen store.now) params.now
        → IsTrue (are_named names plan.spec.texts args.now)
        → (den_all plan.spec c (read_params names params.now) args.now ≡ Err (read_outcome names o)) × IsHeldIn names o) }
    ensures none { IfErr result (λ o. IsTrue (is_no_value o)) }
{
    match args {
        Arguments::End => Ok(Params::none()),
        Arguments::More(a, rest) => {
            let first = evaluate(a, params, store);
            match first {
                Outcome::Value(v) => match gather(rest, params, store) {
                    Ok(given) => Ok(given.led_by(v)),
                    Err(outcome) => Err(outcome),
                },
                _ => Err(first),
            }
        }
    }
}

/// The outcome of an expression, for an instance with these parameters, in the step in which the store is.
///
/// Operands and arguments are evaluated from the left, and the first that has no value is the outcome of the whole; `&&`, `||`,
/// `if` and a default evaluate only what they need (the RTLola language reference). The store is to be ready for all that the
/// expression reads; `law::typed_can_ask` says where it is. A value is one of the expression's kind, whatever the store holds.
pub fn eval<S: StreamStore>(expr: &Expr, params: Params, store: &S) -> Outcome
    requires running { IsRunning (S.seen store.now) }
    requires count { params.count ≤ 4 }
    requires asks { IsTrue (can_ask (S.seen store.now) params expr.now) }
    ensures value { IsDenoted (S.remembers store.now) (S.seen store.now) params expr.now result }
    ensures kind { IsTrue (is_outcome_of (noted expr.now) result) }
{
    evaluate(expr, &params, store)
}
