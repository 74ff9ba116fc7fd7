//! What clauses come to.

ghost use Rattle.std.specs.Prelude.{◌≡◌, ◌≤◌, List, ℕ, [], ◌∷◌, Ok, Err, Some, IfOk, IfErr, IsTrue, length, map};
ghost use Rattle.lola_value.specs.Kinds.{are_of_kinds, is_outcome_of, is_well_formed};
ghost use Rattle.lola_value.specs.Naming.{Naming, AreHeld, IsHeldIn, read_outcome, read_params, the_values};
ghost use Rattle.lola_value.specs.declared.value.Kind.{Kind};
ghost use Rattle.lola_model.specs.Content.{Content};
ghost use Rattle.lola_model.specs.Model.{clause_answer, first_answer, named_params, when_answer, filled_kind};
ghost use Rattle.lola_model.specs.Store.{IsRunning, no_params};
ghost use Rattle.lola_model.specs.Typing.{can_ask, noted};
ghost use Rattle.lola_expr.specs.Plans.{IsCodeOf, IsEvalCode, first_of};
ghost use Rattle.lola_expr.specs.Evaluation.{IsDenoted, Sees, is_no_value};
ghost use Rattle.lola_step_contents.specs.Ready.{AreAskable, HasTexts, IsClauseAskable, IsWhenAskable};
ghost use Rattle.lola_step.specs.Clauses.{IsAnswer, IsSpawning, IsWellNamed, AreExpressions, AreNamed};

use lola_expr::evaluation::eval;
use lola_expr::machine::run;
use lola_expr::plan::{EvalCode, ExprCode};
use lola_model::expr::Expr;
use lola_model::plan::Plan;
use lola_model::spec::{Clause, Stream};
use lola_model::store::StreamStore;
use lola_value::brief::Brief;
use lola_value::short::Short;
use lola_value::value::{FaultKind, Outcome, Params, Value};

/// What a spawn clause asks for.
#[derive(Clone, Copy)]
pub enum Spawning {
    /// Its condition is not true, or a parameter has no value.
    Idle,
    /// An instance with these parameters.
    Named(Params),
    /// Its condition or a parameter has a fault.
    Fault(FaultKind),
    /// Its condition or a parameter is poisoned.
    Poison,
}

/// What an expression comes to, for an instance with these parameters, of which the evaluation takes a copy. It is a function of
/// its own, so that a clause without a condition has no room for one.
#[inline(never)]
fn outcome_of<S: StreamStore>(expr: &Expr, params: &Params, store: &S) -> Outcome
    requires running { IsRunning (S.seen store.now) }
    requires count { params.now.count ≤ 4 }
    requires asks { IsTrue (can_ask (S.seen store.now) params.now expr.now) }
    ensures value { IsDenoted (S.remembers store.now) (S.seen store.now) params.now expr.now result }
    ensures kind { IsTrue (is_outcome_of (noted expr.now) result) }
{
    eval(expr, *params, store)
}

/// What the condition of a clause comes to, for an instance with these parameters; true where it is left out.
fn condition<S: StreamStore>(
    plan: &Plan,
    when: &Option<Expr>,
    params: &Params,
    store: &S,
) -> Outcome
    requires running { IsRunning (S.seen store.now) }
    requires count { params.now.count ≤ 4 }
    requires asks { IsWhenAskable (S.seen store.now) params.now plan.now.spec.texts when.now }
    ensures answer { IsAnswer plan.now (S.remembers store.now) (S.seen store.now) params.now (λ c p. when_answer plan.now.spec c p when.now) result }
{
    match when {
        None => Outcome::Value(Value::Bool(true)),
        Some(expr) => outcome_of(expr, params, store),
    }
}

/// The same of an expression with this code, which is run where there is any.
fn coded_outcome<S: StreamStore>(
    expr: &Expr,
    code: &Option<ExprCode>,
    params: &Params,
    store: &S,
) -> Brief
    requires code { IsCodeOf (Some expr.now) code.now }
    requires running { IsRunning (S.seen store.now) }
    requires count { params.now.count ≤ 4 }
    requires asks { IsTrue (can_ask (S.seen store.now) params.now expr.now) }
    ensures value { IsDenoted (S.remembers store.now) (S.seen store.now) params.now expr.now result }
    ensures kind { IsTrue (is_outcome_of (noted expr.now) result) }
{
    match code {
        Some(code) => run(expr, code.as_slice(), params, store),
        None => Brief::of(outcome_of(expr, params, store)),
    }
}

/// What the condition of a clause comes to that has this code.
fn coded_condition<S: StreamStore>(
    plan: &Plan,
    when: &Option<Expr>,
    code: &Option<ExprCode>,
    params: &Params,
    store: &S,
) -> Brief
    requires code { IsCodeOf when.now code.now }
    requires running { IsRunning (S.seen store.now) }
    requires count { params.now.count ≤ 4 }
    requires asks { IsWhenAskable (S.seen store.now) params.now plan.now.spec.texts when.now }
    ensures answer { IsAnswer plan.now (S.remembers store.now) (S.seen store.now) params.now (λ c p. when_answer plan.now.spec c p when.now) result }
{
    match when {
        None => Brief::create(Short::True),
        Some(expr) => coded_outcome(expr, code, params, store),
    }
}

/// What the first of these expressions comes to, which has this code; missing where there is none.
fn first_outcome<S: StreamStore>(
    plan: &Plan,
    stream: &Stream,
    exprs: &[Expr],
    code: &Option<ExprCode>,
    params: &Params,
    store: &S,
) -> Brief
    requires code { IsCodeOf (first_of exprs.now) code.now }
    requires running { IsRunning (S.seen store.now) }
    requires count { params.now.count ≤ 4 }
    requires asks { AreAskable (S.seen store.now) params.now plan.now.spec.texts (filled_kind stream.now ∷ []) exprs.now }
    ensures kind { IsTrue (is_outcome_of (filled_kind stream.now) result) }
    ensures answer { IsAnswer plan.now (S.remembers store.now) (S.seen store.now) params.now (λ c p. first_answer plan.now.spec c p exprs.now) result }
{
    match exprs.first() {
        Some(expr) => coded_outcome(expr, code, params, store),
        None => Brief::missing(),
    }
}

/// What an eval clause of a stream comes to, for the instance with these parameters: its expression is evaluated where its
/// condition is true. Both have code.
pub(crate) fn instance_outcome<S: StreamStore>(
    plan: &Plan,
    stream: &Stream,
    clause: &Clause,
    code: &EvalCode,
    params: &Params,
    store: &S,
) -> Brief
    requires code { IsEvalCode (Some clause.now) code.now }
    requires running { IsRunning (S.seen store.now) }
    requires count { params.now.count ≤ 4 }
    requires asks { IsClauseAskable (S.seen store.now) params.now plan.now.spec.texts (filled_kind stream.now ∷ []) clause.now }
    ensures kind { IsTrue (is_outcome_of (filled_kind stream.now) result) }
    ensures answer { IsAnswer plan.now (S.remembers store.now) (S.seen store.now) params.now (λ c p. clause_answer plan.now.spec c p clause.now) result }
{
    let tested = coded_condition(plan, &clause.when, &code.when, params, store);
    match tested.widen() {
        Outcome::Value(Value::Bool(true)) => first_outcome(
            plan,
            stream,
            clause.with.as_slice(),
            &code.with,
            params,
            store,
        ),
        Outcome::Value(_) => Brief::missing(),
        _ => tested,
    }
}

/// What the condition of a close clause comes to, for the instance with these parameters: where it is true, the instance is to
/// be closed.
pub(crate) fn close_outcome<S: StreamStore>(
    plan: &Plan,
    clause: &Clause,
    params: &Params,
    store: &S,
) -> Outcome
    requires running { IsRunning (S.seen store.now) }
    requires count { params.now.count ≤ 4 }
    requires asks { IsClauseAskable (S.seen store.now) params.now plan.now.spec.texts [] clause.now }
    ensures answer { IsAnswer plan.now (S.remembers store.now) (S.seen store.now) params.now (λ c p. when_answer plan.now.spec c p clause.now.when) result }
{
    condition(plan, &clause.when, params, store)
}

/// What a spawn clause of a stream asks for. Its condition and its parameters are of no instance; the first of them that has no
/// value decides.
pub(crate) fn spawning_of<S: StreamStore>(
    plan: &Plan,
    stream: &Stream,
    clause: &Clause,
    store: &S,
) -> Spawning
    requires running { IsRunning (S.seen store.now) }
    requires few { length stream.now.parameters ≤ 4 }
    requires named { length clause.now.with ≡ length stream.now.parameters }
    requires asks { IsClauseAskable (S.seen store.now) no_params plan.now.spec.texts stream.now.parameters clause.now }
    ensures asked { IsSpawning plan.now (S.remembers store.now) (S.seen store.now) clause.now result }
    ensures fits { IsWellNamed stream.now.parameters result }
{
    let none = Params::none();
    match condition(plan, &clause.when, &none, store) {
        Outcome::Value(Value::Bool(true)) => named(plan, clause.with.as_slice(), &none, store),
        Outcome::Value(_) => Spawning::Idle,
        Outcome::Missing => Spawning::Idle,
        Outcome::Fault(kind) => Spawning::Fault(kind),
        Outcome::Poison => Spawning::Poison,
    }
}

/// The instance that these expressions name.
fn named<S: StreamStore>(plan: &Plan, exprs: &[Expr], none: &Params, store: &S) -> Spawning
    requires running { IsRunning (S.seen store.now) }
    requires none { none.now ≡ no_params }
    requires few { length exprs.now ≤ 4 }
    requires asks { AreExpressions (S.seen store.now) plan.now.spec.texts exprs.now }
    ensures asked { AreNamed plan.now (S.remembers store.now) (S.seen store.now) exprs.now result }
    ensures fits { IsWellNamed (map noted exprs.now) result }
{
    match gather(plan, exprs, none, store) {
        Ok(params) => Spawning::Named(params),
        Err(Outcome::Fault(kind)) => Spawning::Fault(kind),
        Err(Outcome::Missing) => Spawning::Idle,
        Err(_) => Spawning::Poison,
    }
}

/// The values of at most four expressions, or the outcome of the first that has none.
fn gather<S: StreamStore>(
    plan: &Plan,
    exprs: &[Expr],
    none: &Params,
    store: &S,
) -> Result<Params, Outcome>
    requires running { IsRunning (S.seen store.now) }
    requires none { none.now ≡ no_params }
    requires few { length exprs.now ≤ 4 }
    requires asks { AreExpressions (S.seen store.now) plan.now.spec.texts exprs.now }
    ensures kinds { IfOk result (λ p. IsTrue (are_of_kinds (map noted exprs.now) (the_values p))) }
    ensures places { IfOk result (λ p. IsTrue (is_well_formed p)) }
    ensures given { IfOk result (λ p. p.count ≡ length exprs.now) }
    ensures ok { IfOk result (λ p. (names : Naming) (c : Content) → Sees plan.now names c (S.remembers store.now) (S.seen store.now) no_params
        → HasTexts names plan.now.spec.texts
        → (named_params plan.now.spec c exprs.now ≡ Ok (read_params names p)) × AreHeld names (the_values p)) }
    ensures err { IfErr result (λ o. (names : Naming) (c : Content) → Sees plan.now names c (S.remembers store.now) (S.seen store.now) no_params
        → HasTexts names plan.now.spec.texts
        → named_params plan.now.spec c exprs.now ≡ Err (read_outcome names o)) }
    ensures none { IfErr result (λ o. IsTrue (is_no_value o)) }
{
    match exprs.split_first() {
        None => Ok(Params::none()),
        Some((expr, others)) => {
            let first = outcome_of(expr, none, store);
            match first {
                Outcome::Value(v) => match gather(plan, others, none, store) {
                    Ok(given) => Ok(given.led_by(v)),
                    Err(outcome) => Err(outcome),
                },
                _ => Err(first),
            }
        }
    }
}
