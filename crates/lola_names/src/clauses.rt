//! Clauses whose names are resolved.
#![tactic(auto, using(crate::proofs::Growth::grows_none))]

ghost use Rattle.std.specs.Prelude.{◌≡◌, ◌++◌, [], ◌∷◌, Some, None, IfOk, map};
ghost use Rattle.std.specs.Option.{option_copied};
ghost use Rattle.lola_model.specs.Parts.{listed_when, listed_with};
ghost use Rattle.lola_model.specs.Named.{window_number, literal_text};
ghost use Rattle.lola_names.specs.Clauses.{place_before as place_of};
ghost use Rattle.lola_names.specs.Made.{Grows};
ghost use Rattle.lola_names.specs.Making.{GrowsByClause, GrowsByWhen, GrowsByWith, CloseIn, EvalIn, OfPartsIn, PartsIn, SpawnIn, TriggerIn, WhenIn};
ghost use Rattle.lola_parser_grammar.specs.declared.clauses.Part.{Part as TreePart};

use crate::expressions::expression;
use crate::made::Made;
use crate::pacings;
use crate::scope::Scope;
use lola_model::expr::Expr;
use lola_model::spec::{Clause, Exprs, Places};
use lola_parser_grammar::clauses::{Close, Eval, Part, Spawn};
use lola_parser_grammar::declarations::Trigger;
use lola_parser_grammar::pacing::Pacing;
use lola_value::text::Memory;
use std::alloc::Global;
use std::slice::from_ref;

/// A condition, if there is one.
fn condition(
    alloc: Global,
    scope: &Scope,
    x: Option<&Part>,
    made: &mut Made,
) -> Result<Option<Expr>, Memory>
    ensures resolved { IfOk result (λ r. WhenIn scope.now made.new (option_copied x.entry) r) }
    ensures grown { IfOk result (λ r. GrowsByWhen made.old made.new r) }
{
    match x {
        None => Ok(None),
        Some(part) => {
            let resolved = expression(alloc, scope, &part.expr, made)?;
            Ok(Some(resolved))
        }
    }
}

/// The place of the token before a condition.
fn place_before(x: Option<&Part>) -> u32
    ensures { result ≡ place_of (option_copied x.entry) }
{
    match x {
        None => 0,
        Some(part) => part.at,
    }
}

/// Expressions behind `with`.
fn expressions(alloc: Global, scope: &Scope, xs: &[Part], made: &mut Made) -> Result<Exprs, Memory>
    ensures resolved { IfOk result (λ rs. PartsIn scope.now made.new xs.now rs) }
    ensures grown { IfOk result (λ rs. GrowsByWith made.old made.new rs) }
{
    let mut resolved = Exprs::create(alloc);
    for part in xs {
        let next = expression(alloc, scope, &part.expr, made)?;
        resolved.push(next)?;
    }
    Ok(resolved)
}

/// The places of the tokens before them.
fn places(alloc: Global, xs: &[Part]) -> Result<Places, Memory>
    ensures { IfOk result (λ places. places ≡ map (λ (q : TreePart). q.at) xs.now) }
{
    let mut places = Places::create(alloc);
    for part in xs {
        places.push(part.at)?;
    }
    Ok(places)
}

/// The expressions of a clause.
#[derive(Drop)]
struct Body {
    when: Option<Expr>,
    with: Exprs,
}

fn body_of(
    alloc: Global,
    scope: &Scope,
    when: Option<&Part>,
    with: &[Part],
    made: &mut Made,
) -> Result<Body, Memory>
    ensures condition { IfOk result (λ b. WhenIn scope.now made.new (option_copied when.entry) b.when) }
    ensures parts { IfOk result (λ b. PartsIn scope.now made.new with.now b.with) }
    ensures grown { IfOk result (λ b. Grows made.old made.new (listed_when window_number b.when ++ listed_with window_number b.with) (listed_when literal_text b.when ++ listed_with literal_text b.with)) }
{
    let condition = condition(alloc, scope, when, made)?;
    let parts = expressions(alloc, scope, with, made)?;
    Ok(Body {
        when: condition,
        with: parts,
    })
}

/// A clause of these parts.
fn clause(
    alloc: Global,
    scope: &Scope,
    place: u32,
    pacing: &Option<Pacing>,
    when: Option<&Part>,
    with: &[Part],
    made: &mut Made,
) -> Result<Clause, Memory>
    ensures resolved { IfOk result (λ c. OfPartsIn scope.now made.new place pacing.now (option_copied when.entry) with.now c) }
    ensures grown { IfOk result (λ c. GrowsByClause made.old made.new (Some c)) }
{
    let with_at = places(alloc, with)?;
    let pace = pacings::pacing(alloc, scope.targets, pacing)?;
    let body = body_of(alloc, scope, when, with, made)?;
    Ok(Clause {
        place,
        pace,
        when: body.when,
        when_at: place_before(when),
        with: body.with,
        with_at,
    })
}

/// A spawn clause, if there is one.
pub(crate) fn spawn(
    alloc: Global,
    scope: &Scope,
    x: &Option<Spawn>,
    made: &mut Made,
) -> Result<Option<Clause>, Memory>
    ensures resolved { IfOk result (λ c. SpawnIn scope.now made.new x.now c) }
    ensures grown { IfOk result (λ c. GrowsByClause made.old made.new c) }
{
    match x {
        None => Ok(None),
        Some(x) => {
            let with = x.with.as_slice();
            let made = clause(alloc, scope, x.at, &x.pacing, x.when.as_ref(), with, made)?;
            Ok(Some(made))
        }
    }
}

/// An eval clause.
pub(crate) fn eval(
    alloc: Global,
    scope: &Scope,
    x: &Eval,
    made: &mut Made,
) -> Result<Clause, Memory>
    ensures resolved { IfOk result (λ c. EvalIn scope.now made.new x.now c) }
    ensures grown { IfOk result (λ c. GrowsByClause made.old made.new (Some c)) }
{
    let with = from_ref(&x.with);
    let made = clause(alloc, scope, x.at, &x.pacing, x.when.as_ref(), with, made)?;
    Ok(made)
}

/// A close clause, if there is one.
pub(crate) fn close(
    alloc: Global,
    scope: &Scope,
    x: &Option<Close>,
    made: &mut Made,
) -> Result<Option<Clause>, Memory>
    ensures resolved { IfOk result (λ c. CloseIn scope.now made.new x.now c) }
    ensures grown { IfOk result (λ c. GrowsByClause made.old made.new c) }
{
    match x {
        None => Ok(None),
        Some(x) => {
            let made = clause(alloc, scope, x.at, &x.pacing, Some(&x.when), &[], made)?;
            Ok(Some(made))
        }
    }
}

/// The eval clause of a trigger.
pub(crate) fn trigger(
    alloc: Global,
    scope: &Scope,
    x: &Trigger,
    made: &mut Made,
) -> Result<Clause, Memory>
    ensures resolved { IfOk result (λ c. TriggerIn scope.now made.new x.now c) }
    ensures grown { IfOk result (λ c. GrowsByClause made.old made.new (Some c)) }
{
    let with = from_ref(&x.when);
    let made = clause(alloc, scope, x.when.at, &x.pacing, None, with, made)?;
    Ok(made)
}
