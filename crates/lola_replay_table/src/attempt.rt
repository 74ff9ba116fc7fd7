//! The outcome of an expression, of what is known; or the first question that it waits for.

ghost use Rattle.std.specs.Prelude.{◌≡◌, ℕ, List, Ok, Some, map, slice_get};
ghost use Rattle.lola_value.specs.declared.text.Field.{Field};
ghost use Rattle.lola_model.specs.Denotation.{given_or_missing, kind_of, literal, negated};
ghost use Rattle.lola_replay_table.specs.Answers.{the_answer, the_field};
ghost use Rattle.lola_replay_table.specs.Scenes.{read_by, tried_all_at, tried_at, window_by};
ghost use Rattle.lola_replay_table.specs.Tries.{Gives, GivesAll, LedBy, on_arguments, then_branch, then_default, then_right, then_value};

use crate::answer::{LentAnswer, LentField, lend};
use crate::operators::{is_decided, negate, operate};
use crate::question::Unanswered;
use crate::read::read;
use crate::scene::Scene;
use crate::window::window;
use lola_model::expr::{Access, Arguments, Binary, Expr, Place, Prefix};
use lola_model::spec::Spec;
use lola_value::text::Field;
use lola_value::value::{Kind, Value};

// The kind that a part notes; `Int64` where it notes none.
fn kind_at(place: &Place) -> Kind
    ensures { result ≡ kind_of place.now }
{
    place.kind.unwrap_or(Kind::Int64)
}

// A literal; texts stand in the specification's list.
fn literal<'a>(spec: &'a Spec, value: &Value) -> LentField<'a>
    ensures { the_field result ≡ literal spec.now.texts value.now }
{
    match value {
        Value::Bool(b) => LentField::Bool(*b),
        Value::Int(z) => LentField::Int(*z),
        Value::Text(id) => match spec.texts.as_slice().get(id.0 as usize) {
            Some(text) => LentField::Text(text.as_bytes()),
            None => LentField::Absent,
        },
    }
}

// A parameter of the instance; missing where there are fewer.
fn parameter(params: &[Field], number: u32) -> LentAnswer<'_>
    ensures { the_answer result ≡ given_or_missing (slice_get params.now number) }
{
    match params.get(number as usize) {
        Some(field) => LentAnswer::Given(lend(field)),
        None => LentAnswer::Missing,
    }
}

/// The outcome of an expression for an instance with these parameters: by its sort.
#[cycle(attempt)]
pub fn attempt<'a>(
    scene: &Scene<'a>,
    params: &'a [Field],
    expr: &'a Expr,
) -> Result<LentAnswer<'a>, Unanswered>
    ensures { Gives (tried_at scene.now params.now expr.now) result }
{
    match expr {
        Expr::Literal(_, v) => Ok(LentAnswer::Given(literal(&scene.plan.spec, v))),
        Expr::Parameter(_, number) => Ok(parameter(params, *number)),
        Expr::Read(_, stream, how, args) => access(scene, params, *how, *stream, args),
        Expr::Window(_, number, args) => window_access(scene, params, *number, args),
        Expr::Defaults(_, a, b) => or_default(scene, params, a, b),
        Expr::Unary(place, operator, a) => with_prefix(scene, params, place, *operator, a),
        Expr::Both(place, operator, a, b) => with_operator(scene, params, place, *operator, a, b),
        Expr::Choice(_, test, a, b) => choice(scene, params, test, a, b),
    }
}

// The first, unless it is missing.
#[cycle(attempt)]
fn or_default<'a>(
    scene: &Scene<'a>,
    params: &'a [Field],
    a: &'a Expr,
    b: &'a Expr,
) -> Result<LentAnswer<'a>, Unanswered>
    ensures { Gives (then_default (tried_at scene.now params.now a.now)
        (tried_at scene.now params.now b.now)) result }
{
    let first = attempt(scene, params, a)?;
    match first {
        LentAnswer::Missing => attempt(scene, params, b),
        _ => Ok(first),
    }
}

// An operator before an operand.
#[cycle(attempt)]
fn with_prefix<'a>(
    scene: &Scene<'a>,
    params: &'a [Field],
    place: &Place,
    operator: Prefix,
    a: &'a Expr,
) -> Result<LentAnswer<'a>, Unanswered>
    ensures { Gives (then_value (tried_at scene.now params.now a.now)
        (λ v. Ok (negated operator (kind_of place.now) v))) result }
{
    let operand = attempt(scene, params, a)?;
    match operand {
        LentAnswer::Given(v) => Ok(negate(operator, kind_at(place), v)),
        _ => Ok(operand),
    }
}

// An operator between two operands. The right one is evaluated only where it is needed.
#[cycle(attempt)]
fn with_operator<'a>(
    scene: &Scene<'a>,
    params: &'a [Field],
    place: &Place,
    operator: Binary,
    a: &'a Expr,
    b: &'a Expr,
) -> Result<LentAnswer<'a>, Unanswered>
    ensures { Gives (then_value (tried_at scene.now params.now a.now)
        (λ x. then_right operator (kind_of place.now) x (tried_at scene.now params.now b.now))) result }
{
    let left = attempt(scene, params, a)?;
    match left {
        LentAnswer::Given(x) => {
            if is_decided(operator, x) {
                return Ok(left);
            }
            let right = attempt(scene, params, b)?;
            match right {
                LentAnswer::Given(y) => Ok(operate(operator, kind_at(place), x, y)),
                _ => Ok(right),
            }
        }
        _ => Ok(left),
    }
}

// `if test then a else b`, of which one branch is evaluated.
#[cycle(attempt)]
fn choice<'a>(
    scene: &Scene<'a>,
    params: &'a [Field],
    test: &'a Expr,
    a: &'a Expr,
    b: &'a Expr,
) -> Result<LentAnswer<'a>, Unanswered>
    ensures { Gives (then_value (tried_at scene.now params.now test.now)
        (λ t. then_branch t (tried_at scene.now params.now a.now)
        (tried_at scene.now params.now b.now))) result }
{
    let tested = attempt(scene, params, test)?;
    match tested {
        LentAnswer::Given(LentField::Bool(true)) => attempt(scene, params, a),
        LentAnswer::Given(_) => attempt(scene, params, b),
        _ => Ok(tested),
    }
}

// An access of the instance that the arguments name.
#[cycle(attempt)]
fn access<'a>(
    scene: &Scene<'a>,
    params: &'a [Field],
    how: Access,
    stream: u32,
    args: &'a Arguments,
) -> Result<LentAnswer<'a>, Unanswered>
    ensures { Gives (on_arguments (tried_all_at scene.now params.now args.now)
        (λ q. read_by scene.now how stream q)) result }
{
    match gather(scene, params, args)? {
        Ok(given) => read(how, stream, given.as_slice(), scene.known),
        Err(outcome) => Ok(outcome),
    }
}

// A window over the instance that the arguments name.
#[cycle(attempt)]
fn window_access<'a>(
    scene: &Scene<'a>,
    params: &'a [Field],
    number: u32,
    args: &'a Arguments,
) -> Result<LentAnswer<'a>, Unanswered>
    ensures { Gives (on_arguments (tried_all_at scene.now params.now args.now)
        (λ q. window_by scene.now number q)) result }
{
    match gather(scene, params, args)? {
        Ok(given) => window(
            &scene.plan.spec,
            number,
            &scene.moment,
            given.as_slice(),
            scene.known,
        ),
        Err(outcome) => Ok(outcome),
    }
}

// The values of the arguments, or the outcome of the first that has none.
#[cycle(attempt)]
fn gather<'a>(
    scene: &Scene<'a>,
    params: &'a [Field],
    args: &'a Arguments,
) -> Result<Result<Vec<LentField<'a>>, LentAnswer<'a>>, Unanswered>
    ensures { GivesAll (tried_all_at scene.now params.now args.now) result }
{
    match args {
        Arguments::End => Ok(Ok(Vec::new(scene.alloc))),
        Arguments::More(a, rest) => {
            let first = attempt(scene, params, a)?;
            match first {
                LentAnswer::Given(v) => {
                    let others = gather(scene, params, rest)?;
                    led_by(v, others)
                }
                _ => Ok(Err(first)),
            }
        }
    }
}

/// A value in front of those of the arguments behind it.
pub fn led_by<'a>(
    first: LentField<'a>,
    others: Result<Vec<LentField<'a>>, LentAnswer<'a>>,
) -> Result<Result<Vec<LentField<'a>>, LentAnswer<'a>>, Unanswered>
    ensures { LedBy (the_field first.entry) others.entry result }
{
    match others {
        Ok(mut given) => {
            match given.insert(0, first) {
                Ok(()) => Ok(Ok(given)),
                Err(_) => Err(Unanswered::Memory),
            }
        }
        Err(outcome) => Ok(Err(outcome)),
    }
}
