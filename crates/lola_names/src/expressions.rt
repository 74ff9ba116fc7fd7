//! Expressions resolved.
#![tactic(auto, using(crate::proofs::Growth::grows_none))]

ghost use Rattle.std.specs.Prelude.{◌≡◌, [], IfOk, Some, min, slice_get};
ghost use Rattle.lola_model.specs.Named.{text_number};
ghost use Rattle.lola_names.specs.Targets.{target_of};
ghost use Rattle.lola_names.specs.Resolved.{kind_spelled, aggregation_spelled, place_at, integer_of, prefix_of, binary_of, IsValue, IsLiteral};
ghost use Rattle.lola_names.specs.Made.{FromNowOn, Grows, GrowsBy, ResolvesTo};
ghost use Rattle.lola_names.specs.Operators.{IsDefaults, IsUnary, IsBoth, IsChoice};
ghost use Rattle.lola_names.specs.Parted.{AreResolvedTo, GrowsByAll, IsConstantTo, IsAccessTo, IsNamedTo, IsOpen, GrowsByNamed, items_of};

use crate::made::{Made, number_window};
use crate::scope::Scope;
use crate::targets::Target;
use lola_model::expr::{self, Arguments, Expr, Place};
use lola_model::spec::{Agg, WindowSpec};
use lola_names_refused::quantities::span;
use lola_names_refused::words::{aggregation_named, kind_named};
use lola_parser_grammar::declarations::Declaration;
use lola_parser_grammar::expressions as tree;
use lola_parser_grammar::literals::{Name, Value as Written};
use lola_value::text::Memory;
use lola_value::value::{Kind, Value};
use std::alloc::Global;

/// The kind that a name spells; `Int64` for one that spells none, which is refused.
pub fn kind(name: &Name) -> Kind
    ensures { result ≡ kind_spelled name.now }
{
    match kind_named(name.text.as_bytes()) {
        Some(kind) => kind,
        None => Kind::Int64,
    }
}

/// The aggregation that a name spells; `count` for one that spells none, which is refused.
fn aggregation(name: &Name) -> Agg
    ensures { result ≡ aggregation_spelled name.now }
{
    match aggregation_named(name.text.as_bytes()) {
        Some(aggregation) => aggregation,
        None => Agg::Count,
    }
}

fn bare(at: u32) -> Place
    ensures { result ≡ place_at at }
{
    Place { at, kind: None }
}

fn prefix(operator: tree::Prefix) -> expr::Prefix
    ensures { result ≡ prefix_of operator }
{
    match operator {
        tree::Prefix::Not => expr::Prefix::Not,
        tree::Prefix::Negate => expr::Prefix::Minus,
    }
}

fn binary(operator: tree::Binary) -> expr::Binary
    ensures { result ≡ binary_of operator }
{
    match operator {
        tree::Binary::Or => expr::Binary::Or,
        tree::Binary::And => expr::Binary::And,
        tree::Binary::Equal => expr::Binary::Equal,
        tree::Binary::Unequal => expr::Binary::Different,
        tree::Binary::Less => expr::Binary::Less,
        tree::Binary::LessEqual => expr::Binary::LessEqual,
        tree::Binary::Greater => expr::Binary::Greater,
        tree::Binary::GreaterEqual => expr::Binary::GreaterEqual,
        tree::Binary::Add => expr::Binary::Add,
        tree::Binary::Subtract => expr::Binary::Sub,
        tree::Binary::Multiply => expr::Binary::Mul,
        tree::Binary::Divide => expr::Binary::Div,
        tree::Binary::Remainder => expr::Binary::Rem,
    }
}

/// An integer. One that is too great for 128 bits is the greatest of its sign.
pub fn integer(is_negative: bool, n: u128) -> i128
    ensures { result ≡ integer_of is_negative n }
{
    if n > 170_141_183_460_469_231_731_687_303_715_884_105_727 {
        return if is_negative { i128::MIN } else { i128::MAX };
    }
    let n = n as i128;
    if is_negative { -n } else { n }
}

/// What is written, a text by its number.
pub fn value(written: &Written, made: &mut Made) -> Result<Value, Memory>
    ensures value { IfOk result (λ v. FromNowOn made.new (λ texts windows. IsValue texts written.now v)) }
    ensures grown { IfOk result (λ v. Grows made.old made.new [] (text_number v)) }
{
    match written {
        Written::Integer(is_negative, n) => Ok(Value::Int(integer(*is_negative, *n))),
        Written::Truth(truth) => Ok(Value::Bool(*truth)),
        Written::Text(text) => {
            let id = made.texts.number(text)?;
            Ok(Value::Text(id))
        }
    }
}

fn literal(place: Place, written: &Written, made: &mut Made) -> Result<Expr, Memory>
    ensures literal { IfOk result (λ r. FromNowOn made.new (λ texts windows. IsLiteral texts place written.now r)) }
    ensures grown { IfOk result (λ r. GrowsBy made.old made.new r) }
{
    let v = value(written, made)?;
    Ok(Expr::Literal(place, v))
}

/// What a name stands for in a scope, where parameters hide other names.
fn target(scope: &Scope, name: &Name) -> Option<Target>
    ensures { result ≡ target_of scope.now.parameters.now scope.now.targets.now name.now.text }
{
    match scope.parameters.meaning(name.text.as_bytes()) {
        Some(target) => Some(target),
        None => scope.targets.meaning(name.text.as_bytes()),
    }
}

/// What a name is resolved to: an expression, or an access that still lacks its arguments.
#[derive(Drop)]
pub enum Named {
    Whole(Expr),
    /// A stream, and how it is accessed.
    Read(u32, expr::Access),
    /// A window.
    Window(u32),
}

/// A declaration's literal, in the place of a name.
fn literal_of(declaration: &Declaration, name: &Name, made: &mut Made) -> Result<Expr, Memory>
    ensures constant { IfOk result (λ r. IsConstantTo (Some declaration.now) made.new name.now r) }
    ensures grown { IfOk result (λ r. GrowsBy made.old made.new r) }
{
    match declaration {
        Declaration::Constant(x) => {
            let place = Place {
                at: name.at,
                kind: Some(kind(&x.kind)),
            };
            let expr = literal(place, &x.literal.value, made)?;
            Ok(expr)
        }
        Declaration::Inputs(_) | Declaration::Output(_) | Declaration::Trigger(_) => {
            Ok(Expr::Literal(bare(name.at), Value::Bool(false)))
        }
    }
}

/// A constant's literal, in the place of its name.
fn constant(scope: &Scope, name: &Name, number: u32, made: &mut Made) -> Result<Expr, Memory>
    ensures constant { IfOk result (λ r. IsConstantTo (slice_get scope.now.declarations.now number) made.new name.now r) }
    ensures grown { IfOk result (λ r. GrowsBy made.old made.new r) }
{
    match scope.declarations.get(number as usize) {
        None => Ok(Expr::Literal(bare(name.at), Value::Bool(false))),
        Some(declaration) => {
            let expr = literal_of(declaration, name, made)?;
            Ok(expr)
        }
    }
}

/// The offset by at most 4,096.
fn offset(k: u128) -> u32
    ensures { result ≡ min k 4096 }
{
    if k < 4096 { k as u32 } else { 4096 }
}

/// An access of a stream. A window is numbered now, before those of its arguments.
fn access(scope: &Scope, stream: u32, how: &tree::Access, made: &mut Made) -> Result<Named, Memory>
    ensures access { IfOk result (λ n. IsAccessTo scope.now made.new stream how.now n) }
    ensures open { IfOk result IsOpen }
    ensures grown { IfOk result (λ n. GrowsByNamed made.old made.new n) }
{
    match how {
        tree::Access::Direct => Ok(Named::Read(stream, expr::Access::Direct)),
        tree::Access::Offset(_, k, _) => Ok(Named::Read(stream, expr::Access::Offset(offset(*k)))),
        tree::Access::Hold(_) => Ok(Named::Read(stream, expr::Access::Hold)),
        tree::Access::Get(_) => Ok(Named::Read(stream, expr::Access::Get)),
        tree::Access::Window(_, exact, over, using) => {
            let window = WindowSpec {
                stream: scope.stream,
                part: scope.clause,
                target: stream,
                over: span(over),
                exact: *exact,
                using: aggregation(using),
            };
            let number = number_window(window, &mut made.windows)?;
            Ok(Named::Window(number))
        }
    }
}

/// What a name is resolved to that stands for this.
fn meant(
    scope: &Scope,
    target: Option<Target>,
    name: &Name,
    how: &tree::Access,
    made: &mut Made,
) -> Result<Named, Memory>
    ensures named { IfOk result (λ n. IsNamedTo scope.now target made.new name.now how.now n) }
    ensures grown { IfOk result (λ n. GrowsByNamed made.old made.new n) }
{
    match target {
        None => Ok(Named::Whole(Expr::Literal(bare(name.at), Value::Bool(false)))),
        Some(Target::Input(stream, _)) => {
            let named = access(scope, stream, how, made)?;
            Ok(named)
        }
        Some(Target::Output(stream)) => {
            let named = access(scope, stream, how, made)?;
            Ok(named)
        }
        Some(Target::Constant(number)) => {
            let expr = constant(scope, name, number, made)?;
            Ok(Named::Whole(expr))
        }
        Some(Target::Parameter(number)) => {
            Ok(Named::Whole(Expr::Parameter(bare(name.at), number)))
        }
    }
}

fn boxed(alloc: Global, expr: Expr) -> Result<Box<Expr>, Memory>
    ensures { IfOk result (λ b. b.value ≡ expr) }
{
    Ok(Box::new(alloc, expr)?)
}

/// Arguments of these expressions.
fn chained(alloc: Global, mut items: Vec<Expr>) -> Result<Arguments, Memory>
    ensures { IfOk result (λ args. items_of args ≡ items.items) }
{
    let mut rest = Arguments::End;
    while let Some(item) = items.pop() {
        let first = boxed(alloc, item)?;
        let others = Box::new(alloc, rest)?;
        rest = Arguments::More(first, others);
    }
    Ok(rest)
}

/// An expression with another in its place where it has no value.
fn defaults(alloc: Global, at: u32, x: Expr, y: Expr) -> Result<Expr, Memory>
    ensures { IfOk result (IsDefaults at x y) }
{
    let a = boxed(alloc, x)?;
    let b = boxed(alloc, y)?;
    Ok(Expr::Defaults(bare(at), a, b))
}

/// An operator before its operand.
fn unary(alloc: Global, at: u32, operator: tree::Prefix, x: Expr) -> Result<Expr, Memory>
    ensures { IfOk result (IsUnary at (prefix_of operator) x) }
{
    let a = boxed(alloc, x)?;
    Ok(Expr::Unary(bare(at), prefix(operator), a))
}

/// An operator between its operands.
fn both(alloc: Global, at: u32, operator: tree::Binary, x: Expr, y: Expr) -> Result<Expr, Memory>
    ensures { IfOk result (IsBoth at (binary_of operator) x y) }
{
    let a = boxed(alloc, x)?;
    let b = boxed(alloc, y)?;
    Ok(Expr::Both(bare(at), binary(operator), a, b))
}

/// A condition with what holds where it is true and where it is false.
fn choice(alloc: Global, at: u32, test: Expr, x: Expr, y: Expr) -> Result<Expr, Memory>
    ensures { IfOk result (IsChoice at test x y) }
{
    let t = boxed(alloc, test)?;
    let a = boxed(alloc, x)?;
    let b = boxed(alloc, y)?;
    Ok(Expr::Choice(bare(at), t, a, b))
}

/// An expression resolved, where it stands in this scope. Texts and windows are numbered in the order of the text.
#[cycle(expression)]
pub fn expression(
    alloc: Global,
    scope: &Scope,
    x: &tree::Expr,
    made: &mut Made,
) -> Result<Expr, Memory>
    ensures resolved { IfOk result (λ r. ResolvesTo scope.now made.new x.now r) }
    ensures grown { IfOk result (λ r. GrowsBy made.old made.new r) }
{
    match x {
        tree::Expr::Literal(l) => {
            let expr = literal(bare(l.at), &l.value, made)?;
            Ok(expr)
        }
        tree::Expr::Reference(name, _, xs, how) => {
            let target = target(scope, name);
            match meant(scope, target, name, how, made)? {
                Named::Whole(expr) => Ok(expr),
                Named::Read(stream, how) => {
                    let arguments = arguments(alloc, scope, xs.as_slice(), made)?;
                    Ok(Expr::Read(bare(name.at), stream, how, arguments))
                }
                Named::Window(number) => {
                    let arguments = arguments(alloc, scope, xs.as_slice(), made)?;
                    Ok(Expr::Window(bare(name.at), number, arguments))
                }
            }
        }
        tree::Expr::Defaults(at, x, y) => {
            let first = expression(alloc, scope, x.get(), made)?;
            let second = expression(alloc, scope, y.get(), made)?;
            defaults(alloc, *at, first, second)
        }
        tree::Expr::Prefix(operator, at, x) => {
            let operand = expression(alloc, scope, x.get(), made)?;
            unary(alloc, *at, *operator, operand)
        }
        tree::Expr::Binary(operator, at, x, y) => {
            let first = expression(alloc, scope, x.get(), made)?;
            let second = expression(alloc, scope, y.get(), made)?;
            both(alloc, *at, *operator, first, second)
        }
        tree::Expr::If(at, x, y, z) => {
            let test = expression(alloc, scope, x.get(), made)?;
            let first = expression(alloc, scope, y.get(), made)?;
            let second = expression(alloc, scope, z.get(), made)?;
            choice(alloc, *at, test, first, second)
        }
    }
}

/// Arguments resolved, from the left.
#[cycle(expression)]
fn arguments(
    alloc: Global,
    scope: &Scope,
    xs: &[tree::Expr],
    made: &mut Made,
) -> Result<Arguments, Memory>
    ensures resolved { IfOk result (λ args. AreResolvedTo scope.now made.new xs.now (items_of args)) }
    ensures grown { IfOk result (λ args. GrowsByAll made.old made.new (items_of args)) }
{
    let mut items = Vec::new(alloc);
    for x in xs {
        let item = expression(alloc, scope, x, made)?;
        items.push(item)?;
    }
    chained(alloc, items)
}
