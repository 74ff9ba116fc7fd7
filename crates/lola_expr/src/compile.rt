//! From expressions to instructions. The code is made from its end, so that a jump knows how much it passes, and then turned round.

ghost use Rattle.std.specs.Prelude.{◌≡◌, [], ◌∷◌, ◌++◌, IfOk, OnOk};
ghost use Rattle.lola_expr.specs.Code.{asking, back_arguments, back_code, code_of, defaulted_of, direct_of, giving, joining, literal_of, plain_of, plainly, plainly_or, operator_plainly_or, with_branches, with_default, with_operands, with_operator};
ghost use Rattle.lola_value.specs.Shorts.{short_of};

use crate::evaluation::kind_at;
use crate::instr::Instr;
use lola_model::expr::{Access, Arguments, Binary, Expr};
use lola_value::short::{Short, short_value};
use lola_value::text::Memory;
use lola_value::value::{Kind, Value};
use std::alloc::Global;

/// What arguments name an instance of.
#[derive(Clone, Copy)]
pub(crate) enum Target {
    /// The stream of this number, which is accessed so.
    Stream(u32, Access),
    /// The target of the window of this number.
    Window(u32),
}

/// How the operands of an operator are evaluated.
#[derive(Clone, Copy)]
pub(crate) enum Joining {
    /// The right one where the left one is true.
    WhereTrue,
    /// The right one where the left one is false.
    WhereFalse,
    /// Both.
    Both,
}

/// How the operands of this operator are evaluated.
fn joining_of(operator: Binary) -> Joining
    ensures { result ≡ joining operator }
{
    match operator {
        Binary::And => Joining::WhereTrue,
        Binary::Or => Joining::WhereFalse,
        _ => Joining::Both,
    }
}

/// The instruction that reads a stream without parameters.
fn reading_of(stream: u32, how: Access) -> Instr
    ensures { result ≡ plainly stream how }
{
    match how {
        Access::Direct => Instr::ReadNow(stream),
        Access::Get => Instr::ReadNow(stream),
        Access::Hold => Instr::ReadNewest(stream),
        Access::Offset(k) => Instr::ReadBack(stream, k),
    }
}

/// The one that gives a value where that is missing.
fn reading_or(stream: u32, how: Access, v: Short) -> Instr
    ensures { result ≡ plainly_or stream how v }
{
    match how {
        Access::Direct => Instr::ReadNowOr(stream, v),
        Access::Get => Instr::ReadNowOr(stream, v),
        Access::Hold => Instr::ReadNewestOr(stream, v),
        Access::Offset(k) => Instr::ReadBackOr(stream, k, v),
    }
}

/// The one that takes what that gives for an operator's right operand.
fn operator_reading_or(operator: Binary, kind: Kind, stream: u32, how: Access, v: Short) -> Instr
    ensures { result ≡ operator_plainly_or operator kind stream how v }
{
    match how {
        Access::Direct => Instr::OperatorNowOr(operator, kind, stream, v),
        Access::Get => Instr::OperatorNowOr(operator, kind, stream, v),
        Access::Hold => Instr::OperatorNewestOr(operator, kind, stream, v),
        Access::Offset(k) => Instr::OperatorBackOr(operator, kind, stream, k, v),
    }
}

/// The instruction that asks a stream or a window, of the instance that so many arguments name.
fn asking_of(target: Target, count: u32) -> Instr
    ensures { result ≡ asking target count }
{
    match target {
        Target::Stream(stream, how) => {
            if count == 0 {
                reading_of(stream, how)
            } else {
                Instr::ReadAt(stream, how, count)
            }
        }
        Target::Window(number) => Instr::Window(number, count),
    }
}

/// The instruction that gives a value. A number that no kind has is left to the evaluation.
fn giving_of(v: Value) -> Instr
    ensures { result ≡ giving (short_of v) }
{
    match short_value(v) {
        Some(made) => Instr::Give(made),
        None => Instr::Leave,
    }
}

/// The value that an expression is, if it is a literal of a number that a kind has, or of another value.
fn literal(e: &Expr) -> Option<Short>
    ensures { result ≡ literal_of e.now }
{
    match e {
        Expr::Literal(_, v) => short_value(*v),
        _ => None,
    }
}

/// The stream and the access, of an access without arguments.
fn plain(e: &Expr) -> Option<(u32, Access)>
    ensures { result ≡ plain_of e.now }
{
    match e {
        Expr::Read(_, stream, how, args) => match args {
            Arguments::End => Some((*stream, *how)),
            Arguments::More(_, _) => None,
        },
        _ => None,
    }
}

/// The stream, of a direct access without arguments.
fn direct(e: &Expr) -> Option<u32>
    ensures { result ≡ direct_of e.now }
{
    match e {
        Expr::Read(_, stream, how, args) => match args {
            Arguments::End => match how {
                Access::Direct => Some(*stream),
                _ => None,
            },
            Arguments::More(_, _) => None,
        },
        _ => None,
    }
}

/// The stream, the access and the default, of an access without arguments that has a literal for a default.
fn defaulted(e: &Expr) -> Option<(u32, (Access, Short))>
    ensures { result ≡ defaulted_of e.now }
{
    match e {
        Expr::Defaults(_, a, b) => match plain(a) {
            Some((stream, how)) => match literal(b) {
                Some(v) => Some((stream, (how, v))),
                None => None,
            },
            None => None,
        },
        _ => None,
    }
}

/// Puts one instruction behind the others.
fn put(code: &mut Vec<Instr>, instr: Instr) -> Result<(), Memory>
    ensures { OnOk result (code.new.items ≡ code.old.items ++ instr ∷ []) }
{
    code.push(instr)?;
    Ok(())
}

/// Puts the code of an expression behind other code, from its last instruction to its first.
#[cycle(emit)]
fn emit(code: &mut Vec<Instr>, e: &Expr) -> Result<(), Memory>
    ensures { OnOk result (code.new.items ≡ code.old.items ++ back_code e.now) }
{
    match e {
        Expr::Literal(_, v) => put(code, giving_of(*v)),
        Expr::Parameter(_, number) => put(code, Instr::Parameter(*number)),
        Expr::Read(_, stream, how, args) => {
            emit_arguments(code, Target::Stream(*stream, *how), 0, args)
        }
        Expr::Window(_, number, args) => emit_arguments(code, Target::Window(*number), 0, args),
        Expr::Defaults(_, a, b) => emit_default(code, a, b),
        Expr::Unary(place, operator, a) => {
            put(code, Instr::Prefix(*operator, kind_at(place)))?;
            emit(code, a)
        }
        Expr::Both(place, operator, a, b) => emit_operator(code, *operator, kind_at(place), a, b),
        Expr::Choice(_, test, a, b) => emit_choice(code, test, a, b),
    }
}

/// Puts the code of `a.defaults(to: b)` behind other code.
#[cycle(emit)]
fn emit_default(code: &mut Vec<Instr>, a: &Expr, b: &Expr) -> Result<(), Memory>
    ensures { OnOk result (code.new.items ≡ code.old.items ++ with_default (back_code a.now) (back_code b.now) (plain_of a.now) (literal_of b.now)) }
{
    if let Some(v) = literal(b) {
        if let Some((stream, how)) = plain(a) {
            return put(code, reading_or(stream, how, v));
        }
    }
    let start = code.len();
    emit(code, b)?;
    let passed = code.len() - start;
    put(code, Instr::Otherwise(passed))?;
    emit(code, a)
}

/// Puts the code of an operator between two operands behind other code.
#[cycle(emit)]
fn emit_operator(
    code: &mut Vec<Instr>,
    operator: Binary,
    kind: Kind,
    a: &Expr,
    b: &Expr,
) -> Result<(), Memory>
    ensures { OnOk result (code.new.items
        ≡ code.old.items ++ with_operator (joining operator) operator kind (back_code a.now) (back_code b.now) (literal_of b.now) (defaulted_of b.now) (direct_of b.now)) }
{
    match joining_of(operator) {
        Joining::WhereTrue => {
            let start = code.len();
            emit(code, b)?;
            let passed = code.len() - start;
            put(code, Instr::WhereTrue(passed))?;
            emit(code, a)
        }
        Joining::WhereFalse => {
            let start = code.len();
            emit(code, b)?;
            let passed = code.len() - start;
            put(code, Instr::WhereFalse(passed))?;
            emit(code, a)
        }
        Joining::Both => emit_operands(code, operator, kind, a, b),
    }
}

/// The same of an operator whose operands are both evaluated.
#[cycle(emit)]
fn emit_operands(
    code: &mut Vec<Instr>,
    operator: Binary,
    kind: Kind,
    a: &Expr,
    b: &Expr,
) -> Result<(), Memory>
    ensures { OnOk result (code.new.items
        ≡ code.old.items ++ with_operands operator kind (back_code a.now) (back_code b.now) (literal_of b.now) (defaulted_of b.now) (direct_of b.now)) }
{
    if let Some(v) = literal(b) {
        put(code, Instr::OperatorGiven(operator, kind, v))?;
        return emit(code, a);
    }
    if let Some((stream, (how, v))) = defaulted(b) {
        put(code, operator_reading_or(operator, kind, stream, how, v))?;
        return emit(code, a);
    }
    if let Some(stream) = direct(b) {
        put(code, Instr::OperatorNow(operator, kind, stream))?;
        return emit(code, a);
    }
    let start = code.len();
    put(code, Instr::Operator(operator, kind))?;
    emit(code, b)?;
    let passed = code.len() - start;
    put(code, Instr::Keep(passed))?;
    emit(code, a)
}

/// Puts the code of `if test then a else b` behind other code.
#[cycle(emit)]
fn emit_choice(code: &mut Vec<Instr>, test: &Expr, a: &Expr, b: &Expr) -> Result<(), Memory>
    ensures { OnOk result (code.new.items ≡ code.old.items ++ with_branches (back_code test.now) (back_code a.now) (back_code b.now)) }
{
    let start = code.len();
    emit(code, b)?;
    let second = code.len() - start;
    put(code, Instr::Jump(second))?;
    let middle = code.len();
    emit(code, a)?;
    let first = code.len() - middle;
    let all = code.len() - start;
    put(code, Instr::Test(first + 1, all))?;
    emit(code, test)
}

/// Puts the code of arguments, behind so many others, and of what is asked with all of them behind other code.
#[cycle(emit)]
fn emit_arguments(
    code: &mut Vec<Instr>,
    target: Target,
    count: u32,
    args: &Arguments,
) -> Result<(), Memory>
    ensures { OnOk result (code.new.items ≡ code.old.items ++ back_arguments target count args.now) }
{
    match args {
        Arguments::End => put(code, asking_of(target, count)),
        Arguments::More(a, rest) => {
            // there is no memory for more arguments than that
            if count == u32::MAX {
                return Err(Memory);
            }
            let start = code.len();
            emit_arguments(code, target, count + 1, rest)?;
            let passed = code.len() - start;
            put(code, Instr::KeepArgument(passed, count))?;
            emit(code, a)
        }
    }
}

/// The code of an expression, which `machine::run` takes.
pub fn compile(alloc: Global, e: &Expr) -> Result<Vec<Instr>, Memory>
    ensures { IfOk result (λ code. code.items ≡ code_of e.now) }
{
    let mut code = Vec::new(alloc);
    emit(&mut code, e)?;
    code.reverse();
    Ok(code)
}
