//! Expressions.

ghost use Rattle.std.specs.Prelude.{◌≡◌, ◌++◌, ◌∷◌, [], OnOk, ◌||◌, nat_lt};
ghost use Rattle.lola_lexer.specs.Spelling.{spelling};
ghost use Rattle.lola_lexer.specs.declared.shape.TokenShape.TheVariants as is;
ghost use Rattle.lola_parser_print.specs.Print as out;
ghost use Rattle.lola_parser_print.specs.Print.{lex};
ghost use Rattle.lola_parser_grammar.specs.declared.expressions.Expr.TheVariants as e;

use crate::tokens::{put, put_name, put_number, put_quantity, put_text};
use lola_parser_grammar::expressions::{Access, Binary, Expr, Prefix};
use lola_parser_grammar::literals::{Name, Value};
use lola_value::text::{Memory, Text};

/// How tightly an operator binds its operands.
fn tightness(op: Binary) -> u8
    ensures { result ≡ out.tightness op }
{
    match op {
        Binary::Or => 1,
        Binary::And => 2,
        Binary::Add | Binary::Subtract => 4,
        Binary::Multiply | Binary::Divide | Binary::Remainder => 5,
        _ => 3,
    }
}

/// How tightly what stands to its left has to bind: a comparison is not compared again.
fn left_of(op: Binary) -> u8
    ensures { result ≡ out.left_of op }
{
    match op {
        Binary::Or => 1,
        Binary::And => 2,
        Binary::Multiply | Binary::Divide | Binary::Remainder => 5,
        _ => 4,
    }
}

fn operator(op: Binary) -> &'static [u8]
    ensures { result.now ≡ spelling (out.shape_of op) }
{
    match op {
        Binary::Or => b"||",
        Binary::And => b"&&",
        Binary::Equal => b"==",
        Binary::Unequal => b"!=",
        Binary::Less => b"<",
        Binary::LessEqual => b"<=",
        Binary::Greater => b">",
        Binary::GreaterEqual => b">=",
        Binary::Add => b"+",
        Binary::Subtract => b"-",
        Binary::Multiply => b"*",
        Binary::Divide => b"/",
        Binary::Remainder => b"%",
    }
}

pub(crate) fn open_if(needs: bool, to: &mut Text) -> Result<(), Memory>
    ensures { OnOk result (out.Adds (out.opening needs) to.old to.new) }
{
    if needs { to.append(b"( ") } else { Ok(()) }
}

pub(crate) fn shut_if(needs: bool, to: &mut Text) -> Result<(), Memory>
    ensures { OnOk result (out.Adds (out.shutting needs) to.old to.new) }
{
    if needs { to.append(b") ") } else { Ok(()) }
}

pub(crate) fn literal(value: &Value, to: &mut Text) -> Result<(), Memory>
    ensures { OnOk result (out.Adds (out.literal value.now) to.old to.new) }
{
    match value {
        Value::Integer(false, n) => put_number(*n, to),
        Value::Integer(true, n) => {
            to.append(b"- ")?;
            put_number(*n, to)
        }
        Value::Truth(true) => to.append(b"true "),
        Value::Truth(false) => to.append(b"false "),
        Value::Text(text) => put_text(text.as_bytes(), to),
    }
}

/// How tightly an expression binds: as its operator, or more than any operator.
fn level(x: &Expr) -> u8
    ensures { result ≡ out.level x.now }
{
    match x {
        Expr::Prefix(_, _, _) => 6,
        Expr::Binary(op, _, _, _) => tightness(*op),
        Expr::If(_, _, _, _) => 0,
        _ => 8,
    }
}

fn begins_with_integer(x: &Expr) -> bool
    ensures { result ≡ out.heads x.now }
{
    match x {
        Expr::Literal(l) => matches!(l.value, Value::Integer(false, _)),
        Expr::Defaults(_, x, _) => begins_with_integer(x.get()),
        _ => false,
    }
}

fn over(exactly: bool, to: &mut Text) -> Result<(), Memory>
    ensures { OnOk result (to.new ≡ to.old ++ out.spelled_out (out.over exactly)) }
{
    to.append(b". aggregate ( ")?;
    if exactly {
        to.append(b"over_exactly : ")
    } else {
        to.append(b"over : ")
    }
}

fn using(function: &Name, to: &mut Text) -> Result<(), Memory>
    ensures { OnOk result (to.new ≡ to.old ++ out.spelled_out (out.using function.now)) }
{
    to.append(b", using : ")?;
    put_name(function, to)?;
    to.append(b") ")
}

fn access(how: &Access, to: &mut Text) -> Result<(), Memory>
    ensures { OnOk result (out.Adds (out.access how.now) to.old to.new) }
{
    match how {
        Access::Direct => Ok(()),
        Access::Offset(_, 1, _) => to.append(b". last ( ) "),
        Access::Offset(_, k, _) => {
            to.append(b". offset ( by : - ")?;
            put_number(*k, to)?;
            to.append(b") ")
        }
        Access::Hold(_) => to.append(b". hold ( ) "),
        Access::Get(_) => to.append(b". get ( ) "),
        Access::Window(_, exactly, length, function) => {
            over(*exactly, to)?;
            put_quantity(length, to)?;
            using(function, to)
        }
    }
}

/// A word and an expression behind it.
#[cycle(printing)]
fn keyed(word: &[u8], x: &Expr, to: &mut Text) -> Result<(), Memory>
    ensures { OnOk result (to.new ≡ to.old ++ (word.now ++ out.spelled_out (out.bare x.now))) }
{
    to.append(word)?;
    bare(x, to)
}

/// The same and a closing bracket, as `hold ( or : e )`.
#[cycle(printing)]
fn call(word: &[u8], x: &Expr, to: &mut Text) -> Result<(), Memory>
    ensures { OnOk result (to.new ≡ to.old ++ (word.now ++ out.spelled_out (out.bare x.now ++ lex is.Shut ∷ []))) }
{
    keyed(word, x, to)?;
    to.append(b") ")
}

/// How a name is read, and a default behind it.
#[cycle(printing)]
fn access_then_default(how: &Access, x: &Expr, to: &mut Text) -> Result<(), Memory>
    ensures { OnOk result (out.Adds (out.access how.now ++ out.default_tail (out.bare x.now)) to.old to.new) }
{
    access(how, to)?;
    call(b". defaults ( to : ", x, to)
}

/// How a name is read, with a default: a short form where there is one.
#[cycle(printing)]
fn access_or(how: &Access, x: &Expr, to: &mut Text) -> Result<(), Memory>
    ensures { OnOk result (out.Adds (out.access_or how.now (out.bare x.now)) to.old to.new) }
{
    match how {
        Access::Direct => access_then_default(how, x, to),
        Access::Offset(_, k, _) => {
            if *k == 1 {
                call(b". last ( or : ", x, to)
            } else {
                access_then_default(how, x, to)
            }
        }
        Access::Hold(_) => call(b". hold ( or : ", x, to),
        Access::Get(_) => call(b". get ( or : ", x, to),
        Access::Window(_, _, _, _) => access_then_default(how, x, to),
    }
}

/// The arguments of a name in brackets, where it has any.
#[cycle(printing)]
fn arguments(xs: &[Expr], to: &mut Text) -> Result<(), Memory>
    ensures { OnOk result (out.Adds (out.argument_list xs.now) to.old to.new) }
{
    if xs.is_empty() {
        return Ok(());
    }
    keyed(b"( ", &xs[0], to)?;
    for x in &xs[1..] {
        keyed(b", ", x, to)?;
    }
    to.append(b") ")
}

#[cycle(printing)]
fn named(name: &Name, xs: &[Expr], to: &mut Text) -> Result<(), Memory>
    ensures { OnOk result (out.Adds (out.name name.now ∷ out.argument_list xs.now) to.old to.new) }
{
    put_name(name, to)?;
    arguments(xs, to)
}

fn needs_guard(x: &Expr) -> bool
    ensures { result ≡ (out.heads x.now || nat_lt (out.level x.now) 6) }
{
    begins_with_integer(x) || level(x) < 6
}

/// The operand of a prefix `-`, which would be one literal with an integer.
#[cycle(printing)]
fn guarded(x: &Expr, to: &mut Text) -> Result<(), Memory>
    ensures { OnOk result (out.Adds (out.guarded x.now) to.old to.new) }
{
    let needs = needs_guard(x);
    open_if(needs, to)?;
    bare(x, to)?;
    shut_if(needs, to)
}

#[cycle(printing)]
fn signed(op: Prefix, x: &Expr, to: &mut Text) -> Result<(), Memory>
    ensures { OnOk result (out.Adds (out.signed op x.now) to.old to.new) }
{
    match op {
        Prefix::Not => {
            to.append(b"! ")?;
            expr(x, 6, to)
        }
        Prefix::Negate => {
            to.append(b"- ")?;
            guarded(x, to)
        }
    }
}

/// An operator and the operand behind it.
#[cycle(printing)]
fn second(op: Binary, x: &Expr, to: &mut Text) -> Result<(), Memory>
    ensures { OnOk result (out.Adds (out.second op x.now) to.old to.new) }
{
    put(operator(op), to)?;
    expr(x, tightness(op) + 1, to)
}

/// An expression without brackets round it.
#[cycle(printing)]
pub(crate) fn bare(x: &Expr, to: &mut Text) -> Result<(), Memory>
    ensures { OnOk result (out.Adds (out.bare x.now) to.old to.new) }
{
    match x {
        Expr::Literal(l) => literal(&l.value, to),
        Expr::Reference(name, _, xs, how) => {
            named(name, xs.as_slice(), to)?;
            access(how, to)
        }
        Expr::Defaults(_, x, y) => match x.get() {
            Expr::Reference(name, _, xs, how) => {
                named(name, xs.as_slice(), to)?;
                access_or(how, y.get(), to)
            }
            Expr::Literal(_)
            | Expr::Defaults(_, _, _)
            | Expr::Prefix(_, _, _)
            | Expr::Binary(_, _, _, _)
            | Expr::If(_, _, _, _) => {
                expr(x.get(), 7, to)?;
                call(b". defaults ( to : ", y.get(), to)
            }
        },
        Expr::Prefix(op, _, x) => signed(*op, x.get(), to),
        Expr::Binary(op, _, x, y) => {
            expr(x.get(), left_of(*op), to)?;
            second(*op, y.get(), to)
        }
        Expr::If(_, x, y, z) => {
            keyed(b"if ", x.get(), to)?;
            keyed(b"then ", y.get(), to)?;
            keyed(b"else ", z.get(), to)
        }
    }
}

/// An expression as an operand of a tightness: 0 an expression, 6 an operand with prefix operators, 7 one without.
#[cycle(printing)]
pub(crate) fn expr(x: &Expr, k: u8, to: &mut Text) -> Result<(), Memory>
    ensures { OnOk result (out.Adds (out.print x.now k) to.old to.new) }
{
    let needs = level(x) < k;
    open_if(needs, to)?;
    bare(x, to)?;
    shut_if(needs, to)
}
