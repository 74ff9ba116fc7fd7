//! Declarations, and the whole specification.

ghost use Rattle.std.specs.Prelude.{◌≡◌, ◌++◌, ◌∷◌, [], OnOk, OnErr};
ghost use Rattle.lola_lexer.specs.declared.shape.TokenShape.TheVariants as is;
ghost use Rattle.lola_parser_print.specs.Print as out;

use crate::clauses::{close, eval, pacing, short_eval, spawn};
use crate::expressions::{bare, literal};
use crate::tokens::{put_name, put_text};
use lola_parser_grammar::clauses::{Close, Eval, Spawn};
use lola_parser_grammar::declarations::{Ast, Constant, Declaration, Output, Trigger};
use lola_parser_grammar::literals::{Name, Typed};
use lola_value::text::{Memory, Text};
use std::alloc::Global;

fn typed(x: &Typed, to: &mut Text) -> Result<(), Memory>
    ensures { OnOk result (out.Adds (out.typed x.now) to.old to.new) }
{
    put_name(&x.name, to)?;
    to.append(b": ")?;
    put_name(&x.kind, to)
}

fn behind_comma(x: &Typed, to: &mut Text) -> Result<(), Memory>
    ensures { OnOk result (out.Adds (out.behind_comma x.now) to.old to.new) }
{
    to.append(b", ")?;
    typed(x, to)
}

fn further_typed(xs: &[Typed], to: &mut Text) -> Result<(), Memory>
    ensures { OnOk result (out.Adds (out.further_typed xs.now) to.old to.new) }
{
    for x in xs {
        behind_comma(x, to)?;
    }
    Ok(())
}

fn listed(xs: &[Typed], to: &mut Text) -> Result<(), Memory>
    ensures { OnOk result (out.Adds (out.listed xs.now) to.old to.new) }
{
    match xs {
        [] => Ok(()),
        [first, rest @ ..] => {
            typed(first, to)?;
            further_typed(rest, to)
        }
    }
}

fn parameters(xs: &[Typed], to: &mut Text) -> Result<(), Memory>
    ensures { OnOk result (out.Adds (out.parameters xs.now) to.old to.new) }
{
    if xs.is_empty() {
        return Ok(());
    }
    to.append(b"( ")?;
    listed(xs, to)?;
    to.append(b") ")
}

fn kind(x: &Option<Name>, to: &mut Text) -> Result<(), Memory>
    ensures { OnOk result (out.Adds (out.kind x.now) to.old to.new) }
{
    match x {
        None => Ok(()),
        Some(name) => {
            to.append(b": ")?;
            put_name(name, to)
        }
    }
}

/// Whether the clauses of an output are an expression and no more.
fn is_short(spawned: &Option<Spawn>, evaluated: &Eval, closed: &Option<Close>) -> bool
    ensures { result ≡ out.is_short spawned.now evaluated.now closed.now }
{
    spawned.is_none() && evaluated.when.is_none() && closed.is_none()
}

fn body(
    spawned: &Option<Spawn>,
    evaluated: &Eval,
    closed: &Option<Close>,
    to: &mut Text,
) -> Result<(), Memory>
    ensures { OnOk result (out.Adds (out.body spawned.now evaluated.now closed.now) to.old to.new) }
{
    if is_short(spawned, evaluated, closed) {
        return short_eval(evaluated, to);
    }
    spawn(spawned, to)?;
    eval(evaluated, to)?;
    close(closed, to)
}

fn message(text: &[u8], to: &mut Text) -> Result<(), Memory>
    ensures { OnOk result (out.Adds (out.message text.now) to.old to.new) }
{
    match text {
        [] => Ok(()),
        _ => put_text(text, to),
    }
}

fn constant(x: &Constant, to: &mut Text) -> Result<(), Memory>
    ensures { OnOk result (out.Adds (out.constant x.now) to.old to.new) }
{
    put_name(&x.name, to)?;
    kind_then_operator(&x.kind, to)?;
    literal(&x.literal.value, to)
}

fn kind_then_operator(x: &Name, to: &mut Text) -> Result<(), Memory>
    ensures { OnOk result (out.Adds (out.lex is.Colon ∷ out.name x.now ∷ out.lex is.Define ∷ []) to.old to.new) }
{
    to.append(b": ")?;
    put_name(x, to)?;
    to.append(b":= ")
}

fn head(x: &Output, to: &mut Text) -> Result<(), Memory>
    ensures { OnOk result (out.Adds (out.lex is.Output ∷ out.name x.now.name ∷ out.parameters x.now.parameters) to.old to.new) }
{
    to.append(b"output ")?;
    put_name(&x.name, to)?;
    parameters(x.parameters.as_slice(), to)
}

fn output(x: &Output, to: &mut Text) -> Result<(), Memory>
    ensures { OnOk result (out.Adds (out.output x.now) to.old to.new) }
{
    head(x, to)?;
    kind(&x.kind, to)?;
    body(&x.spawn, &x.eval, &x.close, to)
}

fn trigger(x: &Trigger, to: &mut Text) -> Result<(), Memory>
    ensures { OnOk result (out.Adds (out.trigger x.now) to.old to.new) }
{
    pacing(&x.pacing, to)?;
    bare(&x.when.expr, to)?;
    message(x.message.as_bytes(), to)
}

fn declaration(x: &Declaration, to: &mut Text) -> Result<(), Memory>
    ensures { OnOk result (out.Adds (out.declaration x.now) to.old to.new) }
{
    match x {
        Declaration::Inputs(x) => {
            to.append(b"input ")?;
            listed(x.inputs.as_slice(), to)
        }
        Declaration::Constant(x) => {
            to.append(b"constant ")?;
            constant(x, to)
        }
        Declaration::Output(x) => output(x, to),
        Declaration::Trigger(x) => {
            to.append(b"trigger ")?;
            trigger(x, to)
        }
    }
}

fn declarations(xs: &[Declaration], to: &mut Text) -> Result<(), Memory>
    ensures { OnOk result (out.Adds (out.specification xs.now) to.old to.new) }
{
    for x in xs {
        declaration(x, to)?;
    }
    Ok(())
}

/// Appends a spelling of the specification: in short forms, with brackets only where they are needed, and a blank behind
/// each token. Where there is no memory the text is as it was.
pub fn print(alloc: Global, ast: &Ast, to: &mut Text) -> Result<(), Memory>
    ensures ok { OnOk result (out.Adds (out.specification ast.now) to.old to.new) }
    ensures err { OnErr result (to.new ≡ to.old) }
{
    let mut text = Text::from_bytes(alloc, b"")?;
    declarations(ast.as_slice(), &mut text)?;
    to.append(text.as_bytes())
}
