//! The names that are used: in expressions, in pacings, as kinds.

ghost use Rattle.std.specs.Prelude.{◌≡◌, ℕ, [], OnOk, is_some, length};
ghost use Rattle.std.specs.List.{flat_map};
ghost use Rattle.lola_names_refused.specs.Noted.{Finds};
ghost use Rattle.lola_names_refused.specs.Refused as refused;

use crate::declaring::{meaning, note_if, parameters};
use crate::names::{Meaning, Names};
use crate::words::{aggregation_named, kind_named};
use lola_model::refusals::Refusals;
use lola_parser_grammar::clauses::{Close, Eval, Part, Spawn};
use lola_parser_grammar::declarations::{Declaration, Output};
use lola_parser_grammar::expressions::{Access, Expr};
use lola_parser_grammar::literals::{Name, Typed};
use lola_parser_grammar::pacing::{Formula, Pacing, Rhythm};
use lola_value::front::Code;
use lola_value::text::Memory;
use std::alloc::Global;

/// Notes a refusal, unless this holds.
fn note_unless(holds: bool, code: Code, at: u32, found: &mut Refusals)
    ensures { Finds (refused.unless holds code at) found.old found.new }
{
    if !holds {
        found.note(code, at);
    }
}

/// A kind.
fn kind_use(name: &Name, found: &mut Refusals)
    ensures { Finds (refused.kind_use name.now) found.old found.new }
{
    let is_known = kind_named(name.text.as_bytes()).is_some();
    note_unless(is_known, Code::Unknown, name.at, found);
}

/// The kinds of inputs or parameters.
fn kind_uses(items: &[Typed], found: &mut Refusals)
    ensures { Finds (refused.kind_uses items.now) found.old found.new }
{
    for item in items {
        kind_use(&item.kind, found);
    }
}

fn is_direct(how: &Access) -> bool
    ensures { result ≡ refused.is_direct how.now }
{
    matches!(how, Access::Direct)
}

/// A constant or a parameter.
fn value_use(name: &Name, arguments: usize, how: &Access, found: &mut Refusals)
    ensures { Finds (refused.value_use name.now arguments how.now) found.old found.new }
{
    let is_alone = arguments == 0 && is_direct(how);
    note_unless(is_alone, Code::Unknown, name.at, found);
}

/// A stream with so many parameters.
fn stream_use(parameters: usize, name: &Name, arguments: usize, found: &mut Refusals)
    ensures { Finds (refused.stream_use parameters name.now arguments) found.old found.new }
{
    note_unless(arguments == parameters, Code::BadArity, name.at, found);
}

/// A name of an expression that means this.
fn name_use(
    meaning: Option<Meaning>,
    name: &Name,
    arguments: usize,
    how: &Access,
    found: &mut Refusals,
)
    ensures { Finds (refused.name_use meaning name.now arguments how.now) found.old found.new }
{
    match meaning {
        None => found.note(Code::Unknown, name.at),
        Some(Meaning::Input) => stream_use(0, name, arguments, found),
        Some(Meaning::Constant) => value_use(name, arguments, how, found),
        Some(Meaning::Output(parameters)) => stream_use(parameters, name, arguments, found),
        Some(Meaning::Parameter) => value_use(name, arguments, how, found),
    }
}

/// How a name is read.
fn access_use(how: &Access, found: &mut Refusals)
    ensures { Finds (refused.access_use how.now) found.old found.new }
{
    match how {
        Access::Offset(_, k, at) => note_if(4096 < *k, Code::TooMany, *at, found),
        Access::Window(_, _, _, using) => {
            let is_known = aggregation_named(using.text.as_bytes()).is_some();
            note_unless(is_known, Code::Unknown, using.at, found);
        }
        Access::Direct | Access::Hold(_) | Access::Get(_) => {}
    }
}

/// A name with so many arguments.
fn reference_use(
    parameters: &Names,
    names: &Names,
    name: &Name,
    arguments: usize,
    how: &Access,
    found: &mut Refusals,
)
    ensures { Finds (refused.reference_use parameters.now names.now name.now arguments how.now) found.old found.new }
{
    let meaning = meaning(names, parameters, name.text.as_bytes());
    name_use(meaning, name, arguments, how, found);
    access_use(how, found);
}

/// An expression.
#[cycle(expression)]
fn expr_uses(parameters: &Names, names: &Names, x: &Expr, found: &mut Refusals)
    ensures { Finds (refused.uses parameters.now names.now x.now) found.old found.new }
{
    match x {
        Expr::Literal(_) => {}
        Expr::Reference(name, _, arguments, how) => {
            reference_use(parameters, names, name, arguments.len(), how, found);
            argument_uses(parameters, names, arguments.as_slice(), found);
        }
        Expr::Prefix(_, _, x) => expr_uses(parameters, names, x.get(), found),
        Expr::Defaults(_, x, y) => {
            expr_uses(parameters, names, x.get(), found);
            expr_uses(parameters, names, y.get(), found);
        }
        Expr::Binary(_, _, x, y) => {
            expr_uses(parameters, names, x.get(), found);
            expr_uses(parameters, names, y.get(), found);
        }
        Expr::If(_, x, y, z) => {
            expr_uses(parameters, names, x.get(), found);
            expr_uses(parameters, names, y.get(), found);
            expr_uses(parameters, names, z.get(), found);
        }
    }
}

/// Arguments.
#[cycle(expression)]
fn argument_uses(parameters: &Names, names: &Names, xs: &[Expr], found: &mut Refusals)
    ensures { Finds (refused.all_uses parameters.now names.now xs.now) found.old found.new }
{
    for x in xs {
        expr_uses(parameters, names, x, found);
    }
}

/// An input of a pacing.
fn input_use(names: &Names, name: &Name, found: &mut Refusals)
    ensures { Finds (refused.input_use names.now name.now) found.old found.new }
{
    let is_input = matches!(names.meaning(name.text.as_bytes()), Some(Meaning::Input));
    note_unless(is_input, Code::Unknown, name.at, found);
}

/// A formula.
fn formula_uses(names: &Names, x: &Formula, found: &mut Refusals)
    ensures { Finds (refused.formula_uses names.now x.now) found.old found.new }
{
    match x {
        Formula::Input(name) => input_use(names, name, found),
        Formula::Both(_, x, y) => {
            formula_uses(names, x.get(), found);
            formula_uses(names, y.get(), found);
        }
        Formula::Either(_, x, y) => {
            formula_uses(names, x.get(), found);
            formula_uses(names, y.get(), found);
        }
    }
}

/// A pacing, if it is written.
fn pacing_uses(names: &Names, pacing: &Option<Pacing>, found: &mut Refusals)
    ensures { Finds (refused.pacing_uses names.now pacing.now) found.old found.new }
{
    match pacing {
        None => {}
        Some(pacing) => match &pacing.rhythm {
            Rhythm::Formula(formula) => formula_uses(names, formula, found),
            Rhythm::Rate(_) | Rhythm::Global(_) | Rhythm::Local(_) => {}
        },
    }
}

/// A condition, if there is one.
fn when_uses(parameters: &Names, names: &Names, when: &Option<Part>, found: &mut Refusals)
    ensures { Finds (refused.when_uses parameters.now names.now when.now) found.old found.new }
{
    match when {
        None => {}
        Some(part) => expr_uses(parameters, names, &part.expr, found),
    }
}

/// Expressions behind `with`.
fn with_uses(parameters: &Names, names: &Names, parts: &[Part], found: &mut Refusals)
    ensures { Finds (refused.with_uses parameters.now names.now parts.now) found.old found.new }
{
    for part in parts {
        expr_uses(parameters, names, &part.expr, found);
    }
}

/// A spawn clause, if there is one, in whose scope there are no parameters.
fn spawn_uses(none: &Names, names: &Names, spawn: &Option<Spawn>, found: &mut Refusals)
    requires { none.now ≡ [] }
    ensures { Finds (refused.of_option (refused.spawn_uses names.now) spawn.now) found.old found.new }
{
    match spawn {
        None => {}
        Some(spawn) => {
            pacing_uses(names, &spawn.pacing, found);
            when_uses(none, names, &spawn.when, found);
            with_uses(none, names, spawn.with.as_slice(), found);
        }
    }
}

/// An eval clause.
fn eval_uses(parameters: &Names, names: &Names, eval: &Eval, found: &mut Refusals)
    ensures { Finds (refused.eval_uses parameters.now names.now eval.now) found.old found.new }
{
    pacing_uses(names, &eval.pacing, found);
    when_uses(parameters, names, &eval.when, found);
    expr_uses(parameters, names, &eval.with.expr, found);
}

/// A close clause, if there is one.
fn close_uses(parameters: &Names, names: &Names, close: &Option<Close>, found: &mut Refusals)
    ensures { Finds (refused.of_option (refused.close_uses parameters.now names.now) close.now) found.old found.new }
{
    match close {
        None => {}
        Some(close) => {
            pacing_uses(names, &close.pacing, found);
            expr_uses(parameters, names, &close.when.expr, found);
        }
    }
}

fn count_spawned(spawn: &Option<Spawn>) -> usize
    ensures { result ≡ refused.count_spawned spawn.now }
{
    match spawn {
        None => 0,
        Some(spawn) => spawn.with.len(),
    }
}

/// The kind of a stream, if it is written.
fn own_kind_use(kind: &Option<Name>, found: &mut Refusals)
    ensures { Finds (refused.of_option refused.kind_use kind.now) found.old found.new }
{
    match kind {
        None => {}
        Some(name) => kind_use(name, found),
    }
}

/// The fifth parameter, if there is one.
fn fifth_parameter(parameters: &[Typed], found: &mut Refusals)
    ensures { Finds (refused.too_many 4 (refused.places_of parameters.now)) found.old found.new }
{
    if let Some(parameter) = parameters.get(4) {
        found.note(Code::TooMany, parameter.name.at);
    }
}

/// What an output says before its clauses.
fn head_uses(output: &Output, found: &mut Refusals)
    ensures { Finds (refused.head_uses output.now) found.old found.new }
{
    fifth_parameter(output.parameters.as_slice(), found);
    kind_uses(output.parameters.as_slice(), found);
    own_kind_use(&output.kind, found);
    let is_spawned = count_spawned(&output.spawn) == output.parameters.len();
    note_unless(is_spawned, Code::BadArity, output.name.at, found);
}

/// The clauses of an output.
fn clause_uses(
    none: &Names,
    parameters: &Names,
    names: &Names,
    output: &Output,
    found: &mut Refusals,
)
    requires { none.now ≡ [] }
    ensures { Finds (refused.clause_uses parameters.now names.now output.now) found.old found.new }
{
    spawn_uses(none, names, &output.spawn, found);
    eval_uses(parameters, names, &output.eval, found);
    close_uses(parameters, names, &output.close, found);
}

/// An output.
fn output_uses(
    alloc: Global,
    none: &Names,
    names: &Names,
    output: &Output,
    found: &mut Refusals,
) -> Result<(), Memory>
    requires { none.now ≡ [] }
    ensures { OnOk result (Finds (refused.output_uses names.now output.now) found.old found.new) }
{
    head_uses(output, found);
    let own = parameters(alloc, output.parameters.as_slice())?;
    clause_uses(none, &own, names, output, found);
    Ok(())
}

/// A declaration.
fn declaration_uses(
    alloc: Global,
    none: &Names,
    names: &Names,
    declaration: &Declaration,
    found: &mut Refusals,
) -> Result<(), Memory>
    requires { none.now ≡ [] }
    ensures { OnOk result (Finds (refused.declaration_uses names.now declaration.now) found.old found.new) }
{
    match declaration {
        Declaration::Inputs(x) => {
            kind_uses(x.inputs.as_slice(), found);
            Ok(())
        }
        Declaration::Constant(x) => {
            kind_use(&x.kind, found);
            Ok(())
        }
        Declaration::Output(x) => output_uses(alloc, none, names, x, found),
        Declaration::Trigger(x) => {
            pacing_uses(names, &x.pacing, found);
            expr_uses(none, names, &x.when.expr, found);
            Ok(())
        }
    }
}

/// All declarations.
pub(crate) fn all_uses(
    alloc: Global,
    names: &Names,
    declarations: &[Declaration],
    found: &mut Refusals,
) -> Result<(), Memory>
    ensures { OnOk result (Finds (flat_map (refused.declaration_uses names.now) declarations.now) found.old found.new) }
{
    let none = Names::create(alloc);
    for declaration in declarations {
        declaration_uses(alloc, &none, names, declaration, found)?;
    }
    Ok(())
}
