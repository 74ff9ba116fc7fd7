//! Outputs and triggers whose names are resolved.

ghost use Rattle.std.specs.Prelude.{◌≡◌, ◌++◌, ◌+◌, [], ◌∷◌, Some, IfOk, map, codes, decimal};
ghost use Rattle.lola_model.specs.Parts.{listed_clause};
ghost use Rattle.lola_model.specs.Named.{window_number, literal_text};
ghost use Rattle.lola_parser_grammar.specs.declared.literals.Typed.{Typed as TreeTyped};
ghost use Rattle.lola_names.specs.Clauses.{input_stream, kind_written as kind_of};
ghost use Rattle.lola_names.specs.Made.{Grows};
ghost use Rattle.lola_names.specs.Resolved.{kind_spelled};
ghost use Rattle.lola_names.specs.Tables.{Means};
ghost use Rattle.lola_names.specs.Targets.{targets_of};
ghost use Rattle.lola_names.specs.Making.{CloseOf, EvalOf, GrowsByClause, GrowsByStream, OutputOf, SpawnOf, TriggerClauseOf, TriggerOf};

use crate::clauses::{close, eval, spawn, trigger as trigger_clause};
use crate::expressions::kind;
use crate::made::Made;
use crate::scope::Scope;
use crate::targets::{TargetTable, parameters};
use lola_model::spec::{Clause, Kinds, Part, Sort, Stream};
use lola_parser_grammar::declarations::{Declaration, Output, Trigger};
use lola_parser_grammar::literals::{Name, Typed};
use lola_value::numbers::number_text;
use lola_value::text::{Memory, Text};
use lola_value::value::Kind;
use std::alloc::Global;

/// The kinds of parameters.
fn kinds(alloc: Global, xs: &[Typed]) -> Result<Kinds, Memory>
    ensures { IfOk result (λ kinds. kinds ≡ map (λ (t : TreeTyped). kind_spelled t.kind) xs.now) }
{
    let mut kinds = Kinds::create(alloc);
    for x in xs {
        kinds.push(kind(&x.kind))?;
    }
    Ok(kinds)
}

/// A stream's kind, where it is written.
fn kind_written(x: &Option<Name>) -> Option<Kind>
    ensures { result ≡ kind_of x.now }
{
    match x {
        None => None,
        Some(name) => Some(kind(name)),
    }
}

/// The stream of an input.
pub(crate) fn input(alloc: Global, x: &Typed) -> Result<Stream, Memory>
    ensures { IfOk result (λ s. s ≡ input_stream x.now) }
{
    let name = Text::from_bytes(alloc, x.name.text.as_bytes())?;
    let message = Text::from_bytes(alloc, &[])?;
    Ok(Stream {
        name,
        place: x.name.at,
        sort: Sort::Input,
        message,
        kind: Some(kind(&x.kind)),
        parameters: Kinds::create(alloc),
        spawn: None,
        eval: None,
        close: None,
    })
}

/// The spawn clause of stream n, if it has one: in its scope there are no parameters.
fn spawn_of(
    alloc: Global,
    declarations: &[Declaration],
    targets: &TargetTable,
    n: u32,
    x: &Output,
    made: &mut Made,
) -> Result<Option<Clause>, Memory>
    requires { Means targets.now (targets_of declarations.now) }
    ensures resolved { IfOk result (λ c. SpawnOf declarations.now made.new n x.now.spawn c) }
    ensures grown { IfOk result (λ c. GrowsByClause made.old made.new c) }
{
    let own = TargetTable::create(alloc);
    let scope = Scope {
        declarations,
        targets,
        parameters: &own,
        stream: n,
        clause: Part::Spawn,
    };
    let clause = spawn(alloc, &scope, &x.spawn, made)?;
    Ok(clause)
}

/// The eval clause of stream n.
fn eval_of(
    alloc: Global,
    declarations: &[Declaration],
    targets: &TargetTable,
    n: u32,
    x: &Output,
    made: &mut Made,
) -> Result<Clause, Memory>
    requires { Means targets.now (targets_of declarations.now) }
    ensures resolved { IfOk result (λ c. EvalOf declarations.now made.new n x.now c) }
    ensures grown { IfOk result (λ c. GrowsByClause made.old made.new (Some c)) }
{
    let own = parameters(alloc, x.parameters.as_slice())?;
    let scope = Scope {
        declarations,
        targets,
        parameters: &own,
        stream: n,
        clause: Part::Eval,
    };
    let clause = eval(alloc, &scope, &x.eval, made)?;
    Ok(clause)
}

/// The close clause of stream n, if it has one.
fn close_of(
    alloc: Global,
    declarations: &[Declaration],
    targets: &TargetTable,
    n: u32,
    x: &Output,
    made: &mut Made,
) -> Result<Option<Clause>, Memory>
    requires { Means targets.now (targets_of declarations.now) }
    ensures resolved { IfOk result (λ c. CloseOf declarations.now made.new n x.now c) }
    ensures grown { IfOk result (λ c. GrowsByClause made.old made.new c) }
{
    let own = parameters(alloc, x.parameters.as_slice())?;
    let scope = Scope {
        declarations,
        targets,
        parameters: &own,
        stream: n,
        clause: Part::Close,
    };
    let clause = close(alloc, &scope, &x.close, made)?;
    Ok(clause)
}

/// The clauses of an output.
#[derive(Drop)]
struct Clauses {
    spawn: Option<Clause>,
    eval: Clause,
    close: Option<Clause>,
}

fn clauses_of(
    alloc: Global,
    declarations: &[Declaration],
    targets: &TargetTable,
    n: u32,
    x: &Output,
    made: &mut Made,
) -> Result<Clauses, Memory>
    requires { Means targets.now (targets_of declarations.now) }
    ensures spawn { IfOk result (λ c. SpawnOf declarations.now made.new n x.now.spawn c.spawn) }
    ensures eval { IfOk result (λ c. EvalOf declarations.now made.new n x.now c.eval) }
    ensures close { IfOk result (λ c. CloseOf declarations.now made.new n x.now c.close) }
    ensures grown { IfOk result (λ c. Grows made.old made.new (listed_clause window_number c.spawn ++ (listed_clause window_number (Some c.eval) ++ listed_clause window_number c.close)) (listed_clause literal_text c.spawn ++ (listed_clause literal_text (Some c.eval) ++ listed_clause literal_text c.close))) }
{
    let spawn = spawn_of(alloc, declarations, targets, n, x, made)?;
    let eval = eval_of(alloc, declarations, targets, n, x, made)?;
    let close = close_of(alloc, declarations, targets, n, x, made)?;
    Ok(Clauses { spawn, eval, close })
}

/// What an output says before its clauses.
#[derive(Drop)]
struct Head {
    name: Text,
    message: Text,
    parameters: Kinds,
}

fn head_of(alloc: Global, x: &Output) -> Result<Head, Memory>
    ensures name { IfOk result (λ h. h.name ≡ x.now.name.text) }
    ensures message { IfOk result (λ h. h.message ≡ []) }
    ensures parameters { IfOk result (λ h. h.parameters ≡ map (λ (t : TreeTyped). kind_spelled t.kind) x.now.parameters) }
{
    let name = Text::from_bytes(alloc, x.name.text.as_bytes())?;
    let message = Text::from_bytes(alloc, &[])?;
    let parameters = kinds(alloc, x.parameters.as_slice())?;
    Ok(Head {
        name,
        message,
        parameters,
    })
}

/// The stream of an output, which is stream n.
pub(crate) fn output(
    alloc: Global,
    declarations: &[Declaration],
    targets: &TargetTable,
    n: u32,
    x: &Output,
    made: &mut Made,
) -> Result<Stream, Memory>
    requires { Means targets.now (targets_of declarations.now) }
    ensures resolved { IfOk result (λ s. OutputOf declarations.now made.new n x.now s) }
    ensures grown { IfOk result (λ s. GrowsByStream made.old made.new s) }
{
    let head = head_of(alloc, x)?;
    let clauses = clauses_of(alloc, declarations, targets, n, x, made)?;
    Ok(Stream {
        name: head.name,
        place: x.name.at,
        sort: Sort::Output,
        message: head.message,
        kind: kind_written(&x.kind),
        parameters: head.parameters,
        spawn: clauses.spawn,
        eval: Some(clauses.eval),
        close: clauses.close,
    })
}

/// The name of the k-th trigger.
fn trigger_name(alloc: Global, k: u32) -> Result<Text, Memory>
    ensures { IfOk result (λ name. name ≡ codes "trigger_" ++ decimal k) }
{
    let mut name = Text::from_bytes(alloc, b"trigger_")?;
    number_text(k as u64, &mut name)?;
    Ok(name)
}

/// The eval clause of a trigger, which is stream n.
fn trigger_clause_of(
    alloc: Global,
    declarations: &[Declaration],
    targets: &TargetTable,
    n: u32,
    x: &Trigger,
    made: &mut Made,
) -> Result<Clause, Memory>
    requires { Means targets.now (targets_of declarations.now) }
    ensures resolved { IfOk result (λ c. TriggerClauseOf declarations.now made.new n x.now c) }
    ensures grown { IfOk result (λ c. GrowsByClause made.old made.new (Some c)) }
{
    let none = TargetTable::create(alloc);
    let scope = Scope {
        declarations,
        targets,
        parameters: &none,
        stream: n,
        clause: Part::Eval,
    };
    let clause = trigger_clause(alloc, &scope, x, made)?;
    Ok(clause)
}

/// The stream of the k-th trigger, which is stream n.
pub(crate) fn trigger(
    alloc: Global,
    declarations: &[Declaration],
    targets: &TargetTable,
    n: u32,
    k: u32,
    x: &Trigger,
    made: &mut Made,
) -> Result<Stream, Memory>
    requires { Means targets.now (targets_of declarations.now) }
    ensures resolved { IfOk result (λ s. TriggerOf declarations.now made.new n k x.now s) }
    ensures grown { IfOk result (λ s. GrowsByStream made.old made.new s) }
{
    let name = trigger_name(alloc, k)?;
    let message = Text::from_bytes(alloc, x.message.as_bytes())?;
    let eval = trigger_clause_of(alloc, declarations, targets, n, x, made)?;
    Ok(Stream {
        name,
        place: x.when.at,
        sort: Sort::Trigger,
        message,
        kind: Some(Kind::Bool),
        parameters: Kinds::create(alloc),
        spawn: None,
        eval: Some(eval),
        close: None,
    })
}
