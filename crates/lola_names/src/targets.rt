//! What names stand for.

ghost use Rattle.std.specs.Prelude.{◌≡◌, ◌++◌, [], ◌∷◌, ◌+◌, IfOk, OnOk, length};
ghost use Rattle.lola_names.specs.Targets.{targets_of, targets_with, counted_with, input_targets, parameter_targets};
ghost use Rattle.lola_names.specs.Tables.{PutsBehind, Means, count_of};

use lola_names_refused::table::NameTable;
use lola_parser_grammar::declarations::Declaration;
use lola_parser_grammar::literals::{Name, Typed};
use lola_value::text::Memory;
use std::alloc::Global;

/// What a name stands for, by number.
#[derive(Clone, Copy)]
pub enum Target {
    /// An input: the number of its stream, and its number among the inputs.
    Input(u32, u32),
    /// A constant: its place among the declarations.
    Constant(u32),
    /// An output: the number of its stream.
    Output(u32),
    /// A parameter of the stream whose clause the name stands in: its place in the list of parameters.
    Parameter(u32),
}

/// Names with what they stand for.
pub type TargetTable = NameTable<Target>;

/// How many streams, inputs and declarations stand before.
#[derive(Clone, Copy)]
struct Counts {
    streams: u32,
    inputs: u32,
    declarations: u32,
}

/// One more.
fn next(n: u32) -> Result<u32, Memory>
    ensures { IfOk result (λ m. m ≡ n + 1) }
{
    match n.checked_add(1) {
        Some(m) => Ok(m),
        None => Err(Memory),
    }
}

/// Inputs, and the numbers behind the last of them.
fn put_inputs(inputs: &[Typed], counts: Counts, table: &mut TargetTable) -> Result<Counts, Memory>
    ensures table { OnOk result (PutsBehind table.old (input_targets counts.streams counts.inputs inputs.now) table.new) }
    ensures streams { IfOk result (λ c. c.streams ≡ counts.streams + length inputs.now) }
    ensures inputs { IfOk result (λ c. c.inputs ≡ counts.inputs + length inputs.now) }
    ensures declarations { IfOk result (λ c. c.declarations ≡ counts.declarations) }
{
    let mut stream = counts.streams;
    let mut number = counts.inputs;
    for input in inputs {
        table.put(&input.name, Target::Input(stream, number))?;
        stream = next(stream)?;
        number = next(number)?;
    }
    Ok(Counts {
        streams: stream,
        inputs: number,
        declarations: counts.declarations,
    })
}

/// The names of a declaration, and the numbers behind it but for that of declarations.
fn put_declaration(
    declaration: &Declaration,
    counts: Counts,
    table: &mut TargetTable,
) -> Result<Counts, Memory>
    ensures table { OnOk result (PutsBehind table.old (targets_with (count_of counts) declaration.now) table.new) }
    ensures counts { IfOk result (λ c. count_of (record c { declarations = counts.declarations + 1 }) ≡ counted_with (count_of counts) declaration.now) }
{
    match declaration {
        Declaration::Inputs(x) => put_inputs(x.inputs.as_slice(), counts, table),
        Declaration::Constant(x) => {
            table.put(&x.name, Target::Constant(counts.declarations))?;
            Ok(counts)
        }
        Declaration::Output(x) => {
            table.put(&x.name, Target::Output(counts.streams))?;
            let streams = next(counts.streams)?;
            Ok(Counts {
                streams,
                inputs: counts.inputs,
                declarations: counts.declarations,
            })
        }
        Declaration::Trigger(_) => {
            let streams = next(counts.streams)?;
            Ok(Counts {
                streams,
                inputs: counts.inputs,
                declarations: counts.declarations,
            })
        }
    }
}

/// The names of a specification. Of a name that is declared twice the first declaration counts.
pub fn targets(alloc: Global, declarations: &[Declaration]) -> Result<TargetTable, Memory>
    ensures { IfOk result (λ t. Means t (targets_of declarations.now)) }
{
    let mut table = TargetTable::create(alloc);
    let mut counts = Counts {
        streams: 0,
        inputs: 0,
        declarations: 0,
    };
    for declaration in declarations {
        let behind = put_declaration(declaration, counts, &mut table)?;
        let number = next(counts.declarations)?;
        counts = Counts {
            streams: behind.streams,
            inputs: behind.inputs,
            declarations: number,
        };
    }
    Ok(table)
}

/// The parameters of a stream, from the first.
pub fn parameters(alloc: Global, parameters: &[Typed]) -> Result<TargetTable, Memory>
    ensures { IfOk result (λ t. Means t (parameter_targets 0 parameters.now)) }
{
    let mut table = TargetTable::create(alloc);
    let mut number = 0;
    for parameter in parameters {
        table.put(&parameter.name, Target::Parameter(number))?;
        number = next(number)?;
    }
    Ok(table)
}
