//! The streams of a specification.

ghost use Rattle.std.specs.Prelude.{◌≡◌, ◌++◌, ◌+◌, [], ◌∷◌, IfOk, OnOk, length, map};
ghost use Rattle.lola_names.specs.Clauses.{input_stream};
ghost use Rattle.lola_names.specs.Tables.{Means};
ghost use Rattle.lola_names.specs.Targets.{targets_of};
ghost use Rattle.lola_names.specs.Making.{AreStreamsOf, GrowsByStreams, Puts};

use crate::made::Made;
use crate::outputs::{input, output, trigger};
use crate::targets::TargetTable;
use lola_model::spec::Streams;
use lola_parser_grammar::declarations::Declaration;
use lola_parser_grammar::literals::Typed;
use lola_value::text::Memory;
use std::alloc::Global;

/// Puts inputs behind the others.
fn put_inputs(alloc: Global, xs: &[Typed], streams: &mut Streams) -> Result<(), Memory>
    ensures { OnOk result (streams.new ≡ streams.old ++ map input_stream xs.now) }
{
    for x in xs {
        let stream = input(alloc, x)?;
        streams.push(stream)?;
    }
    Ok(())
}

/// The number of the next stream.
fn next_stream(streams: &Streams) -> Result<u32, Memory>
    ensures { IfOk result (λ n. n ≡ length streams.now) }
{
    match u32::try_from(streams.as_slice().len()) {
        Ok(n) => Ok(n),
        Err(_) => Err(Memory),
    }
}

/// One more trigger.
fn next_trigger(k: u32) -> Result<u32, Memory>
    ensures { IfOk result (λ m. m ≡ k + 1) }
{
    match k.checked_add(1) {
        Some(m) => Ok(m),
        None => Err(Memory),
    }
}

/// Puts the streams of a declaration behind the others, behind so many triggers.
fn put_declaration(
    alloc: Global,
    declarations: &[Declaration],
    targets: &TargetTable,
    x: &Declaration,
    triggers: &mut u32,
    streams: &mut Streams,
    made: &mut Made,
) -> Result<(), Memory>
    requires { Means targets.now (targets_of declarations.now) }
    ensures { OnOk result (Puts declarations.now x.now triggers.old triggers.new streams.old streams.new made.old made.new) }
{
    match x {
        Declaration::Inputs(x) => {
            put_inputs(alloc, x.inputs.as_slice(), streams)?;
            Ok(())
        }
        Declaration::Constant(_) => Ok(()),
        Declaration::Output(x) => {
            let n = next_stream(streams)?;
            let stream = output(alloc, declarations, targets, n, x, made)?;
            streams.push(stream)?;
            Ok(())
        }
        Declaration::Trigger(x) => {
            let n = next_stream(streams)?;
            let k = next_trigger(*triggers)?;
            *triggers = k;
            let stream = trigger(alloc, declarations, targets, n, k, x, made)?;
            streams.push(stream)?;
            Ok(())
        }
    }
}

/// The streams of all declarations, in the order of the text.
pub(crate) fn streams(
    alloc: Global,
    declarations: &[Declaration],
    targets: &TargetTable,
    made: &mut Made,
) -> Result<Streams, Memory>
    requires { Means targets.now (targets_of declarations.now) }
    ensures resolved { IfOk result (λ ss. AreStreamsOf declarations.now made.new ss) }
    ensures grown { IfOk result (λ ss. GrowsByStreams made.old made.new ss) }
{
    let mut streams = Streams::create(alloc);
    let mut triggers = 0;
    for declaration in declarations {
        put_declaration(
            alloc,
            declarations,
            targets,
            declaration,
            &mut triggers,
            &mut streams,
            made,
        )?;
    }
    Ok(streams)
}
