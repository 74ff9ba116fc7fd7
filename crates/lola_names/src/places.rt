//! The places of what is out of range, of clauses, of streams and of all.

ghost use Rattle.std.specs.Prelude.{◌≡◌, ◌++◌, IfOk, OnOk, drop};
ghost use Rattle.std.specs.List.{flat_map};
ghost use Rattle.lola_names.specs.Specification as range;
ghost use Rattle.lola_names.specs.Ranged.{first_ranges, streams_behind};

use crate::ranges::{pacing_ranges, part_ranges};
use lola_model::spec::{Clause, Pace, Places, Stream};
use lola_parser_grammar::clauses::{Close, Eval, Part, Spawn};
use lola_parser_grammar::declarations::{Declaration, Output, Trigger};
use lola_parser_grammar::pacing::Pacing;
use lola_value::text::Memory;
use std::alloc::Global;

/// Of a clause's pacing, as it is resolved.
fn clause_pacing(x: &Option<Pacing>, clause: &Option<Clause>, to: &mut Places) -> Result<(), Memory>
    ensures { OnOk result (to.new ≡ to.old ++ range.pacing_ranges x.now (range.pace_in clause.now)) }
{
    match clause {
        None => Ok(()),
        Some(clause) => pacing_ranges(x, &clause.pace, to),
    }
}

/// Of a condition, if there is one.
fn when_ranges(x: &Option<Part>, to: &mut Places) -> Result<(), Memory>
    ensures { OnOk result (to.new ≡ to.old ++ range.of_option range.part_ranges x.now) }
{
    match x {
        None => Ok(()),
        Some(part) => part_ranges(part, to),
    }
}

/// Of expressions.
fn with_ranges(xs: &[Part], to: &mut Places) -> Result<(), Memory>
    ensures { OnOk result (to.new ≡ to.old ++ flat_map range.part_ranges xs.now) }
{
    for part in xs {
        part_ranges(part, to)?;
    }
    Ok(())
}

fn spawn_ranges(clause: &Option<Clause>, x: &Option<Spawn>, to: &mut Places) -> Result<(), Memory>
    ensures { OnOk result (to.new ≡ to.old ++ range.of_option (range.spawn_ranges clause.now) x.now) }
{
    match x {
        None => Ok(()),
        Some(x) => {
            clause_pacing(&x.pacing, clause, to)?;
            when_ranges(&x.when, to)?;
            with_ranges(x.with.as_slice(), to)
        }
    }
}

fn eval_ranges(clause: &Option<Clause>, x: &Eval, to: &mut Places) -> Result<(), Memory>
    ensures { OnOk result (to.new ≡ to.old ++ range.eval_ranges clause.now x.now) }
{
    clause_pacing(&x.pacing, clause, to)?;
    when_ranges(&x.when, to)?;
    part_ranges(&x.with, to)
}

fn close_ranges(clause: &Option<Clause>, x: &Option<Close>, to: &mut Places) -> Result<(), Memory>
    ensures { OnOk result (to.new ≡ to.old ++ range.of_option (range.close_ranges clause.now) x.now) }
{
    match x {
        None => Ok(()),
        Some(x) => {
            clause_pacing(&x.pacing, clause, to)?;
            part_ranges(&x.when, to)
        }
    }
}

fn output_ranges(x: &Output, stream: &Stream, to: &mut Places) -> Result<(), Memory>
    ensures { OnOk result (to.new ≡ to.old ++ range.output_ranges x.now stream.now) }
{
    spawn_ranges(&stream.spawn, &x.spawn, to)?;
    eval_ranges(&stream.eval, &x.eval, to)?;
    close_ranges(&stream.close, &x.close, to)
}

fn trigger_ranges(x: &Trigger, stream: &Stream, to: &mut Places) -> Result<(), Memory>
    ensures { OnOk result (to.new ≡ to.old ++ range.trigger_ranges x.now stream.now) }
{
    clause_pacing(&x.pacing, &stream.eval, to)?;
    part_ranges(&x.when, to)
}

/// Of a declaration, with the streams from its own on.
fn declaration_ranges(x: &Declaration, streams: &[Stream], to: &mut Places) -> Result<(), Memory>
    ensures { OnOk result (to.new ≡ to.old ++ first_ranges x.now streams.now) }
{
    match (x, streams.first()) {
        (Declaration::Output(x), Some(stream)) => output_ranges(x, stream, to),
        (Declaration::Trigger(x), Some(stream)) => trigger_ranges(x, stream, to),
        _ => Ok(()),
    }
}

/// All but so many of the first streams.
fn all_but(streams: &[Stream], count: usize) -> &[Stream]
    ensures { result.now ≡ drop count streams.now }
{
    if count <= streams.len() {
        &streams[count..]
    } else {
        &[]
    }
}

/// The streams behind those of a declaration.
fn behind<'a>(x: &Declaration, streams: &'a [Stream]) -> &'a [Stream]
    ensures { result.now ≡ streams_behind x.now streams.now }
{
    match x {
        Declaration::Inputs(x) => all_but(streams, x.inputs.len()),
        Declaration::Constant(_) => streams,
        Declaration::Output(_) | Declaration::Trigger(_) => all_but(streams, 1),
    }
}

/// The places of what is out of range, of declarations with the streams that they are resolved to.
pub(crate) fn ranges(
    alloc: Global,
    declarations: &[Declaration],
    streams: &[Stream],
) -> Result<Places, Memory>
    ensures { IfOk result (λ places. places ≡ range.ranges_of declarations.now streams.now) }
{
    let mut places = Places::create(alloc);
    let mut rest = streams;
    for declaration in declarations {
        declaration_ranges(declaration, rest, &mut places)?;
        rest = behind(declaration, rest);
    }
    Ok(places)
}
