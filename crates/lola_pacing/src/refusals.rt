//! All refusals of a specification whose pacings are found, and the first of them.

ghost use Rattle.std.specs.Prelude.{◌≡◌, ◌++◌, ◌≤◌, IfOk, OnOk, length};
ghost use Rattle.lola_model.specs.Refusals.{first_of};
ghost use Rattle.lola_model.specs.PacingFound.{finding_at};
ghost use Rattle.lola_model.specs.PacingRefused.{clause_refusals};
ghost use Rattle.lola_model.specs.Pacings.{refusals_from, stream_refusals};

use crate::refused::put_clause;
use lola_model::finding::FoundPacing;
use lola_model::refusals::Refusals;
use lola_model::spec::{Clause, Stream};
use lola_value::front::{Code, Refusal};
use lola_value::text::Memory;
use std::alloc::Global;

/// Puts the refusals of a clause of a stream.
fn put_clause_of(
    alloc: Global,
    list: &mut Vec<Refusal>,
    streams: &[Stream],
    evals: &[FoundPacing],
    window_refusals: &[Option<Code>],
    findings: &[FoundPacing],
    number: u32,
    clause: &Option<Clause>,
) -> Result<(), Memory>
    ensures { OnOk result (list.new.items ≡ list.old.items ++ clause_refusals streams.now evals.now window_refusals.now (finding_at findings.now number) clause.now) }
{
    match findings.get(number as usize) {
        Some(own) => put_clause(alloc, list, streams, evals, window_refusals, own, clause),
        None => put_clause(
            alloc,
            list,
            streams,
            evals,
            window_refusals,
            &FoundPacing::Unpaced,
            clause,
        ),
    }
}

/// Puts the refusals of a stream's clauses.
fn put_stream(
    alloc: Global,
    list: &mut Vec<Refusal>,
    streams: &[Stream],
    spawns: &[FoundPacing],
    evals: &[FoundPacing],
    closes: &[FoundPacing],
    window_refusals: &[Option<Code>],
    number: u32,
    stream: &Stream,
) -> Result<(), Memory>
    ensures { OnOk result (list.new.items ≡ list.old.items ++ stream_refusals streams.now spawns.now evals.now closes.now window_refusals.now number stream.now) }
{
    put_clause_of(
        alloc,
        list,
        streams,
        evals,
        window_refusals,
        spawns,
        number,
        &stream.spawn,
    )?;
    put_clause_of(
        alloc,
        list,
        streams,
        evals,
        window_refusals,
        evals,
        number,
        &stream.eval,
    )?;
    put_clause_of(
        alloc,
        list,
        streams,
        evals,
        window_refusals,
        closes,
        number,
        &stream.close,
    )?;
    Ok(())
}

/// All refusals of streams whose clauses' pacings are found.
pub fn refusals(
    alloc: Global,
    streams: &[Stream],
    spawns: &[FoundPacing],
    evals: &[FoundPacing],
    closes: &[FoundPacing],
    window_refusals: &[Option<Code>],
) -> Result<Vec<Refusal>, Memory>
    requires { length streams.now ≤ 1024 }
    ensures { IfOk result (λ list. list.items ≡ refusals_from streams.now spawns.now evals.now closes.now window_refusals.now 0 streams.now) }
{
    let mut list = Vec::new(alloc);
    let mut number = 0;
    for stream in streams {
        put_stream(
            alloc,
            &mut list,
            streams,
            spawns,
            evals,
            closes,
            window_refusals,
            number,
            stream,
        )?;
        number += 1;
    }
    Ok(list)
}

/// The refusal that comes first, if there is one.
pub fn first(list: &[Refusal]) -> Option<Refusal>
    ensures { result ≡ first_of list.now }
{
    let mut found = Refusals::none();
    for refusal in list {
        found.note(refusal.code, refusal.at);
    }
    found.first()
}
