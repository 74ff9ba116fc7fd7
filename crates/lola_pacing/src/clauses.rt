//! What is found of the clauses of all streams.

ghost use Rattle.std.specs.Prelude.{◌≡◌, ◌≤◌, ◌<◌, IfOk, length, map};
ghost use Rattle.lola_model.specs.Accepted.{IsClauseInRange, IsSpecInRange};
ghost use Rattle.lola_model.specs.Leaves.{onward};
ghost use Rattle.lola_model.specs.PacingFound.{finding_at};
ghost use Rattle.lola_model.specs.Formulas.{AreOverInputs, IsClauseOverInputs};
ghost use Rattle.lola_model.specs.Pacings.{InStep, IsClauseFound, IsCloseFound, IsEvalFound, IsFromLeaves, IsSpawnFound, only_pacing, place_of as place_where};
ghost use Rattle.lola_pacing.specs.Steps.{IsPartFound};

use crate::found::of_leaves;
use crate::given::{has_spawn, of_pace};
use crate::given_rates::{copied, none_found};
use crate::leaves::{is_end, leaves};
use crate::numbers::StreamNumbers;
use lola_model::finding::FoundPacing;
use lola_model::spec::{Clause, Part, Spec, Stream};
use lola_value::text::Memory;
use std::alloc::Global;

/// What is found of a clause of a stream from its leaves.
fn from_leaves(
    alloc: Global,
    spec: &Spec,
    lists: &[StreamNumbers],
    owns: &[FoundPacing],
    number: u32,
    at: u32,
    alone: FoundPacing,
    clause: &Option<Clause>,
) -> Result<FoundPacing, Memory>
    requires numbers { IsSpecInRange spec.now }
    requires streams { length spec.now.streams ≤ 1024 }
    requires clause { IsClauseInRange (length spec.now.streams) (length spec.now.windows) clause.now }
    requires lists { lists.now ≡ map onward spec.now.streams }
    ensures { IfOk result (λ finding. IsFromLeaves spec.now.streams owns.now number at alone clause.now finding) }
{
    let leaves = leaves(alloc, spec, lists, number, clause)?;
    let finding = of_leaves(alloc, at, alone, owns, leaves.as_slice())?;
    Ok(finding)
}

/// What is found of a clause of a stream, where a spawn clause makes its instances or not: by its `@`, or from its leaves.
fn of_clause(
    alloc: Global,
    spec: &Spec,
    lists: &[StreamNumbers],
    owns: &[FoundPacing],
    number: u32,
    at: u32,
    spawned: bool,
    alone: FoundPacing,
    clause: &Option<Clause>,
) -> Result<FoundPacing, Memory>
    requires numbers { IsSpecInRange spec.now }
    requires streams { length spec.now.streams ≤ 1024 }
    requires clause { IsClauseInRange (length spec.now.streams) (length spec.now.windows) clause.now }
    requires formula { IsClauseOverInputs clause.now }
    requires lists { lists.now ≡ map onward spec.now.streams }
    ensures { IfOk result (λ finding. IsClauseFound spec.now.streams owns.now number at spawned alone clause.now finding) }
{
    match clause {
        None => Ok(FoundPacing::Unpaced),
        Some(inner) => match &inner.pace {
            Some(pace) => of_pace(alloc, spawned, pace),
            None => from_leaves(alloc, spec, lists, owns, number, at, alone, clause),
        },
    }
}

/// A copy of what is found of a stream.
fn copied_at(alloc: Global, findings: &[FoundPacing], stream: u32) -> Result<FoundPacing, Memory>
    ensures { IfOk result (λ copy. copy ≡ finding_at findings.now stream) }
{
    match findings.get(stream as usize) {
        Some(finding) => copied(alloc, finding),
        None => Ok(FoundPacing::Unpaced),
    }
}

/// A copy of a pacing, and nothing of what is refused.
fn only_paced(alloc: Global, finding: &FoundPacing) -> Result<FoundPacing, Memory>
    ensures { IfOk result (λ copy. copy ≡ only_pacing finding.now) }
{
    match finding {
        FoundPacing::Paced(_) => copied(alloc, finding),
        FoundPacing::Refused(_) => Ok(FoundPacing::Unpaced),
        FoundPacing::Unpaced => Ok(FoundPacing::Unpaced),
    }
}

/// The same of a stream.
fn only_paced_at(
    alloc: Global,
    findings: &[FoundPacing],
    stream: u32,
) -> Result<FoundPacing, Memory>
    ensures { IfOk result (λ copy. copy ≡ only_pacing (finding_at findings.now stream)) }
{
    match findings.get(stream as usize) {
        Some(finding) => only_paced(alloc, finding),
        None => Ok(FoundPacing::Unpaced),
    }
}

/// What is found of a stream's eval clause, or of an input.
fn of_eval(
    alloc: Global,
    spec: &Spec,
    lists: &[StreamNumbers],
    owns: &[FoundPacing],
    number: u32,
    stream: &Stream,
) -> Result<FoundPacing, Memory>
    requires numbers { IsSpecInRange spec.now }
    requires streams { length spec.now.streams ≤ 1024 }
    requires clause { IsClauseInRange (length spec.now.streams) (length spec.now.windows) stream.now.eval }
    requires formula { IsClauseOverInputs stream.now.eval }
    requires lists { lists.now ≡ map onward spec.now.streams }
    ensures { IfOk result (λ finding. IsEvalFound spec.now.streams owns.now number stream.now finding) }
{
    if is_end(stream) {
        return copied_at(alloc, owns, number);
    }
    let at = stream.place;
    of_clause(
        alloc,
        spec,
        lists,
        owns,
        number,
        at,
        has_spawn(stream),
        none_found(at),
        &stream.eval,
    )
}

/// The place of the word that begins a clause.
fn place_of(clause: &Option<Clause>) -> u32
    ensures { result ≡ place_where clause.now }
{
    match clause {
        None => 0,
        Some(clause) => clause.place,
    }
}

/// What is found of a stream's spawn clause.
fn of_spawn(
    alloc: Global,
    spec: &Spec,
    lists: &[StreamNumbers],
    owns: &[FoundPacing],
    number: u32,
    stream: &Stream,
) -> Result<FoundPacing, Memory>
    requires numbers { IsSpecInRange spec.now }
    requires streams { length spec.now.streams ≤ 1024 }
    requires clause { IsClauseInRange (length spec.now.streams) (length spec.now.windows) stream.now.spawn }
    requires formula { IsClauseOverInputs stream.now.spawn }
    requires lists { lists.now ≡ map onward spec.now.streams }
    ensures { IfOk result (λ finding. IsSpawnFound spec.now.streams owns.now number stream.now finding) }
{
    let at = place_of(&stream.spawn);
    of_clause(
        alloc,
        spec,
        lists,
        owns,
        number,
        at,
        false,
        none_found(at),
        &stream.spawn,
    )
}

/// What is found of a stream's close clause, where that of the eval clauses is found.
fn of_close(
    alloc: Global,
    spec: &Spec,
    lists: &[StreamNumbers],
    owns: &[FoundPacing],
    evals: &[FoundPacing],
    number: u32,
    stream: &Stream,
) -> Result<FoundPacing, Memory>
    requires numbers { IsSpecInRange spec.now }
    requires streams { length spec.now.streams ≤ 1024 }
    requires clause { IsClauseInRange (length spec.now.streams) (length spec.now.windows) stream.now.close }
    requires formula { IsClauseOverInputs stream.now.close }
    requires lists { lists.now ≡ map onward spec.now.streams }
    ensures { IfOk result (λ finding. IsCloseFound spec.now.streams owns.now evals.now number stream.now finding) }
{
    let alone = only_paced_at(alloc, evals, number)?;
    of_clause(
        alloc,
        spec,
        lists,
        owns,
        number,
        stream.place,
        has_spawn(stream),
        alone,
        &stream.close,
    )
}

/// What is found of one of a stream's clauses.
fn of_part(
    alloc: Global,
    spec: &Spec,
    lists: &[StreamNumbers],
    owns: &[FoundPacing],
    evals: &[FoundPacing],
    part: Part,
    number: u32,
    stream: &Stream,
) -> Result<FoundPacing, Memory>
    requires numbers { IsSpecInRange spec.now }
    requires streams { length spec.now.streams ≤ 1024 }
    requires spawn { IsClauseInRange (length spec.now.streams) (length spec.now.windows) stream.now.spawn }
    requires eval { IsClauseInRange (length spec.now.streams) (length spec.now.windows) stream.now.eval }
    requires close { IsClauseInRange (length spec.now.streams) (length spec.now.windows) stream.now.close }
    requires spawn_formula { IsClauseOverInputs stream.now.spawn }
    requires eval_formula { IsClauseOverInputs stream.now.eval }
    requires close_formula { IsClauseOverInputs stream.now.close }
    requires lists { lists.now ≡ map onward spec.now.streams }
    ensures { IfOk result (λ finding. IsPartFound spec.now.streams owns.now evals.now part number stream.now finding) }
{
    match part {
        Part::Spawn => of_spawn(alloc, spec, lists, owns, number, stream),
        Part::Eval => of_eval(alloc, spec, lists, owns, number, stream),
        Part::Close => of_close(alloc, spec, lists, owns, evals, number, stream),
    }
}

/// What is found of one clause of each stream; for close clauses that of the eval clauses is found before.
pub fn of_parts(
    alloc: Global,
    spec: &Spec,
    lists: &[StreamNumbers],
    owns: &[FoundPacing],
    evals: &[FoundPacing],
    part: Part,
) -> Result<Vec<FoundPacing>, Memory>
    requires numbers { IsSpecInRange spec.now }
    requires streams { length spec.now.streams ≤ 1024 }
    requires formulas { AreOverInputs spec.now.streams }
    requires lists { lists.now ≡ map onward spec.now.streams }
    ensures { IfOk result (λ found. InStep (IsPartFound spec.now.streams owns.now evals.now part) 0 spec.now.streams found.items) }
{
    let mut found = Vec::new(alloc);
    let mut number = 0;
    for stream in spec.streams.as_slice() {
        found.push(of_part(alloc, spec, lists, owns, evals, part, number, stream)?)?;
        number += 1;
    }
    Ok(found)
}
