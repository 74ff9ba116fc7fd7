//! Specifications with their kinds filled in.
#![tactic(auto, using(crate::proofs::SameLemmas::same_filled_if_free))]

ghost use Rattle.std.specs.Prelude.{◌≡◌, [], ◌∷◌, IfOk};
ghost use Rattle.lola_types.specs.Around.{setting};
ghost use Rattle.lola_types.specs.Refused.{with_parameters};
ghost use Rattle.lola_types.specs.LeftOut.{setting_of};
ghost use Rattle.lola_types.specs.Filled.{SameTree, filled_whole, FilledWhen, FilledWith, FilledClause, FilledClauses, FilledStream, FilledStreams, IsFilledBy, Checked};

use crate::around::Around;
use crate::copies;
use crate::filled::{fill, fill_if_free};
use crate::left_out::{kinds, standing};
use crate::wholes::{first_refusal, kind_at, number_kind, stream_kind, within};
use lola_model::expr::Expr;
use lola_model::spec::{Clause, Exprs, Spec, Stream, Streams};
use lola_value::front::FrontEnd;
use lola_value::text::Memory;
use lola_value::value::Kind;
use std::alloc::Global;

/// A whole expression that has to be of this kind, filled in.
fn fill_whole(alloc: Global, around: &Around, want: Kind, expr: &Expr) -> Result<Expr, Memory>
    ensures { IfOk result (λ full. SameTree (filled_whole (setting around.now) want expr.now) full) }
{
    let filled = fill(alloc, around, expr)?;
    let mut full = filled.expr;
    fill_if_free(number_kind(want), filled.part, &mut full);
    Ok(full)
}

/// A condition, filled in.
fn fill_when(alloc: Global, around: &Around, when: &Option<Expr>) -> Result<Option<Expr>, Memory>
    ensures { IfOk result (λ full. FilledWhen (setting around.now) when.now full) }
{
    match when {
        None => Ok(None),
        Some(expr) => {
            let full = fill_whole(alloc, around, Kind::Bool, expr)?;
            Ok(Some(full))
        }
    }
}

/// Expressions that have to be of these kinds, filled in.
fn fill_with(
    alloc: Global,
    around: &Around,
    wants: &[Kind],
    exprs: &[Expr],
) -> Result<Exprs, Memory>
    ensures { IfOk result (λ full. FilledWith (setting around.now) wants.now exprs.now full) }
{
    let mut full = Exprs::create(alloc);
    for (number, expr) in exprs.iter().enumerate() {
        let item = fill_whole(alloc, around, kind_at(wants, number), expr)?;
        full.push(item)?;
    }
    Ok(full)
}

/// A clause whose expressions have to be of these kinds, filled in.
fn fill_clause(
    alloc: Global,
    around: &Around,
    wants: &[Kind],
    clause: &Clause,
) -> Result<Clause, Memory>
    ensures { IfOk result (λ full. FilledClause (setting around.now) wants.now clause.now full) }
{
    let with_at = copies::places(alloc, clause.with_at.as_slice())?;
    let pace = copies::pace(alloc, &clause.pace)?;
    let when = fill_when(alloc, around, &clause.when)?;
    let with = fill_with(alloc, around, wants, clause.with.as_slice())?;
    Ok(Clause {
        place: clause.place,
        pace,
        when,
        when_at: clause.when_at,
        with,
        with_at,
    })
}

/// A clause, if there is one, filled in.
fn fill_clauses(
    alloc: Global,
    around: &Around,
    wants: &[Kind],
    clause: &Option<Clause>,
) -> Result<Option<Clause>, Memory>
    ensures { IfOk result (λ full. FilledClauses (setting around.now) wants.now clause.now full) }
{
    match clause {
        None => Ok(None),
        Some(clause) => {
            let full = fill_clause(alloc, around, wants, clause)?;
            Ok(Some(full))
        }
    }
}

/// The clauses of a stream.
#[derive(Drop)]
struct Clauses {
    spawn: Option<Clause>,
    eval: Option<Clause>,
    close: Option<Clause>,
}

/// The clauses of a stream of this kind, filled in.
fn fill_stream_clauses(
    alloc: Global,
    around: &Around,
    kind: Kind,
    stream: &Stream,
) -> Result<Clauses, Memory>
    ensures spawn { IfOk result (λ full. FilledClauses (with_parameters (setting around.now) []) stream.now.parameters stream.now.spawn full.spawn) }
    ensures eval { IfOk result (λ full. FilledClauses (with_parameters (setting around.now) stream.now.parameters) (kind ∷ []) stream.now.eval full.eval) }
    ensures close { IfOk result (λ full. FilledClauses (with_parameters (setting around.now) stream.now.parameters) [] stream.now.close full.close) }
{
    let parameters = stream.parameters.as_slice();
    let outer = within(around, &[]);
    let inner = within(around, parameters);
    let spawn = fill_clauses(alloc, &outer, parameters, &stream.spawn)?;
    let eval = fill_clauses(alloc, &inner, &[kind], &stream.eval)?;
    let close = fill_clauses(alloc, &inner, &[], &stream.close)?;
    Ok(Clauses { spawn, eval, close })
}

/// A stream of this kind, filled in.
fn fill_stream(
    alloc: Global,
    around: &Around,
    kind: Kind,
    stream: &Stream,
) -> Result<Stream, Memory>
    ensures { IfOk result (λ full. FilledStream (setting around.now) kind stream.now full) }
{
    let name = copies::text(alloc, &stream.name)?;
    let message = copies::text(alloc, &stream.message)?;
    let parameters = copies::kinds(alloc, stream.parameters.as_slice())?;
    let clauses = fill_stream_clauses(alloc, around, kind, stream)?;
    Ok(Stream {
        name,
        place: stream.place,
        sort: stream.sort,
        message,
        kind: Some(kind),
        parameters,
        spawn: clauses.spawn,
        eval: clauses.eval,
        close: clauses.close,
    })
}

/// All streams, filled in.
fn fill_streams(
    alloc: Global,
    around: &Around,
    kinds: &[Option<Kind>],
    streams: &[Stream],
) -> Result<Streams, Memory>
    ensures { IfOk result (λ full. FilledStreams (setting around.now) kinds.now streams.now full) }
{
    let mut full = Streams::create(alloc);
    for (number, stream) in streams.iter().enumerate() {
        let item = fill_stream(alloc, around, stream_kind(kinds, number), stream)?;
        full.push(item)?;
    }
    Ok(full)
}

/// A specification with the kinds of all its parts filled in, where its streams are of these.
pub fn full(alloc: Global, spec: &Spec, kinds: &[Option<Kind>]) -> Result<Spec, Memory>
    ensures { IfOk result (λ full. IsFilledBy spec.now kinds.now full) }
{
    let refused = copies::places(alloc, spec.refused.as_slice())?;
    let windows = copies::windows(alloc, spec.windows.as_slice())?;
    let constants = copies::constants(alloc, spec.constants.as_slice())?;
    let texts = copies::texts(alloc, spec.texts.as_slice())?;
    let around = standing(spec, kinds, &[]);
    let streams = fill_streams(alloc, &around, kinds, spec.streams.as_slice())?;
    Ok(Spec {
        streams,
        constants,
        windows,
        texts,
        refused,
    })
}

/// The specification with every kind filled in, or the first refusal for its kinds: E9 where a row of the table of kinds
/// does not hold or a whole expression is not what is asked of it, E10 where a number is out of its range. The kinds that
/// outputs leave out are found in rounds, as the RTLola language reference lets them be inferred.
pub fn check(alloc: Global, spec: &Spec) -> Result<Spec, FrontEnd>
    ensures { Checked spec.now result }
{
    let kinds = match kinds(alloc, spec) {
        Ok(kinds) => kinds,
        Err(_) => return Err(FrontEnd::Memory),
    };
    match first_refusal(spec, &kinds) {
        Some(refusal) => Err(FrontEnd::Refused(refusal)),
        None => match full(alloc, spec, &kinds) {
            Ok(full) => Ok(full),
            Err(_) => Err(FrontEnd::Memory),
        },
    }
}
