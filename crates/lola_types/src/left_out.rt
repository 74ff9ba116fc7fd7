//! The kinds of streams that leave them out.

ghost use Rattle.std.specs.Prelude.{◌≡◌, ◌≤◌, IfOk, length};
ghost use Rattle.lola_types.specs.Around.{setting};
ghost use Rattle.lola_types.specs.LeftOut.{part_kind, kind_after as kind_after_round, declared_kinds, setting_of, round as kinds_after, missing_kinds, with_least, after_round, kinds_of};

use crate::around::Around;
use crate::found::Found;
use crate::part::find;
use lola_model::spec::{Spec, Stream};
use lola_value::text::Memory;
use lola_value::value::Kind;
use std::alloc::Global;

/// Where the clauses of a specification stand in which parameters of these kinds are in scope.
pub fn standing<'a>(spec: &'a Spec, kinds: &'a [Option<Kind>], parameters: &'a [Kind]) -> Around<'a>
    ensures { setting result ≡ setting_of spec.now kinds.now parameters.now }
{
    Around {
        streams: spec.streams.as_slice(),
        windows: spec.windows.as_slice(),
        kinds,
        parameters,
    }
}

/// The kind of a part that has one.
fn kind_of(part: Found) -> Option<Kind>
    ensures { result ≡ part_kind part }
{
    match part {
        Found::Of(kind, _) => Some(kind),
        _ => None,
    }
}

/// The kind of a stream after a round: where it is not found yet, that of its eval clause's expression, if it has one by
/// the kinds from before the round.
fn kind_after(
    spec: &Spec,
    before: &[Option<Kind>],
    kind: Option<Kind>,
    stream: &Stream,
) -> Option<Kind>
    ensures { result ≡ kind_after_round spec.now before.now kind stream.now }
{
    if kind.is_some() {
        return kind;
    }
    match &stream.eval {
        None => None,
        Some(clause) => match clause.with.as_slice().first() {
            None => None,
            Some(expr) => {
                let around = standing(spec, before, stream.parameters.as_slice());
                kind_of(find(&around, expr))
            }
        },
    }
}

/// The kinds of all streams after a round.
fn round(alloc: Global, spec: &Spec, kinds: &[Option<Kind>]) -> Result<Vec<Option<Kind>>, Memory>
    requires { length kinds.now ≡ length spec.now.streams }
    ensures { IfOk result (λ next. next.items ≡ kinds_after spec.now kinds.now) }
{
    let mut next = Vec::new(alloc);
    let streams = spec.streams.as_slice();
    for (number, kind) in kinds.iter().enumerate() {
        next.push(kind_after(spec, kinds, *kind, &streams[number]))?;
    }
    Ok(next)
}

/// How many kinds are not found.
fn missing(kinds: &[Option<Kind>]) -> usize
    ensures { result ≡ missing_kinds kinds.now }
{
    let mut count = 0;
    for kind in kinds {
        if kind.is_none() {
            count += 1;
        }
    }
    count
}

/// Gives the least stream without a kind `Int64`.
fn give_least(kinds: &mut Vec<Option<Kind>>)
    ensures { kinds.new.items ≡ with_least kinds.old.items }
{
    for number in 0..kinds.len() {
        if kinds[number].is_none() {
            kinds[number] = Some(Kind::Int64);
            return;
        }
    }
}

/// The kinds after a round; where it found nothing, the least stream without a kind gets one.
#[tactic(auto, using(crate::proofs::RoundLemmas::round_length, crate::proofs::RoundLemmas::least_length))]
fn next_kinds(
    alloc: Global,
    spec: &Spec,
    mut kinds: Vec<Option<Kind>>,
) -> Result<Vec<Option<Kind>>, Memory>
    requires { length kinds.items ≡ length spec.now.streams }
    ensures next { IfOk result (λ next. next.items ≡ after_round kinds.items (kinds_after spec.now kinds.items)) }
    ensures count { IfOk result (λ next. length next.items ≡ length spec.now.streams) }
{
    let next = round(alloc, spec, &kinds)?;
    if missing(&next) == missing(&kinds) {
        give_least(&mut kinds);
        return Ok(kinds);
    }
    Ok(next)
}

/// The kinds that are declared.
fn declared(alloc: Global, streams: &[Stream]) -> Result<Vec<Option<Kind>>, Memory>
    ensures { IfOk result (λ kinds. kinds.items ≡ declared_kinds streams.now) }
{
    let mut kinds = Vec::new(alloc);
    for stream in streams {
        kinds.push(stream.kind)?;
    }
    Ok(kinds)
}

/// The kinds of all streams, those that are left out too: in rounds, each stream whose kind is not found gets that of its
/// eval clause's expression, if that has one by the kinds from before the round; where a round finds nothing, the least of
/// them gets `Int64`. So each of them is found.
#[tactic(auto, using(crate::proofs::RoundLemmas::rounds_of_found, crate::proofs::RoundLemmas::round_step, crate::proofs::RoundLemmas::all_found))]
pub fn kinds(alloc: Global, spec: &Spec) -> Result<Vec<Option<Kind>>, Memory>
    ensures kinds { IfOk result (λ kinds. kinds.items ≡ kinds_of spec.now) }
    ensures found { missing_kinds (kinds_of spec.now) ≡ 0 }
{
    let streams = spec.streams.as_slice();
    let mut kinds = declared(alloc, streams)?;
    for _turn in 0..streams.len() {
        if missing(&kinds) == 0 {
            return Ok(kinds);
        }
        kinds = next_kinds(alloc, spec, kinds)?;
    }
    Ok(kinds)
}
