//! What is refused of a whole specification.
#![tactic(auto, using(crate::proofs::Noted::more_of_none, crate::proofs::Noted::more_of_one, crate::proofs::Noted::more_of_both, crate::proofs::WholeLemmas::more_of_wholes))]

ghost use Rattle.std.specs.Prelude.{ℕ, ◌≡◌, [], ◌∷◌, ◌++◌, flat_map, slice_get, unwrap_or, None};
ghost use Rattle.lola_value.specs.declared.value.Kind.TheVariants as kind;
ghost use Rattle.lola_model.specs.declared.spec.Part.{Part as PartValue};
ghost use Rattle.lola_model.specs.Refusals.{first_of};
ghost use Rattle.lola_model.specs.Wholes.{condition_wholes, with_wholes, clause_wholes, stream_wholes, wholes_from};
ghost use Rattle.lola_types.specs.Around.{setting};
ghost use Rattle.lola_types.specs.Refused.{with_more as and_more, wanted_refusals, number_kind as number_kind_of, whole_refusals, constant_refusals, refusals_of_whole, refusals_by, range_refusals, with_parameters};

use crate::around::Around;
use crate::found::{self, Found, is_integer, same_kind};
use crate::left_out::standing;
use crate::refused::{judge, take_if_free, take_literal};
use lola_model::expr::Expr;
use lola_model::refusals::Refusals;
use lola_model::spec::{Clause, Constant, Spec, Stream};
use lola_value::front::{Code, Refusal};
use lola_value::value::Kind;

/// A whole expression that has to be certain and of this kind is this; `at` is the place of the token before it.
fn note_wanted(want: Kind, at: u32, part: Found, refusals: &mut Refusals)
    ensures { refusals.new ≡ and_more refusals.old (wanted_refusals want at part) }
{
    let is_refused = match part {
        Found::Of(kind, certain) => !(same_kind(kind, want) && certain),
        Found::Free => !is_integer(want),
        Found::Unknown | Found::Broken => false,
    };
    if is_refused {
        refusals.note(Code::WrongType, at);
    }
}

/// The kind, if it is one of numbers.
pub fn number_kind(kind: Kind) -> Option<Kind>
    ensures { result ≡ number_kind_of kind }
{
    if is_integer(kind) { Some(kind) } else { None }
}

/// Notes what a whole expression refuses that has to be of this kind.
fn judge_whole(around: &Around, want: Kind, at: u32, expr: &Expr, refusals: &mut Refusals)
    ensures { refusals.new ≡ and_more refusals.old (whole_refusals (setting around.now) want at expr.now) }
{
    let part = judge(around, expr, refusals);
    note_wanted(want, at, part, refusals);
    take_if_free(number_kind(want), part, expr, refusals);
}

/// The same where parameters of these kinds are in scope.
pub fn within<'a>(around: &Around<'a>, parameters: &'a [Kind]) -> Around<'a>
    ensures { setting result ≡ with_parameters (setting around.now) parameters.now }
{
    Around {
        streams: around.streams,
        windows: around.windows,
        kinds: around.kinds,
        parameters,
    }
}

/// Notes what a condition refuses, if there is one.
fn judge_when(
    around: &Around,
    parameters: &[Kind],
    at: u32,
    when: &Option<Expr>,
    refusals: &mut Refusals,
)
    ensures { (n : ℕ) (p : PartValue) → refusals.new ≡ and_more refusals.old (flat_map (refusals_of_whole (setting around.now)) (condition_wholes n p parameters.now at when.now)) }
{
    match when {
        None => {}
        Some(expr) => judge_whole(&within(around, parameters), Kind::Bool, at, expr, refusals),
    }
}

/// The kind of this number, or `Int64`.
pub fn kind_at(kinds: &[Kind], number: usize) -> Kind
    ensures { result ≡ unwrap_or (slice_get kinds.now number) kind.Int64 }
{
    match kinds.get(number) {
        None => Kind::Int64,
        Some(kind) => *kind,
    }
}

/// The place of this number, or 0.
fn place_at(places: &[u32], number: usize) -> u32
    ensures { result ≡ unwrap_or (slice_get places.now number) 0 }
{
    match places.get(number) {
        None => 0,
        Some(at) => *at,
    }
}

/// The kind of the stream of this number, or `Int64`.
pub fn stream_kind(kinds: &[Option<Kind>], number: usize) -> Kind
    ensures { result ≡ unwrap_or (unwrap_or (slice_get kinds.now number) None) kind.Int64 }
{
    match kinds.get(number) {
        Some(Some(kind)) => *kind,
        _ => Kind::Int64,
    }
}

/// Notes what expressions refuse that have to be of these kinds, those that have none of `Int64`; before them stand tokens
/// at these places.
fn judge_with(
    around: &Around,
    parameters: &[Kind],
    wants: &[Kind],
    places: &[u32],
    exprs: &[Expr],
    refusals: &mut Refusals,
)
    ensures { (n : ℕ) (p : PartValue) → refusals.new ≡ and_more refusals.old (flat_map (refusals_of_whole (setting around.now)) (with_wholes n p parameters.now wants.now places.now exprs.now)) }
{
    let inner = within(around, parameters);
    for (number, expr) in exprs.iter().enumerate() {
        let want = kind_at(wants, number);
        let at = place_at(places, number);
        judge_whole(&inner, want, at, expr, refusals);
    }
}

/// Notes what a clause refuses, if there is one.
fn judge_clause(
    around: &Around,
    parameters: &[Kind],
    wants: &[Kind],
    clause: &Option<Clause>,
    refusals: &mut Refusals,
)
    ensures { (n : ℕ) (p : PartValue) → refusals.new ≡ and_more refusals.old (flat_map (refusals_of_whole (setting around.now)) (clause_wholes n p parameters.now wants.now clause.now)) }
{
    match clause {
        None => {}
        Some(clause) => {
            judge_when(around, parameters, clause.when_at, &clause.when, refusals);
            let places = clause.with_at.as_slice();
            judge_with(
                around,
                parameters,
                wants,
                places,
                clause.with.as_slice(),
                refusals,
            );
        }
    }
}

/// Notes what a stream of this kind refuses.
fn judge_stream(around: &Around, kind: Kind, stream: &Stream, refusals: &mut Refusals)
    ensures { (n : ℕ) → refusals.new ≡ and_more refusals.old (flat_map (refusals_of_whole (setting around.now)) (stream_wholes n stream.now kind)) }
{
    let parameters = stream.parameters.as_slice();
    judge_clause(around, &[], parameters, &stream.spawn, refusals);
    judge_clause(around, parameters, &[kind], &stream.eval, refusals);
    judge_clause(around, parameters, &[], &stream.close, refusals);
}

/// Notes what all streams refuse.
fn judge_streams(around: &Around, refusals: &mut Refusals)
    ensures { refusals.new ≡ and_more refusals.old (flat_map (refusals_of_whole (setting around.now)) (wholes_from 0 around.now.streams.now around.now.kinds.now)) }
{
    for (number, stream) in around.streams.iter().enumerate() {
        let kind = stream_kind(around.kinds, number);
        judge_stream(around, kind, stream, refusals);
    }
}

/// Notes what a constant's literal refuses.
fn judge_constant(constant: &Constant, refusals: &mut Refusals)
    ensures { refusals.new ≡ and_more refusals.old (constant_refusals constant.now) }
{
    let part = found::literal(None, constant.literal);
    note_wanted(constant.kind, constant.before, part, refusals);
    if let Some(kind) = number_kind(constant.kind) {
        take_literal(constant.place, constant.literal, kind, refusals);
    }
}

/// Notes what all constants refuse.
fn judge_constants(constants: &[Constant], refusals: &mut Refusals)
    ensures { refusals.new ≡ and_more refusals.old (flat_map constant_refusals constants.now) }
{
    for constant in constants {
        judge_constant(constant, refusals);
    }
}

/// Notes the places of quantities and offsets that are out of range.
fn note_ranges(places: &[u32], refusals: &mut Refusals)
    ensures { refusals.new ≡ and_more refusals.old (range_refusals places.now) }
{
    for at in places {
        refusals.note(Code::LiteralRange, *at);
    }
}

/// The first refusal of a specification for its kinds, where its streams are of these: E9 where the row of the table of
/// kinds does not hold, or a whole expression is of another kind than is asked, or optional; E10 where a number is out of its
/// kind's range, and for quantities and offsets. All of them are found, and the first by place and code is answered.
pub fn first_refusal(spec: &Spec, kinds: &[Option<Kind>]) -> Option<Refusal>
    ensures { result ≡ first_of (refusals_by spec.now kinds.now) }
{
    let mut refusals = Refusals::none();
    judge_constants(spec.constants.as_slice(), &mut refusals);
    judge_streams(&standing(spec, kinds, &[]), &mut refusals);
    note_ranges(spec.refused.as_slice(), &mut refusals);
    refusals.first()
}
