//! A specification's names resolved.

ghost use Rattle.std.specs.Prelude.{◌≡◌, IfOk, IsTrue};
ghost use Rattle.lola_names.specs.Specification.{AnswersNames, Resolves, AreConstants, constants_of, ranges_of};
ghost use Rattle.lola_names.specs.Tables.{Means};
ghost use Rattle.lola_names.specs.Targets.{targets_of};
ghost use Rattle.lola_names.specs.Making.{AreStreamsOf, IsGrown, IsNothing};
ghost use Rattle.lola_model.specs.Named.{are_distinct};

use crate::constants::constants;
use crate::made::{Made, TextNumbers};
use crate::places::ranges;
use crate::streams::streams;
use crate::targets::targets;
use lola_model::spec::{Constants, Places, Spec, Streams, Texts, Windows};
use lola_names_refused::name_refusal;
use lola_parser_grammar::declarations::{Ast, Declaration};
use lola_value::front::FrontEnd;
use lola_value::text::Memory;
use std::alloc::Global;

/// What a specification has beside its streams and windows.
#[derive(Drop)]
struct Rest {
    constants: Constants,
    texts: Texts,
    refused: Places,
}

fn rest_of(
    alloc: Global,
    declarations: &[Declaration],
    streams: &Streams,
    numbers: &TextNumbers,
) -> Result<Rest, Memory>
    ensures constants { IfOk result (λ r. AreConstants numbers.now (constants_of declarations.now) r.constants) }
    ensures refused { IfOk result (λ r. r.refused ≡ ranges_of declarations.now streams.now) }
    ensures texts { IfOk result (λ r. r.texts ≡ numbers.now) }
    ensures distinct { IfOk result (λ r. IsTrue (are_distinct numbers.now)) }
{
    let refused = ranges(alloc, declarations, streams.as_slice())?;
    let constants = constants(alloc, declarations, numbers)?;
    let texts = numbers.texts(alloc)?;
    Ok(Rest {
        constants,
        texts,
        refused,
    })
}

/// No texts and no windows.
fn nothing(alloc: Global) -> Made
    ensures { IsNothing result }
{
    Made {
        texts: TextNumbers::create(alloc),
        windows: Windows::create(alloc),
    }
}

/// The streams of a specification, with what was made of texts and windows.
#[derive(Drop)]
struct Resolved {
    streams: Streams,
    made: Made,
}

fn streams_of(alloc: Global, declarations: &[Declaration]) -> Result<Resolved, Memory>
    ensures streams { IfOk result (λ r. AreStreamsOf declarations.now r.made r.streams) }
    ensures grown { IfOk result (λ r. IsGrown r.made r.streams) }
{
    let targets = targets(alloc, declarations)?;
    let mut made = nothing(alloc);
    let streams = streams(alloc, declarations, &targets, &mut made)?;
    Ok(Resolved { streams, made })
}

/// The specification that declarations are resolved to.
fn specification(alloc: Global, declarations: &[Declaration]) -> Result<Spec, Memory>
    ensures { IfOk result (λ spec. Resolves declarations.now spec) }
{
    let resolved = streams_of(alloc, declarations)?;
    let rest = rest_of(alloc, declarations, &resolved.streams, &resolved.made.texts)?;
    Ok(Spec {
        streams: resolved.streams,
        constants: rest.constants,
        windows: resolved.made.windows,
        texts: rest.texts,
        refused: rest.refused,
    })
}

/// Resolves the names of a specification: streams, windows and texts by their numbers in the order of the text, parameters by their
/// places, constants by their literals. Where names are refused it answers the first refusal, by place and then by code.
pub fn resolve(alloc: Global, ast: &Ast) -> Result<Spec, FrontEnd>
    ensures { AnswersNames ast.now result }
{
    let first = name_refusal(alloc, ast)?;
    match first {
        Some(refusal) => Err(FrontEnd::Refused(refusal)),
        None => {
            let spec = specification(alloc, ast.as_slice())?;
            Ok(spec)
        }
    }
}
