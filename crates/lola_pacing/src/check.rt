//! The pacing phase of the compiler.

ghost use Rattle.std.specs.Prelude.{◌≡◌, ◌≤◌, IsTrue, IfOk, length, filter, map};
ghost use Rattle.lola_model.specs.Accepted.{IsSpecInRange};
ghost use Rattle.lola_model.specs.Model.{is_input};
ghost use Rattle.lola_model.specs.Named.{all_windows, is_span, IsNamed};
ghost use Rattle.lola_model.specs.Typed.{IsTyped};
ghost use Rattle.lola_model.specs.Formulas.{AreOverInputs};
ghost use Rattle.lola_model.specs.Pacings.{AreFound};
ghost use Rattle.lola_pacing.specs.Phase.{AnswersPacing};

use crate::clauses::of_parts;
use crate::given::owns;
use crate::leaves::lists_of;
use crate::pacings::pacings;
use crate::refusals::{first, refusals};
use crate::window_refusals::of_windows;
use lola_model::finding::FoundPacing;
use lola_model::pacing::Pacings;
use lola_model::spec::{Part, Spec};
use lola_value::front::{Code, FrontEnd};
use lola_value::text::Memory;
use std::alloc::Global;

/// What is found of a specification: of its streams' own pacings, of the three clauses of each stream, and of its
/// windows.
#[derive(Drop)]
struct AllFindings {
    owns: Vec<FoundPacing>,
    spawns: Vec<FoundPacing>,
    evals: Vec<FoundPacing>,
    closes: Vec<FoundPacing>,
    window_refusals: Vec<Option<Code>>,
}

/// Finds it.
fn findings(alloc: Global, spec: &Spec) -> Result<AllFindings, Memory>
    requires numbers { IsSpecInRange spec.now }
    requires streams { length spec.now.streams ≤ 1024 }
    requires inputs { length (filter is_input spec.now.streams) ≤ 64 }
    requires formulas { AreOverInputs spec.now.streams }
    requires windows { IsTrue (all_windows is_span spec.now.windows) }
    ensures { IfOk result (λ found. AreFound spec.now found.owns.items found.spawns.items found.evals.items found.closes.items found.window_refusals.items) }
{
    let lists = lists_of(alloc, spec)?;
    let owns = owns(alloc, spec.streams.as_slice())?;
    let spawns = of_parts(alloc, spec, &lists, &owns, &[], Part::Spawn)?;
    let evals = of_parts(alloc, spec, &lists, &owns, &[], Part::Eval)?;
    let closes = of_parts(alloc, spec, &lists, &owns, &evals, Part::Close)?;
    let window_refusals = of_windows(alloc, &spawns, &evals, &closes, spec.windows.as_slice())?;
    Ok(AllFindings {
        owns,
        spawns,
        evals,
        closes,
        window_refusals,
    })
}

/// The answer, where all is found.
fn answer(alloc: Global, spec: &Spec, found: &AllFindings) -> Result<Pacings, FrontEnd>
    requires streams { length spec.now.streams ≤ 1024 }
    requires found { AreFound spec.now found.now.owns.items found.now.spawns.items found.now.evals.items found.now.closes.items found.now.window_refusals.items }
    ensures { AnswersPacing spec.now result }
{
    let streams = spec.streams.as_slice();
    let list = refusals(
        alloc,
        streams,
        &found.spawns,
        &found.evals,
        &found.closes,
        &found.window_refusals,
    )?;
    match first(&list) {
        Some(refusal) => Err(FrontEnd::Refused(refusal)),
        None => {
            let pacings = pacings(alloc, streams, &found.spawns, &found.evals, &found.closes)?;
            Ok(pacings)
        }
    }
}

/// The pacing of each clause of a specification whose names are resolved and whose kinds are found, or the first refusal
/// of this phase: E11 to E18, and E21 for a local pacing where no spawn clause makes the instances. Pacings are those of
/// the RTLola language: event-based ones imply each other over all sets of inputs, a rate that counts from the start implies
/// its whole multiples, and a local one implies nothing.
pub fn check(alloc: Global, spec: &Spec) -> Result<Pacings, FrontEnd>
    requires named { IsNamed spec.now }
    requires typed { IsTyped spec.now }
    ensures { AnswersPacing spec.now result }
{
    let found = findings(alloc, spec)?;
    answer(alloc, spec, &found)
}
