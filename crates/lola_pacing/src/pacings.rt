//! The pacings of all clauses, as they are found.

ghost use Rattle.std.specs.Prelude.{◌≡◌, ◌≤◌, IfOk, length};
ghost use Rattle.lola_model.specs.PacingFound.{finding_at};
ghost use Rattle.lola_model.specs.Pacings.{pacing_of, pacings_from};

use crate::given_rates::copied;
use lola_model::finding::FoundPacing;
use lola_model::pacing::{ClausePacings, Pacing, Pacings};
use lola_model::spec::Stream;
use lola_value::text::Memory;
use std::alloc::Global;

/// The pacing that is found, if it is one.
fn pacing_in(finding: FoundPacing) -> Option<Pacing>
    ensures { result ≡ pacing_of finding }
{
    match finding {
        FoundPacing::Paced(pacing) => Some(pacing),
        FoundPacing::Refused(_) => None,
        FoundPacing::Unpaced => None,
    }
}

/// A copy of the pacing of a stream, if it has one.
fn pacing_at(alloc: Global, findings: &[FoundPacing], stream: u32) -> Result<Option<Pacing>, Memory>
    ensures { IfOk result (λ pacing. pacing ≡ pacing_of (finding_at findings.now stream)) }
{
    match findings.get(stream as usize) {
        Some(finding) => {
            let copy = copied(alloc, finding)?;
            Ok(pacing_in(copy))
        }
        None => Ok(None),
    }
}

/// The pacings of the clauses of streams.
pub fn pacings(
    alloc: Global,
    streams: &[Stream],
    spawns: &[FoundPacing],
    evals: &[FoundPacing],
    closes: &[FoundPacing],
) -> Result<Pacings, Memory>
    requires { length streams.now ≤ 1024 }
    ensures { IfOk result (λ pacings. pacings ≡ pacings_from spawns.now evals.now closes.now 0 streams.now) }
{
    let mut pacings = Pacings::create(alloc);
    let mut number = 0;
    for _stream in streams {
        pacings.push(ClausePacings {
            spawn: pacing_at(alloc, spawns, number)?,
            eval: pacing_at(alloc, evals, number)?,
            close: pacing_at(alloc, closes, number)?,
        })?;
        number += 1;
    }
    Ok(pacings)
}
