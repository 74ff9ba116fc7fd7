//! Pacings that are given: by rates behind `@`, and those of inputs.

ghost use Rattle.std.specs.Prelude.{◌≡◌, ◌<◌, [], ◌++◌, IfOk, take};
ghost use Rattle.lola_model.specs.PacingFound.{given_local, given_rate, input_finding, no_pacing, too_wide, without_spawn};

use lola_model::finding::FoundPacing;
use lola_model::pacing::{InputSet, NormalForm, Pacing};
use lola_model::spec::WrittenRate;
use lola_value::front::{Code, Refusal};
use lola_value::text::Memory;
use std::alloc::Global;

/// E12 at a place: none is written, and none can be found.
pub fn none_found(at: u32) -> FoundPacing
    ensures { result ≡ no_pacing at }
{
    FoundPacing::Refused(Refusal {
        code: Code::NoPacing,
        at,
    })
}

/// E13 at a place: one with more than 256 sets.
pub fn one_too_wide(at: u32) -> FoundPacing
    ensures { result ≡ too_wide at }
{
    FoundPacing::Refused(Refusal {
        code: Code::PacingTooWide,
        at,
    })
}

/// E21 at a place: a rate in `Local` where no spawn clause makes the instances.
fn no_spawn(at: u32) -> FoundPacing
    ensures { result ≡ without_spawn at }
{
    FoundPacing::Refused(Refusal {
        code: Code::LocalWithoutSpawn,
        at,
    })
}

/// What is found of a clause whose `@` stands at a place, with this rate: the rate, or E17.
pub fn of_rate(at: u32, rate: &WrittenRate) -> FoundPacing
    ensures { result ≡ given_rate at rate.now }
{
    match rate {
        WrittenRate::OutOfRange => FoundPacing::Unpaced,
        WrittenRate::TooFast => FoundPacing::Refused(Refusal {
            code: Code::PeriodTooShort,
            at,
        }),
        WrittenRate::Of(rate) => FoundPacing::Paced(Pacing::Periodic(*rate)),
    }
}

/// The same where the rate stands in `Local`: that rate, counted from the birth of each instance, where a spawn clause makes
/// them, else E21; or E17.
pub fn of_local_rate(spawned: bool, at: u32, rate: &WrittenRate) -> FoundPacing
    ensures { result ≡ given_local spawned at rate.now }
{
    match rate {
        WrittenRate::OutOfRange => {
            if spawned {
                FoundPacing::Unpaced
            } else {
                no_spawn(at)
            }
        }
        WrittenRate::TooFast => FoundPacing::Refused(Refusal {
            code: Code::PeriodTooShort,
            at,
        }),
        WrittenRate::Of(rate) => {
            if spawned {
                FoundPacing::Paced(Pacing::Local(*rate))
            } else {
                no_spawn(at)
            }
        }
    }
}

/// The pacing of an input: the rows that have it.
pub fn of_input(alloc: Global, input: u32) -> Result<FoundPacing, Memory>
    requires { input < 64 }
    ensures { IfOk result (λ finding. finding ≡ input_finding input) }
{
    let mut sets = NormalForm::create(alloc);
    sets.push(InputSet(1 << input))?;
    Ok(FoundPacing::Paced(Pacing::Event(sets)))
}

/// A copy of a normal form.
fn copied_form(alloc: Global, form: &NormalForm) -> Result<NormalForm, Memory>
    ensures { IfOk result (λ copy. copy ≡ form.now) }
{
    let mut copy = NormalForm::create(alloc);
    for set in form.as_slice() {
        copy.push(*set)?;
    }
    Ok(copy)
}

/// A copy of what is found.
pub fn copied(alloc: Global, finding: &FoundPacing) -> Result<FoundPacing, Memory>
    ensures { IfOk result (λ copy. copy ≡ finding.now) }
{
    match finding {
        FoundPacing::Paced(Pacing::Event(form)) => {
            let copy = copied_form(alloc, form)?;
            Ok(FoundPacing::Paced(Pacing::Event(copy)))
        }
        FoundPacing::Paced(Pacing::Periodic(rate)) => Ok(FoundPacing::Paced(Pacing::Periodic(
            *rate,
        ))),
        FoundPacing::Paced(Pacing::Local(rate)) => Ok(FoundPacing::Paced(Pacing::Local(*rate))),
        FoundPacing::Refused(refusal) => Ok(FoundPacing::Refused(*refusal)),
        FoundPacing::Unpaced => Ok(FoundPacing::Unpaced),
    }
}
