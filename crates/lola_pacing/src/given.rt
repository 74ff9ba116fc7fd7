//! Pacings that are given behind `@`.

ghost use Rattle.std.specs.Prelude.{◌≡◌, ◌≤◌, ◌+◌, IfOk, length, filter};
ghost use Rattle.lola_model.specs.Model.{is_input as is_input_stream};
ghost use Rattle.lola_model.specs.Named.{has_clause};
ghost use Rattle.lola_model.specs.NormalForms.{HasInputsBelow};
ghost use Rattle.lola_model.specs.PacingFound.{AreOwn, IsGiven, IsGivenEvent, IsOwn, IsWrittenIn, inputs_with};
ghost use Rattle.lola_model.specs.Formulas.{AreOverInputs, IsClauseOverInputs, IsOverInputs};

use crate::given_rates::{of_input, of_local_rate, of_rate, one_too_wide};
use lola_model::finding::FoundPacing;
use lola_model::pacing::Pacing;
use lola_model::spec::{Clause, Formula, Pace, Stream};
use lola_pacing_normal::answer::NormalEnd;
use lola_pacing_normal::normal::normal;
use lola_value::text::Memory;
use std::alloc::Global;

/// What is found of a clause whose `@` stands at a place, with this formula.
fn of_formula(alloc: Global, at: u32, formula: &Formula) -> Result<FoundPacing, Memory>
    requires { HasInputsBelow 64 formula.now }
    ensures { IfOk result (λ finding. IsGivenEvent at formula.now finding) }
{
    match normal(alloc, formula) {
        Ok(sets) => Ok(FoundPacing::Paced(Pacing::Event(sets))),
        Err(NormalEnd::TooWide) => Ok(one_too_wide(at)),
        Err(NormalEnd::Memory) => Err(Memory),
    }
}

/// What is found of a clause with this pacing behind `@`, where a spawn clause makes its instances or not.
pub fn of_pace(alloc: Global, spawned: bool, pace: &Pace) -> Result<FoundPacing, Memory>
    requires { IsOverInputs pace.now }
    ensures { IfOk result (λ finding. IsGiven spawned pace.now finding) }
{
    match pace {
        Pace::Event(at, formula) => of_formula(alloc, *at, formula),
        Pace::Rate(at, rate) => Ok(of_rate(*at, rate)),
        Pace::Global(at, rate) => Ok(of_rate(*at, rate)),
        Pace::Local(at, rate) => Ok(of_local_rate(spawned, *at, rate)),
    }
}

/// The same of a clause as far as its pacing is written.
fn of_written(alloc: Global, spawned: bool, clause: &Option<Clause>) -> Result<FoundPacing, Memory>
    requires { IsClauseOverInputs clause.now }
    ensures { IfOk result (λ finding. IsWrittenIn spawned clause.now finding) }
{
    match clause {
        None => Ok(FoundPacing::Unpaced),
        Some(clause) => match &clause.pace {
            None => Ok(FoundPacing::Unpaced),
            Some(pace) => of_pace(alloc, spawned, pace),
        },
    }
}

/// Whether a spawn clause makes the instances of a stream.
pub fn has_spawn(stream: &Stream) -> bool
    ensures { result ≡ has_clause stream.now.spawn }
{
    stream.spawn.is_some()
}

/// What is found of a stream before which so many inputs stand, as far as it is an input or the pacing of its eval
/// clause is written.
fn own(alloc: Global, inputs: u32, stream: &Stream) -> Result<FoundPacing, Memory>
    requires inputs { inputs_with inputs stream.now ≤ 64 }
    requires formula { IsClauseOverInputs stream.now.eval }
    ensures { IfOk result (λ finding. IsOwn inputs stream.now finding) }
{
    if stream.is_input() {
        of_input(alloc, inputs)
    } else {
        of_written(alloc, has_spawn(stream), &stream.eval)
    }
}

/// The number of inputs up to and with a stream before which so many stand.
fn counted(inputs: u32, stream: &Stream) -> u32
    requires { inputs_with inputs stream.now ≤ 64 }
    ensures { result ≡ inputs_with inputs stream.now }
{
    if stream.is_input() {
        inputs + 1
    } else {
        inputs
    }
}

/// What is found of each stream, as far as it is an input or the pacing of its eval clause is written.
pub fn owns(alloc: Global, streams: &[Stream]) -> Result<Vec<FoundPacing>, Memory>
    requires few { length (filter is_input_stream streams.now) ≤ 64 }
    requires formulas { AreOverInputs streams.now }
    ensures { IfOk result (λ owns. AreOwn 0 streams.now owns.items) }
{
    let mut owns = Vec::new(alloc);
    let mut inputs = 0;
    for stream in streams {
        owns.push(own(alloc, inputs, stream)?)?;
        inputs = counted(inputs, stream);
    }
    Ok(owns)
}
