//! That the rates of pacings are above 0, as the type of rates has it. What stands here is called for its clauses.

ghost use Rattle.std.specs.Prelude.{ℕ, [], ◌∷◌, Some, slice_get};
ghost use Rattle.lola_model.specs.StepOrder.{AreRates};
ghost use Rattle.lola_model.specs.Steps.{rate_of, rates_of};
ghost use Rattle.lola_model.specs.NextStep.{local_rate_of, local_rates, HasRates};

use lola_model::pacing::{ClausePacings, Pacing, Pacings};
use lola_value::rate::Rate;

/// A rate is above 0.
fn of_rate(rate: &Rate)
    ensures { AreRates (rate.now ∷ []) }
{
    let _num = rate.num();
}

/// The rate of a pacing, if it has one.
fn of_pacing(pacing: &Option<Pacing>)
    ensures start { AreRates (rate_of pacing.now) }
    ensures births { AreRates (local_rate_of pacing.now) }
{
    match pacing {
        None => {}
        Some(Pacing::Event(_)) => {}
        Some(Pacing::Periodic(rate)) => of_rate(rate),
        Some(Pacing::Local(rate)) => of_rate(rate),
    }
}

/// The rates of a stream's clauses.
fn of_clauses(pacings: &ClausePacings)
    ensures start { AreRates (rates_of (pacings.now ∷ [])) }
    ensures births { AreRates (local_rates (Some pacings.now)) }
{
    of_pacing(&pacings.spawn);
    of_pacing(&pacings.eval);
    of_pacing(&pacings.close);
}

/// The rates of the clauses of streams.
fn of_streams(streams: &[ClausePacings])
    ensures start { AreRates (rates_of streams.now) }
    ensures births { (n : ℕ) → AreRates (local_rates (slice_get streams.now n)) }
{
    for pacings in streams {
        of_clauses(pacings);
    }
}

/// The rates of all clauses.
pub(crate) fn are_rates(pacings: &Pacings)
    ensures { HasRates pacings.now }
{
    of_streams(pacings.as_slice());
}
