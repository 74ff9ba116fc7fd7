//! The next deadline of one instance.

ghost use Rattle.std.specs.Prelude.{◌≡◌, ◌≤◌};
ghost use Rattle.lola_value.specs.Times.{latest};
ghost use Rattle.lola_model.specs.Dues.{is_due};
ghost use Rattle.lola_model.specs.StepOrder.{IsPositiveRate, AreRates};
ghost use Rattle.lola_instances_one.specs.Moments.{due_at, due_by};

use lola_value::rate::Rate;

/// The moment after the latest time, which stands for all later ones.
pub const AFTER_LATEST: u64 = 4_000_000_000_000_000_001;

// The moment of a rate's first deadline that is not before `from`, counted from a birth.
fn due_of(rate: &Rate, born: u64, from: u64) -> u64
    ensures due { result ≡ due_by rate.now born from }
    ensures rate { IsPositiveRate rate.now }
{
    let passed = from.saturating_sub(born).saturating_sub(1);
    match rate.next_after(passed) {
        Some((_number, offset)) => born.saturating_add(offset).min(AFTER_LATEST),
        None => AFTER_LATEST,
    }
}

/// The same of several rates.
pub fn next_due(rates: &[Rate], born: u64, from: u64) -> u64
    ensures due { result ≡ due_at rates.now born from }
    ensures rates { AreRates rates.now }
{
    let mut least = AFTER_LATEST;
    for rate in rates {
        least = due_of(rate, born, from).min(least);
    }
    least
}

/// Whether a moment is a deadline of one of them.
pub fn is_due(rates: &[Rate], born: u64, time: u64) -> bool
    requires { time ≤ latest }
    ensures { result ≡ is_due rates.now born time }
{
    next_due(rates, born, time) == time
}
