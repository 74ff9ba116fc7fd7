//! What stands against windows.

ghost use Rattle.std.specs.Prelude.{◌≤◌};
ghost use Rattle.lola_model.specs.WindowRefusals.{IsRateRefusal, IsWindowRefusal};

use lola_model::finding::FoundPacing;
use lola_model::pacing::Pacing;
use lola_value::front::Code;
use lola_value::rate::{Rate, gcd};

// The most panes that a window may have.
const MOST_PANES: u128 = 65_536;

/// What stands against a window of so many nanoseconds in a clause of this rate.
fn rate_refusal(rate: &Rate, over: u64) -> Option<Code>
    requires { 1 ≤ over }
    ensures { IsRateRefusal rate.now over result }
{
    let Some(period) = rate.whole_period() else {
        return Some(Code::WindowNeedsWholePeriod);
    };
    let pane = gcd(period, over);
    if over as u128 > MOST_PANES * pane as u128 {
        return Some(Code::WindowTooFine);
    }
    None
}

/// What stands against a window of so many nanoseconds in a clause of which this is found: E15 where it goes by
/// inputs, or by a rate that counts from the birth of each instance; E18 or E16 where its period cannot be cut into panes,
/// or into too many.
pub fn window_refusal(finding: &FoundPacing, over: u64) -> Option<Code>
    requires { 1 ≤ over }
    ensures { IsWindowRefusal finding.now over result }
{
    match finding {
        FoundPacing::Paced(Pacing::Event(_)) => Some(Code::WindowOutsidePeriodic),
        FoundPacing::Paced(Pacing::Periodic(rate)) => rate_refusal(rate, over),
        FoundPacing::Paced(Pacing::Local(_)) => Some(Code::WindowOutsidePeriodic),
        FoundPacing::Refused(_) => None,
        FoundPacing::Unpaced => None,
    }
}
