//! The panes of a window.

ghost use Rattle.std.specs.Prelude.{◌≡◌, ℕ};
ghost use Rattle.lola_model.specs.Bounds.{ArePanes, pacing_at};
ghost use Rattle.lola_bounds.specs.Panes.{rate_of, HasFewPanes};

use lola_model::pacing::{ClausePacings, Pacing};
use lola_model::plan::PaneSize;
use lola_model::spec::Part;
use lola_value::rate::{Rate, gcd};

/// The rate of a pacing, if it is one.
fn rate_of(pacing: &Option<Pacing>) -> Option<Rate>
    ensures { result ≡ rate_of pacing.now }
{
    match pacing {
        Some(Pacing::Periodic(rate)) => Some(*rate),
        _ => None,
    }
}

/// The rate of a clause, if it is periodic.
pub(crate) fn clause_rate(pacings: &[ClausePacings], stream: u32, part: Part) -> Option<Rate>
    ensures { result ≡ rate_of (pacing_at pacings.now stream part) }
{
    match pacings.get(stream as usize) {
        None => None,
        Some(clauses) => match part {
            Part::Spawn => rate_of(&clauses.spawn),
            Part::Eval => rate_of(&clauses.eval),
            Part::Close => rate_of(&clauses.close),
        },
    }
}

/// The panes of a window over so many nanoseconds in a clause of this rate.
pub(crate) fn size_of_panes(rate: Rate, over: u64) -> PaneSize
    requires { HasFewPanes rate over }
    ensures { ArePanes rate over result }
{
    let period = rate.whole_period().unwrap();
    let pane = gcd(period, over);
    PaneSize {
        pane,
        count: (over / pane) as u32,
    }
}
