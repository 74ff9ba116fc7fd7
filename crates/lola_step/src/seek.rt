//! Which instances a clause is to be evaluated for.

ghost use Rattle.std.specs.Prelude.{◌≡◌, ◌<◌, slice_get, length};
ghost use Rattle.lola_model.specs.Store.{IsRunning, layout_of};
ghost use Rattle.lola_step.specs.Sought.{IsFalseElsewhere, MayAskWhen};

use lola_expr::sought::whereabouts;
use lola_model::plan::Plan;
use lola_model::spec::Clause;
use lola_model::store::{StreamStore, Whereabouts};

/// Where the one instance of a stream stands that the condition of a clause may be true for, where the condition begins with
/// comparisons of all parameters; else nothing is said. For the others it is false, so they need not be evaluated.
pub(crate) fn seek<S: StreamStore>(
    plan: &Plan,
    clause: &Clause,
    store: &S,
    stream: u32,
) -> Whereabouts
    requires running { IsRunning (S.seen store.now) }
    requires layout { (S.seen store.now).layout ≡ layout_of plan.now }
    requires stream { stream < length (S.seen store.now).layout.streams }
    requires asks { MayAskWhen plan.now (S.seen store.now) stream clause.now }
    ensures { IsFalseElsewhere plan.now (S.remembers store.now) (S.seen store.now) stream clause.now result }
{
    let Some(when) = &clause.when else {
        return Whereabouts::Unknown;
    };
    if store.instances(stream) < 2 {
        return Whereabouts::Unknown;
    }
    let params = store.params_of(stream, 0);
    whereabouts(when, &params, stream, store)
}
