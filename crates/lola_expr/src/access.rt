//! What accesses and windows answer, of a store.

ghost use Rattle.std.specs.Prelude.{◌≡◌, ◌<◌, List, ℕ, IsTrue, MatchOption, length, slice_get};
ghost use Rattle.lola_value.specs.Kinds.{is_outcome_of};
ghost use Rattle.lola_value.specs.Naming.{Naming, IsNaming, AreHeld, IsHeldIn, read_outcome, read_params, the_values};
ghost use Rattle.lola_model.specs.Accesses.{answer_of};
ghost use Rattle.lola_model.specs.Content.{Content};
ghost use Rattle.lola_model.specs.Store.{IsRunning, Stands, Fits, kind_in, target_of, pane_of, window_kind};
ghost use Rattle.lola_model.specs.Typing.{is_kept, is_whole_pane};
ghost use Rattle.lola_model.specs.Windows.{window_answer};

use lola_model::expr::Access;
use lola_model::store::StreamStore;
use lola_value::value::{Outcome, Params};

/// What an access of a stream answers, for the instance with these parameters.
pub fn read<S: StreamStore>(store: &S, stream: u32, how: Access, params: &Params) -> Outcome
    requires running { IsRunning (S.seen store.now) }
    requires fits { Fits (S.seen store.now) stream params.now }
    requires kept { IsTrue (is_kept (slice_get (S.seen store.now).layout.streams stream) how) }
    ensures value { (names : Naming) (c : Content) → IsNaming names → AreHeld names (the_values params.now)
        → Stands names (S.remembers store.now) (S.seen store.now) c
        → (read_outcome names result ≡ answer_of c how stream (read_params names params.now)) × IsHeldIn names result }
    ensures kind { IsTrue (is_outcome_of (kind_in (slice_get (S.seen store.now).layout.streams stream)) result) }
{
    match how {
        Access::Direct => store.now(stream, params),
        Access::Get => store.now(stream, params),
        Access::Hold => store.newest(stream, params),
        Access::Offset(k) => store.back(stream, params, k),
    }
}

/// What a window answers, over the instance of its target with these parameters.
pub fn window<S: StreamStore>(store: &S, number: u32, params: &Params) -> Outcome
    requires running { IsRunning (S.seen store.now) }
    requires window { number < length (S.seen store.now).layout.windows }
    requires fits { Fits (S.seen store.now) (target_of (slice_get (S.seen store.now).layout.windows number)) params.now }
    requires whole { IsTrue (is_whole_pane (S.seen store.now) (pane_of (slice_get (S.seen store.now).layout.panes number))) }
    ensures value { (names : Naming) (c : Content) → IsNaming names → AreHeld names (the_values params.now)
        → Stands names (S.remembers store.now) (S.seen store.now) c
        → MatchOption (slice_get (S.seen store.now).layout.windows number) ⊥
        (λ w. read_outcome names result ≡ window_answer c w (kind_in (slice_get (S.seen store.now).layout.streams w.target)) (read_params names params.now)) }
    ensures kind { IsTrue (is_outcome_of (window_kind (S.seen store.now) number) result) }
{
    store.window(number, params)
}
