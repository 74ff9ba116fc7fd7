//! Laws of what a store stands for. A law is a function that does nothing: what it ensures is the law, and its proof is proved
//! with the crate.

ghost use Rattle.std.specs.Prelude.{◌≡◌, ◌<◌, ℕ, List, [], length};
ghost use Rattle.lola_value.specs.Naming.{Naming};
ghost use Rattle.lola_model.specs.Content.{Content};
ghost use Rattle.lola_model.specs.Dues.{due_in};
ghost use Rattle.lola_model.specs.Model.{last_row};
ghost use Rattle.lola_model.specs.NextStep.{due_of_streams, open_from};
ghost use Rattle.lola_model.specs.Pacings.{ArePacings};
ghost use Rattle.lola_model.specs.Reading.{IsHeldBy};
ghost use Rattle.lola_model.specs.Runs.{content_after};
ghost use Rattle.lola_model.specs.Standing.{StandsBetween};
ghost use Rattle.lola_model.specs.Store.{Stands, after_start, instances_seen, layout_of, new_seen};
ghost use Rattle.lola_model.specs.Table.{TableRow};
ghost use Rattle.lola_step_contents.specs.Changed.{AreSameButBorn};

use lola_model::plan::Plan;
use lola_model::store::StreamStore;

/// A store that was made for a plan, remembers no value of the instances that it shows and is given a start stands for the empty
/// content, between steps.
pub fn new_stands<S: StreamStore>(_plan: &Plan, _store: &S)
    ensures { (names : Naming) (start : ℕ) → S.seen _store.now ≡ after_start (new_seen (layout_of _plan.now)) start
        → ((n i : ℕ) → i < length (instances_seen (S.seen _store.now) n) → S.remembers _store.now names n i [])
        → StandsBetween names (S.remembers _store.now) (S.seen _store.now) (content_after _plan.now start []) }
{}

/// What a store stands for through a naming it stands for through one that has more texts.
pub fn renamed_stands<S: StreamStore>(_store: &S)
    ensures { (names more : Naming) (c : Content) → IsHeldBy names more → Stands names (S.remembers _store.now) (S.seen _store.now) c
        → Stands more (S.remembers _store.now) (S.seen _store.now) c }
{}

/// When the one instance of a stream without a spawn clause was born, no store looks at: what stands for a content stands for each
/// that differs from it in no more.
pub fn born_is_unseen<S: StreamStore>(_store: &S)
    ensures { (names : Naming) (c d : Content) → AreSameButBorn (S.seen _store.now).layout.streams c d → Stands names (S.remembers _store.now) (S.seen _store.now) c
        → Stands names (S.remembers _store.now) (S.seen _store.now) d }
{}

/// The next local deadline that a store tells is that of the instances that live behind a table, where it stands for the content
/// behind it: they are the same instances, born at the same times, and a stream without a spawn clause has no local deadline.
pub fn local_due_stands<S: StreamStore>(_plan: &Plan, _store: &S)
    requires paced { ArePacings _plan.now.spec _plan.now.pacings }
    requires layout { (S.seen _store.now).layout ≡ layout_of _plan.now }
    ensures { (names : Naming) (start : ℕ) (rows : List TableRow)
        → StandsBetween names (S.remembers _store.now) (S.seen _store.now) (content_after _plan.now start rows)
        → due_in (open_from (last_row rows)) (S.seen _store.now).layout.streams (S.seen _store.now).streams ≡ due_of_streams _plan.now rows 0 _plan.now.spec.streams }
{}
