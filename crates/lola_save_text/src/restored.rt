//! Laws of what is restored from the state of a journal.

ghost use Rattle.std.specs.Prelude.{◌≡◌, ℕ, List, [], Option, Some, None, unwrap_or, true};
ghost use Rattle.std.specs.List.{list_all};
ghost use Rattle.std.specs.Str.{is_utf8};
ghost use Rattle.lola_value.specs.Naming.{Naming};
ghost use Rattle.lola_value.specs.declared.text.Field.{Field};
ghost use Rattle.lola_value.specs.declared.value.Kind.{Kind};
ghost use Rattle.lola_model.specs.Acceptance.{IsAccepted};
ghost use Rattle.lola_model.specs.Journal.{accepted, known_start, last_accepted};
ghost use Rattle.lola_model.specs.Runs.{content_after, run_start, settled_fault, settled_model};
ghost use Rattle.lola_model.specs.declared.journal.Entry.{Entry};
ghost use Rattle.lola_panes.specs.Holding.{AllWithin};
ghost use Rattle.lola_save_text.specs.declared.state.Times.{Times};
ghost use Rattle.lola_save_text.specs.declared.state.SavedState.{SavedState};
ghost use Rattle.lola_save_text.specs.JournalStates.{state_of};
ghost use Rattle.lola_save_text.specs.FirstStates.{first_state};
ghost use Rattle.lola_save_text.specs.Restored.{AreOfLife, IsRestoredFrom, StandsForJournals};

use lola_model::plan::Plan;
use lola_model::store::StreamStore;

/// A store that was restored from a state stands for what each journal with that state comes to: its instances remember whatever
/// values what was saved of them is of, and the values of the journal's lives are such. The text literals of the plan have to be in
/// UTF-8, which those of a compiled text are.
pub fn restored_stands<S: StreamStore>(_plan: &Plan, _store: &S)
    requires accepted { IsAccepted _plan.now }
    requires texts { list_all is_utf8 _plan.now.spec.texts ≡ true }
    ensures { (state : SavedState) (names : Naming) → IsRestoredFrom _plan.now state names (S.remembers _store.now) (S.seen _store.now)
        → StandsForJournals _plan.now state names (S.remembers _store.now) (S.seen _store.now) }
{}

/// What a journal comes to begins at the start that is known. Without a fault it has the time of the last accepted row, or the start
/// where there is none: a fault would have ended the run before.
pub fn content_is_of_journal(_plan: &Plan)
    requires { IsAccepted _plan.now }
    ensures start { (start : Option ℕ) (journal : List Entry) (known : ℕ) → known_start start (accepted journal) ≡ Some known → run_start _plan.now start journal ≡ known }
    ensures time { (start : Option ℕ) (journal : List Entry) → settled_fault _plan.now start journal ≡ None
        → (content_after _plan.now (run_start _plan.now start journal) (settled_model _plan.now start journal)).time
        ≡ unwrap_or (last_accepted (accepted journal)) (run_start _plan.now start journal) }
{}

/// The state of a journal without an accepted row has the start that was given, and no step; its instances are those of the streams
/// without a spawn clause, and have no values. So it is where no start is known.
pub fn first_state_has_no_values(_plan: &Plan)
    ensures given { (start : Option ℕ) (journal : List Entry) → accepted journal ≡ [] → state_of _plan.now start journal ≡ first_state _plan.now start }
    ensures unknown { (start : Option ℕ) (journal : List Entry) → known_start start (accepted journal) ≡ None → state_of _plan.now start journal ≡ first_state _plan.now None }
{}

/// The numbers of the values of a life are within their kind, as the panes of a window want them.
pub fn values_are_within()
    ensures { (times : Times) (kind : Kind) (values : List (ℕ × Field)) → AreOfLife times kind values → AllWithin kind values }
{}
