//! Laws of the state of a journal: a run's model has exactly one, and it is one that the plan can have.

ghost use Rattle.std.specs.Prelude.{◌≡◌, ◌↔◌, ℕ, List, Option, true};
ghost use Rattle.std.specs.List.{list_all};
ghost use Rattle.std.specs.Str.{is_utf8};
ghost use Rattle.lola_model.specs.Acceptance.{IsAccepted};
ghost use Rattle.lola_model.specs.declared.journal.Entry.{Entry};
ghost use Rattle.lola_save_text.specs.Damage.{IsStateText};
ghost use Rattle.lola_save_text.specs.Forms.{forms_of};
ghost use Rattle.lola_save_text.specs.Lines.{state_text};
ghost use Rattle.lola_save_text.specs.declared.state.SavedState.{SavedState};
ghost use Rattle.lola_save_text.specs.Validity.{IsSaved};
ghost use Rattle.lola_save_text.specs.JournalStates.{IsJournalOf, IsStateOf, state_of};
ghost use Rattle.lola_save_text.specs.Resuming.{ServesAsStart};

use lola_model::plan::Plan;

/// The equations of an accepted plan have one solution over the settled steps of a journal, and so the journal has one state: that
/// over the table which is made row by row.
pub fn one_state_of_journal(_plan: &Plan)
    requires { IsAccepted _plan.now }
    ensures { (start : Option ℕ) (journal : List Entry) (s : SavedState) → IsStateOf _plan.now start journal s ↔ (s ≡ state_of _plan.now start journal) }
{}

/// The state of a journal that a run can take is one that the plan can have, and so its text is a state text of the plan. The text
/// literals of the plan have to be in UTF-8, which those of a compiled text are.
pub fn state_of_journal_is_saved(_plan: &Plan)
    requires accepted { IsAccepted _plan.now }
    requires texts { list_all is_utf8 _plan.now.spec.texts ≡ true }
    ensures saved { (start : Option ℕ) (journal : List Entry) → IsJournalOf _plan.now start journal → IsSaved (forms_of _plan.now) (state_of _plan.now start journal) }
    ensures text { (spec : List ℕ) (start : Option ℕ) (journal : List Entry) → IsJournalOf _plan.now start journal
        → IsStateText spec _plan.now (state_text spec _plan.now (state_of _plan.now start journal)) }
{}

/// The time in a state's `start` line serves as the start option of what follows: with it a journal that goes on is legal exactly
/// where it is with the option that the journal began with, and its models and its state are the same.
pub fn start_serves_as_option(_plan: &Plan)
    ensures { ServesAsStart _plan.now }
{}
