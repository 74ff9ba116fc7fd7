//! Laws of state texts: they tell one state, lines that fit one by one begin one, and the first line that does not fit is
//! the one at which bytes are damaged.

ghost use Rattle.std.specs.Prelude.{◌≡◌, ◌≤◌, ◌+◌, ◌++◌, ℕ, List, [], IsSome, true, length};
ghost use Rattle.std.specs.List.{AllByRecursion};
ghost use Rattle.lola_model.specs.Acceptance.{IsAccepted};
ghost use Rattle.lola_model.specs.Texts.{text_of};
ghost use Rattle.lola_report.specs.Lines.{IsLine, has_no_lf};
ghost use Rattle.lola_save_text.specs.Damage.{GoesOn, IsDamagedAt, IsStateText};
ghost use Rattle.lola_save_text.specs.Forms.{forms_of};
ghost use Rattle.lola_save_text.specs.Lines.{StateLine, state_lines, state_text};
ghost use Rattle.lola_save_text.specs.Places.{AtStart};
ghost use Rattle.lola_save_text.specs.Runs.{AreWhole, BeginSaved, IsFirstRefused, run};
ghost use Rattle.lola_save_text.specs.States.{SavedState};
ghost use Rattle.lola_save_text.specs.Validity.{IsSaved};

use lola_model::plan::Plan;

/// A text tells one state: no two states that the plan can have are written the same.
pub fn one_state(_plan: &Plan)
    requires { IsAccepted _plan.now }
    ensures { (spec : List ℕ) (s t : SavedState) → IsSaved (forms_of _plan.now) s → IsSaved (forms_of _plan.now) t
        → state_text spec _plan.now s ≡ state_text spec _plan.now t → s ≡ t }
{}

/// Lines that fit to the end are the lines of a state that the plan can have, and the lines of each such state fit to the
/// end.
pub fn whole_is_saved(_plan: &Plan)
    ensures sound { (ls : List StateLine) → AreWhole (forms_of _plan.now) ls
        → (s : SavedState) × IsSaved (forms_of _plan.now) s × (ls ≡ state_lines (forms_of _plan.now) s) }
    ensures complete { (s : SavedState) → IsSaved (forms_of _plan.now) s → AreWhole (forms_of _plan.now) (state_lines (forms_of _plan.now) s) }
{}

/// Lines fit one by one exactly where the lines of a state that the plan can have begin with them: each beginning that fits
/// has a way to the end.
pub fn fitting_begins(_plan: &Plan)
    requires { IsAccepted _plan.now }
    ensures sound { (ls : List StateLine) → IsSome (run (forms_of _plan.now) AtStart ls) → BeginSaved (forms_of _plan.now) ls }
    ensures complete { (ls : List StateLine) → BeginSaved (forms_of _plan.now) ls → IsSome (run (forms_of _plan.now) AtStart ls) }
{}

/// The first line that does not fit is the line at which the bytes are damaged, counted over all of them.
pub fn first_unfitting_is_damaged(_plan: &Plan)
    requires { IsAccepted _plan.now }
    ensures { (spec bytes : List ℕ) (n : ℕ) → IsFirstRefused spec _plan.now bytes n → IsDamagedAt spec _plan.now bytes n }
{}

/// What is left of a state text whose end is cut off is none, and is damaged at the line that is cut, or that is missing where the
/// cut is behind a line.
pub fn cut_is_damaged(_plan: &Plan)
    requires { IsAccepted _plan.now }
    ensures { (spec : List ℕ) (lines : List (List ℕ)) (left more : List ℕ) → AllByRecursion IsLine lines → has_no_lf left ≡ true → (more ≡ [] → ⊥)
        → IsStateText spec _plan.now ((text_of lines ++ left) ++ more) → IsDamagedAt spec _plan.now (text_of lines ++ left) (length lines + 1) }
{}

/// Bytes are damaged at one line at most.
pub fn one_damaged_line(_plan: &Plan)
    ensures { (spec bytes : List ℕ) (m n : ℕ) → IsDamagedAt spec _plan.now bytes m → IsDamagedAt spec _plan.now bytes n → m ≡ n }
{}

/// Bytes with whose first lines a state text begins begin so with fewer lines too.
pub fn goes_on_before(_plan: &Plan)
    ensures { (spec bytes : List ℕ) (m n : ℕ) → m ≤ n → GoesOn spec _plan.now bytes n → GoesOn spec _plan.now bytes m }
{}
