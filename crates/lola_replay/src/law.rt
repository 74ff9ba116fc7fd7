//! Laws of the definitions.

ghost use Rattle.std.specs.Prelude.{ℕ, List, [], Option};
ghost use Rattle.lola_model.specs.declared.journal.Entry.{Entry};
ghost use Rattle.lola_replay.specs.Findings.{HasOneFinding, Told};
ghost use Rattle.lola_replay.specs.Traces.{AreRightFrom, IsRight};

use lola_model::plan::Plan;

/// A trace and verdicts have one finding at most.
pub fn one_finding()
    ensures { (told : Told) → HasOneFinding told }
{}

/// Where no line of a trace is wrong, each of its entries is right behind those before it: its source is one of a run, its number is
/// the next of its source, its mark is the one of its stamp, and there was no fault before it.
pub fn right_entry_by_entry(_plan: &Plan)
    ensures { (start : Option ℕ) (lines : List (List ℕ)) (journal : List Entry) → IsRight _plan.now start lines journal
        → AreRightFrom _plan.now start [] journal }
{}
