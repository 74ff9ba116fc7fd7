//! Laws of what is read: there is one answer at most; and a trace is a text of CSV.

ghost use Rattle.std.specs.Prelude.{◌≡◌, ℕ, List, map};
ghost use Rattle.std.specs.List.{AllByRecursion};
ghost use Rattle.csv.specs.Reading.{AreRecords, default_config, strip_bom};
ghost use Rattle.csv.specs.declared.parser.State.TheVariants as st;
ghost use Rattle.lola_model.specs.Trace.{IsTraceable, entry_fields, trace_line, trace_text};
ghost use Rattle.lola_model.specs.declared.journal.Entry.{Entry};
ghost use Rattle.lola_report.specs.Journals.{IsFirstBad, Spells};

use lola_model::plan::Plan;

/// Entries that a trace can tell have different lines.
pub fn one_entry(_plan: &Plan)
    ensures { (d e : Entry) → IsTraceable _plan.now d → IsTraceable _plan.now e → trace_line d ≡ trace_line e → d ≡ e }
{}

/// The trace text of a journal that a trace can tell spells this journal and no other.
pub fn journal_of_its_text(_plan: &Plan)
    ensures spelled { (told : List Entry) → AllByRecursion (IsTraceable _plan.now) told → Spells _plan.now (trace_text told) told }
    ensures alone { (told journal : List Entry) → AllByRecursion (IsTraceable _plan.now) told → Spells _plan.now (trace_text told) journal → journal ≡ told }
{}

/// A text spells one journal at most.
pub fn one_journal(_plan: &Plan)
    ensures { (bytes : List ℕ) (first second : List Entry) → Spells _plan.now bytes first → Spells _plan.now bytes second → first ≡ second }
{}

/// A text has one first bad line at most.
pub fn one_bad_line(_plan: &Plan)
    ensures { (bytes : List ℕ) (m n : ℕ) → IsFirstBad _plan.now bytes m → IsFirstBad _plan.now bytes n → m ≡ n }
{}

/// A text that spells a journal has no bad line.
pub fn not_both(_plan: &Plan)
    ensures { (bytes : List ℕ) (journal : List Entry) (n : ℕ) → Spells _plan.now bytes journal → ¬ (IsFirstBad _plan.now bytes n) }
{}

/// The records of a trace text, as the crate `csv` reads them with its default settings and no heading, are the
/// fields of the entries, line by line, and no others.
pub fn trace_is_csv(_plan: &Plan)
    ensures read { (told : List Entry) → AllByRecursion (IsTraceable _plan.now) told
        → AreRecords default_config st.StartRecord (strip_bom (trace_text told)) (map entry_fields told) }
    ensures alone { (told : List Entry) (rows : List (List (List ℕ))) → AllByRecursion (IsTraceable _plan.now) told
        → AreRecords default_config st.StartRecord (strip_bom (trace_text told)) rows → rows ≡ map entry_fields told }
{}
