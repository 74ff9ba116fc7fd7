//! Entries of a journal, handed to an engine.

ghost use Rattle.std.specs.Prelude.{◌≡◌, ◌^◌, ◌≤◌, All, MatchOption, OnOk, [], length};
ghost use Rattle.lola_model.specs.Journal.{IsLegal, accepted};
ghost use Rattle.lola_engine.specs.Engines.{IsEngine, IsTakeable, StandsFor, accepted_entry};
ghost use Rattle.lola_monitor_run.specs.Handing.{Hands, HasRowFor, IsLate, IsSetAs, TakesEntry};
ghost use Rattle.lola_model.specs.declared.journal.Mark.TheVariants as mark;

use lola_engine::end::EngineEnd;
use lola_engine::engine::Engine;
use lola_model::journal::{Entry, Mark, Row};
use lola_port::Gate;
use lola_text::store::TextStore;
use lola_value::text::Text;
use std::thread::Threads;

// The row of an entry, if it is accepted.
fn accepted_row(entry: &Entry) -> Option<&Row>
    ensures { MatchOption result (IsLate entry.now) (λ row. entry.now ≡ accepted_entry row.now) }
{
    match entry.mark {
        Mark::Accepted => Some(&entry.row),
        Mark::Late(_) => None,
    }
}

// Hands an entry to an engine, if it is accepted, whatever journal the engine stands for.
fn accept_entry<R: Threads + Sync, S: TextStore + Sync, G: Gate + Sync>(
    rt: &R,
    gate: &G,
    engine: &mut Engine<S>,
    entry: &Entry,
    lines: &mut Text,
) -> Result<(), EngineEnd>
    requires engine { IsEngine engine.old.state (S.seen engine.old.store) }
    requires row { entry.now.mark ≡ mark.Accepted → IsTakeable engine.old.state entry.now.row }
    ensures engine { OnOk result (IsEngine engine.new.state (S.seen engine.new.store)) }
    ensures setting { IsSetAs engine.old.state engine.new.state }
    ensures takes { TakesEntry result entry.now engine.old.state (S.seen engine.old.store) (S.remembers engine.old.store)
        engine.new.state (S.seen engine.new.store) (S.remembers engine.new.store) lines.old lines.new }
{
    match accepted_row(entry) {
        Some(row) => engine.accept(rt, gate, row, lines),
        None => Ok(()),
    }
}

/// Hands the accepted ones of the entries of a journal to an engine that has run nothing, in order, up to its first end. Late ones
/// are left out.
pub fn run_entries<R: Threads + Sync, S: TextStore + Sync, G: Gate + Sync>(
    rt: &R,
    gate: &G,
    engine: &mut Engine<S>,
    entries: &[Entry],
    lines: &mut Text,
) -> Result<(), EngineEnd>
    requires engine { IsEngine engine.old.state (S.seen engine.old.store) }
    requires fresh { StandsFor engine.old.state (S.seen engine.old.store) (S.remembers engine.old.store) [] }
    requires legal { IsLegal engine.old.state.given_start entries.now }
    requires rows { All (HasRowFor engine.old.state.plan) entries.now }
    requires few { length (accepted entries.now) ≤ 2 ^ 47 }
    ensures engine { OnOk result (IsEngine engine.new.state (S.seen engine.new.store)) }
    ensures setting { IsSetAs engine.old.state engine.new.state }
    ensures hands { Hands result entries.now engine.old.state engine.new.state (S.seen engine.new.store) (S.remembers engine.new.store) lines.old lines.new }
{
    for entry in entries {
        match accept_entry(rt, gate, engine, entry, lines) {
            Ok(()) => {}
            Err(end) => return Err(end),
        }
    }
    Ok(())
}
