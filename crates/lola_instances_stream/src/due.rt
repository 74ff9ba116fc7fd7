//! The deadlines of rates that count from births.

ghost use Rattle.std.specs.Prelude.{◌≡◌, ◌≤◌, [], ◌∷◌, true, IfOk, OnOk, if◌then◌else◌};
ghost use Rattle.lola_model.specs.NextStep.{earlier};
ghost use Rattle.lola_instances_one.specs.Dues.{is_timed};

use crate::cells::Cells;
use lola_instances_one::times::DueTimes;
use lola_value::rate::Rate;
use lola_value::text::Memory;
use std::alloc::Global;

/// The earlier of two moments, if they are there.
pub fn earlier(a: Option<u64>, b: Option<u64>) -> Option<u64>
    ensures { result ≡ earlier a b }
{
    match (a, b) {
        (None, b) => b,
        (Some(t), None) => Some(t),
        (Some(t), Some(s)) => Some(s.min(t)),
    }
}

/// The deadlines of the first instances of a stream: one, born at 0, where there is no spawn clause.
pub(crate) fn first_dues(alloc: Global, spawns: bool, locals: Vec<Rate>) -> Result<DueTimes, Memory>
    ensures rates { IfOk result (λ d. d.rates ≡ locals.items) }
    ensures births { IfOk result (λ d. is_timed d.rates ≡ true → d.births ≡ (if spawns then [] else 0 ∷ [])) }
{
    let mut dues = DueTimes::create(alloc, locals);
    if spawns {
        return Ok(dues);
    }
    dues.make_room(1)?;
    dues.add(0);
    Ok(dues)
}

/// Room for so many more instances, by their parameters and by their births.
pub(crate) fn make_places(slots: &mut Cells, dues: &mut DueTimes, more: usize) -> Result<(), Memory>
    ensures slots { slots.new ≡ record slots.old { room = slots.new.room } }
    ensures room { slots.old.room ≤ slots.new.room }
    ensures rates { dues.new.rates ≡ dues.old.rates }
    ensures births { dues.new.births ≡ dues.old.births }
    ensures dues_room { dues.old.room ≤ dues.new.room }
    ensures ok { OnOk result (slots.old.is_kept ≡ true → more ≤ slots.new.room) }
    ensures dues_ok { OnOk result (is_timed dues.old.rates ≡ true → more ≤ dues.new.room) }
{
    match slots.make_places(more) {
        Err(memory) => Err(memory),
        Ok(()) => dues.make_room(more),
    }
}
