//! What is asked in a step.

use lola_value::text::Memory;

/// A question of a step.
#[derive(Clone, Copy)]
pub enum Question {
    /// What the spawn clause of this stream does.
    SpawnOf(usize),
    /// What an instance of this stream comes to: the one at this place among those that live, from 0.
    OutcomeOf(usize, usize),
}

/// Why a try gave no outcome.
#[derive(Clone, Copy)]
pub enum Unanswered {
    /// This question has to be answered first.
    Asks(Question),
    /// There is no memory for it.
    Memory,
}

impl From<Memory> for Unanswered {
    ghost use Rattle.std.specs.Prelude.{◌≡◌};
    ghost use Rattle.lola_replay_table.specs.declared.question.Unanswered.TheVariants as stop;

    ghost from_gives = { λ _ e. e ≡ stop.Memory };

    fn from(_: Memory) -> Self {
        Unanswered::Memory
    }
}
