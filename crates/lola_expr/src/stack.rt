//! The stack of values that an expression's code works with. It lies in the value itself, so it takes no memory of its own.

ghost use Rattle.std.specs.Prelude.{◌≡◌, ◌∷◌, [], IsTrue, MatchOption};
ghost use Rattle.lola_value.specs.Shorts.{value_in};

use lola_value::short::Short;
use std::marker::Model;

// How many values there is room for. The code of an expression that wants more is not run.
const DEPTH: usize = 6;

// So many values. Contracts see them as a list, the newest first.
#[derive(Drop)]
pub(crate) struct Stack {
    values: [Short; DEPTH],
    count: usize,
}

impl Model for Stack {
    ghost use Rattle.std.specs.Prelude.{◌≡◌, ◌≤◌, List, length, map, reverse, take};
    ghost use Rattle.lola_value.specs.declared.value.Value.{Value as Element};
    ghost use Rattle.lola_value.specs.Shorts.{value_in};

    ghost Value = { List Element };

    ghost view = { λ s. reverse (map value_in (take s.count s.values)) };

    ghost invariant = { λ s. (s.count ≤ 6) × (length s.values ≡ 6) };
}

impl Stack {
    // No values.
    pub(crate) fn create() -> Stack
        ensures { result ≡ [] }
    {
        Stack {
            values: [Short::False; DEPTH],
            count: 0,
        }
    }

    // Puts a value on top, and tells whether there was room for it.
    pub(crate) fn push(&mut self, value: Short) -> bool
        ensures { IsTrue result → self.new ≡ value_in value ∷ self.old }
    {
        if self.count >= DEPTH {
            return false;
        }
        self.values[self.count] = value;
        self.count += 1;
        true
    }

    // Takes the newest value off.
    pub(crate) fn pop(&mut self) -> Option<Short>
        ensures { MatchOption result ((self.old ≡ []) × (self.new ≡ [])) (λ v. self.old ≡ value_in v ∷ self.new) }
    {
        if self.count == 0 {
            return None;
        }
        self.count -= 1;
        Some(self.values[self.count])
    }
}
