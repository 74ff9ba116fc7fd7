//! The refusals that a phase of the compiler finds: it goes on after each, and answers the first.

ghost use Rattle.std.specs.Prelude.{◌≡◌, Option, Some, None};
ghost use Rattle.lola_value.specs.declared.front.Refusal.{Refusal};
ghost use Rattle.lola_model.specs.Refusals.{earlier, is_before};

use lola_value::front::{Code, Refusal};
use std::marker::Model;

/// What a phase found so far: the refusal that comes first by place, and at one place by the number of its code.
#[derive(Drop)]
pub struct Refusals {
    first: Option<Refusal>,
}

impl Model for Refusals {
    ghost use Rattle.std.specs.Prelude.{Option};
    ghost use Rattle.lola_value.specs.declared.front.Refusal.{Refusal};

    ghost Value = { Option Refusal };

    ghost view = { λ a. a.first };
}

/// Whether one refusal comes before another.
fn comes_before(one: Refusal, other: Refusal) -> bool
    ensures { result ≡ is_before one other }
{
    one.at < other.at || (one.at == other.at && (one.code as u8) < (other.code as u8))
}

impl Refusals {
    /// Nothing is found yet.
    pub fn none() -> Refusals
        ensures { result ≡ None }
    {
        Refusals { first: None }
    }

    /// A refusal with this code at this place is found.
    pub fn note(&mut self, code: Code, at: u32)
        ensures { self.new ≡ earlier self.old (Some (record { code = code; at = at })) }
    {
        let found = Refusal { code, at };
        match self.first {
            None => self.first = Some(found),
            Some(before) => {
                if comes_before(found, before) {
                    self.first = Some(found);
                }
            }
        }
    }

    /// The one that comes first, if any was found.
    pub fn first(&self) -> Option<Refusal>
        ensures { result ≡ self.now }
    {
        self.first
    }
}
