//! What of an expression is still to be read.

ghost use Rattle.std.specs.Prelude.{◌≡◌, ◌∷◌, ◌++◌, [], MatchOption, OnOk};

use lola_value::text::Memory;
use std::alloc::Global;
use std::marker::Model;

/// A part of an expression that is still to be read.
#[derive(Clone, Copy)]
pub enum Pending {
    /// An expression.
    Expr,
    /// A literal, a name or a bracket, with the prefix operators before it and the accesses behind it.
    Operand,
    /// `*`, `/` and `%`, each with an operand.
    Products,
    /// `+` and `-`, each with an operand and its products.
    Sums,
    /// A comparison with its other side, or none.
    Comparison,
    /// `&&`, each with a comparison.
    Conjunctions,
    /// `||`, each with a conjunction.
    Disjunctions,
    /// `.defaults(to: ..)`, any number of them.
    Defaults,
    /// Behind a name: its arguments in brackets, or none.
    Arguments,
    /// Behind an argument: further ones, and the bracket that ends them.
    FurtherArguments,
    /// Behind a name and its arguments: how it is accessed, or nothing.
    Access,
    /// `)`
    Shut,
    /// `then`
    Then,
    /// `else`
    Else,
}

/// What is still to be read, one part behind the other; seen as the list of them, from the next on.
#[derive(Drop)]
pub struct Stack {
    /// The next is the last.
    items: Vec<Pending>,
}

impl Model for Stack {
    ghost use Rattle.std.specs.Prelude.{List, reverse};
    ghost use Rattle.lola_parser.specs.declared.pending.Pending.{Pending};

    ghost Value = { List Pending };

    ghost view = { λ s. reverse s.items.items };
}

impl Stack {
    pub fn new(alloc: Global) -> Stack
        ensures { result ≡ [] }
    {
        Stack {
            items: Vec::new(alloc),
        }
    }

    /// Takes the next part.
    pub fn pop(&mut self) -> Option<Pending>
        ensures { MatchOption result ((self.old ≡ []) × (self.new ≡ [])) (λ part. self.old ≡ part ∷ self.new) }
    {
        self.items.pop()
    }

    fn push(&mut self, part: Pending) -> Result<(), Memory>
        ensures { OnOk result (self.new ≡ part ∷ self.old) }
    {
        self.items.push(part)?;
        Ok(())
    }

    /// Puts these parts before the others.
    pub fn put(&mut self, parts: &[Pending]) -> Result<(), Memory>
        ensures { OnOk result (self.new ≡ parts.now ++ self.old) }
    {
        let mut left = parts.len();
        while left > 0 {
            left -= 1;
            self.push(parts[left])?;
        }
        Ok(())
    }
}
