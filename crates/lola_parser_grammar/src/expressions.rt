//! Expressions.

use crate::literals::{Literal, Name, Quantity};
use sqlite_items::{Boxed, Items};

/// An operator before an operand.
#[derive(Clone, Copy)]
pub enum Prefix {
    /// `!`
    Not,
    /// `-`
    Negate,
}

/// An operator between two operands.
#[derive(Clone, Copy)]
pub enum Binary {
    /// `||`
    Or,
    /// `&&`
    And,
    /// `==`
    Equal,
    /// `!=`
    Unequal,
    /// `<`
    Less,
    /// `<=`
    LessEqual,
    /// `>`
    Greater,
    /// `>=`
    GreaterEqual,
    /// `+`
    Add,
    /// `-`
    Subtract,
    /// `*`
    Multiply,
    /// `/`
    Divide,
    /// `%`
    Remainder,
}

/// How a stream is read. The place is the point before the word.
#[derive(Drop)]
pub enum Access {
    /// Without a word: its value in this step.
    Direct,
    /// `.offset(by: -k)`, of which `.last()` is the one by 1: the point, k, and the place of k (of `last` that of the
    /// word).
    Offset(u32, u128, u32),
    /// `.hold()`
    Hold(u32),
    /// `.get()`
    Get(u32),
    /// `.aggregate(over: .., using: ..)`: the point, whether the window counts only where it lies within the run, its
    /// length, and the name of what is done with the values.
    Window(u32, bool, Quantity, Name),
}

/// An expression.
#[derive(Drop)]
pub enum Expr {
    Literal(Literal),
    /// A name, the opening bracket of its arguments where there are any, the arguments, and how the name is read. It
    /// names a stream, a constant or a parameter.
    Reference(Name, Option<u32>, Items<Expr>, Access),
    /// `a.defaults(to: b)`, with the place of the point; of a short form as `a.hold(or: b)` it is that one's point.
    Defaults(u32, Boxed<Expr>, Boxed<Expr>),
    /// An operator, its place, and what it stands before.
    Prefix(Prefix, u32, Boxed<Expr>),
    /// An operator, its place, and what it stands between.
    Binary(Binary, u32, Boxed<Expr>, Boxed<Expr>),
    /// `if a then b else c`, with the place of the `if`.
    If(u32, Boxed<Expr>, Boxed<Expr>, Boxed<Expr>),
}
