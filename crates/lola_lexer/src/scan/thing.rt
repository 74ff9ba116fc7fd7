//! A token, or what stands between tokens.

use crate::shape::TokenShape;

/// What stands at the front of the bytes, with its length in bytes.
#[derive(Clone, Copy)]
pub enum Thing {
    /// A blank or a comment.
    Gap(usize),
    Token(TokenShape, usize),
    /// Nothing that the language has.
    Bad,
}
