//! Tokens, and lists of them.

use crate::shape::TokenShape;
use lola_value::list::ListOf;

/// A token, and where it stands in the text: its first byte, and the place behind its last one, in bytes from 0.
#[derive(Clone, Copy)]
pub struct Token {
    pub shape: TokenShape,
    pub from: u32,
    pub to: u32,
}

/// The tokens of a text in order, seen as the list of them.
pub type Tokens = ListOf<Token>;
