//! Why tokens could not be read.

ghost use Rattle.std.specs.Prelude.{◌≡◌};
ghost use Rattle.lola_parser_grammar.specs.declared.error.ParseError.TheVariants as errors;

use lola_value::text::Memory;
use std::alloc::{AllocError, AllocFailed};

/// What ends the reading of a part. The parser then stands at the token that is refused.
#[derive(Clone, Copy)]
pub enum ParseError {
    Memory,
    Unexpected,
    TooDeep,
}

impl From<Memory> for ParseError {
    ghost from_gives = { λ _ e. e ≡ errors.Memory };

    fn from(_: Memory) -> ParseError {
        ParseError::Memory
    }
}

impl From<AllocError> for ParseError {
    ghost from_gives = { λ _ e. e ≡ errors.Memory };

    fn from(_: AllocError) -> ParseError {
        ParseError::Memory
    }
}

impl<T: Drop> From<AllocFailed<T>> for ParseError {
    ghost from_gives = { λ _ e. e ≡ errors.Memory };

    fn from(_: AllocFailed<T>) -> ParseError {
        ParseError::Memory
    }
}
