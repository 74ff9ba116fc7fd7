//! What stands at the front of the bytes: a token, a blank or a comment, or nothing of the kind.

pub mod bytes;
pub mod front;
pub mod numbers;
pub mod signs;
pub mod texts;
pub mod thing;
pub mod words;
