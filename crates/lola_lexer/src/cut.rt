//! All the tokens of a text.

ghost use Rattle.std.specs.Prelude.{◌≡◌, ◌≤◌, length, IfOk};
ghost use Rattle.lola_lexer.specs.Cuts.{IsCut};
ghost use Rattle.lola_lexer.specs.Tokens.{tokens_of, tokens_from, Gives, StandIn, AreInOrder};

use crate::scan::front::thing_at;
use crate::scan::thing::Thing;
use crate::token::{Token, Tokens};
use lola_value::front::{Code, FrontEnd, Refusal};
use std::alloc::Global;

/// The most bytes that a specification may have.
pub const MOST_BYTES: u32 = 1_048_576;

/// The tokens of a text that is not too long.
fn cut(alloc: Global, bytes: &[u8]) -> Result<Tokens, FrontEnd>
    requires { length bytes.now ≤ 1_048_576 }
    ensures { Gives result (tokens_from 0 0 bytes.now) }
{
    let mut tokens = Tokens::create(alloc);
    let mut at = 0;
    while at < bytes.len() {
        match thing_at(&bytes[at..]) {
            Thing::Gap(len) => at += len,
            Thing::Token(shape, len) => {
                tokens.push(Token {
                    shape,
                    from: at as u32,
                    to: (at + len) as u32,
                })?;
                at += len;
            }
            Thing::Bad => {
                return Err(FrontEnd::Refused(Refusal {
                    code: Code::BadToken,
                    at: at as u32,
                }));
            }
        }
    }
    Ok(tokens)
}

/// Cuts a specification into tokens, in one pass and without a copy. Blanks and comments are between tokens, and
/// leave none.
///
/// A text of more than [`MOST_BYTES`] is refused as `TooLong` at that place, whatever stands in it. Else the first
/// thing that is neither a token nor a blank nor a comment is refused as `BadToken` at its first byte.
#[tactic(auto, unfolding(crate::specs::Tokens::tokens_of))]
pub fn tokens(alloc: Global, bytes: &[u8]) -> Result<Tokens, FrontEnd>
    ensures exact { Gives result (tokens_of bytes.now) }
    // In the words of the language: the longest token each time, and nothing but gaps between, up to the end or to
    // where nothing stands.
    ensures cuts { IsCut bytes.now result }
    ensures within { IfOk result (λ ts. StandIn bytes.now ts) }
    ensures in_order { IfOk result (λ ts. AreInOrder 0 ts) }
{
    if bytes.len() > MOST_BYTES as usize {
        return Err(FrontEnd::Refused(Refusal {
            code: Code::TooLong,
            at: MOST_BYTES,
        }));
    }
    cut(alloc, bytes)
}
