//! What stands at the front of the bytes.

ghost use Rattle.std.specs.Prelude.{◌≡◌, ◌<◌, length};
ghost use Rattle.lola_lexer.specs.Lexical as lexical;

use crate::scan::bytes::{begins_name, byte_at, is_blank, is_digit};
use crate::scan::numbers::number;
use crate::scan::signs::sign;
use crate::scan::texts::{block_comment, line_comment, text};
use crate::scan::thing::Thing;
use crate::scan::words::word;

/// What stands at the front of these bytes, the longest token where it is one: at least one byte of them, and no
/// more than there are.
#[tactic(auto, unfolding(crate::specs::Lexical::thing_at))]
pub fn thing_at(bytes: &[u8]) -> Thing
    requires { 0 < length bytes.now }
    ensures value { result ≡ lexical.thing_at bytes.now }
    ensures within { lexical.IsWithin (length bytes.now) result }
{
    let b = byte_at(bytes, 0);
    let c = byte_at(bytes, 1);
    if is_blank(b) {
        Thing::Gap(1)
    } else if b == b'/' && c == b'/' {
        line_comment(bytes)
    } else if b == b'/' && c == b'*' {
        block_comment(bytes)
    } else if begins_name(b) {
        word(bytes)
    } else if is_digit(b) {
        number(bytes)
    } else if b == b'"' {
        text(bytes)
    } else {
        sign(b, c)
    }
}
