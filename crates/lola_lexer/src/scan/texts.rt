//! Texts and comments.

ghost use Rattle.std.specs.Prelude.{◌≡◌, ◌<◌, ◌≤◌, ℕ, length, drop, slice_index, IfSome, true, false};
ghost use Rattle.lola_lexer.specs.Lexical as lexical;
ghost use Rattle.lola_lexer.specs.Spelling as spelled;

use crate::scan::bytes::Class;
use crate::scan::thing::Thing;
use crate::shape::TokenShape;

fn is_escape(b: u8) -> bool
    ensures { result ≡ spelled.is_escape b }
{
    matches!(b, b'"' | b'\\' | b'n' | b'r' | b't')
}

/// The place behind the quote that closes the text at the front.
fn closing(bytes: &[u8]) -> Option<usize>
    requires { 0 < length bytes.now }
    ensures value { result ≡ lexical.closing false 1 (drop 1 bytes.now) }
    ensures within { IfSome result (λ end. (1 ≤ end) × (end ≤ length bytes.now)) }
{
    let mut is_escaped = false;
    let mut at = 1;
    while at < bytes.len() {
        let b = bytes[at];
        if is_escaped {
            if !is_escape(b) {
                return None;
            }
            is_escaped = false;
        } else if b == b'"' {
            return Some(at + 1);
        } else if b == b'\n' || b == b'\r' {
            return None;
        } else {
            is_escaped = b == b'\\';
        }
        at += 1;
    }
    None
}

/// What was found, where its bytes are UTF-8.
fn if_utf8(bytes: &[u8], found: Thing) -> Thing
    ensures value { result ≡ lexical.if_utf8 bytes.now found }
    ensures within { (len : ℕ) → lexical.IsWithin len found → lexical.IsWithin len result }
{
    match str::from_utf8(bytes) {
        Ok(_) => found,
        Err(_) => Thing::Bad,
    }
}

/// The text at the front, behind whose first quote all is to be tested.
#[tactic(auto, unfolding(crate::specs::Lexical::text))]
pub(crate) fn text(bytes: &[u8]) -> Thing
    requires { 0 < length bytes.now }
    ensures value { result ≡ lexical.text bytes.now }
    ensures within { lexical.IsWithin (length bytes.now) result }
{
    match closing(bytes) {
        None => Thing::Bad,
        Some(end) => if_utf8(&bytes[..end], Thing::Token(TokenShape::Text, end)),
    }
}

/// The comment at the front, up to the end of its line.
#[tactic(auto, unfolding(crate::specs::Lexical::line_comment))]
pub(crate) fn line_comment(bytes: &[u8]) -> Thing
    requires { (0 < length bytes.now) × (spelled.in_line (slice_index bytes.now 0) ≡ true) }
    ensures value { result ≡ lexical.line_comment bytes.now }
    ensures within { lexical.IsWithin (length bytes.now) result }
{
    let len = Class::Line.run(bytes, 0);
    if_utf8(&bytes[..len], Thing::Gap(len))
}

/// The place behind the first `*/` from the third byte on.
fn comment_end(bytes: &[u8]) -> Option<usize>
    requires { 2 ≤ length bytes.now }
    ensures value { result ≡ lexical.comment_end false 2 (drop 2 bytes.now) }
    ensures within { IfSome result (λ end. (1 ≤ end) × (end ≤ length bytes.now)) }
{
    let mut is_star = false;
    let mut at = 2;
    while at < bytes.len() {
        if is_star && bytes[at] == b'/' {
            return Some(at + 1);
        }
        is_star = bytes[at] == b'*';
        at += 1;
    }
    None
}

/// The comment at the front, up to the next `*/`.
#[tactic(auto, unfolding(crate::specs::Lexical::block_comment))]
pub(crate) fn block_comment(bytes: &[u8]) -> Thing
    requires { 2 ≤ length bytes.now }
    ensures value { result ≡ lexical.block_comment bytes.now }
    ensures within { lexical.IsWithin (length bytes.now) result }
{
    match comment_end(bytes) {
        None => Thing::Bad,
        Some(end) => if_utf8(&bytes[..end], Thing::Gap(end)),
    }
}
