//! Signs, of one byte or two.

ghost use Rattle.std.specs.Prelude.{◌≡◌, ◌≢◌, ◌≤◌, ℕ};
ghost use Rattle.lola_lexer.specs.Lexical as lexical;

use crate::scan::thing::Thing;
use crate::shape::TokenShape;

/// The sign that these two bytes begin with.
pub(crate) fn sign(b: u8, c: u8) -> Thing
    ensures value { result ≡ lexical.sign b c }
    ensures within { (len : ℕ) → 1 ≤ len → (c ≢ 0 → 2 ≤ len) → lexical.IsWithin len result }
{
    match (b, c) {
        (b':', b'=') => Thing::Token(TokenShape::Define, 2),
        (b':', _) => Thing::Token(TokenShape::Colon, 1),
        (b',', _) => Thing::Token(TokenShape::Comma, 1),
        (b'(', _) => Thing::Token(TokenShape::Open, 1),
        (b')', _) => Thing::Token(TokenShape::Shut, 1),
        (b'.', _) => Thing::Token(TokenShape::Dot, 1),
        (b'@', _) => Thing::Token(TokenShape::At, 1),
        (b'+', _) => Thing::Token(TokenShape::Plus, 1),
        (b'-', _) => Thing::Token(TokenShape::Minus, 1),
        (b'*', _) => Thing::Token(TokenShape::Star, 1),
        (b'/', _) => Thing::Token(TokenShape::Slash, 1),
        (b'%', _) => Thing::Token(TokenShape::Percent, 1),
        (b'!', b'=') => Thing::Token(TokenShape::Unequal, 2),
        (b'!', _) => Thing::Token(TokenShape::Not, 1),
        (b'&', b'&') => Thing::Token(TokenShape::And, 2),
        (b'|', b'|') => Thing::Token(TokenShape::Or, 2),
        (b'=', b'=') => Thing::Token(TokenShape::Equal, 2),
        (b'<', b'=') => Thing::Token(TokenShape::LessEqual, 2),
        (b'<', _) => Thing::Token(TokenShape::Less, 1),
        (b'>', b'=') => Thing::Token(TokenShape::GreaterEqual, 2),
        (b'>', _) => Thing::Token(TokenShape::Greater, 1),
        _ => Thing::Bad,
    }
}
