//! Names and reserved words.

ghost use Rattle.std.specs.Prelude.{◌≡◌, length, slice_index, true};
ghost use Rattle.std.specs.Str.{bytes_eq};
ghost use Rattle.lola_lexer.specs.Lexical as lexical;
ghost use Rattle.lola_lexer.specs.Spelling as spelled;

use crate::scan::bytes::Class;
use crate::scan::thing::Thing;
use crate::shape::TokenShape;

fn is(word: &[u8], other: &[u8]) -> bool
    ensures { result ≡ bytes_eq word.now other.now }
{
    word == other
}

/// The reserved word that is spelled so, and else a name.
fn shape_of(word: &[u8]) -> TokenShape
    ensures { result ≡ lexical.shape_of_word word.now }
{
    if is(word, b"input") {
        TokenShape::Input
    } else if is(word, b"output") {
        TokenShape::Output
    } else if is(word, b"constant") {
        TokenShape::Constant
    } else if is(word, b"trigger") {
        TokenShape::Trigger
    } else if is(word, b"spawn") {
        TokenShape::Spawn
    } else if is(word, b"eval") {
        TokenShape::Eval
    } else if is(word, b"close") {
        TokenShape::Close
    } else if is(word, b"with") {
        TokenShape::With
    } else if is(word, b"when") {
        TokenShape::When
    } else if is(word, b"if") {
        TokenShape::If
    } else if is(word, b"then") {
        TokenShape::Then
    } else if is(word, b"else") {
        TokenShape::Else
    } else if is(word, b"true") {
        TokenShape::True
    } else if is(word, b"false") {
        TokenShape::False
    } else {
        TokenShape::Name
    }
}

/// The name or reserved word at the front.
#[tactic(auto, unfolding(crate::specs::Lexical::word))]
pub(crate) fn word(bytes: &[u8]) -> Thing
    requires { spelled.begins_name (slice_index bytes.now 0) ≡ true }
    ensures value { result ≡ lexical.word bytes.now }
    ensures within { lexical.IsWithin (length bytes.now) result }
{
    let len = Class::Name.run(bytes, 0);
    Thing::Token(shape_of(&bytes[..len]), len)
}
