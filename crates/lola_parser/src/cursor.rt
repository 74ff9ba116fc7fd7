//! A cursor over tokens.

ghost use Rattle.std.specs.Prelude.{◌≡◌, ◌≤◌, ◌∷◌, [], drop, length, MatchOption};
ghost use Rattle.std.specs.Str.{bytes_eq};
ghost use Rattle.lola_parser_grammar.specs.Syntax.{Of, Word, starts, same_shape};
ghost use Rattle.lola_lexer.specs.Tokens.{StandIn};
ghost use Rattle.lola_parser_grammar.specs.Cursor.{lexemes, text_of};
ghost use Rattle.lola_parser.specs.Turns.{Gives, behind};

use lola_lexer::shape::TokenShape;
use lola_lexer::token::Token;
use std::marker::Model;

/// A cursor over tokens, seen as the tokens that are still to read.
#[derive(Drop)]
pub struct Cursor<'a> {
    bytes: &'a [u8],
    tokens: &'a [Token],
    /// How many of them were read.
    at: usize,
}

impl<'a> Model for Cursor<'a> {
    ghost use Rattle.lola_parser_grammar.specs.Syntax.{Lexeme};
    ghost use Rattle.lola_parser_grammar.specs.Cursor.{lexemes};
    ghost use Rattle.lola_lexer.specs.Tokens.{StandIn};
    ghost use Rattle.std.specs.Prelude.{◌≤◌, List, length, drop};

    ghost Value = { List Lexeme };

    ghost view = { λ p. lexemes p.bytes.now (drop p.at p.tokens.now) };

    ghost invariant = { λ p. (p.at ≤ length p.tokens.now) × StandIn p.bytes.now p.tokens.now };
}

fn same(a: TokenShape, b: TokenShape) -> bool
    ensures { result ≡ same_shape a b }
{
    a == b
}

fn spells(text: &[u8], word: &[u8]) -> bool
    ensures { result ≡ bytes_eq word.now text.now }
{
    word == text
}

impl<'a> Cursor<'a> {
    /// A cursor that stands at this token.
    pub fn new(bytes: &'a [u8], tokens: &'a [Token], at: usize) -> Cursor<'a>
        requires within { StandIn bytes.now tokens.now }
        requires start { at ≤ length tokens.now }
        ensures { result ≡ lexemes bytes.now (drop at tokens.now) }
    {
        Cursor { bytes, tokens, at }
    }

    /// How many tokens are left.
    pub fn left(&self) -> usize
        ensures { result ≡ length self.now }
    {
        self.tokens.len() - self.at
    }

    fn front(&self) -> Option<Token>
        ensures { MatchOption result (self.now ≡ []) (λ t. self.now ≡ record { shape = t.shape; text = text_of self.now; from = t.from; to = t.to } ∷ drop 1 self.now) }
    {
        if self.at < self.tokens.len() {
            Some(self.tokens[self.at])
        } else {
            None
        }
    }

    fn text(&self) -> &'a [u8]
        ensures { result.now ≡ text_of self.now }
    {
        if self.at < self.tokens.len() {
            let token = self.tokens[self.at];
            &self.bytes[token.from as usize..token.to as usize]
        } else {
            &[]
        }
    }

    pub fn sees(&self, shape: TokenShape) -> bool
        ensures { result ≡ starts (Of shape ∷ []) self.now }
    {
        match self.front() {
            None => false,
            Some(token) => same(shape, token.shape),
        }
    }

    /// The next token is a name that is spelled so.
    pub fn sees_word(&self, word: &[u8]) -> bool
        ensures { result ≡ starts (Word word.now ∷ []) self.now }
    {
        match self.front() {
            None => false,
            Some(token) => {
                let is_name = same(TokenShape::Name, token.shape);
                let is_spelled = spells(self.text(), word);
                is_name && is_spelled
            }
        }
    }

    /// Goes past the next token, if there is one.
    pub fn advance(&mut self)
        ensures { self.new ≡ drop 1 self.old }
    {
        if self.at < self.tokens.len() {
            self.at += 1;
        }
    }

    /// Goes past a token of this shape; where another comes, it stays.
    pub fn take(&mut self, shape: TokenShape) -> Option<()>
        ensures { Gives (behind (Of shape ∷ []) self.old) result self.new }
    {
        if !self.sees(shape) {
            return None;
        }
        self.advance();
        Some(())
    }

    /// Goes past a name that is spelled so; where another token comes, it stays.
    pub fn take_word(&mut self, word: &[u8]) -> Option<()>
        ensures { Gives (behind (Word word.now ∷ []) self.old) result self.new }
    {
        if !self.sees_word(word) {
            return None;
        }
        self.advance();
        Some(())
    }
}
