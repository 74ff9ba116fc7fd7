//! A cursor over tokens, which counts the nestings of an expression.

ghost use Rattle.std.specs.Prelude.{◌≡◌, ◌≢◌, ◌<◌, ◌≤◌, ◌∷◌, ◌-◌, nat_lt, not, ◌||◌, length, drop, [], MatchOption};
ghost use Rattle.std.specs.Str.{bytes_eq};
ghost use Rattle.lola_parser_grammar.specs.Syntax.{Of, Word, Other, Lexeme, same_shape, starts, max_nestings, last_nesting};
ghost use Rattle.lola_parser_grammar.specs.Cursor.{IsRead, lexemes, place_of, text_of};
ghost use Rattle.lola_lexer.specs.Tokens.{StandIn};
ghost use Rattle.lola_parser_grammar.specs.Grammar as spec;

use crate::literals;
use lola_lexer::shape::TokenShape;
use lola_lexer::token::Token;
use lola_parser_grammar::error::ParseError;
use lola_parser_grammar::literals::{Name, Quantity};
use lola_value::text::Text;
use std::alloc::Global;
use std::marker::Model;

/// The most nestings that a whole expression or formula may have.
pub const MAX_NESTINGS: u32 = 512;

/// Levels that may be nested: more than an expression has nestings, of which each level takes one.
pub const MAX_LEVELS: usize = 514;

/// A cursor over tokens, which counts the nestings of an expression. Contracts see the tokens that are still to read, and
/// how many nestings may still come.
#[derive(Drop)]
pub struct Parser<'a> {
    bytes: &'a [u8],
    tokens: &'a [Token],
    /// How many of them were read.
    at: usize,
    /// How many nestings may still come in the expression.
    room: u32,
}

impl<'a> Model for Parser<'a> {
    ghost use Rattle.lola_parser_grammar.specs.Cursor.{Cursor, lexemes};
    ghost use Rattle.lola_lexer.specs.Tokens.{StandIn};
    ghost use Rattle.std.specs.Prelude.{◌≤◌, length, drop};

    ghost Value = { Cursor };

    ghost view = { λ p. record { rest = lexemes p.bytes.now (drop p.at p.tokens.now); room = p.room } };

    ghost invariant = { λ p. (p.at ≤ length p.tokens.now) × StandIn p.bytes.now p.tokens.now };
}

fn same(a: TokenShape, b: TokenShape) -> bool
    ensures { result ≡ same_shape a b }
{
    a == b
}

fn spells(text: &[u8], word: &[u8]) -> bool
    ensures { result ≡ bytes_eq word.now text.now }
{
    word == text
}

fn is_none_of(text: &[u8], first: &[u8], second: &[u8]) -> bool
    ensures { result ≡ not (bytes_eq first.now text.now || bytes_eq second.now text.now) }
{
    !(first == text || second == text)
}

impl<'a> Parser<'a> {
    /// Stands before the first of these tokens, at the beginning of an expression.
    pub fn new(bytes: &'a [u8], tokens: &'a [Token]) -> Parser<'a>
        requires { StandIn bytes.now tokens.now }
        ensures rest { result.rest ≡ lexemes bytes.now tokens.now }
        ensures room { result.room ≡ max_nestings }
    {
        Parser {
            bytes,
            tokens,
            at: 0,
            room: MAX_NESTINGS,
        }
    }

    /// Where the next token stands, or the end of the text.
    pub fn place(&self, end: u32) -> u32
        ensures { result ≡ place_of self.now.rest end }
    {
        match self.front() {
            None => end,
            Some(token) => token.from,
        }
    }

    /// A cursor at the same place.
    pub fn fork(&self) -> Parser<'a>
        ensures { result ≡ self.now }
    {
        Parser {
            bytes: self.bytes,
            tokens: self.tokens,
            at: self.at,
            room: self.room,
        }
    }

    /// How many tokens are left.
    pub fn left(&self) -> usize
        ensures { result ≡ length self.now.rest }
    {
        self.tokens.len() - self.at
    }

    /// A new expression begins.
    pub fn begin(&mut self)
        ensures rest { self.new.rest ≡ self.old.rest }
        ensures room { self.new.room ≡ max_nestings }
    {
        self.room = MAX_NESTINGS;
    }

    fn front(&self) -> Option<Token>
        ensures { MatchOption result (self.now.rest ≡ []) (λ t. self.now.rest ≡ record { shape = t.shape; text = text_of self.now.rest; from = t.from; to = t.to } ∷ drop 1 self.now.rest) }
    {
        if self.at < self.tokens.len() {
            Some(self.tokens[self.at])
        } else {
            None
        }
    }

    fn advance(&mut self)
        requires { 0 < length self.old.rest }
        ensures rest { self.new.rest ≡ drop 1 self.old.rest }
        ensures room { self.new.room ≡ self.old.room }
    {
        self.at += 1;
    }

    /// Whether one more nesting may come.
    pub fn has_room(&self) -> bool
        ensures { result ≡ nat_lt 0 self.now.room }
    {
        self.room > 0
    }

    /// One more nesting came.
    pub fn spend(&mut self)
        requires { 0 < self.old.room }
        ensures rest { self.new.rest ≡ self.old.rest }
        ensures room { self.new.room ≡ self.old.room - 1 }
    {
        self.room -= 1;
    }

    /// Whether the next token is of this shape.
    pub fn sees(&self, shape: TokenShape) -> bool
        ensures { result ≡ starts (Of shape ∷ []) self.now.rest }
    {
        match self.front() {
            None => false,
            Some(token) => same(shape, token.shape),
        }
    }

    /// Takes a token of this shape.
    pub fn take(&mut self, shape: TokenShape) -> Result<u32, ParseError>
        ensures { IsRead (spec.token shape) self.old result self.new }
    {
        let Some(token) = self.front() else {
            return Err(ParseError::Unexpected);
        };
        if !same(shape, token.shape) {
            return Err(ParseError::Unexpected);
        }
        self.advance();
        Ok(token.from)
    }

    fn text(&self) -> &'a [u8]
        ensures { result.now ≡ text_of self.now.rest }
    {
        if self.at < self.tokens.len() {
            let token = self.tokens[self.at];
            &self.bytes[token.from as usize..token.to as usize]
        } else {
            &[]
        }
    }

    /// The next token is a name that is spelled so.
    pub fn sees_word(&self, word: &[u8]) -> bool
        ensures { result ≡ starts (Word word.now ∷ []) self.now.rest }
    {
        match self.front() {
            None => false,
            Some(token) => {
                let is_name = same(TokenShape::Name, token.shape);
                let is_spelled = spells(self.text(), word);
                is_name && is_spelled
            }
        }
    }

    /// Takes a name that is spelled so.
    pub fn word(&mut self, word: &[u8]) -> Result<u32, ParseError>
        ensures { IsRead (spec.word word.now) self.old result self.new }
    {
        if !self.sees_word(word) {
            return Err(ParseError::Unexpected);
        }
        let Some(token) = self.front() else {
            return Err(ParseError::Unexpected);
        };
        self.advance();
        Ok(token.from)
    }

    /// Takes a nesting of this shape.
    pub fn nesting(&mut self, shape: TokenShape) -> Result<u32, ParseError>
        ensures { IsRead (spec.nesting shape) self.old result self.new }
    {
        let Some(token) = self.front() else {
            return Err(ParseError::Unexpected);
        };
        if !same(shape, token.shape) {
            return Err(ParseError::Unexpected);
        }
        if !self.has_room() {
            return Err(ParseError::TooDeep);
        }
        self.advance();
        self.spend();
        Ok(token.from)
    }

    /// The next token is a name that is none of these words.
    pub fn sees_other(&self, first: &[u8], second: &[u8]) -> bool
        ensures { result ≡ starts (Other (first.now ∷ second.now ∷ []) ∷ []) self.now.rest }
    {
        match self.front() {
            None => false,
            Some(token) => {
                let is_name = same(TokenShape::Name, token.shape);
                let is_other = is_none_of(self.text(), first, second);
                is_name && is_other
            }
        }
    }

    /// Takes a name.
    pub fn name(&mut self, alloc: Global) -> Result<Name, ParseError>
        ensures { IsRead spec.name self.old result self.new }
    {
        let text = Text::from_bytes(alloc, self.text())?;
        match self.take(TokenShape::Name) {
            Ok(at) => Ok(Name { text, at }),
            Err(error) => Err(error),
        }
    }

    /// Takes a name that is none of these words.
    pub fn other_name(
        &mut self,
        alloc: Global,
        first: &[u8],
        second: &[u8],
    ) -> Result<Name, ParseError>
        ensures { IsRead (spec.other_name (first.now ∷ second.now ∷ [])) self.old result self.new }
    {
        if !self.sees_other(first, second) {
            return Err(ParseError::Unexpected);
        }
        self.name(alloc)
    }

    /// Takes an integer: its number and its place.
    pub fn integer(&mut self) -> Result<(u128, u32), ParseError>
        ensures { IsRead spec.integer self.old result self.new }
    {
        let number = literals::number(self.text());
        match self.take(TokenShape::Integer) {
            Ok(at) => Ok((number, at)),
            Err(error) => Err(error),
        }
    }

    /// Takes a text: what stands between its quotes, and its place.
    pub fn text_literal(&mut self, alloc: Global) -> Result<(Text, u32), ParseError>
        ensures { IsRead spec.text self.old result self.new }
    {
        let text = literals::text(alloc, self.text())?;
        match self.take(TokenShape::Text) {
            Ok(at) => Ok((text, at)),
            Err(error) => Err(error),
        }
    }

    /// Takes a quantity.
    pub fn quantity(&mut self) -> Result<Quantity, ParseError>
        ensures { IsRead spec.quantity self.old result self.new }
    {
        let text = self.text();
        let digits = literals::number(text);
        let count = literals::count_of_digits(text);
        let decimals = literals::count_of_decimals(text);
        let unit = literals::unit(text);
        match self.take(TokenShape::Quantity) {
            Ok(at) => Ok(Quantity {
                digits,
                count,
                decimals,
                unit,
                at,
            }),
            Err(error) => Err(error),
        }
    }

    #[tactic(auto, using(crate::proofs::Starts::starts_more))]
    fn sees_opening_nesting(&self) -> bool
        ensures { result ≡ starts spec.opening_nestings self.now.rest }
    {
        self.sees(TokenShape::Open)
            || self.sees(TokenShape::Dot)
            || self.sees(TokenShape::If)
            || self.sees(TokenShape::Not)
    }

    #[tactic(auto, using(crate::proofs::Starts::starts_more))]
    fn sees_joining_nesting(&self) -> bool
        ensures { result ≡ starts spec.joining_nestings self.now.rest }
    {
        self.sees(TokenShape::Minus)
            || self.sees(TokenShape::Plus)
            || self.sees(TokenShape::Star)
            || self.sees(TokenShape::Slash)
            || self.sees(TokenShape::Percent)
            || self.sees(TokenShape::And)
            || self.sees(TokenShape::Or)
    }

    #[tactic(auto, using(crate::proofs::Starts::starts_more))]
    fn sees_comparing_nesting(&self) -> bool
        ensures { result ≡ starts spec.comparing_nestings self.now.rest }
    {
        self.sees(TokenShape::Equal)
            || self.sees(TokenShape::Unequal)
            || self.sees(TokenShape::Less)
            || self.sees(TokenShape::LessEqual)
            || self.sees(TokenShape::Greater)
            || self.sees(TokenShape::GreaterEqual)
    }

    #[tactic(auto, using(crate::proofs::WithNestings::operators_split))]
    fn sees_operator_nesting(&self) -> bool
        ensures { result ≡ starts spec.operator_nestings self.now.rest }
    {
        self.sees_joining_nesting() || self.sees_comparing_nesting()
    }

    /// The next token is a nesting.
    #[tactic(auto, using(crate::proofs::WithNestings::nestings_split))]
    fn sees_nesting(&self) -> bool
        ensures { result ≡ starts spec.all_nestings self.now.rest }
    {
        self.sees_opening_nesting() || self.sees_operator_nesting()
    }

    /// Goes back to the last nesting that was read since `start`, if there was one.
    pub fn back_to_last_nesting(&mut self, start: Parser<'a>)
        requires { length self.old.rest ≤ length start.rest }
        ensures rest { self.new.rest ≡ last_nesting spec.all_nestings (length start.entry.rest - length self.old.rest) self.old.rest start.entry.rest }
        ensures room { self.new.room ≡ self.old.room }
    {
        let count = start.left() - self.left();
        let mut here = start;
        let mut last = self.fork();
        for _turn in 0..count {
            if here.sees_nesting() {
                last = here.fork();
            }
            here.advance();
        }
        self.bytes = last.bytes;
        self.tokens = last.tokens;
        self.at = last.at;
    }
}
