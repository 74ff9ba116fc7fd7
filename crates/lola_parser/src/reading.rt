//! The call that reads a specification.

ghost use Rattle.std.specs.Prelude.{◌≡◌, ◌≢◌, ℕ, List, ◌∷◌, ◌++◌, ◌<◌, ◌≤◌, ◌^◌, length, take, drop, slice_index_or, IfOk, MatchOption};
ghost use Rattle.lola_parser_grammar.specs.Syntax.{Lexeme};
ghost use Rattle.lola_lexer.specs.Tokens.{StandIn, AreInOrder};
ghost use Rattle.lola_lexer.specs.declared.token.Token as lexed;
ghost use Rattle.lola_parser_grammar.specs.Cursor.{lexemes};
ghost use Rattle.lola_parser_grammar.specs.Whole.{ReadsAll, Stopped};
ghost use Rattle.lola_parser.specs.Exact.{PlacesExactly};
ghost use Rattle.lola_parser.specs.Places.{Answers, Refuses};
ghost use Rattle.lola_parser.specs.Places as places;

use crate::cursor::Cursor;
use crate::expressions::expression_is_read;
use crate::looking_back::{behind_bracket, count_of_nestings, last_nesting};
use lola_lexer::shape::TokenShape;
use lola_lexer::token::{Token, Tokens};
use lola_parser_declarations::reading::parse;
use lola_parser_grammar::declarations::Ast;
use lola_value::front::{Code, FrontEnd, Refusal};
use lola_value::text::Memory;
use std::alloc::Global;

/// The most nestings that a whole expression or formula may have.
const MAX_NESTINGS: usize = 512;

/// The token at `deep` stands in an expression that begins behind the bracket, at `start`, and ends at a `)`.
fn is_enclosed(
    alloc: Global,
    bytes: &[u8],
    tokens: &[Token],
    start: usize,
    deep: usize,
) -> Result<bool, Memory>
    requires within { StandIn bytes.now tokens.now }
    requires begins { start ≤ deep }
    requires stands { deep ≤ length tokens.now }
    ensures { IfOk result (λ b. b ≡ places.is_enclosed (lexemes bytes.now (drop start (take deep tokens.now))) (lexemes bytes.now (drop deep tokens.now))) }
{
    let mut cursor = Cursor::new(bytes, tokens, start);
    let is_read = expression_is_read(alloc, &mut cursor)?;
    if !is_read {
        return Ok(false);
    }
    if cursor.left() >= tokens.len() - deep {
        return Ok(false);
    }
    Ok(cursor.sees(TokenShape::Shut))
}

/// The place of the nesting at which the expression of the token at `deep` has one too many: that token, or the nesting before
/// it, where the bracket behind the `with` of a spawn clause is a nesting after all.
fn place_from(alloc: Global, bytes: &[u8], tokens: &[Token], deep: usize) -> Result<u32, Memory>
    requires within { StandIn bytes.now tokens.now }
    requires stands { deep < length tokens.now }
    ensures { IfOk result (λ r. (d : lexed.Token) → r ≡ places.place_too_deep (lexemes bytes.now (take deep tokens.now)) (lexemes bytes.now (drop deep tokens.now)) (slice_index_or tokens.now deep d).from) }
{
    let front = &tokens[..deep];
    let own = tokens[deep].from;
    let Some(start) = behind_bracket(front) else {
        return Ok(own);
    };
    if count_of_nestings(front, start) != MAX_NESTINGS {
        return Ok(own);
    }
    if !is_enclosed(alloc, bytes, tokens, start, deep)? {
        return Ok(own);
    }
    match last_nesting(front) {
        None => Ok(own),
        Some(nesting) => Ok(front[nesting].from),
    }
}

/// The number of a token that begins there.
fn found(tokens: &[Token], at: u32) -> Option<usize>
    ensures { MatchOption result ((k : ℕ) (d : lexed.Token) → k < length tokens.now → (slice_index_or tokens.now k d).from ≢ at) (λ i. (i < length tokens.now) × ((d : lexed.Token) → (slice_index_or tokens.now i d).from ≡ at)) }
{
    for (i, token) in tokens.iter().enumerate() {
        if token.from == at {
            return Some(i);
        }
    }
    None
}

/// The place of the nesting too many, where reading was refused as too deep at the token at `at`.
fn place(alloc: Global, bytes: &[u8], tokens: &[Token], at: u32) -> Result<u32, Memory>
    requires within { StandIn bytes.now tokens.now }
    requires in_order { AreInOrder 0 tokens.now }
    ensures { IfOk result (λ r. (u : List Lexeme) (t : Lexeme) (w : List Lexeme) → lexemes bytes.now tokens.now ≡ u ++ t ∷ w → at ≡ t.from → r ≡ places.place_too_deep u (t ∷ w) t.from) }
{
    match found(tokens, at) {
        None => Ok(at),
        Some(deep) => place_from(alloc, bytes, tokens, deep),
    }
}

/// The same refusal, at the nesting too many if that is its cause; or want of memory.
fn placed(alloc: Global, bytes: &[u8], tokens: &[Token], refusal: Refusal) -> FrontEnd
    requires within { StandIn bytes.now tokens.now }
    requires in_order { AreInOrder 0 tokens.now }
    requires stopped { Stopped (lexemes bytes.now tokens.now) (length bytes.now) refusal }
    ensures { Answers (lexemes bytes.now tokens.now) (length bytes.now) (Err result) }
{
    if refusal.code != Code::TooDeep {
        return FrontEnd::Refused(refusal);
    }
    match place(alloc, bytes, tokens, refusal.at) {
        Err(Memory) => FrontEnd::Memory,
        Ok(at) => FrontEnd::Refused(Refusal {
            code: Code::TooDeep,
            at,
        }),
    }
}

/// The specification that the tokens of these bytes spell, or the refusal with which its reading ends.
///
/// Tokens that are no specification are refused as `Unexpected` at the first token such that no specification begins
/// with the tokens up to it, or at the length of the text. Where a whole expression or formula has more than 512 nestings,
/// `TooDeep` stands at the 513th, if it comes before such a token.
///
/// A bracket directly behind the `with` of a spawn clause is a nesting where the expression in it ends at a `)`, and none where
/// a `,` follows, or neither can be seen. So where 512 nestings stand between it and the nesting at which reading ended, the
/// expression is read on, however many nestings it has, and where a `)` ends it, `TooDeep` stands at the nesting before. Of these
/// refusals `exact` tells the place by the tokens; of all others `deep` says that it is the first nesting too many in every
/// specification that begins with the tokens before the first that does not fit.
#[tactic(auto, using(crate::proofs::Refusing::refuses, crate::proofs::Own::places_exactly))]
pub fn specification(alloc: Global, bytes: &[u8], tokens: &Tokens) -> Result<Ast, FrontEnd>
    requires within { StandIn bytes.now tokens.now }
    requires in_order { AreInOrder 0 tokens.now }
    requires short { length bytes.now < 2 ^ 32 }
    ensures exact { Answers (lexemes bytes.now tokens.now) (length bytes.now) result }
    ensures reads { ReadsAll (lexemes bytes.now tokens.now) result }
    ensures refuses { Refuses (lexemes bytes.now tokens.now) (length bytes.now) result }
    ensures deep { PlacesExactly (lexemes bytes.now tokens.now) result }
{
    match parse(alloc, bytes, tokens) {
        Ok(tree) => Ok(tree),
        Err(FrontEnd::Memory) => Err(FrontEnd::Memory),
        Err(FrontEnd::Refused(refusal)) => { Err(placed(alloc, bytes, tokens.as_slice(), refusal)) }
    }
}
