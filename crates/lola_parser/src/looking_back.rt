//! What stands before a token.

ghost use Rattle.std.specs.Prelude.{◌≡◌, ◌≤◌, ℕ, List, ◌∷◌, [], drop, length, IfSome, MatchOption};
ghost use Rattle.lola_parser_grammar.specs.Cursor.{lexemes};
ghost use Rattle.lola_lexer.specs.declared.shape.TokenShape.TheVariants as is;
ghost use Rattle.lola_parser.specs.Places as places;
ghost use Rattle.lola_parser_grammar.specs.Syntax.{Of, starts, same_shape};
ghost use Rattle.lola_parser.specs.Looking.{is_either, is_nesting_shape, nestings_among, IsLast};

use lola_lexer::shape::TokenShape;
use lola_lexer::token::Token;

/// The token is one of those that are counted in an expression or formula.
#[tactic(auto, unfolding(crate::specs::Looking::is_nesting_shape))]
fn is_nesting(shape: TokenShape) -> bool
    ensures { result ≡ is_nesting_shape shape }
{
    matches!(
        shape,
        TokenShape::Open
            | TokenShape::Dot
            | TokenShape::If
            | TokenShape::Not
            | TokenShape::Minus
            | TokenShape::Plus
            | TokenShape::Star
            | TokenShape::Slash
            | TokenShape::Percent
            | TokenShape::And
            | TokenShape::Or
            | TokenShape::Equal
            | TokenShape::Unequal
            | TokenShape::Less
            | TokenShape::LessEqual
            | TokenShape::Greater
            | TokenShape::GreaterEqual
    )
}

/// Where the last of these tokens that is a nesting stands.
pub fn last_nesting(tokens: &[Token]) -> Option<usize>
    ensures { IsLast is_nesting_shape tokens.now result }
{
    let mut at = tokens.len();
    while at > 0 {
        at -= 1;
        if is_nesting(tokens[at].shape) {
            return Some(at);
        }
    }
    None
}

/// How many of the tokens from `start` on are nestings.
pub fn count_of_nestings(tokens: &[Token], start: usize) -> usize
    requires { start ≤ length tokens.now }
    ensures { result ≡ nestings_among (drop start tokens.now) }
{
    let mut count = 0;
    for at in start..tokens.len() {
        if is_nesting(tokens[at].shape) {
            count += 1;
        }
    }
    count
}

#[tactic(auto, unfolding(lola_parser_grammar::specs::Syntax::same_shape))]
fn same(a: TokenShape, b: TokenShape) -> bool
    ensures { result ≡ same_shape a b }
{
    a == b
}

fn is_one(shape: TokenShape, first: TokenShape, second: TokenShape) -> bool
    ensures { result ≡ is_either first second shape }
{
    same(first, shape) || same(second, shape)
}

/// Where the last of these tokens that has one of two shapes stands.
fn last_of(tokens: &[Token], first: TokenShape, second: TokenShape) -> Option<usize>
    ensures { IsLast (is_either first second) tokens.now result }
{
    let mut at = tokens.len();
    while at > 0 {
        at -= 1;
        if is_one(tokens[at].shape, first, second) {
            return Some(at);
        }
    }
    None
}

/// The last of these tokens that begins a clause with a `with` begins a spawn clause.
fn is_spawn(tokens: &[Token]) -> bool
    ensures { (bytes : List ℕ) → result ≡ places.is_spawn (places.cut_last places.clause_words (lexemes bytes tokens.now)) }
{
    match last_of(tokens, TokenShape::Spawn, TokenShape::Eval) {
        None => false,
        Some(at) => same(TokenShape::Spawn, tokens[at].shape),
    }
}

fn is_open(tokens: &[Token], at: usize) -> bool
    ensures { (bytes : List ℕ) → result ≡ starts (Of is.Open ∷ []) (lexemes bytes (drop at tokens.now)) }
{
    at < tokens.len() && same(TokenShape::Open, tokens[at].shape)
}

/// Where the tokens behind the bracket begin, if the last `with` of these tokens belongs to a spawn clause and has a
/// bracket directly behind it.
pub fn behind_bracket(tokens: &[Token]) -> Option<usize>
    ensures within { IfSome result (λ i. i ≤ length tokens.now) }
    ensures is { (bytes : List ℕ) → MatchOption result (places.behind_bracket (lexemes bytes tokens.now) ≡ None) (λ i. places.behind_bracket (lexemes bytes tokens.now) ≡ Some (lexemes bytes (drop i tokens.now))) }
{
    let Some(with) = last_of(tokens, TokenShape::With, TokenShape::With) else {
        return None;
    };
    if !is_spawn(&tokens[..with]) {
        return None;
    }
    if !is_open(tokens, with + 1) {
        return None;
    }
    Some(with + 2)
}
