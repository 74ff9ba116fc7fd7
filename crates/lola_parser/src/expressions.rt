//! Recognizes an expression, however many nestings it has and however deep it is nested. No tree is built: what is still to
//! be read stands in a list, so that nothing recurses.

ghost use Rattle.std.specs.Prelude.{◌≡◌, [], drop, if◌then◌else◌, MatchOption, IfOk};
ghost use Rattle.lola_parser_grammar.specs.Syntax.{starts};
ghost use Rattle.lola_parser.specs.Parts.{IsRecognized};
ghost use Rattle.lola_parser.specs.Turns as turns;
ghost use Rattle.lola_parser.specs.Turns.{Gives};

use crate::cursor::Cursor;
use crate::pending::{Pending, Stack};
use lola_lexer::shape::TokenShape;
use lola_value::text::Memory;
use std::alloc::Global;

#[tactic(auto, using(lola_parser_cursor::proofs::Starts::starts_more))]
fn sees_product_operator(cursor: &Cursor<'_>) -> bool
    ensures { result ≡ starts turns.product_nestings cursor.now }
{
    cursor.sees(TokenShape::Star)
        || cursor.sees(TokenShape::Slash)
        || cursor.sees(TokenShape::Percent)
}

#[tactic(auto, using(lola_parser_cursor::proofs::Starts::starts_more))]
fn sees_sum_operator(cursor: &Cursor<'_>) -> bool
    ensures { result ≡ starts turns.sum_nestings cursor.now }
{
    cursor.sees(TokenShape::Plus) || cursor.sees(TokenShape::Minus)
}

#[tactic(auto, using(lola_parser_cursor::proofs::Starts::starts_more))]
fn sees_comparison_operator(cursor: &Cursor<'_>) -> bool
    ensures { result ≡ starts turns.comparison_nestings cursor.now }
{
    cursor.sees(TokenShape::Equal)
        || cursor.sees(TokenShape::Unequal)
        || cursor.sees(TokenShape::Less)
        || cursor.sees(TokenShape::LessEqual)
        || cursor.sees(TokenShape::Greater)
        || cursor.sees(TokenShape::GreaterEqual)
}

#[tactic(auto, using(lola_parser_cursor::proofs::Starts::starts_more))]
fn sees_prefix_operator(cursor: &Cursor<'_>) -> bool
    ensures { result ≡ starts turns.prefix_operators cursor.now }
{
    cursor.sees(TokenShape::Not) || cursor.sees(TokenShape::Minus)
}

#[tactic(auto, using(lola_parser_cursor::proofs::Starts::starts_more))]
fn sees_literal(cursor: &Cursor<'_>) -> bool
    ensures { result ≡ starts turns.literals cursor.now }
{
    cursor.sees(TokenShape::Integer)
        || cursor.sees(TokenShape::True)
        || cursor.sees(TokenShape::False)
        || cursor.sees(TokenShape::Text)
}

#[tactic(auto, using(lola_parser_cursor::proofs::Starts::starts_more))]
fn sees_held(cursor: &Cursor<'_>) -> bool
    ensures { result ≡ starts turns.held_words cursor.now }
{
    cursor.sees_word(b"hold") || cursor.sees_word(b"get") || cursor.sees_word(b"last")
}

#[tactic(auto, using(lola_parser_cursor::proofs::Starts::starts_more))]
fn sees_over(cursor: &Cursor<'_>) -> bool
    ensures { result ≡ starts turns.over_words cursor.now }
{
    cursor.sees_word(b"over") || cursor.sees_word(b"over_exactly")
}

fn take_over(cursor: &mut Cursor<'_>) -> Option<()>
    ensures { Gives (turns.behind turns.over_words cursor.old) result cursor.new }
{
    if !sees_over(cursor) {
        return None;
    }
    cursor.advance();
    Some(())
}

/// The brackets of an offset.
fn take_distance(cursor: &mut Cursor<'_>) -> Option<()>
    ensures { Gives (turns.distance cursor.old) result cursor.new }
{
    cursor.take(TokenShape::Open)?;
    cursor.take_word(b"by")?;
    cursor.take(TokenShape::Colon)?;
    cursor.take(TokenShape::Minus)?;
    cursor.take(TokenShape::Integer)?;
    cursor.take(TokenShape::Shut)
}

/// The brackets of a window.
fn take_frame(cursor: &mut Cursor<'_>) -> Option<()>
    ensures { Gives (turns.frame cursor.old) result cursor.new }
{
    cursor.take(TokenShape::Open)?;
    take_over(cursor)?;
    cursor.take(TokenShape::Colon)?;
    cursor.take(TokenShape::Quantity)?;
    cursor.take(TokenShape::Comma)?;
    cursor.take_word(b"using")?;
    cursor.take(TokenShape::Colon)?;
    cursor.take(TokenShape::Name)?;
    cursor.take(TokenShape::Shut)
}

/// Behind `defaults`: what stands before its expression.
fn take_to(cursor: &mut Cursor<'_>) -> Option<()>
    ensures { Gives (turns.to cursor.old) result cursor.new }
{
    cursor.take(TokenShape::Open)?;
    cursor.take_word(b"to")?;
    cursor.take(TokenShape::Colon)
}

/// `defaults` and what stands before its expression.
fn take_defaults(cursor: &mut Cursor<'_>) -> Option<()>
    ensures { Gives (turns.defaults_to cursor.old) result cursor.new }
{
    cursor.take_word(b"defaults")?;
    take_to(cursor)
}

/// Behind `hold`, `get` or `last` and an opening bracket.
fn substitute(cursor: &mut Cursor<'_>) -> Option<&'static [Pending]>
    ensures { MatchOption result (turns.substitute cursor.old ≡ None) (λ ps. turns.substitute cursor.old ≡ Some (ps.now, cursor.new)) }
{
    if !cursor.sees_word(b"or") {
        return Some(&[Pending::Shut, Pending::Defaults]);
    }
    cursor.advance();
    cursor.take(TokenShape::Colon)?;
    Some(&[Pending::Expr, Pending::Shut, Pending::Defaults])
}

/// Behind the point after a name.
fn access(cursor: &mut Cursor<'_>) -> Option<&'static [Pending]>
    ensures { MatchOption result (turns.access cursor.old ≡ None) (λ ps. turns.access cursor.old ≡ Some (ps.now, cursor.new)) }
{
    if cursor.sees_word(b"offset") {
        cursor.advance();
        take_distance(cursor)?;
        return Some(&[Pending::Defaults]);
    }
    if sees_held(cursor) {
        cursor.advance();
        cursor.take(TokenShape::Open)?;
        return substitute(cursor);
    }
    if cursor.sees_word(b"aggregate") {
        cursor.advance();
        take_frame(cursor)?;
        return Some(&[Pending::Defaults]);
    }
    take_defaults(cursor)?;
    Some(&[Pending::Expr, Pending::Shut, Pending::Defaults])
}

fn operand(cursor: &mut Cursor<'_>) -> Option<&'static [Pending]>
    ensures { MatchOption result (turns.operand_turn cursor.old ≡ None) (λ ps. turns.operand_turn cursor.old ≡ Some (ps.now, cursor.new)) }
{
    if sees_prefix_operator(cursor) {
        cursor.advance();
        return Some(&[Pending::Operand]);
    }
    if cursor.sees(TokenShape::Open) {
        cursor.advance();
        return Some(&[Pending::Expr, Pending::Shut, Pending::Defaults]);
    }
    if cursor.sees(TokenShape::Name) {
        cursor.advance();
        return Some(&[Pending::Arguments, Pending::Access]);
    }
    if !sees_literal(cursor) {
        return None;
    }
    cursor.advance();
    Some(&[Pending::Defaults])
}

fn expression(cursor: &mut Cursor<'_>) -> Option<&'static [Pending]>
    ensures { MatchOption result (turns.expression_turn cursor.old ≡ None) (λ ps. turns.expression_turn cursor.old ≡ Some (ps.now, cursor.new)) }
{
    if cursor.sees(TokenShape::If) {
        cursor.advance();
        return Some(&[
            Pending::Expr,
            Pending::Then,
            Pending::Expr,
            Pending::Else,
            Pending::Expr,
        ]);
    }
    Some(&[
        Pending::Operand,
        Pending::Products,
        Pending::Sums,
        Pending::Comparison,
        Pending::Conjunctions,
        Pending::Disjunctions,
    ])
}

/// Behind an argument.
fn further_arguments(cursor: &mut Cursor<'_>) -> Option<&'static [Pending]>
    ensures { MatchOption result (turns.further_turn cursor.old ≡ None) (λ ps. turns.further_turn cursor.old ≡ Some (ps.now, cursor.new)) }
{
    if cursor.sees(TokenShape::Comma) {
        cursor.advance();
        return Some(&[Pending::Expr, Pending::FurtherArguments]);
    }
    cursor.take(TokenShape::Shut)?;
    Some(&[])
}

/// `.defaults(to: ..)`, or nothing.
fn defaults(cursor: &mut Cursor<'_>) -> Option<&'static [Pending]>
    ensures { MatchOption result (turns.defaults_turn cursor.old ≡ None) (λ ps. turns.defaults_turn cursor.old ≡ Some (ps.now, cursor.new)) }
{
    if !cursor.sees(TokenShape::Dot) {
        return Some(&[]);
    }
    cursor.advance();
    take_defaults(cursor)?;
    Some(&[Pending::Expr, Pending::Shut, Pending::Defaults])
}

/// A point and an access, or nothing.
fn dotted_access(cursor: &mut Cursor<'_>) -> Option<&'static [Pending]>
    ensures { MatchOption result (turns.access_turn cursor.old ≡ None) (λ ps. turns.access_turn cursor.old ≡ Some (ps.now, cursor.new)) }
{
    if !cursor.sees(TokenShape::Dot) {
        return Some(&[]);
    }
    cursor.advance();
    access(cursor)
}

/// These parts behind the next token, if it is one that they follow; else nothing.
fn or_nothing(
    is_next: bool,
    parts: &'static [Pending],
    cursor: &mut Cursor<'_>,
) -> &'static [Pending]
    ensures parts { result.now ≡ (if is_next then parts.now else []) }
    ensures rest { cursor.new ≡ (if is_next then drop 1 cursor.old else cursor.old) }
{
    if !is_next {
        return &[];
    }
    cursor.advance();
    parts
}

/// Operators with what they join, or nothing.
fn operators(part: Pending, cursor: &mut Cursor<'_>) -> Option<&'static [Pending]>
    ensures { MatchOption result (turns.operators_turn part cursor.old ≡ None) (λ ps. turns.operators_turn part cursor.old ≡ Some (ps.now, cursor.new)) }
{
    match part {
        Pending::Products => {
            let is_next = sees_product_operator(cursor);
            Some(or_nothing(is_next, &[Pending::Operand, Pending::Products], cursor))
        }
        Pending::Sums => {
            let is_next = sees_sum_operator(cursor);
            Some(or_nothing(
                is_next,
                &[Pending::Operand, Pending::Products, Pending::Sums],
                cursor,
            ))
        }
        Pending::Comparison => {
            let is_next = sees_comparison_operator(cursor);
            Some(or_nothing(
                is_next,
                &[Pending::Operand, Pending::Products, Pending::Sums],
                cursor,
            ))
        }
        Pending::Conjunctions => {
            let is_next = cursor.sees(TokenShape::And);
            Some(or_nothing(
                is_next,
                &[
                    Pending::Operand,
                    Pending::Products,
                    Pending::Sums,
                    Pending::Comparison,
                    Pending::Conjunctions,
                ],
                cursor,
            ))
        }
        Pending::Disjunctions => {
            let is_next = cursor.sees(TokenShape::Or);
            Some(or_nothing(
                is_next,
                &[
                    Pending::Operand,
                    Pending::Products,
                    Pending::Sums,
                    Pending::Comparison,
                    Pending::Conjunctions,
                    Pending::Disjunctions,
                ],
                cursor,
            ))
        }
        _ => None,
    }
}

fn one_token(shape: TokenShape, cursor: &mut Cursor<'_>) -> Option<&'static [Pending]>
    ensures { MatchOption result (turns.token_turn shape cursor.old ≡ None) (λ ps. turns.token_turn shape cursor.old ≡ Some (ps.now, cursor.new)) }
{
    cursor.take(shape)?;
    Some(&[])
}

/// Reads of this part what the next tokens show: the parts that are to be read for the rest of it, or `None` where no such
/// part goes on so.
fn turn(part: Pending, cursor: &mut Cursor<'_>) -> Option<&'static [Pending]>
    ensures { MatchOption result (turns.turned part cursor.old ≡ None) (λ ps. turns.turned part cursor.old ≡ Some (ps.now, cursor.new)) }
{
    match part {
        Pending::Expr => expression(cursor),
        Pending::Operand => operand(cursor),
        Pending::Products => operators(part, cursor),
        Pending::Sums => operators(part, cursor),
        Pending::Comparison => operators(part, cursor),
        Pending::Conjunctions => operators(part, cursor),
        Pending::Disjunctions => operators(part, cursor),
        Pending::Defaults => defaults(cursor),
        Pending::Arguments => {
            let is_next = cursor.sees(TokenShape::Open);
            Some(or_nothing(is_next, &[Pending::Expr, Pending::FurtherArguments], cursor))
        }
        Pending::FurtherArguments => further_arguments(cursor),
        Pending::Access => dotted_access(cursor),
        Pending::Shut => one_token(TokenShape::Shut, cursor),
        Pending::Then => one_token(TokenShape::Then, cursor),
        Pending::Else => one_token(TokenShape::Else, cursor),
    }
}

/// Reads an expression: whether there is one. The cursor then stands behind it.
pub fn expression_is_read(alloc: Global, cursor: &mut Cursor<'_>) -> Result<bool, Memory>
    ensures { IfOk result (λ is_read. IsRecognized cursor.old is_read cursor.new) }
{
    let mut stack = Stack::new(alloc);
    stack.put(&[Pending::Expr])?;
    while let Some(part) = stack.pop() {
        let Some(parts) = turn(part, cursor) else {
            return Ok(false);
        };
        stack.put(parts)?;
    }
    Ok(true)
}
