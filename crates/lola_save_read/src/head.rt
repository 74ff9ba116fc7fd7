//! What stands before the lines of a state: what the text is, and the specification of the plan that the state is of.

ghost use Rattle.std.specs.Prelude.{◌≡◌, ◌↔◌, ℕ, List, decimal, length, IsTrue, MatchOption, MatchResult};
ghost use Rattle.std.specs.List.{list_all};
ghost use Rattle.lola_value.specs.Times.{is_digit};
ghost use Rattle.lola_save_text.specs.Damage.{is_number};
ghost use Rattle.lola_save_read.specs.Heads.{HasSpec, IsBehindHead, IsHeadEnd, IsSecondLine};

use crate::cuts::{behind, line_behind};
use crate::words::is_decimal;

/// Why bytes are no state text of a specification, as far as the lines before those of the state tell it.
#[derive(Clone, Copy)]
pub enum HeadEnd {
    /// They are damaged at this line, counted from 1.
    Damaged(u64),
    /// They are of another specification.
    OtherSpec,
}

// Whether there are digits alone.
fn are_digits(bytes: &[u8]) -> bool
    ensures { result ≡ list_all is_digit bytes.now }
{
    bytes.iter().all(|b| b'0' <= *b && *b <= b'9')
}

// Whether these are the digits of a number, with no leading zero.
fn is_number(digits: &[u8]) -> bool
    ensures { result ≡ is_number digits.now }
{
    are_digits(digits) && (digits.len() == 1 || (digits.len() > 1 && digits[0] != b'0'))
}

// Whether these are the digits of a length.
fn is_length(digits: &[u8], spec: &[u8]) -> bool
    ensures { IsTrue result ↔ (digits.now ≡ decimal (length spec.now)) }
{
    is_decimal(spec.len() as u64, digits)
}

// The digits in the line of a specification's length, and what stands behind that line.
fn second_line(bytes: &[u8]) -> Option<(&[u8], &[u8])>
    ensures { MatchOption result ((digits left : List ℕ) → IsSecondLine bytes.now digits left → ⊥) (λ x. IsSecondLine bytes.now x.0.now x.1.now) }
{
    match line_behind(b"spec ", bytes) {
        None => None,
        Some((digits, left)) => {
            if is_number(digits) {
                Some((digits, left))
            } else {
                None
            }
        }
    }
}

// What stands behind a specification and its LF, where the digits are those of its length.
fn behind_spec<'a>(spec: &[u8], digits: &[u8], left: &'a [u8]) -> Option<&'a [u8]>
    ensures { MatchOption result ((rest : List ℕ) → HasSpec spec.now digits.now left.now rest → ⊥) (λ x. HasSpec spec.now digits.now left.now x.now) }
{
    let Some(last) = behind(spec, left) else {
        return None;
    };
    if is_length(digits, spec) {
        behind(b"\n", last)
    } else {
        None
    }
}

/// What stands behind the head of a state text of this specification: behind the heading, the length of the specification and its
/// bytes. Where bytes do not begin so, they are of another specification, if their first two lines are of the form; and else
/// damaged at one of these.
pub fn behind_head<'a>(spec: &[u8], bytes: &'a [u8]) -> Result<&'a [u8], HeadEnd>
    ensures { MatchResult result (λ rest. IsBehindHead spec.now bytes.now rest.now) (λ e. IsHeadEnd spec.now bytes.now e) }
{
    match behind(b"lolamon-state 1\n", bytes) {
        None => Err(HeadEnd::Damaged(1)),
        Some(second) => match second_line(second) {
            None => Err(HeadEnd::Damaged(2)),
            Some((digits, left)) => match behind_spec(spec, digits, left) {
                None => Err(HeadEnd::OtherSpec),
                Some(rest) => Ok(rest),
            },
        },
    }
}
