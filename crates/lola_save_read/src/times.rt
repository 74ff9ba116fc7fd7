//! The first three lines of a state: the start of its run, the time of the last accepted row, and how many steps there were.

ghost use Rattle.std.specs.Prelude.{◌≡◌, ◌≤◌, ℕ, List, Option, nat_le, MatchOption, MatchResult};
ghost use Rattle.lola_save_text.specs.Fitting.{is_last, most_steps};
ghost use Rattle.lola_save_read.specs.Reads.{AreTimesRead, AreTimesRefused, IsLastLine, IsStepsLine, IsTimedLine};

use crate::cuts::line_behind;
use crate::words::{number_word, time_or_dash};
use lola_save_text::state::Times;
use lola_value::times::LATEST;

// The greatest number of steps.
const MOST_STEPS: u64 = 1 << 62;

// A line with a time or a dash behind a text with which it begins, and what stands behind the line.
fn timed_line<'a>(front: &[u8], bytes: &'a [u8]) -> Option<(Option<u64>, &'a [u8])>
    ensures { MatchOption result ((o : Option ℕ) (rest : List ℕ) → IsTimedLine front.now bytes.now o rest → ⊥) (λ x. IsTimedLine front.now bytes.now x.0 x.1.now) }
{
    match line_behind(front, bytes) {
        None => None,
        Some((body, rest)) => match time_or_dash(body) {
            None => None,
            Some(time) => Some((time, rest)),
        },
    }
}

// Whether the last accepted row may have this time, in a run with this start.
fn is_last(start: Option<u64>, last: Option<u64>) -> bool
    ensures { result ≡ is_last start last }
{
    match last {
        None => true,
        Some(time) => match start {
            None => false,
            Some(from) => from <= time && time <= LATEST,
        },
    }
}

// The line of the last accepted row, in a run with this start, and what stands behind it.
fn last_line(start: Option<u64>, bytes: &[u8]) -> Option<(Option<u64>, &[u8])>
    ensures { MatchOption result ((o : Option ℕ) (rest : List ℕ) → IsLastLine start bytes.now o rest → ⊥) (λ x. IsLastLine start bytes.now x.0 x.1.now) }
{
    match timed_line(b"last ", bytes) {
        None => None,
        Some((last, rest)) => {
            if is_last(start, last) {
                Some((last, rest))
            } else {
                None
            }
        }
    }
}

// Whether a run may have this many steps.
fn are_few(steps: u64) -> bool
    ensures { result ≡ nat_le steps most_steps }
{
    steps <= MOST_STEPS
}

// The line of a number of steps, and what stands behind it.
fn steps_line(bytes: &[u8]) -> Option<(u64, &[u8])>
    ensures { MatchOption result ((n : ℕ) (rest : List ℕ) → IsStepsLine bytes.now n rest → ⊥) (λ x. IsStepsLine bytes.now x.0 x.1.now) }
{
    match line_behind(b"steps ", bytes) {
        None => None,
        Some((body, rest)) => match number_word(body) {
            None => None,
            Some(steps) => {
                if are_few(steps) {
                    Some((steps, rest))
                } else {
                    None
                }
            }
        },
    }
}

/// What the first three lines of a state say, and what stands behind them; or at which of these, counted from 1, bytes are damaged
/// that stand behind the head of a state text.
pub fn read_times(bytes: &[u8]) -> Result<(Times, &[u8]), u64>
    ensures { MatchResult result (λ x. AreTimesRead bytes.now x.0 x.1.now) (λ k. (k ≤ 3) × AreTimesRefused bytes.now k) }
{
    match timed_line(b"start ", bytes) {
        None => Err(1),
        Some((start, behind_start)) => match last_line(start, behind_start) {
            None => Err(2),
            Some((last, behind_last)) => match steps_line(behind_last) {
                None => Err(3),
                Some((steps, rest)) => Ok((Times { start, last, steps }, rest)),
            },
        },
    }
}
