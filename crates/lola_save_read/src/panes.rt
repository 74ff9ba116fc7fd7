//! The panes of a window to the end of a line.

ghost use Rattle.std.specs.Prelude.{◌≡◌, ◌≢◌, ◌≤◌, ◌+◌, ◌-◌, ◌*◌, ◌^◌, ◌&&◌, ◌↔◌, [], List, Option, Some, true, IfOk, IsTrue, MatchOption, codes, is_some, min, nat_lt};
ghost use Rattle.lola_panes.specs.declared.partial.Partial.{Partial};
ghost use Rattle.lola_save_text.specs.Fitting.{are_panes, time_or};
ghost use Rattle.lola_save_text.specs.Lines.{panes_text, partials_text};
ghost use Rattle.lola_save_text.specs.declared.state.SavedPanes.{SavedPanes};
ghost use Rattle.lola_save_read.specs.Parts.{ArePartials, AreTimes};
ghost use Rattle.lola_save_read.specs.Words.{IsWordEnd};

use crate::cuts::{is_nothing, next_word};
use crate::partial::{counted, next_partial, total_size};
use crate::words::{is_dash, number_word};
use lola_model::spec::Agg;
use lola_save_text::forms::WindowForm;
use lola_save_text::state::{Partials, SavedPanes, Times};
use lola_value::text::Memory;
use lola_value::value::Kind;
use std::alloc::Global;

// So many partial results, which count no more values than there were steps.
fn partials(
    alloc: Global,
    how: Agg,
    kind: Kind,
    number: u64,
    steps: u64,
    bytes: &[u8],
) -> Result<Option<Partials>, Memory>
    requires few { steps ≤ 2 ^ 62 }
    requires ends { IsWordEnd bytes.now }
    ensures { IfOk result (λ read. MatchOption read ((qs : List Partial) → ArePartials how kind number steps qs → bytes.now ≢ partials_text qs) (λ qs. ArePartials how kind number steps qs × (bytes.now ≡ partials_text qs))) }
{
    let mut partials = Partials::create(alloc);
    let mut counts = steps as u128;
    let mut totals = steps as u128 * 18446744073709551616;
    let mut left = bytes;
    for _turn in 0..number {
        match next_partial(how, kind, counts, totals, left) {
            None => return Ok(None),
            Some((partial, rest)) => {
                counts -= counted(how, &partial);
                totals -= total_size(how, &partial);
                partials.push(partial)?;
                left = rest;
            }
        }
    }
    if is_nothing(left) {
        Ok(Some(partials))
    } else {
        Ok(None)
    }
}

// How long it was from the start to the last accepted row.
fn since_start(times: Times) -> u64
    ensures { result ≡ time_or 0 times.last - time_or 0 times.start }
{
    times
        .last
        .unwrap_or(0)
        .saturating_sub(times.start.unwrap_or(0))
}

// Whether there was an accepted row, and a pane with this number and length begins no later than the last one.
fn is_begun(times: Times, last: u64, pane: u64) -> bool
    ensures { result ≡ (is_some times.last && nat_lt (last * pane) ((time_or 0 times.last - time_or 0 times.start) + pane)) }
{
    times.last.is_some()
        && (last as u128) * (pane as u128) < since_start(times) as u128 + pane as u128
}

// How many panes are kept where the newest has this number.
fn kept_panes(last: u64, count: u32) -> u64
    ensures { result ≡ min (last + 1) count }
{
    last.saturating_add(1).min(count as u64)
}

// The panes of a window whose newest has this number.
fn panes_to(
    alloc: Global,
    times: Times,
    kind: Kind,
    window: &WindowForm,
    last: u64,
    bytes: &[u8],
) -> Result<Option<SavedPanes>, Memory>
    requires times { AreTimes times }
    requires ends { IsWordEnd bytes.now }
    ensures { IfOk result (λ read. MatchOption read ((qs : List Partial) → are_panes times kind window.now (Some (record { last = last; partials = qs })) ≡ true → bytes.now ≢ partials_text qs) (λ p. (are_panes times kind window.now (Some p) ≡ true) × (p.last ≡ last) × (bytes.now ≡ partials_text p.partials))) }
{
    if is_begun(times, last, window.pane) {
        match partials(
            alloc,
            window.how,
            kind,
            kept_panes(last, window.count),
            times.steps,
            bytes,
        )? {
            None => Ok(None),
            Some(partials) => Ok(Some(SavedPanes { last, partials })),
        }
    } else {
        Ok(None)
    }
}

// Whether a word is a dash, with nothing behind it.
fn is_dash_alone(word: &[u8], rest: &[u8]) -> bool
    ensures { IsTrue result ↔ ((word.now ≡ codes "-") × (rest.now ≡ [])) }
{
    is_dash(word) && is_nothing(rest)
}

/// The panes of a window that are spelled so, or a dash where the window was given no value.
pub(crate) fn panes(
    alloc: Global,
    times: Times,
    kind: Kind,
    window: &WindowForm,
    bytes: &[u8],
) -> Result<Option<Option<SavedPanes>>, Memory>
    requires times { AreTimes times }
    requires length { 1 ≤ window.now.pane }
    ensures { IfOk result (λ read. MatchOption read ((p : Option SavedPanes) → are_panes times kind window.now p ≡ true → bytes.now ≢ panes_text p) (λ p. (are_panes times kind window.now p ≡ true) × (bytes.now ≡ panes_text p))) }
{
    match next_word(bytes) {
        None => Ok(None),
        Some((word, rest)) => {
            if is_dash_alone(word, rest) {
                return Ok(Some(None));
            }
            match number_word(word) {
                None => Ok(None),
                Some(last) => match panes_to(alloc, times, kind, window, last, rest)? {
                    None => Ok(None),
                    Some(panes) => Ok(Some(Some(panes))),
                },
            }
        }
    }
}
