//! The lines of a stream's instances without their LF, word by word.

ghost use Rattle.std.specs.Prelude.{◌≡◌, ◌≢◌, ◌≤◌, ◌<◌, ◌^◌, ◌++◌, [], ◌∷◌, ℕ, List, Option, IfOk, IfSome, MatchOption, if◌then◌else◌, decimal, is_some, true, false};
ghost use Rattle.std.specs.List.{list_all};
ghost use Rattle.lola_value.specs.declared.text.Field.{Field};
ghost use Rattle.lola_save_text.specs.Lines.{time_or_dash, word};
ghost use Rattle.lola_save_text.specs.Places.{choices, is_birth, is_count, most_lists};
ghost use Rattle.lola_save_text.specs.declared.state.SavedPanes.{SavedPanes};
ghost use Rattle.lola_save_read.specs.Bodies.{IsBirthBehind, IsInstBody, IsPanesBody, IsRingBody, IsStreamBody, alone};
ghost use Rattle.lola_save_read.specs.Parts.{AreTimes};
ghost use Rattle.lola_save_read.specs.Spelled.{AreSpelled};
ghost use Rattle.lola_save_read.specs.Turns.{hand, seen_after};
ghost use Rattle.lola_save_read.specs.Words.{IsBehindName, IsBehindNumber, is_no_space};

use crate::cuts::{cut_word, is_nothing, is_word, next_word};
use crate::panes::panes;
use crate::seen::is_new;
use crate::spelled::Spelled;
use crate::values::{ring_values, values_of_kinds};
use crate::words::{is_decimal, number_word, time_or_dash};
use lola_save_text::forms::{StreamForm, WindowForm};
use lola_save_text::state::{SavedInstance, SavedPanes, Times};
use lola_value::text::{Fields, Memory, Text};
use lola_value::value::Kind;
use std::alloc::Global;

// What stands behind the name of a line.
fn behind_name<'a>(name: &[u8], body: &'a [u8]) -> Option<&'a [u8]>
    requires { list_all is_no_space name.now ≡ true }
    ensures { MatchOption result ((rest : List ℕ) → IsBehindName name.now body.now rest → ⊥) (λ rest. IsBehindName name.now body.now rest.now) }
{
    let (word, rest) = cut_word(body);
    if is_word(word, name) {
        Some(rest)
    } else {
        None
    }
}

// How many values a kind has, where there are fewer than 65,536.
fn choices(kind: Kind) -> u64
    ensures value { result ≡ choices kind }
    ensures few { result ≤ 65536 }
{
    match kind {
        Kind::Bool => 2,
        Kind::Int8 | Kind::UInt8 => 256,
        _ => 65536,
    }
}

// How many instances parameters of these kinds tell apart, up to 65,536.
fn most_lists(kinds: &[Kind]) -> u64
    ensures value { result ≡ most_lists kinds.now }
    ensures few { result ≤ 65536 }
{
    match kinds {
        [] => 1,
        [first, others @ ..] => (choices(*first) * most_lists(others)).min(65536),
    }
}

// Whether a stream may have so many instances.
fn is_count(times: Times, form: &StreamForm, count: u64) -> bool
    ensures { result ≡ is_count times form.now count }
{
    if form.spawns {
        count <= most_lists(form.parameters.as_slice()) && (count == 0 || times.last.is_some())
    } else {
        count == 1
    }
}

// The number that is the one word of bytes, behind a space.
fn last_number(bytes: &[u8]) -> Option<u64>
    ensures { MatchOption result ((n : ℕ) → n < 2 ^ 64 → bytes.now ≢ word (decimal n)) (λ n. bytes.now ≡ word (decimal n)) }
{
    match next_word(bytes) {
        None => None,
        Some((last, rest)) => {
            if is_nothing(rest) {
                number_word(last)
            } else {
                None
            }
        }
    }
}

// What stands behind this number, which is the first word of bytes, behind a space.
fn behind_number(number: u64, bytes: &[u8]) -> Option<&[u8]>
    ensures { MatchOption result ((rest : List ℕ) → IsBehindNumber number bytes.now rest → ⊥) (λ rest. IsBehindNumber number bytes.now rest.now) }
{
    match next_word(bytes) {
        None => None,
        Some((first, rest)) => {
            if is_decimal(number, first) {
                Some(rest)
            } else {
                None
            }
        }
    }
}

// The number behind a name and this number.
fn number_behind(name: &[u8], number: u64, body: &[u8]) -> Option<u64>
    requires { list_all is_no_space name.now ≡ true }
    ensures { MatchOption result ((n : ℕ) → n < 2 ^ 64 → body.now ≢ name.now ++ (word (decimal number) ++ word (decimal n))) (λ n. body.now ≡ name.now ++ (word (decimal number) ++ word (decimal n))) }
{
    match behind_name(name, body) {
        None => None,
        Some(numbers) => match behind_number(number, numbers) {
            None => None,
            Some(rest) => last_number(rest),
        },
    }
}

/// How many instances the line of a stream tells.
pub(crate) fn stream_body(times: Times, number: u64, form: &StreamForm, body: &[u8]) -> Option<u64>
    requires { form.now.spawns ≡ false → form.now.parameters ≡ [] }
    ensures { MatchOption result ((count : ℕ) → IsStreamBody times number form.now body.now count → ⊥) (λ count. IsStreamBody times number form.now body.now count) }
{
    match number_behind(b"stream", number, body) {
        None => None,
        Some(count) => {
            if is_count(times, form, count) {
                Some(count)
            } else {
                None
            }
        }
    }
}

// Whether an instance may be born so.
fn is_birth(times: Times, form: &StreamForm, low: u64, born: Option<u64>) -> bool
    ensures { result ≡ is_birth (hand alone times form.now 1 [] low) born }
{
    match born {
        None => !form.spawns,
        Some(time) => form.spawns && (low <= time && time <= times.last.unwrap_or(0)),
    }
}

// The birth that a word tells, where an instance may be born so.
fn birth_word(times: Times, form: &StreamForm, low: u64, word: &[u8]) -> Option<Option<u64>>
    requires { AreTimes times }
    ensures { MatchOption result ((born : Option ℕ) → is_birth (hand alone times form.now 1 [] low) born ≡ true → word.now ≢ time_or_dash born) (λ born. (is_birth (hand alone times form.now 1 [] low) born ≡ true) × (word.now ≡ time_or_dash born)) }
{
    match time_or_dash(word) {
        None => None,
        Some(born) => {
            if is_birth(times, form, low, born) {
                Some(born)
            } else {
                None
            }
        }
    }
}

// The birth that stands behind the name of the line of an instance, and what stands behind that.
fn birth_behind<'a>(
    times: Times,
    form: &StreamForm,
    low: u64,
    body: &'a [u8],
) -> Option<(Option<u64>, &'a [u8])>
    requires { AreTimes times }
    ensures { MatchOption result ((born : Option ℕ) (rest : List ℕ) → IsBirthBehind times form.now low body.now born rest → ⊥) (λ x. IsBirthBehind times form.now low body.now x.0 x.1.now) }
{
    match behind_name(b"inst", body) {
        None => None,
        Some(words) => match next_word(words) {
            None => None,
            Some((first, rest)) => match birth_word(times, form, low, first) {
                None => None,
                Some(born) => Some((born, rest)),
            },
        },
    }
}

/// The birth and the parameters that the line of an instance tells, behind these instances of its stream, whose words are spelled. Afterwards
/// its own are too.
pub(crate) fn inst_body(
    alloc: Global,
    times: Times,
    form: &StreamForm,
    low: u64,
    seen: &[SavedInstance],
    spelled: &mut Spelled,
    body: &[u8],
    room: &mut Text,
) -> Result<Option<(Option<u64>, Fields)>, Memory>
    requires times { AreTimes times }
    requires others { AreSpelled spelled.old (seen_after [] seen.now) }
    ensures read { IfOk result (λ read. MatchOption read ((born : Option ℕ) (params : List Field) → IsInstBody times form.now (seen_after [] seen.now) low body.now born params → ⊥) (λ x. IsInstBody times form.now (seen_after [] seen.now) low body.now x.0 x.1)) }
    ensures noted { IfOk result (λ read. IfSome read (λ x. AreSpelled spelled.new (x.1 ∷ seen_after [] seen.now))) }
{
    match birth_behind(times, form, low, body) {
        None => Ok(None),
        Some((born, words)) => {
            match values_of_kinds(alloc, form.parameters.as_slice(), words, room)? {
                None => Ok(None),
                Some(params) => {
                    let fresh = is_new(params.as_slice(), words, seen, spelled)?;
                    if fresh {
                        Ok(Some((born, params)))
                    } else {
                        Ok(None)
                    }
                }
            }
        }
    }
}

// How many values an instance may have.
fn most_values(times: Times, form: &StreamForm) -> u32
    ensures { result ≡ (if is_some times.last then form.now.kept else 0) }
{
    if times.last.is_some() { form.kept } else { 0 }
}

/// The values that the line of an instance's values tells.
pub(crate) fn ring_body(
    alloc: Global,
    times: Times,
    form: &StreamForm,
    body: &[u8],
    room: &mut Text,
) -> Result<Option<Fields>, Memory>
    ensures { IfOk result (λ read. MatchOption read ((values : List Field) → IsRingBody times form.now body.now values → ⊥) (λ values. IsRingBody times form.now body.now values)) }
{
    match behind_name(b"ring", body) {
        None => Ok(None),
        Some(words) => ring_values(alloc, form.kind, most_values(times, form), words, room),
    }
}

/// The panes that the line of a window tells.
pub(crate) fn panes_body(
    alloc: Global,
    times: Times,
    kind: Kind,
    window: &WindowForm,
    body: &[u8],
) -> Result<Option<Option<SavedPanes>>, Memory>
    requires times { AreTimes times }
    requires length { 1 ≤ window.now.pane }
    ensures { IfOk result (λ read. MatchOption read ((p : Option SavedPanes) → IsPanesBody times kind window.now body.now p → ⊥) (λ p. IsPanesBody times kind window.now body.now p)) }
{
    match behind_name(b"panes", body) {
        None => Ok(None),
        Some(words) => match behind_number(window.number as u64, words) {
            None => Ok(None),
            Some(rest) => panes(alloc, times, kind, window, rest),
        },
    }
}
