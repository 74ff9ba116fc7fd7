//! What one word says.

ghost use Rattle.std.specs.Prelude.{◌≡◌, ◌≤◌, ◌<◌, ◌+◌, ◌^◌, option_map, length, true, false, Some, None, if◌then◌else◌, position};
ghost use Rattle.std.specs.List.{list_all};
ghost use Rattle.lola_value.specs.Times.{is_digit, number_of};
ghost use Rattle.lola_monitor_command.specs.Said.{begins_with_minus, is_option, show_by, is_worker_count, workers_by, start_by, intake_by, option_by, option_with, is_equals, says, valued as valued_by, thing_of};

use crate::said::{IntakeKind, NamePlace, Said, WordSense};
use lola_model::journal::Show;
use lola_value::times::time_read;

fn starts_with_minus(word: &[u8]) -> bool
    ensures { result ≡ begins_with_minus word.now }
{
    match word.first() {
        None => false,
        Some(byte) => *byte == b'-',
    }
}

fn is_option_word(word: &[u8]) -> bool
    ensures { result ≡ is_option word.now }
{
    starts_with_minus(word) && word.len() > 1
}

fn show_value(value: &[u8]) -> Option<Said>
    ensures { result ≡ show_by value.now }
{
    if value == b"triggers".as_slice() {
        Some(Said::Show(Show::Triggers))
    } else if value == b"outputs".as_slice() {
        Some(Said::Show(Show::Outputs))
    } else {
        None
    }
}

/// Whether there are digits alone.
pub fn all_digits(value: &[u8]) -> bool
    ensures { result ≡ list_all is_digit value.now }
{
    value.iter().all(|byte| *byte >= b'0' && *byte <= b'9')
}

// The number that one digit or two spell.
fn small_number(value: &[u8]) -> u32
    requires short { length value.now ≤ 2 }
    requires digits { list_all is_digit value.now ≡ true }
    ensures { result ≡ number_of value.now }
{
    match value {
        [one] => (*one - b'0') as u32,
        [ten, one] => 10 * ((*ten - b'0') as u32) + (*one - b'0') as u32,
        _ => 0,
    }
}

// How many workers a value says, if it says it.
fn worker_count(value: &[u8]) -> Option<u32>
    ensures { result ≡ (if is_worker_count value.now then Some (number_of value.now) else None) }
{
    if value.is_empty() || value.len() > 2 || !all_digits(value) {
        return None;
    }
    let count = small_number(value);
    if count < 1 || count > 64 {
        None
    } else {
        Some(count)
    }
}

fn workers_value(value: &[u8]) -> Option<Said>
    ensures { result ≡ workers_by value.now }
{
    match worker_count(value) {
        None => None,
        Some(count) => Some(Said::Workers(count)),
    }
}

fn start_value(value: &[u8]) -> Option<Said>
    ensures { result ≡ start_by value.now }
{
    match time_read(value) {
        None => None,
        Some(start) => Some(Said::Start(start)),
    }
}

fn intake_value(value: &[u8]) -> Option<Said>
    ensures { result ≡ intake_by value.now }
{
    if value == b"lock".as_slice() {
        Some(Said::Intake(IntakeKind::Lock))
    } else if value == b"queue".as_slice() {
        Some(Said::Intake(IntakeKind::Queue))
    } else {
        None
    }
}

// The option of this name with this value, which stands at this place, if there is one.
fn option_of(name: &[u8], value: &[u8], place: NamePlace) -> Option<Said>
    ensures { result ≡ option_by name.now value.now place }
{
    if name == b"--show".as_slice() {
        show_value(value)
    } else if name == b"--workers".as_slice() {
        workers_value(value)
    } else if name == b"--start".as_slice() {
        start_value(value)
    } else if name == b"--intake".as_slice() {
        intake_value(value)
    } else if name == b"--resume".as_slice() {
        Some(Said::Resume(place))
    } else {
        None
    }
}

// The option of this name, which is the word of this number, with the next word as its value.
fn option_with_next(at: usize, name: &[u8], next: Option<&[u8]>) -> Option<Said>
    requires { at + 1 < 2 ^ 64 }
    ensures { result ≡ option_with at name.now (option_map (λ w. w.now) next.entry) }
{
    match next {
        None => None,
        Some(value) => {
            if starts_with_minus(value) {
                None
            } else {
                let place = NamePlace {
                    word: at + 1,
                    from: 0,
                };
                option_of(name, value, place)
            }
        }
    }
}

// Where the first `=` is.
fn equals_place(word: &[u8]) -> Option<usize>
    ensures { result ≡ position is_equals word.now }
{
    word.iter().position(|byte| *byte == b'=')
}

fn says_option(takes_next: bool, option: Option<Said>) -> WordSense
    ensures { result ≡ says takes_next option }
{
    match option {
        None => WordSense::Wrong,
        Some(said) => WordSense::Says(said, takes_next),
    }
}

// What an option says that has more than a name of its own: its value in the same word or in the next one.
fn valued(at: usize, word: &[u8], next: Option<&[u8]>) -> WordSense
    requires { at + 1 < 2 ^ 64 }
    ensures { result ≡ valued_by at word.now (option_map (λ w. w.now) next.entry) (position is_equals word.now) }
{
    match equals_place(word) {
        None => says_option(true, option_with_next(at, word, next)),
        Some(equals) => {
            let place = NamePlace {
                word: at,
                from: equals + 1,
            };
            says_option(
                false,
                option_of(&word[..equals], &word[equals + 1..], place),
            )
        }
    }
}

/// What the word of a number says, with the word behind it.
pub fn thing(at: usize, word: &[u8], next: Option<&[u8]>) -> WordSense
    requires { at + 1 < 2 ^ 64 }
    ensures { result ≡ thing_of at word.now (option_map (λ w. w.now) next.entry) }
{
    if word == b"--".as_slice() {
        WordSense::Dashes
    } else if !is_option_word(word) {
        WordSense::Says(Said::Name(at), false)
    } else if word == b"--in-turns".as_slice() {
        WordSense::Says(Said::InTurns, false)
    } else {
        valued(at, word, next)
    }
}
