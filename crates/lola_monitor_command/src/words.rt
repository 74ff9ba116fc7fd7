//! What the words behind a command say.

ghost use Rattle.std.specs.Prelude.{◌≡◌, ◌≤◌, ◌++◌, IfOk, OnOk, drop, length, map, slice_get, string_bytes, option_map, false};
ghost use Rattle.lola_monitor_command.specs.Said.{said_from, names_from};

use crate::options::thing;
use crate::said::{Said, SaidList, WordSense};
use lola_value::text::Memory;
use std::alloc::Global;

// The bytes of a word, if there is one of this number.
fn word_behind(words: &[String], at: usize) -> Option<&[u8]>
    ensures { option_map (λ w. w.now) result ≡ slice_get (map string_bytes words.now) at }
{
    match words.get(at) {
        None => None,
        Some(word) => Some(word.as_bytes()),
    }
}

// Puts the words from here on behind what is said, as names.
fn push_names(said: &mut SaidList, words: &[String], from: usize) -> Result<(), Memory>
    requires { from ≤ length words.now }
    ensures { OnOk result (said.new ≡ said.old ++ names_from from (drop from (map string_bytes words.now))) }
{
    for at in from..words.len() {
        said.push(Said::Name(at))?;
    }
    Ok(())
}

/// What the words from this number on say; none where a word is wrong.
pub fn all_said(alloc: Global, words: &[String], from: usize) -> Result<Option<SaidList>, Memory>
    requires { from ≤ length words.now }
    ensures { IfOk result (λ said. said ≡ said_from false from (drop from (map string_bytes words.now))) }
{
    let mut said = SaidList::create(alloc);
    let mut at = from;
    while at < words.len() {
        match thing(at, words[at].as_bytes(), word_behind(words, at + 1)) {
            WordSense::Wrong => return Ok(None),
            WordSense::Dashes => {
                push_names(&mut said, words, at + 1)?;
                return Ok(Some(said));
            }
            WordSense::Says(one, takes_next) => {
                said.push(one)?;
                at += if takes_next { 2 } else { 1 };
            }
        }
    }
    Ok(Some(said))
}
