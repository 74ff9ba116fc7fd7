//! Commands.

ghost use Rattle.std.specs.Prelude.{◌≡◌, ◌≤◌, ◌++◌, true, false, if◌then◌else◌, IfOk, IfSome, OnOk, drop, length, map, string_bytes};
ghost use Rattle.std.specs.List.{list_all};
ghost use Rattle.lola_value.specs.Times.{is_digit, number_of};
ghost use Rattle.lola_monitor_command.specs.Bounds.{IsInBounds};
ghost use Rattle.lola_monitor_command.specs.Said.{said_from};
ghost use Rattle.lola_monitor_command.specs.Command.{front_names, behind_names, are_sources, run_over, run_of, analyse_of, is_number, drill_with, drill_of, replay_by, replay_of, replay_with, snapshot_over, snapshot_of, of_said, command_of};

use crate::options::all_digits;
use crate::said::{IntakeKind, NamePlace, Said};
use crate::settings::{
    how_many_workers, is_once, is_start_or_state, past_options, suit_replay, suit_snapshot,
    what_is_shown, where_rows_come_in, where_time_begins, whether_in_turns, which_state,
};
use crate::words::all_said;
use lola_model::journal::Show;
use lola_value::list::ListOf;
use lola_value::text::Memory;
use lola_value::words::word_at;
use std::alloc::Global;

/// Numbers of words of the command line, from 0 for the program's name.
pub type WordNumbers = ListOf<usize>;

/// What the words say of a run.
#[derive(Drop)]
pub struct RunCommand {
    /// The word that names the specification.
    pub specification: usize,
    /// The words that name the sources, from 1 to 64, in their order.
    pub sources: WordNumbers,
    /// What is shown; triggers where nothing is said.
    pub show: Show,
    /// How many workers there are, from 1 to 64; 1 where nothing is said.
    pub workers: u32,
    /// Where time begins, in nanoseconds, if it is said.
    pub start: Option<u64>,
    /// Whether the sources are read in turns on one thread.
    pub in_turns: bool,
    /// What the sources hand their rows in at unless they are read in turns; the lock's intake where nothing is said.
    pub intake: IntakeKind,
    /// The saved state from which the run goes on, if one is named; then `start` is none.
    pub state: Option<NamePlace>,
}

/// What the words say of a snapshot: a run that ends with its state, which is saved.
#[derive(Drop)]
pub struct SnapshotCommand {
    /// The word that names the specification.
    pub specification: usize,
    /// The words that name the sources, from 1 to 64, in their order.
    pub sources: WordNumbers,
    /// Where time begins, in nanoseconds, if it is said.
    pub start: Option<u64>,
    /// The saved state from which the run goes on, if one is named; then `start` is none.
    pub state: Option<NamePlace>,
}

/// What the words say of a drill.
#[derive(Clone, Copy)]
pub struct DrillCommand {
    /// The number that all rows come from, at most 2147483646.
    pub number: u64,
    /// How many rows each of the two sources has, from 1 to 1,000,000.
    pub rows: u32,
    /// How many workers there are, from 1 to 64.
    pub workers: u32,
}

/// What the words say of a replay.
#[derive(Clone, Copy)]
pub struct ReplayCommand {
    /// The word that names the specification.
    pub specification: usize,
    /// The word that names the trace.
    pub trace: usize,
    /// The word that names the verdicts.
    pub verdicts: usize,
    /// What the run showed; triggers where nothing is said.
    pub show: Show,
    /// Where its time began, in nanoseconds, if it is said.
    pub start: Option<u64>,
}

/// A command.
#[derive(Drop)]
pub enum Command {
    /// `run [--show triggers|outputs] [--workers N] [--start T | --resume STATE] [--in-turns] [--intake lock|queue] SPEC SOURCE..`
    Run(RunCommand),
    /// `analyse SPEC`, by the word that names the specification.
    Analyse(usize),
    /// `drill NUMBER ROWS WORKERS`
    Drill(DrillCommand),
    /// `replay [--show triggers|outputs] [--start T] SPEC TRACE VERDICTS`
    Replay(ReplayCommand),
    /// `snapshot [--start T | --resume STATE] SPEC SOURCE..`
    Snapshot(SnapshotCommand),
}

// Moves the names at the front behind others, and gives what stands behind them.
fn take_names<'a>(names: &mut WordNumbers, said: &'a [Said]) -> Result<&'a [Said], Memory>
    ensures names { OnOk result (names.new ≡ names.old ++ front_names said.now) }
    ensures rest { IfOk result (λ rest. rest.now ≡ behind_names said.now) }
{
    for at in 0..said.len() {
        match said[at] {
            Said::Name(word) => names.push(word)?,
            _ => return Ok(&said[at..]),
        }
    }
    Ok(&said[said.len()..])
}

// Whether these can be the sources, with this behind them.
fn can_be_sources(sources: &[usize], rest: &[Said]) -> bool
    ensures { result ≡ are_sources sources.now rest.now }
{
    !sources.is_empty() && sources.len() <= 64 && past_options(rest).is_empty()
}

// A run over this specification, with what stands behind its name and the options there.
fn run_over_specification(
    alloc: Global,
    said: &[Said],
    specification: usize,
    behind: &[Said],
) -> Result<Option<Command>, Memory>
    ensures { IfOk result (λ command. command ≡ run_over said.now specification behind.now) }
{
    let mut sources = WordNumbers::create(alloc);
    let rest = take_names(&mut sources, behind)?;
    if !is_once(said) || !is_start_or_state(said) || !can_be_sources(sources.as_slice(), rest) {
        return Ok(None);
    }
    Ok(Some(Command::Run(RunCommand {
        specification,
        sources,
        show: what_is_shown(said),
        workers: how_many_workers(said),
        start: where_time_begins(said),
        in_turns: whether_in_turns(said),
        intake: where_rows_come_in(said),
        state: which_state(said),
    })))
}

// The run that this says.
fn run_said(alloc: Global, said: &[Said]) -> Result<Option<Command>, Memory>
    ensures { IfOk result (λ command. command ≡ run_of said.now) }
{
    let front = past_options(said);
    match front.first() {
        Some(Said::Name(specification)) => {
            run_over_specification(alloc, said, *specification, past_options(&front[1..]))
        }
        _ => Ok(None),
    }
}

// The analysis that this says.
fn analysis_said(said: &[Said]) -> Option<Command>
    ensures { result ≡ analyse_of said.now }
{
    match said {
        [Said::Name(specification)] => Some(Command::Analyse(*specification)),
        _ => None,
    }
}

// The number that at most ten digits spell.
fn number_spelled(digits: &[u8]) -> u64
    requires short { length digits.now ≤ 10 }
    requires digits { list_all is_digit digits.now ≡ true }
    ensures { result ≡ number_of digits.now }
{
    let mut number = 0;
    for digit in digits {
        number = number * 10 + (*digit - b'0') as u64;
    }
    number
}

// The number that a word of 1 to so many digits spells, if it is between two others.
fn number_between(word: &[u8], digits: usize, least: u64, most: u64) -> Option<u64>
    requires { digits ≤ 10 }
    ensures { result ≡ (if is_number digits least most word.now then Some (number_of word.now) else None) }
{
    if word.is_empty() || word.len() > digits || !all_digits(word) {
        return None;
    }
    let number = number_spelled(word);
    if number < least || number > most {
        None
    } else {
        Some(number)
    }
}

// A drill of these words.
fn drill_of_words(number: &[u8], rows: &[u8], workers: &[u8]) -> Option<Command>
    ensures { result ≡ drill_with number.now rows.now workers.now }
{
    let number = number_between(number, 10, 0, 2_147_483_646)?;
    let rows = number_between(rows, 7, 1, 1_000_000)?;
    let workers = number_between(workers, 2, 1, 64)?;
    Some(Command::Drill(DrillCommand {
        number,
        rows: rows as u32,
        workers: workers as u32,
    }))
}

// The drill that this says.
fn drill_said(words: &[String], said: &[Said]) -> Option<Command>
    ensures { result ≡ drill_of (map string_bytes words.now) said.now }
{
    match said {
        [Said::Name(number), Said::Name(rows), Said::Name(workers)] => drill_of_words(
            word_at(words, *number).as_bytes(),
            word_at(words, *rows).as_bytes(),
            word_at(words, *workers).as_bytes(),
        ),
        _ => None,
    }
}

// A replay of what these words name, with this behind them.
fn replay_of_names(
    said: &[Said],
    specification: usize,
    trace: usize,
    verdicts: usize,
    rest: &[Said],
) -> Option<Command>
    ensures { result ≡ replay_with said.now specification trace verdicts rest.now }
{
    if !is_once(said) || !suit_replay(said) || !past_options(rest).is_empty() {
        return None;
    }
    Some(Command::Replay(ReplayCommand {
        specification,
        trace,
        verdicts,
        show: what_is_shown(said),
        start: where_time_begins(said),
    }))
}

// The replay that this says, with this behind the options at its front.
fn replay_behind(said: &[Said], front: &[Said]) -> Option<Command>
    ensures { result ≡ replay_by said.now front.now }
{
    match front {
        [
            Said::Name(specification),
            Said::Name(trace),
            Said::Name(verdicts),
            rest @ ..,
        ] => replay_of_names(said, *specification, *trace, *verdicts, rest),
        _ => None,
    }
}

// The replay that this says.
fn replay_said(said: &[Said]) -> Option<Command>
    ensures { result ≡ replay_of said.now }
{
    replay_behind(said, past_options(said))
}

// A snapshot over this specification, with what stands behind its name and the options there.
fn snapshot_over_specification(
    alloc: Global,
    said: &[Said],
    specification: usize,
    behind: &[Said],
) -> Result<Option<Command>, Memory>
    ensures { IfOk result (λ command. command ≡ snapshot_over said.now specification behind.now) }
{
    let mut sources = WordNumbers::create(alloc);
    let rest = take_names(&mut sources, behind)?;
    if !is_once(said)
        || !is_start_or_state(said)
        || !suit_snapshot(said)
        || !can_be_sources(sources.as_slice(), rest)
    {
        return Ok(None);
    }
    Ok(Some(Command::Snapshot(SnapshotCommand {
        specification,
        sources,
        start: where_time_begins(said),
        state: which_state(said),
    })))
}

// The snapshot that this says.
fn snapshot_said(alloc: Global, said: &[Said]) -> Result<Option<Command>, Memory>
    ensures { IfOk result (λ command. command ≡ snapshot_of said.now) }
{
    let front = past_options(said);
    match front.first() {
        Some(Said::Name(specification)) => {
            snapshot_over_specification(alloc, said, *specification, past_options(&front[1..]))
        }
        _ => Ok(None),
    }
}

// The run that the words behind `run` are.
fn read_run(alloc: Global, words: &[String]) -> Result<Option<Command>, Memory>
    requires { 2 ≤ length words.now }
    ensures { IfOk result (λ command. command ≡ of_said run_of (said_from false 2 (drop 2 (map string_bytes words.now)))) }
{
    match all_said(alloc, words, 2)? {
        Some(said) => run_said(alloc, said.as_slice()),
        None => Ok(None),
    }
}

// The analysis that the words behind `analyse` are.
fn read_analysis(alloc: Global, words: &[String]) -> Result<Option<Command>, Memory>
    requires { 2 ≤ length words.now }
    ensures { IfOk result (λ command. command ≡ of_said analyse_of (said_from false 2 (drop 2 (map string_bytes words.now)))) }
{
    match all_said(alloc, words, 2)? {
        Some(said) => Ok(analysis_said(said.as_slice())),
        None => Ok(None),
    }
}

// The drill that the words behind `drill` are.
fn read_drill(alloc: Global, words: &[String]) -> Result<Option<Command>, Memory>
    requires { 2 ≤ length words.now }
    ensures { IfOk result (λ command. command ≡ of_said (drill_of (map string_bytes words.now)) (said_from false 2 (drop 2 (map string_bytes words.now)))) }
{
    match all_said(alloc, words, 2)? {
        Some(said) => Ok(drill_said(words, said.as_slice())),
        None => Ok(None),
    }
}

// The replay that the words behind `replay` are.
fn read_replay(alloc: Global, words: &[String]) -> Result<Option<Command>, Memory>
    requires { 2 ≤ length words.now }
    ensures { IfOk result (λ command. command ≡ of_said replay_of (said_from false 2 (drop 2 (map string_bytes words.now)))) }
{
    match all_said(alloc, words, 2)? {
        Some(said) => Ok(replay_said(said.as_slice())),
        None => Ok(None),
    }
}

// The snapshot that the words behind `snapshot` are.
fn read_snapshot(alloc: Global, words: &[String]) -> Result<Option<Command>, Memory>
    requires { 2 ≤ length words.now }
    ensures { IfOk result (λ command. command ≡ of_said snapshot_of (said_from false 2 (drop 2 (map string_bytes words.now)))) }
{
    match all_said(alloc, words, 2)? {
        Some(said) => snapshot_said(alloc, said.as_slice()),
        None => Ok(None),
    }
}

/// The command that the words of a command line are, or none where they are no command. The first word is the
/// program's name, the second `run`, `analyse`, `drill`, `replay` or `snapshot`.
///
/// The options of a run or of a snapshot stand before the specification, between it and the first source, or behind the last
/// source, those of a replay before the specification or behind the verdicts, and each comes at most once, as `--name value` or
/// `--name=value`. A value in a word of its own does not begin with a minus. With `--start` there is no `--resume`; a snapshot has
/// these two options alone, a replay neither `--resume` nor what says how rows come in. A word `--` makes all words behind it
/// names. A drill has no option and three numbers, each of digits alone.
///
/// There are from 1 to 64 workers and from 1 to 64 sources, a start is at most the latest time that a row can have, and the numbers of a
/// drill are those that `DrillCommand` tells.
pub fn read_command(alloc: Global, words: &[String]) -> Result<Option<Command>, Memory>
    ensures command { IfOk result (λ command. command ≡ command_of (map string_bytes words.now)) }
    ensures bounds { IfOk result (λ command. IfSome command IsInBounds) }
{
    if words.len() < 2 {
        return Ok(None);
    }
    match words[1].as_str() {
        "run" => read_run(alloc, words),
        "analyse" => read_analysis(alloc, words),
        "drill" => read_drill(alloc, words),
        "replay" => read_replay(alloc, words),
        "snapshot" => read_snapshot(alloc, words),
        _ => Ok(None),
    }
}
