//! What the options of a command say together.

ghost use Rattle.std.specs.Prelude.{◌≡◌, filter, length};
ghost use Rattle.std.specs.List.{list_all};
ghost use Rattle.lola_monitor_command.specs.Command.{is_show, is_workers, is_start, is_in_turns, is_intake, is_resume, come_once, start_or_state, suit_replay, suits_replay, suit_snapshot, suits_snapshot, show_said, workers_said, start_said, in_turns_said, intake_said, state_said, behind_options};

use crate::said::{IntakeKind, NamePlace, Said};
use lola_model::journal::Show;

// How often an option comes.
fn count_shows(said: &[Said]) -> usize
    ensures { result ≡ length (filter is_show said.now) }
{
    said.iter()
        .filter(|one| matches!(one, Said::Show(_)))
        .count()
}

fn count_workers(said: &[Said]) -> usize
    ensures { result ≡ length (filter is_workers said.now) }
{
    said.iter()
        .filter(|one| matches!(one, Said::Workers(_)))
        .count()
}

fn count_starts(said: &[Said]) -> usize
    ensures { result ≡ length (filter is_start said.now) }
{
    said.iter()
        .filter(|one| matches!(one, Said::Start(_)))
        .count()
}

fn count_in_turns(said: &[Said]) -> usize
    ensures { result ≡ length (filter is_in_turns said.now) }
{
    said.iter()
        .filter(|one| matches!(one, Said::InTurns))
        .count()
}

fn count_intakes(said: &[Said]) -> usize
    ensures { result ≡ length (filter is_intake said.now) }
{
    said.iter()
        .filter(|one| matches!(one, Said::Intake(_)))
        .count()
}

fn count_states(said: &[Said]) -> usize
    ensures { result ≡ length (filter is_resume said.now) }
{
    said.iter()
        .filter(|one| matches!(one, Said::Resume(_)))
        .count()
}

/// Whether each option comes at most once.
pub(crate) fn is_once(said: &[Said]) -> bool
    ensures { result ≡ come_once said.now }
{
    count_shows(said) <= 1
        && count_workers(said) <= 1
        && count_starts(said) <= 1
        && count_in_turns(said) <= 1
        && count_intakes(said) <= 1
        && count_states(said) <= 1
}

/// Whether there is no start, or no state from which a run goes on.
pub(crate) fn is_start_or_state(said: &[Said]) -> bool
    ensures { result ≡ start_or_state said.now }
{
    count_starts(said) == 0 || count_states(said) == 0
}

/// What is shown.
pub(crate) fn what_is_shown(said: &[Said]) -> Show
    ensures { result ≡ show_said said.now }
{
    for one in said {
        if let Said::Show(show) = one {
            return *show;
        }
    }
    Show::Triggers
}

/// How many workers there are.
pub(crate) fn how_many_workers(said: &[Said]) -> u32
    ensures { result ≡ workers_said said.now }
{
    for one in said {
        if let Said::Workers(count) = one {
            return *count;
        }
    }
    1
}

/// Where time begins, in nanoseconds, if that is said.
pub(crate) fn where_time_begins(said: &[Said]) -> Option<u64>
    ensures { result ≡ start_said said.now }
{
    for one in said {
        if let Said::Start(start) = one {
            return Some(*start);
        }
    }
    None
}

/// Whether sources are read in turns.
pub(crate) fn whether_in_turns(said: &[Said]) -> bool
    ensures { result ≡ in_turns_said said.now }
{
    for one in said {
        if let Said::InTurns = one {
            return true;
        }
    }
    false
}

/// What sources hand their rows in at.
pub(crate) fn where_rows_come_in(said: &[Said]) -> IntakeKind
    ensures { result ≡ intake_said said.now }
{
    for one in said {
        if let Said::Intake(kind) = one {
            return *kind;
        }
    }
    IntakeKind::Lock
}

/// The saved state from which a run goes on, if one is named.
pub(crate) fn which_state(said: &[Said]) -> Option<NamePlace>
    ensures { result ≡ state_said said.now }
{
    for one in said {
        if let Said::Resume(place) = one {
            return Some(*place);
        }
    }
    None
}

/// What stands behind the options at the front.
pub(crate) fn past_options(said: &[Said]) -> &[Said]
    ensures { result.now ≡ behind_options said.now }
{
    for at in 0..said.len() {
        if let Said::Name(_) = said[at] {
            return &said[at..];
        }
    }
    &said[said.len()..]
}

// Whether this is no option that a replay does not have.
fn suits_replay(one: &Said) -> bool
    ensures { result ≡ suits_replay one.now }
{
    !matches!(
        one,
        Said::Workers(_) | Said::InTurns | Said::Intake(_) | Said::Resume(_)
    )
}

/// Whether there is no option that a replay does not have.
pub(crate) fn suit_replay(said: &[Said]) -> bool
    ensures { result ≡ suit_replay said.now }
{
    said.iter().all(suits_replay)
}

// Whether this is no option that a snapshot does not have.
fn suits_snapshot(one: &Said) -> bool
    ensures { result ≡ suits_snapshot one.now }
{
    matches!(one, Said::Name(_) | Said::Start(_) | Said::Resume(_))
}

/// Whether there is no option that a snapshot does not have.
pub(crate) fn suit_snapshot(said: &[Said]) -> bool
    ensures { result ≡ suit_snapshot said.now }
{
    said.iter().all(suits_snapshot)
}
