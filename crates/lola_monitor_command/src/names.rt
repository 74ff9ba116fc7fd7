//! Names that stand in a part of a word.

ghost use Rattle.std.specs.Prelude.{◌≡◌, Some, map, string_bytes};
ghost use Rattle.lola_monitor_command.specs.Said.{name_at};
ghost use Rattle.lola_monitor_command.specs.Command.{command_of, state_of};

use crate::said::NamePlace;
use lola_value::words::word_at;

/// The name of the saved state that these words name, by the place that their command tells: the whole word, or what stands in it
/// behind the first `=`.
pub fn named(words: &[String], place: NamePlace) -> &str
    requires { state_of (command_of (map string_bytes words.now)) ≡ Some place }
    ensures { result.now ≡ name_at (map string_bytes words.now) place }
{
    &word_at(words, place.word)[place.from..]
}
