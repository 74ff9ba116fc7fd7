//! The words that a command is given, by their numbers.

ghost use Rattle.std.specs.Prelude.{◌≡◌, map, string_bytes};
ghost use Rattle.lola_value.specs.Words.{word_at as word_at_of};

/// The word of a number, counted from 0, or an empty one where there is none.
pub fn word_at(words: &[String], number: usize) -> &str
    ensures { result.now ≡ word_at_of (map string_bytes words.now) number }
{
    match words.get(number) {
        Some(word) => word.as_str(),
        None => "",
    }
}
