//! Laws of what is found at the front of a text, about definitions alone.

ghost use Rattle.lola_lexer.specs.Laws.{LongestIsFound, GapIsFound, NothingIsBad};
ghost use Rattle.lola_lexer.specs.Written.{WrittenIsCut};

/// The token that is found is the longest front that is one, where no comment begins and no number is cut; and it is
/// always found.
pub fn longest_is_found()
    ensures { LongestIsFound }
{}

/// Blanks, and comments that are closed and are UTF-8, are found, and nothing else is found between tokens.
pub fn gap_is_found()
    ensures { GapIsFound }
{}

/// What is found bad is exactly where no token, blank or comment stands.
pub fn nothing_is_bad()
    ensures { NothingIsBad }
{}

/// Tokens that are written one behind the other, with a blank behind each, are cut into the same tokens again, each with
/// its bytes.
pub fn written_is_cut()
    ensures { WrittenIsCut }
{}
