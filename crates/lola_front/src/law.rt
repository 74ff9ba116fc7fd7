//! The laws, about definitions alone.

ghost use Rattle.lola_front.specs.Filled.{FilledIsNamed, FilledIsTyped};

/// What the check of kinds gives is typed: of every named specification whose noted literals are those of its constants
/// and of which nothing is refused, with its kinds filled in, each part has the kind that its row of the table of kinds
/// asks for, and each literal is in the range of its kind.
pub fn filled_is_typed()
    ensures { FilledIsTyped }
{}

/// What the check of kinds gives is named as before: kinds that are filled in change no name, no shape of a stream, and no
/// number of a window, an offset or a text.
pub fn filled_is_named()
    ensures { FilledIsNamed }
{}
