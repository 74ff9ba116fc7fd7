//! Laws about definitions alone.

ghost use Rattle.lola_parser_law.specs.Literals.{IntegersRead, TextsRead, QuantitiesRead};
ghost use Rattle.lola_parser_law.specs.Places.{CutIsLexed, PrintedIsCut};
ghost use Rattle.lola_parser_law.specs.Round.{PlacesAreFree, ReadIsWithin, ReadIsPrintable, IsReprinted, PlacesAreNotPrinted};

/// An integer that is printed is read back, if it has no more than 128 bits.
pub fn integers_read()
    ensures { IntegersRead }
{}

/// A text that is printed is read back, whatever its bytes are.
pub fn texts_read()
    ensures { TextsRead }
{}

/// A quantity that was read of a token is printed as the token was written, and so it is read back.
pub fn quantities_read()
    ensures { QuantitiesRead }
{}

/// What is cut from a text are tokens of the language.
pub fn cut_is_lexed()
    ensures { CutIsLexed }
{}

/// Tokens that are printed are cut from the printed text, each with its bytes, whatever their places were.
pub fn printed_is_cut()
    ensures { PrintedIsCut }
{}

/// What tokens spell is spelled by the same tokens at other places too, places left aside, and within the same limit.
pub fn places_are_free()
    ensures { PlacesAreFree }
{}

/// What is read is spelled by its tokens within the limit of nestings.
pub fn read_is_within()
    ensures { ReadIsWithin }
{}

/// What is read of a text is of the grammar's shape, its literals are read back as they are printed, and what is printed
/// of it are tokens of the language.
pub fn read_is_printable()
    ensures { ReadIsPrintable }
{}

/// What is printed of a specification that was read is read as the same specification, places left aside, and printed as the
/// same text again, if it is no longer than a text may be.
pub fn reprinted()
    ensures { IsReprinted }
{}

/// Trees that differ in their places alone are printed alike: what is printed of a tree that was read back is the same
/// text again.
pub fn places_are_not_printed()
    ensures { PlacesAreNotPrinted }
{}
