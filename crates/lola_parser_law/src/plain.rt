//! The laws, about definitions alone.

ghost use Rattle.lola_parser_law.specs.Alike.{AnswersPlainly, HasOneTree, SameSentences};

/// A list of tokens spells a tree by the plain grammar, however deep it is nested, exactly where it does by the grammar
/// that the parser reads by.
pub fn same_sentences()
    ensures { SameSentences }
{}

/// A list of tokens spells at most one tree by the plain grammar.
pub fn has_one_tree()
    ensures { HasOneTree }
{}

/// What `parse` promises, said of the plain grammar. What it gives is spelled, what is spelled within the limit of nestings
/// it gives, and the place of a token that does not fit is that of the first token such that no specification begins
/// with the tokens up to it.
pub fn answers_plainly()
    ensures { AnswersPlainly }
{}
