//! The laws, about definitions alone.

ghost use Rattle.lola_parser.specs.Law.{LeavesSentences, OwnPlaceIsDeep, SkimsSentences};
ghost use Rattle.lola_parser.specs.Limit.{HasLongestFront, TooDeepIsLateInEvery, LateInEveryIsTooDeep, UnexpectedKeepsTheLimit, TooDeepIsFirst, TooDeepStandsThere, TooDeepStandsExactly};

/// What is left behind an expression, where no nesting is counted and however deep it is nested, stands behind an expression.
pub fn leaves_sentences()
    ensures { LeavesSentences }
{}

/// Each expression that what follows it does not go on is recognized as a whole.
pub fn skims_sentences()
    ensures { SkimsSentences }
{}

/// Where reading is refused as too deep, and no bracket with 512 nestings behind it stands there directly behind the last `with`,
/// which a spawn clause has, the nesting at which reading ended is the first that is the 513th or a later one of a whole
/// expression or formula in every specification that begins with the tokens before the first one that does not fit.
pub fn own_place_is_deep()
    ensures { OwnPlaceIsDeep }
{}

/// In each text there is a first token such that no specification begins with the tokens up to it, or there is none such: what
/// the laws below call the tokens before the first one that does not fit is there for every text.
pub fn has_longest_front()
    ensures { HasLongestFront }
{}

/// The nesting at which reading is refused as too deep is the 513th or a later nesting of a whole expression or formula in every
/// specification that begins with the tokens before the first one that does not fit, also where the tokens are no
/// specification.
pub fn deep_in_every()
    ensures { TooDeepIsLateInEvery }
{}

/// Where a nesting before the first token that does not fit is the 513th or a later nesting of a whole expression or formula in
/// every specification that begins with the tokens before that token, the text is refused as too deep, and not at that token.
pub fn deep_is_refused()
    ensures { LateInEveryIsTooDeep }
{}

/// Where a text is refused at a token that does not fit, the tokens before it begin a specification in which none of them is
/// the 513th or a later nesting of a whole expression or formula.
pub fn unexpected_keeps_the_limit()
    ensures { UnexpectedKeepsTheLimit }
{}

/// The nesting at which reading is refused as too deep is, in each specification that begins with the tokens before the first one
/// that does not fit, the 513th of a whole expression or formula and the first too many. Or, behind a bracket that begins an
/// expression behind the `with` of a spawn, it is the next nesting.
pub fn too_deep_is_first()
    ensures { TooDeepIsFirst }
{}

/// The first nesting that is the 513th or a later nesting in every specification that begins with the tokens before the first one
/// that does not fit is refused as too deep. Or the next nesting is, and in each of these specifications both stand behind a
/// bracket that begins an expression behind the `with` of a spawn.
pub fn too_deep_stands_there()
    ensures { TooDeepStandsThere }
{}

/// A text is refused as too deep exactly at the first nesting that is the 513th or a later one of a whole expression or formula in
/// every specification that begins with the tokens before the first one that does not fit; unless in each of these a bracketed
/// expression behind the `with` of a spawn has more than 512 nestings in its bracket.
pub fn too_deep_stands_exactly()
    ensures { TooDeepStandsExactly }
{}
