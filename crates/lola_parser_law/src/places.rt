//! The laws, about definitions alone.

ghost use Rattle.lola_parser_law.specs.Law.{FirstLateIsRefused, LateIsPlaced, PlaceBehindIsDeep, PlaceBehindNextIsDeep, PlaceInListIsDeep, PlaceIsDeep, PlaceIsExact};

/// Where reading is refused as too deep, and behind the bracket of a spawn clause's `with` no expression with 512 nestings before
/// that place goes past it and ends at a closing bracket, the nesting at which reading ended is the first that is the 513th or a
/// later one of a whole expression or formula in every specification that begins with the tokens before the first one that does
/// not fit.
pub fn place_in_list_is_deep()
    ensures { PlaceInListIsDeep }
{}

/// Where in every specification that begins so the nesting at which reading ended is the next behind the 513th, which stands behind
/// a bracket that begins an expression behind the `with` of a spawn, the last nesting before it is the first that is the 513th or a
/// later one of a whole expression or formula in every such specification.
pub fn place_behind_next_is_deep()
    ensures { PlaceBehindNextIsDeep }
{}

/// Where behind the bracket of a spawn clause's `with` an expression with 512 nestings before the place at which reading ended goes
/// past it and ends at a closing bracket, the last nesting before that place is the first that is the 513th or a later one of a
/// whole expression or formula in every specification that begins with the tokens before the first one that does not fit.
pub fn place_behind_is_deep()
    ensures { PlaceBehindIsDeep }
{}

/// The place that is answered for each refusal as too deep is that of the first nesting that is the 513th or a later one of a whole
/// expression or formula in every specification that begins with the tokens before the first one that does not fit. There as in
/// the two laws of the bracket, specifications may be nested in more levels than there are tokens.
pub fn place_is_deep()
    ensures { PlaceIsDeep }
{}

/// Where the tokens are a specification, the place that is answered for its refusal as too deep is that of the 513th nesting of a
/// whole expression or formula in the tree that they spell, and no nesting before it is the 513th or a later one of one; also
/// behind `spawn with (`.
pub fn place_is_exact()
    ensures { PlaceIsExact }
{}

/// Where the tokens are a specification, and a nesting in the tree that they spell is the 513th or a later one of a whole expression
/// or formula, there is a place at which they are refused as too deep.
pub fn deep_is_placed()
    ensures { LateIsPlaced }
{}

/// Where the tokens are a specification with such a nesting, what `lola_parser` answers to them, if memory does not run out, is the
/// refusal as too deep at the first such nesting. So a specification is refused as too deep exactly where a whole expression or
/// formula in it has more than 512 nestings, and at the first 513th.
pub fn first_deep_is_refused()
    ensures { FirstLateIsRefused }
{}
